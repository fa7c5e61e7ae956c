// Steps as arguments of a command.
ghost use Rattle.std.specs.Prelude.{◌≡◌, ◌+◌, ◌≤◌, map, length, Some, string_bytes, codes, IfErr, IfNone, IfOk, IfSome, MatchResult, OnOk};
ghost use Rattle.pile.specs.Arguments.{IsNoNumber, IsNumber, LacksNumbers, NumbersAfter, ReadsNext, ReadsStep, ReadsSteps, Selects, fault_text, reason_text, text_at, words_text};
ghost use Rattle.pile.specs.declared.arguments.ArgumentFault.TheVariants as faults;

use crate::step::Step;
use program::refusal::Refusal;
use program::selector::Selector;
use std::alloc::{AllocFailed, Global};
use std::error::Error;
use std::fmt;

/// Why arguments cannot be read. Each case has the place of the argument, counted from 0.
#[derive(Clone, Copy, Debug, PartialEq, Eq)]
pub enum ArgumentFault {
    /// The argument is no option.
    Unknown(usize),
    /// After this option a number is missing.
    Incomplete(usize),
    /// The argument is no number, or passes 64 bits.
    NoNumber(usize),
    /// The selector after this option is refused.
    Refused(usize, Refusal),
    /// There was no memory for the steps.
    OutOfMemory,
}

/// The steps that the arguments ask for, in order.
#[tactic(auto, using(crate::proofs::Asked::asks_more))]
pub fn read_steps(heap: Global, args: &[String]) -> Result<Vec<Step>, ArgumentFault>
    ensures { ReadsSteps (map string_bytes args.now) result }
{
    let mut steps = Vec::new(heap);
    let mut reader = Reader { args, place: 0 };
    while let Some(step) = reader.next_step()? {
        steps.push(step)?;
    }
    Ok(steps)
}

/// The arguments, and the place of the next one to read.
// A place and no iterator, since faults tell places. That the arguments stay is a clause of each method: behind a
// `&mut` no ghost field can say it.
#[derive(Drop)]
struct Reader<'a> {
    args: &'a [String],
    place: usize,
    ghost within: { place ≤ length args.now },
}

impl<'a> Reader<'a> {
    ghost use Rattle.pile.specs.Readers.{texts};

    /// The step that stands next, unless no argument is left.
    fn next_step(&mut self) -> Result<Option<Step>, ArgumentFault>
        ensures args { self.new.args.now ≡ self.old.args.now }
        ensures step { ReadsNext (texts self.old) self.old.place self.new.place result }
    {
        let Some(option) = self.args.get(self.place) else {
            return Ok(None);
        };
        // by the option's text
        let step = match option.as_str() {
            "--offset" => self.read_offset()?,
            "--select" => self.read_select()?,
            _ => return Err(ArgumentFault::Unknown(self.place)),
        };
        Ok(Some(step))
    }

    /// The step of the option --offset, which stands next.
    fn read_offset(&mut self) -> Result<Step, ArgumentFault>
        requires { text_at (texts self.old) self.old.place ≡ codes "--offset" }
        ensures args { self.new.args.now ≡ self.old.args.now }
        ensures step { ReadsStep (texts self.old) self.old.place self.new.place result }
    {
        let [by] = self.read_numbers::<1>()?;
        Ok(Step::Offset(by))
    }

    /// The step of the option --select, which stands next.
    fn read_select(&mut self) -> Result<Step, ArgumentFault>
        requires { text_at (texts self.old) self.old.place ≡ codes "--select" }
        ensures args { self.new.args.now ≡ self.old.args.now }
        ensures step { ReadsStep (texts self.old) self.old.place self.new.place result }
    {
        let option = self.place;
        let [box_atom, first, last] = self.read_numbers::<3>()?;
        select(option, box_atom, first, last)
    }

    /// The N numbers after the option that stands next.
    fn read_numbers<const N: usize>(&mut self) -> Result<[usize; N], ArgumentFault>
        ensures args { self.new.args.now ≡ self.old.args.now }
        ensures place { OnOk result (self.new.place ≡ self.old.place + (N + 1)) }
        ensures numbers { IfOk result (NumbersAfter (texts self.old) self.old.place N) }
        ensures fault { IfErr result (LacksNumbers (texts self.old) self.old.place N) }
    {
        if self.args.len() - self.place <= N {
            return Err(ArgumentFault::Incomplete(self.place));
        }
        self.place += 1;
        let mut numbers = [0; N];
        for number in &mut numbers {
            *number = self.next_number()?;
        }
        Ok(numbers)
    }

    fn next_number(&mut self) -> Result<usize, ArgumentFault>
        ensures args { self.new.args.now ≡ self.old.args.now }
        ensures place { OnOk result (self.new.place ≡ self.old.place + 1) }
        ensures number { IfOk result (IsNumber (text_at (texts self.old) self.old.place)) }
        ensures fault { IfErr result (λ f. (f ≡ faults.NoNumber self.old.place) × IsNoNumber (text_at (texts self.old) self.old.place)) }
    {
        let place = self.place;
        self.next_text()
            .and_then(|text| text.parse().ok())
            .ok_or(ArgumentFault::NoNumber(place))
    }

    fn next_text(&mut self) -> Option<&'a str>
        ensures args { self.new.args.now ≡ self.old.args.now }
        ensures none { IfNone result (self.old.place ≡ length self.old.args.now) }
        ensures some { IfSome result (λ t. (t.now ≡ text_at (texts self.old) self.old.place) × (self.new.place ≡ self.old.place + 1)) }
    {
        let text = self.args.get(self.place)?;
        self.place += 1;
        Some(text.as_str())
    }
}

/// The selector of these numbers, which stand after the option at this place.
fn select(option: usize, box_atom: usize, first: usize, last: usize) -> Result<Step, ArgumentFault>
    ensures { Selects option box_atom first last result }
{
    Selector::new(box_atom, first, last)
        .map(Step::Select)
        .map_err(|refusal| ArgumentFault::Refused(option, refusal))
}

// By hand, since clauses name the fault that `?` makes and a derived one promises nothing.
impl<T: Drop> From<AllocFailed<T>> for ArgumentFault {
    ghost from_gives = { λ _ f. f ≡ faults.OutOfMemory };

    fn from(_e: AllocFailed<T>) -> ArgumentFault {
        Self::OutOfMemory
    }
}

impl Error for ArgumentFault {}

/// One line, with places counted from 1.
impl fmt::Display for ArgumentFault {
    ghost output = { λ f. Some (fault_text f) };

    fn fmt<W: fmt::Write>(&self, f: &mut fmt::Formatter<W>) -> fmt::Result {
        let words = words_of(*self);
        match *self {
            ArgumentFault::Unknown(i) | ArgumentFault::Incomplete(i) | ArgumentFault::NoNumber(i) =>
                { write!(f, "argument {}: {words}", i.saturating_add(1)) }
            ArgumentFault::Refused(i, refusal) => {
                write!(f, "argument {}: {refusal}{words}", i.saturating_add(1))
            }
            ArgumentFault::OutOfMemory => f.write_str(words),
        }
    }
}

/// What is said of a fault.
fn words_of(fault: ArgumentFault) -> &'static str
    ensures { result.now ≡ words_text fault }
{
    match fault {
        ArgumentFault::Unknown(_) => "neither --offset nor --select",
        ArgumentFault::Incomplete(_) => "--offset wants one number, --select wants three",
        ArgumentFault::NoNumber(_) => "not a number below 2^64",
        ArgumentFault::Refused(_, refusal) => reason_of(refusal),
        ArgumentFault::OutOfMemory => "out of memory",
    }
}

/// Why a selector is refused.
fn reason_of(refusal: Refusal) -> &'static str
    ensures { result.now ≡ reason_text refusal }
{
    match refusal {
        Refusal::AtomTooHigh => ", an atom above 255",
        Refusal::BadOutlets => ", the first outlet above the last or more than 32 outlets",
        Refusal::BoxAmongOutlets => ", the box among its outlets",
        _ => "",
    }
}
