// The check of a list of words, in one walk.
ghost use Rattle.std.specs.Prelude.{◌≡◌, ℕ, true, false, if◌then◌else◌, Ok, Err, MatchResult};
ghost use Rattle.word_format.specs.Checks.{Lawful, Refused};
ghost use Rattle.word_format.specs.Walk.{Begins, Stands, TakesFrom};
ghost use Rattle.word_format.specs.Words.{is_end};
ghost use Rattle.word_format.specs.Writing.{Reads};

use crate::word::{Kind, Token, is_kind, number_of};
use program::limits::{MAX_ATOMS, MAX_RULES};
use program::refusal::Refusal;

/// The most words that a program may have.
pub const MAX_WORDS: usize = 16_384;

/// After parts of a rule of which kinds the next word stands.
#[derive(Clone, Copy)]
enum Phase {
    Heads,
    Needs,
    Bars,
}

/// What the walk keeps of the words that it has passed.
#[derive(Clone, Copy)]
struct Checker {
    phase: Phase,
    /// the count of atoms
    atoms: usize,
    /// the least number that the next word of the same kind may have
    floor: usize,
    /// how many rules have ended
    rules: usize,
}

impl Checker {
    /// After the header.
    fn start(header: u32) -> Result<Checker, Refusal>
        ensures { Begins header result }
    {
        if !is_kind(header, Kind::End) {
            return Err(Refusal::BadHeader);
        }
        let atoms = number_of(header).0 as usize;
        if atoms > MAX_ATOMS {
            return Err(Refusal::TooManyAtoms);
        }
        Ok(Checker {
            phase: Phase::Heads,
            atoms,
            floor: 0,
            rules: 0,
        })
    }

    /// One word more.
    fn take(&mut self, word: u32) -> Result<(), Refusal>
        ensures { TakesFrom self.old word result self.new }
    {
        if is_kind(word, Kind::End) {
            return self.take_end(word);
        }
        self.take_atom(word)
    }

    fn take_end(&mut self, word: u32) -> Result<(), Refusal>
        ensures { is_end word ≡ true → TakesFrom self.old word result self.new }
    {
        if number_of(word).0 != 0 {
            return Err(Refusal::BadEnd);
        }
        if self.rules >= MAX_RULES {
            return Err(Refusal::TooManyRules);
        }
        self.phase = Phase::Heads;
        self.floor = 0;
        self.rules += 1;
        Ok(())
    }

    fn take_atom(&mut self, word: u32) -> Result<(), Refusal>
        ensures { is_end word ≡ false → TakesFrom self.old word result self.new }
    {
        let token = Token::try_from(word)?;
        let atom = token.number.0 as usize;
        if atom >= self.atoms {
            return Err(Refusal::NoSuchAtom);
        }
        // on the phase and the kind together, as the project asks of this step
        match (self.phase, token.kind) {
            (Phase::Heads, Kind::Head) | (Phase::Needs, Kind::Need) | (Phase::Bars, Kind::Bar) => {
                if atom < self.floor {
                    return Err(Refusal::OutOfOrder);
                }
            }
            (Phase::Heads, Kind::Need) => self.phase = Phase::Needs,
            (Phase::Heads | Phase::Needs, Kind::Bar) => self.phase = Phase::Bars,
            _ => return Err(Refusal::OutOfOrder),
        }
        self.floor = atom + 1;
        Ok(())
    }

    /// Whether the words may end here.
    fn finish(&self) -> Result<(), Refusal>
        ensures { (n p e : ℕ) → Stands n p e self.now → result ≡ (if is_end p then Ok tt else Err Refusal.Unfinished) }
    {
        if self.floor > 0 {
            return Err(Refusal::Unfinished);
        }
        Ok(())
    }
}

/// Whether the words are lawful; else the refusal of the first test that fails.
pub fn check(words: &[u32]) -> Result<(), Refusal>
    ensures verdict { MatchResult result (λ _. Lawful words.now) (λ e. Refused words.now e) }
    ensures only { (e : Refusal) → Refused words.now e → result ≡ Err e }
    ensures law { Reads words.now result }
{
    if words.len() > MAX_WORDS {
        return Err(Refusal::TooLong);
    }
    let header = words.first().ok_or(Refusal::BadHeader)?;
    let mut check = Checker::start(*header)?;
    // By index, as the project asks of this walk: its invariant is of the words before i.
    for i in 1..words.len() {
        check.take(words[i])?;
    }
    check.finish()
}
