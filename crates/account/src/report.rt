// The account of a source of rules.
ghost use Rattle.std.specs.Prelude.{◌≡◌, ◌+◌, ◌≤◌, ◌++◌, ℕ, drop, if◌then◌else◌, length, string_bytes, MatchResult, IfOk, OnOk, Some};
ghost use Rattle.account.specs.Inspecting.{Accounted, RefusedAccount, written_words};
ghost use Rattle.account.specs.Lines.{lines_of, summary};
ghost use Rattle.account.specs.Tallies.{Counted};
ghost use Rattle.program.specs.Programs.{Over};
ghost use Rattle.program.specs.Rules.{as_rule};
ghost use Rattle.word_format.specs.Reading.{segments};
ghost use Rattle.word_format.specs.Showing.{form_of, same_form};
ghost use Rattle.word_format.specs.Writing.{write_rule};
ghost use Rattle.word_format.specs.declared.shown.Form.TheVariants as forms;

use crate::text::{RuleLine, RuleText};
use program::refusal::Refusal;
use program::rule::Rule;
use program::source::RuleSource;
use std::alloc::{AllocError, Global};
use std::fmt;
use word_format::shown::Form;

/// How many rules there are of each form.
#[derive(Clone, Copy, Debug, Default, PartialEq, Eq)]
pub struct Counts {
    pub facts: usize,
    pub bodies: usize,
    pub constraints: usize,
}

impl Counts {
    /// One rule more, of this form.
    fn with(self, form: Form) -> Counts
        requires { self.facts + self.bodies + self.constraints ≤ 1025 }
        ensures facts { result.facts ≡ self.facts + (if same_form form forms.Fact then 1 else 0) }
        ensures bodies { result.bodies ≡ self.bodies + (if same_form form forms.Rule then 1 else 0) }
        ensures constraints { result.constraints ≡ self.constraints + (if same_form form forms.Constraint then 1 else 0) }
    {
        let mut counts = self;
        match form {
            Form::Fact => counts.facts += 1,
            Form::Rule => counts.bodies += 1,
            Form::Constraint => counts.constraints += 1,
        }
        counts
    }
}

/// Counts the rules of a source by their form.
pub fn count_forms<S: RuleSource>(source: &S) -> Counts
    ensures { Counted (segments (drop 1 (written_words (S.RuleSource.meaning source.now)))) result }
{
    let mut counts = Counts::default();
    for rule in source.iter() {
        counts = counts.with(form_of(&rule));
    }
    counts
}

/// The form of a rule by its sets; by its words, as `shown::form_of` goes, it would need memory.
fn form_of(rule: &Rule) -> Form
    ensures { (n : ℕ) → n ≤ 256 → Over n (as_rule rule.now) → result ≡ form_of (write_rule n (as_rule rule.now)) }
{
    if rule.heads.is_empty() {
        return Form::Constraint;
    }
    if rule.needs.is_empty() && rule.bars.is_empty() {
        return Form::Fact;
    }
    Form::Rule
}

/// The counts of a program, on two lines.
#[derive(Clone, Copy)]
struct Summary {
    atoms: usize,
    rules: usize,
    counts: Counts,
}

impl fmt::Display for Summary {
    ghost output = { λ s. Some (summary s.atoms s.rules s.counts.facts s.counts.bodies s.counts.constraints) };

    fn fmt<W: fmt::Write>(&self, f: &mut fmt::Formatter<W>) -> fmt::Result {
        let Summary {
            atoms,
            rules,
            counts,
        } = *self;
        let Counts {
            facts,
            bodies,
            constraints,
        } = counts;
        write!(
            f,
            "atoms {atoms}\nrules {rules}: facts {facts}, with a body {bodies}, constraints {constraints}\n"
        )
    }
}

/// The whole account: the counts, and a line for each rule.
#[tactic(auto, using(crate::proofs::Accounts::accounted_all, crate::proofs::Accounts::no_memory, crate::proofs::Accounts::no_account))]
pub fn account<S: RuleSource>(heap: Global, source: &S) -> Result<String, Refusal>
    ensures { MatchResult result (λ s. Accounted (S.RuleSource.meaning source.now) (string_bytes s)) (λ e. RefusedAccount (S.RuleSource.meaning source.now) e) }
{
    if source.is_overfull() {
        return Err(Refusal::Overfull);
    }
    let mut text = String::new(heap);
    let counts = push_lines(&mut text, source)?;
    let summary = Summary {
        atoms: source.atom_count(),
        rules: source.rule_count(),
        counts,
    };
    text.insert_str(0, &summary.to_string(heap)?)?;
    Ok(text)
}

/// The lines of all rules, and how many rules there are of each form: each rule is asked for once.
fn push_lines<S: RuleSource>(text: &mut String, source: &S) -> Result<Counts, AllocError>
    ensures lines { OnOk result (string_bytes text.new ≡ string_bytes text.old ++ lines_of (written_words (S.RuleSource.meaning source.now))) }
    ensures counts { IfOk result (Counted (segments (drop 1 (written_words (S.RuleSource.meaning source.now))))) }
{
    let mut position = 1;
    let mut tally = Counts::default();
    for (number, rule) in source.iter().enumerate() {
        let line = RuleLine {
            number,
            position,
            rule: RuleText::of_sets(&rule),
        };
        write!(text, "{line}")?;
        position += word_count(&rule);
        tally = tally.with(form_of(&rule));
    }
    Ok(tally)
}

/// How many words the writing of a rule has.
#[tactic(auto, using(crate::proofs::RuleParts::length_written))]
fn word_count(rule: &Rule) -> usize
    ensures words { (n : ℕ) → n ≤ 256 → Over n (as_rule rule.now) → result ≡ length (write_rule n (as_rule rule.now)) }
    ensures bound { result ≤ 769 }
{
    rule.heads.count() + rule.needs.count() + rule.bars.count() + 1
}
