// A rule written as words.
ghost use Rattle.atoms.specs.Member.{has};
ghost use Rattle.program.specs.Rules.{as_rule};
ghost use Rattle.std.specs.Prelude.{◌≡◌, ◌++◌, MatchResult, OnOk};
ghost use Rattle.word_format.specs.Writing.{words_of, write_rule};

use crate::word::{Kind, word_of};
use atoms::AtomSet;
use program::refusal::Refusal;
use program::rule::Rule;
use std::alloc::{AllocError, Global};

/// The words of a rule of a program with so many atoms, the end word last.
// A `Refusal`, though only memory can be wanting: the project asks for one enum in all public calls.
pub fn written_rule(heap: Global, atoms: usize, rule: &Rule) -> Result<Vec<u32>, Refusal>
    ensures { MatchResult result (λ v. v.items ≡ write_rule atoms (as_rule rule.now)) (λ e. e ≡ Refusal.OutOfMemory) }
{
    let mut words = Vec::new(heap);
    push_part(&mut words, Kind::Head, atoms, &rule.heads)?;
    push_part(&mut words, Kind::Need, atoms, &rule.needs)?;
    push_part(&mut words, Kind::Bar, atoms, &rule.bars)?;
    words.push(word_of(Kind::End, 0))?;
    Ok(words)
}

/// A word of this kind for each atom of the set below n, rising.
#[tactic(auto, using(crate::proofs::PartsWritten::part_words))]
fn push_part(words: &mut Vec<u32>, kind: Kind, n: usize, part: &AtomSet) -> Result<(), AllocError>
    ensures { OnOk result (words.new.items ≡ words.old.items ++ words_of kind (has part.now) n) }
{
    for atom in &part.intersection(&AtomSet::below(n)) {
        words.push(word_of(kind, atom))?;
    }
    Ok(())
}
