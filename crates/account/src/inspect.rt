// From a file's bytes to the account.
ghost use Rattle.account.specs.Inspecting.{Accepted, Accounted, RefusedPile, pile_of};
ghost use Rattle.account.specs.Lines.{account_of};
ghost use Rattle.std.specs.Prelude.{◌≡◌, ◌⊎◌, string_bytes, MatchResult};
ghost use Rattle.word_format.specs.Bytes.{RefusedBytes, words_of_bytes};

use crate::report::account;
use pile::assemble::assemble;
use pile::step::Step;
use program::refusal::Refusal;
use std::alloc::Global;
use word_format::words::WordProgram;

/// The account of a file's bytes, or its refusal.
#[tactic(auto, using(crate::proofs::Inspected::same_account, crate::proofs::Inspected::same_refusal))]
pub fn inspect(heap: Global, bytes: &[u8]) -> Result<String, Refusal>
    ensures { MatchResult result (λ s. Accepted bytes.now × (string_bytes s ≡ account_of (words_of_bytes bytes.now))) (λ e. RefusedBytes bytes.now e ⊎ (e ≡ Refusal.OutOfMemory)) }
{
    inspect_pile(heap, bytes, &[])
}

/// The account of a file's program after these steps, or the refusal.
pub fn inspect_pile(heap: Global, bytes: &[u8], steps: &[Step]) -> Result<String, Refusal>
    ensures { MatchResult result (λ s. Accepted bytes.now × Accounted (pile_of bytes.now steps.now) (string_bytes s)) (λ e. RefusedPile bytes.now steps.now e) }
{
    let mut program = WordProgram::new(heap)?;
    program.open_bytes(bytes)?;
    if steps.is_empty() {
        return account(heap, &program);
    }
    let pile = assemble(heap, &program, steps)?;
    account(heap, &pile)
}
