// Level Three, order-preserving compression, as a host calls it through level_three_c.
#![tactic(auto, using(answers::proofs::Exports::replies_refused, answers::proofs::Exports::replies_passed), unfolding(definitions::specs::Calls::accepted))]

ghost use Rattle.std.specs.Prelude.{not, [], eqb};
ghost use Rattle.definitions.specs.Calls.{CompressWith};
ghost use Rattle.lent.specs.Arenas.{held_in, SameBuffers};
ghost use Rattle.answers.specs.Answered.{Answered};
ghost use Rattle.answers.specs.Words.{invalidation_answer};

use answers::Answer;
use chain_arena::check;
use compress_with::compress_with;
use lent::ArenaMut;
use ptr::InvalidationOption;
use refusals::Refusal;

// The order-preserving compression of an arena that passes the check.
fn checked_compress_with(
    arena: &mut ArenaMut<'_>,
    reset: bool,
    report: &mut [u32],
) -> Result<InvalidationOption, Refusal>
    ensures lent { SameBuffers arena.old arena.new }
    ensures answered { Answered (CompressWith reset) (held_in arena.old) report.old (invalidation_answer result) [] (held_in arena.new) report.new }
{
    check(arena.lent())?;
    compress_with(arena, reset, report)
}

// Moves the links to the front in the order of their slots, in a new generation, and reports for each its old slot and generation and its new ones.
// Reset, where it is not 0, makes the generation 2 (REFERENCE, Order-preserving compression).
pub fn chain_arena_compress_with(arena: &mut ArenaMut<'_>, reset: u32, report: &mut [u32]) -> Answer
    ensures lent { SameBuffers arena.old arena.new }
    ensures answered { Answered (CompressWith (not (eqb reset 0))) (held_in arena.old) report.old result [] (held_in arena.new) report.new }
{
    Answer::from(checked_compress_with(arena, reset != 0, report))
}
