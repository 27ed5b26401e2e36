// Level Three, canonical compression, as a host calls it through level_three_c.
#![tactic(auto, using(answers::proofs::Exports::replies_refused, answers::proofs::Exports::replies_passed), unfolding(definitions::specs::Calls::accepted))]

ghost use Rattle.std.specs.Prelude.{not, [], eqb};
ghost use Rattle.definitions.specs.Calls.{CompressCanonical};
ghost use Rattle.lent.specs.Arenas.{held_in, SameBuffers};
ghost use Rattle.answers.specs.Answered.{Answered};
ghost use Rattle.answers.specs.Words.{invalidation_answer};

use answers::Answer;
use chain_arena::check;
use compress_canonical::compress_canonical;
use lent::ArenaMut;
use ptr::InvalidationOption;
use refusals::Refusal;

// The canonical compression of an arena that passes the check.
fn checked_compress_canonical(
    arena: &mut ArenaMut<'_>,
    reset: bool,
    where_from: &mut [u32],
) -> Result<InvalidationOption, Refusal>
    ensures lent { SameBuffers arena.old arena.new }
    ensures answered { Answered (CompressCanonical reset) (held_in arena.old) where_from.old (invalidation_answer result) [] (held_in arena.new) where_from.new }
{
    check(arena.lent())?;
    compress_canonical(arena, reset, where_from)
}

// Lays the chains out one behind the other, each along next, in a new generation; the where-from column says for each slot which one its link was in
// before. Reset, where it is not 0, makes the generation 2 (REFERENCE, Canonical compression).
pub fn chain_arena_compress_canonical(
    arena: &mut ArenaMut<'_>,
    reset: u32,
    where_from: &mut [u32],
) -> Answer
    ensures lent { SameBuffers arena.old arena.new }
    ensures answered { Answered (CompressCanonical (not (eqb reset 0))) (held_in arena.old) where_from.old result [] (held_in arena.new) where_from.new }
{
    Answer::from(checked_compress_canonical(arena, reset != 0, where_from))
}
