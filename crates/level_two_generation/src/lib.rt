// Level Two, the current generation and the freelist, as a host calls them through level_two_c.
#![tactic(auto, using(answers::proofs::Exports::replies_refused, answers::proofs::Exports::replies_passed, definitions::proofs::Shaped::shaped), unfolding(definitions::specs::Calls::accepted))]

ghost use Rattle.std.specs.Prelude.{[]};
ghost use Rattle.definitions.specs.Calls.{SetGeneration, IncGeneration, CanonicalizeFreelist};
ghost use Rattle.lent.specs.Arenas.{held_in, SameBuffers, header_of, SameHeader};
ghost use Rattle.answers.specs.Answered.{Answered};
ghost use Rattle.answers.specs.Words.{done_answer, invalidation_answer};

use answers::Answer;
use base_freelist::{canonicalize_freelist, inc_generation, set_generation};
use chain_arena::check;
use lent::{ArenaMut, HeaderMut};
use ptr::{Gen, InvalidationOption};
use refusals::Refusal;

// The setting of the generation, of an arena that passes the check.
fn checked_set_generation(arena: &mut HeaderMut<'_>, new_generation: u32) -> Result<(), Refusal>
    ensures lent { SameHeader arena.old arena.new }
    ensures answered { Answered (SetGeneration new_generation) (header_of arena.old) [] (done_answer result) [] (header_of arena.new) [] }
{
    check(arena.lent())?;
    set_generation(arena.header, Gen(new_generation))
}

// Makes new_generation the current one; 15 where it is 0 or 1 (REFERENCE, Generation).
pub fn chain_arena_set_generation(arena: &mut HeaderMut<'_>, new_generation: u32) -> Answer
    ensures lent { SameHeader arena.old arena.new }
    ensures answered { Answered (SetGeneration new_generation) (header_of arena.old) [] result [] (header_of arena.new) [] }
{
    Answer::from(checked_set_generation(arena, new_generation))
}

// The raising of the generation, of an arena that passes the check.
fn checked_inc_generation(arena: &mut HeaderMut<'_>) -> Result<InvalidationOption, Refusal>
    ensures lent { SameHeader arena.old arena.new }
    ensures answered { Answered IncGeneration (header_of arena.old) [] (invalidation_answer result) [] (header_of arena.new) [] }
{
    check(arena.lent())?;
    Ok(inc_generation(arena.header))
}

// Raises the current generation; 100 where it overflowed (REFERENCE, Generation).
pub fn chain_arena_inc_generation(arena: &mut HeaderMut<'_>) -> Answer
    ensures lent { SameHeader arena.old arena.new }
    ensures answered { Answered IncGeneration (header_of arena.old) [] result [] (header_of arena.new) [] }
{
    Answer::from(checked_inc_generation(arena))
}

// The ordering of the freelist, of an arena that passes the check.
fn checked_canonicalize_freelist(arena: &mut ArenaMut<'_>) -> Result<(), Refusal>
    ensures lent { SameBuffers arena.old arena.new }
    ensures answered { Answered CanonicalizeFreelist (held_in arena.old) [] (done_answer result) [] (held_in arena.new) [] }
{
    check(arena.lent())?;
    canonicalize_freelist(arena);
    Ok(())
}

// Pops the free slots at the end of the stack and lists the others in rising order (REFERENCE, Freelist).
pub fn chain_arena_canonicalize_freelist(arena: &mut ArenaMut<'_>) -> Answer
    ensures lent { SameBuffers arena.old arena.new }
    ensures answered { Answered CanonicalizeFreelist (held_in arena.old) [] result [] (held_in arena.new) [] }
{
    Answer::from(checked_canonicalize_freelist(arena))
}
