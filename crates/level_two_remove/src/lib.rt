// Level Two, the removal of a link, as a host calls it through level_two_c.
#![tactic(auto, using(answers::proofs::Exports::replies_refused, answers::proofs::Exports::replies_passed, well_formed::proofs::WellFormed::well_formed_if_passes), unfolding(definitions::specs::Calls::accepted))]

ghost use Rattle.std.specs.Prelude.{[], ◌∷◌, ◌≡◌};
ghost use Rattle.definitions.specs.Arena.{capacity_limit, largest_generation};
ghost use Rattle.definitions.specs.Calls.{Remove, reply_to};
ghost use Rattle.lent.specs.Arenas.{held_in, SameBuffers};
ghost use Rattle.ptr.specs.Pointers.{pointer_of};
ghost use Rattle.links.specs.Links.{removed_reply};
ghost use Rattle.answers.specs.Answered.{Answered};

use answers::LinkNoGenResult;
use chain_arena::check;
use chain_removal::remove;
use lent::ArenaMut;
use links::InvalidationResult;
use ptr::Ptr;
use refusals::Refusal;

// The removal, from an arena that passes the check.
fn checked_remove(arena: &mut ArenaMut<'_>, p: Ptr) -> Result<InvalidationResult, Refusal>
    ensures lent { SameBuffers arena.old arena.new }
    ensures replied { removed_reply result (held_in arena.new) []
        ≡ reply_to capacity_limit largest_generation (Remove (pointer_of p)) (held_in arena.old) [] }
{
    check(arena.lent())?;
    Ok(remove(arena, p))
}

// Removes the link at p, and answers what it was (REFERENCE, Remove).
pub fn chain_arena_remove(arena: &mut ArenaMut<'_>, p: Ptr) -> LinkNoGenResult
    ensures lent { SameBuffers arena.old arena.new }
    ensures answered { Answered (Remove (pointer_of p)) (held_in arena.old) [] result.answer (result.prev ∷ result.next ∷ result.payload ∷ []) (held_in arena.new) [] }
{
    LinkNoGenResult::from(checked_remove(arena, p))
}
