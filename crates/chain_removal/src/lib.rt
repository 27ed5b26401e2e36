// The removal of a link (`remove` of chain/impl_chain_arena_trait.rs).
#![tactic(auto)]

ghost use Rattle.std.specs.Prelude.{◌≡◌, []};
ghost use Rattle.definitions.specs.Arena.{capacity_limit, largest_generation};
ghost use Rattle.definitions.specs.Check.{WellFormed};
ghost use Rattle.definitions.specs.Remove.{remove};
ghost use Rattle.lent.specs.Arenas.{held_in, SameBuffers};
ghost use Rattle.links.specs.Links.{removal_reply};
ghost use Rattle.ptr.specs.Pointers.{pointer_of};

use base_removal::take_out;
use chain_traits::get_link_no_gen;
use lent::ArenaMut;
use links::InvalidationResult;
use ptr::Ptr;

// Removes the link at p: joins its neighbours and vacates its slot. Answers the link as it was.
pub fn remove(arena: &mut ArenaMut<'_>, p: Ptr) -> InvalidationResult
    requires { WellFormed capacity_limit (held_in arena.old) }
    ensures lent { SameBuffers arena.old arena.new }
    ensures removed { removal_reply result (held_in arena.new) [] ≡ remove largest_generation (held_in arena.old) (pointer_of p) [] }
{
    let Some(link) = get_link_no_gen(arena.lent().shaped(), p) else {
        return InvalidationResult::InvalidPtr;
    };
    if take_out(arena, p.inx) {
        InvalidationResult::GenerationOverflow(link)
    } else {
        InvalidationResult::Success(link)
    }
}
