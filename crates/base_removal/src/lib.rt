// Removal of a slot (arena/base_arena.rs, `remove_internal`, and the joining of its neighbours in chain/impl_chain_arena_trait.rs).
#![tactic(auto)]

ghost use Rattle.std.specs.Prelude.{◌-◌};
ghost use Rattle.definitions.specs.Arena.{largest_generation};
ghost use Rattle.lent.specs.Arenas.{held_in, SameBuffers};
ghost use Rattle.base_slots.specs.Removal.{Removable, TakenOut};

use base_slots::{count_removal, free, join, pop};
use header::STACK_LENGTH;
use lent::ArenaMut;
use ptr::Slot;

// Takes slot s out of its chain and out of use, and raises the generation. Answers whether that overflowed.
pub fn take_out(arena: &mut ArenaMut<'_>, s: Slot) -> bool
    requires { Removable (held_in arena.old) s.0 }
    ensures taken_out { TakenOut largest_generation (held_in arena.old) s.0 (held_in arena.new) result }
    ensures lent { SameBuffers arena.old arena.new }
{
    let n = arena.header[STACK_LENGTH];
    join(arena.prev, arena.next, s);
    let overflow = count_removal(arena.header);
    if s.0 == n {
        pop(arena, s);
    } else {
        free(arena, s);
    }
    overflow
}
