// All small arenas, in order, as a host calls for them through small_arenas_c, an archive of its own.
#![tactic(auto)]

ghost use Rattle.std.specs.Prelude.{[], ◌∷◌, ◌≡◌};
ghost use Rattle.definitions.specs.Arena.{Arena, capacity_limit};
ghost use Rattle.definitions.specs.Reply.{reply};
ghost use Rattle.lent.specs.Arenas.{held_in, SameBuffers};
ghost use Rattle.all_small.specs.SmallArena.{small_arena};
ghost use Rattle.small_layout.specs.Laid.{small_reply};

use lent::ArenaMut;
use refusals::Refusal;
use small_layout::small_arena;

// Whether there is a small arena of an index, and its stack length.
#[repr(C)]
#[derive(Clone, Copy, Default)]
pub struct SmallArenaResult {
    pub number: u32,
    pub found: u32,
    pub length: u32,
}

// What the host is told.
impl From<Result<Option<u32>, Refusal>> for SmallArenaResult {
    ghost from_gives = { λ given told. (a : Arena) → reply told.number (told.found ∷ told.length ∷ []) a [] ≡ small_reply given a };

    fn from(given: Result<Option<u32>, Refusal>) -> SmallArenaResult {
        match given {
            Ok(Some(length)) => SmallArenaResult {
                number: 0,
                found: 1,
                length,
            },
            Ok(None) => SmallArenaResult::default(),
            Err(refusal) => SmallArenaResult {
                number: refusal.number(),
                ..SmallArenaResult::default()
            },
        }
    }
}

// Lays the small arena of an index, from 0 on, into the front of the columns and into the header (REFERENCE, Small arenas).
pub fn chain_arena_small_arena(arena: &mut ArenaMut<'_>, index: u32) -> SmallArenaResult
    ensures lent { SameBuffers arena.old arena.new }
    ensures answered { reply result.number (result.found ∷ result.length ∷ []) (held_in arena.new) [] ≡ small_arena capacity_limit (held_in arena.old) index }
{
    small_arena(arena, index).into()
}
