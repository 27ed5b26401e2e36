// The small arenas as a host calls for them: the export of libsmall_arenas.a.
// Each export calls the function of its name in the crates below, and promises what that promises.
#![tactic(auto)]

ghost use Rattle.std.specs.Prelude.{[], ◌∷◌, ◌≡◌};
ghost use Rattle.definitions.specs.Arena.{capacity_limit, arena};
ghost use Rattle.definitions.specs.Reply.{reply};
ghost use Rattle.all_small.specs.SmallArena.{small_arena};

use lent::ArenaMut;
use small_arenas::SmallArenaResult;

// Lays the small arena of an index, from 0 on, into the front of the columns and into the header (REFERENCE, Small arenas).
#[unsafe(no_mangle)]
pub extern "C" fn chain_arena_small_arena(
    prev: &mut [u32],
    next: &mut [u32],
    generation: &mut [u32],
    payload: &mut [u32],
    header: &mut [u32],
    index: u32,
) -> SmallArenaResult
    ensures { reply result.number (result.found ∷ result.length ∷ []) (arena prev.new next.new generation.new payload.new header.new) []
        ≡ small_arena capacity_limit (arena prev.old next.old generation.old payload.old header.old) index }
{
    small_arenas::chain_arena_small_arena(
        &mut ArenaMut {
            prev,
            next,
            generation,
            payload,
            header,
        },
        index,
    )
}
