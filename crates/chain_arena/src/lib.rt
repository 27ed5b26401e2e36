// The whole check of a lent arena (chain/chain_arena.rs, `_check_invariants`): refusals 1 to 10, then the interlinks.
#![tactic(auto)]

ghost use Rattle.lent.specs.Arenas.{lent_of, arena_of};
ghost use Rattle.chain_arena.specs.Checks.{Passes, Checks};

use base_arena::{counts, shape};
use interlinks::Stack;
use lent::{ArenaRef, CheckedArena, LentArena};
use ptr::Slot;
use refusals::Refusal;

// Refusals 4 to 11 of an arena that has the shape of one.
fn check_stack(arena: ArenaRef<'_>) -> Result<(), Refusal>
    ensures { Passes (arena_of arena.entry) result }
{
    let n = arena.stack_length();
    let stack = Stack {
        prev: &arena.prev[..n],
        next: &arena.next[..n],
        generation: &arena.generation[..n],
    };
    counts(
        stack.next,
        stack.generation,
        arena.link_count(),
        arena.root().0 as usize,
    )?;
    match stack.interlinks::<true>() {
        None => Ok(()),
        Some(slot) => {
            let side = stack.broken_side(slot);
            Err(Refusal::BrokenLink(Slot(slot as u32), side))
        }
    }
}

// The check of a lent arena: the arena, which passed it, or why every call on it is refused.
#[tactic(auto, using(crate::proofs::Verdict::refuses_shape))]
pub fn check(arena: LentArena<'_>) -> Result<CheckedArena<'_>, Refusal>
    ensures { Checks (lent_of arena.entry) result }
{
    check_stack(shape(arena)?)?;
    Ok(arena.checked())
}
