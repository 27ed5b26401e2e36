// The drain of a chain (`ChainDrain` of chain/chain_iterators.rs) in an arena that passed the check. Since no drain is left half done, the report can
// hold the walk's slots before the first of them is removed: so the order is the walk's own, and no memory is needed but the lent report.
#![tactic(auto)]

ghost use Rattle.std.specs.Prelude.{◌≡◌, ◌<◌, IfOk, IfSome};
ghost use Rattle.definitions.specs.Arena.{capacity_limit, largest_generation};
ghost use Rattle.definitions.specs.Check.{WellFormed};
ghost use Rattle.definitions.specs.Remove.{drain};
ghost use Rattle.lent.specs.Arenas.{held_in, SameBuffers};
ghost use Rattle.ptr.specs.Pointers.{pointer_of};
ghost use Rattle.refusals.specs.Refusal.{result_reply};
ghost use Rattle.chain_drain.specs.Drained.{drained_words};

use chain_ahead::ChainWalk;
use chain_drain_items::{drain_items, list_slots, too_short};
use lent::ArenaMut;
use ptr::Ptr;
use refusals::Refusal;

// What a drain did: how many links it removed, and which one of them, counted from 1, made the generation overflow.
#[derive(Clone, Copy)]
pub struct Drained {
    pub items: u32,
    pub overflowed: Option<u32>,
}

// Removes every link of p's chain, in the order of a walk from p, and reports each as it is when its turn comes (REFERENCE, Drain).
pub fn drain(arena: &mut ArenaMut<'_>, p: Ptr, report: &mut [u32]) -> Result<Drained, Refusal>
    requires { WellFormed capacity_limit (held_in arena.old) }
    ensures lent { SameBuffers arena.old arena.new }
    ensures drained { result_reply drained_words 2 result (held_in arena.new) report.new ≡ drain largest_generation (held_in arena.old) (pointer_of p) report.old }
    ensures some { IfOk result (λ d. IfSome d.overflowed (λ i. 0 < i)) }
{
    let walk = ChainWalk::new(arena.lent().checked(), p)?;
    if too_short(walk, report.len()) {
        return Err(Refusal::SliceLength);
    }
    let items = list_slots(walk, report);
    let overflowed = drain_items(arena, report, items);
    Ok(Drained { items, overflowed })
}
