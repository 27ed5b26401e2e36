// Connect, break and exchange (chain/impl_chain_arena_trait.rs) on an arena that passed the check.
#![tactic(auto)]

ghost use Rattle.std.specs.Prelude.{◌≡◌, [], ◌≤◌, ◌<◌, length};
ghost use Rattle.definitions.specs.Columns.{put};
ghost use Rattle.definitions.specs.Arena.{capacity_limit};
ghost use Rattle.definitions.specs.Check.{WellFormed};
ghost use Rattle.definitions.specs.Edit.{connect, break_prev, break_next, exchange_next};
ghost use Rattle.lent.specs.Arenas.{links_of, SameLinks};
ghost use Rattle.ptr.specs.Pointers.{pointer_of};
ghost use Rattle.refusals.specs.Refusal.{no_words, result_reply};
ghost use Rattle.chain_edits.specs.Edits.{break_side};

use chain_traits::stale;
use columns::{set_at, slot_at};
use header::STACK_LENGTH;
use lent::LinksMut;
use ptr::{Ptr, Slot};
use refusals::Refusal;

// Joins the end p_prev to the start p_next.
pub fn connect(arena: &mut LinksMut<'_>, p_prev: Ptr, p_next: Ptr) -> Result<(), Refusal>
    requires { WellFormed capacity_limit (links_of arena.old) }
    ensures lent { SameLinks arena.old arena.new }
    ensures edited { result_reply no_words 0 result (links_of arena.new) [] ≡ connect (links_of arena.old) (pointer_of p_prev) (pointer_of p_next) [] }
{
    let now = arena.lent();
    let n = now.header[STACK_LENGTH] as usize;
    if stale(now.generation, n, p_prev) {
        return Err(Refusal::StalePointer);
    }
    if slot_at(now.next, p_prev.inx).0 != 0 {
        return Err(Refusal::Neighbor);
    }
    if stale(now.generation, n, p_next) {
        return Err(Refusal::StalePointer);
    }
    if slot_at(now.prev, p_next.inx).0 != 0 {
        return Err(Refusal::Neighbor);
    }
    set_at(arena.next, p_prev.inx, p_next.inx);
    set_at(arena.prev, p_next.inx, p_prev.inx);
    Ok(())
}

// Takes the interlink between p and its next away if after, else the one between p and its prev. Both sides are one operation, in which no branch asks for the
// side: a run of mixed edits cannot foresee it.
pub fn break_side(arena: &mut LinksMut<'_>, p: Ptr, after: bool) -> Result<(), Refusal>
    requires { WellFormed capacity_limit (links_of arena.old) }
    ensures lent { SameLinks arena.old arena.new }
    ensures edited { result_reply no_words 0 result (links_of arena.new) [] ≡ break_side (links_of arena.old) (pointer_of p) after }
{
    let now = arena.lent();
    let n = now.header[STACK_LENGTH] as usize;
    if stale(now.generation, n, p) {
        return Err(Refusal::StalePointer);
    }
    let its_prev = slot_at(now.prev, p.inx);
    let its_next = slot_at(now.next, p.inx);
    let neighbour = if after { its_next } else { its_prev };
    if neighbour.0 == 0 {
        return Err(Refusal::Neighbor);
    }
    set_at(arena.next, if after { p.inx } else { neighbour }, Slot(0));
    set_at(arena.prev, if after { neighbour } else { p.inx }, Slot(0));
    Ok(())
}

// Takes the interlink between p and its prev away.
pub fn break_prev(arena: &mut LinksMut<'_>, p: Ptr) -> Result<(), Refusal>
    requires { WellFormed capacity_limit (links_of arena.old) }
    ensures lent { SameLinks arena.old arena.new }
    ensures edited { result_reply no_words 0 result (links_of arena.new) [] ≡ break_prev (links_of arena.old) (pointer_of p) [] }
{
    break_side(arena, p, false)
}

// Takes the interlink between p and its next away.
pub fn break_next(arena: &mut LinksMut<'_>, p: Ptr) -> Result<(), Refusal>
    requires { WellFormed capacity_limit (links_of arena.old) }
    ensures lent { SameLinks arena.old arena.new }
    ensures edited { result_reply no_words 0 result (links_of arena.new) [] ≡ break_next (links_of arena.old) (pointer_of p) [] }
{
    break_side(arena, p, true)
}

// Writes v at slot s of a link column, then w at slot t.
pub fn set_two(column: &mut [u32], s: Slot, v: Slot, t: Slot, w: Slot)
    requires { (0 < s.0) × (s.0 ≤ length column.old) × (0 < t.0) × (t.0 ≤ length column.old) }
    ensures { column.new ≡ put (put column.old s.0 v.0) t.0 w.0 }
{
    set_at(&mut *column, s, v);
    set_at(column, t, w);
}

// Gives each of p0 and p1 the other's next.
pub fn exchange_next(arena: &mut LinksMut<'_>, p0: Ptr, p1: Ptr) -> Result<(), Refusal>
    requires { WellFormed capacity_limit (links_of arena.old) }
    ensures lent { SameLinks arena.old arena.new }
    ensures edited { result_reply no_words 0 result (links_of arena.new) [] ≡ exchange_next (links_of arena.old) (pointer_of p0) (pointer_of p1) [] }
{
    let now = arena.lent();
    let n = now.header[STACK_LENGTH] as usize;
    if stale(now.generation, n, p0) {
        return Err(Refusal::StalePointer);
    }
    if stale(now.generation, n, p1) {
        return Err(Refusal::StalePointer);
    }
    let d0 = slot_at(now.next, p0.inx);
    let d1 = slot_at(now.next, p1.inx);
    if d0.0 == 0 || d1.0 == 0 {
        return Err(Refusal::Neighbor);
    }
    set_two(arena.next, p0.inx, d1, p1.inx, d0);
    set_two(arena.prev, d0, p1.inx, d1, p0.inx);
    Ok(())
}
