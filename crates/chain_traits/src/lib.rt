// Reading links and neighbours (chain/chain_traits.rs) of a lent arena.
#![tactic(auto)]

ghost use Rattle.std.specs.Prelude.{◌≡◌, [], ◌≤◌, length};
ghost use Rattle.definitions.specs.Columns.{at};
ghost use Rattle.definitions.specs.Arena.{allocated};
ghost use Rattle.definitions.specs.Read.{pointer, get_link, get_link_no_gen, neighbors};
ghost use Rattle.lent.specs.Arenas.{arena_of, checked_of};
ghost use Rattle.ptr.specs.Pointers.{pointer_of};
ghost use Rattle.chain_traits.specs.Read.{stale_in, link_reply, link_no_gen_reply};

use columns::{slot_at, word_at};
use lent::{ArenaRef, CheckedArena};
use links::{Link, LinkNoGen};
use ptr::{Gen, Ptr, Slot};

// The pointer to slot s with the generation that stands there; for no neighbour, slot 0, that is 0.
#[tactic(auto, using(definitions::proofs::Columns::at_zero))]
pub fn pointer_to(generation: &[u32], s: Slot) -> Ptr
    requires { s.0 ≤ length generation.now }
    ensures { pointer_of result ≡ pointer s.0 (at generation.now s.0) }
{
    Ptr {
        inx: s,
        generation: Gen(if s.0 == 0 { 0 } else { word_at(generation, s) }),
    }
}

// Whether s is a link where the stack is n slots long.
#[tactic(auto, using(definitions::proofs::Columns::at_zero), unfolding(definitions::specs::Arena::allocated))]
pub fn is_link(generation: &[u32], n: usize, s: Slot) -> bool
    requires { n ≤ length generation.now }
    ensures { result ≡ allocated generation.now n s.0 }
{
    s.0 != 0 && s.0 as usize <= n && word_at(generation, s) != 0
}

// Whether p is stale where the stack is n slots long (REFERENCE, Pointers and generations).
#[tactic(auto, using(crate::proofs::Fresh::stale_free, crate::proofs::Fresh::stale_link, definitions::proofs::Steps::link_slot))]
pub fn stale(generation: &[u32], n: usize, p: Ptr) -> bool
    requires { n ≤ length generation.now }
    ensures { result ≡ stale_in generation.now n (pointer_of p) }
{
    !is_link(generation, n, p.inx) || word_at(generation, p.inx) != p.generation.0
}

// The link at p, its neighbours as pointers.
pub fn get_link(arena: CheckedArena<'_>, p: Ptr) -> Option<Link>
    ensures { link_reply result (checked_of arena.entry) []
        ≡ get_link (checked_of arena.entry) (pointer_of p) [] }
{
    let l = get_link_no_gen(arena.arena(), p)?;
    Some(Link {
        prev: pointer_to(arena.generation, l.prev),
        next: pointer_to(arena.generation, l.next),
        t: l.t,
    })
}

// The link at p, its neighbours as slots.
#[tactic(auto, using(crate::proofs::Fresh::stale_of, crate::proofs::Fresh::fresh_slot), unfolding(definitions::specs::Read::get_link_no_gen))]
pub fn get_link_no_gen(arena: ArenaRef<'_>, p: Ptr) -> Option<LinkNoGen>
    ensures { link_no_gen_reply result (arena_of arena.entry) []
        ≡ get_link_no_gen (arena_of arena.entry) (pointer_of p) [] }
{
    if stale(arena.generation, arena.stack_length(), p) {
        return None;
    }
    Some(LinkNoGen {
        prev: slot_at(arena.prev, p.inx),
        next: slot_at(arena.next, p.inx),
        t: word_at(arena.payload, p.inx),
    })
}

// Whether the next of p_prev is p_next; no where either is stale.
#[tactic(auto, using(crate::proofs::Fresh::fresh_slot, crate::proofs::Fresh::stale_first, crate::proofs::Fresh::stale_second, crate::proofs::Fresh::neither_stale))]
pub fn are_neighbors(arena: ArenaRef<'_>, p_prev: Ptr, p_next: Ptr) -> bool
    ensures { result ≡ neighbors (arena_of arena.entry) (pointer_of p_prev) (pointer_of p_next) }
{
    let n = arena.stack_length();
    !stale(arena.generation, n, p_prev)
        && !stale(arena.generation, n, p_next)
        && slot_at(arena.next, p_prev.inx) == p_next.inx
}
