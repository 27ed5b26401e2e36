// The parts of a removal (arena/base_arena.rs): joining the neighbours of a slot, counting it off, popping it or putting it on the freelist.
#![tactic(auto)]

ghost use Rattle.std.specs.Prelude.{◌≡◌, cond, List, ℕ, ◌-◌, ◌≤◌, ◌<◌, eqb, length, get_or};
ghost use Rattle.definitions.specs.Arena.{arena, largest_generation, header_words, with_stack_length, with_root};
ghost use Rattle.definitions.specs.Remove.{joined, vacated};
ghost use Rattle.lent.specs.Arenas.{held_in, SameBuffers};
ghost use Rattle.base_slots.specs.Removal.{Joinable, Stands, Counted};

use base_freelist::{freelist_pointer, raise_generation};
use columns::{put_at, slot_at};
use header::{LINK_COUNT, ROOT, STACK_LENGTH};
use lent::ArenaMut;
use ptr::Slot;

// Joins the neighbours of slot s: they name each other.
#[tactic(auto, unfolding(definitions::specs::Remove::joined))]
pub fn join(prev: &mut [u32], next: &mut [u32], s: Slot)
    requires { Joinable prev.old next.old s.0 }
    ensures { (gs vs h : List ℕ) → arena prev.new next.new gs vs h ≡ joined (arena prev.old next.old gs vs h) s.0 }
{
    let before = slot_at(prev, s);
    let after = slot_at(next, s);
    put_at(next, before, after);
    put_at(prev, after, before);
}

// Empties slot s: its next gets the freelist pointer f, 0 for a popped slot, and its other words 0.
#[tactic(auto, using(definitions::proofs::Columns::put_place), unfolding(definitions::specs::Remove::vacated))]
pub fn vacate(arena: &mut ArenaMut<'_>, s: Slot, f: Slot)
    requires { Stands arena.old.prev.now arena.old.next.now arena.old.generation.now arena.old.payload.now s.0 }
    ensures vacated { held_in arena.new ≡ vacated (held_in arena.old) s.0 f.0 arena.old.header.now }
    ensures lent { SameBuffers arena.old arena.new }
{
    let i = s.0 as usize - 1;
    arena.prev[i] = 0;
    arena.next[i] = f.0;
    arena.generation[i] = 0;
    arena.payload[i] = 0;
}

// Counts a removal in the header: one link fewer, in the next generation. Answers whether the generation overflowed.
#[tactic(auto, unfolding(crate::specs::Removal::fewer))]
pub fn count_removal(header: &mut [u32]) -> bool
    requires { (length header.old ≡ header_words) × (0 < get_or header.old 1 0) }
    ensures { Counted largest_generation header.old header.new result }
{
    let overflow = raise_generation(header);
    header[LINK_COUNT] -= 1;
    overflow
}

// Pops slot s, the last of the stack. The freelist stays as it is.
#[tactic(auto, unfolding(definitions::specs::Remove::vacated))]
pub fn pop(arena: &mut ArenaMut<'_>, s: Slot)
    requires stands { Stands arena.old.prev.now arena.old.next.now arena.old.generation.now arena.old.payload.now s.0 }
    requires header_len { (length arena.old.header.now ≡ header_words) × (s.0 ≡ get_or arena.old.header.now 0 0) }
    ensures popped { held_in arena.new ≡ vacated (held_in arena.old) s.0 0 (with_stack_length (s.0 - 1) arena.old.header.now) }
    ensures lent { SameBuffers arena.old arena.new }
{
    arena.header[STACK_LENGTH] = s.0 - 1;
    vacate(arena, s, Slot(0));
}

// Frees slot s: it becomes the root, and the freelist goes on from it as `freelist_pointer` says.
#[tactic(auto, unfolding(definitions::specs::Remove::vacated))]
pub fn free(arena: &mut ArenaMut<'_>, s: Slot)
    requires stands { Stands arena.old.prev.now arena.old.next.now arena.old.generation.now arena.old.payload.now s.0 }
    requires header_len { length arena.old.header.now ≡ header_words }
    ensures freed { held_in arena.new
        ≡ vacated (held_in arena.old) s.0 (cond (eqb (get_or arena.old.header.now 2 0) 0) s.0 (get_or arena.old.header.now 2 0)) (with_root s.0 arena.old.header.now) }
    ensures lent { SameBuffers arena.old arena.new }
{
    let f = freelist_pointer(Slot(arena.header[ROOT]), s);
    arena.header[ROOT] = s.0;
    vacate(arena, s, f);
}
