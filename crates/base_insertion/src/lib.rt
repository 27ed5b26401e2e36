// A new link's slot, and its words in all columns (arena/impl_arena_trait.rs, and the interlinks of chain/impl_chain_arena_trait.rs).
#![tactic(auto)]

ghost use Rattle.std.specs.Prelude.{◌≡◌, cond, List, ℕ, ◌+◌, ◌≤◌, ◌<◌, eqb, length, get_or};
ghost use Rattle.definitions.specs.Columns.{at, put};
ghost use Rattle.definitions.specs.Arena.{arena, capacity_limit, header_words};
ghost use Rattle.definitions.specs.Insert.{header_after, inserted};
ghost use Rattle.lent.specs.Arenas.{held_in, SameBuffers};
ghost use Rattle.base_insertion.specs.Insertion.{Roomy, Countable, Insertable, slot_for};

use columns::{put_at, set_at, slot_at};
use header::{CURRENT_GENERATION, LINK_COUNT, ROOT, STACK_LENGTH};
use lent::ArenaMut;
use ptr::Slot;

// The slot of a new link: the root, or the slot after the stack where there is no root; 0 where there is neither.
pub fn new_slot(header: &[u32], capacity: usize) -> Slot
    requires { Roomy header.now capacity }
    ensures { result.0 ≡ slot_for header.now capacity }
{
    let root = header[ROOT];
    let n = header[STACK_LENGTH];
    if root != 0 {
        return Slot(root);
    }
    if n as usize == capacity {
        return Slot(0);
    }
    Slot(n + 1)
}

// The root after the root was taken: where its freelist pointer leads, 0 where that is the root itself.
pub fn root_after(next: &[u32], root: Slot) -> Slot
    requires { (0 < root.0) × (root.0 ≤ length next.now) }
    ensures { result.0 ≡ cond (eqb (at next.now root.0) root.0) 0 (at next.now root.0) }
{
    let f = slot_at(next, root);
    if f == root { Slot(0) } else { f }
}

// Counts a new link in the header, and takes the root or, where there is none, the slot after the stack.
#[tactic(auto, unfolding(definitions::specs::Insert::header_after, definitions::specs::Insert::root_after))]
pub fn count_insertion(next: &[u32], header: &mut [u32])
    requires { Countable next.now header.old }
    ensures { (ps gs vs : List ℕ) → header.new ≡ header_after (arena ps next.now gs vs header.old) }
{
    let root = Slot(header[ROOT]);
    header[LINK_COUNT] += 1;
    if root.0 == 0 {
        header[STACK_LENGTH] += 1;
    } else {
        header[ROOT] = root_after(next, root).0;
    }
}

// One side of a new link t in a link column: u becomes its own neighbour there, and it that of v, if there is a v.
pub fn put_in(column: &mut [u32], t: Slot, u: Slot, v: Slot)
    requires { (0 < t.0) × (t.0 ≤ length column.old) × (v.0 ≤ length column.old) }
    ensures { column.new ≡ put (put column.old t.0 u.0) v.0 t.0 }
{
    set_at(column, t, u);
    put_at(column, v, t);
}

// A link of payload x in slot t, between the slots u and v; 0 where there is none.
pub fn insert_between(arena: &mut ArenaMut<'_>, t: Slot, u: Slot, v: Slot, x: u32)
    requires { Insertable (held_in arena.old) t.0 u.0 v.0 }
    ensures inserted { held_in arena.new ≡ inserted (held_in arena.old) u.0 v.0 x }
    ensures lent { SameBuffers arena.old arena.new }
{
    let g = arena.header[CURRENT_GENERATION];
    let i = t.0 as usize - 1;
    let next = &mut *arena.next;
    count_insertion(&*next, arena.header);
    put_in(next, t, v, u);
    put_in(arena.prev, t, u, v);
    arena.generation[i] = g;
    arena.payload[i] = x;
}
