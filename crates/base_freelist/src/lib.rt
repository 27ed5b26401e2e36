// Generations and the freelist of the arena under the chains (arena/base_arena.rs), in columns that the caller lends.
#![tactic(auto)]

ghost use Rattle.std.specs.Prelude.{◌≡◌, cond, List, [], ℕ, ◌≤◌, eqb, length, get_or};
ghost use Rattle.definitions.specs.Columns.{first_or, last_or};
ghost use Rattle.definitions.specs.Arena.{arena, capacity_limit, largest_generation, header_words, with_current, link_slots, free_slots};
ghost use Rattle.definitions.specs.Check.{verdict};
ghost use Rattle.definitions.specs.Reply.{reply};
ghost use Rattle.definitions.specs.Edit.{next_generation, overflows, set_generation, inc_generation};
ghost use Rattle.definitions.specs.Remove.{threaded, canonicalize_freelist};
ghost use Rattle.lent.specs.Arenas.{held_in, SameBuffers};
ghost use Rattle.ptr.specs.Extra.{invalidation_number};
ghost use Rattle.refusals.specs.Refusal.{no_words, result_reply};
ghost use Rattle.base_freelist.specs.Popped.{popped, all_popped};

use header::{CURRENT_GENERATION, ROOT, STACK_LENGTH};
use lent::ArenaMut;
use ptr::{Gen, InvalidationOption, Slot};
use refusals::Refusal;

// Makes g the current generation of the arena with this header. 0 and 1 are refused, which the crate does not do (docs/DIFFERENCES.md).
#[tactic(auto, unfolding(definitions::specs::Edit::set_generation))]
pub fn set_generation(header: &mut [u32], g: Gen) -> Result<(), Refusal>
    requires { length header.old ≡ header_words }
    ensures { (ps ns gs vs : List ℕ) → result_reply no_words 0 result (arena ps ns gs vs header.new) [] ≡ set_generation (arena ps ns gs vs header.old) g.0 [] }
{
    if g.0 < 2 {
        return Err(Refusal::GenerationTooLow);
    }
    header[CURRENT_GENERATION] = g.0;
    Ok(())
}

// Raises the current generation, and answers whether it overflowed.
pub fn raise_generation(header: &mut [u32]) -> bool
    requires { length header.old ≡ header_words }
    ensures raised { header.new ≡ with_current (next_generation largest_generation (get_or header.old 3 0)) header.old }
    ensures overflowed { result ≡ overflows largest_generation (get_or header.old 3 0) }
{
    let raised = Gen(header[CURRENT_GENERATION]).generational_inc();
    header[CURRENT_GENERATION] = raised.generation.0;
    raised.overflow
}

// Raises the current generation of the arena with this header.
#[tactic(auto, unfolding(definitions::specs::Edit::inc_generation))]
pub fn inc_generation(header: &mut [u32]) -> InvalidationOption
    requires { length header.old ≡ header_words }
    ensures { (ps ns gs vs : List ℕ) → reply (invalidation_number result) [] (arena ps ns gs vs header.new) []
        ≡ inc_generation largest_generation (arena ps ns gs vs header.old) [] }
{
    InvalidationOption::of(raise_generation(header))
}

// The highest link of a stack with these generations, 0 where it has none: there the stack ends once its free end slots are popped.
pub fn highest_link(generation: &[u32]) -> usize
    ensures { result ≡ last_or 0 (link_slots generation.now (length generation.now)) }
{
    match generation.iter().rposition(|g| *g != 0) {
        Some(i) => i + 1,
        None => 0,
    }
}

// Pops the slots past slot m of a stack of n: their words become 0, in every column.
pub fn pop_slots(arena: &mut ArenaMut<'_>, m: usize, n: usize)
    requires { (m ≤ n) × (n ≤ length arena.old.prev.now) × (n ≤ length arena.old.next.now) × (n ≤ length arena.old.generation.now) × (n ≤ length arena.old.payload.now) }
    ensures popped { held_in arena.new ≡ all_popped m n (held_in arena.old) }
    ensures lent { SameBuffers arena.old arena.new }
{
    arena.prev[m..n].fill(0);
    arena.next[m..n].fill(0);
    arena.generation[m..n].fill(0);
    arena.payload[m..n].fill(0);
}

// Where the freelist goes on from a slot s that is freed: at the root that was, or at s itself where none was.
pub fn freelist_pointer(root: Slot, s: Slot) -> Slot
    ensures { result.0 ≡ cond (eqb root.0 0) s.0 root.0 }
{
    if root.0 == 0 { s } else { root }
}

// Lists the free slots of a stack of m slots in rising order, so that the highest points at itself. Answers the lowest, which is the root; slot 0
// where there is none.
pub fn relist(next: &mut [u32], generation: &[u32], m: usize) -> Slot
    requires { (m ≤ length next.old) × (m ≤ length generation.now) × (m ≤ capacity_limit) }
    ensures { (result.0 ≡ first_or 0 (free_slots generation.now m)) × (next.new ≡ threaded next.old (free_slots generation.now m)) }
{
    let mut root = Slot(0);
    for i in (0..m).rev() {
        if generation[i] == 0 {
            let s = Slot(i as u32 + 1);
            next[i] = freelist_pointer(root, s).0;
            root = s;
        }
    }
    root
}

// Pops the free end slots and lists the other free slots anew, on an arena that passed the check.
#[tactic(auto, using(definitions::proofs::Shaped::shaped, crate::proofs::Rising::highest_in_stack, crate::proofs::Rising::ends_within))]
pub fn canonicalize_freelist(arena: &mut ArenaMut<'_>)
    requires { verdict capacity_limit (held_in arena.old) ≡ 0 }
    ensures canonicalized { reply 0 [] (held_in arena.new) [] ≡ canonicalize_freelist (held_in arena.old) [] }
    ensures lent { SameBuffers arena.old arena.new }
{
    let n = arena.header[STACK_LENGTH] as usize;
    let generation = &mut *arena.generation;
    let m = highest_link(&generation[..n]);
    let root = relist(arena.next, &*generation, m);
    arena.header[ROOT] = root.0;
    arena.header[STACK_LENGTH] = m as u32;
    pop_slots(arena, m, n);
}
