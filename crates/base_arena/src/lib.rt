// The check of slots and freelist (arena/base_arena.rs, `_check_invariants`): refusals 1 to 10 of a lent arena.
#![tactic(auto)]

ghost use Rattle.std.specs.Prelude.{◌≡◌, ◌≤◌, ◌<◌, false, cond, length};
ghost use Rattle.definitions.specs.Arena.{capacity_limit, link_slots, free_slots};
ghost use Rattle.definitions.specs.Check.{misshapen, counts_of};
ghost use Rattle.lent.specs.Arenas.{lent_of};
ghost use Rattle.refusals.specs.Refusal.{ok_or_number};
ghost use Rattle.base_arena.specs.AllFree.{Reads, Walks};
ghost use Rattle.base_arena.specs.Shape.{Shapes};

use header::{CURRENT_GENERATION, HEADER_WORDS, LINK_COUNT, STACK_LENGTH};
use lent::{ArenaRef, LentArena};
use refusals::Refusal;

// The largest capacity: no slot is above it.
pub const CAPACITY_LIMIT: usize = 1048576;

// Whether the lengths of columns and header are wrong: refusal 1.
#[tactic(auto, unfolding(definitions::specs::Check::misshapen))]
pub fn is_misshapen(arena: LentArena<'_>) -> bool
    ensures { result ≡ misshapen capacity_limit (lent_of arena.entry) }
{
    let capacity = arena.prev.len();
    arena.header.len() != HEADER_WORDS
        || CAPACITY_LIMIT < capacity
        || arena.next.len() != capacity
        || arena.generation.len() != capacity
        || arena.payload.len() != capacity
}

// Refusals 1 to 3, or the arena, which has the shape of one.
#[tactic(auto, using(crate::proofs::Refusals::header_if_sized, crate::proofs::Refusals::shaped_if_within), unfolding(crate::specs::Shape::shape_of))]
pub fn shape(arena: LentArena<'_>) -> Result<ArenaRef<'_>, Refusal>
    ensures { Shapes (lent_of arena.entry) result }
{
    if is_misshapen(arena) {
        return Err(Refusal::Shape);
    }
    let capacity = arena.prev.len();
    let header = arena.header;
    if header[CURRENT_GENERATION] < 2 {
        return Err(Refusal::CurrentGeneration);
    }
    if capacity < header[LINK_COUNT] as usize || capacity < header[STACK_LENGTH] as usize {
        return Err(Refusal::OverCapacity);
    }
    Ok(arena.shaped())
}

// How many slots of a stack are allocated. (The count is as wide as a generation, so that several slots are counted at a time.)
#[tactic(auto, using(crate::proofs::Counting::counting_links))]
pub fn allocated_slots(generation: &[u32]) -> u32
    requires { length generation.now ≤ capacity_limit }
    ensures { result ≡ length (link_slots generation.now (length generation.now)) }
{
    let mut allocated: u32 = 0;
    for g in generation {
        if *g != 0 {
            allocated += 1;
        }
    }
    allocated
}

// Whether a slot of a stack is a link. Where each slot is free none is, and no generation is read.
#[tactic(auto, using(crate::proofs::Walk::link_read))]
fn is_link<const ALL_FREE: bool>(generation: &[u32], slot: usize) -> bool
    requires some { 0 < slot }
    requires in_column { ALL_FREE ≡ false → slot ≤ length generation.now }
    ensures { Reads ALL_FREE generation.now slot result }
{
    !ALL_FREE && generation[slot - 1] != 0
}

// Walks the freelist of a stack, of which so many slots are free, from the root: refusals 6 to 10. Where each slot is free, no generation is read: the column
// may be empty.
#[tactic(auto, using(crate::proofs::Walk::visits))]
pub fn freelist<const ALL_FREE: bool>(
    next: &[u32],
    generation: &[u32],
    root: usize,
    free: usize,
) -> Result<(), Refusal>
    requires small { length next.now ≤ capacity_limit }
    requires same_length { ALL_FREE ≡ false → length generation.now ≡ length next.now }
    requires counted { free ≡ cond ALL_FREE (length next.now) (length (free_slots generation.now (length next.now))) }
    ensures { Walks ALL_FREE next.now generation.now root (ok_or_number result) }
{
    let n = next.len();
    let mut slot = root;
    for visited in 0..n + 2 {
        if slot == 0 {
            return Err(Refusal::FreelistZero);
        }
        if n < slot {
            return Err(Refusal::FreelistAboveStack);
        }
        // where the list goes on is read before whether the slot is free: that is what takes longest to come
        let to = next[slot - 1] as usize;
        if to == slot {
            if is_link::<ALL_FREE>(generation, slot) {
                return Err(Refusal::FreelistLink);
            }
            if visited + 1 < free {
                return Err(Refusal::FreelistIncomplete);
            }
            return Ok(());
        }
        if is_link::<ALL_FREE>(generation, slot) {
            return Err(Refusal::FreelistLink);
        }
        slot = to;
    }
    Err(Refusal::FreelistEndless)
}

// Refusals 4 to 10 of a stack with the link count and the root that the header says.
#[tactic(auto, using(crate::proofs::Counting::counting_slots))]
pub fn counts(next: &[u32], generation: &[u32], links: u32, root: usize) -> Result<(), Refusal>
    requires { (length next.now ≡ length generation.now) × (length generation.now ≤ capacity_limit) }
    ensures { ok_or_number result ≡ counts_of next.now generation.now (length generation.now) links root }
{
    let n = generation.len();
    let allocated = allocated_slots(generation);
    if links != allocated {
        return Err(Refusal::LinkCount);
    }
    let free = n - allocated as usize;
    if (root == 0) != (free == 0) {
        return Err(Refusal::Root);
    }
    if root == 0 {
        return Ok(());
    }
    if free == n {
        return freelist::<true>(next, &[], root, free);
    }
    freelist::<false>(next, generation, root, free)
}
