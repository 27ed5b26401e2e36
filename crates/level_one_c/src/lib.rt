// Level One as a host calls it: the exports of liblevel_one.a, the check, reading, the walk, the lines and dots of the frame and what is due.
// Each export calls the function of its name in the crates below, and promises what that promises.
#![tactic(auto)]

ghost use Rattle.std.specs.Prelude.{[], ◌∷◌, ◌≡◌};
ghost use Rattle.definitions.specs.Lent.{at_entry, at_exit};
ghost use Rattle.definitions.specs.Calls.{Check, GetLink, GetLinkNoGen, AreNeighbors, WalkStart, WalkStep, DueCount, DueEvents};
ghost use Rattle.answers.specs.Answered.{Answered};
ghost use Rattle.definitions.specs.Read.{pointer};
ghost use Rattle.definitions.specs.Clock.{told, line_of_dot, line_dots};

use answers::{Answer, LinkNoGenResult};
use chain_iterators::ChainPtrAdvancer;
use lent::LentArena;
use level_one_due::DueResult;
use level_one_lines::{LineDotsResult, LineResult};
use level_one_read::{LinkResult, NeighborsResult};
use level_one_walk::{StepResult, WalkResult};
use ptr::{Ptr, Slot};

// Whether the lent arena can be worked with: 0, or the number of the first rule that fails. Every other call makes this check first
// (REFERENCE, Check).
#[unsafe(no_mangle)]
pub extern "C" fn chain_arena_check(
    prev: &[u32],
    next: &[u32],
    generation: &[u32],
    payload: &[u32],
    header: &[u32],
) -> Answer
    ensures { Answered Check (at_entry prev next generation payload header) [] result [] (at_exit prev next generation payload header) [] }
{
    level_one_read::chain_arena_check(LentArena {
        prev,
        next,
        generation,
        payload,
        header,
    })
}

// The link at p and its neighbours with their generations (REFERENCE, Reading).
#[unsafe(no_mangle)]
pub extern "C" fn chain_arena_get_link(
    prev: &[u32],
    next: &[u32],
    generation: &[u32],
    payload: &[u32],
    header: &[u32],
    p_slot: u32,
    p_generation: u32,
) -> LinkResult
    ensures { Answered (GetLink (pointer p_slot p_generation))
        (at_entry prev next generation payload header) [] result.answer (result.prev ∷ result.prev_generation ∷ result.next ∷ result.next_generation ∷ result.payload ∷ []) (at_exit prev next generation payload header) [] }
{
    level_one_read::chain_arena_get_link(
        LentArena {
            prev,
            next,
            generation,
            payload,
            header,
        },
        Ptr::new(p_slot, p_generation),
    )
}

// The link at p (REFERENCE, Reading).
#[unsafe(no_mangle)]
pub extern "C" fn chain_arena_get_link_no_gen(
    prev: &[u32],
    next: &[u32],
    generation: &[u32],
    payload: &[u32],
    header: &[u32],
    p_slot: u32,
    p_generation: u32,
) -> LinkNoGenResult
    ensures { Answered (GetLinkNoGen (pointer p_slot p_generation))
        (at_entry prev next generation payload header) [] result.answer (result.prev ∷ result.next ∷ result.payload ∷ []) (at_exit prev next generation payload header) [] }
{
    level_one_read::chain_arena_get_link_no_gen(
        LentArena {
            prev,
            next,
            generation,
            payload,
            header,
        },
        Ptr::new(p_slot, p_generation),
    )
}

// Whether the next of p_prev is p_next; no where either is stale (REFERENCE, Reading).
#[unsafe(no_mangle)]
pub extern "C" fn chain_arena_are_neighbors(
    prev: &[u32],
    next: &[u32],
    generation: &[u32],
    payload: &[u32],
    header: &[u32],
    p_prev_slot: u32,
    p_prev_generation: u32,
    p_next_slot: u32,
    p_next_generation: u32,
) -> NeighborsResult
    ensures { Answered (AreNeighbors (pointer p_prev_slot p_prev_generation) (pointer p_next_slot p_next_generation))
        (at_entry prev next generation payload header) [] result.answer (result.yes ∷ []) (at_exit prev next generation payload header) [] }
{
    level_one_read::chain_arena_are_neighbors(
        LentArena {
            prev,
            next,
            generation,
            payload,
            header,
        },
        Ptr::new(p_prev_slot, p_prev_generation),
        Ptr::new(p_next_slot, p_next_generation),
    )
}

// Begins a walk at p (REFERENCE, Walk).
#[unsafe(no_mangle)]
pub extern "C" fn chain_arena_walk_start(
    prev: &[u32],
    next: &[u32],
    generation: &[u32],
    payload: &[u32],
    header: &[u32],
    p_slot: u32,
    p_generation: u32,
) -> WalkResult
    ensures { Answered (WalkStart (pointer p_slot p_generation))
        (at_entry prev next generation payload header) [] result.answer (result.start ∷ result.position ∷ result.direction ∷ result.left ∷ []) (at_exit prev next generation payload header) [] }
{
    level_one_walk::chain_arena_walk_start(
        LentArena {
            prev,
            next,
            generation,
            payload,
            header,
        },
        Ptr::new(p_slot, p_generation),
    )
}

// One step of a walk: the link at the position, or none, and the next state. A refused step gives its state back as it got it (REFERENCE, Walk).
#[unsafe(no_mangle)]
pub extern "C" fn chain_arena_walk_step(
    prev: &[u32],
    next: &[u32],
    generation: &[u32],
    payload: &[u32],
    header: &[u32],
    start: u32,
    position: u32,
    direction: u32,
    left: u32,
) -> StepResult
    ensures { Answered WalkStep
        (at_entry prev next generation payload header) (start ∷ position ∷ direction ∷ left ∷ []) result.answer (result.slot ∷ result.generation ∷ []) (at_exit prev next generation payload header) (result.start ∷ result.position ∷ result.direction ∷ result.left ∷ []) }
{
    level_one_walk::chain_arena_walk_step(
        LentArena {
            prev,
            next,
            generation,
            payload,
            header,
        },
        ChainPtrAdvancer {
            init: Slot(start),
            ptr: Slot(position),
            switch: direction,
            max_advances: left,
        },
    )
}

// The line that a dot of the frame is in (REFERENCE, Frame clock).
#[unsafe(no_mangle)]
pub extern "C" fn chain_arena_line_of_dot(dot: u32) -> LineResult
    ensures { told result.number (result.line ∷ []) ≡ line_of_dot dot }
{
    level_one_lines::chain_arena_line_of_dot(dot)
}

// The first and the last dot of a line of the frame (REFERENCE, Frame clock).
#[unsafe(no_mangle)]
pub extern "C" fn chain_arena_line_dots(line: u32) -> LineDotsResult
    ensures { told result.number (result.first ∷ result.last ∷ []) ≡ line_dots line }
{
    level_one_lines::chain_arena_line_dots(line)
}

// How many links of p's chain are due in a window that begins with the dot `from` and ends before `to` (REFERENCE, Frame clock).
#[unsafe(no_mangle)]
pub extern "C" fn chain_arena_due_count(
    prev: &[u32],
    next: &[u32],
    generation: &[u32],
    payload: &[u32],
    header: &[u32],
    p_slot: u32,
    p_generation: u32,
    from: u32,
    to: u32,
) -> DueResult
    ensures { Answered (DueCount (pointer p_slot p_generation) from to)
        (at_entry prev next generation payload header) [] result.answer (result.count ∷ []) (at_exit prev next generation payload header) [] }
{
    level_one_due::chain_arena_due_count(
        LentArena {
            prev,
            next,
            generation,
            payload,
            header,
        },
        Ptr::new(p_slot, p_generation),
        from,
        to,
    )
}

// Reports the slots of the links of p's chain that are due in such a window, in the order of a walk from p, and answers how many
// (REFERENCE, Frame clock).
#[unsafe(no_mangle)]
pub extern "C" fn chain_arena_due_events(
    prev: &[u32],
    next: &[u32],
    generation: &[u32],
    payload: &[u32],
    header: &[u32],
    p_slot: u32,
    p_generation: u32,
    from: u32,
    to: u32,
    report: &mut [u32],
) -> DueResult
    ensures { Answered (DueEvents (pointer p_slot p_generation) from to)
        (at_entry prev next generation payload header) report.old result.answer (result.count ∷ []) (at_exit prev next generation payload header) report.new }
{
    level_one_due::chain_arena_due_events(
        LentArena {
            prev,
            next,
            generation,
            payload,
            header,
        },
        Ptr::new(p_slot, p_generation),
        from,
        to,
        report,
    )
}
