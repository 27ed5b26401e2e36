// Level Two as a host calls it: the exports of liblevel_two.a, the edits, the insertion, the removal, the drain, the generation and many edits in one call.
// Each export calls the function of its name in the crates below, and promises what that promises.
#![tactic(auto)]

ghost use Rattle.std.specs.Prelude.{[], ◌∷◌};
ghost use Rattle.definitions.specs.Arena.{arena};
ghost use Rattle.definitions.specs.Read.{pointer};
ghost use Rattle.definitions.specs.Calls.{Connect, BreakPrev, BreakNext, ExchangeNext, Insert, Remove, Drain, SetGeneration, IncGeneration, CanonicalizeFreelist, Run};
ghost use Rattle.answers.specs.Answered.{Answered};

use answers::{Answer, LinkNoGenResult};
use lent::{ArenaMut, HeaderMut, LinksMut};
use level_two_drain::DrainResult;
use level_two_insert::InsertResult;
use ptr::Ptr;

// Joins the end p_prev to the start p_next (REFERENCE, Connect).
#[unsafe(no_mangle)]
pub extern "C" fn chain_arena_connect(
    prev: &mut [u32],
    next: &mut [u32],
    generation: &[u32],
    payload: &[u32],
    header: &[u32],
    p_prev_slot: u32,
    p_prev_generation: u32,
    p_next_slot: u32,
    p_next_generation: u32,
) -> Answer
    ensures { Answered (Connect (pointer p_prev_slot p_prev_generation) (pointer p_next_slot p_next_generation))
        (arena prev.old next.old generation.now payload.now header.now) [] result [] (arena prev.new next.new generation.now payload.now header.now) [] }
{
    level_two_edits::chain_arena_connect(
        &mut LinksMut {
            prev,
            next,
            generation,
            payload,
            header,
        },
        Ptr::new(p_prev_slot, p_prev_generation),
        Ptr::new(p_next_slot, p_next_generation),
    )
}

// Takes the interlink between p and its prev away (REFERENCE, Break).
#[unsafe(no_mangle)]
pub extern "C" fn chain_arena_break_prev(
    prev: &mut [u32],
    next: &mut [u32],
    generation: &[u32],
    payload: &[u32],
    header: &[u32],
    p_slot: u32,
    p_generation: u32,
) -> Answer
    ensures { Answered (BreakPrev (pointer p_slot p_generation))
        (arena prev.old next.old generation.now payload.now header.now) [] result [] (arena prev.new next.new generation.now payload.now header.now) [] }
{
    level_two_edits::chain_arena_break_prev(
        &mut LinksMut {
            prev,
            next,
            generation,
            payload,
            header,
        },
        Ptr::new(p_slot, p_generation),
    )
}

// Takes the interlink between p and its next away (REFERENCE, Break).
#[unsafe(no_mangle)]
pub extern "C" fn chain_arena_break_next(
    prev: &mut [u32],
    next: &mut [u32],
    generation: &[u32],
    payload: &[u32],
    header: &[u32],
    p_slot: u32,
    p_generation: u32,
) -> Answer
    ensures { Answered (BreakNext (pointer p_slot p_generation))
        (arena prev.old next.old generation.now payload.now header.now) [] result [] (arena prev.new next.new generation.now payload.now header.now) [] }
{
    level_two_edits::chain_arena_break_next(
        &mut LinksMut {
            prev,
            next,
            generation,
            payload,
            header,
        },
        Ptr::new(p_slot, p_generation),
    )
}

// Gives each of p0 and p1 the other's next (REFERENCE, Exchange).
#[unsafe(no_mangle)]
pub extern "C" fn chain_arena_exchange_next(
    prev: &mut [u32],
    next: &mut [u32],
    generation: &[u32],
    payload: &[u32],
    header: &[u32],
    p0_slot: u32,
    p0_generation: u32,
    p1_slot: u32,
    p1_generation: u32,
) -> Answer
    ensures { Answered (ExchangeNext (pointer p0_slot p0_generation) (pointer p1_slot p1_generation))
        (arena prev.old next.old generation.now payload.now header.now) [] result [] (arena prev.new next.new generation.now payload.now header.now) [] }
{
    level_two_edits::chain_arena_exchange_next(
        &mut LinksMut {
            prev,
            next,
            generation,
            payload,
            header,
        },
        Ptr::new(p0_slot, p0_generation),
        Ptr::new(p1_slot, p1_generation),
    )
}

// Inserts a link of the new payload where the kind says, 6 to 19, with the links at p and q if it names them (REFERENCE, Insert).
#[unsafe(no_mangle)]
pub extern "C" fn chain_arena_insert(
    prev: &mut [u32],
    next: &mut [u32],
    generation: &mut [u32],
    payload: &mut [u32],
    header: &mut [u32],
    kind: u32,
    p_slot: u32,
    p_generation: u32,
    q_slot: u32,
    q_generation: u32,
    new_payload: u32,
) -> InsertResult
    ensures { Answered (Insert kind (pointer p_slot p_generation) (pointer q_slot q_generation) new_payload)
        (arena prev.old next.old generation.old payload.old header.old) [] result.answer (result.slot ∷ result.generation ∷ []) (arena prev.new next.new generation.new payload.new header.new) [] }
{
    level_two_insert::chain_arena_insert(
        &mut ArenaMut {
            prev,
            next,
            generation,
            payload,
            header,
        },
        kind,
        Ptr::new(p_slot, p_generation),
        Ptr::new(q_slot, q_generation),
        new_payload,
    )
}

// Removes the link at p, and answers what it was (REFERENCE, Remove).
#[unsafe(no_mangle)]
pub extern "C" fn chain_arena_remove(
    prev: &mut [u32],
    next: &mut [u32],
    generation: &mut [u32],
    payload: &mut [u32],
    header: &mut [u32],
    p_slot: u32,
    p_generation: u32,
) -> LinkNoGenResult
    ensures { Answered (Remove (pointer p_slot p_generation))
        (arena prev.old next.old generation.old payload.old header.old) [] result.answer (result.prev ∷ result.next ∷ result.payload ∷ []) (arena prev.new next.new generation.new payload.new header.new) [] }
{
    level_two_remove::chain_arena_remove(
        &mut ArenaMut {
            prev,
            next,
            generation,
            payload,
            header,
        },
        Ptr::new(p_slot, p_generation),
    )
}

// Removes every link of p's chain, in the order of a walk from p, and reports each as it is when its turn comes, in five words (REFERENCE, Drain).
#[unsafe(no_mangle)]
pub extern "C" fn chain_arena_drain(
    prev: &mut [u32],
    next: &mut [u32],
    generation: &mut [u32],
    payload: &mut [u32],
    header: &mut [u32],
    p_slot: u32,
    p_generation: u32,
    report: &mut [u32],
) -> DrainResult
    ensures { Answered (Drain (pointer p_slot p_generation))
        (arena prev.old next.old generation.old payload.old header.old) report.old result.answer (result.items ∷ result.overflowed ∷ []) (arena prev.new next.new generation.new payload.new header.new) report.new }
{
    level_two_drain::chain_arena_drain(
        &mut ArenaMut {
            prev,
            next,
            generation,
            payload,
            header,
        },
        Ptr::new(p_slot, p_generation),
        report,
    )
}

// Makes new_generation the current one; 15 where it is 0 or 1 (REFERENCE, Generation).
#[unsafe(no_mangle)]
pub extern "C" fn chain_arena_set_generation(
    prev: &[u32],
    next: &[u32],
    generation: &[u32],
    payload: &[u32],
    header: &mut [u32],
    new_generation: u32,
) -> Answer
    ensures { Answered (SetGeneration new_generation)
        (arena prev.now next.now generation.now payload.now header.old) [] result [] (arena prev.now next.now generation.now payload.now header.new) [] }
{
    level_two_generation::chain_arena_set_generation(
        &mut HeaderMut {
            prev,
            next,
            generation,
            payload,
            header,
        },
        new_generation,
    )
}

// Raises the current generation; 100 where it overflowed (REFERENCE, Generation).
#[unsafe(no_mangle)]
pub extern "C" fn chain_arena_inc_generation(
    prev: &[u32],
    next: &[u32],
    generation: &[u32],
    payload: &[u32],
    header: &mut [u32],
) -> Answer
    ensures { Answered IncGeneration
        (arena prev.now next.now generation.now payload.now header.old) [] result [] (arena prev.now next.now generation.now payload.now header.new) [] }
{
    level_two_generation::chain_arena_inc_generation(&mut HeaderMut {
        prev,
        next,
        generation,
        payload,
        header,
    })
}

// Pops the free slots at the end of the stack and lists the others in rising order (REFERENCE, Freelist).
#[unsafe(no_mangle)]
pub extern "C" fn chain_arena_canonicalize_freelist(
    prev: &mut [u32],
    next: &mut [u32],
    generation: &mut [u32],
    payload: &mut [u32],
    header: &mut [u32],
) -> Answer
    ensures { Answered CanonicalizeFreelist
        (arena prev.old next.old generation.old payload.old header.old) [] result [] (arena prev.new next.new generation.new payload.new header.new) [] }
{
    level_two_generation::chain_arena_canonicalize_freelist(&mut ArenaMut {
        prev,
        next,
        generation,
        payload,
        header,
    })
}

// Runs the commands, six words each, and writes an answer word for each: 0, 100, 12, 13, 16, 17 or 18 (REFERENCE, Run).
#[unsafe(no_mangle)]
pub extern "C" fn chain_arena_run(
    prev: &mut [u32],
    next: &mut [u32],
    generation: &mut [u32],
    payload: &mut [u32],
    header: &mut [u32],
    commands: &[u32],
    answers: &mut [u32],
) -> Answer
    ensures { Answered (Run commands.now)
        (arena prev.old next.old generation.old payload.old header.old) answers.old result [] (arena prev.new next.new generation.new payload.new header.new) answers.new }
{
    level_two_run::chain_arena_run(
        &mut ArenaMut {
            prev,
            next,
            generation,
            payload,
            header,
        },
        commands,
        answers,
    )
}
