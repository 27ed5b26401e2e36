// Level One, the walk along a chain, as a host calls it through level_one_c.
#![tactic(auto)]

ghost use Rattle.std.specs.Prelude.{◌≡◌, ℕ, List, [], ◌∷◌};
ghost use Rattle.definitions.specs.Arena.{Arena, capacity_limit, largest_generation};
ghost use Rattle.definitions.specs.Walk.{state_words};
ghost use Rattle.definitions.specs.Calls.{WalkStart, WalkStep, reply_to};
ghost use Rattle.ptr.specs.Pointers.{pointer_of};
ghost use Rattle.lent.specs.Arenas.{lent_of};
ghost use Rattle.refusals.specs.Refusal.{result_reply};
ghost use Rattle.chain_iterators.specs.Walk.{walk_of, walk_words};
ghost use Rattle.answers.specs.Answered.{replied, Answered};
ghost use Rattle.level_one_walk.specs.Results.{step_reply};

use answers::Answer;
use chain_arena::check;
use chain_iterators::{ChainPtrAdvancer, advancer_chain};
use lent::LentArena;
use ptr::Ptr;
use refusals::Refusal;

// The state of a walk that has begun.
#[repr(C)]
#[derive(Clone, Copy, Default)]
pub struct WalkResult {
    pub answer: Answer,
    pub start: u32,
    pub position: u32,
    pub direction: u32,
    pub left: u32,
}

// The walk, or the refusal.
impl From<Result<ChainPtrAdvancer, Refusal>> for WalkResult {
    ghost from_gives = { λ r a. (b : Arena) (l : List ℕ) → replied a.answer (a.start ∷ a.position ∷ a.direction ∷ a.left ∷ []) b l ≡ result_reply walk_words 4 r b l };

    fn from(started: Result<ChainPtrAdvancer, Refusal>) -> WalkResult {
        match started {
            Ok(walk) => WalkResult {
                answer: Answer::DONE,
                start: walk.init.0,
                position: walk.ptr.0,
                direction: walk.switch,
                left: walk.max_advances,
            },
            Err(refusal) => WalkResult {
                answer: Answer::from(refusal),
                ..WalkResult::default()
            },
        }
    }
}

// What a step answers, slot 0 and generation 0 for none, and the next state.
#[repr(C)]
#[derive(Clone, Copy)]
pub struct StepResult {
    pub answer: Answer,
    pub slot: u32,
    pub generation: u32,
    pub start: u32,
    pub position: u32,
    pub direction: u32,
    pub left: u32,
}

impl StepResult {
    // What a step answered, or the refusal; and the state after it.
    fn of(stepped: Result<Option<Ptr>, Refusal>, walk: ChainPtrAdvancer) -> StepResult
        ensures { (a : Arena) → replied result.answer (result.slot ∷ result.generation ∷ []) a (result.start ∷ result.position ∷ result.direction ∷ result.left ∷ [])
            ≡ step_reply stepped walk a }
    {
        let (answer, p) = match stepped {
            Ok(Some(p)) => (Answer::DONE, p),
            Ok(None) => (Answer::DONE, Ptr::new(0, 0)),
            Err(refusal) => (Answer::from(refusal), Ptr::new(0, 0)),
        };
        StepResult {
            answer: answer,
            slot: p.inx.0,
            generation: p.generation.0,
            start: walk.init.0,
            position: walk.ptr.0,
            direction: walk.switch,
            left: walk.max_advances,
        }
    }
}

// Begins a walk at p (REFERENCE, Walk).
pub fn chain_arena_walk_start(arena: LentArena<'_>, p: Ptr) -> WalkResult
    ensures { Answered (WalkStart (pointer_of p)) (lent_of arena.entry) [] result.answer (result.start ∷ result.position ∷ result.direction ∷ result.left ∷ []) (lent_of arena.entry) [] }
{
    WalkResult::from(walk_from(arena, p))
}

// The same, or why the call is refused.
#[tactic(auto, using(answers::proofs::Exports::replies_refused, answers::proofs::Exports::replies_passed), unfolding(definitions::specs::Calls::accepted))]
fn walk_from(arena: LentArena<'_>, p: Ptr) -> Result<ChainPtrAdvancer, Refusal>
    ensures { result_reply walk_words 4 result (lent_of arena.entry) []
        ≡ reply_to capacity_limit largest_generation (WalkStart (pointer_of p)) (lent_of arena.entry) [] }
{
    advancer_chain(check(arena)?.arena(), p)
}

// One step of a walk: the link at the position, or none, and the next state. A refused step gives its state back as it got it (REFERENCE, Walk).
pub fn chain_arena_walk_step(arena: LentArena<'_>, mut walk: ChainPtrAdvancer) -> StepResult
    ensures { Answered WalkStep (lent_of arena.entry) (state_words (walk_of walk)) result.answer (result.slot ∷ result.generation ∷ []) (lent_of arena.entry) (result.start ∷ result.position ∷ result.direction ∷ result.left ∷ []) }
{
    let stepped = step(arena, &mut walk);
    StepResult::of(stepped, walk)
}

// What the walk's step answers, or why the call is refused.
#[tactic(auto, using(answers::proofs::Exports::replies_refused, answers::proofs::Exports::replies_passed), unfolding(definitions::specs::Calls::accepted, definitions::specs::Walk::walk_step))]
fn step(arena: LentArena<'_>, walk: &mut ChainPtrAdvancer) -> Result<Option<Ptr>, Refusal>
    ensures { step_reply result walk.new (lent_of arena.entry)
        ≡ reply_to capacity_limit largest_generation WalkStep (lent_of arena.entry) (state_words (walk_of walk.old)) }
{
    let checked = check(arena)?;
    Ok(walk.advance(checked.arena()))
}
