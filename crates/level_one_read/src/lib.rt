// Level One, the check of an arena and reading links and neighbours, as a host calls it through level_one_c.
#![tactic(auto)]

ghost use Rattle.std.specs.Prelude.{◌≡◌, ℕ, List, [], ◌∷◌};
ghost use Rattle.definitions.specs.Arena.{Arena, capacity_limit, largest_generation};
ghost use Rattle.definitions.specs.Calls.{Check, GetLink, GetLinkNoGen, AreNeighbors, reply_to};
ghost use Rattle.ptr.specs.Pointers.{pointer_of};
ghost use Rattle.links.specs.Links.{no_gen_words};
ghost use Rattle.lent.specs.Arenas.{lent_of};
ghost use Rattle.chain_traits.specs.Read.{gen_words};
ghost use Rattle.answers.specs.Answered.{replied, Answered};
ghost use Rattle.refusals.specs.Refusal.{result_reply};
ghost use Rattle.level_one_read.specs.Results.{yes_words};

use answers::{Answer, LinkNoGenResult, checked};
use chain_arena::check;
use chain_traits::{are_neighbors, get_link, get_link_no_gen};
use lent::LentArena;
use links::{Link, LinkNoGen};
use ptr::Ptr;
use refusals::Refusal;

// A link with its neighbours' generations; slot 0 and generation 0 where there is no neighbour.
#[repr(C)]
#[derive(Clone, Copy, Default)]
pub struct LinkResult {
    pub answer: Answer,
    pub prev: u32,
    pub prev_generation: u32,
    pub next: u32,
    pub next_generation: u32,
    pub payload: u32,
}

// The link that was read, or the refusal.
impl From<Result<Link, Refusal>> for LinkResult {
    ghost from_gives = { λ r a. (b : Arena) (l : List ℕ) → replied a.answer (a.prev ∷ a.prev_generation ∷ a.next ∷ a.next_generation ∷ a.payload ∷ []) b l ≡ result_reply gen_words 5 r b l };

    fn from(read: Result<Link, Refusal>) -> LinkResult {
        match read {
            Ok(l) => LinkResult {
                answer: Answer::DONE,
                prev: l.prev.inx.0,
                prev_generation: l.prev.generation.0,
                next: l.next.inx.0,
                next_generation: l.next.generation.0,
                payload: l.t,
            },
            Err(refusal) => LinkResult {
                answer: Answer::from(refusal),
                ..LinkResult::default()
            },
        }
    }
}

// Whether two links are neighbours: 1 or 0.
#[repr(C)]
#[derive(Clone, Copy, Default)]
pub struct NeighborsResult {
    pub answer: Answer,
    pub yes: u32,
}

// Whether they are, or the refusal.
impl From<Result<bool, Refusal>> for NeighborsResult {
    ghost from_gives = { λ r a. (b : Arena) (l : List ℕ) → replied a.answer (a.yes ∷ []) b l ≡ result_reply yes_words 1 r b l };

    fn from(read: Result<bool, Refusal>) -> NeighborsResult {
        match read {
            Ok(yes) => NeighborsResult {
                answer: Answer::DONE,
                yes: yes as u32,
            },
            Err(refusal) => NeighborsResult {
                answer: Answer::from(refusal),
                ..NeighborsResult::default()
            },
        }
    }
}

// Whether the lent arena can be worked with: 0, or the number of the first rule that fails. Every other call makes this check first
// (REFERENCE, Check).
pub fn chain_arena_check(arena: LentArena<'_>) -> Answer
    ensures { Answered Check (lent_of arena.entry) [] result [] (lent_of arena.entry) [] }
{
    checked(arena)
}

// The link at p and its neighbours with their generations (REFERENCE, Reading).
pub fn chain_arena_get_link(arena: LentArena<'_>, p: Ptr) -> LinkResult
    ensures { Answered (GetLink (pointer_of p)) (lent_of arena.entry) [] result.answer (result.prev ∷ result.prev_generation ∷ result.next ∷ result.next_generation ∷ result.payload ∷ []) (lent_of arena.entry) [] }
{
    LinkResult::from(link_at(arena, p))
}

// The same, or why the call is refused.
#[tactic(auto, using(answers::proofs::Exports::replies_refused, answers::proofs::Exports::replies_passed), unfolding(definitions::specs::Calls::accepted))]
fn link_at(arena: LentArena<'_>, p: Ptr) -> Result<Link, Refusal>
    ensures { result_reply gen_words 5 result (lent_of arena.entry) []
        ≡ reply_to capacity_limit largest_generation (GetLink (pointer_of p)) (lent_of arena.entry) [] }
{
    get_link(check(arena)?, p).ok_or(Refusal::StalePointer)
}

// The link at p (REFERENCE, Reading).
pub fn chain_arena_get_link_no_gen(arena: LentArena<'_>, p: Ptr) -> LinkNoGenResult
    ensures { Answered (GetLinkNoGen (pointer_of p)) (lent_of arena.entry) [] result.answer (result.prev ∷ result.next ∷ result.payload ∷ []) (lent_of arena.entry) [] }
{
    LinkNoGenResult::from(link_no_gen_at(arena, p))
}

// The same, or why the call is refused.
#[tactic(auto, using(answers::proofs::Exports::replies_refused, answers::proofs::Exports::replies_passed), unfolding(definitions::specs::Calls::accepted))]
fn link_no_gen_at(arena: LentArena<'_>, p: Ptr) -> Result<LinkNoGen, Refusal>
    ensures { result_reply no_gen_words 3 result (lent_of arena.entry) []
        ≡ reply_to capacity_limit largest_generation (GetLinkNoGen (pointer_of p)) (lent_of arena.entry) [] }
{
    get_link_no_gen(check(arena)?.arena(), p).ok_or(Refusal::StalePointer)
}

// Whether the next of p_prev is p_next; no where either is stale (REFERENCE, Reading).
pub fn chain_arena_are_neighbors(arena: LentArena<'_>, p_prev: Ptr, p_next: Ptr) -> NeighborsResult
    ensures { Answered (AreNeighbors (pointer_of p_prev) (pointer_of p_next)) (lent_of arena.entry) [] result.answer (result.yes ∷ []) (lent_of arena.entry) [] }
{
    NeighborsResult::from(neighbors(arena, p_prev, p_next))
}

// The same, or why the call is refused.
#[tactic(auto, using(answers::proofs::Exports::replies_refused, answers::proofs::Exports::replies_passed), unfolding(definitions::specs::Calls::accepted, definitions::specs::Read::are_neighbors))]
fn neighbors(arena: LentArena<'_>, p_prev: Ptr, p_next: Ptr) -> Result<bool, Refusal>
    ensures { result_reply yes_words 1 result (lent_of arena.entry) []
        ≡ reply_to capacity_limit largest_generation (AreNeighbors (pointer_of p_prev) (pointer_of p_next)) (lent_of arena.entry) [] }
{
    Ok(are_neighbors(check(arena)?.arena(), p_prev, p_next))
}
