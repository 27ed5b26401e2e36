// Level One, what is due of a chain, as a host calls it through level_one_c.
#![tactic(auto)]

ghost use Rattle.std.specs.Prelude.{List, [], ◌∷◌, ◌≡◌, ℕ};
ghost use Rattle.definitions.specs.Arena.{Arena, capacity_limit, largest_generation};
ghost use Rattle.definitions.specs.Calls.{DueCount, DueEvents, reply_to};
ghost use Rattle.ptr.specs.Pointers.{pointer_of};
ghost use Rattle.lent.specs.Arenas.{lent_of};
ghost use Rattle.refusals.specs.Refusal.{result_reply};
ghost use Rattle.chain_due.specs.Due.{count_words};
ghost use Rattle.answers.specs.Answered.{replied, Answered};

use answers::Answer;
use chain_arena::check;
use chain_due::{due_count, due_events};
use lent::LentArena;
use ptr::Ptr;
use refusals::Refusal;

// How many links of a chain are due.
#[repr(C)]
#[derive(Clone, Copy, Default)]
pub struct DueResult {
    pub answer: Answer,
    pub count: u32,
}

// How many are due, or the refusal.
impl From<Result<u32, Refusal>> for DueResult {
    ghost from_gives = { λ due told. (a : Arena) (l : List ℕ) → replied told.answer (told.count ∷ []) a l ≡ result_reply count_words 1 due a l };

    fn from(due: Result<u32, Refusal>) -> DueResult {
        match due {
            Ok(count) => DueResult {
                answer: Answer::DONE,
                count,
            },
            Err(refusal) => DueResult {
                answer: Answer::from(refusal),
                ..DueResult::default()
            },
        }
    }
}

// How many links of p's chain are due in a window that begins with the dot `from` and ends before `to` (REFERENCE, Frame clock).
pub fn chain_arena_due_count(arena: LentArena<'_>, p: Ptr, from: u32, to: u32) -> DueResult
    ensures { Answered (DueCount (pointer_of p) from to) (lent_of arena.entry) [] result.answer (result.count ∷ []) (lent_of arena.entry) [] }
{
    DueResult::from(counted(arena, p, from, to))
}

// The same, or why the call is refused.
#[tactic(auto, using(answers::proofs::Exports::replies_refused, answers::proofs::Exports::replies_passed), unfolding(definitions::specs::Calls::accepted))]
fn counted(arena: LentArena<'_>, p: Ptr, from: u32, to: u32) -> Result<u32, Refusal>
    ensures { result_reply count_words 1 result (lent_of arena.entry) []
        ≡ reply_to capacity_limit largest_generation (DueCount (pointer_of p) from to) (lent_of arena.entry) [] }
{
    due_count(check(arena)?, p, from, to)
}

// Reports the slots of the links of p's chain that are due in such a window, in the order of a walk from p, and answers how many
// (REFERENCE, Frame clock).
pub fn chain_arena_due_events(
    arena: LentArena<'_>,
    p: Ptr,
    from: u32,
    to: u32,
    report: &mut [u32],
) -> DueResult
    ensures { Answered (DueEvents (pointer_of p) from to) (lent_of arena.entry) report.old result.answer (result.count ∷ []) (lent_of arena.entry) report.new }
{
    DueResult::from(reported(arena, p, from, to, report))
}

// The same, or why the call is refused.
#[tactic(auto, using(answers::proofs::Exports::replies_refused, answers::proofs::Exports::replies_passed), unfolding(definitions::specs::Calls::accepted))]
fn reported(
    arena: LentArena<'_>,
    p: Ptr,
    from: u32,
    to: u32,
    report: &mut [u32],
) -> Result<u32, Refusal>
    ensures { result_reply count_words 1 result (lent_of arena.entry) report.new
        ≡ reply_to capacity_limit largest_generation (DueEvents (pointer_of p) from to) (lent_of arena.entry) report.old }
{
    due_events(check(arena)?, p, from, to, report)
}
