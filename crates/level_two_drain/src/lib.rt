// Level Two, the drain of a chain, as a host calls it through level_two_c.
#![tactic(auto, using(answers::proofs::Exports::replies_refused, answers::proofs::Exports::replies_passed, well_formed::proofs::WellFormed::well_formed_if_passes), unfolding(definitions::specs::Calls::accepted))]

ghost use Rattle.std.specs.Prelude.{List, [], ◌∷◌, ◌≡◌, ℕ};
ghost use Rattle.definitions.specs.Arena.{Arena, capacity_limit, largest_generation};
ghost use Rattle.definitions.specs.Calls.{Drain, reply_to};
ghost use Rattle.lent.specs.Arenas.{held_in, SameBuffers};
ghost use Rattle.ptr.specs.Pointers.{pointer_of};
ghost use Rattle.refusals.specs.Refusal.{result_reply};
ghost use Rattle.chain_drain.specs.Drained.{drained_words};
ghost use Rattle.answers.specs.Answered.{replied, Answered};

use answers::Answer;
use chain_arena::check;
use chain_drain::{Drained, drain};
use lent::ArenaMut;
use ptr::Ptr;
use refusals::Refusal;

// A drain's answer: how many links were removed, and which one of them, counted from 1, made the generation overflow, 0 if none did.
#[repr(C)]
#[derive(Clone, Copy, Default)]
pub struct DrainResult {
    pub answer: Answer,
    pub items: u32,
    pub overflowed: u32,
}

// What the host is told of a drain.
impl From<Result<Drained, Refusal>> for DrainResult {
    ghost from_gives = { λ r s. (a : Arena) (l : List ℕ) → replied s.answer (s.items ∷ s.overflowed ∷ []) a l ≡ result_reply drained_words 2 r a l };

    fn from(drained: Result<Drained, Refusal>) -> DrainResult {
        match drained {
            Ok(d) => DrainResult {
                answer: Answer::DONE,
                items: d.items,
                overflowed: d.overflowed.unwrap_or(0),
            },
            Err(refusal) => DrainResult {
                answer: Answer::from(refusal),
                ..DrainResult::default()
            },
        }
    }
}

// The drain, in an arena that passes the check.
fn checked_drain(arena: &mut ArenaMut<'_>, p: Ptr, report: &mut [u32]) -> Result<Drained, Refusal>
    ensures lent { SameBuffers arena.old arena.new }
    ensures replied { result_reply drained_words 2 result (held_in arena.new) report.new
        ≡ reply_to capacity_limit largest_generation (Drain (pointer_of p)) (held_in arena.old) report.old }
{
    check(arena.lent())?;
    drain(arena, p, report)
}

// Removes every link of p's chain, in the order of a walk from p, and reports each as it is when its turn comes, in five words (REFERENCE, Drain).
pub fn chain_arena_drain(arena: &mut ArenaMut<'_>, p: Ptr, report: &mut [u32]) -> DrainResult
    ensures lent { SameBuffers arena.old arena.new }
    ensures answered { Answered (Drain (pointer_of p)) (held_in arena.old) report.old result.answer (result.items ∷ result.overflowed ∷ []) (held_in arena.new) report.new }
{
    DrainResult::from(checked_drain(arena, p, report))
}
