// What every exported call on an arena has in common: the check that it makes first, and the words that its result begins with.
#![tactic(auto)]

ghost use Rattle.std.specs.Prelude.{◌≡◌, ℕ, List, [], ◌∷◌};
ghost use Rattle.definitions.specs.Arena.{Arena};
ghost use Rattle.ptr.specs.Extra.{invalidation_number};
ghost use Rattle.lent.specs.Arenas.{lent_of};
ghost use Rattle.links.specs.Links.{no_gen_words, removed_reply};
ghost use Rattle.refusals.specs.Refusal.{result_reply};
ghost use Rattle.answers.specs.Answered.{Verdict, replied};
ghost use Rattle.answers.specs.Words.{answer_of, refusal_answer, done_answer, invalidation_answer};

use chain_arena::check;
use lent::LentArena;
use links::{InvalidationResult, LinkNoGen};
use ptr::InvalidationOption;
use refusals::Refusal;

// What the result of every exported call on an arena begins with: its number, and with 11 the lowest slot at which that rule fails and the side, 1 for prev and 2 for next; in every
// other case slot and side are 0 (REFERENCE, Replies).
#[repr(C)]
#[derive(Clone, Copy, Default)]
pub struct Answer {
    pub number: u32,
    pub broken: u32,
    pub side: u32,
}

impl Answer {
    // The answer of a call that is done.
    pub const DONE: Answer = Answer {
        number: 0,
        broken: 0,
        side: 0,
    };

    // The answer of a call on an arena that passed the check.
    pub fn of(number: u32) -> Answer
        ensures { result ≡ answer_of number }
    {
        Answer {
            number,
            broken: 0,
            side: 0,
        }
    }
}

// The answer of a call that is refused.
impl From<Refusal> for Answer {
    ghost from_gives = { λ r a. a ≡ refusal_answer r };

    fn from(refusal: Refusal) -> Answer {
        Answer {
            number: refusal.number(),
            broken: refusal.slot(),
            side: refusal.side(),
        }
    }
}

// The answer of a call that cannot be refused: whether the generation overflowed.
impl From<InvalidationOption> for Answer {
    ghost from_gives = { λ o a. a ≡ answer_of (invalidation_number o) };

    fn from(option: InvalidationOption) -> Answer {
        Answer::of(option.number())
    }
}

// The answer of a call that is done or refused.
impl From<Result<(), Refusal>> for Answer {
    ghost from_gives = { λ r a. a ≡ done_answer r };

    fn from(done: Result<(), Refusal>) -> Answer {
        match done {
            Ok(()) => Answer::DONE,
            Err(refusal) => Answer::from(refusal),
        }
    }
}

// The answer of a call that is done, and may have let the generation overflow, or is refused.
impl From<Result<InvalidationOption, Refusal>> for Answer {
    ghost from_gives = { λ r a. a ≡ invalidation_answer r };

    fn from(done: Result<InvalidationOption, Refusal>) -> Answer {
        match done {
            Ok(option) => Answer::from(option),
            Err(refusal) => Answer::from(refusal),
        }
    }
}

// A link, as it is or as it was when it was removed; slot 0 where there is no neighbour.
#[repr(C)]
#[derive(Clone, Copy, Default)]
pub struct LinkNoGenResult {
    pub answer: Answer,
    pub prev: u32,
    pub next: u32,
    pub payload: u32,
}

impl LinkNoGenResult {
    // The answer with the words of a link.
    fn of(answer: Answer, link: LinkNoGen) -> LinkNoGenResult
        ensures { (result.answer ≡ answer) × (result.prev ≡ link.prev.0) × (result.next ≡ link.next.0) × (result.payload ≡ link.t) }
    {
        LinkNoGenResult {
            answer,
            prev: link.prev.0,
            next: link.next.0,
            payload: link.t,
        }
    }
}

// The answer of a call that gives no link.
impl From<Refusal> for LinkNoGenResult {
    ghost from_gives = { λ r a. (a.answer ≡ refusal_answer r) × (a.prev ≡ 0) × (a.next ≡ 0) × (a.payload ≡ 0) };

    fn from(refusal: Refusal) -> LinkNoGenResult {
        LinkNoGenResult {
            answer: Answer::from(refusal),
            ..LinkNoGenResult::default()
        }
    }
}

// The link that was read, or the refusal.
impl From<Result<LinkNoGen, Refusal>> for LinkNoGenResult {
    ghost from_gives = { λ r a. (b : Arena) (l : List ℕ) → replied a.answer (a.prev ∷ a.next ∷ a.payload ∷ []) b l ≡ result_reply no_gen_words 3 r b l };

    fn from(read: Result<LinkNoGen, Refusal>) -> LinkNoGenResult {
        match read {
            Ok(link) => LinkNoGenResult::of(Answer::DONE, link),
            Err(refusal) => LinkNoGenResult::from(refusal),
        }
    }
}

// The link that was removed, as it was, or the refusal.
impl From<Result<InvalidationResult, Refusal>> for LinkNoGenResult {
    ghost from_gives = { λ r a. (b : Arena) (l : List ℕ) → replied a.answer (a.prev ∷ a.next ∷ a.payload ∷ []) b l ≡ removed_reply r b l };

    fn from(removed: Result<InvalidationResult, Refusal>) -> LinkNoGenResult {
        match removed {
            Ok(InvalidationResult::Success(link)) => LinkNoGenResult::of(Answer::DONE, link),
            Ok(InvalidationResult::GenerationOverflow(link)) => {
                LinkNoGenResult::of(Answer::from(InvalidationOption::GenerationOverflow), link)
            }
            Ok(InvalidationResult::InvalidPtr) => LinkNoGenResult::from(Refusal::StalePointer),
            Err(refusal) => LinkNoGenResult::from(refusal),
        }
    }
}

// The check of a lent arena, as it is answered: 0, or the refusal of every call on this arena.
#[tactic(auto, using(crate::proofs::Exports::verdict_passed, crate::proofs::Exports::verdict_refused))]
pub fn checked(arena: LentArena<'_>) -> Answer
    ensures { Verdict (lent_of arena.entry) result }
{
    match check(arena) {
        Ok(_) => Answer::DONE,
        Err(refusal) => Answer::from(refusal),
    }
}
