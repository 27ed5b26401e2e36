// Level Two, the edits of interlinks, as a host calls them through level_two_c.
#![tactic(auto, using(answers::proofs::Exports::replies_refused, answers::proofs::Exports::replies_passed, well_formed::proofs::WellFormed::well_formed_if_passes), unfolding(definitions::specs::Calls::accepted))]

ghost use Rattle.std.specs.Prelude.{◌≡◌, []};
ghost use Rattle.definitions.specs.Arena.{capacity_limit, largest_generation};
ghost use Rattle.definitions.specs.Calls.{Connect, BreakPrev, BreakNext, ExchangeNext, reply_to};
ghost use Rattle.lent.specs.Arenas.{links_of, SameLinks};
ghost use Rattle.ptr.specs.Pointers.{pointer_of};
ghost use Rattle.refusals.specs.Refusal.{no_words, result_reply};
ghost use Rattle.answers.specs.Answered.{Answered};

use answers::Answer;
use chain_arena::check;
use chain_edits::{break_next, break_prev, connect, exchange_next};
use lent::LinksMut;
use ptr::Ptr;
use refusals::Refusal;

// The connection, of an arena that passes the check.
fn checked_connect(arena: &mut LinksMut<'_>, p_prev: Ptr, p_next: Ptr) -> Result<(), Refusal>
    ensures lent { SameLinks arena.old arena.new }
    ensures replied { result_reply no_words 0 result (links_of arena.new) [] ≡ reply_to capacity_limit largest_generation (Connect (pointer_of p_prev) (pointer_of p_next)) (links_of arena.old) [] }
{
    check(arena.lent())?;
    connect(arena, p_prev, p_next)
}

// Joins the end p_prev to the start p_next (REFERENCE, Connect).
pub fn chain_arena_connect(arena: &mut LinksMut<'_>, p_prev: Ptr, p_next: Ptr) -> Answer
    ensures lent { SameLinks arena.old arena.new }
    ensures answered { Answered (Connect (pointer_of p_prev) (pointer_of p_next)) (links_of arena.old) [] result [] (links_of arena.new) [] }
{
    Answer::from(checked_connect(arena, p_prev, p_next))
}

// The break before p, of an arena that passes the check.
fn checked_break_prev(arena: &mut LinksMut<'_>, p: Ptr) -> Result<(), Refusal>
    ensures lent { SameLinks arena.old arena.new }
    ensures replied { result_reply no_words 0 result (links_of arena.new) [] ≡ reply_to capacity_limit largest_generation (BreakPrev (pointer_of p)) (links_of arena.old) [] }
{
    check(arena.lent())?;
    break_prev(arena, p)
}

// Takes the interlink between p and its prev away (REFERENCE, Break).
pub fn chain_arena_break_prev(arena: &mut LinksMut<'_>, p: Ptr) -> Answer
    ensures lent { SameLinks arena.old arena.new }
    ensures answered { Answered (BreakPrev (pointer_of p)) (links_of arena.old) [] result [] (links_of arena.new) [] }
{
    Answer::from(checked_break_prev(arena, p))
}

// The break behind p, of an arena that passes the check.
fn checked_break_next(arena: &mut LinksMut<'_>, p: Ptr) -> Result<(), Refusal>
    ensures lent { SameLinks arena.old arena.new }
    ensures replied { result_reply no_words 0 result (links_of arena.new) [] ≡ reply_to capacity_limit largest_generation (BreakNext (pointer_of p)) (links_of arena.old) [] }
{
    check(arena.lent())?;
    break_next(arena, p)
}

// Takes the interlink between p and its next away (REFERENCE, Break).
pub fn chain_arena_break_next(arena: &mut LinksMut<'_>, p: Ptr) -> Answer
    ensures lent { SameLinks arena.old arena.new }
    ensures answered { Answered (BreakNext (pointer_of p)) (links_of arena.old) [] result [] (links_of arena.new) [] }
{
    Answer::from(checked_break_next(arena, p))
}

// The exchange, of an arena that passes the check.
fn checked_exchange_next(arena: &mut LinksMut<'_>, p0: Ptr, p1: Ptr) -> Result<(), Refusal>
    ensures lent { SameLinks arena.old arena.new }
    ensures replied { result_reply no_words 0 result (links_of arena.new) [] ≡ reply_to capacity_limit largest_generation (ExchangeNext (pointer_of p0) (pointer_of p1)) (links_of arena.old) [] }
{
    check(arena.lent())?;
    exchange_next(arena, p0, p1)
}

// Gives each of p0 and p1 the other's next (REFERENCE, Exchange).
pub fn chain_arena_exchange_next(arena: &mut LinksMut<'_>, p0: Ptr, p1: Ptr) -> Answer
    ensures lent { SameLinks arena.old arena.new }
    ensures answered { Answered (ExchangeNext (pointer_of p0) (pointer_of p1)) (links_of arena.old) [] result [] (links_of arena.new) [] }
{
    Answer::from(checked_exchange_next(arena, p0, p1))
}
