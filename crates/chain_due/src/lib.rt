// What of a chain is due in a window of the frame, in an arena that passed the check (REFERENCE, Frame clock).
#![tactic(auto)]

ghost use Rattle.std.specs.Prelude.{◌≡◌, [], ◌≤◌, ◌<◌, length};
ghost use Rattle.definitions.specs.Clock.{due_count, due_events};
ghost use Rattle.definitions.specs.Columns.{written};
ghost use Rattle.lent.specs.Arenas.{checked_of};
ghost use Rattle.ptr.specs.Pointers.{pointer_of};
ghost use Rattle.refusals.specs.Refusal.{result_reply};
ghost use Rattle.chain_ahead.specs.Rest.{rest_of};
ghost use Rattle.chain_due.specs.Due.{is_due, due_ahead, count_words};

use chain_ahead::ChainWalk;
use columns::word_at;
use frame_clock::Window;
use lent::CheckedArena;
use ptr::{Ptr, Slot};
use refusals::Refusal;

// Whether the link at slot s is due.
#[tactic(auto, unfolding(crate::specs::Due::is_due))]
pub fn is_due(payload: &[u32], window: Window, s: Slot) -> bool
    requires { (0 < s.0) × (s.0 ≤ length payload.now) }
    ensures { result ≡ is_due payload.now window s.0 }
{
    window.takes(word_at(payload, s))
}

// How many links of the rest of a walk are due.
pub fn due_ahead(mut walk: ChainWalk<'_>, window: Window) -> u32
    ensures { result ≡ length (due_ahead window walk.entry) }
{
    let mut count: u32 = 0;
    while let Some(p) = walk.advance() {
        if is_due(walk.arena.payload, window, p.inx) {
            count += 1;
        }
    }
    count
}

// Writes the slots of the links that are due into the report, in the order of the walk. Answers how many.
pub fn list_due(mut walk: ChainWalk<'_>, window: Window, report: &mut [u32]) -> u32
    requires { length (rest_of walk) ≤ length report.old }
    ensures { (result ≡ length (due_ahead window walk.entry)) × (report.new ≡ written (due_ahead window walk.entry) report.old) }
{
    let mut reported: u32 = 0;
    while let Some(p) = walk.advance() {
        if is_due(walk.arena.payload, window, p.inx) {
            report[reported as usize] = p.inx.0;
            reported += 1;
        }
    }
    reported
}

// How many links of p's chain are due (REFERENCE, Frame clock).
pub fn due_count(arena: CheckedArena<'_>, p: Ptr, from: u32, to: u32) -> Result<u32, Refusal>
    ensures { result_reply count_words 1 result (checked_of arena.entry) [] ≡ due_count (checked_of arena.entry) (pointer_of p) from to [] }
{
    let walk = ChainWalk::new(arena, p)?;
    let window = Window::new(from, to)?;
    Ok(due_ahead(walk, window))
}

// Writes the slots of the links of p's chain that are due into the report, in the order of a walk from p (REFERENCE, Frame clock).
pub fn due_events(
    arena: CheckedArena<'_>,
    p: Ptr,
    from: u32,
    to: u32,
    report: &mut [u32],
) -> Result<u32, Refusal>
    ensures { result_reply count_words 1 result (checked_of arena.entry) report.new ≡ due_events (checked_of arena.entry) (pointer_of p) from to report.old }
{
    let walk = ChainWalk::new(arena, p)?;
    let window = Window::new(from, to)?;
    if walk.too_few(report.len()) {
        return Err(Refusal::SliceLength);
    }
    Ok(list_due(walk, window, report))
}
