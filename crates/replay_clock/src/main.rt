// Replays stored answers of the frame clock: lines and their dots, and what of a chain is due. The crate replay_cases says what the files stdin and stdout
// hold and where they come from.
#![tactic(auto)]

use level_one_due::{chain_arena_due_count, chain_arena_due_events};
use level_one_lines::{chain_arena_line_dots, chain_arena_line_of_dot};
use replay_cases::{Call, Case, Reply, replay_all};
use std::alloc::AllocError;
use std::io;

// Makes the call of a case. What is due is reported in the lent slice.
fn replay(case: &mut Case) -> Result<Option<Reply>, AllocError> {
    let arena = case.arena.lent();
    let a = &case.arguments;
    let reply = match &case.call {
        Some(Call::LineOfDot) => {
            let r = chain_arena_line_of_dot(a.word(0));
            case.reply_alone(&[r.number, r.line])
        }
        Some(Call::LineDots) => {
            let r = chain_arena_line_dots(a.word(0));
            case.reply_alone(&[r.number, r.first, r.last])
        }
        Some(Call::DueCount) => {
            let r = chain_arena_due_count(arena, a.pointer(0), a.word(2), a.word(3));
            case.reply(r.answer, &[r.count])
        }
        Some(Call::DueEvents) => {
            let report = case.lent.as_mut_slice();
            let r = chain_arena_due_events(arena, a.pointer(0), a.word(2), a.word(3), report);
            case.reply_lent(r.answer, &[r.count])
        }
        _ => return Ok(None),
    };
    reply.map(Some)
}

// Replays the cases of standard input.
fn main(rt: HostRuntime) -> io::Result<()> {
    replay_all(&rt, replay)
}
