// Replays stored answers of the calls that remove links: one link, and a whole chain. The crate replay_cases says what the files stdin and stdout hold and
// where they come from.
#![tactic(auto)]

use level_two_drain::chain_arena_drain;
use level_two_remove::chain_arena_remove;
use replay_cases::{Call, Case, Reply, replay_all};
use std::alloc::AllocError;
use std::io;

// Makes the call of a case. A drain reports in the lent slice.
fn replay(case: &mut Case) -> Result<Option<Reply>, AllocError> {
    let arena = &mut case.arena.lent_mut();
    let p = case.arguments.pointer(0);
    let reply = match &case.call {
        Some(Call::Remove) => {
            let r = chain_arena_remove(arena, p);
            case.reply(r.answer, &[r.prev, r.next, r.payload])
        }
        Some(Call::Drain) => {
            let r = chain_arena_drain(arena, p, case.lent.as_mut_slice());
            case.reply_lent(r.answer, &[r.items, r.overflowed])
        }
        _ => return Ok(None),
    };
    reply.map(Some)
}

// Replays the cases of standard input.
fn main(rt: HostRuntime) -> io::Result<()> {
    replay_all(&rt, replay)
}
