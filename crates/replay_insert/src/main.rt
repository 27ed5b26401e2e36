// Replays stored answers of insertions. The crate replay_cases says what the files stdin and stdout hold and where they come from.
#![tactic(auto)]

use level_two_insert::chain_arena_insert;
use replay_cases::{Call, Case, Reply, replay_all};
use std::alloc::AllocError;
use std::io;

// Makes the call of a case.
fn replay(case: &mut Case) -> Result<Option<Reply>, AllocError> {
    let arena = &mut case.arena.lent_mut();
    let a = &case.arguments;
    match &case.call {
        Some(Call::Insert) => {
            let r = chain_arena_insert(arena, a.word(0), a.pointer(1), a.pointer(3), a.word(5));
            case.reply(r.answer, &[r.slot, r.generation]).map(Some)
        }
        _ => Ok(None),
    }
}

// Replays the cases of standard input.
fn main(rt: HostRuntime) -> io::Result<()> {
    replay_all(&rt, replay)
}
