// Replays stored answers of runs of commands. The crate replay_cases says what the files stdin and stdout hold and where they come from.
#![tactic(auto)]

use level_two_run::chain_arena_run;
use replay_cases::{Call, Case, Reply, replay_all};
use std::alloc::AllocError;
use std::io;

// Makes the call of a case: runs the argument words as commands, with the lent slice for their answers.
fn replay(case: &mut Case) -> Result<Option<Reply>, AllocError> {
    let arena = &mut case.arena.lent_mut();
    match &case.call {
        Some(Call::Run) => {
            let commands = case.commands.as_slice();
            let answer = chain_arena_run(arena, commands, case.lent.as_mut_slice());
            case.reply_lent(answer, &[]).map(Some)
        }
        _ => Ok(None),
    }
}

// Replays the cases of standard input.
fn main(rt: HostRuntime) -> io::Result<()> {
    replay_all(&rt, replay)
}
