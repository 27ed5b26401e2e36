// Replays stored answers of both compressions. The crate replay_cases says what the files stdin and stdout hold and where they come from.
#![tactic(auto)]

use level_three_compress_canonical::chain_arena_compress_canonical;
use level_three_compress_with::chain_arena_compress_with;
use replay_cases::{Call, Case, Reply, replay_all};
use std::alloc::AllocError;
use std::io;

// Makes the call of a case. The lent slice is for the report of the one and for the where-from column of the other.
fn replay(case: &mut Case) -> Result<Option<Reply>, AllocError> {
    let arena = &mut case.arena.lent_mut();
    let reset = case.arguments.word(0);
    let lent = case.lent.as_mut_slice();
    let answer = match &case.call {
        Some(Call::CompressWith) => chain_arena_compress_with(arena, reset, lent),
        Some(Call::CompressCanonical) => chain_arena_compress_canonical(arena, reset, lent),
        _ => return Ok(None),
    };
    case.reply_lent(answer, &[]).map(Some)
}

// Replays the cases of standard input.
fn main(rt: HostRuntime) -> io::Result<()> {
    replay_all(&rt, replay)
}
