// Replays stored answers of the edits of interlinks, of the generation and of the freelist. The crate replay_cases says what the files stdin and stdout
// hold and where they come from.
#![tactic(auto)]

use level_two_edits::{
    chain_arena_break_next, chain_arena_break_prev, chain_arena_connect, chain_arena_exchange_next,
};
use level_two_generation::{
    chain_arena_canonicalize_freelist, chain_arena_inc_generation, chain_arena_set_generation,
};
use replay_cases::{Call, Case, NO_CALL, Reply, replay_all};
use std::alloc::AllocError;
use std::io;

// Makes the call of a case.
fn replay(case: &mut Case) -> Result<Option<Reply>, AllocError> {
    let a = &case.arguments;
    let (p, q) = (a.pointer(0), a.pointer(2));
    let arena = &mut case.arena;
    let answer = match &case.call {
        Some(Call::Connect) => chain_arena_connect(&mut arena.links_mut(), p, q),
        Some(Call::BreakPrev) => chain_arena_break_prev(&mut arena.links_mut(), p),
        Some(Call::BreakNext) => chain_arena_break_next(&mut arena.links_mut(), p),
        Some(Call::ExchangeNext) => chain_arena_exchange_next(&mut arena.links_mut(), p, q),
        Some(Call::SetGeneration) => chain_arena_set_generation(&mut arena.header_mut(), a.word(0)),
        Some(Call::IncGeneration) => chain_arena_inc_generation(&mut arena.header_mut()),
        Some(Call::CanonicalizeFreelist) => {
            chain_arena_canonicalize_freelist(&mut arena.lent_mut())
        }
        _ => NO_CALL,
    };
    case.reply(answer, &[]).map(Some)
}

// Replays the cases of standard input.
fn main(rt: HostRuntime) -> io::Result<()> {
    replay_all(&rt, replay)
}
