// Replays stored answers of the calls that only read: the check, the links and the walk. The crate replay_cases says what the files stdin and stdout hold
// and where they come from.
#![tactic(auto)]

use chain_iterators::ChainPtrAdvancer;
use level_one_read::{
    chain_arena_are_neighbors, chain_arena_check, chain_arena_get_link, chain_arena_get_link_no_gen,
};
use level_one_walk::{chain_arena_walk_start, chain_arena_walk_step};
use ptr::Slot;
use replay_cases::{Call, Case, NO_CALL, Reply, replay_all};
use std::alloc::AllocError;
use std::io;

// Makes the call of a case.
fn replay(case: &mut Case) -> Result<Option<Reply>, AllocError> {
    let arena = case.arena.lent();
    let a = &case.arguments;
    let reply = match &case.call {
        Some(Call::Check) => {
            let answer = chain_arena_check(arena);
            case.reply(answer, &[])
        }
        Some(Call::GetLink) => {
            let r = chain_arena_get_link(arena, a.pointer(0));
            case.reply(
                r.answer,
                &[
                    r.prev,
                    r.prev_generation,
                    r.next,
                    r.next_generation,
                    r.payload,
                ],
            )
        }
        Some(Call::GetLinkNoGen) => {
            let r = chain_arena_get_link_no_gen(arena, a.pointer(0));
            case.reply(r.answer, &[r.prev, r.next, r.payload])
        }
        Some(Call::AreNeighbors) => {
            let r = chain_arena_are_neighbors(arena, a.pointer(0), a.pointer(2));
            case.reply(r.answer, &[r.yes])
        }
        Some(Call::WalkStart) => {
            let r = chain_arena_walk_start(arena, a.pointer(0));
            case.reply(r.answer, &[r.start, r.position, r.direction, r.left])
        }
        Some(Call::WalkStep) => {
            let walk = ChainPtrAdvancer {
                init: Slot(a.word(0)),
                ptr: Slot(a.word(1)),
                switch: a.word(2),
                max_advances: a.word(3),
            };
            let r = chain_arena_walk_step(arena, walk);
            case.reply(
                r.answer,
                &[
                    r.slot,
                    r.generation,
                    r.start,
                    r.position,
                    r.direction,
                    r.left,
                ],
            )
        }
        _ => case.reply(NO_CALL, &[]),
    };
    reply.map(Some)
}

// Replays the cases of standard input.
fn main(rt: HostRuntime) -> io::Result<()> {
    replay_all(&rt, replay)
}
