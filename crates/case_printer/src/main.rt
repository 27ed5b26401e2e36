// The marked case K11, run through the proved call and printed (REFERENCE, Marked cases): a line for each slot, with the slot that its link was in
// before, and its prev and next.
#![tactic(auto)]

use lent::ArenaMut;
use level_three_compress_canonical::chain_arena_compress_canonical;
use std::io;

// K11: slots 1 and 5 are a chain, slots 2, 3 and 4 are lone, and all links are of generation 5.
fn main(rt: HostRuntime) -> io::Result<()> {
    let mut prev = [0u32, 0, 0, 0, 1];
    let mut next = [5u32, 0, 0, 0, 0];
    let mut where_from = [0u32; 5];
    chain_arena_compress_canonical(
        &mut ArenaMut {
            prev: &mut prev,
            next: &mut next,
            generation: &mut [5; 5],
            payload: &mut [11, 12, 13, 14, 15],
            header: &mut [5, 5, 0, 5],
        },
        0,
        &mut where_from,
    );
    println!(rt; "new,old,prev,next")?;
    let rows = where_from.iter().zip(&prev).zip(&next);
    for (new, ((old, prev), next)) in (1u64..).zip(rows) {
        println!(rt; "{new},{old},{prev},{next}")?;
    }
    Ok(())
}
