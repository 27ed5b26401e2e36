// Prints every small arena on a line, in their order, through the proved call: the words of the header, and behind a bar for each slot its prev, next,
// generation and payload (REFERENCE, Small arenas).
#![tactic(auto)]

ghost use Rattle.std.specs.Prelude.{◌≤◌};

use lent::ArenaMut;
use small_arenas::chain_arena_small_arena;
use std::io::{BufWriter, Write};
use std::{fmt, io};

// A small arena, in columns of its own that are as long as the longest needs.
#[derive(Drop)]
struct SmallArena {
    prev: [u32; 3],
    next: [u32; 3],
    generation: [u32; 3],
    payload: [u32; 3],
    header: [u32; 4],
    stack_length: usize,
    ghost within: { stack_length ≤ 3 },
}

impl SmallArena {
    // The small arena of an index; none where it is past the last.
    fn new(index: u32) -> Option<SmallArena> {
        let mut prev = [0; 3];
        let mut next = [0; 3];
        let mut generation = [0; 3];
        let mut payload = [0; 3];
        let mut header = [0; 4];
        let given = chain_arena_small_arena(
            &mut ArenaMut {
                prev: &mut prev,
                next: &mut next,
                generation: &mut generation,
                payload: &mut payload,
                header: &mut header,
            },
            index,
        );
        if given.found == 0 {
            return None;
        }
        Some(SmallArena {
            prev,
            next,
            generation,
            payload,
            header,
            stack_length: given.length as usize,
        })
    }
}

impl fmt::Display for SmallArena {
    fn fmt<W: fmt::Write>(&self, f: &mut fmt::Formatter<W>) -> fmt::Result {
        let [stack_length, link_count, root, current] = self.header;
        write!(f, "{stack_length} {link_count} {root} {current}")?;
        let slots = self.prev[..self.stack_length]
            .iter()
            .zip(&self.next)
            .zip(&self.generation)
            .zip(&self.payload);
        for (((prev, next), generation), payload) in slots {
            write!(f, " | {prev} {next} {generation} {payload}")?;
        }
        Ok(())
    }
}

// From the first on, up to the one after which there is none.
fn main(rt: HostRuntime) -> io::Result<()> {
    let mut out = BufWriter::new(rt.alloc(), io::writer(&rt))?;
    for arena in (0..u32::MAX).map_while(SmallArena::new) {
        writeln!(out, "{arena}")?;
        out.flush()?;
    }
    Ok(())
}
