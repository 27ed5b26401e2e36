// Prints the first dot of each line of the frame, one on a line: the entries of the table `LINE_STARTS` of the crate frame_clock, which a test holds to what
// is printed here (REFERENCE, Frame clock).
#![tactic(auto)]

ghost use Rattle.std.specs.Prelude.{◌≡◌};
ghost use Rattle.definitions.specs.Clock.{first_dot};

use frame_clock::{DOTS_PER_LINE, Dot, LINES, Line};
use std::io;

// The first dot of a line, computed and not read off the table.
#[tactic(auto, unfolding(definitions::specs::Clock::first_dot))]
fn start_of(line: Line) -> Dot
    ensures { result.index ≡ first_dot line.index }
{
    Dot {
        index: DOTS_PER_LINE * line.index,
    }
}

// All lines, in their order: the first dot of each, in decimal on a line of its own.
fn main(rt: HostRuntime) -> io::Result<()> {
    for index in 0..LINES {
        println!(rt; "{}", start_of(Line { index }).index)?;
    }
    Ok(())
}
