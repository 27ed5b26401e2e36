// Level One, the lines and dots of the frame, as a host calls it through level_one_c.
#![tactic(auto)]

ghost use Rattle.std.specs.Prelude.{[], ◌∷◌, ◌≡◌};
ghost use Rattle.definitions.specs.Clock.{told, line_of_dot, line_dots};

use frame_clock::{Dot, Line};
use refusals::Refusal;

// The line of a dot.
#[repr(C)]
#[derive(Clone, Copy, Default)]
pub struct LineResult {
    pub number: u32,
    pub line: u32,
}

// The first and the last dot of a line.
#[repr(C)]
#[derive(Clone, Copy, Default)]
pub struct LineDotsResult {
    pub number: u32,
    pub first: u32,
    pub last: u32,
}

// The line that a dot of the frame is in (REFERENCE, Frame clock).
#[tactic(auto, using(std::proofs::lemmas::Bool::Decides::nat_tests), unfolding(definitions::specs::Clock::line_of_dot))]
pub fn chain_arena_line_of_dot(dot: u32) -> LineResult
    ensures { told result.number (result.line ∷ []) ≡ line_of_dot dot }
{
    match Dot::new(dot) {
        Some(dot) => LineResult {
            number: 0,
            line: dot.line().index,
        },
        None => LineResult {
            number: Refusal::OutOfFrame.number(),
            ..LineResult::default()
        },
    }
}

// The first and the last dot of a line of the frame (REFERENCE, Frame clock).
#[tactic(auto, using(std::proofs::lemmas::Bool::Decides::nat_tests), unfolding(definitions::specs::Clock::line_dots))]
pub fn chain_arena_line_dots(line: u32) -> LineDotsResult
    ensures { told result.number (result.first ∷ result.last ∷ []) ≡ line_dots line }
{
    match Line::new(line) {
        Some(line) => {
            let dots = line.dots();
            LineDotsResult {
                number: 0,
                first: dots.first.index,
                last: dots.last.index,
            }
        }
        None => LineDotsResult {
            number: Refusal::OutOfFrame.number(),
            ..LineDotsResult::default()
        },
    }
}
