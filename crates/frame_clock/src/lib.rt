// The frame clock: the lines and dots of a frame, and windows of dots (REFERENCE, Frame clock).
#![tactic(auto)]

ghost use Rattle.std.specs.Prelude.{◌≡◌, true, false, ◌≤◌, ◌<◌, MatchOption, MatchResult};
ghost use Rattle.definitions.specs.Clock.{first_dot, last_dot, line_of, is_window, due};

use refusals::Refusal;

// An index below END.
#[derive(Clone, Copy, PartialEq, Eq, PartialOrd, Ord)]
pub struct Below<const END: u32> {
    pub index: u32,
    pub ghost in_frame: { index < END },
}

impl<const END: u32> Below<END> {
    // The one of this index, where it is below END.
    pub fn new(index: u32) -> Option<Below<END>>
        ensures { MatchOption result (END ≤ index) (λ it. it.index ≡ index) }
    {
        if index >= END {
            return None;
        }
        Some(Below { index })
    }
}

// A dot of the frame, counted from 0 through all its lines.
pub type Dot = Below<DOTS>;

// A line of the frame, counted from 0.
pub type Line = Below<LINES>;

// The ends of a line.
#[derive(Clone, Copy, PartialEq, Eq)]
pub struct LineDots {
    pub first: Dot,
    pub last: Dot,
}

// A window of dots of the frame: it begins with one and ends before another, or with the frame; past the end of the frame it goes on at its start.
#[derive(Clone, Copy, PartialEq, Eq)]
pub struct Window {
    pub from: u32,
    pub to: u32,
    pub ghost in_frame: { is_window from to ≡ true },
}

// How many lines a frame has.
pub const LINES: u32 = 262;

// How many dots a line has.
pub const DOTS_PER_LINE: u32 = 341;

// How many dots a frame has.
pub const DOTS: u32 = LINES * DOTS_PER_LINE;

impl Line {
    // The first dot of this line.
    pub fn first(self) -> Dot
        ensures { result.index ≡ first_dot self.index }
    {
        Dot {
            index: LINE_STARTS[self.index as usize],
        }
    }

    // The first and the last dot of this line.
    #[tactic(auto, unfolding(definitions::specs::Clock::first_dot, definitions::specs::Clock::last_dot))]
    pub fn dots(self) -> LineDots
        ensures { (result.first.index ≡ first_dot self.index) × (result.last.index ≡ last_dot self.index) }
    {
        let first = self.first();
        let last = Dot {
            index: first.index + DOTS_PER_LINE - 1,
        };
        LineDots { first, last }
    }
}

impl Dot {
    // The line of this dot. Three dots in 1,024 are a little less than one in 341; over the whole frame that makes less than one line. So three times the
    // dot, divided by 1,024, is its line or the line before it, and the table tells which.
    #[tactic(auto, unfolding(definitions::specs::Clock::first_dot, definitions::specs::Clock::line_of))]
    pub fn line(self) -> Line
        ensures { result.index ≡ line_of self.index }
    {
        let near = self.index * 3 / 1024;
        match Line::new(near + 1) {
            Some(after) if after.first() <= self => after,
            _ => Line { index: near },
        }
    }
}

impl Window {
    // The window that begins with dot `from` and ends before `to`, where it is one of the frame.
    #[tactic(auto, using(std::proofs::lemmas::Bool::Decides::nat_tests), unfolding(definitions::specs::Clock::is_window))]
    pub fn new(from: u32, to: u32) -> Result<Window, Refusal>
        ensures { MatchResult result
            (λ window. (window.from ≡ from) × (window.to ≡ to))
            (λ refusal. (refusal ≡ Refusal.OutOfFrame) × (is_window from to ≡ false)) }
    {
        if from < DOTS && to <= DOTS {
            return Ok(Window { from, to });
        }
        Err(Refusal::OutOfFrame)
    }

    // Whether a payload is due.
    #[tactic(auto, using(std::proofs::lemmas::Bool::Decides::nat_tests), unfolding(definitions::specs::Clock::due, definitions::specs::Clock::is_window))]
    pub fn takes(self, payload: u32) -> bool
        ensures { result ≡ due self.from self.to payload }
    {
        if self.to < self.from {
            return payload < self.to || self.from <= payload && payload < DOTS;
        }
        self.from <= payload && payload < self.to
    }
}

// The first dot of each line, as the program `line_starts` prints them.
const LINE_STARTS: [u32; 262] = [
    0, 341, 682, 1023, 1364, 1705, 2046, 2387, 2728, 3069, 3410, 3751, 4092, 4433, 4774, 5115,
    5456, 5797, 6138, 6479, 6820, 7161, 7502, 7843, 8184, 8525, 8866, 9207, 9548, 9889, 10230,
    10571, 10912, 11253, 11594, 11935, 12276, 12617, 12958, 13299, 13640, 13981, 14322, 14663,
    15004, 15345, 15686, 16027, 16368, 16709, 17050, 17391, 17732, 18073, 18414, 18755, 19096,
    19437, 19778, 20119, 20460, 20801, 21142, 21483, 21824, 22165, 22506, 22847, 23188, 23529,
    23870, 24211, 24552, 24893, 25234, 25575, 25916, 26257, 26598, 26939, 27280, 27621, 27962,
    28303, 28644, 28985, 29326, 29667, 30008, 30349, 30690, 31031, 31372, 31713, 32054, 32395,
    32736, 33077, 33418, 33759, 34100, 34441, 34782, 35123, 35464, 35805, 36146, 36487, 36828,
    37169, 37510, 37851, 38192, 38533, 38874, 39215, 39556, 39897, 40238, 40579, 40920, 41261,
    41602, 41943, 42284, 42625, 42966, 43307, 43648, 43989, 44330, 44671, 45012, 45353, 45694,
    46035, 46376, 46717, 47058, 47399, 47740, 48081, 48422, 48763, 49104, 49445, 49786, 50127,
    50468, 50809, 51150, 51491, 51832, 52173, 52514, 52855, 53196, 53537, 53878, 54219, 54560,
    54901, 55242, 55583, 55924, 56265, 56606, 56947, 57288, 57629, 57970, 58311, 58652, 58993,
    59334, 59675, 60016, 60357, 60698, 61039, 61380, 61721, 62062, 62403, 62744, 63085, 63426,
    63767, 64108, 64449, 64790, 65131, 65472, 65813, 66154, 66495, 66836, 67177, 67518, 67859,
    68200, 68541, 68882, 69223, 69564, 69905, 70246, 70587, 70928, 71269, 71610, 71951, 72292,
    72633, 72974, 73315, 73656, 73997, 74338, 74679, 75020, 75361, 75702, 76043, 76384, 76725,
    77066, 77407, 77748, 78089, 78430, 78771, 79112, 79453, 79794, 80135, 80476, 80817, 81158,
    81499, 81840, 82181, 82522, 82863, 83204, 83545, 83886, 84227, 84568, 84909, 85250, 85591,
    85932, 86273, 86614, 86955, 87296, 87637, 87978, 88319, 88660, 89001,
];
