// Why a call is refused, by name and by number (REFERENCE, Numbers).
#![tactic(auto)]

ghost use Rattle.std.specs.Prelude.{◌≡◌};
ghost use Rattle.refusals.specs.Refusal.{refusal_number, refusal_slot, refusal_side};

use ptr::Slot;

// A side of a link, in the order of its words (REFERENCE, Replies).
#[derive(Clone, Copy, PartialEq, Eq)]
pub enum Side {
    Prev = 1,
    Next = 2,
}

// Why a call is refused. The number of each stands beside it.
#[derive(Clone, Copy, PartialEq, Eq)]
pub enum Refusal {
    // 1: two columns differ in length or are too long, or the header has not four words.
    Shape,
    // 2: the current generation is 0 or 1.
    CurrentGeneration,
    // 3: the stack length or the link count exceeds the capacity.
    OverCapacity,
    // 4: the link count differs from how many links the stack has.
    LinkCount,
    // 5: there is a root but no free slot, or a free slot but no root.
    Root,
    // 6: the freelist names 0.
    FreelistZero,
    // 7: the freelist names a slot above the stack.
    FreelistAboveStack,
    // 8: the freelist names a link.
    FreelistLink,
    // 9: the freelist has no end.
    FreelistEndless,
    // 10: the freelist has missed a free slot.
    FreelistIncomplete,
    // 11: a link has a neighbour that is none or does not name it in turn; the lowest such link, and on which side.
    BrokenLink(Slot, Side),
    // 12: a pointer is stale.
    StalePointer,
    // 13: a neighbour is in the way, or one is missing.
    Neighbor,
    // 14: a slice to be filled is too short, or has not the columns' length.
    SliceLength,
    // 15: a generation that is to be set is 0 or 1.
    GenerationTooLow,
    // 16: command words are no whole commands, or a code or a kind is unknown.
    Command,
    // 17: what a kind of insertion asks does not hold.
    LinkRequirement,
    // 18: there is no room for a link.
    NotWithinCapacity,
    // 19: a dot, a line or a window is out of the frame.
    OutOfFrame,
}

impl Refusal {
    // The number of the refusal.
    pub fn number(self) -> u32
        ensures { result ≡ refusal_number self }
    {
        match self {
            Refusal::Shape => 1,
            Refusal::CurrentGeneration => 2,
            Refusal::OverCapacity => 3,
            Refusal::LinkCount => 4,
            Refusal::Root => 5,
            Refusal::FreelistZero => 6,
            Refusal::FreelistAboveStack => 7,
            Refusal::FreelistLink => 8,
            Refusal::FreelistEndless => 9,
            Refusal::FreelistIncomplete => 10,
            Refusal::BrokenLink(_, _) => 11,
            Refusal::StalePointer => 12,
            Refusal::Neighbor => 13,
            Refusal::SliceLength => 14,
            Refusal::GenerationTooLow => 15,
            Refusal::Command => 16,
            Refusal::LinkRequirement => 17,
            Refusal::NotWithinCapacity => 18,
            Refusal::OutOfFrame => 19,
        }
    }

    // The lowest link at which rule 11 fails, where that is the reason; else 0.
    pub fn slot(self) -> u32
        ensures { result ≡ refusal_slot self }
    {
        match self {
            Refusal::BrokenLink(slot, _) => slot.0,
            _ => 0,
        }
    }

    // The word of the side on which it fails there, where that is the reason; else 0.
    pub fn side(self) -> u32
        ensures { result ≡ refusal_side self }
    {
        match self {
            Refusal::BrokenLink(_, side) => side as u32,
            _ => 0,
        }
    }
}
