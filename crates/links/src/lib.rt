// Links as they are answered (chain/links.rs): payload and interlinks, with and without generations.
#![tactic(auto)]

ghost use Rattle.std.specs.Prelude.{◌≡◌, List, ℕ};
ghost use Rattle.definitions.specs.Arena.{Arena};
ghost use Rattle.links.specs.Links.{removal_reply};

use ptr::{Ptr, Slot};

// A link whose interlinks are slots; slot 0 where there is no neighbour.
#[derive(Clone, Copy)]
pub struct LinkNoGen {
    pub prev: Slot,
    pub next: Slot,
    pub t: u32,
}

// A link whose interlinks are pointers; slot 0 and generation 0 where there is no neighbour.
#[derive(Clone, Copy)]
pub struct Link {
    pub prev: Ptr,
    pub next: Ptr,
    pub t: u32,
}

impl Link {
    // The link without the generations of its interlinks.
    pub fn no_gen(self) -> LinkNoGen
        ensures { (result.prev ≡ self.prev.inx) × (result.next ≡ self.next.inx) × (result.t ≡ self.t) }
    {
        let before = self.prev;
        let after = self.next;
        let prev = before.inx;
        let next = after.inx;
        LinkNoGen {
            prev: prev,
            next: next,
            t: self.t,
        }
    }
}

// The answer of a removal: the link as it was, with or without generation overflow, or none for a stale pointer.
#[derive(Clone, Copy)]
pub enum InvalidationResult {
    Success(LinkNoGen),
    GenerationOverflow(LinkNoGen),
    InvalidPtr,
}

impl InvalidationResult {
    // The number of the answer (REFERENCE, Numbers).
    #[tactic(auto, unfolding(crate::specs::Links::removal_reply))]
    pub fn number(self) -> u32
        ensures { (a : Arena) (l : List ℕ) → result ≡ (removal_reply self a l).number }
    {
        match self {
            InvalidationResult::Success(_) => 0,
            InvalidationResult::GenerationOverflow(_) => 100,
            InvalidationResult::InvalidPtr => 12,
        }
    }
}
