// The kinds of insertion (`LinkInsertKind` of chain/chain_traits.rs), and their codes (REFERENCE, Insert).
#![tactic(auto)]

ghost use Rattle.std.specs.Prelude.{◌≡◌};
ghost use Rattle.definitions.specs.Insert.{kind_of};
ghost use Rattle.ptr.specs.Pointers.{pointer_of};
ghost use Rattle.insert_kinds.specs.Kinds.{coded_of};

use ptr::{Ptr, Slot};

// Where a new link goes, by the links beside which it stands. L is how these are named: by pointer, or by slot, whatever their generation.
#[derive(Clone, Copy)]
pub enum Kind<L> {
    // Behind a link that has no next.
    ChainEnd(L),
    // Before a link that has no prev.
    ChainStart(L),
    // Between a link and its next, if it has one.
    NextTo(L),
    // Between a link and its prev, if it has one.
    PrevTo(L),
    // Between a link, next_to, and its next, prev_to.
    AtInterlink { next_to: L, prev_to: L },
    // Between a link that has no next, end, and one that has no prev, start.
    Bridge { end: L, start: L },
}

// Where a new link goes: alone, or beside links that are named all by pointer or all by slot, as by `ChainEnd` and by `ChainEndInx` of the crate.
#[derive(Clone, Copy)]
pub enum LinkInsertKind {
    // In an open chain of its own.
    Disconnected,
    // In a closed chain of its own.
    SingleLinkCyclic,
    ByPtr(Kind<Ptr>),
    ByInx(Kind<Slot>),
}

// The kind of a code, 6 to 19, with the links that it names: both, the first or none.
#[tactic(auto, unfolding(definitions::specs::Insert::kind_of))]
pub fn kind_of(code: u32, p: Ptr, q: Ptr) -> Option<LinkInsertKind>
    ensures { coded_of result ≡ kind_of code (pointer_of p) (pointer_of q) }
{
    let s = p.inx;
    let t = q.inx;
    match code {
        6 => Some(LinkInsertKind::Disconnected),
        7 => Some(LinkInsertKind::SingleLinkCyclic),
        8 => Some(LinkInsertKind::ByPtr(Kind::ChainEnd(p))),
        9 => Some(LinkInsertKind::ByInx(Kind::ChainEnd(s))),
        10 => Some(LinkInsertKind::ByPtr(Kind::ChainStart(p))),
        11 => Some(LinkInsertKind::ByInx(Kind::ChainStart(s))),
        12 => Some(LinkInsertKind::ByPtr(Kind::NextTo(p))),
        13 => Some(LinkInsertKind::ByInx(Kind::NextTo(s))),
        14 => Some(LinkInsertKind::ByPtr(Kind::PrevTo(p))),
        15 => Some(LinkInsertKind::ByInx(Kind::PrevTo(s))),
        16 => Some(LinkInsertKind::ByPtr(Kind::AtInterlink {
            next_to: p,
            prev_to: q,
        })),
        17 => Some(LinkInsertKind::ByInx(Kind::AtInterlink {
            next_to: s,
            prev_to: t,
        })),
        18 => Some(LinkInsertKind::ByPtr(Kind::Bridge { end: p, start: q })),
        19 => Some(LinkInsertKind::ByInx(Kind::Bridge { end: s, start: t })),
        _ => None,
    }
}
