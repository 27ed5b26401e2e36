// The place that a kind of insertion names (`check_link_insert_kind` of chain/impl_chain_arena_trait.rs), of a lent arena.
#![tactic(auto)]

ghost use Rattle.std.specs.Prelude.{◌≡◌, ℕ};
ghost use Rattle.definitions.specs.Insert.{place_of};
ghost use Rattle.lent.specs.Arenas.{arena_of};
ghost use Rattle.insert_kinds.specs.Kinds.{kind_beside, insert_kind_of};
ghost use Rattle.insert_places.specs.Places.{placed};

use insert_kinds::{Kind, LinkInsertKind};
use insert_places::{LinkName, Place, at_interlink, bridge, lacks, next_to, prev_to};
use lent::ArenaRef;
use ptr::Slot;

// The place that a kind names, if what it asks holds. t is the slot of the new link.
#[tactic(auto, unfolding(definitions::specs::Insert::place_of))]
pub fn check_link_insert_kind(arena: ArenaRef<'_>, t: Slot, kind: LinkInsertKind) -> Option<Place>
    ensures { placed result ≡ place_of (arena_of arena.entry) t.0 (insert_kind_of kind) }
{
    match kind {
        LinkInsertKind::Disconnected => Some(Place {
            prev: Slot(0),
            next: Slot(0),
        }),
        LinkInsertKind::SingleLinkCyclic => Some(Place { prev: t, next: t }),
        LinkInsertKind::ByPtr(kind) => place_beside(arena, kind),
        LinkInsertKind::ByInx(kind) => place_beside(arena, kind),
    }
}

// The place beside the links that a kind names, if they are there and what else it asks holds.
#[tactic(auto, using(insert_places::proofs::Parts::beside_found), unfolding(definitions::specs::Insert::place_of, definitions::specs::Insert::place_if))]
fn place_beside<L: LinkName>(arena: ArenaRef<'_>, kind: Kind<L>) -> Option<Place>
    ensures { (t : ℕ) → placed result ≡ place_of (arena_of arena.entry) t (kind_beside L.name kind) }
{
    match kind {
        Kind::ChainEnd(p) => {
            let end = lacks(arena.next, p.found(arena))?;
            Some(Place {
                prev: end,
                next: Slot(0),
            })
        }
        Kind::ChainStart(p) => {
            let start = lacks(arena.prev, p.found(arena))?;
            Some(Place {
                prev: Slot(0),
                next: start,
            })
        }
        Kind::NextTo(p) => next_to(arena.next, p.found(arena)),
        Kind::PrevTo(p) => prev_to(arena.prev, p.found(arena)),
        Kind::AtInterlink {
            next_to: s,
            prev_to: t,
        } => at_interlink(arena.next, s.found(arena), t.found(arena)),
        Kind::Bridge { end, start } => {
            bridge(arena.prev, arena.next, end.found(arena), start.found(arena))
        }
    }
}
