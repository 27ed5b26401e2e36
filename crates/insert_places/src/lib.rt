// Places of a new link: the links that a kind names, if they are there, and between which slots the new one goes (chain/impl_chain_arena_trait.rs).
#![tactic(auto)]

ghost use Rattle.std.specs.Prelude.{◌≡◌};
ghost use Rattle.definitions.specs.Insert.{Named};
ghost use Rattle.lent.specs.Arenas.{arena_of};
ghost use Rattle.insert_kinds.specs.Kinds.{ptr_name, slot_name};
ghost use Rattle.insert_places.specs.Places.{Found, Stands, lacking, between_those, before_next, behind_prev, at_joint, placed};

use chain_traits::{is_link, stale};
use columns::slot_at;
use lent::ArenaRef;
use ptr::{Ptr, Slot};

// How a link is named: by pointer, or by slot, whatever the link's generation.
pub trait LinkName: Copy {
    // The name, as the definitions have it.
    ghost name: { Self → Named };

    // The slot of the link that is named, if it is there.
    fn found(self, arena: ArenaRef<'_>) -> Option<Slot>
        ensures { Found (arena_of arena.entry) (name self) result };
}

impl LinkName for Ptr {
    ghost name = { ptr_name };

    #[tactic(auto, using(crate::proofs::Parts::pointer_there))]
    fn found(self, arena: ArenaRef<'_>) -> Option<Slot> {
        if stale(arena.generation, arena.stack_length(), self) {
            return None;
        }
        Some(self.inx)
    }
}

impl LinkName for Slot {
    ghost name = { slot_name };

    #[tactic(auto, unfolding(definitions::specs::Insert::is_there))]
    fn found(self, arena: ArenaRef<'_>) -> Option<Slot> {
        if !is_link(arena.generation, arena.stack_length(), self) {
            return None;
        }
        Some(self)
    }
}

// The slots between which a new link goes, 0 where there is none: its prev and its next.
#[derive(Clone, Copy)]
pub struct Place {
    pub prev: Slot,
    pub next: Slot,
}

// Behind a link, if it was found: between it and its next.
pub fn next_to(next: &[u32], link: Option<Slot>) -> Option<Place>
    requires { Stands next.now link }
    ensures { placed result ≡ before_next next.now link }
{
    let s = link?;
    Some(Place {
        prev: s,
        next: slot_at(next, s),
    })
}

// In front of a link, if it was found: between its prev and it.
pub fn prev_to(prev: &[u32], link: Option<Slot>) -> Option<Place>
    requires { Stands prev.now link }
    ensures { placed result ≡ behind_prev prev.now link }
{
    let s = link?;
    Some(Place {
        prev: slot_at(prev, s),
        next: s,
    })
}

// Between two links, if both were found and the second is the next of the first.
#[tactic(auto, unfolding(definitions::specs::Insert::place_if))]
pub fn at_interlink(next: &[u32], link: Option<Slot>, other: Option<Slot>) -> Option<Place>
    requires { Stands next.now link }
    ensures { placed result ≡ at_joint next.now link other }
{
    let s = link?;
    let t = other?;
    (slot_at(next, s) == t).then_some(Place { prev: s, next: t })
}

// The link, if it was found and has no neighbour in the column.
pub fn lacks(column: &[u32], link: Option<Slot>) -> Option<Slot>
    requires { Stands column.now link }
    ensures { result ≡ lacking column.now link }
{
    let s = link?;
    (slot_at(column, s).0 == 0).then_some(s)
}

// Between two links, if both were found and the first has no next and the second no prev.
pub fn bridge(prev: &[u32], next: &[u32], end: Option<Slot>, start: Option<Slot>) -> Option<Place>
    requires end_stands { Stands next.now end }
    requires start_stands { Stands prev.now start }
    ensures { placed result ≡ between_those (lacking next.now end) (lacking prev.now start) }
{
    Some(Place {
        prev: lacks(next, end)?,
        next: lacks(prev, start)?,
    })
}
