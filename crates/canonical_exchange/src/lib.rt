// The exchange of two slots in canonical compression: a link and what is where it goes change places, and both are renamed where their neighbours name them.
#![tactic(auto)]

ghost use Rattle.std.specs.Prelude.{◌≡◌, ◌≤◌, ◌<◌, length};
ghost use Rattle.definitions.specs.Columns.{put};
ghost use Rattle.definitions.specs.Compress.{exchange_words};
ghost use Rattle.canonical_exchange.specs.Layout.{columns_of, SameColumns};
ghost use Rattle.canonical_exchange.specs.Exchange.{Inside, NamedIn, LinksInReach, InReach, renamed_words, Exchanged};

use columns::{put_at, slot_at, word_at};
use ptr::Slot;

// The columns that are written while an arena is laid out: its links and payloads, and beside them the where-from column, which says who is in a slot.
#[derive(Drop)]
pub struct Layout<'a> {
    pub prev: &'a mut [u32],
    pub next: &'a mut [u32],
    pub payload: &'a mut [u32],
    pub where_from: &'a mut [u32],
}

// What two slots that are exchanged name in a column of neighbours, as its words: the link that is moved, and who is where it goes. Slot 0 names none.
#[derive(Clone, Copy)]
pub struct Named {
    pub moved: Slot,
    pub other: Slot,
}

// Exchanges the words of slots i and t of a column.
#[tactic(auto, using(crate::proofs::Traded::traded))]
pub fn trade_words(column: &mut [u32], i: Slot, t: Slot)
    requires { Inside column.old i.0 t.0 }
    ensures { column.new ≡ exchange_words i.0 t.0 column.old }
{
    let a = i.0 as usize - 1;
    let b = t.0 as usize - 1;
    (column[a], column[b]) = (column[b], column[a]);
}

// What the link in slot t names in a column of neighbours, and what who is in slot i names, none if nobody is there.
#[tactic(auto, using(crate::proofs::Traded::held_none, crate::proofs::Traded::held_some))]
pub fn read_named(column: &[u32], where_from: &[u32], i: Slot, t: Slot) -> Named
    requires { Inside column.now i.0 t.0 × Inside where_from.now i.0 t.0 }
    ensures { NamedIn column.now where_from.now i.0 t.0 result }
{
    let moved = slot_at(column, t);
    let other = if word_at(where_from, i) == 0 {
        Slot(0)
    } else {
        slot_at(column, i)
    };
    Named { moved, other }
}

// In one column of neighbours: the words of those whom the two name get the new slots, i and t, then the two slots are exchanged.
pub fn settle(column: &mut [u32], named: Named, i: Slot, t: Slot)
    requires { Inside column.old i.0 t.0 × (named.moved.0 ≤ length column.old) × (named.other.0 ≤ length column.old) }
    ensures { column.new ≡ exchange_words i.0 t.0 (put (put column.old named.moved.0 i.0) named.other.0 t.0) }
{
    put_at(&mut *column, named.moved, i);
    put_at(&mut *column, named.other, t);
    trade_words(column, i, t);
}

// In both columns of neighbours: the link in slot t and who is in slot i are renamed where their neighbours name them, and exchanged. What both name is read before
// a word is written, since the two may be neighbours of each other.
#[tactic(auto, unfolding(crate::specs::Exchange::renamed_words))]
pub fn exchange_links(prev: &mut [u32], next: &mut [u32], where_from: &[u32], i: Slot, t: Slot)
    requires { LinksInReach prev.old next.old where_from.now i.0 t.0 }
    ensures { (prev.new ≡ renamed_words prev.old next.old where_from.now i.0 t.0)
        × (next.new ≡ renamed_words next.old prev.old where_from.now i.0 t.0) }
{
    let after = read_named(&*next, where_from, i, t);
    let before = read_named(&*prev, where_from, i, t);
    settle(prev, after, i, t);
    settle(next, before, i, t);
}

impl Layout<'_> {
    // The where-from column as it now is, to be read.
    pub fn occupants(&self) -> &[u32]
        ensures { result.now ≡ self.now.where_from.now }
    {
        &*self.where_from
    }

    // The prev column as it now is, to be read.
    pub fn prev_column(&self) -> &[u32]
        ensures { result.now ≡ self.now.prev.now }
    {
        &*self.prev
    }

    // Exchanges the link in slot t with what is in slot i.
    pub fn exchange(&mut self, i: Slot, t: Slot)
        requires { InReach (columns_of self.old) i.0 t.0 }
        ensures exchanged { Exchanged (columns_of self.old) (columns_of self.new) i.0 t.0 }
        ensures lent { SameColumns self.old self.new }
    {
        let where_from = &mut *self.where_from;
        exchange_links(self.prev, self.next, &*where_from, i, t);
        trade_words(where_from, i, t);
        trade_words(&mut *self.payload, i, t);
    }
}
