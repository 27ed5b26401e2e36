// A slot's word in a lent column: that of slot s has index s - 1 (REFERENCE, Arena).
#![tactic(auto)]

ghost use Rattle.std.specs.Prelude.{◌≡◌, ◌≤◌, ◌<◌, length};
ghost use Rattle.definitions.specs.Columns.{at, put};

use ptr::Slot;

// The word of the column at slot s.
#[tactic(auto, using(definitions::proofs::Columns::at_place))]
pub fn word_at(column: &[u32], s: Slot) -> u32
    requires { (0 < s.0) × (s.0 ≤ length column.now) }
    ensures { result ≡ at column.now s.0 }
{
    column[s.0 as usize - 1]
}

// The slot that the column names at slot s.
pub fn slot_at(column: &[u32], s: Slot) -> Slot
    requires { (0 < s.0) × (s.0 ≤ length column.now) }
    ensures { result.0 ≡ at column.now s.0 }
{
    Slot(word_at(column, s))
}

// Writes v at slot s of a link column.
#[tactic(auto, using(definitions::proofs::Columns::put_place))]
pub fn set_at(column: &mut [u32], s: Slot, v: Slot)
    requires { (0 < s.0) × (s.0 ≤ length column.old) }
    ensures { column.new ≡ put column.old s.0 v.0 }
{
    column[s.0 as usize - 1] = v.0;
}

// Writes v at slot s of a link column, if there is such a slot: 0 is none.
#[tactic(auto, unfolding(definitions::specs::Columns::put))]
pub fn put_at(column: &mut [u32], s: Slot, v: Slot)
    requires { s.0 ≤ length column.old }
    ensures { column.new ≡ put column.old s.0 v.0 }
{
    if s.0 != 0 {
        set_at(column, s, v);
    }
}
