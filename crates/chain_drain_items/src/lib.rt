// The items of a drain (`ChainDrain` of chain/chain_iterators.rs): the slots of the chain are listed in the report, and then each link is reported and removed.
#![tactic(auto)]

ghost use Rattle.std.specs.Prelude.{◌≡◌, ◌+◌, ◌*◌, ◌≤◌, ◌<◌, ltb, length, get_or, IfSome};
ghost use Rattle.definitions.specs.Arena.{capacity_limit, largest_generation};
ghost use Rattle.definitions.specs.Report.{item_slots};
ghost use Rattle.lent.specs.Arenas.{lent_of, held_in, SameBuffers};
ghost use Rattle.base_slots.specs.Removal.{Stands, Removable};
ghost use Rattle.chain_ahead.specs.Rest.{rest_of};
ghost use Rattle.drains.specs.Drainable.{Drainable};
ghost use Rattle.chain_drain_items.specs.Items.{Listed, item_words, overwritten, ItemDrained, ItemsDrained};

use base_removal::take_out;
use chain_ahead::ChainWalk;
use columns::{slot_at, word_at};
use lent::{ArenaMut, LentArena};
use ptr::Slot;

// Whether `room` words are fewer than five for each link of the rest of a walk.
pub fn too_short(walk: ChainWalk<'_>, room: usize) -> bool
    ensures { result ≡ ltb room (5 * length (rest_of walk.entry)) }
{
    walk.too_few(room / 5)
}

// Writes the slots of the rest of a walk into the report, each as the first word of its item. Answers how many.
pub fn list_slots(mut walk: ChainWalk<'_>, report: &mut [u32]) -> u32
    requires { 5 * length (rest_of walk) ≤ length report.old }
    ensures { Listed (rest_of walk.entry) report.old report.new result }
{
    let mut items: u32 = 0;
    while let Some(p) = walk.advance() {
        report[5 * items as usize] = p.inx.0;
        items += 1;
    }
    items
}

// Writes the item that the link at slot s becomes into the report, from word i on.
pub fn report_link(arena: LentArena<'_>, s: Slot, report: &mut [u32], i: usize)
    requires stands { Stands arena.prev.now arena.next.now arena.generation.now arena.payload.now s.0 }
    requires room { i + 5 ≤ length report.old }
    ensures { report.new ≡ overwritten i (item_words (lent_of arena.entry) s.0) report.old }
{
    report[i] = s.0;
    report[i + 1] = word_at(arena.generation, s);
    report[i + 2] = slot_at(arena.prev, s).0;
    report[i + 3] = slot_at(arena.next, s).0;
    report[i + 4] = word_at(arena.payload, s);
}

// Drains the link whose slot is word i of the report: its words, as they are now, follow there, and it is removed. Answers whether the generation
// overflowed.
pub fn drain_item(arena: &mut ArenaMut<'_>, report: &mut [u32], i: usize) -> bool
    requires removable { Removable (held_in arena.old) (get_or report.old i 0) }
    requires room { i + 5 ≤ length report.old }
    ensures lent { SameBuffers arena.old arena.new }
    ensures drained { ItemDrained largest_generation (held_in arena.old) (get_or report.old i 0) i report.old (held_in arena.new) report.new result }
{
    let s = Slot(report[i]);
    report_link(arena.lent(), s, report, i);
    take_out(arena, s)
}

// Drains the links whose slots are listed in the report, so many items, one after the other. Answers which one, counted from 1, made the generation
// overflow.
pub fn drain_items(arena: &mut ArenaMut<'_>, report: &mut [u32], items: u32) -> Option<u32>
    requires drainable { Drainable capacity_limit (held_in arena.old) (item_slots items report.old) }
    requires room { 5 * items ≤ length report.old }
    ensures lent { SameBuffers arena.old arena.new }
    ensures drained { ItemsDrained largest_generation (held_in arena.old) (item_slots items report.old) report.old (held_in arena.new) report.new result }
    ensures some { IfSome result (λ i. 0 < i) }
{
    let mut overflowed: Option<u32> = None;
    for item in 0..items {
        let overflow = drain_item(arena, report, 5 * item as usize);
        overflowed = overflowed.or(overflow.then_some(item + 1));
    }
    overflowed
}
