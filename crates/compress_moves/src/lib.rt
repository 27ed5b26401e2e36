// The steps of the compressions. Of the order-preserving one: the links are numbered by their new slots and moved down; meanwhile the generation column holds each
// link's new slot. Of both: the generation is renewed, and in the end the slots after the links are popped.
#![tactic(auto)]

ghost use Rattle.std.specs.Prelude.{◌≡◌, List, [], ◌∷◌, ◌++◌, ℕ, ◌+◌, ◌*◌, ◌≤◌, ◌<◌, length, set, drop, replicate};
ghost use Rattle.std.proofs.lemmas.List.Edits.{sets};
ghost use Rattle.definitions.specs.Columns.{at};
ghost use Rattle.definitions.specs.Arena.{arena, capacity_limit, largest_generation, header_words, link_slots};
ghost use Rattle.lent.specs.Arenas.{held_in, SameBuffers};
ghost use Rattle.ptr.specs.Extra.{invalidation_number};
ghost use Rattle.compress_moves.specs.Moves.{Renewed, Numbered, new_name, Movable, carried};
ghost use Rattle.compress_moves.specs.Shrunk.{Shrinkable, shrunk};

use base_freelist::{inc_generation, pop_slots};
use columns::slot_at;
use header::{CURRENT_GENERATION, LINK_COUNT, ROOT, STACK_LENGTH};
use lent::ArenaMut;
use ptr::{Gen, InvalidationOption, Ptr, Slot};

// The generation of a compression: 2 with reset, else one step on, but the same where there is no link. Answers whether the step overflowed.
pub fn renew_generation(header: &mut [u32], reset: bool) -> InvalidationOption
    requires { length header.old ≡ header_words }
    ensures { (ps ns gs vs : List ℕ) → Renewed largest_generation reset (arena ps ns gs vs header.old) (invalidation_number result) header.new }
{
    if reset {
        header[CURRENT_GENERATION] = Gen::TWO.0;
        return InvalidationOption::Success;
    }
    if header[LINK_COUNT] != 0 {
        return inc_generation(header);
    }
    InvalidationOption::Success
}

// Writes the four words of a link behind those of count links: the pointer that it had, and the one that it gets.
pub fn tell_move(report: &mut [u32], count: usize, old: Ptr, new: Ptr)
    requires { (count < capacity_limit) × (4 * count + 4 ≤ length report.old) }
    ensures { report.new ≡ sets report.old (4 * count) (old.inx.0 ∷ old.generation.0 ∷ new.inx.0 ∷ new.generation.0 ∷ []) }
{
    let w = 4 * count;
    report[w] = old.inx.0;
    report[w + 1] = old.generation.0;
    report[w + 2] = new.inx.0;
    report[w + 3] = new.generation.0;
}

// Reports the links of a stack that this generation column has, so many in all, in slot order, and puts each one's new slot where its generation was. While links
// are left, what is reported of a free slot is written over by the next link.
pub fn number_links(generation: &mut [u32], report: &mut [u32], links: usize, new: Gen)
    requires { (n : ℕ) × (n ≤ capacity_limit) × (n ≤ length generation.old) × (links ≡ length (link_slots generation.old n)) × (4 * links ≤ length report.old) }
    ensures { (n : ℕ) → n ≤ length generation.old → links ≡ length (link_slots generation.old n) →
        (ps ns vs h : List ℕ) → Numbered (arena ps ns generation.old vs h) n new.0 report.old generation.new report.new }
{
    let mut count: usize = 0;
    let mut i: usize = 0;
    while count < links {
        let old = generation[i];
        let place = (count + 1) as u32;
        tell_move(
            &mut *report,
            count,
            Ptr::new((i + 1) as u32, old),
            Ptr::new(place, new.0),
        );
        generation[i] = if old == 0 {
            0
        } else {
            count += 1;
            place
        };
        i += 1;
    }
}

// The new slot of the link in slot s; slot 0 of slot 0, which is none.
#[tactic(auto, using(definitions::proofs::Columns::at_zero))]
pub fn new_slot(numbers: &[u32], s: Slot) -> Slot
    requires { s.0 ≤ length numbers.now }
    ensures { result.0 ≡ at numbers.now s.0 }
{
    if s == Slot(0) {
        return s;
    }
    slot_at(numbers, s)
}

// Moves the words of the link in slot s to place k, its neighbours under their new names.
pub fn move_link(
    prev: &mut [u32],
    next: &mut [u32],
    payload: &mut [u32],
    numbers: &[u32],
    s: usize,
    k: usize,
)
    requires before { (k < s) × (s ≤ length prev.old) × (s ≤ length next.old) × (s ≤ length payload.old) }
    requires numbered { (at prev.old s ≤ length numbers.now) × (at next.old s ≤ length numbers.now) }
    ensures { (prev.new ≡ set prev.old k (new_name numbers.now prev.old s))
        × (next.new ≡ set next.old k (new_name numbers.now next.old s))
        × (payload.new ≡ set payload.old k (at payload.old s)) }
{
    prev[k] = new_slot(numbers, Slot(prev[s - 1])).0;
    next[k] = new_slot(numbers, Slot(next[s - 1])).0;
    payload[k] = payload[s - 1];
}

// Moves the links that the report lists down to the front. Nothing moves where no slot of the n is free.
pub fn move_down(
    prev: &mut [u32],
    next: &mut [u32],
    payload: &mut [u32],
    numbers: &[u32],
    report: &[u32],
    n: usize,
    links: usize,
)
    requires { Movable prev.old next.old payload.old numbers.now report.now n links }
    ensures { (prev.new ≡ carried (new_name numbers.now prev.old) numbers.now n prev.old)
        × (next.new ≡ carried (new_name numbers.now next.old) numbers.now n next.old)
        × (payload.new ≡ carried (at payload.old) numbers.now n payload.old) }
{
    if links == n {
        return;
    }
    for k in 0..links {
        move_link(
            &mut *prev,
            &mut *next,
            &mut *payload,
            numbers,
            report[4 * k] as usize,
            k,
        );
    }
}

// Gives the first k slots the generation g.
pub fn fill_generation(generation: &mut [u32], k: usize, g: Gen)
    requires { k ≤ length generation.old }
    ensures { generation.new ≡ replicate k g.0 ++ drop k generation.old }
{
    generation[..k].fill(g.0);
}

// Keeps as many slots as there are links, in the current generation, and pops the others. No slot is free then, and the root goes.
pub fn shrink(arena: &mut ArenaMut<'_>)
    requires { Shrinkable (held_in arena.old) }
    ensures shrunk { held_in arena.new ≡ shrunk (held_in arena.old) }
    ensures lent { SameBuffers arena.old arena.new }
{
    let n = arena.header[STACK_LENGTH] as usize;
    let links = arena.header[LINK_COUNT];
    let m = links as usize;
    let new = Gen(arena.header[CURRENT_GENERATION]);
    fill_generation(arena.generation, m, new);
    pop_slots(arena, m, n);
    arena.header[ROOT] = 0;
    arena.header[STACK_LENGTH] = links;
}
