// Canonical compression (`compress_canonical` of chain/impl_chain_arena_trait.rs) in the lent columns, with no memory beyond them.
#![tactic(auto)]

ghost use Rattle.std.specs.Prelude.{◌≡◌, cond, ◌+◌, ◌≤◌, ◌<◌, eqb, length};
ghost use Rattle.definitions.specs.Arena.{capacity_limit, largest_generation};
ghost use Rattle.definitions.specs.Check.{verdict};
ghost use Rattle.definitions.specs.Compress.{compress_canonical};
ghost use Rattle.lent.specs.Arenas.{held_in, SameBuffers};
ghost use Rattle.compress_moves.specs.Compressed.{compressed_reply};
ghost use Rattle.canonical_exchange.specs.Lent.{lent};
ghost use Rattle.canonical_layout.specs.Held.{Marked};
ghost use Rattle.canonical_layout.specs.Steps.{Stacked, LaidIn};

use canonical_layout::lay_chains;
use compress_moves::{renew_generation, shrink};
use header::STACK_LENGTH;
use lent::ArenaMut;
use ptr::InvalidationOption;
use refusals::Refusal;

// Who is at place s at the start: the link in its own slot, nobody where the slot is free.
fn occupant(generation: u32, s: usize) -> u32
    requires { s < capacity_limit }
    ensures { result ≡ cond (eqb generation 0) 0 (s + 1) }
{
    if generation == 0 {
        return 0;
    }
    (s + 1) as u32
}

// Puts each link's own slot into the where-from column, up to its end, and 0 for a free slot. From now on the column says who is in a slot, and whether anybody is.
fn mark_links(arena: &ArenaMut<'_>, where_from: &mut [u32])
    requires { (length where_from.old ≤ length arena.now.generation.now) × (length where_from.old ≤ capacity_limit) }
    ensures { Marked arena.now.generation.now (length where_from.old) where_from.new }
{
    let generation = &*arena.generation;
    for (s, who) in where_from.iter_mut().enumerate() {
        *who = occupant(generation[s], s);
    }
}

// Lays out the links of an arena: they stand in slots 1, 2, and so on, one chain behind the other, and the where-from column says who is in a slot.
fn lay_out(arena: &mut ArenaMut<'_>, where_from: &mut [u32])
    requires { Stacked (held_in arena.old) where_from.old }
    ensures laid { LaidIn (held_in arena.old) where_from.old (lent arena.new.prev.now arena.new.next.now arena.new.payload.now where_from.new) }
    ensures others { (arena.new.generation.now ≡ arena.old.generation.now) × (arena.new.header.now ≡ arena.old.header.now) }
    ensures lent { SameBuffers arena.old arena.new }
{
    let n = arena.header[STACK_LENGTH] as usize;
    mark_links(&*arena, &mut where_from[..n]);
    lay_chains(
        &mut arena.prev[..n],
        &mut arena.next[..n],
        &mut arena.payload[..n],
        &mut where_from[..n],
    );
}

// Canonical compression of an arena that passed the check: one chain behind the other, each along next (REFERENCE, Canonical compression).
pub fn compress_canonical(
    arena: &mut ArenaMut<'_>,
    reset: bool,
    where_from: &mut [u32],
) -> Result<InvalidationOption, Refusal>
    requires { verdict capacity_limit (held_in arena.old) ≡ 0 }
    ensures compressed { compressed_reply result (held_in arena.new) where_from.new
        ≡ compress_canonical largest_generation reset (held_in arena.old) where_from.old }
    ensures lent { SameBuffers arena.old arena.new }
{
    if where_from.len() != arena.prev.len() {
        return Err(Refusal::SliceLength);
    }
    lay_out(arena, where_from);
    let renewed = renew_generation(arena.header, reset);
    shrink(arena);
    Ok(renewed)
}
