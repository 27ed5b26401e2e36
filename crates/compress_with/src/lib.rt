// Order-preserving compression (`compress_with` of chain/impl_chain_arena_trait.rs) in the lent columns, with no memory beyond them: every link gets
// the new generation in the end, so meanwhile the generation column holds each link's new slot.
#![tactic(auto)]

ghost use Rattle.std.specs.Prelude.{◌≡◌, List, ℕ, length, get_or};
ghost use Rattle.definitions.specs.Columns.{written};
ghost use Rattle.definitions.specs.Arena.{arena, capacity_limit, largest_generation, header_words, stack_length, link_count, current, link_slots};
ghost use Rattle.definitions.specs.Check.{verdict};
ghost use Rattle.definitions.specs.Compress.{compressed_header, relocate, moves_of, compress_with};
ghost use Rattle.lent.specs.Arenas.{held_in, SameBuffers};
ghost use Rattle.compress_moves.specs.Compressed.{compressed_reply};
ghost use Rattle.compress_moves.specs.Moves.{Compressible};

use compress_moves::{move_down, number_links, renew_generation, shrink};
use header::{CURRENT_GENERATION, LINK_COUNT, STACK_LENGTH};
use lent::ArenaMut;
use ptr::{Gen, InvalidationOption};
use refusals::Refusal;

// Moves the links to the front of the stack, in the order of their slots, reports them, and gives them the current generation.
pub fn compress_links(arena: &mut ArenaMut<'_>, report: &mut [u32])
    requires header { length arena.old.header.now ≡ header_words }
    requires compressible { Compressible arena.old.prev.now arena.old.next.now arena.old.generation.now arena.old.payload.now
        (stack_length (held_in arena.old)) (link_count (held_in arena.old)) (length report.old) }
    ensures moved { held_in arena.new ≡ relocate (link_slots arena.old.generation.now (stack_length (held_in arena.old))) (current (held_in arena.old)) (held_in arena.old) }
    ensures reported { report.new
        ≡ written (moves_of (held_in arena.old) (current (held_in arena.old)) 1 (link_slots arena.old.generation.now (stack_length (held_in arena.old)))) report.old }
    ensures lent { SameBuffers arena.old arena.new }
{
    let n = arena.header[STACK_LENGTH] as usize;
    let links = arena.header[LINK_COUNT] as usize;
    let new = Gen(arena.header[CURRENT_GENERATION]);
    let generation = &mut *arena.generation;
    number_links(&mut *generation, &mut *report, links, new);
    move_down(
        arena.prev,
        arena.next,
        arena.payload,
        &*generation,
        &*report,
        n,
        links,
    );
    shrink(arena);
}

// The same of columns with no header: of a stack of n slots with so many links, which get the generation new.
pub fn compress_columns(
    prev: &mut [u32],
    next: &mut [u32],
    generation: &mut [u32],
    payload: &mut [u32],
    report: &mut [u32],
    n: usize,
    links: usize,
    new: Gen,
)
    requires { Compressible prev.old next.old generation.old payload.old n links (length report.old) }
    ensures moved { (h : List ℕ) → get_or h 0 0 ≡ n → arena prev.new next.new generation.new payload.new (compressed_header links new.0 h)
        ≡ relocate (link_slots generation.old n) new.0 (arena prev.old next.old generation.old payload.old h) }
    ensures reported { (h : List ℕ) → report.new
        ≡ written (moves_of (arena prev.old next.old generation.old payload.old h) new.0 1 (link_slots generation.old n)) report.old }
{
    let mut header = [n as u32, links as u32, 0, new.0];
    compress_links(
        &mut ArenaMut {
            prev,
            next,
            generation,
            payload,
            header: &mut header,
        },
        report,
    );
}

// Order-preserving compression of an arena that passed the check (REFERENCE, Order-preserving compression).
#[tactic(auto, using(definitions::proofs::Shaped::shaped))]
pub fn compress_with(
    arena: &mut ArenaMut<'_>,
    reset: bool,
    report: &mut [u32],
) -> Result<InvalidationOption, Refusal>
    requires { verdict capacity_limit (held_in arena.old) ≡ 0 }
    ensures compressed { compressed_reply result (held_in arena.new) report.new
        ≡ compress_with largest_generation reset (held_in arena.old) report.old }
    ensures lent { SameBuffers arena.old arena.new }
{
    let links = arena.header[LINK_COUNT] as usize;
    if report.len() < 4 * links {
        return Err(Refusal::SliceLength);
    }
    let renewed = renew_generation(arena.header, reset);
    compress_links(arena, report);
    Ok(renewed)
}
