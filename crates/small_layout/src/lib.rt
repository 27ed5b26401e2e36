// A small arena laid into lent columns, word by word from the number that it is packed into (REFERENCE, Small arenas).
#![tactic(auto)]

ghost use Rattle.std.specs.Prelude.{◌≡◌, ◌≤◌, ◌<◌, length};
ghost use Rattle.definitions.specs.Arena.{capacity_limit, header_words};
ghost use Rattle.definitions.specs.Columns.{written};
ghost use Rattle.lent.specs.Arenas.{held_in, SameBuffers};
ghost use Rattle.all_small.specs.SmallArena.{laid_in, small_arena};
ghost use Rattle.all_small.proofs.Packed.{digit, digits, unpacked};
ghost use Rattle.small_layout.specs.Laid.{RoomFor, small_reply};

use base_arena::is_misshapen;
use header::{CURRENT_GENERATION, LINK_COUNT, ROOT, STACK_LENGTH};
use lent::ArenaMut;
use ptr::Gen;
use refusals::Refusal;
use small_table::get_packed_arena;

// The word of a packed arena, or of its rows, that has this weight.
#[tactic(auto, unfolding(all_small::proofs::Packed::digit))]
fn word_of(packed: u32, weight: u32) -> u32
    requires { 0 < weight }
    ensures { result ≡ digit packed weight }
{
    packed / weight % 4
}

// Lays a word of each of the first n slots into a column.
#[tactic(auto, using(crate::proofs::Laying::laying), unfolding(all_small::proofs::Packed::after, all_small::proofs::Packed::digits))]
fn lay_words(column: &mut [u32], rows: u32, n: usize, weight: u32)
    requires { (0 < weight) × (n ≤ length column.old) }
    ensures { column.new ≡ written (digits weight rows n) column.old }
{
    let mut rest = rows;
    for word in column[..n].iter_mut() {
        *word = word_of(rest, weight);
        rest /= 256;
    }
}

// Writes the header of a packed arena.
#[tactic(auto, using(crate::proofs::Laying::header_laid), unfolding(all_small::proofs::Packed::unpacked))]
fn lay_header(header: &mut [u32], packed: u32)
    requires { length header.old ≡ header_words }
    ensures { header.new ≡ (unpacked packed).header }
{
    header[STACK_LENGTH] = word_of(packed, 1);
    header[LINK_COUNT] = word_of(packed, 4);
    header[ROOT] = word_of(packed, 16);
    header[CURRENT_GENERATION] = Gen::TWO.0;
}

// Lays a packed arena into columns that have room for it.
#[tactic(auto, unfolding(all_small::proofs::Packed::unpacked, all_small::specs::SmallArena::laid_in))]
fn lay(arena: &mut ArenaMut<'_>, packed: u32)
    requires { RoomFor (unpacked packed) (held_in arena.old) }
    ensures laid { held_in arena.new ≡ laid_in (unpacked packed) (held_in arena.old) }
    ensures lent { SameBuffers arena.old arena.new }
{
    let n = word_of(packed, 1) as usize;
    let rows = packed / 64;
    lay_words(arena.prev, rows, n, 1);
    lay_words(arena.next, rows, n, 4);
    lay_words(arena.generation, rows, n, 16);
    lay_words(arena.payload, rows, n, 64);
    lay_header(arena.header, packed);
}

// Lays the small arena of this index into the columns: its stack length, or none where the index is past the last (REFERENCE, Small arenas).
#[tactic(auto, using(std::proofs::lemmas::Bool::Decides::nat_tests, crate::proofs::Answers::ninety, crate::proofs::Answers::stack_of), unfolding(all_small::specs::SmallArena::small_arena))]
pub fn small_arena(arena: &mut ArenaMut<'_>, index: u32) -> Result<Option<u32>, Refusal>
    ensures laid { small_reply result (held_in arena.new) ≡ small_arena capacity_limit (held_in arena.old) index }
    ensures lent { SameBuffers arena.old arena.new }
{
    if is_misshapen(arena.lent()) {
        return Err(Refusal::Shape);
    }
    let Some(packed) = get_packed_arena(index as usize) else {
        return Ok(None);
    };
    let n = word_of(packed, 1);
    if arena.prev.len() < n as usize {
        return Err(Refusal::SliceLength);
    }
    lay(arena, packed);
    Ok(Some(n))
}
