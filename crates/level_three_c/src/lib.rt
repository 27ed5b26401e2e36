// Level Three as a host calls it: the exports of liblevel_three.a, the two compressions.
// Each export calls the function of its name in the crates below, and promises what that promises.
#![tactic(auto)]

ghost use Rattle.std.specs.Prelude.{not, [], eqb};
ghost use Rattle.definitions.specs.Arena.{arena};
ghost use Rattle.definitions.specs.Calls.{CompressWith, CompressCanonical};
ghost use Rattle.answers.specs.Answered.{Answered};

use answers::Answer;
use lent::ArenaMut;

// Moves the links to the front in the order of their slots, in a new generation, and reports for each its old slot and generation and its new ones.
// Reset, where it is not 0, makes the generation 2 (REFERENCE, Order-preserving compression).
#[unsafe(no_mangle)]
pub extern "C" fn chain_arena_compress_with(
    prev: &mut [u32],
    next: &mut [u32],
    generation: &mut [u32],
    payload: &mut [u32],
    header: &mut [u32],
    reset: u32,
    report: &mut [u32],
) -> Answer
    ensures { Answered (CompressWith (not (eqb reset 0)))
        (arena prev.old next.old generation.old payload.old header.old) report.old result [] (arena prev.new next.new generation.new payload.new header.new) report.new }
{
    level_three_compress_with::chain_arena_compress_with(
        &mut ArenaMut {
            prev,
            next,
            generation,
            payload,
            header,
        },
        reset,
        report,
    )
}

// Lays the chains out one behind the other, each along next, in a new generation; the where-from column says for each slot which one its link was in
// before. Reset, where it is not 0, makes the generation 2 (REFERENCE, Canonical compression).
#[unsafe(no_mangle)]
pub extern "C" fn chain_arena_compress_canonical(
    prev: &mut [u32],
    next: &mut [u32],
    generation: &mut [u32],
    payload: &mut [u32],
    header: &mut [u32],
    reset: u32,
    where_from: &mut [u32],
) -> Answer
    ensures { Answered (CompressCanonical (not (eqb reset 0)))
        (arena prev.old next.old generation.old payload.old header.old) where_from.old result [] (arena prev.new next.new generation.new payload.new header.new) where_from.new }
{
    level_three_compress_canonical::chain_arena_compress_canonical(
        &mut ArenaMut {
            prev,
            next,
            generation,
            payload,
            header,
        },
        reset,
        where_from,
    )
}
