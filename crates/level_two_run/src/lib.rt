// Level Two, many edits in one call, as a host calls it through level_two_c.
#![tactic(auto, using(answers::proofs::Exports::replies_refused, answers::proofs::Exports::replies_passed, well_formed::proofs::WellFormed::well_formed_if_passes), unfolding(definitions::specs::Calls::accepted))]

ghost use Rattle.std.specs.Prelude.{◌≡◌, []};
ghost use Rattle.definitions.specs.Arena.{capacity_limit, largest_generation};
ghost use Rattle.definitions.specs.Calls.{Run, reply_to};
ghost use Rattle.lent.specs.Arenas.{held_in, SameBuffers};
ghost use Rattle.refusals.specs.Refusal.{no_words, result_reply};
ghost use Rattle.answers.specs.Answered.{Answered};

use answers::Answer;
use chain_arena::check;
use chain_run::run;
use lent::ArenaMut;
use refusals::Refusal;

// The run, on an arena that passes the check.
fn checked_run(
    arena: &mut ArenaMut<'_>,
    commands: &[u32],
    answers: &mut [u32],
) -> Result<(), Refusal>
    ensures lent { SameBuffers arena.old arena.new }
    ensures replied { result_reply no_words 0 result (held_in arena.new) answers.new
        ≡ reply_to capacity_limit largest_generation (Run commands.now) (held_in arena.old) answers.old }
{
    check(arena.lent())?;
    run(arena, commands, answers)
}

// Runs the commands, six words each, and writes an answer word for each: 0, 100, 12, 13, 16, 17 or 18 (REFERENCE, Run).
pub fn chain_arena_run(arena: &mut ArenaMut<'_>, commands: &[u32], answers: &mut [u32]) -> Answer
    ensures lent { SameBuffers arena.old arena.new }
    ensures answered { Answered (Run commands.now) (held_in arena.old) answers.old result [] (held_in arena.new) answers.new }
{
    Answer::from(checked_run(arena, commands, answers))
}
