// A run of edits on an arena that passed the check.
#![tactic(auto)]

ghost use Rattle.std.specs.Prelude.{◌≡◌, ◌/◌, ◌+◌, ◌*◌, ◌≤◌, length};
ghost use Rattle.definitions.specs.Arena.{capacity_limit, largest_generation};
ghost use Rattle.definitions.specs.Check.{WellFormed};
ghost use Rattle.definitions.specs.Run.{command_words, command_at, run};
ghost use Rattle.lent.specs.Arenas.{held_in, SameBuffers};
ghost use Rattle.chain_commands.specs.Commands.{Applied, command_number};
ghost use Rattle.refusals.specs.Refusal.{no_words, result_reply};
ghost use Rattle.chain_run.specs.Ran.{AllApplied};

use chain_commands::{COMMAND_WORDS, apply, command_at};
use lent::ArenaMut;
use ptr::InvalidationOption;
use refusals::Refusal;

// Applies command i, from 0, of the words.
fn apply_at(
    arena: &mut ArenaMut<'_>,
    commands: &[u32],
    i: usize,
) -> Result<InvalidationOption, Refusal>
    requires well_formed { WellFormed capacity_limit (held_in arena.old) }
    requires whole { command_words * i + command_words ≤ length commands.now }
    ensures lent { SameBuffers arena.old arena.new }
    ensures applied { Applied largest_generation (held_in arena.old) (command_at commands.now i) (command_number result) (held_in arena.new) }
{
    apply(arena, command_at(commands, i))
}

// The answer word of a command (REFERENCE, Run).
fn answer_word(done: Result<InvalidationOption, Refusal>) -> u32
    ensures { result ≡ command_number done }
{
    match done {
        Ok(option) => option.number(),
        Err(refusal) => refusal.number(),
    }
}

// Applies the commands one after the other, and writes an answer for each.
pub fn apply_all(arena: &mut ArenaMut<'_>, commands: &[u32], answers: &mut [u32])
    requires well_formed { WellFormed capacity_limit (held_in arena.old) }
    requires room { length commands.now / command_words ≤ length answers.old }
    ensures lent { SameBuffers arena.old arena.new }
    ensures applied { AllApplied largest_generation (held_in arena.old) commands.now answers.old (held_in arena.new) answers.new }
{
    let n = commands.len() / COMMAND_WORDS;
    for (i, answer) in answers[..n].iter_mut().enumerate() {
        *answer = answer_word(apply_at(arena, commands, i));
    }
}

// Runs the commands, if they are whole and there is an answer word for each.
#[tactic(auto, using(crate::proofs::Going::ran), unfolding(definitions::specs::Run::run))]
pub fn run(arena: &mut ArenaMut<'_>, commands: &[u32], answers: &mut [u32]) -> Result<(), Refusal>
    requires { WellFormed capacity_limit (held_in arena.old) }
    ensures lent { SameBuffers arena.old arena.new }
    ensures ran { result_reply no_words 0 result (held_in arena.new) answers.new ≡ run largest_generation (held_in arena.old) commands.now answers.old }
{
    if commands.len() % COMMAND_WORDS != 0 {
        return Err(Refusal::Command);
    }
    if answers.len() < commands.len() / COMMAND_WORDS {
        return Err(Refusal::SliceLength);
    }
    apply_all(arena, commands, answers);
    Ok(())
}
