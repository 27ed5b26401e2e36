// The commands of a run, and one of them applied to an arena that passed the check (REFERENCE, Run).
#![tactic(auto)]

ghost use Rattle.std.specs.Prelude.{◌≡◌, ◌+◌, ◌*◌, ◌<◌, ◌≤◌, ℕ, List, [], length};
ghost use Rattle.definitions.specs.Arena.{Arena, capacity_limit, largest_generation, arena};
ghost use Rattle.definitions.specs.Check.{WellFormed};
ghost use Rattle.definitions.specs.Run.{command_words, command_at, apply};
ghost use Rattle.lent.specs.Arenas.{held_in, SameBuffers};
ghost use Rattle.links.specs.Links.{removal_reply};
ghost use Rattle.refusals.specs.Refusal.{no_words, result_reply};
ghost use Rattle.chain_commands.specs.Commands.{command_of, Applied, command_number};

use chain_edits::{break_side, connect, exchange_next};
use chain_insertion::insert_coded;
use chain_removal::remove;
use lent::{ArenaMut, LinksMut};
use links::InvalidationResult;
use ptr::{InvalidationOption, Ptr};
use refusals::Refusal;

// The number of words of a command.
pub const COMMAND_WORDS: usize = 6;

// A command: what to do, by its code, two pointers and a payload (REFERENCE, Run). The code is a number up to the call that it stands for: an enum that
// is made of each command and taken apart again is slower than a removal is.
#[derive(Clone, Copy)]
pub struct Command {
    pub code: u32,
    pub first: Ptr,
    pub second: Ptr,
    pub payload: u32,
}

// Command i, from 0, of the words.
pub fn command_at(commands: &[u32], i: usize) -> Command
    requires { command_words * i + command_words ≤ length commands.now }
    ensures { command_of result ≡ command_at commands.now i }
{
    let w = COMMAND_WORDS * i;
    Command {
        code: commands[w],
        first: Ptr::new(commands[w + 1], commands[w + 2]),
        second: Ptr::new(commands[w + 3], commands[w + 4]),
        payload: commands[w + 5],
    }
}

// One edit of interlinks, by its code.
fn apply_edit(
    prev: &mut [u32],
    next: &mut [u32],
    generation: &mut [u32],
    payload: &mut [u32],
    header: &mut [u32],
    c: Command,
) -> Result<(), Refusal>
    requires well_formed { WellFormed capacity_limit (arena prev.old next.old generation.old payload.old header.old) }
    requires edit { (0 < c.code) × (c.code < 5) }
    ensures { (top : ℕ) → result_reply no_words 0 result (arena prev.new next.new generation.new payload.new header.new) []
        ≡ apply top (arena prev.old next.old generation.old payload.old header.old) (command_of c) }
{
    let mut links = LinksMut {
        prev: prev,
        next: next,
        generation: &*generation,
        payload: &*payload,
        header: &*header,
    };
    // By size, since a jump through a table of all codes costs more than the edits do.
    if c.code < 2 {
        connect(&mut links, c.first, c.second)
    } else if c.code < 4 {
        let after = c.code == 3;
        break_side(&mut links, c.first, after)
    } else {
        exchange_next(&mut links, c.first, c.second)
    }
}

// What a command that removes a link answers.
fn removal_done(removed: InvalidationResult) -> Result<InvalidationOption, Refusal>
    ensures { (a : Arena) (l : List ℕ) → command_number result ≡ (removal_reply removed a l).number }
{
    match removed {
        InvalidationResult::Success(_) => Ok(InvalidationOption::Success),
        InvalidationResult::GenerationOverflow(_) => Ok(InvalidationOption::GenerationOverflow),
        InvalidationResult::InvalidPtr => Err(Refusal::StalePointer),
    }
}

// One command.
pub fn apply(arena: &mut ArenaMut<'_>, c: Command) -> Result<InvalidationOption, Refusal>
    requires { WellFormed capacity_limit (held_in arena.old) }
    ensures lent { SameBuffers arena.old arena.new }
    ensures applied { Applied largest_generation (held_in arena.old) (command_of c) (command_number result) (held_in arena.new) }
{
    if c.code == 0 {
        return Err(Refusal::Command);
    }
    if c.code < 5 {
        apply_edit(
            arena.prev,
            arena.next,
            arena.generation,
            arena.payload,
            arena.header,
            c,
        )?;
        return Ok(InvalidationOption::Success);
    }
    if c.code == 5 {
        return removal_done(remove(arena, c.first));
    }
    insert_coded(arena, c.code, c.first, c.second, c.payload)?;
    Ok(InvalidationOption::Success)
}
