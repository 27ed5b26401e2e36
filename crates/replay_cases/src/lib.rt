// What the programs replay_read, replay_clock, replay_edits, replay_insert, replay_removal, replay_run and replay_compress share. Each replays stored answers of the crate
// triple_arena 0.15.1 through some of the exported calls, so that every run of the gate compares with the crate, with no Rust at hand.
//
// A program's file stdin holds its cases, one a line of decimal numbers with a space between them: the call's code; the number of slots; the shape; the
// columns prev, next, generation and payload; the header; then the argument words and the words of the lent slice, each behind their number. From the
// columns on these are the parts 1 to 7; the shape is the number of a part of which one word fewer is lent, else 0. Of the argument words a run's commands
// alone are lent. Its file stdout holds the answers, a line for each: the number; the broken slot and its side; the further fields; then the lent slice if
// the call takes one, and the columns and the header as the call left them. A call that takes no arena has no slots and a header of zeros in its case, and
// its answer is the number and the further fields alone.
//
// The tests of oracle/src/bin/record.rs hold each stored line to that form, and a program does not check it: a word that is not there is 0, one that is no
// number is read all the same (words.rt), and a part has 64 words at most. A code with no call in the program gives 999 0 0, in replay_read and
// replay_edits with the arena behind it, in the others with no end of its line. A program ends with its input, at the code 0, at a line with over 4,096
// bytes or no end, or after 65,536 cases.
//
// Both files were made by `cargo run --release -p oracle --bin record` from the crate's own text and, where it has no answer, from the model in
// oracle/src/model.rs; not by these programs. oracle/src/bin/record.rs says which cases it takes, and which program gets the cases of a call.
//
// Here are the text of a line, its parts, the text of an answer, and the loop over the cases; no exported call. Where a read, a write or memory fails, the
// error is returned, and the program ends with it.
#![tactic(auto)]

mod calls;
mod cases;
mod replies;
mod words;

use crate::words::read_words;
pub use calls::{Call, UnknownCode};
pub use cases::{Arguments, Case, OwnedArena};
pub use replies::{NO_CALL, Reply};
use std::alloc::{AllocError, Global};
use std::io;
use std::io::{BufRead, BufReader, BufWriter, Read, Write};

// How many cases a program replays at most.
const MOST_CASES: usize = 65536;

// How many bytes a case's line has at most, its end among them.
const LONGEST_LINE: u64 = 4096;

// The case of the next line. There is none if the line is too long, has no end or has the code 0. The line and its words are read into the vectors lent, so that
// a line needs no memory of its own.
fn next_case<R: BufRead>(
    alloc: Global,
    input: &mut R,
    line: &mut Vec<u8>,
    words: &mut Vec<u32>,
) -> io::Result<Option<Case>> {
    line.clear();
    input.by_ref().take(LONGEST_LINE).read_until(b'\n', line)?;
    let Some(line) = line.as_slice().strip_suffix(b"\n") else {
        return Ok(None);
    };
    read_words(words, line)?;
    Ok(Case::parse(alloc, words.as_slice())?)
}

// Writes a reply, ends its line and hands on what was written. Where there is none, no line is ended, and the next reply stands right behind.
fn write_reply<W: Write>(out: &mut W, reply: Option<Reply>) -> io::Result<()> {
    match reply {
        Some(reply) => {
            writeln!(out, "{reply}")?;
            out.flush()
        }
        None => write!(
            out,
            "{} {} {}",
            NO_CALL.number, NO_CALL.broken, NO_CALL.side
        ),
    }
}

// Replays the cases of standard input. What is passed makes the call of a case, and gives no reply if it is none of its calls. A reply is handed on as soon
// as its line is whole.
pub fn replay_all<R, F>(rt: &R, mut replay: F) -> io::Result<()>
where
    R: Input + Print + AllocGlobal,
    F: FnMut(&mut Case) -> Result<Option<Reply>, AllocError>,
    requires { F.IsAlwaysCallable replay }
{
    let alloc = rt.alloc();
    let mut input = BufReader::new(alloc, rt.reader())?;
    let mut out = BufWriter::new(alloc, io::writer(rt))?;
    let mut line = Vec::new(alloc);
    let mut words = Vec::new(alloc);
    for _ in 0..MOST_CASES {
        let Some(mut case) = next_case(alloc, &mut input, &mut line, &mut words)? else {
            break;
        };
        write_reply(&mut out, replay(&mut case)?)?;
    }
    out.flush()
}
