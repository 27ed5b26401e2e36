// The words of a case's line.
ghost use Rattle.std.specs.Prelude.{◌≡◌, ◌≤◌, ◌-◌, ◌++◌, length, take, drop, replicate, slice_index_or, IfOk};
ghost use Rattle.replay_cases.specs.Words.{words_left};

use std::alloc::{AllocError, Global};
use std::array;

// How many words of a line are read at most.
const LINE_WORDS: usize = 192;

// How many words a column, a run's commands or the lent slice have at most.
const PART_WORDS: u32 = 64;

// The value with the byte's digit behind it, unless the byte is no digit or the value has over 32 bits then.
fn with_digit(value: u32, byte: u8) -> Option<u32> {
    let digit = char::from(byte).to_digit(10)?;
    value.checked_mul(10)?.checked_add(digit)
}

// The word of what stands between two spaces. What cannot stand behind the value that was read makes it 0, and the digits behind that count anew.
fn word_of(text: &[u8]) -> u32 {
    text.iter()
        .filter(|byte| **byte != b' ')
        .fold(0, |value, byte| with_digit(value, *byte).unwrap_or(0))
}

// Reads the words of a line into the vector lent. The last that is read has all digits up to the line's end, with no regard to spaces.
pub fn read_words(words: &mut Vec<u32>, line: &[u8]) -> Result<(), AllocError> {
    words.clear();
    words.extend(line.splitn(LINE_WORDS, |byte| *byte == b' ').map(word_of))
}

// The words of a line that are not read yet.
#[derive(Clone, Copy)]
pub struct Words<'a> {
    rest: &'a [u32],
}

impl<'a> Words<'a> {
    // All of these words.
    pub fn new(words: &'a [u32]) -> Words<'a>
        ensures { words_left result ≡ words.now }
    {
        Words { rest: words }
    }

    // The next word, 0 behind the last.
    pub fn word(&mut self) -> u32
        ensures read { result ≡ slice_index_or (words_left self.old) 0 0 }
        ensures left { words_left self.new ≡ drop 1 (words_left self.old) }
    {
        let Some((word, rest)) = self.rest.split_first() else {
            return 0;
        };
        self.rest = rest;
        *word
    }

    // The next word as a number of words.
    pub fn count(&mut self) -> usize
        ensures bounded { result ≤ 64 }
        ensures read { slice_index_or (words_left self.old) 0 0 ≤ 64 → result ≡ slice_index_or (words_left self.old) 0 0 }
        ensures most { 64 ≤ slice_index_or (words_left self.old) 0 0 → result ≡ 64 }
        ensures left { words_left self.new ≡ drop 1 (words_left self.old) }
    {
        self.word().min(PART_WORDS) as usize
    }

    // The next n words, 0 behind the last.
    pub fn part(&mut self, alloc: Global, n: usize) -> Result<Vec<u32>, AllocError>
        ensures words { IfOk result (λ part. part.items ≡ take n (words_left self.old) ++ replicate (n - length (words_left self.old)) 0) }
        ensures count { IfOk result (λ part. length part.items ≡ n) }
        ensures left { words_left self.new ≡ drop n (words_left self.old) }
    {
        let (part, left) = self.rest.split_at(n.min(self.rest.len()));
        self.rest = left;
        let mut words = part.to_vec(alloc)?;
        words.resize(n, 0)?;
        Ok(words)
    }

    // The words at the next N places, 0 behind the last; they stay to be read.
    pub fn ahead<const N: usize>(self) -> [u32; N] {
        let rest = self.rest;
        array::from_fn(|i| rest.get(i).copied().unwrap_or(0))
    }
}
