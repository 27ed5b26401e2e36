// A case: its call, the arena, the arguments and the lent slice, as its line has them.
ghost use Rattle.std.specs.Prelude.{◌≡◌, ◌+◌, ◌∷◌, ◌++◌, ◌≢◌, IfOk, MatchOption, slice_index_or};
ghost use Rattle.std.specs.Borrow.{sem};
ghost use Rattle.definitions.specs.Read.{pointer};
ghost use Rattle.lent.specs.Arenas.{lent_of, held_in, links_of, header_of};
ghost use Rattle.ptr.specs.Pointers.{pointer_of};
ghost use Rattle.replay_cases.specs.Lending.{LendsHeader};
ghost use Rattle.replay_cases.specs.Owned.{owned_in, Fits};

use crate::calls::Call;
use crate::replies::Reply;
use crate::words::Words;
use answers::Answer;
use lent::{ArenaMut, HeaderMut, LentArena, LinksMut};
use ptr::Ptr;
use std::alloc::{AllocError, Global};

// How many words a header has.
const HEADER_WORDS: usize = 4;

// The columns and the header of a case.
#[derive(Drop)]
pub struct OwnedArena {
    prev: Vec<u32>,
    next: Vec<u32>,
    generation: Vec<u32>,
    payload: Vec<u32>,
    header: Vec<u32>,
}

impl OwnedArena {
    // This arena, lent to be read.
    pub fn lent(&self) -> LentArena<'_>
        ensures { lent_of result ≡ owned_in self.now }
    {
        LentArena {
            prev: &self.prev,
            next: &self.next,
            generation: &self.generation,
            payload: &self.payload,
            header: &self.header,
        }
    }

    // This arena, lent to be written.
    pub fn lent_mut(&mut self) -> ArenaMut<'_>
        ensures { held_in result ≡ owned_in self.old }
    {
        ArenaMut {
            prev: &mut self.prev,
            next: &mut self.next,
            generation: &mut self.generation,
            payload: &mut self.payload,
            header: &mut self.header,
        }
    }

    // This arena, with its link columns lent to be written.
    pub fn links_mut(&mut self) -> LinksMut<'_>
        ensures { links_of result ≡ owned_in self.old }
    {
        LinksMut {
            prev: &mut self.prev,
            next: &mut self.next,
            generation: &self.generation,
            payload: &self.payload,
            header: &self.header,
        }
    }

    // This arena, with its header lent to be written. What is written there is in this arena afterwards.
    pub fn header_mut(&mut self) -> HeaderMut<'_>
        ensures lent { header_of result ≡ owned_in self.old }
        ensures* writes_back { sem 𝓛 (LendsHeader self.entry result) }
    {
        HeaderMut {
            prev: &self.prev,
            next: &self.next,
            generation: &self.generation,
            payload: &self.payload,
            header: &mut self.header,
        }
    }
}

// How many argument words a call has at most: those of an insertion.
const ARGUMENT_WORDS: usize = 6;

// The argument words of a case, with what stands behind them in its line where there are fewer.
#[derive(Clone, Copy)]
pub struct Arguments {
    pub words: [u32; ARGUMENT_WORDS],
}

impl Arguments {
    // The word at a place, 0 behind the last.
    pub fn word(&self, i: usize) -> u32
        ensures { result ≡ slice_index_or self.now.words i 0 }
    {
        self.words.get(i).copied().unwrap_or(0)
    }

    // The pointer whose slot is the word at a place and whose generation is the one behind it.
    pub fn pointer(&self, i: usize) -> Ptr
        ensures { pointer_of result ≡ pointer (slice_index_or self.now.words i 0) (slice_index_or self.now.words (i + 1) 0) }
    {
        Ptr::new(self.word(i), self.word(i.saturating_add(1)))
    }
}

// A case. It has no call if no call has its code.
#[derive(Drop)]
pub struct Case {
    pub call: Option<Call>,
    pub arena: OwnedArena,
    pub arguments: Arguments,
    // The argument words as a run's commands, as many as their number says.
    pub commands: Vec<u32>,
    pub lent: Vec<u32>,
    alloc: Global,
}

impl Case {
    // The case of a line with these words, if its code is not 0.
    pub(crate) fn parse(alloc: Global, words: &[u32]) -> Result<Option<Case>, AllocError>
        ensures { IfOk result (λ found. MatchOption found (slice_index_or words.now 0 0 ≡ 0) (λ c. (slice_index_or words.now 0 0 ≢ 0) × Fits c)) }
    {
        let mut words = Words::new(words);
        let code = words.word();
        if code == 0 {
            return Ok(None);
        }
        let slots = words.count();
        let shape = words.word();
        let arena = OwnedArena {
            prev: words.part(alloc, slots)?,
            next: words.part(alloc, slots)?,
            generation: words.part(alloc, slots)?,
            payload: words.part(alloc, slots)?,
            header: words.part(alloc, HEADER_WORDS)?,
        };
        let argument_words = words.count();
        let arguments = Arguments {
            words: words.ahead(),
        };
        let commands = words.part(alloc, argument_words)?;
        let lent_words = words.count();
        let mut case = Case {
            call: Call::try_from(code).ok(),
            arena,
            arguments,
            commands,
            lent: words.part(alloc, lent_words)?,
            alloc,
        };
        case.cut(shape);
        Ok(Some(case))
    }

    // Takes the last word of the part that a shape names.
    fn cut(&mut self, shape: u32)
        requires { Fits self.old }
        ensures { Fits self.new }
    {
        match shape {
            1 => self.arena.prev.pop(),
            2 => self.arena.next.pop(),
            3 => self.arena.generation.pop(),
            4 => self.arena.payload.pop(),
            5 => self.arena.header.pop(),
            6 => self.commands.pop(),
            7 => self.lent.pop(),
            _ => None,
        };
    }

    // The line of a call: its answer, its further fields, the words that it was lent beside the arena, and the arena as it left it.
    fn line<'a>(
        &'a self,
        answer: Answer,
        fields: &'a [u32],
        lent: &'a [u32],
    ) -> Result<Reply, AllocError>
        ensures { IfOk result (λ r. r.words.items ≡ answer.number ∷ answer.broken ∷ answer.side ∷ (fields.now ++ (lent.now ++ (self.now.arena.prev.items
            ++ (self.now.arena.next.items ++ (self.now.arena.generation.items ++ (self.now.arena.payload.items ++ self.now.arena.header.items))))))) }
    {
        let head = [answer.number, answer.broken, answer.side];
        let arena = self.arena.lent();
        let words = [
            head.as_slice(),
            fields,
            lent,
            arena.prev,
            arena.next,
            arena.generation,
            arena.payload,
            arena.header,
        ]
        .concat(self.alloc)?;
        Ok(Reply { words })
    }

    // The reply of a call that takes the arena alone.
    pub fn reply(&self, answer: Answer, fields: &[u32]) -> Result<Reply, AllocError>
        ensures { IfOk result (λ r. r.words.items ≡ answer.number ∷ answer.broken ∷ answer.side ∷ (fields.now ++ (self.now.arena.prev.items
            ++ (self.now.arena.next.items ++ (self.now.arena.generation.items ++ (self.now.arena.payload.items ++ self.now.arena.header.items)))))) }
    {
        self.line(answer, fields, &[])
    }

    // The reply of a call that takes the lent slice too.
    pub fn reply_lent(&self, answer: Answer, fields: &[u32]) -> Result<Reply, AllocError>
        ensures { IfOk result (λ r. r.words.items ≡ answer.number ∷ answer.broken ∷ answer.side ∷ (fields.now ++ (self.now.lent.items ++ (self.now.arena.prev.items
            ++ (self.now.arena.next.items ++ (self.now.arena.generation.items ++ (self.now.arena.payload.items ++ self.now.arena.header.items))))))) }
    {
        self.line(answer, fields, self.lent.as_slice())
    }

    // The reply of a call that takes no arena.
    pub fn reply_alone(&self, words: &[u32]) -> Result<Reply, AllocError>
        ensures { IfOk result (λ r. r.words.items ≡ words.now) }
    {
        Ok(Reply {
            words: words.to_vec(self.alloc)?,
        })
    }
}
