// The line of an answer.
use answers::Answer;
use std::fmt;

// What a program answers to a call that it does not make: a number that no call answers.
pub const NO_CALL: Answer = Answer {
    number: 999,
    broken: 0,
    side: 0,
};

// The words of an answer's line.
#[derive(Drop)]
pub struct Reply {
    pub words: Vec<u32>,
}

impl fmt::Display for Reply {
    fn fmt<W: fmt::Write>(&self, f: &mut fmt::Formatter<W>) -> fmt::Result {
        let mut words = self.words.iter();
        if let Some(word) = words.next() {
            write!(f, "{word}")?;
        }
        for word in words {
            write!(f, " {word}")?;
        }
        Ok(())
    }
}
