// The answer to a line, and what keeps a line from being answered.
use refusal::Refusal;
use std::alloc::{AllocError, Global};
use std::fmt;
use thiserror::Error;

/// What a line comes to.
#[derive(Drop)]
pub enum Answer {
    /// It was done, and there is nothing to tell.
    Done,
    /// The call was refused, in these words, and changed nothing.
    Refused(Refusal, String),
    /// What no call may write was written.
    Overwritten,
    /// Numbers.
    Numbers(Vec<u32>),
    /// A word.
    Word(&'static str),
    /// Words that a fault says.
    Words(String),
}

impl fmt::Display for Answer {
    fn fmt<W: fmt::Write>(&self, f: &mut fmt::Formatter<W>) -> fmt::Result {
        match self {
            Answer::Done => write!(f, "done"),
            Answer::Refused(refusal, words) => {
                let (number, layer) = (refusal.reason.number(), refusal.layer.number());
                let row = refusal.row;
                let words = words.as_str();
                write!(f, "refused {number} {layer} {row}: {words}")
            }
            Answer::Overwritten => write!(f, "overwritten"),
            Answer::Numbers(numbers) => {
                for (place, number) in numbers.iter().enumerate() {
                    let blank = if place == 0 { "" } else { " " };
                    write!(f, "{blank}{number}")?;
                }
                Ok(())
            }
            Answer::Word(word) => write!(f, "{word}"),
            Answer::Words(words) => write!(f, "{words}"),
        }
    }
}

impl Answer {
    /// These numbers.
    pub fn numbers(heap: Global, numbers: &[u32]) -> Result<Answer, Fault> {
        Ok(Answer::Numbers(numbers.to_vec(heap)?))
    }

    /// The answer that a call was refused, if it changed nothing.
    pub fn refused<F: Copy + fmt::Display>(
        heap: Global,
        fault: F,
        is_unchanged: bool,
    ) -> Result<Answer, Fault>
    where
        Refusal: From<F>,
    {
        if !is_unchanged {
            return Ok(Answer::Overwritten);
        }
        let words = format!(in heap; "{fault}")?;
        Ok(Answer::Refused(Refusal::from(fault), words))
    }
}

/// Why a line is not answered.
#[derive(Clone, Copy, Debug, Error)]
pub enum Fault {
    #[error("this is no line, or it does not fit here")]
    BadLine,
    #[error("out of memory")]
    NoMemory(#[from(alloc)] AllocError),
}
