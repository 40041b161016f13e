//! Why the game ends early.

use std::{fmt, io};
use world_core::Refusal;

/// Why the game ends early.
#[derive(Debug, Drop)]
pub enum Stop {
    /// The world refused something that the game doesn't reckon with.
    Refused(Refusal),
    /// A command was accepted with the answer to another one.
    Unexpected,
    /// A line couldn't be written.
    Unwritten(io::Error),
}

impl From<Refusal> for Stop {
    fn from(refusal: Refusal) -> Stop {
        Stop::Refused(refusal)
    }
}

impl From<io::Error> for Stop {
    fn from(error: io::Error) -> Stop {
        Stop::Unwritten(error)
    }
}

impl fmt::Display for Stop {
    fn fmt<W: fmt::Write>(&self, f: &mut fmt::Formatter<W>) -> fmt::Result {
        match self {
            Stop::Refused(refusal) => write!(f, "the world refused: {refusal}"),
            Stop::Unexpected => f.write_str("the world gave an answer to another command"),
            Stop::Unwritten(error) => write!(f, "not written: {error}"),
        }
    }
}
