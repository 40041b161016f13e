//! Why a program ends early.

use std::io;
use world_core::Refusal;

/// Why a program ends early.
#[derive(Clone, Copy)]
pub enum Stop {
    Refused(Refusal),
    /// A line couldn't be written.
    Unwritten,
    /// The words ask for nothing.
    UnknownWords,
}

impl From<Refusal> for Stop {
    fn from(refusal: Refusal) -> Stop {
        Stop::Refused(refusal)
    }
}

impl From<io::Error> for Stop {
    fn from(_error: io::Error) -> Stop {
        Stop::Unwritten
    }
}

/// What is told where a call couldn't be tried: something beside it was refused memory, or anything else.
pub fn word_of_untried(refusal: Refusal) -> &'static str {
    match refusal {
        Refusal::NoMemory => "outside",
        _ => "refused",
    }
}

/// Ends where there is no world to do something in. Where memory may be refused to it, what can't be tried is told.
pub fn end_without<R: Print>(rt: &R, is_try: bool, refusal: Refusal) -> Result<(), Stop> {
    if is_try {
        println!(rt; "{}", word_of_untried(refusal))?;
        return Ok(());
    }
    Err(Stop::Refused(refusal))
}
