//! Where a call begins to which memory may be refused, and where it has ended.

use std::alloc::Global;
use std::fmt::Write;
use world_core::Refusal;

/// By a request for so many bytes the library that refuses memory knows that the call begins, and by the next size that
/// it has ended.
const BEGIN: usize = 1_234_567;

/// A short text with so much room. It is written by `write!`, so that no compiler does without it.
fn text_with_room(alloc: Global, room: usize) -> Result<String, Refusal> {
    let mut text = String::with_capacity(alloc, room)?;
    write!(text, "{room}")?;
    Ok(text)
}

/// The text by which a call has begun.
#[derive(Drop)]
pub struct CallMark {
    alloc: Global,
    begun: Result<String, Refusal>,
}

/// Whether two texts are there, of the same length.
fn are_there(first: &Result<String, Refusal>, second: &Result<String, Refusal>) -> bool {
    match (first, second) {
        (Ok(first), Ok(second)) => first.len() == second.len(),
        _ => false,
    }
}

impl CallMark {
    /// The call begins.
    pub fn begin(alloc: Global) -> CallMark {
        CallMark {
            alloc,
            begun: text_with_room(alloc, BEGIN),
        }
    }

    /// The call has ended. Answers whether the memory for its marks was there.
    pub fn end(&self) -> bool {
        are_there(&self.begun, &text_with_room(self.alloc, BEGIN + 1))
    }
}
