//! Why lines before the input's end aren't answered.

/// Why lines before the input's end aren't answered.
#[derive(Clone, Copy, Debug, PartialEq, Eq)]
pub enum Stop {
    BadLine,
    NoMemory,
    ReadFailed,
    WriteFailed,
}
