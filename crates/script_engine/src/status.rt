//! How a run of the program ended, as its exit status.

/// How a run of the program ended.
#[derive(Clone, Copy, Debug, PartialEq, Eq)]
pub enum Status {
    /// The input ended, or help was printed.
    Ended,
    /// A line was no request.
    BadLine,
    /// The program's words ask for nothing that it does.
    BadWords,
    /// There was no memory for the words, a line or an answer.
    NoMemory,
    /// A read or a write failed.
    Failed,
}

impl Status {
    /// The status that the process ends with.
    pub fn code(self) -> u8 {
        match self {
            Status::Ended => 0,
            Status::BadLine => 1,
            Status::BadWords => 2,
            Status::NoMemory => 3,
            Status::Failed => 4,
        }
    }
}
