//! What words ask for.

/// How the program was asked to run.
#[derive(Clone, Copy, Debug, PartialEq, Eq)]
pub struct Options {
    /// Whether each refusal is told in words on standard error.
    pub explain: bool,
    /// Whether the requests of the extended form are known too.
    pub extended: bool,
    /// Whether lines are read on after a bad one.
    pub go_on: bool,
    /// How many threads make the calls of a crowd, 1 to 64.
    pub threads: u64,
    /// How many threads solve a step, 1 to 64.
    pub workers: u64,
}

/// Why the program's words give no options.
#[derive(Debug, Drop)]
pub enum Instead {
    /// Help or the version was asked for: its text.
    Text(String),
    /// The words are bad: the text of the fault.
    BadWords(String),
    /// There was no memory to read them.
    NoMemory,
}
