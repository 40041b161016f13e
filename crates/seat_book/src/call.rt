//! What the history is made of.

/// A call that was accepted: which of its seat's calls it is, counted from 1, what was asked, and what was answered.
#[derive(Drop)]
pub struct Call<Command, Reply> {
    pub number: u64,
    pub command: Command,
    pub reply: Reply,
}

/// A call with the seat that made it.
#[derive(Drop)]
pub struct Entry<Command, Reply> {
    pub seat: u64,
    pub call: Call<Command, Reply>,
}
