//! The works that can be done with a mirror.

use crate::mirrors::refused::Call;
use crate::mirrors::untold::READERS;
use crate::shared::RoundWork;

/// How many readers look on threads of their own.
const CROWD: usize = 4;

/// What is done with a mirror.
#[derive(Clone, Copy)]
pub enum MirrorWork {
    /// The worked example, with two readers.
    Example,
    /// Readers that are told nothing, while two frames are published.
    Untold,
    /// Readers on threads of their own.
    Crowd,
    /// One call, while memory may be refused to it.
    Try(Call),
    /// So many poses, and as many thousandths of publications, are timed.
    Time(u64),
    /// So many poses of each of these readers are timed, while frames are published.
    TimeReaders(usize, u64),
    /// The other seats work meanwhile, each on a thread of its own.
    Round(RoundWork),
}

impl MirrorWork {
    /// How many readers it has.
    pub fn readers(self) -> usize {
        match self {
            MirrorWork::Example => 2,
            MirrorWork::Untold => READERS,
            MirrorWork::Crowd => CROWD,
            MirrorWork::Try(_) => 1,
            MirrorWork::Time(_) => 1,
            MirrorWork::TimeReaders(readers, _) => readers,
            MirrorWork::Round(work) => work.readers(),
        }
    }

    /// Whether memory may be refused to the opening of the mirror.
    pub fn tries_open(self) -> bool {
        match self {
            MirrorWork::Try(call) => call == Call::Open,
            _ => false,
        }
    }
}
