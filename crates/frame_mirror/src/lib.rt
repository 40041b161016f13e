//! Frames of a shared world that one publisher shows, and that readers ask without waiting for anybody.
//!
//! What was published is a list of frames, which only grows: its first frame is the one that the mirror was opened
//! with, and each accepted [`Publisher::publish`] adds one. A [`Mark`] names a beginning of that list. A reader answers
//! from one published frame, which is never before its mark, and afterwards its mark covers that frame. So what a
//! reader shows never goes back, and a reader that learns the publisher's mark shows that frame or a later one.
#![tactic(auto)]

mod list;
mod mark;
mod mirror;
mod publisher;
mod reader;
mod slot;
mod source;

pub use left_right::Absorb;
pub use list::Mirrored;
pub use mark::Mark;
pub use mirror::Mirror;
pub use publisher::Publisher;
pub use reader::Reader;
pub use slot::{Change, Showing};
pub use source::FrameSource;
