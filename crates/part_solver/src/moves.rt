//! Moves of bodies between parts.

/// A body moves from one part to another.
#[derive(Clone, Copy)]
pub(crate) struct BodyMove {
    pub(crate) slot: u32,
    pub(crate) from: u32,
    pub(crate) to: u32,
}
