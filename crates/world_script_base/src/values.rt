//! The values of a line's keys.

use crate::faults::Fault;
use fixed_geom::Vec2;

/// What a value is, as far as a request can have it. Shapes and requests stand beside the values, in the lists of their
/// own.
#[derive(Clone, Copy)]
pub(crate) enum Content<'a> {
    /// A whole number that 64 bits hold, with a sign or without.
    Whole(i128),
    Text(&'a str),
    Truth(bool),
    /// A list of two whole numbers of 64 bits.
    Vector(Vec2),
    /// A list of two such lists.
    Ends(Vec2, Vec2),
    /// A list of shapes.
    Shapes,
    /// A list of objects.
    Each,
    /// The text of any JSON value.
    Json(&'a str),
    /// A list in which something is wrong.
    Faulty(Fault<'a>),
    /// Anything else.
    Other,
}

/// The value of a key.
#[derive(Clone, Copy)]
pub(crate) struct Value<'a> {
    pub(crate) key: &'a str,
    pub(crate) content: Content<'a>,
}
