//! Mass and moment of inertia.

/// The mass of a body that moves, and its moment of inertia about its centre.
///
/// A mass is 1 to 2^20, an inertia 0 to 2^60 (mass·u²). A body of inertia 0 never turns.
#[derive(Clone, Copy, Debug, PartialEq, Eq)]
pub struct MassData {
    pub mass: i64,
    pub inertia: i64,
}
