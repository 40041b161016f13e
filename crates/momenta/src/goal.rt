//! What an impulse along a line is to reach.

/// The speed along the line (`bias`, u/tick), by an accumulated impulse that stands at `total` and stays within `low`
/// to `high` (mass·u/tick).
#[derive(Clone, Copy, Debug, PartialEq, Eq)]
pub struct Goal {
    pub bias: i64,
    pub low: i64,
    pub high: i64,
    pub total: i64,
}
