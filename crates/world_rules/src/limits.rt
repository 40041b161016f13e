//! How far a world can be brought.

/// How many calls a world accepts.
pub const MAX_CALLS: u64 = 1 << 40;

/// The most ticks of a step.
pub const MAX_TICKS: i64 = 8;
