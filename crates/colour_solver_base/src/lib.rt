//! One contact in a step: what stays for the whole step, computed once (`ContactRow`), and the impulses that
//! its two bodies give one another in a warm start, in a solver pass and at restitution.
//!
//! The solver is that of Erin Catto's sequential impulses (GDC 2006): accumulated and clamped impulses with a warm
//! start, a bias velocity beyond a slop, and sub-steps, here with whole numbers.
#![tactic(auto)]

mod friction;
mod laws;
mod limits;
mod overlap;
mod restitution;
mod row;
mod row_64;
mod solve;
mod warm_start;
mod warm_start_64;

pub use laws::rows_are_contacts;
pub use limits::{BOUNCE_SPEED, MAX_BIAS, SLOP, limits_in_digits};
pub use restitution::{bounce_row, never_bounces};
pub use row::{Bodies, ContactRow, PointRow, contact_row};
pub use row_64::{PointImpulses, RowAfter64, solve_row_64};
pub use solve::{PointAfter, solve_row};
pub use warm_start::{has_no_impulses, warm_row};
pub use warm_start_64::warm_row_64;
