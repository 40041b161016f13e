//! One joint in a step: what stays for the whole step, computed once (`JointRow`), and the impulses that its two bodies
//! give one another in a warm start and in a solver pass.
//!
//! A joint holds a point of one body at a fixed distance from a point of another, as Box2D's distance joint does
//! without spring, limits and motor. It is solved as its contacts are, by Erin Catto's sequential impulses (GDC 2006):
//! one accumulated and clamped impulse with a warm start, and a bias velocity that takes the error away.
#![tactic(auto)]

mod centres_64;
mod joint;
mod laws;
mod limits;
mod row;
mod row_64;
mod solve;

pub use centres_64::{MomentumPair, Pushed64, solve_centres_64, warm_centres_64};
pub use joint::Joint;
pub use laws::rows_are_joints;
pub use limits::{
    MAX_ANCHOR, MAX_JOINT_BIAS, MAX_JOINT_IMPULSE, MAX_JOINT_LENGTH, MAX_STRETCH, limits_in_digits,
};
pub use row::{JointBodies, JointRow, joint_row};
pub use row_64::{solve_joint_64, warm_joint_64};
pub use solve::{JointAfter, has_no_impulse, solve_joint, warm_joint};
