//! How one body moves in a tick: velocity and spin from the momenta, gravity, the speed limit, the move;
//! and the impulses that two bodies give one another along a line.
//!
//! Lengths are in u, times in ticks, masses are whole numbers. A momentum is in mass·u/tick, an angular
//! momentum in mass·u²/tick, a spin is 2^30 times the tangent of the turn of a tick.
#![tactic(auto)]

mod accumulated_impulse;
mod gain;
mod goal;
mod gravity;
mod impulses_64;
mod inverse;
mod limits;
mod line;
mod line_64;
mod mass;
mod motion;
mod ranges;
mod reciprocals;
mod solve;
mod speed_limit;
mod state;
mod travel;
mod velocities_64;
mod warm_start;

pub use gain::{Gain, NOTHING, gain_between, gain_of, plus};
pub use goal::Goal;
pub use gravity::pull;
pub use inverse::{inverse_mass, inverse_reciprocal};
pub use limits::{
    MAX_ANGULAR_MOMENTUM, MAX_GRAVITY, MAX_INERTIA, MAX_INVERSE_MASS, MAX_MASS, MAX_MOMENTUM,
    MAX_SPEED, MIN_INVERSE_MASS, limits_in_digits,
};
pub use line::{Exerted, Line, part_along, parting, speed_along};
pub use line_64::{
    Exerted64, Momenta64, MomentaPair64, momenta_pair_64, solve_line_64, warm_at_once_64,
};
pub use mass::MassData;
pub use motion::{Momenta, Motion, spin, velocity};
pub use reciprocals::{Reciprocals, reciprocals_of};
pub use solve::solve_line;
pub use speed_limit::{clamp_speed, is_slow};
pub use state::{BodyState, Ends, NOBODY, impulse_pair, turned_by};
pub use travel::{advance, advance_inside};
pub use velocities_64::parting_64;
pub use warm_start::{LineImpulse, warm_at_once, warm_line};
