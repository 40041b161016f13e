//! Whole numbers in the plane: rounded quotients and roots, vectors, facings and boxes, and the
//! reasons for which the world refuses a call.
//!
//! A length is a whole number of u (1,048,576 u are a metre). A unit vector and a facing are
//! times 2^30. A product is exact in 128 bits, and nothing wraps: each range is a condition.
//!
//! # Forms in 64 bits
//!
//! A function's name says what is computed, of numbers of any size that its conditions allow. Where a form of it in 64
//! bits is worth its proof, that has the suffix `_64` and the same definition for its result: it spares the carries
//! between two registers, and a division of 128 bits is a call. Where a function tests which of two forms will do, the
//! other has the suffix `_128`. The crates above keep to the same rule.
//!
//! | Function | Its form in 64 bits | Of what |
//! |---|---|---|
//! | `dot`, `cross` | `dot_64`, `cross_64` | components up to 2^31 and 2^30: a velocity or a way with a direction |
//! | `scaled` | `scaled_64` | a number up to 2^32 by a part of a direction |
//! | `rdiv_unit` | `rdiv_unit_64` | what a product of these leaves, up to 2^62 |
//! | `rotate` | `rotate_64` | components up to 2^30: a point of a shape, from its body's centre |
//! | `moved` | `moved_64` | a length up to 2^32 along a unit vector, or a share of a way up to 2^30 |
//! | `rdiv` | `rdiv_64` | any i64 but the least: a momentum by a mass |
//! | `share` | `share_64`, inside | wholes below 2^31, with the inverse of the whole: the two parts of a unit vector |
//! | `span`, `unit_along` | `span_64`, `unit_along_64`, inside | components up to 2^31, whose squares have room |
#![tactic(auto)]

mod boxes;
mod facings;
mod inverses;
mod limits;
mod products;
mod products_64;
mod quotients;
mod reciprocals;
mod refusal;
mod roots;
mod shares_64;
mod sure_quotients;
mod vectors;

pub use boxes::{Box2, contains, grow, overlaps};
pub use facings::{MAX_FACING, MIN_FACING, Rot, is_facing, rotate, rotate_64, turn};
pub use limits::{
    MAX_CORNER, MAX_LINE_IMPULSE, MAX_NORMAL_IMPULSE, MAX_OFFSET, MAX_POSITION, MAX_SPIN,
    limits_in_digits,
};
pub use products::{difference_of_products, product, scaled, sum_of_products};
pub use products_64::{cross_64, dot_64, rdiv_unit_64, scaled_64};
pub use quotients::{fdiv, rdiv, rdiv_64, rdiv_unit, share};
pub use reciprocals::{
    inverse_by, over_inverse_by, over_inverse_reciprocal, quotient_40_by, rdiv_by, rdiv_reciprocal,
    share_by, share_reciprocal,
};
pub use refusal::Refusal;
pub use roots::isqrt;
pub use vectors::{
    UNIT, Vec2, ZERO_VECTOR, cross, dot, is_within, minus, moved, moved_64, opposite, plus, span,
    unit, unit_along,
};
