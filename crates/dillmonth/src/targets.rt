//! The course that leads a kinematic body to a pose in so many ticks: numbers alone, with no world.

ghost use Rattle.std.specs.Prelude.{◌≡◌, ◌+◌, ◌≤◌, ◌^◌, IfSome, IsTrue, pos, ◌+ℤ◌, ◌-ℤ◌, ◌*ℤ◌, ◌<ℤ◌, unsigned_abs};
ghost use Rattle.std.specs.Option.{option_copied};
ghost use Rattle.fixed_geom.specs.Facings.{IsFacing, direction};
ghost use Rattle.fixed_geom.specs.Numbers.{rdiv};
ghost use Rattle.fixed_geom.specs.Vectors.{IsWithin, unit_length};
ghost use Rattle.momenta.specs.Motions.{limited};
ghost use Rattle.plain_world.specs.Bodies.{IsBody};
ghost use Rattle.dillmonth.specs.Motions.{IsTarget, by_square, corrected, course_between, course_from, course_to, is_sharp, is_target, made_up, missed, spin_between, spin_to, turned};

use fixed_geom::{
    MAX_POSITION, MAX_SPIN, Rot, UNIT, Vec2, cross, dot, is_facing, is_within, rdiv, rdiv_64,
    scaled, turn,
};
use momenta::{MAX_SPEED, Motion};
use plain_world::{Body, Course};
use shapes::Pose;
use world_rules::MAX_TICKS;

/// A spin that is refused.
const BEYOND_SPIN: i64 = MAX_SPIN + 1;

/// A course that is refused.
const NO_WAY: Course = Course {
    velocity: Vec2 {
        x: MAX_SPEED + 1,
        y: 0,
    },
    spin: 0,
};

/// A spin: one that is beyond its limit stays beyond it, so that it is refused.
fn spin_part(spin: i128) -> i64
    ensures value { result ≡ limited (2 ^ 28 + 1) spin }
    ensures size { unsigned_abs result ≤ 2 ^ 28 + 1 }
{
    if spin > i128::from(BEYOND_SPIN) {
        BEYOND_SPIN
    } else if spin < -i128::from(BEYOND_SPIN) {
        -BEYOND_SPIN
    } else {
        spin as i64
    }
}

/// A number times 2^30.
fn scaled_up(number: i128) -> i128
    requires { unsigned_abs number ≤ 2 ^ 64 }
    ensures { result ≡ number *ℤ unit_length }
{
    number * i128::from(UNIT)
}

/// The spin of an angle that is turned in so many ticks, by its sine and its cosine, both times 2^60 or so.
fn spin_of(across: i128, along: i128, ticks: i64) -> i64
    requires across { unsigned_abs across ≤ 2 ^ 64 }
    requires positive { pos 0 <ℤ along }
    requires ticks { pos 0 <ℤ ticks }
    ensures value { result ≡ limited (2 ^ 28 + 1) (rdiv (rdiv (across *ℤ unit_length) along) ticks) }
    ensures size { unsigned_abs result ≤ 2 ^ 28 + 1 }
{
    let tangent = rdiv(scaled_up(across), along);
    spin_part(rdiv(tangent, i128::from(ticks)))
}

/// The share of each of so many ticks in the tangent of the angle between two directions.
fn spin_between(from: Vec2, to: Vec2, ticks: i64) -> i64
    requires from { IsWithin (2 ^ 31) from }
    requires to { IsWithin (2 ^ 31) to }
    requires ticks { pos 0 <ℤ ticks }
    ensures value { result ≡ spin_between from to ticks }
    ensures size { unsigned_abs result ≤ 2 ^ 28 + 1 }
{
    let along = dot(from, to);
    if along > 0 {
        spin_of(cross(from, to), along, ticks)
    } else {
        BEYOND_SPIN
    }
}

/// Where a facing leads.
fn direction(facing: Rot) -> Vec2
    requires { IsFacing facing }
    ensures value { result ≡ direction facing }
    ensures within { IsWithin (2 ^ 31) result }
{
    Vec2 {
        x: facing.c,
        y: facing.s,
    }
}

/// The facing after so many ticks of a spin.
fn turned(facing: Rot, spin: i64, ticks: i64) -> Rot
    requires facing { IsFacing facing }
    requires spin { unsigned_abs spin ≤ 2 ^ 28 }
    ensures value { result ≡ turned (unsigned_abs ticks) spin facing }
    ensures facing { IsFacing result }
{
    let mut now = facing;
    for tick in 0..ticks.unsigned_abs() {
        now = turn(now, spin);
    }
    now
}

/// What the turn of so many ticks of a spin lacks to a facing, as `spin_between` has it.
fn missed(from: Rot, to: Rot, ticks: i64, spin: i64) -> i64
    requires from { IsFacing from }
    requires to { IsFacing to }
    requires ticks { pos 0 <ℤ ticks }
    requires spin { unsigned_abs spin ≤ 2 ^ 28 }
    ensures value { result ≡ missed from to ticks spin }
    ensures size { unsigned_abs result ≤ 2 ^ 28 + 1 }
{
    spin_between(direction(turned(from, spin, ticks)), direction(to), ticks)
}

/// A spin that a body may have: one beyond the limit is put on it.
fn possible_spin(spin: i128) -> i64
    ensures value { result ≡ limited (2 ^ 28) spin }
    ensures size { unsigned_abs result ≤ 2 ^ 28 }
{
    if spin > i128::from(MAX_SPIN) {
        MAX_SPIN
    } else if spin < -i128::from(MAX_SPIN) {
        -MAX_SPIN
    } else {
        spin as i64
    }
}

/// A number times the square of a tangent.
fn by_square(missed: i64, spin: i64) -> i64
    requires missed { unsigned_abs missed ≤ 2 ^ 28 + 1 }
    requires spin { unsigned_abs spin ≤ 2 ^ 28 }
    ensures { result ≡ by_square missed spin }
{
    scaled(missed, scaled(spin, spin))
}

/// The sum of two numbers of 64 bits.
fn sum_of(first: i64, second: i64) -> i128
    ensures value { result ≡ first +ℤ second }
    ensures size { unsigned_abs result ≤ 2 ^ 64 }
{
    i128::from(first) + i128::from(second)
}

/// A spin with what its turn missed made up for. A tangent grows by its angle times one and its own square.
fn made_up(spin: i64, missed: i64) -> i128
    requires spin { unsigned_abs spin ≤ 2 ^ 28 }
    requires missed { unsigned_abs missed ≤ 2 ^ 28 + 1 }
    ensures { result ≡ made_up spin missed }
{
    i128::from(spin) + sum_of(missed, by_square(missed, spin))
}

/// A spin whose turn of so many ticks misses a facing by less than that of another one does: a step of Newton's method.
#[tactic(auto, unfolding(crate::specs::Motions::corrected))]
fn corrected(from: Rot, to: Rot, ticks: i64, spin: i128) -> i128
    requires from { IsFacing from }
    requires to { IsFacing to }
    requires ticks { pos 0 <ℤ ticks }
    ensures { result ≡ corrected from to ticks spin }
{
    let possible = possible_spin(spin);
    made_up(possible, missed(from, to, ticks, possible))
}

/// Whether the angle between two facings is less than a quarter of a turn.
fn is_sharp(from: Rot, to: Rot) -> bool
    requires from { IsFacing from }
    requires to { IsFacing to }
    ensures { result ≡ is_sharp from to }
{
    dot(direction(from), direction(to)) > 0
}

/// A spin that is corrected four times.
fn much_corrected(from: Rot, to: Rot, ticks: i64, spin: i128) -> i128
    requires from { IsFacing from }
    requires to { IsFacing to }
    requires ticks { pos 0 <ℤ ticks }
    ensures { result ≡ corrected from to ticks (corrected from to ticks (corrected from to ticks (corrected from to ticks spin))) }
{
    let twice = corrected(from, to, ticks, corrected(from, to, ticks, spin));
    corrected(from, to, ticks, corrected(from, to, ticks, twice))
}

/// The spin that turns one facing into another in so many ticks: the share of a tick in the tangent of the angle,
/// corrected four times. Tests find none that comes nearer, but for those next to it.
fn spin_to(from: Rot, to: Rot, ticks: i64) -> i64
    requires from { IsFacing from }
    requires to { IsFacing to }
    requires ticks { pos 0 <ℤ ticks }
    ensures { result ≡ spin_to from to ticks }
{
    if is_sharp(from, to) {
        let first = spin_between(direction(from), direction(to), ticks);
        spin_part(much_corrected(from, to, ticks, i128::from(first)))
    } else {
        BEYOND_SPIN
    }
}

/// The way from one place to another, in one coordinate.
fn way(from: i64, to: i64) -> i64
    requires from { unsigned_abs from ≤ 2 ^ 36 }
    requires to { unsigned_abs to ≤ 2 ^ 36 }
    ensures value { result ≡ to -ℤ from }
    ensures size { unsigned_abs result ≤ 2 ^ 37 }
{
    to - from
}

/// A part of the velocity that leads from one place to another in so many ticks.
fn way_part(from: i64, to: i64, ticks: i64) -> i64
    requires from { unsigned_abs from ≤ 2 ^ 36 }
    requires to { unsigned_abs to ≤ 2 ^ 36 }
    requires ticks { pos 0 <ℤ ticks }
    ensures { result ≡ rdiv (to -ℤ from) ticks }
{
    rdiv_64(way(from, to), ticks)
}

/// Whether a body may have this pose, and a step so many ticks.
fn is_target(to: Pose, ticks: i64) -> bool
    ensures value { result ≡ is_target to ticks }
    ensures target { IsTrue result → IsTarget to ticks }
{
    is_within(to.x, MAX_POSITION as u64) && is_facing(to.rot) && 1 <= ticks && ticks <= MAX_TICKS
}

/// The course that leads from one pose to another, which a body may have, in so many ticks.
fn course_between(motion: &Motion, to: Pose, ticks: i64) -> Course
    requires x { IsWithin (2 ^ 36) motion.now.x }
    requires rot { IsFacing motion.now.rot }
    requires target { IsTarget to ticks }
    ensures { result ≡ course_between motion.now to ticks }
{
    Course {
        velocity: Vec2 {
            x: way_part(motion.x.x, to.x.x, ticks),
            y: way_part(motion.x.y, to.x.y, ticks),
        },
        spin: spin_to(motion.rot, to.rot, ticks),
    }
}

/// The course that leads from a motion to a pose in so many ticks.
fn course_from(motion: &Motion, to: Pose, ticks: i64) -> Course
    requires x { IsWithin (2 ^ 36) motion.now.x }
    requires rot { IsFacing motion.now.rot }
    ensures { result ≡ course_from motion.now to ticks }
{
    if is_target(to, ticks) {
        course_between(motion, to, ticks)
    } else {
        NO_WAY
    }
}

/// The course that leads a body to a pose in so many ticks.
pub(crate) fn course_to(body: Option<&Body>, to: Pose, ticks: i64) -> Course
    requires { IfSome body (λ b. IsBody b.now) }
    ensures { result ≡ course_to (option_copied body.entry) to ticks }
{
    match body {
        None => NO_WAY,
        Some(body) => course_from(&body.motion, to, ticks),
    }
}
