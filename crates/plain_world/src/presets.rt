//! Bodies of one shape, whose mass and inertia follow from the shape and a density.

ghost use Rattle.std.specs.Prelude.{◌≡◌, ◌*◌, ◌≤◌, ◌<◌, ◌^◌, IfOk, IfSome, pos};
ghost use Rattle.std.specs.Result.{IsOkUnless};
ghost use Rattle.fixed_geom.specs.Numbers.{nearest};
ghost use Rattle.momenta.specs.Motions.{IsMass};
ghost use Rattle.plain_world.specs.Bodies.{IsAllowed};
ghost use Rattle.plain_world.specs.Presets.{bulk, capsule_due, capsule_mass, circle_due, disc_mass, floor_due, formed, girth, left_end, lying, mass_within, of_shape, platform_due, right_end, segment_due, IsDue};

use crate::body::BodyDef;
use crate::kind::{Course, Kind};
use contacts_base::Surface;
use fixed_geom::{Refusal, Rot, UNIT, Vec2, ZERO_VECTOR};
use momenta::{MAX_INERTIA, MAX_MASS, MassData};
use shapes::{Filter, Shape, ShapeDef, Shapes, check};
use std::alloc::Global;

/// The mass of whatever isn't dynamic.
const NO_MASS: MassData = MassData {
    mass: 0,
    inertia: 0,
};

/// A surface with neither friction nor restitution.
pub const SMOOTH: Surface = Surface {
    friction: 0,
    restitution: 0,
};

/// The law of the smooth surface: its numbers, in digits. The function does nothing; its contract is the law.
pub fn smooth_in_digits()
    ensures { SMOOTH ≡ record { friction = pos 0; restitution = pos 0 } }
{}

/// A shape of this form with this surface, which collides with all.
fn formed(shape: Shape, surface: Surface) -> ShapeDef
    ensures { result ≡ formed shape surface }
{
    ShapeDef {
        shape,
        friction: surface.friction,
        restitution: surface.restitution,
        filter: Filter::default(),
    }
}

impl BodyDef {
    /// A dynamic disc of this radius (u) and density (mass a square metre, that is, a square of 2^20 u), about its
    /// centre.
    ///
    /// Its mass is density·π·radius² / 2^40 and its inertia mass·radius² / 2, each to the nearest whole number, with
    /// 355/113 for π. Refused 4 for a radius beyond 2^24, and else 5 where the friction or the restitution is outside
    /// its limit, the mass isn't 1 to 2^20 or the inertia is beyond 2^60.
    pub fn circle(
        alloc: Global,
        radius: u32,
        density: u32,
        surface: Surface,
    ) -> Result<BodyDef, Refusal>
        ensures due { IsDue (circle_due radius density surface) result }
        ensures allowed { IfOk result IsAllowed }
    {
        let shape = formed(
            Shape::Circle {
                center: ZERO_VECTOR,
                radius: i64::from(radius),
            },
            surface,
        );
        check(&[shape], false)?;
        let Some(mass) = disc_mass(u64::from(radius), u64::from(density)) else {
            return Err(Refusal::OutOfRange);
        };
        one_shape(alloc, Kind::Dynamic, mass, shape)
    }

    /// A dynamic capsule about its centre, which lies along the x axis: its core is `half` u long to either side, and
    /// `radius` u are round it. Its density is mass a square metre.
    ///
    /// With h and r for the two lengths its mass is density·(4·r·h + π·r²) / 2^40, and its inertia mass·(8·h·(h² +
    /// 3·r²) + 3·π·r·(r² + 2·h²)) / (6·(4·h + π·r)), each to the nearest whole number, with 355/113 for π. Refused 4
    /// for a radius of 0 or beyond 2^24 and for a `half` of 0, and else 5 for a `half` beyond 2^24 and where the
    /// friction or the restitution is outside its limit, the mass isn't 1 to 2^20 or the inertia is beyond 2^60.
    pub fn capsule(
        alloc: Global,
        half: u32,
        radius: u32,
        density: u32,
        surface: Surface,
    ) -> Result<BodyDef, Refusal>
        ensures due { IsDue (capsule_due half radius density surface) result }
        ensures allowed { IfOk result IsAllowed }
    {
        let shape = formed(lying(half, radius), surface);
        check(&[shape], false)?;
        let Some(mass) = capsule_mass(u64::from(half), u64::from(radius), u64::from(density)) else {
            return Err(Refusal::OutOfRange);
        };
        one_shape(alloc, Kind::Dynamic, mass, shape)
    }

    /// A static segment between two points, given from the body's centre in u. Refused 4 where they are equal, and else
    /// 5 where one is beyond 2^24 in a component or the friction or the restitution is outside its limit.
    pub fn segment(
        alloc: Global,
        first: Vec2,
        second: Vec2,
        surface: Surface,
    ) -> Result<BodyDef, Refusal>
        ensures due { IsDue (segment_due first second surface) result }
        ensures allowed { IfOk result IsAllowed }
    {
        let shape = formed(Shape::Segment { first, second }, surface);
        check(&[shape], true)?;
        one_shape(alloc, Kind::Static, NO_MASS, shape)
    }

    /// A static segment along the x axis, `half` u long to either side of its centre: a floor, and with another facing
    /// a ramp or a wall. Refused 4 for a `half` of 0, and else 5 for one beyond 2^24 and where the friction or the
    /// restitution is outside its limit.
    pub fn floor(alloc: Global, half: u32, surface: Surface) -> Result<BodyDef, Refusal>
        ensures due { IsDue (floor_due half surface) result }
        ensures allowed { IfOk result IsAllowed }
    {
        BodyDef::segment(alloc, left_end(half), right_end(half), surface)
    }

    /// A kinematic capsule, as `capsule` places it, that is carried along with this velocity and spin. Refused 4 for a
    /// radius of 0 or beyond 2^24 and for a `half` of 0, and else 5 for a `half` beyond 2^24 and where the friction,
    /// the restitution, the velocity or the spin is outside its limit.
    pub fn platform(
        alloc: Global,
        half: u32,
        radius: u32,
        course: Course,
        surface: Surface,
    ) -> Result<BodyDef, Refusal>
        ensures due { IsDue (platform_due half radius course surface) result }
        ensures allowed { IfOk result IsAllowed }
    {
        let shape = formed(lying(half, radius), surface);
        check(&[shape], false)?;
        if !course.is_allowed() {
            return Err(Refusal::OutOfRange);
        }
        one_shape(alloc, Kind::Kinematic(course), NO_MASS, shape)
    }

    /// The same at the place `x` (u).
    pub fn at(mut self, x: Vec2) -> BodyDef
        ensures { result ≡ record self { x = x } }
    {
        self.x = x;
        self
    }

    /// The same with the facing `rot` (times 2^30).
    pub fn facing(mut self, rot: Rot) -> BodyDef
        ensures { result ≡ record self { rot = rot } }
    {
        self.rot = rot;
        self
    }
}

/// A body of one shape at the origin, not turned.
fn one_shape(alloc: Global, kind: Kind, mass: MassData, shape: ShapeDef) -> Result<BodyDef, Refusal>
    ensures def { IfOk result (λ def. def ≡ of_shape kind mass shape) }
    ensures memory_only { IsOkUnless result Refusal.NoMemory }
{
    let mut shapes = Shapes::new(alloc);
    shapes.push(shape)?;
    Ok(BodyDef {
        kind,
        mass,
        x: ZERO_VECTOR,
        rot: Rot { c: UNIT, s: 0 },
        shapes,
    })
}

fn left_end(half: u32) -> Vec2
    ensures { result ≡ left_end half }
{
    Vec2 {
        x: -i64::from(half),
        y: 0,
    }
}

fn right_end(half: u32) -> Vec2
    ensures { result ≡ right_end half }
{
    Vec2 {
        x: i64::from(half),
        y: 0,
    }
}

/// A capsule along the x axis.
fn lying(half: u32, radius: u32) -> Shape
    ensures { result ≡ lying half radius }
{
    Shape::Capsule {
        first: left_end(half),
        second: right_end(half),
        radius: i64::from(radius),
    }
}

/// The nearest whole number to `n / d`, the greater where two are as near.
fn nearest(n: u128, d: u128) -> u128
    requires dividend { n ≤ 2 ^ 120 }
    requires divisor { 0 < d }
    requires small { d ≤ 2 ^ 60 }
    ensures { result ≡ nearest n d }
{
    (2 * n + d) / (2 * d)
}

/// This mass and inertia, if a dynamic body may have them.
fn mass_within(mass: u128, inertia: u128) -> Option<MassData>
    ensures value { result ≡ mass_within mass inertia }
    ensures mass { IfSome result IsMass }
{
    if mass > MAX_MASS as u128 {
        return None;
    }
    if mass < 1 {
        return None;
    }
    if inertia > MAX_INERTIA as u128 {
        return None;
    }
    Some(MassData {
        mass: mass as i64,
        inertia: inertia as i64,
    })
}

/// What a disc weighs, if a body may.
#[tactic(auto, unfolding(crate::specs::Presets::disc_mass))]
fn disc_mass(radius: u64, density: u64) -> Option<MassData>
    requires radius { radius ≤ 2 ^ 24 }
    requires density { density < 2 ^ 32 }
    ensures value { result ≡ disc_mass radius density }
    ensures mass { IfSome result IsMass }
{
    let square = radius * radius;
    let mass = nearest(u128::from(355 * density) * u128::from(square), 113 << 40);
    if mass > MAX_MASS as u128 {
        return None;
    }
    mass_within(mass, nearest(mass * u128::from(square), 2))
}

/// 113·(4·h + π·r)
#[tactic(auto, unfolding(crate::specs::Presets::girth))]
fn girth(half: u64, radius: u64) -> u64
    requires half { half ≤ 2 ^ 24 }
    requires radius { radius ≤ 2 ^ 24 }
    ensures value { result ≡ girth half radius }
    ensures small { result ≤ 2 ^ 34 }
    ensures positive { 0 < radius → 0 < result }
{
    452 * half + 355 * radius
}

fn product(a: u64, b: u64) -> u128
    requires first { a ≤ 2 ^ 36 }
    requires second { b ≤ 2 ^ 51 }
    ensures value { result ≡ a * b }
    ensures small { result ≤ 2 ^ 87 }
{
    u128::from(a) * u128::from(b)
}

/// 113·(8·h·(h² + 3·r²) + 3·π·r·(r² + 2·h²))
#[tactic(auto, unfolding(crate::specs::Presets::bulk))]
fn bulk(half: u64, radius: u64) -> u128
    requires half { half ≤ 2 ^ 24 }
    requires radius { radius ≤ 2 ^ 24 }
    ensures value { result ≡ bulk half radius }
    ensures small { result ≤ 2 ^ 88 }
{
    let (long, round) = (half * half, radius * radius);
    product(904 * half, long + 3 * round) + product(1_065 * radius, round + 2 * long)
}

/// What a capsule weighs, if a body may.
#[tactic(auto, unfolding(crate::specs::Presets::capsule_mass))]
fn capsule_mass(half: u64, radius: u64, density: u64) -> Option<MassData>
    requires half { half ≤ 2 ^ 24 }
    requires radius { radius ≤ 2 ^ 24 }
    requires density { density < 2 ^ 32 }
    ensures value { result ≡ capsule_mass half radius density }
    ensures mass { IfSome result IsMass }
{
    if radius < 1 {
        return None;
    }
    let girth = girth(half, radius);
    let mass = nearest(u128::from(radius * girth) * u128::from(density), 113 << 40);
    if mass > MAX_MASS as u128 {
        return None;
    }
    let inertia = nearest(mass * bulk(half, radius), u128::from(6 * girth));
    mass_within(mass, inertia)
}
