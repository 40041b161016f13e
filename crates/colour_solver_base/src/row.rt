//! What stays for a whole step: offsets, normals, inverse masses, and the speed at which it began.

ghost use Rattle.std.specs.Prelude.{◌≡◌, ◌^◌, ◌≤◌, ◌+◌, ◌⊎◌, true, neg_ℤ, unsigned_abs};
ghost use Rattle.std.specs.Option.{ForSome};
ghost use Rattle.fixed_geom.specs.Vectors.{IsWithin};
ghost use Rattle.momenta.specs.ImpulseBounds.{AreStates, IsLine};
ghost use Rattle.contacts_base.specs.Limits.{IsContact, IsContactPoint};
ghost use Rattle.colour_solver_base.specs.Rows.{AreSurfaces, IsPointRow, IsRow, contact_row, key_of, point_row, normal_line, tangent_line, start_speed, is_springy};
ghost use Rattle.colour_solver_base.specs.ContactSolving.{tangent};

use contacts_base::{ContactKey, ContactPoint, PackedContact, ShapeId};
use fixed_geom::{UNIT, Vec2};
use momenta::{Ends, Line, inverse_mass, inverse_reciprocal, speed_along};

/// A point of a contact in a step: the normal from the first body to the second (times 2^30), the offsets from the two
/// centres (u), the inverse masses along the normal and across it (times 2^40) and their reciprocals, the separation
/// (u) and, where there is restitution, the speed along the normal (u/tick) when the step began, and the accumulated
/// impulses along the normal and across it (mass·u/tick).
#[derive(Clone, Copy, Debug, PartialEq, Eq)]
pub struct PointRow {
    pub normal: Vec2,
    pub ra: Vec2,
    pub rb: Vec2,
    pub normal_inverse: i128,
    pub tangent_inverse: i128,
    pub normal_reciprocal: i64,
    pub tangent_reciprocal: i64,
    pub separation: i64,
    pub start_speed: i64,
    pub normal_impulse: i64,
    pub tangent_impulse: i64,
}

/// Which contact a row is of, by the slots of its two bodies and the indexes of its two shapes among the shapes of
/// these bodies; and the mixed friction and restitution of the contact, in 256ths.
#[derive(Clone, Copy, Debug, PartialEq, Eq)]
pub struct Bodies {
    pub a: u32,
    pub b: u32,
    pub first: u8,
    pub second: u8,
    pub friction: i64,
    pub restitution: i64,
}

/// A touching contact in a step, with its one or two points.
#[derive(Clone, Copy, Debug, PartialEq, Eq)]
pub struct ContactRow {
    pub bodies: Bodies,
    pub first: PointRow,
    pub second: Option<PointRow>,
}

impl Bodies {
    /// The key of the contact.
    #[inline(always)]
    pub fn key(&self) -> ContactKey
        ensures { result ≡ key_of self.now }
    {
        ContactKey {
            first: ShapeId {
                slot: self.a,
                index: self.first,
            },
            second: ShapeId {
                slot: self.b,
                index: self.second,
            },
        }
    }
}

/// The direction of friction: the normal turned to the right.
fn tangent(normal: Vec2) -> Vec2
    requires { IsWithin (unsigned_abs UNIT) normal }
    ensures value { result ≡ tangent normal }
    ensures within { IsWithin (unsigned_abs UNIT) result }
{
    Vec2 {
        x: normal.y,
        y: -normal.x,
    }
}

impl PointRow {
    /// The line of its normal impulse.
    pub fn normal_line(&self) -> Line
        ensures { result ≡ normal_line self.now }
    {
        Line {
            direction: self.normal,
            ra: self.ra,
            rb: self.rb,
            inverse_mass: self.normal_inverse,
            reciprocal: self.normal_reciprocal,
        }
    }

    /// The line of its friction.
    pub fn tangent_line(&self) -> Line
        requires { IsWithin (unsigned_abs UNIT) self.now.normal }
        ensures { result ≡ tangent_line self.now }
    {
        Line {
            direction: tangent(self.normal),
            ra: self.ra,
            rb: self.rb,
            inverse_mass: self.tangent_inverse,
            reciprocal: self.tangent_reciprocal,
        }
    }
}

/// Whether the surfaces that meet have restitution.
#[inline(always)]
fn is_springy(bodies: &Bodies) -> bool
    ensures { result ≡ is_springy bodies.now }
{
    bodies.restitution > 0
}

/// The speed along the line when the step begins, which only restitution asks for; 0 without.
#[inline(always)]
fn start_speed(springy: bool, line: &Line, ends: &Ends) -> i64
    requires line { IsLine line.now }
    requires states { AreStates ends.now }
    ensures value { result ≡ start_speed springy line.now ends.now }
    ensures within { unsigned_abs result ≤ 2 ^ 62 + 2 ^ 28 }
{
    if springy { speed_along(line, ends) } else { 0 }
}

/// The row of a contact's point.
#[tactic(auto, unfolding(crate::specs::Rows::point_row))]
#[inline(always)]
fn point_row(springy: bool, point: &ContactPoint, ends: &Ends) -> PointRow
    requires point { IsContactPoint point.now }
    requires states { AreStates ends.now }
    requires mover { (ends.now.a.movable ≡ true) ⊎ (ends.now.b.movable ≡ true) }
    ensures value { result ≡ point_row springy ends.now point.now }
    ensures row { IsPointRow result }
{
    let across = tangent(point.normal);
    let normal_inverse = inverse_mass(point.normal, point.ra, point.rb, ends);
    let tangent_inverse = inverse_mass(across, point.ra, point.rb, ends);
    let line = Line {
        direction: point.normal,
        ra: point.ra,
        rb: point.rb,
        inverse_mass: normal_inverse,
        reciprocal: inverse_reciprocal(normal_inverse),
    };
    PointRow {
        normal: point.normal,
        ra: point.ra,
        rb: point.rb,
        normal_inverse,
        tangent_inverse,
        normal_reciprocal: line.reciprocal,
        tangent_reciprocal: inverse_reciprocal(tangent_inverse),
        separation: point.separation,
        start_speed: start_speed(springy, &line, ends),
        normal_impulse: point.normal_impulse,
        tangent_impulse: point.tangent_impulse,
    }
}

/// The row of a contact between two bodies, one of them movable at least, which stand as they do when the step
/// begins. `None` where it doesn't touch.
#[inline(always)]
pub fn contact_row(bodies: Bodies, contact: &PackedContact, ends: &Ends) -> Option<ContactRow>
    requires surfaces { AreSurfaces bodies }
    requires contact { IsContact contact.now }
    requires states { AreStates ends.now }
    requires mover { (ends.now.a.movable ≡ true) ⊎ (ends.now.b.movable ≡ true) }
    ensures value { result ≡ contact_row bodies ends.now contact.now }
    ensures row { ForSome result IsRow }
{
    let springy = is_springy(&bodies);
    let first = match contact.first() {
        None => return None,
        Some(point) => point,
    };
    match contact.second() {
        None => Some(ContactRow {
            bodies,
            first: point_row(springy, &first, ends),
            second: None,
        }),
        Some(second) => Some(ContactRow {
            bodies,
            first: point_row(springy, &first, ends),
            second: Some(point_row(springy, &second, ends)),
        }),
    }
}
