//! What a contact becomes when its two shapes are evaluated anew.

ghost use Rattle.std.specs.Prelude.{◌≡◌, None, pos, ◌≤ℤ◌, unsigned_abs, IfSome};
ghost use Rattle.std.specs.Option.{option_copied};
ghost use Rattle.shapes.specs.Manifolds.{manifold_of};
ghost use Rattle.shapes.specs.PointsWithin.{IsPointWithin};
ghost use Rattle.shapes.specs.Discs.{IsDisc, disc_point};
ghost use Rattle.shapes.specs.Poses.{IsPose};
ghost use Rattle.shapes.specs.Shapes.{IsShape};
ghost use Rattle.fixed_geom.specs.Vectors.{IsWithin};
ghost use Rattle.fixed_geom.specs.declared.limits.TheConstants.{MAX_OFFSET, MAX_POSITION};
ghost use Rattle.contacts_base.specs.Proxies.{IsProxy};
ghost use Rattle.contacts_base.specs.Evaluate.{impulses_at, kept, kept_point, evaluated};

use crate::circles::are_discs_apart;
use crate::{ContactEntry, ContactPoint, PackedContact, Proxy};
use fixed_geom::Vec2;
use shapes::{Disc, Manifold, Point, Pose, Shape, disc_of, disc_point, manifold};

/// The impulses that a point keeps from one step to the next, along the normal and across it, in
/// mass·u/tick.
#[derive(Clone, Copy, Debug, PartialEq, Eq)]
pub struct Impulses {
    pub normal_impulse: i64,
    pub tangent_impulse: i64,
}

const NO_IMPULSES: Impulses = Impulses {
    normal_impulse: 0,
    tangent_impulse: 0,
};

/// The impulses of a point if it is this candidate's.
fn impulses_at(point: &Option<ContactPoint>, candidate: u64) -> Option<Impulses>
    ensures { result ≡ impulses_at point.now candidate }
{
    match point {
        None => None,
        Some(point) => {
            if point.candidate == candidate {
                Some(Impulses {
                    normal_impulse: point.normal_impulse,
                    tangent_impulse: point.tangent_impulse,
                })
            } else {
                None
            }
        }
    }
}

/// The impulses that a contact kept at this candidate, zero where it has no such point.
fn kept(old: Option<&ContactEntry>, candidate: u64) -> Impulses
    ensures { result ≡ kept (option_copied old.entry) candidate }
{
    match old {
        None => NO_IMPULSES,
        Some(entry) => match impulses_at(&entry.contact.first(), candidate) {
            Some(impulses) => impulses,
            None => impulses_at(&entry.contact.second(), candidate).unwrap_or(NO_IMPULSES),
        },
    }
}

/// A point of the manifold with the impulses kept at its candidate.
fn kept_point(old: Option<&ContactEntry>, point: &Point) -> ContactPoint
    ensures { result ≡ kept_point (option_copied old.entry) point.now }
{
    let impulses = kept(old, point.candidate);
    ContactPoint {
        normal: point.normal,
        separation: point.separation,
        ra: point.ra,
        rb: point.rb,
        normal_impulse: impulses.normal_impulse,
        tangent_impulse: impulses.tangent_impulse,
        candidate: point.candidate,
    }
}

/// The contact of two shapes with this manifold, where `old` is what it was before.
///
/// It touches if the separation at the first point is at most 0. A contact that touches has the
/// manifold's points, each with the impulses that the old contact kept at the same candidate (as
/// Box2D carries them over by feature id), or 0. One that doesn't touch has no points.
#[tactic(auto, unfolding(crate::specs::Evaluate::evaluated))]
#[inline(always)]
pub fn evaluate(old: Option<&ContactEntry>, manifold: &Manifold) -> PackedContact
    requires first { manifold.now.first.separation ≤ℤ pos 0 → IsPointWithin (unsigned_abs MAX_OFFSET) manifold.now.first }
    requires second { IfSome manifold.now.second (λ p. IsPointWithin (unsigned_abs MAX_OFFSET) p) }
    ensures { result ≡ evaluated (option_copied old.entry) manifold.now }
{
    if manifold.first.separation > 0 {
        return PackedContact::apart();
    }
    let contact = PackedContact::apart().with_first(&kept_point(old, &manifold.first));
    match &manifold.second {
        None => contact,
        Some(point) => contact.with_second(&kept_point(old, point)),
    }
}

/// What the contact of two shapes becomes by the manifold of their cores. Shapes and poses are copied here rather than
/// by whoever calls `contact_of`, which needs little of two circles.
#[inline(never)]
fn contact_by_cores(
    old: Option<&ContactEntry>,
    a: Shape,
    pose_a: Pose,
    b: Shape,
    pose_b: Pose,
) -> PackedContact
    requires first { IsShape a }
    requires first_pose { IsPose pose_a }
    requires second { IsShape b }
    requires second_pose { IsPose pose_b }
    ensures { result ≡ evaluated (option_copied old.entry) (manifold_of a pose_a b pose_b) }
{
    evaluate(old, &manifold(&a, pose_a, &b, pose_b))
}

/// What the contact of two circles becomes, of bodies with these centres, where `old` is what it was before. Where a
/// quick look shows that they are apart, no point is computed.
#[tactic(auto, unfolding(crate::specs::Evaluate::evaluated))]
#[inline(always)]
fn contact_of_discs(
    old: Option<&ContactEntry>,
    a: Disc,
    b: Disc,
    center_a: Vec2,
    center_b: Vec2,
) -> PackedContact
    requires first { IsDisc a }
    requires second { IsDisc b }
    requires first_center { IsWithin (unsigned_abs MAX_POSITION) center_a }
    requires second_center { IsWithin (unsigned_abs MAX_POSITION) center_b }
    requires touching { (disc_point a b center_a center_b).separation ≤ℤ pos 0 → IsPointWithin (unsigned_abs MAX_OFFSET) (disc_point a b center_a center_b) }
    ensures { result ≡ evaluated (option_copied old.entry) (record { first = disc_point a b center_a center_b; second = None }) }
{
    if are_discs_apart(a, b) {
        return PackedContact::apart();
    }
    let manifold = Manifold {
        first: disc_point(a, b, center_a, center_b),
        second: None,
    };
    evaluate(old, &manifold)
}

/// What the contact of two shapes becomes, where `old` is what it was before: `evaluate` of their manifold. Two circles
/// go by a way of their own, which is shorter.
#[inline(always)]
pub fn contact_of(old: Option<&ContactEntry>, p: &Proxy, q: &Proxy) -> PackedContact
    requires first { IsProxy p.now }
    requires second { IsProxy q.now }
    ensures { result ≡ evaluated (option_copied old.entry) (manifold_of p.now.shape p.now.pose q.now.shape q.now.pose) }
{
    match disc_of(&p.shape, p.pose) {
        None => contact_by_cores(old, p.shape, p.pose, q.shape, q.pose),
        Some(a) => match disc_of(&q.shape, q.pose) {
            None => contact_by_cores(old, p.shape, p.pose, q.shape, q.pose),
            Some(b) => contact_of_discs(old, a, b, p.pose.x, q.pose.x),
        },
    }
}
