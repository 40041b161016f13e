//! A body within a step: how it moves, and how an impulse changes it.

ghost use Rattle.std.specs.Prelude.{◌≡◌, ◌^◌, ◌≤◌, ◌+◌, ◌+ℤ◌, ◌-ℤ◌, ◌*ℤ◌, true, unsigned_abs, is_some, nat_le, unwrap_or};
ghost use Rattle.fixed_geom.specs.Numbers.{rdiv};
ghost use Rattle.fixed_geom.specs.Vectors.{IsWithin, unit_length};
ghost use Rattle.momenta.specs.declared.motion.Motion.{Motion};
ghost use Rattle.momenta.specs.Impulses.{velocity_at, travelled, given, turned_by, fits, impulse_pair};
ghost use Rattle.momenta.specs.ImpulseBounds.{IsRoomy, IsState, AreStates, AreSameBodies};

use crate::ranges::is_in;
use crate::{
    MAX_ANGULAR_MOMENTUM, MAX_MOMENTUM, MassData, Momenta, Motion, Reciprocals, spin, velocity,
};
use fixed_geom::{
    MAX_OFFSET, MAX_SPIN, Rot, UNIT, Vec2, ZERO_VECTOR, cross, minus, opposite, plus, scaled_64,
};

/// A component of a momentum up to this has room for two impulses.
const ROOMY_MOMENTUM: i64 = 1 << 59;

/// An angular momentum up to this has room for the moments of two impulses.
const ROOMY_ANGULAR: i128 = 1 << 89;

/// A body as the solver works on it: whether impulses move it, its mass, its motion, where its
/// centre was when the step began (u), and what its quotients are taken with.
///
/// A body that no impulse moves may still be carried along: its mass and its momenta then say with which velocity and
/// spin, and are those of no body. Of one that stands still the momenta are 0.
#[derive(Clone, Copy, Debug, PartialEq, Eq)]
pub struct BodyState {
    pub movable: bool,
    pub mass: MassData,
    pub motion: Motion,
    pub start: Vec2,
    pub reciprocals: Reciprocals,
}

/// What stands where there is no body: nothing moves it.
pub const NOBODY: BodyState = BodyState {
    movable: false,
    mass: MassData {
        mass: 1,
        inertia: 0,
    },
    motion: Motion {
        p: ZERO_VECTOR,
        l: 0,
        x: ZERO_VECTOR,
        rot: Rot { c: UNIT, s: 0 },
    },
    start: ZERO_VECTOR,
    reciprocals: Reciprocals {
        mass: (1 << 62) + 1,
        inertia: 0,
    },
};

/// The two bodies of a constraint.
#[derive(Clone, Copy, Debug, PartialEq, Eq)]
pub struct Ends {
    pub a: BodyState,
    pub b: BodyState,
}

impl BodyState {
    /// The velocity of its point at the offset `r` (u) from the centre, in u/tick: `v + w × r`, as in Erin Catto's
    /// sequential impulses, with the spin `w` times 2^30.
    #[tactic(auto, unfolding(crate::specs::Impulses::velocity_at))]
    #[inline(always)]
    pub fn velocity_at(&self, r: Vec2) -> Vec2
        requires state { IsState self.now }
        requires offset { IsWithin (unsigned_abs MAX_OFFSET) r }
        ensures value { result ≡ velocity_at r self.now }
        ensures within { IsWithin (2 ^ 60 + 2 ^ 25) result }
    {
        let v = velocity(self.motion.p, self.mass.mass);
        if self.motion.l == 0 {
            return v;
        }
        let w = spin(self.motion.l, self.mass.inertia);
        Vec2 {
            x: carried_back(v.x, w, r.y),
            y: carried_on(v.y, w, r.x),
        }
    }

    /// How far its centre has come since the step began, in u.
    #[inline(always)]
    pub fn travelled(&self) -> Vec2
        requires { IsState self.now }
        ensures value { result ≡ travelled self.now }
        ensures within { IsWithin (2 ^ 37) result }
    {
        minus(self.motion.x, self.start)
    }

    /// Its momenta with the impulse `j` (mass·u/tick) given at the offset `r` (u): the momentum grows by `j`, and the
    /// angular momentum, if the body turns, by `r × j`. Those of an immovable body stay as they are.
    #[tactic(auto, unfolding(crate::specs::Impulses::given))]
    #[inline(always)]
    fn momenta_with(&self, j: Vec2, r: Vec2) -> Momenta
        requires state { IsState self.now }
        requires impulse { IsWithin (2 ^ 45) j }
        requires offset { IsWithin (unsigned_abs MAX_OFFSET) r }
        ensures value { record self.now { motion = record self.now.motion { p = result.p; l = result.l } } ≡ given j r self.now }
    {
        if !self.movable {
            return Momenta {
                p: self.motion.p,
                l: self.motion.l,
            };
        }
        Momenta {
            p: plus(self.motion.p, j),
            l: turned_by(self.mass.inertia, self.motion.l, cross(r, j)),
        }
    }

    /// Whether its momenta are so far within their limits that two impulses can't take them out.
    #[inline(always)]
    pub(crate) fn is_roomy(&self) -> bool
        ensures { result ≡ true → IsRoomy self.now.motion }
    {
        is_in(self.motion.p.x, ROOMY_MOMENTUM)
            && is_in(self.motion.p.y, ROOMY_MOMENTUM)
            && -ROOMY_ANGULAR <= self.motion.l
            && self.motion.l <= ROOMY_ANGULAR
    }

    /// Puts these momenta in place of its own.
    #[inline(always)]
    fn put(&mut self, momenta: Momenta)
        ensures { self.new ≡ record self.old { motion = record self.old.motion { p = momenta.p; l = momenta.l } } }
    {
        self.motion.p = momenta.p;
        self.motion.l = momenta.l;
    }
}

/// `v - w·r / 2^30`
#[inline(always)]
pub(crate) fn carried_back(v: i64, w: i64, r: i64) -> i64
    requires v { unsigned_abs v ≤ 2 ^ 60 }
    requires w { unsigned_abs w ≤ unsigned_abs MAX_SPIN }
    requires r { unsigned_abs r ≤ unsigned_abs MAX_OFFSET }
    ensures value { result ≡ v -ℤ rdiv (w *ℤ r) unit_length }
    ensures within { unsigned_abs result ≤ 2 ^ 60 + 2 ^ 25 }
{
    v - scaled_64(w, r)
}

/// `v + w·r / 2^30`
#[inline(always)]
pub(crate) fn carried_on(v: i64, w: i64, r: i64) -> i64
    requires v { unsigned_abs v ≤ 2 ^ 60 }
    requires w { unsigned_abs w ≤ unsigned_abs MAX_SPIN }
    requires r { unsigned_abs r ≤ unsigned_abs MAX_OFFSET }
    ensures value { result ≡ v +ℤ rdiv (w *ℤ r) unit_length }
    ensures within { unsigned_abs result ≤ 2 ^ 60 + 2 ^ 25 }
{
    v + scaled_64(w, r)
}

/// An angular momentum with the moment of an impulse, of a body that turns.
#[inline(always)]
pub fn turned_by(inertia: i64, l: i128, moment: i128) -> i128
    requires l { unsigned_abs l ≤ 2 ^ 90 }
    requires moment { unsigned_abs moment ≤ 2 ^ 90 }
    ensures { result ≡ turned_by inertia l moment }
{
    if inertia == 0 { l } else { l + moment }
}

/// Whether a component of a momentum is within its limits.
#[inline(always)]
fn is_momentum(p: i64) -> bool
    ensures { result ≡ nat_le (unsigned_abs p) (unsigned_abs MAX_MOMENTUM) }
{
    -MAX_MOMENTUM <= p && p <= MAX_MOMENTUM
}

/// Whether an angular momentum is within its limits.
#[inline(always)]
fn is_angular_momentum(l: i128) -> bool
    ensures { result ≡ nat_le (unsigned_abs l) (unsigned_abs MAX_ANGULAR_MOMENTUM) }
{
    -MAX_ANGULAR_MOMENTUM <= l && l <= MAX_ANGULAR_MOMENTUM
}

/// Whether the momenta are within their limits.
#[inline(always)]
fn fits(momenta: Momenta) -> bool
    ensures value { (s : Motion) → result ≡ fits (record s { p = momenta.p; l = momenta.l }) }
{
    if is_momentum(momenta.p.x) && is_momentum(momenta.p.y) {
        is_angular_momentum(momenta.l)
    } else {
        false
    }
}

/// The impulse `j` (mass·u/tick) given to the second body at its offset `rb` and taken from the first at `ra` (u):
/// whether it was. Where a momentum would leave ±2^60 or an angular momentum ±2^90, neither gets anything. The sum of
/// two movers' momenta is as before.
#[tactic(auto, unfolding(crate::specs::Impulses::impulse_pair))]
#[inline(always)]
pub fn impulse_pair(ends: &mut Ends, j: Vec2, ra: Vec2, rb: Vec2) -> bool
    requires states { AreStates ends.old }
    requires impulse { IsWithin (2 ^ 45) j }
    requires first { IsWithin (unsigned_abs MAX_OFFSET) ra }
    requires second { IsWithin (unsigned_abs MAX_OFFSET) rb }
    ensures value { ends.new ≡ unwrap_or (impulse_pair j ra rb ends.old) ends.old }
    ensures given { result ≡ is_some (impulse_pair j ra rb ends.old) }
    ensures states { AreStates ends.new }
    ensures same { AreSameBodies ends.old ends.new }
    ensures sum_x { ends.old.a.movable ≡ true → ends.old.b.movable ≡ true → ends.new.a.motion.p.x +ℤ ends.new.b.motion.p.x ≡ ends.old.a.motion.p.x +ℤ ends.old.b.motion.p.x }
    ensures sum_y { ends.old.a.movable ≡ true → ends.old.b.movable ≡ true → ends.new.a.motion.p.y +ℤ ends.new.b.motion.p.y ≡ ends.old.a.motion.p.y +ℤ ends.old.b.motion.p.y }
{
    let a = ends.a.momenta_with(opposite(j), ra);
    if !fits(a) {
        return false;
    }
    let b = ends.b.momenta_with(j, rb);
    if !fits(b) {
        return false;
    }
    ends.a.put(a);
    ends.b.put(b);
    true
}
