//! Bodies that fall asleep and wake, as the labels of the islands tell, and for how long each has been slow.

ghost use Rattle.std.specs.Prelude.{◌≡◌, ◌+◌, ◌<◌, ◌≤◌, ◌≤ℤ◌, ◌^◌, nat_le, pos, true, unsigned_abs};
ghost use Rattle.std.specs.Option.{IfSome, ForSome};
ghost use Rattle.fixed_geom.specs.Numbers.{rdiv};
ghost use Rattle.fixed_geom.specs.Vectors.{IsWithin, is_within};
ghost use Rattle.momenta.specs.Motions.{IsMass, IsMotion, spin, velocity};
ghost use Rattle.momenta.specs.declared.limits.TheConstants.{MAX_ANGULAR_MOMENTUM, MAX_MASS, MAX_MOMENTUM};
ghost use Rattle.plain_world.specs.Bodies.{IsBody, is_awake};
ghost use Rattle.plain_world.specs.Sleep.{is_slow, body_at_rest, roused, timed, told_body, told_by};

use crate::body::Body;
use fixed_geom::Vec2;
use islands::{Label, sleeping_name};
use momenta::{MassData, Motion};

/// The greatest size of a component of the velocity of what is slow, in u/tick.
pub const SLOW_SPEED: i64 = 205;

/// The greatest spin of what is slow: the tangent of the turn of a tick times 2^30.
pub const SLOW_SPIN: i64 = 209_715;

/// Whether a component of the momentum of a body with this mass is slow. The velocity `p / mass`, rounded, is within
/// `SLOW_SPEED` exactly where `2·|p|` is below `mass·(2·SLOW_SPEED + 1)`, which takes no division.
#[inline(always)]
fn is_component_slow(p: i64, mass: i64) -> bool
    requires momentum { unsigned_abs p ≤ unsigned_abs MAX_MOMENTUM }
    requires positive { pos 1 ≤ℤ mass }
    requires mass { unsigned_abs mass ≤ unsigned_abs MAX_MASS }
    ensures { result ≡ nat_le (unsigned_abs (rdiv p mass)) (unsigned_abs SLOW_SPEED) }
{
    2 * p.unsigned_abs() < mass.unsigned_abs() * (2 * SLOW_SPEED.unsigned_abs() + 1)
}

/// Whether the velocity of a body with this momentum and mass is slow.
#[tactic(auto, unfolding(momenta::specs::Motions::velocity))]
#[inline(always)]
fn is_velocity_slow(p: Vec2, mass: i64) -> bool
    requires momentum { IsWithin (unsigned_abs MAX_MOMENTUM) p }
    requires positive { pos 1 ≤ℤ mass }
    requires mass { unsigned_abs mass ≤ unsigned_abs MAX_MASS }
    ensures { result ≡ is_within (unsigned_abs SLOW_SPEED) (velocity mass p) }
{
    is_component_slow(p.x, mass) && is_component_slow(p.y, mass)
}

/// Whether the spin of a body that turns is slow, by the same test of `l·2^30`.
#[inline(always)]
fn is_turn_slow(l: i128, inertia: i64) -> bool
    requires momentum { unsigned_abs l ≤ unsigned_abs MAX_ANGULAR_MOMENTUM }
    requires positive { pos 1 ≤ℤ inertia }
    ensures { result ≡ nat_le (unsigned_abs (spin inertia l)) (unsigned_abs SLOW_SPIN) }
{
    let most = u128::from(inertia.unsigned_abs()) * u128::from(2 * SLOW_SPIN.unsigned_abs() + 1);
    l.unsigned_abs() * (1 << 31) < most
}

/// Whether the spin of a body is slow: one of inertia 0 has none.
#[inline(always)]
fn is_spin_slow(l: i128, inertia: i64) -> bool
    requires momentum { unsigned_abs l ≤ unsigned_abs MAX_ANGULAR_MOMENTUM }
    requires nonnegative { pos 0 ≤ℤ inertia }
    ensures { result ≡ nat_le (unsigned_abs (spin inertia l)) (unsigned_abs SLOW_SPIN) }
{
    if inertia == 0 {
        true
    } else {
        is_turn_slow(l, inertia)
    }
}

/// Whether a body with this mass and motion is slow.
#[tactic(auto, unfolding(crate::specs::Sleep::is_slow))]
fn is_slow(mass: MassData, motion: Motion) -> bool
    requires mass { IsMass mass }
    requires motion { IsMotion mass motion }
    ensures { result ≡ is_slow mass motion }
{
    is_velocity_slow(motion.p, mass.mass) && is_spin_slow(motion.l, mass.inertia)
}

impl Body {
    /// Puts a mover to rest with the island of this name: it loses its momenta, and its timer stays.
    fn put_to_rest(&mut self, name: u32)
        ensures { self.new ≡ body_at_rest name self.old }
    {
        self.motion.p = Vec2 { x: 0, y: 0 };
        self.motion.l = 0;
        self.asleep = Some(name);
    }

    /// Wakes a mover: its timer begins anew.
    fn rouse(&mut self)
        ensures { self.new ≡ roused self.old }
    {
        self.asleep = None;
        self.timer = 0;
    }

    fn tell_mover(&mut self, asleep: Option<u32>)
        ensures { self.new ≡ told_by asleep self.old }
    {
        match asleep {
            Some(name) => self.put_to_rest(name),
            None => {
                if self.asleep.is_some() {
                    self.rouse();
                }
            }
        }
    }

    /// Puts a mover to rest or wakes it, as the label of its island tells. What isn't a mover stays as it is.
    pub fn tell(&mut self, label: Option<Label>)
        ensures { self.new ≡ told_body label self.old }
    {
        if self.is_mover() {
            self.tell_mover(sleeping_name(label));
        }
    }

    /// Lets so many ticks pass: the timer of an awake mover that is slow grows by them, and that of any other awake
    /// mover begins anew.
    pub fn time(&mut self, ticks: u64)
        requires body { IsBody self.old }
        requires timer { self.old.timer ≤ 2 ^ 44 }
        requires ticks { ticks ≤ 2 ^ 44 }
        ensures { self.new ≡ timed ticks self.old }
    {
        if !self.is_awake() {
            return;
        }
        self.timer = if is_slow(self.mass, self.motion) {
            self.timer + ticks
        } else {
            0
        };
    }
}

/// The law of the limits: the numbers that definitions take from the code, in digits. The function does nothing; its
/// contract is the law.
pub fn limits_in_digits()
    ensures speed { SLOW_SPEED ≡ pos 205 }
    ensures spin { SLOW_SPIN ≡ pos 209715 }
{}
