//! What a visit has given two bodies, written back into their slots: only their momenta are written.

ghost use Rattle.std.specs.Prelude.{◌≡◌, ◌≢◌, ◌^◌, ◌<◌, length};
ghost use Rattle.momenta.specs.ImpulseBounds.{AreStates, IsSameBody, IsState};
ghost use Rattle.momenta.specs.Line64.{with_momenta};
ghost use Rattle.momenta.specs.Gains.{IsGain};
ghost use Rattle.fixed_geom.specs.Vectors.{IsWithin, minus};
ghost use Rattle.colour_solver.specs.States.{AreAllStates, as_vector};
ghost use Rattle.colour_solver.specs.RowVisits.{centres_64, ends_64, ends_of, got, got_by, with_ends};

use crate::Slots;
use fixed_geom::Vec2;
use joint_rows::MomentumPair;
use momenta::{BodyState, Gain, Momenta64, MomentaPair64, NOTHING, gain_between};

/// What a mover got where the other body is immovable: the momenta of the two are now `p` and `q`.
#[inline(always)]
pub(crate) fn got(a: &BodyState, b: &BodyState, p: Vec2, q: Vec2) -> Gain
    requires first { IsState a.now }
    requires second { IsState b.now }
    requires p { IsWithin (2 ^ 60) p }
    requires q { IsWithin (2 ^ 60) q }
    ensures value { as_vector result ≡ got_by a.now.movable b.now.movable (minus p a.now.motion.p) (minus q b.now.motion.p) }
    ensures small { IsGain (2 ^ 62) result }
{
    if a.movable {
        if b.movable {
            NOTHING
        } else {
            gain_between(a.motion.p, p)
        }
    } else if b.movable {
        gain_between(b.motion.p, q)
    } else {
        NOTHING
    }
}

/// Makes a body the one that impulses have made of it: only its momenta are written.
#[inline(always)]
pub(crate) fn put_momenta(body: &mut BodyState, after: &BodyState)
    requires { IsSameBody body.old after.now }
    ensures { body.new ≡ after.now }
{
    body.motion.p = after.motion.p;
    body.motion.l = after.motion.l;
}

/// Puts these momenta into a body.
#[inline(always)]
fn put_64(body: &mut BodyState, now: Momenta64)
    ensures { body.new ≡ with_momenta body.old now }
{
    body.motion.p = now.p;
    body.motion.l = i128::from(now.l);
}

/// Puts the momenta that a visit has given the bodies in these slots in their places. Answers what the immovable one
/// has given, if one is.
#[inline(always)]
pub(crate) fn put_visit(states: &mut Vec<BodyState>, slots: Slots, now: MomentaPair64) -> Gain
    requires states { AreAllStates states.old.items }
    requires first { slots.a < length states.old.items }
    requires second { slots.b < length states.old.items }
    requires apart { slots.a ≢ slots.b }
    requires after { AreStates (ends_64 (λ s. s) states.old.items slots now) }
    ensures states { states.new.items ≡ with_ends (λ s. s) states.old.items slots (ends_64 (λ s. s) states.old.items slots now) }
    ensures got { as_vector result ≡ got (ends_of (λ s. s) states.old.items slots) (ends_64 (λ s. s) states.old.items slots now) }
    ensures small { IsGain (2 ^ 62) result }
{
    let a = slots.a as usize;
    let b = slots.b as usize;
    let given = got(&states[a], &states[b], now.a.p, now.b.p);
    put_64(&mut states[a], now.a);
    put_64(&mut states[b], now.b);
    given
}

/// Puts this momentum into a body.
#[inline(always)]
fn put_momentum(body: &mut BodyState, p: Vec2)
    ensures { body.new ≡ with_momenta body.old (record { p = p; l = body.old.motion.l }) }
{
    body.motion.p = p;
}

/// Puts the momenta that a visit between their centres has given the bodies in these slots in their places. Answers
/// what the immovable one has given, if one is.
#[inline(always)]
pub(crate) fn put_centres(states: &mut Vec<BodyState>, slots: Slots, now: MomentumPair) -> Gain
    requires states { AreAllStates states.old.items }
    requires first { slots.a < length states.old.items }
    requires second { slots.b < length states.old.items }
    requires apart { slots.a ≢ slots.b }
    requires after { AreStates (centres_64 (λ s. s) states.old.items slots now) }
    ensures states { states.new.items ≡ with_ends (λ s. s) states.old.items slots (centres_64 (λ s. s) states.old.items slots now) }
    ensures got { as_vector result ≡ got (ends_of (λ s. s) states.old.items slots) (centres_64 (λ s. s) states.old.items slots now) }
    ensures small { IsGain (2 ^ 62) result }
{
    let a = slots.a as usize;
    let b = slots.b as usize;
    let given = got(&states[a], &states[b], now.a, now.b);
    put_momentum(&mut states[a], now.a);
    put_momentum(&mut states[b], now.b);
    given
}
