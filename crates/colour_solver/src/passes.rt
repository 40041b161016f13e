//! Passes over the bodies: two changes of motion, made to each awake mover in one loop.

ghost use Rattle.std.specs.Prelude.{◌≡◌, ℕ, ◌+◌, ◌*◌, ◌^◌, ◌≤◌, None, IfSome, length};
ghost use Rattle.fixed_geom.specs.Vectors.{IsWithin, minus, plus};
ghost use Rattle.momenta.specs.declared.mass.MassData.{MassData};
ghost use Rattle.momenta.specs.declared.motion.Motion.{Motion};
ghost use Rattle.momenta.specs.Gains.{IsGain};
ghost use Rattle.momenta.specs.Reciprocals.{reciprocals_of};
ghost use Rattle.colour_solver.specs.States.{AreSameStates, HaveReciprocals, as_vector, movers_of};
ghost use Rattle.colour_solver.specs.Passes.{OnMover, OnMovers, changed, gain, one_gain, pass};
ghost use Rattle.colour_solver.specs.Sums.{AreSumsOf, first_sum, second_sum};

use body_handles::MAX_SLOTS;
use fixed_geom::{Vec2, ZERO_VECTOR, minus};
use momenta::{
    BodyState, Gain, MassData, Motion, NOTHING, Reciprocals, gain_between, gain_of, plus,
};

/// A change of an awake mover's motion.
pub trait Change {
    ghost after: { Self → MassData → Motion → Motion };

    /// The motions that it may be made to.
    ghost fits: { Self → MassData → Motion → Type 0 };

    /// What is known of the motions that it makes.
    ghost gives: { Self → MassData → Motion → Type 0 };

    fn change(&self, mass: MassData, reciprocals: Reciprocals, motion: Motion) -> Motion
        requires fits { fits self.now mass motion }
        requires reciprocals { reciprocals ≡ reciprocals_of mass }
        ensures value { result ≡ after self.now mass motion }
        ensures gives { gives self.now mass result }
        ensures small { IsWithin (2 ^ 61) result.p };

    /// The same where it adds little momentum, as it nearly always does: `None` where it may add more.
    fn change_64(&self, mass: MassData, reciprocals: Reciprocals, motion: Motion) -> Option<Motion>
        requires fits { fits self.now mass motion }
        requires reciprocals { reciprocals ≡ reciprocals_of mass }
        ensures value { IfSome result (λ r. r ≡ after self.now mass motion) }
        ensures gives { IfSome result (gives self.now mass) }
        ensures near { IfSome result (λ r. IsWithin (2 ^ 36) (minus r.p motion.p)) }
        ensures small { IfSome result (λ r. IsWithin (2 ^ 61) r.p) };
}

/// What each of two changes has added to the movers' momentum.
#[derive(Clone, Copy, Debug, PartialEq, Eq)]
pub struct Gains {
    pub first: Gain,
    pub second: Gain,
}

/// Makes two changes to an awake mover, and none to another body.
#[cold]
#[inline(never)]
fn change_body<A: Change, B: Change>(body: &mut BodyState, first: &A, second: &B) -> Gains
    requires reciprocals { body.old.reciprocals ≡ reciprocals_of body.old.mass }
    requires fits { OnMover (A.fits first.now) body.old }
    requires meets { (m : MassData) (s : Motion) → A.gives first.now m s → B.fits second.now m s }
    requires small { OnMover (λ m s. IsWithin (2 ^ 61) s.p) body.old }
    ensures body { body.new ≡ changed (B.after second.now) (changed (A.after first.now) body.old) }
    ensures first { as_vector result.first ≡ one_gain (A.after first.now) body.old }
    ensures second { as_vector result.second ≡ one_gain (B.after second.now) (changed (A.after first.now) body.old) }
    ensures small_first { IsGain (2 ^ 62) result.first }
    ensures small_second { IsGain (2 ^ 62) result.second }
    ensures gives { OnMover (B.gives second.now) body.new }
{
    if !body.movable {
        return Gains {
            first: NOTHING,
            second: NOTHING,
        };
    }
    let between = first.change(body.mass, body.reciprocals, body.motion);
    let last = second.change(body.mass, body.reciprocals, between);
    let gains = Gains {
        first: gain_between(body.motion.p, between.p),
        second: gain_between(between.p, last.p),
    };
    body.motion = last;
    gains
}

/// What each of two changes has added where it was little.
#[derive(Clone, Copy)]
struct Gains64 {
    first: Vec2,
    second: Vec2,
}

/// What two changes have added so far: in 64 bits where it was little, and beside it where it was more.
#[derive(Clone, Copy)]
struct Sums {
    little: Gains64,
    more: Gains,
}

/// The sums with what was little.
#[inline(always)]
fn plus_64(sums: Sums, gains: Gains64) -> Sums
    requires sums { AreSumsOf MAX_SLOTS sums }
    requires first { IsWithin (2 ^ 36) gains.first }
    requires second { IsWithin (2 ^ 36) gains.second }
    ensures first { first_sum result ≡ plus (first_sum sums) gains.first }
    ensures second { second_sum result ≡ plus (second_sum sums) gains.second }
    ensures grown { (k : ℕ) → AreSumsOf k sums → AreSumsOf (k + 1) result }
{
    Sums {
        little: Gains64 {
            first: fixed_geom::plus(sums.little.first, gains.first),
            second: fixed_geom::plus(sums.little.second, gains.second),
        },
        more: sums.more,
    }
}

/// The sums with what was more.
fn plus_more(sums: Sums, gains: Gains) -> Sums
    requires sums { AreSumsOf MAX_SLOTS sums }
    requires first { IsGain (2 ^ 62) gains.first }
    requires second { IsGain (2 ^ 62) gains.second }
    ensures first { first_sum result ≡ plus (first_sum sums) (as_vector gains.first) }
    ensures second { second_sum result ≡ plus (second_sum sums) (as_vector gains.second) }
    ensures grown { (k : ℕ) → AreSumsOf k sums → AreSumsOf (k + 1) result }
{
    Sums {
        little: sums.little,
        more: Gains {
            first: plus(sums.more.first, gains.first),
            second: plus(sums.more.second, gains.second),
        },
    }
}

/// Both sums in one.
fn sums_of(sums: Sums) -> Gains
    requires sums { AreSumsOf MAX_SLOTS sums }
    ensures first { as_vector result.first ≡ first_sum sums }
    ensures second { as_vector result.second ≡ second_sum sums }
    ensures small_first { IsGain (2 ^ 78) result.first }
    ensures small_second { IsGain (2 ^ 78) result.second }
{
    Gains {
        first: plus(sums.more.first, gain_of(sums.little.first)),
        second: plus(sums.more.second, gain_of(sums.little.second)),
    }
}

/// Makes two changes to an awake mover, if both add little.
#[inline(always)]
fn change_body_64<A: Change, B: Change>(
    body: &mut BodyState,
    first: &A,
    second: &B,
) -> Option<Gains64>
    requires reciprocals { body.old.reciprocals ≡ reciprocals_of body.old.mass }
    requires fits { OnMover (A.fits first.now) body.old }
    requires meets { (m : MassData) (s : Motion) → A.gives first.now m s → B.fits second.now m s }
    requires small { OnMover (λ m s. IsWithin (2 ^ 61) s.p) body.old }
    ensures body { IfSome result (λ _. body.new ≡ changed (B.after second.now) (changed (A.after first.now) body.old)) }
    ensures first { IfSome result (λ r. r.first ≡ one_gain (A.after first.now) body.old) }
    ensures second { IfSome result (λ r. r.second ≡ one_gain (B.after second.now) (changed (A.after first.now) body.old)) }
    ensures small_first { IfSome result (λ r. IsWithin (2 ^ 36) r.first) }
    ensures small_second { IfSome result (λ r. IsWithin (2 ^ 36) r.second) }
    ensures gives { IfSome result (λ _. OnMover (B.gives second.now) body.new) }
    ensures none { result ≡ None → body.new ≡ body.old }
{
    if !body.movable {
        return None;
    }
    match first.change_64(body.mass, body.reciprocals, body.motion) {
        None => None,
        Some(between) => match second.change_64(body.mass, body.reciprocals, between) {
            None => None,
            Some(last) => {
                let gains = Gains64 {
                    first: minus(between.p, body.motion.p),
                    second: minus(last.p, between.p),
                };
                body.motion = last;
                Some(gains)
            }
        },
    }
}

/// Makes two changes to an awake mover, and none to another body. Answers the sums so far with what they have added.
#[inline(always)]
fn change_next<A: Change, B: Change>(
    body: &mut BodyState,
    first: &A,
    second: &B,
    sums: Sums,
) -> Sums
    requires reciprocals { body.old.reciprocals ≡ reciprocals_of body.old.mass }
    requires fits { OnMover (A.fits first.now) body.old }
    requires meets { (m : MassData) (s : Motion) → A.gives first.now m s → B.fits second.now m s }
    requires small { OnMover (λ m s. IsWithin (2 ^ 61) s.p) body.old }
    requires sums { AreSumsOf MAX_SLOTS sums }
    ensures body { body.new ≡ changed (B.after second.now) (changed (A.after first.now) body.old) }
    ensures first { first_sum result ≡ plus (first_sum sums) (one_gain (A.after first.now) body.old) }
    ensures second { second_sum result ≡ plus (second_sum sums) (one_gain (B.after second.now) (changed (A.after first.now) body.old)) }
    ensures grown { (k : ℕ) → AreSumsOf k sums → AreSumsOf (k + 1) result }
    ensures gives { OnMover (B.gives second.now) body.new }
{
    match change_body_64(body, first, second) {
        Some(gains) => plus_64(sums, gains),
        None => plus_more(sums, change_body(body, first, second)),
    }
}

/// Makes two changes to each awake mover, one after the other, in one pass over their slots, `awake`.
pub fn pass_two<A: Change, B: Change>(
    states: &mut Vec<BodyState>,
    awake: &[u32],
    first: &A,
    second: &B,
) -> Gains
    requires few { length states.old.items ≤ MAX_SLOTS }
    requires awake { awake.now ≡ movers_of states.old.items }
    requires reciprocals { HaveReciprocals states.old.items }
    requires fits { OnMovers (A.fits first.now) states.old.items }
    requires meets { (m : MassData) (s : Motion) → A.gives first.now m s → B.fits second.now m s }
    requires small { OnMovers (λ m s. IsWithin (2 ^ 61) s.p) states.old.items }
    ensures states { states.new.items ≡ pass (B.after second.now) (pass (A.after first.now) states.old.items) }
    ensures first { as_vector result.first ≡ gain (A.after first.now) states.old.items }
    ensures second { as_vector result.second ≡ gain (B.after second.now) (pass (A.after first.now) states.old.items) }
    ensures small_first { IsGain (2 ^ 78) result.first }
    ensures small_second { IsGain (2 ^ 78) result.second }
    ensures gives { OnMovers (B.gives second.now) states.new.items }
    ensures same { AreSameStates states.old.items states.new.items }
    ensures movers { movers_of states.new.items ≡ movers_of states.old.items }
{
    let mut sums = Sums {
        little: Gains64 {
            first: ZERO_VECTOR,
            second: ZERO_VECTOR,
        },
        more: Gains {
            first: NOTHING,
            second: NOTHING,
        },
    };
    for place in 0..awake.len() {
        sums = change_next(&mut states[awake[place] as usize], first, second, sums);
    }
    sums_of(sums)
}
