//! The ticks of a step, and the restitution that ends it.

ghost use Rattle.std.specs.Prelude.{◌≡◌, ℕ, ◌^◌, ◌*◌, ◌+◌, ◌≤◌, length, map};
ghost use Rattle.fixed_geom.specs.Vectors.{IsWithin, plus};
ghost use Rattle.momenta.specs.Motions.{pulled, speed_clamped, advanced, IsMotion};
ghost use Rattle.colour_solver.specs.States.{AreAllStates, AreSameBeside, HaveCourses, carried_of, movers_of, total};
ghost use Rattle.colour_solver.specs.Colour.{AreColours};
ghost use Rattle.colour_solver.specs.ColourRows.{all_rows};
ghost use Rattle.colour_solver.specs.ConstraintVisits.{AreRowsBelow, is_joint};
ghost use Rattle.colour_solver.specs.Ticks.{AreSums, CanLimit, CanMove, CanPull, added, ran, run_of, start, tick, ticks};

use crate::courses::carry_along;
use crate::{Change, Passes, Phase, Rows, pass_two};
use body_handles::MAX_SLOTS;
use fixed_geom::Vec2;
use momenta::{
    BodyState, Gain, MassData, Motion, NOTHING, Reciprocals, advance, advance_inside, clamp_speed,
    is_slow, plus, pull,
};

/// What a step has added to the movers' momentum, by cause.
#[derive(Clone, Copy, Debug, PartialEq, Eq)]
pub struct StepSums {
    pub gravity: Gain,
    /// By immovable bodies, through joints and contacts.
    pub immovable: Gain,
    /// By the speed limit, and by the edge of the world.
    pub clamp: Gain,
}

/// A tick of gravity.
#[derive(Clone, Copy)]
pub struct Pull {
    pub gravity: Vec2,
}

impl Change for Pull {
    ghost after = { λ pull m s. pulled pull.gravity m s };

    ghost fits = { λ pull m s. CanPull pull.gravity m s };

    ghost gives = { λ _ m s. CanLimit m s };

    fn change(&self, mass: MassData, reciprocals: Reciprocals, motion: Motion) -> Motion {
        pull(motion, mass, self.gravity)
    }

    #[inline(always)]
    fn change_64(
        &self,
        mass: MassData,
        reciprocals: Reciprocals,
        motion: Motion,
    ) -> Option<Motion> {
        Some(pull(motion, mass, self.gravity))
    }
}

/// The speed limit.
#[derive(Clone, Copy)]
pub struct Limit;

impl Change for Limit {
    ghost after = { λ _ m s. speed_clamped m s };

    ghost fits = { λ _ m s. CanLimit m s };

    ghost gives = { λ _ m s. CanMove m s };

    fn change(&self, mass: MassData, reciprocals: Reciprocals, motion: Motion) -> Motion {
        let (limited, _) = clamp_speed(motion, mass);
        limited
    }

    #[inline(always)]
    fn change_64(
        &self,
        mass: MassData,
        reciprocals: Reciprocals,
        motion: Motion,
    ) -> Option<Motion> {
        if is_slow(motion, mass) {
            Some(motion)
        } else {
            None
        }
    }
}

/// The move.
#[derive(Clone, Copy)]
pub struct Move;

impl Change for Move {
    ghost after = { λ _ m s. advanced m s };

    ghost fits = { λ _ m s. CanMove m s };

    ghost gives = { λ _ m s. IsMotion m s };

    fn change(&self, mass: MassData, reciprocals: Reciprocals, motion: Motion) -> Motion {
        let (moved, _) = advance(motion, mass, reciprocals);
        moved
    }

    #[inline(always)]
    fn change_64(
        &self,
        mass: MassData,
        reciprocals: Reciprocals,
        motion: Motion,
    ) -> Option<Motion> {
        advance_inside(motion, mass, reciprocals)
    }
}

/// One tick of the awake movers and the constraints: gravity, the speed limit, the warm start, the solver's pass, the
/// speed limit again, the move; and then of the bodies that are carried along. Adds to the sums so far.
#[tactic(auto, unfolding(crate::specs::Ticks::tick))]
fn tick<P: Passes>(
    states: &mut Vec<BodyState>,
    rows: &mut P,
    awake: &[u32],
    carried: &[u32],
    gravity: Vec2,
    sums: StepSums,
) -> StepSums
    requires few { length states.old.items ≤ MAX_SLOTS }
    requires gravity { IsWithin (2 ^ 16) gravity }
    requires states { AreAllStates states.old.items }
    requires awake { awake.now ≡ movers_of states.old.items }
    requires carried { carried.now ≡ carried_of states.old.items }
    requires courses { HaveCourses states.old.items }
    requires rows { AreRowsBelow (length states.old.items) (all_rows (P.rows rows.old)) }
    requires apart { AreColours states.old.items (P.rows rows.old) }
    requires fits { P.fits rows.old (length states.old.items) }
    requires sums { AreSums (2 ^ 83) sums }
    ensures tick { run_of states.new.items (all_rows (P.rows rows.new)) result ≡ tick gravity (run_of states.old.items (all_rows (P.rows rows.old)) sums) }
    ensures states { AreAllStates states.new.items }
    ensures rows { AreRowsBelow (length states.new.items) (all_rows (P.rows rows.new)) }
    ensures apart { AreColours states.new.items (P.rows rows.new) }
    ensures fits { (n : ℕ) → P.fits rows.old n → P.fits rows.new n }
    ensures colours { map length (P.rows rows.new).colours ≡ map length (P.rows rows.old).colours }
    ensures long { length states.new.items ≡ length states.old.items }
    ensures same { AreSameBeside states.old.items states.new.items }
    ensures courses { HaveCourses states.new.items }
    ensures grown { (n : ℕ) → AreSums n sums → AreSums (n + 3 * 2 ^ 78) result }
    ensures momentum { plus (total states.new.items) (added sums) ≡ plus (total states.old.items) (added result) }
{
    let fallen = pass_two(states, awake, &Pull { gravity }, &Limit);
    let warm = rows.pass(states, Phase::Warm);
    let solved = rows.pass(states, Phase::Solve);
    let moved = pass_two(states, awake, &Limit, &Move);
    carry_along(states, carried);
    let pulled = plus(sums.gravity, fallen.first);
    let warmed = plus(sums.immovable, warm);
    let immovable = plus(warmed, solved);
    let limited = plus(sums.clamp, fallen.second);
    let limited_again = plus(limited, moved.first);
    let clamp = plus(limited_again, moved.second);
    StepSums {
        gravity: pulled,
        immovable,
        clamp,
    }
}

/// Runs that many ticks, 0 to 8, over the awake movers, whose slots are `awake`, and the joints and contacts, and then
/// the restitution: in each tick gravity (u/tick², each component within ±2^16), the speed limit, the warm start and
/// the solver's pass over them in their order, the speed limit again, and the move. The bodies that are carried along,
/// whose slots are `carried`, move on at the end of each tick; any other body stays as it is.
///
/// Answers what gravity, what immovable bodies, and what the speed limit with the edge of the world have added to the
/// movers' momentum (mass·u/tick).
#[tactic(auto, unfolding(crate::specs::Ticks::ran))]
pub fn run_ticks<P: Passes>(
    states: &mut Vec<BodyState>,
    rows: &mut P,
    awake: &[u32],
    carried: &[u32],
    gravity: Vec2,
    count: u64,
) -> StepSums
    requires few { length states.old.items ≤ MAX_SLOTS }
    requires gravity { IsWithin (2 ^ 16) gravity }
    requires states { AreAllStates states.old.items }
    requires awake { awake.now ≡ movers_of states.old.items }
    requires carried { carried.now ≡ carried_of states.old.items }
    requires courses { HaveCourses states.old.items }
    requires rows { AreRowsBelow (length states.old.items) (all_rows (P.rows rows.old)) }
    requires apart { AreColours states.old.items (P.rows rows.old) }
    requires fits { P.fits rows.old (length states.old.items) }
    requires count { count ≤ 8 }
    ensures run { run_of states.new.items (all_rows (P.rows rows.new)) result ≡ ran count gravity (start states.old.items (all_rows (P.rows rows.old))) }
    ensures states { AreAllStates states.new.items }
    ensures rows { AreRowsBelow (length states.new.items) (all_rows (P.rows rows.new)) }
    ensures apart { AreColours states.new.items (P.rows rows.new) }
    ensures kinds { map is_joint (all_rows (P.rows rows.new)) ≡ map is_joint (all_rows (P.rows rows.old)) }
    ensures fits { (n : ℕ) → P.fits rows.old n → P.fits rows.new n }
    ensures colours { map length (P.rows rows.new).colours ≡ map length (P.rows rows.old).colours }
    ensures long { length states.new.items ≡ length states.old.items }
    ensures same { AreSameBeside states.old.items states.new.items }
    ensures courses { HaveCourses states.new.items }
    ensures small { AreSums (2 ^ 83) result }
    ensures momentum { total states.new.items ≡ plus (total states.old.items) (added result) }
{
    let mut sums = StepSums {
        gravity: NOTHING,
        immovable: NOTHING,
        clamp: NOTHING,
    };
    for index in 0..count {
        sums = tick(states, rows, awake, carried, gravity, sums);
    }
    let bounced = rows.pass(states, Phase::Bounce);
    StepSums {
        immovable: plus(sums.immovable, bounced),
        ..sums
    }
}

/// The same on the calling thread.
pub fn run_step(
    states: &mut Vec<BodyState>,
    rows: &mut Rows,
    awake: &[u32],
    carried: &[u32],
    gravity: Vec2,
    count: u64,
) -> StepSums
    requires few { length states.old.items ≤ MAX_SLOTS }
    requires gravity { IsWithin (2 ^ 16) gravity }
    requires states { AreAllStates states.old.items }
    requires awake { awake.now ≡ movers_of states.old.items }
    requires carried { carried.now ≡ carried_of states.old.items }
    requires courses { HaveCourses states.old.items }
    requires rows { AreRowsBelow (length states.old.items) (all_rows rows.old) }
    requires apart { AreColours states.old.items rows.old }
    requires count { count ≤ 8 }
    ensures run { run_of states.new.items (all_rows rows.new) result ≡ ran count gravity (start states.old.items (all_rows rows.old)) }
    ensures states { AreAllStates states.new.items }
    ensures rows { AreRowsBelow (length states.new.items) (all_rows rows.new) }
    ensures apart { AreColours states.new.items rows.new }
    ensures colours { map length rows.new.colours ≡ map length rows.old.colours }
    ensures long { length states.new.items ≡ length states.old.items }
    ensures same { AreSameBeside states.old.items states.new.items }
    ensures courses { HaveCourses states.new.items }
    ensures small { AreSums (2 ^ 83) result }
    ensures momentum { total states.new.items ≡ plus (total states.old.items) (added result) }
{
    run_ticks(states, rows, awake, carried, gravity, count)
}
