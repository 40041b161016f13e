//! Steps of points, worked by hand.

ghost use Rattle.std.specs.Prelude.{◌≡◌, ◌^◌, ◌≤◌, [], ◌∷◌, length, IfOk, true, false, pos, neg_ℤ, ◌≤ℤ◌, unsigned_abs};
ghost use Rattle.fixed_geom.specs.Vectors.{IsWithin};
ghost use Rattle.momenta.specs.ImpulseBounds.{IsState};
ghost use Rattle.colour_solver_base.specs.Rows.{IsRow};
ghost use Rattle.colour_solver.specs.States.{AreAllStates, HaveCourses, carried_of, is_carried, movers_of};
ghost use Rattle.colour_solver.specs.ColourRows.{all_rows};
ghost use Rattle.colour_solver.specs.ConstraintVisits.{AreRowsBelow, IsRowBelow};
ghost use Rattle.colour_solver.specs.declared.constraint_row.ConstraintRow.TheVariants.{Contact};
ghost use Rattle.colour_solver.specs.Ticks.{start, ticks};

use crate::assertions::same_items;
use colour_solver::{Rows, StepSums, run_step};
use colour_solver_base::{Bodies, ContactRow, PointRow};
use fixed_geom::{Refusal, Rot, Vec2};
use momenta::{BodyState, Gain, MassData, Motion, inverse_reciprocal, reciprocals_of};
use std::alloc::Global;

const ORIGIN: Vec2 = Vec2 { x: 0, y: 0 };

const AHEAD: Rot = Rot { c: 1 << 30, s: 0 };

fn at(x: i64, y: i64) -> Vec2
    ensures { result ≡ record { x = x; y = y } }
{
    Vec2 { x, y }
}

/// A point of this mass and momentum, at the origin.
fn point(movable: bool, mass: i64, p: Vec2) -> BodyState
    requires positive { pos 1 ≤ℤ mass }
    requires mass { unsigned_abs mass ≤ 2 ^ 20 }
    requires slow { IsWithin (2 ^ 60) p }
    ensures state { IsState result }
    ensures movable { result.movable ≡ movable }
    ensures stands { is_carried result ≡ false }
{
    let weight = MassData { mass, inertia: 0 };
    BodyState {
        movable,
        mass: weight,
        motion: Motion {
            p,
            l: 0,
            x: ORIGIN,
            rot: AHEAD,
        },
        start: ORIGIN,
        reciprocals: reciprocals_of(weight),
    }
}

fn one_body(alloc: Global, state: BodyState) -> Result<Vec<BodyState>, Refusal>
    requires state { IsState state }
    requires stands { is_carried state ≡ false }
    ensures items { IfOk result (λ states. states.items ≡ state ∷ []) }
    ensures states { IfOk result (λ states. AreAllStates states.items) }
    ensures courses { IfOk result (λ states. HaveCourses states.items) }
{
    let mut states = Vec::with_capacity(alloc, 1)?;
    states.push(state)?;
    Ok(states)
}

fn no_rows(alloc: Global) -> Rows
    ensures rows { all_rows result ≡ [] }
    ensures colours { result.colours ≡ [] }
{
    Rows::new(alloc)
}

/// What a step has added, and what it leaves.
#[derive(Drop)]
struct After {
    sums: StepSums,
    states: Vec<BodyState>,
    rows: Rows,
}

const NOTHING: Gain = Gain { x: 0, y: 0 };

/// Where a body is, and its momentum.
fn motion_of(after: &After, place: usize) -> Option<(Vec2, Vec2)> {
    match after.states.get(place) {
        Some(state) => Some((state.motion.x, state.motion.p)),
        None => None,
    }
}

fn fallen(alloc: Global) -> Result<After, Refusal> {
    let mut states = one_body(alloc, point(true, 256, ORIGIN))?;
    let mut rows = no_rows(alloc);
    let sums = run_step(&mut states, &mut rows, &[0], &[], at(0, -157), 4);
    Ok(After { sums, states, rows })
}

fn limited(alloc: Global) -> Result<After, Refusal> {
    let mut states = one_body(alloc, point(true, 1, at(2097152, 0)))?;
    let mut rows = no_rows(alloc);
    let sums = run_step(&mut states, &mut rows, &[0], &[], ORIGIN, 1);
    Ok(After { sums, states, rows })
}

/// The contact of a point of mass 1 that comes down on an immovable body at 8,192 u a tick, and bounces in full.
fn landing() -> ContactRow
    ensures { IsRowBelow 2 (Contact result) }
{
    let point = PointRow {
        normal: Vec2 { x: 0, y: 1 << 30 },
        ra: ORIGIN,
        rb: ORIGIN,
        normal_inverse: 1 << 40,
        tangent_inverse: 1 << 40,
        normal_reciprocal: inverse_reciprocal(1 << 40),
        tangent_reciprocal: inverse_reciprocal(1 << 40),
        separation: 0,
        start_speed: -8192,
        normal_impulse: 0,
        tangent_impulse: 0,
    };
    ContactRow {
        bodies: Bodies {
            a: 0,
            b: 1,
            first: 0,
            second: 0,
            friction: 0,
            restitution: 256,
        },
        first: point,
        second: None,
    }
}

fn two_bodies(alloc: Global) -> Result<Vec<BodyState>, Refusal>
    ensures long { IfOk result (λ states. length states.items ≡ 2) }
    ensures states { IfOk result (λ states. AreAllStates states.items) }
    ensures movers { IfOk result (λ states. movers_of states.items ≡ 1 ∷ []) }
    ensures carried { IfOk result (λ states. carried_of states.items ≡ []) }
    ensures courses { IfOk result (λ states. HaveCourses states.items) }
{
    let mut states = one_body(alloc, point(false, 1, ORIGIN))?;
    states.push(point(true, 1, at(0, -8192)))?;
    Ok(states)
}

fn one_row(alloc: Global, row: ContactRow) -> Result<Rows, Refusal>
    requires { IsRowBelow 2 (Contact row) }
    ensures rows { IfOk result (λ rows. AreRowsBelow 2 (all_rows rows)) }
    ensures colours { IfOk result (λ rows. rows.colours ≡ (Contact row ∷ []) ∷ []) }
{
    let mut rows = Rows::new(alloc);
    rows.reserve(1, 1)?;
    rows.push_contact(row);
    rows.end_colour();
    Ok(rows)
}

fn bounced(alloc: Global) -> Result<After, Refusal> {
    let mut states = two_bodies(alloc)?;
    let mut rows = one_row(alloc, landing())?;
    let sums = run_step(&mut states, &mut rows, &[1], &[], ORIGIN, 1);
    Ok(After { sums, states, rows })
}

/// The normal impulse at the first point of the first contact.
fn first_impulse(after: &After) -> Option<i64> {
    match after.rows.contacts().first() {
        Some(contact) => Some(contact.first.normal_impulse),
        None => None,
    }
}

/// What a step has booked, the motions of the first two bodies after it, and the impulse of the first contact.
type Told = (StepSums, [Option<(Vec2, Vec2)>; 2], Option<i64>);

fn told(stepped: Result<After, Refusal>) -> Result<Told, Refusal> {
    match stepped {
        Ok(after) => {
            let motions = [motion_of(&after, 0), motion_of(&after, 1)];
            Ok((after.sums, motions, first_impulse(&after)))
        }
        Err(refusal) => Err(refusal),
    }
}

/// A point falls for four ticks, the speed limit is booked as clamp, and a point bounces off an immovable body.
#[test]
fn steps_of_points(rt: HostRuntime) {
    let steps = [
        told(fallen(rt.alloc())),
        told(limited(rt.alloc())),
        told(bounced(rt.alloc())),
    ];
    let of_fall = StepSums {
        gravity: Gain { x: 0, y: -160768 },
        immovable: NOTHING,
        clamp: NOTHING,
    };
    let of_limit = StepSums {
        gravity: NOTHING,
        immovable: NOTHING,
        clamp: Gain { x: -1048576, y: 0 },
    };
    let of_bounce = StepSums {
        gravity: NOTHING,
        immovable: Gain { x: 0, y: 16384 },
        clamp: NOTHING,
    };
    let fell = [Some((at(0, -1570), at(0, -160768))), None];
    let flew = [Some((at(1048576, 0), at(1048576, 0))), None];
    let back = [Some((ORIGIN, ORIGIN)), Some((ORIGIN, at(0, 8192)))];
    let wanted = [
        Ok((of_fall, fell, None)),
        Ok((of_limit, flew, None)),
        Ok((of_bounce, back, Some(16384))),
    ];
    same_items(&rt, &steps, &wanted);
}

/// The definitions give the same values, computed by themselves: a fall, the speed limit, the edge.
#[tactic(auto, unfolding(fixed_geom::specs::Numbers::rdiv, fixed_geom::specs::Facings::turn, momenta::specs::Motions::velocity, momenta::specs::Motions::spin, momenta::specs::Motions::pulled, momenta::specs::Motions::speed_clamped, momenta::specs::Motions::aim, momenta::specs::Motions::advanced, colour_solver::specs::Ticks::tick))]
fn definitions_compute()
    ensures falls { (ticks 4 (record { x = pos 0; y = neg_ℤ (pos 157) }) (start ((record { movable = true; mass = record { mass = pos 256; inertia = pos 0 }; motion = record { p = record { x = pos 0; y = pos 0 }; l = pos 0; x = record { x = pos 0; y = pos 0 }; rot = record { c = pos 1073741824; s = pos 0 } }; start = record { x = pos 0; y = pos 0 }; reciprocals = record { mass = pos 0; inertia = pos 0 } }) ∷ []) [])).states ≡ (record { movable = true; mass = record { mass = pos 256; inertia = pos 0 }; motion = record { p = record { x = pos 0; y = neg_ℤ (pos 160768) }; l = pos 0; x = record { x = pos 0; y = neg_ℤ (pos 1570) }; rot = record { c = pos 1073741824; s = pos 0 } }; start = record { x = pos 0; y = pos 0 }; reciprocals = record { mass = pos 0; inertia = pos 0 } }) ∷ [] }
    ensures pulled { (ticks 4 (record { x = pos 0; y = neg_ℤ (pos 157) }) (start ((record { movable = true; mass = record { mass = pos 256; inertia = pos 0 }; motion = record { p = record { x = pos 0; y = pos 0 }; l = pos 0; x = record { x = pos 0; y = pos 0 }; rot = record { c = pos 1073741824; s = pos 0 } }; start = record { x = pos 0; y = pos 0 }; reciprocals = record { mass = pos 0; inertia = pos 0 } }) ∷ []) [])).gravity.y ≡ neg_ℤ (pos 160768) }
    ensures limited { (ticks 1 (record { x = pos 0; y = pos 0 }) (start ((record { movable = true; mass = record { mass = pos 1; inertia = pos 0 }; motion = record { p = record { x = pos 2097152; y = pos 0 }; l = pos 0; x = record { x = pos 0; y = pos 0 }; rot = record { c = pos 1073741824; s = pos 0 } }; start = record { x = pos 0; y = pos 0 }; reciprocals = record { mass = pos 0; inertia = pos 0 } }) ∷ []) [])).states ≡ (record { movable = true; mass = record { mass = pos 1; inertia = pos 0 }; motion = record { p = record { x = pos 1048576; y = pos 0 }; l = pos 0; x = record { x = pos 1048576; y = pos 0 }; rot = record { c = pos 1073741824; s = pos 0 } }; start = record { x = pos 0; y = pos 0 }; reciprocals = record { mass = pos 0; inertia = pos 0 } }) ∷ [] }
    ensures booked { (ticks 1 (record { x = pos 0; y = pos 0 }) (start ((record { movable = true; mass = record { mass = pos 1; inertia = pos 0 }; motion = record { p = record { x = pos 2097152; y = pos 0 }; l = pos 0; x = record { x = pos 0; y = pos 0 }; rot = record { c = pos 1073741824; s = pos 0 } }; start = record { x = pos 0; y = pos 0 }; reciprocals = record { mass = pos 0; inertia = pos 0 } }) ∷ []) [])).clamp.x ≡ neg_ℤ (pos 1048576) }
    ensures edge { (ticks 1 (record { x = pos 0; y = pos 0 }) (start ((record { movable = true; mass = record { mass = pos 1; inertia = pos 0 }; motion = record { p = record { x = pos 10; y = pos 0 }; l = pos 0; x = record { x = pos 68719476735; y = pos 0 }; rot = record { c = pos 1073741824; s = pos 0 } }; start = record { x = pos 0; y = pos 0 }; reciprocals = record { mass = pos 0; inertia = pos 0 } }) ∷ []) [])).states ≡ (record { movable = true; mass = record { mass = pos 1; inertia = pos 0 }; motion = record { p = record { x = pos 0; y = pos 0 }; l = pos 0; x = record { x = pos 68719476736; y = pos 0 }; rot = record { c = pos 1073741824; s = pos 0 } }; start = record { x = pos 0; y = pos 0 }; reciprocals = record { mass = pos 0; inertia = pos 0 } }) ∷ [] }
{}
