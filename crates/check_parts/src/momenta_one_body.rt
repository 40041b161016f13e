//! How one body moves, and what two bodies give one another along a line, worked by hand.

ghost use Rattle.std.specs.Prelude.{◌≡◌, ◌^◌, ◌≤◌, ◌≤ℤ◌, pos, true, unsigned_abs};
ghost use Rattle.fixed_geom.specs.Vectors.{IsWithin};
ghost use Rattle.momenta.specs.ImpulseBounds.{AreStates, IsLine, IsState};
ghost use Rattle.momenta.specs.Motions.{IsMass, IsMotion};

use crate::assertions::{same, same_items};
use fixed_geom::{Rot, Vec2};
use momenta::{
    BodyState, Ends, Goal, Line, MassData, Momenta64, MomentaPair64, Motion, advance, clamp_speed,
    inverse_mass, inverse_reciprocal, momenta_pair_64, parting, pull, reciprocals_of, solve_line,
};

const AHEAD: Rot = Rot { c: 1 << 30, s: 0 };

const ORIGIN: Vec2 = Vec2 { x: 0, y: 0 };

fn at(x: i64, y: i64) -> Vec2 {
    Vec2 { x, y }
}

/// One tick of a body that touches nothing.
fn tick(motion: Motion, mass: MassData, gravity: Vec2) -> Motion
    requires mass { IsMass mass }
    requires motion { IsMotion mass motion }
    requires gravity { IsWithin (2 ^ 16) gravity }
    ensures { IsMotion mass result }
{
    let pulled = pull(motion, mass, gravity);
    let (limited, _) = clamp_speed(pulled, mass);
    let (moved, _) = advance(limited, mass, reciprocals_of(mass));
    moved
}

/// What a body has after its limits and after one tick, and what each of both takes from its momentum.
fn moved(motion: Motion, mass: MassData) -> ([Vec2; 5], Rot, i128)
    requires mass { IsMass mass }
    requires motion { IsMotion mass motion }
{
    let (limited, change) = clamp_speed(motion, mass);
    let (moved, lost) = advance(limited, mass, reciprocals_of(mass));
    (
        [limited.p, change, moved.x, moved.p, lost],
        moved.rot,
        moved.l,
    )
}

/// A push beyond the speed limit is cut, the edge stops a body, and a fast spin turns by its limit.
#[test]
fn limits_hold(rt: HostRuntime) {
    let point = MassData {
        mass: 1,
        inertia: 0,
    };
    let wheel = MassData {
        mass: 2,
        inertia: 1,
    };
    let pushed = Motion {
        p: Vec2 { x: 2097152, y: 0 },
        ..Motion::at_rest(ORIGIN, AHEAD)
    };
    let near = Motion {
        p: Vec2 { x: 10, y: 0 },
        l: 0,
        x: Vec2 {
            x: 68719476735,
            y: 0,
        },
        rot: AHEAD,
    };
    let spinning = Motion {
        p: Vec2 { x: 0, y: 300 },
        l: 150000,
        x: ORIGIN,
        rot: AHEAD,
    };
    let left = [
        moved(pushed, point),
        moved(near, point),
        moved(spinning, wheel),
    ];
    let limit = at(1048576, 0);
    let cut = [limit, at(-1048576, 0), limit, limit, ORIGIN];
    let stopped = [at(10, 0), ORIGIN, at(68719476736, 0), ORIGIN, at(-10, 0)];
    let turned = [at(0, 300), ORIGIN, at(0, 150), at(0, 300), ORIGIN];
    let facing = Rot {
        c: 1041682578,
        s: 260420645,
    };
    let wanted = [
        (cut, AHEAD, 0),
        (stopped, AHEAD, 0),
        (turned, facing, 150000),
    ];
    same_items(&rt, &left, &wanted);
}

#[test]
fn a_body_falls_for_four_ticks(rt: HostRuntime) {
    let mass = MassData {
        mass: 256,
        inertia: 0,
    };
    let gravity = Vec2 { x: 0, y: -157 };
    let start = Motion::at_rest(Vec2 { x: 0, y: 0 }, AHEAD);
    let one = tick(start, mass, gravity);
    let two = tick(one, mass, gravity);
    let three = tick(two, mass, gravity);
    let four = tick(three, mass, gravity);
    same(&rt, &four.x, &at(0, -1570));
    same(&rt, &four.p, &at(0, -160768));
    same(&rt, &four.rot, &AHEAD);
}

/// A mover that never turns, at the origin.
fn mover(mass: i64, p: Vec2) -> BodyState
    requires positive { pos 1 ≤ℤ mass }
    requires mass { unsigned_abs mass ≤ 2 ^ 20 }
    requires momentum { IsWithin (2 ^ 60) p }
    ensures state { IsState result }
    ensures movable { result.movable ≡ true }
{
    let weight = MassData { mass, inertia: 0 };
    BodyState {
        movable: true,
        mass: weight,
        motion: Motion {
            p,
            l: 0,
            x: ORIGIN,
            rot: AHEAD,
        },
        start: ORIGIN,
        reciprocals: reciprocals_of(weight),
    }
}

/// A line through both centres.
fn line(direction: Vec2, inverse_mass: i128) -> Line
    requires direction { IsWithin (2 ^ 30) direction }
    requires low { pos (2 ^ 20) ≤ℤ inverse_mass }
    requires high { unsigned_abs inverse_mass ≤ 2 ^ 98 }
    ensures { IsLine result }
{
    Line {
        direction,
        ra: ORIGIN,
        rb: ORIGIN,
        inverse_mass,
        reciprocal: inverse_reciprocal(inverse_mass),
    }
}

/// One impulse of the solver towards the speed `bias`, which never pulls.
fn push(line: &Line, bias: i64, ends: &mut Ends) -> i64
    requires line { IsLine line.now }
    requires bias { unsigned_abs bias ≤ 2 ^ 62 }
    requires states { AreStates ends.old }
{
    let apart = parting(line.ra, line.rb, ends);
    let goal = Goal {
        bias,
        low: 0,
        high: 4398046511104,
        total: 0,
    };
    solve_line(line, apart, goal, ends)
}

/// One impulse, and the two momenta after it.
fn pushed(line: Line, bias: i64, a: BodyState, b: BodyState) -> (i64, Vec2, Vec2)
    requires line { IsLine line }
    requires bias { unsigned_abs bias ≤ 2 ^ 62 }
    requires first { IsState a }
    requires second { IsState b }
{
    let mut ends = Ends { a, b };
    let total = push(&line, bias, &mut ends);
    (total, ends.a.motion.p, ends.b.motion.p)
}

const LIMIT: i64 = 1152921504606846976;

/// Two masses that meet stop one another, an impulse is rounded once for both, and one beyond the limit is dropped.
#[test]
fn impulses_act_on_both(rt: HostRuntime) {
    let ahead = Vec2 {
        x: 1073741824,
        y: 0,
    };
    let slanted = Vec2 {
        x: 644245094,
        y: 858993459,
    };
    let fast = mover(3, Vec2 { x: 30, y: 0 });
    let slow = mover(2, Vec2 { x: -20, y: 0 });
    let still = mover(1, ORIGIN);
    let ends = Ends { a: fast, b: slow };
    let inverse = inverse_mass(ahead, ORIGIN, ORIGIN, &ends);
    same(&rt, &inverse, &916259689813);
    let along = line(ahead, 2199023255552);
    let left = [
        pushed(line(ahead, 916259689813), 0, fast, slow),
        pushed(
            line(slanted, 2199023255552),
            0,
            mover(1, Vec2 { x: 10, y: 0 }),
            still,
        ),
        pushed(along, LIMIT + 5, still, mover(1, Vec2 { x: LIMIT, y: 0 })),
    ];
    let wanted = [
        (24, at(6, 0), at(4, 0)),
        (3, at(8, -2), at(2, 2)),
        (0, ORIGIN, at(LIMIT, 0)),
    ];
    same_items(&rt, &left, &wanted);
}

#[test]
fn small_momenta_are_copied_and_great_ones_are_not(rt: HostRuntime) {
    let small = mover(3, Vec2 { x: 30, y: -40 });
    let still = mover(2, ORIGIN);
    let great = mover(2, Vec2 { x: 1 << 50, y: 0 });
    let copied = MomentaPair64 {
        a: Momenta64 {
            p: at(30, -40),
            l: 0,
        },
        b: Momenta64 { p: ORIGIN, l: 0 },
    };
    same(&rt, &momenta_pair_64(&small, &still), &Some(copied));
    same(&rt, &momenta_pair_64(&still, &great), &None);
}
