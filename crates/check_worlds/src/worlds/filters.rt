//! What a ray hits of the shapes that its filter lets through.

use crate::whole_world::WholeWorld;
use crate::worlds::check::Check;
use crate::worlds::making::{SECOND, STALE, circle};
use crate::worlds::seen::Seen;
use check_scenes::{FIRST, NO_GRAVITY, ORIGIN, UPRIGHT, right};
use shapes::{Filter, Shape, ShapeDef, Shapes};
use std::alloc::Global;
use world_core::{BodyDef, Command, Handle, Kind, MassData, Refusal, Vec2};
use world_queries::QueryFilter;

/// The way of the rays, which begin at the origin.
const AHEAD: Vec2 = Vec2 { x: 4_000, y: 0 };

/// What is given the first slot once its first body is gone.
const AGAIN: Handle = Handle {
    slot: 0,
    generation: 2,
};

pub fn run<W: WholeWorld>(check: &mut Check<W>) {
    a_body_is_left_out(check);
    a_body_that_is_gone_cannot_be_left_out(check);
    categories_meet_a_mask(check);
    a_shape_without_a_category_meets_no_mask(check);
    one_shape_of_a_body_is_passed_by(check);
}

/// A circle of the radius 100 in these categories, so far to the right of its body.
fn circle_in(category: u64, x: i64) -> ShapeDef {
    let def = circle(100);
    ShapeDef {
        shape: Shape::Circle {
            center: right(x),
            radius: 100,
        },
        filter: Filter {
            category,
            ..def.filter
        },
        ..def
    }
}

fn see_all<W: WholeWorld>(check: &mut Check<W>) {
    check.see_hit_through(
        AHEAD,
        QueryFilter {
            without: None,
            mask: None,
        },
    );
}

fn see_without<W: WholeWorld>(check: &mut Check<W>, handle: Handle) {
    check.see_hit_through(
        AHEAD,
        QueryFilter {
            without: Some(handle),
            mask: None,
        },
    );
}

fn see_in<W: WholeWorld>(check: &mut Check<W>, mask: u64) {
    check.see_hit_through(
        AHEAD,
        QueryFilter {
            without: None,
            mask: Some(mask),
        },
    );
}

/// The first circle is hit 900 u from the origin, the second 1900 u from it.
fn a_body_is_left_out<W: WholeWorld>(check: &mut Check<W>) {
    check.begin("a ray leaves a body out", NO_GRAVITY);
    check.add(1, right(1_000), circle(100));
    check.add(1, right(2_000), circle(100));
    see_all(check);
    see_without(check, FIRST);
    see_without(check, SECOND);
    see_without(check, STALE);
    check.apply(Command::Disable(SECOND));
    see_without(check, FIRST);
    see_without(check, SECOND);
}

fn a_body_that_is_gone_cannot_be_left_out<W: WholeWorld>(check: &mut Check<W>) {
    check.begin("a ray cannot leave out a body that is gone", NO_GRAVITY);
    check.add(1, right(1_000), circle(100));
    check.apply(Command::DestroyBody(FIRST));
    see_all(check);
    see_without(check, FIRST);
    check.add(1, right(2_000), circle(100));
    see_without(check, FIRST);
    see_without(check, AGAIN);
    see_all(check);
}

fn categories_meet_a_mask<W: WholeWorld>(check: &mut Check<W>) {
    check.begin("a ray hits the categories of its mask", NO_GRAVITY);
    check.add(1, right(1_000), circle_in(1, 0));
    check.add(1, right(2_000), circle_in(6 + (1 << 63), 0));
    see_in(check, 1);
    see_in(check, 2);
    see_in(check, 12);
    see_in(check, 1 << 63);
    see_in(check, 7);
    see_in(check, 8);
    see_in(check, 0);
    check.see_hit_through(
        AHEAD,
        QueryFilter {
            without: Some(FIRST),
            mask: Some(1),
        },
    );
    check.see_hit_through(
        AHEAD,
        QueryFilter {
            without: Some(FIRST),
            mask: Some(3),
        },
    );
}

fn a_shape_without_a_category_meets_no_mask<W: WholeWorld>(check: &mut Check<W>) {
    check.begin("a shape without a category meets no mask", NO_GRAVITY);
    check.add(1, right(1_000), circle_in(0, 0));
    see_all(check);
    see_in(check, u64::MAX);
}

/// A body of two circles, in the first and the second category.
fn pair_of(alloc: Global) -> Result<Command, Refusal> {
    let mut shapes = Shapes::new(alloc);
    shapes.push(circle_in(1, 1_000))?;
    shapes.push(circle_in(2, 2_000))?;
    Ok(Command::CreateBody(BodyDef {
        kind: Kind::Dynamic,
        mass: MassData {
            mass: 1,
            inertia: 0,
        },
        x: ORIGIN,
        rot: UPRIGHT,
        shapes,
    }))
}

fn one_shape_of_a_body_is_passed_by<W: WholeWorld>(check: &mut Check<W>) {
    check.begin("a ray passes one shape of a body by", NO_GRAVITY);
    match pair_of(check.alloc()) {
        Ok(command) => check.apply(command),
        Err(refusal) => check.see(Seen::Answer(Err(refusal))),
    }
    see_in(check, 3);
    see_in(check, 1);
    see_in(check, 2);
    see_in(check, 4);
    see_without(check, FIRST);
}
