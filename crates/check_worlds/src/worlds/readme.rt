//! The example that the repository's README shows: it has the lines of `fall`, which stands there of `WorldCore` alone.

use crate::whole_world::WholeWorld;
use crate::worlds::check::Check;
use check_scenes::PULL;
use shapes::{Shape, ShapeDef, Shapes};
use std::alloc::Global;
use world_core::{BodyDef, BodyView, Command, Kind, MassData, Refusal, Reply, Rot, Vec2};

/// What is seen of a circle that fell for four ticks.
pub fn fall<W: WholeWorld>(alloc: Global, world: &mut W) -> Result<Option<BodyView>, Refusal> {
    let (center, radius) = (Vec2 { x: 0, y: 0 }, 65_536);
    let (mass, inertia) = (256, 0);
    let mut shapes = Shapes::new(alloc);
    shapes.push(ShapeDef {
        shape: Shape::Circle { center, radius },
        ..ShapeDef::default()
    })?;
    let circle = Command::CreateBody(BodyDef {
        kind: Kind::Dynamic,
        mass: MassData { mass, inertia },
        x: center,
        rot: Rot { c: 1 << 30, s: 0 },
        shapes,
    });
    let Reply::Body(handle) = world.apply(&circle)? else {
        return Ok(None);
    };
    world.apply(&Command::Step(4))?;
    Ok(world.body(handle))
}

/// The circle has moved by 157 times 1, 2, 3 and 4 u.
pub fn run<W: WholeWorld>(check: &mut Check<W>) {
    check.begin("the example of the README", PULL);
    check.see_fall();
}
