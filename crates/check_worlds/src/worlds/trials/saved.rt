//! Trials of worlds that are saved and loaded, and of regions.

use crate::whole_world::WholeWorld;
use crate::worlds::trials::compare::expect;
use crate::worlds::trials::stop::{Moment, Part, Stop};
use crate::worlds::trials::trial::{Outcome, again, met};
use crate::worlds::trials::worlds::TrialWorlds;
use contacts_base::ShapeId;
use fixed_geom::{Box2, Vec2};
use serde_json::Value;
use std::alloc::Global;

/// A region over all of a scene.
const ALL_OVER: Box2 = Box2 {
    lo: Vec2 {
        x: -(1 << 30),
        y: -(1 << 30),
    },
    hi: Vec2 {
        x: 1 << 30,
        y: 1 << 30,
    },
};

/// Saves the scene's world.
pub fn save_twice<W: WholeWorld>(worlds: &mut TrialWorlds<W>) -> Result<Outcome, Stop> {
    match worlds.reference.saved() {
        Ok(expected) => expect_saved_twice(worlds, &expected),
        Err(refusal) => Err(Stop::from(refusal)),
    }
}

fn expect_saved_twice<W: WholeWorld>(
    worlds: &mut TrialWorlds<W>,
    expected: &Value,
) -> Result<Outcome, Stop> {
    if is_saved(worlds, expected)? {
        return Ok(Outcome::Unmet);
    }
    worlds.expect_kept()?;
    again(is_saved(worlds, expected)?)
}

fn is_saved<W: WholeWorld>(worlds: &mut TrialWorlds<W>, expected: &Value) -> Result<bool, Stop> {
    worlds.begin();
    let saved = worlds.world.saved();
    worlds.end();
    match saved {
        Ok(value) => met(expect(Moment::Accepted, Part::Answer, value == *expected)),
        Err(_) => Ok(false),
    }
}

/// Loads the world that the scene's saved.
pub fn load_twice<W: WholeWorld>(
    alloc: Global,
    worlds: &mut TrialWorlds<W>,
) -> Result<Outcome, Stop> {
    match worlds.reference.saved() {
        Ok(value) => load_value_twice(alloc, worlds, &value),
        Err(refusal) => Err(Stop::from(refusal)),
    }
}

fn load_value_twice<W: WholeWorld>(
    alloc: Global,
    worlds: &mut TrialWorlds<W>,
    value: &Value,
) -> Result<Outcome, Stop> {
    if is_loaded(alloc, worlds, value)? {
        return Ok(Outcome::Unmet);
    }
    worlds.expect_kept()?;
    again(is_loaded(alloc, worlds, value)?)
}

/// Whether the value is loaded. Stops where the loaded world is saved as another value.
fn is_loaded<W: WholeWorld>(
    alloc: Global,
    worlds: &mut TrialWorlds<W>,
    value: &Value,
) -> Result<bool, Stop> {
    worlds.begin();
    let loaded = W::loaded(alloc, value);
    worlds.end();
    match loaded {
        Ok(world) => is_saved_as(&world, value),
        Err(_) => Ok(false),
    }
}

fn is_saved_as<W: WholeWorld>(world: &W, value: &Value) -> Result<bool, Stop> {
    match world.saved() {
        Ok(saved) => met(expect(Moment::Accepted, Part::Answer, saved == *value)),
        Err(refusal) => Err(Stop::from(refusal)),
    }
}

/// Asks for the shapes over all of the scene.
pub fn ask_twice<W: WholeWorld>(
    alloc: Global,
    worlds: &mut TrialWorlds<W>,
) -> Result<Outcome, Stop> {
    let expected = worlds.reference.region(alloc, &ALL_OVER)?;
    if is_answered(alloc, worlds, &expected)? {
        return Ok(Outcome::Unmet);
    }
    worlds.expect_kept()?;
    again(is_answered(alloc, worlds, &expected)?)
}

fn is_answered<W: WholeWorld>(
    alloc: Global,
    worlds: &mut TrialWorlds<W>,
    expected: &[ShapeId],
) -> Result<bool, Stop> {
    worlds.begin();
    let answered = worlds.world.region(alloc, &ALL_OVER);
    worlds.end();
    match answered {
        Ok(shapes) => met(expect(
            Moment::Accepted,
            Part::Answer,
            shapes.as_slice() == expected,
        )),
        Err(_) => Ok(false),
    }
}
