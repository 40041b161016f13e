//! What the game begins with: a floor, a ramp, a lift, balls, a stick and a coin.

use crate::calls::apply;
use crate::stop::Stop;
use std::alloc::Global;
use world_core::{
    BodyDef, Command, Course, Handle, Refusal, Reply, Rot, SMOOTH, Surface, Vec2, WorldCore,
};

/// A metre, in u.
pub const METRE: i64 = 1 << 20;

const HALF_A_METRE: u32 = 1 << 19;

/// 240 ticks a second, 4 a frame, 60 frames a second: 9.81·2^20 / 240² u/tick².
pub const GRAVITY: Vec2 = Vec2 { x: 0, y: -179 };

/// Mass a square metre: a disc of half a metre has the mass 201.
const DENSITY: u32 = 256;

/// A surface with some friction.
const ROUGH: Surface = Surface {
    friction: 128,
    restitution: 0,
};

/// How the lift moves: a metre a second to the right, 2^20 / 240 u a tick.
const LIFT: Course = Course {
    velocity: Vec2 { x: 4_369, y: 0 },
    spin: 0,
};

/// A slope that falls to the right, by the angle whose cosine is 0.96 and whose sine is -0.28.
const SLOPE: Rot = Rot {
    c: 1_030_792_151,
    s: -300_647_711,
};

/// The bodies of the game.
#[derive(Clone, Copy, Debug)]
pub struct Cast {
    pub floor: Handle,
    pub ramp: Handle,
    pub ball: Handle,
    pub stick: Handle,
    pub coin: Handle,
    pub lift: Handle,
}

impl Cast {
    /// What the body in a slot is called.
    pub fn name_of(&self, slot: u32) -> &'static str {
        if slot == self.floor.slot {
            "the floor"
        } else if slot == self.ramp.slot {
            "the ramp"
        } else if slot == self.ball.slot {
            "the ball"
        } else if slot == self.stick.slot {
            "the stick"
        } else if slot == self.coin.slot {
            "the coin"
        } else {
            "the lift"
        }
    }
}

/// Makes a body, and answers its id.
fn add(world: &mut WorldCore, def: BodyDef) -> Result<Handle, Stop> {
    match apply(world, &Command::CreateBody(def))? {
        Reply::Body(handle) => Ok(handle),
        _ => Err(Stop::Unexpected),
    }
}

fn floor(alloc: Global) -> Result<BodyDef, Refusal> {
    BodyDef::floor(alloc, 16 * HALF_A_METRE, ROUGH)
}

fn ramp(alloc: Global) -> Result<BodyDef, Refusal> {
    let ramp = BodyDef::floor(alloc, 4 * HALF_A_METRE, ROUGH)?;
    let place = Vec2 {
        x: -4 * METRE,
        y: 2 * METRE,
    };
    Ok(ramp.at(place).facing(SLOPE))
}

fn ball(alloc: Global) -> Result<BodyDef, Refusal> {
    let ball = BodyDef::circle(alloc, HALF_A_METRE, DENSITY, ROUGH)?;
    Ok(ball.at(Vec2 {
        x: -5 * METRE,
        y: 4 * METRE,
    }))
}

fn stick(alloc: Global) -> Result<BodyDef, Refusal> {
    let stick = BodyDef::capsule(alloc, HALF_A_METRE, HALF_A_METRE / 4, DENSITY, ROUGH)?;
    Ok(stick.at(Vec2 {
        x: 3 * METRE,
        y: 3 * METRE,
    }))
}

fn coin(alloc: Global) -> Result<BodyDef, Refusal> {
    let coin = BodyDef::circle(alloc, HALF_A_METRE / 4, DENSITY, SMOOTH)?;
    Ok(coin.at(Vec2 { x: 0, y: METRE / 8 }))
}

fn lift(alloc: Global) -> Result<BodyDef, Refusal> {
    let lift = BodyDef::platform(alloc, HALF_A_METRE, HALF_A_METRE / 4, LIFT, ROUGH)?;
    Ok(lift.at(Vec2 { x: 0, y: 6 * METRE }))
}

/// Makes a body that has a mass, and tells what it weighs.
fn add_mover<R: Print>(
    rt: &R,
    world: &mut WorldCore,
    name: &str,
    def: BodyDef,
) -> Result<Handle, Stop> {
    let weight = def.mass;
    println!(rt;
        "{name} has the mass {} and the inertia {}",
        weight.mass, weight.inertia
    )?;
    add(world, def)
}

/// Makes the bodies of the game.
pub fn make_scene<R: AllocGlobal + Print>(rt: &R, world: &mut WorldCore) -> Result<Cast, Stop> {
    let alloc = rt.alloc();
    Ok(Cast {
        floor: add(world, floor(alloc)?)?,
        ramp: add(world, ramp(alloc)?)?,
        ball: add_mover(rt, world, "the ball", ball(alloc)?)?,
        stick: add_mover(rt, world, "the stick", stick(alloc)?)?,
        coin: add_mover(rt, world, "the coin", coin(alloc)?)?,
        lift: add(world, lift(alloc)?)?,
    })
}
