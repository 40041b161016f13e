//! Commands from a text.
//!
//! A line is a command: a word and whole numbers, of which those that are left out are 0. A body or a joint is named by
//! its slot, and is the first of it, or by its slot, a point and its generation.
//!
//! | Line | Command |
//! |---|---|
//! | `gravity X Y` | another gravity |
//! | `floor X Y HALF` | a static body with a segment of twice that length |
//! | `circle MASS INERTIA X Y RADIUS FRICTION MORE` | a body of a circle and MORE beside it, static if MASS is 0 |
//! | `lift RADIUS X Y ACROSS UP` | a kinematic circle, with this velocity |
//! | `joint A B LENGTH X Y` | a joint of the first body's centre and of this point of the second |
//! | `unjoin`, `destroy`, `disable`, `enable`, `wake`, `sleep` | the command on the joint or the body of a slot |
//! | `push BODY X Y`, `push_at BODY X Y AT_X AT_Y` | a push |
//! | `set_pose BODY X Y`, `set_velocity BODY X Y SPIN` | another pose, another velocity |
//! | `step TICKS` | a step |

use crate::making::{NO_MASS, UPRIGHT, add_made, between, body_of, right};
use std::alloc::Global;
use world_core::{
    BodyDef, Command, Course, Handle, JointDef, Kind, MassData, Pose, Refusal, Shape, ShapeDef,
    Shapes, Vec2,
};

/// How far the numbers of handles of one slot are apart, from generation to generation.
const SLOTS: i64 = 1 << 32;

/// The number in a place, or 0 where there is none.
pub fn number_at(numbers: &[i64], place: usize) -> i64 {
    match numbers.get(place) {
        Some(number) => *number,
        None => 0,
    }
}

/// The vector of the numbers from a place on.
pub fn vector_at(numbers: &[i64], place: usize) -> Vec2 {
    let (x, y) = (
        number_at(numbers, place),
        number_at(numbers, place.saturating_add(1)),
    );
    Vec2 { x, y }
}

/// The body or the joint with this number.
pub fn handle_of(number: i64) -> Handle {
    let generation = number.max(0) / SLOTS;
    Handle {
        slot: u32::try_from(number % SLOTS).unwrap_or(u32::MAX),
        generation: u32::try_from(generation)
            .unwrap_or(u32::MAX)
            .saturating_add(1),
    }
}

fn handle_at(numbers: &[i64], place: usize) -> Handle {
    handle_of(number_at(numbers, place))
}

/// A circle, so many diameters to the right of the centre.
fn circle_beside(radius: i64, friction: i64, place: i64) -> ShapeDef {
    let x = radius.saturating_mul(2).saturating_mul(place);
    ShapeDef {
        shape: Shape::Circle {
            center: right(x),
            radius,
        },
        friction,
        ..ShapeDef::default()
    }
}

fn circles(alloc: Global, numbers: &[i64]) -> Result<Shapes, Refusal> {
    let (radius, friction) = (number_at(numbers, 4), number_at(numbers, 5));
    let mut shapes = Shapes::new(alloc);
    for place in 0..=number_at(numbers, 6).clamp(0, 8) {
        shapes.push(circle_beside(radius, friction, place))?;
    }
    Ok(shapes)
}

fn circle(alloc: Global, numbers: &[i64]) -> Result<Command, Refusal> {
    let mass = MassData {
        mass: number_at(numbers, 0),
        inertia: number_at(numbers, 1),
    };
    let kind = if mass.mass == 0 {
        Kind::Static
    } else {
        Kind::Dynamic
    };
    Ok(Command::CreateBody(BodyDef {
        kind,
        mass,
        x: vector_at(numbers, 2),
        rot: UPRIGHT,
        shapes: circles(alloc, numbers)?,
    }))
}

fn floor(alloc: Global, numbers: &[i64]) -> Result<Command, Refusal> {
    let half = number_at(numbers, 2);
    let shape = ShapeDef {
        shape: Shape::Segment {
            first: right(half.saturating_neg()),
            second: right(half),
        },
        friction: 0,
        ..ShapeDef::default()
    };
    body_of(alloc, Kind::Static, NO_MASS, vector_at(numbers, 0), shape)
}

fn lift(alloc: Global, numbers: &[i64]) -> Result<Command, Refusal> {
    let course = Course {
        velocity: vector_at(numbers, 3),
        spin: 0,
    };
    let shape = circle_beside(number_at(numbers, 0), 0, 0);
    body_of(
        alloc,
        Kind::Kinematic(course),
        NO_MASS,
        vector_at(numbers, 1),
        shape,
    )
}

fn joint(numbers: &[i64]) -> Command {
    let (a, b) = (handle_at(numbers, 0), handle_at(numbers, 1));
    Command::CreateJoint(JointDef {
        to: vector_at(numbers, 3),
        ..between(a, b, number_at(numbers, 2))
    })
}

fn pose(numbers: &[i64]) -> Pose {
    Pose {
        x: vector_at(numbers, 1),
        rot: UPRIGHT,
    }
}

fn course(numbers: &[i64]) -> Course {
    Course {
        velocity: vector_at(numbers, 1),
        spin: number_at(numbers, 3),
    }
}

/// The command of a word with its numbers. Refused 5 where no command has that word.
fn command_with(alloc: Global, word: &str, numbers: &[i64]) -> Result<Command, Refusal> {
    let first = handle_at(numbers, 0);
    match word {
        "floor" => floor(alloc, numbers),
        "circle" => circle(alloc, numbers),
        "lift" => lift(alloc, numbers),
        "gravity" => Ok(Command::SetGravity(vector_at(numbers, 0))),
        "joint" => Ok(joint(numbers)),
        "unjoin" => Ok(Command::DestroyJoint(first)),
        "destroy" => Ok(Command::DestroyBody(first)),
        "disable" => Ok(Command::Disable(first)),
        "enable" => Ok(Command::Enable(first)),
        "wake" => Ok(Command::Wake(first)),
        "sleep" => Ok(Command::Sleep(first)),
        "push" => Ok(Command::Push(first, vector_at(numbers, 1))),
        "push_at" => Ok(Command::PushAt(first, vector_at(numbers, 1), vector_at(numbers, 3))),
        "set_pose" => Ok(Command::SetPose(first, pose(numbers))),
        "set_velocity" => Ok(Command::SetVelocity(first, course(numbers))),
        "step" => Ok(Command::Step(number_at(numbers, 0))),
        _ => Err(Refusal::OutOfRange),
    }
}

/// The number that stands for this slot and generation.
fn number_named(slot: u32, generation: u16) -> i64 {
    i64::from(slot) + (i64::from(generation) - 1) * SLOTS
}

/// The number of a word, which is a whole number, or a handle's slot, a point and its generation.
fn number_of(word: &str) -> Option<i64> {
    match word.split_once('.') {
        Some((slot, generation)) => Some(number_named(
            slot.parse::<u32>().ok()?,
            generation.parse::<u16>().ok()?,
        )),
        None => word.parse::<i64>().ok(),
    }
}

/// The numbers of words. Refused 5 where one is no number.
pub fn numbers_of(alloc: Global, words: &[&str]) -> Result<Vec<i64>, Refusal> {
    let mut numbers = Vec::new(alloc);
    for word in words {
        match number_of(word) {
            Some(number) => numbers.push(number)?,
            None => return Err(Refusal::OutOfRange),
        }
    }
    Ok(numbers)
}

fn command_of_words(alloc: Global, words: &[&str]) -> Result<Command, Refusal> {
    let [word, rest @ ..] = words else {
        return Err(Refusal::OutOfRange);
    };
    let numbers = numbers_of(alloc, rest)?;
    command_with(alloc, word, numbers.as_slice())
}

/// The command of a line. Refused 5 where the line is none.
pub fn command_of(alloc: Global, line: &str) -> Result<Command, Refusal> {
    let words: Vec<&str> = line.split_whitespace().collect(alloc)?;
    command_of_words(alloc, words.as_slice())
}

/// The commands of a text. Refused 5 where a line of it is none.
pub fn commands_of(alloc: Global, text: &str) -> Result<Vec<Command>, Refusal> {
    let mut commands = Vec::new(alloc);
    for line in text.lines() {
        add_made(&mut commands, command_of(alloc, line))?;
    }
    Ok(commands)
}
