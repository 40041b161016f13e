//! What standard error is told: which key of a request a refusal speaks of, what was refused in a crowd, and what is
//! wrong with a line.

ghost use Rattle.std.specs.Prelude.{◌≡◌};

use crate::extended::Extended;
use crate::requests::{CrowdDef, Request};
use fixed_geom::{MAX_POSITION, Refusal, is_facing, is_within};
use joint_rows::MAX_ANCHOR;
use momenta::{MAX_MASS, MAX_SPEED};
use plain_world::{BodyDef, Course, JointDef, Kind};
use shapes::{MAX_FRICTION, MAX_RESTITUTION, Pose, Shape, ShapeDef, check};
use std::fmt;
use world_rules::Command;
use world_script_base::{Fault, Reason};

/// What a refusal means of this request, where it means something else of other ones.
const NOTHING_KEPT: &str = "no world is kept under it";

/// A refusal of the request of a line, told in words.
#[derive(Clone, Copy)]
pub struct Explanation {
    /// The shape that it speaks of, counted from 0, if it is of one.
    pub shape: Option<usize>,
    /// The key of the request, or of the shape, that it speaks of, if there is one.
    pub key: Option<&'static str>,
    pub refusal: Refusal,
    /// What the refusal means here, where its own words speak of another request.
    pub meaning: Option<&'static str>,
}

impl fmt::Display for Explanation {
    fn fmt<W: fmt::Write>(&self, f: &mut fmt::Formatter<W>) -> fmt::Result {
        let number = self.refusal.number();
        write!(f, "refused {number}: ")?;
        if let Some(shape) = self.shape {
            write!(f, "shapes[{shape}]: ")?;
        }
        if let Some(key) = self.key {
            write!(f, "{key}: ")?;
        }
        if let Some(meaning) = self.meaning {
            return write!(f, "{meaning}");
        }
        let refusal = self.refusal;
        write!(f, "{refusal}")
    }
}

/// The first shape that is refused so by itself, if there is one.
fn refused_shape(defs: &[ShapeDef], segments: bool, refusal: Refusal) -> Option<usize> {
    defs.iter()
        .position(|def| check(&[*def], segments).err() == Some(refusal))
}

/// The key of a shape's form.
fn key_of_form(shape: &Shape) -> &'static str {
    match shape {
        Shape::Circle { .. } => "circle",
        Shape::Capsule { .. } => "capsule",
        Shape::Segment { .. } => "segment",
    }
}

/// The key for which a shape isn't allowed: that of its form where its ends are equal or its body may have none of the
/// form.
fn key_of_bad_shape(shape: &Shape) -> &'static str {
    match shape {
        Shape::Capsule {
            first,
            second,
            radius: _,
        } if first == second => "capsule",
        Shape::Segment { .. } => "segment",
        _ => "radius",
    }
}

/// The key of a shape's number that is outside its limit.
fn key_of_shape_number(def: &ShapeDef) -> &'static str {
    if def.friction < 0 || MAX_FRICTION < def.friction {
        "friction"
    } else if def.restitution < 0 || MAX_RESTITUTION < def.restitution {
        "restitution"
    } else {
        key_of_form(&def.shape)
    }
}

/// What a refusal says that a body's shapes met: of one of them where it is refused by itself, and else of their list.
fn explain_shapes(def: &BodyDef, refusal: Refusal) -> Explanation
    ensures refusal { result.refusal ≡ refusal }
{
    let defs = def.shapes.as_slice();
    let shape = refused_shape(defs, def.kind.is_static(), refusal);
    let key = match shape.and_then(|place| defs.get(place)) {
        None => "shapes",
        Some(bad) if refusal == Refusal::BadShape => key_of_bad_shape(&bad.shape),
        Some(bad) => key_of_shape_number(bad),
    };
    Explanation {
        shape,
        key: Some(key),
        refusal,
        meaning: None,
    }
}

/// The key of a body's number that is outside its limit.
fn key_of_def(def: &BodyDef) -> &'static str {
    if check(def.shapes.as_slice(), def.kind.is_static()).is_err() {
        "shapes"
    } else if !is_facing(def.rot) {
        "facing"
    } else if !is_within(def.x, MAX_POSITION.unsigned_abs()) {
        "at"
    } else {
        key_of_kind(def)
    }
}

/// The key of what a body's kind asks for that is outside its limit.
fn key_of_kind(def: &BodyDef) -> &'static str {
    match def.kind {
        Kind::Kinematic(course) => key_of_course(course),
        _ if 1 <= def.mass.mass && def.mass.mass <= MAX_MASS => "inertia",
        _ => "mass",
    }
}

fn key_of_pose(pose: Pose) -> &'static str {
    if is_facing(pose.rot) { "at" } else { "facing" }
}

fn key_of_course(course: Course) -> &'static str {
    if is_within(course.velocity, MAX_SPEED.unsigned_abs()) {
        "spin"
    } else {
        "velocity"
    }
}

fn key_of_joint(def: &JointDef) -> &'static str {
    if !is_within(def.from, MAX_ANCHOR.unsigned_abs()) {
        "from"
    } else if !is_within(def.to, MAX_ANCHOR.unsigned_abs()) {
        "to"
    } else {
        "length"
    }
}

/// The key of a command's number that is outside its limit.
fn key_of_number(command: &Command) -> Option<&'static str> {
    match command {
        Command::CreateBody(def) => Some(key_of_def(def)),
        Command::SetPose(_, pose) => Some(key_of_pose(*pose)),
        Command::SetVelocity(_, course) => Some(key_of_course(*course)),
        Command::CreateJoint(def) => Some(key_of_joint(def)),
        Command::Push(_, _) | Command::SetGravity(_) => Some("by"),
        Command::PushAt(_, _, _) => Some("by or offset"),
        Command::Step(_) => Some("ticks"),
        _ => None,
    }
}

/// The key of a request of the extended form that a refusal speaks of, if it is of one.
fn key_of_extended(request: Extended, refusal: Refusal) -> Option<&'static str> {
    match (refusal, request) {
        (Refusal::OutOfRange | Refusal::StaleHandle, Extended::Keep(_) | Extended::Back(_)) => {
            Some("number")
        }
        (Refusal::OutOfRange, Extended::Step(_)) => Some("ticks"),
        (Refusal::OutOfRange, Extended::Ray(_)) => Some("from or along"),
        (Refusal::StaleHandle, Extended::Ray(_)) => Some("without"),
        (Refusal::OutOfRange, Extended::Region(_)) => Some("lo or hi"),
        _ => None,
    }
}

/// The key of a request that a refusal speaks of, if it is of one.
fn key_of(request: &Request<'_>, refusal: Refusal) -> Option<&'static str> {
    match (refusal, request) {
        (Refusal::StaleHandle, Request::Command(Command::DestroyJoint(_))) => Some("joint"),
        (Refusal::StaleHandle, Request::Command(Command::CreateJoint(_)))
        | (Refusal::BodyDisabled, Request::Command(Command::CreateJoint(_))) => Some("a or b"),
        (Refusal::SameBody, _) => Some("a and b"),
        (_, Request::Extended(request)) => key_of_extended(*request, refusal),
        (Refusal::StaleHandle, _)
        | (Refusal::NotAMover, _)
        | (Refusal::NotKinematic, _)
        | (Refusal::BodyDisabled, _) => Some("body"),
        (Refusal::BadShape, _) => Some("shapes"),
        (Refusal::TooFast, _) => Some("by"),
        (Refusal::BadFile(_), _) => Some("world"),
        (Refusal::OutOfRange, Request::Command(command)) => key_of_number(command),
        (Refusal::OutOfRange, Request::Ray(_, _)) => Some("from or along"),
        (Refusal::OutOfRange, Request::Region(_)) => Some("lo or hi"),
        _ => None,
    }
}

/// What a refusal means of a request whose key is no id, where its own words speak of one.
fn meaning_of(request: &Request<'_>, refusal: Refusal) -> Option<&'static str> {
    match (refusal, request) {
        (Refusal::StaleHandle, Request::Extended(Extended::Back(_))) => Some(NOTHING_KEPT),
        _ => None,
    }
}

/// What a refusal of a request says.
pub fn explain(request: &Request<'_>, refusal: Refusal) -> Explanation
    ensures refusal { result.refusal ≡ refusal }
{
    if let Request::Command(Command::CreateBody(def)) = request {
        let segments = def.kind.is_static();
        if check(def.shapes.as_slice(), segments).err() == Some(refusal) {
            return explain_shapes(def, refusal);
        }
    }
    Explanation {
        shape: None,
        key: key_of(request, refusal),
        refusal,
        meaning: meaning_of(request, refusal),
    }
}

/// How many of a crowd's calls were refused, told in words.
#[derive(Clone, Copy)]
pub struct CrowdRefusals {
    pub refused: u64,
    pub calls: u64,
}

impl CrowdRefusals {
    /// Those of a crowd of so many threads, of whose calls so many were accepted.
    pub fn of(def: &CrowdDef, threads: u64, accepted: u64) -> CrowdRefusals {
        let each = threads.saturating_mul(def.each.len() as u64);
        let calls = each.saturating_mul(def.times);
        CrowdRefusals {
            refused: calls.saturating_sub(accepted),
            calls,
        }
    }
}

impl fmt::Display for CrowdRefusals {
    fn fmt<W: fmt::Write>(&self, f: &mut fmt::Formatter<W>) -> fmt::Result {
        let CrowdRefusals { refused, calls } = self;
        write!(f, "each: {refused} of {calls} calls were refused")
    }
}

/// What is wrong with a line, told in words. A shape that has the key of no form is told so.
#[derive(Clone, Copy)]
pub struct BadLine<'a>(pub Fault<'a>);

/// Whether the fault is that a shape has the key of no form: a segment's is the last that is looked for.
fn lacks_form(fault: &Fault<'_>) -> bool {
    fault.shape.is_some() && fault.key == Some("segment") && matches!(fault.reason, Reason::Missing)
}

impl fmt::Display for BadLine<'_> {
    fn fmt<W: fmt::Write>(&self, f: &mut fmt::Formatter<W>) -> fmt::Result {
        let BadLine(fault) = self;
        if !lacks_form(fault) {
            return write!(f, "{fault}");
        }
        if let Some(each) = fault.each {
            write!(f, "each[{each}]: ")?;
        }
        let shape = fault.shape.unwrap_or(0);
        write!(
            f,
            "shapes[{shape}]: none of the forms circle, capsule and segment"
        )
    }
}
