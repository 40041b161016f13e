//! What a line asks for.

ghost use Rattle.std.specs.Prelude.{◌≡◌, IfOk, IfSome, false};
ghost use Rattle.script_requests.specs.Requests.{is_extended};

use crate::extended::{Extended, take_box, take_extended};
use body_handles::Handle;
use fixed_geom::{Box2, Rot, Vec2, ZERO_VECTOR};
use json::Scratch;
use momenta::MassData;
use plain_world::{BodyDef, Course, JointDef, Kind};
use shapes::Pose;
use std::alloc::Global;
use world_rules::Command;
use world_script_base::{Fields, Line, LineFault, Reason};

/// How often a crowd may make its calls.
const MOST_TIMES: u64 = 1_000;

/// The calls of a crowd: each of its threads makes them in this order, and so many times.
#[derive(Drop)]
pub struct CrowdDef {
    pub each: Vec<Command>,
    pub times: u64,
}

/// What a line asks for.
#[derive(Drop)]
pub enum Request<'a> {
    /// A command, which is a call of the world.
    Command(Command),
    /// What can be seen of a body.
    Show(Handle),
    /// The ledger's totals.
    Ledger,
    /// What a ray with this start and this way hits first.
    Ray(Vec2, Vec2),
    /// The shapes over a region.
    Region(Box2),
    /// The world as a value that can be loaded.
    Save,
    /// The text of a saved world, which is to replace the world.
    Load(&'a str),
    /// Calls of many threads at once.
    Crowd(CrowdDef),
    /// What only the extended form has.
    Extended(Extended),
}

/// The mass of a body that isn't dynamic.
const NO_MASS: MassData = MassData {
    mass: 0,
    inertia: 0,
};

/// The course of a kinematic body: a velocity or a spin that is left out is 0.
fn take_course<'a>(fields: &mut Fields<'a>) -> Course {
    let mut course = Course {
        velocity: ZERO_VECTOR,
        spin: 0,
    };
    if fields.has("velocity") {
        course.velocity = fields.take_vector("velocity");
    }
    if fields.has("spin") {
        course.spin = fields.take_signed("spin");
    }
    course
}

/// The kind of a body, with the mass and the inertia that a dynamic one has to have.
fn take_kind<'a>(fields: &mut Fields<'a>) -> (Kind, MassData) {
    match fields.take_text("kind") {
        "static" => (Kind::Static, NO_MASS),
        "kinematic" => (Kind::Kinematic(take_course(fields)), NO_MASS),
        "dynamic" => {
            let mass = fields.take_signed("mass");
            let inertia = fields.take_signed("inertia");
            (Kind::Dynamic, MassData { mass, inertia })
        }
        _ => {
            fields.note_at("kind", Reason::NoKind);
            (Kind::Static, NO_MASS)
        }
    }
}

/// A facing that may be left out: the body then isn't turned.
fn take_facing<'a>(fields: &mut Fields<'a>) -> Rot {
    if fields.has("facing") {
        fields.take_facing("facing")
    } else {
        Rot { c: 1 << 30, s: 0 }
    }
}

fn take_body_def<'a>(alloc: Global, fields: &mut Fields<'a>) -> BodyDef {
    let (kind, mass) = take_kind(fields);
    let x = fields.take_vector("at");
    let rot = take_facing(fields);
    BodyDef {
        kind,
        mass,
        x,
        rot,
        shapes: fields.take_shapes(alloc, "shapes"),
    }
}

fn take_joint_def<'a>(fields: &mut Fields<'a>) -> JointDef {
    let a = fields.take_id("a");
    let b = fields.take_id("b");
    let from = fields.take_vector("from");
    let to = fields.take_vector("to");
    let length = fields.take_signed("length");
    let collide = fields.has("collide") && fields.take_truth("collide");
    JointDef {
        a,
        b,
        from,
        to,
        length,
        collide,
    }
}

fn take_push_at<'a>(fields: &mut Fields<'a>) -> Command {
    let body = fields.take_id("body");
    let by = fields.take_vector("by");
    Command::PushAt(body, by, fields.take_vector("offset"))
}

fn take_pose<'a>(fields: &mut Fields<'a>) -> Command {
    let body = fields.take_id("body");
    let x = fields.take_vector("at");
    let rot = fields.take_facing("facing");
    Command::SetPose(body, Pose { x, rot })
}

fn take_velocity<'a>(fields: &mut Fields<'a>) -> Command {
    let body = fields.take_id("body");
    let velocity = fields.take_vector("velocity");
    let spin = fields.take_signed("spin");
    Command::SetVelocity(body, Course { velocity, spin })
}

fn take_push<'a>(fields: &mut Fields<'a>) -> Command {
    let body = fields.take_id("body");
    Command::Push(body, fields.take_vector("by"))
}

/// The command of this name, if it is one's.
fn take_command<'a>(alloc: Global, fields: &mut Fields<'a>, name: &str) -> Option<Command> {
    let command = match name {
        "create" => Command::CreateBody(take_body_def(alloc, fields)),
        "destroy" => Command::DestroyBody(fields.take_id("body")),
        "joint" => Command::CreateJoint(take_joint_def(fields)),
        "unjoin" => Command::DestroyJoint(fields.take_id("joint")),
        "push" => take_push(fields),
        "push_at" => take_push_at(fields),
        "set_pose" => take_pose(fields),
        "set_velocity" => take_velocity(fields),
        "gravity" => Command::SetGravity(fields.take_vector("by")),
        "disable" => Command::Disable(fields.take_id("body")),
        "enable" => Command::Enable(fields.take_id("body")),
        "wake" => Command::Wake(fields.take_id("body")),
        "sleep" => Command::Sleep(fields.take_id("body")),
        "step" => Command::Step(fields.take_signed("ticks")),
        _ => return None,
    };
    Some(command)
}

fn take_ray<'a>(fields: &mut Fields<'a>) -> Request<'a>
    ensures plain { is_extended result ≡ false }
{
    let from = fields.take_vector("from");
    Request::Ray(from, fields.take_vector("along"))
}

/// A call of a crowd, which has to be a command.
fn take_call<'a>(alloc: Global, fields: &mut Fields<'a>, calls: &mut Vec<Command>) {
    let name = fields.take_text("do");
    match take_command(alloc, fields, name) {
        Some(command) => {
            if calls.push(command).is_err() {
                fields.note(LineFault::NoMemory);
            }
        }
        None => fields.note_at("do", Reason::NotACall),
    }
}

/// The calls of a crowd. What is wrong with one is noted in the line's own object.
fn take_calls<'a>(alloc: Global, line: &mut Line<'a>, calls: &mut Vec<Command>) {
    for (place, fields) in line.each.iter_mut().enumerate() {
        take_call(alloc, fields, calls);
        if let Some(fault) = fields.fault() {
            line.own.note(fault.in_each(place));
        }
    }
}

fn take_crowd<'a>(alloc: Global, line: &mut Line<'a>) -> Request<'a>
    ensures plain { is_extended result ≡ false }
{
    line.own.take_each("each");
    let times = line.own.take_unsigned("times");
    if times < 1 || MOST_TIMES < times {
        line.own.note_at("times", Reason::NotTimes);
    }
    let mut each = Vec::new(alloc);
    take_calls(alloc, line, &mut each);
    Request::Crowd(CrowdDef { each, times })
}

/// The request of a line by its name, of the extended form too where that is asked for; `None` where something is
/// wrong, which is noted in the line's own object then.
fn take_request<'a>(alloc: Global, line: &mut Line<'a>, extended: bool) -> Option<Request<'a>>
    ensures plain { extended ≡ false → IfSome result (λ request. is_extended request ≡ false) }
{
    let name = line.own.take_text("do");
    if extended {
        if let Some(request) = take_extended(&mut line.own, name) {
            return Some(Request::Extended(request));
        }
    }
    take_plain(alloc, line, name)
}

/// The request of this name in the plain form.
fn take_plain<'a>(alloc: Global, line: &mut Line<'a>, name: &'a str) -> Option<Request<'a>>
    ensures plain { IfSome result (λ request. is_extended request ≡ false) }
{
    match name {
        "show" => Some(Request::Show(line.own.take_id("body"))),
        "ledger" => Some(Request::Ledger),
        "ray" => Some(take_ray(&mut line.own)),
        "region" => Some(Request::Region(take_box(&mut line.own))),
        "save" => Some(Request::Save),
        "load" => Some(Request::Load(line.own.take_json("world"))),
        "crowd" => Some(take_crowd(alloc, line)),
        name => match take_command(alloc, &mut line.own, name) {
            Some(command) => Some(Request::Command(command)),
            None => {
                line.own.note_at("do", Reason::NoRequest);
                None
            }
        },
    }
}

/// Reads a line, with or without its end, in the extended form where that is asked for. The scratch grows to the
/// longest line that was read. Where the extended form isn't asked for, no request of it is answered.
pub fn request_of<'a>(
    alloc: Global,
    bytes: &'a [u8],
    scratch: &'a mut Scratch,
    extended: bool,
) -> Result<Request<'a>, LineFault<'a>>
    ensures plain { extended ≡ false → IfOk result (λ request. is_extended request ≡ false) }
{
    let mut line = Line::new(alloc);
    line.read(alloc, bytes, scratch);
    let request = take_request(alloc, &mut line, extended);
    match (line.own.fault(), request) {
        (None, Some(request)) => Ok(request),
        (Some(fault), _) => Err(fault),
        (None, None) => Err(LineFault::at("do", Reason::NoRequest)),
    }
}
