//! What the keys of a saved body say, but for its shapes.

ghost use Rattle.std.specs.Prelude.{◌≡◌, ◌<◌, ◌^◌, codes};
ghost use Rattle.world_file_base.specs.Reading.{seen, truth_in, unsigned_in};
ghost use Rattle.serde_json.specs.Find.{get};
ghost use Rattle.world_file_base.specs.SavedBodies.{
  facing_in,
  kind_in,
  least_mass,
  mass_in,
  membership_in,
  most_angular,
  most_inertia,
  most_mass,
  momenta_in,
  motion_in,
  named_kind,
  pose_in,
  with_course,
};
ghost use Rattle.world_file_base.specs.AskedBodies.{
  course_asks,
  facing_asks,
  kind_asks,
  mass_asks,
  membership_asks,
  momenta_asks,
  motion_asks,
  numbers_asks,
  pose_asks,
};
ghost use Rattle.serde_json.specs.View.{view};

use crate::clause::Clause;
use crate::reader::Reader;
use crate::saved::Membership;
use crate::values::{field, has_keys};
use fixed_geom::{MAX_POSITION, MAX_SPIN, Rot, is_facing};
use momenta::{
    MAX_ANGULAR_MOMENTUM, MAX_INERTIA, MAX_MASS, MAX_MOMENTUM, MAX_SPEED, MassData, Momenta, Motion,
};
use plain_world::{Course, Kind, NO_COURSE};
use serde_json::Value;
use shapes::Pose;

fn named_kind(text: &str) -> Option<Kind>
    ensures { result ≡ named_kind text.now }
{
    if text == "static" {
        Some(Kind::Static)
    } else if text == "kinematic" {
        Some(Kind::Kinematic(NO_COURSE))
    } else if text == "dynamic" {
        Some(Kind::Dynamic)
    } else {
        None
    }
}

/// Reads the course of a kinematic body, and asks for the number of its keys.
fn read_course(reader: &mut Reader, value: &Value, kind: Kind) -> Kind
    ensures value { result ≡ with_course kind (view value.now) }
    ensures asked { reader.new ≡ course_asks kind (view value.now) reader.old }
{
    match kind {
        Kind::Kinematic(_) => {
            let velocity = reader.vector_within(field(value, "velocity"), MAX_SPEED.unsigned_abs());
            let spin = reader.signed(field(value, "spin"), -MAX_SPIN, MAX_SPIN);
            reader.ask(has_keys(value, 15), Clause::Form);
            Kind::Kinematic(Course { velocity, spin })
        }
        Kind::Static => {
            reader.ask(has_keys(value, 13), Clause::Form);
            Kind::Static
        }
        Kind::Dynamic => {
            reader.ask(has_keys(value, 13), Clause::Form);
            Kind::Dynamic
        }
    }
}

/// Reads the kind of a body, with its course if it is kinematic.
#[tactic(auto, unfolding(crate::specs::SavedBodies::kind_in, crate::specs::AskedBodies::kind_asks))]
fn read_kind(reader: &mut Reader, value: &Value) -> Kind
    ensures value { result ≡ kind_in (view value.now) }
    ensures asked { reader.new ≡ kind_asks (view value.now) reader.old }
{
    let named = named_kind(reader.text(field(value, "kind")));
    reader.ask(named.is_some(), Clause::Form);
    let kind = match named {
        Some(kind) => kind,
        None => Kind::Static,
    };
    read_course(reader, value, kind)
}

fn least_mass(kind: Kind) -> i64
    ensures { result ≡ least_mass kind }
{
    match kind {
        Kind::Static => 0,
        Kind::Kinematic(_) => 0,
        Kind::Dynamic => 1,
    }
}

fn most_mass(kind: Kind) -> i64
    ensures { result ≡ most_mass kind }
{
    match kind {
        Kind::Static => 0,
        Kind::Kinematic(_) => 0,
        Kind::Dynamic => MAX_MASS,
    }
}

fn most_inertia(kind: Kind) -> i64
    ensures { result ≡ most_inertia kind }
{
    match kind {
        Kind::Static => 0,
        Kind::Kinematic(_) => 0,
        Kind::Dynamic => MAX_INERTIA,
    }
}

/// Reads the mass and the inertia, which a body that isn't dynamic has none of.
#[tactic(auto, unfolding(crate::specs::SavedBodies::mass_in, crate::specs::AskedBodies::mass_asks))]
fn read_mass(reader: &mut Reader, value: &Value, kind: Kind) -> MassData
    ensures value { result ≡ mass_in kind (view value.now) }
    ensures asked { reader.new ≡ mass_asks kind (view value.now) reader.old }
{
    let mass = reader.signed(field(value, "mass"), least_mass(kind), most_mass(kind));
    let inertia = reader.signed(field(value, "inertia"), 0, most_inertia(kind));
    MassData { mass, inertia }
}

/// The greatest size of an angular momentum, which a body without inertia has none of.
fn most_angular(inertia: i64) -> u128
    ensures value { result ≡ most_angular inertia }
    ensures small { result < 2 ^ 127 }
{
    if inertia == 0 {
        0
    } else {
        MAX_ANGULAR_MOMENTUM.unsigned_abs()
    }
}

fn read_facing(reader: &mut Reader, value: Option<&Value>) -> Rot
    ensures value { result ≡ facing_in (seen value.entry) }
    ensures asked { reader.new ≡ facing_asks (seen value.entry) reader.old }
{
    let vector = reader.vector(value);
    let facing = Rot {
        c: vector.x,
        s: vector.y,
    };
    reader.ask(is_facing(facing), Clause::Limits);
    facing
}

/// Reads the momenta of a body, of which the angular one is at most `most` in size.
#[tactic(auto, unfolding(crate::specs::SavedBodies::momenta_in, crate::specs::AskedBodies::momenta_asks))]
fn read_momenta(reader: &mut Reader, value: &Value, most: u128) -> Momenta
    requires { most < 2 ^ 127 }
    ensures value { result ≡ momenta_in most (view value.now) }
    ensures asked { reader.new ≡ momenta_asks most (view value.now) reader.old }
{
    let p = reader.vector_within(field(value, "p"), MAX_MOMENTUM.unsigned_abs());
    let l = reader.decimal(field(value, "l"), most);
    Momenta { p, l }
}

/// Reads where a body is.
#[tactic(auto, unfolding(crate::specs::SavedBodies::pose_in, crate::specs::AskedBodies::pose_asks))]
fn read_pose(reader: &mut Reader, value: &Value) -> Pose
    ensures value { result ≡ pose_in (view value.now) }
    ensures asked { reader.new ≡ pose_asks (view value.now) reader.old }
{
    let x = reader.vector_within(field(value, "at"), MAX_POSITION.unsigned_abs());
    let rot = read_facing(reader, field(value, "facing"));
    Pose { x, rot }
}

/// Reads the motion of a body of this inertia.
#[tactic(auto, unfolding(crate::specs::SavedBodies::motion_in, crate::specs::AskedBodies::motion_asks))]
fn read_motion(reader: &mut Reader, value: &Value, inertia: i64) -> Motion
    ensures value { result ≡ motion_in inertia (view value.now) }
    ensures asked { reader.new ≡ motion_asks inertia (view value.now) reader.old }
{
    let momenta = read_momenta(reader, value, most_angular(inertia));
    let pose = read_pose(reader, value);
    Motion {
        p: momenta.p,
        l: momenta.l,
        x: pose.x,
        rot: pose.rot,
    }
}

/// Reads what a body says of its island.
#[tactic(auto, unfolding(crate::specs::SavedBodies::membership_in, crate::specs::AskedBodies::membership_asks))]
fn read_membership(reader: &mut Reader, value: &Value) -> Membership
    ensures value { result ≡ membership_in (view value.now) }
    ensures asked { reader.new ≡ membership_asks (view value.now) reader.old }
{
    let island = reader.island(field(value, "island"));
    let loose = reader.truth(field(value, "loose"));
    let asleep = reader.truth(field(value, "asleep"));
    Membership {
        island,
        loose,
        asleep,
    }
}

/// What a body's keys say, but for its shapes.
#[derive(Clone, Copy)]
pub(crate) struct Numbers {
    pub kind: Kind,
    pub mass: MassData,
    pub motion: Motion,
    pub membership: Membership,
    pub enabled: bool,
    pub timer: u64,
}

/// Reads the keys of a body, but for its shapes.
#[tactic(auto, unfolding(crate::specs::AskedBodies::numbers_asks))]
pub(crate) fn read_numbers(reader: &mut Reader, value: &Value, most_ticks: u64) -> Numbers
    ensures kind { result.kind ≡ kind_in (view value.now) }
    ensures mass { result.mass ≡ mass_in (kind_in (view value.now)) (view value.now) }
    ensures motion { result.motion ≡ motion_in (mass_in (kind_in (view value.now)) (view value.now)).inertia (view value.now) }
    ensures membership { result.membership ≡ membership_in (view value.now) }
    ensures enabled { result.enabled ≡ truth_in (get (codes "enabled") (view value.now)) }
    ensures timer { result.timer ≡ unsigned_in most_ticks (get (codes "timer") (view value.now)) }
    ensures asked { reader.new ≡ numbers_asks most_ticks (view value.now) reader.old }
{
    let kind = read_kind(reader, value);
    let mass = read_mass(reader, value, kind);
    let motion = read_motion(reader, value, mass.inertia);
    let membership = read_membership(reader, value);
    let enabled = reader.truth(field(value, "enabled"));
    let timer = reader.unsigned(field(value, "timer"), most_ticks);
    Numbers {
        kind,
        mass,
        motion,
        membership,
        enabled,
        timer,
    }
}
