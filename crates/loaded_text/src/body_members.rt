//! The members of a body before and behind its shapes.

ghost use Rattle.std.specs.Prelude.{◌≡◌, ◌<◌, ◌^◌, false, true, IfSome};
ghost use Rattle.plain_world.specs.Kinds.{IsCourseOf};
ghost use Rattle.saved_text.specs.Bodies.{last_of_body};
ghost use Rattle.world_file_base.specs.SavedBodies.{kind_name};
ghost use Rattle.loaded_text.specs.Bodies.{IsCarried, IsFront, IsStill, front_members};
ghost use Rattle.loaded_text.specs.Stands.{MembersStand};

use crate::leaves::{read_decimal, read_integer, read_island, read_natural, read_truth};
use crate::names::read_kind;
use crate::text::Text;
use crate::vectors::{read_facing, read_vector_within};
use fixed_geom::{MAX_POSITION, Rot, Vec2};
use momenta::{MAX_ANGULAR_MOMENTUM, MAX_MOMENTUM, MAX_SPEED};
use plain_world::{Course, Kind};

/// What stands before the shapes.
#[derive(Clone, Copy)]
pub(crate) struct Front {
    pub(crate) asleep: bool,
    pub(crate) at: Vec2,
    pub(crate) enabled: bool,
    pub(crate) facing: Rot,
    pub(crate) inertia: i64,
    pub(crate) island: Option<u32>,
    /// It has no course yet.
    pub(crate) kind: Kind,
    pub(crate) l: i128,
    pub(crate) loose: bool,
    pub(crate) mass: i64,
    pub(crate) p: Vec2,
}

/// What stands behind them.
#[derive(Clone, Copy)]
pub(crate) struct Last {
    pub(crate) kind: Kind,
    pub(crate) timer: u64,
}

pub(crate) fn read_front(text: &mut Text) -> Option<Front>
    ensures text { IfSome result (λ front. MembersStand false (front_members front) text.old.rest.now text.new.rest.now) }
    ensures fits { IfSome result IsFront }
{
    let asleep = read_truth(text, b"\"asleep\":")?;
    let at = read_vector_within(text, b",\"at\":", MAX_POSITION.unsigned_abs())?;
    let enabled = read_truth(text, b",\"enabled\":")?;
    let facing = read_facing(text, b",\"facing\":")?;
    let inertia = read_integer(text, b",\"inertia\":")?;
    let island = read_island(text, b",\"island\":")?;
    let kind = read_kind(text, b",\"kind\":")?;
    let l = read_decimal(text, b",\"l\":", MAX_ANGULAR_MOMENTUM.unsigned_abs())?;
    let loose = read_truth(text, b",\"loose\":")?;
    let mass = read_integer(text, b",\"mass\":")?;
    let p = read_vector_within(text, b",\"p\":", MAX_MOMENTUM.unsigned_abs())?;
    Some(Front {
        asleep,
        at,
        enabled,
        facing,
        inertia,
        island,
        kind,
        l,
        loose,
        mass,
        p,
    })
}

/// Those of a body without a course.
fn read_still(text: &mut Text, kind: Kind) -> Option<Last>
    requires { IsStill kind }
    ensures text { IfSome result (λ last. MembersStand true (last_of_body last.kind last.timer) text.old.rest.now text.new.rest.now) }
    ensures kind { IfSome result (λ last. last.kind ≡ kind) }
    ensures small { IfSome result (λ last. last.timer < 2 ^ 64) }
{
    let timer = read_natural(text, b",\"timer\":")?;
    Some(Last { kind, timer })
}

/// Those of a kinematic body.
fn read_carried(text: &mut Text) -> Option<Last>
    ensures text { IfSome result (λ last. MembersStand true (last_of_body last.kind last.timer) text.old.rest.now text.new.rest.now) }
    ensures kind { IfSome result (λ last. IsCarried last.kind) }
    ensures small { IfSome result (λ last. last.timer < 2 ^ 64) }
{
    let spin = read_integer(text, b",\"spin\":")?;
    let timer = read_natural(text, b",\"timer\":")?;
    let velocity = read_vector_within(text, b",\"velocity\":", MAX_SPEED.unsigned_abs())?;
    let course = Course { velocity, spin };
    if !course.is_allowed() {
        return None;
    }
    Some(Last {
        kind: Kind::Kinematic(course),
        timer,
    })
}

/// Those of a body of this kind.
pub(crate) fn read_last(text: &mut Text, kind: Kind) -> Option<Last>
    ensures text { IfSome result (λ last. MembersStand true (last_of_body last.kind last.timer) text.old.rest.now text.new.rest.now) }
    ensures kind { IfSome result (λ last. kind_name last.kind ≡ kind_name kind) }
    ensures course { IfSome result (λ last. IsCourseOf last.kind) }
    ensures small { IfSome result (λ last. last.timer < 2 ^ 64) }
{
    match kind {
        Kind::Kinematic(_) => read_carried(text),
        Kind::Static => read_still(text, Kind::Static),
        Kind::Dynamic => read_still(text, Kind::Dynamic),
    }
}
