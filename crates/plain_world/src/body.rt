//! A body (Box2D: `body.c`): its definition, what is stored of it, and what is shown.

ghost use Rattle.std.specs.Prelude.{◌≡◌, IfOk, OnOk, IsTrue};
ghost use Rattle.std.specs.Result.{IsOkUnless, result_err};
ghost use Rattle.plain_world.specs.declared.kind.Kind.TheVariants.{Dynamic};
ghost use Rattle.plain_world.specs.Bodies.{can_move, is_awake, is_carried, is_mover, is_no_mass, pose_of, set_of, standing_of, stirs, view_of, is_mass_allowed, def_refusal, made, IsMassOf, IsAllowed, IsBody};

use crate::fats::FatBoxes;
use crate::kind::{Course, Kind};
use fixed_geom::{MAX_POSITION, Refusal, Rot, Vec2, is_facing, is_within};
use momenta::{MAX_INERTIA, MAX_MASS, MassData, Motion};
use shapes::{Pose, Shapes, check, is_between};
use std::alloc::Global;

/// The greatest size of a coordinate of a place, in u.
const MAX_BODY_POSITION: u64 = MAX_POSITION as u64;

/// A body to be made: at the place `x` (u) with the facing `rot` (times 2^30), at rest.
#[derive(Drop)]
pub struct BodyDef {
    pub kind: Kind,
    /// Of a dynamic body; zero in both parts for any other.
    pub mass: MassData,
    pub x: Vec2,
    pub rot: Rot,
    pub shapes: Shapes,
}

impl BodyDef {
    /// Tests it: refused 4 for its shapes (none, more than eight, or one of a form that isn't allowed), and
    /// else 5 for a number outside its limit.
    #[tactic(auto, unfolding(crate::specs::Bodies::def_refusal))]
    pub fn check(&self) -> Result<(), Refusal>
        ensures refusal { result_err result ≡ def_refusal self.now }
        ensures allowed { OnOk result (IsAllowed self.now) }
    {
        check(self.shapes.as_slice(), self.kind.is_static())?;
        if !is_mass_allowed(self.kind, self.mass) {
            return Err(Refusal::OutOfRange);
        }
        if !self.kind.is_course_allowed() {
            return Err(Refusal::OutOfRange);
        }
        if !is_within(self.x, MAX_BODY_POSITION) {
            return Err(Refusal::OutOfRange);
        }
        if !is_facing(self.rot) {
            return Err(Refusal::OutOfRange);
        }
        Ok(())
    }

    /// The body: at rest, enabled, its timer 0.
    pub fn make(&self, alloc: Global) -> Result<Body, Refusal>
        requires { IsAllowed self.now }
        ensures made { IfOk result (λ body. body ≡ made self.now) }
        ensures body { IfOk result (λ body. IsBody body) }
        ensures memory_only { IsOkUnless result Refusal.NoMemory }
    {
        let shapes = self.shapes.try_copy()?;
        let pose = Pose {
            x: self.x,
            rot: self.rot,
        };
        let fats = FatBoxes::around(alloc, self.shapes.as_slice(), pose)?;
        Ok(Body {
            kind: self.kind,
            mass: self.mass,
            motion: Motion::at_rest(self.x, self.rot),
            shapes,
            fats,
            timer: 0,
            enabled: true,
            asleep: None,
        })
    }
}

fn is_no_mass(mass: MassData) -> bool
    ensures { result ≡ is_no_mass mass }
{
    mass.mass == 0 && mass.inertia == 0
}

/// Whether a body of this kind may have this mass: a dynamic one a mass of 1 to 2^20 with an inertia of 0 to 2^60, and
/// any other none.
pub fn is_mass_allowed(kind: Kind, mass: MassData) -> bool
    ensures value { result ≡ is_mass_allowed kind mass }
    ensures mass { IsTrue result → IsMassOf kind mass }
{
    match kind {
        Kind::Static => is_no_mass(mass),
        Kind::Kinematic(_) => is_no_mass(mass),
        Kind::Dynamic => {
            is_between(1, MAX_MASS, mass.mass) && is_between(0, MAX_INERTIA, mass.inertia)
        }
    }
}

/// Where a mover stands that sleeps with the island of this name, if it sleeps.
fn sleeping_set(asleep: Option<u32>) -> SetName
    ensures { result ≡ set_of Dynamic asleep }
{
    match asleep {
        None => SetName::Awake,
        Some(name) => SetName::Sleeping(name),
    }
}

/// A body, as a slot contains it.
#[derive(Drop)]
pub struct Body {
    pub motion: Motion,
    pub mass: MassData,
    pub kind: Kind,
    pub enabled: bool,
    /// The name of the island with which a mover sleeps, its lowest slot; `None` for all others.
    pub asleep: Option<u32>,
    /// For how many ticks it has been slow.
    pub timer: u64,
    /// For each shape, in their order, a box that holds it with room to move in.
    pub fats: FatBoxes,
    pub shapes: Shapes,
}

impl Body {
    /// Whether it is a mover: an enabled dynamic body.
    pub fn is_mover(&self) -> bool
        ensures { result ≡ is_mover self.now }
    {
        self.enabled && self.kind.is_dynamic()
    }

    /// Whether it is a mover that is awake.
    pub fn is_awake(&self) -> bool
        ensures { result ≡ is_awake self.now }
    {
        self.is_mover() && self.asleep.is_none()
    }

    /// Whether it is carried along with a course of its own: an enabled kinematic body.
    pub fn is_carried(&self) -> bool
        ensures { result ≡ is_carried self.now }
    {
        self.enabled && self.kind.is_kinematic()
    }

    /// Whether a step may move it.
    pub fn can_move(&self) -> bool
        ensures { result ≡ can_move self.now }
    {
        self.is_awake() || self.is_carried()
    }

    /// Whether the contacts with it are evaluated in a step, whatever it meets: it is an awake mover, or is carried
    /// along and moves.
    pub fn stirs(&self) -> bool
        ensures { result ≡ stirs self.now }
    {
        self.is_awake() || self.is_carried() && self.kind.carried_by().is_moving()
    }

    /// Where its shapes are in the world.
    pub fn pose(&self) -> Pose
        ensures { result ≡ pose_of self.now }
    {
        Pose {
            x: self.motion.x,
            rot: self.motion.rot,
        }
    }

    /// Where it stands.
    pub fn standing(&self) -> SetName
        ensures { result ≡ standing_of self.now }
    {
        if !self.enabled {
            return SetName::Disabled;
        }
        match self.kind {
            Kind::Static => SetName::Static,
            Kind::Kinematic(_) => SetName::Awake,
            Kind::Dynamic => sleeping_set(self.asleep),
        }
    }

    /// What a caller may see of it.
    pub fn view(&self) -> BodyView
        ensures { result ≡ view_of self.now }
    {
        BodyView {
            at: self.motion.x,
            facing: self.motion.rot,
            p: self.motion.p,
            l: self.motion.l,
            course: self.kind.course(),
            set: self.standing(),
        }
    }

    /// A copy.
    pub fn try_copy(&self) -> Result<Body, Refusal>
        ensures copy { IfOk result (λ copied. copied ≡ self.now) }
        ensures memory_only { IsOkUnless result Refusal.NoMemory }
    {
        let shapes = self.shapes.try_copy()?;
        let fats = self.fats.try_copy()?;
        Ok(Body {
            kind: self.kind,
            mass: self.mass,
            motion: self.motion,
            shapes,
            fats,
            timer: self.timer,
            enabled: self.enabled,
            asleep: self.asleep,
        })
    }
}

/// A solver set: where a body stands.
#[derive(Clone, Copy, Debug, PartialEq, Eq)]
pub enum SetName {
    Static,
    Disabled,
    Awake,
    /// The sleeping set of the island with this name, its lowest slot.
    Sleeping(u32),
}

/// What can be seen of a body: its place (u), its facing (times 2^30), its momentum (mass·u/tick) and
/// angular momentum (mass·u²/tick), the velocity and the spin of a kinematic one, and the set in which it stands.
#[derive(Clone, Copy, Debug, PartialEq, Eq)]
pub struct BodyView {
    pub at: Vec2,
    pub facing: Rot,
    pub p: Vec2,
    pub l: i128,
    pub course: Option<Course>,
    pub set: SetName,
}
