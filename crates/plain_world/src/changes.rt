//! Changes of one body in its slot.

ghost use Rattle.std.specs.Prelude.{◌≡◌, ◌<◌, false, option_map, true, vec_len};
ghost use Rattle.std.specs.Option.{ForSome};
ghost use Rattle.plain_world.specs.declared.body.Body.{Body};
ghost use Rattle.plain_world.specs.Bodies.{is_awake, is_carried, standing_of};
ghost use Rattle.plain_world.specs.Changes.{changed_at, is_awake_in, disabled_body, enabled_body, put_course, put_momenta, put_pose};
ghost use Rattle.plain_world.specs.InSlots.{CanPose, is_carried_in};
ghost use Rattle.plain_world.specs.Kinds.{is_kinematic};
ghost use Rattle.plain_world.specs.Shown.{IsShownAlike};
ghost use Rattle.plain_world.specs.Slots.{body_at};

use crate::body::Body;
use crate::kind::{Course, Kind};
use fixed_geom::Vec2;
use momenta::Momenta;
use shapes::Pose;

/// A change of a body that leaves it in its set, and an awake mover, or carried along, or neither, as it was.
pub trait BodyChange {
    ghost after: { Self → Body → Body };

    /// The bodies that it may be made to.
    ghost fits: { Self → Body → Type 0 };

    fn change(&self, body: &mut Body)
        requires { fits self.now body.old }
        ensures value { body.new ≡ after self.now body.old }
        ensures awake { is_awake body.new ≡ is_awake body.old }
        ensures carried { is_carried body.new ≡ is_carried body.old }
        ensures standing { standing_of body.new ≡ standing_of body.old };

    /// Whether the broad phase may see other shapes of the body afterwards.
    fn moves(&self) -> bool
        ensures alike { result ≡ false → (b : Body) → fits self.now b → IsShownAlike b (after self.now b) };
}

/// Other momenta.
impl BodyChange for Momenta {
    ghost after = { λ m b. put_momenta m b };

    ghost fits = { λ _ _. Unit {0} };

    fn change(&self, body: &mut Body) {
        body.motion.p = self.p;
        body.motion.l = self.l;
    }

    fn moves(&self) -> bool {
        false
    }
}

/// Another pose: the momenta stay, and fat boxes are made anew where the shapes' tight boxes leave them.
impl BodyChange for Pose {
    ghost after = { λ o b. put_pose o b };

    ghost fits = { λ o b. CanPose o b };

    fn change(&self, body: &mut Body) {
        body.motion.x = self.x;
        body.motion.rot = self.rot;
        let _ = body.fats.renew(body.shapes.as_slice(), *self);
    }

    fn moves(&self) -> bool {
        true
    }
}

/// Another velocity and spin of a kinematic body.
impl BodyChange for Course {
    ghost after = { λ course b. put_course course b };

    ghost fits = { λ _ b. is_kinematic b.kind ≡ true };

    fn change(&self, body: &mut Body) {
        body.kind = Kind::Kinematic(*self);
    }

    fn moves(&self) -> bool {
        false
    }
}

impl Body {
    /// Disables it: it comes to a halt, and sleeps no more. Its timer stays.
    fn disable(&mut self)
        ensures { self.new ≡ disabled_body self.old }
    {
        self.enabled = false;
        self.kind = self.kind.halted();
        self.motion.p = Vec2 { x: 0, y: 0 };
        self.motion.l = 0;
        self.asleep = None;
    }

    /// Enables it: a mover is awake, and its timer 0.
    fn enable(&mut self)
        ensures { self.new ≡ enabled_body self.old }
    {
        self.enabled = true;
        self.asleep = None;
        if self.kind.is_dynamic() {
            self.timer = 0;
        }
    }
}

/// Disables the body in a slot, if one is there.
pub fn disable_slot(bodies: &mut Vec<Option<Body>>, slot: usize)
    requires { slot < vec_len bodies.old }
    ensures { bodies.new.items ≡ changed_at disabled_body bodies.old.items slot }
{
    if let Some(body) = &mut bodies[slot] {
        body.disable();
    }
}

/// Enables the body in a slot, if one is there.
pub fn enable_slot(bodies: &mut Vec<Option<Body>>, slot: usize)
    requires { slot < vec_len bodies.old }
    ensures { bodies.new.items ≡ changed_at enabled_body bodies.old.items slot }
{
    if let Some(body) = &mut bodies[slot] {
        body.enable();
    }
}

/// Makes a change to the body in a slot, if one is there.
pub fn change_slot<C: BodyChange>(bodies: &mut Vec<Option<Body>>, slot: usize, change: &C)
    requires slot { slot < vec_len bodies.old }
    requires fits { ForSome (body_at bodies.old.items slot) (C.fits change.now) }
    ensures value { bodies.new.items ≡ changed_at (C.after change.now) bodies.old.items slot }
    ensures awake { is_awake_in (body_at bodies.new.items slot) ≡ is_awake_in (body_at bodies.old.items slot) }
    ensures carried { is_carried_in (body_at bodies.new.items slot) ≡ is_carried_in (body_at bodies.old.items slot) }
    ensures standing { option_map standing_of (body_at bodies.new.items slot) ≡ option_map standing_of (body_at bodies.old.items slot) }
{
    if let Some(body) = &mut bodies[slot] {
        change.change(body);
    }
}
