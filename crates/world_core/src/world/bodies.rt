//! Bodies that come and go, and that are changed one by one.

ghost use Rattle.std.specs.Prelude.{◌≡◌, ◌<◌, ◌^◌, Ok, length};
ghost use Rattle.std.specs.Option.{ForSome};
ghost use Rattle.plain_world.specs.Slots.{body_at};
ghost use Rattle.world_core.specs.Stirring.{MayChange};
ghost use Rattle.world_rules.specs.Apply.{Answers, apply_create, apply_destroy, apply_push, apply_pose, apply_velocity, with_body_changed};
ghost use Rattle.world_rules.specs.Sets.{stirred};

use super::WorldCore;
use crate::booking::{book, gain_of, loss_of};
use crate::joining::drop_joints;
use crate::membership::{come, leave};
use crate::pushes::{course_after, momenta_after, mover_momentum, pose_after};
use crate::waking_islands::wake_planned;
use body_handles::Handle;
use fixed_geom::{Refusal, Vec2};
use impulse_ledger::Cause;
use plain_world::{BodyChange, BodyDef, Course, body_of, know_filters_fit};
use shapes::Pose;
use world_rules::Reply;

impl WorldCore {
    pub(super) fn create_body(&mut self, def: &BodyDef) -> Result<Reply, Refusal>
        requires { self.old.plain.calls < 2 ^ 40 }
        ensures { Answers (apply_create self.old.plain def.now) self.old result self.new }
    {
        def.check()?;
        know_filters_fit(def.shapes.as_slice());
        if self.handles.is_full() {
            return Err(Refusal::TooMany);
        }
        let body = def.make(self.activity.bodies.allocator())?;
        self.handles.reserve_one()?;
        self.activity
            .bodies
            .reserve_one(self.handles.next_slot(), &body)?;
        let slots = self.activity.bodies.bodies().len() + 1;
        self.activity.sets.reserve(0, slots)?;
        self.activity.joint_sets.reserve(0, slots)?;
        self.activity.contact_sets.reserve(0, slots)?;
        self.constraints.contacts.know_numbered();
        let handle = self.handles.insert()?;
        come(&mut self.activity.sets, handle.slot, body.is_mover());
        self.activity.sets.widen(handle.slot);
        self.activity.bodies.put(handle.slot, body);
        self.calls += 1;
        Ok(Reply::Body(handle))
    }

    pub(super) fn destroy_body(&mut self, handle: Handle) -> Result<Reply, Refusal>
        requires { self.old.plain.calls < 2 ^ 40 }
        ensures { Answers (apply_destroy self.old.plain handle) self.old result self.new }
    {
        let Some(body) = body_of(&self.handles, self.activity.bodies.bodies(), handle) else {
            return Err(Refusal::StaleHandle);
        };
        let mover = body.is_mover();
        let p = mover_momentum(body);
        let ties = self.ties_at(handle.slot)?;
        let waking = self.plan_stir_by_ties(handle.slot, &ties)?;
        let own = self.constraints.joints.slots_of(handle.slot)?;
        self.ledger.reserve(1)?;
        wake_planned(
            &mut self.activity,
            self.joint_handles.slot_entries(),
            &self.constraints,
            &waking,
        );
        leave(&mut self.activity.sets, handle.slot, mover, &ties);
        drop_joints(
            &mut self.joint_handles,
            &mut self.constraints.joints,
            handle.slot,
            &own,
        );
        self.activity.bodies.clear(handle.slot);
        self.constraints.contacts.know_numbered();
        self.constraints.contacts.drop_of_body(handle.slot);
        self.constraints.contacts.know_numbered();
        self.handles.remove(handle);
        book(
            &mut self.ledger,
            self.calls + 1,
            Cause::Departed,
            loss_of(p),
        );
        self.calls += 1;
        Ok(Reply::Done)
    }

    pub(super) fn push(&mut self, handle: Handle, by: Vec2, offset: Vec2) -> Result<Reply, Refusal>
        requires { self.old.plain.calls < 2 ^ 40 }
        ensures { Answers (apply_push self.old.plain handle by offset) self.old result self.new }
    {
        let momenta = momenta_after(
            &self.handles,
            self.activity.bodies.bodies(),
            handle,
            by,
            offset,
        )?;
        let waking = self.plan_waking(&[handle.slot])?;
        self.ledger.reserve(1)?;
        wake_planned(
            &mut self.activity,
            self.joint_handles.slot_entries(),
            &self.constraints,
            &waking,
        );
        self.activity.bodies.change(handle.slot, &momenta);
        book(
            &mut self.ledger,
            self.calls + 1,
            Cause::Command,
            gain_of(by),
        );
        self.calls += 1;
        Ok(Reply::Done)
    }

    pub(super) fn set_pose(&mut self, handle: Handle, pose: Pose) -> Result<Reply, Refusal>
        requires { self.old.plain.calls < 2 ^ 40 }
        ensures { Answers (apply_pose self.old.plain handle pose) self.old result self.new }
    {
        let pose = pose_after(&self.handles, self.activity.bodies.bodies(), handle, pose)?;
        self.change_stirred(handle, &pose)
    }

    pub(super) fn set_velocity(&mut self, handle: Handle, course: Course) -> Result<Reply, Refusal>
        requires { self.old.plain.calls < 2 ^ 40 }
        ensures { Answers (apply_velocity self.old.plain handle course) self.old result self.new }
    {
        let course = course_after(&self.handles, self.activity.bodies.bodies(), handle, course)?;
        self.change_stirred(handle, &course)
    }

    /// Makes a change to a body that is there, once the islands that this wakes are awake.
    fn change_stirred<C: BodyChange>(
        &mut self,
        handle: Handle,
        change: &C,
    ) -> Result<Reply, Refusal>
        requires calls { self.old.plain.calls < 2 ^ 40 }
        requires present { handle.slot < length self.old.plain.bodies }
        requires fits { ForSome (body_at (stirred self.old.plain handle.slot).bodies handle.slot) (C.fits change.now) }
        requires may { MayChange self.old handle (C.after change.now) }
        ensures { Answers (Ok (with_body_changed self.old.plain handle (C.after change.now))) self.old result self.new }
    {
        let waking = self.plan_stir(handle.slot)?;
        wake_planned(
            &mut self.activity,
            self.joint_handles.slot_entries(),
            &self.constraints,
            &waking,
        );
        self.activity.bodies.change(handle.slot, change);
        self.calls += 1;
        Ok(Reply::Done)
    }
}
