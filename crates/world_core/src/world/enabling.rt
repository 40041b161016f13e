//! Bodies that are disabled, and that take part again.

ghost use Rattle.std.specs.Prelude.{◌≡◌, ◌<◌, ◌^◌};
ghost use Rattle.world_rules.specs.Apply.{Answers, apply_disable, apply_enable};

use super::WorldCore;
use crate::booking::{book, loss_of};
use crate::membership::{come, leave};
use crate::own_joints::{fill_joint_ties, list_joined};
use crate::pushes::mover_momentum;
use crate::waking_islands::wake_planned;
use body_handles::Handle;
use fixed_geom::Refusal;
use impulse_ledger::Cause;
use plain_world::body_of;
use world_rules::Reply;

impl WorldCore {
    pub(super) fn disable(&mut self, handle: Handle) -> Result<Reply, Refusal>
        requires { self.old.plain.calls < 2 ^ 40 }
        ensures { Answers (apply_disable self.old.plain handle) self.old result self.new }
    {
        let Some(body) = body_of(&self.handles, self.activity.bodies.bodies(), handle) else {
            return Err(Refusal::StaleHandle);
        };
        if !body.enabled {
            return Err(Refusal::BodyDisabled);
        }
        let mover = body.is_mover();
        let p = mover_momentum(body);
        let ties = self.ties_at(handle.slot)?;
        let waking = self.plan_stir_by_ties(handle.slot, &ties)?;
        self.ledger.reserve(1)?;
        wake_planned(
            &mut self.activity,
            self.joint_handles.slot_entries(),
            &self.constraints,
            &waking,
        );
        leave(&mut self.activity.sets, handle.slot, mover, &ties);
        self.activity.bodies.disable(handle.slot);
        self.constraints.joints.idle(handle.slot);
        self.constraints.contacts.know_numbered();
        self.constraints.contacts.drop_of_body(handle.slot);
        self.constraints.contacts.know_numbered();
        book(
            &mut self.ledger,
            self.calls + 1,
            Cause::Departed,
            loss_of(p),
        );
        self.calls += 1;
        Ok(Reply::Done)
    }

    pub(super) fn enable(&mut self, handle: Handle) -> Result<Reply, Refusal>
        requires { self.old.plain.calls < 2 ^ 40 }
        ensures { Answers (apply_enable self.old.plain handle) self.old result self.new }
    {
        let Some(body) = body_of(&self.handles, self.activity.bodies.bodies(), handle) else {
            return Err(Refusal::StaleHandle);
        };
        if body.enabled {
            self.calls += 1;
            return Ok(Reply::Done);
        }
        let mover = body.kind.is_dynamic();
        let own = self.constraints.joints.slots_of(handle.slot)?;
        let joined = list_joined(
            self.activity.bodies.allocator(),
            self.activity.bodies.bodies(),
            self.constraints.joints.joints(),
            &own,
            handle.slot,
        )?;
        let waking = self.plan_waking(&joined)?;
        let mut ties = Vec::with_capacity(self.activity.bodies.allocator(), own.len())?;
        self.activity
            .sets
            .reserve(own.len(), self.activity.bodies.bodies().len())?;
        wake_planned(
            &mut self.activity,
            self.joint_handles.slot_entries(),
            &self.constraints,
            &waking,
        );
        self.constraints.contacts.know_numbered();
        self.activity.bodies.enable(handle.slot);
        fill_joint_ties(
            &mut ties,
            self.activity.bodies.bodies(),
            self.joint_handles.slot_entries(),
            self.constraints.joints.joints(),
            &own,
            handle.slot,
        );
        come(&mut self.activity.sets, handle.slot, mover);
        self.activity.sets.begin_each(&ties);
        self.constraints.joints.follow(
            &mut self.activity.joint_sets,
            self.activity.bodies.bodies(),
            &[handle.slot],
        );
        self.calls += 1;
        Ok(Reply::Done)
    }
}
