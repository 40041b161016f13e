//! The commands that make and destroy joints.

ghost use Rattle.std.specs.Prelude.{◌≡◌, ◌<◌, ◌^◌};
ghost use Rattle.world_rules.specs.Apply.{Answers, apply_join, apply_unjoin};

use super::WorldCore;
use crate::joining::{check_join, joint_of};
use crate::waking_islands::wake_planned;
use body_handles::Handle;
use fixed_geom::Refusal;
use plain_world::{Constraint, JointDef};
use solver_sets::{begin_with, end_with, joint_movers};
use world_rules::Reply;

impl WorldCore {
    pub(super) fn create_joint(&mut self, def: &JointDef) -> Result<Reply, Refusal>
        requires { self.old.plain.calls < 2 ^ 40 }
        ensures { Answers (apply_join self.old.plain def.now) self.old result self.new }
    {
        check_join(&self.handles, self.activity.bodies.bodies(), def)?;
        if self.joint_handles.is_full() {
            return Err(Refusal::TooMany);
        }
        let joint = def.make();
        let waking = self.plan_waking(&[joint.a, joint.b])?;
        self.joint_handles.reserve_one()?;
        self.constraints.joints.reserve_for(&joint)?;
        self.activity.sets.reserve(1, 0)?;
        self.activity
            .joint_sets
            .reserve(self.constraints.joints.joints().len() + 1, 0)?;
        wake_planned(
            &mut self.activity,
            self.joint_handles.slot_entries(),
            &self.constraints,
            &waking,
        );
        let handle = self.joint_handles.insert()?;
        let movers = joint_movers(self.activity.bodies.bodies(), &joint);
        begin_with(&mut self.activity.sets, Constraint::Joint(handle), movers);
        self.activity.bodies.mark(joint.a);
        self.constraints.joints.put(handle.slot, joint);
        self.calls += 1;
        Ok(Reply::Joint(handle))
    }

    pub(super) fn destroy_joint(&mut self, handle: Handle) -> Result<Reply, Refusal>
        requires { self.old.plain.calls < 2 ^ 40 }
        ensures { Answers (apply_unjoin self.old.plain handle) self.old result self.new }
    {
        let Some(joint) = joint_of(&self.joint_handles, &self.constraints.joints, handle) else {
            return Err(Refusal::StaleHandle);
        };
        let waking = self.plan_waking(&[joint.a, joint.b])?;
        wake_planned(
            &mut self.activity,
            self.joint_handles.slot_entries(),
            &self.constraints,
            &waking,
        );
        let movers = joint_movers(self.activity.bodies.bodies(), &joint);
        end_with(&mut self.activity.sets, Constraint::Joint(handle), movers);
        self.activity.bodies.mark(joint.b);
        self.constraints.joints.clear(handle.slot);
        self.joint_handles.remove(handle);
        self.calls += 1;
        Ok(Reply::Done)
    }
}
