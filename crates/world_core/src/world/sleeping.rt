//! Islands that are woken and put to rest, by commands and by what commands change.

ghost use Rattle.std.specs.Prelude.{◌≡◌, ◌<◌, ◌^◌, IfOk};
ghost use Rattle.std.specs.Result.{IsOkUnless};
ghost use Rattle.sleep_wake.specs.Sleeping.{sleeping_names};
ghost use Rattle.solver_sets.specs.Beside.{stirred_by};
ghost use Rattle.solver_sets.specs.BesideByTies.{first_movers};
ghost use Rattle.solver_sets.specs.Ties.{ties_at};
ghost use Rattle.world_core.specs.Waking.{HasIslands};
ghost use Rattle.world_rules.specs.World.{joints_in_slots};
ghost use Rattle.world_rules.specs.Apply.{Answers, apply_wake, apply_sleep};

use super::WorldCore;
use crate::booking::book;
use crate::own_contacts::contact_ties;
use crate::own_joints::joint_ties;
use crate::pushes::check_mover;
use crate::waking_islands::{Waking, plan_rest, plan_waking, put_to_sleep, wake_planned};
use body_handles::Handle;
use fixed_geom::Refusal;
use graph_colours::Member;
use impulse_ledger::Cause;
use plain_world::Constraint;
use solver_sets::is_mover_at;
use std::alloc::Global;
use world_rules::Reply;

impl WorldCore {
    /// Which islands wake with the movers in these slots.
    pub(super) fn plan_waking(&self, slots: &[u32]) -> Result<Waking, Refusal>
        ensures names { IfOk result (λ waking. waking.names.items ≡ sleeping_names self.now.plain.islands slots.now) }
        ensures movers { IfOk result (λ waking. HasIslands self.now.plain.islands waking.names.items waking.movers.items) }
        ensures memory_only { IsOkUnless result Refusal.NoMemory }
    {
        plan_waking(self.activity.bodies.allocator(), &self.activity.sets, slots)
    }

    /// Which islands wake when the body in a slot is changed.
    pub(super) fn plan_stir(&self, slot: u32) -> Result<Waking, Refusal>
        ensures names { IfOk result (λ waking. waking.names.items ≡ sleeping_names self.now.plain.islands (stirred_by self.now.plain.bodies self.now.plain.joints self.now.plain.contacts slot)) }
        ensures movers { IfOk result (λ waking. HasIslands self.now.plain.islands waking.names.items waking.movers.items) }
        ensures memory_only { IsOkUnless result Refusal.NoMemory }
    {
        if is_mover_at(self.activity.bodies.bodies(), slot) {
            return self.plan_waking(&[slot]);
        }
        let ties = self.ties_at(slot)?;
        self.plan_stir_by_ties(slot, &ties)
    }

    /// The same, where the constraints of the body are at hand.
    pub(super) fn plan_stir_by_ties(
        &self,
        slot: u32,
        ties: &[Member<Constraint>],
    ) -> Result<Waking, Refusal>
        requires { ties.now ≡ ties_at slot self.now.plain.bodies (joints_in_slots self.now.plain) self.now.plain.contacts }
        ensures names { IfOk result (λ waking. waking.names.items ≡ sleeping_names self.now.plain.islands (stirred_by self.now.plain.bodies self.now.plain.joints self.now.plain.contacts slot)) }
        ensures movers { IfOk result (λ waking. HasIslands self.now.plain.islands waking.names.items waking.movers.items) }
        ensures memory_only { IsOkUnless result Refusal.NoMemory }
    {
        if is_mover_at(self.activity.bodies.bodies(), slot) {
            return self.plan_waking(&[slot]);
        }
        let slots = list_first(self.activity.bodies.allocator(), ties)?;
        self.plan_waking(&slots)
    }

    /// The constraints of the body in a slot, ascending: those of its joints, and then those of its contacts. Costs by
    /// how many joints and contacts it has.
    pub(super) fn ties_at(&self, slot: u32) -> Result<Vec<Member<Constraint>>, Refusal>
        ensures ties { IfOk result (λ ties. ties.items ≡ ties_at slot self.now.plain.bodies (joints_in_slots self.now.plain) self.now.plain.contacts) }
        ensures memory_only { IsOkUnless result Refusal.NoMemory }
    {
        let alloc = self.activity.bodies.allocator();
        let mut ties = joint_ties(
            alloc,
            self.activity.bodies.bodies(),
            self.joint_handles.slot_entries(),
            &self.constraints.joints,
            slot,
        )?;
        let contacts = contact_ties(
            alloc,
            self.activity.bodies.bodies(),
            &self.constraints.contacts,
            slot,
        )?;
        ties.extend_from_slice(&contacts)?;
        Ok(ties)
    }

    pub(super) fn wake(&mut self, handle: Handle) -> Result<Reply, Refusal>
        requires { self.old.plain.calls < 2 ^ 40 }
        ensures { Answers (apply_wake self.old.plain handle) self.old result self.new }
    {
        check_mover(&self.handles, self.activity.bodies.bodies(), handle)?;
        let waking = self.plan_waking(&[handle.slot])?;
        wake_planned(
            &mut self.activity,
            self.joint_handles.slot_entries(),
            &self.constraints,
            &waking,
        );
        self.calls += 1;
        Ok(Reply::Done)
    }

    pub(super) fn sleep(&mut self, handle: Handle) -> Result<Reply, Refusal>
        requires { self.old.plain.calls < 2 ^ 40 }
        ensures { Answers (apply_sleep self.old.plain handle) self.old result self.new }
    {
        check_mover(&self.handles, self.activity.bodies.bodies(), handle)?;
        self.ledger.reserve(1)?;
        let movers = plan_rest(
            self.activity.bodies.allocator(),
            &self.activity.sets,
            handle.slot,
        )?;
        let rest = put_to_sleep(
            &mut self.activity,
            self.joint_handles.slot_entries(),
            &self.constraints,
            handle.slot,
            &movers,
        );
        book(&mut self.ledger, self.calls + 1, Cause::Rest, rest);
        self.calls += 1;
        Ok(Reply::Done)
    }
}

/// The first mover of each of these constraints.
fn list_first(alloc: Global, ties: &[Member<Constraint>]) -> Result<Vec<u32>, Refusal>
    ensures slots { IfOk result (λ slots. slots.items ≡ first_movers ties.now) }
    ensures memory_only { IsOkUnless result Refusal.NoMemory }
{
    let mut slots = Vec::with_capacity(alloc, ties.len())?;
    for place in 0..ties.len() {
        slots.push(ties[place].movers.first)?;
    }
    Ok(slots)
}
