//! The commit of a step up to its ticks: the contacts become what the collide made of them, constraints begin and end,
//! and sleepers wake.

ghost use Rattle.std.specs.Prelude.{◌≡◌, ◌≤◌, ◌+◌, false, length, replicate, vec_capacity};
ghost use Rattle.std.specs.List.Sorted.{IsStrictlyIncreasing};
ghost use Rattle.plain_world.specs.Constraints.{constraint_number};
ghost use Rattle.plain_world.specs.Sleep.{told};
ghost use Rattle.sleep_wake.specs.Changes.{after_changes};
ghost use Rattle.sleep_wake.specs.ChangeLists.{AreChanges, begin_count};
ghost use Rattle.solver_sets.specs.SinceTold.{newly_awake};
ghost use Rattle.world_core.specs.Ready.{IsReady};
ghost use Rattle.world_core.specs.Waking.{HasSleepers, OfAll};
ghost use Rattle.world_core_base.specs.Marked.{AreMarked, AreMarkedIn};
ghost use Rattle.world_core_base.specs.Asleep.{AreContactSets, AreJointSets};
ghost use Rattle.world_core_base.specs.Turned.{AreTurned};

use crate::activity::Activity;
use crate::preparing::Prepared;
use crate::telling_movers::tell_movers;
use crate::world_ties::WorldTies;
use body_handles::{Handle, SlotEntry};
use solver_sets::fill_newly_awake;
use world_core_base::Constraints;

/// Lets constraints begin and end, one after another, flushes the colours, lists who has woken by that, tells those,
/// whose joints and contacts follow, and flushes the bodies. All bodies had been told before. Those who wake are among
/// the slots that are prepared, so that it takes time by these and by what begins and ends. It takes no memory.
fn apply_all_changes(
    activity: &mut Activity,
    joint_entries: &[SlotEntry],
    constraints: &Constraints,
    woke: &mut Vec<Handle>,
    slot_entries: &[SlotEntry],
    prepared: &Prepared,
)
    requires can { AreChanges constraint_number activity.old.sets.acting.labels activity.old.sets.acting.ties prepared.now.changes.items }
    requires room { length activity.old.sets.acting.ties + begin_count prepared.now.changes.items ≤ activity.old.sets.room }
    requires ready { IsReady activity.old joint_entries.now constraints.now }
    requires sleepers { OfAll (HasSleepers activity.old.sets.acting.labels prepared.now.asleep.items) prepared.now.changes.items }
    requires rising { IsStrictlyIncreasing prepared.now.asleep.items }
    requires woke { length prepared.now.asleep.items ≤ vec_capacity woke.old }
    ensures acting { activity.new.sets.acting ≡ after_changes constraint_number prepared.now.changes.items activity.old.sets.acting }
    ensures bodies { activity.new.bodies.bodies ≡ told activity.new.sets.acting.labels activity.old.bodies.bodies }
    ensures woke { woke.new.items ≡ newly_awake slot_entries.now activity.old.bodies.bodies activity.new.sets.acting.labels }
    ensures colours_flushed { activity.new.sets.pending ≡ 0 }
    ensures bodies_flushed { activity.new.bodies.pending ≡ 0 }
    ensures marked { AreMarked activity.old.bodies activity.new.bodies }
    ensures standing { AreJointSets activity.new.bodies.bodies constraints.now.joints.joints activity.new.joint_sets }
    ensures contacts_standing { AreContactSets activity.new.bodies.bodies constraints.now.contacts.numbered activity.new.contact_sets }
    ensures contact_items { length activity.new.contact_sets.names ≡ length activity.old.contact_sets.names }
{
    let ties = WorldTies {
        bodies: activity.bodies.bodies(),
        joint_entries,
        joints: &constraints.joints,
        joint_sets: &activity.joint_sets,
        contacts: &constraints.contacts,
        contact_sets: &activity.contact_sets,
    };
    activity.sets.know_told(&ties);
    activity.sets.apply_changes(&prepared.changes, &ties);
    activity.sets.flush();
    fill_newly_awake(
        woke,
        slot_entries,
        activity.bodies.bodies(),
        activity.sets.islands(),
        &prepared.asleep,
    );
    let _ = tell_movers(activity, constraints, &prepared.asleep);
    activity.bodies.flush();
}

/// Carries out what the collide found: the contacts become what is pending, the constraints begin and end, and who
/// wakes by that is told so. Nothing stays marked but what that changes, since the contacts tell all from now on. Takes
/// no memory.
pub(crate) fn commit_collide(
    activity: &mut Activity,
    joint_entries: &[SlotEntry],
    constraints: &mut Constraints,
    woke: &mut Vec<Handle>,
    slot_entries: &[SlotEntry],
    prepared: &Prepared,
)
    requires can { AreChanges constraint_number activity.old.sets.acting.labels activity.old.sets.acting.ties prepared.now.changes.items }
    requires room { length activity.old.sets.acting.ties + begin_count prepared.now.changes.items ≤ activity.old.sets.room }
    requires ready { IsReady activity.old joint_entries.now constraints.old }
    requires turned { AreTurned (told (after_changes constraint_number prepared.now.changes.items activity.old.sets.acting).labels activity.old.bodies.bodies) constraints.old.contacts.contacts constraints.old.contacts.pending }
    requires numbers { constraints.old.contacts.bound ≤ length activity.old.contact_sets.names }
    requires sleepers { OfAll (HasSleepers activity.old.sets.acting.labels prepared.now.asleep.items) prepared.now.changes.items }
    requires rising { IsStrictlyIncreasing prepared.now.asleep.items }
    requires woke { length prepared.now.asleep.items ≤ vec_capacity woke.old }
    ensures joints { constraints.new.joints ≡ constraints.old.joints }
    ensures contacts { constraints.new.contacts.contacts ≡ constraints.old.contacts.pending }
    ensures acting { activity.new.sets.acting ≡ after_changes constraint_number prepared.now.changes.items activity.old.sets.acting }
    ensures bodies { activity.new.bodies.bodies ≡ told activity.new.sets.acting.labels activity.old.bodies.bodies }
    ensures woke { woke.new.items ≡ newly_awake slot_entries.now activity.old.bodies.bodies activity.new.sets.acting.labels }
    ensures colours_flushed { activity.new.sets.pending ≡ 0 }
    ensures bodies_flushed { activity.new.bodies.pending ≡ 0 }
    ensures marked { AreMarkedIn activity.old.bodies.bodies (replicate (length activity.old.bodies.marks) false) activity.new.bodies.bodies activity.new.bodies.marks }
    ensures standing { AreJointSets activity.new.bodies.bodies constraints.new.joints.joints activity.new.joint_sets }
    ensures contacts_standing { AreContactSets activity.new.bodies.bodies constraints.new.contacts.numbered activity.new.contact_sets }
{
    activity.bodies.clear_marks();
    apply_all_changes(
        activity,
        joint_entries,
        constraints,
        woke,
        slot_entries,
        prepared,
    );
    activity.sets.know_consistent();
    constraints.contacts.know_numbered();
    constraints.contacts.commit_pending();
    constraints.contacts.know_numbered();
}
