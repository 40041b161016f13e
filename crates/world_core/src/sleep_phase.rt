//! The end of a step: timers grow, and islands that have been slow for long enough fall asleep.

ghost use Rattle.std.specs.Prelude.{◌≡◌, ◌≤◌, ◌^◌, length, vec_capacity};
ghost use Rattle.momenta.specs.Gains.{IsGain};
ghost use Rattle.colour_solver.specs.States.{as_vector};
ghost use Rattle.plain_world.specs.Sleep.{timed_bodies, told};
ghost use Rattle.plain_world.specs.InSlots.{AreTimersWithin};
ghost use Rattle.solver_sets.specs.BesideByTies.{ShowMoving};
ghost use Rattle.solver_sets.specs.SinceTold.{newly_asleep};
ghost use Rattle.solver_sets.specs.Tied.{AreTied};
ghost use Rattle.world_core_base.specs.Marked.{AreMarked};
ghost use Rattle.world_core_base.specs.Asleep.{AreContactSets, AreJointSets};
ghost use Rattle.world_rules.specs.Apply.{gained, rested_acting};
ghost use Rattle.world_core.specs.Ready.{IsReady};

use crate::activity::Activity;
use crate::scratch::{Scratch, fill_slots};
use crate::sleep_test::are_kept_up;
use crate::telling_movers::tell_movers;
use crate::world_ties::WorldTies;
use body_handles::SlotEntry;
use momenta::{Gain, NOTHING};
use solver_sets::{fill_awake_timers, fill_newly_asleep};
use world_core_base::Constraints;

/// Lets so many ticks pass for the timers, puts the islands to rest that are ready, lists who has fallen asleep by
/// that, and tells those. Their joints and contacts follow. All bodies had been told before. Answers what the movers'
/// momentum gains, since those that fall asleep lose theirs. Where few fall asleep, it takes time by the awake movers
/// alone. Takes no memory.
pub(crate) fn rest_after_ticks(
    activity: &mut Activity,
    joint_entries: &[SlotEntry],
    constraints: &Constraints,
    scratch: &mut Scratch,
    slot_entries: &[SlotEntry],
    ticks: u64,
) -> Gain
    requires ready { IsReady activity.old joint_entries.now constraints.now }
    requires within { AreTimersWithin (2 ^ 44) activity.old.bodies.bodies }
    requires tied { AreTied activity.old.bodies.bodies activity.old.sets.acting.labels }
    requires colours_flushed { activity.old.sets.pending ≡ 0 }
    requires bodies_flushed { activity.old.bodies.pending ≡ 0 }
    requires tells { ShowMoving (timed_bodies ticks activity.old.bodies.bodies) constraints.now.joints.joints constraints.now.contacts.contacts activity.old.sets.acting.labels activity.old.sets.acting.lists }
    requires slot_entries { length activity.old.bodies.bodies ≤ length slot_entries.now }
    requires ticks { ticks ≤ 8 }
    requires timers { length activity.old.bodies.bodies ≤ vec_capacity scratch.old.timers }
    requires awake_flags { length activity.old.bodies.bodies ≤ vec_capacity scratch.old.awake_flags }
    requires slept { length activity.old.bodies.bodies ≤ vec_capacity scratch.old.slept }
    requires slots { length slot_entries.now ≤ vec_capacity scratch.old.slots }
    ensures acting { activity.new.sets.acting ≡ rested_acting (timed_bodies ticks activity.old.bodies.bodies) constraints.now.joints.joints constraints.now.contacts.contacts activity.old.sets.acting }
    ensures bodies { activity.new.bodies.bodies ≡ told activity.new.sets.acting.labels (timed_bodies ticks activity.old.bodies.bodies) }
    ensures slept { scratch.new.slept.items ≡ newly_asleep slot_entries.now (timed_bodies ticks activity.old.bodies.bodies) activity.new.sets.acting.labels }
    ensures woke { scratch.new.woke ≡ scratch.old.woke }
    ensures gain { as_vector result ≡ gained (timed_bodies ticks activity.old.bodies.bodies) activity.new.bodies.bodies }
    ensures small { IsGain (2 ^ 78) result }
    ensures marked { AreMarked activity.old.bodies activity.new.bodies }
    ensures standing { AreJointSets activity.new.bodies.bodies constraints.now.joints.joints activity.new.joint_sets }
    ensures contacts_standing { AreContactSets activity.new.bodies.bodies constraints.now.contacts.numbered activity.new.contact_sets }
{
    activity.bodies.time(ticks);
    if are_kept_up(&mut scratch.awake_flags, activity, constraints) {
        scratch.slept.clear();
        return NOTHING;
    }
    fill_awake_timers(
        &mut scratch.timers,
        activity.bodies.bodies(),
        activity.bodies.awake(),
        constraints.joints.joints(),
        activity.sets.colours(),
    );
    activity.sets.sleep_phase(
        &scratch.timers,
        activity.bodies.awake(),
        &WorldTies {
            bodies: activity.bodies.bodies(),
            joint_entries,
            joints: &constraints.joints,
            joint_sets: &activity.joint_sets,
            contacts: &constraints.contacts,
            contact_sets: &activity.contact_sets,
        },
    );
    fill_newly_asleep(
        &mut scratch.slept,
        slot_entries,
        activity.bodies.bodies(),
        activity.sets.islands(),
        activity.bodies.awake(),
    );
    fill_slots(&mut scratch.slots, &scratch.slept);
    tell_movers(activity, constraints, &scratch.slots)
}
