//! Movers that are told the labels of their islands, with their joints and contacts, which wake or fall asleep with
//! them.

ghost use Rattle.std.specs.Prelude.{◌≡◌, ◌≤◌, ◌^◌, length};
ghost use Rattle.fixed_geom.specs.Vectors.{plus};
ghost use Rattle.momenta.specs.Gains.{IsGain};
ghost use Rattle.colour_solver.specs.States.{as_vector};
ghost use Rattle.plain_world.specs.Bodies.{AreBodies};
ghost use Rattle.plain_world.specs.Momentum.{momentum};
ghost use Rattle.plain_world.specs.Sleep.{told};
ghost use Rattle.world_core_base.specs.Marked.{AreMarked};
ghost use Rattle.world_core_base.specs.Asleep.{AreContactSets, AreJointSets};
ghost use Rattle.world_core_base.specs.Telling.{AreToldBeside, KeepTogether};

use crate::activity::Activity;
use body_handles::MAX_SLOTS;
use momenta::Gain;
use world_core_base::{Constraints, follow_contacts};

/// Tells the bodies in these slots the labels of their islands, where those in all other slots stay as they are when
/// they are told. Their joints and contacts wake or fall asleep with them. Answers what the movers' momentum gains.
/// Takes no memory.
pub(crate) fn tell_movers(activity: &mut Activity, constraints: &Constraints, slots: &[u32]) -> Gain
    requires few { length activity.old.bodies.bodies ≤ MAX_SLOTS }
    requires bodies { AreBodies activity.old.bodies.bodies }
    requires others { AreToldBeside slots.now activity.old.sets.acting.labels activity.old.bodies.bodies }
    requires together { KeepTogether activity.old.sets.acting.labels activity.old.bodies.bodies }
    requires standing { AreJointSets activity.old.bodies.bodies constraints.now.joints.joints activity.old.joint_sets }
    requires contacts_standing { AreContactSets activity.old.bodies.bodies constraints.now.contacts.numbered activity.old.contact_sets }
    ensures sets { activity.new.sets ≡ activity.old.sets }
    ensures bodies { activity.new.bodies.bodies ≡ told activity.old.sets.acting.labels activity.old.bodies.bodies }
    ensures count { length activity.new.bodies.bodies ≡ length activity.old.bodies.bodies }
    ensures all_bodies { AreBodies activity.new.bodies.bodies }
    ensures momentum { momentum activity.new.bodies.bodies ≡ plus (momentum activity.old.bodies.bodies) (as_vector result) }
    ensures small { IsGain (2 ^ 78) result }
    ensures marked { AreMarked activity.old.bodies activity.new.bodies }
    ensures standing { AreJointSets activity.new.bodies.bodies constraints.now.joints.joints activity.new.joint_sets }
    ensures contacts_standing { AreContactSets activity.new.bodies.bodies constraints.now.contacts.numbered activity.new.contact_sets }
    ensures items { length activity.new.joint_sets.names ≡ length activity.old.joint_sets.names }
    ensures contact_items { length activity.new.contact_sets.names ≡ length activity.old.contact_sets.names }
{
    activity.sets.know_consistent();
    let gain = activity.bodies.tell_some(slots, activity.sets.islands());
    constraints
        .joints
        .follow(&mut activity.joint_sets, activity.bodies.bodies(), slots);
    follow_contacts(
        &mut activity.contact_sets,
        activity.bodies.bodies(),
        &constraints.contacts,
        slots,
    );
    gain
}
