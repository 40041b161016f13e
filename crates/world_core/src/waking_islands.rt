//! Islands that are woken or put to sleep, with their bodies.

ghost use Rattle.std.specs.Prelude.{◌≡◌, ◌^◌, length, true, IfOk, OnOk};
ghost use Rattle.std.specs.Result.{IsOkUnless};
ghost use Rattle.fixed_geom.specs.Vectors.{plus};
ghost use Rattle.plain_world.specs.Constraints.{constraint_number};
ghost use Rattle.momenta.specs.Gains.{IsGain};
ghost use Rattle.colour_solver.specs.States.{as_vector};
ghost use Rattle.plain_world.specs.Bodies.{AreBodies};
ghost use Rattle.plain_world.specs.Momentum.{momentum};
ghost use Rattle.plain_world.specs.Sleep.{told};
ghost use Rattle.sleep_wake.specs.Acting.{is_mover_awake};
ghost use Rattle.sleep_wake.specs.Sleeping.{islands_woken, sleeping_names, slept_at};
ghost use Rattle.world_core.specs.Ready.{IsReady};
ghost use Rattle.world_core.specs.Waking.{HasIsland, HasIslands, IsExtended};
ghost use Rattle.world_core_base.specs.Marked.{AreMarked};
ghost use Rattle.world_core_base.specs.Asleep.{AreContactSets, AreJointSets};

use crate::activity::Activity;
use crate::telling_movers::tell_movers;
use crate::world_ties::WorldTies;
use body_handles::SlotEntry;
use fixed_geom::Refusal;
use momenta::Gain;
use plain_world::Constraint;
use sleep_wake::Sets;
use std::alloc::Global;
use world_core_base::Constraints;

/// The sleeping islands that are to wake: their names, and the movers in them.
#[derive(Drop)]
pub(crate) struct Waking {
    pub names: Vec<u32>,
    pub movers: Vec<u32>,
}

/// Adds the movers of the island of the mover in a slot, if one is there.
fn add_island(movers: &mut Vec<u32>, sets: &Sets<Constraint>, slot: u32) -> Result<(), Refusal>
    ensures island { OnOk result (HasIsland sets.now.acting.labels movers.new.items slot) }
    ensures extended { OnOk result (IsExtended movers.old.items movers.new.items) }
    ensures memory_only { IsOkUnless result Refusal.NoMemory }
{
    let Some(name) = sets.name_of(slot) else {
        return Ok(());
    };
    let island = sets.islands().members(name)?;
    movers.extend_from_slice(&island)?;
    Ok(())
}

/// The movers of the islands of the movers in these slots, such as those that islands are named after. Where there are
/// no slots, it takes no memory.
pub(crate) fn list_movers(
    alloc: Global,
    sets: &Sets<Constraint>,
    slots: &[u32],
) -> Result<Vec<u32>, Refusal>
    ensures islands { IfOk result (λ movers. HasIslands sets.now.acting.labels slots.now movers.items) }
    ensures memory_only { IsOkUnless result Refusal.NoMemory }
{
    let mut movers = Vec::new(alloc);
    for place in 0..slots.len() {
        add_island(&mut movers, sets, slots[place])?;
    }
    Ok(movers)
}

/// The movers of the island of the mover in a slot, where it is awake. Where it sleeps none are listed, and it takes no
/// time and no memory.
pub(crate) fn plan_rest(
    alloc: Global,
    sets: &Sets<Constraint>,
    slot: u32,
) -> Result<Vec<u32>, Refusal>
    ensures island { IfOk result (λ movers. is_mover_awake sets.now.acting.labels slot ≡ true → HasIsland sets.now.acting.labels movers.items slot) }
    ensures memory_only { IsOkUnless result Refusal.NoMemory }
{
    let mut movers = Vec::new(alloc);
    if sets.is_awake(slot) {
        add_island(&mut movers, sets, slot)?;
    }
    Ok(movers)
}

/// Which islands wake with the movers in these slots: those of them that sleep. Where none sleeps, it takes no memory.
pub(crate) fn plan_waking(
    alloc: Global,
    sets: &Sets<Constraint>,
    slots: &[u32],
) -> Result<Waking, Refusal>
    ensures names { IfOk result (λ waking. waking.names.items ≡ sleeping_names sets.now.acting.labels slots.now) }
    ensures movers { IfOk result (λ waking. HasIslands sets.now.acting.labels waking.names.items waking.movers.items) }
    ensures memory_only { IsOkUnless result Refusal.NoMemory }
{
    let names = sets.names_of(slots)?;
    let movers = list_movers(alloc, sets, &names)?;
    Ok(Waking { names, movers })
}

/// Wakes the islands that are to wake, and tells their movers, whose joints and contacts follow. All bodies had been
/// told before. Where there are none, it takes no time.
pub(crate) fn wake_planned(
    activity: &mut Activity,
    joint_entries: &[SlotEntry],
    constraints: &Constraints,
    waking: &Waking,
)
    requires movers { HasIslands activity.old.sets.acting.labels waking.now.names.items waking.now.movers.items }
    requires ready { IsReady activity.old joint_entries.now constraints.now }
    ensures acting { activity.new.sets.acting ≡ islands_woken constraint_number waking.now.names.items activity.old.sets.acting }
    ensures told { activity.new.bodies.bodies ≡ told activity.new.sets.acting.labels activity.old.bodies.bodies }
    ensures count { length activity.new.bodies.bodies ≡ length activity.old.bodies.bodies }
    ensures all_bodies { AreBodies activity.new.bodies.bodies }
    ensures room { activity.new.sets.room ≡ activity.old.sets.room }
    ensures slots { activity.new.sets.slots ≡ activity.old.sets.slots }
    ensures marked { AreMarked activity.old.bodies activity.new.bodies }
    ensures standing { AreJointSets activity.new.bodies.bodies constraints.now.joints.joints activity.new.joint_sets }
    ensures contacts_standing { AreContactSets activity.new.bodies.bodies constraints.now.contacts.numbered activity.new.contact_sets }
    ensures items { length activity.new.joint_sets.names ≡ length activity.old.joint_sets.names }
{
    if waking.names.is_empty() {
        return;
    }
    let ties = WorldTies {
        bodies: activity.bodies.bodies(),
        joint_entries,
        joints: &constraints.joints,
        joint_sets: &activity.joint_sets,
        contacts: &constraints.contacts,
        contact_sets: &activity.contact_sets,
    };
    activity.sets.know_told(&ties);
    activity.sets.wake_named(&waking.names, &ties);
    let _ = tell_movers(activity, constraints, &waking.movers);
}

/// Puts the mover in a slot to sleep with its island, and tells the movers of the island in which it was, which are
/// listed where it is awake. Their joints and contacts follow. All bodies had been told before. Answers what the
/// movers' momentum gains. Where the mover sleeps already, it takes no time.
pub(crate) fn put_to_sleep(
    activity: &mut Activity,
    joint_entries: &[SlotEntry],
    constraints: &Constraints,
    slot: u32,
    movers: &[u32],
) -> Gain
    requires movers { is_mover_awake activity.old.sets.acting.labels slot ≡ true → HasIsland activity.old.sets.acting.labels movers.now slot }
    requires ready { IsReady activity.old joint_entries.now constraints.now }
    ensures acting { activity.new.sets.acting ≡ slept_at constraint_number slot activity.old.sets.acting }
    ensures told { activity.new.bodies.bodies ≡ told activity.new.sets.acting.labels activity.old.bodies.bodies }
    ensures count { length activity.new.bodies.bodies ≡ length activity.old.bodies.bodies }
    ensures all_bodies { AreBodies activity.new.bodies.bodies }
    ensures momentum { momentum activity.new.bodies.bodies ≡ plus (momentum activity.old.bodies.bodies) (as_vector result) }
    ensures small { IsGain (2 ^ 78) result }
    ensures room { activity.new.sets.room ≡ activity.old.sets.room }
    ensures slots { activity.new.sets.slots ≡ activity.old.sets.slots }
    ensures marked { AreMarked activity.old.bodies activity.new.bodies }
    ensures standing { AreJointSets activity.new.bodies.bodies constraints.now.joints.joints activity.new.joint_sets }
    ensures contacts_standing { AreContactSets activity.new.bodies.bodies constraints.now.contacts.numbered activity.new.contact_sets }
{
    if !activity.sets.is_awake(slot) {
        return Gain { x: 0, y: 0 };
    }
    activity.sets.sleep(
        slot,
        &WorldTies {
            bodies: activity.bodies.bodies(),
            joint_entries,
            joints: &constraints.joints,
            joint_sets: &activity.joint_sets,
            contacts: &constraints.contacts,
            contact_sets: &activity.contact_sets,
        },
    );
    tell_movers(activity, constraints, movers)
}
