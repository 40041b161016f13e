//! Parts of a world, few at a time, so that few of them have to be let go where memory is wanting. And copies of them.

ghost use Rattle.std.specs.Prelude.{◌≡◌, IfOk};
ghost use Rattle.world_core_base.specs.Asleep.{AreJointSets, AreNamedAsleep};
ghost use Rattle.std.specs.Result.{IsOkUnless};

use body_handles::Handles;
use contacts::ContactTable;
use event_feed::Events;
use fixed_geom::Refusal;
use impulse_ledger::Ledger;
use plain_world::Constraint;
use sleep_wake::Sets;
use std::alloc::Global;
use world_core_base::{BodyTable, JointTable, SleepingSets};

/// The bodies and their handles.
#[derive(Drop)]
pub(crate) struct BodyParts {
    pub handles: Handles,
    pub table: BodyTable,
}

/// The joints, their sets and their handles.
#[derive(Drop)]
pub(crate) struct JointParts {
    pub handles: Handles,
    pub table: JointTable,
    pub sets: SleepingSets,
}

/// The contacts, and the sets of the constraints.
#[derive(Drop)]
pub(crate) struct ConstraintParts {
    pub contacts: ContactTable,
    pub sets: Sets<Constraint>,
}

/// The ledger and the events.
#[derive(Drop)]
pub(crate) struct RecordParts {
    pub ledger: Ledger,
    pub events: Events,
}

/// A copy of the bodies and their handles.
pub(crate) fn copy_body_parts(handles: &Handles, bodies: &BodyTable) -> Result<BodyParts, Refusal>
    ensures slot_entries { IfOk result (λ copied. copied.handles.slot_entries ≡ handles.now.slot_entries) }
    ensures bodies { IfOk result (λ copied. copied.table.bodies ≡ bodies.now.bodies) }
    ensures marks { IfOk result (λ copied. copied.table.marks ≡ bodies.now.marks) }
    ensures memory_only { IsOkUnless result Refusal.NoMemory }
{
    Ok(BodyParts {
        handles: handles.try_copy()?,
        table: bodies.try_copy()?,
    })
}

/// A copy of the joints and their handles, with the sets of those that sleep by these bodies.
pub(crate) fn copy_joint_parts(
    handles: &Handles,
    joints: &JointTable,
    bodies: &BodyTable,
) -> Result<JointParts, Refusal>
    requires { AreNamedAsleep bodies.now.bodies }
    ensures slot_entries { IfOk result (λ copied. copied.handles.slot_entries ≡ handles.now.slot_entries) }
    ensures joints { IfOk result (λ copied. copied.table.joints ≡ joints.now.joints) }
    ensures sets { IfOk result (λ copied. AreJointSets bodies.now.bodies joints.now.joints copied.sets) }
    ensures memory_only { IsOkUnless result Refusal.NoMemory }
{
    Ok(JointParts {
        handles: handles.try_copy()?,
        table: joints.try_copy()?,
        sets: joints.list_asleep(bodies.bodies())?,
    })
}

/// A copy of the contacts and of the sets of the constraints.
pub(crate) fn copy_constraint_parts(
    contacts: &ContactTable,
    sets: &Sets<Constraint>,
    alloc: Global,
) -> Result<ConstraintParts, Refusal>
    ensures contacts { IfOk result (λ copied. copied.contacts.contacts ≡ contacts.now.contacts) }
    ensures acting { IfOk result (λ copied. copied.sets.acting ≡ sets.now.acting) }
    ensures memory_only { IsOkUnless result Refusal.NoMemory }
{
    Ok(ConstraintParts {
        contacts: contacts.try_copy(alloc)?,
        sets: sets.try_copy()?,
    })
}

/// A copy of the ledger and the events.
pub(crate) fn copy_records(ledger: &Ledger, events: &Events) -> Result<RecordParts, Refusal>
    ensures entries { IfOk result (λ copied. copied.ledger.entries ≡ ledger.now.entries) }
    ensures settled { IfOk result (λ copied. copied.ledger.settled ≡ ledger.now.settled) }
    ensures events { IfOk result (λ copied. copied.events ≡ events.now) }
    ensures memory_only { IsOkUnless result Refusal.NoMemory }
{
    Ok(RecordParts {
        ledger: ledger.try_copy()?,
        events: events.try_copy()?,
    })
}
