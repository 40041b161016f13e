//! A world that is made of plain lists, and one that is read of a saved world.

ghost use Rattle.std.specs.Prelude.{◌≡◌, ◌≤◌, ◌^◌, ℕ, true, All, IfErr, IfOk, Ok, length, slice_index_or};
ghost use Rattle.std.specs.Result.{IsOkUnless};
ghost use Rattle.serde_json.specs.View.{view};
ghost use Rattle.body_handles.specs.SlotEntries.{IsSlotEntry};
ghost use Rattle.plain_world.specs.Constraints.{constraint_number};
ghost use Rattle.contacts_base.specs.ContactLists.{AreContacts};
ghost use Rattle.plain_world.specs.Slots.{AreMatched};
ghost use Rattle.sleep_wake.specs.Acting.{IsConsistent};
ghost use Rattle.world_core.specs.SavedAgain.{ComesBack};
ghost use Rattle.world_core_base.specs.Asleep.{AreJointSets, AreNamedAsleep};
ghost use Rattle.world_file.specs.Answers.{IsRefusedBy};
ghost use Rattle.world_file.specs.Files.{read_of};
ghost use Rattle.world_rules.specs.Sets.{acting_of};
ghost use Rattle.world_rules.specs.Sound.{IsSound};
ghost use Rattle.world_rules.specs.Settled.{settled_world};

use super::WorldCore;
use crate::activity::Activity;
use crate::parts::{BodyParts, ConstraintParts, JointParts};
use crate::scratch::Scratch;
use body_handles::Handles;
use contacts::ContactTable;
use contacts_base::Contacts;
use event_feed::Events;
use fixed_geom::Refusal;
use impulse_ledger::{Ledger, Totals};
use plain_world::{Constraint, Plain};
use serde_json::Value;
use sleep_wake::Sets;
use solver_sets::{count_members, list_all_ties, list_members};
use std::alloc::Global;
use world_core_base::{BodyTable, Constraints, GatheredRows, JointTable, list_contacts_asleep};
use world_file::{Broken, read};

/// The contacts of a plain world.
fn contacts_of(alloc: Global, plain: &Plain) -> Result<Contacts, Refusal>
    requires { AreContacts plain.now.contacts }
    ensures contacts { IfOk result (λ made. made ≡ plain.now.contacts) }
    ensures memory_only { IsOkUnless result Refusal.NoMemory }
{
    Ok(Contacts::from_entries(Vec::from_slice(alloc, plain.contacts())?))
}

/// The constraints of a plain world, the islands of their movers, and the colours of those that act.
fn sets_of(alloc: Global, plain: &Plain) -> Result<Sets<Constraint>, Refusal>
    requires consistent { IsConsistent constraint_number (acting_of plain.now) }
    requires joints { AreMatched plain.now.joint_entries plain.now.joints }
    requires few { length plain.now.islands ≤ 2 ^ 32 }
    ensures acting { IfOk result (λ made. made.acting ≡ acting_of plain.now) }
    ensures memory_only { IsOkUnless result Refusal.NoMemory }
{
    let ties = list_all_ties(
        alloc,
        plain.bodies(),
        plain.joint_entries(),
        plain.joints(),
        plain.contacts(),
    )?;
    let lists = list_members(alloc, plain)?;
    let count = count_members(&lists);
    Sets::from_parts(alloc, &ties, plain.islands(), &lists, count)
}

/// The bodies of a plain world and their handles.
fn load_bodies(alloc: Global, plain: &Plain) -> Result<BodyParts, Refusal>
    requires each { All IsSlotEntry plain.now.slot_entries }
    requires matched { AreMatched plain.now.slot_entries plain.now.bodies }
    ensures slot_entries { IfOk result (λ made. made.handles.slot_entries ≡ plain.now.slot_entries) }
    ensures bodies { IfOk result (λ made. made.table.bodies ≡ plain.now.bodies) }
    ensures all { IfOk result (λ made. (slot : ℕ) → slice_index_or made.table.marks slot true ≡ true) }
    ensures memory_only { IsOkUnless result Refusal.NoMemory }
{
    Ok(BodyParts {
        handles: Handles::from_slot_entries(alloc, plain.slot_entries())?,
        table: BodyTable::from_bodies(alloc, plain.bodies())?,
    })
}

/// The joints of a plain world, their handles, and the sets of those that sleep.
fn load_joints(alloc: Global, plain: &Plain) -> Result<JointParts, Refusal>
    requires each { All IsSlotEntry plain.now.joint_entries }
    requires matched { AreMatched plain.now.joint_entries plain.now.joints }
    requires named { AreNamedAsleep plain.now.bodies }
    ensures slot_entries { IfOk result (λ made. made.handles.slot_entries ≡ plain.now.joint_entries) }
    ensures joints { IfOk result (λ made. made.table.joints ≡ plain.now.joints) }
    ensures sets { IfOk result (λ made. AreJointSets plain.now.bodies plain.now.joints made.sets) }
    ensures memory_only { IsOkUnless result Refusal.NoMemory }
{
    let table = JointTable::from_joints(alloc, plain.joints())?;
    let sets = table.list_asleep(plain.bodies())?;
    Ok(JointParts {
        handles: Handles::from_slot_entries(alloc, plain.joint_entries())?,
        table,
        sets,
    })
}

/// The contacts of a plain world, its islands, and the colours of its constraints.
fn load_constraints(alloc: Global, plain: &Plain) -> Result<ConstraintParts, Refusal>
    requires contacts { AreContacts plain.now.contacts }
    requires consistent { IsConsistent constraint_number (acting_of plain.now) }
    requires joints { AreMatched plain.now.joint_entries plain.now.joints }
    requires few { length plain.now.islands ≤ 2 ^ 32 }
    ensures contacts { IfOk result (λ made. made.contacts.contacts ≡ plain.now.contacts) }
    ensures acting { IfOk result (λ made. made.sets.acting ≡ acting_of plain.now) }
    ensures memory_only { IsOkUnless result Refusal.NoMemory }
{
    Ok(ConstraintParts {
        contacts: ContactTable::from_contacts(alloc, contacts_of(alloc, plain)?)?,
        sets: sets_of(alloc, plain)?,
    })
}

impl WorldCore {
    /// The world of these plain lists, with these totals in its ledger, all settled; it has no events. Costs by their
    /// size.
    pub fn from_plain(alloc: Global, plain: &Plain, totals: Totals) -> Result<WorldCore, Refusal>
        requires sound { IsSound (settled_world plain.now totals) }
        ensures made { IfOk result (λ made. made ≡ settled_world plain.now totals) }
        ensures memory_only { IsOkUnless result Refusal.NoMemory }
    {
        let bodies = load_bodies(alloc, plain)?;
        let joints = load_joints(alloc, plain)?;
        let constraints = load_constraints(alloc, plain)?;
        let contact_sets = list_contacts_asleep(
            alloc,
            bodies.table.bodies(),
            &constraints.contacts,
        )?;
        Ok(WorldCore {
            handles: bodies.handles,
            joint_handles: joints.handles,
            activity: Activity {
                bodies: bodies.table,
                sets: constraints.sets,
                joint_sets: joints.sets,
                contact_sets,
            },
            constraints: Constraints {
                joints: joints.table,
                contacts: constraints.contacts,
            },
            gathered: GatheredRows::new(alloc),
            scratch: Scratch::new(alloc),
            gravity: plain.gravity(),
            steps: plain.steps(),
            calls: plain.calls(),
            ledger: Ledger::from_totals(alloc, totals),
            events: Events::new(alloc),
        })
    }

    /// The world that a value of version 1 or 2 saves: its plain lists, with the totals of its ledger, all settled; it
    /// has no events. What `save` made of a world whose totals by cause are within ±2^126 comes back. The first of the
    /// clauses that the value breaks is answered, or that memory was wanting.
    pub fn load(alloc: Global, value: &Value) -> Result<WorldCore, Broken>
        ensures loaded { IfOk result (λ made. read_of (view value.now) ≡ Ok (made.plain, made.settled)) }
        ensures settled { IfOk result (λ made. made ≡ settled_world made.plain made.settled) }
        ensures again { ComesBack (view value.now) result }
        ensures refused { IfErr result (λ e. IsRefusedBy (read_of (view value.now)) e) }
    {
        match read(alloc, value) {
            Ok((plain, totals)) => match WorldCore::from_plain(alloc, &plain, totals) {
                Ok(made) => Ok(made),
                Err(_) => Err(Broken::NoMemory),
            },
            Err(broken) => Err(broken),
        }
    }
}
