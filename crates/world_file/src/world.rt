//! A world as a value, and the other way round.

ghost use Rattle.std.specs.Prelude.{◌≡◌, ◌≤◌, ◌+◌, ◌^◌, ◌&&◌, None, Ok, length, map, IfErr, IfOk, OnOk};
ghost use Rattle.std.specs.List.{list_all};
ghost use Rattle.std.specs.Result.{IsOkUnless};
ghost use Rattle.serde_json.specs.View.{view};
ghost use Rattle.graph_colours.specs.declared.limits.TheConstants.{COLOURS as most_colours};
ghost use Rattle.plain_world.specs.KeptColours.{constraints_of};
ghost use Rattle.world_file_base.specs.declared.clause.Broken.TheVariants.{NoMemory};
ghost use Rattle.world_file.specs.Answers.{IsRefusedBy};
ghost use Rattle.world_file.specs.AskedParts.{IsBrokenBy, others_asks, fitting_asks};
ghost use Rattle.world_file.specs.Clauses.{first_unfit};
ghost use Rattle.world_file.specs.Files.{plain_of as world_of, read_of, value_of};
ghost use Rattle.world_file.specs.Fitting.{
  are_joints_colourless,
  are_rising_after,
  colours_keep,
  entry_read,
  ids_below,
  is_contact_colourless,
  is_contact_fitting,
  joint_kept,
  label_of,
  references_keep,
  ties_read,
};
ghost use Rattle.world_file.specs.Parts.{parts_of};

use crate::colours::{are_apart, colours_of, list_colours};
use crate::components::are_whole;
use crate::memberships::{are_coloured_well, are_named_well, are_ties_kept, list_labels};
use crate::momentum::is_momentum_kept;
use crate::references::{
    are_contacts_fitting, are_joints_fitting, are_rising, list_contacts, list_joints,
};
use crate::saved_world::{Saved, read_parts};
use crate::ties::{Tie, are_contacts_colourless, are_joints_colourless, list_ties};
use contacts_base::ContactEntry;
use fixed_geom::Refusal;
use impulse_ledger::Totals;
use islands::Label;
use plain_world::{BodyJoint, Constraint, Plain, PlainParts};
use serde_json::Value;
use std::alloc::Global;
use world_file_base::{
    Broken, Clause, Members, Reader, bodies_value, contacts_value, joints_value, totals_value,
};

/// The number of the version that is written.
const WRITTEN: u8 = 2;

/// What a world has beside what was read as it is.
#[derive(Drop)]
struct Parts {
    joints: Vec<Option<BodyJoint>>,
    contacts: Vec<ContactEntry>,
    labels: Vec<Option<Label>>,
    colours: Vec<Vec<Constraint>>,
}

/// Whether contacts are of what is there, each of them once.
fn are_contacts_kept(saved: &Saved) -> bool
    ensures { result ≡ (list_all (is_contact_fitting (parts_of saved.now).bodies) (parts_of saved.now).contacts && are_rising_after None (parts_of saved.now).contacts) }
{
    let contacts = saved.contacts.as_slice();
    are_contacts_fitting(saved.bodies.bodies.as_slice(), contacts) && are_rising(contacts)
}

/// Whether joints and contacts are of what is there.
fn do_references_keep(saved: &Saved) -> bool
    ensures { result ≡ references_keep (parts_of saved.now) }
{
    are_joints_fitting(
        saved.bodies.slot_entries.as_slice(),
        saved.joints.joints.as_slice(),
    ) && are_contacts_kept(saved)
}

/// The ties of a saved world.
fn ties_of(alloc: Global, saved: &Saved) -> Result<Vec<Tie>, Broken>
    requires few_joints { length saved.now.joints.slot_entries.items ≤ 2 ^ 32 }
    ensures ties { IfOk result (λ ties. ties.items ≡ ties_read (parts_of saved.now)) }
    ensures memory { IfErr result (λ e. e ≡ NoMemory) }
{
    list_ties(
        alloc,
        saved.bodies.bodies.as_slice(),
        saved.joints.slot_entries.as_slice(),
        saved.joints.joints.as_slice(),
        saved.contacts.as_slice(),
    )
}

/// Whether the joints that are no ties have no colour.
fn are_idle_joints_colourless(saved: &Saved) -> bool
    requires few_joints { length saved.now.joints.slot_entries.items ≤ 2 ^ 32 }
    ensures { result ≡ are_joints_colourless (parts_of saved.now).bodies 0 (parts_of saved.now).joint_entries (parts_of saved.now).joints }
{
    are_joints_colourless(
        saved.bodies.bodies.as_slice(),
        saved.joints.slot_entries.as_slice(),
        saved.joints.joints.as_slice(),
    )
}

/// Whether the contacts that are no ties have no colour.
fn are_idle_contacts_colourless(saved: &Saved) -> bool
    ensures { result ≡ list_all (is_contact_colourless (parts_of saved.now).bodies) (parts_of saved.now).contacts }
{
    are_contacts_colourless(saved.bodies.bodies.as_slice(), saved.contacts.as_slice())
}

/// Whether just the constraints of awake movers have colours, and no two of one colour share a mover.
fn do_colours_keep(alloc: Global, saved: &Saved, ties: &[Tie]) -> Result<bool, Broken>
    requires few_joints { length saved.now.joints.slot_entries.items ≤ 2 ^ 32 }
    requires ties { ties.now ≡ ties_read (parts_of saved.now) }
    ensures keep { IfOk result (λ keep. keep ≡ colours_keep (parts_of saved.now)) }
    ensures memory { IfErr result (λ e. e ≡ NoMemory) }
{
    let apart = are_apart(alloc, ties)?;
    let coloured = are_coloured_well(saved.bodies.memberships.as_slice(), ties);
    Ok(
        are_idle_joints_colourless(saved)
            && (are_idle_contacts_colourless(saved) && (coloured && apart)),
    )
}

/// Asks of a saved world, whose joints and contacts are of what is there, what else is to be asked.
fn ask_others(alloc: Global, reader: &mut Reader, saved: &Saved, ties: &[Tie]) -> Result<(), Broken>
    requires few { length saved.now.bodies.memberships.items ≤ 2 ^ 32 }
    requires few_joints { length saved.now.joints.slot_entries.items ≤ 2 ^ 32 }
    requires ties { ties.now ≡ ties_read (parts_of saved.now) }
    ensures asked { OnOk result (reader.new ≡ others_asks (parts_of saved.now) reader.old) }
    ensures memory { IfErr result (λ e. e ≡ NoMemory) }
{
    let memberships = saved.bodies.memberships.as_slice();
    reader.ask(are_named_well(memberships), Clause::Memberships);
    reader.ask(are_ties_kept(memberships, ties), Clause::Links);
    let whole = are_whole(alloc, memberships, ties)?;
    reader.ask(whole, Clause::Islands);
    let coloured = do_colours_keep(alloc, saved, ties)?;
    reader.ask(coloured, Clause::Colours);
    let kept = is_momentum_kept(saved.bodies.bodies.as_slice(), &saved.totals);
    reader.ask(kept, Clause::Momentum);
    Ok(())
}

/// Lists what the parts of a saved world make.
fn list_parts(alloc: Global, saved: &Saved, ties: &[Tie]) -> Result<Parts, Broken>
    requires ties { ties.now ≡ ties_read (parts_of saved.now) }
    ensures joints { IfOk result (λ parts. parts.joints.items ≡ map joint_kept (parts_of saved.now).joints) }
    ensures contacts { IfOk result (λ parts. parts.contacts.items ≡ map (entry_read (parts_of saved.now).bodies) (parts_of saved.now).contacts) }
    ensures labels { IfOk result (λ parts. parts.labels.items ≡ map label_of (parts_of saved.now).memberships) }
    ensures colours { IfOk result (λ parts. constraints_of parts.colours.items ≡ ids_below (ties_read (parts_of saved.now)) (most_colours + 1)) }
    ensures memory { IfErr result (λ e. e ≡ NoMemory) }
{
    let joints = list_joints(alloc, saved.joints.joints.as_slice())?;
    let bodies = saved.bodies.bodies.as_slice();
    let contacts = list_contacts(alloc, bodies, saved.contacts.as_slice())?;
    let labels = list_labels(alloc, saved.bodies.memberships.as_slice())?;
    let colours = list_colours(alloc, ties)?;
    Ok(Parts {
        joints,
        contacts,
        labels,
        colours,
    })
}

/// The world of what was read.
fn plain_of(saved: Saved, parts: Parts) -> Plain
    requires joints { parts.joints.items ≡ map joint_kept (parts_of saved).joints }
    requires contacts { parts.contacts.items ≡ map (entry_read (parts_of saved).bodies) (parts_of saved).contacts }
    requires labels { parts.labels.items ≡ map label_of (parts_of saved).memberships }
    requires colours { constraints_of parts.colours.items ≡ ids_below (ties_read (parts_of saved)) (most_colours + 1) }
    ensures { result ≡ world_of (parts_of saved) }
{
    let Saved {
        bodies,
        joints,
        contacts: _,
        totals: _,
        gravity,
        steps,
        calls,
    } = saved;
    Plain::new(PlainParts {
        slot_entries: bodies.slot_entries,
        bodies: bodies.bodies,
        joint_entries: joints.slot_entries,
        joints: parts.joints,
        contacts: parts.contacts,
        islands: parts.labels,
        colours: parts.colours,
        gravity,
        steps,
        calls,
    })
}

/// Holds the parts of a saved world against one another, and lists what they make. The first clause that is broken is
/// answered.
fn fitted(alloc: Global, reader: Reader, saved: &Saved) -> Result<Parts, Broken>
    requires few { length saved.now.bodies.memberships.items ≤ 2 ^ 32 }
    requires few_joints { length saved.now.joints.slot_entries.items ≤ 2 ^ 32 }
    ensures keeps { OnOk result ((fitting_asks (parts_of saved.now) reader).broken ≡ None) }
    ensures joints { IfOk result (λ parts. parts.joints.items ≡ map joint_kept (parts_of saved.now).joints) }
    ensures contacts { IfOk result (λ parts. parts.contacts.items ≡ map (entry_read (parts_of saved.now).bodies) (parts_of saved.now).contacts) }
    ensures labels { IfOk result (λ parts. parts.labels.items ≡ map label_of (parts_of saved.now).memberships) }
    ensures colours { IfOk result (λ parts. constraints_of parts.colours.items ≡ ids_below (ties_read (parts_of saved.now)) (most_colours + 1)) }
    ensures refused { IfErr result (λ e. IsBrokenBy (fitting_asks (parts_of saved.now) reader).broken e) }
{
    let mut reader = reader;
    reader.ask(do_references_keep(saved), Clause::References);
    reader.verdict(Clause::References)?;
    let ties = ties_of(alloc, saved)?;
    ask_others(alloc, &mut reader, saved, &ties)?;
    reader.verdict(Clause::Momentum)?;
    list_parts(alloc, saved, &ties)
}

/// Reads a saved world of version 1 or 2: the world, and the totals of its ledger. The first of the clauses that the
/// value breaks is answered, or that memory was wanting.
pub fn read(alloc: Global, value: &Value) -> Result<(Plain, Totals), Broken>
    ensures read { IfOk result (λ read. read_of (view value.now) ≡ Ok (read.0, read.1)) }
    ensures colours { IfOk result (λ read. length read.0.colours ≡ most_colours + 1) }
    ensures refused { IfErr result (λ e. IsRefusedBy (read_of (view value.now)) e) }
{
    let mut reader = Reader::new();
    let saved = read_parts(alloc, &mut reader, value)?;
    reader.verdict(Clause::Generations)?;
    let totals = saved.totals;
    let parts = fitted(alloc, reader, &saved)?;
    Ok((plain_of(saved, parts), totals))
}

/// The world of the parts of a saved one, and the totals of its ledger, where no clause is broken by what each part is
/// read of. The first of the clauses that the parts break together is answered, or that memory was wanting.
pub fn fit(alloc: Global, saved: Saved) -> Result<(Plain, Totals), Broken>
    requires few { length saved.bodies.memberships.items ≤ 2 ^ 32 }
    requires few_joints { length saved.joints.slot_entries.items ≤ 2 ^ 32 }
    ensures keeps { OnOk result (first_unfit (parts_of saved) ≡ None) }
    ensures world { IfOk result (λ fit. fit.0 ≡ world_of (parts_of saved)) }
    ensures totals { IfOk result (λ fit. fit.1 ≡ saved.totals) }
    ensures refused { IfErr result (λ e. IsBrokenBy (first_unfit (parts_of saved)) e) }
{
    let reader = Reader::new();
    let totals = saved.totals;
    let parts = fitted(alloc, reader, &saved)?;
    Ok((plain_of(saved, parts), totals))
}

/// A world of at most 24 colours and an overflow, with the totals of its ledger, as a value of version 2.
#[tactic(auto, unfolding(crate::specs::Files::value_of))]
pub fn write(alloc: Global, plain: &Plain, totals: &Totals) -> Result<Value, Refusal>
    requires colours { length plain.now.colours ≤ most_colours + 1 }
    ensures value { IfOk result (λ value. view value ≡ value_of plain.now totals.now) }
    ensures memory_only { IsOkUnless result Refusal.NoMemory }
{
    let colours = colours_of(alloc, plain)?;
    let mut members = Members::new(alloc);
    let bodies = bodies_value(alloc, plain.slot_entries(), plain.bodies(), plain.islands())?;
    members.put("bodies", bodies)?;
    members.put("call", Value::from(plain.calls()))?;
    let contacts = contacts_value(alloc, plain.contacts(), colours.contacts.as_slice())?;
    members.put("contacts", contacts)?;
    members.put_vector("gravity", plain.gravity())?;
    let joints = joints_value(
        alloc,
        plain.slot_entries(),
        plain.joint_entries(),
        plain.joints(),
        colours.joints.as_slice(),
    )?;
    members.put("joints", joints)?;
    members.put("ledger", totals_value(alloc, totals)?)?;
    members.put("step", Value::from(plain.steps()))?;
    members.put("version", Value::from(WRITTEN))?;
    Ok(members.object())
}
