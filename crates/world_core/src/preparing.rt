//! What a step finds out and makes room for before it changes anything: all of it that may be refused for want of
//! memory.

ghost use Rattle.std.specs.Prelude.{◌≡◌, ◌+◌, ◌≤◌, OnOk, IfOk, length, vec_capacity};
ghost use Rattle.std.specs.List.Sorted.{IsStrictlyIncreasing};
ghost use Rattle.std.specs.Result.{IsOkUnless};
ghost use Rattle.contacts_base.specs.Changes.{keys_touching_only_in};
ghost use Rattle.contacts_base.specs.ChangedKeys.{AreRising};
ghost use Rattle.plain_world.specs.Constraints.{constraint_number};
ghost use Rattle.plain_world.specs.Bodies.{AreBodies};
ghost use Rattle.sleep_wake.specs.Acting.{IsConsistent};
ghost use Rattle.solver_sets.specs.Ties.{key_changes};
ghost use Rattle.world_core.specs.Inside.{AreKnown};
ghost use Rattle.world_core.specs.Waking.{HasSleepers, OfAll};
ghost use Rattle.world_core_base.specs.Asleep.{AreContactSets};
ghost use Rattle.world_rules.specs.Collide.{contacts_after};

use crate::activity::Activity;
use crate::collide::{BodyShapes, collide};
use crate::list_to_wake::list_sleepers;
use crate::scratch::Scratch;
use crate::solving::reserve_rows;
use body_handles::MAX_SLOTS;
use contacts::{PairPiece, SurveyPiece, Touches};
use crew::PieceMap;
use fixed_geom::Refusal;
use graph_colours::COLOURS;
use impulse_ledger::Ledger;
use plain_world::Constraint;
use sleep_wake::Change;
use solver_sets::list_changes;
use world_core_base::{Constraints, GatheredRows, JointTable};

/// How many entries of the ledger a step makes at most.
const MAX_STEP_ENTRIES: usize = 4;

/// What a step is to carry out, for which it has all room: what begins and ends to touch, the constraints that begin
/// and end by that, each in its turn, and the slots of the movers that wake by them.
#[derive(Drop)]
pub(crate) struct Prepared {
    pub touches: Touches,
    pub changes: Vec<Change<Constraint>>,
    pub asleep: Vec<u32>,
}

/// Finds out what a step is to carry out, and makes all room that it wants. Nothing of the world is changed: what the
/// collide made of the contacts is kept beside them, and the table of bodies only brings its lists of slots up to date.
pub(crate) fn prepare<M: PieceMap<PairPiece> + PieceMap<SurveyPiece<BodyShapes, JointTable>>>(
    mapper: &mut M,
    ledger: &mut Ledger,
    activity: &mut Activity,
    constraints: &mut Constraints,
    gathered: &mut GatheredRows,
    scratch: &mut Scratch,
) -> Result<Prepared, Refusal>
    requires few { length activity.old.bodies.bodies ≤ MAX_SLOTS }
    requires bodies { AreBodies activity.old.bodies.bodies }
    requires known { AreKnown activity.old.bodies.marks activity.old.bodies.bodies constraints.old.joints.joints constraints.old.contacts.contacts }
    requires contacts_standing { AreContactSets activity.old.bodies.bodies constraints.old.contacts.numbered activity.old.contact_sets }
    requires consistent { IsConsistent constraint_number activity.old.sets.acting }
    ensures entries { ledger.new.entries ≡ ledger.old.entries }
    ensures settled { ledger.new.settled ≡ ledger.old.settled }
    ensures bodies { activity.new.bodies.bodies ≡ activity.old.bodies.bodies }
    ensures marks { activity.new.bodies.marks ≡ activity.old.bodies.marks }
    ensures joint_sets { activity.new.joint_sets ≡ activity.old.joint_sets }
    ensures contacts_standing { AreContactSets activity.old.bodies.bodies constraints.old.contacts.numbered activity.new.contact_sets }
    ensures joints { constraints.new.joints ≡ constraints.old.joints }
    ensures contacts { constraints.new.contacts.contacts ≡ constraints.old.contacts.contacts }
    ensures numbered { constraints.new.contacts.numbered ≡ constraints.old.contacts.numbered }
    ensures acting { activity.new.sets.acting ≡ activity.old.sets.acting }
    ensures pending { OnOk result (constraints.new.contacts.pending ≡ contacts_after activity.old.bodies.bodies constraints.old.joints.joints constraints.old.contacts.contacts) }
    ensures begin { IfOk result (λ prepared. prepared.touches.begin.items ≡ keys_touching_only_in constraints.old.contacts.contacts (contacts_after activity.old.bodies.bodies constraints.old.joints.joints constraints.old.contacts.contacts)) }
    ensures end { IfOk result (λ prepared. prepared.touches.end.items ≡ keys_touching_only_in (contacts_after activity.old.bodies.bodies constraints.old.joints.joints constraints.old.contacts.contacts) constraints.old.contacts.contacts) }
    ensures begin_rises { IfOk result (λ prepared. AreRising prepared.touches.begin.items) }
    ensures end_rises { IfOk result (λ prepared. AreRising prepared.touches.end.items) }
    ensures changes { IfOk result (λ prepared. prepared.changes.items ≡ key_changes activity.old.bodies.bodies prepared.touches.begin.items prepared.touches.end.items) }
    ensures sleepers { IfOk result (λ prepared. OfAll (HasSleepers activity.old.sets.acting.labels prepared.asleep.items) prepared.changes.items) }
    ensures rising { IfOk result (λ prepared. IsStrictlyIncreasing prepared.asleep.items) }
    ensures for_entries { OnOk result (4 ≤ ledger.new.room) }
    ensures for_numbers { OnOk result (constraints.new.contacts.bound ≤ length activity.new.contact_sets.names) }
    ensures for_ties { IfOk result (λ prepared. length activity.old.sets.acting.ties + length prepared.touches.begin.items ≤ activity.new.sets.room) }
    ensures for_rows { IfOk result (λ prepared. length activity.old.sets.acting.ties + length prepared.touches.begin.items ≤ gathered.new.rows.room) }
    ensures for_colours { OnOk result (COLOURS + 1 ≤ gathered.new.rows.more) }
    ensures for_woke { IfOk result (λ prepared. length prepared.asleep.items ≤ vec_capacity scratch.new.woke) }
    ensures for_timers { OnOk result (length activity.old.bodies.bodies ≤ vec_capacity scratch.new.timers) }
    ensures for_awake_flags { OnOk result (length activity.old.bodies.bodies ≤ vec_capacity scratch.new.awake_flags) }
    ensures for_slept { OnOk result (length activity.old.bodies.bodies ≤ vec_capacity scratch.new.slept) }
    ensures for_slots { OnOk result (length activity.old.bodies.bodies ≤ vec_capacity scratch.new.slots) }
    ensures memory_only { IsOkUnless result Refusal.NoMemory }
{
    let alloc = activity.bodies.allocator();
    ledger.reserve(MAX_STEP_ENTRIES)?;
    activity.bodies.flush();
    let touches = collide(
        mapper,
        alloc,
        &mut constraints.contacts,
        &mut activity.bodies,
        &mut constraints.joints,
    )?;
    let changes = list_changes(
        alloc,
        activity.bodies.bodies(),
        &touches.begin,
        &touches.end,
    )?;
    let begun = touches.begin.len();
    activity.sets.reserve(begun, 0)?;
    reserve_rows(gathered, activity.sets.tie_count(), begun)?;
    let asleep = list_sleepers(alloc, &activity.sets, &changes)?;
    scratch.make_room(activity.bodies.bodies().len(), asleep.len())?;
    activity
        .contact_sets
        .reserve(constraints.contacts.number_bound(), 0)?;
    Ok(Prepared {
        touches,
        changes,
        asleep,
    })
}
