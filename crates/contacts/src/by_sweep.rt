//! What a collide makes of the contacts by all near pairs.

ghost use Rattle.std.specs.Prelude.{◌≡◌, IfOk, OnOk, Some, true};
ghost use Rattle.std.specs.Result.{IsOkUnless};
ghost use Rattle.contacts_base.specs.ContactLists.{AreContacts};
ghost use Rattle.contacts_base.specs.Split.{Split, contacts_in};
ghost use Rattle.contacts.specs.NumberChanges.{IsNoted};
ghost use Rattle.contacts.specs.PendingUpdates.{IsPendingUpdate, IsNothing, pending_contacts};
ghost use Rattle.contacts.specs.Stirring.{AreHeld};
ghost use Rattle.contacts.specs.Kept.{CanCollide, IsMadeOf};

use crate::changes::Changes;
use crate::collide::Collide;
use crate::collide_memory::{CollideMemory, flush};
use crate::crowded::are_crowded;
use crate::fates::ShapesById;
use crate::forbidden::ForbiddenPairs;
use crate::noting::{note_made, note_touches};
use crate::pair_pieces::PairPiece;
use crate::pending_update::{PendingUpdate, Touches};
use contacts_base::SplitContacts;
use crew::PieceMap;
use fixed_geom::Refusal;
use std::alloc::Global;

/// How many slots make a world that isn't small.
const SMALL_WORLD: usize = 1_024;

/// Whether so many slots are marked that all near pairs are looked for as soon as those of the marked: in a small
/// world, which is swept quickly, a twelfth of them, and else a seventh.
fn are_many(marked: &[u32], marks: &[bool]) -> bool {
    let parts = if marks.len() < SMALL_WORLD { 12 } else { 7 };
    marked.len() > marks.len() / parts
}

/// Whether all near pairs are looked for: where many slots are marked, or where the marked bodies that aren't dynamic
/// overlap more slots than there are, so that a step never costs by the square of what overlaps and can't collide.
pub(crate) fn is_sweep_wanted<S: ShapesById, F: ForbiddenPairs>(
    collide: &Collide<'_, S, F>,
) -> Result<bool, Refusal>
    ensures memory_only { IsOkUnless result Refusal.NoMemory }
{
    if are_many(collide.marked, collide.marks) {
        Ok(true)
    } else {
        are_crowded(collide.shapes, collide.marked, collide.marks.len())
    }
}

/// Notes all that a collide by all near pairs finds.
fn note_changes(
    alloc: Global,
    pending: &mut PendingUpdate,
    changes: Changes,
) -> Result<Touches, Refusal>
    requires nothing { IsNothing pending.old }
    requires any { pending.old.any ≡ true }
    ensures pending { OnOk result ((s : Split) → AreContacts (contacts_in s) → IsNoted (contacts_in s) changes → IsPendingUpdate pending.new s) }
    ensures now { OnOk result ((s : Split) → pending_contacts pending.new s ≡ changes.now) }
    ensures begin { IfOk result (λ touches. touches.begin.items ≡ changes.begin.items) }
    ensures end { IfOk result (λ touches. touches.end.items ≡ changes.end.items) }
    ensures any { pending.new.any ≡ true }
    ensures memory_only { IsOkUnless result Refusal.NoMemory }
{
    let touches = Touches {
        begin: changes.begin,
        end: changes.end,
    };
    note_made(&mut pending.made, changes.now.as_slice(), &changes.made)?;
    note_touches(pending, &touches)?;
    pending.gone = changes.gone;
    pending.whole = Some(SplitContacts::from_entries(alloc, changes.now.into_entries())?);
    Ok(touches)
}

/// What a collide makes of the contacts by all near pairs.
pub(crate) fn make_by_sweep<S: ShapesById, F: ForbiddenPairs, M: PieceMap<PairPiece>>(
    mapper: &mut M,
    memory: &mut CollideMemory,
    pending: &mut PendingUpdate,
    collide: &Collide<'_, S, F>,
    contacts: &mut SplitContacts,
) -> Result<Touches, Refusal>
    requires can { CanCollide (S.proxies collide.now.shapes.now) collide.now.marks.now (F.pairs collide.now.forbidden.now) (contacts_in contacts.old) }
    requires held { AreHeld memory.old.stirring contacts.old }
    requires nothing { IsNothing pending.old }
    requires any { pending.old.any ≡ true }
    ensures contacts { contacts_in contacts.new ≡ contacts_in contacts.old }
    ensures held { AreHeld memory.new.stirring contacts.new }
    ensures pending { OnOk result (IsPendingUpdate pending.new contacts.new) }
    ensures made { IfOk result (IsMadeOf (S.proxies collide.now.shapes.now) (F.pairs collide.now.forbidden.now) (contacts_in contacts.old) (pending_contacts pending.new contacts.new)) }
    ensures any { pending.new.any ≡ true }
    ensures memory_only { IsOkUnless result Refusal.NoMemory }
{
    let alloc = *pending.notes.allocator();
    flush(alloc, contacts, memory)?;
    collide.shapes.gather(&mut memory.broad)?;
    let room = contacts.take_spare(alloc);
    contacts.know_ascending();
    let changes = memory
        .broad
        .update_contacts(mapper, room, collide.forbidden, contacts)?;
    note_changes(alloc, pending, changes)
}
