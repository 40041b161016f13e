//! What a collide makes of the contacts where it looks for new ones at marked slots alone.

ghost use Rattle.std.specs.Prelude.{◌≡◌, IfOk, OnOk, true};
ghost use Rattle.std.specs.Result.{IsOkUnless};
ghost use Rattle.contacts_base.specs.declared.contact.ContactEntry.{ContactEntry};
ghost use Rattle.contacts_base.specs.Proxies.{IsProxyList};
ghost use Rattle.contacts_base.specs.Split.{contacts_in};
ghost use Rattle.contacts.specs.ByCodes.{contacts_of};
ghost use Rattle.contacts.specs.Numbered.{AreNumbered};
ghost use Rattle.contacts.specs.NumberBooks.{IsBook};
ghost use Rattle.contacts.specs.PendingUpdates.{IsPendingUpdate, pending_contacts};
ghost use Rattle.contacts.specs.Known.{IsKnown, fresh as fresh_codes};
ghost use Rattle.contacts.specs.Stirring.{AreHeld, AreQuiet, AreStirring};
ghost use Rattle.contacts.specs.SurveyPieces.{looks_of, shown_looks};
ghost use Rattle.contacts.specs.Fates.{AreWithin, moved_by};
ghost use Rattle.contacts.specs.Kept.{CanCollide, IsMadeOf};
ghost use Rattle.packed_sets.specs.Marks.{AreListed};

use crate::collide::Collide;
use crate::collide_memory::{CollideMemory, CollideState};
use crate::fates::ShapesById;
use crate::forbidden::ForbiddenPairs;
use crate::moved_pairs::fresh_of_marked;
use crate::number_book::NumberBook;
use crate::pending_update::{PendingUpdate, Touches};
use crate::stirring::{Stirring, refresh};
use crate::survey::Looked;
use crate::survey_pieces::{SurveyPiece, look_over_by};
use crate::update::update_known;
use contacts_base::{ContactEntry, SplitContacts};
use crew::PieceMap;
use fixed_geom::Refusal;

/// The contacts of near pairs that have none yet. The places of the other contacts of which a body may stir are listed.
fn find_fresh<S: ShapesById, F: ForbiddenPairs>(
    memory: &mut CollideMemory,
    collide: &Collide<'_, S, F>,
    contacts: &SplitContacts,
    numbers: &NumberBook,
) -> Result<Vec<ContactEntry>, Refusal>
    requires shapes { IsProxyList (S.proxies collide.now.shapes.now) }
    requires within { AreWithin collide.now.marks.now (S.proxies collide.now.shapes.now) }
    requires listed { AreListed collide.now.marks.now collide.now.marked.now }
    requires held { AreHeld memory.old.stirring contacts.now }
    requires book { IsBook numbers.now }
    requires numbered { AreNumbered (contacts_in contacts.now) numbers.now.contacts.items }
    ensures held { AreHeld memory.new.stirring contacts.now }
    ensures places { OnOk result (AreStirring memory.new.stirring.flags.items contacts.now memory.new.stirring.places.items) }
    ensures quiet { OnOk result (AreQuiet memory.new.stirring.flags.items collide.now.marks.now (S.proxies collide.now.shapes.now)) }
    ensures fresh { IfOk result (λ fresh. fresh.items ≡ contacts_of (contacts_in contacts.now) (S.proxies collide.now.shapes.now) (fresh_codes (moved_by collide.now.marks.now) (F.pairs collide.now.forbidden.now) (S.proxies collide.now.shapes.now) (contacts_in contacts.now))) }
    ensures memory_only { IsOkUnless result Refusal.NoMemory }
{
    let alloc = *memory.numbers.allocator();
    refresh(&mut memory.stirring, collide, contacts, numbers)?;
    fresh_of_marked(alloc, &mut memory.numbers, collide, contacts)
}

/// What a look over the long list found, and the contacts that are made, become pending.
fn make_of_looks<S: ShapesById, F: ForbiddenPairs>(
    pending: &mut PendingUpdate,
    found: &mut Looked,
    stirring: &Stirring,
    collide: &Collide<'_, S, F>,
    contacts: &SplitContacts,
    fresh: &[ContactEntry],
) -> Result<Touches, Refusal>
    requires shapes { IsProxyList (S.proxies collide.now.shapes.now) }
    requires known { IsKnown (moved_by collide.now.marks.now) (F.pairs collide.now.forbidden.now) (S.proxies collide.now.shapes.now) (contacts_in contacts.now) }
    requires places { AreStirring stirring.now.flags.items contacts.now stirring.now.places.items }
    requires quiet { AreQuiet stirring.now.flags.items collide.now.marks.now (S.proxies collide.now.shapes.now) }
    requires fresh { fresh.now ≡ contacts_of (contacts_in contacts.now) (S.proxies collide.now.shapes.now) (fresh_codes (moved_by collide.now.marks.now) (F.pairs collide.now.forbidden.now) (S.proxies collide.now.shapes.now) (contacts_in contacts.now)) }
    requires looks { shown_looks found.old ≡ looks_of (moved_by collide.now.marks.now) (F.pairs collide.now.forbidden.now) (S.proxies collide.now.shapes.now) contacts.now stirring.now.places.items }
    ensures pending { OnOk result (IsPendingUpdate pending.new contacts.now) }
    ensures made { IfOk result (IsMadeOf (S.proxies collide.now.shapes.now) (F.pairs collide.now.forbidden.now) (contacts_in contacts.now) (pending_contacts pending.new contacts.now)) }
    ensures any { pending.new.any ≡ true }
    ensures memory_only { IsOkUnless result Refusal.NoMemory }
{
    contacts.know_ascending();
    update_known(pending, collide, contacts, &stirring.flags, fresh, found)
}

/// What a collide makes of the contacts by what is known of them: new ones are looked for where a body is marked.
pub(crate) fn make_by_marks<
    S: ShapesById + Drop,
    F: ForbiddenPairs + Drop,
    M: PieceMap<SurveyPiece<S, F>>,
>(
    mapper: &mut M,
    state: &mut CollideState,
    shapes: &mut S,
    forbidden: &mut F,
    contacts: &mut SplitContacts,
    numbers: &NumberBook,
) -> Result<Touches, Refusal>
    requires can { CanCollide (S.proxies shapes.old) (S.marks shapes.old) (F.pairs forbidden.old) (contacts_in contacts.old) }
    requires held { AreHeld state.old.memory.stirring contacts.old }
    requires book { IsBook numbers.now }
    requires numbered { AreNumbered (contacts_in contacts.old) numbers.now.contacts.items }
    ensures shapes { shapes.new ≡ shapes.old }
    ensures forbidden { forbidden.new ≡ forbidden.old }
    ensures contacts { contacts.new ≡ contacts.old }
    ensures held { AreHeld state.new.memory.stirring contacts.new }
    ensures pending { OnOk result (IsPendingUpdate state.new.pending contacts.new) }
    ensures made { IfOk result (IsMadeOf (S.proxies shapes.old) (F.pairs forbidden.old) (contacts_in contacts.old) (pending_contacts state.new.pending contacts.new)) }
    ensures any { state.old.pending.any ≡ true → state.new.pending.any ≡ true }
    ensures memory_only { IsOkUnless result Refusal.NoMemory }
{
    let fresh = find_fresh(
        &mut state.memory,
        &Collide::of(&*shapes, &*forbidden),
        contacts,
        numbers,
    )?;
    look_over_by(
        mapper,
        &mut state.memory.looks,
        shapes,
        forbidden,
        contacts,
        &mut state.memory.stirring.places,
    )?;
    make_of_looks(
        &mut state.pending,
        &mut state.memory.looks.found,
        &state.memory.stirring,
        &Collide::of(&*shapes, &*forbidden),
        contacts,
        &fresh,
    )
}
