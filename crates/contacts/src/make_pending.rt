//! What a collide makes of the contacts, which is pending until it is carried out.

ghost use Rattle.std.specs.Prelude.{◌≡◌, IfOk, OnErr, OnOk, true};
ghost use Rattle.std.specs.Result.{IsOkUnless};
ghost use Rattle.contacts_base.specs.Split.{contacts_in};
ghost use Rattle.contacts.specs.NumberBooks.{HasRoomFor, IsBook, KeepBook};
ghost use Rattle.contacts.specs.PendingUpdates.{IsPendingUpdate, pending_contacts};
ghost use Rattle.contacts.specs.Kept.{CanCollide, IsIdle, IsMadeOf, KeepContacts};

use crate::by_marks::make_by_marks;
use crate::by_sweep::{is_sweep_wanted, make_by_sweep};
use crate::collide::Collide;
use crate::collide_memory::{CollideState, flush_if_spent};
use crate::fates::ShapesById;
use crate::forbidden::ForbiddenPairs;
use crate::number_book::NumberBook;
use crate::pair_pieces::PairPiece;
use crate::pending_update::Touches;
use crate::survey_pieces::SurveyPiece;
use contacts_base::SplitContacts;
use crew::PieceMap;
use fixed_geom::Refusal;

/// What a collide makes of the contacts: by all near pairs, or by what is known of them.
fn make_pending<
    S: ShapesById + Drop,
    F: ForbiddenPairs + Drop,
    M: PieceMap<PairPiece> + PieceMap<SurveyPiece<S, F>>,
>(
    mapper: &mut M,
    state: &mut CollideState,
    shapes: &mut S,
    forbidden: &mut F,
    contacts: &mut SplitContacts,
    numbers: &NumberBook,
) -> Result<Touches, Refusal>
    requires can { CanCollide (S.proxies shapes.old) (S.marks shapes.old) (F.pairs forbidden.old) (contacts_in contacts.old) }
    requires idle { IsIdle state.old contacts.old numbers.now }
    requires any { state.old.pending.any ≡ true }
    ensures shapes { shapes.new ≡ shapes.old }
    ensures forbidden { forbidden.new ≡ forbidden.old }
    ensures contacts { KeepContacts state.new contacts.old contacts.new }
    ensures pending { OnOk result (IsPendingUpdate state.new.pending contacts.new) }
    ensures made { IfOk result (IsMadeOf (S.proxies shapes.old) (F.pairs forbidden.old) (contacts_in contacts.old) (pending_contacts state.new.pending contacts.new)) }
    ensures any { state.new.pending.any ≡ true }
    ensures memory_only { IsOkUnless result Refusal.NoMemory }
{
    let collide = Collide::of(&*shapes, &*forbidden);
    if is_sweep_wanted(&collide)? {
        return make_by_sweep(
            mapper,
            &mut state.memory,
            &mut state.pending,
            &collide,
            contacts,
        );
    }
    let alloc = *state.pending.notes.allocator();
    flush_if_spent(alloc, contacts, &mut state.memory)?;
    make_by_marks(mapper, state, shapes, forbidden, contacts, numbers)
}

/// The same, with room for the numbers of those that are made.
fn make_with_room<
    S: ShapesById + Drop,
    F: ForbiddenPairs + Drop,
    M: PieceMap<PairPiece> + PieceMap<SurveyPiece<S, F>>,
>(
    mapper: &mut M,
    state: &mut CollideState,
    shapes: &mut S,
    forbidden: &mut F,
    contacts: &mut SplitContacts,
    numbers: &mut NumberBook,
) -> Result<Touches, Refusal>
    requires can { CanCollide (S.proxies shapes.old) (S.marks shapes.old) (F.pairs forbidden.old) (contacts_in contacts.old) }
    requires idle { IsIdle state.old contacts.old numbers.old }
    requires any { state.old.pending.any ≡ true }
    ensures shapes { shapes.new ≡ shapes.old }
    ensures forbidden { forbidden.new ≡ forbidden.old }
    ensures contacts { KeepContacts state.new contacts.old contacts.new }
    ensures pending { OnOk result (IsPendingUpdate state.new.pending contacts.new) }
    ensures made { IfOk result (IsMadeOf (S.proxies shapes.old) (F.pairs forbidden.old) (contacts_in contacts.old) (pending_contacts state.new.pending contacts.new)) }
    ensures any { state.new.pending.any ≡ true }
    ensures numbers { KeepBook numbers.old numbers.new }
    ensures book { IsBook numbers.new }
    ensures room { OnOk result (HasRoomFor state.new.pending.made.items numbers.new) }
    ensures memory_only { IsOkUnless result Refusal.NoMemory }
{
    let touches = make_pending(mapper, state, shapes, forbidden, contacts, numbers)?;
    numbers.reserve_for(&state.pending.made)?;
    Ok(touches)
}

/// The same; where memory is wanting nothing is pending.
pub(crate) fn make_or_clear<
    S: ShapesById + Drop,
    F: ForbiddenPairs + Drop,
    M: PieceMap<PairPiece> + PieceMap<SurveyPiece<S, F>>,
>(
    mapper: &mut M,
    state: &mut CollideState,
    shapes: &mut S,
    forbidden: &mut F,
    contacts: &mut SplitContacts,
    numbers: &mut NumberBook,
) -> Result<Touches, Refusal>
    requires can { CanCollide (S.proxies shapes.old) (S.marks shapes.old) (F.pairs forbidden.old) (contacts_in contacts.old) }
    requires idle { IsIdle state.old contacts.old numbers.old }
    ensures shapes { shapes.new ≡ shapes.old }
    ensures forbidden { forbidden.new ≡ forbidden.old }
    ensures contacts { KeepContacts state.new contacts.old contacts.new }
    ensures pending { IsPendingUpdate state.new.pending contacts.new }
    ensures numbers { KeepBook numbers.old numbers.new }
    ensures book { IsBook numbers.new }
    ensures room { state.new.pending.any ≡ true → HasRoomFor state.new.pending.made.items numbers.new }
    ensures made { IfOk result (IsMadeOf (S.proxies shapes.old) (F.pairs forbidden.old) (contacts_in contacts.old) (pending_contacts state.new.pending contacts.new)) }
    ensures refused { OnErr result (pending_contacts state.new.pending contacts.new ≡ contacts_in contacts.old) }
    ensures memory_only { IsOkUnless result Refusal.NoMemory }
{
    state.pending.any = true;
    let made = make_with_room(mapper, state, shapes, forbidden, contacts, numbers);
    if made.is_err() {
        state.pending.clear();
        contacts.know_ascending();
    }
    made
}
