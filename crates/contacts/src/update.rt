//! The contacts after a collide, from what is known of the near pairs: only fresh pairs are looked for, and of the long
//! list of contacts those alone of which a body may stir. Contacts that are made go into the short list, which is
//! made anew.

ghost use Rattle.std.specs.Prelude.{◌≡◌, All, IfOk, None, OnOk, false, option_map, true};
ghost use Rattle.std.specs.Result.{IsOkUnless};
ghost use Rattle.contacts_base.specs.Contacts.{AreKeysRising};
ghost use Rattle.contacts_base.specs.ContactLists.{AreContacts};
ghost use Rattle.contacts_base.specs.Keys.{key_number};
ghost use Rattle.contacts_base.specs.Merge.{AreAscending, merged};
ghost use Rattle.contacts_base.specs.Proxies.{IsProxyList};
ghost use Rattle.contacts_base.specs.ShortLists.{counted_in};
ghost use Rattle.contacts_base.specs.Split.{contacts_in, counting};
ghost use Rattle.contacts.specs.ByCodes.{contacts_of};
ghost use Rattle.contacts_base.specs.ChangedKeys.{AreRising};
ghost use Rattle.contacts.specs.PendingUpdates.{IsPendingUpdate, pending_contacts};
ghost use Rattle.contacts.specs.Known.{IsKnown, IsPairKey, fresh as fresh_codes};
ghost use Rattle.contacts.specs.Looked.{AreGoneIf, IsDone, IsLookedOver, IsRebuiltIf, keys_at};
ghost use Rattle.contacts.specs.SurveyPieces.{shown_looks};
ghost use Rattle.contacts.specs.Stirring.{AreQuiet, one_flagged};
ghost use Rattle.contacts.specs.Fates.{IsMade, gone_keys, moved_by};

use crate::collide::Collide;
use crate::fates::ShapesById;
use crate::forbidden::ForbiddenPairs;
use crate::noting::{note_ended, note_fresh, note_touches};
use crate::pending_update::{PendingUpdate, Touches};
use crate::rebuild::{Rebuilt, rebuild};
use crate::stirring_flags::is_one_flagged;
use crate::survey::Looked;
use contacts_base::{ContactEntry, ContactKey, Renewal, ShortList, SplitContacts, merge};
use fixed_geom::Refusal;
use std::alloc::Global;
use std::mem;

/// Whether a body of one of the contacts that aren't over may stir.
fn may_one_stir(flags: &[bool], short: &ShortList) -> bool
    ensures { result ≡ false → All (λ e. one_flagged flags.now e ≡ false) (counted_in short.now) }
{
    let entries = short.entries();
    for place in 0..entries.len() {
        if short.is_over(place) {
            continue;
        }
        if is_one_flagged(flags, &entries[place]) {
            return true;
        }
    }
    false
}

/// The short list anew, if contacts are made or a body of one in it may stir: else it stays as it is.
fn rebuild_if<S: ShapesById, F: ForbiddenPairs>(
    alloc: Global,
    collide: &Collide<'_, S, F>,
    short: &ShortList,
    flags: &[bool],
    fresh: &[ContactEntry],
) -> Result<Option<Rebuilt>, Refusal>
    requires shapes { IsProxyList (S.proxies collide.now.shapes.now) }
    requires short { AreContacts (counted_in short.now) }
    requires keys { All (λ e. IsPairKey e.key) (counted_in short.now) }
    requires quiet { AreQuiet flags.now collide.now.marks.now (S.proxies collide.now.shapes.now) }
    requires fresh { AreKeysRising fresh.now }
    ensures rebuilt { IfOk result (λ rebuilt. IsRebuiltIf (moved_by collide.now.marks.now) (F.pairs collide.now.forbidden.now) (S.proxies collide.now.shapes.now) (counted_in short.now) fresh.now rebuilt) }
    ensures gone { IfOk result (λ rebuilt. AreGoneIf (moved_by collide.now.marks.now) (F.pairs collide.now.forbidden.now) (S.proxies collide.now.shapes.now) (counted_in short.now) rebuilt) }
    ensures memory_only { IsOkUnless result Refusal.NoMemory }
{
    if fresh.is_empty() && !may_one_stir(flags, short) {
        return Ok(None);
    }
    let rebuilt = rebuild(alloc, collide, short, flags, fresh)?;
    Ok(Some(rebuilt))
}

/// Two ascending lists of keys as one.
fn join(
    alloc: Global,
    first: Vec<ContactKey>,
    second: Vec<ContactKey>,
) -> Result<Vec<ContactKey>, Refusal>
    requires first { AreAscending key_number first.items }
    requires second { AreAscending key_number second.items }
    ensures value { IfOk result (λ all. all.items ≡ merged key_number first.items second.items) }
    ensures memory_only { IsOkUnless result Refusal.NoMemory }
{
    if second.is_empty() {
        return Ok(first);
    }
    if first.is_empty() {
        return Ok(second);
    }
    merge(alloc, &first, &second)
}

/// What begins and ends to touch in both lists.
fn join_touches(alloc: Global, long: Touches, short: Touches) -> Result<Touches, Refusal>
    requires long_begin { AreAscending key_number long.begin.items }
    requires long_end { AreAscending key_number long.end.items }
    requires short_begin { AreAscending key_number short.begin.items }
    requires short_end { AreAscending key_number short.end.items }
    ensures begin { IfOk result (λ touches. touches.begin.items ≡ merged key_number long.begin.items short.begin.items) }
    ensures end { IfOk result (λ touches. touches.end.items ≡ merged key_number long.end.items short.end.items) }
    ensures memory_only { IsOkUnless result Refusal.NoMemory }
{
    let begin = join(alloc, long.begin, short.begin)?;
    let end = join(alloc, long.end, short.end)?;
    Ok(Touches { begin, end })
}

/// A list of its own of these keys.
fn copied(alloc: Global, keys: &[ContactKey]) -> Result<Vec<ContactKey>, Refusal>
    ensures value { IfOk result (λ copy. copy.items ≡ keys.now) }
    ensures memory_only { IsOkUnless result Refusal.NoMemory }
{
    let mut copy = Vec::new(alloc);
    copy.extend_from_slice(keys)?;
    Ok(copy)
}

/// What a look over the long list found becomes pending. Answers which contacts begin to touch and which end.
fn note_found(
    alloc: Global,
    notes: &mut Vec<Renewal>,
    ends: &mut Vec<usize>,
    found: &mut Looked,
) -> Result<Touches, Refusal>
    ensures looks { IfOk result (λ touches. record { notes = notes.new.items; ends = ends.new.items; begin = touches.begin.items; end = touches.end.items } ≡ shown_looks found.old) }
    ensures memory_only { IsOkUnless result Refusal.NoMemory }
{
    mem::swap(notes, &mut found.notes);
    mem::swap(ends, &mut found.ends);
    Ok(Touches {
        begin: copied(alloc, &found.begin)?,
        end: copied(alloc, &found.end)?,
    })
}

/// What a collide makes of both lists, and the keys of those of the short one that go: `found` is what a look over the
/// long list found. Answers which contacts begin to touch and which end. Refused 1 where memory is wanting: what is
/// pending then has to be cleared.
fn update_lists<S: ShapesById, F: ForbiddenPairs>(
    pending: &mut PendingUpdate,
    collide: &Collide<'_, S, F>,
    old: &SplitContacts,
    flags: &[bool],
    fresh: &[ContactEntry],
    found: &mut Looked,
) -> Result<Touches, Refusal>
    requires shapes { IsProxyList (S.proxies collide.now.shapes.now) }
    requires known { IsKnown (moved_by collide.now.marks.now) (F.pairs collide.now.forbidden.now) (S.proxies collide.now.shapes.now) (contacts_in old.now) }
    requires quiet { AreQuiet flags.now collide.now.marks.now (S.proxies collide.now.shapes.now) }
    requires fresh { fresh.now ≡ contacts_of (contacts_in old.now) (S.proxies collide.now.shapes.now) (fresh_codes (moved_by collide.now.marks.now) (F.pairs collide.now.forbidden.now) (S.proxies collide.now.shapes.now) (contacts_in old.now)) }
    requires looked { IsLookedOver (moved_by collide.now.marks.now) (F.pairs collide.now.forbidden.now) (S.proxies collide.now.shapes.now) old.now found.old.notes.items found.old.ends.items found.old.begin.items found.old.end.items }
    ensures done { IfOk result (λ touches. IsDone (F.pairs collide.now.forbidden.now) (S.proxies collide.now.shapes.now) old.now pending.new.notes.items pending.new.ends.items (option_map counted_in pending.new.short) touches.begin.items touches.end.items) }
    ensures gone { OnOk result (pending.new.gone.items ≡ gone_keys (moved_by collide.now.marks.now) (F.pairs collide.now.forbidden.now) (S.proxies collide.now.shapes.now) old.now.short) }
    ensures ended { OnOk result (keys_at old.now.long pending.new.ends.items ≡ gone_keys (moved_by collide.now.marks.now) (F.pairs collide.now.forbidden.now) (S.proxies collide.now.shapes.now) (counting old.now.over old.now.long)) }
    ensures whole { pending.new.whole ≡ None }
    ensures any { pending.new.any ≡ true }
    ensures memory_only { IsOkUnless result Refusal.NoMemory }
{
    let alloc = *pending.notes.allocator();
    pending.short = None;
    pending.whole = None;
    pending.gone.clear();
    pending.any = true;
    old.know_ascending();
    let touches = note_found(alloc, &mut pending.notes, &mut pending.ends, found)?;
    let rebuilt = rebuild_if(alloc, collide, old.short(), flags, fresh)?;
    match rebuilt {
        None => Ok(touches),
        Some(rebuilt) => {
            let short = ShortList::from_entries(alloc, rebuilt.all)?;
            pending.short = Some(short);
            pending.gone = rebuilt.gone;
            join_touches(alloc, touches, rebuilt.touches)
        }
    }
}

/// What a collide makes of the contacts `old`, of which it is known that a near pair of shapes that haven't moved has
/// one: `fresh` are the contacts of the near pairs that have none yet.
/// Answers which begin to touch and which end. Refused 1 where memory is wanting: what is pending then has to be
/// cleared.
///
/// A contact goes if one of its shapes has moved and they are no longer near. Of those that stay the ones are evaluated
/// anew of which a body stirs. `found` is what a look over the long list found.
pub(crate) fn update_known<S: ShapesById, F: ForbiddenPairs>(
    pending: &mut PendingUpdate,
    collide: &Collide<'_, S, F>,
    old: &SplitContacts,
    flags: &[bool],
    fresh: &[ContactEntry],
    found: &mut Looked,
) -> Result<Touches, Refusal>
    requires shapes { IsProxyList (S.proxies collide.now.shapes.now) }
    requires known { IsKnown (moved_by collide.now.marks.now) (F.pairs collide.now.forbidden.now) (S.proxies collide.now.shapes.now) (contacts_in old.now) }
    requires quiet { AreQuiet flags.now collide.now.marks.now (S.proxies collide.now.shapes.now) }
    requires fresh { fresh.now ≡ contacts_of (contacts_in old.now) (S.proxies collide.now.shapes.now) (fresh_codes (moved_by collide.now.marks.now) (F.pairs collide.now.forbidden.now) (S.proxies collide.now.shapes.now) (contacts_in old.now)) }
    requires looked { IsLookedOver (moved_by collide.now.marks.now) (F.pairs collide.now.forbidden.now) (S.proxies collide.now.shapes.now) old.now found.old.notes.items found.old.ends.items found.old.begin.items found.old.end.items }
    ensures pending { OnOk result (IsPendingUpdate pending.new old.now) }
    ensures made { IfOk result (λ touches. IsMade (F.pairs collide.now.forbidden.now) (S.proxies collide.now.shapes.now) (contacts_in old.now) (pending_contacts pending.new old.now) touches.begin.items touches.end.items) }
    ensures begin_rising { IfOk result (λ touches. AreRising touches.begin.items) }
    ensures end_rising { IfOk result (λ touches. AreRising touches.end.items) }
    ensures memory_only { IsOkUnless result Refusal.NoMemory }
    ensures any { pending.new.any ≡ true }
{
    old.know_ascending();
    let touches = update_lists(pending, collide, old, flags, fresh, found)?;
    note_ended(&mut pending.gone, old.long(), &pending.ends)?;
    note_fresh(&mut pending.made, fresh)?;
    note_touches(pending, &touches)?;
    Ok(touches)
}
