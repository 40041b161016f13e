//! The contacts of near shapes, kept from collide to collide, so that a collide looks for new ones only where a shape
//! has a new fat box, came or went.

mod by_number;

ghost use Rattle.std.specs.Prelude.{◌≡◌, ◌≤◌, [], IfOk, IfSome, OnErr, OnOk, Some, length};
ghost use Rattle.std.specs.Result.{IsOkUnless};
ghost use Rattle.contacts_base.specs.declared.contact.ContactEntry.{ContactEntry};
ghost use Rattle.contacts_base.specs.Contacts.{contacts_without};
ghost use Rattle.contacts_base.specs.ContactLists.{AreContacts, impulses_given};
ghost use Rattle.contacts_base.specs.Proxies.{IsProxyList};
ghost use Rattle.contacts_base.specs.Split.{Split, contacts_in};
ghost use Rattle.contacts_base.specs.ByPairs.{contacts_between};
ghost use Rattle.contacts_base.specs.Changes.{keys_touching_only_in};
ghost use Rattle.contacts_base.specs.ChangedKeys.{AreRising};
ghost use Rattle.contacts.specs.Numbered.{IsTurnover};
ghost use Rattle.contacts.specs.NumberBooks.{bound_of, gone_of};
ghost use Rattle.contacts.specs.PendingUpdates.{pending_contacts};
ghost use Rattle.contacts.specs.Known.{IsKnown};
ghost use Rattle.contacts.specs.Fates.{AreWithin, moved_by};

use crate::collide_memory::{CollideMemory, CollideState};
use crate::dropping::drop_of_body;
use crate::fates::ShapesById;
use crate::forbidden::ForbiddenPairs;
use crate::make_pending::make_or_clear;
use crate::number_book::NumberBook;
use crate::pair_pieces::PairPiece;
use crate::pending_update::{PendingUpdate, Touches};
use crate::renumber::{apply_and_renumber, number_all};
use crate::survey_pieces::SurveyPiece;
use contacts_base::{ContactEntry, ContactKey, Contacts, Impulses, SplitContacts};
use crew::PieceMap;
use fixed_geom::Refusal;
use std::alloc::Global;
use std::marker::Model;

/// A contact for each pair of near shapes. Contracts see the list of them (`contacts`), what it becomes when the last
/// collide is carried out (`pending`), by number what is known of a contact (`numbered`), the numbers of each body's
/// contacts by side (`firsts`, `seconds`), those that the last change made and ended (`made`, `gone`), and a bound of
/// the numbers once what is pending is carried out (`bound`).
///
/// They are kept as a long list and a short one: where a contact is made or ends the long list stands, and the places
/// in it hold. The two are made one when the collides since the last time have looked at as many contacts beside the
/// long list as it has, so that this costs no more than was spent before it.
#[derive(Drop)]
pub struct ContactTable {
    contacts: SplitContacts,
    state: CollideState,
    // The number of each contact, and the contacts of each body.
    numbers: NumberBook,
}

impl Model for ContactTable {
    ghost use Rattle.contacts_base.specs.Split.{contacts_in};
    ghost use Rattle.std.specs.Prelude.{length};
    ghost use Rattle.contacts.specs.NumberBooks.{bound_of, gone_of};
    ghost use Rattle.contacts.specs.PendingUpdates.{pending_contacts};
    ghost use Rattle.contacts.specs.Kept.{Kept, IsKeptContacts};

    ghost Value = { Kept };

    ghost view = { λ a. record { contacts = contacts_in a.contacts; pending = pending_contacts a.state.pending a.contacts; numbered = a.numbers.contacts.items; firsts = a.numbers.ends.firsts.sets; seconds = a.numbers.ends.seconds.sets; made = a.numbers.made.items; gone = gone_of a.numbers; bound = bound_of a.numbers (length a.state.pending.made.items) } };

    ghost invariant = { λ a. IsKeptContacts a };
}

impl ContactTable {
    /// No contacts.
    pub fn new(alloc: Global) -> ContactTable
        ensures contacts { result.contacts ≡ [] }
        ensures numbered { result.numbered ≡ [] }
    {
        let contacts = SplitContacts::new(alloc);
        contacts.know_ascending();
        let pending = PendingUpdate::new(alloc);
        let memory = CollideMemory::new(alloc);
        let numbers = NumberBook::new(alloc);
        ContactTable {
            contacts,
            state: CollideState { pending, memory },
            numbers,
        }
    }

    /// These contacts; nothing is pending.
    pub fn from_contacts(alloc: Global, contacts: Contacts) -> Result<ContactTable, Refusal>
        ensures contacts { IfOk result (λ kept. kept.contacts ≡ contacts) }
        ensures memory_only { IsOkUnless result Refusal.NoMemory }
    {
        let contacts = SplitContacts::from_entries(alloc, contacts.into_entries())?;
        contacts.know_ascending();
        let numbers = number_all(alloc, contacts.long())?;
        let pending = PendingUpdate::new(alloc);
        let memory = CollideMemory::new(alloc);
        Ok(ContactTable {
            contacts,
            state: CollideState { pending, memory },
            numbers,
        })
    }

    /// A copy, of which nothing is pending.
    pub fn try_copy(&self, alloc: Global) -> Result<ContactTable, Refusal>
        ensures copy { IfOk result (λ copied. copied.contacts ≡ self.now.contacts) }
        ensures memory_only { IsOkUnless result Refusal.NoMemory }
    {
        let contacts = Contacts::from_entries(self.to_entries(alloc)?);
        ContactTable::from_contacts(alloc, contacts)
    }

    /// The contacts as they are kept.
    pub fn split(&self) -> &SplitContacts
        ensures { contacts_in result.now ≡ self.now.contacts }
    {
        &self.contacts
    }

    /// The contacts as one list, ascending by key, if they are kept so.
    pub fn as_one(&self) -> Option<&[ContactEntry]>
        ensures value { IfSome result (λ entries. entries.now ≡ self.now.contacts) }
        ensures contacts { IfSome result (λ entries. AreContacts entries.now) }
    {
        if self.contacts.is_one() {
            Some(self.contacts.long())
        } else {
            None
        }
    }

    /// A list of the contacts, ascending by key.
    pub fn to_entries(&self, alloc: Global) -> Result<Vec<ContactEntry>, Refusal>
        ensures value { IfOk result (λ entries. entries.items ≡ self.now.contacts) }
        ensures contacts { IfOk result (λ entries. AreContacts entries.items) }
        ensures memory_only { IsOkUnless result Refusal.NoMemory }
    {
        self.contacts.to_entries(alloc)
    }

    /// Drops the contacts of the body in a slot; nothing is pending then. Takes no memory. Each of them takes a search
    /// of both lists.
    pub fn drop_of_body(&mut self, slot: u32)
        ensures contacts { self.new.contacts ≡ contacts_without slot self.old.contacts }
        ensures turnover { IsTurnover self.old.numbered self.new.numbered self.new.made self.new.gone }
        ensures none { self.new.made ≡ [] }
    {
        self.state.pending.clear();
        drop_of_body(&mut self.numbers, &mut self.contacts, slot);
        self.contacts.know_ascending();
    }

    /// Gives the points of the contact with this key these impulses, in mass·u/tick. Without any for the second point
    /// that stays as it is, and so do all contacts where there is none with the key. It is looked for at `place` of the
    /// long list first. Nothing is pending then.
    #[inline(always)]
    pub fn set_impulses(
        &mut self,
        place: usize,
        key: ContactKey,
        first: Impulses,
        second: Option<Impulses>,
    )
        ensures contacts { self.new.contacts ≡ impulses_given key first second self.old.contacts }
        ensures numbered { self.new.numbered ≡ self.old.numbered }
    {
        self.state.pending.clear();
        self.contacts.set_impulses(place, key, first, second);
        self.contacts.know_ascending();
    }

    /// A collide of the shapes as they are now, in which the bodies of the forbidden pairs pass through one another:
    /// what the contacts become by it is pending, and they stay as they are until it is carried out.
    ///
    /// `marks` tell by slot which bodies' shapes have moved, and `marked` are the slots that are marked: two shapes
    /// that haven't moved are near and may touch just where they have a contact, so new ones are looked for only where
    /// one has.
    ///
    /// A contact is evaluated anew if one of its two bodies stirs, and else stays as it is. A pair that had a contact
    /// keeps its surface, and the impulses of its points by their candidates; a new pair gets a contact with what its
    /// shapes' surfaces mix to. A contact ends that touched and doesn't any more, also where its shapes are no longer
    /// near or its bodies may no longer collide. What [`ContactTable::made`] tells isn't known then.
    /// `mapper` works the near pairs where all are looked for, and else the contacts of which a body may stir.
    pub fn collide<
        S: ShapesById + Drop,
        F: ForbiddenPairs + Drop,
        M: PieceMap<PairPiece> + PieceMap<SurveyPiece<S, F>>,
    >(&mut self, mapper: &mut M, shapes: &mut S, forbidden: &mut F) -> Result<Touches, Refusal>
        requires shapes { IsProxyList (S.proxies shapes.old) }
        requires within { AreWithin (S.marks shapes.old) (S.proxies shapes.old) }
        requires known { IsKnown (moved_by (S.marks shapes.old)) (F.pairs forbidden.old) (S.proxies shapes.old) self.old.contacts }
        ensures shapes { shapes.new ≡ shapes.old }
        ensures forbidden { forbidden.new ≡ forbidden.old }
        ensures contacts { self.new.contacts ≡ self.old.contacts }
        ensures numbered { self.new.numbered ≡ self.old.numbered }
        ensures pending { OnOk result (self.new.pending ≡ contacts_between (F.pairs forbidden.old) (S.proxies shapes.old) self.old.contacts) }
        ensures refused { OnErr result (self.new.pending ≡ self.old.contacts) }
        ensures begin { IfOk result (λ touches. touches.begin.items ≡ keys_touching_only_in self.old.contacts (contacts_between (F.pairs forbidden.old) (S.proxies shapes.old) self.old.contacts)) }
        ensures end { IfOk result (λ touches. touches.end.items ≡ keys_touching_only_in (contacts_between (F.pairs forbidden.old) (S.proxies shapes.old) self.old.contacts) self.old.contacts) }
        ensures begin_rising { IfOk result (λ touches. AreRising touches.begin.items) }
        ensures end_rising { IfOk result (λ touches. AreRising touches.end.items) }
        ensures memory_only { IsOkUnless result Refusal.NoMemory }
    {
        self.state.pending.clear();
        make_or_clear(
            mapper,
            &mut self.state,
            shapes,
            forbidden,
            &mut self.contacts,
            &mut self.numbers,
        )
    }

    /// The contacts become what is pending, or stay as they are where nothing is. Takes no memory.
    pub fn commit_pending(&mut self)
        ensures contacts { self.new.contacts ≡ self.old.pending }
        ensures turnover { IsTurnover self.old.numbered self.new.numbered self.new.made self.new.gone }
        ensures bound { length self.new.numbered ≤ self.old.bound }
    {
        apply_and_renumber(
            &mut self.contacts,
            &mut self.state.pending,
            &mut self.state.memory,
            &mut self.numbers,
        );
        self.contacts.know_ascending();
    }
}
