//! What a collide makes of the contacts, and how that is carried out.

ghost use Rattle.std.specs.Prelude.{◌≡◌, IsTrue, false};
ghost use Rattle.contacts_base.specs.Split.{contacts_in};
ghost use Rattle.contacts.specs.PendingUpdates.{IsPendingUpdate, IsNothing, pending_contacts};
ghost use Rattle.contacts.specs.Stirring.{HaveKeys};

use crate::number_book::NumberedContact;
use contacts_base::{ContactKey, Renewal, ShortList, SplitContacts};
use std::alloc::Global;

/// What a collide makes of the contacts, not yet carried out: of the long list what becomes of the contacts at some
/// places, and which of them are over; and the short list anew, if one of it changes or contacts are made. Or all
/// contacts anew. And what that does to the numbers: which contacts are made, and the keys of those that go, that begin
/// to touch, and that end to touch.
#[derive(Drop)]
pub(crate) struct PendingUpdate {
    // What contacts of the long list become.
    pub(crate) notes: Vec<Renewal>,
    // The places in the long list of those that go.
    pub(crate) ends: Vec<usize>,
    pub(crate) short: Option<ShortList>,
    pub(crate) whole: Option<SplitContacts>,
    // Those that are made, ascending by key.
    pub(crate) made: Vec<NumberedContact>,
    // The keys of those that begin to touch, and of those that end to touch, with those that touched and go.
    pub(crate) begin: Vec<ContactKey>,
    pub(crate) end: Vec<ContactKey>,
    // The keys of those that go.
    pub(crate) gone: Vec<ContactKey>,
    // Whether there may be anything of these.
    pub(crate) any: bool,
}

/// The keys of the contacts that begin to touch and of those that end, each list ascending.
#[derive(Drop)]
pub struct Touches {
    pub begin: Vec<ContactKey>,
    pub end: Vec<ContactKey>,
}

impl PendingUpdate {
    /// Nothing is pending.
    pub(crate) fn new(alloc: Global) -> PendingUpdate
        ensures idle { result.any ≡ false }
        ensures nothing { IsNothing result }
    {
        PendingUpdate {
            notes: Vec::new(alloc),
            ends: Vec::new(alloc),
            short: None,
            whole: None,
            made: Vec::new(alloc),
            begin: Vec::new(alloc),
            end: Vec::new(alloc),
            gone: Vec::new(alloc),
            any: false,
        }
    }

    /// Nothing is pending any more.
    #[inline(always)]
    pub(crate) fn clear(&mut self)
        requires { self.old.any ≡ false → IsNothing self.old }
        ensures idle { self.new.any ≡ false }
        ensures nothing { IsNothing self.new }
    {
        if self.any {
            self.drop_all();
        }
    }

    /// The same, whatever is pending. It is called once a step, and the test before it for each contact.
    #[inline(never)]
    fn drop_all(&mut self)
        ensures idle { self.new.any ≡ false }
        ensures nothing { IsNothing self.new }
    {
        self.notes.clear();
        self.ends.clear();
        self.short = None;
        self.whole = None;
        self.made.clear();
        self.begin.clear();
        self.end.clear();
        self.gone.clear();
        self.any = false;
    }
}

/// Carries out what is pending. Answers whether the long list has the keys that it had. Takes no memory.
pub(crate) fn apply_pending(contacts: &mut SplitContacts, pending: &mut PendingUpdate) -> bool
    requires { IsPendingUpdate pending.old contacts.old }
    ensures contacts { contacts_in contacts.new ≡ pending_contacts pending.old contacts.old }
    ensures keys { IsTrue result → HaveKeys contacts.old contacts.new }
    ensures idle { pending.new.any ≡ false }
    ensures nothing { IsNothing pending.new }
{
    let has_keys = match pending.whole.take() {
        None => {
            contacts.change_in_place(&pending.notes, &pending.ends, pending.short.take());
            true
        }
        Some(whole) => {
            contacts.replace_with(whole);
            false
        }
    };
    pending.drop_all();
    has_keys
}
