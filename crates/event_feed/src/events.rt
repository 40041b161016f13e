//! The four lists of a step's events.

ghost use Rattle.std.specs.Prelude.{◌≡◌, IfOk, map};
ghost use Rattle.std.specs.Result.{IsOkUnless};
ghost use Rattle.std.specs.List.Sorted.{IsPermutation, IsSorted, IsNonDecreasingBy, IsStrictlyIncreasing};
ghost use Rattle.contacts_base.specs.Keys.{key_number};
ghost use Rattle.body_handles.specs.Orders.{handle_cmp, slot_of};
ghost use Rattle.event_feed.specs.Events.{no_events};

use body_handles::Handle;
use contacts_base::ContactKey;
use fixed_geom::Refusal;
use std::alloc::Global;
use std::marker::Model;
use std::mem;

/// What happened in the last accepted step, each list ascending: the contacts that began and ended, and
/// the bodies that fell asleep and woke.
#[derive(Drop)]
pub struct Events {
    begin: Vec<ContactKey>,
    end: Vec<ContactKey>,
    slept: Vec<Handle>,
    woke: Vec<Handle>,
}

impl Model for Events {
    ghost use Rattle.event_feed.specs.Events.{EventLists};

    ghost Value = { EventLists };

    ghost view = { λ a. record { begin = a.begin.items; end = a.end.items; slept = a.slept.items; woke = a.woke.items } };
}

/// The same contacts, ascending by their keys' numbers.
fn ascending_contacts(mut keys: Vec<ContactKey>) -> Vec<ContactKey>
    ensures same_items { IsPermutation keys.items result.items }
    ensures ascends { IsNonDecreasingBy key_number result.items }
    ensures kept { IsStrictlyIncreasing (map key_number keys.items) → result.items ≡ keys.items }
{
    keys.sort_unstable_by_key(|key| key.number());
    keys
}

/// The same bodies, ascending by slot and then by generation.
fn ascending_bodies(mut bodies: Vec<Handle>) -> Vec<Handle>
    ensures same_items { IsPermutation bodies.items result.items }
    ensures ascends { IsSorted handle_cmp result.items }
    ensures kept { IsStrictlyIncreasing (map slot_of bodies.items) → result.items ≡ bodies.items }
{
    bodies.sort_unstable();
    bodies
}

/// Puts a list of bodies, made ascending, in the place of another, which it gets.
fn exchange(told: &mut Vec<Handle>, bodies: &mut Vec<Handle>)
    ensures same_items { IsPermutation bodies.old.items told.new.items }
    ensures ascends { IsSorted handle_cmp told.new.items }
    ensures kept { IsStrictlyIncreasing (map slot_of bodies.old.items) → told.new.items ≡ bodies.old.items }
{
    mem::swap(told, bodies);
    told.sort_unstable();
}

impl Events {
    /// No events.
    pub fn new(alloc: Global) -> Events
        ensures { result ≡ no_events }
    {
        Events {
            begin: Vec::new(alloc),
            end: Vec::new(alloc),
            slept: Vec::new(alloc),
            woke: Vec::new(alloc),
        }
    }

    /// The events of these lists, each made ascending: contacts by their keys' numbers (the slot and index of
    /// the first shape, then those of the second), bodies by slot and then by generation. An item comes as
    /// often as it was handed in. A list whose keys' numbers, or whose slots, rise already stays as it is.
    /// Sorts in place, so it takes no memory and refuses nothing.
    pub fn from_lists(
        begin: Vec<ContactKey>,
        end: Vec<ContactKey>,
        slept: Vec<Handle>,
        woke: Vec<Handle>,
    ) -> Events
        ensures begin_items { IsPermutation begin.items result.begin }
        ensures begin_ascends { IsNonDecreasingBy key_number result.begin }
        ensures begin_kept { IsStrictlyIncreasing (map key_number begin.items) → result.begin ≡ begin.items }
        ensures end_items { IsPermutation end.items result.end }
        ensures end_ascends { IsNonDecreasingBy key_number result.end }
        ensures end_kept { IsStrictlyIncreasing (map key_number end.items) → result.end ≡ end.items }
        ensures slept_items { IsPermutation slept.items result.slept }
        ensures slept_ascends { IsSorted handle_cmp result.slept }
        ensures slept_kept { IsStrictlyIncreasing (map slot_of slept.items) → result.slept ≡ slept.items }
        ensures woke_items { IsPermutation woke.items result.woke }
        ensures woke_ascends { IsSorted handle_cmp result.woke }
        ensures woke_kept { IsStrictlyIncreasing (map slot_of woke.items) → result.woke ≡ woke.items }
    {
        Events {
            begin: ascending_contacts(begin),
            end: ascending_contacts(end),
            slept: ascending_bodies(slept),
            woke: ascending_bodies(woke),
        }
    }

    /// Makes these lists the events in place of those that there are, each made ascending as by [`Events::from_lists`].
    /// The lists of bodies go over with their memory, and what is left in their place is the memory of the lists
    /// before. It takes no memory.
    pub fn renew(
        &mut self,
        begin: Vec<ContactKey>,
        end: Vec<ContactKey>,
        slept: &mut Vec<Handle>,
        woke: &mut Vec<Handle>,
    )
        ensures begin_items { IsPermutation begin.items self.new.begin }
        ensures begin_ascends { IsNonDecreasingBy key_number self.new.begin }
        ensures begin_kept { IsStrictlyIncreasing (map key_number begin.items) → self.new.begin ≡ begin.items }
        ensures end_items { IsPermutation end.items self.new.end }
        ensures end_ascends { IsNonDecreasingBy key_number self.new.end }
        ensures end_kept { IsStrictlyIncreasing (map key_number end.items) → self.new.end ≡ end.items }
        ensures slept_items { IsPermutation slept.old.items self.new.slept }
        ensures slept_ascends { IsSorted handle_cmp self.new.slept }
        ensures slept_kept { IsStrictlyIncreasing (map slot_of slept.old.items) → self.new.slept ≡ slept.old.items }
        ensures woke_items { IsPermutation woke.old.items self.new.woke }
        ensures woke_ascends { IsSorted handle_cmp self.new.woke }
        ensures woke_kept { IsStrictlyIncreasing (map slot_of woke.old.items) → self.new.woke ≡ woke.old.items }
    {
        self.begin = ascending_contacts(begin);
        self.end = ascending_contacts(end);
        exchange(&mut self.slept, slept);
        exchange(&mut self.woke, woke);
    }

    /// The contacts that began, ascending.
    pub fn begin(&self) -> &[ContactKey]
        ensures { result.now ≡ self.now.begin }
    {
        self.begin.as_slice()
    }

    /// The contacts that ended, ascending.
    pub fn end(&self) -> &[ContactKey]
        ensures { result.now ≡ self.now.end }
    {
        self.end.as_slice()
    }

    /// The bodies that fell asleep, ascending.
    pub fn slept(&self) -> &[Handle]
        ensures { result.now ≡ self.now.slept }
    {
        self.slept.as_slice()
    }

    /// The bodies that woke, ascending.
    pub fn woke(&self) -> &[Handle]
        ensures { result.now ≡ self.now.woke }
    {
        self.woke.as_slice()
    }

    /// Leaves no events.
    pub fn clear(&mut self)
        ensures { self.new ≡ no_events }
    {
        self.begin.clear();
        self.end.clear();
        self.slept.clear();
        self.woke.clear();
    }

    /// A copy of its own.
    pub fn try_copy(&self) -> Result<Events, Refusal>
        ensures copy { IfOk result (λ copied. copied ≡ self.now) }
        ensures memory_only { IsOkUnless result Refusal.NoMemory }
    {
        let alloc = *self.begin.allocator();
        Ok(Events {
            begin: Vec::from_slice(alloc, self.begin.as_slice())?,
            end: Vec::from_slice(alloc, self.end.as_slice())?,
            slept: Vec::from_slice(alloc, self.slept.as_slice())?,
            woke: Vec::from_slice(alloc, self.woke.as_slice())?,
        })
    }
}
