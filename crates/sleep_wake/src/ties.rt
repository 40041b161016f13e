//! The constraints of a world, ascending by number.

ghost use Rattle.std.specs.Prelude.{◌≡◌, ◌<◌, ◌≤◌, [], true, false, length, IfOk, OnOk};
ghost use Rattle.std.specs.Result.{IsOkUnless};
ghost use Rattle.graph_colours.specs.Members.{AreRising, inserted, without_member};
ghost use Rattle.graph_colours.specs.FoundMembers.{has_id, movers_of};

use fixed_geom::Refusal;
use graph_colours::{ConstraintId, EditedList, Member, Movers};
use std::alloc::Global;
use std::marker::Model;

/// Constraints that ascend by number, with edits that are put off. Contracts see them as those of an [`EditedList`].
#[derive(Drop)]
pub(crate) struct Ties<C: ConstraintId> {
    list: EditedList<C>,
    // Whether it is known that no edit is put off.
    flushed: bool,
}

impl<C: ConstraintId> Model for Ties<C> {
    ghost use Rattle.std.specs.Prelude.{◌≡◌, true};
    ghost use Rattle.graph_colours.specs.Edits.{Pended};

    ghost Value = { Pended C };

    ghost view = { λ a. a.list };

    ghost invariant = { λ a. a.flushed ≡ true → a.list.pending ≡ 0 };
}

impl<C: ConstraintId> Ties<C> {
    /// No constraints.
    pub(crate) fn new(alloc: Global) -> Ties<C>
        ensures items { result.items ≡ [] }
        ensures pending { result.pending ≡ 0 }
    {
        Ties {
            list: EditedList::new(alloc),
            flushed: true,
        }
    }

    /// These constraints, with no promise on room.
    pub(crate) fn from_members(alloc: Global, members: &[Member<C>]) -> Result<Ties<C>, Refusal>
        requires { AreRising C.number members.now }
        ensures items { IfOk result (λ made. made.items ≡ members.now) }
        ensures pending { IfOk result (λ made. made.pending ≡ 0) }
        ensures memory_only { IsOkUnless result Refusal.NoMemory }
    {
        Ok(Ties {
            list: EditedList::from_members(alloc, members)?,
            flushed: true,
        })
    }

    /// A copy of its own, with no promise on room.
    pub(crate) fn try_copy(&self, alloc: Global) -> Result<Ties<C>, Refusal>
        ensures items { IfOk result (λ copied. copied.items ≡ self.now.items) }
        ensures pending { IfOk result (λ copied. copied.pending ≡ 0) }
        ensures memory_only { IsOkUnless result Refusal.NoMemory }
    {
        Ok(Ties {
            list: self.list.try_copy(alloc)?,
            flushed: true,
        })
    }

    /// Makes room for that many constraints in all. Changes no constraint.
    pub(crate) fn reserve(&mut self, members: usize) -> Result<(), Refusal>
        ensures made { OnOk result (members ≤ self.new.capacity) }
        ensures items { self.new.items ≡ self.old.items }
        ensures pending { self.new.pending ≡ self.old.pending }
        ensures capacity { self.old.capacity ≤ self.new.capacity }
        ensures memory_only { IsOkUnless result Refusal.NoMemory }
    {
        self.list.reserve(members)
    }

    /// Adds a constraint, for which there is room. `spare` is where constraints lie while edits are made, if they have
    /// to be.
    pub(crate) fn insert(&mut self, member: Member<C>, spare: &mut Vec<Member<C>>)
        requires absent { has_id C.number member.id self.old.items ≡ false }
        requires room { length self.old.items < self.old.capacity }
        ensures items { self.new.items ≡ inserted C.number member self.old.items }
        ensures capacity { self.old.capacity ≤ self.new.capacity }
    {
        self.list.insert(member, spare);
        self.flushed = false;
    }

    /// Takes out the constraint that has the id, and answers its movers.
    pub(crate) fn remove(&mut self, id: C, spare: &mut Vec<Member<C>>) -> Option<Movers>
        ensures value { result ≡ movers_of C.number id self.old.items }
        ensures items { self.new.items ≡ without_member C.number id self.old.items }
        ensures capacity { self.old.capacity ≤ self.new.capacity }
    {
        let movers = self.list.remove(id, spare);
        self.flushed = false;
        movers
    }

    /// Makes the edits that were put off.
    pub(crate) fn flush(&mut self, spare: &mut Vec<Member<C>>)
        ensures items { self.new.items ≡ self.old.items }
        ensures pending { self.new.pending ≡ 0 }
        ensures capacity { self.old.capacity ≤ self.new.capacity }
    {
        self.list.flush(spare);
        self.flushed = true;
    }

    /// Whether it is known that no edit is put off.
    pub(crate) fn is_flushed(&self) -> bool
        ensures { result ≡ true → self.now.pending ≡ 0 }
    {
        self.flushed
    }

    // ---- all constraints

    /// How many constraints there are.
    pub(crate) fn len(&self) -> usize
        ensures { result ≡ length self.now.items }
    {
        self.list.len()
    }

    /// Whether a constraint has the id.
    pub(crate) fn has_id(&self, id: C) -> bool
        ensures { result ≡ has_id C.number id self.now.items }
    {
        self.list.has_id(id)
    }

    /// The constraints, ascending, in the memory of `room`, whatever is in it.
    pub(crate) fn to_members(&self, room: Vec<Member<C>>) -> Result<Vec<Member<C>>, Refusal>
        ensures items { IfOk result (λ members. members.items ≡ self.now.items) }
        ensures rising { IfOk result (λ members. AreRising C.number members.items) }
        ensures memory_only { IsOkUnless result Refusal.NoMemory }
    {
        self.list.to_members(room)
    }

    /// The constraints, ascending, where no edit is put off.
    pub(crate) fn as_slice(&self) -> &[Member<C>]
        requires { self.now.pending ≡ 0 }
        ensures value { result.now ≡ self.now.items }
        ensures rising { AreRising C.number result.now }
    {
        self.list.as_slice()
    }
}
