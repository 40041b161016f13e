//! A list of members of which edits are put off.

ghost use Rattle.std.specs.Prelude.{◌≡◌, ◌<◌, ◌≤◌, ◌+◌, [], true, false, drop, length, vec_len, vec_capacity, IfOk, OnOk};
ghost use Rattle.std.specs.List.{AllWithin};
ghost use Rattle.std.specs.Result.{IsOkUnless};
ghost use Rattle.graph_colours.specs.Members.{AreRising, inserted, without_member};
ghost use Rattle.graph_colours.specs.FoundMembers.{has_id, movers_of, with_number};
ghost use Rattle.graph_colours.specs.Edits.{edit_number, edited, all_edited, noted, AreInOrder, IsEdited, edit_with, is_edit_at};

use crate::edits::{Edit, edit_all, edit_one, pass};
use crate::removals::{are_removals, remove_all};
use crate::{ConstraintId, Member, Movers, member};
use fixed_geom::Refusal;
use std::alloc::Global;
use std::marker::Model;

/// For how many edits a list has room beside its members: so many, and one for each of so many members.
const EDITS: usize = 64;

const MEMBERS_PER_EDIT: usize = 16;

/// Members that ascend by id, with edits that are put off and made together, in one pass. Contracts see the members
/// once all edits are made (`items`), for how many there is room (`capacity`), and how many edits are put off
/// (`pending`).
#[derive(Drop)]
pub struct EditedList<C: ConstraintId> {
    list: Vec<Member<C>>,
    // Ascending, at most one for each number.
    edits: Vec<Edit<C>>,
    // How many members there are once all edits are made.
    count: usize,
}

impl<C: ConstraintId> Model for EditedList<C> {
    ghost use Rattle.std.specs.Prelude.{length, vec_capacity};
    ghost use Rattle.graph_colours.specs.Edits.{Pended, all_edited, IsEditedList};

    ghost Value = { Pended C };

    ghost view = { λ a. record { items = all_edited C.number a.edits.items a.list.items; capacity = vec_capacity a.list; pending = length a.edits.items } };

    ghost invariant = { λ a. IsEditedList C.number a.list.items a.edits.items (vec_capacity a.list) a.count };
}

// ---- edits that are put off

/// The place of the first edit whose number is at least `wanted`, or their number.
fn edit_place<C: ConstraintId>(edits: &[Edit<C>], wanted: u128) -> usize
    requires { AreInOrder C.number edits.now }
    ensures within { result ≤ length edits.now }
    ensures before { AllWithin (λ e. edit_number C.number e < wanted) edits.now 0 result }
    ensures after { AllWithin (λ e. wanted ≤ edit_number C.number e) edits.now result (length edits.now) }
{
    match edits.last() {
        Some(last) if last.member.id.number() >= wanted => {
            edits.partition_point(|edit| edit.member.id.number() < wanted)
        }
        _ => edits.len(),
    }
}

/// The edit of this number, if one is put off.
fn edit_of<C: ConstraintId>(edits: &[Edit<C>], wanted: u128) -> Option<Edit<C>>
    requires { AreInOrder C.number edits.now }
    ensures { result ≡ edit_with C.number wanted edits.now }
{
    let edit = *edits.get(edit_place(edits, wanted))?;
    if edit.member.id.number() != wanted {
        return None;
    }
    Some(edit)
}

/// Whether one more edit in this place may be put off: there is room, and few stand behind it, for these move up.
fn can_wait<C: ConstraintId>(list: &Vec<Member<C>>, edits: &Vec<Edit<C>>, place: usize) -> bool
    requires { place ≤ length edits.now.items }
    ensures room { result ≡ true → length list.now.items + length edits.now.items < vec_capacity list.now }
    ensures space { result ≡ true → vec_len edits.now < vec_capacity edits.now }
{
    if list.len() + edits.len() >= list.capacity() || edits.len() >= edits.capacity() {
        return false;
    }
    let behind = edits.len() - place;
    behind <= EDITS || behind <= list.len() / behind
}

/// Whether the edit in this place is of the number.
fn is_edit_at<C: ConstraintId>(edits: &[Edit<C>], place: usize, number: u128) -> bool
    ensures { result ≡ is_edit_at C.number number (drop place edits.now) }
{
    match edits.get(place) {
        Some(edit) => edit.member.id.number() == number,
        None => false,
    }
}

/// Puts an edit off. It takes the place of one of the same number.
fn note<C: ConstraintId>(edits: &mut Vec<Edit<C>>, place: usize, edit: Edit<C>)
    requires in_order { AreInOrder C.number edits.old.items }
    requires place { place ≤ length edits.old.items }
    requires before { AllWithin (λ e. edit_number C.number e < edit_number C.number edit) edits.old.items 0 place }
    requires after { AllWithin (λ e. edit_number C.number edit ≤ edit_number C.number e) edits.old.items place (length edits.old.items) }
    requires space { vec_len edits.old < vec_capacity edits.old }
    ensures items { edits.new.items ≡ noted C.number edit edits.old.items }
{
    if is_edit_at(edits, place, edit.member.id.number()) {
        edits[place] = edit;
    } else {
        let _ = edits.insert(place, edit);
    }
}

// ---- edits that are made

/// Makes all edits of a list: where it stands, if none of them adds a member, else by way of `spare`.
fn make_all<C: ConstraintId>(
    list: &mut Vec<Member<C>>,
    edits: &[Edit<C>],
    spare: &mut Vec<Member<C>>,
)
    requires edited { IsEdited C.number list.old.items edits.now (vec_capacity list.old) }
    ensures items { list.new.items ≡ all_edited C.number edits.now list.old.items }
    ensures capacity { vec_capacity list.old ≤ vec_capacity list.new }
{
    if are_removals(edits) {
        remove_all(list, edits);
    } else {
        edit_all(list, edits, spare);
    }
}

/// Puts an edit off, or makes it and those before it where it can't be put off.
fn take_in<C: ConstraintId>(
    list: &mut Vec<Member<C>>,
    edits: &mut Vec<Edit<C>>,
    edit: Edit<C>,
    spare: &mut Vec<Member<C>>,
)
    requires edited { IsEdited C.number list.old.items edits.old.items (vec_capacity list.old) }
    requires room { edit.adds ≡ true → length (all_edited C.number edits.old.items list.old.items) < vec_capacity list.old }
    ensures items { all_edited C.number edits.new.items list.new.items ≡ edited C.number edit (all_edited C.number edits.old.items list.old.items) }
    ensures edited { IsEdited C.number list.new.items edits.new.items (vec_capacity list.new) }
    ensures capacity { vec_capacity list.old ≤ vec_capacity list.new }
{
    let place = edit_place(edits, edit.member.id.number());
    if can_wait(list, edits, place) {
        note(edits, place, edit);
    } else {
        make_all(list, edits, spare);
        edits.clear();
        edit_one(list, edit);
    }
}

impl<C: ConstraintId> EditedList<C> {
    /// No members.
    pub fn new(alloc: Global) -> EditedList<C>
        ensures items { result.items ≡ [] }
        ensures pending { result.pending ≡ 0 }
    {
        EditedList {
            list: Vec::new(alloc),
            edits: Vec::new(alloc),
            count: 0,
        }
    }

    /// A list of these members, with no promise on room.
    pub fn from_members(alloc: Global, members: &[Member<C>]) -> Result<EditedList<C>, Refusal>
        requires { AreRising C.number members.now }
        ensures items { IfOk result (λ made. made.items ≡ members.now) }
        ensures pending { IfOk result (λ made. made.pending ≡ 0) }
        ensures memory_only { IsOkUnless result Refusal.NoMemory }
    {
        Ok(EditedList {
            list: Vec::from_slice(alloc, members)?,
            edits: Vec::new(alloc),
            count: members.len(),
        })
    }

    /// A copy of its own, with no promise on room.
    pub fn try_copy(&self, alloc: Global) -> Result<EditedList<C>, Refusal>
        ensures items { IfOk result (λ copied. copied.items ≡ self.now.items) }
        ensures pending { IfOk result (λ copied. copied.pending ≡ 0) }
        ensures memory_only { IsOkUnless result Refusal.NoMemory }
    {
        Ok(EditedList {
            list: self.to_members(Vec::new(alloc))?,
            edits: Vec::new(alloc),
            count: self.count,
        })
    }

    /// The members, ascending by id, in the memory of `room`, whatever is in it.
    pub fn to_members(&self, room: Vec<Member<C>>) -> Result<Vec<Member<C>>, Refusal>
        ensures items { IfOk result (λ members. members.items ≡ self.now.items) }
        ensures rising { IfOk result (λ members. AreRising C.number members.items) }
        ensures memory_only { IsOkUnless result Refusal.NoMemory }
    {
        let mut members = room;
        members.clear();
        members.reserve(self.list.len() + self.edits.len())?;
        pass(&mut members, &self.list, &self.edits);
        Ok(members)
    }

    /// Makes room for that many members in all. Changes no member.
    pub fn reserve(&mut self, members: usize) -> Result<(), Refusal>
        ensures made { OnOk result (members ≤ self.new.capacity) }
        ensures items { self.new.items ≡ self.old.items }
        ensures pending { self.new.pending ≡ self.old.pending }
        ensures capacity { self.old.capacity ≤ self.new.capacity }
        ensures memory_only { IsOkUnless result Refusal.NoMemory }
    {
        let edits = members / MEMBERS_PER_EDIT + EDITS;
        self.edits
            .reserve(edits.max(self.edits.len()) - self.edits.len())?;
        let Some(room) = members.checked_add(edits) else {
            return Err(Refusal::NoMemory);
        };
        self.list
            .reserve(room.max(self.list.len()) - self.list.len())?;
        Ok(())
    }

    /// How many members there are.
    pub fn len(&self) -> usize
        ensures { result ≡ length self.now.items }
    {
        self.count
    }

    /// The member whose id has this number.
    pub fn with_number(&self, number: u128) -> Option<Member<C>>
        ensures { result ≡ with_number C.number number self.now.items }
    {
        match edit_of(&self.edits, number) {
            None => member::with_number(&self.list, number),
            Some(edit) if edit.adds => Some(edit.member),
            Some(_) => None,
        }
    }

    /// Whether a member has the id.
    pub fn has_id(&self, id: C) -> bool
        ensures { result ≡ has_id C.number id self.now.items }
    {
        self.with_number(id.number()).is_some()
    }

    /// Adds a member, for which there is room. `spare` is where members lie while the edits are made, if they have to
    /// be.
    pub fn insert(&mut self, member: Member<C>, spare: &mut Vec<Member<C>>)
        requires absent { has_id C.number member.id self.old.items ≡ false }
        requires room { length self.old.items < self.old.capacity }
        ensures items { self.new.items ≡ inserted C.number member self.old.items }
        ensures capacity { self.old.capacity ≤ self.new.capacity }
    {
        let edit = Edit { member, adds: true };
        take_in(&mut self.list, &mut self.edits, edit, spare);
        self.count += 1;
    }

    /// Takes out the member that has the id, and answers its movers.
    pub fn remove(&mut self, id: C, spare: &mut Vec<Member<C>>) -> Option<Movers>
        ensures value { result ≡ movers_of C.number id self.old.items }
        ensures items { self.new.items ≡ without_member C.number id self.old.items }
        ensures capacity { self.old.capacity ≤ self.new.capacity }
    {
        let movers = self.with_number(id.number())?.movers;
        let edit = Edit {
            member: Member { id, movers },
            adds: false,
        };
        take_in(&mut self.list, &mut self.edits, edit, spare);
        self.count -= 1;
        Some(movers)
    }

    /// Makes the edits that were put off.
    pub fn flush(&mut self, spare: &mut Vec<Member<C>>)
        ensures items { self.new.items ≡ self.old.items }
        ensures pending { self.new.pending ≡ 0 }
        ensures capacity { self.old.capacity ≤ self.new.capacity }
    {
        make_all(&mut self.list, &self.edits, spare);
        self.edits.clear();
    }

    /// The members, ascending by id, where no edit is put off.
    pub fn as_slice(&self) -> &[Member<C>]
        requires { self.now.pending ≡ 0 }
        ensures value { result.now ≡ self.now.items }
        ensures rising { AreRising C.number result.now }
    {
        self.list.as_slice()
    }
}
