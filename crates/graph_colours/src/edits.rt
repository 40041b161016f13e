//! Members that a list gets and loses, all in one pass.

ghost use Rattle.std.specs.Prelude.{◌≡◌, ◌<◌, ◌≤◌, ◌+◌, ◌++◌, ◌∷◌, [], true, List, All, length, drop, vec_len, vec_capacity};
ghost use Rattle.std.specs.List.{AllWithin};
ghost use Rattle.graph_colours.specs.declared.edits.Edit.{Edit as TheEdit};
ghost use Rattle.graph_colours.specs.Members.{AreRising};
ghost use Rattle.graph_colours.specs.FoundMembers.{is_at};
ghost use Rattle.graph_colours.specs.Edits.{edit_number, added, edited, all_edited, AreInOrder, IsEdited};

use crate::member::{insert, place_from, remove};
use crate::{ConstraintId, Member};

/// A member that a list gets (`adds`), in place of one of the same number, or loses.
#[derive(Clone, Copy, Debug, PartialEq, Eq)]
pub(crate) struct Edit<C> {
    pub member: Member<C>,
    pub adds: bool,
}

/// Whether the member in this place has the number.
pub(crate) fn is_at<C: ConstraintId>(members: &[Member<C>], place: usize, number: u128) -> bool
    ensures { result ≡ is_at C.number number (drop place members.now) }
{
    match members.get(place) {
        Some(member) => member.id.number() == number,
        None => false,
    }
}

/// Adds the member that an edit brings, if it does, to the end of the list. There is room.
fn push_added<C: ConstraintId>(list: &mut Vec<Member<C>>, edit: Edit<C>)
    requires { vec_len list.old < vec_capacity list.old }
    ensures items { list.new.items ≡ list.old.items ++ added edit }
    ensures len { vec_len list.new ≤ vec_len list.old + 1 }
    ensures capacity { vec_capacity list.old ≤ vec_capacity list.new }
{
    if edit.adds {
        let _ = list.push(edit.member);
    }
}

/// Adds the members below an edit's to the list, and makes the edit there. Answers how many of the members are done
/// then.
fn pass_edit<C: ConstraintId>(
    list: &mut Vec<Member<C>>,
    members: &[Member<C>],
    edit: Edit<C>,
) -> usize
    requires rising { AreRising C.number members.now }
    requires room { vec_len list.old + length members.now < vec_capacity list.old }
    ensures within { result ≤ length members.now }
    ensures items { (later : List (TheEdit C)) → All (λ e. edit_number C.number edit < edit_number C.number e) later → list.new.items ++ all_edited C.number later (drop result members.now) ≡ list.old.items ++ all_edited C.number (edit ∷ later) members.now }
    ensures len { vec_len list.new + length (drop result members.now) ≤ vec_len list.old + length members.now + 1 }
    ensures capacity { vec_capacity list.old ≤ vec_capacity list.new }
{
    let number = edit.member.id.number();
    let place = place_from(members, number);
    let _ = list.extend_from_slice(&members[..place]);
    push_added(list, edit);
    if is_at(members, place, number) {
        place + 1
    } else {
        place
    }
}

/// Adds the members to the list, with all edits made.
pub(crate) fn pass<C: ConstraintId>(
    list: &mut Vec<Member<C>>,
    members: &[Member<C>],
    edits: &[Edit<C>],
)
    requires rising { AreRising C.number members.now }
    requires in_order { AreInOrder C.number edits.now }
    requires room { vec_len list.old + length members.now + length edits.now ≤ vec_capacity list.old }
    ensures items { list.new.items ≡ list.old.items ++ all_edited C.number edits.now members.now }
    ensures capacity { vec_capacity list.old ≤ vec_capacity list.new }
{
    let mut done = 0;
    for place in 0..edits.len() {
        done += pass_edit(list, &members[done..], edits[place]);
    }
    let _ = list.extend_from_slice(&members[done..]);
}

/// Makes one edit of a list.
pub(crate) fn edit_one<C: ConstraintId>(list: &mut Vec<Member<C>>, edit: Edit<C>)
    requires rising { AreRising C.number list.old.items }
    requires room { edit.adds ≡ true → length list.old.items < vec_capacity list.old }
    ensures items { list.new.items ≡ edited C.number edit list.old.items }
    ensures capacity { vec_capacity list.old ≤ vec_capacity list.new }
{
    let Member { id, movers } = edit.member;
    let _ = remove(list, id);
    if edit.adds {
        insert(list, Member { id, movers });
    }
}

/// Makes the edits of a list one after the other.
fn edit_each<C: ConstraintId>(list: &mut Vec<Member<C>>, edits: &[Edit<C>])
    requires edited { IsEdited C.number list.old.items edits.now (vec_capacity list.old) }
    ensures items { list.new.items ≡ all_edited C.number edits.now list.old.items }
    ensures capacity { vec_capacity list.old ≤ vec_capacity list.new }
{
    for place in 0..edits.len() {
        edit_one(list, edits[place]);
    }
}

/// Makes all edits of a list, which ascend, in one pass over the members from the place `start` on, below which there
/// is no edit. These lie in `spare` meanwhile, which has room for them.
fn edit_from<C: ConstraintId>(
    list: &mut Vec<Member<C>>,
    start: usize,
    edits: &[Edit<C>],
    spare: &mut Vec<Member<C>>,
)
    requires edited { IsEdited C.number list.old.items edits.now (vec_capacity list.old) }
    requires start { start ≤ length list.old.items }
    requires below { AllWithin (λ m. All (λ e. C.number m.id < edit_number C.number e) edits.now) list.old.items 0 start }
    requires spare { length list.old.items ≤ vec_capacity spare.old + start }
    ensures items { list.new.items ≡ all_edited C.number edits.now list.old.items }
    ensures capacity { vec_capacity list.old ≤ vec_capacity list.new }
{
    spare.clear();
    let _ = spare.extend_from_slice(&list[start..]);
    list.truncate(start);
    pass(list, spare, edits);
}

/// Makes all edits of a list, which ascend, in one pass over the members that stand after the first edit's place. These
/// lie in `spare` meanwhile; where it has no room for them the edits are made one after the other.
pub(crate) fn edit_all<C: ConstraintId>(
    list: &mut Vec<Member<C>>,
    edits: &[Edit<C>],
    spare: &mut Vec<Member<C>>,
)
    requires edited { IsEdited C.number list.old.items edits.now (vec_capacity list.old) }
    ensures items { list.new.items ≡ all_edited C.number edits.now list.old.items }
    ensures capacity { vec_capacity list.old ≤ vec_capacity list.new }
{
    let Some(first) = edits.first() else {
        return;
    };
    let start = place_from(list, first.member.id.number());
    if spare.capacity() < list.len() - start {
        edit_each(list, edits);
    } else {
        edit_from(list, start, edits, spare);
    }
}
