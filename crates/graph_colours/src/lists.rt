//! The lists of the graph: the members of each colour and, last, those in the overflow.

ghost use Rattle.std.specs.Prelude.{◌≡◌, ◌<◌, ◌+◌, ◌==◌, ℕ, length, replicate, slice_set, [], false, OnOk, IfOk};
ghost use Rattle.std.specs.Result.{IsOkUnless};
ghost use Rattle.std.specs.List.{position_or_len, count_by};
ghost use Rattle.graph_colours.specs.declared.limits.TheConstants.{COLOURS};
ghost use Rattle.graph_colours.specs.Members.{without_member};
ghost use Rattle.graph_colours.specs.FoundMembers.{has_id};
ghost use Rattle.graph_colours.specs.TakenColours.{AreTakenColours};
ghost use Rattle.graph_colours.specs.Graph.{lists_of, HaveRoom, AreAtRest};
ghost use Rattle.graph_colours.specs.Own.{AreOwn};
ghost use Rattle.graph_colours.specs.Colours.{list_at, all_members, released, IsColouring};

use crate::edited::EditedList;
use crate::limits::LISTS;
use crate::taken_colours::{candidates, next_candidate, set_colour_bits};
use crate::{ConstraintId, Member, Movers};
use fixed_geom::Refusal;
use std::alloc::Global;

/// As many lists as there are, with no members.
pub(crate) fn no_lists<C: ConstraintId>(alloc: Global) -> Result<Vec<EditedList<C>>, Refusal>
    ensures lists { IfOk result (λ lists. lists_of lists.items ≡ replicate (COLOURS + 1) []) }
    ensures rest { IfOk result (λ lists. AreAtRest lists.items) }
    ensures memory_only { IsOkUnless result Refusal.NoMemory }
{
    let mut lists = Vec::new(alloc);
    for _made in 0..LISTS {
        lists.push(EditedList::new(alloc))?;
    }
    Ok(lists)
}

/// Copies of the lists.
pub(crate) fn copies<C: ConstraintId>(
    alloc: Global,
    lists: &[EditedList<C>],
) -> Result<Vec<EditedList<C>>, Refusal>
    ensures lists { IfOk result (λ copied. lists_of copied.items ≡ lists_of lists.now) }
    ensures rest { IfOk result (λ copied. AreAtRest copied.items) }
    ensures memory_only { IsOkUnless result Refusal.NoMemory }
{
    let mut copied = Vec::new(alloc);
    for place in 0..lists.len() {
        copied.push(lists[place].try_copy(alloc)?)?;
    }
    Ok(copied)
}

/// Makes room in each list for that many members in all.
pub(crate) fn reserve_all<C: ConstraintId>(
    lists: &mut Vec<EditedList<C>>,
    constraints: usize,
) -> Result<(), Refusal>
    ensures made { OnOk result (HaveRoom constraints lists.new.items) }
    ensures kept { (room : ℕ) → HaveRoom room lists.old.items → HaveRoom room lists.new.items }
    ensures lists { lists_of lists.new.items ≡ lists_of lists.old.items }
    ensures rest { AreAtRest lists.old.items → AreAtRest lists.new.items }
    ensures memory_only { IsOkUnless result Refusal.NoMemory }
{
    for place in 0..lists.len() {
        lists[place].reserve(constraints)?;
    }
    Ok(())
}

/// Makes the edits of all lists that were put off.
pub(crate) fn flush_all<C: ConstraintId>(lists: &mut Vec<EditedList<C>>, spare: &mut Vec<Member<C>>)
    ensures lists { lists_of lists.new.items ≡ lists_of lists.old.items }
    ensures kept { (room : ℕ) → HaveRoom room lists.old.items → HaveRoom room lists.new.items }
    ensures rest { AreAtRest lists.new.items }
{
    for place in 0..lists.len() {
        lists[place].flush(spare);
    }
}

/// The place of the first list that has the id, or their number.
pub(crate) fn first_with<C: ConstraintId>(lists: &[EditedList<C>], id: C) -> usize
    ensures { result ≡ position_or_len (λ list. has_id C.number id list.items) lists.now }
{
    for (place, list) in lists.iter().enumerate() {
        if list.has_id(id) {
            return place;
        }
    }
    lists.len()
}

/// Takes the id, and the bits of its movers, out of the list at a place. Answers whether the id was there.
fn remove_at<C: ConstraintId>(
    lists: &mut Vec<EditedList<C>>,
    words: &mut Vec<u32>,
    place: usize,
    id: C,
    spare: &mut Vec<Member<C>>,
) -> bool
    requires place { place < length lists.old.items }
    requires colouring { IsColouring C.number (lists_of lists.old.items) }
    requires bits { AreTakenColours (lists_of lists.old.items) words.old.items }
    ensures value { result ≡ has_id C.number id (list_at (lists_of lists.old.items) place) }
    ensures lists { lists_of lists.new.items ≡ slice_set (lists_of lists.old.items) place (without_member C.number id (list_at (lists_of lists.old.items) place)) }
    ensures bits { AreTakenColours (lists_of lists.new.items) words.new.items }
    ensures long { length words.new.items ≡ length words.old.items }
    ensures kept { (room : ℕ) → HaveRoom room lists.old.items → HaveRoom room lists.new.items }
{
    let Some(movers) = lists[place].remove(id, spare) else {
        return false;
    };
    set_colour_bits(words, place, movers, false);
    true
}

/// Takes the id, and the bits of its movers, out of the first list that has it, and touches no other: an id stands in
/// one at most. Where its movers are told, only the overflow and the colours that all of them have are looked at.
/// Answers how many members went.
pub(crate) fn remove_from_first<C: ConstraintId>(
    lists: &mut Vec<EditedList<C>>,
    words: &mut Vec<u32>,
    id: C,
    movers: Option<Movers>,
    spare: &mut Vec<Member<C>>,
) -> usize
    requires colouring { IsColouring C.number (lists_of lists.old.items) }
    requires bits { AreTakenColours (lists_of lists.old.items) words.old.items }
    requires own { AreOwn C.number id movers (all_members (lists_of lists.old.items)) }
    ensures gone { result ≡ count_by (λ m. C.number m.id == C.number id) (all_members (lists_of lists.old.items)) }
    ensures lists { lists_of lists.new.items ≡ released C.number id (lists_of lists.old.items) }
    ensures bits { AreTakenColours (lists_of lists.new.items) words.new.items }
    ensures long { length words.new.items ≡ length words.old.items }
    ensures kept { (room : ℕ) → HaveRoom room lists.old.items → HaveRoom room lists.new.items }
{
    let candidates = candidates(words, movers);
    let mut place = next_candidate(candidates, 0);
    while place < lists.len() {
        if remove_at(lists, words, place, id, spare) {
            return 1;
        }
        place = next_candidate(candidates, place + 1);
    }
    0
}
