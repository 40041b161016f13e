//! Ids go into lists and out of them, and the notes of where they stand follow.

ghost use Rattle.std.specs.Prelude.{◌≡◌, ◌∷◌, ◌++◌, ◌+◌, ◌<◌, ◌≤◌, [], ℕ, OnErr, OnOk, IfOk, map, length, slice_get, slice_set, vec_capacity, vec_len, Contains, Some};
ghost use Rattle.std.specs.Result.{IsOkUnless};
ghost use Rattle.std.specs.List.{swap_remove};
ghost use Rattle.packed_sets.specs.Packs.{list_at, capacity_at, HaveAtLeast, IsAbsent, IsPut, IsTaken, IsShifted};
ghost use Rattle.packed_sets.specs.Notes.{numbers_of, IsKept, IsSwappedOut, IsOut, renoted};

use crate::ItemId;
use crate::sets::MAX_SETS;
use crate::spots::{Spot, note_all, note_moved, number_at, spot_of};
use fixed_geom::Refusal;
use std::alloc::Global;

// ---- lists

/// Adds a list, with no ids, for which there is room.
fn push_list<I: ItemId>(lists: &mut Vec<Vec<I>>, alloc: Global)
    requires { vec_len lists.old < vec_capacity lists.old }
    ensures lists { map (λ v. v.items) lists.new.items ≡ map (λ v. v.items) lists.old.items ++ [] ∷ [] }
    ensures len { vec_len lists.new ≡ vec_len lists.old + 1 }
    ensures capacity { vec_capacity lists.old ≤ vec_capacity lists.new }
    ensures capacities { HaveAtLeast (map vec_capacity lists.old.items) (map vec_capacity lists.new.items) }
{
    let _ = lists.push(Vec::new(alloc));
}

/// Adds lists, with no ids, until there are so many, for which there is room.
pub(crate) fn push_lists<I: ItemId>(lists: &mut Vec<Vec<I>>, alloc: Global, sets: usize)
    requires { sets ≤ vec_capacity lists.old }
    ensures made { sets ≤ length lists.new.items }
    ensures more { length lists.old.items ≤ length lists.new.items }
    ensures same { (set : ℕ) → list_at (map (λ v. v.items) lists.new.items) set ≡ list_at (map (λ v. v.items) lists.old.items) set }
    ensures capacities { HaveAtLeast (map vec_capacity lists.old.items) (map vec_capacity lists.new.items) }
{
    while lists.len() < sets {
        push_list(lists, alloc);
    }
}

/// Adds a list, with no ids, and answers the number of its set. Refused 1 where memory is wanting, or there are
/// [`MAX_SETS`].
pub(crate) fn add_list<I: ItemId>(lists: &mut Vec<Vec<I>>) -> Result<u32, Refusal>
    ensures number { IfOk result (λ set. set ≡ length lists.old.items) }
    ensures lists { OnOk result (map (λ v. v.items) lists.new.items ≡ map (λ v. v.items) lists.old.items ++ [] ∷ []) }
    ensures same { (set : ℕ) → list_at (map (λ v. v.items) lists.new.items) set ≡ list_at (map (λ v. v.items) lists.old.items) set }
    ensures refused { OnErr result (lists.new.items ≡ lists.old.items) }
    ensures capacities { HaveAtLeast (map vec_capacity lists.old.items) (map vec_capacity lists.new.items) }
    ensures memory_only { IsOkUnless result Refusal.NoMemory }
{
    let set = lists.len();
    if set >= MAX_SETS {
        return Err(Refusal::NoMemory);
    }
    let alloc = *lists.allocator();
    lists.reserve(1)?;
    push_list(lists, alloc);
    Ok(set as u32)
}

/// Makes room for that many more ids in a list.
pub(crate) fn reserve_list<I: ItemId>(
    lists: &mut Vec<Vec<I>>,
    set: usize,
    more: usize,
) -> Result<(), Refusal>
    requires { set < length lists.old.items }
    ensures made { OnOk result (length (list_at (map (λ v. v.items) lists.new.items) set) + more ≤ capacity_at (map vec_capacity lists.new.items) set) }
    ensures lists { map (λ v. v.items) lists.new.items ≡ map (λ v. v.items) lists.old.items }
    ensures capacities { HaveAtLeast (map vec_capacity lists.old.items) (map vec_capacity lists.new.items) }
    ensures memory_only { IsOkUnless result Refusal.NoMemory }
{
    lists[set].reserve(more)?;
    Ok(())
}

/// Takes a list out. The last one moves to its place.
fn swap_list<I: ItemId>(lists: &mut Vec<Vec<I>>, place: usize)
    requires { place < length lists.old.items }
    ensures lists { map (λ v. v.items) lists.new.items ≡ swap_remove (map (λ v. v.items) lists.old.items) place [] }
    ensures capacities { map vec_capacity lists.new.items ≡ swap_remove (map vec_capacity lists.old.items) place 0 }
{
    lists.swap_remove(place);
}

/// Takes the list of a set out, which has no ids. The last set takes its number, and the notes of its ids follow.
pub(crate) fn drop_list<I: ItemId>(lists: &mut Vec<Vec<I>>, spots: &mut Vec<Option<Spot>>, set: u32)
    requires set { set < length lists.old.items }
    requires empty { list_at (map (λ v. v.items) lists.old.items) set ≡ [] }
    requires kept { IsKept (numbers_of I.number (map (λ v. v.items) lists.old.items)) spots.old.items }
    ensures lists { map (λ v. v.items) lists.new.items ≡ swap_remove (map (λ v. v.items) lists.old.items) set [] }
    ensures capacities { map vec_capacity lists.new.items ≡ swap_remove (map vec_capacity lists.old.items) set 0 }
    ensures kept { IsKept (numbers_of I.number (map (λ v. v.items) lists.new.items)) spots.new.items }
    ensures noted { length spots.new.items ≡ length spots.old.items }
{
    swap_list(lists, set as usize);
    if let Some(list) = lists.get(set as usize) {
        note_all(spots, list.as_slice(), set);
    }
}

// ---- ids

/// Adds an id behind the others, for which there is room.
pub(crate) fn push_reserved<I: ItemId>(list: &mut Vec<I>, id: I)
    requires { vec_len list.old < vec_capacity list.old }
    ensures items { list.new.items ≡ list.old.items ++ id ∷ [] }
    ensures capacity { vec_capacity list.old ≤ vec_capacity list.new }
{
    let _ = list.push(id);
}

/// Puts an id into a set that has room for it, and notes where it stands.
pub(crate) fn put_in<I: ItemId>(
    lists: &mut Vec<Vec<I>>,
    spots: &mut Vec<Option<Spot>>,
    set: u32,
    id: I,
)
    requires set { set < length lists.old.items }
    requires space { length (list_at (map (λ v. v.items) lists.old.items) set) < capacity_at (map vec_capacity lists.old.items) set }
    requires noted { I.number id < length spots.old.items }
    requires kept { IsKept (numbers_of I.number (map (λ v. v.items) lists.old.items)) spots.old.items }
    requires absent { IsAbsent (map (λ v. v.items) lists.old.items) id }
    ensures kept { IsKept (numbers_of I.number (map (λ v. v.items) lists.new.items)) spots.new.items }
    ensures put { IsPut (map (λ v. v.items) lists.old.items) (map (λ v. v.items) lists.new.items) set id }
    ensures long { length (map (λ v. v.items) lists.new.items) ≡ length (map (λ v. v.items) lists.old.items) }
    ensures noted { length spots.new.items ≡ length spots.old.items }
    ensures capacities { HaveAtLeast (map vec_capacity lists.old.items) (map vec_capacity lists.new.items) }
{
    let number = id.number();
    let place = lists[set as usize].len() as u32;
    spots[number as usize] = Some(Spot { set, place });
    push_reserved(&mut lists[set as usize], id);
}

/// Takes the id at a place out of a list. The last one moves there.
pub(crate) fn swap_out<I: ItemId>(list: &mut Vec<I>, place: usize) -> I
    requires { place < length list.old.items }
    ensures swapped { IsSwappedOut list.old.items list.new.items place result }
    ensures capacity { vec_capacity list.new ≡ vec_capacity list.old }
{
    list.swap_remove(place)
}

/// Takes the id at a spot out. The last one of its list moves there, and is noted there.
fn take_out<I: ItemId>(lists: &mut Vec<Vec<I>>, spots: &mut Vec<Option<Spot>>, spot: Spot) -> I
    requires set { spot.set < length lists.old.items }
    requires place { spot.place < length (list_at (map (λ v. v.items) lists.old.items) spot.set) }
    requires kept { IsKept (numbers_of I.number (map (λ v. v.items) lists.old.items)) spots.old.items }
    ensures out { IsOut (map (λ v. v.items) lists.old.items) (map (λ v. v.items) lists.new.items) spot result }
    ensures spots { spots.new.items ≡ renoted (slice_get (map I.number (list_at (map (λ v. v.items) lists.new.items) spot.set)) spot.place) spot spots.old.items }
    ensures capacities { HaveAtLeast (map vec_capacity lists.old.items) (map vec_capacity lists.new.items) }
{
    let id = swap_out(&mut lists[spot.set as usize], spot.place as usize);
    let moved = number_at(lists[spot.set as usize].as_slice(), spot.place);
    note_moved(spots, moved, spot);
    id
}

/// Takes an id out of its set, if it is in one.
pub(crate) fn take_id<I: ItemId>(lists: &mut Vec<Vec<I>>, spots: &mut Vec<Option<Spot>>, id: I)
    requires { IsKept (numbers_of I.number (map (λ v. v.items) lists.old.items)) spots.old.items }
    ensures kept { IsKept (numbers_of I.number (map (λ v. v.items) lists.new.items)) spots.new.items }
    ensures taken { (set : ℕ) → Contains (list_at (map (λ v. v.items) lists.old.items) set) id → IsTaken (map (λ v. v.items) lists.old.items) (map (λ v. v.items) lists.new.items) set id }
    ensures absent { IsAbsent (map (λ v. v.items) lists.old.items) id → map (λ v. v.items) lists.new.items ≡ map (λ v. v.items) lists.old.items }
    ensures gone { IsAbsent (map (λ v. v.items) lists.new.items) id }
    ensures long { length (map (λ v. v.items) lists.new.items) ≡ length (map (λ v. v.items) lists.old.items) }
    ensures noted { length spots.new.items ≡ length spots.old.items }
    ensures capacities { HaveAtLeast (map vec_capacity lists.old.items) (map vec_capacity lists.new.items) }
{
    let number = id.number();
    if let Some(spot) = spot_of(spots, number) {
        take_out(lists, spots, spot);
        spots[number as usize] = None;
    }
}

/// Moves an id from its set to one that has room for it, if it is in one.
pub(crate) fn shift_id<I: ItemId>(
    lists: &mut Vec<Vec<I>>,
    spots: &mut Vec<Option<Spot>>,
    id: I,
    set: u32,
)
    requires set { set < length lists.old.items }
    requires space { length (list_at (map (λ v. v.items) lists.old.items) set) < capacity_at (map vec_capacity lists.old.items) set }
    requires kept { IsKept (numbers_of I.number (map (λ v. v.items) lists.old.items)) spots.old.items }
    ensures kept { IsKept (numbers_of I.number (map (λ v. v.items) lists.new.items)) spots.new.items }
    ensures shifted { (from : ℕ) → Contains (list_at (map (λ v. v.items) lists.old.items) from) id → IsShifted (map (λ v. v.items) lists.old.items) (map (λ v. v.items) lists.new.items) from set id }
    ensures absent { IsAbsent (map (λ v. v.items) lists.old.items) id → map (λ v. v.items) lists.new.items ≡ map (λ v. v.items) lists.old.items }
    ensures long { length (map (λ v. v.items) lists.new.items) ≡ length (map (λ v. v.items) lists.old.items) }
    ensures noted { length spots.new.items ≡ length spots.old.items }
    ensures capacities { HaveAtLeast (map vec_capacity lists.old.items) (map vec_capacity lists.new.items) }
{
    if spot_of(spots, id.number()).is_some() {
        take_id(lists, spots, id);
        put_in(lists, spots, set, id);
    }
}
