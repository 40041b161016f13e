//! Where each id stands, by its number.

ghost use Rattle.std.specs.Prelude.{◌≡◌, ◌<◌, ◌≤◌, ◌^◌, ℕ, length, map, slice_get, Some, OnErr, OnOk};
ghost use Rattle.std.specs.Result.{IsOkUnless};
ghost use Rattle.packed_sets.specs.Notes.{spot_of, renoted, AreRenoted};

use crate::ItemId;
use fixed_geom::Refusal;

/// Where an id stands: the number of its set, and its place in that one's list.
#[derive(Clone, Copy)]
pub(crate) struct Spot {
    pub(crate) set: u32,
    pub(crate) place: u32,
}

/// The spot of the id of a number; `None` where it is in no set.
pub(crate) fn spot_of(spots: &[Option<Spot>], id: u32) -> Option<Spot>
    ensures { result ≡ spot_of spots.now id }
{
    match spots.get(id as usize) {
        Some(spot) => *spot,
        None => None,
    }
}

/// Makes a note for each id whose number is below a bound.
pub(crate) fn grow_spots(spots: &mut Vec<Option<Spot>>, ids: usize) -> Result<(), Refusal>
    ensures made { OnOk result (ids ≤ length spots.new.items) }
    ensures more { length spots.old.items ≤ length spots.new.items }
    ensures same { (id : ℕ) → spot_of spots.new.items id ≡ spot_of spots.old.items id }
    ensures refused { OnErr result (spots.new.items ≡ spots.old.items) }
    ensures memory_only { IsOkUnless result Refusal.NoMemory }
{
    spots.resize(ids.max(spots.len()), None)?;
    Ok(())
}

/// The number of the id at a place, if one is there.
pub(crate) fn number_at<I: ItemId>(list: &[I], place: u32) -> Option<u32>
    ensures { result ≡ slice_get (map I.number list.now) place }
{
    match list.get(place as usize) {
        Some(id) => Some(id.number()),
        None => None,
    }
}

/// Notes the spot of the id of this number, if there is one.
pub(crate) fn note_moved(spots: &mut Vec<Option<Spot>>, moved: Option<u32>, spot: Spot)
    requires { (id : ℕ) → moved ≡ Some id → id < length spots.old.items }
    ensures { spots.new.items ≡ renoted moved spot spots.old.items }
{
    if let Some(moved) = moved {
        spots[moved as usize] = Some(spot);
    }
}

/// Notes the spots of all ids of a list, each once in it, which are those of one set.
pub(crate) fn note_all<I: ItemId>(spots: &mut Vec<Option<Spot>>, list: &[I], set: u32)
    requires noted { (id place : ℕ) → slice_get (map I.number list.now) place ≡ Some id → id < length spots.old.items }
    requires once { (p q id : ℕ) → slice_get (map I.number list.now) p ≡ Some id → slice_get (map I.number list.now) q ≡ Some id → p ≡ q }
    requires short { length list.now ≤ 2 ^ 32 }
    ensures { AreRenoted (map I.number list.now) set spots.old.items spots.new.items }
{
    for place in 0..list.len() {
        spots[list[place].number() as usize] = Some(Spot {
            set,
            place: place as u32,
        });
    }
}
