//! Where the contacts of each body begin in a list of them: hints for a search, of which nothing is promised.

ghost use Rattle.std.specs.Result.{IsOkUnless};

use crate::{ContactEntry, ContactKey};
use fixed_geom::Refusal;
use std::alloc::Global;

/// By slot the place of the first contact whose first body is in that slot or a later one.
#[derive(Drop)]
pub(crate) struct Begins {
    places: Vec<usize>,
}

/// How many slots there are up to that of the last contact's first body.
fn slots_of(entries: &[ContactEntry]) -> usize {
    match entries.last() {
        None => 0,
        Some(entry) => entry.key.first.slot as usize + 1,
    }
}

/// Adds a place for each slot that has none yet, of so many.
#[inline(always)]
fn fill_up(places: &mut Vec<usize>, slots: usize, place: usize) -> Result<(), Refusal>
    ensures memory_only { IsOkUnless result Refusal.NoMemory }
{
    for _ in places.len()..slots {
        places.push(place)?;
    }
    Ok(())
}

impl Begins {
    /// Those of an empty list.
    pub fn new(alloc: Global) -> Begins {
        Begins {
            places: Vec::new(alloc),
        }
    }

    /// Those of a list that ascends by key.
    pub fn of(alloc: Global, entries: &[ContactEntry]) -> Result<Begins, Refusal>
        ensures memory_only { IsOkUnless result Refusal.NoMemory }
    {
        let mut places = Vec::with_capacity(alloc, slots_of(entries))?;
        for place in 0..entries.len() {
            let slot = entries[place].key.first.slot as usize;
            fill_up(&mut places, slot + 1, place)?;
        }
        Ok(Begins { places })
    }

    /// The place where a search for a contact may begin.
    #[inline(always)]
    pub fn place_for(&self, key: ContactKey) -> usize {
        match self.places.get(key.first.slot as usize) {
            Some(place) => *place,
            None => 0,
        }
    }
}
