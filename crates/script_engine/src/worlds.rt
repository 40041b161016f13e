//! The world of a script, who makes its steps, and the copies of it that a script keeps.

use crate::calls::{copy_of_world, new_world};
use fixed_geom::Refusal;
use std::alloc::Global;
use std::collections::BTreeMap;
use world_core::WorldCore;

/// How many worlds may be kept: their numbers are from 0 up to below it.
const MOST_KEPT: i64 = 16;

/// The world of a script, who makes its steps, and the kept worlds by number.
#[derive(Drop)]
pub(crate) struct Worlds<'w, T> {
    pub world: WorldCore,
    pub stepper: &'w mut T,
    kept: BTreeMap<i64, WorldCore>,
}

/// Keeps a value under a number, in place of what was kept there. It goes by any value, as the next function does: what
/// a world drops is no question here.
fn keep_under<T: Drop>(kept: &mut BTreeMap<i64, T>, number: i64, value: T) -> Result<(), Refusal> {
    kept.insert(number, value)?;
    Ok(())
}

/// Puts a value in place of another one.
fn put_in_place<T: Drop>(place: &mut T, value: T) {
    *place = value;
}

/// Refused 5 where no world may be kept under a number.
fn check_number(number: i64) -> Result<(), Refusal> {
    if 0 <= number && number < MOST_KEPT {
        Ok(())
    } else {
        Err(Refusal::OutOfRange)
    }
}

/// The value under a number. Refused 2 where there is none.
fn kept_under<T>(kept: &BTreeMap<i64, T>, number: i64) -> Result<&T, Refusal> {
    match kept.get(&number) {
        Some(value) => Ok(value),
        None => Err(Refusal::StaleHandle),
    }
}

impl<'w, T> Worlds<'w, T> {
    /// An empty world without gravity, and no kept one.
    pub fn new(alloc: Global, stepper: &'w mut T) -> Result<Worlds<'w, T>, Refusal> {
        let world = new_world(alloc)?;
        Ok(Worlds {
            world,
            stepper,
            kept: BTreeMap::new(alloc),
        })
    }

    /// Keeps a copy of the world under a number, in place of what was kept there. Refused 5 where the number isn't one
    /// of a kept world, and 1 where memory is wanting; what was kept stays then.
    pub fn keep(&mut self, number: i64) -> Result<(), Refusal> {
        check_number(number)?;
        keep_under(&mut self.kept, number, copy_of_world(&self.world)?)
    }

    /// Puts a copy of a kept world in place of the world. Refused 5 where the number isn't one of a kept world, 2 where
    /// no world was kept under it, and 1 where memory is wanting; the world stays then.
    pub fn back(&mut self, number: i64) -> Result<(), Refusal> {
        check_number(number)?;
        let copied = copy_of_world(kept_under(&self.kept, number)?)?;
        put_in_place(&mut self.world, copied);
        Ok(())
    }
}
