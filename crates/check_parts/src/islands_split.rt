//! Worked by hand: four movers, a split, a sleep and a copy.

use crate::assertions::{same, same_items};
use fixed_geom::Refusal;
use islands::{Islands, SplitScratch};
use std::alloc::Global;
use std::process::Abort;
use std::test::Fail;

/// Adds a mover where there is none yet, after making room for it.
pub(crate) fn add(islands: &mut Islands, slot: u32) -> Result<(), Refusal> {
    islands.reserve(slot as usize + 1)?;
    if islands.label_of(slot).is_some() {
        return Err(Refusal::OutOfRange);
    }
    islands.add(slot);
    Ok(())
}

/// Merges the islands of two movers that are there.
pub(crate) fn merge(islands: &mut Islands, a: u32, b: u32) -> Result<(), Refusal> {
    if islands.label_of(a).is_none() {
        return Err(Refusal::OutOfRange);
    }
    if islands.label_of(b).is_none() {
        return Err(Refusal::OutOfRange);
    }
    islands.merge(a, b);
    Ok(())
}

/// Makes the island of a mover loose, if there is one.
fn loosen(islands: &mut Islands, slot: u32) -> Result<(), Refusal> {
    if islands.label_of(slot).is_none() {
        return Err(Refusal::OutOfRange);
    }
    islands.loosen(slot);
    Ok(())
}

/// Takes a mover out, if there is one.
fn take_out(islands: &mut Islands, slot: u32) -> Result<(), Refusal> {
    if islands.label_of(slot).is_none() {
        return Err(Refusal::OutOfRange);
    }
    islands.take_out(slot);
    Ok(())
}

fn is_loose(islands: &Islands, slot: u32) -> Option<bool> {
    if islands.label_of(slot).is_none() {
        return None;
    }
    Some(islands.is_loose(slot))
}

fn is_asleep(islands: &Islands, slot: u32) -> Option<bool> {
    if islands.label_of(slot).is_none() {
        return None;
    }
    Some(islands.is_asleep(slot))
}

/// Splits an island by the one link between two of its movers.
fn split_by_one_link(
    alloc: Global,
    islands: &mut Islands,
    name: u32,
    a: u32,
    b: u32,
) -> Result<(), Refusal> {
    let mut scratch = SplitScratch::new(alloc);
    scratch.reserve(islands.slots(), 1)?;
    if islands.name_of(a) != Some(name) {
        return Err(Refusal::OutOfRange);
    }
    if islands.name_of(b) != Some(name) {
        return Err(Refusal::OutOfRange);
    }
    islands.split(name, &[(a, b)], &mut scratch);
    Ok(())
}

/// Puts an island to rest, or wakes it, if there is one of this name.
fn sleep(islands: &mut Islands, name: u32, rests: bool) -> Result<(), Refusal> {
    if islands.name_of(name) != Some(name) {
        return Err(Refusal::OutOfRange);
    }
    if rests {
        islands.rest(name);
    } else {
        islands.wake(name);
    }
    Ok(())
}

/// Two islands of two movers each: 0 and 1, 2 and 3.
fn two_pairs(alloc: Global) -> Result<Islands, Refusal> {
    let mut islands = Islands::new(alloc);
    for slot in 0..4 {
        add(&mut islands, slot)?;
    }
    merge(&mut islands, 1, 0)?;
    merge(&mut islands, 2, 3)?;
    Ok(islands)
}

/// Ends the test where these aren't the movers of an island.
fn expect_members(rt: &impl Abort, islands: &Islands, name: u32, wanted: &[u32]) {
    match islands.members(name) {
        Ok(members) => same_items(rt, &members, wanted),
        Err(refusal) => same(rt, &Some(refusal), &None),
    }
}

#[test]
fn merges_under_the_lesser_name(rt: HostRuntime) -> Result<(), Fail> {
    let mut islands = two_pairs(rt.alloc())?;
    same(&rt, &islands.slots(), &4);
    let names = [islands.name_of(1), islands.name_of(3), islands.name_of(4)];
    same(&rt, &names, &[Some(0), Some(2), None]);
    same(&rt, &loosen(&mut islands, 3), &Ok(()));
    let loose = [is_loose(&islands, 2), is_loose(&islands, 0)];
    same(&rt, &loose, &[Some(true), Some(false)]);
    same(&rt, &merge(&mut islands, 3, 1), &Ok(()));
    expect_members(&rt, &islands, 0, &[0, 1, 2, 3]);
    same(&rt, &is_loose(&islands, 1), &Some(true));
    Ok(())
}

/// The two pairs in one island, and a copy from before.
fn merged_and_copied(alloc: Global) -> Result<[Islands; 2], Refusal> {
    let mut islands = two_pairs(alloc)?;
    let before = islands.try_copy()?;
    merge(&mut islands, 3, 1)?;
    Ok([islands, before])
}

#[test]
fn a_copy_keeps_its_islands(rt: HostRuntime) -> Result<(), Fail> {
    let [islands, before] = &merged_and_copied(rt.alloc())?;
    expect_members(&rt, islands, 0, &[0, 1, 2, 3]);
    expect_members(&rt, before, 2, &[2, 3]);
    Ok(())
}

/// The two pairs in one island, which has lost its lowest mover.
fn merged_without_one(alloc: Global) -> Result<Islands, Refusal> {
    let mut islands = two_pairs(alloc)?;
    merge(&mut islands, 0, 3)?;
    take_out(&mut islands, 0)?;
    Ok(islands)
}

#[test]
fn splits_after_the_lowest_mover_went(rt: HostRuntime) -> Result<(), Fail> {
    let mut islands = merged_without_one(rt.alloc())?;
    expect_members(&rt, &islands, 1, &[1, 2, 3]);
    same(&rt, &is_loose(&islands, 3), &Some(true));
    let split = split_by_one_link(rt.alloc(), &mut islands, 1, 3, 2);
    same(&rt, &split, &Ok(()));
    expect_members(&rt, &islands, 1, &[1]);
    expect_members(&rt, &islands, 2, &[2, 3]);
    same(&rt, &is_loose(&islands, 3), &Some(false));
    same(&rt, &sleep(&mut islands, 2, true), &Ok(()));
    let asleep = [is_asleep(&islands, 3), is_asleep(&islands, 1)];
    same(&rt, &asleep, &[Some(true), Some(false)]);
    same(&rt, &sleep(&mut islands, 2, false), &Ok(()));
    same(&rt, &is_asleep(&islands, 3), &Some(false));
    Ok(())
}
