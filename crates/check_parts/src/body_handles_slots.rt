//! Handles: freed slots are given out again, and none beyond the limit.

use crate::assertions::same;
use body_handles::*;
use fixed_geom::Refusal;
use std::alloc::Global;
use std::test::Fail;

fn handle(slot: u32, generation: u32) -> Handle {
    Handle { slot, generation }
}

/// Gives a slot out, after making room for it.
pub(crate) fn give(handles: &mut Handles) -> Result<Handle, Refusal> {
    handles.reserve_one()?;
    handles.insert()
}

/// Gives out so many slots.
fn given(alloc: Global, count: usize) -> Result<Handles, Refusal> {
    let mut handles = Handles::new(alloc);
    for _ in 0..count {
        if handles.is_full() {
            return Err(Refusal::TooMany);
        }
        give(&mut handles)?;
    }
    Ok(handles)
}

/// Takes a slot back, if it is given out.
fn take(handles: &mut Handles, handle: Handle) {
    if handles.is_live(handle) {
        handles.remove(handle);
    }
}

const SECOND: Handle = Handle {
    slot: 1,
    generation: 1,
};

#[test]
fn gives_a_freed_slot_out_at_its_next_generation(rt: HostRuntime) -> Result<(), Fail> {
    let mut handles = given(rt.alloc(), 2)?;
    same(&rt, &give(&mut handles), &Ok(handle(2, 1)));
    same(&rt, &handles.is_live(SECOND), &true);
    take(&mut handles, SECOND);
    same(&rt, &handles.is_live(SECOND), &false);
    same(&rt, &handles.slots(), &3);
    same(&rt, &give(&mut handles), &Ok(handle(1, 2)));
    same(&rt, &give(&mut handles), &Ok(handle(3, 1)));
    same(&rt, &handles.is_live(SECOND), &false);
    same(&rt, &handles.slot_entries().len(), &4);
    Ok(())
}

/// Three slots of which the second was taken back, and a copy of before.
fn taken_and_copied(alloc: Global) -> Result<[Handles; 2], Refusal> {
    let mut handles = given(alloc, 3)?;
    let before = handles.try_copy()?;
    take(&mut handles, SECOND);
    Ok([handles, before])
}

#[test]
fn a_copy_stays_as_it_was(rt: HostRuntime) -> Result<(), Fail> {
    let mut pair = taken_and_copied(rt.alloc())?;
    let are_live = [pair[0].is_live(SECOND), pair[1].is_live(SECOND)];
    same(&rt, &are_live, &[false, true]);
    same(&rt, &give(&mut pair[0]), &Ok(handle(1, 2)));
    same(&rt, &pair[1].slots(), &3);
    Ok(())
}

#[test]
fn gives_out_every_slot_below_the_limit(rt: HostRuntime) -> Result<(), Fail> {
    let mut handles = given(rt.alloc(), MAX_SLOTS - 1)?;
    let last = handle(65_535, 1);
    same(&rt, &handles.is_full(), &false);
    same(&rt, &give(&mut handles), &Ok(last));
    same(&rt, &handles.is_full(), &true);
    same(&rt, &give(&mut handles), &Err(Refusal::TooMany));
    take(&mut handles, last);
    same(&rt, &give(&mut handles), &Ok(handle(65_535, 2)));
    Ok(())
}
