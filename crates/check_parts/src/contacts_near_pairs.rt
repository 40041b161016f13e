//! Which shapes are near one another: by their boxes, and by their filters.

use crate::assertions::same_items;
use crate::contacts_scenes::{BALL, add, proxy_of};
use contacts::*;
use contacts_base::Proxy;
use fixed_geom::Refusal;
use shapes::Filter;
use std::alloc::Global;
use std::default::Default;
use std::test::Fail;

/// Five balls, whose fat boxes are 327,680 u wide: the third begins where the second and the fourth end.
fn balls(alloc: Global) -> Result<PairSweep, Refusal> {
    let mut broad = PairSweep::new(alloc);
    for (slot, x, y) in [
        (0, 0, 900_000),
        (1, 0, 0),
        (2, 327_680, 0),
        (3, 0, 300_000),
        (4, 655_361, 0),
    ] {
        add(&mut broad, proxy_of(slot, BALL, x, y, true)?)?;
    }
    Ok(broad)
}

fn near(alloc: Global, broad: &mut PairSweep) -> Result<Vec<u64>, Refusal> {
    broad.near_pairs(alloc)
}

#[test]
fn boxes_that_touch_are_near(rt: HostRuntime) -> Result<(), Fail> {
    let mut broad = balls(rt.alloc())?;
    let pairs = [(1 << 32) + 2, (1 << 32) + 3, (2 << 32) + 3];
    same_items(&rt, &near(rt.alloc(), &mut broad)?, &pairs);
    let mut copied = broad.try_copy()?;
    broad.clear();
    same_items(&rt, &near(rt.alloc(), &mut broad)?, &[]);
    same_items(&rt, &near(rt.alloc(), &mut copied)?, &pairs);
    Ok(())
}

/// Six balls in one place, with these filters.
fn filtered(alloc: Global, filters: [Filter; 6]) -> Result<PairSweep, Refusal> {
    let mut broad = PairSweep::new(alloc);
    let mut slot = 0;
    for filter in filters {
        let proxy = proxy_of(slot, BALL, 0, 0, true)?;
        add(&mut broad, Proxy { filter, ..proxy })?;
        slot = slot.saturating_add(1);
    }
    Ok(broad)
}

#[test]
fn filters_and_groups_decide(rt: HostRuntime) -> Result<(), Fail> {
    let plain = Filter::default();
    let masked = Filter { mask: 2, ..plain };
    let apart = Filter { group: -1, ..plain };
    let together = Filter { group: 1, ..masked };
    let filters = [plain, masked, apart, apart, together, together];
    let mut broad = filtered(rt.alloc(), filters)?;
    same_items(&rt, &near(rt.alloc(), &mut broad)?, &[2, 3, (4 << 32) + 5]);
    Ok(())
}
