//! The book of momentum: sums by cause, and what settling leaves.

use crate::assertions::{same, same_items};
use fixed_geom::Refusal;
use impulse_ledger::*;
use std::alloc::Global;
use std::test::Fail;

const PUSHED: Entry = Entry {
    call: 1,
    cause: Cause::Command,
    x: 5,
    y: -7,
};

const FELL: Entry = Entry {
    call: 2,
    cause: Cause::Gravity,
    x: 0,
    y: -100,
};

const LEFT: Entry = Entry {
    call: 3,
    cause: Cause::Departed,
    x: -5,
    y: 107,
};

fn total(x: i128, y: i128) -> Total {
    Total { x, y }
}

/// A book of three entries, and what it was when it had one.
#[derive(Drop)]
struct Books {
    before: Ledger,
    ledger: Ledger,
}

fn booked(alloc: Global) -> Result<Books, Refusal> {
    let mut ledger = Ledger::new(alloc);
    ledger.post(PUSHED)?;
    let before = ledger.try_copy()?;
    ledger.reserve(2)?;
    ledger.post_reserved(FELL);
    ledger.post_reserved(LEFT);
    Ok(Books { before, ledger })
}

/// A book with one entry, which is settled.
fn settled(alloc: Global) -> Result<Ledger, Refusal> {
    let mut ledger = Ledger::new(alloc);
    ledger.post(PUSHED)?;
    ledger.settle();
    Ok(ledger)
}

/// A book with an entry that is settled, and one since.
fn booked_since(alloc: Global) -> Result<Ledger, Refusal> {
    let mut ledger = Ledger::new(alloc);
    ledger.post(PUSHED)?;
    ledger.settle();
    ledger.post(FELL)?;
    Ok(ledger)
}

/// The sums of a book: those of the causes that are booked and of one that isn't, and the total.
fn sums(ledger: &Ledger) -> [Total; 5] {
    [
        ledger.total_of(Cause::Command),
        ledger.total_of(Cause::Gravity),
        ledger.total_of(Cause::Departed),
        ledger.total_of(Cause::Rest),
        ledger.total(),
    ]
}

/// How many entries a book has, the first of them, and its sums.
fn told(made: Result<Ledger, Refusal>) -> Result<(usize, Option<Entry>, [Total; 5]), Refusal> {
    match made {
        Ok(ledger) => {
            let entries = ledger.entries();
            Ok((entries.len(), entries.first().copied(), sums(&ledger)))
        }
        Err(refusal) => Err(refusal),
    }
}

/// Settled entries stay in the sums.
#[test]
fn sums_what_is_booked_by_cause(rt: HostRuntime) -> Result<(), Fail> {
    let Books { before, ledger } = &booked(rt.alloc())?;
    let (push, fall, none) = (total(5, -7), total(0, -100), total(0, 0));
    same_items(&rt, ledger.entries(), &[PUSHED, FELL, LEFT]);
    same(
        &rt,
        &sums(ledger),
        &[push, fall, total(-5, 107), none, none],
    );
    same_items(&rt, before.entries(), &[PUSHED]);
    same(&rt, &sums(before), &[push, none, none, none, push]);
    let one_is_settled = told(settled(rt.alloc()));
    let settled_sums = [push, none, none, none, push];
    same(&rt, &one_is_settled, &Ok((0, None, settled_sums)));
    let one_came_since = told(booked_since(rt.alloc()));
    let sums_since = [push, fall, none, none, total(5, -107)];
    same(&rt, &one_came_since, &Ok((1, Some(FELL), sums_since)));
    Ok(())
}
