//! Maps by `crew` whose threads are started for one map: the answers stand in order, and all pieces do meet.

use crate::assertions::{same, same_items};
use crate::crew_gates::{Gathering, Holding, Sums};
use crew::{OpenGate, map_pieces};
use std::alloc::Global;
use std::process::Abort;
use std::sync::Wait;
use std::sync::atomic::AtomicU64;
use std::test::Fail;
use std::thread::Threads;

pub(crate) const ITEMS: [(u32, u32); 11] = [
    (3, 1),
    (1, 1),
    (4, 1),
    (1, 2),
    (5, 1),
    (9, 1),
    (2, 1),
    (6, 1),
    (5, 3),
    (3, 3),
    (5, 5),
];

pub(crate) const SUMS: [u64; 11] = [4, 2, 5, 3, 6, 10, 3, 7, 8, 6, 10];

/// Two items on two workers, where one piece waits for the other's item.
fn hold<R: Threads + Wait + Abort + Sync>(rt: &R, alloc: Global, piece: usize, item: u32) {
    let worked = AtomicU64::new(0);
    let gate = Holding::new(piece, item, &worked);
    let sums = Sums { worked: &worked };
    let answers = map_pieces(rt, alloc, &gate, &[(0u32, 5u32), (1, 6)], 2, &sums);
    let Ok(answers) = answers else {
        panic!(rt; "a map of two items")
    };
    same_items(rt, &answers, &[5, 7]);
    same(rt, &gate.late(), &0);
    same(rt, &gate.let_go(), &(1 << (item % 64)));
}

#[test]
fn maps_stand_in_order(rt: HostRuntime) -> Result<(), Fail> {
    let worked = AtomicU64::new(0);
    let sums = Sums { worked: &worked };
    for workers in [1usize, 2, 3, 64] {
        let answers = map_pieces(&rt, rt.alloc(), &OpenGate, &ITEMS, workers, &sums)?;
        same_items(&rt, &answers, &SUMS);
    }
    Ok(())
}

#[test]
fn pieces_run_at_once(rt: HostRuntime) -> Result<(), Fail> {
    hold(&rt, rt.alloc(), 1, 0);
    hold(&rt, rt.alloc(), 0, 1);
    Ok(())
}

#[test]
fn all_pieces_run_at_once(rt: HostRuntime) -> Result<(), Fail> {
    let worked = AtomicU64::new(0);
    let sums = Sums { worked: &worked };
    for workers in [3usize, 5] {
        let gate = Gathering::new(workers as u64);
        let answers = map_pieces(&rt, rt.alloc(), &gate, &ITEMS, workers, &sums)?;
        same_items(&rt, &answers, &SUMS);
        same(&rt, &gate.has_seen(1), &true);
        let answers = map_pieces(&rt, rt.alloc(), &gate, &[], workers, &sums)?;
        same_items(&rt, &answers, &[]);
        same(&rt, &gate.has_seen(1), &true);
    }
    Ok(())
}
