//! What is made of lists, as a saved world has them: handles, islands, bodies, joints and sums.

ghost use Rattle.std.specs.Prelude.{◌≡◌, IfOk, None};

use crate::assertions::{same, same_items};
use crate::body_handles_slots::give;
use crate::islands_split::{add, merge};
use body_handles::*;
use box_tree::BoxTree;
use contacts::ForbiddenPairs;
use fixed_geom::{Refusal, Rot, Vec2, ZERO_VECTOR};
use impulse_ledger::*;
use islands::{Islands, Label};
use joint_rows::Joint;
use momenta::{BodyState, MassData, Motion};
use plain_world::{Body, BodyJoint, FatBoxes, Kind};
use shapes::Shapes;
use std::alloc::Global;
use std::process::Abort;
use std::test::Fail;
use world_core_base::{BodyTable, JointTable};

const NONE: Total = Total { x: 0, y: 0 };

const SLOT_ENTRIES: [SlotEntry; 2] = [
    SlotEntry {
        generation: 2,
        live: true,
    },
    SlotEntry {
        generation: 5,
        live: false,
    },
];

fn handles_of_slot_entries(alloc: Global) -> Result<Handles, Refusal> {
    Handles::from_slot_entries(alloc, SLOT_ENTRIES.as_slice())
}

#[test]
fn given_slot_entries_give_the_lowest_free_slot_out_first(rt: HostRuntime) -> Result<(), Fail> {
    let mut handles = handles_of_slot_entries(rt.alloc())?;
    same_items(&rt, handles.slot_entries(), &SLOT_ENTRIES);
    let second = Handle {
        slot: 1,
        generation: 5,
    };
    same(&rt, &give(&mut handles), &Ok(second));
    Ok(())
}

const JOINT: BodyJoint = BodyJoint {
    a: 2,
    b: 1,
    collide: false,
    joint: Joint {
        from: ZERO_VECTOR,
        to: Vec2 { x: 1, y: 0 },
        length: 65_536,
        impulse: 7,
    },
};

const JOINTS: [Option<BodyJoint>; 3] = [None, Some(JOINT), None];

fn table_of_joints(alloc: Global) -> Result<JointTable, Refusal> {
    JointTable::from_joints(alloc, JOINTS.as_slice())
}

#[test]
fn a_table_has_the_joints_that_it_is_given(rt: HostRuntime) -> Result<(), Fail> {
    let table = table_of_joints(rt.alloc())?;
    same_items(&rt, table.joints(), &JOINTS);
    let forbidden = [
        table.forbids(1, 2),
        table.forbids(2, 1),
        table.forbids(1, 3),
    ];
    same(&rt, &forbidden, &[true, true, false]);
    Ok(())
}

const SETTLED: Totals = Totals {
    command: Total { x: 5, y: -7 },
    gravity: Total { x: 0, y: -100 },
    immovable: NONE,
    clamp: NONE,
    rest: NONE,
    departed: Total { x: -5, y: 107 },
};

fn ledger_of_totals(alloc: Global) -> Ledger {
    Ledger::from_totals(alloc, SETTLED)
}

#[test]
fn a_ledger_has_the_sums_that_it_is_given(rt: HostRuntime) {
    let ledger = ledger_of_totals(rt.alloc());
    same_items(&rt, ledger.entries(), &[]);
    same(&rt, &ledger.total(), &NONE);
    same(&rt, &ledger.total_of(Cause::Gravity), &SETTLED.gravity);
}

/// Four movers, of which the first and the last are in one loose island.
fn an_island_and_two(alloc: Global) -> Result<Islands, Refusal> {
    let mut islands = Islands::new(alloc);
    for slot in 0..4 {
        add(&mut islands, slot)?;
    }
    merge(&mut islands, 0, 3)?;
    Ok(islands)
}

/// The islands made anew of their labels.
fn made_anew(alloc: Global, islands: &Islands) -> Result<Islands, Refusal> {
    let labels = islands.list_labels()?;
    if labels.len() > 4 {
        return Err(Refusal::OutOfRange);
    }
    let _ = islands.label_of(0);
    Islands::from_labels(alloc, &labels)
}

/// The labels of the four movers.
fn labels(islands: &Islands) -> [Option<Label>; 4] {
    [
        islands.label_of(0),
        islands.label_of(1),
        islands.label_of(2),
        islands.label_of(3),
    ]
}

#[test]
fn islands_have_the_labels_that_they_are_given(rt: HostRuntime) -> Result<(), Fail> {
    let islands = an_island_and_two(rt.alloc())?;
    let made = made_anew(rt.alloc(), &islands)?;
    same(&rt, &made.slots(), &4);
    same(&rt, &labels(&made), &labels(&islands));
    same(&rt, &made.name_of(3), &Some(0));
    Ok(())
}

fn body(alloc: Global, kind: Kind) -> Body {
    Body {
        kind,
        mass: MassData {
            mass: 1,
            inertia: 0,
        },
        motion: Motion::at_rest(ZERO_VECTOR, Rot { c: 1 << 30, s: 0 }),
        shapes: Shapes::new(alloc),
        fats: FatBoxes::new(alloc),
        timer: 0,
        enabled: true,
        asleep: None,
    }
}

/// A table of an empty slot, a static body and a mover.
fn table_of_bodies(alloc: Global) -> Result<BodyTable, Refusal>
    ensures { IfOk result (λ table. table.pending ≡ 0) }
{
    let bodies = [
        None,
        Some(body(alloc, Kind::Static)),
        Some(body(alloc, Kind::Dynamic)),
    ];
    BodyTable::from_bodies(alloc, bodies.as_slice())
}

fn is_last_movable(states: &[BodyState]) -> bool {
    match states.last() {
        Some(state) => state.movable,
        None => false,
    }
}

/// Whether the empty slot and the mover's have a box.
fn have_boxes(boxes: &BoxTree) -> [bool; 2] {
    [boxes.get(0).is_some(), boxes.get(2).is_some()]
}

fn see_bodies(rt: &impl Abort, table: &BodyTable)
    requires { table.now.pending ≡ 0 }
{
    same(rt, &table.bodies().len(), &3);
    same_items(rt, table.awake(), &[2]);
    same(rt, &is_last_movable(table.states()), &true);
    same_items(rt, table.marks().slots(), &[0, 1, 2]);
    same(rt, &have_boxes(table.boxes()), &[false, true]);
}

#[test]
fn a_table_has_the_bodies_that_it_is_given(rt: HostRuntime) -> Result<(), Fail> {
    see_bodies(&rt, &table_of_bodies(rt.alloc())?);
    Ok(())
}
