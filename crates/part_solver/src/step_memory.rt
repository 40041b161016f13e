//! The lists of a step by parts, which stay from step to step.

ghost use Rattle.std.specs.Prelude.{◌≡◌, ◌≤◌, [], length, vec_capacity, All, OnOk};
ghost use Rattle.part_solver.specs.Benches.{IsRoomy};
ghost use Rattle.part_solver.specs.Stages.{AreStages, lists_of};

use crate::seat::{Lists, Part, Seat};
use crate::stages::{Stage, list_stages};
use fixed_geom::Refusal;
use graph_colours::Colours;
use plain_world::{BodyJoint, Constraint};
use std::alloc::Global;
use world_core_base::MovingSlots;

/// The lists that a step by parts needs beside its own. They stay from step to step.
#[derive(Drop)]
pub(crate) struct StepMemory {
    pub(crate) alloc: Global,
    pub(crate) seats: Vec<Seat>,
    pub(crate) parts: Vec<Part>,
    pub(crate) benches: Vec<Lists>,
    pub(crate) awake: Vec<u32>,
    pub(crate) carried: Vec<u32>,
    pub(crate) stages: Vec<Stage>,
    spare_stages: Vec<Stage>,
}

/// Makes room in the lists of each part.
fn prepare_benches(
    benches: &mut Vec<Lists>,
    bodies: usize,
    rows: usize,
    colours: usize,
) -> Result<(), Refusal>
    ensures as_many { length benches.new.items ≡ length benches.old.items }
    ensures rooms { OnOk result (All (IsRoomy bodies rows colours) benches.new.items) }
{
    for number in 0..benches.len() {
        benches[number].prepare(bodies, rows, colours)?;
    }
    Ok(())
}

/// Copies slots into a list.
fn copy_slots(list: &mut Vec<u32>, slots: &[u32]) -> Result<(), Refusal>
    ensures { OnOk result (list.new.items ≡ slots.now) }
{
    list.clear();
    list.extend_from_slice(slots)?;
    Ok(())
}

/// Sees to it that there are lists for so many parts.
fn count_benches(alloc: Global, benches: &mut Vec<Lists>, count: usize) -> Result<(), Refusal>
    ensures { OnOk result (length benches.new.items ≡ count) }
{
    benches.truncate(count);
    for made in benches.len()..count {
        if benches.push(Lists::new(alloc)).is_err() {
            return Err(Refusal::NoMemory);
        }
    }
    Ok(())
}

/// Makes room for parts in an empty list.
fn reserve_parts(parts: &mut Vec<Part>, count: usize) -> Result<(), Refusal>
    ensures parts { OnOk result (parts.new.items ≡ []) }
    ensures room { OnOk result (count ≤ vec_capacity parts.new) }
{
    parts.clear();
    parts.reserve(count)?;
    Ok(())
}

/// Takes the lists of parts and of seats back.
fn clear_parts(parts: &mut Vec<Part>, seats: &mut Vec<Seat>, benches: &mut Vec<Lists>)
    ensures { seats.new.items ≡ [] }
{
    for _ in 0..parts.len() {
        if let Some(part) = parts.pop() {
            let _ = benches.push(part.into_lists());
        }
    }
    seats.clear();
}

impl StepMemory {
    pub(crate) fn new(alloc: Global) -> StepMemory {
        StepMemory {
            alloc,
            seats: Vec::new(alloc),
            parts: Vec::new(alloc),
            benches: Vec::new(alloc),
            awake: Vec::new(alloc),
            carried: Vec::new(alloc),
            stages: Vec::new(alloc),
            spare_stages: Vec::new(alloc),
        }
    }

    /// Lists the constraints that act, a stage for each colour and for the overflow.
    pub(crate) fn list_stages(
        &mut self,
        joints: &[Option<BodyJoint>],
        colours: &Colours<Constraint>,
    ) -> Result<(), Refusal>
        requires flushed { colours.now.pending ≡ 0 }
        ensures lists { OnOk result (lists_of self.new.stages.items ≡ colours.now.lists) }
        ensures are { OnOk result (AreStages joints.now self.new.stages.items) }
    {
        list_stages(
            self.alloc,
            &mut self.stages,
            &mut self.spare_stages,
            joints,
            colours,
        )
    }

    /// Makes ready for a step by so many parts.
    pub(crate) fn prepare(
        &mut self,
        bodies: usize,
        rows: usize,
        colours: usize,
        moving: MovingSlots,
        parts: usize,
    ) -> Result<(), Refusal>
        ensures as_many { OnOk result (length self.new.benches.items ≡ parts) }
        ensures rooms { OnOk result (All (IsRoomy bodies rows colours) self.new.benches.items) }
        ensures no_seats { OnOk result (self.new.seats.items ≡ []) }
        ensures parts { OnOk result (self.new.parts.items ≡ []) }
        ensures parts_room { OnOk result (parts ≤ vec_capacity self.new.parts) }
        ensures awake { OnOk result (self.new.awake.items ≡ moving.entry.awake.now) }
        ensures carried { OnOk result (self.new.carried.items ≡ moving.entry.carried.now) }
        ensures stages { self.new.stages ≡ self.old.stages }
    {
        clear_parts(&mut self.parts, &mut self.seats, &mut self.benches);
        count_benches(self.alloc, &mut self.benches, parts)?;
        prepare_benches(&mut self.benches, bodies, rows, colours)?;
        self.seats.reserve(parts)?;
        reserve_parts(&mut self.parts, parts)?;
        copy_slots(&mut self.awake, moving.awake)?;
        copy_slots(&mut self.carried, moving.carried)
    }
}
