//! The parts of a step are seated, with their lists and rings, and run.

ghost use Rattle.std.specs.Prelude.{◌≡◌, ◌<◌, ◌≤◌, ℕ, [], true, length, vec_capacity, All, IfOk, OnOk, ◌++◌, ◌∷◌};
ghost use Rattle.std.specs.Arc.{arc_value};
ghost use Rattle.part_runs.specs.Laws.{AreHomes};
ghost use Rattle.part_runs.specs.Runs.{part_ran};
ghost use Rattle.part_solver.specs.Parts.{AreAllRings, AreRings, AreSeated, IsPartOf, IsSeated, run_at};
ghost use Rattle.part_solver.specs.Benches.{IsRoomyFor};
ghost use Rattle.part_solver.specs.Lending.{HasSources};

use crate::lent::Lent;
use crate::ports::Ports;
use crate::rings::make_rings;
use crate::seat::{Lists, Seat};
use crate::seat_map::SeatMap;
use crate::step_lists::StepLists;
use crate::step_memory::StepMemory;
use crate::sums::MOST_PARTS;
use fixed_geom::Refusal;
use std::alloc::Global;
use std::sync::Arc;

/// A seat with that number, these lists and rings.
fn seat_of(
    step: &Arc<StepLists, Global>,
    lent: &Arc<Lent, Global>,
    number: u32,
    lists: Lists,
    ports: Ports,
) -> Result<Seat, Refusal>
    requires part { IsPartOf (arc_value step.now) (length ports.outs) number }
    requires rings { AreRings (arc_value step.now) (length ports.outs) number ports }
    requires room { IsRoomyFor (arc_value step.now) lists }
    requires has { HasSources (arc_value step.now) (arc_value lent.now) }
    ensures { IfOk result (λ seat. IsSeated (arc_value step.now) number seat) }
{
    let Ok(step) = Arc::try_clone(step) else {
        return Err(Refusal::NoMemory);
    };
    let Ok(lent) = Arc::try_clone(lent) else {
        return Err(Refusal::NoMemory);
    };
    Ok(Seat {
        step,
        lent,
        number,
        lists,
        ports,
    })
}

/// Adds a seat.
fn add_seat(seats: &mut Vec<Seat>, seat: Seat) -> Result<(), Refusal>
    ensures { OnOk result (seats.new.items ≡ seats.old.items ++ seat ∷ []) }
{
    if seats.push(seat).is_err() {
        return Err(Refusal::NoMemory);
    }
    Ok(())
}

/// Makes a seat of each of the lists, with its rings.
fn take_seats(
    step: &Arc<StepLists, Global>,
    lent: &Arc<Lent, Global>,
    benches: &mut Vec<Lists>,
    ports: Vec<Ports>,
    seats: &mut Vec<Seat>,
) -> Result<(), Refusal>
    requires few { length benches.old.items ≤ MOST_PARTS }
    requires homes { AreHomes (length benches.old.items) (arc_value step.now) }
    requires rooms { All (IsRoomyFor (arc_value step.now)) benches.old.items }
    requires rings { AreAllRings (arc_value step.now) (length benches.old.items) ports.items }
    requires has { HasSources (arc_value step.now) (arc_value lent.now) }
    requires none { seats.old.items ≡ [] }
    ensures seated { OnOk result (AreSeated (arc_value step.now) 0 seats.new.items) }
    ensures as_many { OnOk result (length seats.new.items ≡ length benches.old.items) }
{
    for own in ports {
        let Some(lists) = benches.pop() else {
            return Ok(());
        };
        let seat = seat_of(step, lent, seats.len() as u32, lists, own)?;
        add_seat(seats, seat)?;
    }
    Ok(())
}

/// Seats the parts of a step, with their rings.
fn seat_parts(
    lists: &mut StepMemory,
    step: &Arc<StepLists, Global>,
    lent: &Arc<Lent, Global>,
    room: usize,
) -> Result<(), Refusal>
    requires few { length lists.old.benches.items ≤ MOST_PARTS }
    requires homes { AreHomes (length lists.old.benches.items) (arc_value step.now) }
    requires rooms { All (IsRoomyFor (arc_value step.now)) lists.old.benches.items }
    requires has { HasSources (arc_value step.now) (arc_value lent.now) }
    requires none { lists.old.seats.items ≡ [] }
    ensures seated { OnOk result (AreSeated (arc_value step.now) 0 lists.new.seats.items) }
    ensures as_many { OnOk result (length lists.new.seats.items ≡ length lists.old.benches.items) }
    ensures parts { lists.new.parts ≡ lists.old.parts }
{
    let ports = make_rings(lists.alloc, step, lists.benches.len(), room)?;
    take_seats(step, lent, &mut lists.benches, ports, &mut lists.seats)
}

/// Seats the parts of a step and runs them, and answers whether they have run: not where memory is wanting.
pub(crate) fn run_parts<M: SeatMap>(
    mapper: &mut M,
    lists: &mut StepMemory,
    step: &Arc<StepLists, Global>,
    lent: &Arc<Lent, Global>,
    room: usize,
) -> bool
    requires few { length lists.old.benches.items ≤ MOST_PARTS }
    requires homes { AreHomes (length lists.old.benches.items) (arc_value step.now) }
    requires rooms { All (IsRoomyFor (arc_value step.now)) lists.old.benches.items }
    requires has { HasSources (arc_value step.now) (arc_value lent.now) }
    requires no_seats { lists.old.seats.items ≡ [] }
    requires no_parts { lists.old.parts.items ≡ [] }
    requires parts_room { length lists.old.benches.items ≤ vec_capacity lists.old.parts }
    ensures runs { result ≡ true → (k : ℕ) → k < length lists.new.parts.items → run_at lists.new.parts.items k ≡ part_ran (arc_value step.now) k }
    ensures as_many { result ≡ true → length lists.new.parts.items ≡ length lists.old.benches.items }
{
    if seat_parts(lists, step, lent, room).is_err() {
        lists.seats.clear();
        return false;
    }
    if !mapper.map_seats(&mut lists.seats, &mut lists.parts) {
        lists.seats.clear();
        return false;
    }
    true
}
