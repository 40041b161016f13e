//! The rings of a step: one from each part to each other, and one back for its letters.

ghost use Rattle.std.specs.Prelude.{◌≡◌, ◌+◌, ◌<◌, ◌≤◌, ℕ, length, IfOk, OnOk, slice_index_or};
ghost use Rattle.part_solver.specs.Parts.{AreAllRings, AreMade, IsJoined, no_posts};

use crate::mail::{LETTERS, make_ring};
use crate::ports::{Ports, make_returns};
use crate::step_lists::StepLists;
use crate::sums::MOST_PARTS;
use fixed_geom::Refusal;
use std::alloc::Global;

/// Gives the rings from one part to another their ends.
fn join_two(
    alloc: Global,
    step: &StepLists,
    ports: &mut [Ports],
    from: usize,
    to: usize,
    room: usize,
) -> Result<(), Refusal>
    requires few { length ports.old ≤ MOST_PARTS }
    requires from { from < length ports.old }
    requires to { to < length ports.old }
    ensures as_many { length ports.new ≡ length ports.old }
    ensures joined { OnOk result (IsJoined step.now from to ports.old ports.new) }
{
    let letters = if from == to { 0 } else { LETTERS };
    let (sender, receiver) = make_ring(alloc, step, from as u32, to as u32)?;
    let (returns, spares) = make_returns(alloc, letters, room)?;
    let alarm = ports[to].alarm()?;
    ports[from].add_out(sender, spares, alarm)?;
    ports[to].add_in(receiver, returns)?;
    Ok(())
}

/// Gives the rings from one part to all others their ends.
fn join_all(
    alloc: Global,
    step: &StepLists,
    ports: &mut [Ports],
    from: usize,
    room: usize,
) -> Result<(), Refusal>
    requires few { length ports.old ≤ MOST_PARTS }
    requires from { from < length ports.old }
    requires made { AreMade step.now from 0 ports.old }
    ensures as_many { length ports.new ≡ length ports.old }
    ensures made { OnOk result (AreMade step.now (from + 1) 0 ports.new) }
{
    for to in 0..ports.len() {
        join_two(alloc, step, ports, from, to, room)?;
    }
    Ok(())
}

/// Ports with no rings, but with room for those to each part and from it.
fn bare_ports(alloc: Global, parts: usize) -> Result<Vec<Ports>, Refusal>
    ensures as_many { IfOk result (λ ports. length ports.items ≡ parts) }
    ensures bare { IfOk result (λ ports. (k : ℕ) → slice_index_or ports.items k no_posts ≡ no_posts) }
{
    let mut ports = Vec::with_capacity(alloc, parts)?;
    for made in 0..parts {
        ports.push(Ports::new(alloc, parts)?)?;
    }
    Ok(ports)
}

/// The rings of so many parts, which begin with a step, and whose letters have room for so many bodies.
pub(crate) fn make_rings(
    alloc: Global,
    step: &StepLists,
    parts: usize,
    room: usize,
) -> Result<Vec<Ports>, Refusal>
    requires { parts ≤ MOST_PARTS }
    ensures { IfOk result (λ ports. AreAllRings step.now parts ports.items) }
{
    let mut ports = bare_ports(alloc, parts)?;
    for from in 0..parts {
        join_all(alloc, step, &mut ports, from, room)?;
    }
    Ok(ports)
}
