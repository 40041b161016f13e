//! Worked by hand: a hub, what a release leaves, and what doesn't move.

ghost use Rattle.std.specs.Prelude.{◌≡◌, ◌+◌, ℕ, IfOk, Some, None, true, replicate, [], ◌∷◌, ◌++◌};
ghost use Rattle.graph_colours.specs.Movers.{shares};
ghost use Rattle.graph_colours.specs.Colours.{ids_of, least_colour, with_placed, released};
ghost use Rattle.graph_colours.specs.FoundMembers.{colour_of};

use crate::assertions::{same, same_items};
use crate::constraint::{Joint, between};
use fixed_geom::Refusal;
use graph_colours::*;
use std::alloc::Global;
use std::test::Fail;

/// Places a constraint that has no colour yet, after making room for it.
fn place(colours: &mut Colours<Joint>, id: u32, movers: Movers) -> Result<u8, Refusal> {
    colours.reserve(1, 100)?;
    if colours.colour_of(Joint(id)).is_some() || movers.first >= 100 {
        return Err(Refusal::OutOfRange);
    }
    if let Some(second) = movers.second
        && second >= 100
    {
        return Err(Refusal::OutOfRange);
    }
    Ok(colours.place(Joint(id), movers))
}

/// Constraints between the mover in slot 0 and another one each, three more than there are colours. No edit is put off.
fn hub(alloc: Global) -> Result<Colours<Joint>, Refusal>
    ensures { IfOk result (λ made. made.pending ≡ 0) }
{
    let mut colours = Colours::new(alloc)?;
    for spoke in 1..28 {
        place(&mut colours, spoke, between(0, spoke))?;
    }
    colours.flush();
    Ok(colours)
}

/// A constraint that has a colour.
fn member(id: u32, movers: Movers) -> Member<Joint> {
    Member {
        id: Joint(id),
        movers,
    }
}

/// A constraint between the mover in slot 0 and the one in the slot of its own number.
fn spoke(id: u32) -> Member<Joint> {
    member(id, between(0, id))
}

#[test]
fn a_hub_takes_all_colours(rt: HostRuntime) -> Result<(), Fail> {
    let colours = hub(rt.alloc())?;
    for spoke in 1..25u8 {
        same(
            &rt,
            &colours.colour_of(Joint(spoke as u32)),
            &Some(spoke - 1),
        );
    }
    same_items(
        &rt,
        colours.members(OVERFLOW),
        &[spoke(25), spoke(26), spoke(27)],
    );
    Ok(())
}

/// A hub and its copy; the hub loses its fourth spoke and gets another constraint.
fn hub_and_copy(alloc: Global) -> Result<[Colours<Joint>; 2], Refusal> {
    let mut colours = hub(alloc)?;
    match copy_and_change(&mut colours) {
        Ok(before) => Ok([colours, before]),
        Err(refusal) => Err(refusal),
    }
}

fn copy_and_change(colours: &mut Colours<Joint>) -> Result<Colours<Joint>, Refusal>
    requires { colours.old.pending ≡ 0 }
{
    let before = colours.try_copy()?;
    colours.release(Joint(4));
    match place(colours, 40, between(40, 0)) {
        Ok(_) => Ok(before),
        Err(refusal) => Err(refusal),
    }
}

/// A released colour is taken next, and a copy keeps its colours.
#[test]
fn a_released_colour_is_taken_next(rt: HostRuntime) -> Result<(), Fail> {
    let [colours, before] = &hub_and_copy(rt.alloc())?;
    let now = [
        colours.colour_of(Joint(4)),
        colours.colour_of(Joint(5)),
        colours.colour_of(Joint(25)),
        colours.colour_of(Joint(40)),
    ];
    same(&rt, &now, &[None, Some(4), Some(OVERFLOW), Some(3)]);
    let then = [before.colour_of(Joint(4)), before.colour_of(Joint(40))];
    same(&rt, &then, &[Some(3), None]);
    Ok(())
}

/// The movers of a constraint that acts on one.
fn alone(first: u32) -> Movers {
    Movers {
        first,
        second: None,
    }
}

#[test]
fn a_static_floor_does_not_count(rt: HostRuntime) -> Result<(), Fail> {
    let mut colours = Colours::new(rt.alloc())?;
    same(&rt, &place(&mut colours, 9, alone(2)), &Ok(0));
    same(&rt, &place(&mut colours, 7, alone(1)), &Ok(0));
    same(&rt, &place(&mut colours, 8, between(3, 1)), &Ok(1));
    same_items(
        &rt,
        &colours.to_members(0)?,
        &[member(7, alone(1)), member(9, alone(2))],
    );
    Ok(())
}

// Constraint 5 alone, which acts on the mover in slot 0, is in colour 0.
#[tactic(auto, unfolding(graph_colours::specs::Members::is_free, graph_colours::specs::FoundMembers::has_id, graph_colours::specs::Members::without_member, graph_colours::specs::Colours::least_colour, graph_colours::specs::Colours::with_placed, graph_colours::specs::Colours::released, graph_colours::specs::FoundMembers::colour_of,))]
fn definitions_compute()
    ensures second_of_one { shares (record { first = 7; second = Some 2 }) (record { first = 2; second = None }) ≡ true }
    ensures taken { least_colour {C = ℕ} ((record { id = 5; movers = record { first = 0; second = None } } ∷ []) ∷ replicate COLOURS []) (record { first = 3; second = Some 0 }) ≡ 1 }
    ensures free { least_colour {C = ℕ} ((record { id = 5; movers = record { first = 0; second = None } } ∷ []) ∷ replicate COLOURS []) (record { first = 3; second = None }) ≡ 0 }
    ensures full { least_colour {C = ℕ} (replicate COLOURS (record { id = 5; movers = record { first = 0; second = None } } ∷ []) ++ [] ∷ []) (record { first = 3; second = Some 0 }) ≡ OVERFLOW }
    ensures before { with_placed (λ id. id) (record { id = 4; movers = record { first = 1; second = None } }) ((record { id = 5; movers = record { first = 0; second = None } } ∷ []) ∷ replicate COLOURS []) ≡ (record { id = 4; movers = record { first = 1; second = None } } ∷ record { id = 5; movers = record { first = 0; second = None } } ∷ []) ∷ replicate COLOURS [] }
    ensures gone { released (λ id. id) 5 ((record { id = 5; movers = record { first = 0; second = None } } ∷ []) ∷ replicate COLOURS []) ≡ replicate (COLOURS + 1) [] }
    ensures ids { ids_of {C = ℕ} ((record { id = 5; movers = record { first = 0; second = None } } ∷ []) ∷ [] ∷ []) ≡ (5 ∷ []) ∷ [] ∷ [] }
    ensures there { colour_of (λ id. id) 5 ((record { id = 5; movers = record { first = 0; second = None } } ∷ []) ∷ replicate COLOURS []) ≡ Some 0 }
{}
