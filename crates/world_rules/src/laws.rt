//! Laws of the commands and of sound worlds, for crates above. These functions do nothing; their contracts are the
//! laws.

ghost use Rattle.world_rules.specs.Laws.{ColoursAreApart, EachCallCounts, EachStandsInOneSet, LinkedMoversStandTogether, PlainListsDetermineAll, PushesAreSmall, SleepingSetsAreComponents, WhatActsHasAColour};

/// An accepted command counts one call more, and the impulse that it gives a body is at most 2^40 in each component.
pub fn each_call_counts()
    ensures calls { EachCallCounts }
    ensures pushes { PushesAreSmall }
{}

/// Two movers of a sound world that touch, or that a joint links, stand together: both are awake, or both sleep in one
/// set.
pub fn linked_movers_stand_together()
    ensures { LinkedMoversStandTogether }
{}

/// A sleeping set of a sound world is one component: those that sleep in it are just those that contacts and joints
/// link to one of them.
pub fn sleeping_sets_are_components()
    ensures { SleepingSetsAreComponents }
{}

/// No two constraints of a sound world that have one of the colours 0 to 23 share a mover.
pub fn colours_are_apart()
    ensures { ColoursAreApart }
{}

/// The constraints of a sound world that have a colour, or stand in the overflow, are just those whose movers are
/// awake.
pub fn what_acts_has_a_colour()
    ensures { WhatActsHasAColour }
{}

/// Each body, each joint and each contact of a sound world stands in exactly one solver set, and the census lists it
/// there, once.
pub fn each_stands_in_one_set()
    ensures { EachStandsInOneSet }
{}

/// Two worlds with the same plain lists answer all commands the same, and have the same plain lists after them.
pub fn plain_lists_determine_all()
    ensures { PlainListsDetermineAll }
{}
