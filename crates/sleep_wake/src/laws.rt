//! What keeps a world consistent, and what being consistent means. Each function does nothing; its contract is a law.

ghost use Rattle.sleep_wake.specs.Laws.{SleepersAreOneComponent, LinkedStandTogether, WakingKeeps, RestingKeeps, EndingKeeps, BeginningKeeps, ChangingKeeps, ChangesFold, TiesAfter, OneOrder, ChangesLeadTo, DroppingKeeps, GoingKeeps, MakingKeeps, EmptyIsConsistent, SplittingKeeps, SleepPhaseKeeps, WakingNamedKeeps, BeginningEachKeeps, EndingEachKeeps, SleepKeeps, MoversStay, MoversComeAndGo, AwakeStayAwake, WakingLeavesTheAwake, TheNamedAreAwake, TheAwakeAct};

use graph_colours::ConstraintId;

/// A sleeping set is one component: the movers that are in the island of a sleeping mover are just those that
/// constraints join to it, and the island isn't loose.
pub fn sleepers_are_one_component<C: ConstraintId>()
    ensures { SleepersAreOneComponent C.number }
{}

/// Two movers with a constraint between them are in one island, so both are awake or both asleep.
pub fn linked_movers_stand_together<C: ConstraintId>()
    ensures { LinkedStandTogether C.number }
{}

/// The island of any mover may wake: all its movers are awake then, and its constraints have taken the least colours
/// that were free, in their order. Where it is awake already nothing changes.
pub fn waking_keeps<C: ConstraintId>()
    ensures { WakingKeeps C.number }
{}

/// An island that isn't loose may fall asleep, and its constraints give up their colours.
pub fn resting_keeps<C: ConstraintId>()
    ensures { RestingKeeps C.number }
{}

/// A constraint may end while its movers are awake: it gives up its colour, and the island of its two movers gets
/// loose.
pub fn ending_keeps<C: ConstraintId>()
    ensures { EndingKeeps C.number }
{}

/// A constraint with a new id may begin while its movers are awake: the islands of its two movers are merged, and it
/// takes a colour.
pub fn beginning_keeps<C: ConstraintId>()
    ensures { BeginningKeeps C.number }
{}

/// Constraints may begin and end one after the other, whoever sleeps: each wakes its movers at its turn.
pub fn changing_keeps<C: ConstraintId>()
    ensures { ChangingKeeps C.number }
{}

/// Changes of constraints that are all different may come in any order.
pub fn changes_fold<C: ConstraintId>()
    ensures { ChangesFold C.number }
{}

/// Which constraints there are after changes: those that were there and don't end, and those that begin. Who wakes
/// meanwhile doesn't matter.
pub fn ties_after_changes<C: ConstraintId>()
    ensures { TiesAfter C.number }
{}

/// Two lists of the same constraints that both ascend are one list.
pub fn one_order<C: ConstraintId>()
    ensures { OneOrder C.number }
{}

/// From the constraints of one tick to those of the next: what begins and ends between the two lists, one after the
/// other, leads from the first list to the second and keeps the world consistent.
pub fn changes_lead_to_the_new_constraints<C: ConstraintId>()
    ensures { ChangesLeadTo C.number }
{}

/// A body that is no mover may go with its constraints of one mover.
pub fn dropping_keeps<C: ConstraintId>()
    ensures { DroppingKeeps C.number }
{}

/// An awake mover may go with its constraints, and leaves its island loose.
pub fn going_keeps<C: ConstraintId>()
    ensures { GoingKeeps C.number }
{}

/// A mover may come, as an island of its own.
pub fn making_keeps<C: ConstraintId>()
    ensures { MakingKeeps C.number }
{}

/// A world with no movers and no constraints is consistent.
pub fn empty_is_consistent<C: ConstraintId>()
    ensures { EmptyIsConsistent C.number }
{}

/// An awake island may be replaced by its components.
pub fn splitting_keeps<C: ConstraintId>()
    ensures { SplittingKeeps C.number }
{}

/// The sleep phase may come at any time: one loose island that is ready is split, and each whole one that is ready
/// falls asleep.
pub fn sleep_phase_keeps<C: ConstraintId>()
    ensures { SleepPhaseKeeps C.number }
{}

/// Islands may wake by their names, one after the other.
pub fn waking_named_keeps<C: ConstraintId>()
    ensures { WakingNamedKeeps C.number }
{}

/// Several constraints with new ids may begin while their movers are awake.
pub fn beginning_each_keeps<C: ConstraintId>()
    ensures { BeginningEachKeeps C.number }
{}

/// Several constraints may end while their movers are awake.
pub fn ending_each_keeps<C: ConstraintId>()
    ensures { EndingEachKeeps C.number }
{}

/// A mover may be put to sleep with its island, which is split first where it is loose.
pub fn sleep_keeps<C: ConstraintId>()
    ensures { SleepKeeps C.number }
{}

/// Who is a mover doesn't change where islands wake and sleep, and constraints begin and end.
pub fn movers_stay<C: ConstraintId>()
    ensures { MoversStay C.number }
{}

/// A mover that comes is one more, and one that goes is one less.
pub fn movers_come_and_go<C: ConstraintId>()
    ensures { MoversComeAndGo C.number }
{}

/// Nobody falls asleep where islands wake, or constraints begin and end.
pub fn awake_stay_awake<C: ConstraintId>()
    ensures { AwakeStayAwake C.number }
{}

/// Where islands wake, the labels of those that are awake stay as they are.
pub fn waking_leaves_the_awake<C: ConstraintId>()
    ensures { WakingLeavesTheAwake C.number }
{}

/// Once the islands of some movers were woken by their names, all of these are awake.
pub fn the_named_are_awake<C: ConstraintId>()
    ensures { TheNamedAreAwake C.number }
{}

/// A constraint has a colour just while all its movers are awake.
pub fn the_awake_act<C: ConstraintId>()
    ensures { TheAwakeAct C.number }
{}
