//! What is known of the ties of any world, and what changes of its bodies, joints and contacts do to them. Each
//! function does nothing; its contract is a law.

ghost use Rattle.solver_sets.specs.Laws.{ActingShowMoving, AlikeBodiesKeepTies, CensusListsEachOnce, ComingKeepsTies, ConstraintNumbersAreUnique, DisablingTakesTies, EnablingAddsTies, FewBegin, GoingTakesTies, ImpulsesKeepTies, JoiningAddsTies, KeysCanChange, KeyNumbersAreUnique, KeysChange, ListsAreCensus, ListsAreMembers, MoversHaveLabels, NoTiesOfDisabled, SameIdsSameTies, SameTouchingKeepTies, StirredArePicked, TiesAreWithin, TiesArePicked, TiesAtAreTies, TiesHaveLabels, TiesOfAMover, TiesOfNoMover, TellingKeepsTies, TiesRise, ToldAreTold, ToldBodiesTell, UnjoiningTakesTies};

// ---- what ties are

/// The ties of joints and contacts that ascend ascend themselves.
pub fn ties_rise()
    ensures { TiesRise }
{}

/// The names of ties are within their ranges, so that no two have one number.
pub fn ties_are_within()
    ensures { TiesAreWithin }
{}

/// A contact's number tells which contact it is: no other key has it.
pub fn key_numbers_are_unique()
    ensures { KeyNumbersAreUnique }
{}

/// A constraint's number tells which joint or which contact it is: no other one has it.
pub fn constraint_numbers_are_unique()
    ensures { ConstraintNumbersAreUnique }
{}

/// Where just the movers have labels, those of two bodies that are movers have.
pub fn movers_have_labels()
    ensures { MoversHaveLabels }
{}

/// The movers of each tie have labels.
pub fn ties_have_labels()
    ensures { TiesHaveLabels }
{}

/// Lists of ties, by colour, are made again of their names alone.
pub fn lists_are_members()
    ensures { ListsAreMembers }
{}

// ---- changes that no tie sees

/// Ties ask of a body only whether it is enabled and a mover.
pub fn alike_bodies_keep_ties()
    ensures { AlikeBodiesKeepTies }
{}

/// Ties don't ask for the impulses of joints.
pub fn impulses_keep_ties()
    ensures { ImpulsesKeepTies }
{}

/// Ties ask of contacts only which of them touch.
pub fn same_touching_keep_ties()
    ensures { SameTouchingKeepTies }
{}

// ---- joints

/// A joint that is made is one tie more where it has movers.
pub fn joining_adds_ties()
    ensures { JoiningAddsTies }
{}

/// A joint that goes is one tie less where it has movers.
pub fn unjoining_takes_ties()
    ensures { UnjoiningTakesTies }
{}

// ---- bodies

/// The ties of a body ascend, and are ties.
pub fn ties_at_are_ties()
    ensures { TiesAtAreTies }
{}

/// A body that isn't enabled has no ties.
pub fn no_ties_of_disabled()
    ensures { NoTiesOfDisabled }
{}

/// A body that goes with its joints and its contacts takes just its ties along.
pub fn going_takes_ties()
    ensures { GoingTakesTies }
{}

/// So does one that is disabled and loses its contacts, while its joints stay.
pub fn disabling_takes_ties()
    ensures { DisablingTakesTies }
{}

/// A body that comes into a free slot brings no tie along.
pub fn coming_keeps_ties()
    ensures { ComingKeepsTies }
{}

/// A body that is enabled takes up just the ties of its joints, none of which was there.
pub fn enabling_adds_ties()
    ensures { EnablingAddsTies }
{}

// ---- who is woken before

/// A mover is a mover of each of its ties.
pub fn ties_of_a_mover()
    ensures { TiesOfAMover }
{}

/// Each tie of a body that is no mover has one mover, which is beside it.
pub fn ties_of_no_mover()
    ensures { TiesOfNoMover }
{}

/// The ties of a body are those of all ties that are of it.
pub fn ties_are_picked()
    ensures { TiesArePicked }
{}

/// Whom a change of a body wakes is told by the ties alone.
pub fn stirred_are_picked()
    ensures { StirredArePicked }
{}

// ---- the collide

/// The contacts that begin and end to touch, in the order of their keys, are what begins and ends between the ties
/// before and after.
pub fn keys_change()
    ensures { KeysChange }
{}

/// A constraint that is a tie before and after has the same movers.
pub fn same_ids_same_ties()
    ensures { SameIdsSameTies }
{}

/// Each contact that ends is a tie at its turn, and each that begins isn't, and has movers with labels.
pub fn keys_can_change()
    ensures { KeysCanChange }
{}

/// No more constraints begin than contacts begin to touch.
pub fn few_begin()
    ensures { FewBegin }
{}

// ---- bodies that are told who sleeps

/// Bodies that are told who sleeps are enabled and movers as before.
pub fn telling_keeps_ties()
    ensures { TellingKeepsTies }
{}

/// Once told, each body sleeps just if its label does, under that name.
pub fn told_are_told()
    ensures { ToldAreTold }
{}

/// Between what bodies were told and the labels now, those fall asleep and wake that do between the two labellings.
pub fn told_bodies_tell()
    ensures { ToldBodiesTell }
{}

// ---- who is beside a body that moves

/// An awake mover is beside a kinematic body that moves just if a constraint that acts is between them.
pub fn acting_show_moving()
    ensures { ActingShowMoving }
{}

// ---- the census

/// All that stands in a set is listed there, as often as it occurs, in the order in which it stands, and in no other
/// list.
pub fn lists_are_census()
    ensures { ListsAreCensus }
{}

/// Each body, each joint and each contact that there is stands in exactly one set, and the census lists it there, once.
/// It lists nothing else; and its sleeping sets are just those in which some body sleeps.
pub fn census_lists_each_once()
    ensures { CensusListsEachOnce }
{}
