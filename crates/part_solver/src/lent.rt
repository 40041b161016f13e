//! What the rows of a step are gathered from, lent to all its parts.

ghost use Rattle.std.specs.Prelude.{◌≡◌, ◌<◌, [], length, slice_index_or};
ghost use Rattle.contacts_base.specs.Split.{contacts_in};
ghost use Rattle.part_solver.specs.Lending.{HasSources};
ghost use Rattle.part_solver.specs.Stages.{CanGather, HaveTheRows, lists_of, slot_lists};

use crate::stages::Stage;
use crate::step_lists::StepLists;
use colour_solver::Slots;
use contacts_base::SplitContacts;
use graph_colours::{COLOURS, Member};
use plain_world::{BodyJoint, Constraint};
use world_core_base::Constraints;

/// The joints and contacts of a world, and the constraints that act, by stage.
#[derive(Drop)]
pub(crate) struct Lent {
    pub(crate) constraints: Constraints,
    pub(crate) stages: Vec<Stage>,
}

/// What the rows of a stage are gathered from: the constraints of the stage, their slots, and the joints and contacts
/// of the world.
#[derive(Clone, Copy)]
pub(crate) struct Sources<'a> {
    pub(crate) members: &'a [Member<Constraint>],
    pub(crate) slots: &'a [Slots],
    pub(crate) joints: &'a [Option<BodyJoint>],
    pub(crate) contacts: &'a SplitContacts,
}

/// A stage by its number.
fn stage_at(stages: &[Stage], number: usize) -> &Stage
    requires { number < length stages.now }
    ensures { result.now ≡ slice_index_or stages.now number result.now }
{
    &stages[number]
}

/// What the rows of a stage are gathered from.
fn sources_of(lent: &Lent, number: usize) -> Sources<'_>
    requires { number < length lent.now.stages.items }
    ensures members { result.members.now ≡ slice_index_or (lists_of lent.now.stages.items) number [] }
    ensures slots { result.slots.now ≡ slice_index_or (slot_lists lent.now.stages.items) number [] }
    ensures joints { result.joints.now ≡ lent.now.constraints.joints.joints }
    ensures contacts { contacts_in result.contacts.now ≡ lent.now.constraints.contacts.contacts }
{
    let stage = stage_at(lent.stages.as_slice(), number);
    Sources {
        members: stage.members.as_slice(),
        slots: stage.slots.as_slice(),
        joints: lent.constraints.joints.joints(),
        contacts: lent.constraints.contacts.split(),
    }
}

/// What the rows of a colour of a step are gathered from.
pub(crate) fn in_colour<'a>(step: &StepLists, lent: &'a Lent, colour: usize) -> Sources<'a>
    requires has { HasSources step.now lent.now }
    requires colour { colour < COLOURS }
    ensures can { CanGather step.now.states result.joints.now (contacts_in result.contacts.now) result.members.now result.slots.now }
    ensures rows { HaveTheRows step.now.states result.joints.now (contacts_in result.contacts.now) result.members.now (slice_index_or step.now.rows.colours colour []) }
{
    sources_of(lent, colour)
}

/// What the rows that have no colour are gathered from.
pub(crate) fn in_overflow<'a>(step: &StepLists, lent: &'a Lent) -> Sources<'a>
    requires has { HasSources step.now lent.now }
    ensures can { CanGather step.now.states result.joints.now (contacts_in result.contacts.now) result.members.now result.slots.now }
    ensures rows { HaveTheRows step.now.states result.joints.now (contacts_in result.contacts.now) result.members.now step.now.rows.left }
{
    sources_of(lent, COLOURS)
}
