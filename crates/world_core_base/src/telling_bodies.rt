//! The bodies told by the islands: movers that fall asleep, and movers that wake.

ghost use Rattle.std.specs.Prelude.{◌≡◌, ◌<◌, ◌≤◌, ◌^◌, ◌-ℤ◌, None, length, option_map, slice_index_or, slice_set};
ghost use Rattle.std.specs.Option.{ForSome};
ghost use Rattle.fixed_geom.specs.Vectors.{IsWithin, plus};
ghost use Rattle.momenta.specs.Gains.{IsGain};
ghost use Rattle.colour_solver.specs.States.{as_vector, moves};
ghost use Rattle.plain_world.specs.Bodies.{AreBodies, IsBody};
ghost use Rattle.plain_world.specs.Momentum.{momentum, momentum_in};
ghost use Rattle.plain_world.specs.Sleep.{told, told_body};
ghost use Rattle.world_core_base.specs.Gather.{state_of, states_of};
ghost use Rattle.world_core_base.specs.Listing.{AreListed};
ghost use Rattle.world_core_base.specs.Telling.{AreToldBeside};

use crate::body_state::state_of;
use crate::slot_list::{Group, SlotList};
use body_handles::MAX_SLOTS;
use fixed_geom::Vec2;
use islands::{Islands, Label};
use momenta::{BodyState, Gain, NOTHING, gain_between, plus};
use plain_world::Body;

/// The part that the body in a slot has in the movers' momentum, in mass·u/tick.
fn momentum_in(entry: &Option<Body>) -> Vec2
    ensures { result ≡ momentum_in entry.now }
{
    match entry {
        None => Vec2 { x: 0, y: 0 },
        Some(body) => {
            if body.is_mover() {
                body.motion.p
            } else {
                Vec2 { x: 0, y: 0 }
            }
        }
    }
}

fn tell_entry(entry: &mut Option<Body>, label: Option<Label>)
    ensures { entry.new ≡ option_map (told_body label) entry.old }
{
    if let Some(body) = entry {
        body.tell(label);
    }
}

/// Tells the body in a slot the label of its island, and takes its state anew. Answers what the movers' momentum gains.
fn tell_slot(
    bodies: &mut Vec<Option<Body>>,
    states: &mut Vec<BodyState>,
    slot: usize,
    label: Option<Label>,
) -> Gain
    requires slot { slot < length bodies.old.items }
    requires state { slot < length states.old.items }
    requires body { ForSome (slice_index_or bodies.old.items slot None) IsBody }
    ensures bodies { bodies.new.items ≡ slice_set bodies.old.items slot (option_map (told_body label) (slice_index_or bodies.old.items slot None)) }
    ensures states { states.new.items ≡ slice_set states.old.items slot (state_of (option_map (told_body label) (slice_index_or bodies.old.items slot None))) }
    ensures x { result.x ≡ (momentum_in (option_map (told_body label) (slice_index_or bodies.old.items slot None))).x -ℤ (momentum_in (slice_index_or bodies.old.items slot None)).x }
    ensures y { result.y ≡ (momentum_in (option_map (told_body label) (slice_index_or bodies.old.items slot None))).y -ℤ (momentum_in (slice_index_or bodies.old.items slot None)).y }
    ensures small { IsGain (2 ^ 62) result }
{
    let before = momentum_in(&bodies[slot]);
    tell_entry(&mut bodies[slot], label);
    states[slot] = state_of(&bodies[slot]);
    gain_between(before, momentum_in(&bodies[slot]))
}

/// Puts the movers of sleeping islands to rest, wakes those of the others, and takes all states anew. Answers what the
/// movers' momentum gains: that of those that fall asleep is lost.
pub(crate) fn tell_bodies(
    bodies: &mut Vec<Option<Body>>,
    states: &mut Vec<BodyState>,
    islands: &Islands,
) -> Gain
    requires few { length bodies.old.items ≤ MAX_SLOTS }
    requires bodies { AreBodies bodies.old.items }
    requires states { states.old.items ≡ states_of bodies.old.items }
    ensures bodies { bodies.new.items ≡ told islands.now.labels bodies.old.items }
    ensures states { states.new.items ≡ states_of bodies.new.items }
    ensures momentum { momentum bodies.new.items ≡ plus (momentum bodies.old.items) (as_vector result) }
    ensures small { IsGain (2 ^ 78) result }
{
    let mut gain = NOTHING;
    for slot in 0..bodies.len() {
        gain = plus(
            gain,
            tell_slot(bodies, states, slot, islands.label_of(slot as u32)),
        );
    }
    gain
}

/// Tells the body in a slot, if there is one, the label of its island, and keeps its state and the slots of the awake
/// movers. Answers what the movers' momentum gains.
fn tell_one(
    bodies: &mut Vec<Option<Body>>,
    states: &mut Vec<BodyState>,
    awake: &mut SlotList,
    slot: u32,
    label: Option<Label>,
) -> Gain
    requires bodies { AreBodies bodies.old.items }
    requires few { length bodies.old.items ≤ 2 ^ 32 }
    requires states { states.old.items ≡ states_of bodies.old.items }
    requires awake { AreListed moves states.old.items awake.old }
    requires room { length bodies.old.items ≤ awake.old.capacity }
    ensures bodies { bodies.new.items ≡ slice_set bodies.old.items slot (option_map (told_body label) (slice_index_or bodies.old.items slot None)) }
    ensures states { states.new.items ≡ states_of bodies.new.items }
    ensures awake { AreListed moves states.new.items awake.new }
    ensures capacity { awake.new.capacity ≡ awake.old.capacity }
    ensures momentum { momentum bodies.new.items ≡ plus (momentum bodies.old.items) (as_vector result) }
    ensures small { IsGain (2 ^ 62) result }
{
    let place = slot as usize;
    if place >= bodies.len() {
        return NOTHING;
    }
    let moved = states[place].movable;
    let gain = tell_slot(bodies, states, place, label);
    awake.relist_changed(Group::Awake, states, slot, moved);
    gain
}

/// Tells the bodies in these slots the labels of their islands, where those in all other slots stay as they are when
/// they are told. Keeps the states and the slots of the awake movers. Answers what the movers' momentum gains.
pub(crate) fn tell_listed(
    bodies: &mut Vec<Option<Body>>,
    states: &mut Vec<BodyState>,
    awake: &mut SlotList,
    slots: &[u32],
    islands: &Islands,
) -> Gain
    requires fewer { length slots.now ≤ MAX_SLOTS }
    requires few { length bodies.old.items ≤ 2 ^ 32 }
    requires bodies { AreBodies bodies.old.items }
    requires states { states.old.items ≡ states_of bodies.old.items }
    requires awake { AreListed moves states.old.items awake.old }
    requires room { length bodies.old.items ≤ awake.old.capacity }
    requires others { AreToldBeside slots.now islands.now.labels bodies.old.items }
    ensures bodies { bodies.new.items ≡ told islands.now.labels bodies.old.items }
    ensures states { states.new.items ≡ states_of bodies.new.items }
    ensures awake { AreListed moves states.new.items awake.new }
    ensures capacity { awake.new.capacity ≡ awake.old.capacity }
    ensures momentum { momentum bodies.new.items ≡ plus (momentum bodies.old.items) (as_vector result) }
    ensures small { IsGain (2 ^ 78) result }
{
    let mut gain = NOTHING;
    for place in 0..slots.len() {
        let slot = slots[place];
        gain = plus(
            gain,
            tell_one(bodies, states, awake, slot, islands.label_of(slot)),
        );
    }
    gain
}
