//! The timers of the awake movers as a sleep phase counts them.

ghost use Rattle.std.specs.Prelude.{◌≡◌, ◌≤◌, ℕ, List, Contains, false, length, slice_index_or, slice_set, true, vec_capacity};
ghost use Rattle.std.specs.Option.{option_copied};
ghost use Rattle.contacts_base.specs.declared.contact.ContactEntry.{ContactEntry};
ghost use Rattle.islands.specs.Labels.{Labels};
ghost use Rattle.plain_world.specs.Slots.{body_at};
ghost use Rattle.sleep_wake.specs.Acting.{is_mover_awake};
ghost use Rattle.solver_sets.specs.Beside.{is_moving_at, timer_if, timers_of};
ghost use Rattle.solver_sets.specs.BesideByTies.{ShowMoving, own_set, stilled, stilled_alone, stilled_by, stilled_lists, stilled_pair, stilled_tie, stilled_ties};

use graph_colours::{Colours, Member, OVERFLOW};
use plain_world::{Body, BodyJoint, Constraint, item_at};

/// Whether a kinematic body that moves is in the slot.
pub fn is_moving_at(bodies: &[Option<Body>], slot: u32) -> bool
    ensures { result ≡ is_moving_at bodies.now slot }
{
    match item_at(bodies, slot as usize) {
        None => false,
        Some(body) => body.enabled && body.kind.carried_by().is_moving(),
    }
}

/// Puts the timer of a slot to 0, if what is beside it moves.
fn still(timers: &mut Vec<u64>, moving: bool, slot: u32)
    ensures { timers.new.items ≡ stilled moving slot timers.old.items }
{
    if moving && (slot as usize) < timers.len() {
        timers[slot as usize] = 0;
    }
}

/// Puts the timer of each of two bodies that are beside one another to 0, if the other moves.
fn still_pair(timers: &mut Vec<u64>, bodies: &[Option<Body>], a: u32, b: u32)
    ensures { timers.new.items ≡ stilled_pair bodies.now a b timers.old.items }
{
    still(timers, is_moving_at(bodies, b), a);
    still(timers, is_moving_at(bodies, a), b);
}

fn still_by(timers: &mut Vec<u64>, bodies: &[Option<Body>], joint: Option<&BodyJoint>)
    ensures { timers.new.items ≡ stilled_by bodies.now (option_copied joint.entry) timers.old.items }
{
    if let Some(joint) = joint {
        still_pair(timers, bodies, joint.a, joint.b);
    }
}

/// Puts the timer of the mover of a constraint to 0, if the other of its bodies moves.
fn still_alone(
    timers: &mut Vec<u64>,
    bodies: &[Option<Body>],
    joints: &[Option<BodyJoint>],
    id: Constraint,
)
    ensures { timers.new.items ≡ stilled_alone bodies.now joints.now id timers.old.items }
{
    match id {
        Constraint::Joint(handle) => {
            still_by(timers, bodies, item_at(joints, handle.slot as usize));
        }
        Constraint::Contact(key) => still_pair(timers, bodies, key.first.slot, key.second.slot),
    }
}

/// The same of any constraint: one of two movers is of no other body.
fn still_tie(
    timers: &mut Vec<u64>,
    bodies: &[Option<Body>],
    joints: &[Option<BodyJoint>],
    member: &Member<Constraint>,
)
    ensures { timers.new.items ≡ stilled_tie bodies.now joints.now member.now timers.old.items }
{
    if member.movers.second.is_none() {
        still_alone(timers, bodies, joints, member.id);
    }
}

fn still_ties(
    timers: &mut Vec<u64>,
    bodies: &[Option<Body>],
    joints: &[Option<BodyJoint>],
    members: &[Member<Constraint>],
)
    ensures { timers.new.items ≡ stilled_ties bodies.now joints.now members.now timers.old.items }
{
    for member in members {
        still_tie(timers, bodies, joints, member);
    }
}

/// Puts the timers of the movers to 0 that a constraint which acts holds to a body that moves.
fn still_acting(
    timers: &mut Vec<u64>,
    bodies: &[Option<Body>],
    joints: &[Option<BodyJoint>],
    colours: &Colours<Constraint>,
)
    requires flushed { colours.now.pending ≡ 0 }
    ensures { timers.new.items ≡ stilled_lists bodies.now joints.now colours.now.lists timers.old.items }
{
    for colour in 0..OVERFLOW {
        still_ties(timers, bodies, joints, colours.members(colour));
    }
    still_ties(timers, bodies, joints, colours.members(OVERFLOW));
}

fn own_timer(body: Option<&Body>) -> u64
    ensures { result ≡ timer_if false (option_copied body.entry) }
{
    match body {
        None => 0,
        Some(body) => body.timer,
    }
}

/// Writes down the timer of the body in a slot.
fn set_own(timers: &mut Vec<u64>, bodies: &[Option<Body>], slot: u32)
    ensures { timers.new.items ≡ slice_set timers.old.items slot (timer_if false (body_at bodies.now slot)) }
{
    if (slot as usize) < timers.len() {
        timers[slot as usize] = own_timer(item_at(bodies, slot as usize));
    }
}

/// Writes down the timers of the bodies in these slots.
fn set_all_own(timers: &mut Vec<u64>, bodies: &[Option<Body>], slots: &[u32])
    ensures { timers.new.items ≡ own_set bodies.now slots.now timers.old.items }
{
    for slot in slots {
        set_own(timers, bodies, *slot);
    }
}

/// Makes the list so long, with whatever in it. There is room.
fn fit(timers: &mut Vec<u64>, slots: usize)
    requires { slots ≤ vec_capacity timers.old }
    ensures { length timers.new.items ≡ slots }
{
    let _ = timers.resize(slots, 0);
}

/// Lists by slot, for the awake movers alone, for how many ticks each body has been slow, 0 for one that touches a
/// kinematic body that moves or is joined to one: such a body keeps its island awake. Which those are is told by the
/// constraints that act, whose colours are flushed. The entries of other slots mean nothing. There is room for as many
/// timers as there are slots.
pub fn fill_awake_timers(
    timers: &mut Vec<u64>,
    bodies: &[Option<Body>],
    awake: &[u32],
    joints: &[Option<BodyJoint>],
    colours: &Colours<Constraint>,
)
    requires room { length bodies.now ≤ vec_capacity timers.old }
    requires flushed { colours.now.pending ≡ 0 }
    ensures size { length timers.new.items ≡ length bodies.now }
    ensures same { (labels : Labels) (contacts : List ContactEntry) → ShowMoving bodies.now joints.now contacts labels colours.now.lists → (slot : ℕ) → is_mover_awake labels slot ≡ true → Contains awake.now slot → slice_index_or timers.new.items slot 0 ≡ slice_index_or (timers_of bodies.now joints.now contacts) slot 0 }
{
    fit(timers, bodies.len());
    set_all_own(timers, bodies, awake);
    still_acting(timers, bodies, joints, colours);
}
