//! The bodies as a step leaves them: the motion of each awake mover and of each body that is carried along, and the fat
//! boxes that its shapes have left.

ghost use Rattle.std.specs.Prelude.{◌≡◌, ◌<◌, None, cond, false, length, slice_index_or, slice_set};
ghost use Rattle.std.specs.Option.{ForSome};
ghost use Rattle.colour_solver.specs.States.{AreAllStates, AreSameBeside, HaveCourses, carried_of, movers_of, nobody, total};
ghost use Rattle.plain_world.specs.Bodies.{AreBodies};
ghost use Rattle.plain_world.specs.Momentum.{momentum};
ghost use Rattle.world_core_base.specs.Covers.{AreCovered};
ghost use Rattle.world_core_base.specs.Marked.{AreMarkedIn, AreShownAlike};
ghost use Rattle.world_core_base.specs.Gather.{begun, states_of, with_motion, with_motions};
ghost use Rattle.world_core_base.specs.Moved.{FitsState, moved_entry};
ghost use Rattle.world_core_base.specs.Renewal.{renewed_bodies, with_renewed};
ghost use Rattle.world_core_base.specs.Standing.{HaveSameStanding};
ghost use Rattle.plain_world.specs.Shown.{IsShownAlike};
ghost use Rattle.plain_world.specs.InSlots.{HaveSameSlots};

use crate::covers::cover_again;
use box_tree::BoxTree;
use momenta::BodyState;
use packed_sets::Marks;
use plain_world::{Body, Course, Kind};

/// Gives an awake mover its motion, and a body that is carried along its pose and what is left of its course.
fn put_motion(body: &mut Body, state: &BodyState)
    requires { FitsState state.now body.old }
    ensures { body.new ≡ with_motion state.now body.old }
{
    if body.is_awake() {
        body.motion = state.motion;
        return;
    }
    if !body.is_carried() {
        return;
    }
    body.kind = Kind::Kinematic(Course {
        velocity: state.motion.p,
        spin: state.motion.l as i64,
    });
    body.motion.x = state.motion.x;
    body.motion.rot = state.motion.rot;
}

/// Gives a body its motion, and makes its fat boxes anew that its shapes have left. Answers whether there was such a
/// box.
fn move_body(body: &mut Body, state: &BodyState) -> bool
    requires { FitsState state.now body.old }
    ensures moved { body.new ≡ with_renewed (with_motion state.now body.old) }
    ensures alike { result ≡ false → IsShownAlike body.old body.new }
{
    put_motion(body, state);
    if !body.can_move() {
        return false;
    }
    let pose = body.pose();
    body.fats.renew(body.shapes.as_slice(), pose)
}

fn move_entry(entry: &mut Option<Body>, state: &BodyState) -> bool
    requires { ForSome entry.old (FitsState state.now) }
    ensures moved { entry.new ≡ moved_entry state.now entry.old }
    ensures alike { result ≡ false → AreShownAlike entry.old entry.new }
{
    match entry {
        None => false,
        Some(body) => move_body(body, state),
    }
}

/// The state as the next step begins with it.
fn begin_there(state: &mut BodyState)
    ensures { state.new ≡ begun state.old }
{
    state.start = state.motion.x;
}

/// Gives the body in a slot the motion that the ticks have left it, and marks the slot where its fat boxes were made
/// anew.
fn move_slot(
    bodies: &mut Vec<Option<Body>>,
    states: &mut Vec<BodyState>,
    marks: &mut Marks,
    boxes: &mut BoxTree,
    slot: u32,
)
    requires body { slot < length bodies.old.items }
    requires state { slot < length states.old.items }
    requires fits { ForSome (slice_index_or bodies.old.items slot None) (FitsState (slice_index_or states.old.items slot nobody)) }
    requires covered { AreCovered bodies.old.items boxes.old }
    ensures bodies { bodies.new.items ≡ slice_set bodies.old.items slot (moved_entry (slice_index_or states.old.items slot nobody) (slice_index_or bodies.old.items slot None)) }
    ensures states { states.new.items ≡ slice_set states.old.items slot (begun (slice_index_or states.old.items slot nobody)) }
    ensures marked { AreMarkedIn bodies.old.items marks.old bodies.new.items marks.new }
    ensures len { length marks.new ≡ length marks.old }
    ensures covered { AreCovered bodies.new.items boxes.new }
    ensures boxes { length boxes.new ≡ length boxes.old }
{
    let place = slot as usize;
    let made = move_entry(&mut bodies[place], &states[place]);
    begin_there(&mut states[place]);
    marks.mark_if(slot, made);
    cover_again(boxes, slot, &bodies[place], made);
}

/// Gives each awake mover and each body that is carried along, whose slots are `awake` and `carried`, the motion that
/// the ticks have left it, and makes its fat boxes anew that its shapes' tight boxes have left, whose slots are then
/// marked and have other boxes. The states are then those of
/// the bodies again.
pub(crate) fn move_bodies(
    bodies: &mut Vec<Option<Body>>,
    states: &mut Vec<BodyState>,
    marks: &mut Marks,
    boxes: &mut BoxTree,
    awake: &[u32],
    carried: &[u32],
)
    requires bodies { AreBodies bodies.old.items }
    requires states { AreAllStates states.old.items }
    requires courses { HaveCourses states.old.items }
    requires same { AreSameBeside (states_of bodies.old.items) states.old.items }
    requires awake { awake.now ≡ movers_of states.old.items }
    requires carried { carried.now ≡ carried_of states.old.items }
    requires covered { AreCovered bodies.old.items boxes.old }
    ensures value { bodies.new.items ≡ renewed_bodies (with_motions bodies.old.items states.old.items) }
    ensures states { states.new.items ≡ states_of bodies.new.items }
    ensures awake { awake.now ≡ movers_of states.new.items }
    ensures carried { carried.now ≡ carried_of states.new.items }
    ensures bodies { AreBodies bodies.new.items }
    ensures slots { HaveSameSlots bodies.old.items bodies.new.items }
    ensures standing { HaveSameStanding bodies.old.items bodies.new.items }
    ensures momentum { momentum bodies.new.items ≡ total states.old.items }
    ensures marked { AreMarkedIn bodies.old.items marks.old bodies.new.items marks.new }
    ensures len { length marks.new ≡ length marks.old }
    ensures covered { AreCovered bodies.new.items boxes.new }
    ensures boxes { length boxes.new ≡ length boxes.old }
{
    for place in 0..awake.len() {
        move_slot(bodies, states, marks, boxes, awake[place]);
    }
    for index in 0..carried.len() {
        move_slot(bodies, states, marks, boxes, carried[index]);
    }
}
