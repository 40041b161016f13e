//! What is asked of a saved body as a whole.

ghost use Rattle.std.specs.Prelude.{◌≡◌, All};
ghost use Rattle.world_file_base.specs.SavedBodies.{are_in_boxes, is_at_rest, island_fits, is_island_or_nothing};
ghost use Rattle.world_file_base.specs.AskedBodies.{fit_asks, rest_asks, fitting_membership_asks, whole_body_asks};
ghost use Rattle.shapes.specs.Poses.{IsPose};
ghost use Rattle.shapes.specs.Shapes.{IsShapeDef};

use crate::clause::Clause;
use crate::reader::Reader;
use crate::saved::Membership;
use fixed_geom::{Box2, MAX_POSITION, contains, is_facing, is_within};
use momenta::Motion;
use plain_world::{Body, Kind};
use shapes::{Pose, ShapeDef, check, tight_box};

/// Whether each shape of a body with this pose lies in its fat box.
fn are_in_boxes(defs: &[ShapeDef], fats: &[Box2], pose: Pose) -> bool
    requires defs { All IsShapeDef defs.now }
    requires pose { IsPose pose }
    ensures { result ≡ are_in_boxes pose defs.now fats.now }
{
    for place in 0..defs.len() {
        if place >= fats.len() {
            return false;
        }
        if !contains(fats[place], tight_box(&defs[place].shape, pose)) {
            return false;
        }
    }
    true
}

/// Asks whether a body of this kind may have the shapes, and whether they lie in their fat boxes.
#[tactic(auto, unfolding(crate::specs::AskedBodies::fit_asks))]
fn ask_shapes(reader: &mut Reader, kind: Kind, pose: Pose, defs: &[ShapeDef], fats: &[Box2])
    ensures { reader.new ≡ fit_asks kind pose defs.now fats.now reader.old }
{
    match check(defs, kind.is_static()) {
        Ok(()) => {
            if is_within(pose.x, MAX_POSITION.unsigned_abs()) && is_facing(pose.rot) {
                reader.ask(are_in_boxes(defs, fats, pose), Clause::FatBoxes);
            }
        }
        Err(_) => reader.note(Clause::Limits),
    }
}

/// Whether a body is at rest: it has no momentum of either kind.
fn is_at_rest(motion: &Motion) -> bool
    ensures { result ≡ is_at_rest motion.now }
{
    motion.p.x == 0 && motion.p.y == 0 && motion.l == 0
}

/// Asks whether a body is at rest unless it is an awake mover, and whether one that is disabled has no course.
#[tactic(auto, unfolding(crate::specs::AskedBodies::rest_asks))]
fn ask_rest(reader: &mut Reader, body: &Body)
    ensures { reader.new ≡ rest_asks body.now reader.old }
{
    reader.ask(body.is_awake() || is_at_rest(&body.motion), Clause::Islands);
    reader.ask(
        body.enabled || !body.kind.carried_by().is_moving(),
        Clause::Islands,
    );
}

fn island_fits(body: &Body, membership: Membership) -> bool
    ensures { result ≡ island_fits body.now membership }
{
    if body.is_mover() {
        membership.island.is_some()
    } else {
        membership.island.is_none()
    }
}

fn is_island_or_nothing(membership: Membership) -> bool
    ensures { result ≡ is_island_or_nothing membership }
{
    membership.island.is_some() || !(membership.loose || membership.asleep)
}

/// Asks whether just a mover has an island, and whether what has none says nothing of one.
#[tactic(auto, unfolding(crate::specs::AskedBodies::fitting_membership_asks))]
fn ask_membership(reader: &mut Reader, body: &Body, membership: Membership)
    ensures { reader.new ≡ fitting_membership_asks body.now membership reader.old }
{
    reader.ask(island_fits(body, membership), Clause::Memberships);
    reader.ask(is_island_or_nothing(membership), Clause::Memberships);
}

/// Asks of a body as a whole.
#[tactic(auto, unfolding(crate::specs::AskedBodies::whole_body_asks))]
pub fn ask_body(reader: &mut Reader, body: &Body, membership: Membership)
    ensures { reader.new ≡ whole_body_asks body.now membership reader.old }
{
    ask_shapes(
        reader,
        body.kind,
        body.pose(),
        body.shapes.as_slice(),
        body.fats.as_slice(),
    );
    ask_rest(reader, body);
    ask_membership(reader, body, membership);
}
