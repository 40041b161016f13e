//! A body, read.

ghost use Rattle.std.specs.Prelude.{◌≡◌, IfSome, IsTrue, pos, unsigned_abs};
ghost use Rattle.plain_world.specs.Bodies.{IsMassOf};
ghost use Rattle.world_file_base.specs.Asks.{no_asks};
ghost use Rattle.world_file_base.specs.AskedBodies.{whole_body_asks};
ghost use Rattle.loaded_text.specs.Bodies.{BodyHolds, made, membership_of};

use crate::body_members::{Front, Last, read_front, read_last};
use crate::saved_shapes::{LoadedShapes, read_shapes};
use crate::text::Text;
use momenta::{MassData, Motion};
use plain_world::{Body, is_mass_allowed};
use std::alloc::Global;
use world_file_base::{Membership, Reader, ask_body, sleeping_under};

/// A body and what it says of its island.
#[derive(Drop)]
pub(crate) struct LoadedBody {
    pub(crate) body: Body,
    pub(crate) membership: Membership,
}

/// Whether a body with this inertia may have this angular momentum.
fn may_turn(inertia: i64, l: i128) -> bool
    ensures { IsTrue result → inertia ≡ pos 0 → l ≡ pos 0 }
{
    inertia != 0 || l == 0
}

fn membership_of(front: &Front) -> Membership
    ensures { result ≡ membership_of front.now }
{
    Membership {
        island: front.island,
        loose: front.loose,
        asleep: front.asleep,
    }
}

/// The body that has these members.
fn body_with(front: &Front, shapes: LoadedShapes, last: Last) -> LoadedBody
    ensures { result ≡ made front.now shapes last }
{
    let membership = membership_of(front);
    LoadedBody {
        body: Body {
            motion: Motion {
                p: front.p,
                l: front.l,
                x: front.at,
                rot: front.facing,
            },
            mass: MassData {
                mass: front.mass,
                inertia: front.inertia,
            },
            kind: last.kind,
            enabled: front.enabled,
            asleep: sleeping_under(membership),
            timer: last.timer,
            fats: shapes.fats,
            shapes: shapes.shapes,
        },
        membership,
    }
}

/// Whether nothing is broken that is asked of a body as a whole.
fn is_whole_fitting(loaded: &LoadedBody) -> bool
    ensures { IsTrue result → whole_body_asks loaded.now.body loaded.now.membership no_asks ≡ no_asks }
{
    let mut reader = Reader::new();
    ask_body(&mut reader, &loaded.body, loaded.membership);
    reader.broken.is_none()
}

/// Whether a body's numbers are within the limits that hang on one another, and it fits as a whole.
fn does_body_fit(loaded: &LoadedBody) -> bool
    ensures mass { IsTrue result → IsMassOf loaded.now.body.kind loaded.now.body.mass }
    ensures turn { IsTrue result → loaded.now.body.mass.inertia ≡ pos 0 → loaded.now.body.motion.l ≡ pos 0 }
    ensures whole { IsTrue result → whole_body_asks loaded.now.body loaded.now.membership no_asks ≡ no_asks }
{
    let body = &loaded.body;
    is_mass_allowed(body.kind, body.mass)
        && may_turn(body.mass.inertia, body.motion.l)
        && is_whole_fitting(loaded)
}

/// A body, of a world in which none was slow for longer than it was.
pub(crate) fn read_body(text: &mut Text, lead: &[u8], alloc: Global) -> Option<LoadedBody>
    ensures { IfSome result (λ loaded. BodyHolds lead.now loaded.body loaded.membership text.old.rest.now text.new.rest.now) }
{
    text.expect(lead)?;
    text.expect(b"{")?;
    let front = read_front(text)?;
    let shapes = read_shapes(text, b",\"shapes\":", alloc)?;
    let last = read_last(text, front.kind)?;
    text.expect(b"}")?;
    let loaded = body_with(&front, shapes, last);
    if does_body_fit(&loaded) {
        Some(loaded)
    } else {
        None
    }
}
