//! What a caller reads of its world's last step and of its bodies. Nothing here changes it.

ghost use Rattle.std.specs.Prelude.{◌≡◌, ◌/◌, ◌%◌, ◌^◌, length, map};
ghost use Rattle.std.specs.Int.{cast_signed, cast_unsigned, w64, w128};
ghost use Rattle.dillmonth.specs.Calls.{IsSeen, IsSeenIn};
ghost use Rattle.dillmonth.specs.Forms.{handle_shown, pair_shown};
ghost use Rattle.dillmonth.specs.Lists.{events_in, gravity_in, island_number, set_number, steps_in, view_shown, written};

use crate::conversions::{handle_of, show_vector};
use crate::forms::{CFacing, CHandle, CPair, CPose, CVector, CView};
use crate::held::{CWorld, put, take};
use crate::shown::write_all;
use crate::statuses::{DONE, NO_WORLD};
use plain_world::{BodyView, NO_COURSE, SetName};
use std::alloc::Global;

/// The pairs of shapes that began to touch in the last step, ascending.
#[unsafe(no_mangle)]
pub extern "C" fn dm_begun(alloc: Global, world: &mut CWorld, out: &mut [CPair]) -> usize
    ensures kept { world.new.desk ≡ world.old.desk }
    ensures count { result ≡ length (events_in world.old.desk).begin }
    ensures written { out.new ≡ written (map pair_shown (events_in world.old.desk).begin) out.old }
{
    match take(alloc, world) {
        None => 0,
        Some(desk) => {
            let count = write_all(desk.world.events().begin(), out);
            put(world, desk);
            count
        }
    }
}

/// The pairs of shapes that ceased to touch in the last step, ascending.
#[unsafe(no_mangle)]
pub extern "C" fn dm_ended(alloc: Global, world: &mut CWorld, out: &mut [CPair]) -> usize
    ensures kept { world.new.desk ≡ world.old.desk }
    ensures count { result ≡ length (events_in world.old.desk).end }
    ensures written { out.new ≡ written (map pair_shown (events_in world.old.desk).end) out.old }
{
    match take(alloc, world) {
        None => 0,
        Some(desk) => {
            let count = write_all(desk.world.events().end(), out);
            put(world, desk);
            count
        }
    }
}

/// The bodies that fell asleep in the last step, ascending.
#[unsafe(no_mangle)]
pub extern "C" fn dm_slept(alloc: Global, world: &mut CWorld, out: &mut [CHandle]) -> usize
    ensures kept { world.new.desk ≡ world.old.desk }
    ensures count { result ≡ length (events_in world.old.desk).slept }
    ensures written { out.new ≡ written (map handle_shown (events_in world.old.desk).slept) out.old }
{
    match take(alloc, world) {
        None => 0,
        Some(desk) => {
            let count = write_all(desk.world.events().slept(), out);
            put(world, desk);
            count
        }
    }
}

/// The bodies that woke in the last step, ascending.
#[unsafe(no_mangle)]
pub extern "C" fn dm_woke(alloc: Global, world: &mut CWorld, out: &mut [CHandle]) -> usize
    ensures kept { world.new.desk ≡ world.old.desk }
    ensures count { result ≡ length (events_in world.old.desk).woke }
    ensures written { out.new ≡ written (map handle_shown (events_in world.old.desk).woke) out.old }
{
    match take(alloc, world) {
        None => 0,
        Some(desk) => {
            let count = write_all(desk.world.events().woke(), out);
            put(world, desk);
            count
        }
    }
}

/// How many steps were accepted; 0 where there is no world.
#[unsafe(no_mangle)]
pub extern "C" fn dm_steps(alloc: Global, world: &mut CWorld) -> u64
    ensures kept { world.new.desk ≡ world.old.desk }
    ensures steps { result ≡ steps_in world.old.desk }
{
    match take(alloc, world) {
        None => 0,
        Some(desk) => {
            let steps = desk.world.steps();
            put(world, desk);
            steps
        }
    }
}

/// The gravity, in u/tick²; zero where there is no world.
#[unsafe(no_mangle)]
pub extern "C" fn dm_gravity(alloc: Global, world: &mut CWorld) -> CVector
    ensures kept { world.new.desk ≡ world.old.desk }
    ensures gravity { result ≡ gravity_in world.old.desk }
{
    match take(alloc, world) {
        None => CVector { x: 0, y: 0 },
        Some(desk) => {
            let gravity = desk.world.gravity();
            put(world, desk);
            show_vector(gravity)
        }
    }
}

/// The number of a set.
fn set_number(set: SetName) -> u32
    ensures { result ≡ set_number set }
{
    match set {
        SetName::Static => 0,
        SetName::Disabled => 1,
        SetName::Awake => 2,
        SetName::Sleeping(_) => 3,
    }
}

/// The name of the island with which a body sleeps, or 0.
fn island_number(set: SetName) -> u32
    ensures { result ≡ island_number set }
{
    match set {
        SetName::Sleeping(name) => name,
        SetName::Static => 0,
        SetName::Disabled => 0,
        SetName::Awake => 0,
    }
}

/// The lower half of a number of 128 bits.
pub(crate) fn low_half(number: i128) -> u64
    ensures { result ≡ cast_unsigned w128 number % 2 ^ 64 }
{
    (number.cast_unsigned() % (1 << 64)) as u64
}

/// The upper half of a number of 128 bits, with its sign.
pub(crate) fn high_half(number: i128) -> i64
    ensures { result ≡ cast_signed w64 (cast_unsigned w128 number / 2 ^ 64) }
{
    ((number.cast_unsigned() / (1 << 64)) as u64).cast_signed()
}

/// What is seen of a body.
fn show_view(handle: CHandle, tag: u64, view: &BodyView) -> CView
    ensures { result ≡ view_shown handle tag view.now }
{
    let course = view.course.unwrap_or(NO_COURSE);
    CView {
        pose: CPose {
            handle,
            at: show_vector(view.at),
            facing: CFacing {
                c: view.facing.c,
                s: view.facing.s,
            },
        },
        p: show_vector(view.p),
        l_low: low_half(view.l),
        l_high: high_half(view.l),
        velocity: show_vector(course.velocity),
        spin: course.spin,
        set: set_number(view.set),
        island: island_number(view.set),
        tag,
    }
}

/// Writes what is seen of a body, or 2 where it isn't there.
fn read_body(view: Option<BodyView>, body: CHandle, tag: u64, out: &mut CView) -> u32
    ensures { IsSeen view body tag result out.old out.new }
{
    match view {
        None => 2,
        Some(view) => {
            *out = show_view(body, tag, &view);
            DONE
        }
    }
}

/// What is seen of a body. Refused 2 where the id names none; `out` is then as it was.
#[unsafe(no_mangle)]
pub extern "C" fn dm_body(alloc: Global, world: &mut CWorld, body: CHandle, out: &mut CView) -> u32
    ensures kept { world.new.desk ≡ world.old.desk }
    ensures seen { IsSeenIn body world.old.desk result out.old out.new }
{
    match take(alloc, world) {
        None => NO_WORLD,
        Some(desk) => {
            let view = desk.world.body(handle_of(body));
            let tag = desk.tag_of(handle_of(body));
            put(world, desk);
            read_body(view, body, tag, out)
        }
    }
}
