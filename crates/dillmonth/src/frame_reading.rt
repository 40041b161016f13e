//! What is read of a frame. Threads may read one at once, with no lock: each call is shown that the frame is lent for
//! as long as it lasts, and a share of that lifetime, of which there are as many as are wanted.

ghost use Rattle.std.specs.Prelude.{◌≡◌, ◌^◌, Some, length, map, option_map};
ghost use types.Logic.{sem};
ghost use Rattle.dillmonth.specs.Forms.{box_said, handle_said, id_shown, vector_said};
ghost use Rattle.dillmonth.specs.Frames.{FindsFramed, HitsFramed, IsPosed, IsTotalFramed, calls_framed, pose_framed};
ghost use Rattle.dillmonth.specs.Loans.{Loan, is_lent};
ghost use Rattle.dillmonth.specs.Lists.{written};

use crate::conversions::{box_of, handle_of, show_vector, vector_of};
use crate::forms::{CBox, CFacing, CHandle, CPose, CShapeId, CVector};
use crate::getter_forms::CSum;
use crate::rays::{CHit, show_hit};
use crate::shown::write_all;
use crate::statuses::{DONE, NO_WORLD, status_of};
use crate::tallies::show_sum;
use shapes::Pose;
use std::alloc::Global;
use world_core::Frame;
use world_queries::{frame_ray, frame_region, is_ray, is_region};

/// What C passes to a reading call: the pointer of a `CFrame`, by value.
#[repr(C)]
#[derive(Clone, Copy)]
pub struct CFrameRef {
    at: *const u8,
}

fn show_frame_pose(handle: CHandle, pose: Pose) -> CPose
    ensures { result ≡ pose_framed handle pose }
{
    CPose {
        handle,
        at: show_vector(pose.x),
        facing: CFacing {
            c: pose.rot.c,
            s: pose.rot.s,
        },
    }
}

/// Writes the pose of a body, or answers 2.
fn write_pose_in(frame: &Frame, body: CHandle, out: &mut CPose) -> u32
    ensures { IsPosed body (Some frame.now) result out.old out.new }
{
    match frame.pose(handle_of(body)) {
        None => 2,
        Some(pose) => {
            *out = show_frame_pose(body, pose);
            DONE
        }
    }
}

/// Writes what a ray hits, or answers 5.
fn write_hit_in(frame: &Frame, from: CVector, along: CVector, out: &mut CHit) -> u32
    ensures { HitsFramed (vector_said from) (vector_said along) (Some frame.now) result out.old out.new }
{
    let from = vector_of(from);
    let along = vector_of(along);
    if !is_ray(from, along) {
        return 5;
    }
    *out = show_hit(frame_ray(frame, from, along));
    DONE
}

/// Writes the shapes over a region, as many as fit, and counts them; or answers 5 or 1.
fn write_region_in(
    alloc: Global,
    frame: &Frame,
    bounds: &CBox,
    out: &mut [CShapeId],
    count: &mut usize,
) -> u32
    ensures { FindsFramed (box_said bounds.now) (Some frame.now) result count.old count.new out.old out.new }
{
    let bounds = box_of(bounds);
    if !is_region(&bounds) {
        return 5;
    }
    match frame_region(alloc, frame, &bounds) {
        Ok(found) => {
            *count = write_all(found.as_slice(), out);
            DONE
        }
        Err(refusal) => status_of(refusal),
    }
}

/// Writes the total of the ledger.
fn write_total_in(frame: &Frame, out: &mut CSum) -> u32
    ensures { IsTotalFramed (Some frame.now) result out.old out.new }
{
    *out = show_sum(frame.booked());
    DONE
}

fn calls_in(frame: &Frame) -> u64
    ensures { result ≡ calls_framed (Some frame.now) }
{
    frame.calls()
}

/// Where a body was when the frame was taken. Refused 2 where the id names none that lived then and was enabled; `out`
/// is then as it was.
#[unsafe(no_mangle)]
pub unsafe extern "C" fn dm_frame_pose(frame: CFrameRef, body: CHandle, out: &mut CPose) -> u32
    ghost loan: { Loan }
    requires* lent { sem 𝓛 (is_lent loan frame.at) }
    ensures* lent { sem 𝓛 (is_lent loan frame.at) }
    ensures pose { IsPosed body loan.frame result out.old out.new }
{
    if frame.at.is_null() {
        return NO_WORLD;
    }
    write_pose_in(&*(frame.at as *const Frame), body, out)
}

/// The first shape that a ray would have hit, as `dm_ray` answers it. It looks at each shape. Refused 5 as that; `out`
/// is then as it was.
#[unsafe(no_mangle)]
pub unsafe extern "C" fn dm_frame_ray(
    frame: CFrameRef,
    from: CVector,
    along: CVector,
    out: &mut CHit,
) -> u32
    ghost loan: { Loan }
    requires* lent { sem 𝓛 (is_lent loan frame.at) }
    ensures* lent { sem 𝓛 (is_lent loan frame.at) }
    ensures hit { HitsFramed (vector_said from) (vector_said along) loan.frame result out.old out.new }
{
    if frame.at.is_null() {
        return NO_WORLD;
    }
    write_hit_in(&*(frame.at as *const Frame), from, along, out)
}

/// The shapes that lay over a region, as `dm_region` finds them: they are counted, and the first of them written, as
/// many as fit. It looks at each shape. Refused 5 as that, else 1 where memory is wanting; nothing is written then.
#[unsafe(no_mangle)]
pub unsafe extern "C" fn dm_frame_region(
    alloc: Global,
    frame: CFrameRef,
    bounds: &CBox,
    out: &mut [CShapeId],
    count: &mut usize,
) -> u32
    ghost loan: { Loan }
    requires* lent { sem 𝓛 (is_lent loan frame.at) }
    ensures* lent { sem 𝓛 (is_lent loan frame.at) }
    ensures found { FindsFramed (box_said bounds.now) loan.frame result count.old count.new out.old out.new }
{
    if frame.at.is_null() {
        return NO_WORLD;
    }
    write_region_in(alloc, &*(frame.at as *const Frame), bounds, out, count)
}

/// What all causes together had given the movers, which is the movers' momentum, in mass·u/tick.
#[unsafe(no_mangle)]
pub unsafe extern "C" fn dm_frame_total(frame: CFrameRef, out: &mut CSum) -> u32
    ghost loan: { Loan }
    requires* lent { sem 𝓛 (is_lent loan frame.at) }
    ensures* lent { sem 𝓛 (is_lent loan frame.at) }
    ensures total { IsTotalFramed loan.frame result out.old out.new }
{
    if frame.at.is_null() {
        return NO_WORLD;
    }
    write_total_in(&*(frame.at as *const Frame), out)
}

/// How many calls the world had accepted; 0 without a frame.
#[unsafe(no_mangle)]
pub unsafe extern "C" fn dm_frame_calls(frame: CFrameRef) -> u64
    ghost loan: { Loan }
    requires* lent { sem 𝓛 (is_lent loan frame.at) }
    ensures* lent { sem 𝓛 (is_lent loan frame.at) }
    ensures calls { result ≡ calls_framed loan.frame }
{
    if frame.at.is_null() {
        return 0;
    }
    calls_in(&*(frame.at as *const Frame))
}
