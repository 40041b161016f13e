//! Frames: what a world shows at one moment, as a value of its own that no later call changes.

ghost use Rattle.std.specs.Prelude.{◌≡◌, Option, Some, None};
ghost use Rattle.std.specs.Option.{MatchOption};
ghost use Rattle.world_core.specs.Frames.{View as Kept};
ghost use Rattle.dillmonth.specs.HeldFrames.{held_frame};
ghost use Rattle.dillmonth.specs.Frames.{IsFrameHeld, Takes};

use crate::held::{CWorld, put, take};
use crate::raw_box::RawBox;
use crate::statuses::{DONE, NO_WORLD, status_of};
use std::alloc::Global;
use std::marker::Model;
use world_core::Frame;

/// A frame, or none: a struct of one pointer for C, to which the allocator adds no bytes. All bytes 0 are none.
#[repr(C)]
pub struct CFrame {
    at: *mut u8,
    alloc: Global,
    pub ghost frame: { Option Kept },
}

impl Model for CFrame {
    ghost also_owns = { λ f. held_frame f.alloc f.at f.frame };
}

impl CFrame {
    /// No frame.
    fn none(alloc: Global) -> CFrame
        ensures { result.frame ≡ None }
    {
        CFrame {
            at: std::ptr::null_mut(),
            alloc,
        }
    }

    /// This frame.
    fn of(raw: RawBox<Frame, Global>) -> CFrame
        ensures { result.frame ≡ Some raw.value }
    {
        let RawBox { at, alloc } = raw;
        CFrame {
            at: at as *mut u8,
            alloc,
        }
    }

    /// The frame, if there is one.
    fn into_raw(self) -> Option<RawBox<Frame, Global>>
        ensures { MatchOption result (self.frame ≡ None) (λ raw. self.frame ≡ Some raw.value) }
    {
        let CFrame { at, alloc } = self;
        if at.is_null() {
            None
        } else {
            Some(RawBox {
                at: at as *mut Frame,
                alloc,
            })
        }
    }
}

impl Drop for CFrame {
    fn drop(self) {
        if let Some(raw) = self.into_raw() {
            drop(raw.into_box());
        }
    }
}

/// Puts a frame in the place of what is held; 1 where memory is wanting.
fn hold_frame(alloc: Global, held: &mut CFrame, frame: Frame) -> u32
    ensures { IsFrameHeld frame held.old.frame result held.new.frame }
{
    match Box::new(alloc, frame) {
        Ok(frame) => {
            *held = CFrame::of(RawBox::of(frame));
            DONE
        }
        Err(_) => 1,
    }
}

/// Takes a frame of a world: a copy of the poses and the shapes of its enabled bodies, of the movers' momentum and of
/// the number of calls. What was held before is dropped. Refused 1 where memory is wanting, and then it stays.
#[unsafe(no_mangle)]
pub extern "C" fn dm_frame_take(alloc: Global, world: &mut CWorld, frame: &mut CFrame) -> u32
    ensures kept { world.new.desk ≡ world.old.desk }
    ensures taken { Takes world.old.desk frame.old.frame result frame.new.frame }
{
    match take(alloc, world) {
        None => NO_WORLD,
        Some(desk) => {
            let shown = desk.world.frame();
            put(world, desk);
            match shown {
                Ok(shown) => hold_frame(alloc, frame, shown),
                Err(refusal) => status_of(refusal),
            }
        }
    }
}

/// Drops the frame, if there is one.
#[unsafe(no_mangle)]
pub extern "C" fn dm_frame_drop(alloc: Global, frame: &mut CFrame)
    ensures { frame.new.frame ≡ None }
{
    *frame = CFrame::none(alloc);
}

// C may hand a frame to another thread, and there drop it.
unsafe impl Send for CFrame {}
