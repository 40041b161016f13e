//! What a caller in C holds between calls.

ghost use Rattle.std.specs.Prelude.{◌≡◌, Option, Some, None};
ghost use Rattle.std.specs.Option.{MatchOption};
ghost use Rattle.world_desk.specs.declared.desk.Desk.{Desk as Kept};
ghost use Rattle.dillmonth.specs.Held.{held};

use crate::raw_box::RawBox;
use std::alloc::Global;
use std::marker::Model;
use world_desk::Desk;

/// A world with its desk, or none: a struct of one pointer for C, to which the allocator adds no bytes. All bytes 0 are
/// none.
#[repr(C)]
pub struct CWorld {
    at: *mut u8,
    alloc: Global,
    pub ghost desk: { Option Kept },
}

impl Model for CWorld {
    ghost also_owns = { λ w. held w.alloc w.at w.desk };
}

impl CWorld {
    /// No world.
    pub(crate) fn none(alloc: Global) -> CWorld
        ensures { result.desk ≡ None }
    {
        CWorld {
            at: std::ptr::null_mut(),
            alloc,
        }
    }

    /// The world of this desk.
    pub(crate) fn of(raw: RawBox<Desk, Global>) -> CWorld
        ensures { result.desk ≡ Some raw.value }
    {
        let RawBox { at, alloc } = raw;
        CWorld {
            at: at as *mut u8,
            alloc,
        }
    }

    /// Its desk, if there is one.
    pub(crate) fn into_raw(self) -> Option<RawBox<Desk, Global>>
        ensures { MatchOption result (self.desk ≡ None) (λ raw. self.desk ≡ Some raw.value) }
    {
        let CWorld { at, alloc } = self;
        if at.is_null() {
            None
        } else {
            Some(RawBox {
                at: at as *mut Desk,
                alloc,
            })
        }
    }
}

impl Drop for CWorld {
    fn drop(self) {
        if let Some(raw) = self.into_raw() {
            drop(raw.into_box());
        }
    }
}

/// Takes the desk out, and leaves none.
pub(crate) fn take(alloc: Global, world: &mut CWorld) -> Option<Box<Desk>>
    ensures out { MatchOption result (world.old.desk ≡ None) (λ desk. world.old.desk ≡ Some desk.value) }
    ensures none { world.new.desk ≡ None }
{
    let before = std::mem::replace(world, CWorld::none(alloc));
    match before.into_raw() {
        None => None,
        Some(raw) => Some(raw.into_box()),
    }
}

/// Puts a desk in. What was there is dropped.
pub(crate) fn put(world: &mut CWorld, desk: Box<Desk>)
    ensures { world.new.desk ≡ Some desk.value }
{
    *world = CWorld::of(RawBox::of(desk));
}

// C may hand a world to another thread, and there gives it to one call at a time.
unsafe impl Send for CWorld {}
