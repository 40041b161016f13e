//! What is read of bodies and joints, of how much there is, and of the ledger, as C has it.

ghost use Rattle.std.specs.Prelude.{◌≡◌, cond};
ghost use Rattle.dillmonth.specs.Getters.{id_shown, number_or_none};

use crate::conversions::show_handle;
use crate::forms::{CHandle, CJointDef};
use world_core::Handle;

/// What a body is.
#[repr(C)]
#[derive(Clone, Copy)]
pub struct CBodyInfo {
    /// 0 static, 1 kinematic, 2 dynamic.
    pub kind: u32,
    /// 0 where it is disabled.
    pub enabled: u32,
    pub mass: i64,
    pub inertia: i64,
    /// How many shapes it has.
    pub shapes: usize,
    /// The name of a mover's island, awake or asleep: its lowest slot. 2^32 - 1 of all others.
    pub island: u32,
    pub unused: u32,
}

/// What can be seen of a joint.
#[repr(C)]
#[derive(Clone, Copy)]
pub struct CJointView {
    pub def: CJointDef,
    /// The impulse that it keeps, in mass·u/tick, above zero where it pushes its bodies apart.
    pub impulse: i64,
    /// Its colour while it acts, 24 in the overflow; else 2^32 - 1.
    pub colour: u32,
    pub unused: u32,
}

/// How much there is of a world.
#[repr(C)]
#[derive(Clone, Copy)]
pub struct CCounts {
    pub bodies: usize,
    /// The movers that are awake.
    pub awake: usize,
    pub joints: usize,
    /// The contacts of near shapes.
    pub contacts: usize,
    /// Those of them that touch.
    pub touching: usize,
    pub islands: usize,
    /// The colours that some constraint has; the overflow counts as one.
    pub colours: usize,
}

/// A sum of impulses, in mass·u/tick. Each component is its upper half times 2^64 and its lower one.
#[repr(C)]
#[derive(Clone, Copy)]
pub struct CSum {
    pub x_low: u64,
    pub x_high: i64,
    pub y_low: u64,
    pub y_high: i64,
}

/// What stands for a number of 32 bits where there is none.
pub(crate) const NONE: u32 = 4_294_967_295;

pub(crate) const NOBODY: CHandle = CHandle {
    slot: 0,
    generation: 0,
};

/// 1 for what holds, and 0 for what doesn't.
pub(crate) fn number_of(holds: bool) -> u32
    ensures { result ≡ cond holds 1 0 }
{
    if holds { 1 } else { 0 }
}

pub(crate) fn number_or_none(number: Option<u32>) -> u32
    ensures { result ≡ number_or_none number }
{
    match number {
        None => NONE,
        Some(number) => number,
    }
}

/// The id of what is in a slot, or one that names nothing.
pub(crate) fn id_or_nobody(handle: Option<Handle>) -> CHandle
    ensures { result ≡ id_shown handle }
{
    match handle {
        None => NOBODY,
        Some(handle) => show_handle(handle),
    }
}
