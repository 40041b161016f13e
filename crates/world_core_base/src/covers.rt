//! Boxes that hold the fat boxes of a body, in a tree of boxes by slot.

ghost use Rattle.std.specs.Prelude.{◌≡◌, ◌≤◌, ◌<◌, ◌≤ℤ◌, ℕ, IfOk, OnErr, OnOk, Some, false, is_some, length, slice_set, true};
ghost use Rattle.std.specs.Result.{IsOkUnless};
ghost use Rattle.fixed_geom.specs.Boxes.{Contains};
ghost use Rattle.box_tree.specs.BoxLists.{box_at};
ghost use Rattle.world_core_base.specs.Covers.{AreCovered, AreOtherBoxes, HoldsAll, IsCover, IsCovered};

use body_handles::MAX_SLOTS;
use box_tree::{BoxTree, MAX_KEYS};
use fixed_geom::{Box2, Refusal, Vec2};
use plain_world::Body;
use std::alloc::Global;

// The box of a body without fat boxes.
const NOWHERE: Box2 = Box2 {
    lo: Vec2 { x: 0, y: 0 },
    hi: Vec2 { x: 0, y: 0 },
};

/// The lesser of the two.
fn lower(a: i64, b: i64) -> i64
    ensures first { result ≤ℤ a }
    ensures second { result ≤ℤ b }
{
    if a < b { a } else { b }
}

/// The greater of the two.
fn higher(a: i64, b: i64) -> i64
    ensures first { a ≤ℤ result }
    ensures second { b ≤ℤ result }
{
    if a < b { b } else { a }
}

/// The least box that holds both.
fn joined(a: Box2, b: Box2) -> Box2
    ensures first { Contains result a }
    ensures second { Contains result b }
{
    Box2 {
        lo: Vec2 {
            x: lower(a.lo.x, b.lo.x),
            y: lower(a.lo.y, b.lo.y),
        },
        hi: Vec2 {
            x: higher(a.hi.x, b.hi.x),
            y: higher(a.hi.y, b.hi.y),
        },
    }
}

/// The first of the boxes, or any box where there is none.
fn first_box(fats: &[Box2]) -> Box2 {
    match fats.first() {
        Some(first) => *first,
        None => NOWHERE,
    }
}

/// The least box that holds all of these, or any where there is none.
fn hull_of(fats: &[Box2]) -> Box2
    ensures { HoldsAll result fats.now }
{
    let mut hull = first_box(fats);
    for place in 0..fats.len() {
        hull = joined(hull, fats[place]);
    }
    hull
}

/// Gives a slot that has a box or none this one. Refused 1 where memory is wanting, which it isn't where the slot has a
/// box.
fn put_box(boxes: &mut BoxTree, slot: u32, bounds: &Box2) -> Result<(), Refusal>
    requires { slot < length boxes.old }
    ensures put { OnOk result (boxes.new ≡ slice_set boxes.old slot (Some bounds.now)) }
    ensures refused { OnErr result (boxes.new ≡ boxes.old) }
    ensures memory_only { IsOkUnless result Refusal.NoMemory }
{
    if boxes.get(slot).is_some() {
        boxes.replace(slot, bounds);
        return Ok(());
    }
    boxes.insert(slot, bounds)
}

/// Allows a box for one slot more, if it is wanted. Refused 1 where memory is wanting, or there are [`MAX_KEYS`] slots.
fn allow(boxes: &mut BoxTree, slot: u32) -> Result<(), Refusal>
    requires { slot ≤ length boxes.old }
    ensures room { OnOk result (slot < length boxes.new) }
    ensures same { (s : ℕ) → box_at boxes.new s ≡ box_at boxes.old s }
    ensures len { length boxes.old ≤ length boxes.new }
    ensures memory_only { IsOkUnless result Refusal.NoMemory }
{
    if (slot as usize) < boxes.keys() {
        return Ok(());
    }
    if slot >= MAX_KEYS {
        return Err(Refusal::NoMemory);
    }
    boxes.grow()
}

/// Gives a slot a box that holds these; it may be the first slot that none is allowed for yet.
pub(crate) fn cover(boxes: &mut BoxTree, slot: u32, fats: &[Box2]) -> Result<(), Refusal>
    requires { slot ≤ length boxes.old }
    ensures covered { OnOk result (IsCover (box_at boxes.new slot) fats.now) }
    ensures others { AreOtherBoxes slot boxes.old boxes.new }
    ensures len { length boxes.old ≤ length boxes.new }
    ensures memory_only { IsOkUnless result Refusal.NoMemory }
{
    allow(boxes, slot)?;
    put_box(boxes, slot, &hull_of(fats))
}

/// Takes the box of a slot out, if it has one.
pub(crate) fn uncover(boxes: &mut BoxTree, slot: u32)
    ensures others { AreOtherBoxes slot boxes.old boxes.new }
    ensures len { length boxes.new ≡ length boxes.old }
{
    if boxes.get(slot).is_some() {
        boxes.remove(slot);
    }
}

/// Gives a slot that has a box one that holds these. Takes no memory.
fn replace_cover(boxes: &mut BoxTree, slot: u32, fats: &[Box2])
    requires { is_some (box_at boxes.old slot) ≡ true }
    ensures covered { IsCover (box_at boxes.new slot) fats.now }
    ensures others { AreOtherBoxes slot boxes.old boxes.new }
    ensures len { length boxes.new ≡ length boxes.old }
{
    boxes.replace(slot, &hull_of(fats));
}

/// Makes the box of a slot anew where the fat boxes of its body were made anew. Takes no memory.
pub(crate) fn cover_again(boxes: &mut BoxTree, slot: u32, entry: &Option<Body>, made: bool)
    requires { is_some entry.now ≡ true → is_some (box_at boxes.old slot) ≡ true }
    ensures covered { made ≡ true → IsCovered (box_at boxes.new slot) entry.now }
    ensures same { made ≡ false → boxes.new ≡ boxes.old }
    ensures others { AreOtherBoxes slot boxes.old boxes.new }
    ensures len { length boxes.new ≡ length boxes.old }
{
    if !made {
        return;
    }
    match entry {
        None => {}
        Some(body) => replace_cover(boxes, slot, body.fats.as_slice()),
    }
}

/// Gives the next slot a box that holds the fat boxes of its body, if one is there.
fn cover_next(boxes: &mut BoxTree, slot: u32, entry: &Option<Body>) -> Result<(), Refusal>
    requires { slot ≤ length boxes.old }
    ensures room { OnOk result (slot < length boxes.new) }
    ensures covered { OnOk result (IsCovered (box_at boxes.new slot) entry.now) }
    ensures others { AreOtherBoxes slot boxes.old boxes.new }
    ensures memory_only { IsOkUnless result Refusal.NoMemory }
{
    allow(boxes, slot)?;
    match entry {
        None => Ok(()),
        Some(body) => cover(boxes, slot, body.fats.as_slice()),
    }
}

/// Boxes by slot that hold the fat boxes of these bodies.
pub(crate) fn cover_all(alloc: Global, bodies: &[Option<Body>]) -> Result<BoxTree, Refusal>
    requires { length bodies.now ≤ MAX_SLOTS }
    ensures covered { IfOk result (λ boxes. AreCovered bodies.now boxes) }
    ensures len { IfOk result (λ boxes. length bodies.now ≤ length boxes) }
    ensures memory_only { IsOkUnless result Refusal.NoMemory }
{
    let mut boxes = BoxTree::new(alloc);
    for slot in 0..bodies.len() {
        cover_next(&mut boxes, slot as u32, &bodies[slot])?;
    }
    Ok(boxes)
}
