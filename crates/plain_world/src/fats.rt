//! The fat boxes of a body's shapes.

ghost use Rattle.std.specs.Prelude.{◌≡◌, ◌∷◌, ◌++◌, [], All, IfOk, OnErr, OnOk, false, length};
ghost use Rattle.std.specs.Result.{IsOkUnless};
ghost use Rattle.shapes.specs.Shapes.{IsShape, IsShapeDef};
ghost use Rattle.shapes.specs.Poses.{IsPose};
ghost use Rattle.plain_world.specs.Fats.{AreFatBoxes, fat_box_of, fat_boxes, renewed, renewed_boxes};

use fixed_geom::{Box2, Refusal, contains};
use shapes::{Pose, Shape, ShapeDef, fat_box, tight_box};
use smallvec::SmallVec;
use std::alloc::Global;
use std::marker::Model;

/// For each shape of a body a box that holds it with room to move in, in u. One box, the usual number,
/// takes no allocation.
#[derive(Drop)]
pub struct FatBoxes {
    boxes: SmallVec<Box2, 1>,
}

impl Model for FatBoxes {
    ghost use Rattle.std.specs.Prelude.{List};
    ghost use Rattle.fixed_geom.specs.declared.boxes.Box2.{Box2};

    ghost Value = { List Box2 };

    ghost view = { λ a. a.boxes.items };
}

impl FatBoxes {
    /// No boxes.
    pub fn new(alloc: Global) -> FatBoxes
        ensures { result ≡ [] }
    {
        FatBoxes {
            boxes: SmallVec::new(alloc),
        }
    }

    /// The boxes round the shapes of a body with this pose.
    pub fn around(alloc: Global, defs: &[ShapeDef], pose: Pose) -> Result<FatBoxes, Refusal>
        requires defs { All IsShapeDef defs.now }
        requires pose { IsPose pose }
        ensures boxes { IfOk result (λ fats. fats ≡ fat_boxes defs.now pose) }
        ensures fat { IfOk result (λ fats. AreFatBoxes pose defs.now fats) }
        ensures memory_only { IsOkUnless result Refusal.NoMemory }
    {
        let mut boxes = SmallVec::new(alloc);
        for def in defs {
            boxes.push(fat_box_of(&def.shape, pose))?;
        }
        Ok(FatBoxes { boxes })
    }

    /// Adds a box for one more shape.
    pub fn push(&mut self, fat: Box2) -> Result<(), Refusal>
        ensures ok { OnOk result (self.new ≡ self.old ++ fat ∷ []) }
        ensures err { OnErr result (self.new ≡ self.old) }
        ensures memory_only { IsOkUnless result Refusal.NoMemory }
    {
        self.boxes.push(fat)?;
        Ok(())
    }

    /// The boxes, in the shapes' order.
    pub fn as_slice(&self) -> &[Box2]
        ensures { result.now ≡ self.now }
    {
        self.boxes.as_slice()
    }

    /// A copy.
    pub fn try_copy(&self) -> Result<FatBoxes, Refusal>
        ensures copy { IfOk result (λ copied. copied ≡ self.now) }
        ensures memory_only { IsOkUnless result Refusal.NoMemory }
    {
        let boxes = SmallVec::from_slice(*self.boxes.allocator(), self.boxes.as_slice())?;
        Ok(FatBoxes { boxes })
    }

    /// Makes each box anew that its shape's tight box has left. Answers whether it made one anew; the boxes are
    /// otherwise as they were.
    pub fn renew(&mut self, defs: &[ShapeDef], pose: Pose) -> bool
        requires defs { All IsShapeDef defs.now }
        requires pose { IsPose pose }
        requires boxes { length self.old ≡ length defs.now }
        ensures boxes { self.new ≡ renewed_boxes pose defs.now self.old }
        ensures same { result ≡ false → self.new ≡ self.old }
    {
        renew_all(self.boxes.as_mut_slice(), defs, pose)
    }
}

fn fat_box_of(shape: &Shape, pose: Pose) -> Box2
    requires shape { IsShape shape.now }
    requires pose { IsPose pose }
    ensures { result ≡ fat_box_of shape.now pose }
{
    fat_box(tight_box(shape, pose))
}

/// Makes a box anew if the shape's tight box has left it. Answers whether it did.
#[tactic(auto, unfolding(crate::specs::Fats::renewed))]
fn renew_box(fat: &mut Box2, shape: &Shape, pose: Pose) -> bool
    requires shape { IsShape shape.now }
    requires pose { IsPose pose }
    ensures renewed { fat.new ≡ renewed shape.now pose fat.old }
    ensures same { result ≡ false → fat.new ≡ fat.old }
{
    let tight = tight_box(shape, pose);
    if contains(*fat, tight) {
        return false;
    }
    *fat = fat_box(tight);
    true
}

fn renew_all(boxes: &mut [Box2], defs: &[ShapeDef], pose: Pose) -> bool
    requires defs { All IsShapeDef defs.now }
    requires pose { IsPose pose }
    requires boxes { length boxes.old ≡ length defs.now }
    ensures renewed { boxes.new ≡ renewed_boxes pose defs.now boxes.old }
    ensures same { result ≡ false → boxes.new ≡ boxes.old }
{
    let mut any = false;
    for place in 0..boxes.len() {
        any = renew_box(&mut boxes[place], &defs[place].shape, pose) | any;
    }
    any
}
