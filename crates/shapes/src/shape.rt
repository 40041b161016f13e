//! Shapes, and the list of them that a body has.

ghost use Rattle.std.specs.Prelude.{◌≡◌, ◌∷◌, ◌++◌, [], OnOk, OnErr, IfOk};
ghost use Rattle.std.specs.Result.{IsOkUnless};
ghost use Rattle.shapes.specs.Shapes.{first_end, second_end, radius_of, default_def};

use crate::Filter;
use fixed_geom::{Refusal, Vec2};
use smallvec::SmallVec;
use std::alloc::Global;
use std::default::Default;
use std::marker::Model;

/// The form of a shape: a core, in u from the body's centre, and the radius round it, in u.
#[derive(Clone, Copy, Debug, PartialEq, Eq)]
pub enum Shape {
    Circle {
        center: Vec2,
        radius: i64,
    },
    Capsule {
        first: Vec2,
        second: Vec2,
        radius: i64,
    },
    /// Of radius 0; for static bodies only.
    Segment {
        first: Vec2,
        second: Vec2,
    },
}

impl Shape {
    /// The first end of the core; of a circle its centre.
    pub fn first_end(&self) -> Vec2
        ensures { result ≡ first_end self.now }
    {
        match self {
            Shape::Circle { center, radius: _ } => *center,
            Shape::Capsule {
                first,
                second: _,
                radius: _,
            } => *first,
            Shape::Segment { first, second: _ } => *first,
        }
    }

    /// The second end of the core; of a circle its centre.
    pub fn second_end(&self) -> Vec2
        ensures { result ≡ second_end self.now }
    {
        match self {
            Shape::Circle { center, radius: _ } => *center,
            Shape::Capsule {
                first: _,
                second,
                radius: _,
            } => *second,
            Shape::Segment { first: _, second } => *second,
        }
    }

    /// The radius; of a segment 0.
    pub fn radius(&self) -> i64
        ensures { result ≡ radius_of self.now }
    {
        match self {
            Shape::Circle { center: _, radius } => *radius,
            Shape::Capsule {
                first: _,
                second: _,
                radius,
            } => *radius,
            Shape::Segment {
                first: _,
                second: _,
            } => 0,
        }
    }
}

/// A shape as it is handed in: its form, its friction and restitution in 256ths, and its filter.
#[derive(Clone, Copy, Debug, PartialEq, Eq)]
pub struct ShapeDef {
    pub shape: Shape,
    pub friction: i64,
    pub restitution: i64,
    pub filter: Filter,
}

impl Default for ShapeDef {
    ghost is_default = { λ d. d ≡ default_def };

    fn default() -> ShapeDef {
        ShapeDef {
            shape: Shape::Circle {
                center: Vec2 { x: 0, y: 0 },
                radius: 0,
            },
            friction: 0,
            restitution: 0,
            filter: Filter::default(),
        }
    }
}

/// The shapes of a body. One shape, the usual number, takes no allocation.
#[derive(Drop)]
pub struct Shapes {
    defs: SmallVec<ShapeDef, 1>,
}

impl Model for Shapes {
    ghost use Rattle.std.specs.Prelude.{List};
    ghost use Rattle.shapes.specs.declared.shape.ShapeDef.{ShapeDef};

    ghost Value = { List ShapeDef };

    ghost view = { λ a. a.defs.items };
}

impl Shapes {
    /// No shapes.
    pub fn new(alloc: Global) -> Shapes
        ensures { result ≡ [] }
    {
        Shapes {
            defs: SmallVec::new(alloc),
        }
    }

    /// Adds a shape at the end; refused 1 with nothing changed where memory is wanting.
    pub fn push(&mut self, def: ShapeDef) -> Result<(), Refusal>
        ensures ok { OnOk result (self.new ≡ self.old ++ def ∷ []) }
        ensures err { OnErr result (self.new ≡ self.old) }
        ensures memory_only { IsOkUnless result Refusal.NoMemory }
    {
        self.defs.push(def)?;
        Ok(())
    }

    /// The shapes, in the order in which they were added.
    pub fn as_slice(&self) -> &[ShapeDef]
        ensures { result.now ≡ self.now }
    {
        self.defs.as_slice()
    }

    /// A copy.
    pub fn try_copy(&self) -> Result<Shapes, Refusal>
        ensures copy { IfOk result (λ copied. copied ≡ self.now) }
        ensures memory_only { IsOkUnless result Refusal.NoMemory }
    {
        let defs = SmallVec::from_slice(*self.defs.allocator(), self.defs.as_slice())?;
        Ok(Shapes { defs })
    }
}
