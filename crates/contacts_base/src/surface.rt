//! What friction and restitution a shape has, and two shapes together.

ghost use Rattle.std.specs.Prelude.{◌≡◌};
ghost use Rattle.contacts_base.specs.Surfaces.{IsSurface, mixed};

use shapes::{mixed_friction, mixed_restitution};
use std::marker::Model;

/// The friction and the restitution of a shape, or of two shapes together, in 256ths.
#[derive(Clone, Copy, Debug, PartialEq, Eq)]
pub struct Surface {
    pub friction: i64,
    pub restitution: i64,
}

impl Surface {
    /// That of two shapes together: the root of the product of the frictions, rounded down, and the
    /// greater restitution, as Box2D mixes them.
    pub fn mixed(self, other: Surface) -> Surface
        requires first { IsSurface self }
        requires second { IsSurface other }
        ensures value { result ≡ mixed self other }
        ensures surface { IsSurface result }
    {
        Surface {
            friction: mixed_friction(self.friction, other.friction),
            restitution: mixed_restitution(self.restitution, other.restitution),
        }
    }
}

/// A surface in four bytes. Contracts see the surface.
#[derive(Clone, Copy, Debug, PartialEq, Eq)]
pub struct PackedSurface {
    friction: u16,
    restitution: u16,
}

impl Model for PackedSurface {
    ghost use Rattle.std.specs.Prelude.{pos, unsigned_abs};
    ghost use Rattle.contacts_base.specs.declared.surface.Surface.{Surface};

    ghost Value = { Surface };

    ghost view = { λ a. record { friction = pos a.friction; restitution = pos a.restitution } };

    ghost inverse = { λ s. record { friction = unsigned_abs s.friction; restitution = unsigned_abs s.restitution } };
}

impl PackedSurface {
    /// A surface in little memory.
    #[inline(always)]
    pub fn new(surface: Surface) -> PackedSurface
        requires { IsSurface surface }
        ensures { result ≡ surface }
    {
        PackedSurface {
            friction: surface.friction.unsigned_abs() as u16,
            restitution: surface.restitution.unsigned_abs() as u16,
        }
    }

    /// The surface.
    #[inline(always)]
    pub fn get(&self) -> Surface
        ensures { result ≡ self.now }
    {
        Surface {
            friction: i64::from(self.friction),
            restitution: i64::from(self.restitution),
        }
    }
}
