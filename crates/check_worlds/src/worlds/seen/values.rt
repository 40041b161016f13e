//! How values of a world are written, as parts of a line.

use islands::IslandState;
use std::fmt;
use world_core::{Cause, ContactKey, Course, Handle, Rot, SetName, ShapeId, Total, Vec2};

/// How a handle is written: its slot, a point and its generation.
#[derive(Clone, Copy)]
pub(crate) struct Id(pub(crate) Handle);

/// How a vector is written.
#[derive(Clone, Copy)]
pub(crate) struct Pair(pub(crate) Vec2);

/// How a facing is written.
#[derive(Clone, Copy)]
pub(crate) struct Facing(pub(crate) Rot);

/// How a shape's name is written: its body's slot, a point and its place among the body's shapes.
#[derive(Clone, Copy)]
pub(crate) struct Name(pub(crate) ShapeId);

/// How a contact's key is written.
#[derive(Clone, Copy)]
pub(crate) struct Key(pub(crate) ContactKey);

/// How a total is written.
#[derive(Clone, Copy)]
pub(crate) struct Sum(pub(crate) Total);

/// How the cause of an entry is written.
#[derive(Clone, Copy)]
pub(crate) struct Why(pub(crate) Cause);

/// How a set is written.
#[derive(Clone, Copy)]
pub(crate) struct Set(pub(crate) SetName);

/// How a kinematic body's course is written, after what is told of any body.
#[derive(Clone, Copy)]
pub(crate) struct Way(pub(crate) Option<Course>);

/// How an island's state is written.
#[derive(Clone, Copy)]
pub(crate) struct State(pub(crate) IslandState);

impl fmt::Display for Id {
    fn fmt<W: fmt::Write>(&self, f: &mut fmt::Formatter<W>) -> fmt::Result {
        let Handle { slot, generation } = self.0;
        write!(f, "{slot}.{generation}")
    }
}

impl fmt::Display for Pair {
    fn fmt<W: fmt::Write>(&self, f: &mut fmt::Formatter<W>) -> fmt::Result {
        let Vec2 { x, y } = self.0;
        write!(f, "({x}, {y})")
    }
}

impl fmt::Display for Facing {
    fn fmt<W: fmt::Write>(&self, f: &mut fmt::Formatter<W>) -> fmt::Result {
        let Rot { c, s } = self.0;
        write!(f, "({c}, {s})")
    }
}

impl fmt::Display for Name {
    fn fmt<W: fmt::Write>(&self, f: &mut fmt::Formatter<W>) -> fmt::Result {
        let ShapeId { slot, index } = self.0;
        write!(f, "{slot}.{index}")
    }
}

impl fmt::Display for Key {
    fn fmt<W: fmt::Write>(&self, f: &mut fmt::Formatter<W>) -> fmt::Result {
        let (first, second) = (Name(self.0.first), Name(self.0.second));
        write!(f, "{first} and {second}")
    }
}

impl fmt::Display for Sum {
    fn fmt<W: fmt::Write>(&self, f: &mut fmt::Formatter<W>) -> fmt::Result {
        let Total { x, y } = self.0;
        write!(f, "({x}, {y})")
    }
}

impl fmt::Display for Why {
    fn fmt<W: fmt::Write>(&self, f: &mut fmt::Formatter<W>) -> fmt::Result {
        f.write_str(match self.0 {
            Cause::Command => "command",
            Cause::Gravity => "gravity",
            Cause::Immovable => "immovable",
            Cause::Clamp => "clamp",
            Cause::Rest => "rest",
            Cause::Departed => "departed",
        })
    }
}

impl fmt::Display for Set {
    fn fmt<W: fmt::Write>(&self, f: &mut fmt::Formatter<W>) -> fmt::Result {
        match self.0 {
            SetName::Static => f.write_str("static"),
            SetName::Disabled => f.write_str("disabled"),
            SetName::Awake => f.write_str("awake"),
            SetName::Sleeping(name) => write!(f, "sleeping {name}"),
        }
    }
}

impl fmt::Display for Way {
    fn fmt<W: fmt::Write>(&self, f: &mut fmt::Formatter<W>) -> fmt::Result {
        match self.0 {
            None => Ok(()),
            Some(Course { velocity, spin }) => {
                let velocity = Pair(velocity);
                write!(f, ", velocity {velocity}, spin {spin}")
            }
        }
    }
}

impl fmt::Display for State {
    fn fmt<W: fmt::Write>(&self, f: &mut fmt::Formatter<W>) -> fmt::Result {
        f.write_str(match self.0 {
            IslandState::Whole => "whole",
            IslandState::Loose => "loose",
            IslandState::Asleep => "asleep",
        })
    }
}
