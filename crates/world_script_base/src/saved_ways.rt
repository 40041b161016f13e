//! The ways to the values of a saved item.

use serde_json::Value;
use std::fmt;

/// A part of a saved item whose keys are looked at.
#[derive(Clone, Copy, Debug, PartialEq, Eq)]
pub enum Part {
    /// The item itself.
    Item,
    /// The body or the joint in a slot, by its key.
    Within(&'static str),
    /// A body's shape, counted from 0.
    Shape(usize),
    /// A contact's point, counted from 0.
    Point(usize),
}

impl Part {
    /// This part of an item, if it has it.
    fn of(self, item: &mut Value) -> Option<&mut Value> {
        match self {
            Part::Item => Some(item),
            Part::Within(key) => item.get_mut(key),
            Part::Shape(index) => item.get_mut("body")?.get_mut("shapes")?.get_mut(index),
            Part::Point(index) => item.get_mut("points")?.get_mut(index),
        }
    }
}

/// The way to a value of a saved item: a part of the item, and a key of it.
#[derive(Clone, Copy, Debug, PartialEq, Eq)]
pub struct Way {
    pub part: Part,
    pub key: &'static str,
}

impl fmt::Display for Way {
    fn fmt<W: fmt::Write>(&self, f: &mut fmt::Formatter<W>) -> fmt::Result {
        match self.part {
            Part::Item => {}
            Part::Within(key) => write!(f, ".{key}")?,
            Part::Shape(index) => write!(f, ".body.shapes[{index}]")?,
            Part::Point(index) => write!(f, ".points[{index}]")?,
        }
        let key = self.key;
        write!(f, ".{key}")
    }
}

impl Way {
    /// The value at the end of the way, if there is one.
    pub(crate) fn value_in(self, item: &mut Value) -> Option<&mut Value> {
        self.part.of(item)?.get_mut(self.key)
    }
}
