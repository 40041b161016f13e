//! The versions of the form of a saved world.

ghost use Rattle.std.specs.Prelude.{◌≡◌};
ghost use Rattle.world_file_base.specs.Reading.{seen};
ghost use Rattle.world_file_base.specs.Written.{natural_or_null};
ghost use Rattle.world_file_base.specs.Versions.{
  colour_in,
  colour_of_number,
  most_slots,
  overflow_of,
};
ghost use Rattle.world_file_base.specs.AskedValues.{colour_asks};
ghost use Rattle.serde_json.specs.View.{view};

use crate::clause::Clause;
use crate::reader::Reader;
use crate::values::is_null;
use body_handles::MAX_SLOTS;
use graph_colours::OVERFLOW;
use serde_json::Value;

/// How many slots of bodies, and of joints, a world of version 1 has at most.
const FIRST_SLOTS: usize = 16_384;

/// The overflow of version 1, which had colours 0 to 11.
const FIRST_OVERFLOW: u8 = 12;

/// The version of the form: both have the same keys.
#[derive(Clone, Copy, Debug, PartialEq, Eq)]
pub enum Version {
    /// Of 16,384 slots and 12 colours. It is read and no longer written.
    First,
    /// Of 65,536 slots and 24 colours.
    Second,
}

impl Version {
    /// How many slots of bodies there are at most, and of joints.
    pub fn slots(self) -> usize
        ensures { result ≡ most_slots self }
    {
        match self {
            Version::First => FIRST_SLOTS,
            Version::Second => MAX_SLOTS,
        }
    }

    /// The number that stands for the overflow.
    fn overflow(self) -> u8
        ensures { result ≡ overflow_of self }
    {
        match self {
            Version::First => FIRST_OVERFLOW,
            Version::Second => OVERFLOW,
        }
    }

    /// The colour that a number stands for, if it stands for one. A constraint in the overflow stays there, also where
    /// the world has more colours than the version.
    pub fn colour(self, number: u8) -> Option<u8>
        ensures { result ≡ colour_of_number self number }
    {
        if number < self.overflow() {
            Some(number)
        } else if number == self.overflow() {
            Some(OVERFLOW)
        } else {
            None
        }
    }
}

/// Reads a colour, or none.
pub(crate) fn read_colour(
    reader: &mut Reader,
    value: Option<&Value>,
    version: Version,
) -> Option<u8>
    ensures value { result ≡ colour_in version (seen value.entry) }
    ensures asked { reader.new ≡ colour_asks version (seen value.entry) reader.old }
{
    if is_null(value) {
        return None;
    }
    let colour = version.colour(reader.byte(value));
    reader.ask(colour.is_some(), Clause::Colours);
    colour
}

pub(crate) fn colour_value(colour: Option<u8>) -> Value
    ensures { view result ≡ natural_or_null colour }
{
    match colour {
        Some(colour) => Value::from(colour),
        None => Value::from(()),
    }
}
