//! Why a trial ends early: what differed, and when.

use fixed_geom::Refusal;
use std::fmt;

/// When two worlds were compared.
#[derive(Clone, Copy)]
pub enum Moment {
    /// After the refused call, with the world before it.
    Refused,
    /// After the accepted call, with a world that met no refusal.
    Accepted,
}

/// What was compared.
#[derive(Clone, Copy)]
pub enum Part {
    Answer,
    SlotEntries,
    Bodies,
    JointEntries,
    Joints,
    Contacts,
    Colours,
    Islands,
    Gravity,
    Steps,
    Calls,
    Entries,
    Totals,
    Events,
}

/// Why a trial ended early.
#[derive(Clone, Copy)]
pub enum Stop {
    /// Memory was refused to something beside the call.
    Outside,
    /// What prepares the trial was refused for another reason.
    Unprepared(Refusal),
    /// Two things that have to be equal differ.
    Differs(Moment, Part),
}

impl From<Refusal> for Stop {
    fn from(refusal: Refusal) -> Stop {
        match refusal {
            Refusal::NoMemory => Stop::Outside,
            other => Stop::Unprepared(other),
        }
    }
}

impl fmt::Display for Moment {
    fn fmt<W: fmt::Write>(&self, f: &mut fmt::Formatter<W>) -> fmt::Result {
        f.write_str(match self {
            Moment::Refused => "after the refused call",
            Moment::Accepted => "after the accepted call",
        })
    }
}

impl fmt::Display for Part {
    fn fmt<W: fmt::Write>(&self, f: &mut fmt::Formatter<W>) -> fmt::Result {
        f.write_str(match self {
            Part::Answer => "the answer",
            Part::SlotEntries => "the places",
            Part::Bodies => "the bodies",
            Part::JointEntries => "the joints' places",
            Part::Joints => "the joints",
            Part::Contacts => "the contacts",
            Part::Colours => "the colours",
            Part::Islands => "the islands",
            Part::Gravity => "the gravity",
            Part::Steps => "the number of steps",
            Part::Calls => "the number of calls",
            Part::Entries => "the ledger's entries",
            Part::Totals => "the ledger's totals",
            Part::Events => "the events",
        })
    }
}

impl fmt::Display for Stop {
    fn fmt<W: fmt::Write>(&self, f: &mut fmt::Formatter<W>) -> fmt::Result {
        match self {
            Stop::Outside => f.write_str("outside"),
            Stop::Unprepared(refusal) => write!(f, "unprepared: {refusal}"),
            Stop::Differs(moment, part) => write!(f, "differs {moment}: {part}"),
        }
    }
}
