//! What is asked of a saved world.

ghost use Rattle.std.specs.Prelude.{◌≡◌};
ghost use Rattle.world_file_base.specs.Asks.{clause_number, refusal_of};
ghost use Rattle.world_file_base.specs.declared.clause.Broken.TheVariants.{NoMemory};

use fixed_geom::Refusal;
use std::alloc::{AllocError, AllocFailed};
/// What a saved world has to keep, in the order in which it is asked.
#[derive(Clone, Copy, Debug, PartialEq, Eq)]
pub enum Clause {
    /// The value is an object with just the keys that it needs, whose values have the types that they need, and so on
    /// in all of its parts; and the version is one that is read.
    Form,
    /// Each number is within its limits, and each body has shapes that it may have.
    Limits,
    /// A slot's generation is 1 to 4294967295, and at the last one nothing is in the slot.
    Generations,
    /// A joint is between two bodies that are there. Contacts ascend by their shapes, which are those of two enabled
    /// bodies, one of them dynamic; one has a point or two if it touches, and none if it doesn't.
    References,
    /// Each shape lies in its fat box.
    FatBoxes,
    /// Just the movers have islands, which are named by their lowest slots; all movers of an island say the same of it.
    Memberships,
    /// Two movers that a joint or a touching contact links are in one island.
    Links,
    /// An island that isn't loose is all that its links join; one that sleeps isn't loose; and what isn't an awake
    /// mover is at rest.
    Islands,
    /// Just those constraints have a colour whose movers are awake, and no two of one colour share a mover.
    Colours,
    /// The movers' momentum is the sum of the ledger.
    Momentum,
}

impl Clause {
    /// The number of the clause, from 1.
    pub fn number(self) -> u8
        ensures { result ≡ clause_number self }
    {
        match self {
            Clause::Form => 1,
            Clause::Limits => 2,
            Clause::Generations => 3,
            Clause::References => 4,
            Clause::FatBoxes => 5,
            Clause::Memberships => 6,
            Clause::Links => 7,
            Clause::Islands => 8,
            Clause::Colours => 9,
            Clause::Momentum => 10,
        }
    }
}

/// Why no world was read.
#[derive(Clone, Copy, Debug, PartialEq, Eq)]
pub enum Broken {
    /// Memory was wanting.
    NoMemory,
    /// This is the first clause that the value breaks.
    Clause(Clause),
}

impl Broken {
    /// The refusal that a call answers.
    pub fn refusal(self) -> Refusal
        ensures { result ≡ refusal_of self }
    {
        match self {
            Broken::NoMemory => Refusal::NoMemory,
            Broken::Clause(clause) => Refusal::BadFile(clause.number()),
        }
    }
}

impl From<AllocError> for Broken {
    ghost from_gives = { λ _ broken. broken ≡ NoMemory };

    fn from(_e: AllocError) -> Broken {
        Broken::NoMemory
    }
}

impl<T: Drop> From<AllocFailed<T>> for Broken {
    ghost from_gives = { λ _ broken. broken ≡ NoMemory };

    fn from(_e: AllocFailed<T>) -> Broken {
        Broken::NoMemory
    }
}
