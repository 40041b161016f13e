//! Why a call is refused.

ghost use Rattle.std.specs.Prelude.{◌≡◌};
ghost use Rattle.fixed_geom.specs.Refusals.{number_of};
ghost use Rattle.fixed_geom.specs.declared.refusal.Refusal.TheVariants.{NoMemory};

use std::alloc::{AllocError, AllocFailed};
use thiserror::Error;

/// Why a call was refused. After any refusal the state is as it was.
///
/// A call that answers a `Result` with a `Refusal` is refused 1, [`Refusal::NoMemory`], where it asks for memory that
/// is not given. That holds of all such calls, so their comments tell only what else they refuse, and whether they take
/// no memory. A clause `memory_only` says that a call is refused for nothing else.
#[derive(Clone, Copy, Debug, PartialEq, Eq, Error)]
pub enum Refusal {
    /// A growth, or one more owner of a shared frame, was refused.
    #[error("no memory")]
    NoMemory,
    /// The id names no live body or joint.
    #[error("the id names nothing that lives")]
    StaleHandle,
    /// Each slot is taken or worn out.
    #[error("no slot can be given out")]
    TooMany,
    /// No shape or more than eight, or a shape of a form, a radius or a position that isn't allowed.
    #[error("a shape that is not allowed")]
    BadShape,
    /// A number is outside its limit.
    #[error("a number outside its limit")]
    OutOfRange,
    /// The body is not dynamic.
    #[error("the body does not move")]
    NotAMover,
    /// Both ends of a joint are one body.
    #[error("both ends are one body")]
    SameBody,
    /// The body is disabled.
    #[error("the body is disabled")]
    BodyDisabled,
    /// A push would take a momentum beyond 2^60, or an angular momentum beyond 2^90, in size.
    #[error("a momentum beyond its limit")]
    TooFast,
    /// 2^40 calls were accepted, or 2^40 frames published.
    #[error("no more calls are accepted")]
    WornOut,
    /// A worker could not be started.
    #[error("a worker could not be started")]
    NoThread,
    /// A saved world breaks this clause of its format, the first that it breaks.
    #[error("the saved world breaks clause {0}")]
    BadFile(u8),
    /// A shared world was to be closed without all of its seats.
    #[error("a seat is missing")]
    WrongSeats,
    /// A frame to be published is older than the published one.
    #[error("the frame is older than the published one")]
    WentBack,
    /// The body is not kinematic.
    #[error("the body has no velocity of its own")]
    NotKinematic,
}

impl Refusal {
    /// The number that stands for the refusal in answers, from 1 to 15 in the order above.
    pub fn number(self) -> u64
        ensures { result ≡ number_of self }
    {
        match self {
            Refusal::NoMemory => 1,
            Refusal::StaleHandle => 2,
            Refusal::TooMany => 3,
            Refusal::BadShape => 4,
            Refusal::OutOfRange => 5,
            Refusal::NotAMover => 6,
            Refusal::SameBody => 7,
            Refusal::BodyDisabled => 8,
            Refusal::TooFast => 9,
            Refusal::WornOut => 10,
            Refusal::NoThread => 11,
            Refusal::BadFile(_) => 12,
            Refusal::WrongSeats => 13,
            Refusal::WentBack => 14,
            Refusal::NotKinematic => 15,
        }
    }
}

impl From<AllocError> for Refusal {
    ghost from_gives = { λ _ e. e ≡ NoMemory };

    fn from(_e: AllocError) -> Refusal {
        Refusal::NoMemory
    }
}

impl<T: Drop> From<AllocFailed<T>> for Refusal {
    ghost from_gives = { λ _ e. e ≡ NoMemory };

    fn from(_e: AllocFailed<T>) -> Refusal {
        Refusal::NoMemory
    }
}
