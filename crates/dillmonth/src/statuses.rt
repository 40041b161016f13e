//! The numbers that calls answer.

ghost use Rattle.std.specs.Prelude.{◌≡◌};
ghost use Rattle.dillmonth.specs.Statuses.{status_of, unread_status};

use fixed_geom::Refusal;
use world_core::Broken;
use world_desk::Unread;

/// The call did what it says. Refusals have the numbers 1 to 15.
pub(crate) const DONE: u32 = 0;

/// The refusal of a number outside its limit: also of a field without a meaning that isn't 0.
pub(crate) const OUT_OF_RANGE: u32 = 5;

/// There is no world.
pub(crate) const NO_WORLD: u32 = 32;

/// A kind or a form that is none.
pub(crate) const BAD_KIND: u32 = 33;

/// A command of a batch names shapes beyond those of the batch.
pub(crate) const BAD_SPAN: u32 = 34;

/// The bytes are no text in UTF-8, or no JSON.
pub(crate) const BAD_TEXT: u32 = 35;

/// The law of the statuses: the numbers that definitions take from the code, in digits. The function does nothing; its
/// contract is the law.
pub fn statuses_in_digits()
    ensures done { DONE ≡ 0 }
    ensures out_of_range { OUT_OF_RANGE ≡ 5 }
    ensures no_world { NO_WORLD ≡ 32 }
    ensures bad_kind { BAD_KIND ≡ 33 }
    ensures bad_span { BAD_SPAN ≡ 34 }
    ensures bad_text { BAD_TEXT ≡ 35 }
{}

/// The number of a refusal, 1 to 15.
pub(crate) fn status_of(refusal: Refusal) -> u32
    ensures { result ≡ status_of refusal }
{
    refusal.number() as u32
}

/// Why a text was not loaded: a status, and the number of the clause that is broken, or 0.
#[derive(Clone, Copy)]
pub(crate) struct UnreadStatus {
    pub(crate) status: u32,
    pub(crate) clause: u32,
}

/// The numbers for a text that was not loaded.
pub(crate) fn unread_status(why: Unread) -> UnreadStatus
    ensures { result ≡ unread_status why }
{
    match why {
        Unread::NoText => UnreadStatus {
            status: BAD_TEXT,
            clause: 0,
        },
        Unread::Broken(Broken::NoMemory) => UnreadStatus {
            status: 1,
            clause: 0,
        },
        Unread::Broken(Broken::Clause(clause)) => UnreadStatus {
            status: 12,
            clause: u32::from(clause.number()),
        },
    }
}
