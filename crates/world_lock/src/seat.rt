//! The seats of a shared world.

ghost use Rattle.std.specs.Prelude.{◌≡◌, ◌<◌};

use seat_book::{Named, Pass};
use std::marker::Model;
use world_core::{Command, Reply};

/// The entry of an accepted call: its seat, which of the seat's calls it is, counted from 1, and its place in the
/// history, counted from 0 at `open`.
#[derive(Clone, Copy, Debug, PartialEq, Eq)]
pub struct Receipt {
    pub seat: u64,
    pub number: u64,
    pub place: u64,
}

/// A seat of one shared world. Contracts see it as its number and the calls that it has seen.
#[derive(Drop)]
pub struct Seat<N: Named> {
    pub(crate) pass: Pass<N, Command, Reply>,
}

impl<N: Named> Model for Seat<N> {
    ghost use Rattle.world_lock.specs.Histories.{Known};

    ghost Value = { Known };

    ghost view = { λ s. s.pass };
}

impl<N: Named> Seat<N> {
    /// Its number, counted from 0.
    pub fn number(&self) -> u64
        ensures seat { result ≡ self.now.seat }
        ensures range { result < N.seats }
    {
        self.pass.number()
    }

    /// Its number is one of the roster's. The function does nothing; its contract is the law.
    pub(crate) fn know_seated(&self)
        ensures { self.now.seat < N.seats }
    {
        let _ = self.number();
    }
}
