//! The rule of the book's table, and the steps on it.

use crate::call::{Call, Entry};
use atomic_table::{Join, Play, Split, TableRule};
use std::collections::LinkedList;

/// What the keeper knows: the history, how many passes it has made, and the table's word. No value of it is made.
pub struct Desk<Command, Reply> {
    pub history: LinkedList<Entry<Command, Reply>>,
    pub dealt: u64,
    pub word: u64,
}

/// A seat, and what it has seen of the history. No value of it is made.
pub struct Known<Command, Reply> {
    pub seat: u64,
    pub seen: LinkedList<Entry<Command, Reply>>,
}

/// What one who steps on the table knows: the keeper, a pass, or the keeper while it holds a pass. No value of it is
/// made.
pub struct View<Command, Reply> {
    pub desk: Option<Desk<Command, Reply>>,
    pub pass: Option<Known<Command, Reply>>,
}

// There is one keeper, and each seat has one pass, which has seen a past of the seat; the word is 0, or names the seat
// of the call in flight.
pub(crate) struct Law;

impl<Command, Reply> TableRule<Call<Command, Reply>, View<Command, Reply>, ()> for Law {
    ghost use Rattle.std.specs.Prelude.{[]};
    ghost use Rattle.seat_book.specs.Rules.{Kept, keeping, idle};

    ghost holds = { λ _. Kept };

    ghost first = { λ _. keeping (idle [] 0) };
}

// The keeper makes the pass of the next seat, while the history is empty.
pub(crate) struct Deals;

impl<Command, Reply> Split<View<Command, Reply>> for Deals {
    ghost use Rattle.seat_book.specs.Rules.{dealing, newcomer};

    ghost left = { dealing };

    ghost right = { newcomer };
}

// The keeper takes a pass in.
pub(crate) struct TakesIn;

impl<Command, Reply> Join<View<Command, Reply>> for TakesIn {
    ghost use Rattle.seat_book.specs.Rules.{both, spent};

    ghost both = { both };

    ghost spent = { spent };
}

// The call that is said goes into the history, is in flight, and is seen by the pass that the keeper holds.
pub(crate) struct Enters;

impl<Command, Reply> Play<Call<Command, Reply>, View<Command, Reply>> for Enters {
    ghost use Rattle.seat_book.specs.Rules.{Entered};

    ghost then = { Entered };
}

// The call in flight is no more.
pub(crate) struct Clears;

impl<Command, Reply> Play<Call<Command, Reply>, View<Command, Reply>> for Clears {
    ghost use Rattle.seat_book.specs.Rules.{Cleared};

    ghost then = { Cleared };
}

// The pass that the keeper holds sees the history.
pub(crate) struct Meets;

impl<Command, Reply> Play<Call<Command, Reply>, View<Command, Reply>> for Meets {
    ghost use Rattle.seat_book.specs.Rules.{Met};

    ghost then = { Met };
}

// The keeper gives the pass out again.
pub(crate) struct GivesOut;

impl<Command, Reply> Split<View<Command, Reply>> for GivesOut {
    ghost use Rattle.seat_book.specs.Rules.{keeper_of, pass_of};

    ghost left = { keeper_of };

    ghost right = { pass_of };
}
