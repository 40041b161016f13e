//! A seat that works, and what it has to be told.

use crate::calls::Called;
use crate::locks::claims::{Account, Claim, Gist};
use std::alloc::Global;
use std::sync::Wait;
use world_core::{Command, Reply};
use world_lock::Receipt;

/// A seat with its number, how many of its calls were accepted, from which place its next call may stand, how many
/// calls its last frame counted, and what it was told.
#[derive(Drop)]
pub struct Worker<T: Drop> {
    seat: T,
    pub number: u64,
    accepted: u64,
    next_place: u64,
    counted: u64,
    account: Account,
}

impl<T: Drop> Worker<T> {
    /// A seat that has done nothing.
    pub fn new(alloc: Global, seat: T, number: u64) -> Worker<T> {
        Worker {
            seat,
            number,
            accepted: 0,
            next_place: 0,
            counted: 0,
            account: Account::new(alloc),
        }
    }

    /// The seat, and what it was told.
    pub fn into_parts(self) -> (T, Account) {
        let Worker {
            seat,
            number: _,
            accepted: _,
            next_place: _,
            counted: _,
            account,
        } = self;
        (seat, account)
    }

    /// A receipt has the seat's next number, and a later place than the one before.
    fn count(&mut self, receipt: Receipt) {
        let number = self.accepted.saturating_add(1);
        let is_next = receipt.seat == self.number
            && receipt.number == number
            && receipt.place >= self.next_place;
        self.accepted = number;
        self.next_place = receipt.place.saturating_add(1);
        if !is_next {
            self.account.doubt();
        }
    }

    /// Makes a call. Answers the reply and the receipt, if it is accepted.
    fn make<S: Called<T>, R: Wait>(
        &mut self,
        rt: &R,
        shared: &S,
        command: Command,
    ) -> Option<(Reply, Receipt)> {
        match shared.call(rt, &mut self.seat, command) {
            Ok((reply, receipt)) => {
                self.count(receipt);
                Some((reply, receipt))
            }
            Err(_) => None,
        }
    }

    /// Makes a call that has to be accepted, of which only the receipt is looked at.
    pub fn call_fast<S: Called<T>, R: Wait>(&mut self, rt: &R, shared: &S, command: Command) {
        if self.make(rt, shared, command).is_none() {
            self.account.doubt();
        }
    }

    /// Makes a call, and keeps what it was told. Answers the reply, if it is accepted.
    pub fn call<S: Called<T>, R: Wait>(
        &mut self,
        rt: &R,
        shared: &S,
        command: Command,
    ) -> Option<Reply> {
        let gist = Gist::of(&command);
        let (reply, receipt) = self.make(rt, shared, command)?;
        self.account.add(Claim {
            gist,
            reply,
            receipt,
        });
        Some(reply)
    }

    /// Makes a call that has to be accepted, and keeps what it was told.
    pub fn call_surely<S: Called<T>, R: Wait>(&mut self, rt: &R, shared: &S, command: Command) {
        if self.call(rt, shared, command).is_none() {
            self.account.doubt();
        }
    }

    /// Looks at a frame: it counts all calls that the seat has seen, and no fewer than the one before.
    pub fn look<S: Called<T>, R: Wait>(&mut self, rt: &R, shared: &S) {
        match shared.look(rt, &mut self.seat) {
            Ok(shown) => {
                let is_later = shown.calls >= self.counted && shown.calls >= self.next_place;
                if !is_later || shown.momentum != shown.booked {
                    self.account.doubt();
                }
                self.counted = shown.calls;
            }
            Err(_) => self.account.doubt(),
        }
    }

    /// Hears what the last step told.
    pub fn hear<S: Called<T>, R: Wait>(&mut self, rt: &R, shared: &S) {
        if shared.events(rt, &mut self.seat).is_err() {
            self.account.doubt();
        }
    }
}
