//! A world that seats share, with what those that work at it have in common.

use crate::shared::Round;
use std::alloc::Global;
use std::mem;
use std::sync::{Mutex, Wait};
use world_core::Refusal;

/// A shared world, its seats that nobody has in hand, and what the threads of a round share.
#[derive(Drop)]
pub struct Stage<'a, S, T: Drop> {
    pub alloc: Global,
    pub shared: &'a S,
    seats: Mutex<Vec<T>>,
    pub round: Round,
}

impl<'a, S, T: Drop> Stage<'a, S, T> {
    /// A world that was just opened to these seats.
    pub fn new(alloc: Global, shared: &'a S, seats: Vec<T>) -> Stage<'a, S, T> {
        Stage {
            alloc,
            shared,
            seats: Mutex::new(seats),
            round: Round::new(),
        }
    }

    /// Takes the last seat.
    pub fn take_seat<R: Wait>(&self, rt: &R) -> Result<T, Refusal> {
        match self.seats.lock(rt).pop() {
            Some(seat) => Ok(seat),
            None => Err(Refusal::WrongSeats),
        }
    }

    /// Takes all seats that are left.
    pub fn take_seats<R: Wait>(&self, rt: &R) -> Vec<T> {
        mem::replace(&mut *self.seats.lock(rt), Vec::new(self.alloc))
    }

    /// Gives a seat back. Where there is no memory for it, it is missing when the world is closed.
    pub fn give_back<R: Wait>(&self, rt: &R, seat: T) {
        let _was_given = self.seats.lock(rt).push(seat);
    }

    /// The seats that were given back, and the round.
    pub fn into_parts(self) -> (Vec<T>, Round) {
        let Stage {
            alloc: _,
            shared: _,
            seats,
            round,
        } = self;
        (seats.into_inner(), round)
    }
}
