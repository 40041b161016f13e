//! Who works the parts of a step.

ghost use Rattle.std.specs.Prelude.{◌≡◌, ◌++◌, ◌+◌, ◌≤◌, map, true, vec_capacity, vec_len};
ghost use Rattle.part_solver.specs.Parts.{solved};

use crate::seat::{Part, Seat};

/// Works seats, each by a thread of its own, since they wait for one another. The crew of a step in `world_workers`
/// implements it, and a step by parts calls it: this crate keeps no threads.
pub trait SeatMap {
    /// Takes the seats, and adds the parts that they become to `parts`, in their order. Answers whether it has: not
    /// where memory is wanting.
    fn map_seats(&mut self, seats: &mut Vec<Seat>, parts: &mut Vec<Part>) -> bool
        requires room { vec_len parts.old + vec_len seats.old ≤ vec_capacity parts.old }
        ensures parts { result ≡ true → parts.new.items ≡ parts.old.items ++ map solved seats.old.items };
}
