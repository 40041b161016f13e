//! Worlds that seats share, publishers and readers, by the calls that are made of them, in methods that promise
//! nothing. The checks are generic over them, so that no proof of this program has to read what they promise or keep,
//! but for those of the methods.

mod of_mirrors;
mod of_seats;

pub use of_mirrors::{Feed, Reads, Shows, Told, publish_until};
pub use of_seats::{Called, Left, SeatAnswer, Seen, Shared, Shown, Shut, close, shown_by};
