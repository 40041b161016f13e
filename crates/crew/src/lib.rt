//! Workers: a list is mapped in pieces, each by a thread, and the answers stand in the list's order.
//!
//! `map_pieces` starts its threads for one map and joins them. A `Crew` keeps its threads for any number of maps, as
//! the task workers of a physics step are kept: once it has started, no map is refused.
#![tactic(auto)]

mod bell;
mod desk;
mod furnish;
mod gate;
mod piece;
mod pieces;
mod post;
mod round;
mod rule;
mod slip;
mod stack;
mod staying;
mod work;
mod worker;

pub use gate::{Gate, OpenGate};
pub use piece::{CallingThread, Piece, PieceMap, Returned};
pub use pieces::map_pieces;
pub use staying::{Crew, CrewDef, sole, start};
pub use work::Work;
