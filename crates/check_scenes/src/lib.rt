//! What the programs that check worlds have in common: a world by the calls that are made of it, what worlds are made
//! of, worlds as text, the marks between which a call may be refused memory, a program's words, and why it ends early.
//!
//! What a world is made of is a list of commands. So no scene names a world, and one function makes the worlds of a
//! program.
#![tactic(auto)]

mod call_mark;
mod commands;
mod making;
mod piles;
mod stop;
mod texts;
mod words;
mod world;
mod worlds;

pub use call_mark::CallMark;
pub use commands::{command_of, commands_of, handle_of, number_at, numbers_of, vector_at};
pub use making::{
    FIRST, NO_GRAVITY, NO_MASS, ORIGIN, PULL, UPRIGHT, add_made, apply_all, between, body_of, right,
};
pub use piles::{CIRCLES, Piles};
pub use stop::{Stop, end_without, word_of_untried};
pub use texts::{CAUSES, text_of, write_events};
pub use words::run_parts;
pub use world::{Answer, World, hit_in};
pub use worlds::{Worlds, world_after};
