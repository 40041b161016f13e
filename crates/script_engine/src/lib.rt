//! The program's engine: one JSON request a line, and one answer a line.
#![tactic(auto)]

mod answers;
mod calls;
mod command_copies;
mod crowd_threads;
mod crowds;
mod engine;
mod joints;
mod saved_lines;
mod status;
mod worlds;

pub use engine::run;
pub use status::Status;
