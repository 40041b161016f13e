//! Checks worlds in two parts: worlds that were worked by hand, and steps by workers.
//!
//! Without a word it makes the checks of both parts, one after another, each under its name. It prints the same lines
//! whatever the schedule, which the gate compares. Most checks of worlds are a script on standard input.
//! `check_worlds PART` makes those of one part: `worlds` or `workers`. Further words go to the part.
//!
//! `check_worlds worlds WORLD CALL` makes one call while memory may be refused to it, in the world that the commands of
//! a text make, and says in a line what came of it: `kept` where a refused call left everything as it was and then
//! succeeded, `none` where the call met no refusal, `outside` where something beside the call met it, and else what
//! differs. Words of the other part stand at the head of `workers.rt`.
#![tactic(auto)]

mod whole_world;
mod workers;
mod worlds;

use check_scenes::{Stop, run_parts};
use std::process::ExitCode;
use std::rt::Env;
use std::sync::Wait;
use std::thread::Threads;
use world_core::WorldCore;

/// The parts, in the order in which they are checked.
const PARTS: [&str; 2] = ["worlds", "workers"];

/// Does what a part is asked for.
fn do_part<R: AllocGlobal + Input + Print + Threads + Wait + Sync>(
    rt: &R,
    part: &str,
    words: &[String],
) -> Result<(), Stop> {
    match part {
        "worlds" => worlds::do_words::<R, WorldCore>(rt, words),
        "workers" => workers::do_words(rt, words),
        _ => Err(Stop::UnknownWords),
    }
}

fn start<R: AllocGlobal + Env + Input + Print + Threads + Wait + Sync>(rt: &R) -> ExitCode {
    run_parts(rt, &PARTS, &|part, words| do_part(rt, part, words))
}

fn main(rt: HostRuntime) -> ExitCode {
    start(&rt)
}
