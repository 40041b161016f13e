//! Checks worlds that seats share, in three parts: seats that call at once, mirrors of a shared world, and all of these
//! together with workers.
//!
//! Without a word it makes the checks of all parts, one after another, each under its name. It prints the same lines
//! whatever the schedule, which the gate compares. `check_shared PART` makes those of one part: `locks`, `mirrors` or
//! `shared`. Further words go to the part. They stand at the heads of `locks.rt`, `mirrors.rt` and `shared.rt`.
#![tactic(auto)]

mod calls;
mod locks;
mod mirrors;
mod replay;
mod scenes;
mod shared;
mod sharing;
mod stage;
mod tasks;
mod texts;
mod timing;

use check_scenes::{Stop, run_parts};
use std::process::ExitCode;
use std::rt::Env;
use std::sync::Wait;
use std::thread::Threads;
use std::time::Clock;

/// The parts, in the order in which they are checked.
const PARTS: [&str; 3] = ["locks", "mirrors", "shared"];

/// Does what a part is asked for.
fn do_part<R: AllocGlobal + Print + Threads + Wait + Clock + Sync>(
    rt: &R,
    part: &str,
    words: &[String],
) -> Result<(), Stop> {
    match part {
        "locks" => locks::do_words(rt, words),
        "mirrors" => mirrors::do_words(rt, words),
        "shared" => shared::do_words(rt, words),
        _ => Err(Stop::UnknownWords),
    }
}

fn start<R: AllocGlobal + Env + Print + Threads + Wait + Clock + Sync>(rt: &R) -> ExitCode {
    run_parts(rt, &PARTS, &|part, words| do_part(rt, part, words))
}

fn main(rt: HostRuntime) -> ExitCode {
    start(&rt)
}
