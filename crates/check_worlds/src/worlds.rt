//! Worlds whose values were worked by hand: each check makes a world of its own, gives it commands, and tells what it
//! saw, a name on a line and each value on one of its own.
//!
//! Most checks are a script, the program's `stdin`, so that a further one costs the proof nothing. Those that a script
//! can't say come after it.

mod check;
mod filters;
mod making;
mod readme;
mod script;
mod seen;
mod trials;

use crate::whole_world::WholeWorld;
use check::Check;
use check_scenes::Stop;
use script::{name_in, run_line};
use std::alloc::Global;
use trials::try_call;
use world_core::Refusal;

fn print_lines<R: Print, W: WholeWorld>(rt: &R, check: &Check<W>) -> Result<(), Stop> {
    for line in check.lines() {
        println!(rt; "{line}")?;
    }
    Ok(())
}

/// Does what a line of the script asks for, and prints what it told.
fn run_and_print_line<R: Print, W: WholeWorld>(
    rt: &R,
    check: &mut Check<W>,
    line: &str,
) -> Result<(), Stop> {
    if let Some(name) = name_in(line) {
        println!(rt; "{name}")?;
    }
    run_line(check, line);
    print_lines(rt, check)?;
    check.forget_lines();
    Ok(())
}

/// Runs all checks, and prints what they told.
fn run_and_print<R: AllocGlobal + Input + Print, W: WholeWorld>(
    rt: &R,
    check: &mut Check<W>,
) -> Result<(), Stop> {
    for line in rt.lines(rt.alloc()) {
        run_and_print_line(rt, check, line?.as_str())?;
    }
    filters::run(check);
    readme::run(check);
    trials::run(check);
    print_lines(rt, check)?;
    if check.is_cut() {
        return Err(Stop::Refused(Refusal::NoMemory));
    }
    Ok(())
}

fn print_checks<R: AllocGlobal + Input + Print, W: WholeWorld>(rt: &R) -> Result<(), Stop> {
    match Check::<W>::new(rt.alloc()) {
        Ok(mut check) => run_and_print(rt, &mut check),
        Err(refusal) => Err(Stop::Refused(refusal)),
    }
}

/// Makes a call in the world of a text, and prints what came of it.
fn print_trial<R: Print, W: WholeWorld>(
    rt: &R,
    alloc: Global,
    text: &str,
    call: &str,
) -> Result<(), Stop> {
    match try_call::<W>(alloc, text, call) {
        Ok(outcome) => println!(rt; "{outcome}")?,
        Err(stop) => println!(rt; "{stop}")?,
    }
    Ok(())
}

/// Does what the words after the part's name ask for.
pub fn do_words<R: AllocGlobal + Input + Print, W: WholeWorld>(
    rt: &R,
    words: &[String],
) -> Result<(), Stop> {
    match words {
        [] => print_checks::<R, W>(rt),
        [text, call] => print_trial::<R, W>(rt, rt.alloc(), text.as_str(), call.as_str()),
        _ => Err(Stop::UnknownWords),
    }
}
