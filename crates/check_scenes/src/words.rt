//! A program's words, the parts that they ask for, and the status with which it ends.

use crate::stop::Stop;
use std::process::ExitCode;
use std::rt::Env;
use std::{env, io};

/// A line can't be written.
const FAILED: u8 = 1;

/// The words ask for nothing.
const BAD_WORDS: u8 = 2;

/// Memory is wanting for something that has to be seen, or a call is refused.
const REFUSED: u8 = 3;

/// The program's words, of which the first is its name.
fn read_words<R: AllocGlobal + Env>(rt: &R) -> io::Result<Vec<String>> {
    Ok(env::args(rt)?.collect(rt.alloc())?)
}

/// What is told where the words can't be read: something beside a call was refused memory.
fn print_outside<R: Print>(rt: &R) -> Result<(), Stop> {
    println!(rt; "outside")?;
    Ok(())
}

/// Tells that words ask for nothing. Answers the program's status.
fn end_unknown<R: Print>(rt: &R) -> ExitCode {
    match println!(rt; "unknown words") {
        Ok(()) => ExitCode::from(BAD_WORDS),
        Err(_) => ExitCode::from(FAILED),
    }
}

/// The status of a program that did what its words ask for, or ended early.
fn status_of<R: Print>(rt: &R, ended: Result<(), Stop>) -> ExitCode {
    match ended {
        Ok(()) => ExitCode::SUCCESS,
        Err(Stop::Refused(_)) => ExitCode::from(REFUSED),
        Err(Stop::Unwritten) => ExitCode::from(FAILED),
        Err(Stop::UnknownWords) => end_unknown(rt),
    }
}

/// Makes the checks of all parts, each under its name. There are no words for them.
fn do_all<R: Print, F: Fn(&str, &[String]) -> Result<(), Stop>>(
    rt: &R,
    parts: &[&str],
    none: &[String],
    do_part: &F,
) -> Result<(), Stop>
    requires { F.IsAlwaysCallable do_part.now }
{
    for part in parts {
        println!(rt; "# {part}")?;
        do_part(part, none)?;
    }
    Ok(())
}

/// Does what the words ask for, of which the first is the program's name.
fn do_words<R: Print, F: Fn(&str, &[String]) -> Result<(), Stop>>(
    rt: &R,
    parts: &[&str],
    words: &[String],
    do_part: &F,
) -> Result<(), Stop>
    requires { F.IsAlwaysCallable do_part.now }
{
    match words {
        [_name, part, rest @ ..] => do_part(part.as_str(), rest),
        [_name, rest @ ..] => do_all(rt, parts, rest, do_part),
        [] => do_all(rt, parts, words, do_part),
    }
}

fn do_read<R: AllocGlobal + Env + Print, F: Fn(&str, &[String]) -> Result<(), Stop>>(
    rt: &R,
    parts: &[&str],
    do_part: &F,
) -> Result<(), Stop>
    requires { F.IsAlwaysCallable do_part.now }
{
    match read_words(rt) {
        Ok(words) => do_words(rt, parts, words.as_slice(), do_part),
        Err(_) => print_outside(rt),
    }
}

/// Makes the checks of the part that the program's first word names, with the words after it, and without a word those
/// of all parts, in this order. Answers the program's status.
pub fn run_parts<R: AllocGlobal + Env + Print, F: Fn(&str, &[String]) -> Result<(), Stop>>(
    rt: &R,
    parts: &[&str],
    do_part: &F,
) -> ExitCode
    requires { F.IsAlwaysCallable do_part.now }
{
    status_of(rt, do_read(rt, parts, do_part))
}
