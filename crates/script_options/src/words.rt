//! The words of the program, as `clap` reads them.

ghost use Rattle.std.specs.Prelude.{◌≤◌, IfOk};

use crate::asked::{Instead, Options};
use clap::error::ErrorKind;
use clap::{Arg, ArgAction, ArgMatches, Command};
use std::alloc::Global;
use std::convert::AsStr;

const ABOUT: &str =
    "Keeps a world of bodies: reads one JSON request a line, and answers each with a line";

/// The version of the program, and the number of the rules: two programs with the same rules give the same answers to a
/// script.
const VERSION: &str = "0.1.0, rules 1";

/// How many threads make the calls of a crowd at most, and how many solve a step.
const MOST_THREADS: u64 = 64;

/// What follows the options in the help.
const REQUESTS: &str =
    "Requests, each an object with \"do\" and these keys (a key in brackets may be left out):
  create    kind, mass and inertia (of a dynamic body alone), [velocity] and [spin] (of a kinematic one), at, [facing], shapes
  destroy   body
  joint     a, b, from, to, length, [collide]
  unjoin    joint
  push      body, by
  push_at   body, by, offset
  set_pose  body, at, facing
  set_velocity  body, velocity, spin
  gravity   by
  disable, enable, wake, sleep  body
  step      ticks
  show      body
  ledger
  ray       from, along
  region    lo, hi
  save
  load      world (what save answered)
  crowd     each (1 to 16 of the requests create to step), times (1 to 1000)

With --extended also:
  bodies    [awake]
  contacts  [ids]
  joints
  digest
  keep      number (0 to 15)
  back      number (0 to 15)
  ray       from, along, [without], [mask], [ids]
  step, region  [ids]

Shapes are {\"circle\":[x,y],\"radius\":r}, {\"capsule\":[[x,y],[x,y]],\"radius\":r} and {\"segment\":[[x,y],[x,y]]}, each with
[friction], [restitution], [category], [mask], [group].
An answer is one line: {\"refused\":K} where the world refuses a request, and {\"bad\":N} where line N is no request; the
program ends then with status 1, or at the end of the input with --go-on, and says on standard error what is wrong.
docs/SCRIPT.md has all of it.";

/// Reads the program's words, of which the first is its name.
pub fn options<S: AsStr>(alloc: Global, words: &[S]) -> Result<Options, Instead>
    ensures threads { IfOk result (λ options. (1 ≤ options.threads) × (options.threads ≤ 64)) }
    ensures workers { IfOk result (λ options. (1 ≤ options.workers) × (options.workers ≤ 64)) }
{
    match matches_of(alloc, words) {
        Ok(matches) => options_of(alloc, &matches),
        Err(error) => match instead_of(alloc, &error) {
            Instead::Text(text) => Err(text_or_fault(alloc, words, text)),
            instead => Err(instead),
        },
    }
}

/// Whether a word asks for help or for the version.
fn asks_for_text(word: &str) -> bool {
    matches!(word, "--help" | "-h" | "--version" | "-V")
}

/// The text that was asked for, unless another word is bad: the parser stops at the first word that asks for a text.
fn text_or_fault<S: AsStr>(alloc: Global, words: &[S], text: String) -> Instead {
    let mut others: Vec<&str> = Vec::new(alloc);
    for word in words {
        if !asks_for_text(word.as_str()) && others.push(word.as_str()).is_err() {
            return Instead::NoMemory;
        }
    }
    match matches_of(alloc, others.as_slice()) {
        Ok(matches) => match options_of(alloc, &matches) {
            Ok(_) => Instead::Text(text),
            Err(instead) => instead,
        },
        Err(error) => match instead_of(alloc, &error) {
            Instead::Text(_) => text_with_value(alloc),
            instead => instead,
        },
    }
}

/// The fault of a word that asks for a text and has a value, as the parser words its own.
fn text_with_value(alloc: Global) -> Instead {
    let fault = String::from_str(
        alloc,
        "error: '--help' and '--version' take no value

For more information, try '--help'.
",
    );
    match fault {
        Ok(fault) => Instead::BadWords(fault),
        Err(_) => Instead::NoMemory,
    }
}

fn options_of(alloc: Global, matches: &ArgMatches<'_>) -> Result<Options, Instead>
    ensures threads { IfOk result (λ options. (1 ≤ options.threads) × (options.threads ≤ 64)) }
    ensures workers { IfOk result (λ options. (1 ≤ options.workers) × (options.workers ≤ 64)) }
{
    let threads = number_of(alloc, matches, "threads")?;
    let workers = number_of(alloc, matches, "workers")?;
    Ok(Options {
        explain: matches.get_flag("explain"),
        extended: matches.get_flag("extended"),
        go_on: matches.get_flag("go-on"),
        threads,
        workers,
    })
}

/// The number of threads that the words ask for under this name, and 1 where they name none. The parser lets no number
/// beyond the limits through, but takes signs and leading zeros, which are bad here as in a line.
fn number_of(alloc: Global, matches: &ArgMatches<'_>, name: &str) -> Result<u64, Instead>
    ensures { IfOk result (λ number. (1 ≤ number) × (number ≤ 64)) }
{
    let text = matches.get_str(name).unwrap_or("1");
    if text.starts_with('+') || text.starts_with('0') {
        return Err(misspelt(alloc, name, text));
    }
    let number = matches.get_one::<u64>(name).unwrap_or(1);
    Ok(number.clamp(1, MOST_THREADS))
}

/// The fault of a number with a sign or a leading zero, as the parser words its own.
fn misspelt(alloc: Global, name: &str, text: &str) -> Instead {
    let fault = format!(in alloc;
        "error: invalid value '{text}' for '--{name} <N>': it has a sign or a leading zero

For more information, try '--help'.
"
    );
    match fault {
        Ok(fault) => Instead::BadWords(fault),
        Err(_) => Instead::NoMemory,
    }
}

/// What the words ask for.
fn matches_of<'a, S: AsStr>(alloc: Global, words: &'a [S]) -> Result<ArgMatches<'a>, clap::Error> {
    let explain = Arg::new(alloc, "explain")
        .long("explain")
        .action(ArgAction::SetTrue)
        .help("Say in words on standard error why a request is refused");
    let extended = Arg::new(alloc, "extended")
        .long("extended")
        .action(ArgAction::SetTrue)
        .help("Know the requests of the extended form too");
    let go_on = Arg::new(alloc, "go-on")
        .long("go-on")
        .action(ArgAction::SetTrue)
        .help("Read on after a bad line");
    let threads = Arg::new(alloc, "threads")
        .long("threads")
        .value_name("N")
        .action(ArgAction::Set)
        .value_parser(clap::value_parser!(u64).range(1..=64))
        .help("How many threads make the calls of a crowd, 1 to 64 [default: 1]");
    let workers = Arg::new(alloc, "workers")
        .long("workers")
        .value_name("N")
        .action(ArgAction::Set)
        .value_parser(clap::value_parser!(u64).range(1..=64))
        .help("How many threads solve a step, 1 to 64 [default: 1]");
    let command = Command::new(alloc, "world_script")
        .about(ABOUT)
        .version(VERSION)
        .after_help(REQUESTS)
        .arg(explain)?
        .arg(extended)?
        .arg(go_on)?
        .arg(threads)?
        .arg(workers)?;
    command.try_get_matches_from(words)
}

/// What to do in place of a run.
fn instead_of(alloc: Global, error: &clap::Error) -> Instead {
    if error.kind() == ErrorKind::OutOfMemory {
        return Instead::NoMemory;
    }
    let Ok(text) = error.to_string(alloc) else {
        return Instead::NoMemory;
    };
    if error.use_stderr() {
        Instead::BadWords(text)
    } else {
        Instead::Text(text)
    }
}
