//! The program's words, as `script_options` reads them.

use crate::assertions::same;
use script_options::{Instead, Options, options};
use std::alloc::Global;
use std::test::Fail;

/// What words ask for: a run with its options, or a text in its place.
fn asked(alloc: Global, words: &[&str]) -> Result<String, Fail> {
    let asked = match options(alloc, words) {
        Ok(
            Options {
                explain,
                extended,
                go_on,
                threads,
                workers,
            },
        ) => {
            format!(in alloc;
                "explain {explain}, extended {extended}, go on {go_on}, threads {threads}, workers {workers}"
            )?
        }
        Err(Instead::Text(text)) => format!(in alloc; "text: {text}")?,
        Err(Instead::BadWords(text)) => format!(in alloc; "bad words: {text}")?,
        Err(Instead::NoMemory) => String::from_str(alloc, "no memory")?,
    };
    Ok(asked)
}

/// Words, and how what they ask for begins.
type Row = (&'static [&'static str], &'static str);

const HELP: &str =
    "text: Keeps a world of bodies: reads one JSON request a line, and answers each with a line

Usage: world_script [OPTIONS]

Options:
      --explain      Say in words on standard error why a request is refused
      --extended     Know the requests of the extended form too
      --go-on        Read on after a bad line
      --threads <N>  How many threads make the calls of a crowd, 1 to 64 [default: 1]
      --workers <N>  How many threads solve a step, 1 to 64 [default: 1]
  -h, --help         Print help
  -V, --version      Print version

Requests, each an object";

const UNKNOWN: &str = "bad words: error: unexpected argument '--gate' found

Usage: world_script [OPTIONS]

For more information, try '--help'.
";

const VALUED: &str = "bad words: error: '--help' and '--version' take no value

For more information, try '--help'.
";

const MISSPELT: &str =
    "bad words: error: invalid value '+1' for '--threads <N>': it has a sign or a leading zero

For more information, try '--help'.
";

const ROWS: [Row; 31] = [
    (
        &["world_script"],
        "explain false, extended false, go on false, threads 1, workers 1",
    ),
    (
        &["world_script", "--explain"],
        "explain true, extended false, go on false, threads 1, workers 1",
    ),
    (
        &["world_script", "--threads", "64"],
        "explain false, extended false, go on false, threads 64, workers 1",
    ),
    (
        &["world_script", "--threads=2"],
        "explain false, extended false, go on false, threads 2, workers 1",
    ),
    (
        &["world_script", "--workers", "64"],
        "explain false, extended false, go on false, threads 1, workers 64",
    ),
    (
        &["world_script", "--workers=2", "--threads=3"],
        "explain false, extended false, go on false, threads 3, workers 2",
    ),
    (&["world_script", "--workers", "0"], "bad words: "),
    (&["world_script", "--workers", "65"], "bad words: "),
    (&["world_script", "--workers"], "bad words: "),
    (&["world_script", "--threads", "0"], "bad words: "),
    (&["world_script", "--threads", "65"], "bad words: "),
    (&["world_script", "--threads", "-1"], "bad words: "),
    (&["world_script", "--threads", "two"], "bad words: "),
    (&["world_script", "--threads", ""], "bad words: "),
    (&["world_script", "--threads"], "bad words: "),
    (&["world_script", "--threads", "+1"], MISSPELT),
    (&["world_script", "--threads=01"], "bad words: "),
    (&["world_script", "--workers", "+64"], "bad words: "),
    (&["world_script", "--workers=002"], "bad words: "),
    (
        &["world_script", "--threads=2", "--threads=2"],
        "bad words: ",
    ),
    (
        &["world_script", "--go-on"],
        "explain false, extended false, go on true, threads 1, workers 1",
    ),
    (&["world_script", "--go-on=1"], "bad words: "),
    (
        &["world_script", "--extended"],
        "explain false, extended true, go on false, threads 1, workers 1",
    ),
    (&["world_script", "--extended", "--extended"], "bad words: "),
    (&["world_script", "--help"], HELP),
    (
        &["world_script", "--version"],
        "text: world_script 0.1.0, rules 1\n",
    ),
    (
        &["world_script", "-V", "--workers", "2"],
        "text: world_script 0.1.0, rules 1\n",
    ),
    (&["world_script", "--version", "--gate"], UNKNOWN),
    (&["world_script", "--gate", "--help"], UNKNOWN),
    (&["world_script", "-h=1"], VALUED),
    (&["world_script", "--gate"], UNKNOWN),
];

#[test]
fn reads_its_words(rt: HostRuntime) -> Result<(), Fail> {
    for (words, wanted) in ROWS.iter() {
        let asked = asked(rt.alloc(), words)?;
        same(
            &rt,
            &(*words, asked.get(..wanted.len())),
            &(*words, Some(*wanted)),
        );
    }
    Ok(())
}
