//! Keeps a world of bodies, which a script changes: one JSON request a line on standard input, one
//! answer a line on standard output. `docs/SCRIPT.md` lists the requests, the answers and the
//! statuses.
#![tactic(auto)]

ghost use Rattle.std.specs.Prelude.{◌<◌};

use script_engine::{Status, run};
use script_options::{Instead, Options, options};
use std::io::{BufReader, BufWriter};
use std::process::ExitCode;
use std::rt::Env;
use std::sync::Wait;
use std::thread::Threads;
use std::{env, io};

/// How many bytes are read at once. Answers are written before each read, so that a larger number saves writes too.
const READ_AHEAD: usize = 65_536;

/// How many bytes of the stack a run touches before it reads a line. A request needs less.
const STACK: usize = 262_144;

/// The bytes between two touches, at most a page.
const STRIDE: usize = 4_096;

/// Touches the stack as far as requests will need it. Later a limit of all memory would leave it no room to grow, and
/// the system would end the program by a signal. The answer depends on all that was written, so that no compiler leaves
/// the writes out.
#[inline(never)]
fn touch_stack(seed: usize) -> usize
    ensures { result < 256 }
{
    let mut stack = [0_u8; STACK];
    for touch in 0..STACK / STRIDE {
        stack[touch * STRIDE] = (seed % 256) as u8;
    }
    usize::from(stack[seed % STACK])
}

/// Answers standard input on standard output.
fn serve<R: AllocGlobal + Input + Print + Eprint + Threads + Wait + Sync>(
    rt: &R,
    options: Options,
) -> Status {
    let read_ahead = READ_AHEAD + touch_stack(options.threads as usize);
    let Ok(mut reader) = BufReader::with_capacity(rt.alloc(), read_ahead, rt.reader()) else {
        return Status::NoMemory;
    };
    let Ok(mut writer) = BufWriter::new(rt.alloc(), io::writer(rt)) else {
        return Status::NoMemory;
    };
    let status = run(rt, &mut reader, &mut writer, options);
    // The engine has flushed its answers, unless a write failed: then nothing more is written.
    let (_output, _unwritten) = writer.into_parts();
    status
}

/// The program's words, of which the first is its name.
fn read_words<R: AllocGlobal + Env>(rt: &R) -> Result<Vec<String>, Status> {
    match env::args(rt) {
        Ok(words) => words.collect(rt.alloc()).map_err(|_| Status::NoMemory),
        Err(error) if error.kind() == io::ErrorKind::OutOfMemory => Err(Status::NoMemory),
        Err(_) => Err(Status::BadWords),
    }
}

/// Does what the program's words ask for.
fn start<R: AllocGlobal + Env + Input + Print + Eprint + Threads + Wait + Sync>(rt: &R) -> Status {
    let words = match read_words(rt) {
        Ok(words) => words,
        Err(status) => {
            if status == Status::BadWords {
                let _ = eprintln!(rt; "error: a word is not UTF-8");
            }
            return status;
        }
    };
    match options(rt.alloc(), words.as_slice()) {
        Ok(options) => serve(rt, options),
        Err(Instead::Text(text)) => match print!(rt; "{text}") {
            Ok(()) => Status::Ended,
            Err(_) => Status::Failed,
        },
        Err(Instead::BadWords(text)) => {
            let _ = eprint!(rt; "{text}");
            Status::BadWords
        }
        Err(Instead::NoMemory) => Status::NoMemory,
    }
}

fn main(rt: HostRuntime) -> ExitCode {
    ExitCode::from(start(&rt).code())
}
