//! Lines in, answers out.

use crate::answers::{answer, answer_loaded};
use crate::calls::{Stepper, settle};
use crate::saved_lines::loaded_by;
use crate::status::Status;
use crate::worlds::Worlds;
use fixed_geom::Refusal;
use json::Scratch;
use script_options::Options;
use script_requests::{BadLine, CrowdRefusals, Request, explain, request_of};
use std::alloc::Global;
use std::io::{BufRead, Write};
use std::sync::Wait;
use std::thread;
use std::thread::{Scope, Threads};
use world_core::WorldCore;
use world_script_base::{
    Answer, LONGEST, LineFault, LineReader, Outbox, Reason, Stop, broken_path,
};
use world_workers::{OpenGate, StepWorkers};

/// The line that is read, and the room that its reading needs.
#[derive(Drop)]
struct Page {
    line: Vec<u8>,
    scratch: Scratch,
    /// Whether a line was bad.
    has_bad: bool,
}

fn is_too_long(line: &[u8]) -> bool {
    line.len() > LONGEST && line.last() != Some(&b'\n')
}

/// Whether there is nothing but JSON's white space.
fn is_blank(line: &[u8]) -> bool {
    line.iter()
        .all(|byte| matches!(byte, b' ' | b'\t' | b'\r' | b'\n'))
}

/// Tells in words why a request is refused, and at which place of a saved world.
fn print_refusal<R: AllocGlobal + Eprint>(
    rt: &R,
    number: u64,
    request: &Request<'_>,
    refusal: Refusal,
) {
    let explanation = explain(request, refusal);
    let place = match request {
        Request::Load(text) => broken_path(rt.alloc(), text),
        _ => Ok(None),
    };
    let _ = match place {
        Ok(Some(place)) => eprintln!(rt; "line {number}: {explanation}, first at {place}"),
        _ => eprintln!(rt; "line {number}: {explanation}"),
    };
}

/// Tells in words why a request is refused, and how many of a crowd's calls were.
fn print_explanation<R: AllocGlobal + Eprint>(
    rt: &R,
    number: u64,
    request: &Request<'_>,
    answer: &Answer<'_>,
) {
    match (answer, request) {
        (Answer::Refused(refusal), _) => print_refusal(rt, number, request, *refusal),
        (Answer::Crowd(journal, seats), Request::Crowd(def)) => {
            let refusals = CrowdRefusals::of(def, seats.len() as u64, *journal);
            if refusals.refused > 0 {
                let _ = eprintln!(rt; "line {number}: {refusals}");
            }
        }
        _ => {}
    }
}

/// Answers the request of a line; a refusal is told in words where that is wanted.
fn answer_request<E, R: AllocGlobal + Eprint + Threads + Wait + Sync, O: Write>(
    rt: &R,
    worlds: &mut Worlds<'_, Stepper<'_, '_, E, R>>,
    request: &Request<'_>,
    (number, options): (u64, Options),
    outbox: &mut Outbox<'_, O>,
) -> Result<(), Stop> {
    let answer = answer(rt, worlds, request, options);
    if options.explain {
        print_explanation(rt, number, request, &answer);
    }
    outbox.write(&answer)
}

/// Answers a line that is no request, and says why it isn't one.
fn refuse_line<R: Eprint, O: Write>(
    rt: &R,
    number: u64,
    fault: LineFault<'_>,
    outbox: &mut Outbox<'_, O>,
) -> Stop {
    let LineFault::Bad(fault) = fault else {
        return Stop::NoMemory;
    };
    let answer: Answer<'_> = Answer::Bad(number);
    if outbox.write(&answer).is_err() || outbox.flush().is_err() {
        return Stop::WriteFailed;
    }
    let why = BadLine(fault);
    let _ = eprintln!(rt; "line {number}: {why}");
    Stop::BadLine
}

/// Answers a line that loads what a save wrote, if it is one. Where a refusal is told in words, the line is read as a
/// request.
fn answer_saved<'a>(
    alloc: Global,
    world: &mut WorldCore,
    line: &[u8],
    options: Options,
) -> Option<Answer<'a>> {
    if options.explain {
        return None;
    }
    let loaded = loaded_by(alloc, line)?;
    Some(answer_loaded(world, loaded))
}

/// Answers a line; one that is blank asks for nothing.
fn answer_line<E, R: AllocGlobal + Eprint + Threads + Wait + Sync, O: Write>(
    rt: &R,
    worlds: &mut Worlds<'_, Stepper<'_, '_, E, R>>,
    page: &mut Page,
    (number, options): (u64, Options),
    outbox: &mut Outbox<'_, O>,
) -> Result<(), Stop> {
    if is_too_long(page.line.as_slice()) {
        let fault = LineFault::of_line(Reason::TooLong);
        return Err(refuse_line(rt, number, fault, outbox));
    }
    if is_blank(page.line.as_slice()) {
        return Ok(());
    }
    if let Some(answer) = answer_saved(
        rt.alloc(),
        &mut worlds.world,
        page.line.as_slice(),
        options,
    ) {
        return outbox.write(&answer);
    }
    match request_of(
        rt.alloc(),
        page.line.as_slice(),
        &mut page.scratch,
        options.extended,
    ) {
        Ok(request) => answer_request(rt, worlds, &request, (number, options), outbox),
        Err(fault) => Err(refuse_line(rt, number, fault, outbox)),
    }
}

/// Passes by what is left of a line of which a part was read.
fn pass_line<I: BufRead, O: Write>(
    page: &mut Page,
    lines: &mut LineReader<'_, I>,
    outbox: &mut Outbox<'_, O>,
) -> Result<(), Stop> {
    for _ in 0..u64::MAX {
        if !is_too_long(page.line.as_slice()) {
            return Ok(());
        }
        lines.read_line(&mut page.line, outbox)?;
    }
    Err(Stop::ReadFailed)
}

/// Goes on after a line that couldn't be answered, if it was bad and the options say so.
fn go_on<I: BufRead, O: Write>(
    page: &mut Page,
    options: Options,
    stop: Stop,
    lines: &mut LineReader<'_, I>,
    outbox: &mut Outbox<'_, O>,
) -> Result<(), Stop> {
    if stop != Stop::BadLine || !options.go_on {
        return Err(stop);
    }
    page.has_bad = true;
    pass_line(page, lines, outbox)
}

/// Reads a line and answers it. Answers whether there was one.
fn serve_line<E, R: AllocGlobal + Eprint + Threads + Wait + Sync, I: BufRead, O: Write>(
    rt: &R,
    worlds: &mut Worlds<'_, Stepper<'_, '_, E, R>>,
    page: &mut Page,
    (number, options): (u64, Options),
    lines: &mut LineReader<'_, I>,
    outbox: &mut Outbox<'_, O>,
) -> Result<bool, Stop> {
    lines.read_line(&mut page.line, outbox)?;
    if page.line.is_empty() {
        return Ok(false);
    }
    if let Err(stop) = answer_line(rt, worlds, page, (number, options), outbox) {
        go_on(page, options, stop, lines, outbox)?;
    }
    settle(&mut worlds.world);
    Ok(true)
}

/// Answers each line of the reader, up to one that is no request, unless the options say to go on.
fn serve_lines<E, R: AllocGlobal + Eprint + Threads + Wait + Sync, I: BufRead, O: Write>(
    rt: &R,
    worlds: &mut Worlds<'_, Stepper<'_, '_, E, R>>,
    page: &mut Page,
    options: Options,
    lines: &mut LineReader<'_, I>,
    outbox: &mut Outbox<'_, O>,
) -> Result<(), Stop> {
    for number in 1..u64::MAX {
        match serve_line(rt, worlds, page, (number, options), lines, outbox) {
            Ok(true) => {}
            Ok(false) => return Ok(()),
            Err(stop) => return Err(stop),
        }
    }
    Err(Stop::ReadFailed)
}

/// The same, with a page to read them.
fn serve<E, R: AllocGlobal + Eprint + Threads + Wait + Sync, I: BufRead, O: Write>(
    rt: &R,
    worlds: &mut Worlds<'_, Stepper<'_, '_, E, R>>,
    options: Options,
    reader: &mut I,
    outbox: &mut Outbox<'_, O>,
) -> Result<(), Stop> {
    let mut page = Page {
        line: Vec::new(rt.alloc()),
        scratch: Scratch::new(rt.alloc()),
        has_bad: false,
    };
    let mut lines = LineReader::new(reader);
    serve_lines(rt, worlds, &mut page, options, &mut lines, outbox)?;
    if page.has_bad {
        return Err(Stop::BadLine);
    }
    Ok(())
}

/// The same in a world that begins empty. Its workers stay in the scope from the first step that is worth them to the
/// end.
fn serve_by_workers<'s, E, R: AllocGlobal + Eprint + Threads + Wait + Sync, I: BufRead, O: Write>(
    scope: &Scope<'s, E>,
    rt: &'s R,
    options: Options,
    reader: &mut I,
    outbox: &mut Outbox<'_, O>,
) -> Result<(), Stop> {
    let mut stepper = StepWorkers::new(scope, rt, rt.alloc(), &OpenGate, options.workers);
    let answered = match Worlds::new(rt.alloc(), &mut stepper) {
        Ok(mut worlds) => serve(rt, &mut worlds, options, reader, outbox),
        Err(_) => Err(Stop::NoMemory),
    };
    stepper.end();
    answered
}

/// Flushes the answers, unless a write failed, and says how the run ended.
fn end<O: Write>(writer: &mut O, answered: Result<(), Stop>) -> Status {
    if answered == Err(Stop::WriteFailed) || writer.flush().is_err() {
        return Status::Failed;
    }
    match answered {
        Ok(()) => Status::Ended,
        Err(Stop::BadLine) => Status::BadLine,
        Err(Stop::NoMemory) => Status::NoMemory,
        Err(Stop::ReadFailed | Stop::WriteFailed) => Status::Failed,
    }
}

/// Answers each line of the reader, in a world that begins empty and without gravity. It ends with the input, at the
/// first line that is no request (after an answer that names it, and unless the options say to go on), where memory is
/// wanting, or where a read or a write fails. What was answered is flushed before each read that may wait, and at the
/// end, unless a write failed. Why a line is no request is told on standard error.
pub fn run<R: AllocGlobal + Eprint + Threads + Wait + Sync, I: BufRead, O: Write>(
    rt: &R,
    reader: &mut I,
    writer: &mut O,
    options: Options,
) -> Status {
    let mut outbox = Outbox::new(writer);
    let answered = thread::scope(thread::scope_env(), rt, |scope| {
        serve_by_workers(scope, rt, options, reader, &mut outbox)
    });
    end(writer, answered)
}
