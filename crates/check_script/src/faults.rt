//! Each read, each write and each flush of a run fails in turn, and each takes as little as it may.

use crate::assertions::same;
use script_engine::{Status, run};
use script_options::Options;
use std::alloc::Global;
use std::io;
use std::io::{BufReader, ErrorKind, Read, Write};
use std::sync::Wait;
use std::test::Fail;
use std::thread::Threads;

/// Requests of which each has one answer.
const SCRIPT: &[u8] = b"{\"do\":\"gravity\",\"by\":[0,-157]}
{\"do\":\"create\",\"kind\":\"dynamic\",\"mass\":1,\"inertia\":0,\"at\":[0,0],\"shapes\":[{\"circle\":[0,0],\"radius\":9}]}
{\"do\":\"step\",\"ticks\":4}
{\"do\":\"step\",\"ticks\":9}
{\"do\":\"show\",\"body\":\"0.1\"}
";

const ANSWERS: &[u8] = b"{\"done\":true}
{\"body\":\"0.1\"}
{\"begin\":[],\"end\":[],\"slept\":[],\"step\":1,\"woke\":[]}
{\"refused\":5}
{\"at\":[0,-1570],\"facing\":[1073741824,0],\"l\":\"0\",\"p\":[0,-628],\"set\":\"awake\"}
";

const OPTIONS: Options = Options {
    explain: false,
    extended: false,
    go_on: false,
    threads: 1,
    workers: 1,
};

/// How many bytes a read or a write takes at most, where faults are tried one by one.
const LENGTHS: [usize; 4] = [1, 7, 100, 4_096];

/// The longest piece that is tried without a fault. The script is shorter.
const LONGEST: usize = 400;

/// Which calls of one kind fail.
#[derive(Clone, Copy)]
struct Fault {
    /// The number of the call that fails, counted from 1. None does where it is 0.
    call: u64,
    kind: ErrorKind,
}

const NO_FAULT: Fault = Fault {
    call: 0,
    kind: ErrorKind::BrokenPipe,
};

/// The calls of one kind so far.
#[derive(Drop)]
struct Calls {
    fault: Fault,
    count: u64,
}

impl Calls {
    fn new(fault: Fault) -> Calls {
        Calls { fault, count: 0 }
    }

    /// Counts a call, which may be the one that fails.
    fn next(&mut self) -> io::Result<()> {
        self.count = self.count.saturating_add(1);
        if self.count == self.fault.call {
            return Err(io::Error::from(self.fault.kind));
        }
        Ok(())
    }

    /// Whether the call that fails was made.
    fn has_failed(&self) -> bool {
        self.fault.call != 0 && self.count >= self.fault.call
    }
}

/// Gives its text in pieces.
#[derive(Drop)]
struct Giver {
    text: &'static [u8],
    most: usize,
    reads: Calls,
}

impl Read for Giver {
    fn read(&mut self, buffer: &mut [u8]) -> io::Result<usize> {
        self.reads.next()?;
        let (piece, rest) = self.text.split_at(self.most.min(self.text.len()));
        let mut left = piece;
        let given = Read::read(&mut left, buffer)?;
        if left.is_empty() {
            self.text = rest;
        }
        Ok(given)
    }
}

/// Takes what is written in pieces.
#[derive(Drop)]
struct Taker {
    taken: Vec<u8>,
    most: usize,
    writes: Calls,
    flushes: Calls,
    /// Whether it was called once more after a call that failed.
    is_late: bool,
}

impl Taker {
    fn new(alloc: Global, most: usize, write: Fault, flush: Fault) -> Taker {
        Taker {
            taken: Vec::new(alloc),
            most,
            writes: Calls::new(write),
            flushes: Calls::new(flush),
            is_late: false,
        }
    }

    fn note(&mut self) {
        if self.writes.has_failed() || self.flushes.has_failed() {
            self.is_late = true;
        }
    }
}

impl Write for Taker {
    fn write(&mut self, bytes: &[u8]) -> io::Result<usize> {
        self.note();
        self.writes.next()?;
        let (piece, _rest) = bytes.split_at(self.most.min(bytes.len()));
        self.taken.extend_from_slice(piece)?;
        Ok(piece.len())
    }

    fn flush(&mut self) -> io::Result<()> {
        self.note();
        self.flushes.next()
    }
}

/// Runs the script, which is given in pieces, and answers how the run ended.
fn run_script<R: AllocGlobal + Eprint + Threads + Wait + Sync>(
    rt: &R,
    most: usize,
    read: Fault,
    writer: &mut Taker,
) -> Result<Status, Fail> {
    let giver = Giver {
        text: SCRIPT,
        most,
        reads: Calls::new(read),
    };
    let mut reader = BufReader::new(rt.alloc(), giver)?;
    Ok(run(rt, &mut reader, writer, OPTIONS))
}

/// As many lines of the answers as the text has whole ones.
fn answers_to(text: &[u8]) -> &'static [u8] {
    let count = text.iter().filter(|byte| **byte == b'\n').count();
    let mut left = count;
    for (place, byte) in ANSWERS.iter().enumerate() {
        if left == 0 {
            let (answers, _rest) = ANSWERS.split_at(place);
            return answers;
        }
        if *byte == b'\n' {
            left = left.saturating_sub(1);
        }
    }
    ANSWERS
}

#[test]
fn takes_pieces_of_each_length(rt: HostRuntime) -> Result<(), Fail> {
    for most in 1..LONGEST {
        let mut writer = Taker::new(rt.alloc(), most, NO_FAULT, NO_FAULT);
        let status = run_script(&rt, most, NO_FAULT, &mut writer)?;
        same(
            &rt,
            &(status, writer.taken.as_slice()),
            &(Status::Ended, ANSWERS),
        );
    }
    Ok(())
}

/// The text that the reads before one of them gave.
fn given_before(read: u64, most: usize) -> &'static [u8] {
    let reads = usize::try_from(read.saturating_sub(1)).unwrap_or(usize::MAX);
    let (given, _rest) = SCRIPT.split_at(reads.saturating_mul(most).min(SCRIPT.len()));
    given
}

/// Each read fails in turn: the lines that were read in full are answered, and no other.
#[test]
fn answers_what_was_read_before_a_read_that_fails(rt: HostRuntime) -> Result<(), Fail> {
    for most in LENGTHS {
        for call in 1..1_000 {
            let given = given_before(call, most);
            let fault = Fault { call, ..NO_FAULT };
            let mut writer = Taker::new(rt.alloc(), most, NO_FAULT, NO_FAULT);
            let status = run_script(&rt, most, fault, &mut writer)?;
            same(&rt, &status, &Status::Failed);
            same(&rt, &writer.taken.as_slice(), &answers_to(given));
            // The read that finds the end fails last.
            if given.len() == SCRIPT.len() {
                break;
            }
        }
    }
    Ok(())
}

/// How many writes and flushes a run without a fault makes.
fn calls_of<R: AllocGlobal + Eprint + Threads + Wait + Sync>(
    rt: &R,
    most: usize,
) -> Result<(u64, u64), Fail> {
    let mut writer = Taker::new(rt.alloc(), most, NO_FAULT, NO_FAULT);
    let _status = run_script(rt, most, NO_FAULT, &mut writer)?;
    Ok((writer.writes.count, writer.flushes.count))
}

/// Each write fails in turn: what was written before is a beginning of the answers, and nothing is written after it.
#[test]
fn writes_a_beginning_before_a_write_that_fails(rt: HostRuntime) -> Result<(), Fail> {
    for most in LENGTHS {
        let (writes, _flushes) = calls_of(&rt, most)?;
        for call in 1..=writes {
            let fault = Fault { call, ..NO_FAULT };
            let mut writer = Taker::new(rt.alloc(), most, fault, NO_FAULT);
            let status = run_script(&rt, most, NO_FAULT, &mut writer)?;
            same(&rt, &(status, writer.is_late), &(Status::Failed, false));
            same(&rt, &ANSWERS.starts_with(writer.taken.as_slice()), &true);
        }
    }
    Ok(())
}

/// Each flush fails in turn: what was written before is whole lines of the answers, and nothing is written after it.
#[test]
fn writes_whole_lines_before_a_flush_that_fails(rt: HostRuntime) -> Result<(), Fail> {
    for most in LENGTHS {
        let (_writes, flushes) = calls_of(&rt, most)?;
        for call in 1..=flushes {
            let fault = Fault { call, ..NO_FAULT };
            let mut writer = Taker::new(rt.alloc(), most, NO_FAULT, fault);
            let status = run_script(&rt, most, NO_FAULT, &mut writer)?;
            same(&rt, &(status, writer.is_late), &(Status::Failed, false));
            same(&rt, &ANSWERS.starts_with(writer.taken.as_slice()), &true);
            same(&rt, &writer.taken.last(), &Some(&b'\n'));
        }
    }
    Ok(())
}

/// An interrupted read or write is made again, so that the answers are those of a run without it.
#[test]
fn goes_on_where_a_call_is_interrupted(rt: HostRuntime) -> Result<(), Fail> {
    for most in [7, 100] {
        for call in 1..60 {
            let kind = ErrorKind::Interrupted;
            let fault = Fault { call, kind };
            let mut writer = Taker::new(rt.alloc(), most, fault, NO_FAULT);
            let status = run_script(&rt, most, fault, &mut writer)?;
            same(
                &rt,
                &(status, writer.taken.as_slice()),
                &(Status::Ended, ANSWERS),
            );
        }
    }
    Ok(())
}
