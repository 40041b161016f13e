//! Readers and writers that fail, or that notice what is kept back from them.

use crate::assertions::same;
use script_engine::{Status, run};
use script_options::Options;
use std::alloc::Global;
use std::cell::Cell;
use std::io;
use std::io::{BufReader, ErrorKind, Read, Write};
use std::test::Fail;

/// Gives its text a byte at a time, and then fails.
#[derive(Drop)]
struct CutReader<'a> {
    text: &'a [u8],
}

impl Read for CutReader<'_> {
    fn read(&mut self, buffer: &mut [u8]) -> io::Result<usize> {
        match (self.text, buffer.first_mut()) {
            ([first, rest @ ..], Some(place)) => {
                *place = *first;
                self.text = rest;
                Ok(1)
            }
            ([], Some(_)) => Err(io::Error::from(ErrorKind::BrokenPipe)),
            _ => Ok(0),
        }
    }
}

/// Takes that many writes, and fails from then on. It counts its flushes.
#[derive(Drop)]
struct CutWriter {
    taken: Vec<u8>,
    left: u8,
    flushes: u8,
}

impl Write for CutWriter {
    fn write(&mut self, bytes: &[u8]) -> io::Result<usize> {
        if self.left == 0 {
            return Err(io::Error::from(ErrorKind::BrokenPipe));
        }
        self.left -= 1;
        self.taken.extend_from_slice(bytes)?;
        Ok(bytes.len())
    }

    fn flush(&mut self) -> io::Result<()> {
        self.flushes = self.flushes.saturating_add(1);
        if self.left == 0 {
            return Err(io::Error::from(ErrorKind::BrokenPipe));
        }
        Ok(())
    }
}

fn cut_writer(alloc: Global, left: u8) -> CutWriter {
    CutWriter {
        taken: Vec::new(alloc),
        left,
        flushes: 0,
    }
}

const DONE: &[u8] = b"{\"done\":true}\n";

const PLAIN: Options = Options {
    explain: false,
    extended: false,
    go_on: false,
    threads: 1,
    workers: 1,
};

/// Takes what is written, and counts what wasn't flushed.
#[derive(Drop)]
struct CountingWriter<'a> {
    kept: &'a Cell<u64>,
}

impl Write for CountingWriter<'_> {
    fn write(&mut self, bytes: &[u8]) -> io::Result<usize> {
        self.kept.set(self.kept.get().saturating_add(1));
        Ok(bytes.len())
    }

    fn flush(&mut self) -> io::Result<()> {
        self.kept.set(0);
        Ok(())
    }
}

/// Gives a piece of its text at each read, and notes whether anything was kept back then.
#[derive(Drop)]
struct WaitingReader<'a> {
    pieces: &'a [&'a [u8]],
    kept: &'a Cell<u64>,
    late: &'a Cell<bool>,
}

impl Read for WaitingReader<'_> {
    fn read(&mut self, buffer: &mut [u8]) -> io::Result<usize> {
        if self.kept.get() != 0 {
            self.late.set(true);
        }
        let [first, rest @ ..] = self.pieces else {
            return Ok(0);
        };
        self.pieces = rest;
        let mut taken = *first;
        Read::read(&mut taken, buffer)
    }
}

#[test]
fn answers_before_it_waits(rt: HostRuntime) -> Result<(), Fail> {
    let pieces: [&[u8]; 4] = [
        b"{\"do\":\"ledger\"}\n",
        b"{\"do\":\"ledger\"}\n{\"do\":\"led",
        b"ger\"}\n",
        b"{\"do\":\"ledger\"}",
    ];
    let (kept, late) = (Cell::new(0), Cell::new(false));
    let waiting = WaitingReader {
        pieces: &pieces,
        kept: &kept,
        late: &late,
    };
    let mut reader = BufReader::new(rt.alloc(), waiting)?;
    let mut writer = CountingWriter { kept: &kept };
    same(
        &rt,
        &run(&rt, &mut reader, &mut writer, PLAIN),
        &Status::Ended,
    );
    same(&rt, &late.get(), &false);
    Ok(())
}

#[test]
fn counts_blank_lines_and_needs_no_last_line_end(rt: HostRuntime) {
    let mut answers = Vec::new(rt.alloc());
    let mut script: &[u8] = b" \t\r\n{\"do\":\"gravity\",\"by\":[0,-157]}\n\n\n{\"do\":\"show\"}";
    let status = run(&rt, &mut script, &mut answers, PLAIN);
    same(&rt, &status, &Status::BadLine);
    same(
        &rt,
        &answers.as_slice(),
        &b"{\"done\":true}\n{\"bad\":5}\n".as_slice(),
    );
}

#[test]
fn keeps_the_answers_before_a_read_that_fails(rt: HostRuntime) -> Result<(), Fail> {
    let text = b"{\"do\":\"gravity\",\"by\":[0,0]}\n{\"do\":\"ledger\"}";
    let mut reader = BufReader::new(rt.alloc(), CutReader { text })?;
    let mut writer = cut_writer(rt.alloc(), 100);
    same(
        &rt,
        &run(&rt, &mut reader, &mut writer, PLAIN),
        &Status::Failed,
    );
    same(&rt, &writer.taken.as_slice(), &DONE);
    // The answer isn't kept back from the next read, and the end flushes once more.
    same(&rt, &writer.flushes, &2);
    Ok(())
}

#[test]
fn writes_nothing_after_a_write_that_fails(rt: HostRuntime) {
    for left in 0..2u8 {
        let mut script: &[u8] =
            b"{\"do\":\"gravity\",\"by\":[0,0]}\n{\"do\":\"gravity\",\"by\":[0,0]}\n";
        let mut writer = cut_writer(rt.alloc(), left);
        same(
            &rt,
            &run(&rt, &mut script, &mut writer, PLAIN),
            &Status::Failed,
        );
        same(&rt, &writer.flushes, &0);
        same(&rt, &DONE.starts_with(writer.taken.as_slice()), &true);
    }
}

#[test]
fn fails_where_the_flush_fails(rt: HostRuntime) {
    let mut script: &[u8] = b"";
    let mut writer = cut_writer(rt.alloc(), 0);
    same(
        &rt,
        &run(&rt, &mut script, &mut writer, PLAIN),
        &Status::Failed,
    );
}
