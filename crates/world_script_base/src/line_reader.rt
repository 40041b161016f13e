//! Lines from a reader, and answers that don't wait.

use crate::stop::Stop;
use std::fmt::Display;
use std::io;
use std::io::{BufRead, ErrorKind, Write};

/// How many bytes the longest line has, without its end.
pub const LONGEST: usize = 268_435_456;

/// Answers on their way to a writer, which may keep them until it is flushed.
#[derive(Drop)]
pub struct Outbox<'a, O: Write> {
    writer: &'a mut O,
    /// Whether an answer was written since the last flush.
    waiting: bool,
}

impl<'a, O: Write> Outbox<'a, O> {
    pub fn new(writer: &'a mut O) -> Outbox<'a, O> {
        Outbox {
            writer,
            waiting: false,
        }
    }

    /// Writes an answer as a line.
    pub fn write<D: Display>(&mut self, answer: &D) -> Result<(), Stop> {
        self.waiting = true;
        writeln!(self.writer, "{answer}").map_err(|_| Stop::WriteFailed)
    }

    /// Lets go of the answers that wait.
    pub fn flush(&mut self) -> Result<(), Stop> {
        if !self.waiting {
            return Ok(());
        }
        self.waiting = false;
        self.writer.flush().map_err(|_| Stop::WriteFailed)
    }
}

/// A reader's lines. What the reader has read ahead is known, so that answers are let go before a read that may wait.
#[derive(Drop)]
pub struct LineReader<'a, I: BufRead> {
    reader: &'a mut I,
    /// How many bytes can be had without a wait.
    ahead: usize,
}

/// As much of the bytes as belongs to a line of which so many bytes are there: up to its end, or to the byte that shows
/// that it is too long.
fn part_of_line(bytes: &[u8], there: usize) -> &[u8] {
    let room = (LONGEST + 1).saturating_sub(there);
    let end = match bytes.iter().position(|byte| *byte == b'\n') {
        Some(place) => place + 1,
        None => bytes.len(),
    };
    let (part, _rest) = bytes.split_at(end.min(room));
    part
}

fn is_whole(part: &[u8], line: &[u8]) -> bool {
    part.is_empty() || line.last() == Some(&b'\n') || line.len() > LONGEST
}

fn stop_of(error: &io::Error) -> Stop {
    if error.kind() == ErrorKind::OutOfMemory {
        Stop::NoMemory
    } else {
        Stop::ReadFailed
    }
}

impl<'a, I: BufRead> LineReader<'a, I> {
    pub fn new(reader: &'a mut I) -> LineReader<'a, I> {
        LineReader { reader, ahead: 0 }
    }

    /// Appends to the line what the reader has of it, and says whether the line is whole then.
    fn read_part(&mut self, line: &mut Vec<u8>) -> Result<bool, Stop> {
        let bytes = match self.reader.fill_buf() {
            Ok(bytes) => bytes,
            Err(error) if error.kind() == ErrorKind::Interrupted => return Ok(false),
            Err(error) => return Err(stop_of(&error)),
        };
        let part = part_of_line(bytes, line.len());
        line.extend_from_slice(part).map_err(|_| Stop::NoMemory)?;
        let (taken, whole) = (part.len(), is_whole(part, line));
        self.ahead = bytes.len().saturating_sub(taken);
        self.reader.consume(taken);
        Ok(whole)
    }

    /// The same, after answers that wait were let go where the read may wait.
    fn read_on<O: Write>(
        &mut self,
        line: &mut Vec<u8>,
        outbox: &mut Outbox<'_, O>,
    ) -> Result<bool, Stop> {
        if self.ahead == 0 {
            outbox.flush()?;
        }
        self.read_part(line)
    }

    /// Reads a line with its end, or as much of it as shows that it is too long. At the end of the input the line is
    /// empty. Before each read that may wait, answers that wait are let go.
    pub fn read_line<O: Write>(
        &mut self,
        line: &mut Vec<u8>,
        outbox: &mut Outbox<'_, O>,
    ) -> Result<(), Stop> {
        line.clear();
        for _ in 0..u64::MAX {
            match self.read_on(line, outbox) {
                Ok(false) => {}
                Ok(true) => return Ok(()),
                Err(stop) => return Err(stop),
            }
        }
        Err(Stop::ReadFailed)
    }
}
