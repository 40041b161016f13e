//! What is wrong with a line.

use std::fmt;

/// How many characters of an unknown key are told.
const SHOWN: usize = 32;

/// Why a line, or the value of a key, is none that a request has.
#[derive(Clone, Copy)]
pub enum Reason {
    /// The line has more bytes than any request.
    TooLong,
    /// It isn't text from this byte on, counted from 0.
    NotUtf8(usize),
    /// It isn't JSON from this byte on, counted from 0.
    NotJson(usize),
    /// A number is so large that no float is near it.
    TooLarge,
    /// The line is JSON, and no object.
    NotAnObject,
    /// It has more keys than any request.
    TooManyKeys,
    /// No request of this name, or no shape of this form, has the key.
    Unknown,
    /// The key has to be there.
    Missing,
    NotWhole,
    NotUnsigned,
    NotIn32Bits,
    NotText,
    NotTruth,
    NotVector,
    NotEnds,
    NotShapes,
    NotEach,
    NotId,
    /// There is no request of this name.
    NoRequest,
    /// The request is none that a crowd makes.
    NotACall,
    /// The number of times is none that a crowd has.
    NotTimes,
    /// There is no kind of this name.
    NoKind,
}

impl Reason {
    fn text(self) -> &'static str {
        match self {
            Reason::TooLong => "longer than any line may be",
            Reason::NotUtf8(_) => "not UTF-8",
            Reason::NotJson(_) => "not JSON",
            Reason::TooLarge => "a number that is too large for JSON",
            Reason::NotAnObject => "not an object",
            Reason::TooManyKeys => "more keys than any request has",
            Reason::Unknown => "a key that doesn't belong here",
            Reason::Missing => "missing",
            Reason::NotWhole => "not a whole number of 64 bits",
            Reason::NotUnsigned => "not a whole number of 64 bits without sign",
            Reason::NotIn32Bits => "not a whole number of 32 bits",
            Reason::NotText => "not a text",
            Reason::NotTruth => "neither true nor false",
            Reason::NotVector => "not a list of two whole numbers of 64 bits",
            Reason::NotEnds => "not a list of two places",
            Reason::NotShapes => "not a list of shapes",
            Reason::NotEach => "not a list of 1 to 16 requests",
            Reason::NotId => "not an id",
            Reason::NoRequest => "no request has this name",
            Reason::NotACall => "no command of this name",
            Reason::NotTimes => "not 1 to 1000",
            Reason::NoKind => "no kind has this name",
        }
    }
}

impl fmt::Display for Reason {
    fn fmt<W: fmt::Write>(&self, f: &mut fmt::Formatter<W>) -> fmt::Result {
        f.write_str(self.text())?;
        match self {
            Reason::NotUtf8(byte) | Reason::NotJson(byte) => write!(f, " from byte {byte} on"),
            _ => Ok(()),
        }
    }
}

/// What is wrong with a line, and where: in which request and in which shape of their lists, counted from 0, and at
/// which key.
#[derive(Clone, Copy)]
pub struct Fault<'a> {
    pub each: Option<usize>,
    pub shape: Option<usize>,
    pub key: Option<&'a str>,
    pub reason: Reason,
}

impl<'a> Fault<'a> {
    /// A fault of the whole line.
    pub fn of_line(reason: Reason) -> Fault<'a> {
        Fault {
            each: None,
            shape: None,
            key: None,
            reason,
        }
    }

    /// A fault of one key.
    pub fn at(key: &'a str, reason: Reason) -> Fault<'a> {
        Fault {
            each: None,
            shape: None,
            key: Some(key),
            reason,
        }
    }

    /// The fault in this request of the line's list.
    pub fn in_each(self, each: usize) -> Fault<'a> {
        Fault {
            each: Some(each),
            ..self
        }
    }

    /// The fault in this shape of the line's list.
    pub fn in_shape(self, shape: usize) -> Fault<'a> {
        Fault {
            shape: Some(shape),
            ..self
        }
    }
}

/// Whether a key is written as the keys of requests are.
fn is_plain(key: &str) -> bool {
    let bytes = key.as_bytes();
    bytes.len() <= SHOWN && bytes.iter().all(|byte| matches!(byte, b'a'..=b'z' | b'_'))
}

/// The beginning of a key.
fn beginning(key: &str) -> &str {
    match key.char_indices().nth(SHOWN) {
        Some((end, _)) => key.get(..end).unwrap_or(""),
        None => key,
    }
}

fn write_key<W: fmt::Write>(f: &mut fmt::Formatter<W>, key: &str) -> fmt::Result {
    if is_plain(key) {
        return write!(f, "{key}: ");
    }
    let told = beginning(key);
    write!(f, "{told:?}: ")
}

impl fmt::Display for Fault<'_> {
    fn fmt<W: fmt::Write>(&self, f: &mut fmt::Formatter<W>) -> fmt::Result {
        if let Some(each) = self.each {
            write!(f, "each[{each}]: ")?;
        }
        if let Some(shape) = self.shape {
            write!(f, "shapes[{shape}]: ")?;
        }
        if let Some(key) = self.key {
            write_key(f, key)?;
        }
        let reason = self.reason;
        write!(f, "{reason}")
    }
}

/// Why a line gives no request.
#[derive(Clone, Copy)]
pub enum LineFault<'a> {
    /// It is no request.
    Bad(Fault<'a>),
    /// There was no memory to read it.
    NoMemory,
}

impl<'a> LineFault<'a> {
    /// A line that is bad as a whole.
    pub fn of_line(reason: Reason) -> LineFault<'a> {
        LineFault::Bad(Fault::of_line(reason))
    }

    /// A line that is bad at a key.
    pub fn at(key: &'a str, reason: Reason) -> LineFault<'a> {
        LineFault::Bad(Fault::at(key, reason))
    }

    /// The fault in this request of the line's list.
    pub fn in_each(self, each: usize) -> LineFault<'a> {
        match self {
            LineFault::Bad(fault) => LineFault::Bad(fault.in_each(each)),
            LineFault::NoMemory => self,
        }
    }
}
