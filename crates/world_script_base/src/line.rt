//! From the text of a line to the values of its keys.

use crate::faults::{Fault, LineFault, Reason};
use crate::fields::Fields;
use crate::shape_fields::take_shape;
use crate::tokens::Tokens;
use crate::values::Content;
use json::{Reader, Scratch, Token};
use std::alloc::Global;

/// How deep objects and lists of a line may nest, its own object counted.
const DEEPEST: usize = 127;

/// How many objects a list of requests may have.
const MOST_EACH: usize = 16;

/// The object of a line, and those of its list of requests, where it has one.
#[derive(Drop)]
pub struct Line<'a> {
    pub own: Fields<'a>,
    pub each: Vec<Fields<'a>>,
}

/// Reads the rest of an object in a list of shapes. Answers what is wrong with it.
fn read_shape<'a>(tokens: &mut Tokens<'a>, fields: &mut Fields<'a>) -> Option<Fault<'a>> {
    let mut inner = Fields::new(tokens.alloc());
    read_shape_fields(tokens, &mut inner, fields)
}

/// The same, with what its keys are put into. A shape is added to those of the fields.
fn read_shape_fields<'a>(
    tokens: &mut Tokens<'a>,
    inner: &mut Fields<'a>,
    fields: &mut Fields<'a>,
) -> Option<Fault<'a>> {
    for _ in 0..u64::MAX {
        let Token::Key(key) = tokens.next() else {
            break;
        };
        let token = tokens.next();
        inner.put(key, tokens.content(token));
    }
    let shape = take_shape(inner);
    match inner.fault() {
        Some(LineFault::Bad(fault)) => Some(fault),
        Some(LineFault::NoMemory) => {
            fields.note(LineFault::NoMemory);
            None
        }
        None => {
            fields.push_shape(shape);
            None
        }
    }
}

/// Reads the rest of a list of shapes.
fn read_shapes<'a>(tokens: &mut Tokens<'a>, fields: &mut Fields<'a>, key: &'a str) -> Content<'a> {
    fields.clear_shapes(tokens.alloc());
    let mut found = Content::Shapes;
    for place in 0..usize::MAX {
        let fault = match tokens.next() {
            Token::EndArray | Token::Bad => break,
            Token::BeginObject => match read_shape(tokens, fields) {
                Some(fault) => Some(fault.in_shape(place)),
                None => None,
            },
            token => {
                let _item = tokens.content(token);
                Some(Fault::at(key, Reason::NotShapes))
            }
        };
        found = first_fault(found, fault);
    }
    found
}

/// What a list is, unless something is wrong in it: then the first of that.
fn first_fault<'a>(found: Content<'a>, fault: Option<Fault<'a>>) -> Content<'a> {
    match (found, fault) {
        (Content::Faulty(_), _) => found,
        (_, Some(fault)) => Content::Faulty(fault),
        (_, None) => found,
    }
}

/// Reads the value that begins with a token; the list of the key `shapes` is one of shapes.
fn read_value<'a>(
    tokens: &mut Tokens<'a>,
    fields: &mut Fields<'a>,
    key: &'a str,
    token: Token<'a>,
) -> Content<'a> {
    match token {
        Token::BeginArray if key == "shapes" => read_shapes(tokens, fields, key),
        token => tokens.content(token),
    }
}

/// Reads the rest of an object in a list of requests.
fn read_fields<'a>(tokens: &mut Tokens<'a>, fields: &mut Fields<'a>) {
    for _ in 0..u64::MAX {
        let Token::Key(key) = tokens.next() else {
            return;
        };
        let token = tokens.next();
        let content = read_value(tokens, fields, key, token);
        fields.put(key, content);
    }
}

/// Refuses a text that isn't one JSON value, or nests too deep.
fn check_json<'a>(text: &str, scratch: &mut Scratch) -> Option<LineFault<'a>> {
    let Ok(mut reader) = Reader::new(text, scratch) else {
        return Some(LineFault::NoMemory);
    };
    let well = reader.skip_value(DEEPEST).is_ok();
    let end = reader.offset();
    if well && reader.next().is_none() {
        None
    } else {
        Some(LineFault::of_line(Reason::NotJson(end)))
    }
}

impl<'a> Line<'a> {
    /// An empty line.
    pub fn new(alloc: Global) -> Line<'a> {
        Line {
            own: Fields::new(alloc),
            each: Vec::new(alloc),
        }
    }

    /// Reads a line, with or without its end. What is wrong is noted in its own object. The scratch grows to the
    /// longest line that was read.
    pub fn read(&mut self, alloc: Global, bytes: &'a [u8], scratch: &'a mut Scratch) {
        match std::str::from_utf8(bytes) {
            Ok(text) => match check_json(text, scratch) {
                Some(fault) => self.own.note(fault),
                None => self.read_text(alloc, text, scratch),
            },
            Err(error) => {
                let place = error.valid_up_to();
                self.own.note(LineFault::of_line(Reason::NotUtf8(place)));
            }
        }
    }

    /// Reads a text that is JSON.
    fn read_text(&mut self, alloc: Global, text: &'a str, scratch: &'a mut Scratch) {
        match Reader::new(text, scratch) {
            Ok(reader) => self.read_tokens(&mut Tokens::new(alloc, text, reader)),
            Err(_) => self.own.note(LineFault::NoMemory),
        }
    }

    fn read_tokens(&mut self, tokens: &mut Tokens<'a>) {
        match tokens.next() {
            Token::BeginObject => self.read_own(tokens),
            _ => self.own.note(LineFault::of_line(Reason::NotAnObject)),
        }
        if let Some(fault) = tokens.fault() {
            self.own.note(fault);
        }
    }

    /// Reads the rest of the line's object.
    fn read_own(&mut self, tokens: &mut Tokens<'a>) {
        for _ in 0..u64::MAX {
            let Token::Key(key) = tokens.next() else {
                return;
            };
            self.read_own_value(tokens, key);
        }
    }

    /// Reads the value of a key of the line's object. That of the key `world` is a saved world, which is kept as its
    /// text.
    fn read_own_value(&mut self, tokens: &mut Tokens<'a>, key: &'a str) {
        let content = if key == "world" {
            tokens.json()
        } else {
            self.read_content(tokens, key)
        };
        self.own.put(key, content);
    }

    fn read_content(&mut self, tokens: &mut Tokens<'a>, key: &'a str) -> Content<'a> {
        let token = tokens.next();
        if key == "each" && matches!(token, Token::BeginArray) {
            self.read_each(tokens, key)
        } else {
            read_value(tokens, &mut self.own, key, token)
        }
    }

    /// Reads the rest of a list of requests. What is beyond the most of them is passed by.
    fn read_each(&mut self, tokens: &mut Tokens<'a>, key: &'a str) -> Content<'a> {
        self.each.clear();
        let mut well = true;
        for _ in 0..u64::MAX {
            let token = tokens.next();
            if matches!(token, Token::EndArray | Token::Bad) {
                break;
            }
            well = self.read_item(tokens, token) && well;
        }
        if well && !self.each.is_empty() {
            Content::Each
        } else {
            Content::Faulty(Fault::at(key, Reason::NotEach))
        }
    }

    /// Reads an item of a line's list of requests, and says whether it may stand there.
    fn read_item(&mut self, tokens: &mut Tokens<'a>, token: Token<'a>) -> bool {
        if self.each.len() < MOST_EACH && matches!(token, Token::BeginObject) {
            self.read_one(tokens);
            return true;
        }
        let _item = tokens.content(token);
        false
    }

    fn read_one(&mut self, tokens: &mut Tokens<'a>) {
        let mut fields = Fields::new(tokens.alloc());
        read_fields(tokens, &mut fields);
        if self.each.push(fields).is_err() {
            self.own.note(LineFault::NoMemory);
        }
    }
}
