//! The tokens of a line, and what of them has a meaning in any object.
//!
//! A value is kept as far as a request can have it, and the rest is passed by: a line takes a byte for each of its own,
//! in which texts with escapes are written out, and beside that no more than its request means.

use crate::faults::{LineFault, Reason};
use crate::pairs::{Item, NO_ITEMS, Pair};
use crate::values::Content;
use fixed_geom::Vec2;
use json::{Reader, Token};
use serde_json::Value;
use std::alloc::Global;

/// The tokens of a line that was found to be JSON, and what is wrong with them all the same: a number that no float is
/// near, or want of memory. After that no token follows.
#[derive(Drop)]
pub(crate) struct Tokens<'a> {
    alloc: Global,
    text: &'a str,
    reader: Reader<'a>,
    fault: Option<LineFault<'a>>,
}

impl<'a> Tokens<'a> {
    /// The tokens of a text, whose reader this is.
    pub fn new(alloc: Global, text: &'a str, reader: Reader<'a>) -> Tokens<'a> {
        Tokens {
            alloc,
            text,
            reader,
            fault: None,
        }
    }

    /// What is wrong, if anything is.
    pub fn fault(&self) -> Option<LineFault<'a>> {
        self.fault
    }

    pub fn alloc(&self) -> Global {
        self.alloc
    }

    /// The next token; from the first fault on a bad one.
    pub fn next(&mut self) -> Token<'a> {
        if self.fault.is_some() {
            return Token::Bad;
        }
        match self.reader.next() {
            Some(token) => token,
            None => {
                let place = self.reader.offset();
                self.fault = Some(LineFault::of_line(Reason::NotJson(place)));
                Token::Bad
            }
        }
    }

    /// Notes a number that is no whole one of 64 bits, where it is no JSON either.
    fn check_number(&mut self, text: &str) {
        if let Err(error) = Value::from_str(self.alloc, text) {
            self.fault = Some(if error.is_memory() {
                LineFault::NoMemory
            } else {
                LineFault::of_line(Reason::TooLarge)
            });
        }
    }

    /// The whole number of a token, if 64 bits hold it, with a sign or without. `-0` is none.
    pub fn whole(&mut self, text: &str) -> Option<i128> {
        let number = whole_of(text);
        if number.is_none() && text != "-0" {
            self.check_number(text);
        }
        number
    }

    /// A coordinate, if the number is one of 64 bits with a sign.
    fn coordinate(&mut self, text: &str) -> Item {
        match self.whole(text) {
            Some(number) => match i64::try_from(number) {
                Ok(number) => Item::Coordinate(number),
                Err(_) => Item::Other,
            },
            None => Item::Other,
        }
    }

    /// Passes by what is left of so many objects and lists, one in another.
    pub fn pass(&mut self, levels: usize) {
        let mut open = levels;
        for _ in 0..u64::MAX {
            if open == 0 {
                return;
            }
            match self.next() {
                Token::BeginObject | Token::BeginArray => open = open.saturating_add(1),
                Token::EndObject | Token::EndArray => open = open.saturating_sub(1),
                Token::Number(text) => {
                    let _number = self.whole(text);
                }
                Token::Key(_) | Token::String(_) | Token::Bool(_) | Token::Null => {}
                Token::Bad => return,
            }
        }
    }

    /// Reads an item of a list in a list.
    fn inner_item(&mut self, token: Token<'a>) -> Item {
        match token {
            Token::Number(text) => self.coordinate(text),
            Token::BeginObject | Token::BeginArray => {
                self.pass(1);
                Item::Other
            }
            _ => Item::Other,
        }
    }

    /// Reads the rest of a list in a list: a place, if it is one.
    fn place(&mut self) -> Item {
        let mut pair = NO_ITEMS;
        for _ in 0..u64::MAX {
            match self.next() {
                Token::EndArray | Token::Bad => return place_of(pair),
                token => pair.push(self.inner_item(token)),
            }
        }
        Item::Other
    }

    /// Reads the item of a list that begins with a token.
    fn item(&mut self, token: Token<'a>) -> Item {
        match token {
            Token::BeginArray => self.place(),
            token => self.inner_item(token),
        }
    }

    /// Reads the rest of a list.
    fn pair(&mut self) -> Pair {
        let mut pair = NO_ITEMS;
        for _ in 0..u64::MAX {
            match self.next() {
                Token::EndArray | Token::Bad => return pair,
                token => pair.push(self.item(token)),
            }
        }
        pair
    }

    /// Passes by the value that is next, and answers its text.
    pub fn json(&mut self) -> Content<'a> {
        let start = self.reader.offset();
        let token = self.next();
        let _value = self.content(token);
        let end = self.reader.offset();
        match self.text.get(start..end) {
            Some(text) => Content::Json(value_in(text)),
            None => Content::Other,
        }
    }

    /// Reads the value that begins with a token, in which no objects are looked for.
    pub fn content(&mut self, token: Token<'a>) -> Content<'a> {
        match token {
            Token::Number(text) => match self.whole(text) {
                Some(number) => Content::Whole(number),
                None => Content::Other,
            },
            Token::String(text) => Content::Text(text),
            Token::Bool(truth) => Content::Truth(truth),
            Token::BeginArray => content_of(self.pair()),
            Token::BeginObject => {
                self.pass(1);
                Content::Other
            }
            _ => Content::Other,
        }
    }
}

/// A value's text alone, where the text up to the next token is given: white space and a comma may follow the value.
fn value_in(text: &str) -> &str {
    let value = text.trim_end();
    match value.strip_suffix(',') {
        Some(value) => value.trim_end(),
        None => value,
    }
}

fn whole_of(text: &str) -> Option<i128> {
    if text == "-0" {
        return None;
    }
    if let Ok(number) = text.parse::<i64>() {
        return Some(i128::from(number));
    }
    match text.parse::<u64>() {
        Ok(number) => Some(i128::from(number)),
        Err(_) => None,
    }
}

fn place_of(pair: Pair) -> Item {
    match pair.vector() {
        Some(point) => Item::Point(point),
        None => Item::Other,
    }
}

fn content_of<'a>(pair: Pair) -> Content<'a> {
    if let Some(vector) = pair.vector() {
        return Content::Vector(vector);
    }
    match pair.ends() {
        Some((first, second)) => Content::Ends(first, second),
        None => Content::Other,
    }
}
