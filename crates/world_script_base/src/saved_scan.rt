//! Whether a text may be a saved world, told by its tokens before a value is made of it.
//!
//! A value of JSON takes many times its text: an object of one key some hundred times. So what isn't a saved world at
//! the first look is found here, and nothing of the text is kept. Each value is read to its end, whatever it is.

use crate::saved_keys::{Key, Kind, WORLD};
use crate::saved_object::{Seen, field_of, needed_of};
use json::{Reader, Scratch, Token};
use std::alloc::AllocError;

/// How deep objects nest in a saved world: a shape is in a body, which is in a slot of the world.
const MOST_NESTED: u32 = 4;

/// The tokens of a text that are still to come.
#[derive(Drop)]
struct Scan<'a> {
    reader: Reader<'a>,
    /// Whether a token was asked for and none was there.
    has_ended: bool,
}

impl<'a> Scan<'a> {
    /// The next token; a bad one where none is left.
    fn next(&mut self) -> Token<'a> {
        match self.reader.next() {
            Some(Token::Bad) | None => {
                self.has_ended = true;
                Token::Bad
            }
            Some(token) => token,
        }
    }

    /// Passes by what is left of the value that begins with a token.
    fn pass(&mut self, first: Token<'a>) {
        let mut open = 0u64;
        let mut token = first;
        for _ in 0..u64::MAX {
            match token {
                Token::BeginObject | Token::BeginArray => open = open.saturating_add(1),
                Token::EndObject | Token::EndArray => open = open.saturating_sub(1),
                _ => {}
            }
            if open == 0 || self.has_ended {
                return;
            }
            token = self.next();
        }
    }

    /// Reads a value. Answers its first token.
    fn read(&mut self) -> Token<'a> {
        let token = self.next();
        self.pass(token);
        token
    }

    /// Reads a value. Answers whether it is a text or a number, as asked for.
    fn read_one(&mut self, texts: bool) -> bool {
        match self.read() {
            Token::String(_) => texts,
            Token::Number(_) => !texts,
            _ => false,
        }
    }

    fn read_number_or_null(&mut self) -> bool {
        matches!(self.read(), Token::Number(_) | Token::Null)
    }

    fn read_truth(&mut self) -> bool {
        matches!(self.read(), Token::Bool(_))
    }

    /// Reads the beginning of a list or of an object, or a value that is none. Answers whether it is one.
    fn opens(&mut self, list: bool) -> bool {
        let token = self.next();
        let opens = match token {
            Token::BeginArray => list,
            Token::BeginObject => !list,
            _ => false,
        };
        if !opens {
            self.pass(token);
        }
        opens
    }

    /// Reads a value. Answers whether it is a list of two texts or of two numbers, as asked for.
    fn read_two(&mut self, texts: bool) -> bool {
        if !self.opens(true) {
            return false;
        }
        let mut good = true;
        for count in 0..usize::MAX {
            if self.reader.take_end_array() {
                return good && count == 2;
            }
            if !self.read_one(texts) {
                good = false;
            }
            if self.has_ended {
                break;
            }
        }
        false
    }

    /// Reads a value. Answers whether it is a list of two lists of two numbers.
    fn read_pairs(&mut self) -> bool {
        if !self.opens(true) {
            return false;
        }
        let mut good = true;
        for count in 0..usize::MAX {
            if self.reader.take_end_array() {
                return good && count == 2;
            }
            if !self.read_two(false) {
                good = false;
            }
            if self.has_ended {
                break;
            }
        }
        false
    }

    /// Reads the value of a key. Answers whether it is what it has to be.
    #[cycle(objects)]
    fn read_field(&mut self, kind: Kind, nested: u32) -> bool {
        match kind {
            Kind::Number => self.read_one(false),
            Kind::NumberOrNull => self.read_number_or_null(),
            Kind::Truth => self.read_truth(),
            Kind::Text => self.read_one(true),
            Kind::Pair => self.read_two(false),
            Kind::Pairs => self.read_pairs(),
            Kind::Texts => self.read_two(true),
            Kind::Object(keys) => self.read_object(keys, nested),
            Kind::Objects(keys) => self.read_objects(keys, nested),
        }
    }

    /// Reads a key's value into what was seen of an object.
    #[cycle(objects)]
    fn read_key(&mut self, keys: &'static [Key], nested: u32, seen: Seen, key: &str) -> Seen {
        match field_of(keys, seen.next(), key) {
            Some(field) => {
                let good = self.read_field(field.kind, nested);
                seen.with(field.place, good)
            }
            None => {
                let _other = self.read();
                seen.with_other()
            }
        }
    }

    /// Reads what is left of an object. Answers whether it may be one with these keys.
    #[cycle(objects)]
    fn read_keys(&mut self, keys: &'static [Key], nested: u32) -> bool {
        let mut seen = Seen::nothing();
        for _ in 0..u64::MAX {
            match self.reader.next_key() {
                Ok(Some(key)) => seen = self.read_key(keys, nested, seen, key),
                Ok(None) => return seen.may_be(needed_of(keys)),
                Err(_) => {
                    self.has_ended = true;
                    return false;
                }
            }
        }
        false
    }

    /// Reads a value. Answers whether it may be an object with these keys, in which objects nest so deep.
    #[cycle(objects)]
    fn read_object(&mut self, keys: &'static [Key], nested: u32) -> bool {
        nested > 0 && self.opens(false) && self.read_keys(keys, nested - 1)
    }

    /// Reads a value. Answers whether it may be a list of objects with these keys.
    #[cycle(objects)]
    fn read_objects(&mut self, keys: &'static [Key], nested: u32) -> bool {
        if !self.opens(true) {
            return false;
        }
        let mut good = true;
        for _item in 0..u64::MAX {
            if self.reader.take_end_array() {
                return good;
            }
            if !self.read_object(keys, nested) {
                good = false;
            }
            if self.has_ended {
                break;
            }
        }
        false
    }
}

/// Whether a text of JSON may be a saved world. Where it can't be one, it breaks the first clause. Where it may, all
/// clauses are still to be asked. The scratch grows to the text's length, and nothing else of the text is kept.
pub fn may_be_world(text: &str, scratch: &mut Scratch) -> Result<bool, AllocError> {
    let mut scan = Scan {
        reader: Reader::new(text, scratch)?,
        has_ended: false,
    };
    Ok(scan.read_object(WORLD, MOST_NESTED))
}
