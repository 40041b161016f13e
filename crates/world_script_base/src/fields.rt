//! The keys of an object of a line.

use crate::faults::{LineFault, Reason};
use crate::values::{Content, Value};
use body_handles::{Handle, NO_HANDLE, handle_of};
use fixed_geom::{Rot, Vec2, ZERO_VECTOR};
use shapes::{ShapeDef, Shapes};
use std::alloc::Global;
use std::mem;

/// How many keys an object of a line may have: more than any request and any shape has.
const MOST_KEYS: usize = 16;

/// How many shapes of a line are kept: one more than a body may have, so that the world refuses what the line means.
const MOST_SHAPES: usize = 9;

/// The keys of an object, each once, with the value that stood last. Each key that is allowed is taken; what is left
/// then is unknown. What is wrong is noted, the first of it alone, and what is taken from then on means nothing: so
/// whoever reads an object takes all of its keys, and asks once, at the end, whether it was well.
#[derive(Drop)]
pub struct Fields<'a> {
    values: Vec<Value<'a>>,
    /// The shapes of the object's list of them.
    shapes: Shapes,
    fault: Option<LineFault<'a>>,
}

impl<'a> Fields<'a> {
    pub fn new(alloc: Global) -> Fields<'a> {
        Fields {
            values: Vec::new(alloc),
            shapes: Shapes::new(alloc),
            fault: None,
        }
    }

    /// Notes what is wrong, unless something was before.
    pub fn note(&mut self, fault: LineFault<'a>) {
        if self.fault.is_none() {
            self.fault = Some(fault);
        }
    }

    /// Notes what is wrong with a key.
    pub fn note_at(&mut self, key: &'a str, reason: Reason) {
        self.note(LineFault::at(key, reason));
    }

    fn place_of(&self, key: &str) -> Option<usize> {
        self.values.iter().position(|value| value.key == key)
    }

    /// Whether the key stands in the object, and wasn't taken.
    pub fn has(&self, key: &str) -> bool {
        self.place_of(key).is_some()
    }

    /// Puts a key's value in, in place of what the key had.
    pub(crate) fn put(&mut self, key: &'a str, content: Content<'a>) {
        match self.place_of(key) {
            Some(place) => self.replace(place, content),
            None => self.append(Value { key, content }),
        }
    }

    fn replace(&mut self, place: usize, content: Content<'a>) {
        if let Some(value) = self.values.get_mut(place) {
            value.content = content;
        }
    }

    fn append(&mut self, value: Value<'a>) {
        if self.values.len() >= MOST_KEYS {
            self.note_at(value.key, Reason::TooManyKeys);
        } else if self.values.push(value).is_err() {
            self.note(LineFault::NoMemory);
        }
    }

    /// Begins the list of shapes anew.
    pub(crate) fn clear_shapes(&mut self, alloc: Global) {
        self.shapes = Shapes::new(alloc);
    }

    /// Adds a shape, of which no more are kept than need be.
    pub(crate) fn push_shape(&mut self, shape: ShapeDef) {
        if self.shapes.as_slice().len() >= MOST_SHAPES {
            return;
        }
        if self.shapes.push(shape).is_err() {
            self.note(LineFault::NoMemory);
        }
    }

    /// The value of a key that has to stand.
    fn take(&mut self, key: &'a str) -> Content<'a> {
        match self.place_of(key) {
            Some(place) if place < self.values.len() => self.values.swap_remove(place).content,
            _ => {
                self.note_at(key, Reason::Missing);
                Content::Other
            }
        }
    }

    pub fn take_text(&mut self, key: &'a str) -> &'a str {
        match self.take(key) {
            Content::Text(text) => text,
            _ => {
                self.note_at(key, Reason::NotText);
                ""
            }
        }
    }

    pub fn take_vector(&mut self, key: &'a str) -> Vec2 {
        match self.take(key) {
            Content::Vector(vector) => vector,
            _ => {
                self.note_at(key, Reason::NotVector);
                ZERO_VECTOR
            }
        }
    }

    pub fn take_facing(&mut self, key: &'a str) -> Rot {
        let Vec2 { x: c, y: s } = self.take_vector(key);
        Rot { c, s }
    }

    pub fn take_ends(&mut self, key: &'a str) -> (Vec2, Vec2) {
        match self.take(key) {
            Content::Ends(first, second) => (first, second),
            _ => {
                self.note_at(key, Reason::NotEnds);
                (ZERO_VECTOR, ZERO_VECTOR)
            }
        }
    }

    pub fn take_truth(&mut self, key: &'a str) -> bool {
        match self.take(key) {
            Content::Truth(truth) => truth,
            _ => {
                self.note_at(key, Reason::NotTruth);
                false
            }
        }
    }

    /// A whole number, or what is no number of 64 bits.
    fn take_whole(&mut self, key: &'a str) -> i128 {
        match self.take(key) {
            Content::Whole(number) => number,
            _ => i128::MAX,
        }
    }

    pub fn take_signed(&mut self, key: &'a str) -> i64 {
        match i64::try_from(self.take_whole(key)) {
            Ok(number) => number,
            Err(_) => {
                self.note_at(key, Reason::NotWhole);
                0
            }
        }
    }

    pub fn take_unsigned(&mut self, key: &'a str) -> u64 {
        match u64::try_from(self.take_whole(key)) {
            Ok(number) => number,
            Err(_) => {
                self.note_at(key, Reason::NotUnsigned);
                0
            }
        }
    }

    /// A whole number of 32 bits.
    pub fn take_group(&mut self, key: &'a str) -> i32 {
        match i32::try_from(self.take_whole(key)) {
            Ok(number) => number,
            Err(_) => {
                self.note_at(key, Reason::NotIn32Bits);
                0
            }
        }
    }

    pub fn take_id(&mut self, key: &'a str) -> Handle {
        let id = match self.take(key) {
            Content::Text(text) => handle_of(text),
            _ => None,
        };
        if id.is_none() {
            self.note_at(key, Reason::NotId);
        }
        id.unwrap_or(NO_HANDLE)
    }

    /// The shapes of the object's list of them, which are no longer there then.
    pub fn take_shapes(&mut self, alloc: Global, key: &'a str) -> Shapes {
        match self.take(key) {
            Content::Shapes => {}
            Content::Faulty(fault) => self.note(LineFault::Bad(fault)),
            _ => self.note_at(key, Reason::NotShapes),
        }
        mem::replace(&mut self.shapes, Shapes::new(alloc))
    }

    /// The text of a JSON value of any form.
    pub fn take_json(&mut self, key: &'a str) -> &'a str {
        match self.take(key) {
            Content::Json(text) => text,
            _ => "",
        }
    }

    /// Takes a list of objects. What they are stands beside the object.
    pub fn take_each(&mut self, key: &'a str) {
        match self.take(key) {
            Content::Each => {}
            Content::Faulty(fault) => self.note(LineFault::Bad(fault)),
            _ => self.note_at(key, Reason::NotEach),
        }
    }

    /// What is wrong with the object: what was noted first, or a key that wasn't taken.
    pub fn fault(&self) -> Option<LineFault<'a>> {
        if self.fault.is_some() {
            return self.fault;
        }
        match self.values.first() {
            Some(value) => Some(LineFault::at(value.key, Reason::Unknown)),
            None => None,
        }
    }
}
