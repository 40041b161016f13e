//! What is wrong with a value, and the values of one key.

mod lists;

ghost use Rattle.std.specs.Prelude.{◌≡◌, ◌-◌, ◌<◌, ◌≤◌, ◌^◌, Some, None, IfOk, IfErr};
ghost use Rattle.world_file_base.specs.Asks.{asked, broken_up_to, no_asks, noted};
ghost use Rattle.world_file_base.specs.Reading.{
  group_in,
  island_in,
  number_in,
  seen,
  signed_in,
  text_in,
  truth_in,
  unsigned_in,
  whole_in,
};
ghost use Rattle.world_file_base.specs.AskedValues.{
  group_asks,
  island_asks,
  number_asks,
  signed_asks,
  text_asks,
  truth_asks,
  unsigned_asks,
  whole_asks,
  decimal_asks,
  handle_asks,
};
ghost use Rattle.world_file_base.specs.Texts.{decimal_in, handle_in, handle_of_text};
ghost use Rattle.world_file_base.specs.declared.clause.Broken.TheVariants.{Clause as BrokenClause};

use crate::clause::{Broken, Clause};
use crate::decimals::{is_number, sized_number};
use crate::ranges::{group_within, is_between, is_group, natural_of, within};
use crate::values::{is_null, whole_of};
use body_handles::{Handle, NO_HANDLE, handle_of};
use serde_json::Value;

/// Reads the values of keys, and keeps the first clause that any of them breaks. What is read in place of a value that
/// breaks one means nothing.
#[derive(Clone, Copy)]
pub struct Reader {
    pub broken: Option<Clause>,
}

impl Reader {
    /// A reader that has read nothing.
    pub fn new() -> Reader
        ensures { result ≡ no_asks }
    {
        Reader { broken: None }
    }

    /// Notes that a clause is broken.
    pub fn note(&mut self, clause: Clause)
        ensures { self.new ≡ noted clause self.old }
    {
        let is_first = match self.broken {
            Some(broken) => clause.number() < broken.number(),
            None => true,
        };
        if is_first {
            self.broken = Some(clause);
        }
    }

    /// Notes that a clause is broken unless something holds.
    pub fn ask(&mut self, holds: bool, clause: Clause)
        ensures { self.new ≡ asked holds clause self.old }
    {
        if !holds {
            self.note(clause);
        }
    }

    /// Ends the reading if one of the clauses up to this one is broken.
    pub fn verdict(&self, last: Clause) -> Result<(), Broken>
        ensures going { IfOk result (λ _. broken_up_to last self.now.broken ≡ None) }
        ensures broken { IfErr result (λ e. (clause : Clause) × (e ≡ BrokenClause clause) × (broken_up_to last self.now.broken ≡ Some clause)) }
    {
        match self.broken {
            Some(clause) if clause.number() <= last.number() => Err(Broken::Clause(clause)),
            _ => Ok(()),
        }
    }

    /// A whole number that 64 bits hold, with a sign or without.
    pub fn whole(&mut self, value: Option<&Value>) -> i128
        ensures value { result ≡ whole_in (seen value.entry) }
        ensures asked { self.new ≡ whole_asks (seen value.entry) self.old }
    {
        let whole = whole_of(value);
        self.ask(whole.is_some(), Clause::Form);
        match whole {
            Some(number) => number,
            None => 0,
        }
    }

    /// A whole number from `low` to `high`.
    pub fn signed(&mut self, value: Option<&Value>, low: i64, high: i64) -> i64
        ensures value { result ≡ signed_in low high (seen value.entry) }
        ensures asked { self.new ≡ signed_asks low high (seen value.entry) self.old }
    {
        let number = self.whole(value);
        self.ask(is_between(number, low, high), Clause::Limits);
        within(number, low, high)
    }

    /// A whole number from 0 to `high`.
    pub fn unsigned(&mut self, value: Option<&Value>, high: u64) -> u64
        ensures value { result ≡ unsigned_in high (seen value.entry) }
        ensures asked { self.new ≡ unsigned_asks high (seen value.entry) self.old }
        ensures within { result ≤ high }
    {
        let natural = natural_of(self.whole(value), high);
        self.ask(natural.is_some(), Clause::Limits);
        match natural {
            Some(number) => number,
            None => 0,
        }
    }

    /// A number of 8 bits, for a colour or the index of a shape.
    pub fn byte(&mut self, value: Option<&Value>) -> u8
        ensures value { result ≡ unsigned_in 255 (seen value.entry) }
        ensures asked { self.new ≡ unsigned_asks 255 (seen value.entry) self.old }
    {
        self.unsigned(value, 255) as u8
    }

    /// A slot.
    pub fn slot(&mut self, value: Option<&Value>) -> u32
        ensures value { result ≡ unsigned_in (2 ^ 32 - 1) (seen value.entry) }
        ensures asked { self.new ≡ unsigned_asks (2 ^ 32 - 1) (seen value.entry) self.old }
    {
        self.unsigned(value, 4_294_967_295) as u32
    }

    /// The name of an island, or none.
    pub fn island(&mut self, value: Option<&Value>) -> Option<u32>
        ensures value { result ≡ island_in (seen value.entry) }
        ensures asked { self.new ≡ island_asks (seen value.entry) self.old }
    {
        if is_null(value) {
            return None;
        }
        Some(self.slot(value))
    }

    /// A number of 32 bits with a sign, for a group.
    pub fn group(&mut self, value: Option<&Value>) -> i32
        ensures value { result ≡ group_in (seen value.entry) }
        ensures asked { self.new ≡ group_asks (seen value.entry) self.old }
    {
        let number = self.whole(value);
        self.ask(is_group(number), Clause::Limits);
        group_within(number)
    }

    /// A truth.
    pub fn truth(&mut self, value: Option<&Value>) -> bool
        ensures value { result ≡ truth_in (seen value.entry) }
        ensures asked { self.new ≡ truth_asks (seen value.entry) self.old }
    {
        match value.and_then(Value::as_bool) {
            Some(truth) => truth,
            None => {
                self.note(Clause::Form);
                false
            }
        }
    }

    /// A text.
    pub fn text<'a>(&mut self, value: Option<&'a Value>) -> &'a str
        ensures value { result.now ≡ text_in (seen value.entry) }
        ensures asked { self.new ≡ text_asks (seen value.entry) self.old }
    {
        match value.and_then(Value::as_str) {
            Some(text) => text,
            None => {
                self.note(Clause::Form);
                ""
            }
        }
    }

    /// A number as a text, of a size up to `most`.
    pub fn decimal(&mut self, value: Option<&Value>, most: u128) -> i128
        requires { most < 2 ^ 127 }
        ensures value { result ≡ decimal_in most (seen value.entry) }
        ensures asked { self.new ≡ decimal_asks most (seen value.entry) self.old }
    {
        let text = self.text(value);
        self.ask(is_number(text), Clause::Form);
        let number = sized_number(text, most);
        self.ask(number.is_some(), Clause::Limits);
        match number {
            Some(number) => number,
            None => 0,
        }
    }

    /// The id of a body.
    pub fn handle(&mut self, value: Option<&Value>) -> Handle
        ensures value { result ≡ handle_in (seen value.entry) }
        ensures asked { self.new ≡ handle_asks (seen value.entry) self.old }
    {
        match handle_in_text(self.text(value)) {
            Some(handle) => handle,
            None => {
                self.note(Clause::Form);
                NO_HANDLE
            }
        }
    }

    /// A number of 64 bits with a sign.
    pub fn number(&mut self, value: Option<&Value>) -> i64
        ensures value { result ≡ number_in (seen value.entry) }
        ensures asked { self.new ≡ number_asks (seen value.entry) self.old }
    {
        self.signed(value, i64::MIN, i64::MAX)
    }
}

/// The handle that a text is the id of.
pub fn handle_in_text(text: &str) -> Option<Handle>
    ensures { result ≡ handle_of_text text.now }
{
    match handle_of(text) {
        Some(handle) => Some(narrow(handle)),
        None => None,
    }
}

/// The same handle: its parts have 32 bits.
fn narrow(handle: Handle) -> Handle
    ensures same { result ≡ handle }
    ensures slot { handle.slot < 2 ^ 32 }
    ensures generation { handle.generation < 2 ^ 32 }
{
    handle
}
