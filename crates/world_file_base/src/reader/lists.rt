//! Lists, vectors and boxes that a reader reads.

ghost use Rattle.std.specs.Prelude.{◌≡◌};
ghost use Rattle.serde_json.specs.View.{items_view};
ghost use Rattle.world_file_base.specs.Reading.{corners_in, items_in, seen, vector_in, vector_within};
ghost use Rattle.world_file_base.specs.AskedValues.{ends_asks, list_asks, pair_asks, vector_asks, vector_within_asks};

use crate::clause::Clause;
use crate::reader::Reader;
use crate::values::item_at;
use fixed_geom::{Box2, Vec2, ZERO_VECTOR, is_within};
use serde_json::Value;

impl Reader {
    /// The items of a list.
    pub fn list<'a>(&mut self, value: Option<&'a Value>) -> &'a [Value]
        ensures value { items_view result.now ≡ items_in (seen value.entry) }
        ensures asked { self.new ≡ list_asks (seen value.entry) self.old }
    {
        match value.and_then(Value::as_array) {
            Some(items) => items.as_slice(),
            None => {
                self.note(Clause::Form);
                &[]
            }
        }
    }

    /// The items of a list of two.
    pub fn pair<'a>(&mut self, value: Option<&'a Value>) -> &'a [Value]
        ensures value { items_view result.now ≡ items_in (seen value.entry) }
        ensures asked { self.new ≡ pair_asks (seen value.entry) self.old }
    {
        let items = self.list(value);
        self.ask(items.len() == 2, Clause::Form);
        items
    }

    /// Two numbers of 64 bits with a sign.
    pub fn vector(&mut self, value: Option<&Value>) -> Vec2
        ensures value { result ≡ vector_in (seen value.entry) }
        ensures asked { self.new ≡ vector_asks (seen value.entry) self.old }
    {
        let items = self.pair(value);
        Vec2 {
            x: self.number(item_at(items, 0)),
            y: self.number(item_at(items, 1)),
        }
    }

    /// Two whole numbers of sizes up to `most`.
    pub fn vector_within(&mut self, value: Option<&Value>, most: u64) -> Vec2
        ensures value { result ≡ vector_within most (seen value.entry) }
        ensures asked { self.new ≡ vector_within_asks most (seen value.entry) self.old }
    {
        let vector = self.vector(value);
        if is_within(vector, most) {
            return vector;
        }
        self.note(Clause::Limits);
        ZERO_VECTOR
    }

    /// A box by its two corners.
    pub fn corners(&mut self, value: Option<&Value>, most: u64) -> Box2
        ensures value { result ≡ corners_in most (seen value.entry) }
        ensures asked { self.new ≡ ends_asks most (seen value.entry) self.old }
    {
        let items = self.pair(value);
        Box2 {
            lo: self.vector_within(item_at(items, 0), most),
            hi: self.vector_within(item_at(items, 1), most),
        }
    }
}
