//! Values that are written: objects and lists.

ghost use Rattle.std.specs.Prelude.{◌≡◌, Some, None, IfOk, OnOk, map};
ghost use Rattle.std.specs.Result.{IsOkUnless};
ghost use Rattle.serde_json.specs.Data.{array, no_members, object, string, put as with_member};
ghost use Rattle.serde_json.specs.View.{items_view, members_view, view};
ghost use Rattle.world_file_base.specs.Written.{
  corners_of,
  decimal_of,
  ends_of,
  id_of,
  natural_or_null,
  pair_data,
  vector_of,
  written,
};

use body_handles::{Handle, IdText};
use fixed_geom::{Box2, Refusal, Vec2};
use serde_json::{Map, Value, put};
use std::alloc::Global;

/// An object that is written.
#[derive(Drop)]
pub struct Members {
    alloc: Global,
    pub members: Map<String, Value>,
}

impl Members {
    pub fn new(alloc: Global) -> Members
        ensures { written result ≡ no_members }
    {
        Members {
            alloc,
            members: Map::new(alloc),
        }
    }

    /// Gives a key this value.
    pub fn put(&mut self, key: &str, value: Value) -> Result<(), Refusal>
        ensures put { OnOk result (written self.new ≡ with_member key.now (view value) (written self.old)) }
        ensures memory_only { IsOkUnless result Refusal.NoMemory }
    {
        put(&mut self.members, self.alloc, key, value)?;
        Ok(())
    }

    pub fn put_vector(&mut self, key: &str, vector: Vec2) -> Result<(), Refusal>
        ensures put { OnOk result (written self.new ≡ with_member key.now (vector_of vector) (written self.old)) }
        ensures memory_only { IsOkUnless result Refusal.NoMemory }
    {
        self.put(key, vector_value(self.alloc, vector)?)
    }

    pub fn put_text(&mut self, key: &str, text: &str) -> Result<(), Refusal>
        ensures put { OnOk result (written self.new ≡ with_member key.now (string text.now) (written self.old)) }
        ensures memory_only { IsOkUnless result Refusal.NoMemory }
    {
        self.put(key, Value::try_from_str(self.alloc, text)?)
    }

    /// The object.
    pub fn object(self) -> Value
        ensures { view result ≡ object (written self) }
    {
        Value::from(self.members)
    }
}

/// A list of two values.
pub(crate) fn pair_value(alloc: Global, first: Value, second: Value) -> Result<Value, Refusal>
    ensures value { IfOk result (λ value. view value ≡ pair_data (view first) (view second)) }
    ensures memory_only { IsOkUnless result Refusal.NoMemory }
{
    let mut items = Vec::with_capacity(alloc, 2)?;
    items.push(first)?;
    items.push(second)?;
    Ok(array_value(items))
}

/// A list of these values.
pub fn array_value(items: Vec<Value>) -> Value
    ensures { view result ≡ array (items_view items.items) }
{
    Value::from(items)
}

pub fn vector_value(alloc: Global, vector: Vec2) -> Result<Value, Refusal>
    ensures value { IfOk result (λ value. view value ≡ vector_of vector) }
    ensures memory_only { IsOkUnless result Refusal.NoMemory }
{
    pair_value(alloc, Value::from(vector.x), Value::from(vector.y))
}

/// A list of two places.
pub(crate) fn ends_value(alloc: Global, first: Vec2, second: Vec2) -> Result<Value, Refusal>
    ensures value { IfOk result (λ value. view value ≡ ends_of first second) }
    ensures memory_only { IsOkUnless result Refusal.NoMemory }
{
    let first = vector_value(alloc, first)?;
    let second = vector_value(alloc, second)?;
    pair_value(alloc, first, second)
}

/// A box as the list of its two corners.
pub(crate) fn corners_value(alloc: Global, corners: Box2) -> Result<Value, Refusal>
    ensures value { IfOk result (λ value. view value ≡ corners_of corners) }
    ensures memory_only { IsOkUnless result Refusal.NoMemory }
{
    ends_value(alloc, corners.lo, corners.hi)
}

/// A number as a text.
pub(crate) fn decimal_value(alloc: Global, number: i128) -> Result<Value, Refusal>
    ensures value { IfOk result (λ value. view value ≡ decimal_of number) }
    ensures memory_only { IsOkUnless result Refusal.NoMemory }
{
    let text = format!(in alloc; "{number}")?;
    Ok(Value::from(text))
}

/// An id as a text.
pub(crate) fn id_value(alloc: Global, handle: Handle) -> Result<Value, Refusal>
    ensures value { IfOk result (λ value. view value ≡ id_of handle) }
    ensures memory_only { IsOkUnless result Refusal.NoMemory }
{
    let id = IdText(handle);
    let text = format!(in alloc; "{id}")?;
    Ok(Value::from(text))
}

/// A number, or null.
pub fn number_or_null(number: Option<u32>) -> Value
    ensures { view result ≡ natural_or_null number }
{
    match number {
        Some(number) => Value::from(number),
        None => Value::from(()),
    }
}
