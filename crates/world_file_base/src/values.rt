//! Values of JSON that may be missing or of another type.

ghost use Rattle.std.specs.Prelude.{◌≡◌};
ghost use Rattle.serde_json.specs.Find.{get, get_item};
ghost use Rattle.serde_json.specs.View.{items_view, view};
ghost use Rattle.world_file_base.specs.Reading.{has_keys_in, has_keys, is_null, seen, whole_of};

use serde_json::Value;

/// The value of a key of an object.
pub fn field<'a>(value: &'a Value, key: &str) -> Option<&'a Value>
    ensures { seen result ≡ get key.now (view value.now) }
{
    value.get(key)
}

/// Whether a value is an object of so many keys.
pub fn has_keys(value: &Value, count: usize) -> bool
    ensures { result ≡ has_keys count (view value.now) }
{
    match value.as_object() {
        Some(members) => members.len() == count,
        None => false,
    }
}

/// Whether there is a value, and it is an object of so many keys.
pub(crate) fn has_keys_in(value: Option<&Value>, count: usize) -> bool
    ensures { result ≡ has_keys_in count (seen value.entry) }
{
    match value {
        Some(value) => has_keys(value, count),
        None => false,
    }
}

/// Whether there is a value, and it is null.
pub(crate) fn is_null(value: Option<&Value>) -> bool
    ensures { result ≡ is_null (seen value.entry) }
{
    match value {
        Some(value) => value.is_null(),
        None => false,
    }
}

/// An item of a list.
pub(crate) fn item_at(items: &[Value], place: usize) -> Option<&Value>
    ensures { seen result ≡ get_item place (items_view items.now) }
{
    if place < items.len() {
        Some(&items[place])
    } else {
        None
    }
}

pub(crate) fn whole_of(value: Option<&Value>) -> Option<i128>
    ensures { result ≡ whole_of (seen value.entry) }
{
    value?.as_number()?.as_i128()
}
