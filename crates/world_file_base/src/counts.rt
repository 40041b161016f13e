//! How many items lists have.

ghost use Rattle.std.specs.Prelude.{◌≡◌, ◌≤◌, ◌⊎◌};
ghost use Rattle.serde_json.specs.Events.{items_len};
ghost use Rattle.serde_json.specs.View.{items_view};

use serde_json::Value;

/// How many items a list has.
pub(crate) fn count(items: &[Value]) -> usize
    ensures { result ≡ items_len (items_view items.now) }
{
    items.len()
}

/// The lesser of two counts.
pub fn lesser(a: usize, b: usize) -> usize
    ensures first { result ≤ a }
    ensures second { result ≤ b }
    ensures one { (a ≤ result) ⊎ (b ≤ result) }
{
    if a <= b { a } else { b }
}
