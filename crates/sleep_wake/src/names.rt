//! The names of islands that sleep.

ghost use Rattle.std.specs.Prelude.{◌≡◌, ◌<◌, ◌≤◌, ◌+◌, ◌++◌, ℕ, true, Contains, IfOk, OnErr, OnOk, is_some, vec_capacity, vec_len};
ghost use Rattle.std.specs.List.Sorted.{IsStrictlyIncreasing};
ghost use Rattle.std.specs.Option.{option_to_list};
ghost use Rattle.std.specs.Result.{IsOkUnless};
ghost use Rattle.sleep_wake.specs.Sleeping.{name_at, sleeping_names};

use fixed_geom::Refusal;
use islands::{Islands, sleeping_name};
use std::alloc::Global;

/// The name of the island of the mover in the slot, if it sleeps.
fn name_at(islands: &Islands, slot: u32) -> Option<u32>
    ensures { result ≡ name_at islands.now.labels slot }
{
    sleeping_name(islands.label_of(slot))
}

/// Adds an item, if there is one.
pub fn push_some<T: Copy + Drop>(items: &mut Vec<T>, item: Option<T>) -> Result<(), Refusal>
    ensures pushed { OnOk result (items.new.items ≡ items.old.items ++ option_to_list item) }
    ensures refused { OnErr result (items.new.items ≡ items.old.items) }
    ensures memory_only { IsOkUnless result Refusal.NoMemory }
{
    if let Some(item) = item {
        items.push(item)?;
    }
    Ok(())
}

/// Adds an item, if there is one. There is room for it then.
pub fn put_some<T: Copy + Drop>(items: &mut Vec<T>, item: Option<T>)
    requires { is_some item ≡ true → vec_len items.old < vec_capacity items.old }
    ensures items { items.new.items ≡ items.old.items ++ option_to_list item }
    ensures len { vec_len items.new ≤ vec_len items.old + 1 }
    ensures capacity { vec_capacity items.old ≤ vec_capacity items.new }
{
    if let Some(item) = item {
        let _ = items.push(item);
    }
}

/// Sorts numbers, and leaves each of them once.
pub fn sort_once(numbers: &mut Vec<u32>)
    ensures rising { IsStrictlyIncreasing numbers.new.items }
    ensures extended { (n : ℕ) → Contains numbers.old.items n → Contains numbers.new.items n }
    ensures none_new { (n : ℕ) → Contains numbers.new.items n → Contains numbers.old.items n }
{
    numbers.sort_unstable();
    numbers.dedup();
}

/// The names of the sleeping islands in which the movers of these slots are, ascending and each once.
pub(crate) fn list_names(
    alloc: Global,
    islands: &Islands,
    slots: &[u32],
) -> Result<Vec<u32>, Refusal>
    ensures value { IfOk result (λ names. names.items ≡ sleeping_names islands.now.labels slots.now) }
    ensures memory_only { IsOkUnless result Refusal.NoMemory }
{
    let mut names = Vec::new(alloc);
    for place in 0..slots.len() {
        push_some(&mut names, name_at(islands, slots[place]))?;
    }
    sort_once(&mut names);
    Ok(names)
}
