//! Two lists that ascend by a number, as one.

ghost use Rattle.std.specs.Prelude.{◌≡◌, ℕ, ◌≤◌, ◌++◌, IfOk, OnOk, drop, length};
ghost use Rattle.std.specs.Result.{IsOkUnless};
ghost use Rattle.contacts_base.specs.Merge.{AreAscending, below_of, beyond_of, merged};
ghost use Rattle.contacts_base.specs.Keys.{key_number};
ghost use Rattle.contacts_base.specs.Contacts.{number_of};

use crate::{ContactEntry, ContactKey};
use fixed_geom::Refusal;
use std::alloc::Global;

/// What stands in a list by its number.
pub trait Numbered: Copy {
    ghost number: { Self → ℕ };

    /// The number that decides the place.
    fn order(&self) -> u128
        ensures { result ≡ number self.now };
}

impl Numbered for ContactKey {
    ghost number = { key_number };

    fn order(&self) -> u128 {
        self.number()
    }
}

impl Numbered for ContactEntry {
    ghost number = { number_of };

    fn order(&self) -> u128 {
        self.key.number()
    }
}

/// Adds the items of `more` from `place` on that come before `item`. Answers the place of the first that doesn't.
pub fn push_below<T: Numbered>(
    all: &mut Vec<T>,
    more: &[T],
    place: usize,
    item: &T,
) -> Result<usize, Refusal>
    requires { place ≤ length more.now }
    ensures within { IfOk result (λ next. next ≤ length more.now) }
    ensures pushed { OnOk result (all.new.items ≡ all.old.items ++ below_of T.number item.now (drop place more.now)) }
    ensures left { IfOk result (λ next. drop next more.now ≡ beyond_of T.number item.now (drop place more.now)) }
    ensures memory_only { IsOkUnless result Refusal.NoMemory }
{
    let number = item.order();
    for index in place..more.len() {
        if more[index].order() >= number {
            return Ok(index);
        }
        all.push(more[index])?;
    }
    Ok(more.len())
}

/// The items of two lists that ascend, as one list.
pub fn merge<T: Numbered>(alloc: Global, first: &[T], second: &[T]) -> Result<Vec<T>, Refusal>
    requires first { AreAscending T.number first.now }
    requires second { AreAscending T.number second.now }
    ensures value { IfOk result (λ all. all.items ≡ merged T.number first.now second.now) }
    ensures memory_only { IsOkUnless result Refusal.NoMemory }
{
    let mut all = Vec::with_capacity(alloc, first.len().saturating_add(second.len()))?;
    let mut place = 0;
    for item in first {
        place = push_below(&mut all, second, place, item)?;
        all.push(*item)?;
    }
    all.extend_from_slice(&second[place..])?;
    Ok(all)
}
