//! Lists of bodies and joints by slot.

ghost use Rattle.std.specs.Prelude.{◌≡◌, ◌<◌, ◌≤◌, ◌-◌, ◌+◌, vec_len, vec_capacity, IfOk, None, slice_set};
ghost use Rattle.std.specs.Option.{option_copied};
ghost use Rattle.std.specs.Result.{IsOkUnless};
ghost use Rattle.plain_world.specs.Slots.{body_of, item_at, with_item};

use crate::body::Body;
use body_handles::{Handle, Handles};
use fixed_geom::Refusal;
use std::alloc::Global;

/// What a slot contains, a body or a joint.
pub fn item_at<T>(items: &[Option<T>], slot: usize) -> Option<&T>
    ensures { option_copied result ≡ item_at items.now slot }
{
    match items.get(slot) {
        Some(entry) => entry.as_ref(),
        None => None,
    }
}

/// The body that a handle names.
pub fn body_of<'a>(
    handles: &Handles,
    bodies: &'a [Option<Body>],
    handle: Handle,
) -> Option<&'a Body>
    ensures { option_copied result ≡ body_of handles.now.slot_entries bodies.now handle }
{
    if handles.is_live(handle) {
        item_at(bodies, handle.slot as usize)
    } else {
        None
    }
}

/// Puts a body or a joint into a slot, or into a new one at the end, for which there is room.
pub fn put_item<T: Drop>(items: &mut Vec<Option<T>>, slot: usize, item: T)
    requires { 1 ≤ vec_capacity items.old - vec_len items.old }
    ensures items { items.new.items ≡ with_item items.old.items slot item }
    ensures capacity { vec_capacity items.old ≤ vec_capacity items.new }
    ensures len { vec_len items.new ≤ vec_len items.old + 1 }
{
    if slot < items.len() {
        items[slot] = Some(item);
    } else {
        let _ = items.push(Some(item));
    }
}

/// Empties a slot.
pub fn clear_slot<T: Drop>(items: &mut Vec<Option<T>>, slot: usize)
    requires { slot < vec_len items.old }
    ensures { items.new.items ≡ slice_set items.old.items slot None }
{
    items[slot] = None;
}

/// A copy of each body.
pub fn copy_bodies(alloc: Global, bodies: &[Option<Body>]) -> Result<Vec<Option<Body>>, Refusal>
    ensures copy { IfOk result (λ copies. copies.items ≡ bodies.now) }
    ensures memory_only { IsOkUnless result Refusal.NoMemory }
{
    let mut copies = Vec::with_capacity(alloc, bodies.len())?;
    for entry in bodies {
        copies.push(copy_entry(entry)?)?;
    }
    Ok(copies)
}

fn copy_entry(entry: &Option<Body>) -> Result<Option<Body>, Refusal>
    ensures copy { IfOk result (λ copied. copied ≡ entry.now) }
    ensures memory_only { IsOkUnless result Refusal.NoMemory }
{
    match entry {
        Some(body) => Ok(Some(body.try_copy()?)),
        None => Ok(None),
    }
}
