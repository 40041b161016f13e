//! The tree and its entries, and beside them the boxes themselves by key.

ghost use Rattle.std.specs.Prelude.{◌≡◌, ◌<◌, ◌≤◌, ◌++◌, ◌∷◌, ◌-◌, vec_capacity, vec_len, [], true, is_some, length, slice_set, IfOk, OnOk, OnErr, None, Some};
ghost use Rattle.box_tree_base.specs.Roots.{leaves_of};
ghost use Rattle.box_tree.specs.Tables.{entry_at};
ghost use Rattle.box_tree.specs.BoxLists.{box_at, is_over, keys_over};
ghost use Rattle.box_tree.specs.Indexes.{IsIndex};

use crate::key_entries::{KeyEntry, key_entry_after, key_entry_for};
use crate::table;
use box_tree_base::Tree;
use fixed_geom::{Box2, contains, overlaps};
use std::alloc::{AllocError, Global};

/// The entry of a key, where it has one.
pub(crate) fn entry_in(entries: &[Option<KeyEntry>], key: u32) -> Option<KeyEntry>
    requires { key < length entries.now }
    ensures { result ≡ entry_at entries.now key }
{
    entries[key as usize]
}

/// The box of a key, where it has one.
pub(crate) fn box_in(boxes: &[Option<Box2>], key: u32) -> Option<Box2>
    ensures { result ≡ box_at boxes.now key }
{
    match boxes.get(key as usize) {
        None => None,
        Some(entry) => *entry,
    }
}

// Whether the key has a box that overlaps the wanted one.
fn is_over(boxes: &[Option<Box2>], key: u32, wanted: &Box2) -> bool
    ensures { result ≡ is_over wanted.now (box_at boxes.now key) }
{
    match box_in(boxes, key) {
        None => false,
        Some(bounds) => overlaps(bounds, *wanted),
    }
}

/// One key more, for which there is room, with no entry.
pub(crate) fn push_none(entries: &mut Vec<Option<KeyEntry>>)
    requires { 1 ≤ vec_capacity entries.old - vec_len entries.old }
    ensures { entries.new.items ≡ entries.old.items ++ None ∷ [] }
{
    let _ = entries.push(None);
}

/// Gives a key that has none a box.
pub(crate) fn insert(
    root: &mut Vec<Tree>,
    entries: &mut Vec<Option<KeyEntry>>,
    boxes: &mut Vec<Option<Box2>>,
    key: u32,
    bounds: &Box2,
    alloc: Global,
) -> Result<(), AllocError>
    requires index { IsIndex (leaves_of root.old.items) entries.old.items boxes.old.items }
    requires room { key < length boxes.old.items }
    requires free { box_at boxes.old.items key ≡ None }
    ensures index { IsIndex (leaves_of root.new.items) entries.new.items boxes.new.items }
    ensures inserted { OnOk result (boxes.new.items ≡ slice_set boxes.old.items key (Some bounds.now)) }
    ensures refused { OnErr result (boxes.new.items ≡ boxes.old.items) }
{
    let entry = key_entry_for(key, bounds);
    table::insert(root, entries, key, &entry, alloc)?;
    boxes[key as usize] = Some(*bounds);
    Ok(())
}

/// Takes the box of a key that has this entry.
pub(crate) fn remove(
    root: &mut Vec<Tree>,
    entries: &mut Vec<Option<KeyEntry>>,
    boxes: &mut Vec<Option<Box2>>,
    key: u32,
    entry: &KeyEntry,
)
    requires index { IsIndex (leaves_of root.old.items) entries.old.items boxes.old.items }
    requires room { key < length boxes.old.items }
    requires entry { entry_at entries.old.items key ≡ Some entry.now }
    ensures index { IsIndex (leaves_of root.new.items) entries.new.items boxes.new.items }
    ensures removed { boxes.new.items ≡ slice_set boxes.old.items key None }
{
    table::remove(root, entries, key, entry);
    boxes[key as usize] = None;
}

// Moves a key that has this entry to where its box is now.
fn moved(
    root: &mut Vec<Tree>,
    entries: &mut Vec<Option<KeyEntry>>,
    boxes: &mut Vec<Option<Box2>>,
    key: u32,
    old: &KeyEntry,
    bounds: &Box2,
)
    requires index { IsIndex (leaves_of root.old.items) entries.old.items boxes.old.items }
    requires room { key < length boxes.old.items }
    requires entry { entry_at entries.old.items key ≡ Some old.now }
    ensures index { IsIndex (leaves_of root.new.items) entries.new.items boxes.new.items }
    ensures moved { boxes.new.items ≡ slice_set boxes.old.items key (Some bounds.now) }
{
    let entry = key_entry_after(key, old, bounds);
    table::replace(root, entries, key, old, &entry);
    boxes[key as usize] = Some(*bounds);
}

/// Gives a key that has this entry another box. The tree stays as it is where the loose box holds the new one.
pub(crate) fn replace(
    root: &mut Vec<Tree>,
    entries: &mut Vec<Option<KeyEntry>>,
    boxes: &mut Vec<Option<Box2>>,
    key: u32,
    entry: &KeyEntry,
    bounds: &Box2,
)
    requires index { IsIndex (leaves_of root.old.items) entries.old.items boxes.old.items }
    requires room { key < length boxes.old.items }
    requires entry { entry_at entries.old.items key ≡ Some entry.now }
    ensures index { IsIndex (leaves_of root.new.items) entries.new.items boxes.new.items }
    ensures replaced { boxes.new.items ≡ slice_set boxes.old.items key (Some bounds.now) }
{
    if contains(entry.bounds, *bounds) {
        boxes[key as usize] = Some(*bounds);
    } else {
        moved(root, entries, boxes, key, entry, bounds);
    }
}

/// The keys whose boxes overlap the wanted one, ascending.
pub(crate) fn overlapping(
    root: &[Tree],
    entries: &[Option<KeyEntry>],
    boxes: &[Option<Box2>],
    wanted: &Box2,
    alloc: Global,
) -> Result<Vec<u32>, AllocError>
    requires { IsIndex (leaves_of root.now) entries.now boxes.now }
    ensures { IfOk result (λ keys. keys.items ≡ keys_over wanted.now 0 boxes.now) }
{
    let mut found = table::overlapping(root, entries, wanted, alloc)?;
    found.retain(|key| is_over(boxes, *key, wanted));
    Ok(found)
}
