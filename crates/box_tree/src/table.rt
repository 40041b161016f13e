//! The tree, and beside it the entries by key.

ghost use Rattle.std.specs.Prelude.{◌≡◌, ◌+◌, ◌^◌, ◌<◌, List, None, Some, length, slice_set, IfOk, OnOk, OnErr};
ghost use Rattle.box_tree_base.specs.Lists.{Each, IsIn, IsAdded};
ghost use Rattle.box_tree_base.specs.Trees.{IsOther};
ghost use Rattle.box_tree_base.specs.Roots.{leaves_of, IsMoved};
ghost use Rattle.box_tree_base.specs.declared.leaves.Leaf.{Leaf as AnyLeaf};
ghost use Rattle.box_tree.specs.Tables.{IsKept, loose_keys, entry_at, entry_of, leaf_of};

use crate::key_entries::KeyEntry;
use box_tree_base::{Leaf, Tree, roots};
use fixed_geom::Box2;
use std::alloc::{AllocError, Global};

/// The leaf of a key with this entry.
pub(crate) fn leaf_at(key: u32, entry: &KeyEntry) -> Leaf
    ensures { result ≡ leaf_of key entry.now }
{
    Leaf {
        key,
        rank: entry.rank,
        bounds: entry.bounds,
    }
}

/// Puts a key's leaf into the tree and its entry into the table, or changes nothing.
pub(crate) fn insert(
    root: &mut Vec<Tree>,
    entries: &mut Vec<Option<KeyEntry>>,
    key: u32,
    entry: &KeyEntry,
    alloc: Global,
) -> Result<(), AllocError>
    requires kept { IsKept (leaves_of root.old.items) entries.old.items }
    requires free { entry_at entries.old.items key ≡ None }
    requires other { Each (IsOther entry.now.rank) (leaves_of root.old.items) }
    requires few { length (leaves_of root.old.items) + 1 < 2 ^ 32 }
    requires room { key < length entries.old.items }
    ensures kept { IsKept (leaves_of root.new.items) entries.new.items }
    ensures entries { OnOk result (entries.new.items ≡ slice_set entries.old.items key (Some entry.now)) }
    ensures added { OnOk result (IsAdded (leaf_of key entry.now) (leaves_of root.old.items) (leaves_of root.new.items)) }
    ensures refused { OnErr result (entries.new.items ≡ entries.old.items) }
    ensures root { OnErr result (leaves_of root.new.items ≡ leaves_of root.old.items) }
{
    roots::insert(root, &leaf_at(key, entry), alloc)?;
    entries[key as usize] = Some(*entry);
    Ok(())
}

/// Takes a key's leaf out of the tree and its entry out of the table.
pub(crate) fn remove(
    root: &mut Vec<Tree>,
    entries: &mut Vec<Option<KeyEntry>>,
    key: u32,
    entry: &KeyEntry,
)
    requires kept { IsKept (leaves_of root.old.items) entries.old.items }
    requires there { IsIn (leaf_of key entry.now) (leaves_of root.old.items) }
    requires few { length (leaves_of root.old.items) < 2 ^ 32 }
    requires room { key < length entries.old.items }
    ensures kept { IsKept (leaves_of root.new.items) entries.new.items }
    ensures entries { entries.new.items ≡ slice_set entries.old.items key None }
    ensures removed { IsAdded (leaf_of key entry.now) (leaves_of root.new.items) (leaves_of root.old.items) }
{
    roots::remove(root, &leaf_at(key, entry));
    entries[key as usize] = None;
}

/// Gives a key another entry, in the boxes of the old one.
pub(crate) fn replace(
    root: &mut Vec<Tree>,
    entries: &mut Vec<Option<KeyEntry>>,
    key: u32,
    old: &KeyEntry,
    new: &KeyEntry,
)
    requires kept { IsKept (leaves_of root.old.items) entries.old.items }
    requires there { IsIn (leaf_of key old.now) (leaves_of root.old.items) }
    requires other { (rest : List AnyLeaf) → IsAdded (leaf_of key old.now) rest (leaves_of root.old.items) → Each (IsOther new.now.rank) rest }
    requires few { length (leaves_of root.old.items) < 2 ^ 32 }
    requires room { key < length entries.old.items }
    ensures kept { IsKept (leaves_of root.new.items) entries.new.items }
    ensures entries { entries.new.items ≡ slice_set entries.old.items key (Some new.now) }
    ensures moved { IsMoved (leaf_of key old.now) (leaf_of key new.now) (leaves_of root.old.items) (leaves_of root.new.items) }
{
    roots::replace(root, &leaf_at(key, old), &leaf_at(key, new));
    entries[key as usize] = Some(*new);
}

/// The keys whose loose boxes overlap the wanted one, ascending. The tree alone is read; its contract tells of the
/// entries.
pub(crate) fn overlapping(
    root: &[Tree],
    _entries: &[Option<KeyEntry>],
    wanted: &Box2,
    alloc: Global,
) -> Result<Vec<u32>, AllocError>
    requires { IsKept (leaves_of root.now) _entries.now }
    ensures { IfOk result (λ keys. keys.items ≡ loose_keys wanted.now 0 _entries.now) }
{
    let mut found = roots::overlapping(root, wanted, alloc)?;
    found.sort_unstable();
    Ok(found)
}
