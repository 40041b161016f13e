//! Boxes by key.

ghost use Rattle.std.specs.Prelude.{◌≡◌, ℕ, ◌+◌, ◌≤◌, ◌<◌, ◌++◌, ◌∷◌, [], true, is_some, length, slice_set, IfOk, OnOk, OnErr, None, Some};
ghost use Rattle.std.specs.Result.{IsOkUnless};
ghost use Rattle.box_tree_base.specs.Depths.{least_leaves};
ghost use Rattle.box_tree.specs.BoxLists.{box_at, boxed, keys_over, first_hit, AreHitsWithin};

use crate::index;
use crate::key_entries::{KeyEntry, MAX_KEYS};
use crate::rays::RayAmongBoxes;
use box_tree_base::{Hit, Ray, Tree, roots};
use fixed_geom::{Box2, Refusal};
use std::alloc::Global;
use std::marker::Model;

/// Boxes by key, below [`MAX_KEYS`]. Contracts see the list of boxes by key.
#[derive(Drop)]
pub struct BoxTree {
    // The tree: a list of at most one.
    root: Vec<Tree>,
    // Where each key stands in the tree, with a loose box round its own.
    entries: Vec<Option<KeyEntry>>,
    boxes: Vec<Option<Box2>>,
}

impl Model for BoxTree {
    ghost use Rattle.std.specs.Prelude.{List, Option};
    ghost use Rattle.fixed_geom.specs.declared.boxes.Box2.{Box2};

    ghost Value = { List (Option Box2) };

    ghost use Rattle.box_tree.specs.Indexes.{IsBoxTree};

    ghost view = { λ a. a.boxes.items };

    ghost invariant = { λ a. IsBoxTree a };
}

impl BoxTree {
    /// No boxes, and no keys.
    pub fn new(alloc: Global) -> BoxTree
        ensures { result ≡ [] }
    {
        BoxTree {
            root: Vec::new(alloc),
            entries: Vec::new(alloc),
            boxes: Vec::new(alloc),
        }
    }

    /// Allows one key more, with no box. Refused for want of memory only.
    pub fn grow(&mut self) -> Result<(), Refusal>
        requires { length self.old < MAX_KEYS }
        ensures grown { OnOk result (self.new ≡ self.old ++ None ∷ []) }
        ensures refused { OnErr result (self.new ≡ self.old) }
        ensures memory_only { IsOkUnless result Refusal.NoMemory }
    {
        self.entries.reserve(1)?;
        self.boxes.push(None)?;
        index::push_none(&mut self.entries);
        Ok(())
    }

    /// How many keys are allowed: all below this.
    pub fn keys(&self) -> usize
        ensures value { result ≡ length self.now }
        ensures few { result ≤ MAX_KEYS }
    {
        self.boxes.len()
    }

    /// The box of a key, where it has one.
    pub fn get(&self, key: u32) -> Option<Box2>
        ensures value { result ≡ box_at self.now key }
        ensures room { is_some result ≡ true → key < length self.now }
    {
        index::box_in(&self.boxes, key)
    }

    /// Gives a key that has none a box. Refused for want of memory only.
    pub fn insert(&mut self, key: u32, bounds: &Box2) -> Result<(), Refusal>
        requires room { key < length self.old }
        requires free { box_at self.old key ≡ None }
        ensures inserted { OnOk result (self.new ≡ slice_set self.old key (Some bounds.now)) }
        ensures refused { OnErr result (self.new ≡ self.old) }
        ensures memory_only { IsOkUnless result Refusal.NoMemory }
    {
        let alloc = *self.boxes.allocator();
        index::insert(
            &mut self.root,
            &mut self.entries,
            &mut self.boxes,
            key,
            bounds,
            alloc,
        )?;
        Ok(())
    }

    /// Takes the box of a key that has one.
    pub fn remove(&mut self, key: u32)
        requires { is_some (box_at self.old key) ≡ true }
        ensures { self.new ≡ slice_set self.old key None }
    {
        let Some(entry) = index::entry_in(&self.entries, key) else {
            unreachable!()
        };
        index::remove(
            &mut self.root,
            &mut self.entries,
            &mut self.boxes,
            key,
            &entry,
        );
    }

    /// Gives a key that has a box another one. It takes no memory. The tree stays as it is where the new box lies
    /// within the loose one, and keeps its form where the new box is near.
    pub fn replace(&mut self, key: u32, bounds: &Box2)
        requires { is_some (box_at self.old key) ≡ true }
        ensures { self.new ≡ slice_set self.old key (Some bounds.now) }
    {
        let Some(entry) = index::entry_in(&self.entries, key) else {
            unreachable!()
        };
        index::replace(
            &mut self.root,
            &mut self.entries,
            &mut self.boxes,
            key,
            &entry,
            bounds,
        );
    }

    /// The keys whose boxes overlap the wanted one, ascending. Boxes that only touch do overlap.
    pub fn overlapping(&self, wanted: &Box2) -> Result<Vec<u32>, Refusal>
        ensures keys { IfOk result (λ keys. keys.items ≡ keys_over wanted.now 0 self.now) }
        ensures memory_only { IsOkUnless result Refusal.NoMemory }
    {
        let alloc = *self.boxes.allocator();
        Ok(index::overlapping(&self.root, &self.entries, &self.boxes, wanted, alloc)?)
    }

    /// The ray's nearest hit over all keys that have a box, of two as near that of the lesser key. A key is hit only
    /// where the ray reaches its box, so that a walk may leave out what it doesn't reach. It takes no memory.
    pub fn first_on_ray<R: Ray>(&self, ray: &R) -> Option<Hit>
        requires { AreHitsWithin (R.reaches ray.now) (R.hit ray.now) self.now }
        ensures { result ≡ first_hit (R.hit ray.now) 0 self.now None }
    {
        let among = RayAmongBoxes {
            ray,
            boxes: &self.boxes,
        };
        roots::first_hit(&self.root, &among)
    }

    /// How many nodes stand on the longest way from the root to a leaf: what a walk costs. Box2D's
    /// 'b2DynamicTree_GetHeight' counts the forks of that way alone. It is 0 only where no key has a box. A tree so
    /// deep has at least the boxes of a balanced one, so that the depth grows with the logarithm of their number.
    pub fn depth(&self) -> u64
        ensures few { result ≤ 28 }
        ensures none { result ≡ 0 → boxed self.now ≡ 0 }
        ensures balanced { (forks : ℕ) → result ≡ forks + 1 → least_leaves forks ≤ boxed self.now }
    {
        roots::depth(&self.root)
    }

    /// A copy with the same boxes. Refused for want of memory only.
    pub fn try_copy(&self) -> Result<BoxTree, Refusal>
        ensures copy { IfOk result (λ copy. copy ≡ self.now) }
        ensures memory_only { IsOkUnless result Refusal.NoMemory }
    {
        let alloc = *self.boxes.allocator();
        let root = roots::try_copy(&self.root, alloc)?;
        let mut entries = Vec::new(alloc);
        entries.extend_from_slice(&self.entries)?;
        let mut boxes = Vec::new(alloc);
        boxes.extend_from_slice(&self.boxes)?;
        Ok(BoxTree {
            root,
            entries,
            boxes,
        })
    }
}
