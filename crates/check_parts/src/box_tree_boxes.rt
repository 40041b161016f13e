//! Boxes worked by hand, and many in a row: they are found, moved and taken.

ghost use Rattle.std.specs.Prelude.{true, cond, nat_lt, None, Some};

use crate::assertions::{same, same_items};
use box_tree::*;
use fixed_geom::{Box2, Refusal, Vec2};
use std::alloc::Global;
use std::test::Fail;

/// A box from corner to corner.
fn boxed(left: i64, down: i64, right: i64, up: i64) -> Box2 {
    Box2 {
        lo: Vec2 { x: left, y: down },
        hi: Vec2 { x: right, y: up },
    }
}

/// Gives a free key a box.
fn put(tree: &mut BoxTree, key: u32, bounds: &Box2) -> Result<(), Fail> {
    if (key as usize) < tree.keys() && tree.get(key).is_none() {
        tree.insert(key, bounds)?;
    }
    Ok(())
}

/// Takes a key's box.
fn take(tree: &mut BoxTree, key: u32) {
    if tree.get(key).is_some() {
        tree.remove(key);
    }
}

/// Moves a key's box.
fn shift(tree: &mut BoxTree, key: u32, bounds: &Box2) {
    if tree.get(key).is_some() {
        tree.replace(key, bounds);
    }
}

/// Allows this many keys.
fn tree_of(alloc: Global, keys: u32) -> Result<BoxTree, Fail> {
    let mut tree = BoxTree::new(alloc);
    for _ in 0..keys {
        if tree.keys() < MAX_KEYS as usize {
            tree.grow()?;
        }
    }
    Ok(tree)
}

/// The keys of the boxes that overlap one, or touch it.
fn over(tree: &BoxTree, left: i64, down: i64, right: i64, up: i64) -> Result<Vec<u32>, Fail> {
    Ok(tree.overlapping(&boxed(left, down, right, up))?)
}

/// Two boxes that touch at a corner.
fn touching(alloc: Global) -> Result<BoxTree, Fail> {
    let mut tree = tree_of(alloc, 4)?;
    put(&mut tree, 2, &boxed(10, 10, 20, 20))?;
    put(&mut tree, 1, &boxed(0, 0, 10, 10))?;
    Ok(tree)
}

#[test]
fn touching_boxes_overlap(rt: HostRuntime) -> Result<(), Fail> {
    let tree = touching(rt.alloc())?;
    same_items(&rt, &over(&tree, 10, 10, 10, 10)?, &[1, 2]);
    same_items(&rt, &over(&tree, 11, 0, 20, 9)?, &[]);
    Ok(())
}

#[test]
fn boxes_move_and_go_and_a_copy_keeps_its_own(rt: HostRuntime) -> Result<(), Fail> {
    let mut tree = touching(rt.alloc())?;
    let copy = tree.try_copy()?;
    shift(&mut tree, 1, &boxed(50_000_000, 0, 50_000_010, 10));
    same_items(&rt, &over(&tree, 0, 0, 20, 20)?, &[2]);
    take(&mut tree, 2);
    same_items(&rt, &over(&tree, 0, 0, 60_000_000, 20)?, &[1]);
    same_items(&rt, &over(&copy, 0, 0, 20, 20)?, &[1, 2]);
    Ok(())
}

/// A ray that reaches every box, and hits all keys from one on at the same place.
#[derive(Clone, Copy)]
struct Wave {
    from: u32,
}

impl Ray for Wave {
    ghost reaches = { λ wave bounds. true };

    ghost hit = { λ wave key. cond (nat_lt key wave.from) None (Some 7) };

    fn reaches(&self, _bounds: &Box2) -> bool {
        true
    }

    fn hit(&self, key: u32) -> Option<u32> {
        if key < self.from { None } else { Some(7) }
    }

    ghost misses_within = { λ wave outer inner h e. e };
}

/// The first hit of the wave.
fn first(tree: &BoxTree, from: u32) -> Option<Hit> {
    tree.first_on_ray(&Wave { from })
}

/// Boxes in a row along x, of which each touches the next.
fn row_of(alloc: Global, boxes: u32) -> Result<BoxTree, Fail> {
    let mut tree = tree_of(alloc, boxes)?;
    for key in 0..boxes {
        put(&mut tree, key, &in_row(key, 0))?;
    }
    Ok(tree)
}

/// How many boxes stand in the row. `rt try` takes too long for so many; the built test takes under a second.
const ROW: u32 = 131_072;

/// The box in the row that has this key, or the one as far above it.
fn in_row(key: u32, up: u32) -> Box2 {
    let left = i64::from(key) * 1000;
    let down = i64::from(up);
    boxed(left, down, left + 1000, down + 1000)
}

/// Whether every ninety-seventh key is found with the one before it, where their boxes touch.
fn are_found(tree: &BoxTree) -> Result<bool, Fail> {
    for key in 1..ROW {
        if key % 97 == 0 {
            let left = i64::from(key) * 1000;
            let found = over(tree, left, 0, left + 1, 1000)?;
            if found.as_slice() != [key - 1, key].as_slice() {
                return Ok(false);
            }
        }
    }
    Ok(true)
}

/// Whether the tree of the row is as deep as a balanced one of so many boxes may be: 2^17 need 18 nodes on some way.
fn is_balanced(tree: &BoxTree) -> bool {
    let depth = tree.depth();
    depth >= 18 && depth <= 28
}

/// How high the row is moved.
const HIGH: u32 = 10_000_000;

fn lift(tree: &mut BoxTree) {
    for key in 0..ROW {
        shift(tree, key, &in_row(key, HIGH));
    }
}

fn take_all(tree: &mut BoxTree) {
    for key in 0..ROW {
        take(tree, key);
    }
}

#[test]
fn a_row_in_ascending_order_is_found_moved_and_taken(rt: HostRuntime) -> Result<(), Fail> {
    let mut tree = row_of(rt.alloc(), ROW)?;
    same(&rt, &is_balanced(&tree), &true);
    same(&rt, &are_found(&tree)?, &true);
    let hit = Hit {
        fraction: 7,
        key: 5,
    };
    same(&rt, &first(&tree, 5), &Some(hit));
    lift(&mut tree);
    let below = over(&tree, 0, 0, 1 << 40, 1000)?;
    same(&rt, &below.len(), &0);
    let lifted = over(&tree, 0, i64::from(HIGH), 500, i64::from(HIGH))?;
    same_items(&rt, &lifted, &[0]);
    take_all(&mut tree);
    same(&rt, &tree.depth(), &0);
    same(&rt, &first(&tree, 5), &None);
    Ok(())
}
