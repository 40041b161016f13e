//! Where a key stands in the tree.

ghost use Rattle.std.specs.Prelude.{◌≡◌, ◌<◌, ◌%◌, ◌≤ℤ◌};
ghost use Rattle.fixed_geom.specs.Boxes.{Contains};

use fixed_geom::{Box2, Vec2};

/// Keys are below this: eight shapes for each of 65,536 bodies.
pub const MAX_KEYS: u32 = 1 << 19;

/// A key's rank in the tree, and a loose box round its own.
#[derive(Clone, Copy)]
pub(crate) struct KeyEntry {
    pub rank: u64,
    pub bounds: Box2,
}

// How far a loose box reaches beyond the box that it is made for, in u.
const NEAR: u32 = 1 << 18;

// How far it does so on a side towards which the box moves.
const FAR: u32 = 1 << 21;

// Corners beyond these, in u, get no slack.
const LEAST: i64 = -(1 << 40);

const MOST: i64 = 1 << 40;

fn lowered(part: i64, by: u32) -> i64
    ensures { result ≤ℤ part }
{
    if part > LEAST {
        part - i64::from(by)
    } else {
        part
    }
}

fn raised(part: i64, by: u32) -> i64
    ensures { part ≤ℤ result }
{
    if part < MOST {
        part + i64::from(by)
    } else {
        part
    }
}

// A box round this one, with some room.
fn loosened(bounds: &Box2) -> Box2
    ensures { Contains result bounds.now }
{
    Box2 {
        lo: Vec2 {
            x: lowered(bounds.lo.x, NEAR),
            y: lowered(bounds.lo.y, NEAR),
        },
        hi: Vec2 {
            x: raised(bounds.hi.x, NEAR),
            y: raised(bounds.hi.y, NEAR),
        },
    }
}

// What a box takes up of one axis.
#[derive(Clone, Copy)]
struct Span {
    lo: i64,
    hi: i64,
}

// A span round this one, which is where another was about. Where it has left that one, there is more room ahead of it
// than behind it, so that whatever moves on leaves its span seldom, and whatever rests has a close one.
fn span_after(old: Span, span: Span) -> Span
    ensures low { result.lo ≤ℤ span.lo }
    ensures high { span.hi ≤ℤ result.hi }
{
    if span.lo < old.lo {
        return Span {
            lo: lowered(span.lo, FAR),
            hi: raised(span.hi, NEAR),
        };
    }
    if old.hi < span.hi {
        return Span {
            lo: lowered(span.lo, NEAR),
            hi: raised(span.hi, FAR),
        };
    }
    old
}

fn span_on_x(bounds: &Box2) -> Span
    ensures { result ≡ record { lo = bounds.now.lo.x; hi = bounds.now.hi.x } }
{
    Span {
        lo: bounds.lo.x,
        hi: bounds.hi.x,
    }
}

fn span_on_y(bounds: &Box2) -> Span
    ensures { result ≡ record { lo = bounds.now.lo.y; hi = bounds.now.hi.y } }
{
    Span {
        lo: bounds.lo.y,
        hi: bounds.hi.y,
    }
}

// A box round this one, which has moved from where it was in another.
fn loosened_after(old: &Box2, bounds: &Box2) -> Box2
    ensures { Contains result bounds.now }
{
    let x = span_after(span_on_x(old), span_on_x(bounds));
    let y = span_after(span_on_y(old), span_on_y(bounds));
    Box2 {
        lo: Vec2 { x: x.lo, y: y.lo },
        hi: Vec2 { x: x.hi, y: y.hi },
    }
}

// The lowest 22 bits, each with a gap after it.
fn spread(bits: u64) -> u64 {
    let bits = bits & 0x3fffff;
    let bits = (bits | (bits << 16)) & 0x0000ffff0000ffff;
    let bits = (bits | (bits << 8)) & 0x00ff00ff00ff00ff;
    let bits = (bits | (bits << 4)) & 0x0f0f0f0f0f0f0f0f;
    let bits = (bits | (bits << 2)) & 0x3333333333333333;
    (bits | (bits << 1)) & 0x5555555555555555
}

// A number that ends in the key, and begins alike for boxes that are close (G. M. Morton, 'A computer oriented geodetic
// data base', 1966), by cells of 2^18 u. How it begins decides the time alone.
fn rank_of(key: u32, bounds: &Box2) -> u64
    requires { key < MAX_KEYS }
    ensures { result % MAX_KEYS ≡ key }
{
    let column = bounds.lo.x.abs_diff(LEAST) >> 18;
    let row = bounds.lo.y.abs_diff(LEAST) >> 18;
    let code = (spread(column) | (spread(row) << 1)) % (1 << 44);
    code * (MAX_KEYS as u64) + (key as u64)
}

/// An entry for a key that has this box.
pub(crate) fn key_entry_for(key: u32, bounds: &Box2) -> KeyEntry
    requires { key < MAX_KEYS }
    ensures rank { result.rank % MAX_KEYS ≡ key }
    ensures inside { Contains result.bounds bounds.now }
{
    KeyEntry {
        rank: rank_of(key, bounds),
        bounds: loosened(bounds),
    }
}

// Ranks that are the same from this bit on are of boxes whose corners lie in the same cell of 2^24 u. Where a cell is
// this wide, most moves keep a rank, and a walk meets only a few boxes more than if all ranks were new.
const CELL: u32 = 31;

fn are_near(a: u64, b: u64) -> bool {
    a >> CELL == b >> CELL
}

/// An entry for a key that had another and has this box now. It keeps its rank while its corner stays in one cell, so
/// that its leaf stays where it is in the tree.
pub(crate) fn key_entry_after(key: u32, old: &KeyEntry, bounds: &Box2) -> KeyEntry
    requires room { key < MAX_KEYS }
    requires old { old.now.rank % MAX_KEYS ≡ key }
    ensures rank { result.rank % MAX_KEYS ≡ key }
    ensures inside { Contains result.bounds bounds.now }
{
    let rank = rank_of(key, bounds);
    KeyEntry {
        rank: if are_near(rank, old.rank) {
            old.rank
        } else {
            rank
        },
        bounds: loosened_after(&old.bounds, bounds),
    }
}

/// The law of the limits: the numbers that definitions take from the code, in digits. The function does nothing; its
/// contract is the law.
pub fn limits_in_digits()
    ensures keys { MAX_KEYS ≡ 524288 }
{}
