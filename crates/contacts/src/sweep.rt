//! Near pairs by a sweep along x, strip by strip.
//!
//! The plane is cut into strips along x, each some fat boxes high, and each shape is listed in all
//! strips that its box reaches. In each strip a shape is tested against those whose boxes begin no
//! further right than its own ends. A shape of a dynamic body is tested against all of these, and any
//! other against those of dynamic bodies alone, since two bodies that aren't dynamic never collide. So
//! the work grows with the shapes and with the close pairs that have a dynamic body, whether they are
//! spread along x or along y.

ghost use Rattle.std.specs.Prelude.{◌≡◌, ◌+◌, ◌<◌, ◌≤◌, ◌++◌, cond, drop, length, true, All, OnOk};
ghost use Rattle.std.specs.Result.{IsOkUnless};
ghost use Rattle.std.specs.Option.{option_to_list};
ghost use Rattle.contacts.specs.Sweep.{pair_at, near_pair, place_at, IsPlaceIn, boxes_of, end_of, may_meet, pair_of, met, is_dynamic_at, dynamics_of, swept};
ghost use Rattle.contacts.specs.declared.strips.TheConstants.{MOST_BITS};
ghost use Rattle.contacts_base.specs.NearCodes.{near_codes};
ghost use Rattle.contacts_base.specs.Proxies.{IsProxyList};

use crate::strips::{PLACES, list_starts, place_at, spot, strip_at, strip_bits, strip_of};
use contacts_base::{Proxy, code_of, is_near};
use fixed_geom::{Box2, Refusal};

/// The number of the pair of the shapes at two places, if they are near.
#[tactic(auto, unfolding(crate::specs::Sweep::pair_at))]
fn pair_at(proxies: &[Proxy], first: usize, second: usize) -> Option<u64>
    requires few { length proxies.now ≤ PLACES }
    requires first { first < length proxies.now }
    requires second { second < length proxies.now }
    ensures { result ≡ pair_at proxies.now first second }
{
    if is_near(&proxies[first], &proxies[second]) {
        Some(code_of(first, second))
    } else {
        None
    }
}

/// The same of two places in either order.
#[tactic(auto, unfolding(crate::specs::Sweep::near_pair))]
fn near_pair(proxies: &[Proxy], place: usize, other: usize) -> Option<u64>
    requires few { length proxies.now ≤ PLACES }
    requires place { place < length proxies.now }
    requires other { other < length proxies.now }
    ensures { result ≡ near_pair proxies.now place other }
{
    pair_at(proxies, place.min(other), place.max(other))
}

/// Adds a number, if there is one.
fn push_found(near: &mut Vec<u64>, found: Option<u64>) -> Result<(), Refusal>
    ensures pushed { OnOk result (near.new.items ≡ near.old.items ++ option_to_list found) }
    ensures memory_only { IsOkUnless result Refusal.NoMemory }
{
    if let Some(code) = found {
        near.push(code)?;
    }
    Ok(())
}

/// Whether two boxes overlap along y, and this is the lowest strip that both reach.
#[tactic(auto, unfolding(crate::specs::Sweep::may_meet))]
fn may_meet(bits: u32, strip: u64, b: &Box2, c: &Box2) -> bool
    requires { bits ≤ MOST_BITS }
    ensures { result ≡ may_meet bits strip b.now c.now }
{
    if b.hi.y < c.lo.y {
        return false;
    }
    if c.hi.y < b.lo.y {
        return false;
    }
    strip_of(bits, b.lo.y.max(c.lo.y)) == strip
}

/// The number of the pair of the shapes of two starts in one strip, if they are near and are not in
/// a lower strip together.
#[tactic(auto, unfolding(crate::specs::Sweep::pair_of))]
fn pair_of(bits: u32, proxies: &[Proxy], boxes: &[Box2], start: u64, other: u64) -> Option<u64>
    requires bits { bits ≤ MOST_BITS }
    requires few { length proxies.now ≤ PLACES }
    requires boxes { boxes.now ≡ boxes_of proxies.now }
    requires first { IsPlaceIn proxies.now start }
    requires second { IsPlaceIn proxies.now other }
    ensures { result ≡ pair_of bits proxies.now start other }
{
    let first = place_at(start);
    let second = place_at(other);
    if may_meet(bits, strip_at(start), &boxes[first], &boxes[second]) {
        near_pair(proxies, first, second)
    } else {
        None
    }
}

/// The greatest number in the strip of a start that is no further right than its shape's box ends.
fn end_of(boxes: &[Box2], start: u64) -> u64
    requires { place_at start < length boxes.now }
    ensures { result ≡ end_of boxes.now start }
{
    spot(strip_at(start), boxes[place_at(start)].hi.x) + (PLACES - 1)
}

/// Adds the pairs of a start with those of the others that are near it, until one begins further right than the start's
/// box ends.
fn push_met(
    near: &mut Vec<u64>,
    bits: u32,
    proxies: &[Proxy],
    boxes: &[Box2],
    start: u64,
    others: &[u64],
) -> Result<(), Refusal>
    requires bits { bits ≤ MOST_BITS }
    requires few { length proxies.now ≤ PLACES }
    requires boxes { boxes.now ≡ boxes_of proxies.now }
    requires start { IsPlaceIn proxies.now start }
    requires others { All (IsPlaceIn proxies.now) others.now }
    ensures pushed { OnOk result (near.new.items ≡ near.old.items ++ met bits proxies.now start others.now) }
    ensures memory_only { IsOkUnless result Refusal.NoMemory }
{
    let end = end_of(boxes, start);
    for &other in others {
        if end < other {
            return Ok(());
        }
        push_found(near, pair_of(bits, proxies, boxes, start, other))?;
    }
    Ok(())
}

/// Whether a start is of a dynamic body's shape.
fn is_dynamic_at(proxies: &[Proxy], start: u64) -> bool
    requires { IsPlaceIn proxies.now start }
    ensures { result ≡ is_dynamic_at proxies.now start }
{
    proxies[place_at(start)].dynamic
}

/// Fills `dynamics` with the starts of dynamic bodies' shapes, in their order.
fn list_dynamics(dynamics: &mut Vec<u64>, proxies: &[Proxy], starts: &[u64]) -> Result<(), Refusal>
    requires { All (IsPlaceIn proxies.now) starts.now }
    ensures listed { OnOk result (dynamics.new.items ≡ dynamics_of proxies.now starts.now) }
    ensures memory_only { IsOkUnless result Refusal.NoMemory }
{
    dynamics.clear();
    for &start in starts {
        if is_dynamic_at(proxies, start) {
            dynamics.push(start)?;
        }
    }
    Ok(())
}

/// The starts without the first, if that is passed.
fn after<'a>(is_passed: bool, starts: &'a [u64]) -> &'a [u64]
    requires { is_passed ≡ true → 1 ≤ length starts.now }
    ensures { result.now ≡ cond is_passed (drop 1 starts.now) starts.now }
{
    if is_passed { &starts[1..] } else { starts }
}

/// The first list or the second.
fn either<'a>(is_first: bool, first: &'a [u64], second: &'a [u64]) -> &'a [u64]
    ensures { result.now ≡ cond is_first first.now second.now }
{
    if is_first { first } else { second }
}

/// Adds the pairs that each start makes with the later ones: one of a dynamic body's shape with all of them, and any
/// other with `dynamics`, which are the starts of dynamic bodies' shapes.
fn sweep(
    near: &mut Vec<u64>,
    bits: u32,
    proxies: &[Proxy],
    boxes: &[Box2],
    starts: &[u64],
    dynamics: &[u64],
) -> Result<(), Refusal>
    requires bits { bits ≤ MOST_BITS }
    requires few { length proxies.now ≤ PLACES }
    requires boxes { boxes.now ≡ boxes_of proxies.now }
    requires starts { All (IsPlaceIn proxies.now) starts.now }
    requires dynamics { dynamics.now ≡ dynamics_of proxies.now starts.now }
    ensures pushed { OnOk result (near.new.items ≡ near.old.items ++ swept bits proxies.now starts.now) }
    ensures memory_only { IsOkUnless result Refusal.NoMemory }
{
    let mut later = dynamics;
    for (place, &start) in starts.iter().enumerate() {
        let is_dynamic = is_dynamic_at(proxies, start);
        later = after(is_dynamic, later);
        let others = either(is_dynamic, &starts[place + 1..], later);
        push_met(near, bits, proxies, boxes, start, others)?;
    }
    Ok(())
}

/// Fills `near` with the numbers of all near pairs, ascending, and uses `starts` and `dynamics` as room to work in.
/// `boxes` are the shapes' fat boxes by themselves, so that the sweep reads little. `heights` is the sum of their
/// heights, in u, and decides the time alone.
pub(crate) fn near_pairs(
    starts: &mut Vec<u64>,
    dynamics: &mut Vec<u64>,
    near: &mut Vec<u64>,
    heights: u64,
    proxies: &[Proxy],
    boxes: &[Box2],
) -> Result<(), Refusal>
    requires list { IsProxyList proxies.now }
    requires boxes { boxes.now ≡ boxes_of proxies.now }
    ensures value { OnOk result (near.new.items ≡ near_codes proxies.now) }
    ensures memory_only { IsOkUnless result Refusal.NoMemory }
{
    let bits = strip_bits(heights, proxies.len());
    list_starts(starts, bits, boxes)?;
    list_dynamics(dynamics, proxies, starts)?;
    near.clear();
    sweep(near, bits, proxies, boxes, starts, dynamics)?;
    near.sort_unstable();
    near.dedup();
    Ok(())
}
