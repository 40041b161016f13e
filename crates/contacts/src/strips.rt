//! The strips of the plane along x, and the starts of shapes in them.
//!
//! A start, which is a shape in a strip, is one number of 64 bits, so that the list of all starts is
//! small and quickly sorted. Its highest 20 bits are the strip's, the next 25 tell where the shape's
//! box begins along x, in steps of `STEP`, and the lowest 19 are the shape's place.

ghost use Rattle.std.specs.Prelude.{◌≡◌, ◌+◌, ◌^◌, ◌<◌, ◌≤◌, ◌++◌, length, OnOk};
ghost use Rattle.std.specs.Result.{IsOkUnless};
ghost use Rattle.std.specs.List.Sorted.{IsPermutation, IsSorted};
ghost use Rattle.std.specs.Ordering.{nat_cmp};
ghost use Rattle.contacts.specs.Sweep.{column, strip_of, spot, start_in, strip_at, place_at, reach, starts_up, firsts_from, furthers_from, starts_of};

use body_handles::MAX_SLOTS;
use fixed_geom::{Box2, Refusal};
use shapes::MAX_SHAPES;

/// A strip is 2^18 u high at least, so that there are at most `STRIPS`.
const LEAST_BITS: u32 = 18;

/// A strip is 2^38 u high at most: then it is all that is seen of the plane.
pub(crate) const MOST_BITS: u32 = 38;

/// How many shapes there are at most, so that a shape's place is below this.
pub(crate) const PLACES: u64 = (MAX_SLOTS * MAX_SHAPES) as u64;

/// How far apart along x starts have to begin to be told from one another, in u: far less than a fat
/// box is wide.
const STEP: u64 = 1 << 13;

/// How many numbers the starts in one strip may have: 2^25 steps along x, and a place.
const SPOTS: u64 = 1 << 44;

/// How many strips there are at most.
const STRIPS: u64 = 1 << 20;

/// Half of what is seen of the plane: coordinates beyond are as if they were here.
const HALF: i64 = 1 << 37;

/// A coordinate, in u, as a number below twice `HALF` that rises with it.
#[tactic(auto, unfolding(crate::specs::Sweep::column))]
fn column(x: i64) -> u64
    ensures value { result ≡ column x }
    ensures small { result < 2 ^ 38 }
{
    (x.max(-HALF).min(HALF - 1) + HALF).unsigned_abs()
}

/// The strip of a height in u, where a strip is 2^bits u high.
pub(crate) fn strip_of(bits: u32, y: i64) -> u64
    requires { bits ≤ MOST_BITS }
    ensures value { result ≡ strip_of bits y }
    ensures few { LEAST_BITS ≤ bits → result < STRIPS }
{
    column(y) >> bits
}

/// The least number that a start has in a strip from x on, in u.
pub(crate) fn spot(strip: u64, x: i64) -> u64
    requires { strip < STRIPS }
    ensures value { result ≡ spot strip x }
    ensures room { result + PLACES ≤ 2 ^ 64 }
{
    strip * SPOTS + column(x) / STEP * PLACES
}

/// The start of the shape at this place, in a strip.
fn start_in(place: usize, fat: &Box2, strip: u64) -> u64
    requires place { place < PLACES }
    requires strip { strip < STRIPS }
    ensures { result ≡ start_in place fat.now strip }
{
    spot(strip, fat.lo.x) + place as u64
}

/// The strip of a start.
pub(crate) fn strip_at(start: u64) -> u64
    ensures value { result ≡ strip_at start }
    ensures few { result < STRIPS }
{
    start / SPOTS
}

/// The place of a start's shape.
pub(crate) fn place_at(start: u64) -> usize
    ensures { result ≡ place_at start }
{
    (start % PLACES) as usize
}

/// Adds a shape in each strip that its box reaches above the one where it begins.
fn push_further(starts: &mut Vec<u64>, bits: u32, place: usize, fat: &Box2) -> Result<(), Refusal>
    requires least { LEAST_BITS ≤ bits }
    requires most { bits ≤ MOST_BITS }
    requires place { place < PLACES }
    ensures pushed { OnOk result (starts.new.items ≡ starts.old.items ++ starts_up bits place fat.now (reach bits fat.now)) }
    ensures memory_only { IsOkUnless result Refusal.NoMemory }
{
    let strip = strip_of(bits, fat.lo.y);
    let further = strip_of(bits, fat.hi.y).saturating_sub(strip);
    for step in 0..further {
        starts.push(start_in(place, fat, strip + (step + 1)))?;
    }
    Ok(())
}

/// Fills `starts` with each shape in the strip where its box begins.
fn fill_firsts(starts: &mut Vec<u64>, bits: u32, boxes: &[Box2]) -> Result<(), Refusal>
    requires least { LEAST_BITS ≤ bits }
    requires most { bits ≤ MOST_BITS }
    requires few { length boxes.now ≤ PLACES }
    ensures filled { OnOk result (starts.new.items ≡ firsts_from bits 0 boxes.now) }
    ensures memory_only { IsOkUnless result Refusal.NoMemory }
{
    starts.clear();
    for (place, fat) in boxes.iter().enumerate() {
        starts.push(start_in(place, fat, strip_of(bits, fat.lo.y)))?;
    }
    Ok(())
}

/// Adds each shape in the further strips that its box reaches.
fn push_furthers(starts: &mut Vec<u64>, bits: u32, boxes: &[Box2]) -> Result<(), Refusal>
    requires least { LEAST_BITS ≤ bits }
    requires most { bits ≤ MOST_BITS }
    requires few { length boxes.now ≤ PLACES }
    ensures pushed { OnOk result (starts.new.items ≡ starts.old.items ++ furthers_from bits 0 boxes.now) }
    ensures memory_only { IsOkUnless result Refusal.NoMemory }
{
    for (place, fat) in boxes.iter().enumerate() {
        push_further(starts, bits, place, fat)?;
    }
    Ok(())
}

/// Fills `starts` with all shapes in the order of the strips, and in a strip the leftmost first.
///
/// Where slots were given out from left to right and from below, the first strips of all shapes ascend already, and so
/// do the further ones, and the sort only merges the two.
pub(crate) fn list_starts(starts: &mut Vec<u64>, bits: u32, boxes: &[Box2]) -> Result<(), Refusal>
    requires least { LEAST_BITS ≤ bits }
    requires most { bits ≤ MOST_BITS }
    requires few { length boxes.now ≤ PLACES }
    ensures permutation { OnOk result (IsPermutation (starts_of bits boxes.now) starts.new.items) }
    ensures sorted { OnOk result (IsSorted nat_cmp starts.new.items) }
    ensures memory_only { IsOkUnless result Refusal.NoMemory }
{
    fill_firsts(starts, bits, boxes)?;
    push_furthers(starts, bits, boxes)?;
    starts.sort()?;
    Ok(())
}

/// How high strips should be, as a power of two: two to four times the mean of the boxes' heights,
/// so that few boxes are listed often. `heights` is their sum, in u. Any height serves.
pub(crate) fn strip_bits(heights: u64, count: usize) -> u32
    ensures least { LEAST_BITS ≤ result }
    ensures most { result ≤ MOST_BITS }
{
    let mean = heights / (count as u64).max(1);
    (65 - mean.leading_zeros()).max(LEAST_BITS).min(MOST_BITS)
}
