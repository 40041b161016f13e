//! The colours that each mover has: for each slot a word, and in it a bit for each colour, which is set where a member
//! of the colour has the mover there. So the colours that are free are found with one load for each mover.

ghost use Rattle.std.specs.Prelude.{◌≡◌, ◌≢◌, ◌<◌, ◌≤◌, ◌==◌, ℕ, length, OnOk};
ghost use Rattle.std.specs.Int.{bit_at};
ghost use Rattle.std.specs.Result.{IsOkUnless};
ghost use Rattle.graph_colours.specs.declared.limits.TheConstants.{COLOURS};
ghost use Rattle.graph_colours.specs.Movers.{AreBelow, has_mover};
ghost use Rattle.graph_colours.specs.TakenColours.{bit_of, word_at, taken, common, candidates, AreSet};

use crate::Movers;
use crate::limits::COLOURS;
use fixed_geom::Refusal;

/// The bit of the overflow, which no word has.
const OVERFLOW_BIT: u32 = 1 << COLOURS;

/// Makes a word, with no bit set, for each slot below a number.
pub(crate) fn grow(words: &mut Vec<u32>, slots: usize) -> Result<(), Refusal>
    ensures made { OnOk result (slots ≤ length words.new.items) }
    ensures more { length words.old.items ≤ length words.new.items }
    ensures same { (slot : ℕ) → word_at words.new.items slot ≡ word_at words.old.items slot }
    ensures memory_only { IsOkUnless result Refusal.NoMemory }
{
    words.resize(slots.max(words.len()), 0)?;
    Ok(())
}

// ---- bits that are read

/// The colours that a mover of the constraint has.
fn taken(words: &[u32], movers: Movers) -> u32
    requires { AreBelow (length words.now) movers }
    ensures { result ≡ taken words.now movers }
{
    match movers.second {
        None => words[movers.first as usize],
        Some(second) => words[movers.first as usize] | words[second as usize],
    }
}

/// The least colour that no mover of the constraint has; `COLOURS` where there is none.
pub(crate) fn first_free(words: &[u32], movers: Movers) -> usize
    requires { AreBelow (length words.now) movers }
    ensures most { result ≤ COLOURS }
    ensures before { (colour : ℕ) → colour < result → bit_at (taken words.now movers) colour ≡ 1 }
    ensures free { result < COLOURS → bit_at (taken words.now movers) result ≡ 0 }
{
    (!taken(words, movers) | OVERFLOW_BIT).trailing_zeros() as usize
}

/// The word of a slot; 0 where there is none.
fn word_at(words: &[u32], slot: u32) -> u32
    ensures { result ≡ word_at words.now slot }
{
    match words.get(slot as usize) {
        Some(word) => *word,
        None => 0,
    }
}

/// The colours that all movers of the constraint have.
fn common(words: &[u32], movers: Movers) -> u32
    ensures { result ≡ common words.now movers }
{
    match movers.second {
        None => word_at(words, movers.first),
        Some(second) => word_at(words, movers.first) & word_at(words, second),
    }
}

/// The lists in which a constraint of these movers may be, as far as the bits tell: the colours that all its movers
/// have, and the overflow; each, where its movers aren't told.
pub(crate) fn candidates(words: &[u32], movers: Option<Movers>) -> u32
    ensures { result ≡ candidates words.now movers }
{
    match movers {
        None => u32::MAX,
        Some(movers) => common(words, movers) | OVERFLOW_BIT,
    }
}

/// The first candidate from a place on, found by one count of zeros; 32 or more where there is none.
pub(crate) fn next_candidate(candidates: u32, from: usize) -> usize
    requires { from < 32 }
    ensures ahead { from ≤ result }
    ensures candidate { result < 32 → bit_at candidates result ≡ 1 }
    ensures skipped { (place : ℕ) → from ≤ place → place < result → bit_at candidates place ≡ 0 }
{
    from + (candidates >> from).trailing_zeros() as usize
}

// ---- bits that are set

/// The word with the bit of a colour, or without it.
fn with_colour_bit(word: u32, colour: usize, holds: bool) -> u32
    requires { colour < COLOURS }
    ensures own { bit_at result colour ≡ bit_of holds }
    ensures others { (other : ℕ) → other ≢ colour → bit_at result other ≡ bit_at word other }
{
    if holds {
        word | (1 << colour)
    } else {
        word & !(1 << colour)
    }
}

/// Sets the bit of a colour in a slot, or clears it.
fn set_colour_bit(words: &mut Vec<u32>, colour: usize, slot: u32, holds: bool)
    requires colour { colour < COLOURS }
    requires slot { slot < length words.old.items }
    ensures { AreSet words.old.items words.new.items (λ other. slot == other) colour holds }
{
    words[slot as usize] = with_colour_bit(words[slot as usize], colour, holds);
}

/// Sets the bits of a colour in the slots of the movers, or clears them.
fn set_in_colour(words: &mut Vec<u32>, colour: usize, movers: Movers, holds: bool)
    requires colour { colour < COLOURS }
    requires below { AreBelow (length words.old.items) movers }
    ensures { AreSet words.old.items words.new.items (has_mover movers) colour holds }
{
    set_colour_bit(words, colour, movers.first, holds);
    match movers.second {
        None => {}
        Some(second) => set_colour_bit(words, colour, second, holds),
    }
}

/// Sets the bits of a list in the slots of the movers, or clears them; the overflow has none.
pub(crate) fn set_colour_bits(words: &mut Vec<u32>, place: usize, movers: Movers, holds: bool)
    requires { place < COLOURS → AreBelow (length words.old.items) movers }
    ensures set { place < COLOURS → AreSet words.old.items words.new.items (has_mover movers) place holds }
    ensures overflow { COLOURS ≤ place → words.new.items ≡ words.old.items }
{
    if place < COLOURS {
        set_in_colour(words, place, movers, holds);
    }
}
