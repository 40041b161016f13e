//! The text of an id, as scripts and saved worlds have it.

ghost use Rattle.std.specs.Prelude.{◌≡◌, ◌<◌, ◌^◌, ◌↔◌, ℕ, Some, IsTrue, IfSome};
ghost use Rattle.std.specs.Fmt.{decimal};
ghost use Rattle.body_handles.specs.IdTexts.{id_text, IsPadded};

use crate::handle::Handle;
use std::fmt;

/// An id as a script writes it: the slot, a point and the generation, as `0.1`.
#[derive(Clone, Copy)]
pub struct IdText(pub Handle);

impl fmt::Display for IdText {
    ghost output = { λ id. Some (id_text id.0) };

    fn fmt<W: fmt::Write>(&self, f: &mut fmt::Formatter<W>) -> fmt::Result {
        let Handle { slot, generation } = self.0;
        write!(f, "{slot}.{generation}")
    }
}

/// Whether a number's text begins with a sign, or with a zero before other digits.
fn is_padded(digits: &str) -> bool
    ensures { IsTrue result ↔ IsPadded digits.now }
{
    digits.starts_with('+') || (digits.starts_with('0') && digits.len() > 1)
}

/// Reads a whole number in decimal, without a sign and a leading zero.
fn part_of(digits: &str) -> Option<u32>
    ensures read { IfSome result (λ number. digits.now ≡ decimal number) }
    ensures all { (number : ℕ) → number < 2 ^ 32 → digits.now ≡ decimal number → result ≡ Some number }
{
    if is_padded(digits) {
        return None;
    }
    digits.parse::<u32>().ok()
}

/// Reads an id. What it reads is just what `IdText` writes: no handle has two texts.
pub fn handle_of(text: &str) -> Option<Handle>
    ensures read { IfSome result (λ handle. text.now ≡ id_text handle) }
    ensures all { (handle : Handle) → handle.slot < 2 ^ 32 → handle.generation < 2 ^ 32
        → text.now ≡ id_text handle → result ≡ Some handle }
{
    let (slot, generation) = text.split_once('.')?;
    Some(Handle {
        slot: part_of(slot)?,
        generation: part_of(generation)?,
    })
}
