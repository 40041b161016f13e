//! A text that is read from its front.

ghost use Rattle.std.specs.Prelude.{◌≡◌, ℕ, ◌<◌, ◌+◌, ◌++◌, ◌∷◌, List, true, false, IfNone, IfSome, IsSome};
ghost use Rattle.loaded_text.specs.Leads.{StartsWithNoDigit};

/// What is left to be read of a text.
#[derive(Clone, Copy)]
pub(crate) struct Text<'a> {
    pub(crate) rest: &'a [u8],
}

impl<'a> Text<'a> {
    /// Takes these bytes if they stand first, and says whether they did.
    pub(crate) fn take(&mut self, bytes: &[u8]) -> bool
        ensures taken { result ≡ true → self.old.rest.now ≡ bytes.now ++ self.new.rest.now }
        ensures kept { result ≡ false → self.new.rest.now ≡ self.old.rest.now }
        ensures reads { (tail : List ℕ) → self.old.rest.now ≡ bytes.now ++ tail → (result ≡ true) × (self.new.rest.now ≡ tail) }
    {
        let stands = self.rest.starts_with(bytes);
        if stands {
            self.rest = &self.rest[bytes.len()..];
        }
        stands
    }

    /// Takes these bytes, which have to stand first.
    pub(crate) fn expect(&mut self, bytes: &[u8]) -> Option<()>
        ensures taken { IfSome result (λ _. self.old.rest.now ≡ bytes.now ++ self.new.rest.now) }
        ensures reads { (tail : List ℕ) → self.old.rest.now ≡ bytes.now ++ tail → IsSome result × (self.new.rest.now ≡ tail) }
    {
        if self.take(bytes) { Some(()) } else { None }
    }

    /// Takes a digit if one stands first.
    pub(crate) fn digit(&mut self) -> Option<u8>
        ensures digit { IfSome result (λ digit. (digit < 10) × (self.old.rest.now ≡ (48 + digit) ∷ self.new.rest.now)) }
        ensures kept { IfNone result (self.new.rest.now ≡ self.old.rest.now) }
        ensures none { IfNone result (StartsWithNoDigit self.old.rest.now) }
    {
        let (byte, rest) = self.rest.split_first()?;
        if !byte.is_ascii_digit() {
            return None;
        }
        self.rest = rest;
        Some(*byte - 48)
    }
}
