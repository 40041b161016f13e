//! The names of what is in sets.

ghost use Rattle.std.specs.Prelude.{◌≡◌, ℕ};

/// The name of what is in a set. It is known by its number, by which the place where it stands is noted: so numbers are
/// best small.
pub trait ItemId: Copy {
    ghost number: { Self → ℕ };

    /// The number of the name.
    fn number(&self) -> u32
        ensures { result ≡ number self.now };

    ghost known: { (a b : Self) → number a ≡ number b → a ≡ b };
}

/// A number is its own name.
impl ItemId for u32 {
    ghost number = { λ n. n };

    ghost known = { λ a b same. same };

    fn number(&self) -> u32 {
        *self
    }
}
