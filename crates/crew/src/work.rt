//! The work of a map.

ghost use Rattle.std.specs.Prelude.{◌≡◌, Bool, true};

use std::sync::Wait;

/// Work whose answer is a function of the item.
///
/// An item is given to the work, and what memory the answer needs comes with it. So work takes no memory of its own,
/// and is never refused. It may wait; who lets items wait for one another sees to it that each is a piece of its own.
pub trait Work {
    type Item;

    type Out;

    /// The answer at an item.
    ghost answer: { Self → Self.Item → Self.Out };

    /// Which items the work can be done at.
    ghost accepts: { Self → Self.Item → Bool } = { λ _ _. true };

    fn work<R: Wait>(&self, rt: &R, item: Self::Item) -> Self::Out
        requires accepted { accepts self.now item ≡ true }
        ensures answer { result ≡ answer self.now item };
}
