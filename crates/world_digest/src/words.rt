//! What a world's parts are as words.

ghost use Rattle.std.specs.Prelude.{◌≡◌, ℕ, List};
ghost use Rattle.world_digest.specs.Sums.{absorbed_all, list_words, option_words};

use crate::sums::Sums;

/// What can be told as words of 64 bits.
pub(crate) trait Words {
    // Its words, in order.
    ghost words: { Self → List ℕ };

    /// Gives its words to the sums.
    fn feed(&self, sums: &mut Sums)
        ensures { sums.new ≡ absorbed_all sums.old (words self.now) };
}

/// The words of a list: how many items there are, and then the words of each.
pub(crate) fn feed_all<T: Words>(items: &[T], sums: &mut Sums)
    ensures { sums.new ≡ absorbed_all sums.old (list_words T.words items.now) }
{
    sums.natural(items.len() as u64);
    for item in items {
        item.feed(sums);
    }
}

/// The words of what may be there: 0, or 1 and its words.
impl<T: Words> Words for Option<T> {
    ghost words = { λ o. option_words T.words o };

    fn feed(&self, sums: &mut Sums) {
        match self {
            None => sums.natural(0),
            Some(item) => {
                sums.natural(1);
                item.feed(sums);
            }
        }
    }
}
