//! The islands of movers as words.

ghost use Rattle.std.specs.Prelude.{◌≡◌};
ghost use Rattle.world_digest.specs.BodyWords.{label_words};
ghost use Rattle.world_digest.specs.Sums.{absorbed_all, list_words, option_words};

use crate::sums::Sums;
use crate::words::Words;
use islands::Islands;

/// By slot the island of each mover.
pub(crate) fn feed_islands(islands: &Islands, sums: &mut Sums)
    ensures { sums.new ≡ absorbed_all sums.old (list_words (option_words label_words) islands.now.labels) }
{
    sums.natural(islands.slots() as u64);
    for slot in 0..islands.slots() {
        islands.label_of(slot as u32).feed(sums);
    }
}
