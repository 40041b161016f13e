//! What is known of saved worlds: laws over plain values. These functions do nothing; their contracts are the laws.

ghost use Rattle.world_file.specs.Laws.{MergingMakesComponents, WhatIsReadAgainGoesOnTheSame, WhatIsReadHasSmallTotals, WhatIsReadIsSound, WhatIsWrittenFits, WhatIsWrittenIsReadAgain};
ghost use Rattle.world_file.specs.AskedParts.{AskingFindsTheFirst};

/// The questions that `read` asks one after the other find the first clause of the table that the value breaks.
pub fn asking_finds_the_first()
    ensures { AskingFindsTheFirst }
{}

/// Whether an island is all that its links join is found by merges from tie to tie, and these make the components by
/// which the clause says it.
pub fn merging_makes_components()
    ensures { MergingMakesComponents }
{}

/// A world that is read of a value, with the totals of its ledger, is sound, and its totals are small, so that it can
/// be written again.
pub fn what_is_read_is_sound()
    ensures sound { WhatIsReadIsSound }
    ensures small { WhatIsReadHasSmallTotals }
{}

/// The parts that are written of a sound world fit together, and make that world again.
pub fn what_is_written_fits()
    ensures { WhatIsWrittenFits }
{}

/// A sound world whose totals are small is read again as it is written, with these totals. What is read so answers all
/// commands as that world does, and has the same plain lists after them.
pub fn what_is_written_is_read_again()
    ensures again { WhatIsWrittenIsReadAgain }
    ensures same { WhatIsReadAgainGoesOnTheSame }
{}
