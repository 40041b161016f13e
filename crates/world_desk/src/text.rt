//! The text of a live world.

ghost use Rattle.std.specs.Prelude.{IfOk, string_bytes};
ghost use Rattle.std.specs.Result.{IsOkUnless};
ghost use Rattle.impulse_ledger.specs.Sums.{totals_of};
ghost use Rattle.saved_text.specs.Texts.{IsTextOf};
ghost use Rattle.world_file.specs.Files.{value_of};
ghost use Rattle.world_rules.specs.World.{book_of};

use fixed_geom::Refusal;
use saved_text::write_text;
use std::alloc::Global;
use world_core::WorldCore;

/// The text of a saved world: what is printed of the value that `WorldCore::save` makes, which isn't made for it.
/// Refused 1 where memory is wanting, for a copy of the plain lists and for the text.
pub fn text_of(alloc: Global, world: &WorldCore) -> Result<String, Refusal>
    ensures text { IfOk result (λ text. IsTextOf (value_of world.now.plain (totals_of (book_of world.now))) (string_bytes text)) }
    ensures memory_only { IsOkUnless result Refusal.NoMemory }
{
    let plain = world.plain()?;
    write_text(alloc, &plain, &world.ledger().totals())
}
