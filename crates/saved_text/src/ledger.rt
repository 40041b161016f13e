//! The totals of a ledger.

ghost use Rattle.std.specs.Prelude.{OnOk};
ghost use Rattle.world_file_base.specs.SavedTotals.{totals_data};
ghost use Rattle.saved_text.specs.Tokens.{AddsValue};

use crate::leaves::Leaf;
use crate::members::put_object;
use impulse_ledger::Totals;
use json::Writer;
use std::alloc::AllocError;

pub(crate) fn put_totals(out: &mut Writer, totals: &Totals) -> Result<(), AllocError>
    ensures text { OnOk result (AddsValue (totals_data totals.now) out.old out.new) }
{
    put_object(
        out,
        &[
            ("clamp", Leaf::Total(totals.clamp)),
            ("command", Leaf::Total(totals.command)),
            ("departed", Leaf::Total(totals.departed)),
            ("gravity", Leaf::Total(totals.gravity)),
            ("immovable", Leaf::Total(totals.immovable)),
            ("rest", Leaf::Total(totals.rest)),
        ],
    )
}
