//! The totals of the ledger.

ghost use Rattle.std.specs.Prelude.{IfSome};
ghost use Rattle.world_file_base.specs.SavedTotals.{total_data, totals_data};
ghost use Rattle.loaded_text.specs.Stands.{Stands};
ghost use Rattle.loaded_text.specs.Totals.{AreSmall, IsSmall};

use crate::leaves::read_decimal;
use crate::text::Text;
use impulse_ledger::{MAX_TOTAL, Total, Totals};

fn read_total(text: &mut Text, lead: &[u8]) -> Option<Total>
    ensures text { IfSome result (λ total. Stands lead.now (total_data total) text.old.rest.now text.new.rest.now) }
    ensures small { IfSome result IsSmall }
{
    text.expect(lead)?;
    let x = read_decimal(text, b"[", MAX_TOTAL)?;
    let y = read_decimal(text, b",", MAX_TOTAL)?;
    text.expect(b"]")?;
    Some(Total { x, y })
}

pub(crate) fn read_totals(text: &mut Text, lead: &[u8]) -> Option<Totals>
    ensures text { IfSome result (λ totals. Stands lead.now (totals_data totals) text.old.rest.now text.new.rest.now) }
    ensures small { IfSome result AreSmall }
{
    text.expect(lead)?;
    text.expect(b"{")?;
    let clamp = read_total(text, b"\"clamp\":")?;
    let command = read_total(text, b",\"command\":")?;
    let departed = read_total(text, b",\"departed\":")?;
    let gravity = read_total(text, b",\"gravity\":")?;
    let immovable = read_total(text, b",\"immovable\":")?;
    let rest = read_total(text, b",\"rest\":")?;
    text.expect(b"}")?;
    Some(Totals {
        command,
        gravity,
        immovable,
        clamp,
        rest,
        departed,
    })
}
