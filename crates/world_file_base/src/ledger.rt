//! The totals of a saved ledger.

ghost use Rattle.std.specs.Prelude.{◌≡◌, IfOk};
ghost use Rattle.std.specs.Result.{IsOkUnless};
ghost use Rattle.world_file_base.specs.Reading.{seen};
ghost use Rattle.world_file_base.specs.SavedTotals.{
  cause_in,
  total_read,
  total_data,
  totals_read,
  totals_data,
};
ghost use Rattle.world_file_base.specs.AskedValues.{total_asks, totals_asks};
ghost use Rattle.serde_json.specs.View.{view};

use crate::clause::Clause;
use crate::members::{Members, decimal_value, pair_value};
use crate::reader::Reader;
use crate::values::{field, has_keys_in, item_at};
use fixed_geom::Refusal;
use impulse_ledger::{MAX_TOTAL, Total, Totals};
use serde_json::Value;
use std::alloc::Global;

/// Reads the total of one cause.
fn read_total(reader: &mut Reader, value: Option<&Value>) -> Total
    ensures value { result ≡ total_read (seen value.entry) }
    ensures asked { reader.new ≡ total_asks (seen value.entry) reader.old }
{
    let items = reader.pair(value);
    Total {
        x: reader.decimal(item_at(items, 0), MAX_TOTAL),
        y: reader.decimal(item_at(items, 1), MAX_TOTAL),
    }
}

/// The value of the key of a cause.
fn cause_in<'a>(value: Option<&'a Value>, key: &str) -> Option<&'a Value>
    ensures { seen result ≡ cause_in key.now (seen value.entry) }
{
    field(value?, key)
}

/// Reads the totals of all causes.
pub fn read_totals(reader: &mut Reader, value: Option<&Value>) -> Totals
    ensures value { result ≡ totals_read (seen value.entry) }
    ensures asked { reader.new ≡ totals_asks (seen value.entry) reader.old }
{
    reader.ask(has_keys_in(value, 6), Clause::Form);
    let command = read_total(reader, cause_in(value, "command"));
    let gravity = read_total(reader, cause_in(value, "gravity"));
    let immovable = read_total(reader, cause_in(value, "immovable"));
    let clamp = read_total(reader, cause_in(value, "clamp"));
    let rest = read_total(reader, cause_in(value, "rest"));
    let departed = read_total(reader, cause_in(value, "departed"));
    Totals {
        command,
        gravity,
        immovable,
        clamp,
        rest,
        departed,
    }
}

fn total_value(alloc: Global, total: Total) -> Result<Value, Refusal>
    ensures value { IfOk result (λ value. view value ≡ total_data total) }
    ensures memory_only { IsOkUnless result Refusal.NoMemory }
{
    let x = decimal_value(alloc, total.x)?;
    let y = decimal_value(alloc, total.y)?;
    pair_value(alloc, x, y)
}

/// The totals as they are written.
pub fn totals_value(alloc: Global, totals: &Totals) -> Result<Value, Refusal>
    ensures value { IfOk result (λ value. view value ≡ totals_data totals.now) }
    ensures memory_only { IsOkUnless result Refusal.NoMemory }
{
    let mut members = Members::new(alloc);
    members.put("clamp", total_value(alloc, totals.clamp)?)?;
    members.put("command", total_value(alloc, totals.command)?)?;
    members.put("departed", total_value(alloc, totals.departed)?)?;
    members.put("gravity", total_value(alloc, totals.gravity)?)?;
    members.put("immovable", total_value(alloc, totals.immovable)?)?;
    members.put("rest", total_value(alloc, totals.rest)?)?;
    Ok(members.object())
}
