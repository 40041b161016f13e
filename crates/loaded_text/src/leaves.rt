//! Numbers and truths. Each stands after `lead`.

ghost use Rattle.std.specs.Prelude.{◌≡◌, ◌≤◌, ◌<◌, ◌^◌, ◌-◌, IfSome, true, pos, ◌≤ℤ◌, unsigned_abs};
ghost use Rattle.serde_json.specs.Data.{boolean};
ghost use Rattle.loaded_text.specs.Leads.{IsSigned};
ghost use Rattle.shapes.specs.Shapes.{is_between};
ghost use Rattle.world_file_base.specs.Reading.{greatest_group, least_group};
ghost use Rattle.world_file_base.specs.Written.{decimal_of, integer, natural, natural_or_null};
ghost use Rattle.body_handles.specs.declared.slot_table.TheConstants.{WORN_OUT};
ghost use Rattle.graph_colours.specs.declared.limits.TheConstants.{COLOURS};
ghost use Rattle.loaded_text.specs.Stands.{Stands};

use crate::text::Text;
use graph_colours::OVERFLOW;

pub(crate) fn read_truth(text: &mut Text, lead: &[u8]) -> Option<bool>
    ensures { IfSome result (λ holds. Stands lead.now (boolean holds) text.old.rest.now text.new.rest.now) }
{
    text.truth(lead)
}

pub(crate) fn read_natural(text: &mut Text, lead: &[u8]) -> Option<u64>
    ensures text { IfSome result (λ n. Stands lead.now (natural n) text.old.rest.now text.new.rest.now) }
    ensures small { IfSome result (λ n. n < 2 ^ 64) }
{
    text.natural(lead)
}

/// A number of 32 bits without a sign.
pub(crate) fn read_count(text: &mut Text, lead: &[u8]) -> Option<u32>
    ensures text { IfSome result (λ n. Stands lead.now (natural n) text.old.rest.now text.new.rest.now) }
    ensures small { IfSome result (λ n. n < 2 ^ 32) }
{
    let number = read_natural(text, lead)?;
    u32::try_from(number).ok()
}

/// A number of 8 bits without a sign.
pub(crate) fn read_index(text: &mut Text, lead: &[u8]) -> Option<u8>
    ensures text { IfSome result (λ n. Stands lead.now (natural n) text.old.rest.now text.new.rest.now) }
    ensures small { IfSome result (λ n. n < 256) }
{
    let number = read_natural(text, lead)?;
    u8::try_from(number).ok()
}

/// A generation: 1 to the last one.
pub(crate) fn read_generation(text: &mut Text, lead: &[u8]) -> Option<u32>
    ensures text { IfSome result (λ n. Stands lead.now (natural n) text.old.rest.now text.new.rest.now) }
    ensures positive { IfSome result (λ n. 1 ≤ n) }
    ensures most { IfSome result (λ n. n ≤ WORN_OUT) }
{
    let generation = read_count(text, lead)?;
    if generation == 0 {
        return None;
    }
    Some(generation)
}

/// The name of an island, or none.
pub(crate) fn read_island(text: &mut Text, lead: &[u8]) -> Option<Option<u32>>
    ensures text { IfSome result (λ name. Stands lead.now (natural_or_null name) text.old.rest.now text.new.rest.now) }
    ensures low { IfSome result (λ name. IfSome name (λ n. n ≤ 2 ^ 32 - 1)) }
{
    match text.natural_or_null(lead)? {
        Some(name) => Some(Some(u32::try_from(name).ok()?)),
        None => Some(None),
    }
}

/// A colour, or none.
pub(crate) fn read_colour(text: &mut Text, lead: &[u8]) -> Option<Option<u8>>
    ensures text { IfSome result (λ colour. Stands lead.now (natural_or_null colour) text.old.rest.now text.new.rest.now) }
    ensures low { IfSome result (λ colour. IfSome colour (λ k. k ≤ COLOURS)) }
{
    match text.natural_or_null(lead)? {
        Some(colour) => {
            if colour > u64::from(OVERFLOW) {
                return None;
            }
            Some(Some(colour as u8))
        }
        None => Some(None),
    }
}

pub(crate) fn read_integer(text: &mut Text, lead: &[u8]) -> Option<i64>
    ensures text { IfSome result (λ z. Stands lead.now (integer z) text.old.rest.now text.new.rest.now) }
    ensures signed { IfSome result IsSigned }
{
    text.integer(lead)
}

/// A number of a size up to `most`.
pub(crate) fn read_size(text: &mut Text, lead: &[u8], most: u64) -> Option<i64>
    ensures text { IfSome result (λ z. Stands lead.now (integer z) text.old.rest.now text.new.rest.now) }
    ensures size { IfSome result (λ z. unsigned_abs z ≤ most) }
{
    let number = read_integer(text, lead)?;
    if number.unsigned_abs() > most {
        return None;
    }
    Some(number)
}

/// A number from 0 to `most`.
pub(crate) fn read_nonnegative(text: &mut Text, lead: &[u8], most: u64) -> Option<i64>
    ensures text { IfSome result (λ z. Stands lead.now (integer z) text.old.rest.now text.new.rest.now) }
    ensures size { IfSome result (λ z. unsigned_abs z ≤ most) }
    ensures nonnegative { IfSome result (λ z. pos 0 ≤ℤ z) }
{
    let number = read_size(text, lead, most)?;
    if number < 0 {
        return None;
    }
    Some(number)
}

/// A number of 32 bits with a sign.
pub(crate) fn read_group(text: &mut Text, lead: &[u8]) -> Option<i32>
    ensures text { IfSome result (λ z. Stands lead.now (integer z) text.old.rest.now text.new.rest.now) }
    ensures group { IfSome result (λ z. is_between least_group greatest_group z ≡ true) }
{
    let number = read_integer(text, lead)?;
    i32::try_from(number).ok()
}

/// A number as a text, of a size up to `most`.
pub(crate) fn read_decimal(text: &mut Text, lead: &[u8], most: u128) -> Option<i128>
    ensures text { IfSome result (λ z. Stands lead.now (decimal_of z) text.old.rest.now text.new.rest.now) }
    ensures size { IfSome result (λ z. unsigned_abs z ≤ most) }
{
    let number = text.decimal(lead)?;
    if number.unsigned_abs() > most {
        return None;
    }
    Some(number)
}
