//! Numbers, of which those of 64 bits are written as such and longer ones as texts.

ghost use Rattle.std.specs.Prelude.{OnOk};
ghost use Rattle.std.specs.Fmt.{signed_decimal};
ghost use Rattle.serde_json.specs.Data.{null, string};
ghost use Rattle.world_file_base.specs.Written.{decimal_of, integer, natural, natural_or_null};
ghost use Rattle.saved_text.specs.Tokens.{AddsValue};

use json::Writer;
use std::alloc::AllocError;

pub(crate) fn put_natural(out: &mut Writer, number: u64) -> Result<(), AllocError>
    ensures text { OnOk result (AddsValue (natural number) out.old out.new) }
{
    out.u64(number)
}

pub(crate) fn put_count(out: &mut Writer, number: u32) -> Result<(), AllocError>
    ensures text { OnOk result (AddsValue (natural number) out.old out.new) }
{
    put_natural(out, u64::from(number))
}

pub(crate) fn put_index(out: &mut Writer, number: u8) -> Result<(), AllocError>
    ensures text { OnOk result (AddsValue (natural number) out.old out.new) }
{
    put_natural(out, u64::from(number))
}

pub(crate) fn put_integer(out: &mut Writer, number: i64) -> Result<(), AllocError>
    ensures text { OnOk result (AddsValue (integer number) out.old out.new) }
{
    out.i64(number)
}

pub(crate) fn put_group(out: &mut Writer, number: i32) -> Result<(), AllocError>
    ensures text { OnOk result (AddsValue (integer number) out.old out.new) }
{
    put_integer(out, i64::from(number))
}

pub(crate) fn put_text(out: &mut Writer, text: &str) -> Result<(), AllocError>
    ensures text { OnOk result (AddsValue (string text.now) out.old out.new) }
{
    out.string(text)
}

/// A number as a text.
pub(crate) fn put_decimal(out: &mut Writer, number: i128) -> Result<(), AllocError>
    ensures text { OnOk result (AddsValue (decimal_of number) out.old out.new) }
{
    let mut digits = itoa::Buffer::new();
    put_text(out, digits.format(number))
}

fn put_null(out: &mut Writer) -> Result<(), AllocError>
    ensures text { OnOk result (AddsValue null out.old out.new) }
{
    out.null()
}

/// A colour, or null.
pub(crate) fn put_colour(out: &mut Writer, colour: Option<u8>) -> Result<(), AllocError>
    ensures text { OnOk result (AddsValue (natural_or_null colour) out.old out.new) }
{
    match colour {
        Some(colour) => put_index(out, colour),
        None => put_null(out),
    }
}

/// The name of an island, or null.
pub(crate) fn put_island(out: &mut Writer, island: Option<u32>) -> Result<(), AllocError>
    ensures text { OnOk result (AddsValue (natural_or_null island) out.old out.new) }
{
    match island {
        Some(name) => put_count(out, name),
        None => put_null(out),
    }
}
