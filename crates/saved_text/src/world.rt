//! The text of a world.

ghost use Rattle.std.specs.Prelude.{◌≡◌, ◌≤◌, ◌+◌, ◌++◌, ◌∷◌, [], ℕ, IfOk, OnOk, codes, length, nat_eq, string_bytes};
ghost use Rattle.std.specs.HashMap.{get};
ghost use Rattle.std.specs.Result.{IsOkUnless};
ghost use Rattle.json.specs.Lex.{tokens};
ghost use Rattle.json.specs.Print.{print};
ghost use Rattle.graph_colours.specs.declared.limits.TheConstants.{COLOURS as most_colours};
ghost use Rattle.world_file_base.specs.SavedContacts.{contacts_data};
ghost use Rattle.world_file_base.specs.SavedSlots.{bodies_data, joints_data};
ghost use Rattle.world_file_base.specs.SavedTotals.{totals_data};
ghost use Rattle.world_file.specs.Files.{contact_colours, joint_colours, value_of};
ghost use Rattle.world_file.specs.Taken.{colour_numbered};
ghost use Rattle.saved_text.specs.Texts.{IsTextOf};
ghost use Rattle.saved_text.specs.Tokens.{AddsMembers, AddsValue};

use crate::bodies::put_bodies;
use crate::joints::put_joints;
use crate::leaves::Leaf;
use crate::ledger::put_totals;
use crate::members::put_members;
use crate::saved_contacts::put_contacts;
use fixed_geom::Refusal;
use impulse_ledger::Totals;
use json::Writer;
use plain_world::Plain;
use std::alloc::{AllocError, Global};
use std::collections::HashMap;
use world_file::colours_by_number;

/// The number of the version that is written.
const WRITTEN: u64 = 2;

fn put_all_bodies(out: &mut Writer, plain: &Plain) -> Result<(), AllocError>
    ensures text { OnOk result (AddsMembers ((codes "bodies", bodies_data plain.now.slot_entries plain.now.bodies plain.now.islands) ∷ []) out.old out.new) }
{
    out.key("bodies")?;
    put_bodies(out, plain.slot_entries(), plain.bodies(), plain.islands())?;
    Ok(())
}

fn put_all_contacts(
    out: &mut Writer,
    plain: &Plain,
    by_number: &HashMap<u128, u8>,
) -> Result<(), AllocError>
    requires colours { (number : ℕ) → get nat_eq by_number.now number ≡ colour_numbered number plain.now.colours }
    ensures text { OnOk result (AddsMembers ((codes "contacts", contacts_data plain.now.contacts (contact_colours plain.now.colours plain.now.contacts)) ∷ []) out.old out.new) }
{
    out.key("contacts")?;
    put_contacts(out, plain.contacts(), by_number)?;
    Ok(())
}

fn put_all_joints(
    out: &mut Writer,
    alloc: Global,
    plain: &Plain,
    by_number: &HashMap<u128, u8>,
) -> Result<(), AllocError>
    requires colours { (number : ℕ) → get nat_eq by_number.now number ≡ colour_numbered number plain.now.colours }
    ensures text { OnOk result (AddsMembers ((codes "joints", joints_data plain.now.slot_entries plain.now.joint_entries plain.now.joints (joint_colours plain.now.colours 0 plain.now.joint_entries)) ∷ []) out.old out.new) }
{
    out.key("joints")?;
    put_joints(
        out,
        alloc,
        plain.slot_entries(),
        plain.joint_entries(),
        plain.joints(),
        by_number,
    )?;
    Ok(())
}

fn put_ledger(out: &mut Writer, totals: &Totals) -> Result<(), AllocError>
    ensures text { OnOk result (AddsMembers ((codes "ledger", totals_data totals.now) ∷ []) out.old out.new) }
{
    out.key("ledger")?;
    put_totals(out, totals)?;
    Ok(())
}

/// Writes a world with the totals of its ledger.
fn put_world(
    out: &mut Writer,
    alloc: Global,
    plain: &Plain,
    by_number: &HashMap<u128, u8>,
    totals: &Totals,
) -> Result<(), AllocError>
    requires colours { (number : ℕ) → get nat_eq by_number.now number ≡ colour_numbered number plain.now.colours }
    ensures text { OnOk result (AddsValue (value_of plain.now totals.now) out.old out.new) }
{
    out.begin_object()?;
    put_all_bodies(out, plain)?;
    put_members(out, &[("call", Leaf::Natural(plain.calls()))])?;
    put_all_contacts(out, plain, by_number)?;
    put_members(out, &[("gravity", Leaf::Vector(plain.gravity()))])?;
    put_all_joints(out, alloc, plain, by_number)?;
    put_ledger(out, totals)?;
    put_members(
        out,
        &[
            ("step", Leaf::Natural(plain.steps())),
            ("version", Leaf::Natural(WRITTEN)),
        ],
    )?;
    out.end_object()?;
    Ok(())
}

/// What a writer has written, where nothing stood before.
fn text_of(out: Writer) -> Result<String, Refusal>
    ensures text { IfOk result (λ text. string_bytes text ≡ out.before ++ print out.tokens) }
    ensures tokens { tokens (print out.tokens) ≡ out.tokens }
{
    match String::from_utf8(out.into_inner()) {
        Ok(text) => Ok(text),
        Err(_) => Err(Refusal::NoMemory),
    }
}

fn written(alloc: Global, plain: &Plain, totals: &Totals) -> Result<String, Refusal>
    requires colours { length plain.now.colours ≤ most_colours + 1 }
    ensures text { IfOk result (λ text. IsTextOf (value_of plain.now totals.now) (string_bytes text)) }
{
    let by_number = colours_by_number(alloc, plain)?;
    let mut out = Writer::new(Vec::new(alloc));
    put_world(&mut out, alloc, plain, &by_number, totals)?;
    text_of(out)
}

/// The text of a world of at most 24 colours and an overflow, with the totals of its ledger: compact JSON, the keys of
/// each object ascending. It is what is printed of the value that `world_file::write` makes.
pub fn write_text(alloc: Global, plain: &Plain, totals: &Totals) -> Result<String, Refusal>
    requires colours { length plain.now.colours ≤ most_colours + 1 }
    ensures text { IfOk result (λ text. IsTextOf (value_of plain.now totals.now) (string_bytes text)) }
    ensures memory_only { IsOkUnless result Refusal.NoMemory }
{
    match written(alloc, plain, totals) {
        Ok(text) => Ok(text),
        Err(_) => Err(Refusal::NoMemory),
    }
}
