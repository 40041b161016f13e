//! A whole saved world as it is read, before its parts are held against one another.

ghost use Rattle.std.specs.Prelude.{◌≡◌, ◌≤◌, ◌^◌, unwrap_or, IfErr, IfOk, OnOk};
ghost use Rattle.world_file_base.specs.declared.version.Version.TheVariants.{Second};
ghost use Rattle.world_file_base.specs.Reading.{seen};
ghost use Rattle.world_file_base.specs.declared.clause.Broken.TheVariants.{NoMemory};
ghost use Rattle.serde_json.specs.View.{view};
ghost use Rattle.world_file.specs.Saved.{
  calls_in,
  saved_in,
  slow_ticks,
  steps_in,
  version_in,
  version_of,
};
ghost use Rattle.world_file.specs.AskedParts.{heads_asks, parts_asks};
ghost use Rattle.world_file.specs.Parts.{parts_of, version_asks};
ghost use Rattle.momenta.specs.declared.limits.TheConstants.{MAX_GRAVITY};
ghost use Rattle.world_file_base.specs.Reading.{vector_within};
ghost use Rattle.world_file_base.specs.SavedTotals.{totals_read};
ghost use Rattle.serde_json.specs.Find.{get};

use fixed_geom::Vec2;
use impulse_ledger::Totals;
use momenta::MAX_GRAVITY;
use serde_json::Value;
use std::alloc::Global;
use world_file_base::{
    Broken, Clause, Reader, SavedBodies, SavedContact, SavedJoints, Version, field, has_keys,
    read_bodies, read_contacts, read_joints, read_totals,
};
use world_rules::{MAX_CALLS, MAX_TICKS};

/// How many ticks a step has at most.
pub const MOST_TICKS: u64 = MAX_TICKS as u64;

/// What is read of a saved world.
#[derive(Drop)]
pub struct Saved {
    pub bodies: SavedBodies,
    pub joints: SavedJoints,
    pub contacts: Vec<SavedContact>,
    pub totals: Totals,
    pub gravity: Vec2,
    pub steps: u64,
    pub calls: u64,
}

/// The numbers of a saved world.
#[derive(Clone, Copy)]
struct Heads {
    version: Version,
    totals: Totals,
    gravity: Vec2,
    steps: u64,
    calls: u64,
}

/// The version of this number.
fn version_of(number: i128) -> Option<Version>
    ensures { result ≡ version_of number }
{
    if number == 1 {
        Some(Version::First)
    } else if number == 2 {
        Some(Version::Second)
    } else {
        None
    }
}

fn version_or_second(version: Option<Version>) -> Version
    ensures { result ≡ unwrap_or version Second }
{
    match version {
        Some(version) => version,
        None => Version::Second,
    }
}

/// Reads the version, and asks for the number of the keys.
fn read_version(reader: &mut Reader, value: &Value) -> Version
    ensures version { result ≡ version_in (view value.now) }
    ensures asked { reader.new ≡ version_asks (view value.now) reader.old }
{
    reader.ask(has_keys(value, 8), Clause::Form);
    let version = version_of(reader.whole(field(value, "version")));
    reader.ask(version.is_some(), Clause::Form);
    version_or_second(version)
}

/// Reads the numbers of a saved world.
fn read_heads(reader: &mut Reader, value: &Value) -> Heads
    ensures version { result.version ≡ version_in (view value.now) }
    ensures totals { result.totals ≡ (saved_in (view value.now)).totals }
    ensures gravity { result.gravity ≡ (saved_in (view value.now)).gravity }
    ensures steps { result.steps ≡ steps_in (view value.now) }
    ensures calls { result.calls ≡ calls_in (view value.now) }
    ensures few { result.steps ≤ 2 ^ 40 }
    ensures asked { reader.new ≡ heads_asks (view value.now) reader.old }
{
    let version = read_version(reader, value);
    let gravity = reader.vector_within(field(value, "gravity"), MAX_GRAVITY.unsigned_abs());
    let calls = reader.unsigned(field(value, "call"), MAX_CALLS);
    let steps = reader.unsigned(field(value, "step"), calls);
    let totals = read_totals(reader, field(value, "ledger"));
    Heads {
        version,
        totals,
        gravity,
        steps,
        calls,
    }
}

/// Reads all of a value.
pub(crate) fn read_parts(alloc: Global, reader: &mut Reader, value: &Value) -> Result<Saved, Broken>
    ensures value { IfOk result (λ saved. parts_of saved ≡ saved_in (view value.now)) }
    ensures asked { OnOk result (reader.new ≡ parts_asks (view value.now) reader.old) }
    ensures memory { IfErr result (λ e. e ≡ NoMemory) }
{
    let heads = read_heads(reader, value);
    let most_ticks = heads.steps * MOST_TICKS;
    let bodies = read_bodies(
        alloc,
        reader,
        field(value, "bodies"),
        heads.version,
        most_ticks,
    )?;
    let joints = read_joints(alloc, reader, field(value, "joints"), heads.version)?;
    let contacts = read_contacts(alloc, reader, field(value, "contacts"), heads.version)?;
    Ok(Saved {
        bodies,
        joints,
        contacts,
        totals: heads.totals,
        gravity: heads.gravity,
        steps: heads.steps,
        calls: heads.calls,
    })
}
