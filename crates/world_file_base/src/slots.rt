//! The entries of the slots of a saved world: the generation of each, and whether something is there.

ghost use Rattle.std.specs.Prelude.{◌≡◌};
ghost use Rattle.world_file_base.specs.Reading.{items_in, seen};
ghost use Rattle.world_file_base.specs.SavedSlots.{
  generation_in,
  generation_of_number,
  is_in_time,
  slot_entry_in,
  slot_keys,
};
ghost use Rattle.world_file_base.specs.AskedSlots.{generation_asks, slot_entry_asks, slots_asks};
ghost use Rattle.serde_json.specs.View.{items_view, view};

use crate::clause::Clause;
use crate::counts::count;
use crate::reader::Reader;
use crate::values::{field, has_keys};
use crate::version::Version;
use body_handles::{SlotEntry, WORN_OUT};
use serde_json::Value;

/// The generation that a number is: 1 to the last one.
pub fn generation_of(number: i128) -> Option<u32>
    ensures { result ≡ generation_of_number number }
{
    match u32::try_from(number) {
        Ok(generation) if generation > 0 => Some(generation),
        _ => None,
    }
}

/// Reads a generation.
fn read_generation(reader: &mut Reader, value: Option<&Value>) -> u32
    ensures value { result ≡ generation_in (seen value.entry) }
    ensures asked { reader.new ≡ generation_asks (seen value.entry) reader.old }
{
    let generation = generation_of(reader.whole(value));
    reader.ask(generation.is_some(), Clause::Generations);
    match generation {
        Some(generation) => generation,
        None => 1,
    }
}

fn slot_keys(live: bool) -> usize
    ensures { result ≡ slot_keys live }
{
    if live { 2 } else { 1 }
}

/// Whether nothing is in a slot at its last generation.
pub fn is_in_time(slot_entry: SlotEntry) -> bool
    ensures { result ≡ is_in_time slot_entry }
{
    !slot_entry.live || slot_entry.generation < WORN_OUT
}

/// Reads a slot, in which something is under this key if it isn't free.
#[tactic(auto, unfolding(crate::specs::SavedSlots::slot_entry_in, crate::specs::AskedSlots::slot_entry_asks))]
pub(crate) fn read_slot_entry(reader: &mut Reader, value: &Value, key: &str) -> SlotEntry
    ensures value { result ≡ slot_entry_in key.now (view value.now) }
    ensures asked { reader.new ≡ slot_entry_asks key.now (view value.now) reader.old }
{
    let generation = read_generation(reader, field(value, "generation"));
    let live = field(value, key).is_some();
    reader.ask(has_keys(value, slot_keys(live)), Clause::Form);
    let slot_entry = SlotEntry { generation, live };
    reader.ask(is_in_time(slot_entry), Clause::Generations);
    slot_entry
}

/// The slots of a list, of which there are at most so many.
pub(crate) fn read_slots<'a>(
    reader: &mut Reader,
    value: Option<&'a Value>,
    version: Version,
) -> &'a [Value]
    ensures value { items_view result.now ≡ items_in (seen value.entry) }
    ensures asked { reader.new ≡ slots_asks version (seen value.entry) reader.old }
{
    let slots = reader.list(value);
    reader.ask(count(slots) <= version.slots(), Clause::Limits);
    slots
}
