//! A mover that comes, and slots that have none.

ghost use Rattle.std.specs.Prelude.{◌≡◌, ◌+◌, ◌<◌, ◌≤◌, ◌^◌, Some, None, vec_capacity, length, slice_set};
ghost use Rattle.islands.specs.Labels.{added, own_label, padded};
ghost use Rattle.islands.specs.Packed.{IsStanding, by_slot, note_at, labels_by};

use crate::room::pad;
use crate::thread_nodes::{NodeEntry, node_of, pad_node_entries};
use crate::threads::{Head, Note, no_head, own_head, own_note};

/// Makes the lists so long, for which there is room. The new slots have no movers.
pub(crate) fn widen_lists(
    node_entries: &mut Vec<NodeEntry>,
    notes: &mut Vec<Option<Note>>,
    heads: &mut Vec<Head>,
    slots: usize,
)
    requires standing { IsStanding node_entries.old.items notes.old.items heads.old.items }
    requires few { slots ≤ 2 ^ 32 }
    requires node_entries_room { slots ≤ vec_capacity node_entries.old }
    requires notes_room { slots ≤ vec_capacity notes.old }
    requires heads_room { slots ≤ vec_capacity heads.old }
    ensures standing { IsStanding node_entries.new.items notes.new.items heads.new.items }
    ensures labels { labels_by node_entries.new.items notes.new.items heads.new.items ≡ padded (labels_by node_entries.old.items notes.old.items heads.old.items) slots }
    ensures node_entries_capacity { vec_capacity node_entries.old ≤ vec_capacity node_entries.new }
    ensures capacity { vec_capacity notes.old ≤ vec_capacity notes.new }
    ensures heads_capacity { vec_capacity heads.old ≤ vec_capacity heads.new }
{
    pad_node_entries(node_entries, slots);
    pad(notes, slots, None);
    pad(heads, slots, no_head());
}

/// Makes a mover a part of its own.
fn put_alone(
    node_entries: &[NodeEntry],
    notes: &mut Vec<Option<Note>>,
    heads: &mut Vec<Head>,
    slot: u32,
)
    requires standing { IsStanding node_entries.now notes.old.items heads.old.items }
    requires fresh { note_at (by_slot node_entries.now notes.old.items) slot ≡ None }
    requires there { slot < length notes.old.items }
    ensures standing { IsStanding node_entries.now notes.new.items heads.new.items }
    ensures labels { labels_by node_entries.now notes.new.items heads.new.items ≡ slice_set (labels_by node_entries.now notes.old.items heads.old.items) slot (Some (own_label slot)) }
    ensures capacity { vec_capacity notes.old ≤ vec_capacity notes.new }
    ensures heads_capacity { vec_capacity heads.old ≤ vec_capacity heads.new }
{
    let node = node_of(node_entries, slot);
    notes[node as usize] = Some(own_note(node));
    heads[node as usize] = own_head(node, slot);
}

/// Makes a mover a part of its own. There is room for it.
pub(crate) fn add_part(
    node_entries: &mut Vec<NodeEntry>,
    notes: &mut Vec<Option<Note>>,
    heads: &mut Vec<Head>,
    slot: u32,
)
    requires standing { IsStanding node_entries.old.items notes.old.items heads.old.items }
    requires fresh { note_at (by_slot node_entries.old.items notes.old.items) slot ≡ None }
    requires node_entries_room { slot < vec_capacity node_entries.old }
    requires notes_room { slot < vec_capacity notes.old }
    requires heads_room { slot < vec_capacity heads.old }
    ensures standing { IsStanding node_entries.new.items notes.new.items heads.new.items }
    ensures labels { labels_by node_entries.new.items notes.new.items heads.new.items ≡ added (labels_by node_entries.old.items notes.old.items heads.old.items) slot }
    ensures node_entries_capacity { vec_capacity node_entries.old ≤ vec_capacity node_entries.new }
    ensures capacity { vec_capacity notes.old ≤ vec_capacity notes.new }
    ensures heads_capacity { vec_capacity heads.old ≤ vec_capacity heads.new }
{
    widen_lists(node_entries, notes, heads, slot as usize + 1);
    put_alone(node_entries, notes, heads, slot);
}
