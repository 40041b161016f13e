//! The parts of a partition of movers: threads through the nodes of their members.

ghost use Rattle.std.specs.Prelude.{◌≡◌, ℕ, ◌<◌, ◌≤◌, Some, IsSome, vec_capacity, slice_set, length};
ghost use Rattle.islands.specs.Labels.{label_at, own_label, with_state};
ghost use Rattle.islands.specs.Standing.{NodeEntries};
ghost use Rattle.islands.specs.Packed.{IsPacked, IsStanding, IsNamedPart, InPart, by_slot, note_at, part_in, own_note, own_head, no_head, labels_by, name_of, labelled_head};

use crate::label::{IslandState, Label};
use crate::thread_nodes::{NodeEntry, node_of};

/// What is kept of a mover.
#[derive(Clone, Copy, Debug, PartialEq, Eq)]
pub(crate) struct Note {
    // The part that it is in, by the node where the head of the part stands.
    pub(crate) part: u32,
    // Its index in the part: those that the thread leads to from here have lower ones.
    pub(crate) rank: u64,
    // The node to which the thread leads from here.
    pub(crate) next: Option<u32>,
}

/// What is kept of a part, at the node where its thread ends: there it stays for as long as the part has
/// members, since they leave from the front.
#[derive(Clone, Copy, Debug, PartialEq, Eq)]
pub(crate) struct Head {
    pub(crate) label: Label,
    // The node where the thread begins.
    pub(crate) first: u32,
    pub(crate) count: u64,
}

/// The note of a mover that is a part of its own.
pub(crate) fn own_note(node: u32) -> Note
    ensures { result ≡ own_note node }
{
    Note {
        part: node,
        rank: 0,
        next: None,
    }
}

/// The head of a part of one mover.
pub(crate) fn own_head(node: u32, slot: u32) -> Head
    ensures { result ≡ own_head node slot }
{
    Head {
        label: own_label(slot),
        first: node,
        count: 1,
    }
}

/// What stands where no part is led from.
pub(crate) fn no_head() -> Head
    ensures { result ≡ no_head }
{
    Head {
        label: own_label(0),
        first: 0,
        count: 0,
    }
}

fn own_label(slot: u32) -> Label
    ensures { result ≡ own_label slot }
{
    Label {
        name: slot,
        state: IslandState::Whole,
    }
}

/// The label of the mover in a slot; `None` where there is no mover.
pub(crate) fn label_in(
    node_entries: &[NodeEntry],
    notes: &[Option<Note>],
    heads: &[Head],
    slot: u32,
) -> Option<Label>
    requires standing { IsStanding node_entries.now notes.now heads.now }
    ensures label { result ≡ label_at (labels_by node_entries.now notes.now heads.now) slot }
{
    match part_of(node_entries, notes, slot) {
        None => None,
        Some(part) => Some(heads[part as usize].label),
    }
}

fn part_in(notes: &[Option<Note>], node: u32) -> Option<u32>
    ensures part { result ≡ part_in (note_at notes.now node) }
{
    match notes.get(node as usize) {
        Some(Some(note)) => Some(note.part),
        _ => None,
    }
}

/// The part of the mover in a slot; `None` where there is no mover.
pub(crate) fn part_of(node_entries: &[NodeEntry], notes: &[Option<Note>], slot: u32) -> Option<u32>
    requires sizes { length node_entries.now ≡ length notes.now }
    ensures part { result ≡ part_in (note_at (by_slot node_entries.now notes.now) slot) }
{
    part_in(notes, node_of(node_entries, slot))
}

/// The part of the mover in a slot, which is there.
pub(crate) fn part_at(node_entries: &[NodeEntry], notes: &[Option<Note>], slot: u32) -> u32
    requires sizes { length node_entries.now ≡ length notes.now }
    requires mover { IsSome (note_at (by_slot node_entries.now notes.now) slot) }
    ensures { part_in (note_at (by_slot node_entries.now notes.now) slot) ≡ Some result }
{
    notes[node_of(node_entries, slot) as usize].unwrap().part
}

/// The part that is the island of this name; `None` where there is no such island.
pub(crate) fn part_named(
    node_entries: &[NodeEntry],
    notes: &[Option<Note>],
    heads: &[Head],
    name: u32,
) -> Option<u32>
    requires standing { IsStanding node_entries.now notes.now heads.now }
    ensures named { IsNamedPart node_entries.now notes.now heads.now name result }
{
    match part_of(node_entries, notes, name) {
        Some(part) if name_of(heads, part) == name => Some(part),
        _ => None,
    }
}

/// The name of a part, which is its lowest member.
pub(crate) fn name_of(heads: &[Head], part: u32) -> u32
    requires { part < length heads.now }
    ensures { result ≡ name_of heads.now part }
{
    heads[part as usize].label.name
}

/// Gives a part another label.
pub(crate) fn set_label(heads: &mut Vec<Head>, part: u32, label: Label)
    requires { part < length heads.old.items }
    ensures heads { heads.new.items ≡ slice_set heads.old.items part (labelled_head heads.old.items part label) }
    ensures capacity { vec_capacity heads.old ≤ vec_capacity heads.new }
{
    let head = heads[part as usize];
    heads[part as usize] = Head {
        label,
        first: head.first,
        count: head.count,
    };
}

/// Gives a part another state.
pub(crate) fn set_state(
    notes: &[Option<Note>],
    heads: &mut Vec<Head>,
    part: u32,
    state: IslandState,
)
    requires packed { IsPacked notes.now heads.old.items }
    requires part { InPart notes.now part part }
    ensures standing { (node_entries : NodeEntries) → IsStanding node_entries notes.now heads.old.items → IsStanding node_entries notes.now heads.new.items }
    ensures labels { (node_entries : NodeEntries) → IsStanding node_entries notes.now heads.old.items → labels_by node_entries notes.now heads.new.items ≡ with_state (name_of heads.old.items part) state (labels_by node_entries notes.now heads.old.items) }
    ensures capacity { vec_capacity heads.old ≤ vec_capacity heads.new }
{
    let name = name_of(heads, part);
    set_label(heads, part, Label { name, state });
}
