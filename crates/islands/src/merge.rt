//! Two parts become one, and movers whose islands are merged along links.

ghost use Rattle.std.specs.Prelude.{◌≡◌, ◌≢◌, ◌+◌, ◌<◌, ◌≤◌, ◌^◌, vec_capacity, slice_set, length, IsSome, ℕ, Contains};
ghost use Rattle.islands.specs.Labels.{union_label, relabelled, merged};
ghost use Rattle.islands.specs.Standing.{NodeEntries};
ghost use Rattle.islands.specs.Packed.{IsPacked, IsStanding, InPart, by_slot, note_at, head_at, labels_by, name_of, AreJoined, joined_head, moved_note};
ghost use Rattle.islands.specs.Merging.{merged_all};

use crate::label::{Label, union};
use crate::thread_nodes::NodeEntry;
use crate::threads::{Head, Note, part_at, set_label};

fn moved_note(note: Note, to: u32, count: u64, first: u32) -> Note
    requires { note.rank + count < 2 ^ 64 }
    ensures { result ≡ moved_note to count first note }
{
    Note {
        part: to,
        rank: note.rank + count,
        next: Some(note.next.unwrap_or(first)),
    }
}

/// Joins the notes of a part to another part: the thread of the first leads to that of the other.
fn move_members(notes: &mut Vec<Option<Note>>, heads: &[Head], part: u32, to: u32)
    requires packed { IsPacked notes.old.items heads.now }
    requires part { InPart notes.old.items part part }
    requires to { InPart notes.old.items to to }
    requires few { length notes.old.items ≤ 2 ^ 32 }
    ensures joined { AreJoined notes.old.items heads.now to part notes.new.items }
    ensures capacity { vec_capacity notes.old ≤ vec_capacity notes.new }
{
    let whole = heads[to as usize];
    let mut at = Some(heads[part as usize].first);
    while let Some(slot) = at {
        let note = notes[slot as usize].unwrap();
        at = note.next;
        notes[slot as usize] = Some(moved_note(note, to, whole.count, whole.first));
    }
}

/// Joins a part to another, which gets this label.
fn join(notes: &mut Vec<Option<Note>>, heads: &mut Vec<Head>, part: u32, to: u32, label: Label)
    requires packed { IsPacked notes.old.items heads.old.items }
    requires part { InPart notes.old.items part part }
    requires to { InPart notes.old.items to to }
    requires apart { part ≢ to }
    requires few { length notes.old.items ≤ 2 ^ 32 }
    ensures joined { AreJoined notes.old.items heads.old.items to part notes.new.items }
    ensures heads { heads.new.items ≡ slice_set heads.old.items to (joined_head heads.old.items to part label) }
    ensures capacity { vec_capacity notes.old ≤ vec_capacity notes.new }
    ensures heads_capacity { vec_capacity heads.old ≤ vec_capacity heads.new }
{
    move_members(notes, heads, part, to);
    let first = heads[part as usize].first;
    let count = heads[to as usize].count + heads[part as usize].count;
    heads[to as usize] = Head {
        label,
        first,
        count,
    };
}

/// Whether the members of the first part are fewer, or as many and under the greater name.
fn is_smaller(a: Head, b: Head) -> bool {
    a.count < b.count || (a.count == b.count && a.label.name > b.label.name)
}

/// The label of the union of two parts.
fn union_of(heads: &[Head], x: u32, y: u32) -> Label
    requires first { x < length heads.now }
    requires second { y < length heads.now }
    ensures { result ≡ union_label (head_at heads.now x).label (head_at heads.now y).label }
{
    union(heads[x as usize].label, heads[y as usize].label)
}

/// Makes two parts one. The members of the smaller get new notes, those of the greater name where both
/// are as large.
pub(crate) fn merge_parts(notes: &mut Vec<Option<Note>>, heads: &mut Vec<Head>, x: u32, y: u32)
    requires packed { IsPacked notes.old.items heads.old.items }
    requires first { InPart notes.old.items x x }
    requires second { InPart notes.old.items y y }
    requires few { length notes.old.items ≤ 2 ^ 32 }
    ensures standing { (node_entries : NodeEntries) → IsStanding node_entries notes.old.items heads.old.items → IsStanding node_entries notes.new.items heads.new.items }
    ensures labels { (node_entries : NodeEntries) → IsStanding node_entries notes.old.items heads.old.items → labels_by node_entries notes.new.items heads.new.items ≡ relabelled (name_of heads.old.items x) (name_of heads.old.items y) (union_label (head_at heads.old.items x).label (head_at heads.old.items y).label) (labels_by node_entries notes.old.items heads.old.items) }
    ensures size { length notes.new.items ≡ length notes.old.items }
    ensures capacity { vec_capacity notes.old ≤ vec_capacity notes.new }
    ensures heads_capacity { vec_capacity heads.old ≤ vec_capacity heads.new }
{
    let label = union_of(heads, x, y);
    if x == y {
        set_label(heads, x, label);
    } else if is_smaller(heads[x as usize], heads[y as usize]) {
        join(notes, heads, x, y, label);
    } else {
        join(notes, heads, y, x, label);
    }
}

/// Makes the islands of two movers one, under the lesser name, and loose if either was. It is awake then.
pub(crate) fn merge_movers(
    node_entries: &[NodeEntry],
    notes: &mut Vec<Option<Note>>,
    heads: &mut Vec<Head>,
    a: u32,
    b: u32,
)
    requires standing { IsStanding node_entries.now notes.old.items heads.old.items }
    requires first { IsSome (note_at (by_slot node_entries.now notes.old.items) a) }
    requires second { IsSome (note_at (by_slot node_entries.now notes.old.items) b) }
    requires few { length notes.old.items ≤ 2 ^ 32 }
    ensures standing { IsStanding node_entries.now notes.new.items heads.new.items }
    ensures labels { labels_by node_entries.now notes.new.items heads.new.items ≡ merged (labels_by node_entries.now notes.old.items heads.old.items) a b }
    ensures size { length notes.new.items ≡ length notes.old.items }
    ensures capacity { vec_capacity notes.old ≤ vec_capacity notes.new }
    ensures heads_capacity { vec_capacity heads.old ≤ vec_capacity heads.new }
{
    let x = part_at(node_entries, notes, a);
    let y = part_at(node_entries, notes, b);
    merge_parts(notes, heads, x, y);
}

/// Merges the islands of the ends of each link.
pub(crate) fn merge_all(
    node_entries: &[NodeEntry],
    notes: &mut Vec<Option<Note>>,
    heads: &mut Vec<Head>,
    edges: &[(u32, u32)],
)
    requires standing { IsStanding node_entries.now notes.old.items heads.old.items }
    requires few { length notes.old.items ≤ 2 ^ 32 }
    requires ends { (a b : ℕ) → Contains edges.now (a, b) → IsSome (note_at (by_slot node_entries.now notes.old.items) a) × IsSome (note_at (by_slot node_entries.now notes.old.items) b) }
    ensures standing { IsStanding node_entries.now notes.new.items heads.new.items }
    ensures labels { labels_by node_entries.now notes.new.items heads.new.items ≡ merged_all (labels_by node_entries.now notes.old.items heads.old.items) edges.now }
    ensures size { length notes.new.items ≡ length notes.old.items }
    ensures capacity { vec_capacity notes.old ≤ vec_capacity notes.new }
    ensures heads_capacity { vec_capacity heads.old ≤ vec_capacity heads.new }
{
    for edge in edges {
        merge_movers(node_entries, notes, heads, edge.0, edge.1);
    }
}
