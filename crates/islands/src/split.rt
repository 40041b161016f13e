//! An island that is split into its components, and a part that falls apart into its members.

ghost use Rattle.std.specs.Prelude.{◌≡◌, ◌≤◌, ◌^◌, vec_capacity, length, ◌<◌, ℕ, Contains};
ghost use Rattle.islands.specs.Labels.{split_by};
ghost use Rattle.islands.specs.Partition.{Inside};
ghost use Rattle.islands.specs.Packed.{IsStanding, labels_by, AreScattered};
ghost use Rattle.islands.specs.Standing.{AreInverse};

use crate::scratch::SplitScratch;
use crate::thread_nodes::{NodeEntry, node_of};
use crate::threads::{Head, Note, own_head, own_note, part_named};

/// Makes each of these movers a part of its own.
pub(crate) fn scatter(
    node_entries: &[NodeEntry],
    notes: &mut Vec<Option<Note>>,
    heads: &mut Vec<Head>,
    members: &[u32],
)
    requires inverse { AreInverse node_entries.now }
    requires node_entries { length node_entries.now ≡ length notes.old.items }
    requires sizes { length heads.old.items ≡ length notes.old.items }
    requires within { (s : ℕ) → Contains members.now s → s < length notes.old.items }
    ensures scattered { AreScattered node_entries.now notes.old.items heads.old.items members.now notes.new.items heads.new.items }
    ensures capacity { vec_capacity notes.old ≤ vec_capacity notes.new }
    ensures heads_capacity { vec_capacity heads.old ≤ vec_capacity heads.new }
{
    for member in members {
        let node = node_of(node_entries, *member);
        notes[node as usize] = Some(own_note(node));
        heads[node as usize] = own_head(node, *member);
    }
}

/// Replaces an island by its connected components over the links that are given, none of them loose.
pub(crate) fn split_island(
    node_entries: &[NodeEntry],
    notes: &mut Vec<Option<Note>>,
    heads: &mut Vec<Head>,
    name: u32,
    edges: &[(u32, u32)],
    scratch: &mut SplitScratch,
)
    requires standing { IsStanding node_entries.now notes.old.items heads.old.items }
    requires few { length notes.old.items ≤ 2 ^ 32 }
    requires inside { Inside (labels_by node_entries.now notes.old.items heads.old.items) name edges.now }
    requires slots { length notes.old.items ≤ scratch.old.slots }
    requires links { length edges.now ≤ scratch.old.links }
    ensures standing { IsStanding node_entries.now notes.new.items heads.new.items }
    ensures labels { labels_by node_entries.now notes.new.items heads.new.items ≡ split_by (labels_by node_entries.now notes.old.items heads.old.items) name edges.now }
    ensures size { length notes.new.items ≡ length notes.old.items }
    ensures capacity { vec_capacity notes.old ≤ vec_capacity notes.new }
    ensures heads_capacity { vec_capacity heads.old ≤ vec_capacity heads.new }
    ensures scratch_slots { scratch.new.slots ≡ scratch.old.slots }
    ensures scratch_links { scratch.new.links ≡ scratch.old.links }
{
    if let Some(part) = part_named(node_entries, notes, heads, name) {
        scratch.split(node_entries, notes, heads, part, edges);
    }
}
