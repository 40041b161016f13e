//! What a split works on.

ghost use Rattle.std.specs.Prelude.{◌≡◌, ◌≤◌, ◌^◌, length, vec_capacity, OnOk};
ghost use Rattle.std.specs.Result.{IsOkUnless};
ghost use Rattle.islands.specs.Labels.{split_by};
ghost use Rattle.islands.specs.Partition.{Inside};
ghost use Rattle.islands.specs.Packed.{IsStanding, InPart, name_of, labels_by};

use crate::listing::list_members;
use crate::merge::merge_all;
use crate::room::reserve_in_all;
use crate::split::scatter;
use crate::thread_nodes::NodeEntry;
use crate::threads::{Head, Note};
use fixed_geom::Refusal;
use std::alloc::Global;
use std::marker::Model;

/// The lists that a split works on, reserved before so that it takes no memory. Contracts see for how
/// many slots (`slots`) and links (`links`) there is room.
#[derive(Drop)]
pub struct SplitScratch {
    members: Vec<u32>,
    slots: usize,
    links: usize,
}

impl Model for SplitScratch {
    ghost use Rattle.std.specs.Prelude.{vec_capacity, ◌≤◌};
    ghost use Rattle.islands.specs.Kept.{Scratch};

    ghost Value = { Scratch };

    ghost view = { λ a. record { slots = a.slots; links = a.links } };

    ghost invariant = { λ a. a.slots ≤ vec_capacity a.members };
}

impl SplitScratch {
    /// Room for nothing.
    pub fn new(alloc: Global) -> SplitScratch
        ensures slots { result.slots ≡ 0 }
        ensures links { result.links ≡ 0 }
    {
        SplitScratch {
            members: Vec::new(alloc),
            slots: 0,
            links: 0,
        }
    }

    /// Makes room for the split of an island with that many links, where there are that many slots in all.
    pub fn reserve(&mut self, slots: usize, links: usize) -> Result<(), Refusal>
        ensures slots_made { OnOk result (slots ≤ self.new.slots) }
        ensures links_made { OnOk result (links ≤ self.new.links) }
        ensures slots { self.old.slots ≤ self.new.slots }
        ensures links { self.old.links ≤ self.new.links }
        ensures memory_only { IsOkUnless result Refusal.NoMemory }
    {
        reserve_in_all(&mut self.members, slots)?;
        self.slots = self.slots.max(slots);
        self.links = self.links.max(links);
        Ok(())
    }

    /// Replaces a part by its connected components over the links that are given, none of them loose.
    pub(crate) fn split(
        &mut self,
        node_entries: &[NodeEntry],
        notes: &mut Vec<Option<Note>>,
        heads: &mut Vec<Head>,
        part: u32,
        edges: &[(u32, u32)],
    )
        requires standing { IsStanding node_entries.now notes.old.items heads.old.items }
        requires few { length notes.old.items ≤ 2 ^ 32 }
        requires part { InPart notes.old.items part part }
        requires inside { Inside (labels_by node_entries.now notes.old.items heads.old.items) (name_of heads.old.items part) edges.now }
        requires slots { length notes.old.items ≤ self.old.slots }
        requires links { length edges.now ≤ self.old.links }
        ensures standing { IsStanding node_entries.now notes.new.items heads.new.items }
        ensures labels { labels_by node_entries.now notes.new.items heads.new.items ≡ split_by (labels_by node_entries.now notes.old.items heads.old.items) (name_of heads.old.items part) edges.now }
        ensures size { length notes.new.items ≡ length notes.old.items }
        ensures capacity { vec_capacity notes.old ≤ vec_capacity notes.new }
        ensures heads_capacity { vec_capacity heads.old ≤ vec_capacity heads.new }
        ensures slots { self.new.slots ≡ self.old.slots }
        ensures links { self.new.links ≡ self.old.links }
    {
        list_members(node_entries, notes, heads, part, &mut self.members);
        scatter(node_entries, notes, heads, &self.members);
        merge_all(node_entries, notes, heads, edges);
    }
}
