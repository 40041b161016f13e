//! The islands of a world.

mod from_labels;

ghost use Rattle.std.specs.Prelude.{◌≡◌, ℕ, ◌+◌, ◌<◌, ◌≤◌, ◌^◌, ◌↔◌, [], None, nat_eq, length, vec_capacity, IfOk, OnOk, OnErr, IsSome, IfSome, Contains, option_map};
ghost use Rattle.std.specs.Result.{IsOkUnless};
ghost use Rattle.std.specs.List.{IsDistinct};
ghost use Rattle.std.specs.List.Sorted.{IsStrictlyIncreasing};
ghost use Rattle.islands.specs.Labels.{label_at, IsIn, is_loose, is_asleep, added, merged, padded, loosened, taken_out, rested, woken, split_by};
ghost use Rattle.islands.specs.Partition.{IsPartition, Inside, IsSplit};

use crate::adding::{add_part, widen_lists};
use crate::label::{IslandState, Label};
use crate::leaving::leave;
use crate::listing::{fill_members, members_of};
use crate::merge::merge_movers;
use crate::room::reserve_in_all;
use crate::scratch::SplitScratch;
use crate::split::split_island;
use crate::thread_nodes::NodeEntry;
use crate::threads::{Head, Note, label_in, part_at, set_state};
use fixed_geom::Refusal;
use std::alloc::Global;
use std::marker::Model;

/// The islands of the movers. Contracts see the label of each mover's island by slot (`labels`), and
/// the bound below which a mover's slot must be so that it may be added (`room`).
#[derive(Drop)]
pub struct Islands {
    // By slot the node where it stands, and back.
    node_entries: Vec<NodeEntry>,
    // By node what is kept of the mover there, and of the part that is led from there.
    notes: Vec<Option<Note>>,
    heads: Vec<Head>,
    room: usize,
}

impl Model for Islands {
    ghost use Rattle.std.specs.Prelude.{vec_capacity};
    ghost use Rattle.islands.specs.Kept.{Grouped};
    ghost use Rattle.islands.specs.Packed.{IsKept, labels_by};

    ghost Value = { Grouped };

    ghost view = { λ a. record { labels = labels_by a.node_entries.items a.notes.items a.heads.items; room = a.room } };

    ghost invariant = { λ a. IsKept a.node_entries.items a.notes.items a.heads.items (vec_capacity a.node_entries) (vec_capacity a.notes) (vec_capacity a.heads) a.room };
}

impl Islands {
    /// No movers, and room for none.
    pub fn new(alloc: Global) -> Islands
        ensures labels { result.labels ≡ [] }
        ensures room { result.room ≡ 0 }
    {
        Islands {
            node_entries: Vec::new(alloc),
            notes: Vec::new(alloc),
            heads: Vec::new(alloc),
            room: 0,
        }
    }

    /// A copy of its own, with no room.
    pub fn try_copy(&self) -> Result<Islands, Refusal>
        ensures labels { IfOk result (λ copied. copied.labels ≡ self.now.labels) }
        ensures room { IfOk result (λ copied. copied.room ≡ 0) }
        ensures memory_only { IsOkUnless result Refusal.NoMemory }
    {
        let alloc = *self.notes.allocator();
        Ok(Islands {
            node_entries: Vec::from_slice(alloc, self.node_entries.as_slice())?,
            notes: Vec::from_slice(alloc, self.notes.as_slice())?,
            heads: Vec::from_slice(alloc, self.heads.as_slice())?,
            room: 0,
        })
    }

    /// Makes room for movers in slots below `slots`.
    pub fn reserve(&mut self, slots: usize) -> Result<(), Refusal>
        ensures made { OnOk result (slots ≤ self.new.room) }
        ensures room { self.old.room ≤ self.new.room }
        ensures labels { self.new.labels ≡ self.old.labels }
        ensures refused { OnErr result (self.new ≡ self.old) }
        ensures memory_only { IsOkUnless result Refusal.NoMemory }
    {
        reserve_in_all(&mut self.node_entries, slots)?;
        reserve_in_all(&mut self.notes, slots)?;
        reserve_in_all(&mut self.heads, slots)?;
        self.room = self.room.max(slots);
        Ok(())
    }

    /// Makes a mover an island of its own.
    pub fn add(&mut self, slot: u32)
        requires fresh { label_at self.old.labels slot ≡ None }
        requires room { slot < self.old.room }
        ensures labels { self.new.labels ≡ added self.old.labels slot }
        ensures room { self.new.room ≡ self.old.room }
    {
        add_part(
            &mut self.node_entries,
            &mut self.notes,
            &mut self.heads,
            slot,
        );
    }

    /// Lets the slots that have a label, or none, go up to this one at least.
    pub fn widen(&mut self, slot: u32)
        requires room { slot < self.old.room }
        ensures labels { self.new.labels ≡ padded self.old.labels (slot + 1) }
        ensures room { self.new.room ≡ self.old.room }
    {
        widen_lists(
            &mut self.node_entries,
            &mut self.notes,
            &mut self.heads,
            slot as usize + 1,
        );
    }

    /// Makes the islands of two movers one, under the lesser name, and loose if either was. It is
    /// awake then. Takes no memory.
    pub fn merge(&mut self, a: u32, b: u32)
        requires first { IsSome (label_at self.old.labels a) }
        requires second { IsSome (label_at self.old.labels b) }
        ensures labels { self.new.labels ≡ merged self.old.labels a b }
        ensures room { self.new.room ≡ self.old.room }
    {
        merge_movers(&self.node_entries, &mut self.notes, &mut self.heads, a, b);
    }

    /// Makes the island of a mover loose: it has lost a link.
    pub fn loosen(&mut self, slot: u32)
        requires mover { IsSome (label_at self.old.labels slot) }
        ensures labels { self.new.labels ≡ loosened self.old.labels slot }
        ensures room { self.new.room ≡ self.old.room }
    {
        let part = part_at(&self.node_entries, &self.notes, slot);
        set_state(&self.notes, &mut self.heads, part, IslandState::Loose);
    }

    /// Takes a mover out of its island. Those that it leaves behind are loose, under their lowest slot. That is looked
    /// for only where the mover named the island: otherwise it costs the same whatever the size of the island.
    pub fn take_out(&mut self, slot: u32)
        requires mover { IsSome (label_at self.old.labels slot) }
        ensures labels { self.new.labels ≡ taken_out self.old.labels slot }
        ensures room { self.new.room ≡ self.old.room }
    {
        leave(
            &mut self.node_entries,
            &mut self.notes,
            &mut self.heads,
            slot,
        );
    }

    /// Puts an island to rest.
    #[tactic(auto, unfolding(crate::specs::Labels::rested))]
    pub fn rest(&mut self, name: u32)
        requires island { IsIn self.old.labels name name }
        ensures labels { self.new.labels ≡ rested self.old.labels name }
        ensures room { self.new.room ≡ self.old.room }
    {
        let part = part_at(&self.node_entries, &self.notes, name);
        set_state(&self.notes, &mut self.heads, part, IslandState::Asleep);
    }

    /// Wakes an island.
    #[tactic(auto, unfolding(crate::specs::Labels::woken))]
    pub fn wake(&mut self, name: u32)
        requires island { IsIn self.old.labels name name }
        ensures labels { self.new.labels ≡ woken self.old.labels name }
        ensures room { self.new.room ≡ self.old.room }
    {
        let part = part_at(&self.node_entries, &self.notes, name);
        set_state(&self.notes, &mut self.heads, part, IslandState::Whole);
    }

    /// Replaces an island by its connected components over the links that are given, none of them
    /// loose. Takes no memory: there is room in the scratch.
    pub fn split(&mut self, name: u32, edges: &[(u32, u32)], scratch: &mut SplitScratch)
        requires inside { Inside self.old.labels name edges.now }
        requires slots { length self.old.labels ≤ scratch.old.slots }
        requires links { length edges.now ≤ scratch.old.links }
        ensures labels { self.new.labels ≡ split_by self.old.labels name edges.now }
        ensures components { IsSplit self.old.labels name edges.now self.new.labels }
        ensures room { self.new.room ≡ self.old.room }
        ensures scratch_slots { scratch.new.slots ≡ scratch.old.slots }
        ensures scratch_links { scratch.new.links ≡ scratch.old.links }
    {
        split_island(
            &self.node_entries,
            &mut self.notes,
            &mut self.heads,
            name,
            edges,
            scratch,
        );
    }

    /// How many slots there are, with a mover or without.
    pub fn slots(&self) -> usize
        ensures value { result ≡ length self.now.labels }
        ensures few { length self.now.labels ≤ 2 ^ 32 }
    {
        self.notes.len()
    }

    /// The label of a mover's island; `None` where there is no mover.
    pub fn label_of(&self, slot: u32) -> Option<Label>
        ensures value { result ≡ label_at self.now.labels slot }
        ensures partition { IsPartition self.now.labels }
    {
        label_in(&self.node_entries, &self.notes, &self.heads, slot)
    }

    /// The name of a mover's island, which is its lowest slot; `None` where there is no mover.
    pub fn name_of(&self, slot: u32) -> Option<u32>
        ensures { result ≡ option_map (λ l. l.name) (label_at self.now.labels slot) }
    {
        match self.label_of(slot) {
            Some(label) => Some(label.name),
            None => None,
        }
    }

    /// Whether the island of a mover may have come apart.
    pub fn is_loose(&self, slot: u32) -> bool
        requires { IsSome (label_at self.now.labels slot) }
        ensures { IfSome (label_at self.now.labels slot) (λ l. result ≡ is_loose l.state) }
    {
        self.label_of(slot).unwrap().state.is_loose()
    }

    /// Whether a mover sleeps.
    pub fn is_asleep(&self, slot: u32) -> bool
        requires { IsSome (label_at self.now.labels slot) }
        ensures { IfSome (label_at self.now.labels slot) (λ l. result ≡ is_asleep l.state) }
    {
        self.label_of(slot).unwrap().state.is_asleep()
    }

    /// The movers of an island, ascending.
    pub fn members(&self, name: u32) -> Result<Vec<u32>, Refusal>
        ensures ascending { IfOk result (λ v. IsStrictlyIncreasing v.items) }
        ensures members { IfOk result (λ v. (slot : ℕ) → Contains v.items slot ↔ IsIn self.now.labels name slot) }
        ensures memory_only { IsOkUnless result Refusal.NoMemory }
    {
        let alloc = *self.notes.allocator();
        members_of(alloc, &self.node_entries, &self.notes, &self.heads, name)
    }

    /// Lists the movers of an island, in no order that is promised; none where there is no such island. There is room
    /// for as many as there are slots. Takes no memory.
    pub fn fill_members(&self, name: u32, members: &mut Vec<u32>)
        requires room { length self.now.labels ≤ vec_capacity members.old }
        ensures members { (slot : ℕ) → Contains members.new.items slot ↔ IsIn self.now.labels name slot }
        ensures once { IsDistinct nat_eq members.new.items }
        ensures capacity { vec_capacity members.old ≤ vec_capacity members.new }
    {
        fill_members(&self.node_entries, &self.notes, &self.heads, name, members);
    }

    /// By slot the label of the mover's island.
    pub fn list_labels(&self) -> Result<Vec<Option<Label>>, Refusal>
        ensures labels { IfOk result (λ v. v.items ≡ self.now.labels) }
        ensures memory_only { IsOkUnless result Refusal.NoMemory }
    {
        let slots = self.slots();
        let mut labels = Vec::with_capacity(*self.notes.allocator(), slots)?;
        for slot in 0..slots {
            labels.push(self.label_of(slot as u32))?;
        }
        Ok(labels)
    }
}
