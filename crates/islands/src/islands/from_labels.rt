//! Islands from the labels of their movers, as a saved world has them.

ghost use Rattle.std.specs.Prelude.{◌≡◌, ◌<◌, ◌≤◌, ◌^◌, None, IfOk, length, replicate};
ghost use Rattle.std.specs.Result.{IsOkUnless};
ghost use Rattle.islands.specs.Labels.{IsIn, label_at, with_state};
ghost use Rattle.islands.specs.Partition.{IsPartition};
ghost use Rattle.islands.specs.Given.{IsNamed, IsNext, labels_with, labels_with_any};

use crate::islands::Islands;
use crate::label::Label;
use crate::thread_nodes::pad_node_entries;
use crate::threads::{no_head, part_at, set_state};
use fixed_geom::Refusal;
use std::alloc::Global;

impl Islands {
    /// So many slots, with no movers yet and room for one in each.
    fn without_movers(alloc: Global, slots: usize) -> Result<Islands, Refusal>
        requires { slots ≤ 2 ^ 32 }
        ensures labels { IfOk result (λ made. made.labels ≡ replicate slots None) }
        ensures room { IfOk result (λ made. made.room ≡ slots) }
        ensures memory_only { IsOkUnless result Refusal.NoMemory }
    {
        let mut node_entries = Vec::with_capacity(alloc, slots)?;
        pad_node_entries(&mut node_entries, slots);
        let mut notes = Vec::new(alloc);
        notes.resize(slots, None)?;
        let mut heads = Vec::new(alloc);
        heads.resize(slots, no_head())?;
        Ok(Islands {
            node_entries,
            notes,
            heads,
            room: slots,
        })
    }

    /// Gives the island of this label's name its state.
    fn put_state(&mut self, label: Label)
        requires { IsIn self.old.labels label.name label.name }
        ensures labels { self.new.labels ≡ with_state label.name label.state self.old.labels }
        ensures room { self.new.room ≡ self.old.room }
    {
        let part = part_at(&self.node_entries, &self.notes, label.name);
        set_state(&self.notes, &mut self.heads, part, label.state);
    }

    /// Adds a mover under its label, which has its own name, or is that of movers that are there.
    fn add_under(&mut self, slot: u32, label: Label)
        requires partition { IsPartition self.old.labels }
        requires fresh { label_at self.old.labels slot ≡ None }
        requires there { slot < length self.old.labels }
        requires room { slot < self.old.room }
        requires named { IsNamed self.old.labels slot label }
        ensures labels { self.new.labels ≡ labels_with self.old.labels slot label }
        ensures room { self.new.room ≡ self.old.room }
    {
        self.add(slot);
        self.merge(label.name, slot);
        self.put_state(label);
    }

    /// The same of a slot that may have no mover.
    fn add_any(&mut self, slot: u32, label: Option<Label>)
        requires next { IsNext self.old.labels slot label }
        requires room { slot < self.old.room }
        ensures labels { self.new.labels ≡ labels_with_any self.old.labels slot label }
        ensures room { self.new.room ≡ self.old.room }
    {
        if let Some(label) = label {
            self.add_under(slot, label);
        }
    }

    /// The islands of movers that have these labels by slot, with room for a mover in each. Costs by their number.
    pub fn from_labels(alloc: Global, labels: &[Option<Label>]) -> Result<Islands, Refusal>
        requires partition { IsPartition labels.now }
        requires few { length labels.now ≤ 2 ^ 32 }
        ensures labels { IfOk result (λ made. made.labels ≡ labels.now) }
        ensures room { IfOk result (λ made. made.room ≡ length labels.now) }
        ensures memory_only { IsOkUnless result Refusal.NoMemory }
    {
        let mut islands = Islands::without_movers(alloc, labels.len())?;
        for slot in 0..labels.len() {
            islands.add_any(slot as u32, labels[slot]);
        }
        Ok(islands)
    }
}
