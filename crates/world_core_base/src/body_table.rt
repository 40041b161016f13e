//! The bodies of a world by slot, and what a step goes over: their states, and the movers' slots.

mod changes;
mod from_bodies;
mod step;

ghost use Rattle.std.specs.Prelude.{◌≡◌, ◌≤◌, [], false, true, IfOk, length, replicate, slice_index_or};
ghost use Rattle.std.specs.Result.{IsOkUnless};
ghost use Rattle.colour_solver.specs.States.{places_from};
ghost use Rattle.world_core_base.specs.Gather.{states_of};
ghost use Rattle.world_core_base.specs.Covers.{AreCovered};
ghost use Rattle.world_core_base.specs.Marked.{AreMarked};
ghost use Rattle.plain_world.specs.Changes.{is_awake_in};
ghost use Rattle.plain_world.specs.InSlots.{is_carried_in};

use crate::slot_list::{Group, SlotList};
use box_tree::BoxTree;
use fixed_geom::Refusal;
use momenta::BodyState;
use packed_sets::Marks;
use plain_world::{Body, copy_bodies};
use std::alloc::Global;
use std::marker::Model;

/// The bodies by slot, each slot marked whose body shows the broad phase other shapes than when the marks were last
/// taken away. Contracts see the bodies, for how many more there is room, and the marks.
#[derive(Drop)]
pub struct BodyTable {
    bodies: Vec<Option<Body>>,
    // The bodies as the ticks work on them, by slot.
    states: Vec<BodyState>,
    // The awake movers' slots.
    awake: SlotList,
    // The slots of the bodies that are carried along.
    carried: SlotList,
    // A mark or none for each body, and for those for which there is room.
    marks: Marks,
    // For each slot with a body a box that holds its fat boxes, in a tree.
    boxes: BoxTree,
    // For how many more bodies each list has room.
    room: usize,
}

impl Model for BodyTable {
    ghost use Rattle.std.specs.Prelude.{◌-◌, ◌+◌, vec_capacity, vec_len};
    ghost use Rattle.world_core_base.specs.Awake.{Bodies, IsBodyTable};

    ghost Value = { Bodies };

    ghost view = { λ a. record { bodies = a.bodies.items; room = a.room; marks = a.marks; boxes = a.boxes; pending = a.awake.pending + a.carried.pending } };

    ghost invariant = { λ a. IsBodyTable a.bodies.items a.states.items a.awake a.carried a.marks a.boxes a.room (vec_capacity a.bodies - vec_len a.bodies) (vec_capacity a.states - vec_len a.states) };
}

impl BodyTable {
    /// No body.
    pub fn new(alloc: Global) -> BodyTable
        ensures bodies { result.bodies ≡ [] }
        ensures marks { result.marks ≡ [] }
        ensures pending { result.pending ≡ 0 }
    {
        BodyTable {
            bodies: Vec::new(alloc),
            states: Vec::new(alloc),
            awake: SlotList::new(alloc),
            carried: SlotList::new(alloc),
            marks: Marks::new(alloc),
            boxes: BoxTree::new(alloc),
            room: 0,
        }
    }

    /// Where its memory comes from.
    pub fn allocator(&self) -> Global {
        *self.bodies.allocator()
    }

    /// The bodies by slot.
    pub fn bodies(&self) -> &[Option<Body>]
        ensures { result.now ≡ self.now.bodies }
    {
        self.bodies.as_slice()
    }

    /// The bodies by slot as a step works on them.
    pub fn states(&self) -> &[BodyState]
        ensures { result.now ≡ states_of self.now.bodies }
    {
        self.states.as_slice()
    }

    /// The awake movers' slots, ascending, where no edit of the list is put off.
    pub fn awake(&self) -> &[u32]
        requires flushed { self.now.pending ≡ 0 }
        ensures { result.now ≡ places_from is_awake_in 0 self.now.bodies }
    {
        self.awake.as_slice()
    }

    /// The slots of the bodies that are carried along, ascending, where no edit of the list is put off.
    pub fn carried(&self) -> &[u32]
        requires flushed { self.now.pending ≡ 0 }
        ensures { result.now ≡ places_from is_carried_in 0 self.now.bodies }
    {
        self.carried.as_slice()
    }

    /// For each slot whether it is marked. One that has no mark here counts as marked, and has no body.
    pub fn marks(&self) -> &Marks
        ensures value { result.now ≡ self.now.marks }
        ensures enough { length self.now.bodies ≤ length result.now }
    {
        &self.marks
    }

    /// Boxes by slot: that of each slot with a body holds the body's fat boxes, whether it is enabled or not. A slot
    /// without a body may have a box or none.
    pub fn boxes(&self) -> &BoxTree
        ensures value { result.now ≡ self.now.boxes }
        ensures covered { AreCovered self.now.bodies result.now }
    {
        &self.boxes
    }

    /// Marks a slot. Takes no memory.
    pub fn mark(&mut self, slot: u32)
        ensures bodies { self.new.bodies ≡ self.old.bodies }
        ensures room { self.new.room ≡ self.old.room }
        ensures marked { AreMarked self.old self.new }
        ensures there { slice_index_or self.new.marks slot true ≡ true }
        ensures pending { self.new.pending ≡ self.old.pending }
    {
        self.marks.mark(slot);
    }

    /// Takes all marks away, in a time that goes by their number.
    pub fn clear_marks(&mut self)
        ensures bodies { self.new.bodies ≡ self.old.bodies }
        ensures room { self.new.room ≡ self.old.room }
        ensures cleared { self.new.marks ≡ replicate (length self.old.marks) false }
        ensures pending { self.new.pending ≡ self.old.pending }
    {
        self.marks.clear();
    }

    /// Brings the lists of the awake movers and of the bodies that are carried along up to date, after what came and
    /// went. It costs nothing where nothing did, and takes no memory.
    pub fn flush(&mut self)
        ensures bodies { self.new.bodies ≡ self.old.bodies }
        ensures room { self.new.room ≡ self.old.room }
        ensures marks { self.new.marks ≡ self.old.marks }
        ensures pending { self.new.pending ≡ 0 }
    {
        self.awake.flush(Group::Awake, &self.states);
        self.carried.flush(Group::Carried, &self.states);
    }

    /// A copy, with no room.
    pub fn try_copy(&self) -> Result<BodyTable, Refusal>
        ensures copy { IfOk result (λ copied. copied.bodies ≡ self.now.bodies) }
        ensures marks { IfOk result (λ copied. copied.marks ≡ self.now.marks) }
        ensures pending { IfOk result (λ copied. copied.pending ≡ self.now.pending) }
        ensures memory_only { IsOkUnless result Refusal.NoMemory }
    {
        let alloc = *self.bodies.allocator();
        let bodies = copy_bodies(alloc, &self.bodies)?;
        let mut states = Vec::new(alloc);
        states.extend_from_slice(&self.states)?;
        let awake = self.awake.try_copy(alloc, bodies.len())?;
        let carried = self.carried.try_copy(alloc, bodies.len())?;
        Ok(BodyTable {
            bodies,
            states,
            awake,
            carried,
            marks: self.marks.try_copy()?,
            boxes: self.boxes.try_copy()?,
            room: 0,
        })
    }
}
