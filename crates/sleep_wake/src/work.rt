//! What the sets work with.

ghost use Rattle.std.specs.Prelude.{◌≤◌, vec_capacity, OnOk};
ghost use Rattle.std.specs.Result.{IsOkUnless};

use crate::gathering::Gathering;
use fixed_geom::Refusal;
use graph_colours::{ConstraintId, Member};
use islands::SplitScratch;
use std::alloc::Global;

/// Lists that are reserved before, so that no change of the sets takes memory. What they hold between two calls means
/// nothing.
#[derive(Drop)]
pub(crate) struct Work<C: ConstraintId> {
    // Where ties lie while their list is edited.
    pub(crate) spare: Vec<Member<C>>,
    // What a split works on.
    pub(crate) edges: Vec<(u32, u32)>,
    pub(crate) scratch: SplitScratch,
    // Where the constraints of an island are gathered.
    pub(crate) gathering: Gathering<C>,
    // By name the least timer of each island, in a sleep phase.
    pub(crate) leasts: Vec<Option<u64>>,
}

impl<C: ConstraintId> Work<C> {
    /// Room for nothing.
    pub(crate) fn new(alloc: Global) -> Work<C> {
        Work {
            spare: Vec::new(alloc),
            edges: Vec::new(alloc),
            scratch: SplitScratch::new(alloc),
            gathering: Gathering::new(alloc),
            leasts: Vec::new(alloc),
        }
    }

    /// Makes room for that many constraints in all, and for movers in slots below `slots`.
    pub(crate) fn reserve(&mut self, room: usize, slots: usize) -> Result<(), Refusal>
        ensures edges_kept { vec_capacity self.old.edges ≤ vec_capacity self.new.edges }
        ensures edges_made { OnOk result (room ≤ vec_capacity self.new.edges) }
        ensures scratch_kept { self.old.scratch.slots ≤ self.new.scratch.slots }
        ensures scratch_made { OnOk result (slots ≤ self.new.scratch.slots) }
        ensures links_kept { self.old.scratch.links ≤ self.new.scratch.links }
        ensures links_made { OnOk result (room ≤ self.new.scratch.links) }
        ensures gathering_ties_kept { self.old.gathering.ties ≤ self.new.gathering.ties }
        ensures gathering_ties_made { OnOk result (room ≤ self.new.gathering.ties) }
        ensures gathering_slots_kept { self.old.gathering.slots ≤ self.new.gathering.slots }
        ensures gathering_slots_made { OnOk result (slots ≤ self.new.gathering.slots) }
        ensures leasts_kept { vec_capacity self.old.leasts ≤ vec_capacity self.new.leasts }
        ensures leasts_made { OnOk result (slots ≤ vec_capacity self.new.leasts) }
        ensures memory_only { IsOkUnless result Refusal.NoMemory }
    {
        self.spare.clear();
        self.spare.reserve(room)?;
        self.edges.clear();
        self.edges.reserve(room)?;
        self.scratch.reserve(slots, room)?;
        self.gathering.reserve(room, slots)?;
        self.leasts
            .reserve(slots.max(self.leasts.len()) - self.leasts.len())?;
        Ok(())
    }
}
