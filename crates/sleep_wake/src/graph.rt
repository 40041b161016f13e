//! The constraints between movers, with the islands and the colours that they make.

ghost use Rattle.std.specs.Prelude.{◌≡◌, ◌≤◌, ◌+◌, length, IfOk, OnOk};
ghost use Rattle.std.specs.Result.{IsOkUnless};
ghost use Rattle.graph_colours.specs.Colours.{all_members};

use crate::ties::Ties;
use fixed_geom::Refusal;
use graph_colours::{Colours, ConstraintId};
use islands::Islands;
use std::alloc::Global;

/// A graph whose nodes are the movers and whose edges are the constraints: its components are the islands, and the
/// constraints that act have colours.
#[derive(Drop)]
pub(crate) struct Graph<C: ConstraintId> {
    // Ascending by number.
    pub(crate) ties: Ties<C>,
    pub(crate) colours: Colours<C>,
    pub(crate) islands: Islands,
}

impl<C: ConstraintId> Graph<C> {
    /// A copy of its own.
    pub(crate) fn try_copy(&self, alloc: Global) -> Result<Graph<C>, Refusal>
        ensures ties { IfOk result (λ copied. copied.ties.items ≡ self.now.ties.items) }
        ensures lists { IfOk result (λ copied. copied.colours.lists ≡ self.now.colours.lists) }
        ensures labels { IfOk result (λ copied. copied.islands.labels ≡ self.now.islands.labels) }
        ensures pending { IfOk result (λ copied. copied.colours.pending ≡ 0) }
        ensures memory_only { IsOkUnless result Refusal.NoMemory }
    {
        Ok(Graph {
            ties: self.ties.try_copy(alloc)?,
            colours: self.colours.try_copy()?,
            islands: self.islands.try_copy()?,
        })
    }

    /// Makes room for that many more constraints, and for movers in slots below `slots`, and answers for how many
    /// constraints in all there is room then. Changes no constraint, no island and no colour.
    pub(crate) fn reserve(&mut self, constraints: usize, slots: usize) -> Result<usize, Refusal>
        ensures value { IfOk result (λ room. room ≡ length self.old.ties.items + constraints) }
        ensures ties { self.new.ties.items ≡ self.old.ties.items }
        ensures lists { self.new.colours.lists ≡ self.old.colours.lists }
        ensures labels { self.new.islands.labels ≡ self.old.islands.labels }
        ensures pending { self.new.colours.pending ≡ self.old.colours.pending }
        ensures ties_kept { self.old.ties.capacity ≤ self.new.ties.capacity }
        ensures ties_made { IfOk result (λ room. room ≤ self.new.ties.capacity) }
        ensures colours_kept { self.old.colours.room ≤ self.new.colours.room }
        ensures colours_made { IfOk result (λ room. room ≤ self.new.colours.room + length (all_members self.new.colours.lists)) }
        ensures slots_kept { self.old.colours.slots ≤ self.new.colours.slots }
        ensures slots_made { OnOk result (slots ≤ self.new.colours.slots) }
        ensures islands_kept { self.old.islands.room ≤ self.new.islands.room }
        ensures islands_made { OnOk result (slots ≤ self.new.islands.room) }
        ensures memory_only { IsOkUnless result Refusal.NoMemory }
    {
        let Some(room) = self.ties.len().checked_add(constraints) else {
            return Err(Refusal::NoMemory);
        };
        self.ties.reserve(room)?;
        self.colours
            .reserve(room - self.colours.count().min(room), slots)?;
        self.islands.reserve(slots)?;
        Ok(room)
    }
}
