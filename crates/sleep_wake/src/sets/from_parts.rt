//! The sets from their parts, as a saved world has them.

ghost use Rattle.std.specs.Prelude.{◌≡◌, ◌≤◌, ◌^◌, IfOk, length};
ghost use Rattle.std.specs.Result.{IsOkUnless};
ghost use Rattle.graph_colours.specs.Colours.{all_members};
ghost use Rattle.graph_colours.specs.Given.{members_of};
ghost use Rattle.sleep_wake.specs.Acting.{acting, IsConsistent};

use crate::graph::Graph;
use crate::sets::Sets;
use crate::ties::Ties;
use crate::work::Work;
use fixed_geom::Refusal;
use graph_colours::{Colours, ConstraintId, Member};
use islands::{Islands, Label};
use std::alloc::Global;

impl<C: ConstraintId> Sets<C> {
    /// The sets of these constraints, with the islands of their movers by slot, and the constraints of each colour,
    /// those in the overflow last; `count` says how many have a colour. There is room for no more of them.
    pub fn from_parts(
        alloc: Global,
        ties: &[Member<C>],
        labels: &[Option<Label>],
        lists: &[Vec<Member<C>>],
        count: usize,
    ) -> Result<Sets<C>, Refusal>
        requires consistent { IsConsistent C.number (acting ties.now labels.now (members_of lists.now)) }
        requires few { length labels.now ≤ 2 ^ 32 }
        requires count { count ≡ length (all_members (members_of lists.now)) }
        ensures acting { IfOk result (λ made. made.acting ≡ acting ties.now labels.now (members_of lists.now)) }
        ensures room { IfOk result (λ made. made.room ≡ length ties.now) }
        ensures slots { IfOk result (λ made. made.slots ≡ length labels.now) }
        ensures pending { IfOk result (λ made. made.pending ≡ 0) }
        ensures memory_only { IsOkUnless result Refusal.NoMemory }
    {
        let slots = labels.len();
        let mut graph = Graph {
            ties: Ties::from_members(alloc, ties)?,
            colours: Colours::from_lists(alloc, lists, count, slots)?,
            islands: Islands::from_labels(alloc, labels)?,
        };
        let mut work = Work::new(alloc);
        let room = graph.reserve(0, slots)?;
        work.reserve(room, slots)?;
        Ok(Sets {
            graph,
            work,
            room,
            slots,
        })
    }
}
