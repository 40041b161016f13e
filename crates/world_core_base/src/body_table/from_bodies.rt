//! A table of bodies from a list, as a saved world has it.

ghost use Rattle.std.specs.Prelude.{◌≡◌, ◌≤◌, ℕ, true, IfOk, length, slice_index_or};
ghost use Rattle.std.specs.Result.{IsOkUnless};
ghost use Rattle.world_core_base.specs.Gather.{states_of};

use crate::body_state::state_of;
use crate::body_table::BodyTable;
use crate::covers::cover_all;
use crate::slot_list::{Group, SlotList};
use body_handles::MAX_SLOTS;
use fixed_geom::Refusal;
use momenta::BodyState;
use packed_sets::Marks;
use plain_world::{Body, copy_bodies};
use std::alloc::Global;

/// The bodies by slot as the ticks work on them.
fn list_states(alloc: Global, bodies: &[Option<Body>]) -> Result<Vec<BodyState>, Refusal>
    ensures states { IfOk result (λ states. states.items ≡ states_of bodies.now) }
    ensures memory_only { IsOkUnless result Refusal.NoMemory }
{
    let mut states = Vec::with_capacity(alloc, bodies.len())?;
    for entry in bodies {
        states.push(state_of(entry))?;
    }
    Ok(states)
}

impl BodyTable {
    /// The table with these bodies by slot, all marked, and no room for more.
    pub fn from_bodies(alloc: Global, bodies: &[Option<Body>]) -> Result<BodyTable, Refusal>
        requires few { length bodies.now ≤ MAX_SLOTS }
        ensures bodies { IfOk result (λ made. made.bodies ≡ bodies.now) }
        ensures pending { IfOk result (λ made. made.pending ≡ 0) }
        ensures all { IfOk result (λ made. (slot : ℕ) → slice_index_or made.marks slot true ≡ true) }
        ensures memory_only { IsOkUnless result Refusal.NoMemory }
    {
        let states = list_states(alloc, bodies)?;
        let awake = SlotList::from_states(alloc, Group::Awake, &states)?;
        let carried = SlotList::from_states(alloc, Group::Carried, &states)?;
        Ok(BodyTable {
            bodies: copy_bodies(alloc, bodies)?,
            states,
            awake,
            carried,
            marks: Marks::all_marked(alloc, bodies.len())?,
            boxes: cover_all(alloc, bodies)?,
            room: 0,
        })
    }
}
