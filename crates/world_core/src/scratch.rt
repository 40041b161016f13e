//! Lists that a step fills, for which there is room before it changes anything.

ghost use Rattle.std.specs.Prelude.{◌≡◌, ◌<◌, ◌≤◌, ◌+◌, ◌++◌, ◌∷◌, [], OnOk, length, vec_len, vec_capacity};
ghost use Rattle.std.specs.Result.{IsOkUnless};
ghost use Rattle.world_core.specs.Waking.{slots_of};

use body_handles::Handle;
use fixed_geom::Refusal;
use std::alloc::Global;

/// The movers' timers by slot, the awake flags by island, the handles of the bodies that woke and of those that fell
/// asleep, and the slots of either. Their memory is kept from step to step.
#[derive(Drop)]
pub(crate) struct Scratch {
    pub timers: Vec<u64>,
    pub awake_flags: Vec<bool>,
    pub woke: Vec<Handle>,
    pub slept: Vec<Handle>,
    pub slots: Vec<u32>,
}

/// Empties a list, and makes room in it for so many items.
fn make_room<T: Drop>(list: &mut Vec<T>, count: usize) -> Result<(), Refusal>
    ensures room { OnOk result (count ≤ vec_capacity list.new) }
    ensures memory_only { IsOkUnless result Refusal.NoMemory }
{
    list.clear();
    list.reserve(count)?;
    Ok(())
}

/// Makes room in a list for so many items in all, and leaves those that are in it.
fn keep_room<T: Drop>(list: &mut Vec<T>, count: usize) -> Result<(), Refusal>
    ensures room { OnOk result (count ≤ vec_capacity list.new) }
    ensures memory_only { IsOkUnless result Refusal.NoMemory }
{
    if list.len() < count {
        list.reserve(count - list.len())?;
    }
    Ok(())
}

/// Adds a slot behind the others, for which there is room.
fn push_slot(slots: &mut Vec<u32>, slot: u32)
    requires { vec_len slots.old < vec_capacity slots.old }
    ensures items { slots.new.items ≡ slots.old.items ++ slot ∷ [] }
    ensures len { vec_len slots.new ≤ vec_len slots.old + 1 }
    ensures capacity { vec_capacity slots.old ≤ vec_capacity slots.new }
{
    let _ = slots.push(slot);
}

/// Lists the slots of the bodies with these handles, for which there is room.
pub(crate) fn fill_slots(slots: &mut Vec<u32>, handles: &[Handle])
    requires { length handles.now ≤ vec_capacity slots.old }
    ensures slots { slots.new.items ≡ slots_of handles.now }
    ensures capacity { vec_capacity slots.old ≤ vec_capacity slots.new }
{
    slots.clear();
    for place in 0..handles.len() {
        push_slot(slots, handles[place].slot);
    }
}

impl Scratch {
    /// Lists with no room.
    pub fn new(alloc: Global) -> Scratch {
        Scratch {
            timers: Vec::new(alloc),
            awake_flags: Vec::new(alloc),
            woke: Vec::new(alloc),
            slept: Vec::new(alloc),
            slots: Vec::new(alloc),
        }
    }

    /// Makes room for so many slots in each list but that of those who woke, who are so many at most. Timers and flags
    /// stay: of these a step writes down the awake movers', and what else is in the two lists means nothing.
    pub fn make_room(&mut self, slots: usize, woke: usize) -> Result<(), Refusal>
        ensures timers { OnOk result (slots ≤ vec_capacity self.new.timers) }
        ensures awake_flags { OnOk result (slots ≤ vec_capacity self.new.awake_flags) }
        ensures woke { OnOk result (woke ≤ vec_capacity self.new.woke) }
        ensures slept { OnOk result (slots ≤ vec_capacity self.new.slept) }
        ensures slots { OnOk result (slots ≤ vec_capacity self.new.slots) }
        ensures memory_only { IsOkUnless result Refusal.NoMemory }
    {
        keep_room(&mut self.timers, slots)?;
        keep_room(&mut self.awake_flags, slots)?;
        make_room(&mut self.woke, woke)?;
        make_room(&mut self.slept, slots)?;
        make_room(&mut self.slots, slots)
    }
}
