//! Bodies that come into a table, change there, and go.

ghost use Rattle.std.specs.Prelude.{◌≡◌, ◌+◌, ◌-◌, ◌<◌, ◌≤◌, ◌^◌, None, false, OnOk, length, slice_set, vec_len, vec_capacity};
ghost use Rattle.std.specs.Option.{ForSome};
ghost use Rattle.std.specs.Result.{IsOkUnless};
ghost use Rattle.box_tree.specs.BoxLists.{box_at};
ghost use Rattle.colour_solver.specs.States.{is_carried, moves};
ghost use Rattle.world_core_base.specs.Awake.{with_state};
ghost use Rattle.world_core_base.specs.Listing.{IsRelisted};
ghost use Rattle.world_core_base.specs.Gather.{state_of};
ghost use Rattle.world_core_base.specs.Covers.{IsCover};
ghost use Rattle.world_core_base.specs.Marked.{AreMarked, AreMoreMarks};
ghost use Rattle.world_core_base.specs.Asleep.{SleepAlike};
ghost use Rattle.plain_world.specs.Changes.{changed_at, disabled_body, enabled_body};
ghost use Rattle.plain_world.specs.Slots.{body_at, with_body};

use crate::body_state::{body_state, state_of};
use crate::body_table::BodyTable;
use crate::covers::{cover, cover_again, uncover};
use crate::slot_list::{Group, SlotList};
use fixed_geom::Refusal;
use momenta::{BodyState, NOBODY};
use packed_sets::Marks;
use plain_world::{Body, BodyChange, change_slot, clear_slot, disable_slot, enable_slot, put_item};

/// Puts a state into a slot, or into a new one at the end, for which there is room.
fn put_state(states: &mut Vec<BodyState>, slot: usize, state: BodyState)
    requires { 1 ≤ vec_capacity states.old - vec_len states.old }
    ensures { states.new.items ≡ with_state states.old.items slot state }
{
    if slot < states.len() {
        states[slot] = state;
    } else {
        let _ = states.push(state);
    }
}

/// Takes the state in a slot anew from the body there.
fn renew_state(states: &mut Vec<BodyState>, bodies: &[Option<Body>], slot: usize)
    requires bodies { slot < length bodies.now }
    requires states { slot < length states.old.items }
    ensures { states.new.items ≡ slice_set states.old.items slot (state_of (body_at bodies.now slot)) }
{
    states[slot] = state_of(&bodies[slot]);
}

/// Sees to n marks, where all but one are there at least: a new one is marked.
fn reserve_mark(marks: &mut Marks, n: usize) -> Result<(), Refusal>
    requires { n ≤ length marks.old + 1 }
    ensures made { OnOk result (n ≤ length marks.new) }
    ensures more { AreMoreMarks marks.old marks.new }
    ensures len { length marks.old ≤ length marks.new }
    ensures memory_only { IsOkUnless result Refusal.NoMemory }
{
    if marks.len() < n {
        marks.grow()?;
    }
    Ok(())
}

/// Lists the slot, where its body is an awake mover or is carried along now, and takes it out where it isn't: that may
/// be put off.
fn relist(awake: &mut SlotList, carried: &mut SlotList, states: &[BodyState], slot: u32)
    requires few { length states.now ≤ 2 ^ 32 }
    requires for_awake { length states.now ≤ awake.old.capacity }
    requires for_carried { length states.now ≤ carried.old.capacity }
    ensures awake { IsRelisted moves states.now slot awake.old awake.new }
    ensures carried { IsRelisted is_carried states.now slot carried.old carried.new }
    ensures awake_capacity { awake.new.capacity ≡ awake.old.capacity }
    ensures carried_capacity { carried.new.capacity ≡ carried.old.capacity }
{
    awake.relist(Group::Awake, states, slot);
    carried.relist(Group::Carried, states, slot);
}

impl BodyTable {
    /// Makes room for a body that is to come into this slot.
    pub fn reserve_one(&mut self, slot: u32, body: &Body) -> Result<(), Refusal>
        requires next { slot ≤ length self.old.bodies }
        requires free { body_at self.old.bodies slot ≡ None }
        ensures bodies { self.new.bodies ≡ self.old.bodies }
        ensures room { OnOk result (1 ≤ self.new.room) }
        ensures covered { OnOk result (IsCover (box_at self.new.boxes slot) body.now.fats) }
        ensures marked { AreMarked self.old self.new }
        ensures memory_only { IsOkUnless result Refusal.NoMemory }
    {
        self.room = 0;
        self.bodies.reserve(1)?;
        self.states.reserve(1)?;
        self.awake.reserve(self.bodies.len() + 1)?;
        self.carried.reserve(self.bodies.len() + 1)?;
        reserve_mark(&mut self.marks, self.bodies.len() + 1)?;
        cover(&mut self.boxes, slot, body.fats.as_slice())?;
        self.room = 1;
        Ok(())
    }

    /// Puts a body into an empty slot, or into a new one at the end, for which there is room.
    pub fn put(&mut self, slot: u32, body: Body)
        requires room { 1 ≤ self.old.room }
        requires next { slot ≤ length self.old.bodies }
        requires free { body_at self.old.bodies slot ≡ None }
        requires covered { IsCover (box_at self.old.boxes slot) body.fats }
        ensures bodies { self.new.bodies ≡ with_body self.old.bodies slot body }
        ensures marked { AreMarked self.old self.new }
    {
        let state = body_state(&body);
        self.room = 0;
        self.marks.mark(slot);
        put_state(&mut self.states, slot as usize, state);
        put_item(&mut self.bodies, slot as usize, body);
        relist(&mut self.awake, &mut self.carried, &self.states, slot);
    }

    /// Empties a slot.
    pub fn clear(&mut self, slot: u32)
        requires slot { slot < length self.old.bodies }
        ensures bodies { self.new.bodies ≡ slice_set self.old.bodies slot None }
        ensures marked { AreMarked self.old self.new }
    {
        self.room = 0;
        self.marks.mark(slot);
        uncover(&mut self.boxes, slot);
        self.states[slot as usize] = NOBODY;
        clear_slot(&mut self.bodies, slot as usize);
        relist(&mut self.awake, &mut self.carried, &self.states, slot);
    }

    /// Makes a change to the body in a slot, if one is there.
    pub fn change<C: BodyChange>(&mut self, slot: u32, change: &C)
        requires slot { slot < length self.old.bodies }
        requires fits { ForSome (body_at self.old.bodies slot) (C.fits change.now) }
        ensures bodies { self.new.bodies ≡ changed_at (C.after change.now) self.old.bodies slot }
        ensures asleep { SleepAlike self.old.bodies self.new.bodies }
        ensures marked { AreMarked self.old self.new }
    {
        self.room = 0;
        let made = change.moves();
        self.marks.mark_if(slot, made);
        change_slot(&mut self.bodies, slot as usize, change);
        renew_state(&mut self.states, &self.bodies, slot as usize);
        cover_again(&mut self.boxes, slot, &self.bodies[slot as usize], made);
    }

    /// Disables the body in a slot, if one is there: it comes to a halt.
    pub fn disable(&mut self, slot: u32)
        requires slot { slot < length self.old.bodies }
        ensures bodies { self.new.bodies ≡ changed_at disabled_body self.old.bodies slot }
        ensures marked { AreMarked self.old self.new }
    {
        self.room = 0;
        self.marks.mark(slot);
        disable_slot(&mut self.bodies, slot as usize);
        renew_state(&mut self.states, &self.bodies, slot as usize);
        relist(&mut self.awake, &mut self.carried, &self.states, slot);
    }

    /// Enables the body in a slot, if one is there, which is disabled: a mover is awake, and its timer 0. Takes no
    /// memory.
    pub fn enable(&mut self, slot: u32)
        requires slot { slot < length self.old.bodies }
        requires disabled { ForSome (body_at self.old.bodies slot) (λ b. b.enabled ≡ false) }
        ensures bodies { self.new.bodies ≡ changed_at enabled_body self.old.bodies slot }
        ensures marked { AreMarked self.old self.new }
    {
        self.room = 0;
        self.marks.mark(slot);
        enable_slot(&mut self.bodies, slot as usize);
        renew_state(&mut self.states, &self.bodies, slot as usize);
        relist(&mut self.awake, &mut self.carried, &self.states, slot);
    }
}
