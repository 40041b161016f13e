//! The rows of a step in two dense lists, colour after colour, with where each colour ends in both.

ghost use Rattle.std.specs.Prelude.{◌≡◌, ◌^◌, ◌≤◌, ◌+◌, ◌<◌, ◌∷◌, ◌++◌, [], length, map, slice_index_or, slice_set, OnOk};
ghost use Rattle.std.specs.Result.{IsOkUnless};
ghost use Rattle.fixed_geom.specs.Vectors.{plus};
ghost use Rattle.momenta.specs.Gains.{IsGain};
ghost use Rattle.colour_solver.specs.States.{AreAllStates, AreSameStates, as_vector, total};
ghost use Rattle.colour_solver.specs.Phases.{constraint_visit};
ghost use Rattle.colour_solver.specs.RowVisits.{IsPassed, passed, rows_passed, share};
ghost use Rattle.colour_solver.specs.ConstraintVisits.{AreRowsBelow, IsConstraintRow, both_visits, constraint_slots, contacts_among, joints_among};
ghost use Rattle.colour_solver.specs.declared.constraint_row.ConstraintRow.TheVariants.{Joint, Contact};
ghost use Rattle.colour_solver.specs.ColourRows.{AreEnds, all_rows, joints_first};

use crate::colour_ends::{
    ColourEnd, ColourSpan, contacts_behind, contacts_of, end_of, joints_behind, joints_of, start_of,
};
use crate::colour_passes::{pass_colour, pass_colours};
use crate::{Bounce, Phase, Solve, Visit, Warm};
use body_handles::MAX_SLOTS;
use colour_solver_base::ContactRow;
use fixed_geom::Refusal;
use joint_rows::JointRow;
use momenta::{BodyState, Gain};
use std::alloc::Global;
use std::marker::Model;

/// Rows by colour: in each its joints, and then its contacts. Contracts see those of each colour that has ended, those
/// of the next one, and for how many more rows and colours there is room.
#[derive(Drop)]
pub struct Rows {
    joints: Vec<JointRow>,
    contacts: Vec<ContactRow>,
    ends: Vec<ColourEnd>,
}

impl Model for Rows {
    ghost use Rattle.std.specs.Prelude.{◌-◌, length, map, min, vec_capacity, vec_len};
    ghost use Rattle.colour_solver.specs.declared.constraint_row.ConstraintRow.{ConstraintRow};
    ghost use Rattle.colour_solver.specs.ColourRows.{AreEnds, ColourRows, colours_of, rows_left};

    ghost Value = { ColourRows ConstraintRow };

    ghost view = { λ a. record {
      colours = colours_of (map (λ e. e.joints) a.ends.items) (map (λ e. e.contacts) a.ends.items) a.joints.items a.contacts.items;
      left = rows_left (map (λ e. e.joints) a.ends.items) (map (λ e. e.contacts) a.ends.items) a.joints.items a.contacts.items;
      room = min (vec_capacity a.joints - vec_len a.joints) (vec_capacity a.contacts - vec_len a.contacts);
      more = vec_capacity a.ends - vec_len a.ends;
    } };

    ghost invariant = { λ a. AreEnds 0 (map (λ e. e.joints) a.ends.items) (length a.joints.items) × AreEnds 0 (map (λ e. e.contacts) a.ends.items) (length a.contacts.items) };
}

impl Rows {
    /// No rows, and no colours.
    pub fn new(alloc: Global) -> Rows
        ensures colours { result.colours ≡ [] }
        ensures left { result.left ≡ [] }
    {
        Rows {
            joints: Vec::new(alloc),
            contacts: Vec::new(alloc),
            ends: Vec::new(alloc),
        }
    }

    /// Makes room for that many more rows, of either kind, and colours.
    pub fn reserve(&mut self, rows: usize, colours: usize) -> Result<(), Refusal>
        ensures room { OnOk result (rows ≤ self.new.room) }
        ensures more { OnOk result (colours ≤ self.new.more) }
        ensures colours { self.new.colours ≡ self.old.colours }
        ensures left { self.new.left ≡ self.old.left }
        ensures memory_only { IsOkUnless result Refusal.NoMemory }
    {
        self.joints.reserve(rows)?;
        self.contacts.reserve(rows)?;
        self.ends.reserve(colours)?;
        Ok(())
    }

    /// Takes all rows and colours out, and keeps their memory.
    pub fn clear(&mut self)
        ensures colours { self.new.colours ≡ [] }
        ensures left { self.new.left ≡ [] }
        ensures room { self.old.room ≤ self.new.room }
        ensures more { self.old.more ≤ self.new.more }
    {
        self.joints.clear();
        self.contacts.clear();
        self.ends.clear();
    }

    /// Adds a joint, for which there is room, to the colour that hasn't ended yet, and that has no contact yet.
    #[inline(always)]
    pub fn push_joint(&mut self, row: JointRow)
        requires room { 1 ≤ self.old.room }
        requires first { contacts_among self.old.left ≡ [] }
        ensures colours { self.new.colours ≡ self.old.colours }
        ensures left { self.new.left ≡ self.old.left ++ Joint row ∷ [] }
        ensures room { self.old.room ≤ self.new.room + 1 }
        ensures more { self.new.more ≡ self.old.more }
    {
        let _ = self.joints.push(row);
    }

    /// Adds a contact, for which there is room, to the colour that hasn't ended yet.
    #[inline(always)]
    pub fn push_contact(&mut self, row: ContactRow)
        requires { 1 ≤ self.old.room }
        ensures colours { self.new.colours ≡ self.old.colours }
        ensures left { self.new.left ≡ self.old.left ++ Contact row ∷ [] }
        ensures room { self.old.room ≤ self.new.room + 1 }
        ensures more { self.new.more ≡ self.old.more }
    {
        let _ = self.contacts.push(row);
    }

    /// Ends a colour, for which there is room: further rows are of the next one.
    pub fn end_colour(&mut self)
        requires { 1 ≤ self.old.more }
        ensures colours { self.new.colours ≡ self.old.colours ++ self.old.left ∷ [] }
        ensures left { self.new.left ≡ [] }
        ensures room { self.new.room ≡ self.old.room }
        ensures more { self.old.more ≤ self.new.more + 1 }
    {
        let _ = self.ends.push(ColourEnd {
            joints: self.joints.len(),
            contacts: self.contacts.len(),
        });
    }

    /// How many colours have ended.
    pub fn colours(&self) -> usize
        ensures { result ≡ length self.now.colours }
    {
        self.ends.len()
    }

    /// The joints of a colour that has ended.
    pub fn joints_in(&self, colour: usize) -> &[JointRow]
        requires { colour < length self.now.colours }
        ensures joints { result.now ≡ joints_among (slice_index_or self.now.colours colour []) }
        ensures order { joints_first result.now (contacts_among (slice_index_or self.now.colours colour [])) ≡ slice_index_or self.now.colours colour [] }
    {
        joints_of(&self.joints, &self.ends, colour)
    }

    /// The contacts of a colour that has ended.
    pub fn contacts_in(&self, colour: usize) -> &[ContactRow]
        requires { colour < length self.now.colours }
        ensures contacts { result.now ≡ contacts_among (slice_index_or self.now.colours colour []) }
    {
        contacts_of(&self.contacts, &self.ends, colour)
    }

    /// The joints that have no colour.
    pub fn joints_left(&self) -> &[JointRow]
        ensures joints { result.now ≡ joints_among self.now.left }
        ensures order { joints_first result.now (contacts_among self.now.left) ≡ self.now.left }
    {
        joints_behind(&self.joints, &self.ends)
    }

    /// The contacts that have no colour.
    pub fn contacts_left(&self) -> &[ContactRow]
        ensures contacts { result.now ≡ contacts_among self.now.left }
    {
        contacts_behind(&self.contacts, &self.ends)
    }

    /// One pass over the rows of one colour.
    #[inline(always)]
    fn pass_one<J: Visit<JointRow>, C: Visit<ContactRow>>(
        &mut self,
        colour: usize,
        states: &mut Vec<BodyState>,
        joint_visit: &J,
        contact_visit: &C,
    ) -> Gain
        requires colour { colour < length self.old.colours }
        requires few { length states.old.items ≤ MAX_SLOTS }
        requires states { AreAllStates states.old.items }
        requires rows { AreRowsBelow (length states.old.items) (all_rows self.old) }
        ensures passed { IsPassed constraint_slots IsConstraintRow (both_visits (J.visit joint_visit.now) (C.visit contact_visit.now)) states.old.items (slice_index_or self.old.colours colour []) states.new.items (slice_index_or self.new.colours colour []) (as_vector result) }
        ensures colours { self.new.colours ≡ slice_set self.old.colours colour (slice_index_or self.new.colours colour []) }
        ensures left { self.new.left ≡ self.old.left }
        ensures rows { AreRowsBelow (length states.new.items) (all_rows self.new) }
        ensures small { IsGain (2 ^ 78) result }
    {
        let start = start_of(&self.ends, colour);
        let end = end_of(&self.ends, colour);
        pass_colour(
            states,
            &mut self.joints,
            &mut self.contacts,
            ColourSpan { start, end },
            joint_visit,
            contact_visit,
        )
    }

    /// One pass over the rows of a colour that has ended, and over no others. Answers what immovable bodies have given
    /// to the movers (mass·u/tick).
    pub fn pass_in(&mut self, colour: usize, states: &mut Vec<BodyState>, phase: Phase) -> Gain
        requires colour { colour < length self.old.colours }
        requires few { length states.old.items ≤ MAX_SLOTS }
        requires states { AreAllStates states.old.items }
        requires rows { AreRowsBelow (length states.old.items) (all_rows self.old) }
        ensures passed { IsPassed constraint_slots IsConstraintRow (constraint_visit phase) states.old.items (slice_index_or self.old.colours colour []) states.new.items (slice_index_or self.new.colours colour []) (as_vector result) }
        ensures colours { self.new.colours ≡ slice_set self.old.colours colour (slice_index_or self.new.colours colour []) }
        ensures left { self.new.left ≡ self.old.left }
        ensures rows { AreRowsBelow (length states.new.items) (all_rows self.new) }
        ensures small { IsGain (2 ^ 78) result }
    {
        match phase {
            Phase::Warm => self.pass_one(colour, states, &Warm, &Warm),
            Phase::Solve => self.pass_one(colour, states, &Solve, &Solve),
            Phase::Bounce => self.pass_one(colour, states, &Bounce, &Bounce),
        }
    }

    /// The rows of all joints, in solve order.
    pub fn joints(&self) -> &[JointRow]
        ensures { result.now ≡ joints_among (all_rows self.now) }
    {
        self.joints.as_slice()
    }

    /// The rows of all contacts, in solve order.
    pub fn contacts(&self) -> &[ContactRow]
        ensures { result.now ≡ contacts_among (all_rows self.now) }
    {
        self.contacts.as_slice()
    }

    /// One pass over all rows in solve order, the one visit made of joints and the other of contacts, each with the
    /// bodies as those before it left them; each row stays in its colour. Answers what immovable bodies have given to
    /// the movers (mass·u/tick).
    pub fn pass<J: Visit<JointRow>, C: Visit<ContactRow>>(
        &mut self,
        states: &mut Vec<BodyState>,
        joint_visit: &J,
        contact_visit: &C,
    ) -> Gain
        requires few { length states.old.items ≤ MAX_SLOTS }
        requires states { AreAllStates states.old.items }
        requires rows { AreRowsBelow (length states.old.items) (all_rows self.old) }
        ensures states { states.new.items ≡ passed constraint_slots (both_visits (J.visit joint_visit.now) (C.visit contact_visit.now)) states.old.items (all_rows self.old) }
        ensures rows { all_rows self.new ≡ rows_passed constraint_slots (both_visits (J.visit joint_visit.now) (C.visit contact_visit.now)) states.old.items (all_rows self.old) }
        ensures colours { map length self.new.colours ≡ map length self.old.colours }
        ensures share { as_vector result ≡ share constraint_slots (both_visits (J.visit joint_visit.now) (C.visit contact_visit.now)) states.old.items (all_rows self.old) }
        ensures all_states { AreAllStates states.new.items }
        ensures all_rows { AreRowsBelow (length states.new.items) (all_rows self.new) }
        ensures long { length states.new.items ≡ length states.old.items }
        ensures same { AreSameStates states.old.items states.new.items }
        ensures momentum { total states.new.items ≡ plus (total states.old.items) (as_vector result) }
        ensures small { IsGain (2 ^ 78) result }
    {
        pass_colours(
            states,
            &mut self.joints,
            &mut self.contacts,
            &self.ends,
            joint_visit,
            contact_visit,
        )
    }
}
