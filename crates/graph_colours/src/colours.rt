//! The colours and the overflow.

mod from_lists;

ghost use Rattle.std.specs.Prelude.{◌≡◌, ◌≢◌, ◌<◌, ◌≤◌, ◌+◌, ◌∷◌, length, replicate, [], Some, None, OnOk, OnErr, IfOk};
ghost use Rattle.std.specs.Result.{IsOkUnless};
ghost use Rattle.std.specs.List.Sorted.{IsPermutation};
ghost use Rattle.graph_colours.specs.declared.limits.TheConstants.{COLOURS};
ghost use Rattle.graph_colours.specs.Movers.{AreBelow};
ghost use Rattle.graph_colours.specs.Members.{AreRising, AreApart, without_member};
ghost use Rattle.graph_colours.specs.Graph.{lists_of, IsGraph};
ghost use Rattle.graph_colours.specs.Own.{AreOwn};
ghost use Rattle.graph_colours.specs.Colours.{list_at, all_members, least_colour, with_placed, released, IsColouring};
ghost use Rattle.graph_colours.specs.FoundMembers.{colour_of};

use crate::edited::EditedList;
use crate::limits::OVERFLOW;
use crate::lists::{copies, first_with, flush_all, no_lists, remove_from_first, reserve_all};
use crate::taken_colours::{first_free, grow, set_colour_bits};
use crate::{ConstraintId, Member, Movers};
use fixed_geom::Refusal;
use std::alloc::Global;
use std::marker::Model;

/// The active constraints by colour. A constraint that takes its colour, or gives it up, may be put off in the list of
/// its colour until [`Colours::flush`], so that it doesn't cost by how many others there are. Contracts see the members
/// of each colour, ascending by id (`lists`), how many more constraints may be placed with no memory (`room`), the
/// bound below which their movers' slots must be (`slots`), and whether edits may be put off (`pending`): if it is 0,
/// none is.
#[derive(Drop)]
pub struct Colours<C: ConstraintId> {
    // The members of each colour and, last, those in the overflow.
    lists: Vec<EditedList<C>>,
    // For each slot the bits of the colours that have the mover there.
    words: Vec<u32>,
    // Where the members of a list lie while it is edited.
    spare: Vec<Member<C>>,
    size: Size,
    // Whether no edit of a list is put off.
    flushed: bool,
}

/// How many constraints there are, for how many in all each list has room, and the bound below which their movers'
/// slots are.
#[derive(Clone, Copy)]
struct Size {
    count: usize,
    total: usize,
    slots: usize,
}

impl<C: ConstraintId> Model for Colours<C> {
    ghost use Rattle.std.specs.Prelude.{◌-◌, cond};
    ghost use Rattle.graph_colours.specs.Colours.{Coloured};
    ghost use Rattle.graph_colours.specs.Graph.{lists_of, IsKeptGraph};

    ghost Value = { Coloured C };

    ghost view = { λ a. record { lists = lists_of a.lists.items; room = a.size.total - a.size.count; slots = a.size.slots; pending = cond a.flushed 0 1 } };

    ghost invariant = { λ a. IsKeptGraph C.number a.lists.items a.words.items a.size a.flushed };
}

/// The constraint takes the least colour that is free, and answers its place.
fn place_in<C: ConstraintId>(
    lists: &mut Vec<EditedList<C>>,
    words: &mut Vec<u32>,
    size: Size,
    member: Member<C>,
    spare: &mut Vec<Member<C>>,
) -> usize
    requires graph { IsGraph C.number lists.old.items words.old.items size }
    requires absent { colour_of C.number member.id (lists_of lists.old.items) ≡ None }
    requires below { AreBelow size.slots member.movers }
    requires room { size.count < size.total }
    ensures colour { result ≡ least_colour (lists_of lists.old.items) member.movers }
    ensures most { result ≤ COLOURS }
    ensures lists { lists_of lists.new.items ≡ with_placed C.number member (lists_of lists.old.items) }
    ensures graph { IsGraph C.number lists.new.items words.new.items (record { count = size.count + 1; total = size.total; slots = size.slots }) }
{
    let colour = first_free(words, member.movers);
    lists[colour].insert(member, spare);
    set_colour_bits(words, colour, member.movers, true);
    colour
}

/// The constraint gives up its colour. Answers the numbers then.
fn release_in<C: ConstraintId>(
    lists: &mut Vec<EditedList<C>>,
    words: &mut Vec<u32>,
    size: Size,
    id: C,
    movers: Option<Movers>,
    spare: &mut Vec<Member<C>>,
) -> Size
    requires graph { IsGraph C.number lists.old.items words.old.items size }
    requires own { AreOwn C.number id movers (all_members (lists_of lists.old.items)) }
    ensures lists { lists_of lists.new.items ≡ released C.number id (lists_of lists.old.items) }
    ensures graph { IsGraph C.number lists.new.items words.new.items result }
    ensures total { result.total ≡ size.total }
    ensures slots { result.slots ≡ size.slots }
{
    let gone = remove_from_first(lists, words, id, movers, spare);
    Size {
        count: size.count - gone,
        ..size
    }
}

impl<C: ConstraintId> Colours<C> {
    /// No constraints.
    pub fn new(alloc: Global) -> Result<Colours<C>, Refusal>
        ensures lists { IfOk result (λ made. made.lists ≡ replicate (COLOURS + 1) []) }
        ensures room { IfOk result (λ made. made.room ≡ 0) }
        ensures slots { IfOk result (λ made. made.slots ≡ 0) }
        ensures pending { IfOk result (λ made. made.pending ≡ 0) }
        ensures memory_only { IsOkUnless result Refusal.NoMemory }
    {
        Ok(Colours {
            lists: no_lists(alloc)?,
            words: Vec::new(alloc),
            spare: Vec::new(alloc),
            size: Size {
                count: 0,
                total: 0,
                slots: 0,
            },
            flushed: true,
        })
    }

    /// A copy of its own, with no room.
    pub fn try_copy(&self) -> Result<Colours<C>, Refusal>
        ensures lists { IfOk result (λ copied. copied.lists ≡ self.now.lists) }
        ensures room { IfOk result (λ copied. copied.room ≡ 0) }
        ensures slots { IfOk result (λ copied. copied.slots ≡ 0) }
        ensures pending { IfOk result (λ copied. copied.pending ≡ 0) }
        ensures memory_only { IsOkUnless result Refusal.NoMemory }
    {
        let alloc = *self.spare.allocator();
        let mut lists = copies(alloc, &self.lists)?;
        reserve_all(&mut lists, self.size.count)?;
        Ok(Colours {
            lists,
            words: Vec::from_slice(alloc, self.words.as_slice())?,
            spare: Vec::new(alloc),
            size: Size {
                count: self.size.count,
                total: self.size.count,
                slots: 0,
            },
            flushed: true,
        })
    }

    /// How many constraints there are.
    pub fn count(&self) -> usize
        ensures value { result ≡ length (all_members self.now.lists) }
        ensures colouring { IsColouring C.number self.now.lists }
    {
        self.size.count
    }

    /// Makes room for that many more constraints, whose movers' slots are below `slots`. Changes no list.
    pub fn reserve(&mut self, constraints: usize, slots: usize) -> Result<(), Refusal>
        ensures room_made { OnOk result (constraints ≤ self.new.room) }
        ensures slots_made { OnOk result (slots ≤ self.new.slots) }
        ensures room { self.old.room ≤ self.new.room }
        ensures slots { self.old.slots ≤ self.new.slots }
        ensures lists { self.new.lists ≡ self.old.lists }
        ensures pending { self.new.pending ≡ self.old.pending }
        ensures refused { OnErr result (self.new ≡ self.old) }
        ensures memory_only { IsOkUnless result Refusal.NoMemory }
    {
        let Some(total) = self.size.count.checked_add(constraints) else {
            return Err(Refusal::NoMemory);
        };
        self.spare.clear();
        self.spare.reserve(total)?;
        reserve_all(&mut self.lists, total)?;
        grow(&mut self.words, slots)?;
        self.size.total = self.size.total.max(total);
        self.size.slots = self.size.slots.max(slots);
        Ok(())
    }

    /// Gives the constraint the least colour none of whose members shares a mover with it, else
    /// `OVERFLOW`, and answers that colour. No other constraint's colour changes.
    pub fn place(&mut self, id: C, movers: Movers) -> u8
        requires absent { colour_of C.number id self.old.lists ≡ None }
        requires below { AreBelow self.old.slots movers }
        requires room { 1 ≤ self.old.room }
        ensures colour { result ≡ least_colour self.old.lists movers }
        ensures lists { self.new.lists ≡ with_placed C.number (record { id = id; movers = movers }) self.old.lists }
        ensures room { self.old.room ≡ self.new.room + 1 }
        ensures total { self.new.room + length (all_members self.new.lists) ≡ self.old.room + length (all_members self.old.lists) }
        ensures slots { self.new.slots ≡ self.old.slots }
        ensures keeps { IsColouring C.number self.new.lists }
        ensures own { colour_of C.number id self.new.lists ≡ Some result }
        ensures others { (other : C) → C.number other ≢ C.number id → colour_of C.number other self.new.lists ≡ colour_of C.number other self.old.lists }
        ensures members { IsPermutation (record { id = id; movers = movers } ∷ all_members self.old.lists) (all_members self.new.lists) }
    {
        self.flushed = false;
        let colour = place_in(
            &mut self.lists,
            &mut self.words,
            self.size,
            Member { id, movers },
            &mut self.spare,
        );
        self.size.count += 1;
        colour as u8
    }

    /// Takes the constraint out of its colour; one that has none changes nothing. No other
    /// constraint's colour changes.
    pub fn release(&mut self, id: C)
        ensures lists { self.new.lists ≡ released C.number id self.old.lists }
        ensures room { self.old.room ≤ self.new.room }
        ensures total { self.new.room + length (all_members self.new.lists) ≡ self.old.room + length (all_members self.old.lists) }
        ensures slots { self.new.slots ≡ self.old.slots }
        ensures keeps { IsColouring C.number self.new.lists }
        ensures own { colour_of C.number id self.new.lists ≡ None }
        ensures others { (other : C) → C.number other ≢ C.number id → colour_of C.number other self.new.lists ≡ colour_of C.number other self.old.lists }
        ensures members { all_members self.new.lists ≡ without_member C.number id (all_members self.old.lists) }
    {
        self.flushed = false;
        self.size = release_in(
            &mut self.lists,
            &mut self.words,
            self.size,
            id,
            None,
            &mut self.spare,
        );
    }

    /// The constraint, whose movers are told, gives up its colour, if it has one. Only colours that have all its movers
    /// are looked at.
    pub fn release_member(&mut self, member: Member<C>)
        requires own { AreOwn C.number member.id (Some member.movers) (all_members self.old.lists) }
        ensures lists { self.new.lists ≡ released C.number member.id self.old.lists }
        ensures total { self.new.room + length (all_members self.new.lists) ≡ self.old.room + length (all_members self.old.lists) }
        ensures slots { self.new.slots ≡ self.old.slots }
    {
        self.flushed = false;
        self.size = release_in(
            &mut self.lists,
            &mut self.words,
            self.size,
            member.id,
            Some(member.movers),
            &mut self.spare,
        );
    }

    /// Makes the edits of all lists that were put off. It costs nothing where none is.
    pub fn flush(&mut self)
        ensures lists { self.new.lists ≡ self.old.lists }
        ensures room { self.new.room ≡ self.old.room }
        ensures slots { self.new.slots ≡ self.old.slots }
        ensures pending { self.new.pending ≡ 0 }
    {
        if self.flushed {
            return;
        }
        flush_all(&mut self.lists, &mut self.spare);
        self.flushed = true;
    }

    /// What every colouring keeps: a law.
    pub fn know_colouring(&self)
        ensures { IsColouring C.number self.now.lists }
    {
        let _ = self.count();
    }

    /// The colour of the constraint, 0 to `OVERFLOW`; `None` where it has none.
    pub fn colour_of(&self, id: C) -> Option<u8>
        ensures { result ≡ colour_of C.number id self.now.lists }
    {
        let colour = first_with(&self.lists, id);
        if colour < self.lists.len() {
            Some(colour as u8)
        } else {
            None
        }
    }

    /// The members of a colour, 0 to `OVERFLOW`, ascending by id.
    pub fn to_members(&self, colour: u8) -> Result<Vec<Member<C>>, Refusal>
        requires { colour ≤ OVERFLOW }
        ensures value { IfOk result (λ members. members.items ≡ list_at self.now.lists colour) }
        ensures memory_only { IsOkUnless result Refusal.NoMemory }
    {
        let room = Vec::new(*self.spare.allocator());
        self.lists[colour as usize].to_members(room)
    }

    /// The members of a colour, 0 to `OVERFLOW`, ascending by id, where no edit is put off.
    pub fn members(&self, colour: u8) -> &[Member<C>]
        requires flushed { self.now.pending ≡ 0 }
        requires colour { colour ≤ OVERFLOW }
        ensures value { result.now ≡ list_at self.now.lists colour }
        ensures rising { AreRising C.number result.now }
        ensures apart { colour < OVERFLOW → AreApart result.now }
        ensures colouring { IsColouring C.number self.now.lists }
    {
        self.lists[colour as usize].as_slice()
    }
}
