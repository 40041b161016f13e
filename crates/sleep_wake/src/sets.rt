//! The constraints, islands and colours of a world, kept together.

mod changing;
mod from_parts;
mod sleeping;
mod waking;

ghost use Rattle.std.specs.Prelude.{◌≡◌, ◌<◌, ◌≤◌, ◌+◌, true, length, filter, replicate, [], Contains, IfOk, OnOk, OnErr, None, option_map};
ghost use Rattle.std.specs.Result.{IsOkUnless};
ghost use Rattle.graph_colours.specs.declared.limits.TheConstants.{COLOURS};
ghost use Rattle.graph_colours.specs.declared.member.Member.{Member as TheMember};
ghost use Rattle.graph_colours.specs.Members.{AreRising};
ghost use Rattle.graph_colours.specs.FoundMembers.{has_id};
ghost use Rattle.graph_colours.specs.Movers.{has_mover};
ghost use Rattle.islands.specs.Labels.{label_at};
ghost use Rattle.sleep_wake.specs.Acting.{acting, is_mover_awake, are_awake, IsConsistent};
ghost use Rattle.sleep_wake.specs.Bodies.{mover_made, mover_gone};
ghost use Rattle.sleep_wake.specs.Widened.{widened};
ghost use Rattle.sleep_wake.specs.AwakeSlots.{AreAwakeSlots};
ghost use Rattle.sleep_wake.specs.Sleeping.{name_at, sleeping_names};
ghost use Rattle.sleep_wake.specs.Sources.{TellsAsleep};

use crate::graph::Graph;
use crate::listing::list_awake;
use crate::movers_in_islands::{are_awake, is_awake};
use crate::names::list_names;
use crate::tie_source::TieSource;
use crate::ties::Ties;
use crate::work::Work;
use fixed_geom::Refusal;
use graph_colours::{Colours, ConstraintId, Member, Movers};
use islands::{Islands, Label};
use std::alloc::Global;
use std::marker::Model;

/// All constraints between movers, awake or asleep, with the islands of the movers and the colours of the constraints
/// that act. Which constraints an island has is told by a source ([`TieSource`]). What changes in lists of constraints
/// may be put off, so that it doesn't cost by how many there are. Contracts see these three once all is done
/// (`acting`), how many constraints may stand with no memory, those that do counted (`room`), the bound below which a
/// mover's slot must be (`slots`), and whether edits of the colours may be put off until [`Sets::flush`] (`pending`):
/// if it is 0, none is. Only `new`, `try_copy`, `reserve`, `names_of`, `list_ties` and `awake_slots` can be refused
/// memory.
#[derive(Drop)]
pub struct Sets<C: ConstraintId> {
    graph: Graph<C>,
    work: Work<C>,
    room: usize,
    slots: usize,
}

impl<C: ConstraintId> Model for Sets<C> {
    ghost use Rattle.std.specs.Prelude.{vec_capacity};
    ghost use Rattle.sleep_wake.specs.Acting.{acting};
    ghost use Rattle.sleep_wake.specs.Standing.{Standing, IsStanding};

    ghost Value = { Standing C };

    ghost view = { λ a. record { acting = acting a.graph.ties.items a.graph.islands.labels a.graph.colours.lists; room = a.room; slots = a.slots; pending = a.graph.colours.pending } };

    ghost invariant = { λ a. IsStanding C.number (acting a.graph.ties.items a.graph.islands.labels a.graph.colours.lists) a.room a.slots (record { ties = a.graph.ties.capacity; colours = a.graph.colours.room; colour_slots = a.graph.colours.slots; islands = a.graph.islands.room; edges = vec_capacity a.work.edges; scratch_slots = a.work.scratch.slots; links = a.work.scratch.links; gathering_ties = a.work.gathering.ties; gathering_slots = a.work.gathering.slots; leasts = vec_capacity a.work.leasts }) };
}

impl<C: ConstraintId> Sets<C> {
    /// No movers and no constraints, and room for none.
    pub fn new(alloc: Global) -> Result<Sets<C>, Refusal>
        ensures acting { IfOk result (λ made. made.acting ≡ acting [] [] (replicate (COLOURS + 1) [])) }
        ensures room { IfOk result (λ made. made.room ≡ 0) }
        ensures slots { IfOk result (λ made. made.slots ≡ 0) }
        ensures pending { IfOk result (λ made. made.pending ≡ 0) }
        ensures memory_only { IsOkUnless result Refusal.NoMemory }
    {
        Ok(Sets {
            graph: Graph {
                ties: Ties::new(alloc),
                colours: Colours::new(alloc)?,
                islands: Islands::new(alloc),
            },
            work: Work::new(alloc),
            room: 0,
            slots: 0,
        })
    }

    /// A copy of its own, with room for the constraints that it has.
    pub fn try_copy(&self) -> Result<Sets<C>, Refusal>
        ensures acting { IfOk result (λ copied. copied.acting ≡ self.now.acting) }
        ensures room { IfOk result (λ copied. copied.room ≡ length self.now.acting.ties) }
        ensures slots { IfOk result (λ copied. copied.slots ≡ self.now.slots) }
        ensures pending { IfOk result (λ copied. copied.pending ≡ 0) }
        ensures memory_only { IsOkUnless result Refusal.NoMemory }
    {
        let alloc = *self.work.spare.allocator();
        let mut graph = self.graph.try_copy(alloc)?;
        let mut work = Work::new(alloc);
        let room = graph.reserve(0, self.slots)?;
        work.reserve(room, self.slots)?;
        Ok(Sets {
            graph,
            work,
            room,
            slots: self.slots,
        })
    }

    /// Makes room for that many more constraints, and for movers in slots below `slots`.
    pub fn reserve(&mut self, constraints: usize, slots: usize) -> Result<(), Refusal>
        ensures room_made { OnOk result (length self.old.acting.ties + constraints ≤ self.new.room) }
        ensures slots_made { OnOk result (slots ≤ self.new.slots) }
        ensures acting { self.new.acting ≡ self.old.acting }
        ensures room { self.old.room ≤ self.new.room }
        ensures slots { self.old.slots ≤ self.new.slots }
        ensures pending { self.new.pending ≡ self.old.pending }
        ensures refused { OnErr result (self.new ≡ self.old) }
        ensures memory_only { IsOkUnless result Refusal.NoMemory }
    {
        let room = self.graph.reserve(constraints, slots)?;
        self.work.reserve(room, slots)?;
        self.room = self.room.max(room);
        self.slots = self.slots.max(slots);
        Ok(())
    }

    // ---- what there is

    /// How many constraints there are, whether their movers are awake or asleep.
    pub fn tie_count(&self) -> usize
        ensures value { result ≡ length self.now.acting.ties }
        ensures consistent { IsConsistent C.number self.now.acting }
        ensures enough { length self.now.acting.ties ≤ self.now.room }
    {
        self.graph.ties.len()
    }

    /// All constraints, ascending by number, in the memory of `room`, whatever is in it.
    pub fn list_ties(&self, room: Vec<Member<C>>) -> Result<Vec<Member<C>>, Refusal>
        ensures items { IfOk result (λ ties. ties.items ≡ self.now.acting.ties) }
        ensures rising { IfOk result (λ ties. AreRising C.number ties.items) }
        ensures memory_only { IsOkUnless result Refusal.NoMemory }
    {
        self.graph.ties.to_members(room)
    }

    /// What holds of all sets: a law.
    pub fn know_consistent(&self)
        ensures { IsConsistent C.number self.now.acting }
    {
        let _ = self.tie_count();
    }

    /// A source that knows all constraints and who sleeps as they are tells what a wake asks for: a law.
    pub fn know_told<T: TieSource<C>>(&self, source: &T)
        requires ties { T.ties source.now ≡ self.now.acting.ties }
        requires names { (tie : TheMember C) → Contains self.now.acting.ties tie → T.names source.now tie.movers.first ≡ name_at self.now.acting.labels tie.movers.first }
        ensures { TellsAsleep (T.names source.now) (T.ties source.now) self.now.acting.labels self.now.acting.ties }
    {
        self.know_consistent();
    }

    /// The colours of the constraints that act.
    pub fn colours(&self) -> &Colours<C>
        ensures lists { result.now.lists ≡ self.now.acting.lists }
        ensures pending { result.now.pending ≡ self.now.pending }
    {
        &self.graph.colours
    }

    /// Makes the edits of the colours that were put off. It costs nothing where none is.
    pub fn flush(&mut self)
        ensures acting { self.new.acting ≡ self.old.acting }
        ensures room { self.new.room ≡ self.old.room }
        ensures slots { self.new.slots ≡ self.old.slots }
        ensures pending { self.new.pending ≡ 0 }
    {
        self.graph.colours.flush();
    }

    /// The islands of the movers.
    pub fn islands(&self) -> &Islands
        ensures { result.now.labels ≡ self.now.acting.labels }
    {
        &self.graph.islands
    }

    /// The label of a mover's island; `None` where there is no mover.
    pub fn label_of(&self, slot: u32) -> Option<Label>
        ensures value { result ≡ label_at self.now.acting.labels slot }
        ensures few { length self.now.acting.labels ≤ self.now.slots }
    {
        self.graph.islands.label_of(slot)
    }

    /// The name of a mover's island, which is its lowest slot; `None` where there is no mover.
    pub fn name_of(&self, slot: u32) -> Option<u32>
        ensures { result ≡ option_map (λ l. l.name) (label_at self.now.acting.labels slot) }
    {
        self.graph.islands.name_of(slot)
    }

    /// Whether a mover is in the slot, and awake.
    pub fn is_awake(&self, slot: u32) -> bool
        ensures { result ≡ is_mover_awake self.now.acting.labels slot }
    {
        is_awake(&self.graph.islands, slot)
    }

    /// Whether all movers of a constraint are awake.
    pub fn are_awake(&self, movers: Movers) -> bool
        ensures { result ≡ are_awake self.now.acting.labels movers }
    {
        are_awake(&self.graph.islands, movers)
    }

    /// Whether there is a constraint of this id.
    pub fn has(&self, id: C) -> bool
        ensures { result ≡ has_id C.number id self.now.acting.ties }
    {
        self.graph.ties.has_id(id)
    }

    /// The names of the sleeping islands of the movers in these slots, ascending and each once.
    pub fn names_of(&self, slots: &[u32]) -> Result<Vec<u32>, Refusal>
        ensures value { IfOk result (λ names. names.items ≡ sleeping_names self.now.acting.labels slots.now) }
        ensures memory_only { IsOkUnless result Refusal.NoMemory }
    {
        list_names(*self.work.spare.allocator(), &self.graph.islands, slots)
    }

    /// The slots of the awake movers, ascending, as a sleep phase is told them. All slots are gone through.
    pub fn awake_slots(&self) -> Result<Vec<u32>, Refusal>
        ensures awake { IfOk result (λ slots. AreAwakeSlots self.now.acting.labels slots.items) }
        ensures memory_only { IsOkUnless result Refusal.NoMemory }
    {
        list_awake(*self.work.spare.allocator(), &self.graph.islands)
    }

    // ---- movers come and go

    /// Makes a mover an island of its own, awake and not loose.
    #[tactic(auto, unfolding(crate::specs::Bodies::mover_made))]
    pub fn add_mover(&mut self, slot: u32)
        requires fresh { label_at self.old.acting.labels slot ≡ None }
        requires below { slot < self.old.slots }
        ensures acting { self.new.acting ≡ mover_made slot self.old.acting }
        ensures room { self.new.room ≡ self.old.room }
        ensures slots { self.new.slots ≡ self.old.slots }
    {
        self.graph.islands.add(slot);
    }

    /// Lets the slots of which it is known whether they have a mover go up to this one at least.
    pub fn widen(&mut self, slot: u32)
        requires below { slot < self.old.slots }
        ensures acting { self.new.acting ≡ widened slot self.old.acting }
        ensures room { self.new.room ≡ self.old.room }
        ensures slots { self.new.slots ≡ self.old.slots }
    {
        self.graph.islands.widen(slot);
    }

    /// Takes an awake mover that is in no constraint out of its island. Those that it leaves behind are loose.
    pub fn remove_mover(&mut self, slot: u32)
        requires awake { is_mover_awake self.old.acting.labels slot ≡ true }
        requires alone { filter (λ m. has_mover m.movers slot) self.old.acting.ties ≡ [] }
        ensures acting { self.new.acting ≡ mover_gone C.number slot self.old.acting }
        ensures room { self.new.room ≡ self.old.room }
        ensures slots { self.new.slots ≡ self.old.slots }
    {
        self.graph.islands.take_out(slot);
    }
}
