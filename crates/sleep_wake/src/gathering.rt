//! The constraints of an island.

ghost use Rattle.std.specs.Prelude.{◌≡◌, ◌≤◌, ◌<◌, ◌+◌, ◌++◌, ◌∷◌, [], Some, true, nat_eq, List, length, filter, vec_len, vec_capacity, OnOk};
ghost use Rattle.std.specs.Result.{IsOkUnless};
ghost use Rattle.std.specs.List.{IsDistinct};
ghost use Rattle.std.specs.List.Sorted.{IsPermutation};
ghost use Rattle.graph_colours.specs.declared.member.Member.{Member as TheMember};
ghost use Rattle.graph_colours.specs.Members.{AreRising};
ghost use Rattle.islands.specs.Links.{Linked};
ghost use Rattle.islands.specs.Partition.{AreIslands};
ghost use Rattle.sleep_wake.specs.Acting.{links_of};
ghost use Rattle.sleep_wake.specs.Gathered.{is_first_of};
ghost use Rattle.sleep_wake.specs.Sleeping.{name_at};
ghost use Rattle.sleep_wake.specs.Sources.{TellsAsleep, asleep_ties};
ghost use Rattle.sleep_wake.specs.Waking.{has_mover_of};

use crate::movers_in_islands::are_in;
use crate::tie_source::TieSource;
use crate::ties::Ties;
use fixed_geom::Refusal;
use graph_colours::{ConstraintId, Member};
use islands::Islands;
use std::alloc::Global;
use std::marker::Model;

/// An island's constraints are asked of the source where there are more than this many constraints in all for each of
/// its movers, or where edits of them are put off. Else a pass over all costs no more.
const TIES_A_MOVER: usize = 16;

// ---- by a pass over all constraints

/// Adds a constraint, if it is one of the island. There is room for it.
fn add_if_in<C: ConstraintId>(
    list: &mut Vec<Member<C>>,
    islands: &Islands,
    name: u32,
    tie: Member<C>,
)
    requires { vec_len list.old < vec_capacity list.old }
    ensures items { list.new.items ≡ list.old.items ++ filter (has_mover_of islands.now.labels name) (tie ∷ []) }
    ensures len { vec_len list.new ≤ vec_len list.old + 1 }
    ensures capacity { vec_capacity list.old ≤ vec_capacity list.new }
{
    if are_in(islands, name, tie.movers) {
        let _ = list.push(tie);
    }
}

/// Lists the constraints of an island by a pass over all. There is room for all.
fn list_from_all<C: ConstraintId>(
    list: &mut Vec<Member<C>>,
    islands: &Islands,
    ties: &[Member<C>],
    name: u32,
)
    requires { length ties.now ≤ vec_capacity list.old }
    ensures items { list.new.items ≡ filter (has_mover_of islands.now.labels name) ties.now }
    ensures capacity { vec_capacity list.old ≤ vec_capacity list.new }
{
    list.clear();
    for place in 0..ties.len() {
        add_if_in(list, islands, name, ties[place]);
    }
}

// ---- from a source

/// Puts constraints in the order of their numbers.
fn put_in_order<C: ConstraintId>(list: &mut Vec<Member<C>>)
    ensures items { (rising : List (TheMember C)) → AreRising C.number rising → IsPermutation rising list.old.items → list.new.items ≡ rising }
    ensures capacity { vec_capacity list.old ≤ vec_capacity list.new }
{
    list.sort_unstable_by_key(|tie| tie.id.number());
}

/// Lists the constraints whose first mover sleeps under this name, as the source knows it, ascending. There is room for
/// them.
fn list_asleep<C: ConstraintId, T: TieSource<C>>(list: &mut Vec<Member<C>>, source: &T, name: u32)
    requires rising { AreRising C.number (asleep_ties (T.names source.now) name (T.ties source.now)) }
    requires room { length (asleep_ties (T.names source.now) name (T.ties source.now)) ≤ vec_capacity list.old }
    ensures items { list.new.items ≡ asleep_ties (T.names source.now) name (T.ties source.now) }
    ensures capacity { vec_capacity list.old ≤ vec_capacity list.new }
{
    list.clear();
    source.push_asleep(name, list);
    put_in_order(list);
}

/// Adds the constraints whose first mover is one of these, mover by mover. There is room for them.
fn push_each<C: ConstraintId, T: TieSource<C>>(
    list: &mut Vec<Member<C>>,
    source: &T,
    members: &[u32],
)
    requires once { IsDistinct nat_eq members.now }
    requires room { length list.old.items + length (filter (is_first_of members.now) (T.ties source.now)) ≤ vec_capacity list.old }
    ensures pushed { IsPermutation (list.old.items ++ filter (is_first_of members.now) (T.ties source.now)) list.new.items }
    ensures capacity { vec_capacity list.old ≤ vec_capacity list.new }
{
    for place in 0..members.len() {
        source.push_firsts(members[place], list);
    }
}

/// Lists the constraints whose first mover is one of these, ascending. There is room for all.
fn list_firsts<C: ConstraintId, T: TieSource<C>>(
    list: &mut Vec<Member<C>>,
    source: &T,
    members: &[u32],
)
    requires rising { AreRising C.number (T.ties source.now) }
    requires once { IsDistinct nat_eq members.now }
    requires room { length (T.ties source.now) ≤ vec_capacity list.old }
    ensures items { list.new.items ≡ filter (is_first_of members.now) (T.ties source.now) }
    ensures capacity { vec_capacity list.old ≤ vec_capacity list.new }
{
    list.clear();
    push_each(list, source, members);
    put_in_order(list);
}

// ---- of one island

/// Whether a pass over all constraints lists those of an island with so many movers as quickly: where no edit of them
/// is put off, so that they are at hand as one list, and there are no more than so many for each mover.
fn is_pass_quick<C: ConstraintId>(ties: &Ties<C>, movers: usize) -> bool
    ensures { result ≡ true → ties.now.pending ≡ 0 }
{
    ties.is_flushed() && ties.len() / TIES_A_MOVER <= movers
}

/// Lists the constraints of an island, ascending, by a pass over all where that is as quick, and else through its
/// movers. Both movers of a constraint are in one island, so that it is enough to take each constraint with its first
/// one. There is room for all constraints and for the movers of all slots.
fn list_by_movers<C: ConstraintId, T: TieSource<C>>(
    list: &mut Vec<Member<C>>,
    members: &mut Vec<u32>,
    islands: &Islands,
    ties: &Ties<C>,
    source: &T,
    name: u32,
)
    requires rising { AreRising C.number ties.now.items }
    requires islands { AreIslands (Linked (links_of ties.now.items)) islands.now.labels }
    requires source { T.ties source.now ≡ ties.now.items }
    requires room { length ties.now.items ≤ vec_capacity list.old }
    requires slots { length islands.now.labels ≤ vec_capacity members.old }
    ensures items { list.new.items ≡ filter (has_mover_of islands.now.labels name) ties.now.items }
    ensures capacity { vec_capacity list.old ≤ vec_capacity list.new }
    ensures members_capacity { vec_capacity members.old ≤ vec_capacity members.new }
{
    islands.fill_members(name, members);
    if is_pass_quick(ties, members.len()) {
        list_from_all(list, islands, ties.as_slice(), name);
    } else {
        list_firsts(list, source, members);
    }
}

/// Lists the constraints of an island that sleeps, ascending, by a pass over all where that is as quick, and else from
/// its sleeping set. There is room for all constraints and for the movers of all slots.
fn list_by_set<C: ConstraintId, T: TieSource<C>>(
    list: &mut Vec<Member<C>>,
    members: &mut Vec<u32>,
    islands: &Islands,
    ties: &Ties<C>,
    source: &T,
    name: u32,
)
    requires rising { AreRising C.number ties.now.items }
    requires asleep { name_at islands.now.labels name ≡ Some name }
    requires source { TellsAsleep (T.names source.now) (T.ties source.now) islands.now.labels ties.now.items }
    requires room { length ties.now.items ≤ vec_capacity list.old }
    requires slots { length islands.now.labels ≤ vec_capacity members.old }
    ensures items { list.new.items ≡ filter (has_mover_of islands.now.labels name) ties.now.items }
    ensures capacity { vec_capacity list.old ≤ vec_capacity list.new }
    ensures members_capacity { vec_capacity members.old ≤ vec_capacity members.new }
{
    islands.fill_members(name, members);
    if is_pass_quick(ties, members.len()) {
        list_from_all(list, islands, ties.as_slice(), name);
    } else {
        list_asleep(list, source, name);
    }
}

/// What the constraints of an island are gathered in, reserved before so that it takes no memory. Contracts see those
/// that were gathered last (`list`), and for how many constraints (`ties`) and slots (`slots`) there is room.
#[derive(Drop)]
pub(crate) struct Gathering<C: ConstraintId> {
    list: Vec<Member<C>>,
    // The movers of the island.
    members: Vec<u32>,
}

impl<C: ConstraintId> Model for Gathering<C> {
    ghost use Rattle.std.specs.Prelude.{vec_capacity};
    ghost use Rattle.sleep_wake.specs.Gathered.{Gathered};

    ghost Value = { Gathered C };

    ghost view = { λ a. record { list = a.list.items; ties = vec_capacity a.list; slots = vec_capacity a.members } };
}

impl<C: ConstraintId> Gathering<C> {
    /// Room for nothing.
    pub(crate) fn new(alloc: Global) -> Gathering<C> {
        Gathering {
            list: Vec::new(alloc),
            members: Vec::new(alloc),
        }
    }

    /// Makes room for an island with that many constraints, where there are that many slots in all.
    pub(crate) fn reserve(&mut self, ties: usize, slots: usize) -> Result<(), Refusal>
        ensures ties_made { OnOk result (ties ≤ self.new.ties) }
        ensures slots_made { OnOk result (slots ≤ self.new.slots) }
        ensures ties { self.old.ties ≤ self.new.ties }
        ensures slots { self.old.slots ≤ self.new.slots }
        ensures memory_only { IsOkUnless result Refusal.NoMemory }
    {
        self.list.clear();
        self.list.reserve(ties)?;
        self.members.clear();
        self.members.reserve(slots)?;
        Ok(())
    }

    /// The constraints that were gathered last.
    pub(crate) fn list(&self) -> &[Member<C>]
        ensures { result.now ≡ self.now.list }
    {
        self.list.as_slice()
    }

    /// Gathers the constraints of an island, ascending: by a pass over all where that is as quick, and else through its
    /// movers. Takes no memory. The source tells all constraints as they are.
    pub(crate) fn gather<T: TieSource<C>>(
        &mut self,
        islands: &Islands,
        ties: &Ties<C>,
        source: &T,
        name: u32,
    )
        requires rising { AreRising C.number ties.now.items }
        requires islands { AreIslands (Linked (links_of ties.now.items)) islands.now.labels }
        requires source { T.ties source.now ≡ ties.now.items }
        requires room { length ties.now.items ≤ self.old.ties }
        requires slots { length islands.now.labels ≤ self.old.slots }
        ensures list { self.new.list ≡ filter (has_mover_of islands.now.labels name) ties.now.items }
        ensures ties { self.old.ties ≤ self.new.ties }
        ensures slots { self.old.slots ≤ self.new.slots }
    {
        list_by_movers(
            &mut self.list,
            &mut self.members,
            islands,
            ties,
            source,
            name,
        );
    }

    /// Gathers the constraints of an island that sleeps, ascending: by a pass over all where that is as quick, and else
    /// from its sleeping set. Takes no memory. The source may know others that have come or gone since, but none of a
    /// sleeping island.
    pub(crate) fn gather_asleep<T: TieSource<C>>(
        &mut self,
        islands: &Islands,
        ties: &Ties<C>,
        source: &T,
        name: u32,
    )
        requires rising { AreRising C.number ties.now.items }
        requires asleep { name_at islands.now.labels name ≡ Some name }
        requires source { TellsAsleep (T.names source.now) (T.ties source.now) islands.now.labels ties.now.items }
        requires room { length ties.now.items ≤ self.old.ties }
        requires slots { length islands.now.labels ≤ self.old.slots }
        ensures list { self.new.list ≡ filter (has_mover_of islands.now.labels name) ties.now.items }
        ensures ties { self.old.ties ≤ self.new.ties }
        ensures slots { self.old.slots ≤ self.new.slots }
    {
        list_by_set(
            &mut self.list,
            &mut self.members,
            islands,
            ties,
            source,
            name,
        );
    }
}
