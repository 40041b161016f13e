//! The walk over the rows of a step: which rows are a part's own, and which bodies move from it and to it before each
//! stage of a pass.
//!
//! All parts make the walk alike. A row that has a colour is of the part where its first mover is at home, and one that
//! has none is of the part 0. A body that a row needs from elsewhere moves to its part before the row's stage. Behind
//! the last of them all go home.

ghost use Rattle.std.specs.Prelude.{◌≡◌, ◌*◌, ◌+◌, ◌++◌, ◌∷◌, ◌<◌, ◌≤◌, [], cond, false, true, length, slice_index_or, vec_capacity, vec_len};
ghost use Rattle.contacts_base.specs.Split.{contacts_in};
ghost use Rattle.colour_solver.specs.ConstraintVisits.{AreRowsBelow};
ghost use Rattle.colour_solver.specs.States.{AreAllStates};
ghost use Rattle.world_core_base.specs.ConstraintRows.{rows_in};
ghost use Rattle.part_runs.specs.Hidden.{owned, part_at};
ghost use Rattle.part_runs.specs.Walks.{fetched, fetched_mover, setting_out, walk_home, walk_rows};
ghost use Rattle.part_solver.specs.Benches.{HasSeen};
ghost use Rattle.part_solver.specs.Lending.{HasSources};
ghost use Rattle.part_solver.specs.Running.{IsWalked};
ghost use Rattle.part_solver.specs.Stages.{CanGather};
ghost use Rattle.part_solver.specs.Walking.{IsOnward, own_members, owner_in, owner_of, slots_fetched};

use crate::lent::{Lent, Sources, in_colour, in_overflow};
use crate::moves::BodyMove;
use crate::seat::Lists;
use crate::seeing::{is_mover, part_at};
use crate::step_lists::StepLists;
use colour_solver::Slots;
use graph_colours::{COLOURS, Member};
use momenta::BodyState;
use part_runs::laws::walks_are_made;
use plain_world::Constraint;
use world_core_base::{RowSources, gather_colour};

/// What a row's part is found by.
#[derive(Clone, Copy)]
struct Homes<'a> {
    states: &'a [BodyState],
    home: &'a [u32],
    /// The part that walks.
    number: u32,
}

/// The part of a row: where its first mover is at home. Where both bodies are of one part, nobody has to look at the
/// bodies.
#[inline(always)]
fn part_of(slots: Slots, states: &[BodyState], home: &[u32]) -> u32
    ensures { result ≡ owner_of states.now home.now true slots }
{
    let first = part_at(home, slots.a as usize);
    let second = part_at(home, slots.b as usize);
    if first == second {
        return first;
    }
    if is_mover(states, slots.a as usize) {
        first
    } else {
        second
    }
}

/// A body is wanted in a part: it moves there, if it is elsewhere.
#[inline(always)]
fn fetch(number: u32, slot: u32, to: u32, at: &mut Vec<u32>, moves: &mut Vec<BodyMove>)
    requires room { vec_len moves.old < vec_capacity moves.old }
    ensures onward { IsOnward number (fetched to slot (setting_out at.old.items)) at.new.items moves.old.items moves.new.items }
    ensures room { vec_capacity moves.new ≡ vec_capacity moves.old }
    ensures few { vec_len moves.new ≤ vec_len moves.old + 1 }
{
    let from = part_at(at, slot as usize);
    if from == to {
        return;
    }
    if from == number || to == number {
        moves.push_reserved(BodyMove { slot, from, to });
    }
    if let Some(part) = at.get_mut(slot as usize) {
        *part = to;
    }
}

/// The same of a mover. What no impulse moves is everywhere.
#[inline(always)]
fn fetch_mover(homes: Homes, slot: u32, to: u32, at: &mut Vec<u32>, moves: &mut Vec<BodyMove>)
    requires room { vec_len moves.old < vec_capacity moves.old }
    ensures onward { IsOnward homes.entry.number (fetched_mover homes.entry.states.now to slot (setting_out at.old.items)) at.new.items moves.old.items moves.new.items }
    ensures room { vec_capacity moves.new ≡ vec_capacity moves.old }
    ensures few { vec_len moves.new ≤ vec_len moves.old + 1 }
{
    if is_mover(homes.states, slot as usize) {
        fetch(homes.number, slot, to, at, moves);
    }
}

/// Whether both bodies of a row are at home in a part, and there.
#[inline(always)]
fn is_within(slots: Slots, home: &[u32], at: &[u32], part: u32) -> bool
    ensures { result ≡ true → (part_at home.now slots.b ≡ part) × (part_at at.now slots.a ≡ part) × (part_at at.now slots.b ≡ part) }
{
    part_at(home, slots.b as usize) == part
        && part_at(at, slots.a as usize) == part
        && part_at(at, slots.b as usize) == part
}

/// Fetches the bodies of a row that has a colour. Answers its part.
#[inline(always)]
fn fetch_coloured(homes: Homes, slots: Slots, at: &mut Vec<u32>, moves: &mut Vec<BodyMove>) -> u32
    requires room { vec_len moves.old + 1 < vec_capacity moves.old }
    ensures part { result ≡ owner_of homes.entry.states.now homes.entry.home.now true slots }
    ensures onward { IsOnward homes.entry.number (slots_fetched homes.entry.states.now result slots (setting_out at.old.items)) at.new.items moves.old.items moves.new.items }
    ensures room { vec_capacity moves.new ≡ vec_capacity moves.old }
    ensures few { vec_len moves.new ≤ vec_len moves.old + 2 }
{
    let part = part_at(homes.home, slots.a as usize);
    if is_within(slots, homes.home, at, part) {
        return part;
    }
    let to = part_of(slots, homes.states, homes.home);
    fetch_mover(homes, slots.a, to, at, moves);
    fetch_mover(homes, slots.b, to, at, moves);
    to
}

/// Fetches the bodies of a row that has none. Answers its part.
#[inline(always)]
fn fetch_left(homes: Homes, slots: Slots, at: &mut Vec<u32>, moves: &mut Vec<BodyMove>) -> u32
    requires room { vec_len moves.old + 1 < vec_capacity moves.old }
    ensures part { result ≡ owner_of homes.entry.states.now homes.entry.home.now false slots }
    ensures onward { IsOnward homes.entry.number (slots_fetched homes.entry.states.now result slots (setting_out at.old.items)) at.new.items moves.old.items moves.new.items }
    ensures room { vec_capacity moves.new ≡ vec_capacity moves.old }
    ensures few { vec_len moves.new ≤ vec_len moves.old + 2 }
{
    fetch_mover(homes, slots.a, 0, at, moves);
    fetch_mover(homes, slots.b, 0, at, moves);
    0
}

#[inline(always)]
fn fetch_row(
    homes: Homes,
    slots: Slots,
    coloured: bool,
    at: &mut Vec<u32>,
    moves: &mut Vec<BodyMove>,
) -> u32
    requires room { vec_len moves.old + 1 < vec_capacity moves.old }
    ensures part { result ≡ owner_of homes.entry.states.now homes.entry.home.now coloured slots }
    ensures onward { IsOnward homes.entry.number (slots_fetched homes.entry.states.now result slots (setting_out at.old.items)) at.new.items moves.old.items moves.new.items }
    ensures room { vec_capacity moves.new ≡ vec_capacity moves.old }
    ensures few { vec_len moves.new ≤ vec_len moves.old + 2 }
{
    if coloured {
        fetch_coloured(homes, slots, at, moves)
    } else {
        fetch_left(homes, slots, at, moves)
    }
}

/// The slots at a place.
#[inline(always)]
fn slots_at(slots: &[Slots], index: usize) -> Slots
    requires { index < length slots.now }
    ensures { result ≡ slice_index_or slots.now index result }
{
    slots[index]
}

/// The constraint at a place.
#[inline(always)]
fn member_at(members: &[Member<Constraint>], index: usize) -> Member<Constraint>
    requires { index < length members.now }
    ensures { result ≡ slice_index_or members.now index result }
{
    members[index]
}

/// Lists a constraint, for which there is room, if it is the part's own.
#[inline(always)]
fn keep_member(own: &mut Vec<Member<Constraint>>, member: Member<Constraint>, is_own: bool)
    requires { vec_len own.old < vec_capacity own.old }
    ensures own { own.new.items ≡ own.old.items ++ cond is_own (member ∷ []) [] }
    ensures room { vec_capacity own.new ≡ vec_capacity own.old }
    ensures few { vec_len own.new ≤ vec_len own.old + 1 }
{
    if is_own {
        own.push_reserved(member);
    }
}

/// Walks over the constraints of a stage, and lists the part's own, of which none is listed yet.
fn walk_members(homes: Homes, sources: Sources, coloured: bool, lists: &mut Lists)
    requires can { CanGather homes.states.now sources.joints.now (contacts_in sources.contacts.now) sources.members.now sources.slots.now }
    requires moves_room { vec_len lists.old.moves + 2 * length sources.members.now ≤ vec_capacity lists.old.moves }
    requires own_room { length sources.members.now ≤ vec_capacity lists.old.own }
    requires none { lists.old.own.items ≡ [] }
    ensures onward { IsOnward homes.entry.number (walk_rows homes.entry.states.now (owner_in homes.entry.states.now homes.entry.home.now coloured) (rows_in homes.entry.states.now sources.entry.joints.now (contacts_in sources.entry.contacts.now) sources.entry.members.now) (setting_out lists.old.at.items)) lists.new.at.items lists.old.moves.items lists.new.moves.items }
    ensures own { lists.new.own.items ≡ own_members homes.entry.states.now homes.entry.home.now coloured homes.entry.number sources.entry.joints.now sources.entry.members.now }
    ensures few_own { vec_len lists.new.own ≤ length sources.entry.members.now }
    ensures own_room { vec_capacity lists.new.own ≡ vec_capacity lists.old.own }
    ensures rows { lists.new.rows ≡ lists.old.rows }
    ensures moves_room { vec_capacity lists.new.moves ≡ vec_capacity lists.old.moves }
    ensures few { vec_len lists.new.moves ≤ vec_len lists.old.moves + 2 * length sources.entry.members.now }
    ensures states_same { lists.new.states.items ≡ lists.old.states.items }
    ensures awake { lists.new.awake.items ≡ lists.old.awake.items }
    ensures carried { lists.new.carried.items ≡ lists.old.carried.items }
    ensures ends { lists.new.ends.items ≡ lists.old.ends.items }
    ensures ends_room { vec_capacity lists.new.ends ≡ vec_capacity lists.old.ends }
{
    for index in 0..sources.members.len() {
        let slots = slots_at(sources.slots, index);
        let part = fetch_row(homes, slots, coloured, &mut lists.at, &mut lists.moves);
        let member = member_at(sources.members, index);
        keep_member(&mut lists.own, member, part == homes.number);
    }
}

/// Ends a stage, for which there is room.
fn end_stage(ends: &mut Vec<usize>, moves: &[BodyMove])
    requires { vec_len ends.old < vec_capacity ends.old }
    ensures ends { ends.new.items ≡ ends.old.items ++ length moves.now ∷ [] }
    ensures room { vec_capacity ends.new ≡ vec_capacity ends.old }
    ensures count { vec_len ends.new ≡ vec_len ends.old + 1 }
{
    ends.push_reserved(moves.len());
}

/// Walks over the constraints of a stage, and gathers the part's own rows. Then the stage ends.
fn walk_stage(homes: Homes, sources: Sources, coloured: bool, lists: &mut Lists)
    requires states { AreAllStates homes.states.now }
    requires can { CanGather homes.states.now sources.joints.now (contacts_in sources.contacts.now) sources.members.now sources.slots.now }
    requires moves_room { vec_len lists.old.moves + 2 * length sources.members.now ≤ vec_capacity lists.old.moves }
    requires rows_room { length sources.members.now ≤ lists.old.rows.room }
    requires own_room { length sources.members.now ≤ vec_capacity lists.old.own }
    requires no_rows { lists.old.rows.left ≡ [] }
    requires colours_room { 1 ≤ lists.old.rows.more }
    requires ends_room { vec_len lists.old.ends < vec_capacity lists.old.ends }
    ensures onward { IsOnward homes.entry.number (walk_rows homes.entry.states.now (owner_in homes.entry.states.now homes.entry.home.now coloured) (rows_in homes.entry.states.now sources.entry.joints.now (contacts_in sources.entry.contacts.now) sources.entry.members.now) (setting_out lists.old.at.items)) lists.new.at.items lists.old.moves.items lists.new.moves.items }
    ensures own { lists.new.rows.colours ≡ lists.old.rows.colours ++ owned (owner_in homes.entry.states.now homes.entry.home.now coloured) homes.entry.number (rows_in homes.entry.states.now sources.entry.joints.now (contacts_in sources.entry.contacts.now) sources.entry.members.now) ∷ [] }
    ensures below { AreRowsBelow (length homes.entry.states.now) (owned (owner_in homes.entry.states.now homes.entry.home.now coloured) homes.entry.number (rows_in homes.entry.states.now sources.entry.joints.now (contacts_in sources.entry.contacts.now) sources.entry.members.now)) }
    ensures no_rows { lists.new.rows.left ≡ [] }
    ensures colours_room { lists.old.rows.more ≤ lists.new.rows.more + 1 }
    ensures rows_room { lists.old.rows.room ≤ lists.new.rows.room + length sources.entry.members.now }
    ensures own_room { vec_capacity lists.new.own ≡ vec_capacity lists.old.own }
    ensures moves_room { vec_capacity lists.new.moves ≡ vec_capacity lists.old.moves }
    ensures few { vec_len lists.new.moves ≤ vec_len lists.old.moves + 2 * length sources.entry.members.now }
    ensures states_same { lists.new.states.items ≡ lists.old.states.items }
    ensures awake { lists.new.awake.items ≡ lists.old.awake.items }
    ensures carried { lists.new.carried.items ≡ lists.old.carried.items }
    ensures ends { lists.new.ends.items ≡ lists.old.ends.items ++ length lists.new.moves.items ∷ [] }
    ensures ends_room { vec_capacity lists.new.ends ≡ vec_capacity lists.old.ends }
    ensures ends_count { vec_len lists.new.ends ≡ vec_len lists.old.ends + 1 }
{
    lists.own.clear();
    walk_members(homes, sources, coloured, lists);
    let row_sources = RowSources {
        states: homes.states,
        joints: sources.joints,
        contacts: sources.contacts,
    };
    let own = lists.own.as_slice();
    gather_colour(&mut lists.rows, &mut lists.places, row_sources, own);
    lists.rows.end_colour();
    end_stage(&mut lists.ends, &lists.moves);
}

/// The bodies go home.
fn walk_home(homes: Homes, awake: &[u32], at: &mut Vec<u32>, moves: &mut Vec<BodyMove>)
    requires room { vec_len moves.old + length awake.now ≤ vec_capacity moves.old }
    ensures onward { IsOnward homes.entry.number (walk_home homes.entry.home.now awake.now (setting_out at.old.items)) at.new.items moves.old.items moves.new.items }
{
    for place in 0..awake.len() {
        let slot = awake[place];
        let home = part_at(homes.home, slot as usize);
        fetch(homes.number, slot, home, at, moves);
    }
}

/// Walks the way home, the last stage.
fn walk_way_home(homes: Homes, awake: &[u32], lists: &mut Lists)
    requires moves_room { vec_len lists.old.moves + length awake.now ≤ vec_capacity lists.old.moves }
    requires ends_room { vec_len lists.old.ends < vec_capacity lists.old.ends }
    ensures onward { IsOnward homes.entry.number (walk_home homes.entry.home.now awake.now (setting_out lists.old.at.items)) lists.new.at.items lists.old.moves.items lists.new.moves.items }
    ensures ends { lists.new.ends.items ≡ lists.old.ends.items ++ length lists.new.moves.items ∷ [] }
    ensures rows { lists.new.rows ≡ lists.old.rows }
    ensures states { lists.new.states.items ≡ lists.old.states.items }
    ensures awake { lists.new.awake.items ≡ lists.old.awake.items }
    ensures carried { lists.new.carried.items ≡ lists.old.carried.items }
{
    walk_home(homes, awake, &mut lists.at, &mut lists.moves);
    end_stage(&mut lists.ends, &lists.moves);
}

/// Walks over all stages of a pass: the colours, the rows that have none, and the way home. Gathers the part's own
/// rows.
pub(crate) fn walk(step: &StepLists, lent: &Lent, number: u32, lists: &mut Lists)
    requires seen { HasSeen step.now number lists.old }
    requires has { HasSources step.now lent.now }
    ensures { IsWalked step.now number lists.new }
{
    walks_are_made();
    step.know();
    let homes = Homes {
        states: step.states(),
        home: step.home(),
        number,
    };
    for colour in 0..COLOURS {
        walk_stage(homes, in_colour(step, lent, colour), true, lists);
    }
    walk_stage(homes, in_overflow(step, lent), false, lists);
    walk_way_home(homes, step.awake(), lists);
}
