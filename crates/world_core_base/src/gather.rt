//! The rows of the joints and of the touching contacts in solve order, gathered when a step begins.

ghost use Rattle.std.specs.Prelude.{◌≡◌, ◌<◌, ◌≤◌, ◌+◌, ◌^◌, ◌++◌, [], All, Some, length, map, option_map, slice_index_or, take};
ghost use Rattle.std.specs.Option.{ForSome, option_to_list};
ghost use Rattle.contacts_base.specs.Keys.{key_number};
ghost use Rattle.contacts_base.specs.Split.{contacts_in};
ghost use Rattle.plain_world.specs.Constraints.{constraint_number};
ghost use Rattle.momenta.specs.ImpulseBounds.{AreStates};
ghost use Rattle.colour_solver_base.specs.Rows.{AreSurfaces};
ghost use Rattle.colour_solver.specs.States.{AreAllStates};
ghost use Rattle.colour_solver.specs.ColourRows.{all_rows};
ghost use Rattle.colour_solver.specs.ConstraintVisits.{AreRowsBelow, IsRowBelow, contacts_among};
ghost use Rattle.colour_solver.specs.declared.constraint_row.ConstraintRow.TheVariants as kinds;
ghost use Rattle.graph_colours.specs.Colours.{all_members};
ghost use Rattle.graph_colours.specs.Members.{AreRising};
ghost use Rattle.contacts_base.specs.Surfaces.{IsSurface};
ghost use Rattle.world_core_base.specs.Gather.{AreContactsOn, IsContactOn, IsContactRowBelow, HasMovable, bodies_of, ends_at, row_in, row_of};
ghost use Rattle.world_core_base.specs.ConstraintRows.{HasJointOn, HaveJointsOn, HaveMovable, IsMovable, constraint_row, rows_in, rows_of};

use crate::joint_row::joint_row_at;
use colour_solver::Rows;
use colour_solver_base::{Bodies, ContactRow, contact_row};
use contacts_base::{ContactKey, Hint, PackedContact, PackedSurface, SplitContacts};
use graph_colours::{COLOURS, Colours, Member, OVERFLOW};
use joint_rows::JointRow;
use momenta::{BodyState, Ends};
use plain_world::{BodyJoint, Constraint};

/// What rows are gathered from: the bodies by slot as the solver works on them, and a world's joints and contacts.
#[derive(Clone, Copy)]
pub struct RowSources<'a> {
    pub states: &'a [BodyState],
    pub joints: &'a [Option<BodyJoint>],
    pub contacts: &'a SplitContacts,
}

/// Which contact it is, and the surface that meets there.
#[inline(always)]
fn bodies_of(key: ContactKey, surface: PackedSurface) -> Bodies
    requires { IsSurface surface }
    ensures value { result ≡ bodies_of key surface }
    ensures surfaces { AreSurfaces result }
{
    let surface = surface.get();
    Bodies {
        a: key.first.slot,
        b: key.second.slot,
        first: key.first.index,
        second: key.second.index,
        friction: surface.friction,
        restitution: surface.restitution,
    }
}

/// The two bodies of a contact.
#[inline(always)]
fn ends_at(states: &[BodyState], key: ContactKey) -> Ends
    requires all_states { AreAllStates states.now }
    requires first { key.first.slot < length states.now }
    requires second { key.second.slot < length states.now }
    ensures value { result ≡ ends_at states.now key }
    ensures states { AreStates result }
{
    Ends {
        a: states[key.first.slot as usize],
        b: states[key.second.slot as usize],
    }
}

/// The row of the contact with this key, if it touches; `own` is the key as the contact has it.
#[inline(always)]
fn row_in(
    states: &[BodyState],
    key: ContactKey,
    own: ContactKey,
    surface: PackedSurface,
    contact: &PackedContact,
) -> Option<ContactRow>
    requires all_states { AreAllStates states.now }
    requires contact { IsContactOn states.now (record { key = own; surface = surface; contact = contact.now }) }
    requires same { key_number own ≡ key_number key }
    requires movable { HasMovable states.now key.first.slot key.second.slot }
    ensures value { result ≡ row_in states.now key (Some (record { key = own; surface = surface; contact = contact.now })) }
    ensures row { ForSome result (IsContactRowBelow (length states.now)) }
{
    let ends = ends_at(states, key);
    contact_row(bodies_of(key, surface), contact, &ends)
}

/// The row of a constraint, if it is a contact that touches. The contact is looked for from `hint` on, which becomes
/// where it was found.
#[tactic(auto, unfolding(crate::specs::Gather::row_of))]
#[inline(always)]
fn row_of(
    states: &[BodyState],
    contacts: &SplitContacts,
    hint: &mut Hint,
    id: Constraint,
) -> Option<ContactRow>
    requires all_states { AreAllStates states.now }
    requires contacts { AreContactsOn states.now (contacts_in contacts.now) }
    requires movable { IsMovable states.now id }
    ensures value { result ≡ row_of states.now (contacts_in contacts.now) id }
    ensures row { ForSome result (IsContactRowBelow (length states.now)) }
{
    match id {
        Constraint::Joint(_) => None,
        Constraint::Contact(key) => {
            let entry = contacts.find(hint, key)?;
            row_in(states, key, entry.key, entry.surface, &entry.contact)
        }
    }
}

/// Adds a joint's row, if there is one, for which there is room, to a colour that has no contact yet.
#[inline(always)]
fn push_joint(rows: &mut Rows, row: Option<JointRow>)
    requires room { 1 ≤ rows.old.room }
    requires first { contacts_among rows.old.left ≡ [] }
    ensures colours { rows.new.colours ≡ rows.old.colours }
    ensures left { rows.new.left ≡ rows.old.left ++ option_to_list (option_map kinds.Joint row) }
    ensures room { rows.old.room ≤ rows.new.room + 1 }
    ensures more { rows.new.more ≡ rows.old.more }
{
    if let Some(row) = row {
        rows.push_joint(row);
    }
}

/// Notes where a contact was found, where there is room for it: a hint, of which nothing is promised.
#[inline(always)]
fn push_place(places: &mut Vec<usize>, place: usize) {
    if places.len() < places.capacity() {
        let _ = places.push(place);
    }
}

/// Adds a contact's row, if there is one, for which there is room, and notes beside it the place where the contact was
/// found.
#[inline(always)]
fn push_contact(rows: &mut Rows, row: Option<ContactRow>, places: &mut Vec<usize>, place: usize)
    requires { 1 ≤ rows.old.room }
    ensures colours { rows.new.colours ≡ rows.old.colours }
    ensures left { rows.new.left ≡ rows.old.left ++ option_to_list (option_map kinds.Contact row) }
    ensures room { rows.old.room ≤ rows.new.room + 1 }
    ensures more { rows.new.more ≡ rows.old.more }
{
    if let Some(row) = row {
        rows.push_contact(row);
        push_place(places, place);
    }
}

/// Adds the row of a constraint, for which there is room: of a joint, or of a contact that touches, which is looked for
/// from `hint` on, and the place where it was found.
/// The numbers of all joints are below 2^80, and those of all contacts aren't, so that joints come first.
#[inline(always)]
fn add_row(
    rows: &mut Rows,
    places: &mut Vec<usize>,
    sources: RowSources,
    hint: &mut Hint,
    id: Constraint,
)
    requires all_states { AreAllStates sources.states.now }
    requires joint { HasJointOn sources.states.now sources.joints.now id }
    requires contacts { AreContactsOn sources.states.now (contacts_in sources.contacts.now) }
    requires movable { IsMovable sources.states.now id }
    requires room { 1 ≤ rows.old.room }
    requires first { constraint_number id < 2 ^ 80 → contacts_among rows.old.left ≡ [] }
    ensures colours { rows.new.colours ≡ rows.old.colours }
    ensures left { rows.new.left ≡ rows.old.left ++ option_to_list (constraint_row sources.entry.states.now sources.entry.joints.now (contacts_in sources.entry.contacts.now) id) }
    ensures row { ForSome (constraint_row sources.entry.states.now sources.entry.joints.now (contacts_in sources.entry.contacts.now) id) (IsRowBelow (length sources.entry.states.now)) }
    ensures room { rows.old.room ≤ rows.new.room + 1 }
    ensures more { rows.new.more ≡ rows.old.more }
{
    match id {
        Constraint::Joint(handle) => {
            let row = joint_row_at(sources.states, sources.joints, handle.slot as usize);
            push_joint(rows, row);
        }
        Constraint::Contact(_) => {
            let row = row_of(sources.states, sources.contacts, hint, id);
            push_contact(rows, row, places, hint.long);
        }
    }
}

/// Gathers constraints of one colour, ascending, for which there is room, and the places of the contacts among them;
/// the colour has no rows yet.
pub fn gather_colour(
    rows: &mut Rows,
    places: &mut Vec<usize>,
    sources: RowSources,
    members: &[Member<Constraint>],
)
    requires all_states { AreAllStates sources.states.now }
    requires joints { HaveJointsOn sources.states.now sources.joints.now members.now }
    requires contacts { AreContactsOn sources.states.now (contacts_in sources.contacts.now) }
    requires movable { HaveMovable sources.states.now members.now }
    requires ascend { AreRising constraint_number members.now }
    requires none { rows.old.left ≡ [] }
    requires room { length members.now ≤ rows.old.room }
    ensures colours { rows.new.colours ≡ rows.old.colours }
    ensures left { rows.new.left ≡ rows_in sources.entry.states.now sources.entry.joints.now (contacts_in sources.entry.contacts.now) members.now }
    ensures rows { AreRowsBelow (length sources.entry.states.now) rows.new.left }
    ensures room { rows.old.room ≤ rows.new.room + length members.now }
    ensures more { rows.new.more ≡ rows.old.more }
{
    let mut hint = Hint { long: 0, short: 0 };
    for member in members {
        add_row(rows, places, sources, &mut hint, member.id);
    }
}

/// Gathers the active constraints in solve order, for which there is room: colour after colour, and the overflow last.
/// Each row stands in its constraint's colour. Beside the row of each contact stands in `places`, as far as there is
/// room, the place of the long list where the contact was found: a hint for whoever looks for it again, of which
/// nothing is promised.
#[tactic(auto, unfolding(crate::specs::ConstraintRows::rows_of))]
pub fn gather_rows(
    rows: &mut Rows,
    places: &mut Vec<usize>,
    sources: RowSources,
    colours: &Colours<Constraint>,
)
    requires flushed { colours.now.pending ≡ 0 }
    requires all_states { AreAllStates sources.states.now }
    requires joints { All (HaveJointsOn sources.states.now sources.joints.now) colours.now.lists }
    requires contacts { AreContactsOn sources.states.now (contacts_in sources.contacts.now) }
    requires movable { All (HaveMovable sources.states.now) colours.now.lists }
    requires room { length (all_members colours.now.lists) ≤ rows.old.room }
    requires more { COLOURS + 1 ≤ rows.old.more }
    ensures colours { rows.new.colours ≡ map (rows_in sources.entry.states.now sources.entry.joints.now (contacts_in sources.entry.contacts.now)) (take COLOURS colours.now.lists) }
    ensures left { rows.new.left ≡ rows_in sources.entry.states.now sources.entry.joints.now (contacts_in sources.entry.contacts.now) (slice_index_or colours.now.lists COLOURS []) }
    ensures value { all_rows rows.new ≡ rows_of sources.entry.states.now sources.entry.joints.now (contacts_in sources.entry.contacts.now) colours.now.lists }
    ensures rows { AreRowsBelow (length sources.entry.states.now) (all_rows rows.new) }
{
    rows.clear();
    places.clear();
    for colour in 0..OVERFLOW {
        gather_colour(rows, places, sources, colours.members(colour));
        rows.end_colour();
    }
    gather_colour(rows, places, sources, colours.members(OVERFLOW));
}
