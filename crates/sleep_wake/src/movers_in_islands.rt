//! Where a constraint's movers are: awake, or in an island of some name. And lists of constraints that take colours or
//! give them up.

ghost use Rattle.std.specs.Prelude.{◌≡◌, ◌+◌, true, length, None, Some};
ghost use Rattle.std.specs.Option.{option_map_or};
ghost use Rattle.graph_colours.specs.Colours.{all_members};
ghost use Rattle.islands.specs.Labels.{label_at, is_in};
ghost use Rattle.sleep_wake.specs.Acting.{is_mover_awake, are_awake};
ghost use Rattle.sleep_wake.specs.Waking.{second_in, are_in, placed_all, released_all};
ghost use Rattle.sleep_wake.specs.Rooms.{CanPlace, OwnMovers};

use graph_colours::{Colours, ConstraintId, Member, Movers};
use islands::Islands;

/// Whether the mover in the slot is in the island of this name.
pub(crate) fn is_in(islands: &Islands, name: u32, slot: u32) -> bool
    ensures { result ≡ is_in (label_at islands.now.labels slot) name }
{
    match islands.label_of(slot) {
        None => false,
        Some(label) => label.name == name,
    }
}

fn is_second_in(islands: &Islands, name: u32, slot: Option<u32>) -> bool
    ensures { result ≡ second_in islands.now.labels name slot }
{
    match slot {
        None => false,
        Some(slot) => is_in(islands, name, slot),
    }
}

/// Whether a mover is in the slot, and awake.
pub(crate) fn is_awake(islands: &Islands, slot: u32) -> bool
    ensures { result ≡ is_mover_awake islands.now.labels slot }
{
    match islands.label_of(slot) {
        None => false,
        Some(label) => !label.state.is_asleep(),
    }
}

fn is_second_awake(islands: &Islands, slot: Option<u32>) -> bool
    ensures { result ≡ option_map_or (is_mover_awake islands.now.labels) slot true }
{
    match slot {
        None => true,
        Some(slot) => is_awake(islands, slot),
    }
}

/// Whether all movers of a constraint are awake.
pub(crate) fn are_awake(islands: &Islands, movers: Movers) -> bool
    ensures { result ≡ are_awake islands.now.labels movers }
{
    is_awake(islands, movers.first) && is_second_awake(islands, movers.second)
}

/// Whether one of the movers is in the island of this name.
pub(crate) fn are_in(islands: &Islands, name: u32, movers: Movers) -> bool
    ensures { result ≡ are_in islands.now.labels name movers }
{
    is_in(islands, name, movers.first) || is_second_in(islands, name, movers.second)
}

/// Gives colours to these constraints, of which none has one, in their order.
pub(crate) fn place_each<C: ConstraintId>(colours: &mut Colours<C>, list: &[Member<C>])
    requires { CanPlace C.number list.now colours.old.lists colours.old.room colours.old.slots }
    ensures lists { colours.new.lists ≡ placed_all C.number colours.old.lists list.now }
    ensures slots { colours.new.slots ≡ colours.old.slots }
    ensures room { colours.new.room + length (all_members colours.new.lists) ≡ colours.old.room + length (all_members colours.old.lists) }
{
    for place in 0..list.len() {
        let member = list[place];
        let _ = colours.place(member.id, member.movers);
    }
}

/// Takes the colours of these constraints.
pub(crate) fn release_each<C: ConstraintId>(colours: &mut Colours<C>, list: &[Member<C>])
    requires own { OwnMovers C.number list.now colours.old.lists }
    ensures lists { colours.new.lists ≡ released_all C.number colours.old.lists list.now }
    ensures slots { colours.new.slots ≡ colours.old.slots }
    ensures room { colours.new.room + length (all_members colours.new.lists) ≡ colours.old.room + length (all_members colours.old.lists) }
{
    for place in 0..list.len() {
        colours.release_member(list[place]);
    }
}
