//! The whole islands that are ready fall asleep together, and their constraints give up their colours.

ghost use Rattle.std.specs.Prelude.{◌≡◌, ◌≤◌, ◌+◌, ◌++◌, ◌∷◌, [], true, length, filter};
ghost use Rattle.graph_colours.specs.Colours.{all_members};
ghost use Rattle.sleep_wake.specs.Acting.{acting, IsConsistent};
ghost use Rattle.sleep_wake.specs.Waking.{released_all};
ghost use Rattle.sleep_wake.specs.Resting.{least_at, is_to_rest};
ghost use Rattle.sleep_wake.specs.Rooms.{OwnMovers};

use crate::movers_in_islands::release_each;
use crate::phase::are_resting;
use crate::ties::Ties;
use graph_colours::{Colours, ConstraintId, Member, OVERFLOW};
use islands::Islands;

// ---- the constraints of what falls asleep

/// Adds a constraint to the list, where there is room. Answers whether there was.
fn list_one<C: ConstraintId>(listed: &mut Vec<Member<C>>, member: Member<C>) -> bool
    ensures { result ≡ true → listed.new.items ≡ listed.old.items ++ member ∷ [] }
{
    if listed.len() == listed.capacity() {
        return false;
    }
    let _ = listed.push(member);
    true
}

/// Adds to the list those of the members that have a mover in an island that is ready. Answers whether there was room
/// for all.
fn list_members<C: ConstraintId>(
    listed: &mut Vec<Member<C>>,
    islands: &Islands,
    leasts: &[Option<u64>],
    members: &[Member<C>],
) -> bool
    ensures { result ≡ true → listed.new.items ≡ listed.old.items ++ filter (is_to_rest (least_at leasts.now) islands.now.labels) members.now }
{
    for place in 0..members.len() {
        let member = members[place];
        if are_resting(islands, leasts, member.movers) && !list_one(listed, member) {
            return false;
        }
    }
    true
}

/// Lists those of the constraints with a colour that have a mover in an island that is ready. Answers whether there was
/// room for all.
fn list_resting<C: ConstraintId>(
    listed: &mut Vec<Member<C>>,
    islands: &Islands,
    leasts: &[Option<u64>],
    colours: &Colours<C>,
) -> bool
    requires { colours.now.pending ≡ 0 }
    ensures { result ≡ true → listed.new.items ≡ filter (is_to_rest (least_at leasts.now) islands.now.labels) (all_members colours.now.lists) }
{
    listed.clear();
    colours.know_colouring();
    for colour in 0..OVERFLOW + 1 {
        if !list_members(listed, islands, leasts, colours.members(colour)) {
            return false;
        }
    }
    true
}

/// Takes the colours of those of the ties that have a mover in an island that is ready.
fn release_among<C: ConstraintId>(
    islands: &Islands,
    colours: &mut Colours<C>,
    ties: &[Member<C>],
    leasts: &[Option<u64>],
)
    requires own { OwnMovers C.number ties.now colours.old.lists }
    ensures lists { colours.new.lists ≡ released_all C.number colours.old.lists (filter (is_to_rest (least_at leasts.now) islands.now.labels) ties.now) }
    ensures slots { colours.new.slots ≡ colours.old.slots }
    ensures room { colours.new.room + length (all_members colours.new.lists) ≡ colours.old.room + length (all_members colours.old.lists) }
{
    for place in 0..ties.len() {
        let tie = ties[place];
        if are_resting(islands, leasts, tie.movers) {
            colours.release_member(tie);
        }
    }
}

/// Takes the colours of the constraints of all whole islands that are ready. They are looked for among those that act,
/// since these islands are awake; among all ties only where the list has no room for them.
pub(crate) fn release_resting<C: ConstraintId>(
    islands: &Islands,
    colours: &mut Colours<C>,
    ties: &mut Ties<C>,
    leasts: &[Option<u64>],
    listed: &mut Vec<Member<C>>,
)
    requires consistent { IsConsistent C.number (acting ties.old.items islands.now.labels colours.old.lists) }
    requires pending { colours.old.pending ≡ 0 }
    ensures ties { ties.new.items ≡ ties.old.items }
    ensures ties_capacity { ties.old.capacity ≤ ties.new.capacity }
    ensures lists { colours.new.lists ≡ released_all C.number colours.old.lists (filter (is_to_rest (least_at leasts.now) islands.now.labels) ties.old.items) }
    ensures slots { colours.new.slots ≡ colours.old.slots }
    ensures room { colours.new.room + length (all_members colours.new.lists) ≡ colours.old.room + length (all_members colours.old.lists) }
{
    if list_resting(listed, islands, leasts, colours) {
        release_each(colours, listed);
    } else {
        ties.flush(listed);
        release_among(islands, colours, ties.as_slice(), leasts);
    }
}
