//! Whether the islands that aren't loose are the components of their links.

ghost use Rattle.std.specs.Prelude.{◌≡◌, ◌≤◌, ◌<◌, ◌^◌, ◌∷◌, [], None, length, IfErr, IfOk, IsSome};
ghost use Rattle.islands.specs.Labels.{label_at, merged};
ghost use Rattle.world_file_base.specs.declared.clause.Broken.TheVariants.{NoMemory};
ghost use Rattle.sleep_wake.specs.Acting.{links_of};
ghost use Rattle.world_file.specs.Fitting.{are_whole, components_of, is_whole_at, members_among};
ghost use Rattle.world_file.specs.Lone.{AreSameLabels, added_if, apart_from, joined_by};

use crate::memberships::membership_at;
use crate::ties::Tie;
use islands::Islands;
use std::alloc::Global;
use world_file_base::{Broken, Membership};

/// Makes what a slot has an island of its own, if it is a mover.
fn add_if(islands: &mut Islands, slot: u32, island: Option<u32>)
    requires fresh { label_at islands.old.labels slot ≡ None }
    requires room { slot < islands.old.room }
    ensures labels { islands.new.labels ≡ added_if island slot islands.old.labels }
    ensures room { islands.new.room ≡ islands.old.room }
{
    match island {
        Some(_) => islands.add(slot),
        None => {}
    }
}

/// Each mover alone.
fn list_alone(alloc: Global, memberships: &[Membership]) -> Result<Islands, Broken>
    requires few { length memberships.now ≤ 2 ^ 32 }
    ensures alone { IfOk result (λ islands. AreSameLabels islands.labels (apart_from 0 memberships.now)) }
    ensures memory { IfErr result (λ e. e ≡ NoMemory) }
{
    let mut islands = Islands::new(alloc);
    if islands.reserve(memberships.len()).is_err() {
        return Err(Broken::NoMemory);
    }
    for slot in 0..memberships.len() {
        let slot = slot as u32;
        add_if(&mut islands, slot, membership_at(memberships, slot).island);
    }
    Ok(islands)
}

/// Joins two slots, if both have movers.
fn join_slots(islands: &mut Islands, first: u32, second: u32)
    ensures { islands.new.labels ≡ merged islands.old.labels first second }
{
    match islands.label_of(first) {
        None => {}
        Some(_) => join_to(islands, first, second),
    }
}

/// Joins a mover to what is in a slot, if it is a mover.
fn join_to(islands: &mut Islands, first: u32, second: u32)
    requires { IsSome (label_at islands.old.labels first) }
    ensures { islands.new.labels ≡ merged islands.old.labels first second }
{
    match islands.label_of(second) {
        None => {}
        Some(_) => islands.merge(first, second),
    }
}

/// Joins the movers of a tie.
fn join(islands: &mut Islands, tie: Tie)
    ensures { islands.new.labels ≡ joined_by (tie ∷ []) islands.old.labels }
{
    match tie.member.movers.second {
        Some(second) => join_slots(islands, tie.member.movers.first, second),
        None => {}
    }
}

/// Joins the movers of each tie.
fn join_all(islands: &mut Islands, ties: &[Tie])
    ensures { islands.new.labels ≡ joined_by ties.now islands.old.labels }
{
    for tie in ties {
        join(islands, *tie);
    }
}

/// Whether the island of a mover is the component of this name, or is loose and awake.
fn is_whole(islands: &Islands, slot: u32, membership: Membership) -> bool
    ensures { result ≡ is_whole_at (label_at islands.now.labels slot) membership.island membership }
{
    match membership.island {
        Some(name) => {
            if membership.loose {
                !membership.asleep
            } else {
                match islands.name_of(slot) {
                    Some(lowest) => lowest == name,
                    None => false,
                }
            }
        }
        None => true,
    }
}

fn are_all_whole(islands: &Islands, memberships: &[Membership]) -> bool
    requires few { length memberships.now ≤ 2 ^ 32 }
    ensures { result ≡ are_whole islands.now.labels 0 memberships.now }
{
    for slot in 0..memberships.len() {
        if !is_whole(islands, slot as u32, memberships[slot]) {
            return false;
        }
    }
    true
}

/// Whether each island that isn't loose is one component, and one that sleeps isn't loose.
pub(crate) fn are_whole(
    alloc: Global,
    memberships: &[Membership],
    ties: &[Tie],
) -> Result<bool, Broken>
    requires few { length memberships.now ≤ 2 ^ 32 }
    ensures whole { IfOk result (λ whole. whole ≡ are_whole (components_of memberships.now (links_of (members_among ties.now))) 0 memberships.now) }
    ensures memory { IfErr result (λ e. e ≡ NoMemory) }
{
    let mut islands = list_alone(alloc, memberships)?;
    join_all(&mut islands, ties);
    Ok(are_all_whole(&islands, memberships))
}
