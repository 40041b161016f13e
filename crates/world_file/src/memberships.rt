//! What bodies say of their islands.

ghost use Rattle.std.specs.Prelude.{◌≡◌, IfErr, IfOk, map};
ghost use Rattle.std.specs.List.{list_all};
ghost use Rattle.world_file_base.specs.declared.clause.Broken.TheVariants.{NoMemory};
ghost use Rattle.world_file.specs.Fitting.{
  are_named_well,
  is_coloured_well,
  is_link_kept,
  is_named_well,
  is_same_membership,
  is_same_name,
  is_same_truth,
  is_tie_kept,
  label_of,
  membership_at,
  state_of,
};

use crate::ties::Tie;
use islands::{IslandState, Label};
use std::alloc::Global;
use world_file_base::{Broken, Membership, NO_MEMBERSHIP};

/// What the body in a slot says of its island.
pub(crate) fn membership_at(memberships: &[Membership], slot: u32) -> Membership
    ensures { result ≡ membership_at memberships.now slot }
{
    match memberships.get(slot as usize) {
        Some(membership) => *membership,
        None => NO_MEMBERSHIP,
    }
}

fn is_same_name(a: Option<u32>, b: Option<u32>) -> bool
    ensures { result ≡ is_same_name a b }
{
    match (a, b) {
        (None, None) => true,
        (Some(a), Some(b)) => a == b,
        (None, Some(_)) => false,
        (Some(_), None) => false,
    }
}

fn is_same_truth(a: bool, b: bool) -> bool
    ensures { result ≡ is_same_truth a b }
{
    if a { b } else { !b }
}

fn is_same_membership(a: Membership, b: Membership) -> bool
    ensures { result ≡ is_same_membership a b }
{
    is_same_name(a.island, b.island)
        && is_same_truth(a.loose, b.loose)
        && is_same_truth(a.asleep, b.asleep)
}

/// Whether an island is named by a slot that isn't above the mover's, where a mover says the same of the same island.
fn is_named_well(
    memberships: &[Membership],
    slot: usize,
    island: Option<u32>,
    membership: Membership,
) -> bool
    ensures { result ≡ is_named_well memberships.now slot island membership }
{
    match island {
        Some(name) => {
            name as usize <= slot
                && is_same_membership(membership_at(memberships, name), membership)
        }
        None => true,
    }
}

/// Whether islands are named by their lowest slots, and all movers of an island say the same of it.
pub(crate) fn are_named_well(memberships: &[Membership]) -> bool
    ensures { result ≡ are_named_well memberships.now 0 memberships.now }
{
    for slot in 0..memberships.len() {
        let membership = memberships[slot];
        if !is_named_well(memberships, slot, membership.island, membership) {
            return false;
        }
    }
    true
}

fn state_of(membership: Membership) -> IslandState
    ensures { result ≡ state_of membership }
{
    if membership.asleep {
        IslandState::Asleep
    } else if membership.loose {
        IslandState::Loose
    } else {
        IslandState::Whole
    }
}

/// The label of an island, of a mover.
fn label_of(membership: Membership) -> Option<Label>
    ensures { result ≡ label_of membership }
{
    match membership.island {
        Some(name) => Some(Label {
            name,
            state: state_of(membership),
        }),
        None => None,
    }
}

/// The labels of the movers by slot. Refused where memory is wanting.
pub fn list_labels(alloc: Global, memberships: &[Membership]) -> Result<Vec<Option<Label>>, Broken>
    ensures value { IfOk result (λ labels. labels.items ≡ map label_of memberships.now) }
    ensures memory { IfErr result (λ e. e ≡ NoMemory) }
{
    let mut labels = Vec::new(alloc);
    for membership in memberships {
        labels.push(label_of(*membership))?;
    }
    Ok(labels)
}

/// Whether two movers, if there are two, are in one island.
fn is_link_kept(memberships: &[Membership], first: u32, second: Option<u32>) -> bool
    ensures { result ≡ is_link_kept memberships.now first second }
{
    match second {
        Some(second) => is_same_name(
            membership_at(memberships, first).island,
            membership_at(memberships, second).island,
        ),
        None => true,
    }
}

/// Whether the movers of a tie are in one island.
fn is_tie_kept(memberships: &[Membership], tie: Tie) -> bool
    ensures { result ≡ is_tie_kept memberships.now tie }
{
    is_link_kept(
        memberships,
        tie.member.movers.first,
        tie.member.movers.second,
    )
}

/// Whether linked movers are in one island.
pub(crate) fn are_ties_kept(memberships: &[Membership], ties: &[Tie]) -> bool
    ensures { result ≡ list_all (is_tie_kept memberships.now) ties.now }
{
    for tie in ties {
        if !is_tie_kept(memberships, *tie) {
            return false;
        }
    }
    true
}

/// Whether a tie has a colour just if its movers are awake.
fn is_coloured_well(memberships: &[Membership], tie: Tie) -> bool
    ensures { result ≡ is_coloured_well memberships.now tie }
{
    let is_awake = !membership_at(memberships, tie.member.movers.first).asleep;
    is_same_truth(tie.colour.is_some(), is_awake)
}

/// Whether just the ties of awake movers have colours.
pub(crate) fn are_coloured_well(memberships: &[Membership], ties: &[Tie]) -> bool
    ensures { result ≡ list_all (is_coloured_well memberships.now) ties.now }
{
    for tie in ties {
        if !is_coloured_well(memberships, *tie) {
            return false;
        }
    }
    true
}
