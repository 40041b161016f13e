//! How much there is of a world (Box2D: `b2World_GetCounters`, `b2World_GetAwakeBodyCount`).

ghost use Rattle.std.specs.Prelude.{◌≡◌, IfOk, is_some, length};
ghost use Rattle.std.specs.List.{count_by};
ghost use Rattle.std.specs.Result.{IsOkUnless};
ghost use Rattle.graph_colours.specs.Colours.{ids_of};
ghost use Rattle.plain_world.specs.Changes.{is_awake_in};
ghost use Rattle.world_queries.specs.Counts.{count_islands, counts_of, has_some, is_namesake, is_touching};

use contacts::ContactTable;
use fixed_geom::Refusal;
use graph_colours::{Colours, OVERFLOW};
use islands::Label;
use plain_world::{Body, Constraint};
use std::alloc::Global;
use world_core::{ContactEntry, WorldCore};

/// How much there is of a world.
#[derive(Clone, Copy, Debug, PartialEq, Eq)]
pub struct Counts {
    /// The bodies that live.
    pub bodies: usize,
    /// The movers that are awake.
    pub awake: usize,
    /// The joints that live.
    pub joints: usize,
    /// The contacts of near shapes.
    pub contacts: usize,
    /// Those of them that touch.
    pub touching: usize,
    /// The islands, awake or asleep.
    pub islands: usize,
    /// The colours that some constraint has; the overflow counts as one.
    pub colours: usize,
}

fn is_awake_in(entry: &Option<Body>) -> bool
    ensures { result ≡ is_awake_in entry.now }
{
    match entry {
        None => false,
        Some(body) => body.is_awake(),
    }
}

/// How many slots are taken.
fn count_taken<T>(entries: &[Option<T>]) -> usize
    ensures { result ≡ count_by is_some entries.now }
{
    entries.iter().filter(|entry| entry.is_some()).count()
}

fn count_awake(bodies: &[Option<Body>]) -> usize
    ensures { result ≡ count_by is_awake_in bodies.now }
{
    let mut count = 0;
    for entry in bodies {
        if is_awake_in(entry) {
            count += 1;
        }
    }
    count
}

/// How many contacts touch.
fn count_touching(contacts: &[ContactEntry]) -> usize
    ensures { result ≡ count_by is_touching contacts.now }
{
    contacts
        .iter()
        .filter(|entry| entry.contact.is_touching())
        .count()
}

/// The same of all that are kept.
fn count_kept(alloc: Global, table: &ContactTable) -> Result<(usize, usize), Refusal>
    ensures all { IfOk result (λ counted. counted.0 ≡ length table.now.contacts) }
    ensures touching { IfOk result (λ counted. counted.1 ≡ count_by is_touching table.now.contacts) }
    ensures memory_only { IsOkUnless result Refusal.NoMemory }
{
    if let Some(contacts) = table.as_one() {
        return Ok((contacts.len(), count_touching(contacts)));
    }
    let contacts = table.to_entries(alloc)?;
    Ok((contacts.len(), count_touching(&contacts)))
}

/// Whether the mover in a slot is the one after which its island is named.
fn is_namesake(slot: usize, label: &Option<Label>) -> bool
    ensures { result ≡ is_namesake (slot, label.now) }
{
    match label {
        None => false,
        Some(label) => label.name as usize == slot,
    }
}

fn count_islands(labels: &[Option<Label>]) -> usize
    ensures { result ≡ count_islands labels.now }
{
    labels
        .iter()
        .enumerate()
        .filter(|(slot, label)| is_namesake(*slot, label))
        .count()
}

/// How many colours some constraint has.
fn count_colours(colours: &Colours<Constraint>) -> Result<usize, Refusal>
    ensures colours { IfOk result (λ count. count ≡ count_by has_some (ids_of colours.now.lists)) }
    ensures memory_only { IsOkUnless result Refusal.NoMemory }
{
    colours.know_colouring();
    let mut count = 0;
    for colour in 0..OVERFLOW + 1 {
        if !colours.to_members(colour)?.is_empty() {
            count += 1;
        }
    }
    Ok(count)
}

/// How much there is of a world. It looks at all bodies, joints, contacts and constraints.
pub fn count(alloc: Global, world: &WorldCore) -> Result<Counts, Refusal>
    ensures counts { IfOk result (λ counts. counts ≡ counts_of world.now.plain) }
    ensures memory_only { IsOkUnless result Refusal.NoMemory }
{
    let (contacts, touching) = count_kept(alloc, world.contacts())?;
    let labels = world.islands().list_labels()?;
    let colours = count_colours(world.colours())?;
    Ok(Counts {
        bodies: count_taken(world.bodies()),
        awake: count_awake(world.bodies()),
        joints: count_taken(world.joints().joints()),
        contacts,
        touching,
        islands: count_islands(&labels),
        colours,
    })
}
