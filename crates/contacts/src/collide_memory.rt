//! What a collide leaves beside the contacts, and when their two lists are made one.

ghost use Rattle.std.specs.Prelude.{◌≡◌, OnOk, false};
ghost use Rattle.std.specs.Result.{IsOkUnless};
ghost use Rattle.contacts_base.specs.Split.{Split, contacts_in};
ghost use Rattle.contacts.specs.Stirring.{AreFlagsListed, AreHeld};

use crate::pair_sweep::PairSweep;
use crate::pending_update::PendingUpdate;
use crate::stirring::Stirring;
use crate::survey_pieces::LookMemory;
use contacts_base::SplitContacts;
use fixed_geom::Refusal;
use std::alloc::Global;

/// What a collide leaves: what it made of the contacts, and memory for the next one.
#[derive(Drop)]
pub(crate) struct CollideState {
    // What the last collide made of the contacts, until it is carried out.
    pub(crate) pending: PendingUpdate,
    pub(crate) memory: CollideMemory,
}

/// What is kept beside the contacts from one collide to the next.
#[derive(Drop)]
pub(crate) struct CollideMemory {
    pub(crate) stirring: Stirring,
    // Room for the numbers of the near pairs of marked slots.
    pub(crate) numbers: Vec<u128>,
    // Room for the shapes in a collide that looks for near pairs of all.
    pub(crate) broad: PairSweep,
    // How many contacts the collides have looked at beside the long list since it was made.
    spent: usize,
    // What looks over the long list found, and memory for them.
    pub(crate) looks: LookMemory,
}

impl CollideMemory {
    /// Nothing is known.
    pub(crate) fn new(alloc: Global) -> CollideMemory
        ensures { (contacts : Split) → AreHeld result.stirring contacts }
    {
        CollideMemory {
            stirring: Stirring::new(alloc),
            numbers: Vec::new(alloc),
            broad: PairSweep::new(alloc),
            spent: 0,
            looks: LookMemory::new(alloc),
        }
    }
}

/// The long list is another: the places don't hold for it, and nothing was looked at beside it.
pub(crate) fn invalidate(memory: &mut CollideMemory)
    requires { AreFlagsListed memory.old.stirring.flags.items memory.old.stirring.flagged.items }
    ensures { (contacts : Split) → AreHeld memory.new.stirring contacts }
{
    memory.stirring.holds = false;
    memory.spent = 0;
}

/// Makes the two lists one, if they aren't. Refused 1 where memory is wanting, and then all stays as it is.
pub(crate) fn flush(
    alloc: Global,
    contacts: &mut SplitContacts,
    memory: &mut CollideMemory,
) -> Result<(), Refusal>
    requires { AreHeld memory.old.stirring contacts.old }
    ensures contacts { contacts_in contacts.new ≡ contacts_in contacts.old }
    ensures one { OnOk result (contacts.new.long ≡ contacts_in contacts.old) }
    ensures held { AreHeld memory.new.stirring contacts.new }
    ensures memory_only { IsOkUnless result Refusal.NoMemory }
{
    if contacts.is_one() {
        return Ok(());
    }
    contacts.flush(alloc)?;
    invalidate(memory);
    Ok(())
}

/// The same where the collides have looked at as many contacts beside the long list as it has; and what the next one
/// looks at is counted.
pub(crate) fn flush_if_spent(
    alloc: Global,
    contacts: &mut SplitContacts,
    memory: &mut CollideMemory,
) -> Result<(), Refusal>
    requires { AreHeld memory.old.stirring contacts.old }
    ensures contacts { contacts_in contacts.new ≡ contacts_in contacts.old }
    ensures held { AreHeld memory.new.stirring contacts.new }
    ensures memory_only { IsOkUnless result Refusal.NoMemory }
{
    if memory.spent >= contacts.long().len() {
        flush(alloc, contacts, memory)?;
    }
    memory.spent = memory.spent.saturating_add(contacts.beside());
    Ok(())
}
