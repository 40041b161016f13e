//! The contacts of which a body may stir, by their places in the long list, so that a collide passes over those alone.

ghost use Rattle.std.specs.Prelude.{◌≡◌, IsTrue, OnOk, false};
ghost use Rattle.std.specs.Result.{IsOkUnless};
ghost use Rattle.contacts_base.specs.Proxies.{IsProxyList};
ghost use Rattle.contacts_base.specs.Split.{Split, contacts_in};
ghost use Rattle.contacts.specs.Known.{IsPairKey};
ghost use Rattle.contacts.specs.Stirring.{AreFlagsListed, AreHeld, AreQuiet, AreStirring};
ghost use Rattle.contacts.specs.Numbered.{AreNumbered};
ghost use Rattle.contacts.specs.NumberBooks.{IsBook};
ghost use Rattle.contacts.specs.Fates.{moved_by, outcome, after_fate};
ghost use Rattle.packed_sets.specs.Marks.{AreListed};

use crate::collide::Collide;
use crate::fates::{Fate, ShapesById, fate_of};
use crate::forbidden::ForbiddenPairs;
use crate::number_book::NumberBook;
use crate::stirring_flags::{are_complete, clear_flags, flag_stirring, is_one_flagged};
use crate::stirring_places::list_places;
use contacts_base::{ContactEntry, SplitContacts};
use fixed_geom::Refusal;
use std::alloc::Global;

/// Which bodies may stir, and the places of their contacts in the long list.
#[derive(Drop)]
pub(crate) struct Stirring {
    // By slot, whether the body may stir; a slot beyond them counts as one of a body that may.
    pub flags: Vec<bool>,
    // The slots whose flag is set, each once.
    pub flagged: Vec<u32>,
    pub places: Vec<usize>,
    // Whether the places have all contacts of the long list that count and of which a body may stir. Some at them may
    // be over.
    pub holds: bool,
}

impl Stirring {
    /// Nothing is known yet.
    pub fn new(alloc: Global) -> Stirring
        ensures holds { result.holds ≡ false }
        ensures held { (contacts : Split) → AreHeld result contacts }
    {
        Stirring {
            flags: Vec::new(alloc),
            flagged: Vec::new(alloc),
            places: Vec::new(alloc),
            holds: false,
        }
    }
}

/// Flags all bodies that stir, and all slots that are marked.
fn flag_anew<S: ShapesById, F: ForbiddenPairs>(
    stirring: &mut Stirring,
    collide: &Collide<'_, S, F>,
) -> Result<(), Refusal>
    requires listed { AreListed collide.now.marks.now collide.now.marked.now }
    requires flagged { AreFlagsListed stirring.old.flags.items stirring.old.flagged.items }
    ensures flagged { AreFlagsListed stirring.new.flags.items stirring.new.flagged.items }
    ensures quiet { OnOk result (AreQuiet stirring.new.flags.items collide.now.marks.now (S.proxies collide.now.shapes.now)) }
    ensures holds { stirring.new.holds ≡ stirring.old.holds }
    ensures memory_only { IsOkUnless result Refusal.NoMemory }
{
    clear_flags(
        &mut stirring.flags,
        &mut stirring.flagged,
        collide.marks.len(),
    )?;
    flag_stirring(&mut stirring.flags, &mut stirring.flagged, collide)?;
    if !are_complete(&stirring.flags, collide) {
        stirring.flags.clear();
        stirring.flagged.clear();
    }
    Ok(())
}

/// How many slots are those of bodies that stir, or are marked; some may count twice.
fn count_stirring<S: ShapesById, F: ForbiddenPairs>(collide: &Collide<'_, S, F>) -> usize {
    let awake = collide.shapes.awake().len();
    let carried = collide.shapes.carried().len();
    awake
        .saturating_add(carried)
        .saturating_add(collide.marked.len())
}

/// Whether the flags can be used again: each slot has one, they have all bodies that stir and all marked slots, and not
/// many more.
fn are_usable<S: ShapesById, F: ForbiddenPairs>(
    stirring: &Stirring,
    collide: &Collide<'_, S, F>,
) -> bool
    requires { AreListed collide.now.marks.now collide.now.marked.now }
    ensures { IsTrue result → AreQuiet stirring.now.flags.items collide.now.marks.now (S.proxies collide.now.shapes.now) }
{
    if stirring.flags.len() != collide.marks.len() {
        return false;
    }
    if stirring.flagged.len() / 2 > count_stirring(collide) {
        return false;
    }
    are_complete(&stirring.flags, collide)
}

/// Puts the flags right.
fn refresh_flags<S: ShapesById, F: ForbiddenPairs>(
    stirring: &mut Stirring,
    collide: &Collide<'_, S, F>,
) -> Result<(), Refusal>
    requires listed { AreListed collide.now.marks.now collide.now.marked.now }
    requires flagged { AreFlagsListed stirring.old.flags.items stirring.old.flagged.items }
    ensures held { (contacts : Split) → AreHeld stirring.old contacts → AreHeld stirring.new contacts }
    ensures quiet { OnOk result (AreQuiet stirring.new.flags.items collide.now.marks.now (S.proxies collide.now.shapes.now)) }
    ensures memory_only { IsOkUnless result Refusal.NoMemory }
{
    if are_usable(stirring, collide) {
        return Ok(());
    }
    stirring.holds = false;
    flag_anew(stirring, collide)
}

/// Puts the places right.
fn refresh_places(
    stirring: &mut Stirring,
    contacts: &SplitContacts,
    numbers: &NumberBook,
) -> Result<(), Refusal>
    requires held { AreHeld stirring.old contacts.now }
    requires book { IsBook numbers.now }
    requires numbered { AreNumbered (contacts_in contacts.now) numbers.now.contacts.items }
    ensures held { AreHeld stirring.new contacts.now }
    ensures flags { stirring.new.flags.items ≡ stirring.old.flags.items }
    ensures places { OnOk result (AreStirring stirring.new.flags.items contacts.now stirring.new.places.items) }
    ensures memory_only { IsOkUnless result Refusal.NoMemory }
{
    if stirring.holds {
        return Ok(());
    }
    list_places(
        &mut stirring.places,
        &stirring.flags,
        &stirring.flagged,
        contacts,
        numbers,
    )?;
    stirring.holds = true;
    Ok(())
}

/// Puts flags and places right for a collide: they have all contacts of the long list of which a body stirs or has a
/// marked slot. They are used again as long as they have all that, so that a step in which no body wakes costs by what
/// stirs. Changes no contact.
pub(crate) fn refresh<S: ShapesById, F: ForbiddenPairs>(
    stirring: &mut Stirring,
    collide: &Collide<'_, S, F>,
    contacts: &SplitContacts,
    numbers: &NumberBook,
) -> Result<(), Refusal>
    requires listed { AreListed collide.now.marks.now collide.now.marked.now }
    requires held { AreHeld stirring.old contacts.now }
    requires book { IsBook numbers.now }
    requires numbered { AreNumbered (contacts_in contacts.now) numbers.now.contacts.items }
    ensures held { AreHeld stirring.new contacts.now }
    ensures places { OnOk result (AreStirring stirring.new.flags.items contacts.now stirring.new.places.items) }
    ensures quiet { OnOk result (AreQuiet stirring.new.flags.items collide.now.marks.now (S.proxies collide.now.shapes.now)) }
    ensures memory_only { IsOkUnless result Refusal.NoMemory }
{
    refresh_flags(stirring, collide)?;
    refresh_places(stirring, contacts, numbers)
}

/// What becomes of a contact: one of which no body may stir stays as it is.
pub(crate) fn fate_in<S: ShapesById, F: ForbiddenPairs>(
    collide: &Collide<'_, S, F>,
    flags: &[bool],
    entry: &ContactEntry,
) -> Fate
    requires shapes { IsProxyList (S.proxies collide.now.shapes.now) }
    requires quiet { AreQuiet flags.now collide.now.marks.now (S.proxies collide.now.shapes.now) }
    requires key { IsPairKey entry.now.key }
    ensures { after_fate entry.now result ≡ outcome (moved_by collide.now.marks.now) (F.pairs collide.now.forbidden.now) (S.proxies collide.now.shapes.now) entry.now }
{
    if !is_one_flagged(flags, entry) {
        return Fate::Stays;
    }
    fate_of(collide, entry)
}
