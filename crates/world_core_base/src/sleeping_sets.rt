//! Items that sleep, each in the set of the island with which it does.

ghost use Rattle.std.specs.Prelude.{◌≡◌, ◌<◌, ◌≤◌, ◌-◌, ◌∷◌, ◌++◌, ◌↔◌, ℕ, [], List, None, Some, length, map, replicate, slice_get, slice_set, vec_capacity, Contains, OnOk};
ghost use Rattle.std.specs.Result.{IsOkUnless};
ghost use Rattle.packed_sets.specs.Packs.{list_at};
ghost use Rattle.packed_sets.specs.Once.{AreOnce};
ghost use Rattle.world_core_base.specs.Sleeping.{IsSleeping, sleep_at, woken};

use fixed_geom::Refusal;
use packed_sets::LinkedSets;
use std::alloc::Global;
use std::marker::Model;

/// The sleeping sets of one kind of item, of joints or of contacts. An item is known by its number, and a set by the
/// name of its island. Contracts see by item the name under which it sleeps, if it does (`names`), and by name the
/// items of its set in the order in which they are told (`sets`).
///
/// An item comes in constant time. It leaves with all of its set, since whatever changes a sleeping island wakes it
/// first. Only [`SleepingSets::reserve`] takes memory.
#[derive(Drop)]
pub struct SleepingSets {
    // By item the name of its set.
    names: Vec<Option<u32>>,
    // By name the items of its set.
    sets: LinkedSets,
}

impl Model for SleepingSets {
    ghost use Rattle.world_core_base.specs.Sleeping.{IsSleeping, Sleeping};

    ghost Value = { Sleeping };

    ghost view = { λ a. record { names = a.names.items; sets = a.sets.sets } };

    ghost invariant = { λ a. IsSleeping a.names.items a.sets };
}

/// Makes the list at least so long, for which there is room: nobody sleeps that is new.
fn fill_names(names: &mut Vec<Option<u32>>, items: usize)
    requires { items ≤ vec_capacity names.old }
    ensures { names.new.items ≡ names.old.items ++ replicate (items - length names.old.items) None }
{
    if names.len() < items {
        let _ = names.resize(items, None);
    }
}

/// Lets items below this number be noted, none of which sleeps that wasn't noted before.
fn reserve_names(names: &mut Vec<Option<u32>>, items: usize) -> Result<(), Refusal>
    ensures items { OnOk result (items ≤ length names.new.items) }
    ensures more { length names.old.items ≤ length names.new.items }
    ensures no_more { (n : ℕ) → length names.old.items ≤ n → items ≤ n → length names.new.items ≤ n }
    ensures same { (id : ℕ) → sleep_at names.new.items id ≡ sleep_at names.old.items id }
    ensures memory_only { IsOkUnless result Refusal.NoMemory }
{
    names.reserve(items.max(names.len()) - names.len())?;
    fill_names(names, items);
    Ok(())
}

/// Puts an item that doesn't sleep into the set of a name.
fn put(names: &mut Vec<Option<u32>>, sets: &mut LinkedSets, name: u32, id: u32)
    requires kept { IsSleeping names.old.items sets.old }
    requires below { id < length names.old.items }
    requires named { name < length sets.old.sets }
    requires awake { sleep_at names.old.items id ≡ None }
    ensures kept { IsSleeping names.new.items sets.new }
    ensures names { names.new.items ≡ slice_set names.old.items id (Some name) }
    ensures sets { length sets.new.sets ≡ length sets.old.sets }
{
    sets.insert(name, id);
    names[id as usize] = Some(name);
}

/// Takes an item out of the set of a name.
fn take(names: &mut Vec<Option<u32>>, sets: &mut LinkedSets, name: u32, id: u32)
    requires kept { IsSleeping names.old.items sets.old }
    requires there { Contains (list_at sets.old.sets name) id }
    ensures kept { IsSleeping names.new.items sets.new }
    ensures names { names.new.items ≡ slice_set names.old.items id None }
    ensures fewer { length (list_at sets.new.sets name) < length (list_at sets.old.sets name) }
    ensures sets { length sets.new.sets ≡ length sets.old.sets }
{
    sets.remove(name, id);
    names[id as usize] = None;
}

/// Takes all items out of the set of a name.
fn take_all(names: &mut Vec<Option<u32>>, sets: &mut LinkedSets, name: u32)
    requires { IsSleeping names.old.items sets.old }
    ensures kept { IsSleeping names.new.items sets.new }
    ensures names { names.new.items ≡ map (woken name) names.old.items }
    ensures sets { length sets.new.sets ≡ length sets.old.sets }
{
    let mut next = sets.first(name);
    while let Some(id) = next {
        take(names, sets, name, id);
        next = sets.first(name);
    }
}

impl SleepingSets {
    /// No items, and no names.
    pub fn new(alloc: Global) -> SleepingSets
        ensures names { result.names ≡ [] }
        ensures sets { result.sets ≡ [] }
    {
        SleepingSets {
            names: Vec::new(alloc),
            sets: LinkedSets::new(alloc),
        }
    }

    /// Lets items whose numbers are below `items` be put in, and sets have names below `names`. Refused 1 where memory
    /// is wanting.
    pub fn reserve(&mut self, items: usize, names: usize) -> Result<(), Refusal>
        ensures items { OnOk result (items ≤ length self.new.names) }
        ensures sets { OnOk result (names ≤ length self.new.sets) }
        ensures more_items { length self.old.names ≤ length self.new.names }
        ensures more_sets { length self.old.sets ≤ length self.new.sets }
        ensures same { (id : ℕ) → sleep_at self.new.names id ≡ sleep_at self.old.names id }
        ensures memory_only { IsOkUnless result Refusal.NoMemory }
    {
        self.sets.reserve(names, items)?;
        reserve_names(&mut self.names, items)
    }

    /// The name under which an item sleeps, if it does.
    pub fn name_of(&self, id: u32) -> Option<u32>
        ensures { result ≡ sleep_at self.now.names id }
    {
        match self.names.get(id as usize) {
            None => None,
            Some(name) => *name,
        }
    }

    /// What is known of the sets: the items of a name's set are those that sleep under it, each once. The function does
    /// nothing; its contract is the law.
    #[inline(always)]
    pub fn know_sets(&self)
        ensures those { (name id : ℕ) → Contains (list_at self.now.sets name) id ↔ (sleep_at self.now.names id ≡ Some name) }
        ensures once { (name : ℕ) → AreOnce (list_at self.now.sets name) }
    {
        self.sets.know_once();
    }

    /// The first item of a name's set, if it has one.
    #[inline(always)]
    pub fn first(&self, name: u32) -> Option<u32>
        ensures { result ≡ slice_get (list_at self.now.sets name) 0 }
    {
        self.sets.first(name)
    }

    /// The item that comes behind this one in its set, if one does. Of an item that is in no set nothing is promised.
    #[inline(always)]
    pub fn behind(&self, id: u32) -> Option<u32>
        ensures { (name : ℕ) (front back : List ℕ) → list_at self.now.sets name ≡ front ++ id ∷ back → result ≡ slice_get back 0 }
    {
        self.sets.behind(id)
    }

    /// Puts an item that doesn't sleep into the set of a name.
    pub fn insert(&mut self, name: u32, id: u32)
        requires below { id < length self.old.names }
        requires named { name < length self.old.sets }
        requires awake { sleep_at self.old.names id ≡ None }
        ensures names { self.new.names ≡ slice_set self.old.names id (Some name) }
        ensures sets { length self.new.sets ≡ length self.old.sets }
    {
        put(&mut self.names, &mut self.sets, name, id);
    }

    /// All items of a name's set are awake, in a time that goes by their number.
    pub fn wake(&mut self, name: u32)
        ensures names { self.new.names ≡ map (woken name) self.old.names }
        ensures sets { length self.new.sets ≡ length self.old.sets }
    {
        take_all(&mut self.names, &mut self.sets, name);
    }
}
