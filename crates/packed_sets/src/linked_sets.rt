//! Numbered sets of numbers, each a thread through what is in it.

ghost use Rattle.std.specs.Prelude.{◌≡◌, ◌<◌, ◌≤◌, ◌∷◌, ◌++◌, ℕ, [], List, None, Some, cond, length, nat_lt, slice_get, Contains, OnErr, OnOk};
ghost use Rattle.std.specs.Result.{IsOkUnless};
ghost use Rattle.packed_sets.specs.Linked.{AreLinked, behind_at, head_at, sets_of, with_before, with_behind, with_head};
ghost use Rattle.packed_sets.specs.Packs.{IsAbsent, IsPut, IsTaken, list_at};
ghost use Rattle.packed_sets.specs.Once.{AreOnce};
ghost use Rattle.packed_sets.specs.declared.items.TheConstants.{MAX_ITEMS};

use crate::items::{MAX_ITEMS, NO_ITEM};
use crate::set_room::{fill, reserve_in_all};
use fixed_geom::Refusal;
use std::alloc::Global;
use std::marker::Model;

/// What is beside an id in its set.
#[derive(Clone, Copy)]
pub(crate) struct Link {
    before: u32,
    behind: u32,
}

/// That of an id which is in no set.
const NO_LINK: Link = Link {
    before: NO_ITEM,
    behind: NO_ITEM,
};

/// Numbered sets of ids, which are numbers, each in one set at most. Contracts see the ids of each set (`sets`) in the
/// order in which they are told, and below which number ids have to be (`ids`).
///
/// A set is a thread: its first id stands at its number, and each id tells which one is before it and which is behind
/// it. So an id comes and goes in constant time, and room for an id is room in whatever set it comes to.
#[derive(Drop)]
pub struct LinkedSets {
    // By id.
    links: Vec<Link>,
    // By set its first id.
    heads: Vec<u32>,
}

impl Model for LinkedSets {
    ghost use Rattle.std.specs.Prelude.{length};
    ghost use Rattle.packed_sets.specs.Linked.{AreLinked, Linked, sets_of};

    ghost Value = { Linked };

    ghost view = { λ a. record { sets = sets_of a.links.items a.heads.items; ids = length a.links.items } };

    ghost invariant = { λ a. AreLinked a.links.items a.heads.items };
}

/// The first id of the set with this number; [`NO_ITEM`] where it has none.
fn first_of(heads: &[u32], set: u32) -> u32
    ensures { result ≡ head_at heads.now set }
{
    match heads.get(set as usize) {
        Some(first) => *first,
        None => NO_ITEM,
    }
}

/// An id, unless it is none.
fn some_id(links: &[Link], id: u32) -> Option<u32>
    ensures { result ≡ cond (nat_lt id (length links.now)) (Some id) None }
{
    if (id as usize) < links.len() {
        Some(id)
    } else {
        None
    }
}

/// The id behind this one in its set; [`NO_ITEM`] where there is none.
fn behind_of(links: &[Link], id: u32) -> u32
    ensures { result ≡ behind_at links.now id }
{
    match links.get(id as usize) {
        None => NO_ITEM,
        Some(link) => link.behind,
    }
}

/// Notes which id is before this one, if this is an id.
fn set_before(links: &mut Vec<Link>, id: u32, before: u32)
    ensures { links.new.items ≡ with_before links.old.items id before }
{
    if (id as usize) < links.len() {
        let behind = links[id as usize].behind;
        links[id as usize] = Link { before, behind };
    }
}

/// Notes which id is behind this one, if this is an id.
fn set_behind(links: &mut Vec<Link>, id: u32, behind: u32)
    ensures { links.new.items ≡ with_behind links.old.items id behind }
{
    if (id as usize) < links.len() {
        let before = links[id as usize].before;
        links[id as usize] = Link { before, behind };
    }
}

/// Notes with which id a set begins, if none was before the one that goes.
fn set_head(heads: &mut Vec<u32>, set: u32, before: u32, behind: u32)
    requires { set < length heads.old.items }
    ensures { heads.new.items ≡ with_head heads.old.items set before behind }
{
    if before == NO_ITEM {
        heads[set as usize] = behind;
    }
}

/// Puts an id that is in no set before the others of a set.
fn link_first(links: &mut Vec<Link>, heads: &mut Vec<u32>, set: u32, id: u32)
    requires linked { AreLinked links.old.items heads.old.items }
    requires set { set < length heads.old.items }
    requires id { id < length links.old.items }
    requires absent { IsAbsent (sets_of links.old.items heads.old.items) id }
    ensures linked { AreLinked links.new.items heads.new.items }
    ensures put { IsPut (sets_of links.old.items heads.old.items) (sets_of links.new.items heads.new.items) set id }
    ensures ids { length links.new.items ≡ length links.old.items }
    ensures sets { length heads.new.items ≡ length heads.old.items }
{
    let first = heads[set as usize];
    links[id as usize] = Link {
        before: NO_ITEM,
        behind: first,
    };
    set_before(links, first, id);
    heads[set as usize] = id;
}

/// Takes an id out of its set.
fn unlink(links: &mut Vec<Link>, heads: &mut Vec<u32>, set: u32, id: u32)
    requires linked { AreLinked links.old.items heads.old.items }
    requires there { Contains (list_at (sets_of links.old.items heads.old.items) set) id }
    ensures linked { AreLinked links.new.items heads.new.items }
    ensures taken { IsTaken (sets_of links.old.items heads.old.items) (sets_of links.new.items heads.new.items) set id }
    ensures gone { IsAbsent (sets_of links.new.items heads.new.items) id }
    ensures ids { length links.new.items ≡ length links.old.items }
    ensures sets { length heads.new.items ≡ length heads.old.items }
{
    let beside = links[id as usize];
    set_head(heads, set, beside.before, beside.behind);
    set_behind(links, beside.before, beside.behind);
    set_before(links, beside.behind, beside.before);
}

impl LinkedSets {
    /// No sets, and no ids.
    pub fn new(alloc: Global) -> LinkedSets
        ensures sets { result.sets ≡ [] }
        ensures ids { result.ids ≡ 0 }
    {
        LinkedSets {
            links: Vec::new(alloc),
            heads: Vec::new(alloc),
        }
    }

    /// Makes sets of all numbers below `sets`, and lets ids below `ids` be put in. Refused 1 where memory is wanting,
    /// or there would be more than [`MAX_ITEMS`] ids. No set has other ids than before.
    pub fn reserve(&mut self, sets: usize, ids: usize) -> Result<(), Refusal>
        ensures made { OnOk result (sets ≤ length self.new.sets) }
        ensures noted { OnOk result (ids ≤ self.new.ids) }
        ensures sets { (set : ℕ) → list_at self.new.sets set ≡ list_at self.old.sets set }
        ensures more_sets { length self.old.sets ≤ length self.new.sets }
        ensures more_ids { self.old.ids ≤ self.new.ids }
        ensures refused { OnErr result (self.new ≡ self.old) }
        ensures memory_only { IsOkUnless result Refusal.NoMemory }
    {
        if ids > MAX_ITEMS {
            return Err(Refusal::NoMemory);
        }
        reserve_in_all(&mut self.links, ids)?;
        reserve_in_all(&mut self.heads, sets)?;
        fill(&mut self.links, ids, NO_LINK);
        fill(&mut self.heads, sets, NO_ITEM);
        Ok(())
    }

    /// How many sets there are.
    pub fn len(&self) -> usize
        ensures { result ≡ length self.now.sets }
    {
        self.heads.len()
    }

    /// What is known of the ids: none is twice in a set, none is in two sets, and each is below what ids have to be
    /// below. The function does nothing; its contract is the law.
    #[inline(always)]
    pub fn know_once(&self)
        ensures once { (set : ℕ) → AreOnce (list_at self.now.sets set) }
        ensures apart { (s t id : ℕ) → Contains (list_at self.now.sets s) id → Contains (list_at self.now.sets t) id → s ≡ t }
        ensures below { (set id : ℕ) → Contains (list_at self.now.sets set) id → id < self.now.ids }
        ensures few { self.now.ids ≤ MAX_ITEMS }
    {
        let _ = &self.links;
    }

    /// The first id of a set, if it has one.
    #[inline(always)]
    pub fn first(&self, set: u32) -> Option<u32>
        ensures { result ≡ slice_get (list_at self.now.sets set) 0 }
    {
        some_id(&self.links, first_of(&self.heads, set))
    }

    /// The id that comes behind this one in its set, if one does. Of an id that is in no set nothing is promised.
    #[inline(always)]
    pub fn behind(&self, id: u32) -> Option<u32>
        ensures { (set : ℕ) (front back : List ℕ) → list_at self.now.sets set ≡ front ++ id ∷ back → result ≡ slice_get back 0 }
    {
        some_id(&self.links, behind_of(&self.links, id))
    }

    /// Puts an id that is in no set into one. Takes no memory.
    pub fn insert(&mut self, set: u32, id: u32)
        requires there { set < length self.old.sets }
        requires noted { id < self.old.ids }
        requires absent { IsAbsent self.old.sets id }
        ensures put { IsPut self.old.sets self.new.sets set id }
        ensures sets { length self.new.sets ≡ length self.old.sets }
        ensures ids { self.new.ids ≡ self.old.ids }
    {
        link_first(&mut self.links, &mut self.heads, set, id);
    }

    /// Takes an id out of its set. Takes no memory.
    pub fn remove(&mut self, set: u32, id: u32)
        requires { Contains (list_at self.old.sets set) id }
        ensures taken { IsTaken self.old.sets self.new.sets set id }
        ensures gone { IsAbsent self.new.sets id }
        ensures sets { length self.new.sets ≡ length self.old.sets }
        ensures ids { self.new.ids ≡ self.old.ids }
    {
        unlink(&mut self.links, &mut self.heads, set, id);
    }
}
