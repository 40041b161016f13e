//! Flags by place, and how many of them are set.

ghost use Rattle.std.specs.Prelude.{◌≡◌, All, IfOk, IsTrue, [], false, replicate, slice_set, true};
ghost use Rattle.std.specs.Result.{IsOkUnless};
ghost use Rattle.contacts_base.specs.Split.{is_over, over_at};

use fixed_geom::Refusal;
use std::alloc::Global;
use std::marker::Model;

/// Flags by place. Contracts see the list of them.
#[derive(Drop)]
pub(crate) struct CountedFlags {
    flags: Vec<bool>,
    // How many are set.
    count: usize,
}

impl Model for CountedFlags {
    ghost use Rattle.std.specs.Prelude.{Bool, List};
    ghost use Rattle.contacts_base.specs.Flags.{IsCounted};

    ghost Value = { List Bool };

    ghost view = { λ a. a.flags.items };

    ghost invariant = { λ a. IsCounted a.count a.flags.items };
}

/// Sets the flag at a place, if there is one. Answers whether it wasn't set before.
fn set_anew(flags: &mut Vec<bool>, place: usize) -> bool
    ensures flags { flags.new.items ≡ slice_set flags.old.items place true }
    ensures same { result ≡ false → flags.new.items ≡ flags.old.items }
{
    if place >= flags.len() || flags[place] {
        return false;
    }
    flags[place] = true;
    true
}

impl CountedFlags {
    /// No flags.
    pub fn new(alloc: Global) -> CountedFlags
        ensures { result ≡ [] }
    {
        CountedFlags {
            flags: Vec::new(alloc),
            count: 0,
        }
    }

    /// As many flags as asked for, of which none is set.
    pub fn none_set(alloc: Global, len: usize) -> Result<CountedFlags, Refusal>
        ensures value { IfOk result (λ flags. flags ≡ replicate len false) }
        ensures memory_only { IsOkUnless result Refusal.NoMemory }
    {
        let mut flags = Vec::new(alloc);
        flags.resize(len, false)?;
        Ok(CountedFlags { flags, count: 0 })
    }

    /// How many are set.
    pub fn count(&self) -> usize {
        self.count
    }

    /// Whether no flag is set.
    pub fn are_none_set(&self) -> bool
        ensures { IsTrue result → All (λ flag. flag ≡ false) self.now }
    {
        self.count == 0
    }

    /// Whether the flag at a place is set; a place beyond them has none that is.
    #[inline(always)]
    pub fn is_set(&self, place: usize) -> bool
        ensures { result ≡ is_over self.now place }
    {
        match self.flags.get(place) {
            None => false,
            Some(flag) => *flag,
        }
    }

    /// Sets the flag at a place, if there is one.
    pub fn set(&mut self, place: usize)
        ensures { self.new ≡ slice_set self.old place true }
    {
        let anew = set_anew(&mut self.flags, place);
        self.count = self.count.saturating_add(anew as usize);
    }

    /// Sets the flags at these places, where there are some.
    pub fn set_all(&mut self, places: &[usize])
        ensures { self.new ≡ over_at places.now self.old }
    {
        for place in places {
            self.set(*place);
        }
    }
}
