//! What is kept of the world that a journal begins with.

ghost use Rattle.std.specs.Prelude.{◌≡◌, IfOk};
ghost use Rattle.std.specs.Result.{IsOkUnless};
ghost use Rattle.impulse_ledger.specs.Sums.{totals_of};
ghost use Rattle.world_rules.specs.Sound.{IsSound};
ghost use Rattle.world_rules.specs.World.{book_of};
ghost use Rattle.world_lock.specs.Journals.{beginning_at};

use fixed_geom::Refusal;
use impulse_ledger::{Cause, Ledger, Totals};
use std::marker::Model;
use world_core::{Events, Plain, WorldCore};

/// The world that a journal begins with: its plain lists, its events, and the totals of its ledger.
#[derive(Drop)]
pub struct Opening {
    plain: Plain,
    events: Events,
    totals: Totals,
    booked: usize,
}

impl Model for Opening {
    ghost use Rattle.world_lock.specs.Journals.{Beginning};

    ghost Value = { Beginning };

    ghost view = { λ a. record { plain = a.plain; events = a.events; totals = a.totals; booked = a.booked } };
}

impl Opening {
    /// This world as it is now.
    pub(crate) fn at(world: &WorldCore) -> Result<Opening, Refusal>
        ensures beginning { IfOk result (λ opening. opening ≡ beginning_at world.now) }
        ensures sound { IsSound world.now }
        ensures memory_only { IsOkUnless result Refusal.NoMemory }
    {
        let plain = world.plain()?;
        let events = world.events().try_copy()?;
        let ledger = world.ledger();
        Ok(Opening {
            plain,
            events,
            totals: totals_of(ledger),
            booked: ledger.entries().len(),
        })
    }

    /// The same, of a ledger whose entries were settled.
    pub(crate) fn settled(self) -> Opening
        ensures { result ≡ record self { booked = 0 } }
    {
        Opening { booked: 0, ..self }
    }

    /// The plain lists of the world.
    pub fn plain(&self) -> &Plain
        ensures { result.now ≡ self.now.plain }
    {
        &self.plain
    }

    /// The events of the world's last step before.
    pub fn events(&self) -> &Events
        ensures { result.now ≡ self.now.events }
    {
        &self.events
    }

    /// The totals of the world's ledger.
    pub fn totals(&self) -> Totals
        ensures { result ≡ self.now.totals }
    {
        self.totals
    }
}

/// The totals of all causes.
fn totals_of(ledger: &Ledger) -> Totals
    ensures { result ≡ totals_of ledger.now }
{
    Totals {
        command: ledger.total_of(Cause::Command),
        gravity: ledger.total_of(Cause::Gravity),
        immovable: ledger.total_of(Cause::Immovable),
        clamp: ledger.total_of(Cause::Clamp),
        rest: ledger.total_of(Cause::Rest),
        departed: ledger.total_of(Cause::Departed),
    }
}
