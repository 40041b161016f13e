//! Islands wake, with their constraints.

ghost use Rattle.std.specs.Prelude.{◌≡◌, true, Some};
ghost use Rattle.islands.specs.Labels.{label_at, is_asleep};
ghost use Rattle.sleep_wake.specs.Waking.{set_woken, woken_at, movers_woken};
ghost use Rattle.sleep_wake.specs.Sleeping.{islands_woken};
ghost use Rattle.sleep_wake.specs.Sources.{TellsAsleep};

use crate::movers_in_islands::place_each;
use crate::sets::Sets;
use crate::tie_source::TieSource;
use graph_colours::{ConstraintId, Movers};
use islands::Label;

impl<C: ConstraintId> Sets<C> {
    /// Wakes the island of the mover in the slot, if it sleeps: its constraints take colours in their order. Takes no
    /// memory: there is room for all constraints that have no colour. The source tells the constraints of what sleeps.
    #[tactic(auto, unfolding(crate::specs::Waking::woken_at))]
    pub fn wake<T: TieSource<C>>(&mut self, slot: u32, source: &T)
        requires source { TellsAsleep (T.names source.now) (T.ties source.now) self.old.acting.labels self.old.acting.ties }
        ensures acting { self.new.acting ≡ woken_at C.number slot self.old.acting }
        ensures room { self.new.room ≡ self.old.room }
        ensures slots { self.new.slots ≡ self.old.slots }
    {
        self.know_consistent();
        if let Some(label) = self.label_of(slot)
            && label.state.is_asleep()
        {
            self.wake_island(label, source);
        }
    }

    /// Wakes the island of this label, which sleeps: its movers are awake, and its constraints have colours.
    fn wake_island<T: TieSource<C>>(&mut self, label: Label, source: &T)
        requires island { label_at self.old.acting.labels label.name ≡ Some label }
        requires asleep { is_asleep label.state ≡ true }
        requires source { TellsAsleep (T.names source.now) (T.ties source.now) self.old.acting.labels self.old.acting.ties }
        ensures acting { self.new.acting ≡ set_woken C.number label.name self.old.acting }
        ensures room { self.new.room ≡ self.old.room }
        ensures slots { self.new.slots ≡ self.old.slots }
    {
        let name = label.name;
        self.work
            .gathering
            .gather_asleep(&self.graph.islands, &self.graph.ties, source, name);
        place_each(&mut self.graph.colours, self.work.gathering.list());
        self.graph.islands.wake(name);
    }

    /// Wakes the islands of a constraint's movers, those that sleep, the first one's first.
    pub fn wake_movers<T: TieSource<C>>(&mut self, movers: Movers, source: &T)
        requires source { TellsAsleep (T.names source.now) (T.ties source.now) self.old.acting.labels self.old.acting.ties }
        ensures acting { self.new.acting ≡ movers_woken C.number movers self.old.acting }
        ensures room { self.new.room ≡ self.old.room }
        ensures slots { self.new.slots ≡ self.old.slots }
    {
        self.know_consistent();
        self.wake(movers.first, source);
        if let Some(second) = movers.second {
            self.wake(second, source);
        }
    }

    /// Wakes the islands of these names, those that sleep, one after the other.
    pub fn wake_named<T: TieSource<C>>(&mut self, names: &[u32], source: &T)
        requires source { TellsAsleep (T.names source.now) (T.ties source.now) self.old.acting.labels self.old.acting.ties }
        ensures acting { self.new.acting ≡ islands_woken C.number names.now self.old.acting }
        ensures room { self.new.room ≡ self.old.room }
        ensures slots { self.new.slots ≡ self.old.slots }
    {
        self.know_consistent();
        for place in 0..names.len() {
            self.wake(names[place], source);
        }
    }
}
