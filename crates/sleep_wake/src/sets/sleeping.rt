//! Islands are split and fall asleep, with their constraints: one by one, or in the sleep phase of a step.

ghost use Rattle.std.specs.Prelude.{◌≡◌, ℕ, List, true, false, Some};
ghost use Rattle.islands.specs.Labels.{label_at};
ghost use Rattle.sleep_wake.specs.Waking.{put_to_rest};
ghost use Rattle.sleep_wake.specs.SleepPhase.{is_island, split_at, picked_to_split, split_picked, sleep_phase, ready_put_to_rest};
ghost use Rattle.sleep_wake.specs.AwakeSlots.{AreAwakeSlots, AgreeAwake};
ghost use Rattle.sleep_wake.specs.Sleeping.{split_if_loose, rested_at, slept_at};
ghost use Rattle.sleep_wake.specs.Resting.{is_whole};

use crate::movers_in_islands::release_each;
use crate::phase::{list_leasts, pick_split, rest_each};
use crate::resting::release_resting;
use crate::sets::Sets;
use crate::splits::list_edges;
use crate::tie_source::TieSource;
use graph_colours::ConstraintId;
use islands::Label;

impl<C: ConstraintId> Sets<C> {
    /// Puts a whole island that is awake to rest, by its name: its constraints give up their colours.
    pub fn put_to_rest<T: TieSource<C>>(&mut self, name: u32, source: &T)
        requires island { is_island false name (label_at self.old.acting.labels name) ≡ true }
        requires source { T.ties source.now ≡ self.old.acting.ties }
        ensures acting { self.new.acting ≡ put_to_rest C.number name self.old.acting }
        ensures room { self.new.room ≡ self.old.room }
        ensures slots { self.new.slots ≡ self.old.slots }
    {
        self.work
            .gathering
            .gather(&self.graph.islands, &self.graph.ties, source, name);
        release_each(&mut self.graph.colours, self.work.gathering.list());
        self.graph.islands.rest(name);
    }

    /// Replaces a loose island by its components, by its name. No constraint changes.
    #[tactic(auto, unfolding(crate::specs::SleepPhase::split_at))]
    pub fn split<T: TieSource<C>>(&mut self, name: u32, source: &T)
        requires island { is_island true name (label_at self.old.acting.labels name) ≡ true }
        requires source { T.ties source.now ≡ self.old.acting.ties }
        ensures acting { self.new.acting ≡ split_at name self.old.acting }
        ensures room { self.new.room ≡ self.old.room }
        ensures slots { self.new.slots ≡ self.old.slots }
    {
        self.work
            .gathering
            .gather(&self.graph.islands, &self.graph.ties, source, name);
        list_edges(
            &mut self.work.edges,
            &self.graph.islands,
            self.work.gathering.list(),
            name,
        );
        self.graph
            .islands
            .split(name, &self.work.edges, &mut self.work.scratch);
    }

    /// Puts a mover to sleep with its island, which is split first where it is loose. One that sleeps stays as it is.
    #[tactic(auto, unfolding(crate::specs::Sleeping::slept_at))]
    pub fn sleep<T: TieSource<C>>(&mut self, slot: u32, source: &T)
        requires source { T.ties source.now ≡ self.old.acting.ties }
        ensures acting { self.new.acting ≡ slept_at C.number slot self.old.acting }
        ensures room { self.new.room ≡ self.old.room }
        ensures slots { self.new.slots ≡ self.old.slots }
    {
        self.know_consistent();
        if let Some(label) = self.label_of(slot)
            && !label.state.is_asleep()
        {
            self.split_if_loose(label, source);
            self.rest_at(slot, source);
        }
    }

    /// Splits the island of this label, if it is loose.
    fn split_if_loose<T: TieSource<C>>(&mut self, label: Label, source: &T)
        requires island { label_at self.old.acting.labels label.name ≡ Some label }
        requires source { T.ties source.now ≡ self.old.acting.ties }
        ensures acting { self.new.acting ≡ split_if_loose label self.old.acting }
        ensures room { self.new.room ≡ self.old.room }
        ensures slots { self.new.slots ≡ self.old.slots }
    {
        if label.state.is_loose() {
            self.split(label.name, source);
        }
    }

    /// Puts the whole island of an awake mover to rest.
    fn rest_at<T: TieSource<C>>(&mut self, slot: u32, source: &T)
        requires whole { is_whole (label_at self.old.acting.labels slot) ≡ true }
        requires source { T.ties source.now ≡ self.old.acting.ties }
        ensures acting { self.new.acting ≡ rested_at C.number slot self.old.acting }
        ensures room { self.new.room ≡ self.old.room }
        ensures slots { self.new.slots ≡ self.old.slots }
    {
        self.know_consistent();
        if let Some(label) = self.label_of(slot) {
            self.put_to_rest(label.name, source);
        }
    }

    /// The sleep phase of a step, with the timers of the movers by slot, in ticks: of the loose islands that are ready
    /// one is split, the one that has been slow for longest, and then each whole one that is ready falls asleep. An
    /// island is ready where the timers of all its movers are at least `TICKS_TO_SLEEP`; one with a mover that may not
    /// sleep is kept awake by a timer of 0 there. The awake movers' slots are told, and of the timers only theirs
    /// matter, so that it takes time by the awake movers and by the constraints that act.
    pub fn sleep_phase<T: TieSource<C>>(&mut self, timers: &[u64], awake: &[u32], source: &T)
        requires awake { AreAwakeSlots self.old.acting.labels awake.now }
        requires source { T.ties source.now ≡ self.old.acting.ties }
        ensures acting { (all : List ℕ) → AgreeAwake self.old.acting.labels timers.now all → self.new.acting ≡ sleep_phase C.number all self.old.acting }
        ensures room { self.new.room ≡ self.old.room }
        ensures slots { self.new.slots ≡ self.old.slots }
    {
        self.know_consistent();
        self.split_ready(timers, awake, source);
        self.flush();
        self.rest_ready(timers, awake);
    }

    /// Splits the loose island that is ready, if there is one.
    fn split_ready<T: TieSource<C>>(&mut self, timers: &[u64], awake: &[u32], source: &T)
        requires awake { AreAwakeSlots self.old.acting.labels awake.now }
        requires source { T.ties source.now ≡ self.old.acting.ties }
        ensures acting { self.new.acting ≡ split_picked (picked_to_split self.old.acting.labels timers.now) self.old.acting }
        ensures room { self.new.room ≡ self.old.room }
        ensures slots { self.new.slots ≡ self.old.slots }
    {
        if let Some(name) = self.pick_split(timers, awake) {
            self.split(name, source);
        }
    }

    /// The loose island that a sleep phase splits: of those that are ready the one that has been slow for longest.
    fn pick_split(&mut self, timers: &[u64], awake: &[u32]) -> Option<u32>
        requires awake { AreAwakeSlots self.old.acting.labels awake.now }
        ensures picked { result ≡ picked_to_split self.old.acting.labels timers.now }
        ensures same { self.new ≡ self.old }
    {
        pick_split(&mut self.work.leasts, &self.graph.islands, timers, awake)
    }

    /// Each whole island that is ready falls asleep: all together, and not one after the other, so that it takes time
    /// by the awake movers, whose slots are told, and by the constraints that act. No edit of the colours is put off.
    fn rest_ready(&mut self, timers: &[u64], awake: &[u32])
        requires awake { AreAwakeSlots self.old.acting.labels awake.now }
        requires rest { self.old.pending ≡ 0 }
        ensures acting { self.new.acting ≡ ready_put_to_rest C.number timers.now self.old.acting }
        ensures room { self.new.room ≡ self.old.room }
        ensures slots { self.new.slots ≡ self.old.slots }
    {
        list_leasts(&mut self.work.leasts, &self.graph.islands, timers, awake);
        release_resting(
            &self.graph.islands,
            &mut self.graph.colours,
            &mut self.graph.ties,
            &self.work.leasts,
            &mut self.work.spare,
        );
        rest_each(&mut self.graph.islands, &self.work.leasts, awake);
    }
}
