//! Constraints come and go, with their colours and with the links that they make.

ghost use Rattle.std.specs.Prelude.{◌≡◌, ◌<◌, ◌≤◌, ◌+◌, ◌∷◌, [], true, false, length, Contains};
ghost use Rattle.sleep_wake.specs.declared.change.Change.TheVariants.{Begin, End};
ghost use Rattle.graph_colours.specs.FoundMembers.{has_id};
ghost use Rattle.sleep_wake.specs.Acting.{are_awake, AreMovers};
ghost use Rattle.sleep_wake.specs.Changes.{united, parted, begun, ended, each_begun, each_ended, after_change, after_changes};
ghost use Rattle.sleep_wake.specs.ChangeLists.{CanBegin, CanEnd, begin_count, IsChange, AreChanges};
ghost use Rattle.sleep_wake.specs.Sources.{TellsAsleep};

use crate::change::Change;
use crate::sets::Sets;
use crate::tie_source::TieSource;
use graph_colours::{ConstraintId, Member, Movers};
use islands::Islands;

/// Merges the islands of two movers that get a link.
fn unite(islands: &mut Islands, movers: Movers)
    requires { AreMovers islands.old.labels movers }
    ensures labels { islands.new.labels ≡ united movers.second movers.first islands.old.labels }
    ensures room { islands.new.room ≡ islands.old.room }
{
    if let Some(second) = movers.second {
        islands.merge(movers.first, second);
    }
}

/// Makes the island of two movers loose that lose a link.
fn part(islands: &mut Islands, movers: Movers)
    requires { AreMovers islands.old.labels movers }
    ensures labels { islands.new.labels ≡ parted movers.second movers.first islands.old.labels }
    ensures room { islands.new.room ≡ islands.old.room }
{
    if let Some(_) = movers.second {
        islands.loosen(movers.first);
    }
}

impl<C: ConstraintId> Sets<C> {
    // ---- one begins or ends

    /// A constraint comes whose movers are awake: the islands of two movers are merged, and it takes the least colour
    /// that is free.
    pub fn begin(&mut self, member: Member<C>)
        requires fresh { has_id C.number member.id self.old.acting.ties ≡ false }
        requires awake { are_awake self.old.acting.labels member.movers ≡ true }
        requires room { length self.old.acting.ties < self.old.room }
        ensures acting { self.new.acting ≡ begun C.number member self.old.acting }
        ensures room { self.new.room ≡ self.old.room }
        ensures slots { self.new.slots ≡ self.old.slots }
    {
        self.graph.ties.insert(member, &mut self.work.spare);
        unite(&mut self.graph.islands, member.movers);
        let _ = self.graph.colours.place(member.id, member.movers);
    }

    /// A constraint goes whose movers are awake: it gives up its colour, and the island of two movers gets loose.
    pub fn end(&mut self, member: Member<C>)
        requires there { Contains self.old.acting.ties member }
        requires awake { are_awake self.old.acting.labels member.movers ≡ true }
        ensures acting { self.new.acting ≡ ended C.number member self.old.acting }
        ensures room { self.new.room ≡ self.old.room }
        ensures slots { self.new.slots ≡ self.old.slots }
    {
        let _ = self.graph.ties.remove(member.id, &mut self.work.spare);
        part(&mut self.graph.islands, member.movers);
        self.graph.colours.release_member(member);
    }

    // ---- several begin or end

    /// Constraints come whose movers are awake, one after the other.
    pub fn begin_each(&mut self, members: &[Member<C>])
        requires can { CanBegin C.number members.now self.old.acting }
        requires room { length self.old.acting.ties + length members.now ≤ self.old.room }
        ensures acting { self.new.acting ≡ each_begun C.number members.now self.old.acting }
        ensures room { self.new.room ≡ self.old.room }
        ensures slots { self.new.slots ≡ self.old.slots }
    {
        self.know_consistent();
        for place in 0..members.len() {
            self.begin(members[place]);
        }
    }

    /// Constraints go whose movers are awake, one after the other.
    pub fn end_each(&mut self, members: &[Member<C>])
        requires can { CanEnd C.number members.now self.old.acting }
        ensures acting { self.new.acting ≡ each_ended C.number members.now self.old.acting }
        ensures room { self.new.room ≡ self.old.room }
        ensures slots { self.new.slots ≡ self.old.slots }
    {
        self.know_consistent();
        for place in 0..members.len() {
            self.end(members[place]);
        }
    }

    // ---- whoever sleeps

    /// A constraint begins whose movers wake before, if they sleep.
    fn begin_awake<T: TieSource<C>>(&mut self, member: Member<C>, source: &T)
        requires can { IsChange C.number self.old.acting.labels self.old.acting.ties (Begin member) }
        requires room { length self.old.acting.ties < self.old.room }
        requires source { TellsAsleep (T.names source.now) (T.ties source.now) self.old.acting.labels self.old.acting.ties }
        ensures acting { self.new.acting ≡ after_change C.number (Begin member) self.old.acting }
        ensures room { self.new.room ≡ self.old.room }
        ensures slots { self.new.slots ≡ self.old.slots }
    {
        self.know_consistent();
        self.wake_movers(member.movers, source);
        self.begin(member);
    }

    /// A constraint ends whose movers wake before, if they sleep.
    fn end_awake<T: TieSource<C>>(&mut self, member: Member<C>, source: &T)
        requires can { IsChange C.number self.old.acting.labels self.old.acting.ties (End member) }
        requires source { TellsAsleep (T.names source.now) (T.ties source.now) self.old.acting.labels self.old.acting.ties }
        ensures acting { self.new.acting ≡ after_change C.number (End member) self.old.acting }
        ensures room { self.new.room ≡ self.old.room }
        ensures slots { self.new.slots ≡ self.old.slots }
    {
        self.know_consistent();
        self.wake_movers(member.movers, source);
        self.end(member);
    }

    /// A constraint begins or ends, and its sleeping movers wake before.
    fn change<T: TieSource<C>>(&mut self, change: Change<C>, source: &T)
        requires can { IsChange C.number self.old.acting.labels self.old.acting.ties change }
        requires room { length self.old.acting.ties + begin_count (change ∷ []) ≤ self.old.room }
        requires source { TellsAsleep (T.names source.now) (T.ties source.now) self.old.acting.labels self.old.acting.ties }
        ensures acting { self.new.acting ≡ after_change C.number change self.old.acting }
        ensures room { self.new.room ≡ self.old.room }
        ensures slots { self.new.slots ≡ self.old.slots }
    {
        match change {
            Change::Begin(member) => self.begin_awake(member, source),
            Change::End(member) => self.end_awake(member, source),
        }
    }

    /// Constraints begin and end, each at its turn, as the contacts of a step do. The sleeping movers of each wake
    /// before it. The source tells the constraints as they were before all of these: what has begun or ended has awake
    /// movers, so that no sleeping island has gained or lost one.
    pub fn apply_changes<T: TieSource<C>>(&mut self, changes: &[Change<C>], source: &T)
        requires can { AreChanges C.number self.old.acting.labels self.old.acting.ties changes.now }
        requires room { length self.old.acting.ties + begin_count changes.now ≤ self.old.room }
        requires source { TellsAsleep (T.names source.now) (T.ties source.now) self.old.acting.labels self.old.acting.ties }
        ensures acting { self.new.acting ≡ after_changes C.number changes.now self.old.acting }
        ensures room { self.new.room ≡ self.old.room }
        ensures slots { self.new.slots ≡ self.old.slots }
    {
        self.know_consistent();
        for place in 0..changes.len() {
            self.change(changes[place], source);
        }
    }
}
