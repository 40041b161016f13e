//! A joint or a contact that begins or ends among the constraints of a world.

ghost use Rattle.std.specs.Prelude.{◌≡◌, ◌<◌, true, false, length, Contains};
ghost use Rattle.std.specs.Option.{ForSome};
ghost use Rattle.plain_world.specs.Constraints.{constraint_number};
ghost use Rattle.graph_colours.specs.FoundMembers.{has_id};
ghost use Rattle.sleep_wake.specs.Acting.{are_awake};
ghost use Rattle.solver_sets.specs.Ties.{begun_with, ended_with};

use graph_colours::{Member, Movers};
use plain_world::Constraint;
use sleep_wake::Sets;

/// A constraint comes, if it has movers: these are awake, and there is room. The islands of two movers are merged, and
/// it takes the least colour that is free.
pub fn begin_with(sets: &mut Sets<Constraint>, id: Constraint, movers: Option<Movers>)
    requires fresh { has_id constraint_number id sets.old.acting.ties ≡ false }
    requires awake { ForSome movers (λ m. are_awake sets.old.acting.labels m ≡ true) }
    requires room { length sets.old.acting.ties < sets.old.room }
    ensures acting { sets.new.acting ≡ begun_with id movers sets.old.acting }
    ensures room { sets.new.room ≡ sets.old.room }
    ensures slots { sets.new.slots ≡ sets.old.slots }
{
    if let Some(movers) = movers {
        sets.begin(Member { id, movers });
    }
}

/// A constraint goes, if it has movers, which are awake: it gives up its colour, and the island of two movers gets
/// loose.
pub fn end_with(sets: &mut Sets<Constraint>, id: Constraint, movers: Option<Movers>)
    requires there { ForSome movers (λ m. Contains sets.old.acting.ties (record { id = id; movers = m })) }
    requires awake { ForSome movers (λ m. are_awake sets.old.acting.labels m ≡ true) }
    ensures acting { sets.new.acting ≡ ended_with id movers sets.old.acting }
    ensures room { sets.new.room ≡ sets.old.room }
    ensures slots { sets.new.slots ≡ sets.old.slots }
{
    if let Some(movers) = movers {
        sets.end(Member { id, movers });
    }
}
