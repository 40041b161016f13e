//! Bodies that come into the islands, and that leave them.

ghost use Rattle.std.specs.Prelude.{◌≡◌, ◌<◌, ◌^◌, cond, filter, false, true, [], None};
ghost use Rattle.plain_world.specs.Constraints.{constraint_number};
ghost use Rattle.graph_colours.specs.Movers.{has_mover};
ghost use Rattle.islands.specs.Labels.{label_at};
ghost use Rattle.sleep_wake.specs.Acting.{is_mover_awake};
ghost use Rattle.sleep_wake.specs.Bodies.{mover_gone, mover_made};
ghost use Rattle.sleep_wake.specs.Changes.{each_ended};
ghost use Rattle.sleep_wake.specs.ChangeLists.{CanEnd};

use graph_colours::Member;
use plain_world::Constraint;
use sleep_wake::Sets;

/// A body comes: a mover has an island of its own.
pub(crate) fn come(sets: &mut Sets<Constraint>, slot: u32, mover: bool)
    requires fresh { label_at sets.old.acting.labels slot ≡ None }
    requires below { slot < sets.old.slots }
    ensures acting { sets.new.acting ≡ cond mover (mover_made slot sets.old.acting) sets.old.acting }
    ensures room { sets.new.room ≡ sets.old.room }
    ensures slots { sets.new.slots ≡ sets.old.slots }
{
    if mover {
        sets.add_mover(slot);
    }
}

/// A body leaves: its constraints end, each in turn, and a mover leaves its island.
pub(crate) fn leave(
    sets: &mut Sets<Constraint>,
    slot: u32,
    mover: bool,
    ties: &[Member<Constraint>],
)
    requires can { CanEnd constraint_number ties.now sets.old.acting }
    requires awake { mover ≡ true → is_mover_awake (each_ended constraint_number ties.now sets.old.acting).labels slot ≡ true }
    requires alone { mover ≡ true → filter (λ m. has_mover m.movers slot) (each_ended constraint_number ties.now sets.old.acting).ties ≡ [] }
    ensures acting { sets.new.acting ≡ cond mover (mover_gone constraint_number slot (each_ended constraint_number ties.now sets.old.acting)) (each_ended constraint_number ties.now sets.old.acting) }
    ensures room { sets.new.room ≡ sets.old.room }
    ensures slots { sets.new.slots ≡ sets.old.slots }
{
    sets.end_each(ties);
    if mover {
        sets.remove_mover(slot);
    }
}
