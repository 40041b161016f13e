//! Who tells which constraints an island has: whoever keeps them by the sets in which they stand, and by their movers.

ghost use Rattle.std.specs.Prelude.{◌≡◌, ℕ, ◌+◌, ◌++◌, ◌≤◌, List, length, vec_capacity, Option as TheOption};
ghost use Rattle.std.specs.List.Sorted.{IsPermutation};
ghost use Rattle.graph_colours.specs.declared.member.Member.{Member as TheMember};
ghost use Rattle.sleep_wake.specs.Sources.{asleep_ties, first_ties};

use graph_colours::{ConstraintId, Member};

/// Tells constraints by sleeping island and by mover, into a list that has room for them. In what order the list then
/// has them, and what it had before, isn't promised. `WorldTies` of `world_core/src/world_ties.rt` implements it, over
/// the joints, the contacts and their sets, and what wakes, splits or rests islands of [`Sets`](crate::Sets) calls it,
/// in `gathering.rt`: this crate knows no bodies.
pub trait TieSource<C: ConstraintId> {
    /// The constraints that it knows.
    ghost ties: { Self → List (TheMember C) };

    /// By slot the name of the island with which the mover there sleeps, if it does, as the source knows it.
    ghost names: { Self → ℕ → TheOption ℕ };

    /// Adds the constraints whose first mover sleeps under this name.
    fn push_asleep(&self, name: u32, list: &mut Vec<Member<C>>)
        requires room { length list.old.items + length (asleep_ties (names self.now) name (ties self.now)) ≤ vec_capacity list.old }
        ensures pushed { IsPermutation (list.old.items ++ asleep_ties (names self.now) name (ties self.now)) list.new.items }
        ensures capacity { vec_capacity list.old ≤ vec_capacity list.new };

    /// Adds the constraints of which the mover in the slot is the first one.
    fn push_firsts(&self, slot: u32, list: &mut Vec<Member<C>>)
        requires room { length list.old.items + length (first_ties slot (ties self.now)) ≤ vec_capacity list.old }
        ensures pushed { IsPermutation (list.old.items ++ first_ties slot (ties self.now)) list.new.items }
        ensures capacity { vec_capacity list.old ≤ vec_capacity list.new };
}
