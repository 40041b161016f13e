//! The links of an island, by which it is split.

ghost use Rattle.std.specs.Prelude.{◌≡◌, ◌+◌, ◌≤◌, ◌++◌, ◌<◌, length, vec_len, vec_capacity};
ghost use Rattle.islands.specs.Labels.{is_in};
ghost use Rattle.sleep_wake.specs.SleepPhase.{edges_in};
ghost use Rattle.sleep_wake.specs.Gathered.{edges_of_one};

use crate::movers_in_islands::is_in;
use graph_colours::{ConstraintId, Member, Movers};
use islands::Islands;

/// Adds a constraint's link to the edges, if it has one and that is of the island. There is room.
fn add_edge(edges: &mut Vec<(u32, u32)>, islands: &Islands, name: u32, movers: Movers)
    requires { vec_len edges.old < vec_capacity edges.old }
    ensures items { edges.new.items ≡ edges.old.items ++ edges_of_one islands.now.labels name movers }
    ensures len { vec_len edges.new ≤ vec_len edges.old + 1 }
    ensures capacity { vec_capacity edges.old ≤ vec_capacity edges.new }
{
    if let Some(second) = movers.second
        && is_in(islands, name, movers.first)
    {
        let _ = edges.push((movers.first, second));
    }
}

/// Lists the links of an island among those of the ties. There is room for as many as there are ties.
pub(crate) fn list_edges<C: ConstraintId>(
    edges: &mut Vec<(u32, u32)>,
    islands: &Islands,
    ties: &[Member<C>],
    name: u32,
)
    requires { length ties.now ≤ vec_capacity edges.old }
    ensures items { edges.new.items ≡ edges_in islands.now.labels name ties.now }
    ensures len { vec_len edges.new ≤ length ties.now }
    ensures capacity { vec_capacity edges.old ≤ vec_capacity edges.new }
{
    edges.clear();
    for place in 0..ties.len() {
        add_edge(edges, islands, name, ties[place].movers);
    }
}
