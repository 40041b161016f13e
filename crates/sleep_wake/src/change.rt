//! What becomes of a constraint.

use graph_colours::Member;

/// A constraint that begins to act between its movers, or that ends.
#[derive(Clone, Copy, Debug, PartialEq, Eq)]
pub enum Change<C> {
    Begin(Member<C>),
    End(Member<C>),
}
