//! Islands: a partition of the movers, after Box2D's `island.c`.
//!
//! Two movers are linked where a joint or a touching contact is between them. Linked movers are in one island, so
//! that they sleep and wake together. An island is named by its lowest slot. One that has lost a link or a mover
//! is loose: it may have come apart, and is looked through only when it is about to sleep, where a split replaces
//! it by its connected components. One that isn't loose is a connected component, awake or asleep.
#![tactic(auto)]

ghost use Rattle.islands.specs.Laws.{AddingKeeps, MergingKeeps, LooseningKeeps, TakingOutKeeps, StateChangeKeeps, SplittingKeeps, ReachingIsJoined, MergingSplits};

mod adding;
mod islands;
mod label;
mod leaving;
mod listing;
mod merge;
mod room;
mod scratch;
mod split;
mod thread_nodes;
mod threads;

pub use islands::Islands;
pub use label::{IslandState, Label, sleeping_name};
pub use scratch::SplitScratch;

/// What keeps the islands: that linked movers are in one island, and that an island which isn't loose is one
/// connected component. A mover may come, as an island of its own. Where two movers get a link, their islands are
/// merged; where links are lost, the island gets loose; where a mover goes, those that it leaves behind are loose.
/// An island that isn't loose may fall asleep and wake. A split by the links of an island replaces it by its
/// components. The function does nothing; its contract is the laws.
pub fn islands_are_kept()
    ensures adding { AddingKeeps }
    ensures merging { MergingKeeps }
    ensures loosening { LooseningKeeps }
    ensures taking_out { TakingOutKeeps }
    ensures state_change { StateChangeKeeps }
    ensures splitting { SplittingKeeps }
{}

/// What a split rests on: who is joined is found link by link, and is who a path of links leads to; and merges from
/// link to link make the same components. The function does nothing; its contract is the laws.
pub fn splits_are_components()
    ensures reaching { ReachingIsJoined }
    ensures merging { MergingSplits }
{}
