//! Worked values: the definitions compute.

ghost use Rattle.sleep_wake.specs.Examples.{EndWakes, SplitFallsAsleep, OneTickShort};

/// A constraint that ends between two sleepers leaves both awake in one loose island; a loose island of three movers
/// and one link comes apart, and both parts fall asleep in the same phase; a timer of 127 ticks keeps all awake. The
/// function does nothing; its contract is these values.
#[tactic(auto, unfolding(crate::specs::Changes::ended, crate::specs::Changes::begun, crate::specs::Waking::woken_at, crate::specs::Waking::set_woken, crate::specs::Waking::put_to_rest, crate::specs::SleepPhase::split_at, islands::specs::Labels::merged, islands::specs::Labels::loosened, islands::specs::Labels::rested, islands::specs::Labels::woken, islands::specs::Labels::split_by, graph_colours::specs::Colours::with_placed, graph_colours::specs::Colours::released, graph_colours::specs::Colours::least_colour, graph_colours::specs::Members::without_member, graph_colours::specs::Members::is_free))]
pub fn definitions_compute()
    ensures an_end_wakes { EndWakes }
    ensures a_split_falls_asleep { SplitFallsAsleep }
    ensures one_tick_short { OneTickShort }
{}
