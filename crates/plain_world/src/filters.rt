//! What the types of a filter's numbers tell of them.

ghost use Rattle.plain_world.specs.Formed.{HasFilter, HaveFilters};

use shapes::{Filter, ShapeDef};

/// The numbers of a filter are within the ranges of their types. The function does nothing; its contract tells it.
fn know_filter_fits(_filter: Filter)
    ensures { HasFilter _filter }
{}

/// So are those of each of these shapes, as reading them tells. The function changes nothing.
pub fn know_filters_fit(defs: &[ShapeDef])
    ensures { HaveFilters defs.now }
{
    for def in defs {
        know_filter_fits(def.filter);
    }
}
