//! The name of a shared world.

use seat_book::Named;
use std::marker::Brand;

/// Names a shared world: its roster, and the world that it was opened with. It has no calls: whoever opens a world is
/// generic in its name, and is called at `Brand`.
pub trait Opened: Named {
    ghost use Rattle.world_rules.specs.World.{World};

    // The world at `open`.
    ghost opening: { World };
}

impl Opened for Brand {
    ghost use Rattle.std.specs.Prelude.{pos};
    ghost use Rattle.world_rules.specs.Apply.{empty_world};

    ghost opening = { empty_world (record { x = pos 0; y = pos 0 }) };
}
