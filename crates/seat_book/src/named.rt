//! The name of a roster.

use std::marker::Brand;

/// Names one roster. It has no calls: whoever opens a roster is generic in its name, and is called at `Brand`. What
/// else a name is to tell, as the value at the start, a crate above adds by a trait of its own over this one.
pub trait Named {
    ghost use Rattle.std.specs.Prelude.{ℕ};
    ghost use Rattle.atomic_table.specs.Seated.{TableId};

    // The table of its book.
    ghost table: { TableId };

    // How many seats it has.
    ghost seats: { ℕ };
}

impl Named for Brand {
    ghost use Rattle.seat_book.specs.Seats.{no_table};

    ghost table = { no_table };

    ghost seats = { 0 };
}
