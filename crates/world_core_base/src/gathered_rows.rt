//! The rows of a step, and where their contacts may be found again.

ghost use Rattle.std.specs.Prelude.{◌≡◌, ◌≤◌, OnOk};
ghost use Rattle.std.specs.Result.{IsOkUnless};

use colour_solver::Rows;
use fixed_geom::Refusal;
use std::alloc::Global;

/// Rows, and beside that of each contact, as far as there is room, the place of the long list where the contact was
/// found: a hint for whoever looks for it again, of which nothing is promised.
#[derive(Drop)]
pub struct GatheredRows {
    pub rows: Rows,
    pub places: Vec<usize>,
}

impl GatheredRows {
    /// No rows, and no room.
    pub fn new(alloc: Global) -> GatheredRows {
        GatheredRows {
            rows: Rows::new(alloc),
            places: Vec::new(alloc),
        }
    }

    /// Where its memory comes from.
    pub fn alloc(&self) -> Global {
        *self.places.allocator()
    }

    /// Makes room for so many rows and colours, and for a place beside each row.
    pub fn reserve(&mut self, rows: usize, colours: usize) -> Result<(), Refusal>
        ensures room { OnOk result (rows ≤ self.new.rows.room) }
        ensures more { OnOk result (colours ≤ self.new.rows.more) }
        ensures memory_only { IsOkUnless result Refusal.NoMemory }
    {
        self.places.clear();
        self.places.reserve(rows)?;
        self.rows.reserve(rows, colours)
    }
}
