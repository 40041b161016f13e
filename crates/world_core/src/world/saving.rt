//! A world as a value that can be kept, and loaded later.

ghost use Rattle.std.specs.Prelude.{◌≡◌, IfOk};
ghost use Rattle.std.specs.Result.{IsOkUnless};
ghost use Rattle.impulse_ledger.specs.Sums.{totals_of};
ghost use Rattle.world_file.specs.Laws.{HasSmallTotals};
ghost use Rattle.serde_json.specs.View.{view};
ghost use Rattle.world_core.specs.SavedAgain.{IsReadAs};
ghost use Rattle.world_file.specs.Files.{value_of};
ghost use Rattle.world_rules.specs.World.{book_of};

use super::WorldCore;
use fixed_geom::Refusal;
use serde_json::Value;
use world_file::write;

impl WorldCore {
    /// The world as one JSON value of version 2: its plain lists, and the totals of its ledger. Its entries and its
    /// events aren't kept. Where each total of a cause is within ±2^126, as in every world that grew from a new one,
    /// the value breaks no clause, and `load` makes this world of it again.
    pub fn save(&self) -> Result<Value, Refusal>
        ensures value { IfOk result (λ value. view value ≡ value_of self.now.plain (totals_of (book_of self.now))) }
        ensures again { IfOk result (λ value. HasSmallTotals self.now → IsReadAs self.now (view value)) }
        ensures memory_only { IsOkUnless result Refusal.NoMemory }
    {
        let plain = self.plain()?;
        write(
            self.activity.bodies.allocator(),
            &plain,
            &self.ledger.totals(),
        )
    }
}
