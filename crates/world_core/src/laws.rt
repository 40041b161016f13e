//! Laws of a world as calls leave it, for crates above. These functions do nothing; their contracts are the laws.

ghost use Rattle.world_core.specs.Grown.{EachCallBooksLittle, GrownWorldsHaveSmallTotals, SettlingBooksNothing};
ghost use Rattle.world_core.specs.RowColours.{ColouredRowsAreColours};

/// Where constraints are coloured as a sound world's are, the rows that a step gathers of them are a colour to the
/// solver in each of the colours 0 to 23: no two of them share a mover. By `colour_solver::colours_at_once` their
/// visits may so be made at once. The function does nothing; its contract is the law.
pub fn coloured_rows_are_colours()
    ensures { ColouredRowsAreColours }
{}

/// A call adds at most 2^83 to the total of each cause, in each component, if it is accepted, and nothing if it is
/// refused: by any command, where the world is sound before and after it, as each `WorldCore` is. Settling the ledger
/// adds nothing.
pub fn each_call_books_little()
    ensures calls { EachCallBooksLittle }
    ensures settling { SettlingBooksNothing }
{}

/// A world that has grown from a new one by calls, of which each adds at most 2^83 to the total of a cause, has totals
/// within ±2^126: no more than 2^40 calls are accepted. By `WorldCore::save` it can so be saved and read again.
pub fn grown_worlds_have_small_totals()
    ensures { GrownWorldsHaveSmallTotals }
{}
