//! Work over a list in pieces of it: the list is cut up, and each piece is worked by whoever works pieces.

ghost use Rattle.std.specs.Prelude.{◌≡◌, ◌++◌, ◌∷◌, [], IfOk, List, ℕ, OnOk, drop, length, map, take, true};
ghost use Rattle.std.specs.Result.{IsOkUnless};
ghost use Rattle.contacts.specs.PieceRanges.{items_of};

use crew::{Piece, PieceMap, Returned};
use fixed_geom::Refusal;

/// A piece of work over items of a list that is lent, which follow one another.
pub(crate) trait RangePiece: Piece + Sized {
    ghost use Rattle.std.specs.Prelude.{List, ℕ};
    ghost use Rattle.contacts.specs.PieceRanges.{PieceRange};

    /// Which of the items.
    ghost range: { Self → PieceRange };

    /// The list.
    ghost items: { Self.Lent → List ℕ };

    /// The answer at items.
    ghost answer_at: { Self.Lent → List ℕ → Self.Out };

    /// The answers of pieces as one.
    ghost joined: { List Self.Out → Self.Out };

    /// How many items there are.
    fn count_items(lent: &Self::Lent) -> usize
        ensures { result ≡ length (items lent.now) };

    /// A piece of so many items, from a place on. Its answer has the memory of one that was kept, if there is any.
    fn of_range(kept: &mut Vec<Self::Out>, first: usize, count: usize) -> Result<Self, Refusal>
        ensures range { IfOk result (λ piece. range piece ≡ record { first = first; count = count }) }
        ensures memory_only { IsOkUnless result Refusal.NoMemory };

    /// Adds what a piece answered.
    fn append(all: &mut Self::Out, answer: &Self::Out) -> Result<(), Refusal>
        ensures added { OnOk result ((answers : List Self.Out) → all.old ≡ joined answers → all.new ≡ joined (answers ++ answer.now ∷ [])) }
        ensures memory_only { IsOkUnless result Refusal.NoMemory };

    /// The answers of pieces, as one, are the answer at their items. The function does nothing; its contract is the
    /// law.
    fn know_joined()
        ensures { (lent : Self.Lent) (pieces : List Self) → joined (map (Self.worked lent) pieces) ≡ answer_at lent (items_of range (items lent) pieces) };
}

/// Some items of a list that follow one another, as far as there are any.
pub(crate) fn range_of<T>(items: &[T], first: usize, count: usize) -> &[T]
    ensures { result.now ≡ take count (drop first items.now) }
{
    let (_, rest) = items.split_at(first.min(items.len()));
    let (range, _) = rest.split_at(count.min(rest.len()));
    range
}

/// Adds a piece of so many items, from a place on.
fn add_piece<P: RangePiece>(
    pieces: &mut Vec<P>,
    kept: &mut Vec<P::Out>,
    first: usize,
    count: usize,
) -> Result<(), Refusal>
where
    P: Drop,
    ensures added { OnOk result ((items : List ℕ) → items_of P.range items pieces.new.items ≡ items_of P.range items pieces.old.items ++ take count (drop first items)) }
    ensures memory_only { IsOkUnless result Refusal.NoMemory }
{
    let piece = P::of_range(kept, first, count)?;
    if pieces.push(piece).is_err() {
        return Err(Refusal::NoMemory);
    }
    Ok(())
}

/// Cuts so many items into pieces, of which each but the last has as many as fall to each of `of`.
fn cut<P: RangePiece>(
    pieces: &mut Vec<P>,
    kept: &mut Vec<P::Out>,
    all: usize,
    of: usize,
) -> Result<(), Refusal>
where
    P: Drop,
    requires empty { pieces.old.items ≡ [] }
    ensures cut { OnOk result ((items : List ℕ) → length items ≡ all → items_of P.range items pieces.new.items ≡ items) }
    ensures memory_only { IsOkUnless result Refusal.NoMemory }
{
    let share = all / of.max(1);
    let mut first = 0;
    for _ in 1..of {
        let count = share.min(all - first);
        add_piece(pieces, kept, first, count)?;
        first += count;
    }
    add_piece(pieces, kept, first, all - first)?;
    Ok(())
}

/// Puts the answers of pieces one behind the other, in the memory of `room`.
fn join<P: RangePiece>(room: P::Out, answers: &[P::Out]) -> Result<P::Out, Refusal>
where
    P::Out: Drop,
    requires empty { room ≡ P.joined [] }
    ensures joined { IfOk result (λ all. all ≡ P.joined answers.now) }
    ensures memory_only { IsOkUnless result Refusal.NoMemory }
{
    let mut all = room;
    for answer in answers {
        P::append(&mut all, answer)?;
    }
    Ok(all)
}

/// Keeps the memory of answers for those of the next pieces.
fn keep<A: Drop>(answers: &mut Vec<A>, kept: &mut Vec<A>) {
    for _ in 0..answers.len() {
        if let Some(answer) = answers.pop() {
            let _ = kept.push(answer);
        }
    }
}

/// What the pieces answered as one, and what was lent to them.
pub(crate) struct Mapped<L, A> {
    pub(crate) lent: L,
    pub(crate) answer: Result<A, Refusal>,
}

/// Has the pieces worked, and adds their answers.
fn map_pieces<P: RangePiece, M: PieceMap<P>>(
    mapper: &mut M,
    lent: P::Lent,
    kept: &mut Vec<P::Out>,
    answers: &mut Vec<P::Out>,
) -> Returned<P::Lent>
where
    P: Drop,
    P::Out: Drop,
    requires empty { answers.old.items ≡ [] }
    ensures lent { result.lent ≡ lent }
    ensures answers { result.is_done ≡ true → P.joined answers.new.items ≡ P.answer_at lent (P.items lent) }
{
    let mut pieces = Vec::new(*kept.allocator());
    let all = P::count_items(&lent);
    let Ok(()) = cut(&mut pieces, kept, all, mapper.workers()) else {
        return Returned {
            lent,
            is_done: false,
        };
    };
    if answers.reserve(pieces.len()).is_err() {
        return Returned {
            lent,
            is_done: false,
        };
    }
    P::know_joined();
    mapper.map_pieces(lent, &mut pieces, answers)
}

/// Has all items worked in pieces. The answer has the memory of `room`.
pub(crate) fn map_in_pieces<P: RangePiece, M: PieceMap<P>>(
    mapper: &mut M,
    lent: P::Lent,
    room: P::Out,
    kept: &mut Vec<P::Out>,
) -> Mapped<P::Lent, P::Out>
where
    P: Drop,
    P::Out: Drop,
    requires empty { room ≡ P.joined [] }
    ensures lent { result.lent ≡ lent }
    ensures answer { IfOk result.answer (λ answer. answer ≡ P.answer_at lent (P.items lent)) }
    ensures memory_only { IsOkUnless result.answer Refusal.NoMemory }
{
    let mut answers = Vec::new(*kept.allocator());
    let Returned { lent, is_done } = map_pieces(mapper, lent, kept, &mut answers);
    if !is_done {
        return Mapped {
            lent,
            answer: Err(Refusal::NoMemory),
        };
    }
    let answer = join::<P>(room, &answers);
    keep(&mut answers, kept);
    Mapped { lent, answer }
}
