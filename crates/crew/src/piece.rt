//! Pieces of work over what is lent to them, and who works them: what crates call that know no threads.

ghost use Rattle.std.specs.Prelude.{◌≡◌, ◌++◌, ◌+◌, ◌≤◌, map, true, vec_len, vec_capacity};

/// A piece of work. It reads what is lent to all pieces, and has room for its answer: so it takes no memory of its own
/// and is never refused.
pub trait Piece {
    /// What all pieces read.
    type Lent;

    type Out;

    /// The answer of a piece.
    ghost worked: { Self.Lent → Self → Self.Out };

    fn work(self, lent: &Self::Lent) -> Self::Out
        ensures answer { result ≡ worked lent.now self };
}

/// What was lent and comes back, and whether the pieces are worked.
pub struct Returned<L> {
    pub lent: L,
    pub is_done: bool,
}

/// Who works pieces: the thread that calls, or others with it. [`CallingThread`] here implements it, and so does the
/// crew of a step in `world_workers`. Crates below call it, each with its own kind of pieces.
pub trait PieceMap<P: Piece> {
    /// How many threads work pieces: with fewer than 2 there is no use in cutting work up.
    fn workers(&self) -> usize;

    /// Works the pieces and adds their answers, in their order, to `answers`, which has room for them. What is lent
    /// comes back whole. They aren't done where memory is wanting.
    fn map_pieces(
        &mut self,
        lent: P::Lent,
        pieces: &mut Vec<P>,
        answers: &mut Vec<P::Out>,
    ) -> Returned<P::Lent>
        requires room { vec_len answers.old + vec_len pieces.old ≤ vec_capacity answers.old }
        ensures lent { result.lent ≡ lent }
        ensures answers { result.is_done ≡ true → answers.new.items ≡ answers.old.items ++ map (P.worked lent) pieces.old.items };
}

/// The thread that calls, which cuts nothing up.
#[derive(Clone, Copy)]
pub struct CallingThread;

impl<P: Piece> PieceMap<P> for CallingThread {
    fn workers(&self) -> usize {
        1
    }

    fn map_pieces(
        &mut self,
        lent: P::Lent,
        _pieces: &mut Vec<P>,
        _answers: &mut Vec<P::Out>,
    ) -> Returned<P::Lent> {
        Returned {
            lent,
            is_done: false,
        }
    }
}
