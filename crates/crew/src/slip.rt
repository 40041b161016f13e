//! What passes between the caller and a worker: the items of a piece, and the answers that are made of them.

ghost use Rattle.std.specs.Prelude.{◌≡◌, ◌++◌, ◌+◌, ◌≤◌, [], length, vec_len, vec_capacity};
ghost use Rattle.std.specs.Arc.{arc_value};
ghost use Rattle.crew.specs.Answers.{AreAccepted, owed};

use crate::gate::PieceNumber;
use crate::stack::work_stack;
use crate::{Gate, Work};
use std::alloc::Global;
use std::sync::{Arc, Wait};

/// A piece of a map: its items, the last of which comes first, and the answers that are there already.
pub(crate) struct Slip<W: Work + Drop>
where
    W::Item: Drop,
    W::Out: Drop,
{
    pub(crate) work: Arc<W, Global>,
    pub(crate) piece: PieceNumber,
    pub(crate) entered: bool,
    pub(crate) stack: Vec<W::Item>,
    pub(crate) answers: Vec<W::Out>,
    pub ghost accepted: { AreAccepted W.accepts (arc_value work) stack.items },
}

impl<W: Work + Drop> Drop for Slip<W>
where
    W::Item: Drop,
    W::Out: Drop,
{
    fn drop(self) {
        let Self {
            work: _,
            piece: _,
            entered: _,
            stack: _,
            answers: _,
        } = self;
    }
}

impl<W: Work + Drop> Slip<W>
where
    W::Item: Drop,
    W::Out: Drop,
{
    /// The slip once it has been worked, as far as there is room for the answers. A slip that has been stays as it is.
    pub(crate) fn worked<R: Wait, G: Gate>(self, rt: &R, gate: &G) -> Slip<W>
        ensures { owed W.answer (arc_value result.work) result.stack.items result.answers.items ≡ owed W.answer (arc_value self.work) self.stack.items self.answers.items }
    {
        let Slip {
            work,
            piece,
            entered,
            mut stack,
            mut answers,
        } = self;
        if !entered {
            gate.enter(rt, piece.number, piece.of);
            work_stack(rt, &*work, &mut stack, &mut answers);
        }
        Slip {
            work,
            piece,
            entered: true,
            stack,
            answers,
        }
    }

    /// Adds its answers to `out`, which has room for them, and works those items for whose answers the slip had none.
    /// Gives back its two empty lists.
    pub(crate) fn finish<R: Wait>(
        self,
        rt: &R,
        out: &mut Vec<W::Out>,
    ) -> (Vec<W::Item>, Vec<W::Out>)
        requires room { vec_len out.old + length (owed W.answer (arc_value self.work) self.stack.items self.answers.items) ≤ vec_capacity out.old }
        ensures out { out.new.items ≡ out.old.items ++ owed W.answer (arc_value self.work) self.stack.items self.answers.items }
        ensures capacity { vec_capacity out.old ≤ vec_capacity out.new }
    {
        let Slip {
            work,
            piece: _,
            entered: _,
            mut stack,
            mut answers,
        } = self;
        let _ = out.append(&mut answers);
        work_stack(rt, &*work, &mut stack, out);
        (stack, answers)
    }
}
