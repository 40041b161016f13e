//! The rule of a mailbox: who may put a slip into it, and what is known of the slip that is taken out.

use crate::Work;
use crate::slip::Slip;
use crossbeam_queue::protocol::{Outcome, Protocol, Split};
use std::collections::LinkedList;

/// What a pass knows: whether it is the caller's, and what is asked. No value of it is made.
pub(crate) struct Hand<A> {
    pub leads: bool,
    pub ask: Option<A>,
}

/// The answers that are asked for. No value of it is made.
pub(crate) type Asked<W> = LinkedList<<W as Work>::Out>;

/// The rule: of what the caller has asked there is one slip at most, in the mailbox or in a worker's hands.
pub(crate) struct OneSlip;

impl<W: Work + Drop> Protocol<Slip<W>, Hand<Asked<W>>> for OneSlip
where
    W::Item: Drop,
    W::Out: Drop,
{
    ghost use Rattle.std.specs.Prelude.{true, None};
    ghost use Rattle.std.specs.Arc.{arc_value};
    ghost use Rattle.crew.specs.Answers.{owed};
    ghost use Rattle.crew.specs.Mailbox.{hand, Kept};

    ghost holds = { Kept (λ s. owed W.answer (arc_value s.work) s.stack.items s.answers.items) };

    ghost first = { hand true None };
}

impl<A> Split<Hand<A>> for OneSlip {
    ghost use Rattle.std.specs.Prelude.{true, false, None};
    ghost use Rattle.crew.specs.Mailbox.{hand};

    ghost left = { λ v. hand true None };

    ghost right = { λ v. hand false None };
}

/// The caller asks, or the worker takes.
pub(crate) struct Begins;

impl<W: Work + Drop> Outcome<Slip<W>, Hand<Asked<W>>> for Begins
where
    W::Item: Drop,
    W::Out: Drop,
{
    ghost use Rattle.std.specs.Prelude.{◌≡◌, Some};
    ghost use Rattle.std.specs.Arc.{arc_value};
    ghost use Rattle.crew.specs.Answers.{owed};
    ghost use Rattle.crew.specs.Mailbox.{hand};

    ghost then = { λ v x w. w ≡ hand v.leads (Some (owed W.answer (arc_value x.work) x.stack.items x.answers.items)) };
}

/// The worker gives back, or the caller gets.
pub(crate) struct Ends;

impl<W: Work + Drop> Outcome<Slip<W>, Hand<Asked<W>>> for Ends
where
    W::Item: Drop,
    W::Out: Drop,
{
    ghost use Rattle.std.specs.Prelude.{◌≡◌, Some, None};
    ghost use Rattle.std.specs.Arc.{arc_value};
    ghost use Rattle.crew.specs.Answers.{owed};
    ghost use Rattle.crew.specs.Mailbox.{hand};

    ghost then = { λ v x w. (w ≡ hand v.leads None) × (v.ask ≡ Some (owed W.answer (arc_value x.work) x.stack.items x.answers.items)) };
}
