//! What parts send to one another: letters with the bodies that move between them, in the order of their moves.

ghost use Rattle.std.specs.Prelude.{◌≡◌, ◌++◌, ◌∷◌, [], IfOk, false, length, true};
ghost use Rattle.rtrb.specs.Ring.{received, sent};
ghost use Rattle.part_solver.specs.Mail.{IsPosted, MayFollow};
ghost use Rattle.part_solver.specs.declared.mail.Item.TheVariants.{Letter};

use crate::alarm::{Alarm, Waited};
use crate::head::Head;
use crate::step_lists::StepLists;
use fixed_geom::Refusal;
use momenta::BodyState;
use rtrb::{Consumer, Producer, Protocol, PushError, RingBuffer};
use std::alloc::Global;
use std::sync::Wait;

/// What stands in a ring.
#[derive(Drop)]
pub(crate) enum Item {
    /// A step begins. What follows is of this step.
    Begin(Head),
    /// Bodies that move before a stage.
    Letter(Vec<BodyState>),
}

/// First comes the head of a step, and then its letters, whose bodies are those of the run of the whole step.
#[derive(Clone, Copy)]
pub(crate) struct Mail;

impl Protocol<Item> for Mail {
    ghost allows = { λ before item. MayFollow before item };
}

/// The end of a ring that sends.
pub(crate) type Sender = Producer<Item, Global, Mail>;

/// The end that receives.
pub(crate) type Receiver = Consumer<Item, Global, Mail>;

/// How many letters may be on their way from one part to another.
pub(crate) const LETTERS: usize = 4;

/// Makes a ring from one part to another, through which the head of a step has gone.
pub(crate) fn make_ring(
    alloc: Global,
    step: &StepLists,
    from: u32,
    to: u32,
) -> Result<(Sender, Receiver), Refusal>
    ensures sender { IfOk result (λ r. IsPosted step.now from to [] (sent r.0)) }
    ensures receiver { IfOk result (λ r. IsPosted step.now from to [] (received r.1)) }
{
    let Ok((mut sender, mut receiver)) = RingBuffer::with_protocol::<Global, Mail>(alloc, LETTERS)
    else {
        return Err(Refusal::NoMemory);
    };
    sender.push_reserved(Item::Begin(Head::of(step, from, to)));
    receiver.slots_beside(&mut sender);
    drop(receiver.pop_known());
    Ok((sender, receiver))
}

/// Sends a letter, once there is room for it. Answers how that was waited for.
pub(crate) fn send<R: Wait>(
    rt: &R,
    alarm: &Alarm,
    sender: &mut Sender,
    letter: Vec<BodyState>,
) -> Waited
    requires { MayFollow (sent sender.old) (Letter letter) }
    ensures { sent sender.new ≡ sent sender.old ++ Letter letter ∷ [] }
{
    let mut item = Item::Letter(letter);
    let mut waited = Waited::none();
    for _ in rt.forever() {
        match sender.push(item) {
            Ok(()) => return waited,
            Err(PushError::Full(back)) => item = back,
        }
        waited = alarm.wait(rt, waited);
    }
    unreachable!()
}

/// A letter that has come, and how it was waited for.
pub(crate) struct Received {
    pub(crate) letter: Vec<BodyState>,
    pub(crate) waited: Waited,
}

/// Waits for ever: what can't come has come.
fn halt<R: Wait>(rt: &R, alarm: &Alarm) -> Received
    ensures { false ≡ true }
{
    let mut waited = Waited::none();
    for _ in rt.forever() {
        waited = alarm.wait(rt, waited);
    }
    unreachable!()
}

/// Receives the next letter, which has so many bodies, once it is there.
pub(crate) fn receive<R: Wait>(
    rt: &R,
    alarm: &Alarm,
    receiver: &mut Receiver,
    count: usize,
) -> Received
    ensures received { received receiver.new ≡ received receiver.old ++ Letter result.letter ∷ [] }
    ensures allowed { MayFollow (received receiver.old) (Letter result.letter) }
    ensures long { length result.letter.items ≡ count }
{
    let mut waited = Waited::none();
    for _ in rt.forever() {
        match receiver.pop() {
            Ok(Item::Letter(letter)) => {
                if letter.len() == count {
                    return Received { letter, waited };
                }
                return halt(rt, alarm);
            }
            Ok(Item::Begin(_)) => return halt(rt, alarm),
            Err(_) => {}
        }
        waited = alarm.wait(rt, waited);
    }
    unreachable!()
}
