//! A part's ends of the rings.

ghost use Rattle.std.specs.Prelude.{◌≡◌, ◌++◌, ◌+◌, ◌∷◌, ◌<◌, ◌≤◌, [], IfOk, OnOk, length, slice_index_or, slice_set, vec_capacity};
ghost use Rattle.rtrb.specs.Ring.{received, sent};
ghost use Rattle.part_solver.specs.Mail.{MayFollow};
ghost use Rattle.part_solver.specs.declared.mail.Item.TheVariants.{Letter};

use crate::alarm::{Alarm, Waited};
use crate::mail::{LETTERS, Received, Receiver, Sender, receive, send};
use fixed_geom::Refusal;
use momenta::BodyState;
use rtrb::{Consumer, Producer, RingBuffer};
use std::alloc::Global;
use std::marker::Model;
use std::sync::{Arc, Wait};

/// The end of a ring from which letters come that are free to be written.
pub(crate) type Spares = Consumer<Vec<BodyState>>;

/// Its other end, into which letters go that have been read.
pub(crate) type Returns = Producer<Vec<BodyState>>;

/// The ends of a part's rings, by the part at the other end, and what wakes the part there. At its own number stands a
/// ring to itself, which isn't used. They are made for one step. Contracts see what was sent to each part, and what has
/// come from it.
#[derive(Drop)]
pub(crate) struct Ports {
    /// The part's own alarm, and those of the parts.
    alarm: Arc<Alarm, Global>,
    alarms: Vec<Arc<Alarm, Global>>,
    outs: Vec<Sender>,
    spares: Vec<Spares>,
    ins: Vec<Receiver>,
    returns: Vec<Returns>,
}

impl Model for Ports {
    ghost use Rattle.std.specs.Prelude.{map};
    ghost use Rattle.rtrb.specs.Ring.{received, sent};
    ghost use Rattle.part_solver.specs.Mail.{Posts};

    ghost Value = { Posts };

    ghost view = { λ p. record { outs = map (λ s. sent s) p.outs.items; ins = map (λ r. received r) p.ins.items } };
}

/// A way for letters that have been read back to who writes them, with letters that have room for so many bodies.
pub(crate) fn make_returns(
    alloc: Global,
    letters: usize,
    room: usize,
) -> Result<(Returns, Spares), Refusal> {
    let Ok((mut returns, spares)) = RingBuffer::new(alloc, LETTERS) else {
        return Err(Refusal::NoMemory);
    };
    for _ in 0..letters {
        let _ = returns.push(Vec::with_capacity(alloc, room)?);
    }
    Ok((returns, spares))
}

impl Ports {
    /// No rings, with room for so many.
    pub(crate) fn new(alloc: Global, parts: usize) -> Result<Ports, Refusal>
        ensures outs { IfOk result (λ ports. ports.outs ≡ []) }
        ensures ins { IfOk result (λ ports. ports.ins ≡ []) }
    {
        Ok(Ports {
            alarm: Arc::new(alloc, Alarm::new())?,
            alarms: Vec::with_capacity(alloc, parts)?,
            outs: Vec::with_capacity(alloc, parts)?,
            spares: Vec::with_capacity(alloc, parts)?,
            ins: Vec::with_capacity(alloc, parts)?,
            returns: Vec::with_capacity(alloc, parts)?,
        })
    }

    /// What wakes the part.
    pub(crate) fn alarm(&self) -> Result<Arc<Alarm, Global>, Refusal> {
        match Arc::try_clone(&self.alarm) {
            Ok(alarm) => Ok(alarm),
            Err(_) => Err(Refusal::NoMemory),
        }
    }

    /// How many parts there are.
    pub(crate) fn parts(&self) -> usize
        ensures { result ≡ length self.now.outs }
    {
        self.outs.len()
    }

    /// Adds a ring to the next part, the one through which letters come back, and what wakes that part.
    pub(crate) fn add_out(
        &mut self,
        sender: Sender,
        spares: Spares,
        alarm: Arc<Alarm, Global>,
    ) -> Result<(), Refusal>
        ensures outs { OnOk result (self.new.outs ≡ self.old.outs ++ sent sender ∷ []) }
        ensures ins { OnOk result (self.new.ins ≡ self.old.ins) }
    {
        if self.outs.push(sender).is_err() || self.spares.push(spares).is_err() {
            return Err(Refusal::NoMemory);
        }
        if self.alarms.push(alarm).is_err() {
            return Err(Refusal::NoMemory);
        }
        Ok(())
    }

    /// Adds a ring from the next part, and the one through which letters go back.
    pub(crate) fn add_in(&mut self, receiver: Receiver, returns: Returns) -> Result<(), Refusal>
        ensures outs { OnOk result (self.new.outs ≡ self.old.outs) }
        ensures ins { OnOk result (self.new.ins ≡ self.old.ins ++ received receiver ∷ []) }
    {
        if self.ins.push(receiver).is_err() || self.returns.push(returns).is_err() {
            return Err(Refusal::NoMemory);
        }
        Ok(())
    }

    /// Wakes a part, if it sleeps.
    fn wake(&self, part: usize) {
        if let Some(alarm) = self.alarms.get(part) {
            alarm.ring();
        }
    }

    /// A letter to a part that has come back, if one has.
    fn next_spare(&mut self, to: usize) -> Option<Vec<BodyState>>
        ensures outs { self.new.outs ≡ self.old.outs }
        ensures ins { self.new.ins ≡ self.old.ins }
    {
        match self.spares.get_mut(to) {
            None => None,
            Some(spares) => spares.pop().ok(),
        }
    }

    /// An empty letter to a part with room for so many bodies, once there is one.
    pub(crate) fn spare<R: Wait>(&mut self, rt: &R, to: usize, count: usize) -> Vec<BodyState>
        requires to { to < length self.old.outs }
        ensures empty { result.items ≡ [] }
        ensures room { count ≤ vec_capacity result }
        ensures outs { self.new.outs ≡ self.old.outs }
        ensures ins { self.new.ins ≡ self.old.ins }
    {
        let mut waited = Waited::none();
        for _ in rt.forever() {
            if let Some(mut letter) = self.next_spare(to) {
                letter.clear();
                if letter.capacity() >= count {
                    return letter;
                }
            }
            waited = self.alarm.wait(rt, waited);
        }
        unreachable!()
    }

    /// Sends a letter to a part, once there is room for it. Answers how that was waited for.
    pub(crate) fn send<R: Wait>(&mut self, rt: &R, to: usize, letter: Vec<BodyState>) -> Waited
        requires to { to < length self.old.outs }
        requires allowed { MayFollow (slice_index_or self.old.outs to []) (Letter letter) }
        ensures outs { self.new.outs ≡ slice_set self.old.outs to (slice_index_or self.old.outs to [] ++ Letter letter ∷ []) }
        ensures ins { self.new.ins ≡ self.old.ins }
    {
        let waited = send(rt, &self.alarm, &mut self.outs[to], letter);
        self.wake(to);
        waited
    }

    /// Receives a letter of so many bodies from a part, once it is there.
    pub(crate) fn receive<R: Wait>(&mut self, rt: &R, from: usize, count: usize) -> Received
        requires from { from < length self.old.ins }
        ensures ins { self.new.ins ≡ slice_set self.old.ins from (slice_index_or self.old.ins from [] ++ Letter result.letter ∷ []) }
        ensures outs { self.new.outs ≡ self.old.outs }
        ensures allowed { MayFollow (slice_index_or self.old.ins from []) (Letter result.letter) }
        ensures long { length result.letter.items ≡ count }
    {
        receive(rt, &self.alarm, &mut self.ins[from], count)
    }

    /// Gives a letter that has been read back to the part from which it came.
    pub(crate) fn give_back(&mut self, from: usize, letter: Vec<BodyState>)
        requires from { from < length self.old.ins }
        ensures outs { self.new.outs ≡ self.old.outs }
        ensures ins { self.new.ins ≡ self.old.ins }
    {
        if let Some(returns) = self.returns.get_mut(from) {
            let _ = returns.push(letter);
        }
        self.wake(from);
    }
}
