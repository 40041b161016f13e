//! What a part sends and is sent before a stage.

ghost use Rattle.std.specs.Prelude.{◌≡◌, ◌+◌, ◌++◌, ◌∷◌, ◌<◌, ◌≤◌, ◌^◌, [], drop, length, slice_index_or, slice_set, vec_capacity, vec_len};
ghost use Rattle.colour_solver.specs.States.{nobody};
ghost use Rattle.part_runs.specs.Walks.{goes, slots_between};
ghost use Rattle.part_runs.specs.Handing.{left_by, left_for, let_go};
ghost use Rattle.part_solver.specs.Exchange.{AreSentBelow, AreTakenBelow, IsExchanged, IsSentTo, IsTakenFrom, MaySendAll, own_walk, put_in};
ghost use Rattle.part_solver.specs.Mail.{MaySend};

use crate::alarm::Waited;
use crate::mail::Received;
use crate::moves::BodyMove;
use crate::ports::Ports;
use crate::sums::MOST_PARTS;
use momenta::{BodyState, NOBODY};
use std::mem;
use std::sync::Wait;

/// One if a wait was long.
fn long(waited: Waited) -> u32 {
    if waited.is_long() { 1 } else { 0 }
}

/// Whether a body moves from the one part to the other.
#[inline(always)]
fn goes(step: &BodyMove, from: u32, to: u32) -> bool
    ensures { result ≡ goes from to (record { slot = step.now.slot; from = step.now.from; to = step.now.to }) }
{
    step.from == from && step.to == to
}

/// Takes a body out of its slot, where then nobody is.
#[inline(always)]
fn let_go(states: &mut Vec<BodyState>, slot: u32) -> BodyState
    ensures body { result ≡ slice_index_or states.old.items slot nobody }
    ensures states { states.new.items ≡ slice_set states.old.items slot nobody }
{
    match states.get_mut(slot as usize) {
        None => NOBODY,
        Some(state) => mem::replace(state, NOBODY),
    }
}

/// Puts a body into its slot.
#[inline(always)]
fn put(states: &mut Vec<BodyState>, slot: u32, body: BodyState)
    ensures { states.new.items ≡ slice_set states.old.items slot body }
{
    if let Some(state) = states.get_mut(slot as usize) {
        *state = body;
    }
}

/// One if a body moves so.
#[inline(always)]
fn count_one(step: &BodyMove, from: u32, to: u32) -> usize
    ensures { result ≡ length (slots_between from to (own_walk (step.now ∷ []))) }
{
    if goes(step, from, to) { 1 } else { 0 }
}

/// How many bodies move from one part to another.
fn count_moves(moves: &[BodyMove], from: u32, to: u32) -> usize
    ensures { result ≡ length (slots_between from to (own_walk moves.now)) }
{
    let mut count = 0;
    for place in 0..moves.len() {
        count += count_one(&moves[place], from, to);
    }
    count
}

/// Lets a body go into a letter, if it moves so.
#[inline(always)]
fn write_one(
    step: &BodyMove,
    from: u32,
    to: u32,
    states: &mut Vec<BodyState>,
    letter: &mut Vec<BodyState>,
)
    requires room { vec_len letter.old + length (slots_between from to (own_walk (step.now ∷ []))) ≤ vec_capacity letter.old }
    ensures states { states.new.items ≡ left_by (slots_between from to (own_walk (step.now ∷ []))) states.old.items }
    ensures letter { letter.new.items ≡ letter.old.items ++ let_go (slots_between from to (own_walk (step.now ∷ []))) states.old.items }
    ensures room { vec_capacity letter.new ≡ vec_capacity letter.old }
{
    if goes(step, from, to) {
        letter.push_reserved(let_go(states, step.slot));
    }
}

/// Writes what moves to a part into an empty letter, and lets it go.
fn write_letter(
    moves: &[BodyMove],
    from: u32,
    to: u32,
    states: &mut Vec<BodyState>,
    letter: &mut Vec<BodyState>,
)
    requires empty { letter.old.items ≡ [] }
    requires room { length (slots_between from to (own_walk moves.now)) ≤ vec_capacity letter.old }
    ensures states { states.new.items ≡ left_by (slots_between from to (own_walk moves.now)) states.old.items }
    ensures letter { letter.new.items ≡ let_go (slots_between from to (own_walk moves.now)) states.old.items }
{
    for place in 0..moves.len() {
        write_one(&moves[place], from, to, states, letter);
    }
}

/// The body in a letter; nobody behind its end.
#[inline(always)]
fn body_in(letter: &[BodyState], place: usize) -> BodyState
    ensures { result ≡ slice_index_or letter.now place nobody }
{
    match letter.get(place) {
        None => NOBODY,
        Some(body) => *body,
    }
}

/// Puts the next body of a letter into its slot, if it moves so. Answers how many have been read then.
#[inline(always)]
fn read_one(
    step: &BodyMove,
    from: u32,
    to: u32,
    letter: &[BodyState],
    read: usize,
    states: &mut Vec<BodyState>,
) -> usize
    requires few { read < 2 ^ 63 }
    ensures read { result ≡ read + length (slots_between from to (own_walk (step.now ∷ []))) }
    ensures states { states.new.items ≡ put_in (slots_between from to (own_walk (step.now ∷ []))) (drop read letter.now) states.old.items }
{
    if goes(step, from, to) {
        let body = body_in(letter, read);
        put(states, step.slot, body);
        return read + 1;
    }
    read
}

/// Puts the bodies of a letter into their slots.
fn read_letter(
    moves: &[BodyMove],
    from: u32,
    to: u32,
    letter: &[BodyState],
    states: &mut Vec<BodyState>,
)
    requires few { length moves.now < 2 ^ 63 }
    ensures { states.new.items ≡ put_in (slots_between from to (own_walk moves.now)) letter.now states.old.items }
{
    let mut read = 0;
    for place in 0..moves.len() {
        read = read_one(&moves[place], from, to, letter, read, states);
    }
}

/// Sends what moves from a part to another before a stage. Answers one if it waited long for that.
fn send_to<R: Wait>(
    rt: &R,
    number: u32,
    to: usize,
    moves: &[BodyMove],
    states: &mut Vec<BodyState>,
    ports: &mut Ports,
) -> u32
    requires few { length ports.old.outs ≤ MOST_PARTS }
    requires to { to < length ports.old.outs }
    requires allowed { MaySend (slice_index_or ports.old.outs to []) (let_go (slots_between number to (own_walk moves.now)) states.old.items) }
    ensures states { states.new.items ≡ left_by (slots_between number to (own_walk moves.now)) states.old.items }
    ensures sent { IsSentTo number to (let_go (slots_between number to (own_walk moves.now)) states.old.items) ports.old ports.new }
{
    let count = count_moves(moves, number, to as u32);
    if count == 0 {
        return 0;
    }
    let mut letter = ports.spare(rt, to, count);
    write_letter(moves, number, to as u32, states, &mut letter);
    long(ports.send(rt, to, letter))
}

/// Receives what moves to it from another. Answers one if it waited long for that.
fn receive_from<R: Wait>(
    rt: &R,
    number: u32,
    from: usize,
    moves: &[BodyMove],
    states: &mut Vec<BodyState>,
    ports: &mut Ports,
) -> u32
    requires few { length ports.old.ins ≤ MOST_PARTS }
    requires from { from < length ports.old.ins }
    ensures { IsTakenFrom from number (slots_between from number (own_walk moves.now)) states.old.items states.new.items ports.old ports.new }
{
    let count = count_moves(moves, from as u32, number);
    if count == 0 {
        return 0;
    }
    let Received { letter, waited } = ports.receive(rt, from, count);
    read_letter(moves, from as u32, number, letter.as_slice(), states);
    ports.give_back(from, letter);
    long(waited)
}

/// Sends all that moves from a part before a stage. Answers how many waits were long.
fn send_all<R: Wait>(
    rt: &R,
    number: u32,
    moves: &[BodyMove],
    states: &mut Vec<BodyState>,
    ports: &mut Ports,
) -> u32
    requires few { length ports.old.outs ≤ MOST_PARTS }
    requires allowed { MaySendAll (length ports.old.outs) number (own_walk moves.now) states.old.items ports.old }
    ensures states { states.new.items ≡ left_for (length ports.old.outs) number (own_walk moves.now) states.old.items }
    ensures sent { AreSentBelow (length ports.old.outs) number (own_walk moves.now) states.old.items ports.old ports.new }
{
    let mut waits: u32 = 0;
    for to in 0..ports.parts() {
        let waited = send_to(rt, number, to, moves, states, ports);
        waits = waits.saturating_add(waited);
    }
    waits
}

/// Receives all that moves to it. Answers how many waits were long.
fn receive_all<R: Wait>(
    rt: &R,
    number: u32,
    moves: &[BodyMove],
    states: &mut Vec<BodyState>,
    ports: &mut Ports,
) -> u32
    requires few { length ports.old.outs ≤ MOST_PARTS }
    requires count { length ports.old.ins ≡ length ports.old.outs }
    ensures { AreTakenBelow (length ports.old.outs) (length ports.old.outs) number (own_walk moves.now) states.old.items states.new.items ports.old ports.new }
{
    let mut waits: u32 = 0;
    for from in 0..ports.parts() {
        let waited = receive_from(rt, number, from, moves, states, ports);
        waits = waits.saturating_add(waited);
    }
    waits
}

/// Sends what moves from the part before a stage, and receives what moves to it. Answers how many waits were long.
pub(crate) fn exchange<R: Wait>(
    rt: &R,
    number: u32,
    moves: &[BodyMove],
    states: &mut Vec<BodyState>,
    ports: &mut Ports,
) -> u32
    requires few { length ports.old.outs ≤ MOST_PARTS }
    requires count { length ports.old.ins ≡ length ports.old.outs }
    requires allowed { MaySendAll (length ports.old.outs) number (own_walk moves.now) states.old.items ports.old }
    ensures { IsExchanged (length ports.old.outs) number (own_walk moves.now) states.old.items states.new.items ports.old ports.new }
{
    let sent = send_all(rt, number, moves, states, ports);
    let received = receive_all(rt, number, moves, states, ports);
    sent.saturating_add(received)
}
