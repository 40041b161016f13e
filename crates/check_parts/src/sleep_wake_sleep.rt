//! Worked by hand: two movers with a joint between them and a third one, which fall asleep and wake.

ghost use Rattle.std.specs.Prelude.{◌≡◌, IfOk, None, Some, cond};
ghost use Rattle.sleep_wake.specs.Sleeping.{name_at};
ghost use Rattle.sleep_wake.specs.Sources.{is_asleep_under};

use crate::assertions::{same, same_items};
use crate::constraint::{Joint, between};
use fixed_geom::Refusal;
use graph_colours::{Member, Movers};
use islands::sleeping_name;
use sleep_wake::{Sets, TieSource, put_some};
use std::alloc::Global;
use std::test::Fail;

/// Adds a mover where there is none yet, after making room for it.
fn add(sets: &mut Sets<Joint>, slot: u32) -> Result<(), Refusal> {
    sets.reserve(0, slot as usize + 1)?;
    if sets.label_of(slot).is_some() {
        return Err(Refusal::OutOfRange);
    }
    sets.add_mover(slot);
    Ok(())
}

/// Joins two movers that are awake, after making room for the joint.
fn join(sets: &mut Sets<Joint>, id: Joint, movers: Movers) -> Result<(), Refusal> {
    sets.reserve(1, 0)?;
    if sets.has(id) || !sets.are_awake(movers) {
        return Err(Refusal::OutOfRange);
    }
    sets.begin(Member { id, movers });
    Ok(())
}

/// Three movers, and the joint 5 between the first two.
fn a_pair_and_one(alloc: Global) -> Result<Sets<Joint>, Refusal> {
    let mut sets = Sets::new(alloc)?;
    for slot in 0..3 {
        add(&mut sets, slot)?;
    }
    join(&mut sets, Joint(5), between(0, 1))?;
    Ok(sets)
}

/// The joint 5.
fn joint() -> Member<Joint> {
    Member {
        id: Joint(5),
        movers: between(0, 1),
    }
}

/// Tells the constraints of sets, and who sleeps there, as they were when it was made.
#[derive(Drop)]
struct Told {
    ties: Vec<Member<Joint>>,
    sets: Sets<Joint>,
}

/// What these sets have to tell.
fn told_by(sets: &Sets<Joint>, alloc: Global) -> Result<Told, Refusal>
    ensures ties { IfOk result (λ told. told.ties.items ≡ sets.now.acting.ties) }
    ensures sets { IfOk result (λ told. told.sets.acting ≡ sets.now.acting) }
{
    Ok(Told {
        ties: sets.list_ties(Vec::new(alloc))?,
        sets: sets.try_copy()?,
    })
}

/// A joint, if it is asked for.
fn joint_if(asked: bool, joint: Member<Joint>) -> Option<Member<Joint>>
    ensures { result ≡ cond asked (Some joint) None }
{
    if asked { Some(joint) } else { None }
}

/// Whether the first mover of a joint sleeps under this name.
fn is_asleep_under(sets: &Sets<Joint>, name: u32, joint: Member<Joint>) -> bool
    ensures { result ≡ is_asleep_under (name_at sets.now.acting.labels) name joint }
{
    match sleeping_name(sets.label_of(joint.movers.first)) {
        None => false,
        Some(other) => other == name,
    }
}

impl TieSource<Joint> for Told {
    ghost ties = { λ told. told.ties.items };

    ghost names = { λ told. name_at told.sets.acting.labels };

    fn push_asleep(&self, name: u32, list: &mut Vec<Member<Joint>>) {
        for place in 0..self.ties.len() {
            let joint = self.ties[place];
            put_some(
                list,
                joint_if(is_asleep_under(&self.sets, name, joint), joint),
            );
        }
    }

    fn push_firsts(&self, slot: u32, list: &mut Vec<Member<Joint>>) {
        for place in 0..self.ties.len() {
            let joint = self.ties[place];
            put_some(list, joint_if(joint.movers.first == slot, joint));
        }
    }
}

/// The constraints of the pair and the one.
fn listed(alloc: Global) -> Result<Vec<Member<Joint>>, Refusal> {
    a_pair_and_one(alloc)?.list_ties(Vec::new(alloc))
}

/// How many constraints the pair and the one have.
fn counted(alloc: Global) -> Result<usize, Refusal> {
    Ok(a_pair_and_one(alloc)?.tie_count())
}

#[test]
fn tells_its_constraints(rt: HostRuntime) -> Result<(), Fail> {
    same_items(&rt, &listed(rt.alloc())?, &[joint()]);
    same(&rt, &counted(rt.alloc())?, &1);
    Ok(())
}

/// Which of the three are awake.
fn awake(sets: &Sets<Joint>) -> [bool; 3] {
    [sets.is_awake(0), sets.is_awake(1), sets.is_awake(2)]
}

fn colour(sets: &Sets<Joint>) -> Option<u8> {
    sets.colours().colour_of(Joint(5))
}

/// Puts a mover to sleep with its island.
fn put_to_sleep(sets: &mut Sets<Joint>, alloc: Global, slot: u32) -> Result<(), Refusal> {
    let source = told_by(sets, alloc)?;
    sets.sleep(slot, &source);
    Ok(())
}

/// Wakes the sets of three movers, and tells their names.
fn wake_all(sets: &mut Sets<Joint>, alloc: Global) -> Result<Vec<u32>, Refusal> {
    let names = sets.names_of(&[2, 1, 0])?;
    let source = told_by(sets, alloc)?;
    sets.know_told(&source);
    sets.wake_named(&names, &source);
    Ok(names)
}

#[test]
fn sleeps_and_wakes_with_its_constraints(rt: HostRuntime) -> Result<(), Fail> {
    let mut sets = a_pair_and_one(rt.alloc())?;
    same(&rt, &colour(&sets), &Some(0));
    put_to_sleep(&mut sets, rt.alloc(), 1)?;
    same(&rt, &awake(&sets), &[false, false, true]);
    same(&rt, &colour(&sets), &None);
    let names = wake_all(&mut sets, rt.alloc())?;
    same_items(&rt, &names, &[0]);
    same(&rt, &awake(&sets), &[true, true, true]);
    same(&rt, &colour(&sets), &Some(0));
    Ok(())
}

/// Lets a sleep phase pass, with these timers.
fn pass_phase(sets: &mut Sets<Joint>, alloc: Global, timers: &[u64]) -> Result<(), Refusal> {
    let awake = sets.awake_slots()?;
    let source = told_by(sets, alloc)?;
    sets.sleep_phase(timers, &awake, &source);
    Ok(())
}

/// The pair and the one after the one was slow for 128 ticks, and a copy after the pair was too.
fn slow_and_copied(alloc: Global) -> Result<[Sets<Joint>; 2], Refusal> {
    let mut sets = a_pair_and_one(alloc)?;
    pass_phase(&mut sets, alloc, &[127, 200, 128])?;
    let mut copy = sets.try_copy()?;
    pass_phase(&mut copy, alloc, &[128, 200, 0])?;
    Ok([sets, copy])
}

#[test]
fn sleeps_when_all_were_slow_for_long(rt: HostRuntime) -> Result<(), Fail> {
    let [sets, copy] = &slow_and_copied(rt.alloc())?;
    same(&rt, &awake(sets), &[true, true, false]);
    same(&rt, &awake(copy), &[false, false, false]);
    Ok(())
}
