//! The numbers of contacts that come and go, by balls on the ground.

ghost use Rattle.check_parts.specs.Scenes.{ArePairs};

use crate::assertions::{same, same_items};
use crate::contacts_forbidden::NO_PAIR;
use crate::contacts_scenes::{BALL, add, proxy_of};
use crate::contacts_table::{collide, count};
use contacts::*;
use contacts_base::{ContactKey, ShapeId};
use fixed_geom::{Refusal, Vec2};
use shapes::Shape;
use std::alloc::Global;
use std::process::Abort;

/// A floor under all balls.
const GROUND: Shape = Shape::Segment {
    first: Vec2 {
        x: -2_000_000,
        y: 0,
    },
    second: Vec2 { x: 2_000_000, y: 0 },
};

/// The height of a ball that lies on the ground, of one a little above it, and of one that isn't near it.
const DOWN: i64 = 32_768;

const APART: i64 = 32_769;

const UP: i64 = 1_000_000;

/// Adds a ball at this height that isn't near those in other slots.
fn add_ball(broad: &mut PairSweep, slot: u32, height: i64) -> Result<(), Refusal> {
    let x = i64::from(slot) * 1_000_000 - 2_500_000;
    add(broad, proxy_of(slot, BALL, x, height, true)?)
}

/// The ground in slot 0, and in the slots from 1 on balls at these heights that aren't near one another.
fn on_ground(alloc: Global, heights: &[i64]) -> Result<PairSweep, Refusal> {
    let mut broad = PairSweep::new(alloc);
    add(&mut broad, proxy_of(0, GROUND, 0, 0, false)?)?;
    add_balls(&mut broad, heights)?;
    Ok(broad)
}

fn add_balls(broad: &mut PairSweep, heights: &[i64]) -> Result<(), Refusal> {
    let mut slot: u32 = 0;
    for height in heights {
        slot = slot.saturating_add(1);
        add_ball(broad, slot, *height)?;
    }
    Ok(())
}

/// The numbers of the contacts of the first four balls with the ground.
type Numbers = [Option<u32>; 4];

/// The key of the contact of the ground and the ball in a slot.
fn with_ground(slot: u32) -> ContactKey {
    ContactKey {
        first: ShapeId { slot: 0, index: 0 },
        second: ShapeId { slot, index: 0 },
    }
}

fn numbers(contacts: &ContactTable) -> Numbers {
    [
        contacts.number_of(with_ground(1)),
        contacts.number_of(with_ground(2)),
        contacts.number_of(with_ground(3)),
        contacts.number_of(with_ground(4)),
    ]
}

/// The numbers of the contacts once the balls are at these heights.
fn put_at(alloc: Global, contacts: &mut ContactTable, heights: &[i64]) -> Result<Numbers, Refusal>
    requires { ArePairs contacts.old.contacts }
    ensures pairs { ArePairs contacts.new.contacts }
{
    collide(alloc, contacts, on_ground(alloc, heights)?, NO_PAIR)?;
    Ok(numbers(contacts))
}

/// The contacts of the body in a slot go.
fn drop_body(contacts: &mut ContactTable, slot: u32)
    requires { ArePairs contacts.old.contacts }
    ensures pairs { ArePairs contacts.new.contacts }
{
    contacts.drop_of_body(slot);
}

/// The numbers once three balls lie, once the first is lifted, once the fourth comes down, and once it goes as the
/// first comes down again.
fn come_and_go(alloc: Global, contacts: &mut ContactTable) -> Result<[Numbers; 4], Refusal>
    requires { ArePairs contacts.old.contacts }
{
    let three = put_at(alloc, contacts, &[DOWN, DOWN, DOWN, UP])?;
    let lifted = put_at(alloc, contacts, &[UP, DOWN, DOWN, UP])?;
    let fourth = put_at(alloc, contacts, &[UP, DOWN, DOWN, DOWN])?;
    let again = put_at(alloc, contacts, &[DOWN, DOWN, DOWN, UP])?;
    Ok([three, lifted, fourth, again])
}

#[test]
fn a_contact_keeps_its_number_until_it_goes_and_the_next_one_gets_it(rt: HostRuntime) {
    let numbered = [
        [Some(0), Some(1), Some(2), None],
        [None, Some(1), Some(2), None],
        [None, Some(1), Some(2), Some(0)],
        [Some(3), Some(1), Some(2), None],
    ];
    let mut contacts = ContactTable::new(rt.alloc());
    same(&rt, &come_and_go(rt.alloc(), &mut contacts), &Ok(numbered));
}

/// Four balls come to lie, and that in slot 2 goes: its contacts and those of the others are then still two lists.
fn lay_all_but_one(alloc: Global, contacts: &mut ContactTable) -> Result<(), Refusal>
    requires { ArePairs contacts.old.contacts }
    ensures pairs { ArePairs contacts.new.contacts }
{
    put_at(alloc, contacts, &[DOWN, DOWN, DOWN, DOWN])?;
    drop_body(contacts, 2);
    Ok(())
}

/// The numbers of the contacts, whether they are one list, how many the last change made and ended, and below which
/// number all are.
fn shown(contacts: &ContactTable) -> (Numbers, bool, [usize; 3]) {
    let counts = [
        contacts.made().len(),
        contacts.gone().len(),
        contacts.number_bound(),
    ];
    (numbers(contacts), contacts.as_one().is_some(), counts)
}

/// What is shown once a body's contacts are dropped, once a sweep has made the lists one, and once nothing was carried
/// out.
fn swept(
    alloc: Global,
    contacts: &mut ContactTable,
) -> Result<[(Numbers, bool, [usize; 3]); 3], Refusal>
    requires { ArePairs contacts.old.contacts }
{
    lay_all_but_one(alloc, contacts)?;
    let dropped = shown(contacts);
    put_at(alloc, contacts, &[DOWN, DOWN, DOWN, DOWN])?;
    let again = shown(contacts);
    contacts.commit_pending();
    Ok([dropped, again, shown(contacts)])
}

#[test]
fn numbers_stay_over_a_drop_a_sweep_and_a_commit(rt: HostRuntime) {
    let four = [Some(0), Some(1), Some(2), Some(3)];
    let dropped = ([Some(0), None, Some(2), Some(3)], false, [0, 1, 4]);
    let told = [dropped, (four, true, [1, 0, 4]), (four, true, [0, 0, 4])];
    let mut contacts = ContactTable::new(rt.alloc());
    same(&rt, &swept(rt.alloc(), &mut contacts), &Ok(told));
}

/// The numbers of the contacts that have the body in a slot on one side, ascending: of eight at most, which are more
/// than there are.
fn thread(
    alloc: Global,
    contacts: &ContactTable,
    side: Side,
    slot: u32,
) -> Result<Vec<u32>, Refusal> {
    let mut list = Vec::new(alloc);
    let mut next = contacts.first_at(side, slot);
    for _ in 0..8 {
        if let Some(number) = next {
            list.push(number)?;
            next = contacts.behind(side, number);
        }
    }
    list.sort_unstable();
    Ok(list)
}

/// Looks whether the contacts that have the body in a slot on one side have these numbers.
fn same_thread(
    rt: &impl Abort,
    alloc: Global,
    contacts: &ContactTable,
    side: Side,
    slot: u32,
    numbers: &[u32],
) -> Result<(), Refusal> {
    let thread = thread(alloc, contacts, side, slot)?;
    same_items(rt, &thread, numbers);
    Ok(())
}

fn same_threads(rt: &impl Abort, alloc: Global, contacts: &mut ContactTable) -> Result<(), Refusal>
    requires { ArePairs contacts.old.contacts }
{
    lay_all_but_one(alloc, contacts)?;
    same_thread(rt, alloc, contacts, Side::First, 0, &[0, 2, 3])?;
    same_thread(rt, alloc, contacts, Side::Second, 3, &[2])?;
    same_thread(rt, alloc, contacts, Side::First, 3, &[])?;
    same_thread(rt, alloc, contacts, Side::Second, 2, &[])
}

#[test]
fn the_threads_of_a_body_have_its_contacts_alone(rt: HostRuntime) {
    let mut contacts = ContactTable::new(rt.alloc());
    let looked = same_threads(&rt, rt.alloc(), &mut contacts);
    same(&rt, &looked, &Ok(()));
}

/// What the numbers 0 to 2 tell once two balls that lay are at these heights.
fn told(
    alloc: Global,
    contacts: &mut ContactTable,
    heights: &[i64],
) -> Result<[Option<NumberedContact>; 3], Refusal>
    requires { ArePairs contacts.old.contacts }
{
    put_at(alloc, contacts, &[DOWN, DOWN])?;
    put_at(alloc, contacts, heights)?;
    Ok([
        contacts.contact(0),
        contacts.contact(1),
        contacts.contact(2),
    ])
}

/// The same, where there are no contacts before.
fn told_at(alloc: Global, heights: &[i64]) -> Result<[Option<NumberedContact>; 3], Refusal> {
    let mut contacts = ContactTable::new(alloc);
    told(alloc, &mut contacts, heights)
}

#[test]
fn a_number_tells_the_key_and_whether_the_shapes_touch(rt: HostRuntime) {
    let first = |touching: bool| NumberedContact {
        key: with_ground(1),
        touching,
    };
    let second = NumberedContact {
        key: with_ground(2),
        touching: true,
    };
    let apart = [Some(first(false)), Some(second), None];
    same(&rt, &told_at(rt.alloc(), &[APART, DOWN]), &Ok(apart));
    let touching = [Some(first(true)), Some(second), None];
    same(&rt, &told_at(rt.alloc(), &[DOWN, DOWN]), &Ok(touching));
    let gone = [Some(first(true)), None, None];
    same(&rt, &told_at(rt.alloc(), &[DOWN, UP]), &Ok(gone));
}

/// How many contacts the ground has, and the numbers of all, once its body is dropped.
fn without_ground(
    alloc: Global,
    contacts: &mut ContactTable,
) -> Result<(usize, Numbers, usize), Refusal>
    requires { ArePairs contacts.old.contacts }
{
    lay_all_but_one(alloc, contacts)?;
    drop_body(contacts, 0);
    let left = count(alloc, contacts)?;
    Ok((left, numbers(contacts), contacts.gone().len()))
}

#[test]
fn a_body_that_is_dropped_lets_its_numbers_go(rt: HostRuntime) {
    let mut contacts = ContactTable::new(rt.alloc());
    let left = without_ground(rt.alloc(), &mut contacts);
    same(&rt, &left, &Ok((0, [None; 4], 3)));
}
