//! Rosters of seats, and two seats that take turns.

ghost use Rattle.std.specs.Prelude.{◌≡◌, [], ◌∷◌};
ghost use Rattle.seat_book.specs.History.{entry, known};

use crate::assertions::same;
use fixed_geom::Refusal;
use seat_book::{Book, Call, Keeper, Named, Pass, Roster, open};
use std::alloc::Global;
use std::marker::Brand;
use std::test::Fail;

type Push = Call<i64, u64>;

fn call(number: u64, command: i64, reply: u64) -> Push
    ensures { result ≡ record { number = number; command = command; reply = reply } }
{
    Call {
        number,
        command,
        reply,
    }
}

#[test]
fn sizes_of_rosters(rt: HostRuntime) -> Result<(), Fail> {
    same(&rt, &refusal_of(rt.alloc(), 0), &Some(Refusal::OutOfRange));
    same(&rt, &refusal_of(rt.alloc(), 1), &None);
    same(&rt, &refusal_of(rt.alloc(), 64), &None);
    same(&rt, &refusal_of(rt.alloc(), 65), &Some(Refusal::OutOfRange));
    Ok(())
}

fn refusal_of(alloc: Global, seats: u64) -> Option<Refusal> {
    Roster::<i64, u64>::new(alloc, seats).err()
}

#[test]
fn two_seats_take_turns(rt: HostRuntime) -> Result<(), Fail> {
    let roster = Roster::<i64, u64>::new(rt.alloc(), 2).map_err(|_| "a roster")?;
    same(&rt, &roster.seats(), &2);
    same(&rt, &open_two::<Brand>(rt.alloc(), roster), &Ok((0, 1)));
    Ok(())
}

// The numbers of both seats, once each has made a call.
fn open_two<N: Named>(alloc: Global, roster: Roster<i64, u64>) -> Result<(u64, u64), Refusal>
    requires { (roster.table ≡ N.table) × (roster.seats ≡ N.seats) × (roster.seats ≡ 2) }
{
    let (book, mut keeper, mut passes) = open::<N, i64, u64>(alloc, roster)?;
    let (Some(mut second), Some(mut first)) = (passes.pop(), passes.pop()) else {
        return Err(Refusal::WrongSeats);
    };
    take_turns(&book, &mut keeper, &mut first, &mut second);
    Ok((first.number(), second.number()))
}

// The first makes two calls, the second sees them and makes one, and the first sees that.
fn take_turns<N: Named>(
    book: &Book<N, i64, u64>,
    keeper: &mut Keeper<N, i64, u64>,
    first: &mut Pass<N, i64, u64>,
    second: &mut Pass<N, i64, u64>,
)
    requires { (keeper.old ≡ []) × (first.old ≡ known 0 []) × (second.old ≡ known 1 []) }
    ensures first { first.new ≡ known 0 keeper.new }
    ensures second { second.new ≡ known 1 keeper.new }
{
    book.enter(keeper, first, &call(1, 5, 0));
    book.enter(keeper, first, &call(2, -3, 0));
    book.enter(keeper, second, &call(1, 4, 0));
    book.meet(keeper, first);
    book.meet(keeper, second);
}
