//! Seats before they are opened.

ghost use Rattle.std.specs.Prelude.{◌≡◌, ◌<◌, ◌+◌, [], None, MatchResult, unwrap_or};
ghost use Rattle.seat_book.specs.History.{known};
ghost use Rattle.seat_book.specs.Rules.{keeping, idle};
ghost use Rattle.seat_book.specs.Seats.{newcomers, seats_refusal};

use crate::book::{Book, Keeper, Pass};
use crate::call::Call;
use crate::named::Named;
use crate::rule::{Deals, Law, View};
use atomic_table::{Seat, Table};
use fixed_geom::Refusal;
use std::alloc::Global;
use std::marker::{Model, PhantomData};

/// The most seats of a roster.
pub const MAX_SEATS: u64 = 64;

/// Seats that aren't open yet. Contracts see the table of their book, and how many they are.
#[derive(Drop)]
pub struct Roster<Command, Reply> {
    table: Table<Call<Command, Reply>, View<Command, Reply>, (), Law, Global>,
    desk: Seat<Call<Command, Reply>, View<Command, Reply>>,
    seats: u64,
}

impl<Command, Reply> Model for Roster<Command, Reply> {
    ghost use Rattle.std.specs.Prelude.{◌≡◌, ◌≤◌, []};
    ghost use Rattle.seat_book.specs.Rules.{keeping, idle};
    ghost use Rattle.seat_book.specs.Seats.{Seating};

    ghost Value = { Seating };

    ghost view = { λ r. record { table = r.table.shared.table_id; seats = r.seats } };

    ghost invariant = { λ r. (r.desk.table_id ≡ r.table.shared.table_id) × (r.table.shared.table_id.words ≡ 1) × (r.desk.me ≡ (keeping (idle [] 0), [])) × (1 ≤ r.seats) × (r.seats ≤ 64) };
}

impl<Command, Reply> Roster<Command, Reply> {
    /// A roster of 1 to 64 seats. Refused 5 for any other number, else 1 where memory is wanting.
    pub fn new(alloc: Global, seats: u64) -> Result<Roster<Command, Reply>, Refusal>
        ensures { MatchResult result (λ roster. (seats_refusal seats ≡ None) × (roster.seats ≡ seats)) (λ refusal. refusal ≡ unwrap_or (seats_refusal seats) Refusal.NoMemory) }
    {
        if seats == 0 || seats > MAX_SEATS {
            return Err(Refusal::OutOfRange);
        }
        match Table::of_words(alloc, &[0], &()) {
            Ok((table, desk)) => Ok(Roster { table, desk, seats }),
            Err(_) => Err(Refusal::NoMemory),
        }
    }

    /// How many seats it has.
    pub fn seats(&self) -> u64
        ensures { result ≡ self.now.seats }
    {
        self.seats
    }
}

/// Opens a roster: the history is empty, and each seat has a pass, which has seen nothing. The passes stand in the
/// order of their seats. Refused 1 where memory is wanting.
pub fn open<N: Named, Command: Drop, Reply: Drop>(
    alloc: Global,
    roster: Roster<Command, Reply>,
) -> Result<
    (
        Book<N, Command, Reply>,
        Keeper<N, Command, Reply>,
        Vec<Pass<N, Command, Reply>>,
    ),
    Refusal,
>
    requires { (roster.table ≡ N.table) × (roster.seats ≡ N.seats) }
    ensures { MatchResult result (λ opened. (opened.1 ≡ []) × (opened.2.items ≡ newcomers roster.seats)) (λ refusal. refusal ≡ Refusal.NoMemory) }
{
    let Roster {
        table,
        mut desk,
        seats,
    } = roster;
    let book = Book {
        table,
        named: PhantomData,
    };
    let mut passes = Vec::new(alloc);
    for number in 0..seats {
        if passes.reserve(1).is_err() {
            return Err(Refusal::NoMemory);
        }
        passes.push_reserved(deal(&book, &mut desk, number));
    }
    let keeper = Keeper {
        seat: desk,
        named: PhantomData,
    };
    Ok((book, keeper, passes))
}

// The pass of the next seat.
fn deal<N: Named, Command, Reply>(
    book: &Book<N, Command, Reply>,
    desk: &mut Seat<Call<Command, Reply>, View<Command, Reply>>,
    number: u64,
) -> Pass<N, Command, Reply>
    requires { (desk.old.table_id ≡ N.table) × (desk.old.me ≡ (keeping (idle [] number), [])) × (number < N.seats) × (number < 64) }
    ensures pass { result ≡ known number [] }
    ensures desk { (desk.new.table_id ≡ N.table) × (desk.new.me ≡ (keeping (idle [] (number + 1)), [])) }
{
    let dealt = book.table.shared.split_seat::<Deals>(desk);
    Pass {
        number,
        badge: dealt.into_badge(),
        named: PhantomData,
    }
}

/// The law of the limits: the numbers that definitions take from the code, in digits. The function does nothing; its
/// contract is the law.
pub fn limits_in_digits()
    ensures seats { MAX_SEATS ≡ 64 }
{}
