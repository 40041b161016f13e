//! The book: a seat makes a call, or sees what was done.

ghost use Rattle.std.specs.Prelude.{◌≡◌, ◌<◌, [], ◌∷◌, ◌++◌};
ghost use Rattle.seat_book.specs.History.{IsPast, entry, known};
ghost use Rattle.seat_book.specs.Rules.{holding, desk_of, known_of, known_by, keeper_of, pass_of, IsKeeper, IsHolder, IsPass};

use crate::call::Call;
use crate::named::Named;
use crate::rule::{Clears, Enters, GivesOut, Law, Meets, TakesIn, View};
use atomic_table::{Badge, Seat, Table};
use std::alloc::Global;
use std::marker::{Model, PhantomData};
use std::mem;

/// The word that ties all seats of one roster to the keeper of their history.
#[derive(Drop)]
pub struct Book<N: Named, Command, Reply> {
    pub(crate) table: Table<Call<Command, Reply>, View<Command, Reply>, (), Law, Global>,
    pub(crate) named: PhantomData<N>,
    ghost of_its_name: { (table.shared.table_id ≡ N.table) × (table.shared.table_id.words ≡ 1) },
}

/// Who knows the whole history. Contracts see it as the history: each call that was accepted since the roster was
/// opened.
#[derive(Drop)]
pub struct Keeper<N: Named, Command, Reply> {
    pub(crate) seat: Seat<Call<Command, Reply>, View<Command, Reply>>,
    pub(crate) named: PhantomData<N>,
}

impl<N: Named, Command, Reply> Model for Keeper<N, Command, Reply> {
    ghost use Rattle.std.specs.Prelude.{◌≡◌, List};
    ghost use Rattle.seat_book.specs.declared.call.Entry.{Entry};
    ghost use Rattle.seat_book.specs.Rules.{desk_of, IsKeeper};

    ghost Value = { List (Entry Command Reply) };

    ghost view = { λ k. (desk_of k.seat.me.0).history };

    ghost invariant = { λ k. (k.seat.table_id ≡ N.table) × IsKeeper k.seat.me };
}

/// What ties a seat to the history. Contracts see it as the seat's number and what the seat has seen.
#[derive(Drop)]
pub struct Pass<N: Named, Command, Reply> {
    pub(crate) number: u64,
    pub(crate) badge: Badge<View<Command, Reply>>,
    pub(crate) named: PhantomData<N>,
}

impl<N: Named, Command, Reply> Model for Pass<N, Command, Reply> {
    ghost use Rattle.std.specs.Prelude.{◌≡◌, ◌<◌};
    ghost use Rattle.seat_book.specs.declared.rule.Known.{Known};
    ghost use Rattle.seat_book.specs.Rules.{known_by, IsPass};

    ghost Value = { Known Command Reply };

    ghost view = { λ p. known_by p.badge.views };

    ghost invariant = { λ p. (p.badge.table_id ≡ N.table) × IsPass p.badge.views × ((known_by p.badge.views).seat ≡ p.number) × (p.number < N.seats) × (p.number < 64) };
}

impl<N: Named, Command, Reply> Pass<N, Command, Reply> {
    /// The number of its seat, counted from 0.
    pub fn number(&self) -> u64
        ensures seat { result ≡ self.now.seat }
        ensures range { result < N.seats }
    {
        self.number
    }
}

impl<N: Named, Command, Reply> Book<N, Command, Reply> {
    /// The seat makes this call, which goes to the end of the history and is the last that the seat has seen.
    ///
    /// Until then the history was what the seat had seen, followed by calls of other seats alone.
    pub fn enter(
        &self,
        keeper: &mut Keeper<N, Command, Reply>,
        pass: &mut Pass<N, Command, Reply>,
        call: &Call<Command, Reply>,
    )
        ensures past { IsPast pass.old.seat pass.old.seen keeper.old }
        ensures history { keeper.new ≡ keeper.old ++ entry pass.old.seat call.now ∷ [] }
        ensures seen { pass.new ≡ known pass.old.seat keeper.new }
    {
        let desk = &mut keeper.seat;
        self.take_in(desk, &mut pass.badge);
        let shared = &self.table.shared;
        shared.compare_exchange_with::<Enters>(desk, 0, 0, pass.number + 1, call);
        shared.store::<Clears>(desk, 0, 0);
        self.give_out(desk, &mut pass.badge);
    }

    /// The seat sees the history, which stays as it is.
    ///
    /// It was what the seat had seen, followed by calls of other seats alone.
    pub fn meet(&self, keeper: &mut Keeper<N, Command, Reply>, pass: &mut Pass<N, Command, Reply>)
        ensures past { IsPast pass.old.seat pass.old.seen keeper.old }
        ensures history { keeper.new ≡ keeper.old }
        ensures seen { pass.new ≡ known pass.old.seat keeper.new }
    {
        let desk = &mut keeper.seat;
        self.take_in(desk, &mut pass.badge);
        self.table.shared.load::<Meets>(desk, 0);
        self.give_out(desk, &mut pass.badge);
    }

    // The keeper takes the pass in; its badge stays behind, blank.
    fn take_in(
        &self,
        desk: &mut Seat<Call<Command, Reply>, View<Command, Reply>>,
        badge: &mut Badge<View<Command, Reply>>,
    )
        requires desk { (desk.old.table_id ≡ N.table) × IsKeeper desk.old.me }
        requires badge { (badge.old.table_id ≡ N.table) × IsPass badge.old.views }
        ensures { (desk.new.table_id ≡ N.table) × (desk.new.me ≡ (holding (desk_of desk.old.me.0) (known_by badge.old.views), [])) }
    {
        let taken = mem::replace(badge, Badge::blank());
        self.table
            .shared
            .join_seat::<TakesIn>(desk, taken.into_seat());
    }

    // The keeper gives the pass that it holds out again.
    fn give_out(
        &self,
        desk: &mut Seat<Call<Command, Reply>, View<Command, Reply>>,
        badge: &mut Badge<View<Command, Reply>>,
    )
        requires { (desk.old.table_id ≡ N.table) × IsHolder desk.old.me }
        ensures desk { (desk.new.table_id ≡ N.table) × (desk.new.me ≡ (keeper_of desk.old.me.0, [])) }
        ensures badge { (badge.new.table_id ≡ N.table) × (badge.new.views ≡ pass_of desk.old.me.0 ∷ []) }
    {
        *badge = self.table.shared.split_seat::<GivesOut>(desk).into_badge();
    }
}
