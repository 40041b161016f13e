//! The tasks of a step's crew: the parts of its ticks, and the pieces of its collide.

ghost use Rattle.std.specs.Prelude.{◌≡◌, ◌++◌, ◌+◌, ◌<◌, ◌≤◌, Option, map, reverse, true, vec_capacity, vec_len};
ghost use Rattle.std.specs.Arc.{arc_value};
ghost use Rattle.std.specs.List.{filter_map};
ghost use Rattle.std.specs.Option.{option_to_list};
ghost use Rattle.world_workers.specs.declared.tasks.Done.{Done as TheDone};
ghost use Rattle.world_workers.specs.Tasks.{done_of, look_of, pairs_of, part_of};

use contacts::{EvaluatedPairs, LookedPlaces, PairLists, PairPiece, Survey};
use crew::{Piece, Work};
use part_solver::{Part, Seat};
use std::alloc::Global;
use std::marker::Model;
use std::sync::{Arc, Wait};
use world_core::{BodyShapes, WorldLook};
use world_core_base::JointTable;

pub(crate) type WorldSurvey = Survey<BodyShapes, JointTable>;

/// A piece, with what is lent to all of them. Contracts see both.
#[derive(Drop)]
pub(crate) struct Loan<L, P> {
    lent: Arc<L, Global>,
    piece: P,
}

impl<L, P> Model for Loan<L, P> {
    ghost use Rattle.std.specs.Arc.{arc_value};

    ghost Value = { L × P };

    ghost view = { λ a. (arc_value a.lent, a.piece) };
}

/// Works a piece.
fn worked<P: Piece>(loan: Loan<P::Lent, P>) -> P::Out
where
    P::Lent: Drop,
    ensures { result ≡ P.worked loan.0 loan.1 }
{
    let Loan { lent, piece } = loan;
    piece.work(&*lent)
}

/// What a worker of a step is given: a part of its ticks, some near pairs of its collide, or some of its contacts.
#[derive(Drop)]
pub(crate) enum Task {
    Seat(Seat),
    Pairs(Loan<PairLists, PairPiece>),
    Look(Loan<WorldSurvey, WorldLook>),
}

/// What it answers.
#[derive(Drop)]
pub(crate) enum Done {
    Part(Part),
    Pairs(EvaluatedPairs),
    Look(LookedPlaces),
}

/// The work of a step's crew, which reads nothing but its task.
#[derive(Drop)]
pub(crate) struct TaskWork;

impl Work for TaskWork {
    type Item = Task;

    type Out = Done;

    ghost answer = { λ _ t. done_of t };

    fn work<R: Wait>(&self, rt: &R, item: Task) -> Done {
        match item {
            Task::Seat(seat) => Done::Part(seat.work(rt)),
            Task::Pairs(loan) => Done::Pairs(worked(loan)),
            Task::Look(loan) => Done::Look(worked(loan)),
        }
    }
}

/// An answer of one kind among those of all.
pub(crate) trait Answer: Sized {
    ghost taken: { TheDone → Option Self };

    /// The answer, if it is of this kind.
    fn taken(done: Done) -> Option<Self>
        ensures { result ≡ taken done };
}

impl Answer for Part {
    ghost taken = { part_of };

    fn taken(done: Done) -> Option<Part> {
        match done {
            Done::Part(part) => Some(part),
            Done::Pairs(_) => None,
            Done::Look(_) => None,
        }
    }
}

impl Answer for EvaluatedPairs {
    ghost taken = { pairs_of };

    fn taken(done: Done) -> Option<EvaluatedPairs> {
        match done {
            Done::Part(_) => None,
            Done::Pairs(pairs) => Some(pairs),
            Done::Look(_) => None,
        }
    }
}

impl Answer for LookedPlaces {
    ghost taken = { look_of };

    fn taken(done: Done) -> Option<LookedPlaces> {
        match done {
            Done::Part(_) => None,
            Done::Pairs(_) => None,
            Done::Look(look) => Some(look),
        }
    }
}

/// Adds an answer, if there is one. There is room for it.
fn push_answer<T>(answers: &mut Vec<T>, answer: Option<T>)
    requires { vec_len answers.old < vec_capacity answers.old }
    ensures items { answers.new.items ≡ answers.old.items ++ option_to_list answer }
    ensures capacity { vec_capacity answers.new ≡ vec_capacity answers.old }
    ensures long { vec_len answers.new ≤ vec_len answers.old + 1 }
{
    match answer {
        None => {}
        Some(answer) => answers.push_reserved(answer),
    }
}

/// Adds the answers of one kind on a stack to `answers`, which has room for them.
fn unstack_answers<T: Answer>(stack: &mut Vec<Done>, answers: &mut Vec<T>)
    requires { vec_len answers.old + vec_len stack.old ≤ vec_capacity answers.old }
    ensures { answers.new.items ≡ answers.old.items ++ filter_map T.taken (reverse stack.old.items) }
{
    for taken in 0..stack.len() {
        if let Some(done) = stack.pop() {
            push_answer(answers, T::taken(done));
        }
    }
}

/// Adds the answers of one kind to `answers`, which has room for them.
pub(crate) fn take_answers<T: Answer>(done: &mut Vec<Done>, answers: &mut Vec<T>)
    requires { vec_len answers.old + vec_len done.old ≤ vec_capacity answers.old }
    ensures { answers.new.items ≡ answers.old.items ++ filter_map T.taken done.old.items }
{
    done.reverse();
    unstack_answers(done, answers);
}

/// Adds the seats on a stack to the tasks, which have room for them.
fn unstack_seats(tasks: &mut Vec<Task>, stack: &mut Vec<Seat>)
    requires { vec_len tasks.old + vec_len stack.old ≤ vec_capacity tasks.old }
    ensures { tasks.new.items ≡ tasks.old.items ++ map Task.Seat (reverse stack.old.items) }
{
    for taken in 0..stack.len() {
        if let Some(seat) = stack.pop() {
            tasks.push_reserved(Task::Seat(seat));
        }
    }
}

/// Takes the seats as tasks, if there is memory for that: else there is no task.
pub(crate) fn list_seats(tasks: &mut Vec<Task>, seats: &mut Vec<Seat>) -> bool
    ensures { result ≡ true → tasks.new.items ≡ map Task.Seat seats.old.items }
{
    tasks.clear();
    if tasks.reserve(seats.len()).is_err() {
        return false;
    }
    seats.reverse();
    unstack_seats(tasks, seats);
    true
}

/// Adds the pieces on a stack to the tasks, which have room for them, each with what is lent to it.
fn unstack_pairs(
    tasks: &mut Vec<Task>,
    lent: &Arc<PairLists, Global>,
    stack: &mut Vec<PairPiece>,
) -> bool
    requires { vec_len tasks.old + vec_len stack.old ≤ vec_capacity tasks.old }
    ensures { result ≡ true → tasks.new.items ≡ tasks.old.items ++ map (λ p. Task.Pairs (arc_value lent.now, p)) (reverse stack.old.items) }
{
    for taken in 0..stack.len() {
        let Ok(lent) = Arc::try_clone(lent) else {
            return false;
        };
        if let Some(piece) = stack.pop() {
            tasks.push_reserved(Task::Pairs(Loan { lent, piece }));
        }
    }
    true
}

/// Takes the pieces as tasks, if there is memory for that: else there is no task.
pub(crate) fn list_pairs(
    tasks: &mut Vec<Task>,
    lent: &Arc<PairLists, Global>,
    pieces: &mut Vec<PairPiece>,
) -> bool
    ensures { result ≡ true → tasks.new.items ≡ map (λ p. Task.Pairs (arc_value lent.now, p)) pieces.old.items }
{
    tasks.clear();
    if tasks.reserve(pieces.len()).is_err() {
        return false;
    }
    pieces.reverse();
    if !unstack_pairs(tasks, lent, pieces) {
        tasks.clear();
        return false;
    }
    true
}

/// Adds the pieces on a stack to the tasks, which have room for them, each with what is lent to it.
fn unstack_looks(
    tasks: &mut Vec<Task>,
    lent: &Arc<WorldSurvey, Global>,
    stack: &mut Vec<WorldLook>,
) -> bool
    requires { vec_len tasks.old + vec_len stack.old ≤ vec_capacity tasks.old }
    ensures { result ≡ true → tasks.new.items ≡ tasks.old.items ++ map (λ p. Task.Look (arc_value lent.now, p)) (reverse stack.old.items) }
{
    for taken in 0..stack.len() {
        let Ok(lent) = Arc::try_clone(lent) else {
            return false;
        };
        if let Some(piece) = stack.pop() {
            tasks.push_reserved(Task::Look(Loan { lent, piece }));
        }
    }
    true
}

/// Takes the pieces as tasks, if there is memory for that: else there is no task.
pub(crate) fn list_looks(
    tasks: &mut Vec<Task>,
    lent: &Arc<WorldSurvey, Global>,
    pieces: &mut Vec<WorldLook>,
) -> bool
    ensures { result ≡ true → tasks.new.items ≡ map (λ p. Task.Look (arc_value lent.now, p)) pieces.old.items }
{
    tasks.clear();
    if tasks.reserve(pieces.len()).is_err() {
        return false;
    }
    pieces.reverse();
    if !unstack_looks(tasks, lent, pieces) {
        tasks.clear();
        return false;
    }
    true
}
