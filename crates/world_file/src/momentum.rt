//! The movers' momentum, beside the sum of the ledger.

ghost use Rattle.std.specs.Prelude.{◌≡◌, ◌≤◌, ◌+◌, ◌^◌, ◌+ℤ◌, ◌*ℤ◌, ◌≤ℤ◌, pos, unsigned_abs};
ghost use Rattle.std.specs.Ordering.{int_eq};
ghost use Rattle.plain_world.specs.Momentum.{momentum, momentum_in};
ghost use Rattle.impulse_ledger.specs.Totals.{total_over};
ghost use Rattle.world_file.specs.Fitting.{momentum_fits};

use fixed_geom::{Vec2, ZERO_VECTOR, fdiv};
use impulse_ledger::{Total, Totals};
use plain_world::Body;

/// A number as eight times a whole one, and a rest. The sum of the totals of all causes, which 128 bits may not hold,
/// is kept so.
#[derive(Clone, Copy, Debug, PartialEq, Eq)]
struct Eighths {
    whole: i128,
    rest: i128,
}

fn in_eighths(number: i128) -> Eighths
    ensures sum { number ≡ result.whole *ℤ pos 8 +ℤ result.rest }
    ensures low { pos 0 ≤ℤ result.rest }
    ensures high { result.rest ≤ℤ pos 7 }
    ensures small { unsigned_abs result.whole ≤ 2 ^ 124 }
{
    let whole = fdiv(number, 8);
    Eighths {
        whole,
        rest: number - whole * 8,
    }
}

/// The sum of two such numbers.
fn plus(a: Eighths, b: Eighths) -> Eighths
    requires a_small { unsigned_abs a.whole ≤ 2 ^ 126 }
    requires b_small { unsigned_abs b.whole ≤ 2 ^ 125 }
    requires a_rest { unsigned_abs a.rest ≤ 100 }
    requires b_rest { unsigned_abs b.rest ≤ 100 }
    ensures whole { result.whole ≡ a.whole +ℤ b.whole }
    ensures rest { result.rest ≡ a.rest +ℤ b.rest }
{
    Eighths {
        whole: a.whole + b.whole,
        rest: a.rest + b.rest,
    }
}

/// Whether a number is such a one.
fn is_same(number: i128, sum: Eighths) -> bool
    requires number { unsigned_abs number ≤ 2 ^ 126 }
    requires low { pos 0 ≤ℤ sum.rest }
    requires high { sum.rest ≤ℤ pos 42 }
    ensures { result ≡ int_eq number (sum.whole *ℤ pos 8 +ℤ sum.rest) }
{
    if sum.whole.unsigned_abs() > (1 << 123) + 100 {
        return false;
    }
    number - sum.rest == sum.whole * 8
}

/// What a slot adds to the movers' momentum: nothing where no mover is.
fn momentum_in(entry: &Option<Body>) -> Vec2
    ensures x { result.x ≡ (momentum_in entry.now).x }
    ensures y { result.y ≡ (momentum_in entry.now).y }
{
    match entry {
        Some(body) => {
            if body.is_mover() {
                body.motion.p
            } else {
                ZERO_VECTOR
            }
        }
        None => ZERO_VECTOR,
    }
}

/// A momentum with one more.
fn with_more(sum: Total, more: Vec2) -> Total
    requires x_small { unsigned_abs sum.x ≤ 2 ^ 126 }
    requires y_small { unsigned_abs sum.y ≤ 2 ^ 126 }
    ensures x { result.x ≡ sum.x +ℤ more.x }
    ensures y { result.y ≡ sum.y +ℤ more.y }
    ensures x_near { unsigned_abs result.x ≤ unsigned_abs sum.x + 2 ^ 63 }
    ensures y_near { unsigned_abs result.y ≤ unsigned_abs sum.y + 2 ^ 63 }
{
    Total {
        x: sum.x + i128::from(more.x),
        y: sum.y + i128::from(more.y),
    }
}

/// The momentum of all movers.
fn momentum_of(bodies: &[Option<Body>]) -> Total
    ensures x { result.x ≡ (momentum bodies.now).x }
    ensures y { result.y ≡ (momentum bodies.now).y }
    ensures x_small { unsigned_abs result.x ≤ 2 ^ 126 }
    ensures y_small { unsigned_abs result.y ≤ 2 ^ 126 }
{
    let mut sum = Total { x: 0, y: 0 };
    for entry in bodies {
        sum = with_more(sum, momentum_in(entry));
    }
    sum
}

fn x_in_eighths(total: Total) -> Eighths
    ensures sum { total.x ≡ result.whole *ℤ pos 8 +ℤ result.rest }
    ensures low { pos 0 ≤ℤ result.rest }
    ensures high { result.rest ≤ℤ pos 7 }
    ensures small { unsigned_abs result.whole ≤ 2 ^ 124 }
{
    in_eighths(total.x)
}

fn sum_of_two_x(a: Total, b: Total) -> Eighths
    ensures sum { a.x +ℤ b.x ≡ result.whole *ℤ pos 8 +ℤ result.rest }
    ensures low { pos 0 ≤ℤ result.rest }
    ensures high { result.rest ≤ℤ pos 14 }
    ensures small { unsigned_abs result.whole ≤ 2 ^ 125 }
{
    plus(x_in_eighths(a), x_in_eighths(b))
}

fn sum_x(totals: &Totals) -> Eighths
    ensures sum { (total_over totals.now).x ≡ result.whole *ℤ pos 8 +ℤ result.rest }
    ensures low { pos 0 ≤ℤ result.rest }
    ensures high { result.rest ≤ℤ pos 42 }
{
    let first = sum_of_two_x(totals.command, totals.gravity);
    let second = sum_of_two_x(totals.immovable, totals.clamp);
    let third = sum_of_two_x(totals.rest, totals.departed);
    plus(plus(first, second), third)
}

fn y_in_eighths(total: Total) -> Eighths
    ensures sum { total.y ≡ result.whole *ℤ pos 8 +ℤ result.rest }
    ensures low { pos 0 ≤ℤ result.rest }
    ensures high { result.rest ≤ℤ pos 7 }
    ensures small { unsigned_abs result.whole ≤ 2 ^ 124 }
{
    in_eighths(total.y)
}

fn sum_of_two_y(a: Total, b: Total) -> Eighths
    ensures sum { a.y +ℤ b.y ≡ result.whole *ℤ pos 8 +ℤ result.rest }
    ensures low { pos 0 ≤ℤ result.rest }
    ensures high { result.rest ≤ℤ pos 14 }
    ensures small { unsigned_abs result.whole ≤ 2 ^ 125 }
{
    plus(y_in_eighths(a), y_in_eighths(b))
}

fn sum_y(totals: &Totals) -> Eighths
    ensures sum { (total_over totals.now).y ≡ result.whole *ℤ pos 8 +ℤ result.rest }
    ensures low { pos 0 ≤ℤ result.rest }
    ensures high { result.rest ≤ℤ pos 42 }
{
    let first = sum_of_two_y(totals.command, totals.gravity);
    let second = sum_of_two_y(totals.immovable, totals.clamp);
    let third = sum_of_two_y(totals.rest, totals.departed);
    plus(plus(first, second), third)
}

/// Whether the movers' momentum is the sum of the ledger.
pub(crate) fn is_momentum_kept(bodies: &[Option<Body>], totals: &Totals) -> bool
    ensures { result ≡ momentum_fits bodies.now totals.now }
{
    let momentum = momentum_of(bodies);
    is_same(momentum.x, sum_x(totals)) && is_same(momentum.y, sum_y(totals))
}
