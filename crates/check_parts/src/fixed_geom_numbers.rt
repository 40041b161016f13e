//! Values worked by hand, each public function once.

ghost use Rattle.std.specs.Prelude.{◌≡◌, ◌*◌, ◌^◌, ◌<◌, ◌≤◌, ◌<ℤ◌, ◌≤ℤ◌, pos, neg_ℤ, true, unsigned_abs};
ghost use Rattle.fixed_geom.specs.Numbers.{rdiv, fdiv, isqrt};
ghost use Rattle.fixed_geom.specs.Vectors.{cross, unit};
ghost use Rattle.fixed_geom.specs.Facings.{is_facing, turn};

use crate::assertions::{same, same_items};
use fixed_geom::*;
use std::test::Fail;

#[test]
fn quotients_round(rt: HostRuntime) {
    let wide = [
        rdiv(5, 2),
        rdiv(-5, 2),
        rdiv(7, 3),
        rdiv(1 << 40, 3) + rdiv(1 << 40, 2),
        fdiv(-20000, 3),
        fdiv(20000, 3),
    ];
    same_items(&rt, &wide, &[3, -3, 2, 916259689813, -6667, 6666]);
    let narrow = [
        rdiv_64(-1099511627776, 3),
        rdiv_unit(-(1 << 29)),
        rdiv_unit((1 << 29) - 1),
        rdiv_unit(-(1 << 92)),
    ];
    same_items(&rt, &narrow, &[-366503875925, -1, 0, -(1 << 62)]);
}

/// A quotient by the reciprocal of the divisor.
fn quotient(a: i64, b: i64) -> i64
    requires a { unsigned_abs a ≤ 3 * 2 ^ 39 }
    requires positive { pos 0 <ℤ b }
    requires b { unsigned_abs b ≤ 2 ^ 20 }
{
    rdiv_by(a, b, rdiv_reciprocal(b))
}

/// A share by the reciprocal of the whole.
fn part(x: i64, k: i64) -> Option<i64> {
    share_by(x, k, share_reciprocal(k))
}

/// A quotient times 2^40 by the reciprocal of the divisor.
fn quotient_40(x: i64, k: i64) -> i128
    requires nonnegative { pos 0 ≤ℤ x }
    requires x { unsigned_abs x ≤ 2 ^ 56 }
    requires positive { pos 0 <ℤ k }
    requires most { unsigned_abs k < 2 ^ 62 }
{
    quotient_40_by(x, k, share_reciprocal(k))
}

/// An impulse by the reciprocal of the inverse mass.
fn impulse(x: i64, inverse: i64) -> i64
    requires x { unsigned_abs x < 2 ^ 22 }
    requires least { pos (2 ^ 20) ≤ℤ inverse }
    requires most { unsigned_abs inverse < 2 ^ 62 }
{
    over_inverse_by(x, inverse, over_inverse_reciprocal(inverse))
}

#[test]
fn quotients_by_reciprocals_round(rt: HostRuntime) {
    let quotients = [
        quotient(7, 2),
        quotient(-7, 2),
        quotient(-5, 3),
        quotient(-1, 3),
        quotient(1649267441664, 1048576),
        quotient(-1649267441664, 1),
        inverse_by(3, rdiv_reciprocal(3)),
    ];
    same_items(
        &rt,
        &quotients,
        &[4, -4, -2, 0, 1572864, -1649267441664, 366503875925],
    );
    let parts = [
        part(-(1 << 30), 1 << 32),
        part(5, 1 << 33),
        part(1 << 40, 1 << 54),
        // Two whole numbers are as near.
        part(4, 1 << 33),
        // More than a quarter.
        part((1 << 30) + 4, 1 << 32),
        // No reciprocal.
        part(1, 4),
        part(1 << 40, 1 << 58),
    ];
    let told = [
        Some(-268435456),
        Some(1),
        Some(65536),
        None,
        None,
        None,
        None,
    ];
    same_items(&rt, &parts, &told);
    let wide = [
        quotient_40(1 << 20, 1 << 40),
        quotient_40(1 << 47, 1 << 57),
        quotient_40(3, 7),
        quotient_40(1 << 56, 1 << 32),
    ];
    same_items(
        &rt,
        &wide,
        &[1048576, 1073741824, 471219269047, 18446744073709551616],
    );
    let impulses = [
        impulse(55, 916259689813),
        impulse(-10, 2199023255552),
        impulse(-1, 2199023255552),
        impulse(-3, 1048576),
        impulse(1000, 1048576),
        impulse(1048575, 3298534883328),
        impulse(7, 1 << 61),
    ];
    same_items(
        &rt,
        &impulses,
        &[66, -5, -1, -3145728, 1048576000, 349525, 0],
    );
}

#[test]
fn roots_round_down(rt: HostRuntime) {
    let roots = [
        isqrt(0),
        isqrt(3),
        isqrt(4),
        isqrt(40000000000),
        // The nearest float's root is one too great here.
        isqrt(((1 << 32) - 1) * ((1 << 32) - 1) - 1),
        isqrt((1 << 64) - 1),
        isqrt(i128::MAX),
    ];
    let wanted = [
        0,
        1,
        2,
        200000,
        (1 << 32) - 2,
        (1 << 32) - 1,
        13043817825332782212,
    ];
    same_items(&rt, &roots, &wanted);
}

#[test]
fn vectors_have_products_and_lengths(rt: HostRuntime) {
    let a = Vec2 { x: 600, y: 800 };
    let b = Vec2 { x: -30, y: 7 };
    same_items(&rt, &[dot(a, b), cross(a, b)], &[-12400, 28200]);
    same_items(&rt, &[dot_64(a, b), cross_64(a, b)], &[-12400, 28200]);
    let numbers = [
        span(a),
        scaled_64(-3, UNIT / 2),
        rdiv_unit_64(-(1 << 29)),
        rdiv_unit_64(1 - (1 << 29)),
    ];
    same_items(&rt, &numbers, &[1000, -2, -1, 0]);
    let vectors = [
        minus(a, b),
        unit(a),
        unit_along(a, span(a)),
        unit(Vec2 { x: 1, y: 1 }),
        moved(a, b, UNIT / 2),
    ];
    let slanted = Vec2 {
        x: 644245094,
        y: 858993459,
    };
    let wanted = [
        Vec2 { x: 630, y: 793 },
        slanted,
        slanted,
        Vec2 { x: UNIT, y: UNIT },
        Vec2 { x: 585, y: 804 },
    ];
    same_items(&rt, &vectors, &wanted);
    same_items(&rt, &[is_within(b, 30), is_within(b, 29)], &[true, false]);
}

/// At the last size for which 64 bits have room, and beyond.
#[test]
fn near_and_far_lengths(rt: HostRuntime) {
    let near = 1 << 31;
    let far = (1 << 31) + 1;
    let lengths = [
        span(Vec2 { x: near, y: -near }),
        span(Vec2 { x: far, y: -far }),
        span(Vec2 {
            x: 3000000001,
            y: -4000000002,
        }),
    ];
    same_items(&rt, &lengths, &[3037000499, 3037000501, 5000000002]);
}

#[test]
fn facings_turn(rt: HostRuntime) {
    let ahead = Rot { c: UNIT, s: 0 };
    let quarter = Rot { c: 0, s: UNIT };
    let turned = [
        rotate(quarter, Vec2 { x: 5, y: 7 }),
        rotate_64(quarter, Vec2 { x: UNIT, y: 7 }),
    ];
    same_items(
        &rt,
        &turned,
        &[Vec2 { x: -7, y: 5 }, Vec2 { x: -7, y: UNIT }],
    );
    let facings = [
        turn(quarter, 0),
        turn(ahead, 1 << 28),
        turn(ahead, -(1 << 28)),
    ];
    let (c, s) = (1041682578, 260420645);
    same_items(&rt, &facings, &[quarter, Rot { c, s }, Rot { c, s: -s }]);
    let least = Rot {
        c: i64::MIN,
        s: i64::MIN,
    };
    let are_facings = [
        is_facing(ahead),
        is_facing(Rot { c: UNIT - 3, s: 0 }),
        is_facing(Rot { c: UNIT + 3, s: 0 }),
        is_facing(Rot { c: 0, s: -UNIT - 2 }),
        is_facing(least),
    ];
    same_items(&rt, &are_facings, &[true, false, false, true, false]);
}

#[test]
fn boxes_touch_and_contain(rt: HostRuntime) {
    let a = Box2 {
        lo: Vec2 { x: 0, y: 0 },
        hi: Vec2 { x: 10, y: 10 },
    };
    let b = Box2 {
        lo: Vec2 { x: 10, y: 10 },
        hi: Vec2 { x: 20, y: 11 },
    };
    let far = Box2 {
        lo: Vec2 { x: 11, y: 0 },
        hi: Vec2 { x: 20, y: 11 },
    };
    let found = [
        overlaps(a, b),
        overlaps(a, far),
        contains(a, a),
        contains(a, b),
    ];
    same_items(&rt, &found, &[true, false, true, false]);
    same(
        &rt,
        &grow(a, 3),
        &Box2 {
            lo: Vec2 { x: -3, y: -3 },
            hi: Vec2 { x: 13, y: 13 },
        },
    );
}

#[test]
fn refusals_have_texts(rt: HostRuntime) -> Result<(), Fail> {
    let numbers = [Refusal::WentBack.number(), Refusal::NotKinematic.number()];
    same_items(&rt, &numbers, &[14, 15]);
    let text = format!(in rt.alloc(); "{}", Refusal::BadFile(4))?;
    same(&rt, &text.as_str(), &"the saved world breaks clause 4");
    Ok(())
}

/// The definitions give the same values, computed by themselves.
#[tactic(auto, unfolding(fixed_geom::specs::Numbers::rdiv, fixed_geom::specs::Numbers::fdiv, fixed_geom::specs::Numbers::root_of, fixed_geom::specs::Numbers::root, fixed_geom::specs::Numbers::isqrt, fixed_geom::specs::Vectors::dot, fixed_geom::specs::Vectors::cross, fixed_geom::specs::Vectors::span, fixed_geom::specs::Vectors::unit, fixed_geom::specs::Facings::turn, fixed_geom::specs::Facings::is_facing))]
fn definitions_compute()
    ensures up { rdiv (pos 5) (pos 2) ≡ pos 3 }
    ensures away { rdiv (neg_ℤ (pos 5)) (pos 2) ≡ neg_ℤ (pos 3) }
    ensures down { fdiv (neg_ℤ (pos 20000)) (pos 3) ≡ neg_ℤ (pos 6667) }
    ensures root { isqrt (pos 8) ≡ pos 2 }
    ensures cross { cross (record { x = pos 3; y = pos 4 }) (record { x = pos 5; y = pos 6 }) ≡ neg_ℤ (pos 2) }
    ensures diagonal { unit (record { x = pos 1; y = pos 1 }) ≡ record { x = pos 1073741824; y = pos 1073741824 } }
    ensures facing { is_facing (record { c = pos 1073741824; s = pos 0 }) ≡ true }
    ensures turned { turn (record { c = pos 1073741824; s = pos 0 }) (pos 0) ≡ record { c = pos 1073741824; s = pos 0 } }
{}
