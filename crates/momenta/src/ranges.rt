//! Whether numbers are within a range, told with no size taken.

ghost use Rattle.std.specs.Prelude.{◌≡◌, ◌^◌, ◌<◌, ◌≤◌, ◌<ℤ◌, pos, true, unsigned_abs};

/// Whether `x` is from `-limit` to below `limit`: no size is taken, and where the limit is a power of two one
/// comparison does.
#[inline(always)]
pub(crate) fn is_in(x: i64, limit: i64) -> bool
    requires { unsigned_abs limit < 2 ^ 63 }
    ensures within { result ≡ true → unsigned_abs x ≤ unsigned_abs limit }
    ensures room { pos (unsigned_abs x) <ℤ limit → result ≡ true }
{
    -limit <= x && x < limit
}

/// Whether both are from `-limit` to below `limit`: told without a branch between them.
#[inline(always)]
pub(crate) fn are_in(x: i64, y: i64, limit: i64) -> bool
    requires { unsigned_abs limit < 2 ^ 63 }
    ensures x { result ≡ true → unsigned_abs x ≤ unsigned_abs limit }
    ensures y { result ≡ true → unsigned_abs y ≤ unsigned_abs limit }
    ensures room { pos (unsigned_abs x) <ℤ limit → pos (unsigned_abs y) <ℤ limit → result ≡ true }
{
    is_in(x, limit) & is_in(y, limit)
}
