//! Whole numbers narrowed to a range or to a type.

ghost use Rattle.std.specs.Prelude.{◌≡◌, cond};
ghost use Rattle.world_file_base.specs.Reading.{greatest_group, least_group, natural_of};
ghost use Rattle.shapes.specs.Shapes.{is_between};

/// Whether a number is from `low` to `high`.
pub(crate) fn is_between(number: i128, low: i64, high: i64) -> bool
    ensures { result ≡ is_between low high number }
{
    i128::from(low) <= number && number <= i128::from(high)
}

/// A number from `low` to `high`: `low` in place of any other.
pub(crate) fn within(number: i128, low: i64, high: i64) -> i64
    ensures { result ≡ cond (is_between low high number) number low }
{
    match i64::try_from(number) {
        Ok(number) if low <= number && number <= high => number,
        _ => low,
    }
}

/// Whether 32 bits hold a number.
pub(crate) fn is_group(number: i128) -> bool
    ensures { result ≡ is_between least_group greatest_group number }
{
    i128::from(i32::MIN) <= number && number <= i128::from(i32::MAX)
}

/// A number that 32 bits hold: the least in place of any other.
pub(crate) fn group_within(number: i128) -> i32
    ensures { result ≡ cond (is_between least_group greatest_group number) number least_group }
{
    match i32::try_from(number) {
        Ok(number) => number,
        Err(_) => i32::MIN,
    }
}

/// A number without a sign, up to `high`.
pub(crate) fn natural_of(number: i128, high: u64) -> Option<u64>
    ensures { result ≡ natural_of high number }
{
    match u64::try_from(number) {
        Ok(number) if number <= high => Some(number),
        _ => None,
    }
}
