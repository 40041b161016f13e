//! How long something takes.

use check_scenes::Stop;
use std::fmt::Write;
use std::time::Clock;
use world_core::Refusal;

/// The time since some start, in nanoseconds.
pub fn now<R: Clock>(rt: &R) -> u128 {
    match rt.monotonic() {
        Ok(time) => time.as_nanos(),
        Err(_) => 0,
    }
}

/// How long each of so many calls took, and how many that are in a second.
fn each_of(nanos: u128, times: u64) -> (u128, u128) {
    let each = nanos.checked_div(u128::from(times)).unwrap_or(0);
    let second = 1_000_000_000u128.saturating_mul(u128::from(times));
    let rate = second.checked_div(nanos).unwrap_or(0);
    (each, rate)
}

/// Tells how long each of so many calls took.
pub fn write_each(told: &mut String, name: &str, nanos: u128, times: u64) -> Result<(), Refusal> {
    let (each, rate) = each_of(nanos, times);
    writeln!(told, "{name}: {each} ns each, {rate} a second")?;
    Ok(())
}

/// Prints the same.
pub fn print_each<R: Print>(rt: &R, name: &str, nanos: u128, times: u64) -> Result<(), Stop> {
    let (each, rate) = each_of(nanos, times);
    println!(rt; "{name}: {each} ns each, {rate} a second")?;
    Ok(())
}
