//! Readers that are told nothing: each finds each published frame by one call alone.

use crate::calls::{Reads, Told};
use check_scenes::{FIRST, ORIGIN};
use std::alloc::Global;
use std::fmt::Write;
use world_core::{Refusal, Vec2};

/// How often a reader that was told nothing looks at most.
const LOOKS: u64 = 1000;

/// Where the ray from below starts.
pub const BELOW: Vec2 = Vec2 { x: 0, y: -131_072 };

/// The ray's way.
pub const UPWARDS: Vec2 = Vec2 { x: 0, y: 131_072 };

/// The call by which a reader looks.
#[derive(Clone, Copy, Debug)]
pub enum Look {
    Pose,
    Total,
    Ray,
    Region,
}

/// One look by each call.
const EACH: [Look; 4] = [Look::Pose, Look::Total, Look::Ray, Look::Region];

/// How many readers look, each by a call of its own.
pub const READERS: usize = EACH.len();

/// Makes the call, whatever it answers.
fn make_call<K, D: Reads<K>>(alloc: Global, by: Look, reader: &mut D) -> Result<(), Refusal> {
    match by {
        Look::Pose => {
            let _ = reader.pose(FIRST);
        }
        Look::Total => {
            let _ = reader.total();
        }
        Look::Ray => {
            let _ = reader.hit(BELOW, UPWARDS);
        }
        Look::Region => {
            let _ = reader.over(alloc, ORIGIN, ORIGIN)?;
        }
    }
    Ok(())
}

/// Whether the reader comes to keep the frame of so many calls by looking in this way alone.
pub fn is_found<K: Told, D: Reads<K>>(
    alloc: Global,
    by: Look,
    reader: &mut D,
    calls: u64,
) -> Result<bool, Refusal> {
    for _ in 0..LOOKS {
        make_call(alloc, by, reader)?;
        if reader.seen()?.shown().calls == calls {
            return Ok(true);
        }
    }
    Ok(false)
}

/// Whether each reader finds the frame of so many calls, each by a call of its own.
pub fn write_found<K: Told, D: Reads<K>>(
    told: &mut String,
    alloc: Global,
    readers: &mut [D],
    calls: u64,
) -> Result<(), Refusal> {
    for (reader, by) in readers.iter_mut().zip(EACH.iter()) {
        let found = is_found(alloc, *by, reader, calls)?;
        writeln!(
            told,
            "untold, frame of {calls} calls found by {by:?}: {found}"
        )?;
    }
    Ok(())
}
