//! The text of a world that has nothing but free slots.

use std::alloc::Global;
use world_file_base::Broken;

/// What stands between the slots of bodies and those of joints.
const BETWEEN: &str = "],\"call\":0,\"contacts\":[],\"gravity\":[0,0],\"joints\":[";

/// What stands behind both.
const BEHIND: &str =
    "],\"ledger\":{\"clamp\":[\"0\",\"0\"],\"command\":[\"0\",\"0\"],\"departed\":[\"0\",\"0\"],\"gravity\":[\"0\",\"0\"],\"immovable\":[\"0\",\"0\"],\"rest\":[\"0\",\"0\"]},\"step\":0,\"version\":2}";

/// So many slots with commas between.
fn add_slots(text: &mut String, count: u32) -> Result<(), Broken> {
    for slot in 0..count {
        if slot > 0 {
            text.push_str(",")?;
        }
        text.push_str("{\"generation\":2}")?;
    }
    Ok(())
}

/// The text of a world with so many free slots of bodies, and as many of joints.
pub fn text_of_slots(alloc: Global, count: u32) -> Result<String, Broken> {
    let mut text = String::new(alloc);
    text.push_str("{\"bodies\":[")?;
    add_slots(&mut text, count)?;
    text.push_str(BETWEEN)?;
    add_slots(&mut text, count)?;
    text.push_str(BEHIND)?;
    Ok(text)
}
