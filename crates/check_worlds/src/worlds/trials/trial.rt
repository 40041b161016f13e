//! One call, tried in a world: what it does, and that a refused one changes nothing.

use crate::whole_world::WholeWorld;
use crate::worlds::trials::compare::{
    are_same_censuses, are_same_frames, expect, expect_same_lists, expect_same_worlds,
    stand_as_listed,
};
use crate::worlds::trials::looks::{try_look, try_settle};
use crate::worlds::trials::saved::{ask_twice, load_twice, save_twice};
use crate::worlds::trials::stop::{Moment, Part, Stop};
use crate::worlds::trials::worlds::TrialWorlds;
use check_scenes::{Answer, commands_of};
use fixed_geom::Refusal;
use solver_sets::Census;
use std::alloc::Global;
use std::fmt;
use world_core::{Command, Frame, Plain};

/// How a call went that did what it should.
#[derive(Clone, Copy)]
pub enum Outcome {
    /// It was refused, left everything as it was, and succeeded when it was made again.
    Kept,
    /// It met no refusal.
    Unmet,
}

impl fmt::Display for Outcome {
    fn fmt<W: fmt::Write>(&self, f: &mut fmt::Formatter<W>) -> fmt::Result {
        f.write_str(match self {
            Outcome::Kept => "kept",
            Outcome::Unmet => "none",
        })
    }
}

/// Makes a call in the world of a text, and once more if memory was refused to it. The reference, the copy and whatever
/// else needs memory come before the call. The call is one of these words, a line with a command, or lines with
/// commands that are replayed.
pub fn try_call<W: WholeWorld>(alloc: Global, text: &str, call: &str) -> Result<Outcome, Stop> {
    let mut worlds: TrialWorlds<W> = TrialWorlds::of(alloc, text)?;
    try_in(alloc, &mut worlds, call)
}

fn try_in<W: WholeWorld>(
    alloc: Global,
    worlds: &mut TrialWorlds<W>,
    call: &str,
) -> Result<Outcome, Stop> {
    match call {
        "plain" => list_twice(worlds),
        "census" => count_twice(worlds),
        "copy" => copy_twice(worlds),
        "frame" => show_twice(worlds),
        "save" => save_twice(worlds),
        "load" => load_twice(alloc, worlds),
        "region" => ask_twice(alloc, worlds),
        "look" => try_look(worlds),
        "settle" => try_settle(worlds),
        _ => try_commands(alloc, worlds, call),
    }
}

fn try_commands<W: WholeWorld>(
    alloc: Global,
    worlds: &mut TrialWorlds<W>,
    text: &str,
) -> Result<Outcome, Stop> {
    let commands = commands_of(alloc, text)?;
    match commands.as_slice() {
        [command] => apply_twice(worlds, command),
        commands => replay_all(alloc, worlds, commands),
    }
}

/// That a call met no refusal, unless what it gave differs.
pub(crate) fn met(compared: Result<(), Stop>) -> Result<bool, Stop> {
    match compared {
        Ok(()) => Ok(true),
        Err(stop) => Err(stop),
    }
}

/// Stops where a call that was made again was refused again.
pub(crate) fn again(is_accepted: bool) -> Result<Outcome, Stop> {
    expect(Moment::Accepted, Part::Answer, is_accepted)?;
    Ok(Outcome::Kept)
}

/// Applies the command, which may also be refused for another reason: then it is refused so without memory.
fn apply_twice<W: WholeWorld>(
    worlds: &mut TrialWorlds<W>,
    command: &Command,
) -> Result<Outcome, Stop> {
    let expected = worlds.apply_to_reference(command);
    if is_applied(worlds, command, expected)? {
        return Ok(Outcome::Unmet);
    }
    worlds.expect_kept()?;
    again(is_applied(worlds, command, expected)?)
}

/// Applies the command, and stops where it is accepted and gives something else than in the reference.
fn is_applied<W: WholeWorld>(
    worlds: &mut TrialWorlds<W>,
    command: &Command,
    expected: Answer,
) -> Result<bool, Stop> {
    let answer = worlds.apply(command);
    if answer == Err(Refusal::NoMemory) {
        return Ok(false);
    }
    expect(Moment::Accepted, Part::Answer, answer == expected)?;
    worlds.expect_as_reference()?;
    Ok(true)
}

fn list_twice<W: WholeWorld>(worlds: &mut TrialWorlds<W>) -> Result<Outcome, Stop> {
    match worlds.reference.lists() {
        Ok(expected) => expect_lists_twice(worlds, &expected),
        Err(refusal) => Err(Stop::from(refusal)),
    }
}

fn expect_lists_twice<W: WholeWorld>(
    worlds: &mut TrialWorlds<W>,
    expected: &Plain,
) -> Result<Outcome, Stop> {
    if is_listed(worlds, expected)? {
        return Ok(Outcome::Unmet);
    }
    worlds.expect_kept()?;
    again(is_listed(worlds, expected)?)
}

fn is_listed<W: WholeWorld>(worlds: &mut TrialWorlds<W>, expected: &Plain) -> Result<bool, Stop> {
    worlds.begin();
    let listed = worlds.world.lists();
    worlds.end();
    match listed {
        Ok(plain) => met(expect_same_lists(Moment::Accepted, &plain, expected)),
        Err(_) => Ok(false),
    }
}

fn count_twice<W: WholeWorld>(worlds: &mut TrialWorlds<W>) -> Result<Outcome, Stop> {
    match worlds.reference.census() {
        Ok(expected) => expect_census_twice(worlds, &expected),
        Err(refusal) => Err(Stop::from(refusal)),
    }
}

fn expect_census_twice<W: WholeWorld>(
    worlds: &mut TrialWorlds<W>,
    expected: &Census,
) -> Result<Outcome, Stop> {
    if is_counted(worlds, expected)? {
        return Ok(Outcome::Unmet);
    }
    worlds.expect_kept()?;
    again(is_counted(worlds, expected)?)
}

fn is_counted<W: WholeWorld>(worlds: &mut TrialWorlds<W>, expected: &Census) -> Result<bool, Stop> {
    worlds.begin();
    let counted = worlds.world.census();
    worlds.end();
    match counted {
        Ok(census) => {
            let is_same = are_same_censuses(&census, expected);
            let is_told = stand_as_listed(&worlds.world, &census);
            met(expect(Moment::Accepted, Part::Answer, is_same && is_told))
        }
        Err(_) => Ok(false),
    }
}

fn copy_twice<W: WholeWorld>(worlds: &mut TrialWorlds<W>) -> Result<Outcome, Stop> {
    if is_copied(worlds)? {
        return Ok(Outcome::Unmet);
    }
    worlds.expect_kept()?;
    again(is_copied(worlds)?)
}

fn is_copied<W: WholeWorld>(worlds: &mut TrialWorlds<W>) -> Result<bool, Stop> {
    worlds.begin();
    let copied = worlds.world.copied();
    worlds.end();
    match copied {
        Ok(copied) => met(expect_same_worlds(Moment::Accepted, &copied, &worlds.reference)),
        Err(_) => Ok(false),
    }
}

fn show_twice<W: WholeWorld>(worlds: &mut TrialWorlds<W>) -> Result<Outcome, Stop> {
    match worlds.reference.frame() {
        Ok(expected) => expect_frame_twice(worlds, &expected),
        Err(refusal) => Err(Stop::from(refusal)),
    }
}

fn expect_frame_twice<W: WholeWorld>(
    worlds: &mut TrialWorlds<W>,
    expected: &Frame,
) -> Result<Outcome, Stop> {
    if is_shown(worlds, expected)? {
        return Ok(Outcome::Unmet);
    }
    worlds.expect_kept()?;
    again(is_shown(worlds, expected)?)
}

fn is_shown<W: WholeWorld>(worlds: &mut TrialWorlds<W>, expected: &Frame) -> Result<bool, Stop> {
    worlds.begin();
    let shown = worlds.world.frame();
    worlds.end();
    match shown {
        Ok(frame) => {
            let is_same = are_same_frames(&frame, expected);
            met(expect(Moment::Accepted, Part::Answer, is_same))
        }
        Err(_) => Ok(false),
    }
}

fn replay_all<W: WholeWorld>(
    alloc: Global,
    worlds: &mut TrialWorlds<W>,
    commands: &[Command],
) -> Result<Outcome, Stop> {
    let expected = worlds.reference.replay(alloc, commands)?;
    replay_twice(alloc, worlds, commands, &expected)
}

/// A replay that was refused has made the commands before the one that met the refusal. The replay of
/// the others does the rest.
fn replay_twice<W: WholeWorld>(
    alloc: Global,
    worlds: &mut TrialWorlds<W>,
    commands: &[Command],
    expected: &[Answer],
) -> Result<Outcome, Stop> {
    if is_replayed(alloc, worlds, commands, expected)? {
        return Ok(Outcome::Unmet);
    }
    let made = worlds.calls_made()?;
    replay_rest(alloc, worlds, commands, expected, made)
}

/// Stops where the commands before the refusal, so many, have left something else than in a world that met none; then
/// the replay of the others.
fn replay_rest<W: WholeWorld>(
    alloc: Global,
    worlds: &mut TrialWorlds<W>,
    commands: &[Command],
    expected: &[Answer],
    made: usize,
) -> Result<Outcome, Stop> {
    let (Some(accepted), Some(rest), Some(answers)) = (
        commands.get(..made),
        commands.get(made..),
        expected.get(made..),
    ) else {
        return Err(Stop::Differs(Moment::Refused, Part::Calls));
    };
    worlds.replay_before(alloc, accepted)?;
    worlds.expect_kept()?;
    again(is_replayed(alloc, worlds, rest, answers)?)
}

fn is_replayed<W: WholeWorld>(
    alloc: Global,
    worlds: &mut TrialWorlds<W>,
    commands: &[Command],
    expected: &[Answer],
) -> Result<bool, Stop> {
    worlds.begin();
    let replayed = worlds.world.replay(alloc, commands);
    worlds.end();
    match replayed {
        Ok(answers) => expect_answers(worlds, answers.as_slice() == expected),
        Err(_) => Ok(false),
    }
}

/// Stops where the answers aren't the expected ones, or the world isn't as the reference.
fn expect_answers<W: WholeWorld>(worlds: &TrialWorlds<W>, are_same: bool) -> Result<bool, Stop> {
    expect(Moment::Accepted, Part::Answer, are_same)?;
    worlds.expect_as_reference()?;
    Ok(true)
}
