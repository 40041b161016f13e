//! Checks as the lines of a script: calls of a world, and looks at it. The program's `stdin` has them, and says at its
//! head what a line is.

use crate::whole_world::WholeWorld;
use crate::worlds::check::Check;
use crate::worlds::making::contact;
use check_scenes::{add_made, command_of, handle_of, number_at, numbers_of, vector_at};
use std::alloc::Global;
use world_core::{Cause, Command, Constraint, Refusal};

/// The first word of a line, and the rest.
fn parted(line: &str) -> (&str, &str) {
    match line.split_once(' ') {
        Some(parts) => parts,
        None => (line, ""),
    }
}

/// The name of a check that begins in this line.
pub fn name_in(line: &str) -> Option<&str> {
    match parted(line) {
        ("check", name) => Some(name),
        _ => None,
    }
}

/// Whether a line that begins so asks for nothing: it is empty, a comment or the name of a check.
fn is_passed(word: &str) -> bool {
    match word {
        "" | "#" | "check" => true,
        _ => false,
    }
}

/// The numbers in a text.
fn numbers_in(alloc: Global, text: &str) -> Result<Vec<i64>, Refusal> {
    let words: Vec<&str> = text.split_whitespace().collect(alloc)?;
    numbers_of(alloc, words.as_slice())
}

/// The commands in a text, which stand between semicolons.
fn commands_in(alloc: Global, text: &str) -> Result<Vec<Command>, Refusal> {
    let mut commands = Vec::new(alloc);
    let mut left = text;
    for _ in 0..text.len() {
        let Some((first, others)) = left.split_once(';') else {
            break;
        };
        add_made(&mut commands, command_of(alloc, first))?;
        left = others;
    }
    add_made(&mut commands, command_of(alloc, left))?;
    Ok(commands)
}

/// Tells what a word and numbers ask for. Refused 5 where they ask for nothing.
fn see_what<W: WholeWorld>(
    check: &mut Check<W>,
    what: &str,
    numbers: &[i64],
) -> Result<(), Refusal> {
    let first = number_at(numbers, 0);
    let slot = u32::try_from(first).unwrap_or(u32::MAX);
    match what {
        "body" => check.see_body(handle_of(first)),
        "census" => check.see_census(),
        "clamp" => check.see_total_of(Cause::Clamp),
        "colour" => check.see_colour(contact_of(numbers)),
        "command" => check.see_total_of(Cause::Command),
        "contacts" => check.see_contacts(),
        "counts" => check.see_counts(),
        "departed" => check.see_total_of(Cause::Departed),
        "disabled" => check.see_disabled(),
        "entries" => check.see_entries_after(slot as usize),
        "events" => check.see_events(),
        "fat_box" => check.see_fat_box(),
        "frame" => check.see_frame(handle_of(first)),
        "hit" => check.see_hit(vector_at(numbers, 0)),
        "islands" => check.see_islands(slot),
        "joint_colour" => check.see_colour(Constraint::Joint(handle_of(first))),
        "over" => check.see_over(vector_at(numbers, 0)),
        "rest" => check.see_total_of(Cause::Rest),
        "timer" => check.see_timer(),
        "total" => check.see_total(),
        _ => return Err(Refusal::OutOfRange),
    }
    Ok(())
}

/// The contact of the first shapes of the bodies in two slots.
fn contact_of(numbers: &[i64]) -> Constraint {
    let (first, second) = (
        handle_of(number_at(numbers, 0)),
        handle_of(number_at(numbers, 1)),
    );
    contact(first.slot, second.slot)
}

fn see<W: WholeWorld>(check: &mut Check<W>, text: &str) -> Result<(), Refusal> {
    let (what, rest) = parted(text);
    let numbers = numbers_in(check.alloc(), rest)?;
    see_what(check, what, numbers.as_slice())
}

fn restart<W: WholeWorld>(check: &mut Check<W>, text: &str) -> Result<(), Refusal> {
    let numbers = numbers_in(check.alloc(), text)?;
    check.restart(vector_at(numbers.as_slice(), 0));
    Ok(())
}

fn take_steps<W: WholeWorld>(check: &mut Check<W>, text: &str) -> Result<(), Refusal> {
    let numbers = numbers_in(check.alloc(), text)?;
    let numbers = numbers.as_slice();
    for _ in 0..number_at(numbers, 0) {
        check.apply(Command::Step(number_at(numbers, 1)));
    }
    Ok(())
}

fn replay<W: WholeWorld>(check: &mut Check<W>, text: &str) -> Result<(), Refusal> {
    let commands = commands_in(check.alloc(), text)?;
    check.replay(commands.as_slice());
    Ok(())
}

fn ask<W: WholeWorld>(check: &mut Check<W>, text: &str) -> Result<(), Refusal> {
    let command = command_of(check.alloc(), text)?;
    check.ask(command);
    Ok(())
}

fn apply<W: WholeWorld>(check: &mut Check<W>, text: &str) -> Result<(), Refusal> {
    let command = command_of(check.alloc(), text)?;
    check.apply(command);
    Ok(())
}

/// Does what a line asks for. Refused 5 where it asks for nothing.
fn do_line<W: WholeWorld>(check: &mut Check<W>, line: &str) -> Result<(), Refusal> {
    let (word, rest) = parted(line);
    if is_passed(word) {
        return Ok(());
    }
    match word {
        "world" => restart(check, rest),
        "see" => see(check, rest),
        "ask" => ask(check, rest),
        "steps" => take_steps(check, rest),
        "replay" => replay(check, rest),
        "copy" => {
            check.go_on_in_copy();
            Ok(())
        }
        "back" => {
            check.go_back();
            Ok(())
        }
        "settle" => {
            check.settle();
            Ok(())
        }
        _ => apply(check, line),
    }
}

/// Does what a line asks for, and tells where it asks for nothing.
pub fn run_line<W: WholeWorld>(check: &mut Check<W>, line: &str) {
    if let Err(refusal) = do_line(check, line) {
        check.tell_unread(refusal);
    }
}
