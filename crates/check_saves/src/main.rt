//! Reads saved worlds and parts of them, one a line, and writes each again.
//!
//! A line is the version's number, a tab, the part's word or `world`, a tab and the value. What is told of it is the
//! value that was written, or the number of the first clause that was found broken. The word `text` stands for a world
//! whose text is written with no value between. The word `quick` stands for one whose text is read with no value of it:
//! what is told then is how much it has. The word `slots` stands for the same of a world that has nothing but as many
//! free slots of bodies and of joints as the value says.
#![tactic(auto)]

mod saved_parts;
mod slots;

use saved_parts::{Part, rewritten, sizes};
use serde_json::Value;
use slots::text_of_slots;
use std::alloc::Global;
use std::io;
use world_file_base::{Broken, Version};

/// The version and the part that a line names, and the text of its value.
#[derive(Clone, Copy)]
struct Request<'a> {
    version: Version,
    part: Part,
    text: &'a str,
}

fn version_of(word: &str) -> Option<Version> {
    match word {
        "1" => Some(Version::First),
        "2" => Some(Version::Second),
        _ => None,
    }
}

fn request_of(line: &str) -> Option<Request<'_>> {
    let (version, rest) = line.split_once('\t')?;
    let (part, text) = rest.split_once('\t')?;
    Some(Request {
        version: version_of(version)?,
        part: Part::of_word(part)?,
        text,
    })
}

/// What a world of free slots has.
fn sizes_of_slots(alloc: Global, count: &str) -> Result<String, Broken> {
    let Ok(count) = count.parse::<u32>() else {
        return Ok(format!(in alloc; "no count")?);
    };
    let text = text_of_slots(alloc, count)?;
    sizes(alloc, text.as_str())
}

/// What is made of a text.
fn made(alloc: Global, request: &Request) -> Result<String, Broken> {
    if let Part::Quick = request.part {
        return sizes(alloc, request.text);
    }
    if let Part::Slots = request.part {
        return sizes_of_slots(alloc, request.text);
    }
    let Ok(value) = Value::from_str(alloc, request.text) else {
        return Ok(format!(in alloc; "no JSON")?);
    };
    rewritten(alloc, request.version, request.part, &value)
}

/// What is told of a text.
fn answer(alloc: Global, request: &Request) -> Result<String, Broken> {
    match made(alloc, request) {
        Ok(text) => Ok(text),
        Err(Broken::Clause(clause)) => {
            let number = clause.number();
            Ok(format!(in alloc; "clause {number}")?)
        }
        Err(Broken::NoMemory) => Err(Broken::NoMemory),
    }
}

fn main(rt: HostRuntime) -> io::Result<()> {
    for line in rt.lines(rt.alloc()) {
        let line = line?;
        match request_of(line.as_str()) {
            Some(request) => match answer(rt.alloc(), &request) {
                Ok(told) => println!(rt; "{told}")?,
                Err(_) => println!(rt; "no memory")?,
            },
            None => println!(rt; "no part")?,
        }
    }
    Ok(())
}
