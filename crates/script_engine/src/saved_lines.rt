//! Lines that load what a save wrote. They are the longest that there are, and are answered with no look at the tokens
//! of the world.

use crate::calls::load_saved;
use fixed_geom::Refusal;
use std::alloc::Global;
use world_core::WorldCore;

/// What stands before the world in such a line, as most write it.
const FRONT: [&str; 6] = ["\"do\"", ":", "\"load\"", ",", "\"world\"", ":"];

/// What stands before the world where it comes first.
const WORLD: [&str; 2] = ["\"world\"", ":"];

/// What stands behind the world where it comes first.
const LOAD: [&str; 4] = [",", "\"do\"", ":", "\"load\""];

/// Whether a byte may stand between tokens.
fn is_space(byte: u8) -> bool {
    byte == b' ' || byte == b'\t' || byte == b'\n' || byte == b'\r'
}

/// A text without the spaces at its front.
fn without_front(text: &[u8]) -> &[u8] {
    match text.iter().position(|byte| !is_space(*byte)) {
        Some(place) => &text[place..],
        None => &[],
    }
}

/// A text without the spaces at its end.
fn without_end(text: &[u8]) -> &[u8] {
    match text.iter().rposition(|byte| !is_space(*byte)) {
        Some(place) => &text[..place + 1],
        None => &[],
    }
}

/// What stands behind these tokens at the front of a text, whatever spaces are between them.
fn behind<'a>(text: &'a [u8], tokens: &[&str]) -> Option<&'a [u8]> {
    let mut rest = without_front(text);
    for token in tokens {
        rest = without_front(rest.strip_prefix(token.as_bytes())?);
    }
    Some(rest)
}

/// What stands before these tokens at the end of a text, whatever spaces are between them.
fn before<'a>(text: &'a [u8], tokens: &[&str]) -> Option<&'a [u8]> {
    let mut rest = without_end(text);
    for token in tokens.iter().rev() {
        rest = without_end(rest.strip_suffix(token.as_bytes())?);
    }
    Some(rest)
}

/// The world of such a line: all between its brackets but the two keys and the word.
fn world_in(line: &[u8]) -> Option<&[u8]> {
    let members = before(behind(line, &["{"])?, &["}"])?;
    if let Some(text) = behind(members, &FRONT) {
        return Some(text);
    }
    before(behind(members, &WORLD)?, &LOAD)
}

/// The world that a line loads, or why there is none, if the line is `{"do":"load","world":TEXT}` with a text that a
/// save wrote. Spaces may stand round each token outside the text, and the world may come first. Any other line is to
/// be read as a request.
pub(crate) fn loaded_by(alloc: Global, line: &[u8]) -> Option<Result<WorldCore, Refusal>> {
    load_saved(alloc, world_in(line)?)
}
