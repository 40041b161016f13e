//! Tests of the program's words and of its engine, by their public calls: what it tells of lines and refusals, and
//! readers and writers that fail. They stand in a crate of their own because a crate with tests is proved twice.
#![tactic(auto)]

#[cfg(test)]
mod assertions;
#[cfg(test)]
mod bad_lines;
#[cfg(test)]
mod faults;
#[cfg(test)]
mod forms;
#[cfg(test)]
mod refusals;
#[cfg(test)]
mod saved_worlds;
#[cfg(test)]
mod streams;
#[cfg(test)]
mod words;
