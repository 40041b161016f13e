//! Numbered sets of ids, each id in one set at most, packed as the solver sets of Box2D are (`solver_set.c`). An id is
//! any type with small numbers ([`ItemId`]).
//!
//! The ids of a set stand side by side in a list of its own, so that what goes over one set costs by that set's size,
//! whatever else there is. A removal moves the last id of the list to the place that gets free. By an id's number a
//! note tells the set and the place where it stands, so that [`PackedSets::set_of`], [`PackedSets::insert`],
//! [`PackedSets::remove`] and [`PackedSets::shift`] take a constant time. A set that is dropped, too, leaves its number
//! to the last one.
//!
//! # Memory
//!
//! [`PackedSets::reserve`] makes sets and room for notes, [`PackedSets::add_set`] one set, and
//! [`PackedSets::reserve_in`] room for ids in one set. An insertion, a removal or a shift takes no memory.
//!
//! # What contracts promise
//!
//! They see a list for each set ([`PackedSets::members`]), of which no order is promised: a call tells that a list is a
//! permutation of the old one with one id more, or less, and that all others are what they were. No id stands twice in
//! all of them (the clause `once` of `members`). Two ids with one number are the same id, by a law of [`ItemId`].
//!
//! # Linked sets
//!
//! [`LinkedSets`] are sets into which ids come, and out of which they go, in constant time and in any order. No set
//! needs room of its own. A set is a thread: each id tells the one before it and the one behind it.
//!
//! # Marks
//!
//! [`Marks`] are one set of slots: a flag for each, and a list of those that are marked.
#![tactic(auto)]

mod copying;
mod ids;
mod items;
mod linked_sets;
mod marks;
mod packing;
mod set_room;
mod sets;
mod spots;

pub use ids::ItemId;
pub use items::MAX_ITEMS;
pub use linked_sets::LinkedSets;
pub use marks::{MAX_MARKS, Marks, limits_in_digits};
pub use sets::{MAX_SETS, PackedSets};
