//! How many ids there can be in sets that are threads.

/// How many items there can be: their numbers are below this one.
pub const MAX_ITEMS: usize = 4_294_967_295;

/// No item, as Box2D's `B2_NULL_INDEX`: what a set with no items begins with, and what follows the last one.
pub(crate) const NO_ITEM: u32 = 4_294_967_295;
