//! Who runs the parts of a step.

/// The runtime, and who works the seats of the parts.
#[derive(Drop)]
pub(crate) struct Team<'a, R, M> {
    pub(crate) rt: &'a R,
    pub(crate) mapper: &'a mut M,
}
