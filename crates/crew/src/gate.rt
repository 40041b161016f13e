//! The gate that a piece passes before it is worked.

use std::sync::Wait;

/// Which piece of a map it is: its number, from 0, of so many.
#[derive(Clone, Copy)]
pub(crate) struct PieceNumber {
    pub(crate) number: usize,
    pub(crate) of: usize,
}

/// What each piece of a map enters before it is worked, on the thread that works it. A test's gate may hold a piece
/// back; a program's does nothing.
pub trait Gate {
    /// Enters with the piece of that number, from 0, of so many.
    fn enter<R: Wait>(&self, rt: &R, piece: usize, of: usize);
}

/// The gate that is always open.
#[derive(Clone, Copy)]
pub struct OpenGate;

impl Gate for OpenGate {
    fn enter<R: Wait>(&self, _rt: &R, _piece: usize, _of: usize) {}
}
