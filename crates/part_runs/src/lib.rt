//! Steps solved by parts: the laws by which a step's ticks may be made by workers that hand bodies on to one another.
//!
//! Each mover has a home, one of the parts. A part has its movers' bodies and the rows that begin at them. Before a
//! colour, a body that a row of another part needs moves there, and after the last colour it goes home. What no impulse
//! moves is in each part. All parts' runs together are the run of all bodies: the same bodies, the same rows, and sums
//! that add up.
#![tactic(auto)]

pub mod laws;
