//! What a line of a script asks for, and what is said where that is refused.
//!
//! - The request of a line ([`request_of`]): a command, a question, a crowd, or one of the extended form ([`Extended`]).
//! - Which key of a request a refusal speaks of ([`explain`]), and what is wrong with a line in words ([`BadLine`]).
#![tactic(auto)]

mod explanation;
mod extended;
mod requests;

pub use explanation::{BadLine, CrowdRefusals, Explanation, explain};
pub use extended::{Extended, RayRequest};
pub use requests::{CrowdDef, Request, request_of};
