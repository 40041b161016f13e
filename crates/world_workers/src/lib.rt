//! Steps of a world by workers.
//!
//! `step_with` starts its workers for one step and joins them. `StepWorkers` starts them at the first step that is
//! worth them, and keeps them for those that follow. A `StepCrew` alone is a solver, for `WorldCore::step_by` and for
//! the step of a world that is shared.
#![tactic(auto)]

mod step_crew;
mod step_workers;
mod steps;
mod tasks;

pub use crew::{Gate, OpenGate};
pub use part_solver::PartMemory;
pub use step_crew::StepCrew;
pub use step_workers::StepWorkers;
pub use steps::step_with;
