//! The fast way to take steps: by the numbers of their names, and those that were taken before by codes.
//!
//! A plan's step is judged by `strips_judge` as PDDL defines it. The contracts here say that each faster way takes the same steps and leads to the same states.
//!
//! [`take_numbered`] takes a step whose names were looked up before. [`code_of_numbered`] makes its [`StepCode`], which holds what the step asks and does by
//! the numbers of atoms, and [`take_by_code`] takes it by that, bit by bit.
#![tactic(auto)]

mod codes;
mod compiling;
mod lasting;
mod numbered_steps;
mod programs;

pub use codes::{CodeBuffer, StepCode, take_by_code};
pub use numbered_steps::{code_of_numbered, take_numbered};
pub use programs::Instruction;
