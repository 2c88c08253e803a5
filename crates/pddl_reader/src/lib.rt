//! Reads PDDL domains and problems (PDDL 2.1, Fox and Long 2003, level 1): STRIPS with types, and negated conditions. With [`Dialect::Ipc`] also
//! equality, and functions whose values actions add to `total-cost`; with [`Dialect::Adl`] also all conditions and effects of this level.
//!
//! ```text
//! let seed = Seed::new(&RandomState::new(&rt)?);    // the hash of this run; no answer depends on it
//! let domain = read_domain(alloc, seed, domain_text)?;
//! let task = read_problem(alloc, domain, problem_text)?;    // a strips_task::Task
//!
//! let domain = read_domain_in(alloc, seed, Dialect::Ipc, domain_text)?;
//! let task = read_problem_in(alloc, Dialect::Ipc, domain, problem_text)?;    // a CostedTask
//! ```
//!
//! [`read_plan`] and [`Parts`] of `plan_text` are re-exported, so that a reader of plans needs only this crate.
//!
//! A text passes through three layers. The first two are the crate `pddl_syntax`: a pass that finds bad bytes and wrong parentheses, and
//! the grammar, which keeps tables of slices of the text. The third is [`resolution`] here: it looks the names up and makes the domain and
//! the task.
#![tactic(auto)]

pub mod laws;
mod readers;
mod resolution;

pub use pddl_syntax::{Dialect, FaultKind, ReadFault};
pub use plan_text::{Parts, read_plan};
pub use readers::{read_domain, read_domain_in, read_problem, read_problem_in};
pub use resolution::domain::Domain;
pub use strips_task::{CostedTask, Seed};
