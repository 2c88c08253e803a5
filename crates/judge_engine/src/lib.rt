//! What the program `plan_judge` answers: texts in, a report out.
//!
//! ```text
//! let bundles = [Bundle { name, bytes }];    // the file of a planner
//! let seed = Seed::new(&RandomState::new(rt)?);    // the hash of this run, which shows in no report
//! let report = judge_bytes(rt, alloc, seed, domain, problem, &bundles, 4, &Open)?;
//! write_report(&report, &mut Sink::new(rt.stdout()))?;
//! ```
//!
//! [`engine::judge_bytes`] makes the report of a run and [`replay::replay_bytes`] the lines of a replay, each from the bytes of its input
//! files; [`engine::judge_run`] and [`replay::replay_bytes_in`] do the same in a [`Dialect`] of the caller's choice, the former also in a [`Format`].
//! [`inlet`] and [`outlet`] are where texts come from and reports go.
#![tactic(auto)]

pub mod alone;
pub mod bundle;
pub mod engine;
pub mod fault;
pub mod fault_text;
pub mod inlet;
pub mod kept;
pub mod outlet;
mod planner;
mod plans;
pub mod replay;
mod replies;
pub mod report;

pub use pddl_reader::Dialect;
pub use report_text::Format;
pub use strips_task::Seed;
