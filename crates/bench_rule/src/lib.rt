//! The rule of a bench at which several threads judge plans, and the steps that keep it.
//!
//! ```text
//! let (table, mut owner) = make_table(alloc, &setting)?;     // a setting for 1 planner and 2 slots
//! let words = &table.shared;
//! steps::post(words, &mut owner, 0, job);                    // job 0 waits in slot 0
//! let mut worker = steps::split(words, &mut owner);
//! steps::take(words, &mut worker, 0)                         // Some(job): slot 0 is out
//! steps::finish(words, &mut worker, 0, finding);             // the right finding of the job: slot 0 is finished
//! steps::join(words, &mut owner, worker);
//! steps::emit(words, &mut owner, 0)                          // Some(finding): slot 0 is emitted
//! ```
//!
//! A bench is a table of atomic words and slots. The slot with index s holds job s: first the job, while it waits, later its finding. Word
//! s + 1 says how far the job has come, by one of the numbers in [`steps`], and word 0 says whether the bench is shut. A thread acts through a
//! seat. The owner's seat accepts plans and emits findings, and a worker's seat takes jobs and finishes them. What a seat knows is its
//! [`View`], which exists only in contracts.
//!
//! The [`BenchRule`] ties words, slots and views together, and holds between any two steps of any threads (`specs/Sound.antt`). Each function of
//! [`steps`] is one step, and its contract says exactly how the view of the seat changes. The functions of [`laws`] say what the rule means: no
//! slot is held by two seats, what comes out of a slot is a right finding of the job that was put there, and each step changes the intake that
//! the bench shows by one event of the rules in `intake_rules`, or leaves it as it is.
#![tactic(auto)]

mod contents;
pub mod laws;
mod plays;
mod rule;
mod splits;
pub mod steps;
mod tables;
mod views;

pub use contents::Item;
pub use rule::{BenchRule, BenchSeat, BenchWords};
pub use tables::{BenchTable, make_table};
pub use views::{Held, Role, Setting, View};
