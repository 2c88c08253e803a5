//! The reader of steps files: from the bytes of a file it makes the steps of a replay.
//!
//! ```text
//! let read = read_steps(alloc, text)?;
//! read.planners                           // 1, for the file below
//! read.slots                             // 2
//! read.steps.len()                        // 4
//! ```
//!
//! A file has one step on each line. The first line says how many planners and slots the intake has. A line may be empty, or a comment that
//! begins with `;`.
//!
//! ```text
//! ; an intake for one planner with two slots
//! desk 1 2
//! submit 0 (light)
//! take
//! finish 0 0
//! emit 0
//! ```
//!
//! Words are separated by spaces and tabs, and CRs at the end of a line are ignored. A number has 1 to 9 digits. The text after the number of a
//! `submit` is a plan. It is read as any plan text is, and submitted even if it is unreadable.
//!
//! [`read_steps`] reads line by line: `words` cuts a line into words, `line` finds out what it asks, and `read` puts the lines together. It
//! returns the whole list, or the first line that is faulty.
#![tactic(auto)]

mod fault;
mod line;
mod lines;
mod read;
mod words;

pub use fault::{StepsFault, StepsFaultKind};
pub use read::{StepsRefusal, StepsText, read_steps};
