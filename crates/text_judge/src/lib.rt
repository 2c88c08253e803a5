//! A judge of plan texts: it reads and judges a text in one pass, and keeps no plan.
//!
//! ```text
//! let mut judge = TextJudge::new(alloc, &task, threads)?;         // one for each thread that judges
//! let answer = judge.assess(alloc, text)?;                        // the verdict of the plan of the text, its cost, and where a step fails
//! let changes = judge.last_changes(alloc, text, &atoms)?;         // which steps changed these atoms last
//! ```
//!
//! A [`TextJudge`] takes each step of a text as it reads it. Most steps of a planner's plans are repeated, spelled the same, so the judge keeps
//! what it learned of a step under the bytes between its parentheses (`step_judge` and `memo`). A step that it knows is not read again, only tested and
//! taken by the numbers of its atoms. Any other step is judged by its names, and learned.
//!
//! The names must be in lower case, with single spaces between them, to be looked up so. Any other step is read and judged word by word, and so is one that
//! can't be taken: its words say why.
//!
//! If a step fails, the judge still reads the text to its end: the text may be unreadable further on, and then that is the answer.
//!
//! No answer depends on what the judge remembers: it is the assessment of the plan of the text, whatever was judged before.
#![tactic(auto)]

mod amounts;
mod history;
mod indexed_task;
mod judge;
pub mod laws;
mod memo;
mod memo_limits;
mod memo_policy;
mod names;
mod pass;
mod place;
mod step_judge;
mod steps;

pub use judge::{Assessed, TextJudge};
pub use memo_limits::MOST_JUDGES;
pub use place::StepPlace;
