//! A plan as a reader gives it.

use crate::StepList;

/// What a planner's text holds: steps, or a text that is no plan.
#[derive(Drop)]
pub enum Plan {
    /// The steps of a plan text.
    Steps(StepList),
    /// The text is no plan text.
    Unreadable {
        /// The line of the first fault, counted from 1.
        line: u32,
    },
}
