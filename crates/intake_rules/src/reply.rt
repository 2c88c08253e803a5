//! What an intake answers.
use crate::{Finding, Refusal};

/// The answer of an intake to one event.
#[derive(Drop)]
pub enum Reply {
    /// A plan was accepted as the job of this number.
    Accepted(u32),
    /// A planner was closed.
    ClosedNow,
    /// The job of this number was given out.
    Taken(u32),
    /// No job waits.
    NoJob,
    /// A job was handed back and waits again.
    Returned,
    /// A finding was stored.
    Finished,
    /// A finding was emitted.
    Emitted(Finding),
    /// The event was refused and changed nothing.
    Refused(Refusal),
}
