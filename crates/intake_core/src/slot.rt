//! The rows of a desk's tables.
ghost use Rattle.std.specs.Prelude.{◌≡◌};

use intake_rules::{Job, Stage};

/// A slot in use: the accepted plan with the number of the slot.
#[derive(Drop)]
pub(crate) struct Slot {
    pub(crate) job: Job,
    pub(crate) stage: Stage,
    /// The next job of the same planner, by number, if it has one.
    pub(crate) following: Option<u32>,
}

/// A planner.
#[derive(Clone, Copy, Drop)]
pub(crate) struct Planner {
    /// Whether no plan of it is accepted any more.
    pub(crate) closed: bool,
    /// How many of its findings were emitted.
    pub(crate) emitted: u32,
    /// The first of its jobs whose finding was not emitted, by number.
    pub(crate) next: Option<u32>,
    /// The last of its jobs, by number.
    pub(crate) last: Option<u32>,
}

impl Planner {
    ghost use Rattle.intake_core.specs.Rows.{joined};

    /// The row once a job was accepted: it is the last, and the next if all before it were emitted.
    pub(crate) fn joined(self, number: u32) -> Planner
        ensures { result ≡ joined self number }
    {
        Planner {
            next: self.next.or(Some(number)),
            last: Some(number),
            ..self
        }
    }
}
