//! The right to finish or hand back a job.
ghost use Rattle.std.specs.Prelude.{◌≡◌};

use intake_rules::Job;
use std::marker::Model;

/// The right of a seat to finish a job that it took, or to hand it back. Contracts see the slot that the seat holds, and the job.
///
/// Either uses it up. If it is dropped, the slot stays held forever, and its seat can never be handed in.
#[derive(Drop)]
pub struct Ticket {
    pub(crate) slot: u32,
    pub(crate) job: Job,
}

impl Model for Ticket {
    ghost use Rattle.bench_rule.specs.declared.views.Held.{Held};

    ghost Value = { Held };

    ghost view = { λ ticket. record { slot = ticket.slot; job = ticket.job } };
}

impl Ticket {
    /// The job that was taken.
    pub fn job(&self) -> &Job
        ensures { result.now ≡ self.now.job }
    {
        &self.job
    }
}
