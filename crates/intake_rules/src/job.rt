//! A plan that was accepted.
ghost use Rattle.std.specs.Prelude.{◌≡◌, IfOk};
ghost use Rattle.intake_rules.specs.Jobs.{job_eq};

use crate::SubmittedPlan;
use std::alloc::AllocError;
use std::marker::Model;

/// An accepted plan with its number. Contracts see the number, the planner and the plan's content, however the plan is kept.
#[derive(Drop)]
pub struct Job {
    /// The index of the plan among all that were accepted, counted from 0.
    pub number: u32,
    /// The planner whose plan it is, counted from 0.
    pub planner: u32,
    /// The plan, read or as its text, which others may own as well.
    pub plan: SubmittedPlan,
}

impl Model for Job {
    ghost use Rattle.intake_rules.specs.Jobs.{AcceptedPlan};

    ghost Value = { AcceptedPlan };

    ghost view = { λ job. record { number = job.number; planner = job.planner; plan = job.plan } };
}

impl Job {
    /// Whether the other job has the same number, the same planner and the same plan, however the plans are kept. Compares the plans only
    /// if the number and the planner are the same. Takes no memory.
    pub fn is_same(&self, other: &Job) -> bool
        ensures { result ≡ job_eq self.now other.now }
    {
        self.number == other.number
            && self.planner == other.planner
            && self.plan.is_same(&other.plan)
    }

    /// The same job, whose plan gets one more owner. Copies nothing; the only error is that there are too many owners.
    pub fn try_clone(&self) -> Result<Job, AllocError>
        ensures { IfOk result (λ job. job ≡ self.now) }
    {
        Ok(Job {
            number: self.number,
            planner: self.planner,
            plan: self.plan.try_clone()?,
        })
    }
}
