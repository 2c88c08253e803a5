//! A plan that is handed in.
use intake_rules::SubmittedPlan;
use std::marker::Model;

/// A plan that is handed in. Contracts see whose plan it is and its content, however the plan is kept.
#[derive(Drop)]
pub struct Submission {
    /// Whose plan it is, counted from 0.
    pub planner: u32,
    /// The plan, read or as its text, which others may own as well.
    pub plan: SubmittedPlan,
}

impl Model for Submission {
    ghost use Rattle.judge_bench.specs.Submissions.{SubmissionParts};

    ghost Value = { SubmissionParts };

    ghost view = { λ submission. record { planner = submission.planner; plan = submission.plan } };
}
