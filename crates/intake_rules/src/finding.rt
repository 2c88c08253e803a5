//! A job with its verdict and its cost.
ghost use Rattle.std.specs.Prelude.{◌≡◌, IfErr, IfOk};
ghost use Rattle.intake_rules.specs.Findings.{IsRight};

use crate::Job;
use plan_cost::{Assessment, CompactCost, CostedTask};
use std::alloc::{AllocError, AllocFailed, Global};
use strips_judge::Verdict;
use text_judge::{MOST_JUDGES, TextJudge};

/// A job that was judged, with its verdict and its cost.
#[derive(Drop)]
pub struct Finding {
    /// The job that was judged.
    pub job: Job,
    /// The verdict of its plan.
    pub verdict: Verdict,
    /// What its plan costs, if it is valid and the task counts costs.
    pub cost: CompactCost,
}

impl Finding {
    /// Judges the plan of a job, and adds up what it costs. The plan gets one more owner. A caller that judges many plans keeps a judge
    /// and calls [`judge_by`](Finding::judge_by).
    pub fn judge(alloc: Global, task: &CostedTask, job: &Job) -> Result<Finding, AllocError>
        ensures right { IfOk result (λ finding. IsRight task.now finding) }
        ensures job { IfOk result (λ finding. finding.job ≡ job.now) }
    {
        let mut judge = TextJudge::new(alloc, task, MOST_JUDGES)?;
        Finding::judge_by(alloc, &mut judge, job)
    }

    /// Judges the plan of a job for the task of a judge, which remembers steps from one plan to the next, and adds up what it costs. The plan gets
    /// one more owner.
    #[tactic(auto, unfolding(crate::specs::Findings::verdict_of, crate::specs::Findings::counted_cost))]
    pub fn judge_by(
        alloc: Global,
        judge: &mut TextJudge<'_>,
        job: &Job,
    ) -> Result<Finding, AllocError>
        ensures right { IfOk result (λ finding. IsRight judge.old finding) }
        ensures job { IfOk result (λ finding. finding.job ≡ job.now) }
        ensures task { judge.new ≡ judge.old }
    {
        let mut job = job.try_clone()?;
        let Assessment { verdict, cost } = job.plan.assess_by(alloc, judge)?;
        Ok(Finding {
            job,
            verdict,
            cost: CompactCost::new(cost),
        })
    }

    /// Judges a job as [`judge_by`](Finding::judge_by) does, and puts the job itself into the finding, so its plan gets no other owner. Plans of one
    /// file count their owners in one place, where the threads that judge them would wait for each other. If memory runs out, the job is given back.
    #[tactic(auto, unfolding(crate::specs::Findings::verdict_of, crate::specs::Findings::counted_cost))]
    pub fn judge_own(
        alloc: Global,
        judge: &mut TextJudge<'_>,
        mut job: Job,
    ) -> Result<Finding, AllocFailed<Job>>
        ensures right { IfOk result (λ finding. IsRight judge.old finding) }
        ensures job { IfOk result (λ finding. finding.job ≡ job) }
        ensures task { judge.new ≡ judge.old }
        ensures given_back { IfErr result (λ failed. failed.value ≡ job) }
    {
        match job.plan.assess_by(alloc, judge) {
            Ok(Assessment { verdict, cost }) => Ok(Finding {
                job,
                verdict,
                cost: CompactCost::new(cost),
            }),
            Err(AllocError) => Err(AllocFailed { value: job }),
        }
    }
}
