//! Why a run gives no report.
ghost use Rattle.std.specs.Prelude.{◌≡◌, ◌⊎◌};
ghost use Rattle.judge_engine.specs.Status.{status_of};

use judge_bench::RunFault;
use pddl_reader::ReadFault;
use std::alloc::AllocError;
pub use steps_text::{StepsFault, StepsFaultKind};

/// An input of a run or of a replay. Inputs are read in this order. A run has no steps, and a replay has no plans.
#[derive(Clone, Copy, Debug, PartialEq, Eq)]
pub enum Input {
    /// The domain.
    Domain,
    /// The problem.
    Problem,
    /// The file of plans with this index.
    Plans(usize),
    /// The steps of a replay.
    Steps,
}

/// Why a run gives no report. If there are several causes, the first in this order is reported; the last three may come in another order.
#[derive(Clone, Copy, Debug, PartialEq, Eq)]
pub enum JudgeFault {
    /// This input is longer than 16,777,216 bytes, and none before it is.
    TooLarge(Input),
    /// There are more than 64 planners.
    TooManyPlanners,
    /// The domain is refused.
    Domain(ReadFault),
    /// The problem is refused.
    Problem(ReadFault),
    /// There are more than 65,536 plans.
    TooManyPlans,
    /// The steps of a replay are refused.
    Steps(StepsFault),
    /// Memory ran out.
    OutOfMemory,
    /// A thread could not be started.
    NoThread,
    /// A gate held the job with this number.
    Held(u32),
}

impl JudgeFault {
    /// The exit status of a program that stops for this reason: 1 if an input is refused, 3 if memory or threads are missing or a gate held a job.
    pub fn status(&self) -> u8
        ensures meaning { result ≡ status_of self.now }
        ensures range { (result ≡ 1) ⊎ (result ≡ 3) }
    {
        match self {
            JudgeFault::TooLarge(_)
            | JudgeFault::TooManyPlanners
            | JudgeFault::Domain(_)
            | JudgeFault::Problem(_)
            | JudgeFault::TooManyPlans
            | JudgeFault::Steps(_) => 1,
            JudgeFault::OutOfMemory | JudgeFault::NoThread | JudgeFault::Held(_) => 3,
        }
    }
}

impl From<AllocError> for JudgeFault {
    ghost use Rattle.std.specs.Prelude.{◌≡◌};
    ghost use Rattle.judge_engine.specs.declared.fault.JudgeFault.TheVariants.{OutOfMemory};

    ghost from_gives = { λ _ e. e ≡ OutOfMemory };

    fn from(_error: AllocError) -> JudgeFault {
        JudgeFault::OutOfMemory
    }
}

impl From<RunFault> for JudgeFault {
    ghost use Rattle.std.specs.Prelude.{◌≡◌};
    ghost use Rattle.judge_engine.specs.Refusal.{refusal_of_run};

    ghost from_gives = { λ fault refusal. refusal ≡ refusal_of_run fault };

    fn from(fault: RunFault) -> JudgeFault {
        match fault {
            RunFault::OutOfMemory => JudgeFault::OutOfMemory,
            RunFault::NoThread => JudgeFault::NoThread,
            RunFault::Held(job) => JudgeFault::Held(job),
        }
    }
}
