//! Judging against a task that is kept.
//!
//! For callers that judge plans of one domain and one problem again and again: [`read_kept`] reads the two once, and [`judge_kept`] makes the report that
//! [`judge_alone`](crate::alone::judge_alone) makes of them and of the same plans.
ghost use Rattle.std.specs.Prelude.{◌≡◌, ◌≢◌, [], IfOk, IfErr, Some, None};
ghost use Rattle.judge_engine.specs.Kept.{PlansCallFor, answer_of, task_within};
ghost use Rattle.judge_engine.specs.Refusal.{IsOfTexts, TextsCallForIn};
ghost use Rattle.judge_engine.specs.declared.fault.JudgeFault.TheVariants.{OutOfMemory};

use crate::alone::planners_alone;
use crate::bundle::Bundle;
use crate::engine::{MOST_PLANNERS, read_task, too_large};
use crate::fault::JudgeFault;
use crate::report::Report;
use pddl_reader::Dialect;
use plan_cost::CostedTask;
use report_text::Format;
use std::alloc::Global;
use strips_task::Seed;

/// The task of a domain text and a problem text in a dialect, which hashes with a seed.
///
/// The faults are those that [`judge_alone`](crate::alone::judge_alone) finds before it looks at plans.
pub fn read_kept(
    alloc: Global,
    seed: Seed,
    dialect: Dialect,
    domain: &[u8],
    problem: &[u8],
) -> Result<CostedTask, JudgeFault>
    ensures task { IfOk result (λ task. task_within dialect domain.now problem.now ≡ Some task) }
    ensures refusal { IfErr result (λ fault. IsOfTexts fault → task_within dialect domain.now problem.now ≡ None) }
    ensures cause { IfErr result (λ fault. IsOfTexts fault → TextsCallForIn dialect domain.now problem.now [] fault) }
    ensures memory { IfErr result (λ fault. fault ≢ OutOfMemory → IsOfTexts fault) }
{
    match too_large(domain, problem, &[]) {
        Some(large) => Err(JudgeFault::TooLarge(large)),
        None => read_task(alloc, seed, dialect, domain, problem),
    }
}

/// The report on plans for a task.
///
/// The task is only read: no call leaves anything in it, so each makes the same report, whatever was judged before. How plans are judged, and when memory may
/// run out, is said at [`judge_alone`](crate::alone::judge_alone).
pub fn judge_kept(
    alloc: Global,
    format: Format,
    task: &CostedTask,
    bundles: &[Bundle],
) -> Result<Report, JudgeFault>
    ensures answer { IfOk result (λ report. answer_of format task.now bundles.now ≡ Some report) }
    ensures refusal { IfErr result (λ fault. IsOfTexts fault → answer_of format task.now bundles.now ≡ None) }
    ensures cause { IfErr result (λ fault. IsOfTexts fault → PlansCallFor bundles.now fault) }
    ensures memory { IfErr result (λ fault. fault ≢ OutOfMemory → IsOfTexts fault) }
{
    match too_large(&[], &[], bundles) {
        Some(large) => Err(JudgeFault::TooLarge(large)),
        None => {
            if bundles.len() > MOST_PLANNERS {
                return Err(JudgeFault::TooManyPlanners);
            }
            planners_alone(alloc, format, task, bundles)
        }
    }
}
