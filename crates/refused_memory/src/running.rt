//! Runs over plans and over texts.

ghost use Rattle.std.specs.Prelude.{◌≡◌, ◌<◌, ◌≤◌, All, IfOk, length};

use crate::desks::valid_job;
use crate::frugal::replayed;
use crate::seen::{Seen, Stop, whole_if};
use crate::tasks::{discard, lamp, light};
use crate::texts::{BOTH, FLY, LAMP, LAMP_1, LIGHT, REPLIES, REPORT};
use intake_rules::SubmittedPlan;
use judge_bench::{Findings, Listed, Open, RunFault, Submission, run};
use judge_engine::Seed;
use judge_engine::bundle::Bundle;
use judge_engine::engine::judge_bytes;
use plan_cost::CostedTask;
use std::alloc::{AllocError, Global};
use std::sync::{Arc, Wait};
use std::thread::Threads;
use strips_judge::Plan;

/// Two plans of one planner are judged by `workers` workers.
pub(crate) fn run_row<R: AllocGlobal + Threads + Wait + Sync>(rt: &R, workers: u32) -> Seen
    requires { (1 ≤ workers) × (workers ≤ 32) }
{
    let task = lamp(rt.alloc())?;
    let seen = run_lights(rt, &task, workers);
    discard(task);
    seen
}

/// Judges two plans of one planner.
fn run_lights<R: AllocGlobal + Threads + Wait + Sync>(
    rt: &R,
    task: &CostedTask,
    workers: u32,
) -> Seen
    requires { (1 ≤ workers) × (workers ≤ 32) }
{
    let plans = two_lights(rt.alloc())?;
    let mut intake = Listed::new(plans);
    match run(rt, rt.alloc(), task, 1, 2, &mut intake, workers, &Open) {
        Ok(findings) => whole_if(are_valid(&findings)),
        Err(RunFault::OutOfMemory | RunFault::NoThread) => Err(Stop::Refused),
        Err(RunFault::Held(_)) => Err(Stop::Wrong),
    }
}

/// Two plans of the first planner that light the lamp.
fn two_lights(alloc: Global) -> Result<Vec<Submission>, AllocError>
    ensures { IfOk result (λ plans. (length plans.items ≡ 2) × All (λ plan. plan.planner < 1) plans.items) }
{
    let plan = light(alloc)?;
    let first = submission(&plan)?;
    let second = submission(&plan)?;
    Ok(Vec::from_array(alloc, [first, second])?)
}

/// The submission of a plan.
fn submission(plan: &Arc<Plan>) -> Result<Submission, AllocError>
    ensures { IfOk result (λ it. it.planner ≡ 0) }
{
    Ok(Submission {
        planner: 0,
        plan: SubmittedPlan::from_plan(Arc::try_clone(plan)?),
    })
}

/// Whether both plans of one planner were found valid.
fn are_valid(findings: &Findings) -> bool {
    findings.planners() == 1
        && findings.plans(0) == 2
        && valid_job(findings.get(0, 0)) == Some(0)
        && valid_job(findings.get(0, 1)) == Some(1)
}

/// The plans of three planners are judged by `workers` workers.
pub(crate) fn judge_row<R: AllocGlobal + Threads + Wait + Sync>(rt: &R, workers: u32) -> Seen
    requires { (1 ≤ workers) × (workers ≤ 32) }
{
    let alloc = rt.alloc();
    let bundles = bundles(alloc)?;
    let report = judge_bytes(
        rt,
        alloc,
        Seed::fixed(),
        LAMP,
        LAMP_1,
        &bundles,
        workers,
        &Open,
    )?;
    whole_if(report.bytes() == REPORT)
}

/// The files of three planners.
fn bundles(alloc: Global) -> Result<[Bundle; 3], AllocError> {
    Ok([
        bundle(alloc, "p", LIGHT)?,
        bundle(alloc, "q", BOTH)?,
        bundle(alloc, "r", FLY)?,
    ])
}

/// The file of a planner.
fn bundle(alloc: Global, name: &str, bytes: &[u8]) -> Result<Bundle, AllocError> {
    Ok(Bundle {
        name: String::from_str(alloc, name)?,
        bytes: Arc::new(alloc, bytes.to_vec(alloc)?)?,
    })
}

/// Steps are replayed from texts.
pub(crate) fn replay_row(alloc: Global) -> Seen {
    let report = replayed(alloc)?;
    whole_if(report.bytes() == REPLIES)
}
