//! The calls that take no memory, at a desk.

ghost use Rattle.std.specs.Prelude.{◌≡◌};
ghost use Rattle.intake_rules.specs.Findings.{IsRight};

use crate::desks::valid_job;
use crate::seen::{Seen, whole_if};
use crate::tasks::{discard, lamp, light};
use intake_core::{Desk, Finding, Job, Refusal};
use intake_rules::SubmittedPlan;
use plan_cost::CostedTask;
use std::alloc::Global;
use std::sync::Arc;
use strips_judge::Plan;

/// What is asked of a desk, once two findings of one job were made.
pub(crate) fn desk_row(alloc: Global, makes_calls: bool) -> Seen {
    let task = lamp(alloc)?;
    let seen = judge_first(alloc, &task, makes_calls);
    discard(task);
    seen
}

/// Judges the job that a plan will be, twice.
fn judge_first(alloc: Global, task: &CostedTask, makes_calls: bool) -> Seen {
    let plan = light(alloc)?;
    let job = Job {
        number: 0,
        planner: 0,
        plan: SubmittedPlan::from_plan(Arc::try_clone(&plan)?),
    };
    let finding = Finding::judge(alloc, task, &job)?;
    let other = Finding::judge(alloc, task, &job)?;
    with_findings(alloc, task, &plan, finding, other, makes_calls)
}

/// Makes a desk for findings.
fn with_findings(
    alloc: Global,
    task: &CostedTask,
    plan: &Arc<Plan>,
    finding: Finding,
    other: Finding,
    makes_calls: bool,
) -> Seen
    requires { IsRight task.now finding × IsRight task.now other }
{
    let mut desk = Desk::make(alloc, task, 1, 2)?;
    whole_if(
        !makes_calls
            || takes_in(&mut desk, plan)
                && gives_out(&mut desk)
                && finishes(&mut desk, finding, other)
                && emits(&mut desk),
    )
}

/// Submits a plan three times. Whether two slots take it, and none is left then.
fn takes_in(desk: &mut Desk, plan: &Arc<Plan>) -> bool
    ensures { desk.new.task ≡ desk.old.task }
{
    submitted(desk, plan) == Some(0)
        && submitted(desk, plan) == Some(1)
        && submitted(desk, plan).is_none()
}

/// The job that a plan becomes, if it is accepted.
fn submitted(desk: &mut Desk, plan: &Arc<Plan>) -> Option<u32>
    ensures { desk.new.task ≡ desk.old.task }
{
    let plan = Arc::try_clone(plan).ok()?;
    desk.submit(0, plan).ok()
}

/// Takes a job, hands it back and takes it again. Whether it is always the first.
fn gives_out(desk: &mut Desk) -> bool
    ensures { desk.new.task ≡ desk.old.task }
{
    desk.job(1).is_some()
        && desk.take() == Some(0)
        && desk.hand_back(0).is_ok()
        && desk.take() == Some(0)
}

/// Finishes the first job twice. Whether only one finding is stored.
fn finishes(desk: &mut Desk, finding: Finding, other: Finding) -> bool
    requires { IsRight desk.old.task finding × IsRight desk.old.task other }
{
    desk.finish(0, finding).is_ok() && is_finished(desk, other)
}

/// Whether a finding is refused since its job is finished.
fn is_finished(desk: &mut Desk, other: Finding) -> bool
    requires { IsRight desk.old.task other }
{
    match desk.finish(0, other) {
        Ok(()) => false,
        Err(refused) => refused.refusal == Refusal::AlreadyFinished,
    }
}

/// Emits the finding of the first job, and closes the planner. Whether the second job's is not ready.
fn emits(desk: &mut Desk) -> bool {
    emit(desk) == Ok(Some(0))
        && emit(desk) == Err(Refusal::NotReady(1))
        && desk.close(0).is_ok()
        && desk.close(0).is_err()
}

/// The job whose finding is emitted, if that says that its plan is valid.
fn emit(desk: &mut Desk) -> Result<Option<u32>, Refusal> {
    let finding = desk.emit(0)?;
    Ok(valid_job(&finding))
}
