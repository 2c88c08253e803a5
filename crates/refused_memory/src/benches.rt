//! A bench that is made, and a worker at it.

ghost use Rattle.std.specs.Prelude.{◌≡◌};
ghost use Rattle.judge_bench.specs.Seats.{SitsAt};

use crate::desks::valid_job;
use crate::seen::{Seen, Stop, whole_if};
use crate::tasks::{discard, lamp, light};
use intake_rules::{Refusal, SubmittedPlan};
use judge_bench::{Bench, Ended, Open, Owner, WorkFault, work};
use plan_cost::CostedTask;
use std::alloc::Global;
use std::sync::Arc;
use strips_judge::Plan;

/// A bench is made.
pub(crate) fn bench_row(alloc: Global) -> Seen {
    let task = lamp(alloc)?;
    let seen = made(alloc, &task);
    discard(task);
    seen
}

/// Makes a bench. Whether it has its slots, and no seat is out.
fn made(alloc: Global, task: &CostedTask) -> Seen {
    let (bench, owner) = Bench::make(alloc, task, 1, 2)?;
    whole_if(bench.slots() == 2 && owner.seats_out() == 0)
}

/// A worker judges two plans.
pub(crate) fn work_row(alloc: Global) -> Seen {
    let task = lamp(alloc)?;
    let seen = work_on(alloc, &task);
    discard(task);
    seen
}

/// A worker judges a plan that is submitted twice.
fn work_on(alloc: Global, task: &CostedTask) -> Seen {
    let plan = light(alloc)?;
    let (bench, mut owner) = Bench::make(alloc, task, 1, 2)?;
    submit_twice(&bench, &mut owner, &plan)?;
    owner.shut(&bench);
    work_and_emit(alloc, &bench, &mut owner, task)
}

/// Submits a plan twice, as jobs 0 and 1.
pub(crate) fn submit_twice(bench: &Bench, owner: &mut Owner, plan: &Arc<Plan>) -> Seen
    requires { SitsAt bench.now owner.old }
    ensures { SitsAt bench.now owner.new }
{
    whole_if(submit(bench, owner, plan) == Some(Ok(0)) && submit(bench, owner, plan) == Some(Ok(1)))
}

/// The job that a plan becomes, or why it is refused.
pub(crate) fn submit(
    bench: &Bench,
    owner: &mut Owner,
    plan: &Arc<Plan>,
) -> Option<Result<u32, Refusal>>
    requires { SitsAt bench.now owner.old }
    ensures { SitsAt bench.now owner.new }
{
    let plan = Arc::try_clone(plan).ok()?;
    match owner.submit(bench, 0, SubmittedPlan::from_plan(plan)) {
        Ok(job) => Some(Ok(job)),
        Err(refused) => Some(Err(refused.refusal)),
    }
}

/// A worker judges what waits, and both findings are emitted. If it is refused memory, another goes on, and finds the job that was handed back.
fn work_and_emit(alloc: Global, bench: &Bench, owner: &mut Owner, task: &CostedTask) -> Seen
    requires seat { SitsAt bench.now owner.old }
    requires task { bench.now.setting.task.value ≡ task.now }
{
    let seen = works(alloc, bench, owner, task);
    if seen == Err(Stop::Refused) {
        whole_if(works(alloc, bench, owner, task).is_ok())?;
    }
    whole_if(emit(bench, owner) == Ok(Some(0)) && emit(bench, owner) == Ok(Some(1)))?;
    seen
}

/// A worker judges what waits. Its seat is handed in, since it holds nothing however it ends.
fn works(alloc: Global, bench: &Bench, owner: &mut Owner, task: &CostedTask) -> Seen
    requires seat { SitsAt bench.now owner.old }
    requires task { bench.now.setting.task.value ≡ task.now }
    ensures { SitsAt bench.now owner.new }
{
    if owner.seats_out() != 0 {
        return Err(Stop::Wrong);
    }
    let seat = owner.seat(bench);
    let Ended { seat, refused } = work(alloc, bench, seat, task, &Open, 3);
    if seat.holds() != 0 {
        return Err(Stop::Wrong);
    }
    owner.hand_in(bench, seat);
    match refused {
        None => Ok(()),
        Some(WorkFault::OutOfMemory) => Err(Stop::Refused),
        Some(_) => Err(Stop::Wrong),
    }
}

/// The job whose finding is emitted, if that says that its plan is valid.
pub(crate) fn emit(bench: &Bench, owner: &mut Owner) -> Result<Option<u32>, Refusal>
    requires { SitsAt bench.now owner.old }
    ensures { SitsAt bench.now owner.new }
{
    let finding = owner.emit(bench, 0)?;
    Ok(valid_job(&finding))
}
