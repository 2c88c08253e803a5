//! The calls that take no memory, at a bench: those of its owner, and those of a worker.

ghost use Rattle.std.specs.Prelude.{◌≡◌};
ghost use Rattle.intake_rules.specs.Findings.{IsRight};
ghost use Rattle.bench_rule.specs.Views.{HoldsJob};
ghost use Rattle.judge_bench.specs.Seats.{SitsAt};

use crate::benches::{emit, submit, submit_twice};
use crate::seen::{Seen, Stop, whole_if};
use crate::tasks::{discard, lamp, light};
use intake_core::{Finding, Refusal};
use judge_bench::{Bench, Owner, Ticket, WorkerSeat};
use plan_cost::CostedTask;
use std::alloc::Global;
use std::sync::Arc;
use strips_judge::Plan;

/// What the owner of a bench asks, once it took a job and judged it.
pub(crate) fn owner_row(alloc: Global, makes_calls: bool) -> Seen {
    let task = lamp(alloc)?;
    let seen = with_owner(alloc, &task, makes_calls);
    discard(task);
    seen
}

/// Makes a bench with two slots, and submits a plan.
fn with_owner(alloc: Global, task: &CostedTask, makes_calls: bool) -> Seen {
    let plan = light(alloc)?;
    let (bench, mut owner) = Bench::make(alloc, task, 1, 2)?;
    whole_if(submit(&bench, &mut owner, &plan) == Some(Ok(0)))?;
    take_for_owner(alloc, &bench, &mut owner, task, &plan, makes_calls)
}

/// Takes the first job for the owner.
fn take_for_owner(
    alloc: Global,
    bench: &Bench,
    owner: &mut Owner,
    task: &CostedTask,
    plan: &Arc<Plan>,
    makes_calls: bool,
) -> Seen
    requires seat { SitsAt bench.now owner.old }
    requires task { bench.now.setting.task.value ≡ task.now }
{
    let Some(ticket) = owner.take_own(bench) else {
        return Err(Stop::Wrong);
    };
    let finding = Finding::judge(alloc, task, ticket.job())?;
    whole_if(!makes_calls || asks_owner(bench, owner, ticket, finding, plan))
}

/// Finishes the owner's job. Whether the owner's calls then answer what they should.
fn asks_owner(
    bench: &Bench,
    owner: &mut Owner,
    ticket: Ticket,
    finding: Finding,
    plan: &Arc<Plan>,
) -> bool
    requires seat { SitsAt bench.now owner.old }
    requires ticket { HoldsJob ticket.slot ticket.job owner.old.view.held }
    requires finding { (finding.job ≡ ticket.job) × IsRight bench.now.setting.task.value finding }
{
    owner.finish_own(bench, ticket, finding);
    submit(bench, owner, plan) == Some(Ok(1))
        && submit(bench, owner, plan) == Some(Err(Refusal::Full))
        && emit(bench, owner) == Ok(Some(0))
        && emit(bench, owner) == Err(Refusal::NotReady(1))
        && hands_back(bench, owner)
        && owner.close(bench, 0).is_ok()
        && owner.close(bench, 0).is_err()
        && owner.seats_out() == 0
}

/// Takes the second job for the owner, and hands it back. Whether it waited.
fn hands_back(bench: &Bench, owner: &mut Owner) -> bool
    requires { SitsAt bench.now owner.old }
    ensures { SitsAt bench.now owner.new }
{
    match owner.take_own(bench) {
        Some(ticket) => {
            let is_second = ticket.job().number == 1;
            owner.hand_back_own(bench, ticket);
            is_second
        }
        None => false,
    }
}

/// What a worker asks of a bench, once it took a job and judged it.
pub(crate) fn seat_row(alloc: Global, makes_calls: bool) -> Seen {
    let task = lamp(alloc)?;
    let seen = with_seat(alloc, &task, makes_calls);
    discard(task);
    seen
}

/// Makes a bench with two slots, and submits a plan twice.
fn with_seat(alloc: Global, task: &CostedTask, makes_calls: bool) -> Seen {
    let plan = light(alloc)?;
    let (bench, mut owner) = Bench::make(alloc, task, 1, 2)?;
    submit_twice(&bench, &mut owner, &plan)?;
    take_for_worker(alloc, &bench, &mut owner, task, makes_calls)
}

/// Makes a seat, which takes the first job.
fn take_for_worker(
    alloc: Global,
    bench: &Bench,
    owner: &mut Owner,
    task: &CostedTask,
    makes_calls: bool,
) -> Seen
    requires seat { SitsAt bench.now owner.old }
    requires task { bench.now.setting.task.value ≡ task.now }
{
    if owner.seats_out() != 0 {
        return Err(Stop::Wrong);
    }
    let mut seat = owner.seat(bench);
    let Some(ticket) = seat.take(bench) else {
        return Err(Stop::Wrong);
    };
    let finding = Finding::judge(alloc, task, ticket.job())?;
    whole_if(!makes_calls || asks_seat(bench, owner, seat, ticket, finding))
}

/// Finishes a worker's job. Whether its calls then answer what they should, and its seat can be handed in.
fn asks_seat(
    bench: &Bench,
    owner: &mut Owner,
    mut seat: WorkerSeat,
    ticket: Ticket,
    finding: Finding,
) -> bool
    requires seats { SitsAt bench.now owner.old × SitsAt bench.now seat }
    requires ticket { HoldsJob ticket.slot ticket.job seat.view.held }
    requires finding { (finding.job ≡ ticket.job) × IsRight bench.now.setting.task.value finding }
{
    seat.finish(bench, ticket, finding);
    hands_second_back(bench, &mut seat)
        && sees_shut(bench, owner, &mut seat)
        && hands_in(bench, owner, seat)
        && bench.slots() == 2
        && emit(bench, owner) == Ok(Some(0))
}

/// Takes the second job for a worker, and hands it back. Whether it waited.
fn hands_second_back(bench: &Bench, seat: &mut WorkerSeat) -> bool
    requires { SitsAt bench.now seat.old }
    ensures { SitsAt bench.now seat.new }
{
    match seat.take(bench) {
        Some(ticket) => {
            let is_second = ticket.job().number == 1 && seat.holds() == 1;
            seat.hand_back(bench, ticket);
            is_second
        }
        None => false,
    }
}

/// Shuts a bench. Whether a worker sees that, and not before.
fn sees_shut(bench: &Bench, owner: &mut Owner, seat: &mut WorkerSeat) -> bool
    requires { SitsAt bench.now owner.old × SitsAt bench.now seat.old }
    ensures { SitsAt bench.now owner.new × SitsAt bench.now seat.new }
{
    let is_open = !seat.look(bench);
    owner.shut(bench);
    is_open && seat.look(bench)
}

/// Hands a seat in. Whether it held nothing, and none is out then.
fn hands_in(bench: &Bench, owner: &mut Owner, seat: WorkerSeat) -> bool
    requires { SitsAt bench.now owner.old × SitsAt bench.now seat }
    ensures { SitsAt bench.now owner.new }
{
    if seat.holds() != 0 {
        return false;
    }
    owner.hand_in(bench, seat);
    owner.seats_out() == 0
}
