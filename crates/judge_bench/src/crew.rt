//! The workers of a run, each on a thread of its own.
ghost use Rattle.std.specs.Prelude.{◌≡◌, ◌<◌, ◌≤◌, ◌+◌, ℕ, [], Some, IfSome, OnOk, List, length, vec_len, vec_capacity};
ghost use Rattle.bench_rule.specs.Views.{worker_view};
ghost use Rattle.judge_bench.specs.Keeping.{with_all_joined, with_all_out, with_more_finished};
ghost use Rattle.judge_bench.specs.Seats.{SitsAt};
ghost use Rattle.judge_bench.specs.Workers.{AllWorkAt, CameBack, first_held};

use crate::working::work_among;
use crate::{Bench, Ended, Gate, Owner, WorkFault, WorkerSeat};
use plan_cost::CostedTask;
use std::alloc::Global;
use std::snapshot::Snapshot;
use std::thread::{Promise, PromisedHandle, Scope, Threads};

/// After how many rounds without a job a worker ends: some hours.
const IDLE_ROUNDS: u32 = 1_000_000_000;

/// No thread could be started.
#[derive(Drop)]
pub(crate) struct NoThread;

/// The promise of a worker: its seat comes back to its bench with nothing held, and a job that it says was held is one that its gate may hold.
pub(crate) struct WorksAt<G> {
    bench: Snapshot<Bench>,
    gate: Snapshot<G>,
}

impl<G> Drop for WorksAt<G> {
    fn drop(self) {
        let Self { bench: _, gate: _ } = self;
    }
}

impl<G: Gate> Promise<Ended> for WorksAt<G> {
    ghost use Rattle.judge_bench.specs.Workers.{CameBack};

    ghost kept_by = { λ promise ended. CameBack promise.bench.value (G.may_hold promise.gate.value) ended };
}

/// The workers that were started and not joined.
pub(crate) type Crew<G> = Vec<PromisedHandle<Ended, WorksAt<G>>>;

/// What the threads of a run share.
pub(crate) struct Shared<'s, G> {
    pub(crate) alloc: Global,
    pub(crate) bench: &'s Bench,
    pub(crate) task: &'s CostedTask,
    pub(crate) gate: &'s G,
    /// How many planners there are.
    pub(crate) planners: u32,
    /// How many workers are threads of their own.
    pub(crate) threads: u32,
}

impl<G> Drop for Shared<'_, G> {
    fn drop(self) {
        let Self {
            alloc: _,
            bench: _,
            task: _,
            gate: _,
            planners: _,
            threads: _,
        } = self;
    }
}

/// Starts all workers that are threads of their own. If a thread can't be started, its seat is lost, and `crew` has those that were started before.
pub(crate) fn start_all<'s, E, G: Gate + Sync>(
    scope: &Scope<'s, E>,
    shared: &Shared<'s, G>,
    crew: &mut Crew<G>,
    owner: &mut Owner,
) -> Result<(), NoThread>
    requires seat { SitsAt shared.now.bench.now owner.old }
    requires task { shared.now.bench.now.setting.task.value ≡ shared.now.task.now }
    requires few { owner.old.view.seats_out + shared.now.threads ≤ 1024 }
    requires crew { (crew.old.items ≡ []) × (vec_len crew.old ≡ 0) × (shared.now.threads ≤ vec_capacity crew.old) }
    ensures seat { SitsAt shared.now.bench.now owner.new }
    ensures crew { AllWorkAt shared.now.bench.now shared.now.gate.now crew.new.items }
    ensures count { OnOk result (length crew.new.items ≡ shared.now.threads) }
    ensures view { OnOk result (owner.new.view ≡ with_all_out owner.old.view shared.now.threads) }
{
    let alloc = shared.alloc;
    let bench = shared.bench;
    let task = shared.task;
    let gate = shared.gate;
    let judges = shared.threads + 1;
    for number in 0..shared.threads {
        let mut seat = owner.seat(bench);
        seat.begin_apart(bench, number + 1, judges);
        let promise = WorksAt {
            bench: Snapshot::of(bench),
            gate: Snapshot::of(gate),
        };
        let Ok(child) = scope.spawn_with(
            promise,
            move || whole_work(alloc, bench, seat, task, gate, judges),
        ) else {
            return Err(NoThread);
        };
        crew.push_reserved(child);
    }
    Ok(())
}

/// A worker's turn at a bench from its first job on, as one of `judges` that judge.
fn whole_work<G: Gate>(
    alloc: Global,
    bench: &Bench,
    seat: WorkerSeat,
    task: &CostedTask,
    gate: &G,
    judges: u32,
) -> Ended
    requires seat { SitsAt bench.now seat × (seat.view ≡ worker_view (Some bench.now.setting)) }
    requires task { bench.now.setting.task.value ≡ task.now }
    ensures { CameBack bench.now (G.may_hold gate.now) result }
{
    work_among(alloc, bench, seat, task, gate, IDLE_ROUNDS, judges)
}

/// The owner's thread works as the others do, as one of `judges`, with a seat of its own, until it finds no job that waits and the bench is shut.
/// Returns the job for which it ended, if the gate held one.
pub(crate) fn take_part<G: Gate>(
    shared: &Shared<'_, G>,
    owner: &mut Owner,
    judges: u32,
) -> Option<u32>
    requires seat { SitsAt shared.now.bench.now owner.old }
    requires few { owner.old.view.seats_out < 1024 }
    requires task { shared.now.bench.now.setting.task.value ≡ shared.now.task.now }
    ensures seat { SitsAt shared.now.bench.now owner.new }
    ensures view { (more : List ℕ) × (owner.new.view ≡ with_more_finished owner.old.view more) }
    ensures held { IfSome result (G.may_hold shared.now.gate.now) }
{
    let bench = shared.bench;
    let mut seat = owner.seat(bench);
    seat.begin_apart(bench, 0, judges);
    let Ended { seat, refused } = whole_work(
        shared.alloc,
        bench,
        seat,
        shared.task,
        shared.gate,
        judges,
    );
    owner.hand_in(bench, seat);
    first_held(None, refused)
}

/// Waits for all workers and hands their seats in. Returns the job of the first of them that ended because its job was held.
pub(crate) fn join_all<R: Threads, G: Gate>(
    rt: &R,
    shared: &Shared<'_, G>,
    crew: Crew<G>,
    owner: &mut Owner,
) -> Option<u32>
    requires seat { SitsAt shared.now.bench.now owner.old }
    requires crew { AllWorkAt shared.now.bench.now shared.now.gate.now crew.items }
    ensures seat { SitsAt shared.now.bench.now owner.new }
    ensures view { (more : List ℕ) × (owner.new.view ≡ with_all_joined owner.old.view (length crew.items) more) }
    ensures held { IfSome result (G.may_hold shared.now.gate.now) }
{
    let mut held = None;
    for child in crew {
        let Ended { seat, refused } = child.join(rt);
        held = first_held(held, refused);
        owner.hand_in(shared.bench, seat);
    }
    held
}

/// The job that was held first, if one is known or this worker ended for one.
fn first_held(known: Option<u32>, refused: Option<WorkFault>) -> Option<u32>
    ensures { result ≡ first_held known refused }
{
    match (known, refused) {
        (Some(job), _) => Some(job),
        (None, Some(WorkFault::Held(job))) => Some(job),
        (None, _) => None,
    }
}
