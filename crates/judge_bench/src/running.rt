//! A run: plans in, findings out.
ghost use Rattle.std.specs.Prelude.{◌≡◌, ◌≢◌, ◌<◌, ◌≤◌, [], All, IfOk, IfErr, OnOk, ℕ, List, length, replicate, true, vec_len, vec_capacity};
ghost use Rattle.judge_bench.specs.Findings.{findings_of};
ghost use Rattle.judge_bench.specs.Keeping.{KeptFindings, with_all_joined};
ghost use Rattle.judge_bench.specs.Runs.{AllAccepted, FoundOrHeld, IsReady, MayRun};
ghost use Rattle.judge_bench.specs.Seats.{SitsAt};
ghost use Rattle.judge_bench.specs.Workers.{AllWorkAt};
ghost use Rattle.judge_bench.specs.declared.running.RunFault.TheVariants.{Held};

use crate::collector::Collector;
use crate::crew::{Crew, NoThread, Shared, join_all, start_all, take_part};
use crate::{Bench, Findings, Gate, Intake, Owner};
use plan_cost::CostedTask;
use std::alloc::{AllocError, Global};
use std::sync::Wait;
use std::thread;
use std::thread::{Scope, Threads};

/// Why a run gives no findings.
#[derive(Clone, Copy, Debug, Drop, PartialEq, Eq)]
pub enum RunFault {
    /// Memory ran out.
    OutOfMemory,
    /// A thread could not be started.
    NoThread,
    /// The gate held the job with this number. If several workers ended for a held job, it is that of the worker that was started first; the calling
    /// thread counts as the last.
    Held(u32),
}

impl From<AllocError> for RunFault {
    ghost use Rattle.std.specs.Prelude.{◌≡◌};
    ghost use Rattle.judge_bench.specs.declared.running.RunFault.TheVariants.{OutOfMemory};

    ghost from_gives = { λ _ fault. fault ≡ OutOfMemory };

    fn from(_: AllocError) -> RunFault {
        RunFault::OutOfMemory
    }
}

impl From<NoThread> for RunFault {
    ghost use Rattle.std.specs.Prelude.{◌≡◌};
    ghost use Rattle.judge_bench.specs.declared.running.RunFault.TheVariants as fault;

    ghost from_gives = { λ _ given. given ≡ fault.NoThread };

    fn from(_: NoThread) -> RunFault {
        RunFault::NoThread
    }
}

/// Judges the plans of all planners on `workers` threads, including the calling one, and returns one finding for each plan.
///
/// The plans are jobs, numbered from 0 in the order of the intake, and the gate is asked about each before a worker judges it. The workers share a
/// [`Bench`]. All but the last are threads that are started first, and judge while the intake still gives plans. The last is the calling thread, once
/// it has accepted all plans. If memory ran out for a worker, the calling thread judges what is left once the others have ended. Waits until all
/// its threads are done.
///
/// The memory for the bench and the lists is taken first. After that, faults are reported in this order: a thread that can't be started, or memory
/// that runs out for the intake or for what is kept while it lasts; a held job; memory that runs out afterwards.
pub fn run<R: Threads + Wait + Sync, I: Intake, G: Gate + Sync>(
    rt: &R,
    alloc: Global,
    task: &CostedTask,
    planners: u32,
    slots: u32,
    intake: &mut I,
    workers: u32,
    gate: &G,
) -> Result<Findings, RunFault>
    requires workers { (1 ≤ workers) × (workers ≤ 32) }
    requires planners { planners ≤ 64 }
    requires slots { slots ≤ 65536 }
    requires plans { length (I.to_come intake.old) ≤ slots }
    requires known { All (λ plan. plan.planner < planners) (I.to_come intake.old) }
    ensures findings { IfOk result (λ findings. findings ≡ findings_of task.now planners (I.to_come intake.old)) }
    ensures held { IfErr result (λ fault. (job : ℕ) → fault ≡ Held job → G.may_hold gate.now job) }
{
    let (bench, owner) = Bench::make(alloc, task, planners, slots)?;
    let findings = Findings::new(alloc, planners)?;
    let threads = workers - 1;
    let crew = Crew::with_capacity(alloc, threads as usize)?;
    let collector = Collector { owner, findings };
    let shared = Shared {
        alloc,
        bench: &bench,
        task,
        gate,
        planners,
        threads,
    };
    run_at(rt, &shared, collector, crew, intake)
}

/// A run at a bench that was made for it.
fn run_at<R: Threads + Wait + Sync, I: Intake, G: Gate + Sync>(
    rt: &R,
    shared: &Shared<'_, G>,
    collector: Collector,
    crew: Crew<G>,
    intake: &mut I,
) -> Result<Findings, RunFault>
    requires ready { IsReady shared.now.bench.now shared.now.task.now shared.now.planners collector.owner collector.findings }
    requires crew { (crew.items ≡ []) × (vec_len crew ≡ 0) × (shared.now.threads ≤ vec_capacity crew) × (shared.now.threads ≤ 32) }
    requires plans { MayRun shared.now.bench.now.setting.slots shared.now.planners (I.to_come intake.old) }
    ensures { FoundOrHeld shared.now.task.now shared.now.planners (I.to_come intake.old) (G.may_hold shared.now.gate.now) result }
{
    thread::scope(
        thread::scope_env(),
        rt,
        |scope| -> Result<Findings, RunFault>
            requires { IsReady shared.now.bench.now shared.now.task.now shared.now.planners collector.owner collector.findings × (crew.items ≡ []) × (vec_len crew ≡ 0) × (shared.now.threads ≤ vec_capacity crew) × (shared.now.threads ≤ 32) × MayRun shared.now.bench.now.setting.slots shared.now.planners (I.to_come intake.now) }
            ensures { FoundOrHeld shared.entry.now.task.now shared.entry.now.planners (I.to_come intake.entry.now) (G.may_hold shared.entry.now.gate.now) result }
        { run_in_scope(scope, rt, shared, collector, crew, intake) },
    )
}

/// The owner's part of a run.
fn run_in_scope<'s, E, R: Threads, I: Intake, G: Gate + Sync>(
    scope: &Scope<'s, E>,
    rt: &R,
    shared: &Shared<'s, G>,
    mut collector: Collector,
    crew: Crew<G>,
    intake: &mut I,
) -> Result<Findings, RunFault>
    requires ready { IsReady shared.now.bench.now shared.now.task.now shared.now.planners collector.owner collector.findings }
    requires crew { (crew.items ≡ []) × (vec_len crew ≡ 0) × (shared.now.threads ≤ vec_capacity crew) × (shared.now.threads ≤ 32) }
    requires plans { MayRun shared.now.bench.now.setting.slots shared.now.planners (I.to_come intake.old) }
    ensures { FoundOrHeld shared.now.task.now shared.now.planners (I.to_come intake.old) (G.may_hold shared.now.gate.now) result }
{
    judge_with_crew(scope, rt, shared, &mut collector, crew, intake)?;
    Ok(collector.finish(shared.alloc, shared.bench, shared.task, shared.planners)?)
}

/// Has all plans accepted and judged by all workers, and waits for those that are threads of their own. The bench is shut afterwards, whatever happens:
/// as long as it is open, they would not end.
fn judge_with_crew<'s, E, R: Threads, I: Intake, G: Gate + Sync>(
    scope: &Scope<'s, E>,
    rt: &R,
    shared: &Shared<'s, G>,
    collector: &mut Collector,
    mut crew: Crew<G>,
    intake: &mut I,
) -> Result<(), RunFault>
    requires ready { IsReady shared.now.bench.now shared.now.task.now shared.now.planners collector.old.owner collector.old.findings }
    requires crew { (crew.items ≡ []) × (vec_len crew ≡ 0) × (shared.now.threads ≤ vec_capacity crew) × (shared.now.threads ≤ 32) }
    requires plans { MayRun shared.now.bench.now.setting.slots shared.now.planners (I.to_come intake.old) }
    ensures seat { SitsAt shared.now.bench.now collector.new.owner }
    ensures shut { collector.new.owner.view.shut ≡ true }
    ensures closed { OnOk result (collector.new.owner.view.closed ≡ replicate shared.now.planners true) }
    ensures accepted { OnOk result (AllAccepted (I.to_come intake.old) 0 collector.new.owner.view) }
    ensures kept { OnOk result (KeptFindings shared.now.task.now shared.now.planners collector.new.owner.view collector.new.findings) }
    ensures held { IfErr result (λ fault. (job : ℕ) → fault ≡ Held job → G.may_hold shared.now.gate.now job) }
{
    let started = start_and_submit(scope, shared, collector, &mut crew, intake);
    collector.owner.shut(shared.bench);
    match started {
        Ok(()) => drain(rt, shared, &mut collector.owner, crew),
        Err(fault) => {
            let _held = join_all(rt, shared, crew, &mut collector.owner);
            Err(fault)
        }
    }
}

/// The owner's thread works until no job waits at the bench, which is shut, and then waits for the other threads.
fn drain<R: Threads, G: Gate + Sync>(
    rt: &R,
    shared: &Shared<'_, G>,
    owner: &mut Owner,
    crew: Crew<G>,
) -> Result<(), RunFault>
    requires seat { SitsAt shared.now.bench.now owner.old }
    requires task { shared.now.bench.now.setting.task.value ≡ shared.now.task.now }
    requires crew { AllWorkAt shared.now.bench.now shared.now.gate.now crew.items × (length crew.items ≤ 32) }
    requires out { owner.old.view.seats_out ≡ length crew.items }
    ensures seat { SitsAt shared.now.bench.now owner.new }
    ensures view { (more : List ℕ) × (owner.new.view ≡ with_all_joined owner.old.view (length crew.items) more) }
    ensures held { IfErr result (λ fault. (job : ℕ) → fault ≡ Held job → G.may_hold shared.now.gate.now job) }
{
    let judges = crew.len() as u32 + 1;
    let own = take_part(shared, owner, judges);
    let others = join_all(rt, shared, crew, owner);
    match others.or(own) {
        Some(job) => Err(RunFault::Held(job)),
        None => Ok(()),
    }
}

/// Starts the workers that are threads of their own, accepts all plans, and closes all planners.
fn start_and_submit<'s, E, I: Intake, G: Gate + Sync>(
    scope: &Scope<'s, E>,
    shared: &Shared<'s, G>,
    collector: &mut Collector,
    crew: &mut Crew<G>,
    intake: &mut I,
) -> Result<(), RunFault>
    requires ready { IsReady shared.now.bench.now shared.now.task.now shared.now.planners collector.old.owner collector.old.findings }
    requires crew { (crew.old.items ≡ []) × (vec_len crew.old ≡ 0) × (shared.now.threads ≤ vec_capacity crew.old) × (shared.now.threads ≤ 32) }
    requires plans { MayRun shared.now.bench.now.setting.slots shared.now.planners (I.to_come intake.old) }
    ensures seat { SitsAt shared.now.bench.now collector.new.owner }
    ensures crew { AllWorkAt shared.now.bench.now shared.now.gate.now crew.new.items }
    ensures count { OnOk result (length crew.new.items ≡ shared.now.threads) }
    ensures accepted { OnOk result (AllAccepted (I.to_come intake.old) (length crew.new.items) collector.new.owner.view) }
    ensures closed { OnOk result (collector.new.owner.view.closed ≡ replicate shared.now.planners true) }
    ensures kept { OnOk result (KeptFindings shared.now.task.now shared.now.planners collector.new.owner.view collector.new.findings) }
    ensures held { IfErr result (λ fault. (job : ℕ) → fault ≢ Held job) }
{
    start_all(scope, shared, crew, &mut collector.owner)?;
    collector.accept_all(shared.bench, intake)?;
    collector.close_all(shared.bench, shared.planners);
    Ok(())
}
