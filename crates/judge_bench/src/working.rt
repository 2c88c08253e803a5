//! What a worker does.
ghost use Rattle.std.specs.Prelude.{◌≡◌, ◌≤◌, length, OnOk, IfErr};
ghost use Rattle.bench_rule.specs.Views.{HoldsJob, with_finished, with_handed_back};
ghost use Rattle.judge_bench.specs.Seats.{SitsAt};
ghost use Rattle.judge_bench.specs.Turns.{NotJudgedFor};
ghost use Rattle.judge_bench.specs.Work.{Worked};

use crate::{Bench, Gate, Ticket, WorkerSeat};
use intake_rules::Finding;
use plan_cost::CostedTask;
use std::alloc::{AllocError, AllocFailed, Global};
use std::{hint, thread};
use text_judge::{MOST_JUDGES, TextJudge};

/// The most times that a worker yields before it looks for a job again: in all some tens of microseconds on an idle machine.
const MOST_YIELDS: u32 = 32;

/// Why a worker ended before its work was done.
#[derive(Clone, Copy, Debug, Drop, PartialEq, Eq)]
pub enum WorkFault {
    /// Memory ran out, for the judge of the worker or while a job was judged.
    OutOfMemory,
    /// The gate held the job with this number.
    Held(u32),
    /// The worker went round all slots without finding a job as often as it was allowed to.
    Idle,
}

/// A worker that ended.
#[derive(Drop)]
pub struct Ended {
    /// Its seat, which holds what it held before.
    pub seat: WorkerSeat,
    /// Why it ended before its work was done, if it did.
    pub refused: Option<WorkFault>,
}

/// Takes jobs, judges them and finishes them, until it finds none after it saw that the bench is shut, or until `idle` rounds found none.
///
/// The gate is asked about each job before it is judged. If it holds the job, or if memory runs out, the job is handed back and the worker ends.
/// Between two rounds without a job the worker pauses, and lets other threads run. It has a judge of its own, which remembers steps from one job
/// to the next.
pub fn work<G: Gate>(
    alloc: Global,
    bench: &Bench,
    seat: WorkerSeat,
    task: &CostedTask,
    gate: &G,
    idle: u32,
) -> Ended
    requires seat { SitsAt bench.now seat }
    requires task { bench.now.setting.task.value ≡ task.now }
    requires idle { 1 ≤ idle }
    ensures seat { SitsAt bench.now result.seat }
    ensures worked { Worked (G.may_hold gate.now) bench.now.setting.slots idle seat.view result.seat.view result.refused }
{
    work_among(alloc, bench, seat, task, gate, idle, MOST_JUDGES)
}

/// Works as [`work`] says, with a judge of its own that is one of `judges`.
pub(crate) fn work_among<G: Gate>(
    alloc: Global,
    bench: &Bench,
    seat: WorkerSeat,
    task: &CostedTask,
    gate: &G,
    idle: u32,
    judges: u32,
) -> Ended
    requires seat { SitsAt bench.now seat }
    requires task { bench.now.setting.task.value ≡ task.now }
    requires idle { 1 ≤ idle }
    ensures seat { SitsAt bench.now result.seat }
    ensures worked { Worked (G.may_hold gate.now) bench.now.setting.slots idle seat.view result.seat.view result.refused }
{
    match TextJudge::new(alloc, task, judges) {
        Ok(mut judge) => work_by(alloc, bench, seat, &mut judge, gate, idle),
        Err(AllocError) => Ended {
            seat,
            refused: Some(WorkFault::OutOfMemory),
        },
    }
}

/// Takes jobs and has them judged by this judge, as [`work`] says.
fn work_by<G: Gate>(
    alloc: Global,
    bench: &Bench,
    mut seat: WorkerSeat,
    judge: &mut TextJudge<'_>,
    gate: &G,
    idle: u32,
) -> Ended
    requires seat { SitsAt bench.now seat }
    requires task { bench.now.setting.task.value ≡ judge.old }
    requires idle { 1 ≤ idle }
    ensures seat { SitsAt bench.now result.seat }
    ensures worked { Worked (G.may_hold gate.now) bench.now.setting.slots idle seat.view result.seat.view result.refused }
{
    let mut shut = false;
    let mut rounds = 0;
    let mut in_a_row = 0;
    while rounds < idle {
        if let Some(ticket) = seat.take(bench) {
            if let Err(fault) = judge_one(alloc, bench, &mut seat, ticket, judge, gate) {
                return Ended {
                    seat,
                    refused: Some(fault),
                };
            }
            in_a_row = 0;
        } else {
            if shut {
                return Ended {
                    seat,
                    refused: None,
                };
            }
            shut = seat.look(bench);
            rounds += 1;
            in_a_row = pause(in_a_row);
        }
    }
    Ended {
        seat,
        refused: Some(WorkFault::Idle),
    }
}

/// Judges a job that the seat took and finishes it. If the gate holds it, or if memory runs out, it is handed back.
fn judge_one<G: Gate>(
    alloc: Global,
    bench: &Bench,
    seat: &mut WorkerSeat,
    ticket: Ticket,
    judge: &mut TextJudge<'_>,
    gate: &G,
) -> Result<(), WorkFault>
    requires seat { SitsAt bench.now seat.old }
    requires ticket { HoldsJob ticket.slot ticket.job seat.old.view.held }
    requires task { bench.now.setting.task.value ≡ judge.old }
    ensures seat { SitsAt bench.now seat.new }
    ensures task { judge.new ≡ judge.old }
    ensures finished { OnOk result (seat.new.view ≡ with_finished seat.old.view ticket.slot) }
    ensures count { OnOk result (length seat.new.view.finished ≤ bench.now.setting.slots) }
    ensures handed_back { IfErr result (λ fault. seat.new.view ≡ with_handed_back seat.old.view ticket.slot) }
    ensures reason { IfErr result (NotJudgedFor (G.may_hold gate.now) ticket.job) }
{
    let number = ticket.job().number;
    if gate.hold(number) {
        seat.hand_back(bench, ticket);
        return Err(WorkFault::Held(number));
    }
    let Ticket { slot, job } = ticket;
    match Finding::judge_own(alloc, judge, job) {
        Ok(finding) => {
            seat.finish_at(bench, slot, finding);
            Ok(())
        }
        Err(AllocFailed { value: job }) => {
            seat.hand_back(bench, Ticket { slot, job });
            Err(WorkFault::OutOfMemory)
        }
    }
}

/// Lets other threads run, for longer the more rounds in a row found no job, and counts one more round.
fn pause(rounds: u32) -> u32 {
    hint::spin_loop();
    for _ in 0..rounds.min(MOST_YIELDS) {
        thread::yield_now();
    }
    rounds.saturating_add(1)
}
