//! Calls at a bench: all seats in one thread, and seats in threads of their own.

ghost use Rattle.std.specs.Prelude.{◌≡◌, ◌<◌, ◌≤◌, IfSome};
ghost use Rattle.bench_rule.specs.Views.{HoldsJob};
ghost use Rattle.judge_bench.specs.Seats.{SitsAt};

use crate::lamp::{discard, is_raised_in_time, lamp_1, light, steps_if_valid};
use intake_rules::{Finding, Refusal};
use judge_bench::{Bench, Ended, Gate, Open, Owner, Ticket, WorkFault, WorkerSeat, work};
use pddl_reader::ReadFault;
use plan_cost::CostedTask;
use std::alloc::{AllocError, Global};
use std::sync::atomic::{AtomicBool, Ordering};
use std::test::Fail;
use std::thread;
use std::thread::Threads;

/// What comes of submitting a plan that lights the lamp.
fn submit(
    alloc: Global,
    bench: &Bench,
    owner: &mut Owner,
) -> Result<Result<u32, Refusal>, AllocError>
    requires { SitsAt bench.now owner.old }
    ensures { SitsAt bench.now owner.new }
{
    match owner.submit(bench, 0, light(alloc)?.plan) {
        Ok(number) => Ok(Ok(number)),
        Err(refused) => Ok(Err(refused.refusal)),
    }
}

/// What an emitted finding says: the number of its job, and how many steps the plan has if it is valid.
#[derive(Clone, Copy, Debug, PartialEq, Eq)]
struct Emitted {
    job: u32,
    steps: Option<u32>,
}

/// What the next finding of a planner says, or why none is emitted.
fn emit(bench: &Bench, owner: &mut Owner, planner: u32) -> Result<Emitted, Refusal>
    requires { SitsAt bench.now owner.old }
    ensures { SitsAt bench.now owner.new }
{
    let finding = owner.emit(bench, planner)?;
    Ok(Emitted {
        job: finding.job.number,
        steps: steps_if_valid(&finding.verdict),
    })
}

/// Judges the job of a ticket and finishes it.
fn finish(
    alloc: Global,
    bench: &Bench,
    seat: &mut WorkerSeat,
    task: &CostedTask,
    ticket: Ticket,
) -> Result<(), AllocError>
    requires seat { SitsAt bench.now seat.old }
    requires ticket { HoldsJob ticket.slot ticket.job seat.old.view.held }
    requires task { bench.now.setting.task.value ≡ task.now }
    ensures { SitsAt bench.now seat.new }
{
    let finding = Finding::judge(alloc, task, ticket.job())?;
    seat.finish(bench, ticket, finding);
    Ok(())
}

/// Takes a job, judges it and finishes it. Its number, if one was found.
fn judge_next(
    alloc: Global,
    bench: &Bench,
    seat: &mut WorkerSeat,
    task: &CostedTask,
) -> Result<Option<u32>, AllocError>
    requires seat { SitsAt bench.now seat.old }
    requires task { bench.now.setting.task.value ≡ task.now }
    ensures { SitsAt bench.now seat.new }
{
    let Some(ticket) = seat.take(bench) else {
        return Ok(None);
    };
    let number = ticket.job().number;
    finish(alloc, bench, seat, task, ticket)?;
    Ok(Some(number))
}

/// Hands in a seat that holds nothing, and drops any other.
fn hand_in(bench: &Bench, owner: &mut Owner, seat: WorkerSeat)
    requires owner { SitsAt bench.now owner.old }
    requires seat { SitsAt bench.now seat }
    ensures { SitsAt bench.now owner.new }
{
    if seat.holds() == 0 {
        owner.hand_in(bench, seat);
    }
}

/// Seats for two workers, if none is out yet.
fn two_seats(bench: &Bench, owner: &mut Owner) -> Option<(WorkerSeat, WorkerSeat)>
    requires { SitsAt bench.now owner.old }
    ensures owner { SitsAt bench.now owner.new }
    ensures seats { IfSome result (λ seats. SitsAt bench.now seats.0 × SitsAt bench.now seats.1) }
{
    if owner.seats_out() != 0 {
        return None;
    }
    let one = owner.seat(bench);
    let other = owner.seat(bench);
    Some((one, other))
}

/// Submits three plans. The answers, in order.
fn submit_three(
    alloc: Global,
    bench: &Bench,
    owner: &mut Owner,
) -> Result<[Result<u32, Refusal>; 3], AllocError>
    requires { SitsAt bench.now owner.old }
    ensures { SitsAt bench.now owner.new }
{
    let first = submit(alloc, bench, owner)?;
    let second = submit(alloc, bench, owner)?;
    let third = submit(alloc, bench, owner)?;
    Ok([first, second, third])
}

/// What two seats did in turn, while one of them held a job for a time.
#[derive(Clone, Copy, Debug, PartialEq, Eq)]
struct InTurn {
    /// The job that the one took.
    taken: u32,
    /// How many jobs it then held.
    held: u32,
    /// The job that the other finished meanwhile.
    second: Option<u32>,
    /// What was emitted before the one handed its job back.
    early: Result<Emitted, Refusal>,
    /// The job that the other finished after that.
    again: Option<u32>,
}

/// One seat takes a job and hands it back once another seat has finished the next; the other seat then finishes one more. What happened, if there
/// was a job to take.
fn judge_in_turn(
    alloc: Global,
    bench: &Bench,
    owner: &mut Owner,
    one: &mut WorkerSeat,
    other: &mut WorkerSeat,
    task: &CostedTask,
) -> Result<Option<InTurn>, AllocError>
    requires seats { SitsAt bench.now owner.old × SitsAt bench.now one.old × SitsAt bench.now other.old }
    requires task { bench.now.setting.task.value ≡ task.now }
    ensures { SitsAt bench.now owner.new × SitsAt bench.now one.new × SitsAt bench.now other.new }
{
    let Some(first) = one.take(bench) else {
        return Ok(None);
    };
    let taken = first.job().number;
    let held = one.holds();
    let second = judge_next(alloc, bench, other, task)?;
    let early = emit(bench, owner, 0);
    one.hand_back(bench, first);
    let again = judge_next(alloc, bench, other, task)?;
    Ok(Some(InTurn {
        taken,
        held,
        second,
        early,
        again,
    }))
}

/// What an owner answered at the end of its only planner.
#[derive(Clone, Copy, Debug, PartialEq, Eq)]
struct Answers {
    /// The two findings that were emitted.
    both: [Result<Emitted, Refusal>; 2],
    /// One more emission, before the planner was closed.
    nothing: Result<Emitted, Refusal>,
    /// The closing of the planner.
    closed: Result<(), Refusal>,
    /// A plan that was submitted after that.
    late: Result<u32, Refusal>,
    /// An emission after that.
    complete: Result<Emitted, Refusal>,
    /// An emission for a planner that does not exist.
    nobody: Result<Emitted, Refusal>,
}

/// Emits the findings of two jobs, closes the planner, and asks for more than the owner grants. All its answers.
fn answers_at_the_end(
    alloc: Global,
    bench: &Bench,
    owner: &mut Owner,
) -> Result<Answers, AllocError>
    requires { SitsAt bench.now owner.old }
    ensures { SitsAt bench.now owner.new }
{
    let first = emit(bench, owner, 0);
    let second = emit(bench, owner, 0);
    let nothing = emit(bench, owner, 0);
    let closed = owner.close(bench, 0);
    let late = submit(alloc, bench, owner)?;
    let complete = emit(bench, owner, 0);
    let nobody = emit(bench, owner, 1);
    Ok(Answers {
        both: [first, second],
        nothing,
        closed,
        late,
        complete,
        nobody,
    })
}

/// What one thread with all seats saw at a bench with two slots.
#[derive(Clone, Copy, Debug, PartialEq, Eq)]
struct OneThread {
    /// The answers to three plans.
    submitted: [Result<u32, Refusal>; 3],
    /// How many seats were out while jobs were judged.
    out: u32,
    in_turn: Option<InTurn>,
    answers: Answers,
    /// How many seats were out after all were handed in.
    left_out: u32,
    /// The job that then still waited.
    waiting: Option<u32>,
}

/// Takes a job as the owner. Its number, if one waits.
fn take_last(bench: &Bench, owner: &mut Owner) -> Option<u32>
    requires { SitsAt bench.now owner.old }
    ensures { SitsAt bench.now owner.new }
{
    match owner.take_own(bench) {
        Some(ticket) => Some(ticket.job().number),
        None => None,
    }
}

/// What one thread with all seats sees at a bench with two slots; nothing if seats are out at the start.
fn one_thread_judges(alloc: Global, task: &CostedTask) -> Result<Option<OneThread>, AllocError> {
    let (bench, mut owner) = Bench::make(alloc, task, 1, 2)?;
    let submitted = submit_three(alloc, &bench, &mut owner)?;
    let Some((mut one, mut other)) = two_seats(&bench, &mut owner) else {
        return Ok(None);
    };
    let out = owner.seats_out();
    let in_turn = judge_in_turn(alloc, &bench, &mut owner, &mut one, &mut other, task)?;
    let answers = answers_at_the_end(alloc, &bench, &mut owner)?;
    hand_in(&bench, &mut owner, one);
    hand_in(&bench, &mut owner, other);
    let left_out = owner.seats_out();
    let waiting = take_last(&bench, &mut owner);
    Ok(Some(OneThread {
        submitted,
        out,
        in_turn,
        answers,
        left_out,
        waiting,
    }))
}

/// The finding of a job whose plan is valid and has one step.
fn one_step(job: u32) -> Result<Emitted, Refusal> {
    Ok(Emitted {
        job,
        steps: Some(1),
    })
}

/// What one thread sees when it judges plans for the lamp.
fn one_thread_at_the_lamp(alloc: Global) -> Result<Option<OneThread>, ReadFault> {
    let task = lamp_1(alloc)?;
    let seen = one_thread_judges(alloc, &task);
    discard(task);
    Ok(seen?)
}

#[test]
fn one_thread_has_every_seat(rt: HostRuntime) -> Result<(), Fail> {
    let seen = one_thread_at_the_lamp(rt.alloc())?;
    let expected = OneThread {
        submitted: [Ok(0), Ok(1), Err(Refusal::Full)],
        out: 2,
        in_turn: Some(InTurn {
            taken: 0,
            held: 1,
            second: Some(1),
            early: Err(Refusal::NotReady(0)),
            again: Some(0),
        }),
        answers: Answers {
            both: [one_step(0), one_step(1)],
            nothing: Err(Refusal::NothingYet),
            closed: Ok(()),
            late: Err(Refusal::Closed),
            complete: Err(Refusal::Complete),
            nobody: Err(Refusal::NoPlanner),
        },
        left_out: 0,
        waiting: None,
    };
    assert_eq!(rt; seen, Some(expected));
    Ok(())
}

/// Two threads work at the bench until it is shut and nothing waits. Why each ended before its work was done, if it did.
fn work_by_two<G: Gate + Sync>(
    rt: &(impl AllocGlobal + Threads + Sync),
    bench: &Bench,
    owner: &mut Owner,
    task: &CostedTask,
    gate: &G,
) -> [Option<WorkFault>; 2]
    requires seat { SitsAt bench.now owner.old × (owner.old.view.seats_out ≡ 0) }
    requires task { bench.now.setting.task.value ≡ task.now }
    ensures { SitsAt bench.now owner.new }
{
    let alloc = rt.alloc();
    let one = owner.seat(bench);
    let other = owner.seat(bench);
    let (one, other) = thread::join(
        rt,
        || -> Ended
            requires { SitsAt bench.now one × (bench.now.setting.task.value ≡ task.now) }
            ensures { SitsAt bench.entry.now result.seat }
        { work(alloc, bench, one, task, gate, 1000) },
        || -> Ended
            requires { SitsAt bench.now other × (bench.now.setting.task.value ≡ task.now) }
            ensures { SitsAt bench.entry.now result.seat }
        { work(alloc, bench, other, task, gate, 1000) },
    );
    let faults = [one.refused, other.refused];
    hand_in(bench, owner, one.seat);
    hand_in(bench, owner, other.seat);
    faults
}

/// Submits `plans` plans. The first answer that is not the next number from 0 on, with that number; `None` if each plan got its number.
fn submit_all(
    alloc: Global,
    bench: &Bench,
    owner: &mut Owner,
    plans: u32,
) -> Result<Option<(u32, Result<u32, Refusal>)>, AllocError>
    requires { SitsAt bench.now owner.old }
    ensures { SitsAt bench.now owner.new }
{
    for number in 0..plans {
        let answer = submit(alloc, bench, owner)?;
        if answer != Ok(number) {
            return Ok(Some((number, answer)));
        }
    }
    Ok(None)
}

/// Emits `plans` findings. The first answer that is not about the next job from 0 on, or not of a valid plan of one step, with the number of that
/// job; `None` if there is no such answer.
fn emit_all(bench: &Bench, owner: &mut Owner, plans: u32) -> Option<(u32, Result<Emitted, Refusal>)>
    requires { SitsAt bench.now owner.old }
    ensures { SitsAt bench.now owner.new }
{
    for number in 0..plans {
        let answer = emit(bench, owner, 0);
        if answer != one_step(number) {
            return Some((number, answer));
        }
    }
    None
}

/// What was wrong when two threads judged the plans of a bench.
#[derive(Clone, Copy, Debug, PartialEq, Eq)]
struct Faults {
    /// The first wrong answer to a plan.
    submitted: Option<(u32, Result<u32, Refusal>)>,
    /// Why each of the two workers ended too early.
    worked: [Option<WorkFault>; 2],
    /// The first wrong finding.
    emitted: Option<(u32, Result<Emitted, Refusal>)>,
}

/// A run in which nothing was wrong.
const NO_FAULTS: Faults = Faults {
    submitted: None,
    worked: [None, None],
    emitted: None,
};

/// Submits `plans` plans to a bench that is then shut, lets two threads work and emits all findings. What was wrong; nothing is answered if seats are
/// out before the threads begin.
fn judges_all<G: Gate + Sync>(
    rt: &(impl AllocGlobal + Threads + Sync),
    task: &CostedTask,
    plans: u32,
    gate: &G,
) -> Result<Option<Faults>, AllocError>
    requires { plans ≤ 100 }
{
    let (bench, mut owner) = Bench::make(rt.alloc(), task, 1, plans)?;
    let submitted = submit_all(rt.alloc(), &bench, &mut owner, plans)?;
    owner.shut(&bench);
    if owner.seats_out() != 0 {
        return Ok(None);
    }
    let worked = work_by_two(rt, &bench, &mut owner, task, gate);
    let emitted = emit_all(&bench, &mut owner, plans);
    Ok(Some(Faults {
        submitted,
        worked,
        emitted,
    }))
}

/// What is wrong when two threads judge plans for the lamp.
fn faults_at_the_lamp<G: Gate + Sync>(
    rt: &(impl AllocGlobal + Threads + Sync),
    plans: u32,
    gate: &G,
) -> Result<Option<Faults>, ReadFault>
    requires { plans ≤ 100 }
{
    let task = lamp_1(rt.alloc())?;
    let faults = judges_all(rt, &task, plans, gate);
    discard(task);
    Ok(faults?)
}

#[test]
fn two_threads_judge_a_hundred_plans(rt: HostRuntime) -> Result<(), Fail> {
    let faults = faults_at_the_lamp(&rt, 100, &Open)?;
    assert_eq!(rt; faults, Some(NO_FAULTS));
    Ok(())
}

/// The gate of three jobs where one waits for the two others to be asked for, and each of these for the one. Who waits too long is held.
#[derive(Drop)]
struct Triangle {
    waits_for_both: u32,
    asked: [AtomicBool; 3],
}

impl Gate for Triangle {
    ghost use Rattle.std.specs.Prelude.{⊤};

    ghost may_hold = { λ _ _. ⊤ };

    fn hold(&self, job: u32) -> bool {
        if let Some(mine) = self.asked.get(job as usize) {
            mine.store(true, Ordering::SeqCst);
        }
        let mut in_time = true;
        for (other, flag) in self.asked.iter().enumerate() {
            if job == self.waits_for_both || other == self.waits_for_both as usize {
                in_time = in_time && is_raised_in_time(flag);
            }
        }
        !in_time
    }
}

#[test]
fn who_is_free_takes_the_next_job(rt: HostRuntime) -> Result<(), Fail> {
    for waits_for_both in 0..2 {
        let gate = Triangle {
            waits_for_both,
            asked: [
                AtomicBool::new(false),
                AtomicBool::new(false),
                AtomicBool::new(false),
            ],
        };
        let faults = faults_at_the_lamp(&rt, 3, &gate)?;
        assert_eq!(rt;
            faults,
            Some(NO_FAULTS),
            "job {waits_for_both} waits for both others"
        );
    }
    Ok(())
}

/// Has a seat look whether the bench is shut, and then work until it is or three rounds found nothing. What it saw, why it ended, and the seat.
fn look_and_work(
    alloc: Global,
    bench: &Bench,
    mut seat: WorkerSeat,
    task: &CostedTask,
) -> (bool, Option<WorkFault>, WorkerSeat)
    requires seat { SitsAt bench.now seat }
    requires task { bench.now.setting.task.value ≡ task.now }
    ensures { SitsAt bench.now result.2 }
{
    let is_shut = seat.look(bench);
    let ended = work(alloc, bench, seat, task, &Open, 3);
    (is_shut, ended.refused, ended.seat)
}

/// Has a worker work at a bench without jobs, first while it is open and then after it is shut. For each time, whether the worker saw the bench shut,
/// and why it ended before its work was done, if it did.
fn work_before_and_after_shut(
    alloc: Global,
    task: &CostedTask,
) -> Result<[(bool, Option<WorkFault>); 2], AllocError> {
    let (bench, mut owner) = Bench::make(alloc, task, 1, 2)?;
    let seat = owner.seat(&bench);
    let (was_shut, idle, seat) = look_and_work(alloc, &bench, seat, task);
    owner.shut(&bench);
    let (is_shut, ended, _) = look_and_work(alloc, &bench, seat, task);
    Ok([(was_shut, idle), (is_shut, ended)])
}

/// What such a worker sees at a bench for the lamp.
fn work_at_the_lamp(alloc: Global) -> Result<[(bool, Option<WorkFault>); 2], ReadFault> {
    let task = lamp_1(alloc)?;
    let seen = work_before_and_after_shut(alloc, &task);
    discard(task);
    Ok(seen?)
}

#[test]
fn work_ends_once_the_bench_is_shut(rt: HostRuntime) -> Result<(), Fail> {
    let seen = work_at_the_lamp(rt.alloc())?;
    assert_eq!(rt; seen, [(false, Some(WorkFault::Idle)), (true, None)]);
    Ok(())
}
