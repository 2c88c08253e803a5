//! Runs over intakes. That plans are judged while others still come in is shown by an intake that waits until the first plan is asked for.

ghost use Rattle.std.specs.Option.{option_to_list};
ghost use Rattle.std.specs.Prelude.{◌++◌, IfOk};
ghost use Rattle.bench_tests.specs.Plans.{AreOfFirstPlanner};

use crate::lamp::{discard, is_raised_in_time, lamp_1, light, steps_if_valid};
use judge_bench::{Findings, Gate, Intake, RunFault, Submission, run};
use pddl_reader::ReadFault;
use plan_cost::CostedTask;
use std::alloc::{AllocError, Global};
use std::sync::Wait;
use std::sync::atomic::{AtomicBool, Ordering};
use std::test::Fail;
use std::thread::Threads;

/// The gate that holds no job, and raises a flag when it is asked of job 0.
#[derive(Drop)]
struct Watched {
    asked_of_0: AtomicBool,
}

impl Gate for Watched {
    ghost may_hold = { λ _ _. ⊥ };

    fn hold(&self, job: u32) -> bool {
        if job == 0 {
            self.asked_of_0.store(true, Ordering::SeqCst);
        }
        false
    }
}

/// The intake of two plans. It gives the second when the flag is raised, or if that takes too long.
#[derive(Drop)]
struct Late<'a> {
    first: Option<Submission>,
    second: Option<Submission>,
    asked_of_0: &'a AtomicBool,
    /// Whether the flag was raised before the second plan was given.
    was_asked: bool,
}

impl Intake for Late<'_> {
    ghost use Rattle.std.specs.Prelude.{◌++◌};
    ghost use Rattle.std.specs.Option.{option_to_list};

    ghost to_come = { λ it. option_to_list it.first ++ option_to_list it.second };

    fn next(&mut self) -> Result<Option<Submission>, AllocError> {
        if let Some(first) = self.first.take() {
            return Ok(Some(first));
        }
        if self.second.is_some() {
            self.was_asked = is_raised_in_time(self.asked_of_0);
        }
        Ok(self.second.take())
    }
}

/// What the findings of a run are about.
#[derive(Clone, Copy, Debug, PartialEq, Eq)]
enum Found {
    /// Two plans of one planner, and how many steps each has if it is valid.
    TwoOfOne([Option<u32>; 2]),
    /// A number of planners other than one.
    Planners(usize),
    /// One planner, with a number of plans other than two.
    Plans(usize),
}

/// Two plans of one planner, both valid and of one step.
const BOTH_VALID: Found = Found::TwoOfOne([Some(1), Some(1)]);

/// Sums up findings as a value that can be compared.
fn summary(findings: &Findings) -> Found {
    let planners = findings.planners();
    if planners != 1 {
        return Found::Planners(planners);
    }
    let plans = findings.plans(0);
    if plans != 2 {
        return Found::Plans(plans);
    }
    let first = steps_if_valid(&findings.get(0, 0).verdict);
    let second = steps_if_valid(&findings.get(0, 1).verdict);
    Found::TwoOfOne([first, second])
}

/// The intake of two plans that light the lamp, the second of which waits for the flag.
fn two_with_a_pause(alloc: Global, asked_of_0: &AtomicBool) -> Result<Late<'_>, AllocError>
    ensures { IfOk result (λ intake. AreOfFirstPlanner 2 (option_to_list intake.first ++ option_to_list intake.second)) }
{
    Ok(Late {
        first: Some(light(alloc)?),
        second: Some(light(alloc)?),
        asked_of_0,
        was_asked: false,
    })
}

/// What comes of the plans of such an intake, with two workers.
fn run_late<G: Gate + Sync>(
    rt: &(impl AllocGlobal + Threads + Wait + Sync),
    task: &CostedTask,
    intake: &mut Late<'_>,
    gate: &G,
) -> Result<Findings, RunFault>
    requires { AreOfFirstPlanner 2 (option_to_list intake.old.first ++ option_to_list intake.old.second) }
{
    run(rt, rt.alloc(), task, 1, 2, intake, 2, gate)
}

/// What two workers find while such an intake goes on, if they end, and whether job 0 was asked for before the second plan came.
fn judge_late(
    rt: &(impl AllocGlobal + Threads + Wait + Sync),
    task: &CostedTask,
) -> Result<(Option<Found>, bool), AllocError> {
    let gate = Watched {
        asked_of_0: AtomicBool::new(false),
    };
    let mut intake = two_with_a_pause(rt.alloc(), &gate.asked_of_0)?;
    let found = match run_late(rt, task, &mut intake, &gate) {
        Ok(findings) => Some(summary(&findings)),
        Err(_) => None,
    };
    Ok((found, intake.was_asked))
}

/// The same for plans that light the lamp.
fn judge_late_at_the_lamp(
    rt: &(impl AllocGlobal + Threads + Wait + Sync),
) -> Result<(Option<Found>, bool), ReadFault> {
    let task = lamp_1(rt.alloc())?;
    let seen = judge_late(rt, &task);
    discard(task);
    Ok(seen?)
}

#[test]
fn judges_while_the_intake_goes_on(rt: HostRuntime) -> Result<(), Fail> {
    let (found, was_asked) = judge_late_at_the_lamp(&rt)?;
    assert_eq!(rt; found, Some(BOTH_VALID));
    assert!(rt; was_asked, "job 0 was taken before the second plan came");
    Ok(())
}

/// The gate that holds each of two jobs, job 0 only once job 1 was asked for or that takes too long.
#[derive(Drop)]
struct HoldsBoth {
    asked_of_0: AtomicBool,
    asked_of_1: AtomicBool,
}

impl Gate for HoldsBoth {
    ghost use Rattle.std.specs.Prelude.{⊤};

    ghost may_hold = { λ _ _. ⊤ };

    fn hold(&self, job: u32) -> bool {
        if job == 0 {
            self.asked_of_0.store(true, Ordering::SeqCst);
            let _ = is_raised_in_time(&self.asked_of_1);
        } else {
            self.asked_of_1.store(true, Ordering::SeqCst);
        }
        true
    }
}

/// Why two workers find nothing if each ends for a held job, and whether job 0 was asked for before the second plan came. Then the worker with a
/// thread of its own has job 0, and since it waits there, the calling thread has job 1.
fn both_are_held(
    rt: &(impl AllocGlobal + Threads + Wait + Sync),
    task: &CostedTask,
) -> Result<(Option<RunFault>, bool), AllocError> {
    let gate = HoldsBoth {
        asked_of_0: AtomicBool::new(false),
        asked_of_1: AtomicBool::new(false),
    };
    let mut intake = two_with_a_pause(rt.alloc(), &gate.asked_of_0)?;
    let fault = match run_late(rt, task, &mut intake, &gate) {
        Ok(_) => None,
        Err(fault) => Some(fault),
    };
    Ok((fault, intake.was_asked))
}

/// The same for plans that light the lamp.
fn both_are_held_at_the_lamp(
    rt: &(impl AllocGlobal + Threads + Wait + Sync),
) -> Result<(Option<RunFault>, bool), ReadFault> {
    let task = lamp_1(rt.alloc())?;
    let seen = both_are_held(rt, &task);
    discard(task);
    Ok(seen?)
}

#[test]
fn the_job_of_the_worker_that_was_started_first_is_told(rt: HostRuntime) -> Result<(), Fail> {
    let (fault, was_asked) = both_are_held_at_the_lamp(&rt)?;
    assert!(rt; was_asked, "job 0 was taken before the second plan came");
    assert_eq!(rt; fault, Some(RunFault::Held(0)));
    Ok(())
}
