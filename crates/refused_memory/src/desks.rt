//! A desk that is made, and steps that are replayed.

use crate::seen::{Seen, Stop, refused_if, whole_if};
use crate::tasks::{Found, LIT_TWICE, discard, found_in, lamp};
use crate::texts::STEPS;
use intake_core::{Desk, Finding, Refusal, ReplayFault, Reply, StepsToRun, replay};
use plan_cost::CostedTask;
use std::alloc::Global;
use steps_text::{StepsRefusal, read_steps};

/// A desk is made, and has no job.
pub(crate) fn desk_row(alloc: Global) -> Seen {
    let task = lamp(alloc)?;
    let seen = made(alloc, &task);
    discard(task);
    seen
}

/// Makes a desk. Whether it has no job.
fn made(alloc: Global, task: &CostedTask) -> Seen {
    let desk = Desk::make(alloc, task, 1, 2)?;
    whole_if(desk.job(0).is_none())
}

/// Steps are read and replayed.
pub(crate) fn replay_row(alloc: Global) -> Seen {
    let task = lamp(alloc)?;
    let seen = read_and_replayed(alloc, &task);
    discard(task);
    seen
}

/// Reads steps and replays them.
fn read_and_replayed(alloc: Global, task: &CostedTask) -> Seen {
    match read_steps(alloc, STEPS) {
        Ok(read) => replayed(alloc, task, read.steps),
        Err(StepsRefusal::OutOfMemory) => Err(Stop::Refused),
        Err(StepsRefusal::Fault(_)) => Err(Stop::Wrong),
    }
}

/// Replays steps. If that is refused memory, the replies are the first ones.
fn replayed(alloc: Global, task: &CostedTask, steps: StepsToRun) -> Seen {
    match replay(alloc, task, 1, 2, steps) {
        Ok(replies) => whole_if(are_first(replies.as_slice()) && replies.as_slice().len() == 12),
        Err(ReplayFault::OutOfMemory { replies }) => refused_if(are_first(replies.as_slice())),
    }
}

/// Whether these are the first replies to the steps.
fn are_first(replies: &[Reply]) -> bool {
    for (index, reply) in replies.iter().enumerate() {
        if !is_reply(index, reply) {
            return false;
        }
    }
    true
}

/// Whether this is the reply to the step with an index.
fn is_reply(index: usize, reply: &Reply) -> bool {
    match (index, reply) {
        (0, Reply::Accepted(0)) => true,
        (1, Reply::Accepted(1)) => true,
        (2, Reply::Taken(0)) => true,
        (3, Reply::Taken(1)) => true,
        (4, Reply::Finished) => true,
        (5, Reply::Refused(Refusal::NotReady(0))) => true,
        (6, Reply::Finished) => true,
        (7, Reply::Emitted(finding)) => valid_job(finding) == Some(0),
        (8, Reply::Emitted(finding)) => fails(finding, 1),
        (9, Reply::NoJob) => true,
        (10, Reply::ClosedNow) => true,
        (11, Reply::Refused(Refusal::Complete)) => true,
        _ => false,
    }
}

/// The job of a finding, if the finding says that its plan is valid and has one step.
pub(crate) fn valid_job(finding: &Finding) -> Option<u32> {
    if found_in(&finding.verdict) == (Found::Valid { steps: 1 }) {
        Some(finding.job.number)
    } else {
        None
    }
}

/// Whether a finding says that the plan of this job finds the lamp lit at its second step.
fn fails(finding: &Finding, job: u32) -> bool {
    finding.job.number == job && found_in(&finding.verdict) == LIT_TWICE
}
