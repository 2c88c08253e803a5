//! The replay over texts: a domain, a problem and steps in, the lines of the answers out.
//!
//! [`replay_bytes`] reads the domain and the problem as [`judge_bytes`](crate::engine::judge_bytes) does, reads the steps, runs them on a new
//! desk, and makes the lines of its answers.
ghost use Rattle.std.specs.Prelude.{◌≡◌, ◌≢◌, ◌≤◌, ◌⊎◌, length, IfNone, IfOk, IfErr, Some, None, Err};
ghost use Rattle.steps_text.specs.StepsTexts.{steps_text};
ghost use Rattle.steps_text.specs.Telling.{value_of};
ghost use Rattle.judge_engine.specs.ReplayAnswer.{IsLawfulReplay, replay_answer, replay_answer_in, replay_of, replies_to, too_large_for_replay, ReplayCallsFor, ReplayCallsForIn};
ghost use Rattle.judge_engine.specs.ReplayText.{reply_lines};
ghost use Rattle.judge_engine.specs.declared.fault.JudgeFault.TheVariants.{OutOfMemory, Steps};

use crate::engine::read_task;
use crate::fault::{Input, JudgeFault};
use crate::inlet::FILE_LIMIT;
use crate::replies::text_of;
use crate::report::Report;
use intake_core::{ReplayFault, replay};
use pddl_reader::Dialect;
use plan_cost::CostedTask;
use std::alloc::{AllocError, Global};
use steps_text::{StepsRefusal, StepsText, read_steps};
use strips_task::Seed;

/// The lines that a new desk answers to the steps of a text, for the task of a domain text and a problem text in the default dialect:
/// [`replay_bytes_in`] with [`Dialect::Strips`].
pub fn replay_bytes(
    alloc: Global,
    seed: Seed,
    domain: &[u8],
    problem: &[u8],
    steps: &[u8],
) -> Result<Report, JudgeFault>
    ensures answer { IfOk result (λ report. replay_answer domain.now problem.now steps.now ≡ Some report) }
    ensures lawful { IfOk result (IsLawfulReplay Dialect.Strips domain.now problem.now steps.now) }
    ensures refusal { IfErr result (λ fault. fault ≢ OutOfMemory → replay_answer domain.now problem.now steps.now ≡ None) }
    ensures cause { IfErr result (λ fault. fault ≢ OutOfMemory → ReplayCallsFor domain.now problem.now steps.now fault) }
{
    replay_bytes_in(alloc, seed, Dialect::Strips, domain, problem, steps)
}

/// The lines that a new desk answers to the steps of a text, for the task of a domain text and a problem text, both in this dialect.
///
/// All texts are read before a step is run, and all lines are made before anything is written. Tables of names and atoms hash with the
/// seed; the lines do not depend on it. If there are no lines, the fault is the first in the order of `JudgeFault`. Running out
/// of memory can be reported instead of any fault but that a text is too large.
#[tactic(auto, using(crate::proofs::ReplayAnswers::too_large_text, crate::proofs::ReplayAnswers::no_task, crate::proofs::ReplayAnswers::of_task, crate::proofs::ReplayAnswers::faulty_steps, crate::proofs::ReplayAnswers::lawful_replay))]
pub fn replay_bytes_in(
    alloc: Global,
    seed: Seed,
    dialect: Dialect,
    domain: &[u8],
    problem: &[u8],
    steps: &[u8],
) -> Result<Report, JudgeFault>
    ensures answer { IfOk result (λ report. replay_answer_in dialect domain.now problem.now steps.now ≡ Some report) }
    ensures lawful { IfOk result (IsLawfulReplay dialect domain.now problem.now steps.now) }
    ensures refusal { IfErr result (λ fault. fault ≢ OutOfMemory → replay_answer_in dialect domain.now problem.now steps.now ≡ None) }
    ensures cause { IfErr result (λ fault. fault ≢ OutOfMemory → ReplayCallsForIn dialect domain.now problem.now steps.now fault) }
{
    match too_large(domain, problem, steps) {
        Some(large) => Err(JudgeFault::TooLarge(large)),
        None => match read_task(alloc, seed, dialect, domain, problem) {
            Ok(task) => match replay_for(alloc, task, steps) {
                Ok(report) => Ok(report),
                Err(fault) => Err(fault),
            },
            Err(fault) => Err(fault),
        },
    }
}

/// The first input that is over the limit of a file.
#[tactic(auto, unfolding(crate::specs::ReplayAnswer::too_large_for_replay))]
fn too_large(domain: &[u8], problem: &[u8], steps: &[u8]) -> Option<Input>
    ensures first { result ≡ too_large_for_replay domain.now problem.now steps.now }
    ensures within { IfNone result (length steps.now ≤ 16777216) }
{
    if domain.len() > FILE_LIMIT {
        return Some(Input::Domain);
    }
    if problem.len() > FILE_LIMIT {
        return Some(Input::Problem);
    }
    if steps.len() > FILE_LIMIT {
        return Some(Input::Steps);
    }
    None
}

/// The lines that a new desk for a task answers to the steps of a text. The task is dropped.
fn replay_for(alloc: Global, task: CostedTask, steps: &[u8]) -> Result<Report, JudgeFault>
    requires { length steps.now ≤ 16777216 }
    ensures answer { IfOk result (λ report. replay_of task (steps_text steps.now) ≡ Some report) }
    ensures fault { IfErr result (λ fault. (fault ≡ OutOfMemory) ⊎ ((e : _) × (fault ≡ Steps e) × (steps_text steps.now ≡ Err e))) }
{
    replay_text(alloc, &task, steps)
}

/// The lines that a new desk for a task answers to the steps of a text.
fn replay_text(alloc: Global, task: &CostedTask, steps: &[u8]) -> Result<Report, JudgeFault>
    requires { length steps.now ≤ 16777216 }
    ensures answer { IfOk result (λ report. replay_of task.now (steps_text steps.now) ≡ Some report) }
    ensures fault { IfErr result (λ fault. (fault ≡ OutOfMemory) ⊎ ((e : _) × (fault ≡ Steps e) × (steps_text steps.now ≡ Err e))) }
{
    match read_steps(alloc, steps) {
        Ok(read) => match lines_of(alloc, task, read) {
            Ok(report) => Ok(report),
            Err(error) => Err(JudgeFault::from(error)),
        },
        Err(StepsRefusal::Fault(fault)) => Err(JudgeFault::Steps(fault)),
        Err(StepsRefusal::OutOfMemory) => Err(JudgeFault::OutOfMemory),
    }
}

/// The lines that a new desk for a task answers to steps.
fn lines_of(alloc: Global, task: &CostedTask, read: StepsText) -> Result<Report, AllocError>
    requires planners { read.planners ≤ 64 }
    requires slots { read.slots ≤ 65536 }
    ensures { IfOk result (λ report. report ≡ reply_lines task.now.task (replies_to task.now (value_of read))) }
{
    let StepsText {
        planners,
        slots,
        steps,
    } = read;
    match replay(alloc, task, planners, slots, steps) {
        Ok(replies) => {
            let text = text_of(alloc, &task.task, &replies)?;
            Ok(Report::from_bytes(text.into_bytes()))
        }
        Err(ReplayFault::OutOfMemory { .. }) => Err(AllocError),
    }
}
