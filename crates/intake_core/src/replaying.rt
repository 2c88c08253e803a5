//! The replay: a list of steps is run on a new desk.
ghost use Rattle.std.specs.Prelude.{◌≡◌, ◌≤◌, ◌+◌, IfOk, IfErr, take, length, map, OnOk, option_map, slice_get};
ghost use Rattle.intake_rules.specs.Rules.{finish};
ghost use Rattle.intake_core.specs.Asked.{asked};
ghost use Rattle.intake_core.specs.Faults.{so_far};
ghost use Rattle.intake_core.specs.Replays.{event_of, replayed, replies_of, history_of, Headline};
ghost use Rattle.intake_rules.specs.Findings.{right_finding};
ghost use Rattle.intake_core.specs.State.{desk_reply, desk_after};

use crate::Desk;
use intake_rules::{Finding, Refusal, Reply};
use plan_cost::CostedTask;
use std::alloc::{AllocError, Global};
use std::collections::VecDeque;
use std::sync::Arc;
use strips_judge::{Plan, Seq};

/// What is asked of a desk.
#[derive(Drop)]
pub enum Step {
    /// A plan of a planner is handed in.
    Submit {
        /// Whose plan it is.
        planner: u32,
        /// The plan.
        plan: Arc<Plan>,
    },
    /// A planner is closed.
    Close {
        /// Which one.
        planner: u32,
    },
    /// The least job that waits is asked for.
    Take,
    /// A job is handed back.
    HandBack {
        /// The number of the job.
        job: u32,
    },
    /// A finding is handed in for a job.
    Finish {
        /// The number of the job that it is handed in for.
        job: u32,
        /// The number of the job whose finding it is.
        of: u32,
    },
    /// The next finding of a planner is asked for.
    Emit {
        /// Which planner's.
        planner: u32,
    },
}

/// The steps of a replay, in order.
pub type StepsToRun = Seq<Step>;

/// The replies of a replay, in the order of its steps.
pub type ReplyList = Seq<Reply>;

/// Why a replay ended early.
#[derive(Drop)]
pub enum ReplayFault {
    /// Memory ran out: while the desk was made, while a finding was judged, or while the replies grew.
    OutOfMemory {
        /// The replies to the first steps.
        replies: ReplyList,
    },
}

/// Runs the steps on a new desk, one after another. For a [`Finish`](Step::Finish), the job `of` is judged first, and its finding is then handed in
/// for `job`. If no job has the number `of`, the step is refused with [`UnknownJob`](Refusal::UnknownJob).
pub fn replay(
    alloc: Global,
    task: &CostedTask,
    planners: u32,
    slots: u32,
    steps: StepsToRun,
) -> Result<ReplyList, ReplayFault>
    requires planners { planners ≤ 64 }
    requires slots { slots ≤ 65536 }
    ensures replies { IfOk result (λ replies. replies ≡ replies_of (history_of task.now planners slots (map asked steps))) }
    ensures fault { IfErr result (λ fault. so_far fault ≡ take (length (so_far fault)) (replies_of (history_of task.now planners slots (map asked steps)))) }
    ensures headline { Headline task.now planners slots (history_of task.now planners slots (map asked steps)) }
{
    match Desk::make(alloc, task, planners, slots) {
        Err(AllocError) => Err(ReplayFault::OutOfMemory {
            replies: Seq::new(alloc),
        }),
        Ok(desk) => {
            let mut left = VecDeque::from_vec(steps.into_vec());
            answer_all(alloc, task, desk, &mut left)
        }
    }
}

/// Takes the steps out, one after another, and runs them on a desk. If memory runs out, it does so for the step that was taken out last: all that
/// were taken out before it have their replies.
fn answer_all(
    alloc: Global,
    task: &CostedTask,
    mut desk: Desk,
    left: &mut VecDeque<Step>,
) -> Result<ReplyList, ReplayFault>
    requires { desk.task ≡ task.now }
    ensures replies { IfOk result (λ replies. replies ≡ replies_of (replayed desk (map asked left.old.items))) }
    ensures fault { IfErr result (λ fault. so_far fault ≡ take (length (so_far fault)) (replies_of (replayed desk (map asked left.old.items)))) }
    ensures all { IfErr result (λ fault. length (so_far fault) + 1 + length left.new.items ≡ length left.old.items) }
{
    let mut replies = Seq::new(alloc);
    while let Some(step) = left.pop_front() {
        let Ok(reply) = answer(alloc, task, &mut desk, step) else {
            return Err(ReplayFault::OutOfMemory { replies });
        };
        if replies.push(reply).is_err() {
            return Err(ReplayFault::OutOfMemory { replies });
        }
    }
    Ok(replies)
}

/// Runs one step on a desk.
fn answer(
    alloc: Global,
    task: &CostedTask,
    desk: &mut Desk,
    step: Step,
) -> Result<Reply, AllocError>
    requires { desk.old.task ≡ task.now }
    ensures reply { IfOk result (λ reply. reply ≡ desk_reply desk.old (event_of desk.old (asked step))) }
    ensures state { OnOk result (desk.new ≡ desk_after desk.old (event_of desk.old (asked step)) (desk_reply desk.old (event_of desk.old (asked step)))) }
{
    Ok(match step {
        Step::Submit { planner, plan } => match desk.submit(planner, plan) {
            Ok(number) => Reply::Accepted(number),
            Err(refused) => Reply::Refused(refused.refusal),
        },
        Step::Close { planner } => match desk.close(planner) {
            Ok(()) => Reply::ClosedNow,
            Err(refusal) => Reply::Refused(refusal),
        },
        Step::Take => match desk.take() {
            Some(number) => Reply::Taken(number),
            None => Reply::NoJob,
        },
        Step::HandBack { job } => match desk.hand_back(job) {
            Ok(()) => Reply::Returned,
            Err(refusal) => Reply::Refused(refusal),
        },
        Step::Finish { job, of } => return answer_finish(alloc, task, desk, job, of),
        Step::Emit { planner } => match desk.emit(planner) {
            Ok(finding) => Reply::Emitted(finding),
            Err(refusal) => Reply::Refused(refusal),
        },
    })
}

/// Hands in the finding of the job `of` for `job`.
fn answer_finish(
    alloc: Global,
    task: &CostedTask,
    desk: &mut Desk,
    job: u32,
    of: u32,
) -> Result<Reply, AllocError>
    requires { desk.old.task ≡ task.now }
    ensures reply { IfOk result (λ reply. reply ≡ desk_reply desk.old (finish job (option_map (right_finding desk.old.task) (slice_get desk.old.intake.jobs of)))) }
    ensures state { OnOk result (desk.new ≡ desk_after desk.old (finish job (option_map (right_finding desk.old.task) (slice_get desk.old.intake.jobs of))) (desk_reply desk.old (finish job (option_map (right_finding desk.old.task) (slice_get desk.old.intake.jobs of))))) }
{
    let Some(judged) = desk.job(of) else {
        return Ok(Reply::Refused(Refusal::UnknownJob));
    };
    let finding = Finding::judge(alloc, task, judged)?;
    match desk.finish(job, finding) {
        Ok(()) => Ok(Reply::Finished),
        Err(refused) => Ok(Reply::Refused(refused.refusal)),
    }
}
