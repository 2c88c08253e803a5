//! The task and the plan of these tests, and flags that are waited for.

ghost use Rattle.std.specs.Prelude.{◌≡◌, IfOk};

use intake_rules::SubmittedPlan;
use judge_bench::Submission;
use pddl_reader::{ReadFault, Seed, read_domain, read_problem};
use plan_cost::CostedTask;
use plan_text::read_plan;
use std::alloc::{AllocError, Global};
use std::sync::Arc;
use std::sync::atomic::{AtomicBool, Ordering};
use strips_judge::Verdict;

const LAMP: &[u8] = b"(define (domain lamp)
  (:predicates (lit) (dark))
  (:action light
    :precondition (dark)
    :effect (and (lit) (not (dark)))))
";

const LAMP_1: &[u8] = b"(define (problem lamp-1) (:domain lamp) (:init (dark)) (:goal (lit)))
";

/// The task of the lamp that is dark, which counts no costs.
pub(crate) fn lamp_1(alloc: Global) -> Result<CostedTask, ReadFault> {
    let task = read_problem(alloc, read_domain(alloc, Seed::fixed(), LAMP)?, LAMP_1)?;
    Ok(CostedTask { task, costs: None })
}

/// Drops a task. The prover takes some fifteen seconds for each function that drops one, so the others leave it to this one.
pub(crate) fn discard(_task: CostedTask) {}

/// The plan of the first planner that lights the lamp.
pub(crate) fn light(alloc: Global) -> Result<Submission, AllocError>
    ensures { IfOk result (λ plan. plan.planner ≡ 0) }
{
    let plan = read_plan(alloc, b"(light)\n")?;
    Ok(Submission {
        planner: 0,
        plan: SubmittedPlan::from_plan(Arc::new(alloc, plan)?),
    })
}

/// How many steps a plan has, if it is valid.
pub(crate) fn steps_if_valid(verdict: &Verdict) -> Option<u32> {
    match verdict {
        Verdict::Valid { steps } => Some(*steps),
        _ => None,
    }
}

/// Whether a flag is raised before it was checked two billion times, which takes a second or more: the thread that raises it may have to wait for a
/// processor.
pub(crate) fn is_raised_in_time(flag: &AtomicBool) -> bool {
    for _ in 0..2_000_000_000u32 {
        if flag.load(Ordering::SeqCst) {
            return true;
        }
    }
    false
}
