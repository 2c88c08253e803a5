//! What steps add to the cost of a plan.
ghost use Rattle.std.specs.Prelude.{◌≡◌, ◌+◌, ◌*◌, ◌^◌, ◌<◌, ◌≤◌, [], Some, IfOk, unwrap_or};
ghost use Rattle.strips_task.specs.declared.steps.StepText.{StepText};
ghost use Rattle.strips_task.specs.StepView.{step_shown};
ghost use Rattle.strips_judge.specs.StepNumbers.{IsNumbered};
ghost use Rattle.plan_cost.specs.CompactCosts.{IsCompact};
ghost use Rattle.plan_cost.specs.Costs.{added};
ghost use Rattle.text_judge.specs.Judging.{IsCostSoFar, cost_by};
ghost use Rattle.text_judge.specs.Learned.{IsAmount};

use plan_cost::{Cost, CostScratch, CostedTask, Costs, numbered_cost, step_cost};
use std::alloc::{AllocError, Global};
use strips_judge::Verdict;
use strips_task::StepView;

/// What the cost of a plan begins with, in billionths: 0 if the task counts no costs.
pub(crate) fn initial_of(alloc: Global, task: &CostedTask) -> u64
    ensures { IsCostSoFar task.now.task task.now.costs [] (Some result) }
{
    match &task.costs {
        Some(costs) => costs.initial_cost(alloc),
        None => 0,
    }
}

/// What a step adds to the cost, or `None` if that is undefined: 0 if the task counts no costs.
pub(crate) fn amount_of(
    task: &CostedTask,
    step: StepView<'_>,
    scratch: &mut CostScratch,
) -> Result<Option<u128>, AllocError>
    ensures amount { IfOk result (λ amount. IsAmount task.now.task task.now.costs (step_shown step.entry) amount) }
    ensures small { IfOk result (λ amount. unwrap_or amount 0 ≤ 32 * 2 ^ 64) }
{
    match &task.costs {
        Some(costs) => step_cost(&task.task, costs, step, scratch),
        None => Ok(Some(0)),
    }
}

/// What the step with these numbers adds to the cost, or `None` if that is undefined: 0 if the task counts no costs.
pub(crate) fn numbered_amount(
    task: &CostedTask,
    numbers: &[u16],
    scratch: &mut CostScratch,
) -> Result<Option<u128>, AllocError>
    ensures amount { IfOk result (λ amount. (step : StepText) → IsNumbered task.now.task step numbers.now
        → IsAmount task.now.task task.now.costs step amount) }
    ensures small { IfOk result (λ amount. unwrap_or amount 0 ≤ 32 * 2 ^ 64) }
{
    match &task.costs {
        Some(costs) => numbered_cost(costs, numbers, scratch),
        None => Ok(Some(0)),
    }
}

/// The sum of two amounts, undefined if one of them is.
fn added(cost: Option<u128>, amount: Option<u128>) -> Option<u128>
    requires { unwrap_or cost 0 + unwrap_or amount 0 < 2 ^ 128 }
    ensures sum { result ≡ added cost amount }
    ensures small { unwrap_or result 0 ≤ unwrap_or cost 0 + unwrap_or amount 0 }
{
    match (cost, amount) {
        (Some(cost), Some(amount)) => Some(cost + amount),
        _ => None,
    }
}

/// Adds an amount to a cost, which becomes undefined if the amount is. Nothing is written for an amount of 0, which is that of each step of a task without
/// costs.
#[inline(always)]
pub(crate) fn raise(cost: &mut Option<u128>, amount: Option<u128>)
    requires { unwrap_or cost.old 0 + unwrap_or amount 0 < 2 ^ 128 }
    ensures sum { cost.new ≡ added cost.old amount }
    ensures small { unwrap_or cost.new 0 ≤ unwrap_or cost.old 0 + unwrap_or amount 0 }
{
    match amount {
        Some(0) => {}
        _ => *cost = added(*cost, amount),
    }
}

/// The cost that goes with a verdict, if `cost` is what the plan costs when it is valid.
pub(crate) fn cost_beside(costs: &Option<Costs>, verdict: &Verdict, cost: Option<u128>) -> Cost
    requires { unwrap_or cost 0 < 2 ^ 127 }
    ensures cost { result ≡ cost_by costs.now verdict.now cost }
    ensures compact { IsCompact result }
{
    match (costs, verdict) {
        (Some(_), Verdict::Valid { .. }) => match cost {
            Some(cost) => Cost::Billionths(cost),
            None => Cost::Undefined,
        },
        _ => Cost::NotCounted,
    }
}
