//! A plan's verdict, and what it costs.
ghost use Rattle.std.specs.Prelude.{◌≡◌, IfOk};
ghost use Rattle.plan_cost.specs.Assessments.{assessment, cost_beside};
ghost use Rattle.plan_cost.specs.CompactCosts.{IsCompact};

use crate::counting::plan_cost;
use crate::{Cost, CostedTask};
use std::alloc::{AllocError, Global};
use strips_judge::{Verdict, judge};
use strips_task::Plan;

/// What is found about a plan.
#[derive(Drop)]
pub struct Assessment {
    /// Whether the plan is valid, and if not, why.
    pub verdict: Verdict,
    /// What it costs.
    pub cost: Cost,
}

/// Judges a plan, and adds up what it costs if it is valid and the task counts costs.
pub fn assess(alloc: Global, task: &CostedTask, plan: &Plan) -> Result<Assessment, AllocError>
    ensures answer { IfOk result (λ answer. answer ≡ assessment task.now plan.now) }
    ensures compact { IfOk result (λ answer. IsCompact answer.cost) }
{
    let verdict = judge(alloc, &task.task, plan)?;
    let cost = match (&task.costs, &verdict) {
        (Some(costs), Verdict::Valid { .. }) => plan_cost(alloc, &task.task, costs, plan)?,
        _ => Cost::NotCounted,
    };
    Ok(Assessment { verdict, cost })
}
