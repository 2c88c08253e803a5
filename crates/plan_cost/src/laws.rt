//! What follows from the definition of costs: each law is the contract of a function that does nothing.
ghost use Rattle.plan_cost.specs.Laws.{VerdictIgnoresCosts, CostsAddUp, IsSumOfAmounts, IsUndefinedByOne};

use crate::{CostedTask, Costs};
use strips_task::{Plan, StepList, Task};

/// The verdict that [`assess`](crate::assess) answers is that of the plan for the task without its costs.
pub fn verdict_ignores_costs(_task: &CostedTask, _plan: &Plan)
    ensures { VerdictIgnoresCosts _task.now _plan.now }
{}

/// What a list of steps costs is what its first steps cost, and the amounts that the others add.
pub fn costs_add_up(_task: &Task, _costs: &Costs, _first: &StepList, _others: &StepList)
    ensures { CostsAddUp _task.now _costs.now _first.now _others.now }
{}

/// If all amounts of the steps are defined, the cost is the initial value and their sum.
pub fn cost_is_a_sum(_task: &Task, _costs: &Costs, _steps: &StepList)
    ensures { IsSumOfAmounts _task.now _costs.now _steps.now }
{}

/// The cost is undefined exactly if one of the amounts is.
pub fn one_amount_makes_it_undefined(_task: &Task, _costs: &Costs, _steps: &StepList)
    ensures { IsUndefinedByOne _task.now _costs.now _steps.now }
{}
