//! What the reasons in a verdict mean, in the words of PDDL: each law is the contract of a function that does nothing.
//!
//! ```text
//! pub fn missed_goals_name_the_unmet(_task: &Task, _plan: &Plan)
//!     ensures { GoalNamesTheUnmet _task.now _plan.now }
//! {}
//! ```
//!
//! The prover accepts this function only if `GoalNamesTheUnmet` holds of every task and plan. That is the law, and `specs/Reasons.antt` defines
//! it: if the verdict is `Goal`, the conditions that it names are exactly those of the goal that do not hold at the end of the plan, each once.
//!
//! That a verdict names the right step, or that the goal is missed, is a law of [`laws`](crate::laws). The laws here say that the reason is right, too:
//! the fault of the step, or exactly the conditions that do not hold in the state in which the step is taken.
//!
//! No program calls these functions.

ghost use Rattle.strips_judge.specs.Reasons.{GoalNamesTheUnmet, FailsNamesTheReason};

use strips_task::{Plan, Task};

/// If the verdict is that a plan [`Fails`](crate::Verdict::Fails) at a step, the reason that it names is right: the step has that fault, or
/// it has none, and the verdict names exactly those conditions of its precondition that do not hold in the state to which the steps before it lead,
/// each once.
pub fn failures_name_the_reason(_task: &Task, _plan: &Plan)
    ensures { FailsNamesTheReason _task.now _plan.now }
{}

/// If the verdict is that a plan misses its [`Goal`](crate::Verdict::Goal), it names exactly those conditions of the goal that do not hold in
/// the state to which the steps of the plan lead, each once.
pub fn missed_goals_name_the_unmet(_task: &Task, _plan: &Plan)
    ensures { GoalNamesTheUnmet _task.now _plan.now }
{}
