//! What a verdict means, in the words of PDDL: each law is the contract of a function that does nothing.
ghost use Rattle.strips_judge.specs.Laws.{ValidMeansValid, FailsMeansFirstFailure, GoalMeansGoalMissed};

use strips_task::{Plan, Task};

/// A plan is judged [`Valid`](crate::Verdict::Valid) if and only if it is valid: it was read, its steps have a run from the initial state, and
/// the goal holds in the run's last state. The verdict's number is that of its steps.
pub fn valid_means_valid(_task: &Task, _plan: &Plan)
    ensures { ValidMeansValid _task.now _plan.now }
{}

/// A plan is judged to [`Fail`](crate::Verdict::Fails) at a step if and only if that is the first one that is not applicable: the steps before
/// it have a run from the initial state, and it is not applicable in the run's last state.
pub fn fails_means_first_failure(_task: &Task, _plan: &Plan)
    ensures { FailsMeansFirstFailure _task.now _plan.now }
{}

/// A plan is judged to miss its [`Goal`](crate::Verdict::Goal) if and only if its steps have a run from the initial state, and the goal does
/// not hold in the run's last state.
pub fn goal_means_goal_missed(_task: &Task, _plan: &Plan)
    ensures { GoalMeansGoalMissed _task.now _plan.now }
{}
