//! What the answers of a judge mean: each law is the contract of a function that does nothing.
ghost use Rattle.text_judge.specs.History.{LastChangesAreEffects};

use plan_cost::CostedTask;

/// The last step that changed an atom made it what it is at the end: if it is true, the step adds it; if it is false, the step deletes it and does
/// not add it.
pub fn last_changes_are_effects(_task: &CostedTask)
    ensures { LastChangesAreEffects _task.now.task }
{}
