//! Which action passes the limit of bindings, or whether the goal does.
ghost use Rattle.std.specs.Prelude.{◌≡◌, IfOk};
ghost use Rattle.task_reader.specs.Bindings.{action_quantifiers, excess, goal_excess, variable_past};

use crate::bindings::{NOTHING_COUNTED, add_effects, add_formulas};
use crate::objects::ObjectCounts;
use formulas::Formula;
use std::alloc::{AllocError, Global};
use strips_task::{Action, Task};

/// Whose quantifiers pass the limit.
#[derive(Clone, Copy, Debug, PartialEq, Eq)]
pub enum Whose {
    /// Those of the action with this number.
    Action(u16),
    /// Those of the goal.
    Goal,
}

/// Where the limit of bindings is passed.
#[derive(Clone, Copy, Debug, PartialEq, Eq)]
pub struct Excess {
    /// Whose quantifiers pass it.
    pub whose: Whose,
    /// The index of the variable with which they do, among all their variables: those of an outer quantifier come before those of one inside it, those of a precondition
    /// before those of an effect, and those of a condition before those of what depends on it. It is counted up to 2^64 - 1.
    pub variable: u64,
}

/// The first action with more than 16,777,216 bindings of its quantifiers, in the order of the text, or else the goal if it has more, and the variable with which that
/// is so (this validator's choice).
///
/// Goes once over the objects, and then over the conditions and effects of the actions, and over the goal. A variable takes a read of a table, or a test for each
/// of its types and each type of the task if it has several.
pub fn first_excess(alloc: Global, task: &Task) -> Result<Option<Excess>, AllocError>
    ensures { IfOk result (λ found. found ≡ excess task.now) }
{
    let counts = ObjectCounts::new(alloc, task)?;
    'actions: for number in 0..task.action_count() as u16 {
        if let Some(variable) = past_in_action(&counts, task.action(number)) {
            let whose = Whose::Action(number);
            return Ok(Some(Excess { whose, variable }));
        }
    }
    Ok(goal_excess(&counts, task.goal().as_slice()))
}

/// The index of the variable with which an action passes the limit, if it does.
fn past_in_action(counts: &ObjectCounts<'_>, action: &Action) -> Option<u64>
    ensures { result ≡ variable_past (action_quantifiers counts.now.tally.task.now action.now) }
{
    let tally = match add_formulas(counts, NOTHING_COUNTED, 1, action.pre.as_slice()) {
        Ok(tally) => tally,
        Err(variable) => return Some(variable),
    };
    match add_effects(counts, tally, 1, action.effects.as_slice()) {
        Ok(_) => None,
        Err(variable) => Some(variable),
    }
}

/// Where the goal passes the limit, if it does.
fn goal_excess(counts: &ObjectCounts<'_>, goal: &[Formula]) -> Option<Excess>
    requires { goal.now ≡ counts.now.tally.task.now.goal }
    ensures { result ≡ goal_excess counts.now.tally.task.now }
{
    match add_formulas(counts, NOTHING_COUNTED, 1, goal) {
        Ok(_) => None,
        Err(variable) => Some(Excess {
            whose: Whose::Goal,
            variable,
        }),
    }
}
