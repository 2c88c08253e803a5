//! When two plans are the same: by their content, whatever follows the words of the last step in a list.
//!
//! Steps hold words in lower case, so words are compared byte by byte.
ghost use Rattle.std.specs.Prelude.{◌≡◌};
ghost use Rattle.std.specs.Cmp.{partial_equiv_from_equiv};
ghost use Rattle.std.specs.Cmp.Lexicographic.{pointwise};
ghost use Rattle.std.specs.Str.{bytes_eq};
ghost use Rattle.strips_task.specs.Plans.{plan_eq};
ghost use Rattle.strips_task.specs.PlanEquality.{plans_equivalence};
ghost use Rattle.strips_task.specs.StepView.{step_shown};
ghost use Rattle.strips_task.specs.Steps.{step_eq};
ghost use Rattle.strips_task.specs.StepEquality.{steps_equivalence};

use crate::{Plan, StepList, StepView};

impl PartialEq for Plan {
    ghost eq = { plan_eq };

    ghost laws = { partial_equiv_from_equiv plans_equivalence };

    fn eq(&self, other: &Plan) -> bool {
        match (self, other) {
            (Plan::Steps(steps), Plan::Steps(others)) => steps == others,
            (Plan::Unreadable { line }, Plan::Unreadable { line: other_line }) => {
                line == other_line
            }
            _ => false,
        }
    }
}

impl Eq for Plan {
    ghost laws = { plans_equivalence };
}

impl PartialEq for StepList {
    ghost eq = { pointwise step_eq };

    ghost laws = { partial_equiv_from_equiv steps_equivalence };

    fn eq(&self, other: &StepList) -> bool {
        have_same_steps(self, other)
    }
}

impl Eq for StepList {
    ghost laws = { steps_equivalence };
}

/// Whether two plans have the same steps.
fn have_same_steps(first: &StepList, second: &StepList) -> bool
    ensures { result ≡ pointwise step_eq first.now second.now }
{
    if first.len() != second.len() {
        return false;
    }
    for index in 0..first.len() {
        if !are_same(first.get(index), second.get(index)) {
            return false;
        }
    }
    true
}

/// Whether two steps have the same action and the same arguments.
fn are_same(first: StepView<'_>, second: StepView<'_>) -> bool
    ensures { result ≡ step_eq (step_shown first.entry) (step_shown second.entry) }
{
    first.action() == second.action() && have_same_args(first, second)
}

/// Whether two steps have the same arguments.
fn have_same_args(first: StepView<'_>, second: StepView<'_>) -> bool
    ensures { result ≡ pointwise bytes_eq (step_shown first.entry).args (step_shown second.entry).args }
{
    if first.arg_count() != second.arg_count() {
        return false;
    }
    for index in 0..first.arg_count() {
        if first.arg(index) != second.arg(index) {
            return false;
        }
    }
    true
}
