//! The objects of a step, and the ground functions of its amounts.
ghost use Rattle.std.specs.Prelude.{◌≡◌, ℕ, List, [], map, OnOk};
ghost use Rattle.std.specs.List.{list_all};
ghost use Rattle.strips_task.specs.StepView.{step_shown};
ghost use Rattle.formulas.specs.Meaning.{object_of};
ghost use Rattle.strips_judge.specs.Step.{objects_named};
ghost use Rattle.plan_cost.specs.Costs.{amount_of};
ghost use Rattle.plan_cost.specs.Amounts.{is_number};

use crate::Amount;
use std::alloc::AllocError;
use strips_task::{Atom, StepView, Task, Term};

/// Gathers the objects that a step names, if one of the amounts is the value of a function: numbers do not ask for them.
pub(crate) fn find_objects_for(
    amounts: &[Amount],
    task: &Task,
    step: StepView<'_>,
    objects: &mut Vec<u16>,
) -> Result<(), AllocError>
    ensures { OnOk result ((values : List (Atom × ℕ)) → map (amount_of values objects.new.items) amounts.now
        ≡ map (amount_of values (objects_named task.now (step_shown step.entry).args)) amounts.now) }
{
    if are_numbers(amounts) {
        return Ok(());
    }
    find_objects(task, step, objects)
}

/// Whether no amount is the value of a function.
fn are_numbers(amounts: &[Amount]) -> bool
    ensures { result ≡ list_all is_number amounts.now }
{
    amounts
        .iter()
        .all(|amount| matches!(amount, Amount::Number(_)))
}

/// Gathers the objects that a step names, with one hash for each of its words.
fn find_objects(task: &Task, step: StepView<'_>, objects: &mut Vec<u16>) -> Result<(), AllocError>
    ensures { OnOk result (objects.new.items ≡ objects_named task.now (step_shown step.entry).args) }
{
    objects.clear();
    for index in 0..step.arg_count() {
        if let Some(object) = task.object_named(step.arg(index)) {
            objects.push(object)?;
        }
    }
    Ok(())
}

/// Makes an atom the ground function with these terms. A parameter without an object stands for object 0, and so does a bound variable; a valid plan has
/// none, if the terms speak of parameters of the action.
pub(crate) fn ground(
    function: u16,
    terms: &[Term],
    objects: &[u16],
    atom: &mut Atom,
) -> Result<(), AllocError>
    ensures { OnOk result (atom.new ≡ record { pred = function; args = map (object_of objects.now []) terms.now }) }
{
    atom.pred = function;
    atom.args.clear();
    for term in terms {
        let object = match term {
            Term::Param(index) => objects.get(*index as usize).copied().unwrap_or(0),
            Term::Bound(_) => 0,
            Term::Object(object) => *object,
        };
        atom.args.push(object)?;
    }
    Ok(())
}
