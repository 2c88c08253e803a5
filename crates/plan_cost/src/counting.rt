//! The cost of a plan: one pass over its steps.
//!
//! A step takes one hash to find its action. If the action adds values of functions, it takes one more for each argument and one for each
//! such value. The list of objects and the ground function are used again for every step, so that steps take no memory of their own.
ghost use Rattle.std.specs.Prelude.{◌≡◌, ◌<◌, ◌≤◌, ◌*◌, ◌^◌, length, map, IfOk, IfSome, OnOk};
ghost use Rattle.strips_task.specs.StepView.{step_shown};
ghost use Rattle.strips_task.specs.declared.steps.StepText.{StepText};
ghost use Rattle.strips_task.specs.declared.tasks.TaskParts.{TaskParts};
ghost use Rattle.strips_judge.specs.Step.{objects_named};
ghost use Rattle.strips_judge.specs.StepNumbers.{IsNumbered};
ghost use Rattle.plan_cost.specs.CompactCosts.{IsCompact};
ghost use Rattle.plan_cost.specs.Costs.{amount_of, increases_of, step_amounts, sum_of, steps_cost, cost_answer, cost_of};
ghost use Rattle.strips_task.specs.Values.{initial_cost};

use crate::objects::{find_objects_for, ground};
use crate::{Amount, Cost, Costs, FunctionValues, MOST_INCREASES};
use std::alloc::{AllocError, Global};
use strips_task::{Atom, Plan, ShortSeq, StepList, StepView, Task};

/// What steps share, so that a step takes no memory of its own. No answer depends on what it holds.
pub struct CostScratch {
    objects: Vec<u16>,
    function: Atom,
}

impl Drop for CostScratch {
    fn drop(self) {
        let Self {
            objects: _,
            function: _,
        } = self;
    }
}

impl CostScratch {
    /// Takes no memory.
    pub fn new(alloc: Global) -> CostScratch {
        CostScratch {
            objects: Vec::new(alloc),
            function: Atom {
                pred: 0,
                args: ShortSeq::new(alloc),
            },
        }
    }
}

/// What a plan costs: the initial value of `total-cost` and the amounts of all increases of its steps, added up without rounding
/// (PDDL 2.1, Fox and Long 2003, section 4).
///
/// It does not judge the plan: a plan that is not valid has a cost too, but that cost means nothing. An unreadable plan gives
/// [`Cost::NotCounted`].
pub fn plan_cost(alloc: Global, task: &Task, costs: &Costs, plan: &Plan) -> Result<Cost, AllocError>
    ensures cost { IfOk result (λ answer. answer ≡ cost_of task.now costs.now plan.now) }
    ensures compact { IfOk result IsCompact }
{
    match plan {
        Plan::Steps(steps) => Ok(match steps_cost(alloc, task, costs, steps)? {
            Some(cost) => Cost::Billionths(cost),
            None => Cost::Undefined,
        }),
        Plan::Unreadable { .. } => Ok(Cost::NotCounted),
    }
}

fn steps_cost(
    alloc: Global,
    task: &Task,
    costs: &Costs,
    steps: &StepList,
) -> Result<Option<u128>, AllocError>
    ensures cost { IfOk result (λ cost. cost ≡ steps_cost task.now costs.now steps.now) }
    ensures small { IfOk result (λ cost. IfSome cost (λ sum. sum < 2 ^ 127)) }
{
    let mut scratch = CostScratch::new(alloc);
    let mut sum = u128::from(costs.initial_cost(alloc));
    for index in 0..steps.len() {
        match step_cost(task, costs, steps.get(index), &mut scratch)? {
            Some(cost) => sum += cost,
            None => return Ok(None),
        }
    }
    Ok(Some(sum))
}

/// What a step adds to the total cost, or `None` if that is undefined. Takes no memory except for functions of many arguments.
pub fn step_cost(
    task: &Task,
    costs: &Costs,
    step: StepView<'_>,
    scratch: &mut CostScratch,
) -> Result<Option<u128>, AllocError>
    ensures cost { IfOk result (λ cost. cost ≡ sum_of (step_amounts task.now costs.now (step_shown step.entry))) }
    ensures small { IfOk result (λ cost. IfSome cost (λ sum. sum ≤ MOST_INCREASES * 2 ^ 64)) }
{
    let amounts = increases_of(task, costs, step.action());
    find_objects_for(amounts, task, step, &mut scratch.objects)?;
    let objects = scratch.objects.as_slice();
    sum_of(amounts, &costs.values, objects, &mut scratch.function)
}

/// What the step with these numbers, that of its action and then those of its objects, adds to the total cost, or `None` if that is undefined.
/// Takes no memory except for functions of many arguments.
pub fn numbered_cost(
    costs: &Costs,
    numbers: &[u16],
    scratch: &mut CostScratch,
) -> Result<Option<u128>, AllocError>
    ensures cost { IfOk result (λ cost. (parts : TaskParts) (step : StepText) → IsNumbered parts step numbers.now
        → cost ≡ sum_of (step_amounts parts costs.now step)) }
    ensures small { IfOk result (λ cost. IfSome cost (λ sum. sum ≤ MOST_INCREASES * 2 ^ 64)) }
{
    let [action, objects @ ..] = numbers else {
        return Ok(None);
    };
    let sum = sum_of(
        costs.increases_of(*action),
        &costs.values,
        objects,
        &mut scratch.function,
    )?;
    Ok(sum)
}

/// The increases of the action that a word names.
fn increases_of<'c>(task: &Task, costs: &'c Costs, word: &[u8]) -> &'c [Amount]
    ensures amounts { result.now ≡ increases_of task.now costs.now word.now }
    ensures few { length result.now ≤ MOST_INCREASES }
{
    match task.action_named(word) {
        Some(action) => costs.increases_of(action),
        None => &[],
    }
}

/// The sum of amounts, where the parameters stand for these objects, if all are defined.
fn sum_of(
    amounts: &[Amount],
    values: &FunctionValues,
    objects: &[u16],
    function: &mut Atom,
) -> Result<Option<u128>, AllocError>
    requires { length amounts.now ≤ MOST_INCREASES }
    ensures sum { IfOk result (λ sum. sum ≡ sum_of (map (amount_of values.now objects.now) amounts.now)) }
    ensures small { IfOk result (λ sum. IfSome sum (λ sum. sum ≤ MOST_INCREASES * 2 ^ 64)) }
{
    let mut sum = 0;
    for amount in amounts {
        match amount_of(amount, values, objects, function)? {
            Some(amount) => sum += u128::from(amount),
            None => return Ok(None),
        }
    }
    Ok(Some(sum))
}

/// An amount, where the parameters stand for these objects, if it is defined.
fn amount_of(
    amount: &Amount,
    values: &FunctionValues,
    objects: &[u16],
    atom: &mut Atom,
) -> Result<Option<u64>, AllocError>
    ensures { IfOk result (λ value. value ≡ amount_of values.now objects.now amount.now) }
{
    match amount {
        Amount::Number(number) => Ok(Some(*number)),
        Amount::Function { function, terms } => {
            ground(*function, terms.as_slice(), objects, atom)?;
            Ok(values.value_of(atom))
        }
    }
}
