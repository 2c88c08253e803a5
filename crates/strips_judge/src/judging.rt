//! The judge: it takes the steps of a plan one after the other, and stops at the first that is not applicable.
//!
//! The action of a step and its objects are found by the bytes of their names, and then the step is tested and applied. The list of objects and
//! the one ground atom are used again for every step, and memory is taken only for an atom that becomes true for the first time.
ghost use Rattle.std.specs.Prelude.{◌≡◌, All, IfOk, IfNone, Some, [], length, map};
ghost use Rattle.formulas.specs.Grounding.{with_objects};
ghost use Rattle.formulas.specs.Within.{IsWithin};
ghost use Rattle.strips_task.specs.StepView.{step_shown};
ghost use Rattle.strips_task.specs.Within.{IsActionWithin};
ghost use Rattle.strips_judge.specs.NumberedState.{Grows, state_of};
ghost use Rattle.strips_judge.specs.State.{is_in};
ghost use Rattle.strips_judge.specs.Step.{objects_named, missing, missing_why, hindrance, after_by, after};
ghost use Rattle.strips_judge.specs.StepNumbers.{action_hindrance};
ghost use Rattle.strips_judge.specs.Verdict.{goal_verdict, verdict_from, verdict};

use crate::arguments::bind;
use crate::conditions::missing;
use crate::effects::{Arguments, apply};
use crate::scratch::{Room, Scratch};
use crate::state::NumberedState;
use crate::task_index::TaskIndex;
use crate::unmet::Unmet;
use crate::verdict::{Verdict, Why};
use std::alloc::{AllocError, Global};
use strips_task::{Action, Formula, Plan, StepList, StepView, Task};

/// How many cells there are for atoms of one object while one plan is judged: up to 128 KiB.
const MOST_CELLS: usize = 32_768;

/// Whether a plan is valid for a task, and if not, why (PDDL 2.1, Fox and Long 2003, section 6).
///
/// Takes memory for one bit for each initial atom, for atoms that become true later, and for the conditions that do not hold at the end.
pub fn judge(alloc: Global, task: &Task, plan: &Plan) -> Result<Verdict, AllocError>
    ensures { IfOk result (λ answer. answer ≡ verdict task.now plan.now) }
{
    match plan {
        Plan::Steps(steps) => judge_steps(alloc, &TaskIndex::new(alloc, task)?, steps),
        Plan::Unreadable { line } => Ok(Verdict::Unreadable { line: *line }),
    }
}

fn judge_steps(alloc: Global, task: &TaskIndex<'_>, steps: &StepList) -> Result<Verdict, AllocError>
    ensures { IfOk result (λ answer. answer ≡ verdict_from task.now 0 (is_in task.now.init) steps.now) }
{
    let objects = task.task().object_count();
    let initial = task.task().initial_atoms();
    let mut state = NumberedState::new(alloc, initial, objects, MOST_CELLS)?;
    let mut scratch = Scratch::new(alloc);
    for index in 0..steps.len() {
        if let Some(why) = take_step(alloc, task, steps.get(index), &mut state, &mut scratch)? {
            return Ok(Verdict::Fails {
                step: index as u32 + 1,
                why,
            });
        }
    }
    judge_goal(alloc, task, &mut state, &mut scratch, steps.len() as u32)
}

/// The verdict of a plan whose steps were all taken and lead to this state. Takes memory for the conditions that do not hold.
#[tactic(auto, using(crate::proofs::StepLaws::none_put_in))]
pub fn judge_goal(
    alloc: Global,
    task: &TaskIndex<'_>,
    state: &mut NumberedState<'_>,
    scratch: &mut Scratch,
    steps: u32,
) -> Result<Verdict, AllocError>
    ensures verdict { IfOk result (λ answer. answer ≡ goal_verdict steps (missing task.now (state_of state.old) task.now.goal)) }
    ensures same { state.new ≡ state.old }
{
    let goal = task.task().goal().as_slice();
    let missing = missing(alloc, task, state, goal, &[], &mut scratch.room)?;
    if missing.is_empty() {
        Ok(Verdict::Valid { steps })
    } else {
        Ok(Verdict::Goal {
            missing: Unmet::new(alloc, missing)?,
        })
    }
}

/// Takes a step if it is applicable, and otherwise returns why it is not. If memory runs out, some of its effects may have happened.
///
/// Takes one hash for each of its words and for each of its atoms, and memory for atoms that have no number yet.
pub fn take_step(
    alloc: Global,
    task: &TaskIndex<'_>,
    step: StepView<'_>,
    state: &mut NumberedState<'_>,
    scratch: &mut Scratch,
) -> Result<Option<Why>, AllocError>
    ensures grows { Grows state.old state.new }
    ensures why { IfOk result (λ why. why ≡ hindrance task.now (state_of state.old) (step_shown step.entry)) }
    ensures next { IfOk result (λ why. IfNone why (state_of state.new ≡ after task.now (state_of state.old) (step_shown step.entry))) }
{
    match task.task().action_named(step.action()) {
        Some(number) => {
            let action = task.task().action(number);
            take_action(alloc, task, action, step, state, scratch)
        }
        None => Ok(Some(Why::UnknownAction)),
    }
}

/// Takes a step of an action if it is applicable, and otherwise returns why it is not.
fn take_action(
    alloc: Global,
    task: &TaskIndex<'_>,
    action: &Action,
    step: StepView<'_>,
    state: &mut NumberedState<'_>,
    scratch: &mut Scratch,
) -> Result<Option<Why>, AllocError>
    requires { IsActionWithin (length task.now.parents) action.now }
    ensures grows { Grows state.old state.new }
    ensures why { IfOk result (λ why. why ≡ action_hindrance task.now (state_of state.old) action.now (step_shown step.entry).args) }
    ensures next { IfOk result (λ why. IfNone why (state_of state.new
        ≡ after_by task.now (objects_named task.now (step_shown step.entry).args) (state_of state.old) (Some action.now))) }
{
    if let Some(why) = hindrance(alloc, task, action, step, state, scratch)? {
        return Ok(Some(why));
    }
    let objects = scratch.objects.as_slice();
    let arguments = Arguments { task, objects };
    apply(
        alloc,
        arguments,
        state,
        action,
        &mut scratch.room,
        &mut scratch.changes,
    )?;
    Ok(None)
}

/// Why a step of an action is not applicable, if it is not. Otherwise its objects are in the room.
#[inline(always)]
fn hindrance(
    alloc: Global,
    task: &TaskIndex<'_>,
    action: &Action,
    step: StepView<'_>,
    state: &mut NumberedState<'_>,
    scratch: &mut Scratch,
) -> Result<Option<Why>, AllocError>
    requires { IsActionWithin (length task.now.parents) action.now }
    ensures why { IfOk result (λ why. why ≡ action_hindrance task.now (state_of state.old) action.now (step_shown step.entry).args) }
    ensures bound { IfOk result (λ why. IfNone why (scratch.new.objects.items ≡ objects_named task.now (step_shown step.entry).args)) }
    ensures all { IfOk result (λ why. IfNone why (length scratch.new.objects.items ≡ length action.now.params)) }
    ensures same { state.new ≡ state.old }
{
    if let Some(why) = bind(task.task(), action, step, &mut scratch.objects)? {
        return Ok(Some(why));
    }
    let objects = scratch.objects.as_slice();
    let conditions = action.pre.as_slice();
    why_missing(alloc, task, state, conditions, objects, &mut scratch.room)
}

/// Why a step with these objects is not applicable, if some of these conditions do not hold.
#[inline(always)]
fn why_missing(
    alloc: Global,
    task: &TaskIndex<'_>,
    state: &mut NumberedState<'_>,
    conditions: &[Formula],
    objects: &[u16],
    room: &mut Room,
) -> Result<Option<Why>, AllocError>
    requires { All (IsWithin (length objects.now) 0) conditions.now }
    ensures why { IfOk result (λ why. why ≡ missing_why (missing task.now (state_of state.old) (map (with_objects objects.now []) conditions.now))) }
    ensures same { state.new ≡ state.old }
{
    let unmet = missing(alloc, task, state, conditions, objects, room)?;
    if unmet.is_empty() {
        return Ok(None);
    }
    Ok(Some(Why::Missing(Unmet::new(alloc, unmet)?)))
}
