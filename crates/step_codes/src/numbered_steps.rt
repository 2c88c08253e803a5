//! Steps that are known by the numbers of their names.
//!
//! What a step asks and does depends only on its action and its objects, so with their numbers none of its words is needed. Why a step is not
//! applicable is not said here: the judge explains it at most once for each plan, by its words.
ghost use Rattle.std.specs.Prelude.{◌≡◌, [], length, map, false, None, Some, IfOk, IfSome, IsTrue, All};
ghost use Rattle.formulas.specs.Grounding.{with_objects};
ghost use Rattle.formulas.specs.Within.{IsWithin};
ghost use Rattle.strips_task.specs.declared.steps.StepText.{StepText};
ghost use Rattle.strips_task.specs.Within.{IsActionWithin};
ghost use Rattle.step_codes.specs.Codes.{IsCode};
ghost use Rattle.strips_judge.specs.NumberedState.{Grows, state_of};
ghost use Rattle.strips_judge.specs.Step.{action_named, after, fault, hindrance, missing, objects_named};
ghost use Rattle.strips_judge.specs.StepNumbers.{AreWithin, IsNumbered};

use crate::codes::{CodeBuffer, code_of_action};
use std::alloc::{AllocError, Global};
use strips_judge::{
    Arguments, NumberedState, Room, Scratch, TaskIndex, apply, first_ill_typed, holds,
};
use strips_task::{Action, Formula};

/// Takes the step with these numbers if it is applicable, and otherwise leaves the state as it is. Returns whether it did. If memory runs out, some
/// of its effects may have happened.
///
/// Takes one read of memory for each atom that was looked up before, a few more for each other one, and memory for atoms that have no number yet.
#[inline(always)]
pub fn take_numbered(
    alloc: Global,
    task: &TaskIndex<'_>,
    numbers: &[u16],
    state: &mut NumberedState<'_>,
    scratch: &mut Scratch,
) -> Result<bool, AllocError>
    requires { AreWithin task.now numbers.now }
    ensures grows { Grows state.old state.new }
    ensures taken { IfOk result (λ taken. IsTrue taken → (step : StepText) → IsNumbered task.now step numbers.now
        → (hindrance task.now (state_of state.old) step ≡ None) × (state_of state.new ≡ after task.now (state_of state.old) step)) }
    ensures not { IfOk result (λ taken. taken ≡ false → state_of state.new ≡ state_of state.old) }
{
    let Some((action, objects)) = bound(task, numbers) else {
        return Ok(false);
    };
    let conditions = action.pre.as_slice();
    if !all_hold(task, state, conditions, objects, &mut scratch.room)? {
        return Ok(false);
    }
    let arguments = Arguments { task, objects };
    apply(
        alloc,
        arguments,
        state,
        action,
        &mut scratch.room,
        &mut scratch.changes,
    )?;
    Ok(true)
}

/// Puts the code of the step with these numbers into a buffer, and returns whether the step has one. Its atoms get numbers if they have none,
/// and stay true or false.
///
/// If there is no code, or memory runs out, the buffer may hold part of one.
pub fn code_of_numbered(
    alloc: Global,
    task: &TaskIndex<'_>,
    numbers: &[u16],
    state: &mut NumberedState<'_>,
    scratch: &mut Scratch,
    code: &mut CodeBuffer,
) -> Result<bool, AllocError>
    requires { AreWithin task.now numbers.now }
    ensures code { IfOk result (λ found. IsTrue found → (step : StepText) → IsNumbered task.now step numbers.now
        → IsCode task.now state.new.atoms step code.new) }
    ensures state { state_of state.new ≡ state_of state.old }
    ensures grows { Grows state.old state.new }
{
    let Some((action, objects)) = bound(task, numbers) else {
        return Ok(false);
    };
    let arguments = Arguments { task, objects };
    let found = code_of_action(alloc, arguments, action, state, &mut scratch.room, code)?;
    Ok(found)
}

/// The action and the objects with these numbers, if the objects fit its parameters.
#[inline(always)]
fn bound<'t, 'n>(task: &TaskIndex<'t>, numbers: &'n [u16]) -> Option<(&'t Action, &'n [u16])>
    requires { AreWithin task.now numbers.now }
    ensures named { IfSome result (λ found. (step : StepText) → IsNumbered task.now step numbers.now
        → action_named task.now step.action ≡ Some found.0.now) }
    ensures faultless { IfSome result (λ found. (step : StepText) → IsNumbered task.now step numbers.now → fault task.now step ≡ None) }
    ensures objects { IfSome result (λ found. (step : StepText) → IsNumbered task.now step numbers.now
        → found.1.now ≡ objects_named task.now step.args) }
    ensures within { IfSome result (λ found. IsActionWithin (length task.now.parents) found.0.now) }
    ensures all { IfSome result (λ found. length found.1.now ≡ length found.0.now.params) }
{
    let [number, objects @ ..] = numbers else {
        return None;
    };
    let task = task.task();
    let action = task.action(*number);
    if objects.len() != action.params.len() {
        return None;
    }
    match first_ill_typed(task, action.params.as_slice(), objects) {
        Some(_) => None,
        None => Some((action, objects)),
    }
}

/// Whether all conditions of an action with these objects hold.
#[inline(always)]
fn all_hold(
    task: &TaskIndex<'_>,
    state: &mut NumberedState<'_>,
    conditions: &[Formula],
    objects: &[u16],
    room: &mut Room,
) -> Result<bool, AllocError>
    requires { All (IsWithin (length objects.now) 0) conditions.now }
    ensures none { IfOk result (λ all. IsTrue all → missing task.now (state_of state.old) (map (with_objects objects.now []) conditions.now) ≡ []) }
    ensures same { state.new ≡ state.old }
{
    for condition in conditions {
        if !holds(task, state, condition, objects, room)? {
            return Ok(false);
        }
    }
    Ok(true)
}
