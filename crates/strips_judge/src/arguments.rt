//! The arguments of a step: which objects they name, and whether these fit the action's parameters.
ghost use Rattle.std.specs.Prelude.{◌≡◌, ◌<◌, ◌≤◌, All, IfOk, IfNone, length};
ghost use Rattle.std.specs.List.{list_any, position_from, zip};
ghost use Rattle.strips_task.specs.StepView.{step_shown};
ghost use Rattle.strips_task.specs.Types.{is_below};
ghost use Rattle.strips_judge.specs.Fitting.{object_fits};
ghost use Rattle.strips_judge.specs.Step.{first_unknown, is_ill_typed, objects_named, argument_fault};

use crate::verdict::Why;
use std::alloc::AllocError;
use strips_task::{Action, Alternatives, StepView, Task};

/// Finds the objects that a step of an action names, or what is wrong with its arguments.
pub(crate) fn bind(
    task: &Task,
    action: &Action,
    step: StepView<'_>,
    objects: &mut Vec<u16>,
) -> Result<Option<Why>, AllocError>
    requires { length action.now.params ≤ 32 }
    ensures fault { IfOk result (λ why. why ≡ argument_fault task.now action.now (step_shown step.entry).args) }
    ensures bound { IfOk result (λ why. IfNone why (objects.new.items ≡ objects_named task.now (step_shown step.entry).args)) }
    ensures all { IfOk result (λ why. IfNone why (length objects.new.items ≡ length action.now.params)) }
{
    if step.arg_count() != action.params.len() {
        return Ok(Some(Why::WrongCount));
    }
    if let Some(arg) = find_objects(task, step, objects)? {
        return Ok(Some(Why::UnknownObject { arg }));
    }
    match first_ill_typed(task, action.params.as_slice(), objects.as_slice()) {
        Some(arg) => Ok(Some(Why::WrongType { arg })),
        None => Ok(None),
    }
}

/// Gathers the numbers of the objects that a step names, up to the first argument that names none. Returns which one that is, counted
/// from 1.
fn find_objects(
    task: &Task,
    step: StepView<'_>,
    objects: &mut Vec<u16>,
) -> Result<Option<u32>, AllocError>
    requires { length (step_shown step).args ≤ 32 }
    ensures unknown { IfOk result (λ arg. arg ≡ first_unknown task.now (step_shown step.entry).args) }
    ensures objects { IfOk result (λ arg. IfNone arg (objects.new.items ≡ objects_named task.now (step_shown step.entry).args)) }
    ensures all { IfOk result (λ arg. IfNone arg (length objects.new.items ≡ length (step_shown step.entry).args)) }
    ensures known { IfOk result (λ arg. IfNone arg (All (λ object. object < length task.now.objects) objects.new.items)) }
{
    objects.clear();
    for index in 0..step.arg_count() {
        match task.object_named(step.arg(index)) {
            Some(object) => objects.push(object)?,
            None => return Ok(Some(index as u32 + 1)),
        }
    }
    Ok(None)
}

/// The first object that does not fit the parameter beside it, counted from 1.
#[inline(always)]
pub fn first_ill_typed(task: &Task, params: &[Alternatives], objects: &[u16]) -> Option<u32>
    requires few { length params.now ≤ 32 }
    requires beside { length objects.now ≡ length params.now }
    requires known { All (λ object. object < length task.now.objects) objects.now }
    ensures { result ≡ position_from (is_ill_typed task.now) 1 (zip params.now objects.now) }
{
    for index in 0..params.len() {
        if !object_fits(task, params[index].as_slice(), objects[index]) {
            return Some(index as u32 + 1);
        }
    }
    None
}

/// Whether an object is of one of these types, or of one below them.
#[inline(always)]
pub(crate) fn object_fits(task: &Task, alternatives: &[u16], object: u16) -> bool
    requires { object < length task.now.objects }
    ensures { result ≡ object_fits task.now alternatives.now object }
{
    let object_type = task.object_type(object);
    match alternatives {
        [only] => task.is_subtype(object_type, *only),
        _ => is_below_one(task, object_type, alternatives),
    }
}

/// Whether a type is one of others, or below one of them.
#[inline(never)]
fn is_below_one(task: &Task, number: u16, others: &[u16]) -> bool
    requires { number < length task.now.parents }
    ensures { result ≡ list_any (is_below task.now.parents number) others.now }
{
    for other in others {
        if task.is_subtype(number, *other) {
            return true;
        }
    }
    false
}
