//! What an action does to a state: first it deletes, then it adds, so an atom that is deleted and added is true afterwards.
//!
//! What effects under `when` and `forall` change depends on the state before the step. So their changes are gathered before the first change is made.
ghost use Rattle.std.specs.Prelude.{◌≡◌, ◌+◌, ◌≤◌, [], drop, length, map, All, Some, IfOk, OnOk};
ghost use Rattle.formulas.specs.Meaning.{atom_of};
ghost use Rattle.formulas.specs.Variables.{variable_types};
ghost use Rattle.formulas.specs.Within.{IsPatternWithin, IsEffectWithin};
ghost use Rattle.strips_judge.specs.Gathered.{GathersMore, choices_found, effect_found, effects_found, kept, only_added, only_deleted};
ghost use Rattle.strips_judge.specs.Grounding.{ground};
ghost use Rattle.strips_judge.specs.NumberedState.{Grows, state_of};
ghost use Rattle.strips_judge.specs.State.{without, with_all};
ghost use Rattle.strips_judge.specs.Step.{after_by};

use crate::evaluation::{evaluate, have_objects, types_of};
use crate::numbers::{clear_all, set_all};
use crate::scratch::{Changes, Room};
use crate::state::NumberedState;
use crate::task_index::TaskIndex;
use std::alloc::{AllocError, Global};
use strips_task::{Action, Atom, Effect, EffectNode, Pattern, VariableGroup};

/// What the parameters of an action stand for in a task.
#[derive(Clone, Copy)]
pub struct Arguments<'a, 't> {
    /// The task.
    pub task: &'a TaskIndex<'t>,
    /// The objects, in the order of the parameters.
    pub objects: &'a [u16],
}

/// An effect under `forall`, with its variables.
#[derive(Clone, Copy)]
pub struct Quantified<'e> {
    /// The variables.
    pub groups: &'e [VariableGroup],
    /// The effect for each choice of objects for them.
    pub body: &'e Effect,
}

/// Changes a state as an action with these objects does.
#[inline(always)]
pub fn apply(
    alloc: Global,
    arguments: Arguments<'_, '_>,
    state: &mut NumberedState<'_>,
    action: &Action,
    room: &mut Room,
    changes: &mut Changes,
) -> Result<(), AllocError>
    requires deletes { All (IsPatternWithin (length arguments.objects.now) 0) action.now.del }
    requires adds { All (IsPatternWithin (length arguments.objects.now) 0) action.now.add }
    requires effects { All (IsEffectWithin (length arguments.objects.now) 0) action.now.effects }
    ensures grows { Grows state.old state.new }
    ensures state { OnOk result (state_of state.new ≡ after_by arguments.entry.task.now arguments.entry.objects.now (state_of state.old) (Some action.now)) }
{
    if !action.effects.is_empty() {
        return apply_gathered(alloc, arguments, state, action, room, changes);
    }
    let Arguments { task: _, objects } = arguments;
    let atom = &mut room.atom;
    remove_all(state, action.del.as_slice(), objects, atom)?;
    insert_all(alloc, state, action.add.as_slice(), objects, atom)
}

/// Changes a state as an action with these objects does, some of whose effects depend on the state.
#[inline(never)]
fn apply_gathered(
    alloc: Global,
    arguments: Arguments<'_, '_>,
    state: &mut NumberedState<'_>,
    action: &Action,
    room: &mut Room,
    changes: &mut Changes,
) -> Result<(), AllocError>
    requires deletes { All (IsPatternWithin (length arguments.objects.now) 0) action.now.del }
    requires adds { All (IsPatternWithin (length arguments.objects.now) 0) action.now.add }
    requires effects { All (IsEffectWithin (length arguments.objects.now) 0) action.now.effects }
    ensures grows { Grows state.old state.new }
    ensures state { OnOk result (state_of state.new ≡ after_by arguments.entry.task.now arguments.entry.objects.now (state_of state.old) (Some action.now)) }
{
    let objects = arguments.objects;
    room.bound.clear();
    changes.clear();
    gather_all(
        alloc,
        arguments,
        state,
        action.effects.as_slice(),
        room,
        changes,
    )?;
    remove_all(state, action.del.as_slice(), objects, &mut room.atom)?;
    clear_all(state, changes.deleted.as_slice());
    insert_all(alloc, state, action.add.as_slice(), objects, &mut room.atom)?;
    set_all(state, changes.added.as_slice());
    Ok(())
}

#[inline(always)]
fn remove_all(
    state: &mut NumberedState<'_>,
    patterns: &[Pattern],
    objects: &[u16],
    atom: &mut Atom,
) -> Result<(), AllocError>
    requires { All (IsPatternWithin (length objects.now) 0) patterns.now }
    ensures grows { Grows state.old state.new }
    ensures state { OnOk result (state_of state.new ≡ without (state_of state.old) (map (ground objects.now) patterns.now)) }
{
    for pattern in patterns {
        state.remove(pattern, objects, &[], atom)?;
    }
    Ok(())
}

#[inline(always)]
fn insert_all(
    alloc: Global,
    state: &mut NumberedState<'_>,
    patterns: &[Pattern],
    objects: &[u16],
    atom: &mut Atom,
) -> Result<(), AllocError>
    requires { All (IsPatternWithin (length objects.now) 0) patterns.now }
    ensures grows { Grows state.old state.new }
    ensures state { OnOk result (state_of state.new ≡ with_all (state_of state.old) (map (ground objects.now) patterns.now)) }
{
    for pattern in patterns {
        state.insert(alloc, pattern, objects, &[], atom)?;
    }
    Ok(())
}

/// Gathers the changes of effects, with the objects in `room` for the variables bound around them. No atom becomes true or false.
#[cycle(gather)]
fn gather_all(
    alloc: Global,
    arguments: Arguments<'_, '_>,
    state: &mut NumberedState<'_>,
    effects: &[Effect],
    room: &mut Room,
    changes: &mut Changes,
) -> Result<(), AllocError>
    requires { All (IsEffectWithin (length arguments.objects.now) (length room.old.bound.items)) effects.now }
    ensures state { state_of state.new ≡ state_of state.old }
    ensures grows { Grows state.old state.new }
    ensures bound { OnOk result (room.new.bound.items ≡ room.old.bound.items) }
    ensures gathered { OnOk result (GathersMore (state_of state.old) state.old.atoms state.new.atoms (kept changes.old) (kept changes.new)
        (effects_found arguments.entry.task.now (state_of state.old) arguments.entry.objects.now room.old.bound.items effects.now)) }
{
    for effect in effects {
        gather(alloc, arguments, state, effect, room, changes)?;
    }
    Ok(())
}

/// Gathers the changes of an effect.
#[cycle(gather)]
fn gather(
    alloc: Global,
    arguments: Arguments<'_, '_>,
    state: &mut NumberedState<'_>,
    effect: &Effect,
    room: &mut Room,
    changes: &mut Changes,
) -> Result<(), AllocError>
    requires { IsEffectWithin (length arguments.objects.now) (length room.old.bound.items) effect.now }
    ensures state { state_of state.new ≡ state_of state.old }
    ensures grows { Grows state.old state.new }
    ensures bound { OnOk result (room.new.bound.items ≡ room.old.bound.items) }
    ensures gathered { OnOk result (GathersMore (state_of state.old) state.old.atoms state.new.atoms (kept changes.old) (kept changes.new)
        (effect_found arguments.entry.task.now (state_of state.old) arguments.entry.objects.now room.old.bound.items effect.now)) }
{
    match effect.node() {
        EffectNode::Atom(true, pattern) => {
            gather_added(alloc, arguments.objects, state, pattern, room, changes)
        }
        EffectNode::Atom(false, pattern) => {
            gather_deleted(arguments.objects, state, pattern, room, changes)
        }
        EffectNode::And(parts) => gather_all(alloc, arguments, state, parts, room, changes),
        EffectNode::When(condition, body) => {
            if !evaluate(arguments.task, state, condition, arguments.objects, room)? {
                return Ok(());
            }
            gather(alloc, arguments, state, body, room, changes)
        }
        EffectNode::ForAll(groups, body) => {
            if !have_objects(arguments.task, groups.as_slice()) {
                return Ok(());
            }
            let quantified = Quantified {
                groups: groups.as_slice(),
                body,
            };
            gather_choices(alloc, arguments, state, quantified, 0, room, changes)
        }
    }
}

/// Gathers the changes of an effect for every choice of objects for its variables from this one on.
#[cycle(gather)]
fn gather_choices(
    alloc: Global,
    arguments: Arguments<'_, '_>,
    state: &mut NumberedState<'_>,
    quantified: Quantified<'_>,
    first: usize,
    room: &mut Room,
    changes: &mut Changes,
) -> Result<(), AllocError>
    requires bound { first ≤ length room.old.bound.items }
    requires within { IsEffectWithin (length arguments.objects.now) (length room.old.bound.items + length (drop first (variable_types quantified.groups.now))) quantified.body.now }
    ensures state { state_of state.new ≡ state_of state.old }
    ensures grows { Grows state.old state.new }
    ensures bound { OnOk result (room.new.bound.items ≡ room.old.bound.items) }
    ensures gathered { OnOk result (GathersMore (state_of state.old) state.old.atoms state.new.atoms (kept changes.old) (kept changes.new)
        (choices_found arguments.entry.task.now (state_of state.old) arguments.entry.objects.now quantified.entry.body.now (drop first (variable_types quantified.entry.groups.now)) room.old.bound.items)) }
{
    let Some(types) = types_of(quantified.groups, first) else {
        return gather(alloc, arguments, state, quantified.body, room, changes);
    };
    let candidates = arguments.task.candidates(types);
    for index in 0..candidates.len() {
        let object = candidates.get(index);
        if arguments.task.object_fits(types, object) {
            room.bound.push(object)?;
            gather_choices(
                alloc,
                arguments,
                state,
                quantified,
                first + 1,
                room,
                changes,
            )?;
            room.bound.pop();
        }
    }
    Ok(())
}

/// Gathers that the atom of a pattern becomes true.
fn gather_added(
    alloc: Global,
    objects: &[u16],
    state: &mut NumberedState<'_>,
    pattern: &Pattern,
    room: &mut Room,
    changes: &mut Changes,
) -> Result<(), AllocError>
    requires { IsPatternWithin (length objects.now) (length room.old.bound.items) pattern.now }
    ensures state { state_of state.new ≡ state_of state.old }
    ensures grows { Grows state.old state.new }
    ensures bound { room.new.bound ≡ room.old.bound }
    ensures gathered { OnOk result (GathersMore (state_of state.old) state.old.atoms state.new.atoms (kept changes.old) (kept changes.new)
        (only_added (atom_of objects.now room.old.bound.items pattern.now))) }
{
    let bound = room.bound.as_slice();
    let number = state.number(alloc, pattern, objects, bound, &mut room.atom)?;
    changes.added.push(short(number)?)?;
    Ok(())
}

/// Gathers that the atom of a pattern becomes false, if it is true.
fn gather_deleted(
    objects: &[u16],
    state: &mut NumberedState<'_>,
    pattern: &Pattern,
    room: &mut Room,
    changes: &mut Changes,
) -> Result<(), AllocError>
    requires { IsPatternWithin (length objects.now) (length room.old.bound.items) pattern.now }
    ensures state { state_of state.new ≡ state_of state.old }
    ensures grows { Grows state.old state.new }
    ensures bound { room.new.bound ≡ room.old.bound }
    ensures gathered { OnOk result (GathersMore (state_of state.old) state.old.atoms state.new.atoms (kept changes.old) (kept changes.new)
        (only_deleted (atom_of objects.now room.old.bound.items pattern.now))) }
{
    let bound = room.bound.as_slice();
    match state.number_if_true(pattern, objects, bound, &mut room.atom)? {
        Some(number) => {
            changes.deleted.push(short(number)?)?;
            Ok(())
        }
        None => Ok(()),
    }
}

/// A number of 32 bits. No atom has a larger one.
fn short(number: usize) -> Result<u32, AllocError>
    ensures { IfOk result (λ same. same ≡ number) }
{
    u32::try_from(number).map_err(|_| AllocError)
}
