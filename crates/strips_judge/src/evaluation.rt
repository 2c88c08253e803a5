//! Whether a formula holds in a state.
//!
//! A literal takes one look-up. In other formulas, nothing more is evaluated once the answer is known. A quantifier binds its variables one after the other,
//! each to every object that fits, in one list that is used again and again.
ghost use Rattle.std.specs.Prelude.{◌≡◌, ◌+◌, ◌≤◌, ◌∷◌, [], ◌++◌, ℕ, List, All, Some, None, false, IfOk, IfNone, IfSome, OnOk, drop, length, nat_eq, slice_get};
ghost use Rattle.std.specs.List.{list_any};
ghost use Rattle.formulas.specs.Meaning.{object_of, atom_of, signed};
ghost use Rattle.formulas.specs.Variables.{extensions, variable_types};
ghost use Rattle.formulas.specs.Within.{IsTermWithin, IsPatternWithin, IsWithin};
ghost use Rattle.strips_judge.specs.Choices.{holds_bound, some_is, some_choice_gives};
ghost use Rattle.strips_judge.specs.NumberedState.{state_of};
ghost use Rattle.strips_judge.specs.State.{holds, objects_of};

use crate::grounding::object_of;
use crate::scratch::Room;
use crate::state::NumberedState;
use crate::task_index::TaskIndex;
use std::alloc::AllocError;
use strips_task::{Atom, Formula, Node, Pattern, Term, VariableGroup};

/// A formula under a quantifier, with the variables that are bound there, and whether it is asked where the formula is true or where it is false.
#[derive(Clone, Copy)]
struct Quantified<'f> {
    groups: &'f [VariableGroup],
    body: &'f Formula,
    truth: bool,
}

/// Whether a formula holds when the parameters are bound to these objects. Takes no memory for a literal.
#[inline(always)]
pub fn holds(
    task: &TaskIndex<'_>,
    state: &mut NumberedState<'_>,
    formula: &Formula,
    objects: &[u16],
    room: &mut Room,
) -> Result<bool, AllocError>
    requires { IsWithin (length objects.now) 0 formula.now }
    ensures answer { IfOk result (λ answer. answer ≡ holds task.now (state_of state.old) objects.now formula.now) }
    ensures same { state.new ≡ state.old }
{
    match formula.node() {
        Node::Atom(positive, pattern) => {
            atom_holds(state, *positive, pattern, objects, &[], &mut room.atom)
        }
        Node::Equal(positive, left, right) => {
            Ok(equality_holds(*positive, *left, *right, objects, &[]))
        }
        _ => {
            room.bound.clear();
            evaluate(task, state, formula, objects, room)
        }
    }
}

/// Whether an atom is true, or is false if `positive` is false.
#[inline(always)]
fn atom_holds(
    state: &mut NumberedState<'_>,
    positive: bool,
    pattern: &Pattern,
    objects: &[u16],
    bound: &[u16],
    atom: &mut Atom,
) -> Result<bool, AllocError>
    requires { IsPatternWithin (length objects.now) (length bound.now) pattern.now }
    ensures answer { IfOk result (λ answer. answer ≡ signed positive (state_of state.old (atom_of objects.now bound.now pattern.now))) }
    ensures same { state.new ≡ state.old }
{
    Ok(state.is_true(pattern, objects, bound, atom)? == positive)
}

/// Whether two terms stand for the same object, or for different ones if `positive` is false.
#[inline(always)]
pub fn equality_holds(
    positive: bool,
    left: Term,
    right: Term,
    objects: &[u16],
    bound: &[u16],
) -> bool
    requires { IsTermWithin (length objects.now) (length bound.now) left × IsTermWithin (length objects.now) (length bound.now) right }
    ensures { result ≡ signed positive (nat_eq (object_of objects.now bound.now left) (object_of objects.now bound.now right)) }
{
    let are_equal = object_of(left, objects, bound) == object_of(right, objects, bound);
    are_equal == positive
}

/// Whether a formula holds when the parameters are bound to these objects, and the variables around it to those in `room`.
#[cycle(evaluate)]
#[inline(never)]
pub(crate) fn evaluate(
    task: &TaskIndex<'_>,
    state: &mut NumberedState<'_>,
    formula: &Formula,
    objects: &[u16],
    room: &mut Room,
) -> Result<bool, AllocError>
    requires { IsWithin (length objects.now) (length room.old.bound.items) formula.now }
    ensures answer { IfOk result (λ answer. answer ≡ holds_bound task.now (state_of state.old) objects.now room.old.bound.items formula.now) }
    ensures same { state.new ≡ state.old }
    ensures bound { OnOk result (room.new.bound.items ≡ room.old.bound.items) }
{
    match formula.node() {
        Node::Atom(positive, pattern) => {
            let bound = room.bound.as_slice();
            atom_holds(state, *positive, pattern, objects, bound, &mut room.atom)
        }
        Node::Equal(positive, left, right) => {
            Ok(equality_holds(*positive, *left, *right, objects, room.bound.as_slice()))
        }
        Node::Not(body) => Ok(!evaluate(task, state, body, objects, room)?),
        Node::And(parts) => Ok(!some_is(task, state, parts, false, objects, room)?),
        Node::Or(parts) => some_is(task, state, parts, true, objects, room),
        Node::Imply(premise, conclusion) => {
            if !evaluate(task, state, premise, objects, room)? {
                return Ok(true);
            }
            evaluate(task, state, conclusion, objects, room)
        }
        Node::Exists(groups, body) => {
            let quantified = Quantified {
                groups: groups.as_slice(),
                body,
                truth: true,
            };
            some_choice(task, state, &quantified, objects, room)
        }
        Node::ForAll(groups, body) => {
            let quantified = Quantified {
                groups: groups.as_slice(),
                body,
                truth: false,
            };
            Ok(!some_choice(task, state, &quantified, objects, room)?)
        }
    }
}

/// Whether one of these formulas is true, or is false.
#[cycle(evaluate)]
fn some_is(
    task: &TaskIndex<'_>,
    state: &mut NumberedState<'_>,
    formulas: &[Formula],
    truth: bool,
    objects: &[u16],
    room: &mut Room,
) -> Result<bool, AllocError>
    requires { All (IsWithin (length objects.now) (length room.old.bound.items)) formulas.now }
    ensures answer { IfOk result (λ answer. answer ≡ some_is task.now (state_of state.old) objects.now truth room.old.bound.items formulas.now) }
    ensures same { state.new ≡ state.old }
    ensures bound { OnOk result (room.new.bound.items ≡ room.old.bound.items) }
{
    for formula in formulas {
        if evaluate(task, state, formula, objects, room)? == truth {
            return Ok(true);
        }
    }
    Ok(false)
}

/// Whether a formula is true, or is false, for some choice of objects for its variables. If one of them has no object, nothing is evaluated.
#[cycle(evaluate)]
fn some_choice(
    task: &TaskIndex<'_>,
    state: &mut NumberedState<'_>,
    quantified: &Quantified<'_>,
    objects: &[u16],
    room: &mut Room,
) -> Result<bool, AllocError>
    requires { IsWithin (length objects.now) (length room.old.bound.items + length (variable_types quantified.now.groups.now)) quantified.now.body.now }
    ensures answer { IfOk result (λ answer. answer ≡ some_choice_gives task.now (state_of state.old) objects.now quantified.now.truth quantified.now.body.now
        (variable_types quantified.now.groups.now) room.old.bound.items) }
    ensures same { state.new ≡ state.old }
    ensures bound { OnOk result (room.new.bound.items ≡ room.old.bound.items) }
{
    if !have_objects(task, quantified.groups) {
        return Ok(false);
    }
    some_choice_gives(task, state, quantified, 0, objects, room)
}

/// Whether a formula is true, or is false, for some choice of objects for its variables from this one on.
#[cycle(evaluate)]
fn some_choice_gives(
    task: &TaskIndex<'_>,
    state: &mut NumberedState<'_>,
    quantified: &Quantified<'_>,
    first: usize,
    objects: &[u16],
    room: &mut Room,
) -> Result<bool, AllocError>
    requires bound { first ≤ length room.old.bound.items }
    requires within { IsWithin (length objects.now) (length room.old.bound.items + length (drop first (variable_types quantified.now.groups.now))) quantified.now.body.now }
    ensures answer { IfOk result (λ answer. answer ≡ some_choice_gives task.now (state_of state.old) objects.now quantified.now.truth quantified.now.body.now
        (drop first (variable_types quantified.now.groups.now)) room.old.bound.items) }
    ensures same { state.new ≡ state.old }
    ensures bound { OnOk result (room.new.bound.items ≡ room.old.bound.items) }
{
    match types_of(quantified.groups, first) {
        Some(types) => {
            some_object_gives(task, state, quantified, types, first + 1, objects, room)
        }
        None => Ok(evaluate(task, state, quantified.body, objects, room)? == quantified.truth),
    }
}

/// Whether a formula is true, or is false, for some object of one of these types and some choice of objects for its variables from this one on.
#[cycle(evaluate)]
fn some_object_gives(
    task: &TaskIndex<'_>,
    state: &mut NumberedState<'_>,
    quantified: &Quantified<'_>,
    types: &[u16],
    next: usize,
    objects: &[u16],
    room: &mut Room,
) -> Result<bool, AllocError>
    requires bound { next ≤ length room.old.bound.items + 1 }
    requires within { IsWithin (length objects.now) (length room.old.bound.items + 1 + length (drop next (variable_types quantified.now.groups.now))) quantified.now.body.now }
    ensures answer { IfOk result (λ answer. answer ≡ list_any (λ object. some_choice_gives task.now (state_of state.old) objects.now quantified.now.truth quantified.now.body.now
        (drop next (variable_types quantified.now.groups.now)) (room.old.bound.items ++ object ∷ [])) (objects_of task.now types.now)) }
    ensures same { state.new ≡ state.old }
    ensures bound { OnOk result (room.new.bound.items ≡ room.old.bound.items) }
{
    let candidates = task.candidates(types);
    for index in 0..candidates.len() {
        let object = candidates.get(index);
        if task.object_fits(types, object)
            && object_gives(task, state, quantified, object, next, objects, room)?
        {
            return Ok(true);
        }
    }
    Ok(false)
}

/// Whether a formula is true, or is false, for this object and some choice of objects for its variables from this one on.
#[cycle(evaluate)]
fn object_gives(
    task: &TaskIndex<'_>,
    state: &mut NumberedState<'_>,
    quantified: &Quantified<'_>,
    object: u16,
    next: usize,
    objects: &[u16],
    room: &mut Room,
) -> Result<bool, AllocError>
    requires bound { next ≤ length room.old.bound.items + 1 }
    requires within { IsWithin (length objects.now) (length room.old.bound.items + 1 + length (drop next (variable_types quantified.now.groups.now))) quantified.now.body.now }
    ensures answer { IfOk result (λ answer. answer ≡ some_choice_gives task.now (state_of state.old) objects.now quantified.now.truth quantified.now.body.now
        (drop next (variable_types quantified.now.groups.now)) (room.old.bound.items ++ object ∷ [])) }
    ensures same { state.new ≡ state.old }
    ensures bound { OnOk result (room.new.bound.items ≡ room.old.bound.items) }
{
    room.bound.push(object)?;
    let answer = some_choice_gives(task, state, quantified, next, objects, room)?;
    room.bound.pop();
    Ok(answer)
}

/// Whether there is an object for each variable of these groups. Takes one pass over the objects of its types for each group at most.
pub fn have_objects(task: &TaskIndex<'_>, groups: &[VariableGroup]) -> bool
    ensures { result ≡ false → (bound : List ℕ) → extensions (objects_of task.now) (variable_types groups.now) bound ≡ [] }
{
    for group in groups {
        if !group.names.is_empty() && !has_object(task, group.types.as_slice()) {
            return false;
        }
    }
    true
}

/// Whether there is an object of one of these types, or of one below them.
fn has_object(task: &TaskIndex<'_>, types: &[u16]) -> bool
    ensures { result ≡ false → objects_of task.now types.now ≡ [] }
{
    let candidates = task.candidates(types);
    for index in 0..candidates.len() {
        if task.object_fits(types, candidates.get(index)) {
            return true;
        }
    }
    false
}

/// The types of a variable, by its index in all groups.
pub fn types_of(groups: &[VariableGroup], index: usize) -> Option<&[u16]>
    ensures some { IfSome result (λ types. slice_get (variable_types groups.now) index ≡ Some types.now) }
    ensures none { IfNone result (slice_get (variable_types groups.now) index ≡ None) }
{
    let mut left = index;
    for group in groups {
        if left < group.names.len() {
            return Some(group.types.as_slice());
        }
        left -= group.names.len();
    }
    None
}
