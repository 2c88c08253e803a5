//! Effects under `when` and `forall` compiled to programs: each choice of objects for the variables of a `forall` by itself, if the conditions are
//! literals, or conjunctions of literals. Equalities and literals of static predicates are decided here.
ghost use Rattle.std.specs.Prelude.{◌≡◌, ◌+◌, ◌≤◌, ℕ, List, length, drop, All, IsTrue, IfOk, OnOk, false};
ghost use Rattle.std.specs.List.{list_all};
ghost use Rattle.formulas.specs.Meaning.{atom_of};
ghost use Rattle.formulas.specs.Variables.{variable_types};
ghost use Rattle.formulas.specs.Within.{IsEffectWithin, IsPatternWithin, IsWithin};
ghost use Rattle.strips_task.specs.declared.tasks.TaskParts.{TaskParts};
ghost use Rattle.step_codes.specs.declared.programs.Instruction.{Instruction};
ghost use Rattle.strips_judge.specs.Choices.{holds_bound};
ghost use Rattle.step_codes.specs.Compiling.{FindsMore, FoundIn, where_it_holds};
ghost use Rattle.strips_judge.specs.Gathered.{changed_alone, choices_found, effect_found, effects_found};
ghost use Rattle.strips_judge.specs.NumberedState.{Grows, state_of};
ghost use Rattle.strips_judge.specs.State.{State};
ghost use Rattle.strips_judge.specs.Statics.{KeepsStatics};

use crate::codes::short_number;
use crate::lasting::lasting_truth;
use crate::programs::Instruction;
use std::alloc::{AllocError, Global};
use strips_judge::{Arguments, NumberedState, Quantified, Room, have_objects, types_of};
use strips_task::{Effect, EffectNode, Formula, Node, Pattern};

/// How many instructions a program may have. With more, effects are gathered at each step.
const MOST_INSTRUCTIONS: usize = 512;

/// Adds to a program what effects change, with the objects in `room` for the variables bound around them. Returns whether it could: if not, the program may
/// have part of it. No atom becomes true or false.
#[cycle(compile)]
pub(crate) fn compile_all(
    alloc: Global,
    arguments: Arguments<'_, '_>,
    state: &mut NumberedState<'_>,
    effects: &[Effect],
    room: &mut Room,
    program: &mut Vec<Instruction>,
) -> Result<bool, AllocError>
    requires { All (IsEffectWithin (length arguments.objects.now) (length room.old.bound.items)) effects.now }
    ensures state { state_of state.new ≡ state_of state.old }
    ensures grows { Grows state.old state.new }
    ensures bound { OnOk result (room.new.bound.items ≡ room.old.bound.items) }
    ensures compiled { IfOk result (λ compiled. IsTrue compiled → FindsMore arguments.entry.task.now state.new.atoms program.old.items program.new.items
        (λ before. effects_found arguments.entry.task.now before arguments.entry.objects.now room.old.bound.items effects.now)) }
{
    for effect in effects {
        if !compile(alloc, arguments, state, effect, room, program)? {
            return Ok(false);
        }
    }
    Ok(true)
}

/// Adds to a program what an effect changes.
#[cycle(compile)]
fn compile(
    alloc: Global,
    arguments: Arguments<'_, '_>,
    state: &mut NumberedState<'_>,
    effect: &Effect,
    room: &mut Room,
    program: &mut Vec<Instruction>,
) -> Result<bool, AllocError>
    requires { IsEffectWithin (length arguments.objects.now) (length room.old.bound.items) effect.now }
    ensures state { state_of state.new ≡ state_of state.old }
    ensures grows { Grows state.old state.new }
    ensures bound { OnOk result (room.new.bound.items ≡ room.old.bound.items) }
    ensures compiled { IfOk result (λ compiled. IsTrue compiled → FindsMore arguments.entry.task.now state.new.atoms program.old.items program.new.items
        (λ before. effect_found arguments.entry.task.now before arguments.entry.objects.now room.old.bound.items effect.now)) }
{
    match effect.node() {
        EffectNode::Atom(truth, pattern) => {
            compile_change(alloc, arguments, state, *truth, pattern, room, program)
        }
        EffectNode::And(parts) => compile_all(alloc, arguments, state, parts, room, program),
        EffectNode::When(condition, body) => {
            if is_never_true(arguments, condition, room)? {
                return Ok(true);
            }
            compile_when(alloc, arguments, state, condition, body, room, program)
        }
        EffectNode::ForAll(groups, body) => {
            if !have_objects(arguments.task, groups.as_slice()) {
                return Ok(true);
            }
            let quantified = Quantified {
                groups: groups.as_slice(),
                body,
            };
            compile_choices(alloc, arguments, state, quantified, 0, room, program)
        }
    }
}

/// Adds to a program what an effect changes, and that it happens only where a condition holds.
#[cycle(compile)]
fn compile_when(
    alloc: Global,
    arguments: Arguments<'_, '_>,
    state: &mut NumberedState<'_>,
    condition: &Formula,
    body: &Effect,
    room: &mut Room,
    program: &mut Vec<Instruction>,
) -> Result<bool, AllocError>
    requires condition { IsWithin (length arguments.objects.now) (length room.old.bound.items) condition.now }
    requires body { IsEffectWithin (length arguments.objects.now) (length room.old.bound.items) body.now }
    ensures state { state_of state.new ≡ state_of state.old }
    ensures grows { Grows state.old state.new }
    ensures bound { OnOk result (room.new.bound.items ≡ room.old.bound.items) }
    ensures compiled { IfOk result (λ compiled. IsTrue compiled → FindsMore arguments.entry.task.now state.new.atoms program.old.items program.new.items
        (where_it_holds arguments.entry.task.now arguments.entry.objects.now room.old.bound.items condition.now
        (λ before. effect_found arguments.entry.task.now before arguments.entry.objects.now room.old.bound.items body.now))) }
{
    let start = program.len();
    if !compile(alloc, arguments, state, body, room, program)? {
        return Ok(false);
    }
    put_tests(alloc, arguments, state, condition, start, room, program)
}

/// Adds to a program what an effect changes for every choice of objects for its variables from this one on.
#[cycle(compile)]
fn compile_choices(
    alloc: Global,
    arguments: Arguments<'_, '_>,
    state: &mut NumberedState<'_>,
    quantified: Quantified<'_>,
    first: usize,
    room: &mut Room,
    program: &mut Vec<Instruction>,
) -> Result<bool, AllocError>
    requires bound { first ≤ length room.old.bound.items }
    requires within { IsEffectWithin (length arguments.objects.now) (length room.old.bound.items + length (drop first (variable_types quantified.groups.now))) quantified.body.now }
    ensures state { state_of state.new ≡ state_of state.old }
    ensures grows { Grows state.old state.new }
    ensures bound { OnOk result (room.new.bound.items ≡ room.old.bound.items) }
    ensures compiled { IfOk result (λ compiled. IsTrue compiled → FindsMore arguments.entry.task.now state.new.atoms program.old.items program.new.items
        (λ before. choices_found arguments.entry.task.now before arguments.entry.objects.now quantified.entry.body.now (drop first (variable_types quantified.entry.groups.now)) room.old.bound.items)) }
{
    let Some(types) = types_of(quantified.groups, first) else {
        return compile(alloc, arguments, state, quantified.body, room, program);
    };
    let candidates = arguments.task.candidates(types);
    for index in 0..candidates.len() {
        let object = candidates.get(index);
        if arguments.task.object_fits(types, object) {
            room.bound.push(object)?;
            let next = first + 1;
            let compiled = compile_choices(
                alloc, arguments, state, quantified, next, room, program,
            )?;
            room.bound.pop();
            if !compiled {
                return Ok(false);
            }
        }
    }
    Ok(true)
}

/// Adds to a program that the atom of a pattern becomes true, or false.
fn compile_change(
    alloc: Global,
    arguments: Arguments<'_, '_>,
    state: &mut NumberedState<'_>,
    truth: bool,
    pattern: &Pattern,
    room: &mut Room,
    program: &mut Vec<Instruction>,
) -> Result<bool, AllocError>
    requires { IsPatternWithin (length arguments.objects.now) (length room.old.bound.items) pattern.now }
    ensures state { state_of state.new ≡ state_of state.old }
    ensures grows { Grows state.old state.new }
    ensures bound { room.new.bound ≡ room.old.bound }
    ensures compiled { IfOk result (λ compiled. IsTrue compiled → FindsMore arguments.entry.task.now state.new.atoms program.old.items program.new.items
        (λ before. changed_alone truth (atom_of arguments.entry.objects.now room.old.bound.items pattern.now))) }
{
    if program.len() >= MOST_INSTRUCTIONS {
        return Ok(false);
    }
    let objects = arguments.objects;
    let bound = room.bound.as_slice();
    let found = short_number(alloc, pattern, objects, bound, state, &mut room.atom)?;
    let Some(number) = found else {
        return Ok(false);
    };
    program.push(Instruction::Change { truth, number })?;
    Ok(true)
}

/// The formulas that `and` joins, or the formula itself.
fn conjuncts(formula: &Formula) -> &[Formula]
    ensures holds { (parts : TaskParts) (state : State) (objects bound : List ℕ)
        → holds_bound parts state objects bound formula.now ≡ list_all (holds_bound parts state objects bound) result.now }
    ensures within { (params bound : ℕ) → IsWithin params bound formula.now → All (IsWithin params bound) result.now }
{
    match formula.node() {
        Node::And(parts) => parts,
        _ => std::slice::from_ref(formula),
    }
}

/// Whether a condition can be seen to hold in no state of the task: it is, or it joins, an equality or a literal that holds in none.
fn is_never_true(
    arguments: Arguments<'_, '_>,
    condition: &Formula,
    room: &mut Room,
) -> Result<bool, AllocError>
    requires { IsWithin (length arguments.objects.now) (length room.old.bound.items) condition.now }
    ensures never { IfOk result (λ never. IsTrue never → (state : State) → KeepsStatics arguments.entry.task.now state
        → holds_bound arguments.entry.task.now state arguments.entry.objects.now room.old.bound.items condition.now ≡ false) }
    ensures bound { room.new.bound ≡ room.old.bound }
{
    for conjunct in conjuncts(condition) {
        let bound = room.bound.as_slice();
        let truth = lasting_truth(arguments, conjunct, bound, &mut room.atom)?;
        if truth == Some(false) {
            return Ok(true);
        }
    }
    Ok(false)
}

/// Puts tests of a condition before the instructions from `start` on, if it is a literal or joins literals. Returns whether it did.
fn put_tests(
    alloc: Global,
    arguments: Arguments<'_, '_>,
    state: &mut NumberedState<'_>,
    condition: &Formula,
    start: usize,
    room: &mut Room,
    program: &mut Vec<Instruction>,
) -> Result<bool, AllocError>
    requires within { IsWithin (length arguments.objects.now) (length room.old.bound.items) condition.now }
    requires start { start ≤ length program.old.items }
    ensures state { state_of state.new ≡ state_of state.old }
    ensures grows { Grows state.old state.new }
    ensures bound { room.new.bound ≡ room.old.bound }
    ensures tested { IfOk result (λ done. IsTrue done → (before : List Instruction) (found : FoundIn) → length before ≡ start
        → FindsMore arguments.entry.task.now state.old.atoms before program.old.items found
        → FindsMore arguments.entry.task.now state.new.atoms before program.new.items (where_it_holds arguments.entry.task.now arguments.entry.objects.now room.old.bound.items condition.now found)) }
{
    for conjunct in conjuncts(condition) {
        if !put_test(alloc, arguments, state, conjunct, start, room, program)? {
            return Ok(false);
        }
    }
    Ok(true)
}

/// Puts a test of a literal before the instructions from `start` on. Returns whether it did.
fn put_test(
    alloc: Global,
    arguments: Arguments<'_, '_>,
    state: &mut NumberedState<'_>,
    literal: &Formula,
    start: usize,
    room: &mut Room,
    program: &mut Vec<Instruction>,
) -> Result<bool, AllocError>
    requires within { IsWithin (length arguments.objects.now) (length room.old.bound.items) literal.now }
    requires start { start ≤ length program.old.items }
    ensures state { state_of state.new ≡ state_of state.old }
    ensures grows { Grows state.old state.new }
    ensures bound { room.new.bound ≡ room.old.bound }
    ensures length { length program.old.items ≤ length program.new.items }
    ensures tested { IfOk result (λ done. IsTrue done → (before : List Instruction) (found : FoundIn) → length before ≡ start
        → FindsMore arguments.entry.task.now state.old.atoms before program.old.items found
        → FindsMore arguments.entry.task.now state.new.atoms before program.new.items (where_it_holds arguments.entry.task.now arguments.entry.objects.now room.old.bound.items literal.now found)) }
{
    let bound = room.bound.as_slice();
    if let Some(holds) = lasting_truth(arguments, literal, bound, &mut room.atom)? {
        return Ok(holds);
    }
    let Node::Atom(truth, pattern) = literal.node() else {
        return Ok(false);
    };
    if program.len() >= MOST_INSTRUCTIONS {
        return Ok(false);
    }
    let objects = arguments.objects;
    let found = short_number(alloc, pattern, objects, bound, state, &mut room.atom)?;
    let Some(number) = found else {
        return Ok(false);
    };
    let test = Instruction::Test {
        truth: *truth,
        number,
        skip: (program.len() - start) as u32,
    };
    program.insert(start, test)?;
    Ok(true)
}
