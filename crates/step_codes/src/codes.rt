//! Codes of steps: what a step asks of the state and does to it, by the numbers of its atoms.
//!
//! The same steps occur in many plans of a task. For a step whose code is known, no word and no atom need be looked up: its code is tested
//! and taken bit by bit. A code holds only what depends on the state. A step with a fault, or with an equality or a static
//! condition that does not hold, is not applicable in any state, and has no code. Nor has a step whose precondition has anything but literals, or one with effects under `when` or
//! `forall` that have no program.
ghost use Rattle.std.specs.Prelude.{◌≡◌, ◌<◌, ◌∷◌, [], ◌++◌, ℕ, List, Some, None, true, false, Bool, map, length, All, IsTrue, IfOk, IfSome, OnOk, OnErr};
ghost use Rattle.bit_rows.specs.Rows.{row_has};
ghost use Rattle.formulas.specs.declared.atoms.Atom.{Atom};
ghost use Rattle.formulas.specs.Grounding.{with_objects};
ghost use Rattle.formulas.specs.Tree.{Tree};
ghost use Rattle.formulas.specs.Meaning.{atom_of};
ghost use Rattle.formulas.specs.Within.{IsEffectWithin, IsPatternWithin, IsWithin};
ghost use Rattle.strips_task.specs.declared.steps.StepText.{StepText};
ghost use Rattle.strips_task.specs.declared.tasks.TaskParts.{TaskParts};
ghost use Rattle.step_codes.specs.Codes.{AsksFor, IsCode, asking_more, code_shown, numbers_by};
ghost use Rattle.strips_judge.specs.NumberedState.{AreNumbers, Grows, state_of};
ghost use Rattle.strips_judge.specs.Grounding.{ground};
ghost use Rattle.strips_task.specs.AtomNumbers.{number_in};
ghost use Rattle.step_codes.specs.Programs.{AreBitsOf, IsNumber};
ghost use Rattle.strips_judge.specs.State.{State, after_effects, with_all, without};
ghost use Rattle.strips_judge.specs.Statics.{KeepsStatics};
ghost use Rattle.strips_judge.specs.Step.{hindrance, after, deletes_by, adds_by};

use crate::compiling::compile_all;
use crate::lasting::lasting_truth;
use crate::programs::{Instruction, run};
use std::alloc::{AllocError, Global};
use std::marker::Model;
use strips_judge::{Arguments, Changes, NumberedState, Room, Scratch, clear_all, set_all};
use strips_task::{Action, Atom, Formula, Node, Pattern};

/// What a step asks of the state and does to it, by the numbers of its atoms in a [`NumberedState`].
#[derive(Clone, Copy)]
pub struct StepCode<'c> {
    /// The atoms that must be true.
    pub needed: &'c [u32],
    /// The atoms that must be false.
    pub forbidden: &'c [u32],
    /// The atoms that are false afterwards, except those that are also added.
    pub deleted: &'c [u32],
    /// The atoms that are true afterwards.
    pub added: &'c [u32],
    /// Finds the other atoms that are false or true afterwards.
    pub program: &'c [Instruction],
}

/// Room for one code, used again for each step. Contracts see the code.
pub struct CodeBuffer {
    needed: Vec<u32>,
    forbidden: Vec<u32>,
    deleted: Vec<u32>,
    added: Vec<u32>,
    program: Vec<Instruction>,
}

impl Drop for CodeBuffer {
    fn drop(self) {
        let Self {
            needed: _,
            forbidden: _,
            deleted: _,
            added: _,
            program: _,
        } = self;
    }
}

impl Model for CodeBuffer {
    ghost use Rattle.step_codes.specs.Codes.{Code};

    ghost Value = { Code };

    ghost view = { λ c. record { needed = c.needed.items; forbidden = c.forbidden.items; deleted = c.deleted.items; added = c.added.items; program = c.program.items } };
}

impl CodeBuffer {
    /// Room for a code. Takes no memory.
    pub fn new(alloc: Global) -> Self {
        CodeBuffer {
            needed: Vec::new(alloc),
            forbidden: Vec::new(alloc),
            deleted: Vec::new(alloc),
            added: Vec::new(alloc),
            program: Vec::new(alloc),
        }
    }

    /// The code that was put here last.
    pub fn code(&self) -> StepCode<'_>
        ensures { code_shown result ≡ self.now }
    {
        StepCode {
            needed: self.needed.as_slice(),
            forbidden: self.forbidden.as_slice(),
            deleted: self.deleted.as_slice(),
            added: self.added.as_slice(),
            program: self.program.as_slice(),
        }
    }

    /// Makes the code one that asks for nothing.
    fn ask_nothing(&mut self)
        ensures { (self.new.needed ≡ []) × (self.new.forbidden ≡ []) }
    {
        self.needed.clear();
        self.forbidden.clear();
    }

    /// Makes the code ask that one atom more be true, or be false.
    fn ask(&mut self, truth: bool, number: u32) -> Result<(), AllocError>
        ensures { OnOk result (self.new ≡ asking_more self.old truth number) }
    {
        if truth {
            self.needed.push(number)?;
        } else {
            self.forbidden.push(number)?;
        }
        Ok(())
    }
}

/// Takes a step by its code if everything that the code asks for holds, and otherwise changes nothing. Returns whether it did. If memory runs out, nothing
/// is changed.
///
/// Takes memory only for the numbers that a program finds, in the room that is used again for each step.
#[inline(always)]
pub fn take_by_code(
    state: &mut NumberedState<'_>,
    code: StepCode<'_>,
    scratch: &mut Scratch,
) -> Result<bool, AllocError>
    requires { (bits : ℕ → Bool) → All (λ number. number < length state.old.atoms) (numbers_by bits true (code_shown code)) }
    ensures taken { IfOk result (λ taken. IsTrue taken → (parts : TaskParts) (step : StepText) → KeepsStatics parts (state_of state.old) → IsCode parts state.old.atoms step (code_shown code.entry)
        → (hindrance parts (state_of state.old) step ≡ None) × (state_of state.new ≡ after parts (state_of state.old) step)) }
    ensures not { IfOk result (λ taken. taken ≡ false → state_of state.new ≡ state_of state.old) }
    ensures failed { OnErr result (state.new ≡ state.old) }
    ensures atoms { state.new.atoms ≡ state.old.atoms }
    ensures initial { state.new.initial ≡ state.old.initial }
{
    if !code.program.is_empty() {
        return take_with_program(state, code, scratch);
    }
    if !all_are(state, code.needed, true) {
        return Ok(false);
    }
    if !all_are(state, code.forbidden, false) {
        return Ok(false);
    }
    clear_all(state, code.deleted);
    set_all(state, code.added);
    Ok(true)
}

/// Takes a step by a code with a program, as [`take_by_code`].
#[inline(never)]
fn take_with_program(
    state: &mut NumberedState<'_>,
    code: StepCode<'_>,
    scratch: &mut Scratch,
) -> Result<bool, AllocError>
    requires { (bits : ℕ → Bool) → All (λ number. number < length state.old.atoms) (numbers_by bits true (code_shown code)) }
    ensures taken { IfOk result (λ taken. IsTrue taken → (parts : TaskParts) (step : StepText) → KeepsStatics parts (state_of state.old) → IsCode parts state.old.atoms step (code_shown code.entry)
        → (hindrance parts (state_of state.old) step ≡ None) × (state_of state.new ≡ after parts (state_of state.old) step)) }
    ensures not { IfOk result (λ taken. taken ≡ false → state_of state.new ≡ state_of state.old) }
    ensures failed { OnErr result (state.new ≡ state.old) }
    ensures atoms { state.new.atoms ≡ state.old.atoms }
    ensures initial { state.new.initial ≡ state.old.initial }
{
    if all_are(state, code.needed, true) && all_are(state, code.forbidden, false) {
        change_by_program(state, code, &mut scratch.changes)?;
        return Ok(true);
    }
    Ok(false)
}

/// Changes what a code with a program changes, all at once.
fn change_by_program(
    state: &mut NumberedState<'_>,
    code: StepCode<'_>,
    changes: &mut Changes,
) -> Result<(), AllocError>
    requires { (bits : ℕ → Bool) → All (λ number. number < length state.old.atoms) (numbers_by bits true (code_shown code)) }
    ensures state { OnOk result ((deletes adds : List Atom) → AreNumbers state.old.atoms deletes (numbers_by (row_has state.old.bits) false (code_shown code.entry))
        → AreNumbers state.old.atoms adds (numbers_by (row_has state.old.bits) true (code_shown code.entry))
        → state_of state.new ≡ after_effects (state_of state.old) deletes adds) }
    ensures failed { OnErr result (state.new ≡ state.old) }
    ensures atoms { state.new.atoms ≡ state.old.atoms }
    ensures initial { state.new.initial ≡ state.old.initial }
{
    changes.clear();
    changes.deleted.extend_from_slice(code.deleted)?;
    changes.added.extend_from_slice(code.added)?;
    run(state, code.program, changes)?;
    clear_all(state, changes.deleted.as_slice());
    set_all(state, changes.added.as_slice());
    Ok(())
}

/// Whether all atoms with these numbers are true, or all are false.
#[inline(always)]
fn all_are(state: &NumberedState<'_>, numbers: &[u32], truth: bool) -> bool
    ensures { IsTrue result → (atoms : List Atom) → AreNumbers state.now.atoms atoms numbers.now → All (λ atom. state_of state.now atom ≡ truth) atoms }
{
    for number in numbers {
        if state.has(*number as usize) != truth {
            return false;
        }
    }
    true
}

/// Puts the code of an action with these objects into a buffer, if it has one.
pub(crate) fn code_of_action(
    alloc: Global,
    arguments: Arguments<'_, '_>,
    action: &Action,
    state: &mut NumberedState<'_>,
    room: &mut Room,
    code: &mut CodeBuffer,
) -> Result<bool, AllocError>
    requires pre { All (IsWithin (length arguments.objects.now) 0) action.now.pre }
    requires del { All (IsPatternWithin (length arguments.objects.now) 0) action.now.del }
    requires add { All (IsPatternWithin (length arguments.objects.now) 0) action.now.add }
    requires effects { All (IsEffectWithin (length arguments.objects.now) 0) action.now.effects }
    ensures asks { IfOk result (λ found. IsTrue found → AsksFor arguments.entry.task.now state.new.atoms (map (with_objects arguments.entry.objects.now []) action.now.pre) code.new) }
    ensures deleted { IfOk result (λ found. IsTrue found → (before : State) (bits : ℕ → Bool) → KeepsStatics arguments.entry.task.now before → AreBitsOf state.new.atoms before bits
        → AreNumbers state.new.atoms (deletes_by arguments.entry.task.now arguments.entry.objects.now before (Some action.now)) (numbers_by bits false code.new)) }
    ensures added { IfOk result (λ found. IsTrue found → (before : State) (bits : ℕ → Bool) → KeepsStatics arguments.entry.task.now before → AreBitsOf state.new.atoms before bits
        → AreNumbers state.new.atoms (adds_by arguments.entry.task.now arguments.entry.objects.now before (Some action.now)) (numbers_by bits true code.new)) }
    ensures within { IfOk result (λ found. IsTrue found → (bits : ℕ → Bool) → All (IsNumber state.new.atoms) (numbers_by bits true code.new)) }
    ensures state { state_of state.new ≡ state_of state.old }
    ensures grows { Grows state.old state.new }
{
    if !plain_code(alloc, arguments, action, state, &mut room.atom, code)? {
        return Ok(false);
    }
    room.bound.clear();
    code.program.clear();
    let effects = action.effects.as_slice();
    compile_all(alloc, arguments, state, effects, room, &mut code.program)
}

/// Puts what an action with these objects asks for, and what it always deletes and adds, into a buffer, if it asks for literals alone.
fn plain_code(
    alloc: Global,
    arguments: Arguments<'_, '_>,
    action: &Action,
    state: &mut NumberedState<'_>,
    atom: &mut Atom,
    code: &mut CodeBuffer,
) -> Result<bool, AllocError>
    requires pre { All (IsWithin (length arguments.objects.now) 0) action.now.pre }
    requires del { All (IsPatternWithin (length arguments.objects.now) 0) action.now.del }
    requires add { All (IsPatternWithin (length arguments.objects.now) 0) action.now.add }
    ensures asks { IfOk result (λ found. IsTrue found → AsksFor arguments.entry.task.now state.new.atoms (map (with_objects arguments.entry.objects.now []) action.now.pre) code.new) }
    ensures deleted { IfOk result (λ found. IsTrue found → AreNumbers state.new.atoms (map (ground arguments.entry.objects.now) action.now.del) code.new.deleted) }
    ensures added { IfOk result (λ found. IsTrue found → AreNumbers state.new.atoms (map (ground arguments.entry.objects.now) action.now.add) code.new.added) }
    ensures state { state_of state.new ≡ state_of state.old }
    ensures grows { Grows state.old state.new }
{
    if !ask_all(alloc, arguments, action.pre.as_slice(), state, atom, code)? {
        return Ok(false);
    }
    let objects = arguments.objects;
    let deletes = action.del.as_slice();
    if !number_all(alloc, deletes, objects, state, atom, &mut code.deleted)? {
        return Ok(false);
    }
    let adds = action.add.as_slice();
    let found = number_all(alloc, adds, objects, state, atom, &mut code.added)?;
    Ok(found)
}

/// Makes a code ask for the conditions of an action with these objects, if all are literals and those that do not depend on the state hold.
fn ask_all(
    alloc: Global,
    arguments: Arguments<'_, '_>,
    conditions: &[Formula],
    state: &mut NumberedState<'_>,
    atom: &mut Atom,
    code: &mut CodeBuffer,
) -> Result<bool, AllocError>
    requires { All (IsWithin (length arguments.objects.now) 0) conditions.now }
    ensures asks { IfOk result (λ found. IsTrue found → AsksFor arguments.entry.task.now state.new.atoms (map (with_objects arguments.entry.objects.now []) conditions.now) code.new) }
    ensures state { state_of state.new ≡ state_of state.old }
    ensures grows { Grows state.old state.new }
{
    code.ask_nothing();
    for condition in conditions {
        if !ask_one(alloc, arguments, condition, state, atom, code)? {
            return Ok(false);
        }
    }
    Ok(true)
}

/// Makes a code ask for one condition more, if that depends on the state. Returns whether the condition is a literal that may hold.
fn ask_one(
    alloc: Global,
    arguments: Arguments<'_, '_>,
    condition: &Formula,
    state: &mut NumberedState<'_>,
    atom: &mut Atom,
    code: &mut CodeBuffer,
) -> Result<bool, AllocError>
    requires { IsWithin (length arguments.objects.now) 0 condition.now }
    ensures asks { IfOk result (λ found. IsTrue found → (before : List Tree) → AsksFor arguments.entry.task.now state.old.atoms before code.old
        → AsksFor arguments.entry.task.now state.new.atoms (before ++ with_objects arguments.entry.objects.now [] condition.now ∷ []) code.new) }
    ensures state { state_of state.new ≡ state_of state.old }
    ensures grows { Grows state.old state.new }
{
    if let Some(holds) = lasting_truth(arguments, condition, &[], atom)? {
        return Ok(holds);
    }
    let Node::Atom(positive, pattern) = condition.node() else {
        return Ok(false);
    };
    let objects = arguments.objects;
    let Some(number) = short_number(alloc, pattern, objects, &[], state, atom)? else {
        return Ok(false);
    };
    code.ask(*positive, number)?;
    Ok(true)
}

/// Gathers the numbers of the atoms that patterns stand for, if each fits in 32 bits.
fn number_all(
    alloc: Global,
    patterns: &[Pattern],
    objects: &[u16],
    state: &mut NumberedState<'_>,
    atom: &mut Atom,
    numbers: &mut Vec<u32>,
) -> Result<bool, AllocError>
    requires { All (IsPatternWithin (length objects.now) 0) patterns.now }
    ensures numbers { IfOk result (λ found. IsTrue found → AreNumbers state.new.atoms (map (ground objects.now) patterns.now) numbers.new.items) }
    ensures state { state_of state.new ≡ state_of state.old }
    ensures grows { Grows state.old state.new }
{
    numbers.clear();
    for pattern in patterns {
        match short_number(alloc, pattern, objects, &[], state, atom)? {
            Some(number) => numbers.push(number)?,
            None => return Ok(false),
        }
    }
    Ok(true)
}

/// The number of the atom that a pattern stands for, if it fits in 32 bits. An atom without a number gets one.
pub(crate) fn short_number(
    alloc: Global,
    pattern: &Pattern,
    objects: &[u16],
    bound: &[u16],
    state: &mut NumberedState<'_>,
    atom: &mut Atom,
) -> Result<Option<u32>, AllocError>
    requires { IsPatternWithin (length objects.now) (length bound.now) pattern.now }
    ensures number { IfOk result (λ number. IfSome number (λ number. number_in state.new.atoms (atom_of objects.now bound.now pattern.now) ≡ Some number)) }
    ensures state { state_of state.new ≡ state_of state.old }
    ensures grows { Grows state.old state.new }
{
    Ok(u32::try_from(state.number(alloc, pattern, objects, bound, atom)?).ok())
}
