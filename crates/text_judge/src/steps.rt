//! Steps that are taken by what is known of them.
ghost use Rattle.std.specs.Prelude.{◌≡◌, false, Some, None, All, IsTrue, IfOk, IfSome, OnErr};
ghost use Rattle.strips_task.specs.Spelled.{IsSpelled, step_spelled};
ghost use Rattle.strips_task.specs.declared.steps.StepText.{StepText};
ghost use Rattle.step_codes.specs.Codes.{IsCode};
ghost use Rattle.strips_judge.specs.NumberedState.{Grows, state_of};
ghost use Rattle.strips_judge.specs.Statics.{KeepsStatics};
ghost use Rattle.strips_judge.specs.Step.{after, hindrance};
ghost use Rattle.strips_judge.specs.StepNumbers.{AreWithin, IsNumbered};
ghost use Rattle.text_judge.specs.Learned.{IsAmount, IsLearned, Takes};

use crate::indexed_task::IndexedTask;
use crate::memo::Memo;
use std::alloc::{AllocError, Global};
use step_codes::{CodeBuffer, code_of_numbered, take_by_code, take_numbered};
use strips_judge::{NumberedState, Scratch, TaskIndex};

/// Takes the step that a key with this hash spells, if it is known and applicable, and returns what it adds to the cost. Otherwise changes nothing.
/// The task is only there for the contract. If memory runs out, nothing is changed either.
#[inline(always)]
pub(crate) fn take_remembered(
    _task: &IndexedTask<'_>,
    memo: &Memo,
    state: &mut NumberedState<'_>,
    hash: u32,
    key: &[u8],
    scratch: &mut Scratch,
) -> Result<Option<u64>, AllocError>
    requires { All (IsLearned _task.now state.old.atoms) memo.now }
    ensures spelled { IfOk result (λ amount. IfSome amount (λ amount. IsSpelled key.now)) }
    ensures taken { IfOk result (λ amount. IfSome amount (λ amount. KeepsStatics _task.now.task (state_of state.old)
        → Takes _task.now (state_of state.old) (state_of state.new) (step_spelled key.now) (Some amount))) }
    ensures not { IfOk result (λ amount. amount ≡ None → state_of state.new ≡ state_of state.old) }
    ensures failed { OnErr result (state.new ≡ state.old) }
    ensures atoms { state.new.atoms ≡ state.old.atoms }
    ensures initial { state.new.initial ≡ state.old.initial }
{
    let Some(known) = memo.find(hash, key) else {
        return Ok(None);
    };
    if take_by_code(state, known.code, scratch)? {
        Ok(Some(known.amount))
    } else {
        Ok(None)
    }
}

/// A step whose names were found.
#[derive(Clone, Copy)]
pub(crate) struct NewStep<'s> {
    /// The bytes that spell it.
    pub key: &'s [u8],
    /// The numbers of its action and of its objects.
    pub numbers: &'s [u16],
    /// What it adds to the cost, if that is defined.
    pub amount: Option<u128>,
    /// The hash of these bytes, if the step may be learned.
    pub hash: Option<u32>,
}

/// Takes a step if it is applicable, and otherwise changes no atom. Returns whether it did. Learns the step first, if it may be learned, is not
/// known, and has a code and room. If memory runs out, some effects may have happened.
#[inline(always)]
pub(crate) fn take_new(
    alloc: Global,
    task: &IndexedTask<'_>,
    step: NewStep<'_>,
    state: &mut NumberedState<'_>,
    memo: &mut Memo,
    scratch: &mut Scratch,
    code: &mut CodeBuffer,
) -> Result<bool, AllocError>
    requires spelled { IsSpelled step.key.now }
    requires numbered { IsNumbered task.now.task (step_spelled step.key.now) step.numbers.now }
    requires within { AreWithin task.now.task step.numbers.now }
    requires amount { IsAmount task.now.task task.now.costs (step_spelled step.key.now) step.amount }
    requires learned { All (IsLearned task.now state.old.atoms) memo.old }
    ensures learned { All (IsLearned task.now state.new.atoms) memo.new }
    ensures initial { state.new.initial ≡ state.old.initial }
    ensures taken { IfOk result (λ taken. IsTrue taken → KeepsStatics task.now.task (state_of state.old)
        → (hindrance task.now.task (state_of state.old) (step_spelled step.entry.key.now) ≡ None)
        × (state_of state.new ≡ after task.now.task (state_of state.old) (step_spelled step.entry.key.now))) }
    ensures not { IfOk result (λ taken. taken ≡ false → state_of state.new ≡ state_of state.old) }
{
    let index = task.index();
    let found = lesson_of(alloc, index, step, state, memo, scratch, code)?;
    let Some(lesson) = found else {
        return take_numbered(alloc, index, step.numbers, state, scratch);
    };
    memo.add(lesson.hash, step.key, code.code(), lesson.amount)?;
    take_by_code(state, code.code(), scratch)
}

/// What is learned of a step besides its code.
#[derive(Clone, Copy)]
struct Lesson {
    /// The hash of its key.
    hash: u32,
    /// What it adds to the cost.
    amount: u64,
}

/// Puts the code of a step into a buffer and returns what else is to be learned of the step, if it may be learned, is not known and has a code, and what
/// it adds to the cost is defined and has at most 64 bits. No atom becomes true or false.
fn lesson_of(
    alloc: Global,
    task: &TaskIndex<'_>,
    step: NewStep<'_>,
    state: &mut NumberedState<'_>,
    memo: &Memo,
    scratch: &mut Scratch,
    code: &mut CodeBuffer,
) -> Result<Option<Lesson>, AllocError>
    requires { AreWithin task.now step.numbers.now }
    ensures amount { IfOk result (λ lesson. IfSome lesson (λ lesson. step.entry.amount ≡ Some lesson.amount)) }
    ensures code { IfOk result (λ lesson. IfSome lesson (λ _. (spelled : StepText) → IsNumbered task.now spelled step.entry.numbers.now
        → IsCode task.now state.new.atoms spelled code.new)) }
    ensures state { state_of state.new ≡ state_of state.old }
    ensures grows { Grows state.old state.new }
{
    let Some(lesson) = unlearned(memo, step) else {
        return Ok(None);
    };
    if code_of_numbered(alloc, task, step.numbers, state, scratch, code)? {
        Ok(Some(lesson))
    } else {
        Ok(None)
    }
}

/// What is to be learned of a step besides its code, if it may be learned and is not known.
fn unlearned(memo: &Memo, step: NewStep<'_>) -> Option<Lesson>
    ensures { IfSome result (λ lesson. step.entry.amount ≡ Some lesson.amount) }
{
    let hash = step.hash?;
    if memo.find(hash, step.key).is_some() {
        return None;
    }
    let amount = u64::try_from(step.amount?).ok()?;
    Some(Lesson { hash, amount })
}
