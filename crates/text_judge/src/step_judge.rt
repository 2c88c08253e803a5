//! A judge of many plans of one task, which takes their steps one by one and keeps what it learns of them.
ghost use Rattle.std.specs.Prelude.{◌≡◌, ◌<◌, ◌∷◌, [], ◌++◌, List, length, IsTrue, false, IfOk, OnOk, IfSome, IfNone};
ghost use Rattle.strips_task.specs.declared.plans.Plan.TheVariants.{Steps};
ghost use Rattle.strips_task.specs.declared.steps.StepText.{StepText};
ghost use Rattle.strips_task.specs.declared.steps.TheConstants.{MOST_STEPS};
ghost use Rattle.strips_task.specs.Spelled.{IsSpelled, step_spelled};
ghost use Rattle.strips_task.specs.StepView.{step_shown};
ghost use Rattle.strips_judge.specs.NumberedState.{state_of};
ghost use Rattle.strips_judge.specs.State.{is_in};
ghost use Rattle.plan_cost.specs.Assessments.{assessment};
ghost use Rattle.plan_cost.specs.CompactCosts.{IsCompact};
ghost use Rattle.text_judge.specs.Judging.{HasTaken};
ghost use Rattle.text_judge.specs.Passes.{FailsNext};

use crate::amounts::{amount_of, cost_beside, initial_of, numbered_amount, raise};
use crate::indexed_task::IndexedTask;
use crate::memo::Memo;
use crate::memo_limits::MemoLimits;
use crate::memo_policy::MemoPolicy;
use crate::names::number_names;
use crate::steps::{NewStep, take_new, take_remembered};
use plan_cost::{Assessment, CostScratch, CostedTask};
use std::alloc::{AllocError, Global};
use std::marker::Model;
use step_codes::CodeBuffer;
use strips_judge::{Atom, NumberedState, Scratch, Why, judge_goal, take_step};
use strips_task::{StepView, WordList};

/// How many atoms besides the initial ones may have numbers that are kept from one plan to the next, with all that was learned.
pub(crate) const MOST_LATER: usize = 131_072;

/// How many atoms besides the initial ones may have numbers while steps are still learned. A plan that brings up more of them repeats few of its
/// steps.
const LATER_TO_LEARN: usize = 32_768;

/// A judge of plans of one task. Contracts see the task and what is kept of the plan that is being judged.
///
/// [`begin`](Judge::begin) a plan, take its steps one by one, and [`finish`](Judge::finish) it. If a step is not applicable, or memory
/// runs out, the plan is over, and another can begin.
pub(crate) struct Judge<'t> {
    task: IndexedTask<'t>,
    limits: MemoLimits,
    state: NumberedState<'t>,
    memo: Memo,
    /// Room for a name in lower case.
    name: WordList,
    /// The numbers of the step that is being taken.
    numbers: Vec<u16>,
    code: CodeBuffer,
    scratch: Scratch,
    cost_scratch: CostScratch,
    cost: Option<u128>,
    count: usize,
    policy: MemoPolicy,
}

impl Drop for Judge<'_> {
    fn drop(self) {
        let Self {
            task: _,
            limits: _,
            state: _,
            memo: _,
            name: _,
            numbers: _,
            code: _,
            scratch: _,
            cost_scratch: _,
            cost: _,
            count: _,
            policy: _,
        } = self;
    }
}

impl<'t> Model for Judge<'t> {
    ghost use Rattle.std.specs.Prelude.{◌≡◌};
    ghost use Rattle.text_judge.specs.Judging.{Judging};
    ghost use Rattle.text_judge.specs.Learned.{IsJudge};

    ghost Value = { Judging };

    ghost use Rattle.formulas.specs.contracts.effect.Effect as effect;
    ghost use Rattle.formulas.specs.contracts.formula.Formula as formula;
    ghost use Rattle.std.specs.Coded.{codes};

    ghost coded = { Prim.hlevel (codes, formula.the_row.coded, effect.the_row.coded) };

    ghost view = { λ j. record { task = j.task; state = j.state; cost = j.cost; count = j.count } };

    ghost invariant = { λ j. IsJudge j.task j.state j.memo j.cost j.count };
}

impl<'t> Judge<'t> {
    /// A judge of a task that has seen no step, at the beginning of a plan. It is one of `judges` that share the room for known steps. Takes memory
    /// for one bit for each initial atom.
    pub(crate) fn new(
        alloc: Global,
        task: &'t CostedTask,
        judges: u32,
    ) -> Result<Judge<'t>, AllocError>
        ensures task { IfOk result (λ judge. judge.task ≡ task.now) }
        ensures begun { IfOk result (λ judge. HasTaken judge []) }
    {
        let initial = task.task.initial_atoms();
        let limits = MemoLimits::of_each(judges);
        let objects = task.task.object_count();
        let state = NumberedState::new(alloc, initial, objects, limits.cells)?;
        Ok(Judge {
            task: IndexedTask::new(alloc, task)?,
            limits,
            state,
            memo: Memo::new(alloc, initial.seed(), limits),
            name: WordList::new(alloc),
            numbers: Vec::new(alloc),
            code: CodeBuffer::new(alloc),
            scratch: Scratch::new(alloc),
            cost_scratch: CostScratch::new(alloc),
            cost: Some(u128::from(initial_of(alloc, task))),
            count: 0,
            policy: MemoPolicy::new(),
        })
    }

    /// Begins a plan: the initial atoms are true and no others. Takes a pass over the words of the state's bits.
    ///
    /// If more than [`MOST_LATER`] atoms besides the initial ones have numbers, it forgets all codes and these numbers, and takes memory for
    /// another state.
    pub(crate) fn begin(&mut self, alloc: Global) -> Result<(), AllocError>
        ensures task { self.new.task ≡ self.old.task }
        ensures begun { OnOk result (HasTaken self.new []) }
    {
        self.start_over(alloc)?;
        self.policy.begin();
        self.cost = Some(u128::from(initial_of(alloc, self.task.costed())));
        self.count = 0;
        Ok(())
    }

    /// Makes the initial atoms true and no others.
    fn start_over(&mut self, alloc: Global) -> Result<(), AllocError>
        ensures task { self.new.task ≡ self.old.task }
        ensures state { OnOk result (state_of self.new.state ≡ is_in self.new.task.task.init) }
    {
        if self.state.later_len() > MOST_LATER {
            return self.forget(alloc);
        }
        self.state.reset();
        Ok(())
    }

    /// Forgets all codes and numbers, and makes the initial atoms true.
    fn forget(&mut self, alloc: Global) -> Result<(), AllocError>
        ensures task { self.new.task ≡ self.old.task }
        ensures state { OnOk result (state_of self.new.state ≡ is_in self.new.task.task.init) }
    {
        let task = &self.task.costed().task;
        let initial = task.initial_atoms();
        let objects = task.object_count();
        let state = NumberedState::new(alloc, initial, objects, self.limits.cells)?;
        self.memo.clear();
        self.state = state;
        Ok(())
    }

    /// How many steps of the plan were taken.
    pub(crate) fn steps(&self) -> usize
        ensures steps { (steps : List StepText) → HasTaken self.now steps → result ≡ length steps }
        ensures count { result ≡ self.now.count }
    {
        self.count
    }

    /// Takes the step that a row spells, if it is known, or if its names are and it is applicable. Otherwise no atom is changed. Returns whether it did.
    #[inline(never)]
    pub(crate) fn take_spelled(&mut self, alloc: Global, row: &[u8]) -> Result<bool, AllocError>
        requires { self.old.count < MOST_STEPS }
        ensures task { self.new.task ≡ self.old.task }
        ensures spelled { IfOk result (λ taken. IsTrue taken → IsSpelled row.now) }
        ensures taken { IfOk result (λ taken. IsTrue taken → (steps : List StepText) → HasTaken self.old steps
            → HasTaken self.new (steps ++ step_spelled row.now ∷ [])) }
        ensures not { IfOk result (λ taken. taken ≡ false → (steps : List StepText) → HasTaken self.old steps → HasTaken self.new steps) }
    {
        if !self.policy.asks() {
            return self.take_by_names(alloc, row, None);
        }
        let hash = self.memo.hash_of(row);
        if self.take_known(hash, row)? {
            return Ok(true);
        }
        self.take_by_names(alloc, row, Some(hash))
    }

    /// Takes the step that a key with this hash spells, if it is known and applicable, and otherwise changes nothing. Returns whether it did.
    ///
    /// Takes memory only for the changes of conditional effects. The key may be any bytes: only a step that
    /// [`take_by_names`](Judge::take_by_names) learned under the same bytes is known.
    #[inline(always)]
    fn take_known(&mut self, hash: u32, key: &[u8]) -> Result<bool, AllocError>
        requires { self.old.count < MOST_STEPS }
        ensures task { self.new.task ≡ self.old.task }
        ensures spelled { IfOk result (λ taken. IsTrue taken → IsSpelled key.now) }
        ensures taken { IfOk result (λ taken. IsTrue taken → (steps : List StepText) → HasTaken self.old steps
            → HasTaken self.new (steps ++ step_spelled key.now ∷ [])) }
        ensures not { IfOk result (λ taken. taken ≡ false → (steps : List StepText) → HasTaken self.old steps → HasTaken self.new steps) }
        ensures count { IfOk result (λ taken. taken ≡ false → self.new.count ≡ self.old.count) }
    {
        let scratch = &mut self.scratch;
        let state = &mut self.state;
        let found = take_remembered(&self.task, &self.memo, state, hash, key, scratch)?;
        self.policy.note(found.is_some());
        let Some(amount) = found else {
            return Ok(false);
        };
        raise(&mut self.cost, Some(u128::from(amount)));
        self.count += 1;
        Ok(true)
    }

    /// Takes the step that a row spells, if its names are known and it is applicable, and otherwise changes no atom. Returns whether it did.
    /// Learns a step that has a code while there is room, if its hash is given.
    ///
    /// Takes a few reads of memory for each name and for each atom, fewer for those that were looked up before, and memory for what is new. If memory runs
    /// out, the plan is over.
    #[inline(never)]
    fn take_by_names(
        &mut self,
        alloc: Global,
        row: &[u8],
        hash: Option<u32>,
    ) -> Result<bool, AllocError>
        requires { self.old.count < MOST_STEPS }
        ensures task { self.new.task ≡ self.old.task }
        ensures spelled { IfOk result (λ taken. IsTrue taken → IsSpelled row.now) }
        ensures taken { IfOk result (λ taken. IsTrue taken → (steps : List StepText) → HasTaken self.old steps
            → HasTaken self.new (steps ++ step_spelled row.now ∷ [])) }
        ensures not { IfOk result (λ taken. taken ≡ false → (steps : List StepText) → HasTaken self.old steps → HasTaken self.new steps) }
    {
        let task = self.task.costed();
        if !number_names(&task.task, row, &mut self.name, &mut self.numbers)? {
            return Ok(false);
        }
        let hash = if self.may_learn() { hash } else { None };
        let numbers = self.numbers.as_slice();
        let amount = numbered_amount(task, numbers, &mut self.cost_scratch)?;
        let step = NewStep {
            key: row,
            numbers,
            amount,
            hash,
        };
        let is_taken = take_new(
            alloc,
            &self.task,
            step,
            &mut self.state,
            &mut self.memo,
            &mut self.scratch,
            &mut self.code,
        )?;
        if !is_taken {
            return Ok(false);
        }
        raise(&mut self.cost, amount);
        self.count += 1;
        Ok(true)
    }

    /// Whether steps may be learned: only if not too many atoms have numbers.
    fn may_learn(&self) -> bool {
        self.state.later_len() <= LATER_TO_LEARN
    }

    /// Takes a step if it is applicable, and otherwise returns why it is not.
    ///
    /// Takes one hash for each word and each atom of the step, and memory for what is new. If memory runs out, the plan is over.
    pub(crate) fn take(
        &mut self,
        alloc: Global,
        step: StepView<'_>,
    ) -> Result<Option<Why>, AllocError>
        requires { self.old.count < MOST_STEPS }
        ensures task { self.new.task ≡ self.old.task }
        ensures taken { IfOk result (λ why. IfNone why ((steps : List StepText) → HasTaken self.old steps
            → HasTaken self.new (steps ++ step_shown step.entry ∷ []))) }
        ensures fails { IfOk result (λ why. IfSome why (λ why. (steps : List StepText) → HasTaken self.old steps
            → FailsNext self.old.task steps (step_shown step.entry) why)) }
    {
        let index = self.task.index();
        if let Some(why) = take_step(alloc, index, step, &mut self.state, &mut self.scratch)? {
            return Ok(Some(why));
        }
        let amount = amount_of(self.task.costed(), step, &mut self.cost_scratch)?;
        raise(&mut self.cost, amount);
        self.count += 1;
        Ok(None)
    }

    /// The assessment of the plan of the steps that were taken: whether the goal holds after them, and what they cost. Takes memory for the
    /// conditions of the goal that do not hold.
    pub(crate) fn finish(&mut self, alloc: Global) -> Result<Assessment, AllocError>
        ensures answer { IfOk result (λ answer. (steps : List StepText) → HasTaken self.old steps → answer ≡ assessment self.old.task (Steps steps)) }
        ensures compact { IfOk result (λ answer. IsCompact answer.cost) }
        ensures same { self.new ≡ self.old }
    {
        let index = self.task.index();
        let steps = self.count as u32;
        let verdict = judge_goal(alloc, index, &mut self.state, &mut self.scratch, steps)?;
        let cost = cost_beside(&self.task.costed().costs, &verdict, self.cost);
        Ok(Assessment { verdict, cost })
    }

    /// Whether an atom is true after the steps that were taken. Takes one or two hashes.
    pub(crate) fn holds(&self, atom: &Atom) -> bool
        ensures { result ≡ state_of self.now.state atom.now }
    {
        self.state.contains(atom)
    }
}
