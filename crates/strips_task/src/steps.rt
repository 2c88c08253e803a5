//! The steps of a plan, as folded text.
//!
//! A reader hands the words of a step to an [`OpenSteps`] one by one, and closes the step. A judge later gets a [`StepView`] of each step of the
//! [`StepList`]. No step is kept by itself: all words are in one [`WordList`], and a step is a range of them.
ghost use Rattle.strips_task.specs.declared.steps.TheConstants.{MOST_STEPS};
ghost use Rattle.std.specs.Prelude.{◌≡◌, ◌+◌, ◌<◌, ◌≤◌, ◌↔◌, ℕ, List, [], ◌∷◌, ◌++◌, length, slice_get, IsTrue, OnOk, OnErr, IfErr, Some};
ghost use Rattle.pddl_words.specs.Words.{folded};
ghost use Rattle.strips_task.specs.Steps.{step_of};
ghost use Rattle.strips_task.specs.OpenPlan.{IsExtension};
ghost use Rattle.strips_task.specs.StepView.{step_shown};

use crate::{Name, Seq, StepView, WordList};
use std::alloc::{AllocError, AllocFailed, Global};
use std::marker::Model;

/// How many steps a plan may have.
pub const MOST_STEPS: usize = 1_000_000;

/// One step of a plan: the names of the action and of its arguments, in lower case.
#[derive(Drop)]
pub struct StepText {
    /// The action's name.
    pub action: Name,
    /// The names of the objects.
    pub args: Seq<Name>,
}

/// Where the words of a step are: from the index `first` up to but not including `end`.
#[derive(Clone, Copy, PartialEq, Eq)]
pub struct StepRange {
    pub first: usize,
    pub end: usize,
}

/// The steps of a plan, at most [`MOST_STEPS`]. Contracts see the list of them.
pub struct StepList {
    words: WordList,
    ranges: Vec<StepRange>,
}

impl Drop for StepList {
    fn drop(self) {
        let Self {
            words: _,
            ranges: _,
        } = self;
    }
}

impl Model for StepList {
    ghost use Rattle.std.specs.Prelude.{List, ℕ, ◌≤◌, map, All, length};
    ghost use Rattle.strips_task.specs.declared.steps.StepText.{StepText};
    ghost use Rattle.strips_task.specs.declared.steps.TheConstants.{MOST_STEPS};
    ghost use Rattle.strips_task.specs.Steps.{step_at};
    ghost use Rattle.strips_task.specs.OpenPlan.{IsStepRange};

    ghost Value = { List StepText };

    ghost view = { λ s. map (step_at s.words) s.ranges.items };

    ghost invariant = { λ s. All (IsStepRange (length s.words)) s.ranges.items × (length s.ranges.items ≤ MOST_STEPS) };
}

impl StepList {
    /// The empty list. Takes no memory.
    pub fn new(alloc: Global) -> Self
        ensures { result ≡ [] }
    {
        StepList {
            words: WordList::new(alloc),
            ranges: Vec::new(alloc),
        }
    }

    /// Adds a step at the end. If memory runs out, the step is given back.
    pub fn push(&mut self, step: StepText) -> Result<(), AllocFailed<StepText>>
        requires { length self.old < MOST_STEPS }
        ensures ok { OnOk result (self.new ≡ self.old ++ step ∷ []) }
        ensures err { OnErr result (self.new ≡ self.old) }
        ensures value_returned { IfErr result (λ failed. failed.value ≡ step) }
    {
        match self.append(&step) {
            Ok(()) => Ok(()),
            Err(_) => Err(AllocFailed { value: step }),
        }
    }

    /// Adds the words of a step and their range. If memory runs out, some words may be left after those of all steps.
    #[tactic(auto, using(crate::proofs::StepWords::steps_more, crate::proofs::StepWords::ranges_more, crate::proofs::StepWords::steps_extended))]
    fn append(&mut self, step: &StepText) -> Result<(), AllocError>
        requires { length self.old < MOST_STEPS }
        ensures ok { OnOk result (self.new ≡ self.old ++ step.now ∷ []) }
        ensures err { OnErr result (self.new ≡ self.old) }
    {
        let first = self.words.len();
        push_words(&mut self.words, step)?;
        let end = self.words.len();
        self.ranges.push(StepRange { first, end })?;
        Ok(())
    }

    /// How many steps the plan has.
    pub fn len(&self) -> usize
        ensures len { result ≡ length self.now }
        ensures limit { length self.now ≤ MOST_STEPS }
    {
        self.ranges.len()
    }

    /// Whether the plan has no step.
    pub fn is_empty(&self) -> bool
        ensures { IsTrue result ↔ (length self.now ≡ 0) }
    {
        self.ranges.len() == 0
    }

    /// A view of the step with an index, counted from 0.
    pub fn get(&self, index: usize) -> StepView<'_>
        requires { index < length self.now }
        ensures { slice_get self.now index ≡ Some (step_shown result) }
    {
        let range = self.ranges[index];
        StepView::new(&self.words, range.first, range.end)
    }
}

/// Adds a step's words after those that are there. If memory runs out, only some of them are added.
fn push_words(words: &mut WordList, step: &StepText) -> Result<(), AllocError>
    ensures ok { OnOk result (words.new ≡ words.old ++ step.now.action ∷ step.now.args) }
    ensures kept { IsExtension words.old words.new }
{
    words.push_folded(step.action.as_bytes())?;
    for name in step.args.as_slice() {
        words.push_folded(name.as_bytes())?;
    }
    Ok(())
}

/// The steps of a plan while a reader reads them: those that are complete, and the words of the one that is open.
pub struct OpenSteps {
    words: WordList,
    ranges: Vec<StepRange>,
    first: usize,
}

impl Drop for OpenSteps {
    fn drop(self) {
        let Self {
            words: _,
            ranges: _,
            first: _,
        } = self;
    }
}

impl Model for OpenSteps {
    ghost use Rattle.std.specs.Prelude.{◌≤◌, map, All, length, drop};
    ghost use Rattle.strips_task.specs.OpenPlan.{OpenPlan};
    ghost use Rattle.strips_task.specs.declared.steps.TheConstants.{MOST_STEPS};
    ghost use Rattle.strips_task.specs.Steps.{step_at};
    ghost use Rattle.strips_task.specs.OpenPlan.{IsStepRange};

    ghost Value = { OpenPlan };

    ghost view = { λ s. record { steps = map (step_at s.words) s.ranges.items; words = drop s.first s.words } };

    ghost invariant = { λ s. All (IsStepRange (length s.words)) s.ranges.items × (length s.ranges.items ≤ MOST_STEPS) × (s.first ≤ length s.words) };
}

impl OpenSteps {
    /// No step, and no word. Takes no memory.
    pub fn new(alloc: Global) -> Self
        ensures { result ≡ record { steps = []; words = [] } }
    {
        OpenSteps {
            words: WordList::new(alloc),
            ranges: Vec::new(alloc),
            first: 0,
        }
    }

    /// Removes all steps and all words of the open one. Keeps the room, so that reading many steps one by one takes memory once.
    pub fn clear(&mut self)
        ensures { self.new ≡ record { steps = []; words = [] } }
    {
        self.words.clear();
        self.ranges.clear();
        self.first = 0;
    }

    /// Adds a word to the open step, in lower case. If memory runs out, nothing changes.
    pub fn push_word(&mut self, word: &[u8]) -> Result<(), AllocError>
        ensures ok { OnOk result (self.new ≡ record { steps = self.old.steps; words = self.old.words ++ folded word.now ∷ [] }) }
        ensures err { OnErr result (self.new ≡ self.old) }
    {
        self.words.push_folded(word)?;
        Ok(())
    }

    /// Completes the open step. If memory runs out, nothing changes.
    pub fn close_step(&mut self) -> Result<(), AllocError>
        requires has_action { 0 < length self.old.words }
        requires room { length self.old.steps < MOST_STEPS }
        ensures ok { OnOk result (self.new ≡ record { steps = self.old.steps ++ step_of self.old.words ∷ []; words = [] }) }
        ensures err { OnErr result (self.new ≡ self.old) }
    {
        let end = self.words.len();
        self.ranges.push(StepRange {
            first: self.first,
            end,
        })?;
        self.first = end;
        Ok(())
    }

    /// How many steps are complete.
    pub fn len(&self) -> usize
        ensures len { result ≡ length self.now.steps }
        ensures limit { length self.now.steps ≤ MOST_STEPS }
    {
        self.ranges.len()
    }

    /// A view of the complete step with an index, counted from 0.
    pub fn get(&self, index: usize) -> StepView<'_>
        requires { index < length self.now.steps }
        ensures { slice_get self.now.steps index ≡ Some (step_shown result) }
    {
        let StepRange { first, end } = self.ranges[index];
        StepView::new(&self.words, first, end)
    }

    /// The plan of the complete steps. Takes no memory and copies nothing.
    pub fn finish(self) -> StepList
        ensures { result ≡ self.steps }
    {
        let OpenSteps {
            words,
            ranges,
            first: _,
        } = self;
        StepList { words, ranges }
    }
}
