//! The judge.
ghost use Rattle.std.specs.Prelude.{◌≡◌, [], List, None, length, IfOk, IfSome};
ghost use Rattle.strips_task.specs.declared.plans.Plan.TheVariants.{Steps};
ghost use Rattle.strips_task.specs.declared.steps.StepText.{StepText};
ghost use Rattle.strips_judge.specs.Verdict.{verdict};
ghost use Rattle.plan_cost.specs.Assessments.{assessment};
ghost use Rattle.plan_cost.specs.CompactCosts.{IsCompact};
ghost use Rattle.plan_text.specs.PlanReading.{plan_of};
ghost use Rattle.plan_text.specs.Walks.{HasPassed};
ghost use Rattle.text_judge.specs.Judging.{HasTaken};
ghost use Rattle.text_judge.specs.History.{AreLastChanges, steps_taken};
ghost use Rattle.text_judge.specs.Passes.{unreadable};
ghost use Rattle.text_judge.specs.Places.{IsPlaceIn};
ghost use Rattle.text_judge.specs.Watches.{AreWatched};

use crate::history::{Watch, changes_of, watch_all, watch_steps};
use crate::pass::{Passed, fault_behind, pass};
use crate::place::StepPlace;
use crate::step_judge::Judge;
use plan_cost::{Assessment, Cost, CostedTask};
use plan_text::PlanSteps;
use std::alloc::{AllocError, Global};
use std::marker::Model;
use strips_judge::Verdict;
use strips_task::{Atom, OpenSteps};

/// What a judge finds about the plan of a text.
#[derive(Drop)]
pub struct Assessed {
    /// The verdict, and what the plan costs.
    pub assessment: Assessment,
    /// Where the step that fails is written, if one does, and if that is as a row.
    pub place: Option<StepPlace>,
}

/// A judge of the plans of one task, for one thread. Contracts see the task.
pub struct TextJudge<'t> {
    task: &'t CostedTask,
    judge: Judge<'t>,
    /// The words of the step that is being read.
    words: OpenSteps,
}

impl Drop for TextJudge<'_> {
    fn drop(self) {
        let Self {
            task: _,
            judge: _,
            words: _,
        } = self;
    }
}

impl<'t> Model for TextJudge<'t> {
    ghost use Rattle.std.specs.Prelude.{◌≡◌};
    ghost use Rattle.strips_task.specs.declared.costs.CostedTask.{CostedTask};

    ghost Value = { CostedTask };

    ghost use Rattle.formulas.specs.contracts.effect.Effect as effect;
    ghost use Rattle.formulas.specs.contracts.formula.Formula as formula;
    ghost use Rattle.std.specs.Coded.{codes};

    ghost coded = { Prim.hlevel (codes, formula.the_row.coded, effect.the_row.coded) };

    ghost view = { λ judge. judge.task.now };

    ghost invariant = { λ judge. judge.judge.task ≡ judge.task.now };
}

impl<'t> TextJudge<'t> {
    /// A judge that has seen no step, one of `judges` that share the room for known steps. Takes memory for a bit for each initial atom.
    pub fn new(
        alloc: Global,
        task: &'t CostedTask,
        judges: u32,
    ) -> Result<TextJudge<'t>, AllocError>
        ensures { IfOk result (λ judge. judge ≡ task.now) }
    {
        Ok(TextJudge {
            task,
            judge: Judge::new(alloc, task, judges)?,
            words: OpenSteps::new(alloc),
        })
    }

    /// The task.
    pub fn task(&self) -> &'t CostedTask
        ensures { result.now ≡ self.now }
    {
        self.task
    }

    /// Judges the plan of a text, and adds up what it costs if it is valid and the task counts costs. Says too where the step that fails is written, so
    /// that whoever shows it need not read the plan again.
    ///
    /// One pass over the text. The judge takes memory for steps and atoms that it has not seen before, within the bounds of `memo`.
    pub fn assess(&mut self, alloc: Global, text: &[u8]) -> Result<Assessed, AllocError>
        ensures answer { IfOk result (λ assessed. assessed.assessment ≡ assessment self.old (plan_of text.now)) }
        ensures compact { IfOk result (λ assessed. IsCompact assessed.assessment.cost) }
        ensures place { IfOk result (λ assessed. IfSome assessed.place (IsPlaceIn text.now)) }
        ensures task { self.new ≡ self.old }
    {
        match PlanSteps::new(text) {
            Some(mut walk) => assess_steps(alloc, &mut self.judge, &mut self.words, &mut walk),
            None => Ok(unreadable(1)),
        }
    }

    /// For each atom the number of the last step, counted from 1, that changed whether it is true, if one did. The steps are those of the
    /// text's plan, up to the one at which it fails. For a text that is no plan text the answer means nothing.
    ///
    /// One pass over the text. Each atom is checked after each step, so this is meant for a few atoms.
    pub fn last_changes(
        &mut self,
        alloc: Global,
        text: &[u8],
        atoms: &[Atom],
    ) -> Result<Vec<Option<usize>>, AllocError>
        ensures one_each { IfOk result (λ changes. length changes.items ≡ length atoms.now) }
        ensures changes { IfOk result (λ changes. (steps : List StepText) → plan_of text.now ≡ Steps steps
            → AreLastChanges self.old.task (steps_taken (verdict self.old.task (Steps steps)) steps) atoms.now changes.items) }
        ensures task { self.new ≡ self.old }
    {
        self.judge.begin(alloc)?;
        let mut watches = watch_all(alloc, &self.judge, atoms)?;
        match PlanSteps::new(text) {
            Some(mut walk) => {
                follow(
                    alloc,
                    &mut self.judge,
                    &mut self.words,
                    &mut walk,
                    atoms,
                    watches.as_mut_slice(),
                )?;
                changes_of(alloc, watches.as_slice())
            }
            None => changes_of(alloc, watches.as_slice()),
        }
    }
}

/// Watches atoms while the steps of a text are taken. The walk is at the first step.
fn follow(
    alloc: Global,
    judge: &mut Judge<'_>,
    words: &mut OpenSteps,
    walk: &mut PlanSteps<'_>,
    atoms: &[Atom],
    watches: &mut [Watch],
) -> Result<(), AllocError>
    requires passed { HasPassed walk.old [] }
    requires taken { HasTaken judge.old [] }
    requires watched { AreWatched judge.old.task.task [] atoms.now watches.old }
    ensures task { judge.new.task ≡ judge.old.task }
    ensures watched { IfOk result (λ _. (steps : List StepText) → plan_of walk.old.text ≡ Steps steps
        → AreWatched judge.old.task.task (steps_taken (verdict judge.old.task.task (Steps steps)) steps) atoms.now watches.new) }
{
    match watch_steps(alloc, judge, words, walk, atoms, watches)? {
        Passed::All => Ok(()),
        Passed::Unreadable { .. } => Ok(()),
        Passed::Fails { .. } => {
            let _ = fault_behind(walk);
            Ok(())
        }
    }
}

/// Judges the plan of a text. The walk is at the first step.
fn assess_steps(
    alloc: Global,
    judge: &mut Judge<'_>,
    words: &mut OpenSteps,
    walk: &mut PlanSteps<'_>,
) -> Result<Assessed, AllocError>
    requires { HasPassed walk.old [] }
    ensures answer { IfOk result (λ assessed. assessed.assessment ≡ assessment judge.old.task (plan_of walk.old.text)) }
    ensures compact { IfOk result (λ assessed. IsCompact assessed.assessment.cost) }
    ensures place { IfOk result (λ assessed. IfSome assessed.place (IsPlaceIn walk.old.text)) }
    ensures task { judge.new.task ≡ judge.old.task }
{
    judge.begin(alloc)?;
    match pass(alloc, judge, words, walk)? {
        Passed::All => Ok(Assessed {
            assessment: judge.finish(alloc)?,
            place: None,
        }),
        Passed::Unreadable { line } => Ok(unreadable(line)),
        Passed::Fails { step, why, place } => match fault_behind(walk) {
            Some(line) => Ok(unreadable(line)),
            None => Ok(Assessed {
                assessment: Assessment {
                    verdict: Verdict::Fails { step, why },
                    cost: Cost::NotCounted,
                },
                place,
            }),
        },
    }
}

/// What is found about a text that is no plan text.
fn unreadable(line: u32) -> Assessed
    ensures answer { result.assessment ≡ unreadable line }
    ensures compact { IsCompact result.assessment.cost }
    ensures place { result.place ≡ None }
{
    Assessed {
        assessment: Assessment {
            verdict: Verdict::Unreadable { line },
            cost: Cost::NotCounted,
        },
        place: None,
    }
}
