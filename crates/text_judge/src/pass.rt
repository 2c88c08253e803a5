//! One pass over a text: a walk over its steps, and a judge that takes each.
ghost use Rattle.std.specs.Prelude.{◌≡◌, ◌<◌, ◌++◌, ◌∷◌, [], List, None, length, map, IfOk, IfNone, IfSome, MatchOption};
ghost use Rattle.pddl_words.specs.Words.{folded};
ghost use Rattle.strips_task.specs.declared.plans.Plan.TheVariants.{Steps, Unreadable};
ghost use Rattle.strips_task.specs.declared.steps.StepText.{StepText};
ghost use Rattle.strips_task.specs.declared.steps.TheConstants.{MOST_STEPS};
ghost use Rattle.strips_task.specs.Steps.{step_of};
ghost use Rattle.plan_text.specs.PlanReading.{plan_of};
ghost use Rattle.plan_text.specs.Walks.{HasPassed};
ghost use Rattle.text_judge.specs.Judging.{HasTaken};
ghost use Rattle.text_judge.specs.Passes.{AreTogether, EndsPass, FailsNext, GoOnOrEnd, IsTried};
ghost use Rattle.text_judge.specs.Places.{IsKnownPlace};

use crate::place::{Inside, StepPlace, place_of};
use crate::step_judge::Judge;
use plan_text::{Onward, PlanSteps, StepWords, TextStep};
use std::alloc::{AllocError, Global};
use strips_judge::Why;
use strips_task::OpenSteps;

/// How a pass over a text ended.
#[derive(Drop)]
pub(crate) enum Passed {
    /// All steps were taken, and the text is at its end.
    All,
    /// A step can't be taken. What follows it was not read.
    Fails {
        /// The step, counted from 1.
        step: u32,
        /// What is wrong with it.
        why: Why,
        /// Where it is written, if that is as a row.
        place: Option<StepPlace>,
    },
    /// The text is no plan text.
    Unreadable {
        /// The line of its first fault, counted from 1.
        line: u32,
    },
}

/// What became of the bytes between the next parentheses.
#[derive(Clone, Copy)]
enum Tried {
    /// They spell a step, which was taken.
    Taken,
    /// Nothing was taken. Here they are, if they can be.
    Left(Option<Inside>),
}

/// Takes the steps of a text one after the other, up to one that can't be taken, a fault of the text, or its end.
pub(crate) fn pass(
    alloc: Global,
    judge: &mut Judge<'_>,
    words: &mut OpenSteps,
    walk: &mut PlanSteps<'_>,
) -> Result<Passed, AllocError>
    requires { AreTogether walk.old judge.old }
    ensures task { judge.new.task ≡ judge.old.task }
    ensures text { walk.new.text ≡ walk.old.text }
    ensures passed { IfOk result (λ passed. EndsPass passed walk.new judge.new) }
{
    'steps: loop {
        if let Some(passed) = advance(alloc, judge, words, walk)? {
            return Ok(passed);
        }
    }
}

/// Goes on by a step, or by a stamp or a number alone, or returns how the pass ends here. A step whose names are written with single spaces between them
/// is taken by these bytes, and any other by its words, which say too why it can't be taken.
#[inline(always)]
pub(crate) fn advance(
    alloc: Global,
    judge: &mut Judge<'_>,
    words: &mut OpenSteps,
    walk: &mut PlanSteps<'_>,
) -> Result<Option<Passed>, AllocError>
    requires { AreTogether walk.old judge.old }
    ensures task { judge.new.task ≡ judge.old.task }
    ensures text { walk.new.text ≡ walk.old.text }
    ensures next { IfOk result (λ passed. (steps : List StepText) → HasPassed walk.old steps → HasTaken judge.old steps → GoOnOrEnd passed walk.new judge.new steps) }
    ensures shorter { IfOk result (λ passed. passed ≡ None → length walk.new.rest < length walk.old.rest) }
{
    match take_spelled(alloc, judge, walk)? {
        Tried::Taken => Ok(None),
        Tried::Left(inside) => take_next(alloc, judge, words, walk, inside),
    }
}

/// Takes the next step, if it begins right here, the bytes between its parentheses are its names with single spaces between them, and it is applicable.
/// If not, the walk stays where it is.
#[inline(always)]
fn take_spelled(
    alloc: Global,
    judge: &mut Judge<'_>,
    walk: &mut PlanSteps<'_>,
) -> Result<Tried, AllocError>
    requires { AreTogether walk.old judge.old }
    ensures task { judge.new.task ≡ judge.old.task }
    ensures text { walk.new.text ≡ walk.old.text }
    ensures tried { IfOk result (λ tried. IsTried tried walk.old walk.new judge.old judge.new) }
{
    let Some(range) = walk.next_range() else {
        return Ok(Tried::Left(None));
    };
    if !judge.take_spelled(alloc, range.key)? {
        return Ok(Tried::Left(Some(Inside {
            paren: range.start,
            size: range.key.len(),
        })));
    }
    walk.skip(range);
    Ok(Tried::Taken)
}

/// Takes the next step by its words, or passes a stamp or a number, or returns how the pass ends here. Where the next parentheses are may be known.
#[inline(always)]
fn take_next(
    alloc: Global,
    judge: &mut Judge<'_>,
    words: &mut OpenSteps,
    walk: &mut PlanSteps<'_>,
    inside: Option<Inside>,
) -> Result<Option<Passed>, AllocError>
    requires { AreTogether walk.old judge.old }
    ensures task { judge.new.task ≡ judge.old.task }
    ensures text { walk.new.text ≡ walk.old.text }
    ensures next { IfOk result (λ passed. (steps : List StepText) → HasPassed walk.old steps → HasTaken judge.old steps → GoOnOrEnd passed walk.new judge.new steps) }
    ensures shorter { IfOk result (λ passed. passed ≡ None → length walk.new.rest < length walk.old.rest) }
{
    match walk.read_on() {
        Onward::Number => Ok(None),
        Onward::Found(TextStep::End) => Ok(Some(Passed::All)),
        Onward::Found(TextStep::Unreadable { line }) => Ok(Some(Passed::Unreadable { line })),
        Onward::Found(TextStep::Step { words: found, .. }) => {
            match take_words(alloc, judge, words, found.fork())? {
                None => Ok(None),
                Some(why) => {
                    let step = walk.count() as u32;
                    let place = known_place(walk.text(), inside, step - 1, found);
                    Ok(Some(Passed::Fails { step, why, place }))
                }
            }
        }
    }
}

/// Where the step with this index and these words is written, if it is inside of these parentheses, as a row.
#[inline(never)]
fn known_place(
    text: &[u8],
    inside: Option<Inside>,
    index: u32,
    words: StepWords<'_>,
) -> Option<StepPlace>
    ensures { IsKnownPlace text.now result index (step_of (map folded words.entry)) }
{
    match inside {
        Some(inside) => place_of(text, inside, index, words),
        None => None,
    }
}

/// Takes a step of these words, or returns why it is not applicable.
fn take_words(
    alloc: Global,
    judge: &mut Judge<'_>,
    step: &mut OpenSteps,
    words: StepWords<'_>,
) -> Result<Option<Why>, AllocError>
    requires some { 0 < length words }
    requires room { judge.old.count < MOST_STEPS }
    ensures task { judge.new.task ≡ judge.old.task }
    ensures taken { IfOk result (λ why. IfNone why ((steps : List StepText) → HasTaken judge.old steps → HasTaken judge.new (steps ++ step_of (map folded words.entry) ∷ []))) }
    ensures fails { IfOk result (λ why. IfSome why (λ why. (steps : List StepText) → HasTaken judge.old steps
        → FailsNext judge.old.task steps (step_of (map folded words.entry)) why)) }
{
    step.clear();
    words.push_to(step)?;
    judge.take(alloc, step.get(0))
}

/// Walks to the end of a text, and returns the line of its first fault, if it has one.
pub(crate) fn fault_behind(walk: &mut PlanSteps<'_>) -> Option<u32>
    ensures { (steps : List StepText) → HasPassed walk.old steps → MatchOption result
        ((more : List StepText) × (plan_of walk.old.text ≡ Steps (steps ++ more))) (λ line. plan_of walk.old.text ≡ Unreadable line) }
{
    'steps: loop {
        match walk.next_step() {
            TextStep::Step { .. } => {}
            TextStep::End => return None,
            TextStep::Unreadable { line } => return Some(line),
        }
    }
}
