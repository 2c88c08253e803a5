//! Whether texts have the same plan, or a given one, without reading a plan into memory.

ghost use Rattle.std.specs.Prelude.{◌≡◌, ◌<◌, [], List, length, map};
ghost use Rattle.std.specs.Cmp.Lexicographic.{pointwise};
ghost use Rattle.std.specs.Str.{bytes_eq};
ghost use Rattle.pddl_words.specs.Words.{folded};
ghost use Rattle.strips_task.specs.declared.plans.Plan.TheVariants.{Steps};
ghost use Rattle.strips_task.specs.declared.steps.StepText.{StepText};
ghost use Rattle.strips_task.specs.Plans.{plan_eq};
ghost use Rattle.strips_task.specs.StepView.{step_shown};
ghost use Rattle.strips_task.specs.Steps.{step_of, step_eq};
ghost use Rattle.plan_text.specs.PlanReading.{plan_of};
ghost use Rattle.plan_text.specs.Walks.{HasPassed};
ghost use Rattle.plan_text.specs.Comparing.{EndsAs, PartAt, has_at};

use crate::walk::{PlanSteps, StepWords, TextStep};
use pddl_tokens::same_folded;
use strips_task::{Plan, StepList, StepView};

/// Whether two texts have the same plan: the same steps, or their first faults in the same line. Takes no memory.
///
/// Texts with equal bytes are not read. Other texts are read to their ends.
pub fn same_plans(text: &[u8], other: &[u8]) -> bool
    ensures { result ≡ plan_eq (plan_of text.now) (plan_of other.now) }
{
    if text == other {
        return true;
    }
    let Some(first) = PlanSteps::new(text) else {
        return is_plan_of(&Plan::Unreadable { line: 1 }, other);
    };
    let Some(second) = PlanSteps::new(other) else {
        return is_plan_of(&Plan::Unreadable { line: 1 }, text);
    };
    have_same_plan(first, second)
}

/// Whether two texts whose walks are at their starts have the same plan.
fn have_same_plan(mut first: PlanSteps<'_>, mut second: PlanSteps<'_>) -> bool
    requires { HasPassed first [] × HasPassed second [] }
    ensures { result ≡ plan_eq (plan_of first.entry.text) (plan_of second.entry.text) }
{
    let mut same = true;
    'steps: loop {
        match (first.next_step(), second.next_step()) {
            (
                TextStep::Step { words, key: _ },
                TextStep::Step {
                    words: others,
                    key: _,
                },
            ) => same &= are_same_words(words, others),
            (TextStep::End, TextStep::End) => return same,
            _ => return have_same_fault(first, second),
        }
    }
}

/// Whether two texts have their first faults in the same line, if they have no plan with steps in common.
fn have_same_fault(first: PlanSteps<'_>, second: PlanSteps<'_>) -> bool
    requires { PartAt first second }
    ensures { result ≡ plan_eq (plan_of first.entry.text) (plan_of second.entry.text) }
{
    let fault = first_fault(first);
    let other = first_fault(second);
    fault.is_some() && fault == other
}

/// The line of a text's first fault, counted from 1; `None` if the text is a plan text.
fn first_fault(mut walk: PlanSteps<'_>) -> Option<u32>
    ensures { (steps : List StepText) → HasPassed walk.entry steps → EndsAs result (plan_of walk.entry.text) steps }
{
    'steps: loop {
        match walk.next_step() {
            TextStep::Step { words: _, key: _ } => {}
            TextStep::End => return None,
            TextStep::Unreadable { line } => return Some(line),
        }
    }
}

/// Whether the words of two steps are the same one by one, in upper or lower case.
fn are_same_words(mut words: StepWords<'_>, mut others: StepWords<'_>) -> bool
    ensures { result ≡ pointwise bytes_eq (map folded words.entry) (map folded others.entry) }
{
    'words: while let Some(word) = words.next() {
        match others.next() {
            Some(other) => {
                if !same_folded(word, other) {
                    return false;
                }
            }
            None => return false,
        }
    }
    others.next().is_none()
}

/// Whether a text has this plan. Takes no memory; the text is read to its end.
pub fn is_plan_of(plan: &Plan, text: &[u8]) -> bool
    ensures { result ≡ plan_eq plan.now (plan_of text.now) }
{
    let Some(walk) = PlanSteps::new(text) else {
        return matches!(plan, Plan::Unreadable { line: 1 });
    };
    match plan {
        Plan::Steps(steps) => are_steps_of(steps, walk),
        Plan::Unreadable { line } => first_fault(walk) == Some(*line),
    }
}

/// Whether a text whose walk is at its start has these steps.
#[tactic(auto, using(crate::proofs::Comparisons::taken_pairs))]
fn are_steps_of(steps: &StepList, mut walk: PlanSteps<'_>) -> bool
    requires { HasPassed walk [] }
    ensures { result ≡ plan_eq (Steps steps.now) (plan_of walk.entry.text) }
{
    let mut same = true;
    'steps: loop {
        let index = walk.count();
        match walk.next_step() {
            TextStep::Step { words, key: _ } => same &= is_step_at(steps, index, words),
            TextStep::End => return same & (index == steps.len()),
            TextStep::Unreadable { line: _ } => return false,
        }
    }
}

/// Whether there is a step at an index, and its words are these, in upper or lower case.
fn is_step_at(steps: &StepList, index: usize, words: StepWords<'_>) -> bool
    requires { 0 < length words }
    ensures { result ≡ has_at steps.now index (step_of (map folded words.entry)) }
{
    index < steps.len() && is_step(steps.get(index), words)
}

/// Whether words, in upper or lower case, are those of a step.
#[tactic(auto, using(crate::proofs::Comparisons::step_by_words))]
fn is_step(step: StepView<'_>, mut words: StepWords<'_>) -> bool
    requires { 0 < length words }
    ensures { result ≡ step_eq (step_shown step.entry) (step_of (map folded words.entry)) }
{
    match words.next() {
        Some(action) => is_folded(step.action(), action) && are_args(step, words),
        None => false,
    }
}

/// Whether words, in upper or lower case, are the arguments of a step.
fn are_args(step: StepView<'_>, mut words: StepWords<'_>) -> bool
    ensures { result ≡ pointwise bytes_eq (step_shown step.entry).args (map folded words.entry) }
{
    for index in 0..step.arg_count() {
        match words.next() {
            Some(word) => {
                if !is_folded(step.arg(index), word) {
                    return false;
                }
            }
            None => return false,
        }
    }
    words.next().is_none()
}

/// Whether a name is a word in lower case.
fn is_folded(mut name: &[u8], mut word: &[u8]) -> bool
    ensures { result ≡ bytes_eq name.entry.now (folded word.entry.now) }
{
    'bytes: while let Some((byte, bytes)) = name.split_first() {
        match word.split_first() {
            Some((other, others)) => {
                if *byte != other.to_ascii_lowercase() {
                    return false;
                }
                name = bytes;
                word = others;
            }
            None => return false,
        }
    }
    word.is_empty()
}
