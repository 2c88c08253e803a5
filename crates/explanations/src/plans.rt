//! What is found about a plan, and why.

use crate::SourceText;
use crate::comments::push_cost_remark;
use crate::hints::push_did_you_mean;
use crate::library::{Found, Library, push_types};
use crate::outline::Sort;
use crate::page::{Page, Style};
use crate::positions::{Position, Range, bytes_at, push_excerpt, push_position};
use crate::steps::{Part, StepPositions, push_step, word_count, word_of, word_range};
use crate::unreadable::push_unreadable;
use crate::world::World;
use plan_cost::{Assessment, Cost};
use std::alloc::{AllocError, Global};
use strips_judge::{Formula, Verdict, Why};

/// A plan of a file.
#[derive(Clone, Copy)]
pub(crate) struct PlanAt<'a> {
    pub(crate) file: SourceText<'a>,
    pub(crate) part: Part<'a>,
    /// Its number in the file, from 1.
    pub(crate) number: usize,
}

/// A plan that was judged, and what is known about it.
#[derive(Clone, Copy)]
pub(crate) struct JudgedPlan<'a, 'f, 't> {
    pub(crate) plan: PlanAt<'a>,
    /// The positions of its steps, as far as they are named.
    pub(crate) positions: &'f StepPositions,
    /// For each condition that does not hold, the step that changed it last; of many conditions, for the first ones.
    pub(crate) changes: &'f [Option<usize>],
    /// What is true after the steps that could be taken. If all conditions are literals, no step may have been taken.
    pub(crate) world: &'f World<'t>,
    pub(crate) assessment: &'f Assessment,
}

/// Adds what is found about a plan.
pub(crate) fn push_assessment<'a>(
    page: &mut Page,
    library: &mut Library<'a>,
    plan: PlanAt<'a>,
    positions: &StepPositions,
    assessment: &Assessment,
) {
    match &assessment.verdict {
        Verdict::Valid { steps } => push_valid(page, plan, *steps as usize, assessment.cost),
        Verdict::Fails { step, why } => push_failure(
            page,
            library,
            plan,
            positions,
            *step as usize,
            why,
        ),
        Verdict::Goal { missing } => push_goal(page, plan, missing.as_slice().len()),
        Verdict::Unreadable { line: _ } => push_unreadable(page, library, plan),
    }
}

/// The positions of a plan's steps, as far as what is found about it names steps.
pub(crate) fn named_positions(
    alloc: Global,
    plan: PlanAt<'_>,
    verdict: &Verdict,
) -> Result<StepPositions, AllocError> {
    match verdict {
        Verdict::Fails { .. } | Verdict::Goal { .. } => StepPositions::new(alloc, plan.part),
        Verdict::Valid { .. } | Verdict::Unreadable { .. } => Ok(StepPositions::none(alloc)),
    }
}

/// The conditions that do not hold before the step that fails, or at the end.
pub(crate) fn missing_of(verdict: &Verdict) -> &[Formula] {
    match verdict {
        Verdict::Fails {
            why: Why::Missing(missing),
            ..
        } => missing.as_slice(),
        Verdict::Goal { missing } => missing.as_slice(),
        _ => &[],
    }
}

/// Adds `FILE: `.
pub(crate) fn push_name(page: &mut Page, plan: PlanAt<'_>) {
    page.style(Style::Position);
    page.file_name(plan.file.name);
    page.say(":");
    page.style(Style::Plain);
    page.say(" ");
}

/// Adds that a plan is valid, and what it costs.
fn push_valid(page: &mut Page, plan: PlanAt<'_>, steps: usize, cost: Cost) {
    push_name(page, plan);
    page.say("plan ");
    page.number(plan.number);
    page.say(" is valid: ");
    page.count(steps, "step", "steps");
    if cost != Cost::NotCounted {
        page.say(",");
    }
    page.cost(cost);
    page.say("\n");
    push_cost_remark(page, plan, steps, cost)
}

/// Adds that a plan misses the goal.
fn push_goal(page: &mut Page, plan: PlanAt<'_>, missing: usize) {
    push_name(page, plan);
    page.say("plan ");
    page.number(plan.number);
    page.say(" misses the goal: ");
    push_conditions(page, missing);
    page.say(" at the end\n");
}

/// Adds how many conditions do not hold.
fn push_conditions(page: &mut Page, count: usize) {
    page.count(count, "condition does not hold", "conditions do not hold");
}

/// Adds which step fails and why, the line of the step, and a hint.
fn push_failure<'a>(
    page: &mut Page,
    library: &mut Library<'a>,
    plan: PlanAt<'a>,
    positions: &StepPositions,
    number: usize,
    why: &Why,
) {
    let Some(position) = positions.get(number) else {
        return;
    };
    let step = bytes_at(plan.file.bytes, position.range);
    let faulty = faulty_position(plan.file.bytes, position, why);
    push_position(page, plan.file.name, faulty);
    push_failing_step(page, plan.number, number, step);
    push_why(page, library, step, why);
    page.say("\n");
    push_excerpt(page, plan.file.bytes, faulty);
    push_hint(page, library, step, why)
}

/// Adds which step of which plan fails.
fn push_failing_step(page: &mut Page, plan: usize, number: usize, step: &[u8]) {
    page.say("plan ");
    page.number(plan);
    page.say(" fails at step ");
    page.number(number);
    page.say(", ");
    push_step(page, step);
    page.say(": ");
}

/// The number of the word of a step that is wrong, if one is: 0 for the action.
fn faulty_word(why: &Why) -> Option<usize> {
    match why {
        Why::UnknownAction => Some(0),
        Why::UnknownObject { arg } => Some(*arg as usize),
        Why::WrongType { arg } => Some(*arg as usize),
        Why::WrongCount => None,
        Why::Missing(_) => None,
    }
}

/// The position of the word of a step that is wrong, or of the whole step.
pub(crate) fn faulty_position(file: &[u8], step: Position, why: &Why) -> Position {
    let Some(number) = faulty_word(why) else {
        return step;
    };
    match word_range(bytes_at(file, step.range), number) {
        Some(range) => step.later(
            file,
            Range {
                start: step.range.start.saturating_add(range.start),
                end: step.range.start.saturating_add(range.end),
            },
        ),
        None => step,
    }
}

/// Adds what is wrong with a step.
pub(crate) fn push_why<'a>(page: &mut Page, library: &mut Library<'a>, step: &'a [u8], why: &Why) {
    match why {
        Why::UnknownAction => {
            page.say("no action is called ");
            page.quoted(word_of(step, 0));
        }
        Why::WrongCount => push_wrong_count(page, library, step),
        Why::UnknownObject { arg } => {
            page.say("no object is called ");
            page.quoted(word_of(step, *arg as usize));
        }
        Why::WrongType { arg } => {
            page.quoted(word_of(step, *arg as usize));
            page.say(" has the wrong type");
        }
        Why::Missing(missing) => push_conditions(page, missing.as_slice().len()),
    }
}

/// Adds how many arguments an action takes.
fn push_wrong_count<'a>(page: &mut Page, library: &mut Library<'a>, step: &'a [u8]) {
    let action = word_of(step, 0);
    page.quoted(action);
    match library.find(Sort::Action, action) {
        Some(found) => {
            page.say(" takes ");
            page.count(library.variable_count(&found), "argument", "arguments");
            page.say(", not ");
            page.number(word_count(step).saturating_sub(1));
        }
        None => page.say(" takes another number of arguments"),
    }
}

/// Adds what to do about a step.
pub(crate) fn push_hint<'a>(page: &mut Page, library: &mut Library<'a>, step: &'a [u8], why: &Why) {
    match why {
        Why::UnknownAction => push_near(page, library, Sort::Action, word_of(step, 0)),
        Why::UnknownObject { arg } => {
            push_near(page, library, Sort::Object, word_of(step, *arg as usize))
        }
        Why::WrongCount => match library.find(Sort::Action, word_of(step, 0)) {
            Some(found) => push_action(page, library, &found),
            None => {}
        },
        Why::WrongType { arg } => push_types_of(page, library, step, *arg as usize),
        Why::Missing(_) => {}
    }
}

/// Adds the known name that is nearest to a word, if one is near.
fn push_near<'a>(page: &mut Page, library: &mut Library<'a>, sort: Sort, word: &'a [u8]) {
    let near = library.nearest(page.alloc(), sort, word);
    match page.found(near) {
        Some(name) => push_did_you_mean(page, name),
        None => {}
    }
}

/// Adds an action with its parameters.
fn push_action<'a>(page: &mut Page, library: &Library<'a>, action: &Found<'a>) {
    page.help();
    page.say("the action is ");
    library.push_signature(page, action);
    page.say("\n");
}

/// Adds the type that an argument has and the one that is wanted. Arguments count from 1.
fn push_types_of<'a>(page: &mut Page, library: &mut Library<'a>, step: &'a [u8], arg: usize) {
    let Some(object) = library.find(Sort::Object, word_of(step, arg)) else {
        return;
    };
    let Some(action) = library.find(Sort::Action, word_of(step, 0)) else {
        return;
    };
    let Some(variable) = library.variable(&action, arg.saturating_sub(1)) else {
        return;
    };
    page.help();
    page.quoted(object.name());
    page.say(" is of type `");
    push_types(page, object.file.bytes, &object.declared);
    page.say("`, and ");
    page.quoted(bytes_at(action.file.bytes, variable.name));
    page.say(" of ");
    page.quoted(action.name());
    page.say(" is of type `");
    push_types(page, action.file.bytes, &variable);
    page.say("`\n");
}
