//! The text of steps, verdicts and findings, as reports show them.
//!
//! Each function adds its piece at the end of the text.
ghost use Rattle.std.specs.Prelude.{◌≡◌, ◌<◌, [], ◌∷◌, ◌++◌, ◌-◌, IfOk, OnOk, IfSome, Some, length, map, slice_get};
ghost use Rattle.std.specs.Option.{option_copied};
ghost use Rattle.pddl_words.specs.SpacedWords.{words_of};
ghost use Rattle.pddl_words.specs.Words.{folded};
ghost use Rattle.plan_text.specs.PlanReading.{plan_of};
ghost use Rattle.plan_text.specs.StepAt.{step_at};
ghost use Rattle.report_text.specs.Pieces.{name_at, spaced};
ghost use Rattle.report_text.specs.Report.{conditions_text, step_text, why_text, plain_why_text, failure_text, verdict_text, judged_text, as_judged};
ghost use Rattle.report_text.specs.Format.{failure_in};
ghost use Rattle.strips_task.specs.Spelled.{IsSpelled, step_spelled};
ghost use Rattle.strips_task.specs.Steps.{step_of};
ghost use Rattle.strips_task.specs.StepView.{step_shown};

use crate::conditions::push_condition;
use crate::costs::push_cost;
use crate::format::Format;
use crate::json::push_failure_members;
use crate::table::push_failure_fields;
use crate::text::Text;
use intake_rules::{Finding, PlanForm, SubmittedPlan};
use pddl_words::RowWords;
use plan_text::{FoundStep, find_step_at};
use std::alloc::AllocError;
use strips_judge::{Verdict, Why};
use strips_task::{Formula, OpenSteps, Plan, StepView, Task};

/// Room for what is around a row in a line: parentheses, a fault that names nothing, and the end of the line.
const AROUND_ROW: usize = 64;

/// Adds conditions, each after a space.
pub(crate) fn push_conditions(
    text: &mut Text,
    task: &Task,
    conds: &[Formula],
) -> Result<(), AllocError>
    ensures { OnOk result (text.new ≡ text.old ++ conditions_text task.now conds.now) }
{
    for cond in conds {
        text.push(b" ")?;
        push_condition(text, task, cond)?;
    }
    Ok(())
}

/// Adds a step, as `(act a b)`.
pub fn push_step(text: &mut Text, step: &StepView) -> Result<(), AllocError>
    ensures { OnOk result (text.new ≡ text.old ++ step_text (step_shown step.now)) }
{
    text.push(b"(")?;
    text.push(step.action())?;
    push_arguments(text, step)?;
    text.push(b")")
}

/// Adds the names of a step's arguments, each after a space.
pub(crate) fn push_arguments(text: &mut Text, step: &StepView) -> Result<(), AllocError>
    ensures { OnOk result (text.new ≡ text.old ++ spaced (step_shown step.now).args) }
{
    for index in 0..step.arg_count() {
        text.push(b" ")?;
        text.push(step.arg(index))?;
    }
    Ok(())
}

/// Adds the name of an argument, counted from 1; a number that no argument has adds nothing.
pub(crate) fn push_argument(text: &mut Text, step: &StepView, number: u32) -> Result<(), AllocError>
    ensures { OnOk result (text.new ≡ text.old ++ name_at (step_shown step.now).args (number - 1)) }
{
    let index = number.saturating_sub(1) as usize;
    if index < step.arg_count() {
        return text.push(step.arg(index));
    }
    Ok(())
}

/// Adds what is wrong with a step.
fn push_why(text: &mut Text, task: &Task, step: &StepView, why: &Why) -> Result<(), AllocError>
    ensures { OnOk result (text.new ≡ text.old ++ why_text task.now (step_shown step.now) why.now) }
{
    match why {
        Why::UnknownObject { arg } => {
            text.push(b"unknown object ")?;
            push_argument(text, step, *arg)?;
            Ok(())
        }
        Why::WrongType { arg } => {
            push_argument(text, step, *arg)?;
            text.push(b" has the wrong type")?;
            Ok(())
        }
        _ => push_plain_why(text, task, why),
    }
}

/// Adds what is wrong with a step, whatever the step is, unless that names one of its arguments; then it adds nothing.
fn push_plain_why(text: &mut Text, task: &Task, why: &Why) -> Result<(), AllocError>
    ensures { OnOk result (text.new ≡ text.old ++ plain_why_text task.now why.now) }
{
    match why {
        Why::UnknownAction => text.push(b"unknown action"),
        Why::WrongCount => text.push(b"wrong number of arguments"),
        Why::UnknownObject { .. } => Ok(()),
        Why::WrongType { .. } => Ok(()),
        Why::Missing(conds) => {
            text.push(b"missing")?;
            push_conditions(text, task, conds.as_slice())
        }
    }
}

/// Adds what is wrong with the step that a row spells.
fn push_why_of_row(text: &mut Text, task: &Task, row: &[u8], why: &Why) -> Result<(), AllocError>
    ensures { OnOk result (text.new ≡ text.old ++ why_text task.now (step_spelled row.now) why.now) }
{
    match why {
        Why::UnknownObject { arg } => {
            text.push(b"unknown object ")?;
            push_argument_of_row(text, row, *arg)
        }
        Why::WrongType { arg } => {
            push_argument_of_row(text, row, *arg)?;
            text.push(b" has the wrong type")
        }
        _ => push_plain_why(text, task, why),
    }
}

/// Adds the name of an argument of the step that a row spells, counted from 1; a number that no argument has adds nothing.
fn push_argument_of_row(text: &mut Text, row: &[u8], number: u32) -> Result<(), AllocError>
    ensures { OnOk result (text.new ≡ text.old ++ name_at (step_spelled row.now).args (number - 1)) }
{
    match word_at(row, number.max(1)) {
        Some(word) => text.push_folded(word),
        None => Ok(()),
    }
}

/// The word of a row with an index, counted from 0.
fn word_at<'a>(row: &'a [u8], index: u32) -> Option<&'a [u8]>
    ensures { option_copied result ≡ slice_get (words_of row.now) index }
{
    let mut words = RowWords::new(row);
    let mut before = index;
    while before > 0 {
        let _passed = words.next()?;
        before -= 1;
    }
    words.next()
}

/// Adds a failing step, and what is wrong with it.
fn push_failure(text: &mut Text, task: &Task, step: &StepView, why: &Why) -> Result<(), AllocError>
    ensures { OnOk result (text.new ≡ text.old ++ failure_text task.now (Some (step_shown step.now)) why.now) }
{
    text.push(b" ")?;
    push_step(text, step)?;
    text.push(b": ")?;
    push_why(text, task, step, why)?;
    Ok(())
}

/// Adds a failing step and what is wrong with it, in a format.
fn push_failure_in(
    text: &mut Text,
    format: Format,
    task: &Task,
    step: &StepView,
    why: &Why,
) -> Result<(), AllocError>
    ensures { OnOk result (text.new ≡ text.old ++ failure_in format task.now (Some (step_shown step.now)) why.now) }
{
    match format {
        Format::Lines => push_failure(text, task, step, why),
        Format::Table => push_failure_fields(text, task, step, why),
        Format::Json => push_failure_members(text, task, step, why),
    }
}

/// Adds the failing step of a plan with a number, counted from 1, and what is wrong with it, in a format; a number that no step has adds nothing. The
/// text of a plan is read once more only if the plan does not know where the step is written.
pub(crate) fn push_failing_step(
    text: &mut Text,
    format: Format,
    task: &Task,
    plan: &SubmittedPlan,
    number: u32,
    why: &Why,
) -> Result<(), AllocError>
    ensures { OnOk result (text.new ≡ text.old ++ failure_in format task.now (step_at plan.now (number - 1)) why.now) }
{
    let index = number.saturating_sub(1) as usize;
    if let Some(row) = plan.row_of_step(index) {
        return push_failure_of_spelled(text, format, task, row, why);
    }
    match plan.form() {
        PlanForm::Read(plan) => push_failure_of_plan(text, format, task, plan, index, why),
        PlanForm::Text(bytes) => push_failure_of_text(text, format, task, bytes, index, why),
    }
}

/// Adds the failing step with an index in a plan that is read, as above.
fn push_failure_of_plan(
    text: &mut Text,
    format: Format,
    task: &Task,
    plan: &Plan,
    index: usize,
    why: &Why,
) -> Result<(), AllocError>
    ensures { OnOk result (text.new ≡ text.old ++ failure_in format task.now (step_at plan.now index) why.now) }
{
    match plan {
        Plan::Steps(steps) if index < steps.len() => {
            push_failure_in(text, format, task, &steps.get(index), why)
        }
        _ => Ok(()),
    }
}

/// Adds the failing step with an index in a plan that is kept as its text, as above. The text is read once more, to its end.
fn push_failure_of_text(
    text: &mut Text,
    format: Format,
    task: &Task,
    bytes: &[u8],
    index: usize,
    why: &Why,
) -> Result<(), AllocError>
    ensures { OnOk result (text.new ≡ text.old ++ failure_in format task.now (step_at (plan_of bytes.now) index) why.now) }
{
    match find_step_at(bytes, index) {
        Some(found) => push_failure_of_found(text, format, task, &found, why),
        None => Ok(()),
    }
}

/// Adds a failing step where it is written, and what is wrong with it, in a format.
fn push_failure_of_found(
    text: &mut Text,
    format: Format,
    task: &Task,
    found: &FoundStep<'_>,
    why: &Why,
) -> Result<(), AllocError>
    requires some { 0 < length found.now.words }
    requires spelled { IfSome (option_copied found.now.key) (λ row. IsSpelled row × (step_spelled row ≡ step_of (map folded found.now.words))) }
    ensures { OnOk result (text.new ≡ text.old ++ failure_in format task.now (Some (step_of (map folded found.now.words))) why.now) }
{
    match found.key {
        Some(row) => push_failure_of_spelled(text, format, task, row, why),
        None => {
            let mut step = OpenSteps::new(text.alloc());
            found.words.push_to(&mut step)?;
            push_failure_in(text, format, task, &step.get(0), why)
        }
    }
}

/// Adds a failing step that a row of names spells, and what is wrong with it, in a format. The row is copied as a whole where it is to be a row.
fn push_failure_of_spelled(
    text: &mut Text,
    format: Format,
    task: &Task,
    row: &[u8],
    why: &Why,
) -> Result<(), AllocError>
    ensures { OnOk result (text.new ≡ text.old ++ failure_in format task.now (Some (step_spelled row.now)) why.now) }
{
    match format {
        Format::Lines => push_failure_of_row(text, task, row, why),
        _ => {
            let mut step = OpenSteps::new(text.alloc());
            read_row(row, &mut step)?;
            push_failure_in(text, format, task, &step.get(0), why)
        }
    }
}

/// Reads the names of a row into an empty step, in lower case, and closes it.
fn read_row(row: &[u8], step: &mut OpenSteps) -> Result<(), AllocError>
    requires { step.old ≡ record { steps = []; words = [] } }
    ensures { IfOk result (λ _. step.new ≡ record { steps = step_spelled row.now ∷ []; words = [] }) }
{
    let mut words = RowWords::new(row);
    'words: while let Some(word) = words.next() {
        step.push_word(word)?;
    }
    step.close_step()
}

/// Adds a failing step that a row spells, and what is wrong with it.
fn push_failure_of_row(
    text: &mut Text,
    task: &Task,
    row: &[u8],
    why: &Why,
) -> Result<(), AllocError>
    ensures { OnOk result (text.new ≡ text.old ++ failure_text task.now (Some (step_spelled row.now)) why.now) }
{
    text.reserve(row.len().saturating_add(AROUND_ROW))?;
    text.push(b" (")?;
    text.push_folded(row)?;
    text.push(b"): ")?;
    push_why_of_row(text, task, row, why)
}

/// Adds what is found about a plan: its verdict, and its cost if it is valid and costs are counted.
pub fn push_finding(text: &mut Text, task: &Task, finding: &Finding) -> Result<(), AllocError>
    ensures { OnOk result (text.new ≡ text.old ++ judged_text task.now (as_judged finding.now)) }
{
    push_verdict(text, task, &finding.job.plan, &finding.verdict)?;
    push_cost(text, finding.cost.get())
}

/// Adds a verdict of a plan.
fn push_verdict(
    text: &mut Text,
    task: &Task,
    plan: &SubmittedPlan,
    verdict: &Verdict,
) -> Result<(), AllocError>
    ensures { OnOk result (text.new ≡ text.old ++ verdict_text task.now plan.now verdict.now) }
{
    match verdict {
        Verdict::Valid { steps } => {
            text.push(b"valid ")?;
            text.push_number(*steps as usize)?;
            Ok(())
        }
        Verdict::Fails { step, why } => {
            text.push(b"fails at ")?;
            text.push_number(*step as usize)?;
            push_failing_step(text, Format::Lines, task, plan, *step, why)
        }
        Verdict::Goal { missing } => {
            text.push(b"goal missing")?;
            push_conditions(text, task, missing.as_slice())?;
            Ok(())
        }
        Verdict::Unreadable { line } => {
            text.push(b"unreadable line ")?;
            text.push_number(*line as usize)?;
            Ok(())
        }
    }
}
