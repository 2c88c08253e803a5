//! The report as JSON: records of a run, its plans and its planners, each an object on a line of its own.
ghost use Rattle.std.specs.Prelude.{◌≡◌, ◌++◌, OnOk, Some, decimal, map};
ghost use Rattle.strips_task.specs.StepView.{step_shown};
ghost use Rattle.report_text.specs.Pieces.{after_commas, json_string};
ghost use Rattle.report_text.specs.Format.{json_best, json_conditions, json_cost, json_failure, json_found, json_plan, json_planner, json_run, json_step, json_verdict, json_why};
ghost use Rattle.report_text.specs.Conditions.{json_condition};
ghost use Rattle.report_text.specs.Report.{as_judged};

use crate::conditions::push_json_condition;
use crate::costs::push_billionths;
use crate::escapes::push_json_string;
use crate::format::Format;
use crate::render::push_failing_step;
use crate::text::Text;
use intake_rules::{Finding, SubmittedPlan};
use plan_cost::Cost;
use std::alloc::AllocError;
use strips_judge::{Verdict, Why};
use strips_task::{Formula, StepView, Task};

/// Adds the record of a run.
pub(crate) fn push_run(text: &mut Text, task: &Task) -> Result<(), AllocError>
    ensures { OnOk result (text.new ≡ text.old ++ json_run task.now) }
{
    text.push(b"{\"type\":\"run\",\"domain\":")?;
    push_json_string(text, task.domain_name().as_bytes())?;
    text.push(b",\"problem\":")?;
    push_json_string(text, task.problem_name().as_bytes())?;
    text.push(b"}\n")
}

/// Adds the record of a plan; plans count from 1.
pub(crate) fn push_plan(
    text: &mut Text,
    task: &Task,
    name: &[u8],
    number: usize,
    finding: &Finding,
) -> Result<(), AllocError>
    ensures { OnOk result (text.new ≡ text.old ++ json_plan task.now name.now number (as_judged finding.now)) }
{
    text.push(b"{\"type\":\"plan\",\"planner\":")?;
    push_json_string(text, name)?;
    text.push(b",\"plan\":")?;
    text.push_number(number)?;
    text.push(b",\"verdict\":")?;
    push_found(text, task, finding)?;
    text.push(b"}\n")
}

/// Adds the members of a plan's verdict and its cost.
fn push_found(text: &mut Text, task: &Task, finding: &Finding) -> Result<(), AllocError>
    ensures { OnOk result (text.new ≡ text.old ++ json_found task.now (as_judged finding.now)) }
{
    push_verdict_members(text, task, &finding.job.plan, &finding.verdict)?;
    push_cost_member(text, finding.cost.get())
}

/// Adds the record of a planner.
pub(crate) fn push_planner_record(
    text: &mut Text,
    name: &[u8],
    plans: usize,
    valid: usize,
    best: Option<u32>,
    cost: Cost,
) -> Result<(), AllocError>
    ensures { OnOk result (text.new ≡ text.old ++ json_planner name.now plans valid best cost) }
{
    text.push(b"{\"type\":\"planner\",\"planner\":")?;
    push_json_string(text, name)?;
    text.push(b",\"plans\":")?;
    text.push_number(plans)?;
    text.push(b",\"valid\":")?;
    text.push_number(valid)?;
    text.push(b",\"best\":")?;
    push_best_member(text, best)?;
    push_cost_member(text, cost)?;
    text.push(b"}\n")
}

/// Adds a number of steps, or null.
fn push_best_member(text: &mut Text, best: Option<u32>) -> Result<(), AllocError>
    ensures { OnOk result (text.new ≡ text.old ++ json_best best) }
{
    match best {
        Some(steps) => text.push_number(steps as usize),
        None => text.push(b"null"),
    }
}

/// Adds the member of a cost.
fn push_cost_member(text: &mut Text, cost: Cost) -> Result<(), AllocError>
    ensures { OnOk result (text.new ≡ text.old ++ json_cost cost) }
{
    match cost {
        Cost::NotCounted => Ok(()),
        Cost::Undefined => text.push(b",\"cost\":null"),
        Cost::Billionths(billionths) => {
            text.push(b",\"cost\":")?;
            push_billionths(text, billionths)
        }
    }
}

/// Adds the members of a verdict.
fn push_verdict_members(
    text: &mut Text,
    task: &Task,
    plan: &SubmittedPlan,
    verdict: &Verdict,
) -> Result<(), AllocError>
    ensures { OnOk result (text.new ≡ text.old ++ json_verdict task.now plan.now verdict.now) }
{
    match verdict {
        Verdict::Valid { steps } => push_with_number(text, b"\"valid\",\"steps\":", *steps),
        Verdict::Fails { step, why } => {
            push_with_number(text, b"\"fails\",\"step\":", *step)?;
            push_failing_step(text, Format::Json, task, plan, *step, why)
        }
        Verdict::Goal { missing } => {
            text.push(b"\"goal\",\"missing\":[")?;
            push_conditions(text, task, missing.as_slice())?;
            text.push(b"]")
        }
        Verdict::Unreadable { line } => push_with_number(text, b"\"unreadable\",\"line\":", *line),
    }
}

/// Adds bytes, followed by a number.
fn push_with_number(text: &mut Text, bytes: &[u8], number: u32) -> Result<(), AllocError>
    ensures { OnOk result (text.new ≡ text.old ++ (bytes.now ++ decimal number)) }
{
    text.push(bytes)?;
    text.push_number(number as usize)
}

/// Adds the members of a failing step and of what is wrong with it.
pub(crate) fn push_failure_members(
    text: &mut Text,
    task: &Task,
    step: &StepView,
    why: &Why,
) -> Result<(), AllocError>
    ensures { OnOk result (text.new ≡ text.old ++ json_failure task.now (Some (step_shown step.now)) why.now) }
{
    text.push(b",\"action\":")?;
    push_step(text, step)?;
    text.push(b",")?;
    push_why(text, task, why)
}

/// Adds the members of what is wrong with a step.
fn push_why(text: &mut Text, task: &Task, why: &Why) -> Result<(), AllocError>
    ensures { OnOk result (text.new ≡ text.old ++ json_why task.now why.now) }
{
    match why {
        Why::UnknownAction => text.push(b"\"reason\":\"unknown action\""),
        Why::WrongCount => text.push(b"\"reason\":\"wrong number of arguments\""),
        Why::UnknownObject { arg } => push_with_number(
            text,
            b"\"reason\":\"unknown object\",\"argument\":",
            *arg,
        ),
        Why::WrongType { arg } => {
            push_with_number(text, b"\"reason\":\"wrong type\",\"argument\":", *arg)
        }
        Why::Missing(conds) => {
            text.push(b"\"reason\":\"missing\",\"missing\":[")?;
            push_conditions(text, task, conds.as_slice())?;
            text.push(b"]")
        }
    }
}

/// Adds a step as a list.
fn push_step(text: &mut Text, step: &StepView) -> Result<(), AllocError>
    ensures { OnOk result (text.new ≡ text.old ++ json_step (step_shown step.now)) }
{
    text.push(b"[")?;
    push_json_string(text, step.action())?;
    push_arguments(text, step)?;
    text.push(b"]")
}

/// Adds the names of a step's arguments, each after a comma.
fn push_arguments(text: &mut Text, step: &StepView) -> Result<(), AllocError>
    ensures { OnOk result (text.new ≡ text.old ++ after_commas (map json_string (step_shown step.now).args)) }
{
    for index in 0..step.arg_count() {
        text.push(b",")?;
        push_json_string(text, step.arg(index))?;
    }
    Ok(())
}

/// Adds conditions with commas between them.
fn push_conditions(text: &mut Text, task: &Task, conds: &[Formula]) -> Result<(), AllocError>
    ensures { OnOk result (text.new ≡ text.old ++ json_conditions task.now conds.now) }
{
    match conds {
        [] => Ok(()),
        [first, rest @ ..] => {
            push_json_condition(text, task, first)?;
            push_more_conditions(text, task, rest)
        }
    }
}

/// Adds conditions, each after a comma.
fn push_more_conditions(text: &mut Text, task: &Task, conds: &[Formula]) -> Result<(), AllocError>
    ensures { OnOk result (text.new ≡ text.old ++ after_commas (map (json_condition task.now) conds.now)) }
{
    for cond in conds {
        text.push(b",")?;
        push_json_condition(text, task, cond)?;
    }
    Ok(())
}
