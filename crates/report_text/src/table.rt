//! The report as a table: the names of its columns, and a row for each plan.
ghost use Rattle.std.specs.Prelude.{◌≡◌, ◌++◌, OnOk, Some, codes, decimal};
ghost use Rattle.strips_task.specs.StepView.{step_shown};
ghost use Rattle.report_text.specs.Format.{cost_field, failure_fields, found_fields, spaced_conditions, table_head, table_row, verdict_fields, why_fields};
ghost use Rattle.report_text.specs.Report.{as_judged};

use crate::conditions::push_condition;
use crate::costs::push_billionths;
use crate::escapes::push_field;
use crate::format::Format;
use crate::render::{push_argument, push_conditions, push_failing_step, push_step};
use crate::text::Text;
use intake_rules::{Finding, SubmittedPlan};
use plan_cost::Cost;
use std::alloc::AllocError;
use strips_judge::{Verdict, Why};
use strips_task::{Formula, StepView, Task};

/// Adds the names of the columns.
pub(crate) fn push_table_head(text: &mut Text) -> Result<(), AllocError>
    ensures { OnOk result (text.new ≡ text.old ++ table_head) }
{
    text.push(
        b"domain\tproblem\tplanner\tplan\tverdict\tsteps\tcost\tstep\taction\treason\tmissing\tline\n",
    )
}

/// Adds the row of a plan; plans count from 1.
pub(crate) fn push_row(
    text: &mut Text,
    task: &Task,
    name: &[u8],
    number: usize,
    finding: &Finding,
) -> Result<(), AllocError>
    ensures { OnOk result (text.new ≡ text.old ++ table_row task.now name.now number (as_judged finding.now)) }
{
    text.push(task.domain_name().as_bytes())?;
    text.push(b"\t")?;
    text.push(task.problem_name().as_bytes())?;
    text.push(b"\t")?;
    push_field(text, name)?;
    text.push(b"\t")?;
    text.push_number(number)?;
    text.push(b"\t")?;
    push_found(text, task, finding)?;
    text.push(b"\n")
}

/// Adds the fields of a plan's verdict and its cost.
fn push_found(text: &mut Text, task: &Task, finding: &Finding) -> Result<(), AllocError>
    ensures { OnOk result (text.new ≡ text.old ++ found_fields task.now (as_judged finding.now)) }
{
    push_verdict_fields(
        text,
        task,
        &finding.job.plan,
        finding.cost.get(),
        &finding.verdict,
    )
}

/// Adds the fields of a verdict.
fn push_verdict_fields(
    text: &mut Text,
    task: &Task,
    plan: &SubmittedPlan,
    cost: Cost,
    verdict: &Verdict,
) -> Result<(), AllocError>
    ensures { OnOk result (text.new ≡ text.old ++ verdict_fields task.now plan.now cost verdict.now) }
{
    match verdict {
        Verdict::Valid { steps } => push_valid_fields(text, *steps, cost),
        Verdict::Fails { step, why } => {
            text.push(b"fails\t\t\t")?;
            text.push_number(*step as usize)?;
            text.push(b"\t")?;
            push_failing_step(text, Format::Table, task, plan, *step, why)?;
            text.push(b"\t")
        }
        Verdict::Goal { missing } => push_goal_fields(text, task, missing.as_slice()),
        Verdict::Unreadable { line } => push_line_fields(text, *line),
    }
}

/// Adds the fields of a valid plan.
fn push_valid_fields(text: &mut Text, steps: u32, cost: Cost) -> Result<(), AllocError>
    ensures { OnOk result (text.new ≡ text.old ++ codes "valid\t" ++ decimal steps ++ codes "\t" ++ cost_field cost ++ codes "\t\t\t\t\t") }
{
    text.push(b"valid\t")?;
    text.push_number(steps as usize)?;
    text.push(b"\t")?;
    push_cost_field(text, cost)?;
    text.push(b"\t\t\t\t\t")
}

/// Adds the fields of a plan that misses the goal.
fn push_goal_fields(text: &mut Text, task: &Task, missing: &[Formula]) -> Result<(), AllocError>
    ensures { OnOk result (text.new ≡ text.old ++ codes "goal\t\t\t\t\t\t" ++ spaced_conditions task.now missing.now ++ codes "\t") }
{
    text.push(b"goal\t\t\t\t\t\t")?;
    push_spaced_conditions(text, task, missing)?;
    text.push(b"\t")
}

/// Adds the fields of a text that is no plan.
fn push_line_fields(text: &mut Text, line: u32) -> Result<(), AllocError>
    ensures { OnOk result (text.new ≡ text.old ++ codes "unreadable\t\t\t\t\t\t\t" ++ decimal line) }
{
    text.push(b"unreadable\t\t\t\t\t\t\t")?;
    text.push_number(line as usize)
}

/// Adds the field of a cost.
fn push_cost_field(text: &mut Text, cost: Cost) -> Result<(), AllocError>
    ensures { OnOk result (text.new ≡ text.old ++ cost_field cost) }
{
    match cost {
        Cost::NotCounted => Ok(()),
        Cost::Undefined => text.push(b"-"),
        Cost::Billionths(billionths) => push_billionths(text, billionths),
    }
}

/// Adds the fields of a failing step and of what is wrong with it.
pub(crate) fn push_failure_fields(
    text: &mut Text,
    task: &Task,
    step: &StepView,
    why: &Why,
) -> Result<(), AllocError>
    ensures { OnOk result (text.new ≡ text.old ++ failure_fields task.now (Some (step_shown step.now)) why.now) }
{
    push_step(text, step)?;
    text.push(b"\t")?;
    push_why_fields(text, task, step, why)
}

/// Adds the fields of what is wrong with a step.
fn push_why_fields(
    text: &mut Text,
    task: &Task,
    step: &StepView,
    why: &Why,
) -> Result<(), AllocError>
    ensures { OnOk result (text.new ≡ text.old ++ why_fields task.now (step_shown step.now) why.now) }
{
    match why {
        Why::UnknownAction => text.push(b"unknown action\t"),
        Why::WrongCount => text.push(b"wrong number of arguments\t"),
        Why::UnknownObject { arg } => {
            text.push(b"unknown object ")?;
            push_argument(text, step, *arg)?;
            text.push(b"\t")
        }
        Why::WrongType { arg } => {
            push_argument(text, step, *arg)?;
            text.push(b" has the wrong type\t")
        }
        Why::Missing(conds) => {
            text.push(b"missing\t")?;
            push_spaced_conditions(text, task, conds.as_slice())
        }
    }
}

/// Adds conditions with single spaces between them.
fn push_spaced_conditions(text: &mut Text, task: &Task, conds: &[Formula]) -> Result<(), AllocError>
    ensures { OnOk result (text.new ≡ text.old ++ spaced_conditions task.now conds.now) }
{
    match conds {
        [] => Ok(()),
        [first, rest @ ..] => {
            push_condition(text, task, first)?;
            push_conditions(text, task, rest)
        }
    }
}
