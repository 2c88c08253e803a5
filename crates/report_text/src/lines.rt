//! The lines of a report.
//!
//! A report begins with a header line. The lines of each planner follow: one for each plan, and a last one that sums them up.
ghost use Rattle.std.specs.Prelude.{◌≡◌, ◌++◌, OnOk};
ghost use Rattle.report_text.specs.Report.{as_judged};
ghost use Rattle.report_text.specs.Format.{head_in, plan_in, summary_in};
ghost use Rattle.report_text.specs.Report.{best_text, summary_text, plan_line, header_line};

use crate::costs::push_cost;
use crate::format::Format;
use crate::json::{push_plan, push_planner_record, push_run};
use crate::render::push_finding;
use crate::table::{push_row, push_table_head};
use crate::text::Text;
use intake_rules::Finding;
use plan_cost::Cost;
use std::alloc::AllocError;
use strips_task::Task;

/// Adds what begins a report in a format.
pub fn push_head(text: &mut Text, format: Format, task: &Task) -> Result<(), AllocError>
    ensures { OnOk result (text.new ≡ text.old ++ head_in format task.now) }
{
    match format {
        Format::Lines => push_header(text, task),
        Format::Table => push_table_head(text),
        Format::Json => push_run(text, task),
    }
}

/// Adds a planner's plan in a format; plans count from 1.
pub fn push_plan_in(
    text: &mut Text,
    format: Format,
    task: &Task,
    name: &[u8],
    number: usize,
    finding: &Finding,
) -> Result<(), AllocError>
    ensures { OnOk result (text.new ≡ text.old ++ plan_in format task.now name.now number (as_judged finding.now)) }
{
    match format {
        Format::Lines => push_plan_line(text, task, name, number, finding),
        Format::Table => push_row(text, task, name, number, finding),
        Format::Json => push_plan(text, task, name, number, finding),
    }
}

/// Adds the sum of a planner's plans in a format: how many there are, how many are valid, the fewest steps of a valid one, and the least cost.
pub fn push_summary_in(
    text: &mut Text,
    format: Format,
    name: &[u8],
    plans: usize,
    valid: usize,
    best: Option<u32>,
    cost: Cost,
) -> Result<(), AllocError>
    ensures { OnOk result (text.new ≡ text.old ++ summary_in format name.now plans valid best cost) }
{
    match format {
        Format::Lines => push_summary(text, name, plans, valid, best, cost),
        Format::Table => Ok(()),
        Format::Json => push_planner_record(text, name, plans, valid, best, cost),
    }
}

/// Adds the first line of a report.
fn push_header(text: &mut Text, task: &Task) -> Result<(), AllocError>
    ensures { OnOk result (text.new ≡ text.old ++ header_line task.now) }
{
    text.push(b"domain ")?;
    text.push(task.domain_name().as_bytes())?;
    text.push(b" problem ")?;
    text.push(task.problem_name().as_bytes())?;
    text.push(b"\n")?;
    Ok(())
}

/// Adds the line of a plan; plans count from 1.
fn push_plan_line(
    text: &mut Text,
    task: &Task,
    name: &[u8],
    number: usize,
    finding: &Finding,
) -> Result<(), AllocError>
    ensures { OnOk result (text.new ≡ text.old ++ plan_line task.now name.now number (as_judged finding.now)) }
{
    text.push(name)?;
    text.push(b" ")?;
    text.push_number(number)?;
    text.push(b" ")?;
    push_finding(text, task, finding)?;
    text.push(b"\n")?;
    Ok(())
}

/// Adds a number of steps, or `-`.
fn push_best(text: &mut Text, best: Option<u32>) -> Result<(), AllocError>
    ensures { OnOk result (text.new ≡ text.old ++ best_text best) }
{
    match best {
        Some(steps) => text.push_number(steps as usize),
        None => text.push(b"-"),
    }
}

/// Adds the last line of a planner, with its least cost if costs are counted.
fn push_summary(
    text: &mut Text,
    name: &[u8],
    plans: usize,
    valid: usize,
    best: Option<u32>,
    cost: Cost,
) -> Result<(), AllocError>
    ensures { OnOk result (text.new ≡ text.old ++ summary_text name.now plans valid best cost) }
{
    text.push(name)?;
    text.push(b" plans ")?;
    text.push_number(plans)?;
    text.push(b" valid ")?;
    text.push_number(valid)?;
    text.push(b" best ")?;
    push_best(text, best)?;
    push_cost(text, cost)?;
    text.push(b"\n")?;
    Ok(())
}
