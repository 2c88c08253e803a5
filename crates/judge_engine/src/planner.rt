//! What a report says about the planners, one after the other: what was found about the plans of each, how many of them are valid, and the best of these.
ghost use Rattle.std.specs.Prelude.{◌≡◌, ◌+◌, ◌++◌, ◌<◌, ◌≤◌, [], length, IfOk, OnOk};
ghost use Rattle.judge_bench.specs.Findings.{findings_of};
ghost use Rattle.report_text.specs.Report.{as_judged, defined_cost, least_cost, steps_if_valid};
ghost use Rattle.judge_engine.specs.Plans.{AreCutsOf, handed_in, plans_of_cuts};
ghost use Rattle.judge_engine.specs.Tally.{lesser, tally_over, tally_with};
ghost use Rattle.judge_engine.specs.ReportPosition.{IsPosition, start_of, next_text, position_with, sum_text, rest_text, turn_text, turned};

use crate::bundle::Bundle;
use crate::plans::Cut;
use intake_rules::Finding;
use judge_bench::Findings;
use plan_cost::{Cost, CostedTask, Costs};
use report_text::{Format, Text, push_plan_in, push_summary_in};
use std::alloc::AllocError;
use strips_judge::Verdict;

/// What the last line of a planner sums up.
#[derive(Clone, Copy)]
pub(crate) struct Tally {
    /// How many plans there are.
    pub(crate) plans: usize,
    /// How many of them are valid.
    pub(crate) valid: usize,
    /// The least number of steps of a valid one.
    pub(crate) best: Option<u32>,
    /// The least defined cost of a valid one, in billionths.
    pub(crate) cost: Option<u128>,
}

/// How far a report is: at which planner, and the sum of those of its plans that are in the report.
#[derive(Clone, Copy)]
pub(crate) struct ReportPosition {
    /// The planner, counted from 0.
    pub(crate) planner: u32,
    /// The sum of its plans so far.
    pub(crate) tally: Tally,
}

impl ReportPosition {
    /// Before the first plan of a planner.
    pub(crate) fn start_of(planner: u32) -> ReportPosition
        ensures { result ≡ start_of planner }
    {
        ReportPosition {
            planner,
            tally: Tally {
                plans: 0,
                valid: 0,
                best: None,
                cost: None,
            },
        }
    }
}

/// Adds plans with what was found about them, each counted from 1 among the plans of its planner, and answers where the report stands then. Where the
/// planner changes, the sum of the one before is added first.
pub(crate) fn push_plans(
    text: &mut Text,
    format: Format,
    task: &CostedTask,
    bundles: &[Bundle],
    cuts: &[Cut],
    findings: &Findings,
) -> Result<ReportPosition, AllocError>
    requires some { 0 < length bundles.now }
    requires within { AreCutsOf bundles.now cuts.now }
    requires few { length cuts.now ≤ 65536 }
    requires findings { findings.now ≡ findings_of task.now 1 (handed_in bundles.now cuts.now) }
    ensures text { IfOk result (λ last. text.new ++ rest_text format task.now bundles.now last []
        ≡ text.old ++ rest_text format task.now bundles.now (start_of 0) (plans_of_cuts bundles.now cuts.now)) }
    ensures known { IfOk result (λ last. last.planner < length bundles.now) }
{
    let mut position = ReportPosition::start_of(0);
    for (index, cut) in cuts.iter().enumerate() {
        let finding = findings.get(0, index);
        position = push_next(text, format, task, bundles, cut.planner, finding, position)?;
    }
    Ok(position)
}

/// Adds the next plan of a report, a plan of this planner.
pub(crate) fn push_next(
    text: &mut Text,
    format: Format,
    task: &CostedTask,
    bundles: &[Bundle],
    planner: u32,
    finding: &Finding,
    position: ReportPosition,
) -> Result<ReportPosition, AllocError>
    requires planner { planner < length bundles.now }
    requires position { IsPosition (length bundles.now) 65535 position }
    ensures text { OnOk result (text.new ≡ text.old ++ next_text format task.now bundles.now position planner (as_judged finding.now)) }
    ensures position { IfOk result (λ next. next ≡ position_with position planner (as_judged finding.now)) }
{
    let position = turn(text, format, task, bundles, planner, position)?;
    push_plan_in(
        text,
        format,
        &task.task,
        bundles[planner as usize].name(),
        position.tally.plans + 1,
        finding,
    )?;
    Ok(ReportPosition {
        planner,
        tally: counted(position.tally, finding),
    })
}

/// Turns to a planner. If that is another one, the sum of the planner before it is added.
fn turn(
    text: &mut Text,
    format: Format,
    task: &CostedTask,
    bundles: &[Bundle],
    planner: u32,
    position: ReportPosition,
) -> Result<ReportPosition, AllocError>
    requires { position.planner < length bundles.now }
    ensures text { OnOk result (text.new ≡ text.old ++ turn_text format task.now bundles.now position planner) }
    ensures position { IfOk result (λ next. next ≡ turned position planner) }
{
    if planner == position.planner {
        return Ok(position);
    }
    push_planner_line(text, format, task, bundles, position)?;
    let next = ReportPosition::start_of(planner);
    Ok(next)
}

/// Adds the sum of a planner.
pub(crate) fn push_planner_line(
    text: &mut Text,
    format: Format,
    task: &CostedTask,
    bundles: &[Bundle],
    position: ReportPosition,
) -> Result<(), AllocError>
    requires { position.planner < length bundles.now }
    ensures { OnOk result (text.new ≡ text.old ++ sum_text format task.now bundles.now position) }
{
    let ReportPosition { planner, tally } = position;
    push_summary_in(
        text,
        format,
        bundles[planner as usize].name(),
        tally.plans,
        tally.valid,
        tally.best,
        least_cost(&task.costs, tally.cost),
    )
}

/// A tally with one more plan.
fn counted(tally: Tally, finding: &Finding) -> Tally
    requires few { tally.plans < 65536 }
    requires some { tally.valid ≤ tally.plans }
    ensures { result ≡ tally_with tally (as_judged finding.now) }
{
    tally_over(
        tally,
        valid_steps(&finding.verdict),
        defined_cost(finding.cost.get()),
    )
}

/// A tally with one more plan, which has this number of steps if it is valid, and this cost if that is defined.
fn tally_over(tally: Tally, steps: Option<u32>, cost: Option<u128>) -> Tally
    requires few { tally.plans < 65536 }
    requires some { tally.valid ≤ tally.plans }
    ensures { result ≡ tally_over tally steps cost }
{
    let valid = match steps {
        Some(_) => tally.valid + 1,
        None => tally.valid,
    };
    Tally {
        plans: tally.plans + 1,
        valid,
        best: lesser_steps(tally.best, steps),
        cost: lesser_cost(tally.cost, cost),
    }
}

/// The number of steps, if the verdict is that the plan is valid.
fn valid_steps(verdict: &Verdict) -> Option<u32>
    ensures { result ≡ steps_if_valid verdict.now }
{
    match verdict {
        Verdict::Valid { steps } => Some(*steps),
        Verdict::Fails { .. } | Verdict::Goal { .. } | Verdict::Unreadable { .. } => None,
    }
}

/// A cost as a number of billionths, if it is defined.
fn defined_cost(cost: Cost) -> Option<u128>
    ensures { result ≡ defined_cost cost }
{
    match cost {
        Cost::NotCounted | Cost::Undefined => None,
        Cost::Billionths(billionths) => Some(billionths),
    }
}

/// The lesser of two numbers of steps, either of which may be missing.
fn lesser_steps(steps: Option<u32>, other: Option<u32>) -> Option<u32>
    ensures { result ≡ lesser steps other }
{
    match (steps, other) {
        (Some(steps), Some(other)) => Some(steps.min(other)),
        (Some(steps), None) => Some(steps),
        (None, other) => other,
    }
}

/// The lesser of two costs, either of which may be missing.
fn lesser_cost(cost: Option<u128>, other: Option<u128>) -> Option<u128>
    ensures { result ≡ lesser cost other }
{
    match (cost, other) {
        (Some(cost), Some(other)) => Some(cost.min(other)),
        (Some(cost), None) => Some(cost),
        (None, other) => other,
    }
}

/// The least defined cost of a valid plan as a cost: undefined if there is none, and not counted if the task counts no costs.
fn least_cost(costs: &Option<Costs>, least: Option<u128>) -> Cost
    ensures { result ≡ least_cost costs.now least }
{
    match (costs, least) {
        (None, _) => Cost::NotCounted,
        (Some(_), None) => Cost::Undefined,
        (Some(_), Some(billionths)) => Cost::Billionths(billionths),
    }
}
