//! Judging on the calling thread.
//!
//! For callers that have many small runs, as a program that judges a planner's plans while it plans. No thread is started, and each plan is put into the
//! report as soon as it is judged. The report is the one that [`judge_run`](crate::engine::judge_run) makes.
ghost use Rattle.std.specs.Prelude.{◌≡◌, ◌≢◌, ◌↔◌, ◌⊎◌, ◌<◌, ◌≤◌, ◌++◌, [], length, map, IfOk, IfErr, OnOk, Some, None, Err};
ghost use Rattle.pddl_syntax.specs.declared.fault.ReadFault as read_fault;
ghost use Rattle.pddl_syntax.specs.Trees.{text_fault};
ghost use Rattle.judge_engine.specs.Answer.{answer_as, judged_plan, planner_of, too_large, plan_count, most_planners, most_plans};
ghost use Rattle.judge_engine.specs.Plans.{AreCutsOf, IsCutOf, plan_of_cut, plans_of_cuts, plans_of_files};
ghost use Rattle.judge_engine.specs.Refusal.{IsOfTexts, TextsCallForIn};
ghost use Rattle.judge_engine.specs.ReportPosition.{IsPosition, next_text, position_with, rest_text, start_of};
ghost use Rattle.report_text.specs.Format.{report};
ghost use Rattle.report_text.specs.Report.{as_judged};
ghost use Rattle.judge_engine.specs.declared.fault.Input.{Input};
ghost use Rattle.judge_engine.specs.declared.fault.JudgeFault.TheVariants.{OutOfMemory, TooLarge, TooManyPlanners, TooManyPlans, Domain};

use crate::bundle::Bundle;
use crate::engine::{MOST_PLANNERS, read_task, too_large};
use crate::fault::JudgeFault;
use crate::planner::{ReportPosition, push_next, push_planner_line};
use crate::plans::{Cut, cut_plans};
use crate::report::Report;
use intake_rules::{Finding, Job};
use pddl_reader::Dialect;
use plan_cost::CostedTask;
use report_text::{Format, Text, push_head};
use std::alloc::{AllocError, AllocFailed, Global};
use strips_task::Seed;
use text_judge::TextJudge;

/// The report of a run, all of whose plans are judged on the calling thread.
///
/// The report and the faults are those of [`judge_run`](crate::engine::judge_run), and so is what is said there of the seed and of running out of memory. One
/// judge judges all plans, and keeps what it learns of steps from one plan to the next.
pub fn judge_alone(
    alloc: Global,
    seed: Seed,
    dialect: Dialect,
    format: Format,
    domain: &[u8],
    problem: &[u8],
    bundles: &[Bundle],
) -> Result<Report, JudgeFault>
    ensures answer { IfOk result (λ report. answer_as dialect format domain.now problem.now bundles.now ≡ Some report) }
    ensures refusal { IfErr result (λ fault. IsOfTexts fault → answer_as dialect format domain.now problem.now bundles.now ≡ None) }
    ensures cause { IfErr result (λ fault. IsOfTexts fault → TextsCallForIn dialect domain.now problem.now bundles.now fault) }
    ensures memory { IfErr result (λ fault. fault ≢ OutOfMemory → IsOfTexts fault) }

    // Faults that take no memory to find are always reported.
    ensures large { (large : Input) → (result ≡ Err (TooLarge large)) ↔ (too_large domain.now problem.now bundles.now ≡ Some large) }
    ensures planners { too_large domain.now problem.now bundles.now ≡ None → most_planners < length bundles.now → result ≡ Err TooManyPlanners }
    ensures domain_text { (e : read_fault.ReadFault) → too_large domain.now problem.now bundles.now ≡ None → length bundles.now ≤ most_planners
        → text_fault domain.now ≡ Some e → result ≡ Err (Domain e) }
{
    match too_large(domain, problem, bundles) {
        Some(large) => Err(JudgeFault::TooLarge(large)),
        None => {
            if bundles.len() > MOST_PLANNERS {
                return Err(JudgeFault::TooManyPlanners);
            }
            match read_task(alloc, seed, dialect, domain, problem) {
                Ok(task) => planners_alone(alloc, format, &task, bundles),
                Err(fault) => Err(fault),
            }
        }
    }
}

/// The report of a task's plans, unless there are too many.
pub(crate) fn planners_alone(
    alloc: Global,
    format: Format,
    task: &CostedTask,
    bundles: &[Bundle],
) -> Result<Report, JudgeFault>
    requires planners { length bundles.now ≤ 64 }
    ensures report { IfOk result (λ text. (plan_count bundles.now ≤ most_plans) × (text ≡ report format task.now (map (planner_of task.now) bundles.now))) }
    ensures refusal { IfErr result (λ fault. IsOfTexts fault → (fault ≡ TooManyPlans) × (most_plans < plan_count bundles.now)) }
    ensures memory { IfErr result (λ fault. fault ≢ OutOfMemory → IsOfTexts fault) }
{
    match cut_plans(alloc, bundles) {
        Ok(Some(cuts)) => match report_alone(alloc, format, task, bundles, cuts.as_slice()) {
            Ok(report) => Ok(report),
            Err(AllocError) => Err(JudgeFault::OutOfMemory),
        },
        Ok(None) => Err(JudgeFault::TooManyPlans),
        Err(AllocError) => Err(JudgeFault::OutOfMemory),
    }
}

/// The report of a task's plans.
fn report_alone(
    alloc: Global,
    format: Format,
    task: &CostedTask,
    bundles: &[Bundle],
    cuts: &[Cut],
) -> Result<Report, AllocError>
    requires within { AreCutsOf bundles.now cuts.now }
    requires plans { plans_of_cuts bundles.now cuts.now ≡ plans_of_files 0 bundles.now }
    requires few { plan_count bundles.now ≤ most_plans }
    ensures { IfOk result (λ text. text ≡ report format task.now (map (planner_of task.now) bundles.now)) }
{
    let mut text = Text::new(alloc);
    push_head(&mut text, format, &task.task)?;
    if bundles.is_empty() {
        return Ok(Report::from_bytes(text.into_bytes()));
    }
    let last = push_one_by_one(alloc, &mut text, format, task, bundles, cuts)?;
    push_planner_line(&mut text, format, task, bundles, last)?;
    Ok(Report::from_bytes(text.into_bytes()))
}

/// Judges plans one after the other, and adds each to a report. Answers where that stands then.
fn push_one_by_one(
    alloc: Global,
    text: &mut Text,
    format: Format,
    task: &CostedTask,
    bundles: &[Bundle],
    cuts: &[Cut],
) -> Result<ReportPosition, AllocError>
    requires some { 0 < length bundles.now }
    requires within { AreCutsOf bundles.now cuts.now }
    requires few { length cuts.now ≤ 65536 }
    ensures text { IfOk result (λ last. text.new ++ rest_text format task.now bundles.now last []
        ≡ text.old ++ rest_text format task.now bundles.now (start_of 0) (plans_of_cuts bundles.now cuts.now)) }
    ensures known { IfOk result (λ last. last.planner < length bundles.now) }
{
    let mut judge = TextJudge::new(alloc, task, 1)?;
    push_each(alloc, &mut judge, text, format, bundles, cuts)
}

/// Judges plans by a judge that keeps what it learns of steps, and adds each to a report. Answers where that stands then.
fn push_each(
    alloc: Global,
    judge: &mut TextJudge<'_>,
    text: &mut Text,
    format: Format,
    bundles: &[Bundle],
    cuts: &[Cut],
) -> Result<ReportPosition, AllocError>
    requires some { 0 < length bundles.now }
    requires within { AreCutsOf bundles.now cuts.now }
    requires few { length cuts.now ≤ 65536 }
    ensures text { IfOk result (λ last. text.new ++ rest_text format judge.old bundles.now last []
        ≡ text.old ++ rest_text format judge.old bundles.now (start_of 0) (plans_of_cuts bundles.now cuts.now)) }
    ensures known { IfOk result (λ last. last.planner < length bundles.now) }
{
    let mut position = ReportPosition::start_of(0);
    for cut in cuts {
        position = push_judged(alloc, judge, text, format, bundles, *cut, position)?;
    }
    Ok(position)
}

/// Judges the plan of a range, and adds it to a report. Answers where that stands then.
fn push_judged(
    alloc: Global,
    judge: &mut TextJudge<'_>,
    text: &mut Text,
    format: Format,
    bundles: &[Bundle],
    cut: Cut,
    position: ReportPosition,
) -> Result<ReportPosition, AllocError>
    requires cut { IsCutOf bundles.now cut }
    requires position { IsPosition (length bundles.now) 65535 position }
    ensures text { OnOk result (text.new ≡ text.old ++ next_text format judge.old bundles.now position cut.planner (judged_plan judge.old (plan_of_cut bundles.now cut).plan)) }
    ensures position { IfOk result (λ next. next ≡ position_with position cut.planner (judged_plan judge.old (plan_of_cut bundles.now cut).plan)) }
    ensures task { judge.new ≡ judge.old }
{
    let finding = judge_cut(alloc, judge, bundles, cut)?;
    let task = judge.task();
    let next = push_next(text, format, task, bundles, cut.planner, &finding, position)?;
    Ok(next)
}

/// Judges the plan of a range. The number of the job shows in no report.
fn judge_cut(
    alloc: Global,
    judge: &mut TextJudge<'_>,
    bundles: &[Bundle],
    cut: Cut,
) -> Result<Finding, AllocError>
    requires { IsCutOf bundles.now cut }
    ensures finding { IfOk result (λ finding. as_judged finding ≡ judged_plan judge.old (plan_of_cut bundles.now cut).plan) }
    ensures task { judge.new ≡ judge.old }
{
    let job = Job {
        number: 0,
        planner: cut.planner,
        plan: cut.plan(bundles)?,
    };
    match Finding::judge_own(alloc, judge, job) {
        Ok(finding) => Ok(finding),
        Err(AllocFailed { value: _ }) => Err(AllocError),
    }
}
