//! The engine: texts in, report out.
//!
//! [`judge_bytes`] reads the domain and the problem, cuts the planners' files into plans, has these read and judged on several threads, and
//! makes the whole report. Its contract says that the report is the stated function of the bytes that came in, for any number of threads.
ghost use Rattle.std.specs.Prelude.{◌≡◌, ◌≢◌, ◌↔◌, ◌<◌, ◌≤◌, ℕ, length, map, IfOk, IfErr, Some, None, Err};
ghost use Rattle.pddl_syntax.specs.declared.fault.ReadFault as read_fault;
ghost use Rattle.pddl_syntax.specs.Trees.{text_fault};
ghost use Rattle.task_reader.specs.Texts.{task_in};
ghost use Rattle.judge_bench.specs.Findings.{findings_of};
ghost use Rattle.judge_engine.specs.Answer.{answer, answer_as, planner_of, too_large, plan_count, most_planners, most_plans};
ghost use Rattle.judge_engine.specs.Plans.{AreCutsOf, handed_in, plans_of_cuts, plans_of_files};
ghost use Rattle.judge_engine.specs.Refusal.{IsOfTexts, IsOfThreads, ReadingCallsFor, TextsCallFor, TextsCallForIn};
ghost use Rattle.report_text.specs.Format.{report};
ghost use Rattle.judge_engine.specs.declared.fault.Input.{Input};
ghost use Rattle.judge_engine.specs.declared.fault.JudgeFault.TheVariants.{OutOfMemory, TooLarge, TooManyPlanners, TooManyPlans, Domain, Held};

use crate::bundle::Bundle;
use crate::fault::{Input, JudgeFault};
use crate::inlet::FILE_LIMIT;
use crate::planner::{push_planner_line, push_plans};
use crate::plans::{Cut, CutPlans, cut_side_by_side};
use crate::report::Report;
use judge_bench::{Findings, Gate, run};
use pddl_reader::{Dialect, FaultKind, ReadFault};
use plan_cost::CostedTask;
use report_text::{Format, Text, push_head};
use std::alloc::{AllocError, Global};
use std::sync::Wait;
use std::thread::Threads;
use strips_task::Seed;
use task_reader::TaskFault;

/// The most planners of a run.
pub const MOST_PLANNERS: usize = 64;

/// The most plans of a run, of all planners together.
pub const MOST_PLANS: usize = 65536;

/// The report of a run over a domain text, a problem text and the files of planners, in the default dialect and in lines: [`judge_run`] with
/// [`Dialect::Strips`] and [`Format::Lines`].
pub fn judge_bytes<R: Threads + Wait + Sync, G: Gate + Sync>(
    rt: &R,
    alloc: Global,
    seed: Seed,
    domain: &[u8],
    problem: &[u8],
    bundles: &[Bundle],
    workers: u32,
    gate: &G,
) -> Result<Report, JudgeFault>
    requires { (1 ≤ workers) × (workers ≤ 32) }
    ensures answer { IfOk result (λ report. answer domain.now problem.now bundles.now ≡ Some report) }
    ensures refusal { IfErr result (λ fault. IsOfTexts fault → answer domain.now problem.now bundles.now ≡ None) }
    ensures cause { IfErr result (λ fault. IsOfTexts fault → TextsCallFor domain.now problem.now bundles.now fault) }
    ensures threads { IfErr result (λ fault. IsOfThreads fault → answer domain.now problem.now bundles.now ≢ None) }
    ensures held { IfErr result (λ fault. (job : ℕ) → fault ≡ Held job → G.may_hold gate.now job) }

    // Faults that take no memory to find are always reported.
    ensures large { (large : Input) → (result ≡ Err (TooLarge large)) ↔ (too_large domain.now problem.now bundles.now ≡ Some large) }
    ensures planners { too_large domain.now problem.now bundles.now ≡ None → most_planners < length bundles.now → result ≡ Err TooManyPlanners }
    ensures domain_text { (e : read_fault.ReadFault) → too_large domain.now problem.now bundles.now ≡ None → length bundles.now ≤ most_planners
        → text_fault domain.now ≡ Some e → result ≡ Err (Domain e) }
{
    let input = RunInput {
        dialect: Dialect::Strips,
        format: Format::Lines,
        domain,
        problem,
        bundles,
        workers,
    };
    judge_run(rt, alloc, seed, &input, gate)
}

/// What a run is given.
#[derive(Clone, Copy)]
pub struct RunInput<'a> {
    /// The dialect of the domain and the problem.
    pub dialect: Dialect,
    /// How the report is written.
    pub format: Format,
    /// The text of the domain.
    pub domain: &'a [u8],
    /// The text of the problem.
    pub problem: &'a [u8],
    /// The files of the planners.
    pub bundles: &'a [Bundle],
    /// How many threads may judge, 1 to 32.
    pub workers: u32,
    ghost some: { 1 ≤ workers },
    ghost most: { workers ≤ 32 },
}

/// The report of a run.
///
/// A file holds one plan or more (`plan_text::Parts`). No plan is a reason to refuse the run: a text that is no plan gets a verdict, too.
/// The plans are jobs, numbered from 0 in the order of the files and of the parts of each. The threads read and judge them side by
/// side, and the gate is asked before each is judged. If the domain declares `total-cost`, the cost of each valid plan is reported
/// with its verdict, and the least of them in the planner's last line. The whole report is made before anything is written; without
/// planners it is only its head. Tables of names and atoms hash with the seed; the report does not depend on it.
/// Waits until all threads are done.
///
/// If there is no report, the fault is the first in the order of `JudgeFault`. The plans are counted before any is read. Once the bytes and
/// parentheses of a text are right, the reader decides which fault it reports, and where. Running out of memory can be reported instead of any
/// fault but those that take no memory to find: that a text is too large, too many planners, and the wrong bytes and parentheses of
/// the domain.
pub fn judge_run<R: Threads + Wait + Sync, G: Gate + Sync>(
    rt: &R,
    alloc: Global,
    seed: Seed,
    input: &RunInput<'_>,
    gate: &G,
) -> Result<Report, JudgeFault>
    ensures answer { IfOk result (λ report. answer_as input.now.dialect input.now.format input.now.domain.now input.now.problem.now input.now.bundles.now ≡ Some report) }
    ensures refusal { IfErr result (λ fault. IsOfTexts fault → answer_as input.now.dialect input.now.format input.now.domain.now input.now.problem.now input.now.bundles.now ≡ None) }
    ensures cause { IfErr result (λ fault. IsOfTexts fault → TextsCallForIn input.now.dialect input.now.domain.now input.now.problem.now input.now.bundles.now fault) }
    ensures threads { IfErr result (λ fault. IsOfThreads fault → answer_as input.now.dialect input.now.format input.now.domain.now input.now.problem.now input.now.bundles.now ≢ None) }
    ensures held { IfErr result (λ fault. (job : ℕ) → fault ≡ Held job → G.may_hold gate.now job) }

    // Faults that take no memory to find are always reported.
    ensures large { (large : Input) → (result ≡ Err (TooLarge large)) ↔ (too_large input.now.domain.now input.now.problem.now input.now.bundles.now ≡ Some large) }
    ensures planners { too_large input.now.domain.now input.now.problem.now input.now.bundles.now ≡ None → most_planners < length input.now.bundles.now → result ≡ Err TooManyPlanners }
    ensures domain_text { (e : read_fault.ReadFault) → too_large input.now.domain.now input.now.problem.now input.now.bundles.now ≡ None → length input.now.bundles.now ≤ most_planners
        → text_fault input.now.domain.now ≡ Some e → result ≡ Err (Domain e) }
{
    match too_large(input.domain, input.problem, input.bundles) {
        Some(large) => Err(JudgeFault::TooLarge(large)),
        None => {
            if input.bundles.len() > MOST_PLANNERS {
                return Err(JudgeFault::TooManyPlanners);
            }
            match read_task(alloc, seed, input.dialect, input.domain, input.problem) {
                Ok(task) => judge_planners(rt, alloc, input, &task, gate),
                Err(fault) => Err(fault),
            }
        }
    }
}

/// The first input that is over the limit of a file.
pub(crate) fn too_large(domain: &[u8], problem: &[u8], bundles: &[Bundle]) -> Option<Input>
    ensures { result ≡ too_large domain.now problem.now bundles.now }
{
    if domain.len() > FILE_LIMIT {
        return Some(Input::Domain);
    }
    if problem.len() > FILE_LIMIT {
        return Some(Input::Problem);
    }
    for (number, bundle) in bundles.iter().enumerate() {
        if bundle.bytes().len() > FILE_LIMIT {
            return Some(Input::Plans(number));
        }
    }
    None
}

/// The task of a domain text and a problem text in a dialect, which hashes with a seed.
pub(crate) fn read_task(
    alloc: Global,
    seed: Seed,
    dialect: Dialect,
    domain: &[u8],
    problem: &[u8],
) -> Result<CostedTask, JudgeFault>
    ensures task { IfOk result (λ task. task_in dialect domain.now problem.now ≡ Some task) }
    ensures refusal { IfErr result (λ fault. fault ≢ OutOfMemory → task_in dialect domain.now problem.now ≡ None) }
    ensures cause { IfErr result (λ fault. fault ≢ OutOfMemory → ReadingCallsFor dialect domain.now problem.now fault) }
    ensures domain_text { (e : read_fault.ReadFault) → text_fault domain.now ≡ Some e → result ≡ Err (Domain e) }
    ensures reader { IfErr result (λ fault. (large : Input) → fault ≢ TooLarge large) }
{
    match task_reader::read_task(alloc, seed, dialect, domain, problem) {
        Ok(task) => Ok(task),
        Err(TaskFault::Domain(fault)) => Err(refusal(fault, JudgeFault::Domain(fault))),
        Err(TaskFault::Problem(fault)) => Err(refusal(fault, JudgeFault::Problem(fault))),
    }
}

/// Why a run stops if a reader refuses a text: running out of memory is the same fault for any text.
fn refusal(fault: ReadFault, other: JudgeFault) -> JudgeFault
    ensures memory { fault.kind ≡ FaultKind.OutOfMemory → result ≡ OutOfMemory }
    ensures other { fault.kind ≢ FaultKind.OutOfMemory → result ≡ other }
{
    match fault.kind {
        FaultKind::OutOfMemory => JudgeFault::OutOfMemory,
        _ => other,
    }
}

/// The report of a task's plans, unless there are too many.
fn judge_planners<R: Threads + Wait + Sync, G: Gate + Sync>(
    rt: &R,
    alloc: Global,
    input: &RunInput<'_>,
    task: &CostedTask,
    gate: &G,
) -> Result<Report, JudgeFault>
    requires planners { length input.now.bundles.now ≤ 64 }
    ensures report { IfOk result (λ text. (plan_count input.now.bundles.now ≤ most_plans) × (text ≡ report input.now.format task.now (map (planner_of task.now) input.now.bundles.now))) }
    ensures refusal { IfErr result (λ fault. IsOfTexts fault → (fault ≡ TooManyPlans) × (most_plans < plan_count input.now.bundles.now)) }
    ensures counted { IfErr result (λ fault. IsOfThreads fault → plan_count input.now.bundles.now ≤ most_plans) }
    ensures held { IfErr result (λ fault. (job : ℕ) → fault ≡ Held job → G.may_hold gate.now job) }
{
    match cut_side_by_side(rt, alloc, input.bundles, input.workers) {
        Ok(Some(cuts)) => report_of(rt, alloc, input, task, cuts.as_slice(), gate),
        Ok(None) => Err(JudgeFault::TooManyPlans),
        Err(AllocError) => Err(JudgeFault::OutOfMemory),
    }
}

/// The report of a task's plans.
fn report_of<R: Threads + Wait + Sync, G: Gate + Sync>(
    rt: &R,
    alloc: Global,
    input: &RunInput<'_>,
    task: &CostedTask,
    cuts: &[Cut],
    gate: &G,
) -> Result<Report, JudgeFault>
    requires within { AreCutsOf input.now.bundles.now cuts.now }
    requires plans { plans_of_cuts input.now.bundles.now cuts.now ≡ plans_of_files 0 input.now.bundles.now }
    requires few { plan_count input.now.bundles.now ≤ most_plans }
    ensures report { IfOk result (λ text. text ≡ report input.now.format task.now (map (planner_of task.now) input.now.bundles.now)) }
    ensures refusal { IfErr result (λ fault. IsOfTexts fault → ⊥) }
    ensures held { IfErr result (λ fault. (job : ℕ) → fault ≡ Held job → G.may_hold gate.now job) }
{
    let format = input.format;
    let bundles = input.bundles;
    let mut text = Text::new(alloc);
    push_head(&mut text, format, &task.task)?;
    if bundles.is_empty() {
        return Ok(Report::from_bytes(text.into_bytes()));
    }
    let findings = judge_together(rt, alloc, input, task, cuts, gate)?;
    let last = push_plans(&mut text, format, task, bundles, cuts, &findings)?;
    push_planner_line(&mut text, format, task, bundles, last)?;
    Ok(Report::from_bytes(text.into_bytes()))
}

/// What is found about the plans of these ranges, all handed in as plans of one planner. No more threads judge than there are plans.
fn judge_together<R: Threads + Wait + Sync, G: Gate + Sync>(
    rt: &R,
    alloc: Global,
    input: &RunInput<'_>,
    task: &CostedTask,
    cuts: &[Cut],
    gate: &G,
) -> Result<Findings, JudgeFault>
    requires within { AreCutsOf input.now.bundles.now cuts.now }
    requires few { length cuts.now ≤ 65536 }
    ensures findings { IfOk result (λ findings. findings ≡ findings_of task.now 1 (handed_in input.now.bundles.now cuts.now)) }
    ensures refusal { IfErr result (λ fault. IsOfTexts fault → ⊥) }
    ensures held { IfErr result (λ fault. (job : ℕ) → fault ≡ Held job → G.may_hold gate.now job) }
{
    let slots = cuts.len() as u32;
    let mut intake = CutPlans::new(input.bundles, cuts);
    let workers = input.workers.min(slots).max(1);
    Ok(run(rt, alloc, task, 1, slots, &mut intake, workers, gate)?)
}
