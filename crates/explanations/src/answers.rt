//! The explanation of a run.

ghost use Rattle.std.specs.Prelude.{◌≡◌, ◌≢◌, false, None, Some, IfOk, MatchResult, ◌&&◌};
ghost use Rattle.pddl_syntax.specs.declared.fault.FaultKind.TheVariants.{OutOfMemory};
ghost use Rattle.explanations.specs.Refused.{kind_of};
ghost use Rattle.explanations.specs.AllValid.{is_valid, is_valid_plan, are_valid_in, are_all_valid, all_valid_for};
ghost use Rattle.task_reader.specs.Texts.{task_in};

use crate::account::push_more_line;
use crate::causes::{changes_for, left_out, push_causes};
use crate::faults::push_refusal;
use crate::library::Library;
use crate::lint::push_warnings;
use crate::page::Page;
use crate::phrases::push_phrases;
use crate::plans::{JudgedPlan, PlanAt, missing_of, named_positions, push_assessment, push_name};
use crate::positions::{LineCount, Range};
use crate::records::{push_plan_record, push_refused_record, push_run_record};
use crate::remarks::{push_empty_end, push_end, push_header, push_other_domain};
use crate::scene::{Refusal, Scene};
use crate::steps::Part;
use crate::trace::push_trace;
use crate::walk::world_after;
use crate::{Explanation, ExplanationFormat, Options, SourceText};
use pddl_reader::{Dialect, FaultKind, ReadFault};
use plan_cost::{Assessment, CostedTask};
use plan_text::{PartEnd, part_from};
use std::alloc::{AllocError, Global};
use strips_judge::Verdict;
use strips_task::{Seed, Task};
use task_reader::TaskFault;
use text_judge::{Assessed, TextJudge};

/// Explains what a judge answers about the plans of some files.
///
/// A text for people names the file, the line and the column of what is wrong, shows that line, and says what to do. Records say the same to programs.
/// `all_valid` is true exactly if the domain and the problem are read and every plan is valid. The only error is that memory runs out.
pub fn explain(
    alloc: Global,
    seed: Seed,
    options: Options,
    domain: SourceText<'_>,
    problem: SourceText<'_>,
    plans: &[SourceText<'_>],
) -> Result<Explanation, AllocError>
    ensures { IfOk result (λ e. e.all_valid ≡ all_valid_for (task_in options.dialect domain.entry.bytes.now problem.entry.bytes.now) plans.now) }
{
    let mut page = Page::new(alloc, options.format, options.colors);
    let dialect = options.dialect;
    match read_task(alloc, seed, dialect, domain.bytes, problem.bytes) {
        Ok(task) => {
            let all_valid = push_plans(&mut page, &task, options, domain, problem, plans)?;
            Ok(Explanation {
                text: page.into_text()?,
                all_valid,
                refused: None,
            })
        }
        Err(refused) => {
            if is_of_memory(refused) {
                return Err(AllocError);
            }
            push_refused(&mut page, dialect, domain, problem, refused)?;
            Ok(Explanation {
                text: page.into_text()?,
                all_valid: false,
                refused: Some(refused),
            })
        }
    }
}

/// Which text is refused, and why.
#[derive(Clone, Copy)]
pub enum Refused {
    /// The domain is.
    Domain(ReadFault),
    /// The problem is, with a domain that is read.
    Problem(ReadFault),
}

/// Whether memory ran out, so that nothing is wrong with the text.
fn is_of_memory(refused: Refused) -> bool
    ensures { result ≡ false → kind_of refused ≢ OutOfMemory }
{
    match refused {
        Refused::Domain(fault) => is_out_of_memory(fault.kind),
        Refused::Problem(fault) => is_out_of_memory(fault.kind),
    }
}

/// Whether a fault is that memory ran out.
fn is_out_of_memory(kind: FaultKind) -> bool
    ensures { result ≡ false → kind ≢ OutOfMemory }
{
    match kind {
        FaultKind::OutOfMemory => true,
        _ => false,
    }
}

/// The task of a domain text and a problem text in a dialect.
fn read_task(
    alloc: Global,
    seed: Seed,
    dialect: Dialect,
    domain: &[u8],
    problem: &[u8],
) -> Result<CostedTask, Refused>
    ensures { MatchResult result (λ task. task_in dialect domain.now problem.now ≡ Some task)
        (λ refused. kind_of refused ≢ OutOfMemory → task_in dialect domain.now problem.now ≡ None) }
{
    match task_reader::read_task(alloc, seed, dialect, domain, problem) {
        Ok(task) => Ok(task),
        Err(TaskFault::Domain(fault)) => Err(Refused::Domain(fault)),
        Err(TaskFault::Problem(fault)) => Err(Refused::Problem(fault)),
    }
}

/// Adds why the domain or the problem is refused.
fn push_refused<'a>(
    page: &mut Page,
    dialect: Dialect,
    domain: SourceText<'a>,
    problem: SourceText<'a>,
    refused: Refused,
) -> Result<(), AllocError> {
    match refused {
        Refused::Domain(fault) => {
            let refusal = Refusal {
                file: domain,
                is_problem: false,
                fault,
                dialect,
            };
            push_text(
                page,
                refusal,
                domain,
                SourceText {
                    name: b"",
                    bytes: b"",
                },
            )
        }
        Refused::Problem(fault) => {
            let refusal = Refusal {
                file: problem,
                is_problem: true,
                fault,
                dialect,
            };
            push_text(page, refusal, domain, problem)
        }
    }
}

/// Adds why a text is refused. The names for its hints come from a domain and a problem.
fn push_text<'a>(
    page: &mut Page,
    refusal: Refusal<'a>,
    domain: SourceText<'a>,
    problem: SourceText<'a>,
) -> Result<(), AllocError> {
    let library = Library::new(page.alloc(), domain, problem)?;
    let mut scene = Scene::new(page.alloc(), refusal, library)?;
    if page.is_json() {
        push_refused_record(page, &mut scene);
    } else {
        push_refusal(page, &mut scene);
    }
    Ok(())
}

/// What was found about the plans so far.
#[derive(Clone, Copy)]
struct Tally {
    plans: usize,
    valid: usize,
    all_valid: bool,
}

/// Adds what is found about the plans of all files, and answers whether all of them are valid.
fn push_plans<'a>(
    page: &mut Page,
    task: &CostedTask,
    options: Options,
    domain: SourceText<'a>,
    problem: SourceText<'a>,
    plans: &[SourceText<'a>],
) -> Result<bool, AllocError>
    ensures { IfOk result (λ all_valid. all_valid ≡ are_all_valid task.now plans.now) }
{
    push_start(page, task, problem, plans.is_empty());
    let mut library = Library::new(page.alloc(), domain, problem)?;
    let all_valid = push_judged(page, task, &mut library, options, plans)?;
    if options.lint {
        push_warnings(page, &task.task, domain, problem)?;
    }
    Ok(all_valid)
}

/// Judges the plans of all files, adds what is found, and answers whether all of them are valid.
fn push_judged<'a>(
    page: &mut Page,
    task: &CostedTask,
    library: &mut Library<'a>,
    options: Options,
    plans: &[SourceText<'a>],
) -> Result<bool, AllocError>
    ensures { IfOk result (λ all_valid. all_valid ≡ are_all_valid task.now plans.now) }
{
    let mut judge = TextJudge::new(page.alloc(), task, 1)?;
    let all_valid = push_files(page, &mut judge, library, options, plans)?;
    Ok(all_valid)
}

/// Adds what can be said before a plan is judged.
fn push_start(page: &mut Page, task: &CostedTask, problem: SourceText<'_>, is_all: bool) {
    if page.is_json() {
        push_run_record(page, &task.task);
    }
    push_other_domain(page, &task.task, problem);
    if is_all && page.is_text() {
        push_header(page, &task.task);
    }
}

/// Adds what is found about the plans of all files, and how many there are. Answers whether all of them are valid.
fn push_files<'a>(
    page: &mut Page,
    judge: &mut TextJudge<'_>,
    library: &mut Library<'a>,
    options: Options,
    plans: &[SourceText<'a>],
) -> Result<bool, AllocError>
    ensures { IfOk result (λ all_valid. all_valid ≡ are_all_valid judge.old plans.now) }
{
    let mut tally = Tally {
        plans: 0,
        valid: 0,
        all_valid: true,
    };
    for file in plans {
        tally = push_file(page, judge, library, options, *file, tally)?;
    }
    push_end(page, tally.plans, tally.valid);
    Ok(tally.all_valid)
}

/// Adds what is found about the plans of a file.
fn push_file<'a>(
    page: &mut Page,
    judge: &mut TextJudge<'_>,
    library: &mut Library<'a>,
    options: Options,
    file: SourceText<'a>,
    tally: Tally,
) -> Result<Tally, AllocError>
    ensures judge { judge.new ≡ judge.old }
    ensures valid { IfOk result (λ after. after.all_valid ≡ (tally.all_valid && are_valid_in judge.old file.entry.bytes.now)) }
{
    let mut tally = tally;
    let mut number: usize = 0;
    let mut lines = LineCount::new();
    let mut start = 0;
    'parts: loop {
        let PartEnd { end, next } = part_from(file.bytes, start);
        let range = Range { start, end };
        let _line = lines.line_of(file.bytes, start);
        number = number.saturating_add(1);
        let part = Part {
            file: file.bytes,
            range,
            lines,
        };
        let plan = PlanAt { file, part, number };
        let is_valid = push_plan(page, judge, library, options, plan, &file.bytes[start..end])?;
        tally = tally.with(is_valid);
        match next {
            Some(behind) => start = behind,
            None => {
                push_empty_end(page, file, range, number);
                return Ok(tally);
            }
        }
    }
}

impl Tally {
    /// The tally with one more plan.
    fn with(self, is_valid: bool) -> Tally
        ensures { result.all_valid ≡ (self.all_valid && is_valid) }
    {
        Tally {
            plans: self.plans.saturating_add(1),
            valid: self.valid.saturating_add(usize::from(is_valid)),
            all_valid: self.all_valid && is_valid,
        }
    }
}

/// Adds what is found about a plan with this text, and answers whether it is valid.
fn push_plan<'a>(
    page: &mut Page,
    judge: &mut TextJudge<'_>,
    library: &mut Library<'a>,
    options: Options,
    plan: PlanAt<'a>,
    text: &[u8],
) -> Result<bool, AllocError>
    ensures judge { judge.new ≡ judge.old }
    ensures valid { IfOk result (λ valid. valid ≡ is_valid_plan judge.old text.now) }
{
    let Assessed {
        assessment,
        place: _,
    } = judge.assess(page.alloc(), text)?;
    match push_found(page, judge, library, options, plan, &assessment) {
        Ok(()) => Ok(is_valid(&assessment.verdict)),
        Err(AllocError) => Err(AllocError),
    }
}

/// Adds what is found about a plan.
fn push_found<'a>(
    page: &mut Page,
    judge: &mut TextJudge<'_>,
    library: &mut Library<'a>,
    options: Options,
    plan: PlanAt<'a>,
    assessment: &Assessment,
) -> Result<(), AllocError>
    ensures { judge.new ≡ judge.old }
{
    let verdict = &assessment.verdict;
    if options.trace {
        push_steps(page, judge.task(), plan, verdict)?;
    }
    let missing = missing_of(verdict);
    let changes = changes_for(page.alloc(), judge, plan.part.text(), missing)?;
    let task = &judge.task().task;
    let most = steps_followed(options.dialect, verdict);
    let changes = changes.as_slice();
    push_with_changes(page, task, library, plan, assessment, changes, most)
}

/// Adds what is found about a plan, where it is known which step changed each missing condition last. So many of its steps are followed.
fn push_with_changes<'a>(
    page: &mut Page,
    task: &Task,
    library: &mut Library<'a>,
    plan: PlanAt<'a>,
    assessment: &Assessment,
    changes: &[Option<usize>],
    steps: usize,
) -> Result<(), AllocError> {
    let positions = named_positions(page.alloc(), plan, &assessment.verdict)?;
    let world = world_after(page.alloc(), task, plan.part.text(), steps)?;
    let judged = JudgedPlan {
        plan,
        positions: &positions,
        changes,
        world: &world,
        assessment,
    };
    push_judged_plan(page, library, judged);
    Ok(())
}

/// Adds what is found about a plan, and why.
fn push_judged_plan<'a>(
    page: &mut Page,
    library: &mut Library<'a>,
    judged: JudgedPlan<'a, '_, '_>,
) {
    match page.format() {
        ExplanationFormat::Text => push_plan_text(page, library, judged),
        ExplanationFormat::Json => push_plan_record(page, library, judged),
        ExplanationFormat::Phrases(phrases) => push_phrases(page, library, judged, phrases),
    }
}

/// Adds what is found about a plan, and why, to a text for people.
pub(crate) fn push_plan_text<'a>(
    page: &mut Page,
    library: &mut Library<'a>,
    judged: JudgedPlan<'a, '_, '_>,
) {
    push_assessment(
        page,
        library,
        judged.plan,
        judged.positions,
        judged.assessment,
    );
    push_causes(page, judged);
    push_more_line(page, 1, left_out(judged));
}

/// Whether a verdict is that the plan is valid.
fn is_valid(verdict: &Verdict) -> bool
    ensures { result ≡ is_valid verdict.now }
{
    match verdict {
        Verdict::Valid { steps: _ } => true,
        Verdict::Fails { step: _, why: _ } => false,
        Verdict::Goal { missing: _ } => false,
        Verdict::Unreadable { line: _ } => false,
    }
}

/// Adds what each step of a plan changes, for the steps that can be taken.
fn push_steps(
    page: &mut Page,
    task: &CostedTask,
    plan: PlanAt<'_>,
    verdict: &Verdict,
) -> Result<(), AllocError> {
    let Some(most) = steps_shown(verdict) else {
        return Ok(());
    };
    if !page.is_json() {
        push_name(page, plan);
        page.say("the steps of plan ");
        page.number(plan.number);
        page.say("\n");
    }
    push_trace(page, task, plan, most)
}

/// How many steps are followed to find out why conditions do not hold. Where all conditions are literals and all effects happen in any case, none are.
fn steps_followed(dialect: Dialect, verdict: &Verdict) -> usize {
    if dialect != Dialect::Adl || missing_of(verdict).is_empty() {
        return 0;
    }
    steps_shown(verdict).unwrap_or(0)
}

/// How many steps are shown at most. None are shown of a plan that cannot be read.
fn steps_shown(verdict: &Verdict) -> Option<usize> {
    match verdict {
        Verdict::Valid { steps } => Some(*steps as usize),
        Verdict::Fails { step, why: _ } => Some((*step as usize).saturating_sub(1)),
        Verdict::Goal { missing: _ } => Some(usize::MAX),
        Verdict::Unreadable { line: _ } => None,
    }
}
