//! The calls that keep a task: it is read once, and plans are judged against it again and again.
ghost use Rattle.std.specs.Prelude.{◌≡◌, ◌≤◌, ◌⊎◌, ℕ, List, All, None, Some};
ghost use Rattle.std.specs.Str.{IsUtf8};
ghost use Rattle.strips_task.specs.declared.costs.CostedTask.{CostedTask};
ghost use Rattle.judge_engine.specs.Kept.{PlansCallFor, answer_of};
ghost use Rattle.judge_engine.specs.declared.fault.JudgeFault.{JudgeFault};
ghost use Rattle.plan_judge_c.specs.Answers.{IsCalledFor, refusal_line, report_for};
ghost use Rattle.c_values.specs.Handing.{IsHandedOut};
ghost use Rattle.plan_judge_c.specs.Inputs.{bundles_of, format_numbered};
ghost use Rattle.c_values.specs.Dialects.{dialect_numbered};
ghost use Rattle.plan_judge_c.specs.KeptAnswers.{AreTextsOf, IsTaskCalledFor, kept_report, task_for};
ghost use Rattle.plan_judge_c.specs.declared.inputs.Texts.{Texts};
ghost use Rattle.c_values.specs.declared.answer.TheConstants.{MADE, REFUSED, MISUSED, OUT_OF_MEMORY};

use crate::inputs::{NamedText, Texts, Untaken, bundles_from, format_numbered, seed_from};
use crate::kept::KeptTask;
use crate::refusing::{refuse, refuse_plans, too_large_plans};
use c_values::{Answer, MADE, MISUSED, OUT_OF_MEMORY, dialect_numbered, hand_out, no_text};
use judge_engine::bundle::Bundle;
use judge_engine::fault::JudgeFault;
use judge_engine::kept::{judge_kept, read_kept};
use report_text::Format;
use std::alloc::{AllocFailed, Global};
use strips_task::CostedTask;

/// Reads a domain and a problem, and keeps their task. There is a text only if they are refused: the line that says why.
///
/// The files of plans are not looked at. What was kept before is given back first. If nothing is kept in the end, the struct is as one that is new.
#[tactic(auto, using(crate::proofs::KeptAnswers::task_is))]
#[unsafe(no_mangle)]
pub extern "C" fn plan_judge_keep(
    alloc: Global,
    texts: &Texts<'_>,
    task: &mut KeptTask,
    out: &mut [u8],
) -> Answer
    ensures status { result.status ≤ OUT_OF_MEMORY }
    ensures made { result.status ≡ MADE → (kept : CostedTask) × (task_for texts.now ≡ Some kept) × (task.new.task ≡ Some kept) }
    ensures nothing { REFUSED ≤ result.status → task.new.task ≡ None }
    ensures refused { result.status ≡ REFUSED → (task_for texts.now ≡ None) × (fault : JudgeFault) × IsTaskCalledFor texts.now fault × IsHandedOut (refusal_line texts.now fault) result.length out.old out.new }
    ensures misused { result.status ≡ MISUSED → dialect_numbered texts.now.dialect ≡ None }
    ensures unknown { dialect_numbered texts.now.dialect ≡ None → result.status ≡ MISUSED }
    ensures made_no_text { result.status ≡ MADE → (result.length ≡ 0) × (out.new ≡ out.old) }
    ensures no_text { MISUSED ≤ result.status → (result.length ≡ 0) × (out.new ≡ out.old) }
{
    plan_judge_give_back(alloc, task);
    let Some(dialect) = dialect_numbered(texts.dialect) else {
        return no_text(MISUSED);
    };
    match read_kept(
        alloc,
        seed_from(texts.seed),
        dialect,
        texts.domain.bytes,
        texts.problem.bytes,
    ) {
        Ok(read) => keep(alloc, task, read),
        Err(JudgeFault::OutOfMemory) => no_text(OUT_OF_MEMORY),
        Err(fault) => refuse(alloc, texts, fault, out),
    }
}

/// Keeps a task that was read, if nothing is kept.
fn keep(alloc: Global, task: &mut KeptTask, read: CostedTask) -> Answer
    requires { task.old.task ≡ None }
    ensures status { (result.status ≡ MADE) ⊎ (result.status ≡ OUT_OF_MEMORY) }
    ensures made { result.status ≡ MADE → task.new.task ≡ Some read }
    ensures nothing { result.status ≡ OUT_OF_MEMORY → task.new.task ≡ None }
    ensures no_text { result.length ≡ 0 }
{
    match Box::new(alloc, read) {
        Ok(read) => {
            task.put(alloc, read);
            no_text(MADE)
        }
        Err(AllocFailed { value: _ }) => no_text(OUT_OF_MEMORY),
    }
}

/// Judges the plans of files against the task that is kept. The text is the one that [`plan_judge_judge`](crate::judging::plan_judge_judge) makes of the texts
/// that the task was read from, with these files of plans.
///
/// The task stays kept, and nothing of the plans stays with it. A second call with the same files and a larger buffer gives the text that did not fit.
#[tactic(auto, using(crate::proofs::KeptAnswers::same_report, crate::proofs::KeptAnswers::same_fault))]
#[unsafe(no_mangle)]
pub extern "C" fn plan_judge_judge_kept(
    alloc: Global,
    task: &mut KeptTask,
    plans: &[NamedText<'_>],
    format: u32,
    out: &mut [u8],
) -> Answer
    ensures status { result.status ≤ OUT_OF_MEMORY }
    ensures kept { task.new.task ≡ task.old.task }
    ensures made { result.status ≡ MADE → (report : List ℕ) × (kept_report task.old.task plans.now format ≡ Some report) × IsHandedOut report result.length out.old out.new }
    ensures refused { result.status ≡ REFUSED → (kept_report task.old.task plans.now format ≡ None) × (fault : JudgeFault) × PlansCallFor (bundles_of plans.now) fault × ((texts : Texts) → texts.plans.now ≡ plans.now → IsHandedOut (refusal_line texts fault) result.length out.old out.new) }
    ensures misused { result.status ≡ MISUSED → (task.old.task ≡ None) ⊎ ((format_numbered format ≡ None) ⊎ (¬ (All (λ file. IsUtf8 file.name.now) plans.now))) }
    ensures unknown { (task.old.task ≡ None) ⊎ (format_numbered format ≡ None) → result.status ≡ MISUSED }
    ensures no_text { MISUSED ≤ result.status → (result.length ≡ 0) × (out.new ≡ out.old) }

    // What the task was read from, with these plans, has the same report, and is refused for the same fault.
    ensures same_report { (texts : Texts) → AreTextsOf task.old.task plans.now texts → report_for texts format ≡ kept_report task.old.task plans.now format }
    ensures same_fault { (texts : Texts) → (fault : JudgeFault) → AreTextsOf task.old.task plans.now texts → PlansCallFor (bundles_of plans.now) fault → IsCalledFor texts fault }
{
    let Some(format) = format_numbered(format) else {
        return no_text(MISUSED);
    };
    let Some(kept) = task.take(alloc) else {
        return no_text(MISUSED);
    };
    let answer = judge_plans(alloc, &kept, plans, format, out);
    task.put(alloc, kept);
    answer
}

/// Gives a task back, so that nothing is kept. If nothing is, this does nothing.
#[unsafe(no_mangle)]
pub extern "C" fn plan_judge_give_back(alloc: Global, task: &mut KeptTask)
    ensures { task.new.task ≡ None }
{
    drop(task.take(alloc));
}

/// Judges the plans of files against a task.
fn judge_plans(
    alloc: Global,
    task: &CostedTask,
    plans: &[NamedText<'_>],
    format: Format,
    out: &mut [u8],
) -> Answer
    ensures status { result.status ≤ OUT_OF_MEMORY }
    ensures made { result.status ≡ MADE → (report : List ℕ) × (answer_of format task.now (bundles_of plans.now) ≡ Some report) × IsHandedOut report result.length out.old out.new }
    ensures refused { result.status ≡ REFUSED → (answer_of format task.now (bundles_of plans.now) ≡ None) × (fault : JudgeFault) × PlansCallFor (bundles_of plans.now) fault × (texts : Texts) × (texts.plans.now ≡ plans.now) × IsHandedOut (refusal_line texts fault) result.length out.old out.new }
    ensures misused { result.status ≡ MISUSED → ¬ (All (λ file. IsUtf8 file.name.now) plans.now) }
    ensures no_text { MISUSED ≤ result.status → (result.length ≡ 0) × (out.new ≡ out.old) }
{
    if let Some(large) = too_large_plans(plans) {
        return refuse_plans(alloc, plans, JudgeFault::TooLarge(large), out);
    }
    match bundles_from(alloc, plans) {
        Ok(bundles) => judge_bundles(alloc, task, plans, format, bundles.as_slice(), out),
        Err(Untaken::NoText) => no_text(MISUSED),
        Err(Untaken::OutOfMemory) => no_text(OUT_OF_MEMORY),
    }
}

/// Judges the plans of files, of which copies were made, against a task.
fn judge_bundles(
    alloc: Global,
    task: &CostedTask,
    plans: &[NamedText<'_>],
    format: Format,
    bundles: &[Bundle],
    out: &mut [u8],
) -> Answer
    ensures status { (result.status ≤ REFUSED) ⊎ (result.status ≡ OUT_OF_MEMORY) }
    ensures made { result.status ≡ MADE → (report : List ℕ) × (answer_of format task.now bundles.now ≡ Some report) × IsHandedOut report result.length out.old out.new }
    ensures refused { result.status ≡ REFUSED → (answer_of format task.now bundles.now ≡ None) × (fault : JudgeFault) × PlansCallFor bundles.now fault × (texts : Texts) × (texts.plans.now ≡ plans.now) × IsHandedOut (refusal_line texts fault) result.length out.old out.new }
    ensures no_text { MISUSED ≤ result.status → (result.length ≡ 0) × (out.new ≡ out.old) }
{
    match judge_kept(alloc, format, task, bundles) {
        Ok(report) => hand_out(MADE, report.bytes(), out),
        Err(JudgeFault::OutOfMemory) => no_text(OUT_OF_MEMORY),
        Err(fault) => refuse_plans(alloc, plans, fault, out),
    }
}
