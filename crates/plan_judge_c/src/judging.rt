//! The call that judges.
ghost use Rattle.std.specs.Prelude.{◌≡◌, ◌≤◌, ◌⊎◌, ℕ, List, None, Some};
ghost use Rattle.judge_engine.specs.Answer.{answer_as};
ghost use Rattle.judge_engine.specs.Refusal.{IsOfTexts, TextsCallForIn};
ghost use Rattle.judge_engine.specs.declared.fault.JudgeFault.{JudgeFault};
ghost use Rattle.plan_judge_c.specs.Answers.{AreNamesText, IsCalledFor, refusal_line, report_for};
ghost use Rattle.c_values.specs.Handing.{IsHandedOut};
ghost use Rattle.plan_judge_c.specs.Inputs.{bundles_of, format_numbered};
ghost use Rattle.c_values.specs.Dialects.{dialect_numbered};
ghost use Rattle.c_values.specs.declared.answer.TheConstants.{MADE, REFUSED, MISUSED, OUT_OF_MEMORY};

use crate::inputs::{Texts, Untaken, bundles_from, format_numbered, seed_from};
use crate::refusing::{refuse, too_large};
use c_values::{Answer, MADE, MISUSED, OUT_OF_MEMORY, dialect_numbered, hand_out, no_text};
use explanations::Dialect;
use judge_engine::alone::judge_alone;
use judge_engine::bundle::Bundle;
use judge_engine::fault::JudgeFault;
use report_text::Format;
use std::alloc::Global;

/// Judges the plans of files. The text is the report in the format with this number, 0 for lines, 1 for a table, 2 for JSON; or, if the texts are refused, the
/// line that says why.
///
/// All is done on the calling thread, and nothing is kept. A second call with the same texts and a larger buffer gives the text that did not fit. Which fault
/// is reported of several, and when memory may run out, is said at [`judge_alone`].
#[unsafe(no_mangle)]
pub extern "C" fn plan_judge_judge(
    alloc: Global,
    texts: &Texts<'_>,
    format: u32,
    out: &mut [u8],
) -> Answer
    ensures status { result.status ≤ OUT_OF_MEMORY }
    ensures made { result.status ≡ MADE → (report : List ℕ) × (report_for texts.now format ≡ Some report) × IsHandedOut report result.length out.old out.new }
    ensures refused { result.status ≡ REFUSED → (report_for texts.now format ≡ None) × (fault : JudgeFault) × IsCalledFor texts.now fault × IsHandedOut (refusal_line texts.now fault) result.length out.old out.new }
    ensures misused { result.status ≡ MISUSED → (dialect_numbered texts.now.dialect ≡ None) ⊎ ((format_numbered format ≡ None) ⊎ (¬ (AreNamesText texts.now))) }
    ensures unknown { (dialect_numbered texts.now.dialect ≡ None) ⊎ (format_numbered format ≡ None) → result.status ≡ MISUSED }
    ensures no_text { MISUSED ≤ result.status → (result.length ≡ 0) × (out.new ≡ out.old) }
{
    let Some(dialect) = dialect_numbered(texts.dialect) else {
        return no_text(MISUSED);
    };
    let Some(format) = format_numbered(format) else {
        return no_text(MISUSED);
    };
    judge_texts(alloc, texts, dialect, format, out)
}

/// Judges the plans of files.
fn judge_texts(
    alloc: Global,
    texts: &Texts<'_>,
    dialect: Dialect,
    format: Format,
    out: &mut [u8],
) -> Answer
    ensures status { result.status ≤ OUT_OF_MEMORY }
    ensures made { result.status ≡ MADE → (report : List ℕ) × (answer_as dialect format texts.now.domain.bytes.now texts.now.problem.bytes.now (bundles_of texts.now.plans.now) ≡ Some report) × IsHandedOut report result.length out.old out.new }
    ensures refused { result.status ≡ REFUSED → (answer_as dialect format texts.now.domain.bytes.now texts.now.problem.bytes.now (bundles_of texts.now.plans.now) ≡ None) × (fault : JudgeFault) × (IsOfTexts fault × TextsCallForIn dialect texts.now.domain.bytes.now texts.now.problem.bytes.now (bundles_of texts.now.plans.now) fault) × IsHandedOut (refusal_line texts.now fault) result.length out.old out.new }
    ensures misused { result.status ≡ MISUSED → ¬ (AreNamesText texts.now) }
    ensures no_text { MISUSED ≤ result.status → (result.length ≡ 0) × (out.new ≡ out.old) }
{
    if let Some(large) = too_large(texts) {
        return refuse(alloc, texts, JudgeFault::TooLarge(large), out);
    }
    match bundles_from(alloc, texts.plans) {
        Ok(bundles) => judge_bundles(alloc, texts, dialect, format, bundles.as_slice(), out),
        Err(Untaken::NoText) => no_text(MISUSED),
        Err(Untaken::OutOfMemory) => no_text(OUT_OF_MEMORY),
    }
}

/// Judges the plans of files, of which copies were made.
fn judge_bundles(
    alloc: Global,
    texts: &Texts<'_>,
    dialect: Dialect,
    format: Format,
    bundles: &[Bundle],
    out: &mut [u8],
) -> Answer
    ensures status { (result.status ≤ REFUSED) ⊎ (result.status ≡ OUT_OF_MEMORY) }
    ensures made { result.status ≡ MADE → (report : List ℕ) × (answer_as dialect format texts.now.domain.bytes.now texts.now.problem.bytes.now bundles.now ≡ Some report) × IsHandedOut report result.length out.old out.new }
    ensures refused { result.status ≡ REFUSED → (answer_as dialect format texts.now.domain.bytes.now texts.now.problem.bytes.now bundles.now ≡ None) × (fault : JudgeFault) × (IsOfTexts fault × TextsCallForIn dialect texts.now.domain.bytes.now texts.now.problem.bytes.now bundles.now fault) × IsHandedOut (refusal_line texts.now fault) result.length out.old out.new }
    ensures no_text { MISUSED ≤ result.status → (result.length ≡ 0) × (out.new ≡ out.old) }
{
    match judge_alone(
        alloc,
        seed_from(texts.seed),
        dialect,
        format,
        texts.domain.bytes,
        texts.problem.bytes,
        bundles,
    ) {
        Ok(report) => hand_out(MADE, report.bytes(), out),
        Err(JudgeFault::OutOfMemory) => no_text(OUT_OF_MEMORY),
        Err(fault) => refuse(alloc, texts, fault, out),
    }
}
