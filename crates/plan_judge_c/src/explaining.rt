//! The call that explains.
ghost use Rattle.std.specs.Prelude.{◌≡◌, ◌≤◌, ◌<◌, ◌⊎◌, ℕ, List, Option, None, Some, ⊤, true, false, map, IfOk, MatchOption};
ghost use Rattle.explanations.specs.AllValid.{all_valid_for};
ghost use Rattle.task_reader.specs.Texts.{task_in};
ghost use Rattle.plan_judge_c.specs.Answers.{IsTooLarge, are_valid};
ghost use Rattle.c_values.specs.Handing.{IsHandedOut};
ghost use Rattle.plan_judge_c.specs.Inputs.{is_asked, source_of};
ghost use Rattle.c_values.specs.Dialects.{dialect_numbered};
ghost use Rattle.c_values.specs.declared.answer.TheConstants.{MADE, REFUSED, MISUSED, OUT_OF_MEMORY};

use crate::inputs::{Texts, seed_from, source_from, sources_from};
use crate::refusing::{refuse, too_large};
use c_values::{
    Answer, MADE, MISUSED, OUT_OF_MEMORY, REFUSED, dialect_numbered, hand_out, no_text,
};
use explanations::{Explanation, ExplanationFormat, Options, explain};
use judge_engine::fault::JudgeFault;
use std::alloc::{AllocError, Global};

/// The bit of `extras` that asks for what each step changes.
const TRACE: u32 = 1;

/// The bit of `extras` that asks for warnings of what is probably not meant.
const WARNINGS: u32 = 2;

/// Explains why a text is refused or why plans fail, in the format with this number, 0 for a text for people, 2 for JSON. The status is 0 if all plans are
/// valid, and 1 if not all are or a text is refused; there is an explanation in both cases. Of a text that is too large, the text is the line that
/// [`plan_judge_judge`](crate::judging::plan_judge_judge) gives.
///
/// `extras` is 0, or the sum of 1 for what each step changes and 2 for warnings of what is probably not meant. All is done on the calling thread, and nothing
/// is kept. A second call with the same texts and a larger buffer gives the text that did not fit.
#[tactic(auto, using(crate::proofs::Answering::valid_is))]
#[unsafe(no_mangle)]
pub extern "C" fn plan_judge_explain(
    alloc: Global,
    texts: &Texts<'_>,
    format: u32,
    extras: u32,
    out: &mut [u8],
) -> Answer
    ensures status { result.status ≤ OUT_OF_MEMORY }
    ensures made { result.status ≡ MADE → are_valid texts.now ≡ true }
    ensures refused { result.status ≡ REFUSED → (are_valid texts.now ≡ false) ⊎ IsTooLarge texts.now }
    ensures written { (text : List ℕ) × IsHandedOut text result.length out.old out.new }
    ensures misused { result.status ≡ MISUSED → (dialect_numbered texts.now.dialect ≡ None) ⊎ (is_asked format extras ≡ false) }
    ensures unknown { (dialect_numbered texts.now.dialect ≡ None) ⊎ (is_asked format extras ≡ false) → result.status ≡ MISUSED }
    ensures no_text { MISUSED ≤ result.status → (result.length ≡ 0) × (out.new ≡ out.old) }
{
    let Some(options) = options_from(texts.dialect, format, extras) else {
        return no_text(MISUSED);
    };
    if let Some(large) = too_large(texts) {
        return refuse(alloc, texts, JudgeFault::TooLarge(large), out);
    }
    match explanation_of(alloc, options, texts) {
        Ok(
            Explanation {
                text,
                all_valid,
                refused: _,
            },
        ) => {
            let status = if all_valid { MADE } else { REFUSED };
            hand_out(status, text.into_bytes().as_slice(), out)
        }
        Err(AllocError) => no_text(OUT_OF_MEMORY),
    }
}

/// How to explain, if all numbers are known.
fn options_from(dialect: u32, format: u32, extras: u32) -> Option<Options>
    ensures dialect { MatchOption result ⊤ (λ options. dialect_numbered dialect ≡ Some options.dialect) }
    ensures asked { MatchOption result ⊤ (λ options. is_asked format extras ≡ true) }
    ensures unknown { result ≡ None → (dialect_numbered dialect ≡ None) ⊎ (is_asked format extras ≡ false) }
{
    let dialect = dialect_numbered(dialect)?;
    let format = match format {
        0 => ExplanationFormat::Text,
        2 => ExplanationFormat::Json,
        _ => return None,
    };
    if extras > TRACE + WARNINGS {
        return None;
    }
    Some(Options {
        dialect,
        trace: extras & TRACE != 0,
        lint: extras & WARNINGS != 0,
        format,
        colors: false,
    })
}

/// The explanation of texts.
fn explanation_of(
    alloc: Global,
    options: Options,
    texts: &Texts<'_>,
) -> Result<Explanation, AllocError>
    ensures { IfOk result (λ e. e.all_valid ≡ all_valid_for (task_in options.dialect texts.now.domain.bytes.now texts.now.problem.bytes.now) (map source_of texts.now.plans.now)) }
{
    let plans = sources_from(alloc, texts.plans)?;
    explain(
        alloc,
        seed_from(texts.seed),
        options,
        source_from(texts.domain),
        source_from(texts.problem),
        plans.as_slice(),
    )
}
