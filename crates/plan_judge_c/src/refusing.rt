//! Why texts are refused.
ghost use Rattle.std.specs.Prelude.{◌≡◌, ◌⊎◌, [], IfOk};
ghost use Rattle.judge_engine.specs.Answer.{too_large};
ghost use Rattle.plan_judge_c.specs.Answers.{name_in_fault, refusal_line};
ghost use Rattle.c_values.specs.Handing.{IsHandedOut};
ghost use Rattle.plan_judge_c.specs.Inputs.{bundles_of};
ghost use Rattle.plan_judge_c.specs.declared.inputs.Texts.{Texts};
ghost use Rattle.c_values.specs.declared.answer.TheConstants.{REFUSED, OUT_OF_MEMORY};

use crate::inputs::{NamedText, Texts};
use c_values::{Answer, OUT_OF_MEMORY, REFUSED, hand_out, no_text};
use judge_engine::fault::{Input, JudgeFault};
use judge_engine::fault_text::{line_of_fault, push_fault};
use judge_engine::inlet::FILE_LIMIT;
use report_text::Text;
use std::alloc::{AllocError, Global};

/// The first text that is over the limit of a file. Looks at no byte.
pub(crate) fn too_large(texts: &Texts<'_>) -> Option<Input>
    ensures { result ≡ too_large texts.now.domain.bytes.now texts.now.problem.bytes.now (bundles_of texts.now.plans.now) }
{
    if texts.domain.bytes.len() > FILE_LIMIT {
        return Some(Input::Domain);
    }
    if texts.problem.bytes.len() > FILE_LIMIT {
        return Some(Input::Problem);
    }
    too_large_plans(texts.plans)
}

/// The first file of plans that is over the limit of a file. Looks at no byte.
pub(crate) fn too_large_plans(plans: &[NamedText<'_>]) -> Option<Input>
    ensures { result ≡ too_large [] [] (bundles_of plans.now) }
{
    for (number, file) in plans.iter().enumerate() {
        if file.bytes.len() > FILE_LIMIT {
            return Some(Input::Plans(number));
        }
    }
    None
}

/// Says why texts are refused.
pub(crate) fn refuse(alloc: Global, texts: &Texts<'_>, fault: JudgeFault, out: &mut [u8]) -> Answer
    ensures status { (result.status ≡ REFUSED) ⊎ (result.status ≡ OUT_OF_MEMORY) }
    ensures refused { result.status ≡ REFUSED → IsHandedOut (refusal_line texts.now fault) result.length out.old out.new }
    ensures no_text { result.status ≡ OUT_OF_MEMORY → (result.length ≡ 0) × (out.new ≡ out.old) }
{
    match refusal_line(alloc, texts, fault) {
        Ok(line) => hand_out(REFUSED, line.as_slice(), out),
        Err(AllocError) => no_text(OUT_OF_MEMORY),
    }
}

/// Says why files of plans are refused, as [`refuse`] says it of texts with these plans.
pub(crate) fn refuse_plans(
    alloc: Global,
    plans: &[NamedText<'_>],
    fault: JudgeFault,
    out: &mut [u8],
) -> Answer
    ensures status { (result.status ≡ REFUSED) ⊎ (result.status ≡ OUT_OF_MEMORY) }
    ensures refused { result.status ≡ REFUSED → (texts : Texts) × (texts.plans.now ≡ plans.now) × IsHandedOut (refusal_line texts fault) result.length out.old out.new }
    ensures no_text { result.status ≡ OUT_OF_MEMORY → (result.length ≡ 0) × (out.new ≡ out.old) }
{
    let texts = plans_alone(plans);
    refuse(alloc, &texts, fault, out)
}

/// Texts with these files of plans, and nothing else.
fn plans_alone<'a>(plans: &'a [NamedText<'a>]) -> Texts<'a>
    ensures { result.plans.now ≡ plans.now }
{
    let nothing = NamedText {
        name: b"",
        bytes: b"",
    };
    Texts {
        domain: nothing,
        problem: nothing,
        plans,
        seed: 0,
        dialect: 0,
    }
}

/// The line that says why texts are refused.
fn refusal_line(alloc: Global, texts: &Texts<'_>, fault: JudgeFault) -> Result<Vec<u8>, AllocError>
    ensures { IfOk result (λ line. line.items ≡ refusal_line texts.now fault) }
{
    let mut text = Text::new(alloc);
    let line = line_of_fault(fault, texts.domain.bytes, texts.problem.bytes);
    push_fault(&mut text, fault, line, name_in_fault(texts, fault))?;
    text.push(b"\n")?;
    Ok(text.into_bytes())
}

/// The name of the input that is too large, if that is the fault.
fn name_in_fault<'a>(texts: &Texts<'a>, fault: JudgeFault) -> &'a [u8]
    ensures { result.now ≡ name_in_fault texts.now fault }
{
    match fault {
        JudgeFault::TooLarge(Input::Domain) => texts.domain.name,
        JudgeFault::TooLarge(Input::Problem) => texts.problem.name,
        JudgeFault::TooLarge(Input::Plans(index)) => match texts.plans.get(index) {
            Some(file) => file.name,
            None => b"",
        },
        _ => b"",
    }
}
