//! What made a condition fail: the step that changed it last.

ghost use Rattle.std.specs.Prelude.{◌≡◌};

use crate::atoms::atom_of;
use crate::page::Page;
use crate::plans::{JudgedPlan, missing_of};
use crate::reasons::push_condition;
use std::alloc::{AllocError, Global};
use strips_task::{Atom, Formula, Node, ShortSeq};
use text_judge::TextJudge;

/// How many conditions are shown.
const MOST_SHOWN: usize = 50;

/// The last changes of the atoms of conditions, by the steps of a plan up to the one that cannot be taken. Of many conditions, those of the first ones.
pub(crate) fn changes_for(
    alloc: Global,
    judge: &mut TextJudge<'_>,
    text: &[u8],
    missing: &[Formula],
) -> Result<Vec<Option<usize>>, AllocError>
    ensures { judge.new ≡ judge.old }
{
    if missing.is_empty() {
        return Ok(Vec::new(alloc));
    }
    let atoms = atoms_of(alloc, missing)?;
    judge.last_changes(alloc, text, atoms.as_slice())
}

/// The atoms of the conditions that are shown. What is no atom gets one that no task has, so that each condition has one.
fn atoms_of(alloc: Global, missing: &[Formula]) -> Result<Vec<Atom>, AllocError> {
    let mut atoms = Vec::new(alloc);
    for formula in missing.iter().take(MOST_SHOWN) {
        atoms.push(match formula.node() {
            Node::Atom(_, pattern) => atom_of(alloc, pattern, &[], &[])?,
            _ => Atom {
                pred: u16::MAX,
                args: ShortSeq::new(alloc),
            },
        })?;
    }
    Ok(atoms)
}

/// Adds the conditions that do not hold after the steps of a plan that could be taken, each with its last change or with what does not hold inside it.
pub(crate) fn push_causes(page: &mut Page, judged: JudgedPlan<'_, '_, '_>) {
    let missing = missing_of(&judged.assessment.verdict);
    let mut is_first = true;
    for (formula, step) in missing.iter().zip(judged.changes.iter()) {
        if page.is_json() && !is_first {
            page.say(",");
        }
        push_condition(page, judged, formula, *step);
        is_first = false;
    }
}

/// How many conditions are not shown.
pub(crate) fn left_out(judged: JudgedPlan<'_, '_, '_>) -> usize {
    let missing = missing_of(&judged.assessment.verdict);
    missing.len().saturating_sub(judged.changes.len())
}
