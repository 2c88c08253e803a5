//! What is between two steps: the bracketed number of the first, the stamp of the second, and the `(` that opens it.
//!
//! None of this needs the words of a step. Contracts speak of any plan with the given number of steps.

ghost use Rattle.std.specs.Prelude.{◌≡◌, ◌<◌, false, length, Some, []};
ghost use Rattle.strips_task.specs.OpenPlan.{OpenPlan};
ghost use Rattle.plan_text.specs.PlanGrammar.{left, word, symbol_of};
ghost use Rattle.plan_text.specs.PlanReading.{begun, stamped, followed};
ghost use Rattle.plan_text.specs.PlanSteps.{reading, IsReady, LeadsTo, ReadsBetween};
ghost use Rattle.plan_text.specs.Wants.{takes_name};
ghost use Rattle.strips_task.specs.declared.steps.TheConstants.{MOST_STEPS};

use crate::marked::number_before;
use crate::want::{Expected, Want};
use pddl_tokens::TokenKind;
use strips_task::MOST_STEPS;

/// Reads a token after `steps` steps, where no name may come; `None` if the token may not come here.
#[inline(always)]
pub(crate) fn read_between(
    steps: usize,
    expected: Expected,
    kind: TokenKind,
    text: &[u8],
) -> Option<Expected>
    requires { takes_name expected.want ≡ false }
    ensures { ReadsBetween result expected steps (symbol_of kind text.now) }
{
    match kind {
        TokenKind::Left => read_left(steps, expected),
        TokenKind::Word => read_number(steps, expected, text),
        TokenKind::Right => None,
    }
}

/// Reads a `(` after `steps` steps; `None` if it may not come here.
#[inline(always)]
fn read_left(steps: usize, expected: Expected) -> Option<Expected>
    ensures { ReadsBetween result expected steps left }
{
    match expected.want {
        Want::Step => begun(steps, expected.then(Want::Action)),
        Want::Number => begun(steps, expected.then(Want::Action)),
        Want::Opening => Some(expected.then(Want::Action)),
        _ => None,
    }
}

/// Reads a word after `steps` steps, where no name may come; `None` if it may not come here.
#[inline(always)]
pub(crate) fn read_number(steps: usize, expected: Expected, text: &[u8]) -> Option<Expected>
    requires { takes_name expected.want ≡ false }
    ensures { ReadsBetween result expected steps (word text.now) }
{
    match expected.want {
        Want::Step => stamped(steps, expected, text),
        Want::Number => followed(steps, expected, text),
        _ => None,
    }
}

/// A step begins, unless the plan has as many as it may have.
#[inline(always)]
fn begun(steps: usize, next: Expected) -> Option<Expected>
    ensures { (plan : OpenPlan) → length plan.steps ≡ steps → (length plan.steps < MOST_STEPS → IsReady next.want plan)
        → LeadsTo result plan (begun (reading next plan) (Some (reading next plan))) }
{
    if steps < MOST_STEPS { Some(next) } else { None }
}

/// A word before a step, which must be a stamp, larger than all stamps before it.
#[inline(always)]
fn stamped(steps: usize, expected: Expected, text: &[u8]) -> Option<Expected>
    ensures { (plan : OpenPlan) → length plan.steps ≡ steps → plan.words ≡ [] → LeadsTo result plan (stamped (reading expected plan) text.now) }
{
    let value = number_before(b':', text)?;
    if value < expected.least_stamp {
        return None;
    }
    begun(
        steps,
        Expected {
            want: Want::Opening,
            least_stamp: value + 1,
        },
    )
}

/// A word after a step: its number in brackets, or the stamp of the next step.
#[inline(always)]
fn followed(steps: usize, expected: Expected, text: &[u8]) -> Option<Expected>
    ensures { (plan : OpenPlan) → length plan.steps ≡ steps → plan.words ≡ [] → LeadsTo result plan (followed (reading expected plan) text.now) }
{
    match text.strip_prefix(b"[") {
        Some(number) => {
            number_before(b']', number)?;
            Some(expected.then(Want::Step))
        }
        None => stamped(steps, expected, text),
    }
}
