//! Reading a plan text: a walk over its steps that keeps them.

ghost use Rattle.std.specs.Prelude.{◌≡◌, IfOk};
ghost use Rattle.plan_text.specs.PlanReading.{plan_of};

use crate::walk::{PlanSteps, TextStep};
use std::alloc::{AllocError, Global};
use strips_task::{OpenSteps, Plan};

/// The plan of a text, in one walk over its steps.
///
/// A text that is no plan text is no error but an answer: `Plan::Unreadable`, with the line of its first fault, counted from 1. A text of
/// 2^31 bytes or more is unreadable in line 1. The only error is running out of memory. The steps take about as many bytes as their words,
/// and a few more for each word and each step; stamps and bracketed numbers take none.
///
/// The format is the usual one of planners for sequential plans, as this validator reads it: see the front page of the crate.
pub fn read_plan(alloc: Global, text: &[u8]) -> Result<Plan, AllocError>
    ensures { IfOk result (λ plan. plan ≡ plan_of text.now) }
{
    let Some(mut walk) = PlanSteps::new(text) else {
        return Ok(Plan::Unreadable { line: 1 });
    };
    let mut plan = OpenSteps::new(alloc);
    'steps: loop {
        match walk.next_step() {
            TextStep::Step { words, .. } => words.push_step(&mut plan)?,
            TextStep::End => return Ok(Plan::Steps(plan.finish())),
            TextStep::Unreadable { line } => return Ok(Plan::Unreadable { line }),
        }
    }
}
