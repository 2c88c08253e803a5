//! What is found about plans, in the phrases of VAL's command `validate`: scripts look for them.
//!
//! ```text
//! Checking plan: plans.txt
//! Plan failed to execute
//!   step 2, (light): missing (dark)
//! ```

use crate::Phrases;
use crate::answers::push_plan_text;
use crate::formulae::{Instance, push_formula};
use crate::library::Library;
use crate::page::Page;
use crate::plans::{JudgedPlan, PlanAt, push_why};
use crate::positions::bytes_at;
use crate::steps::push_step;
use crate::unreadable::push_break;
use plan_cost::{Assessment, Cost};
use strips_judge::{Formula, Verdict, Why};
use strips_task::Task;

/// Adds what is found about a plan.
pub(crate) fn push_phrases<'a>(
    page: &mut Page,
    library: &mut Library<'a>,
    judged: JudgedPlan<'a, '_, '_>,
    phrases: Phrases,
) {
    if phrases == Phrases::Values {
        push_value_or_failed(page, judged.assessment);
        return;
    }
    push_start(page, judged.plan);
    push_verdict(page, judged.assessment);
    match (&judged.assessment.verdict, phrases) {
        (Verdict::Valid { .. }, _) => {}
        (_, Phrases::Full) => push_plan_text(page, library, judged),
        (verdict, _) => push_reason(page, library, judged, verdict),
    }
}

/// Adds the line of a plan of which only the value is written.
fn push_value_or_failed(page: &mut Page, assessment: &Assessment) {
    match &assessment.verdict {
        Verdict::Valid { steps } => push_value(page, *steps as usize, assessment.cost),
        _ => page.say("failed"),
    }
    page.say("\n");
}

/// Adds which plan is checked. Of the plans of one file the later ones are named by their numbers, too.
fn push_start(page: &mut Page, plan: PlanAt<'_>) {
    page.say("Checking plan: ");
    page.file_name(plan.file.name);
    if plan.number > 1 {
        page.say(", plan ");
        page.number(plan.number);
    }
    page.say("\n");
}

/// Adds the phrases of a verdict.
fn push_verdict(page: &mut Page, assessment: &Assessment) {
    match &assessment.verdict {
        Verdict::Valid { steps } => {
            page.say("Plan executed successfully - checking goal\nPlan valid\nFinal value: ");
            push_value(page, *steps as usize, assessment.cost);
            page.say("\n");
        }
        Verdict::Fails { .. } => page.say("Plan failed to execute\n"),
        Verdict::Goal { .. } => page.say(
            "Plan executed successfully - checking goal\nGoal not satisfied\nPlan invalid\n",
        ),
        Verdict::Unreadable { .. } => page.say("Bad plan description!\n"),
    }
}

/// Adds the value of a valid plan: its cost, or the number of its steps if costs are not counted.
fn push_value(page: &mut Page, steps: usize, cost: Cost) {
    match cost {
        Cost::NotCounted => page.number(steps),
        Cost::Undefined => page.say("undefined"),
        Cost::Billionths(_) => page.cost_number(cost),
    }
}

/// Adds a line that says why a plan is not valid.
fn push_reason<'a>(
    page: &mut Page,
    library: &mut Library<'a>,
    judged: JudgedPlan<'a, '_, '_>,
    verdict: &Verdict,
) {
    page.say("  ");
    match verdict {
        Verdict::Valid { .. } => {}
        Verdict::Fails { step, why } => {
            push_failing_step(page, judged, *step as usize);
            push_failure(page, library, judged, *step as usize, why);
        }
        Verdict::Goal { missing } => push_missing(page, judged.world.task(), missing.as_slice()),
        Verdict::Unreadable { .. } => push_break(page, judged.plan),
    }
    page.say("\n");
}

/// Adds which step fails.
fn push_failing_step(page: &mut Page, judged: JudgedPlan<'_, '_, '_>, number: usize) {
    page.say("step ");
    page.number(number);
    if let Some(position) = judged.positions.get(number) {
        page.say(", ");
        push_step(page, bytes_at(judged.plan.file.bytes, position.range));
    }
    page.say(": ");
}

/// Adds why a step fails.
fn push_failure<'a>(
    page: &mut Page,
    library: &mut Library<'a>,
    judged: JudgedPlan<'a, '_, '_>,
    number: usize,
    why: &Why,
) {
    if let Why::Missing(missing) = why {
        push_missing(page, judged.world.task(), missing.as_slice());
        return;
    }
    if let Some(position) = judged.positions.get(number) {
        let step = bytes_at(judged.plan.file.bytes, position.range);
        push_why(page, library, step, why);
    }
}

/// Adds the conditions that do not hold.
fn push_missing(page: &mut Page, task: &Task, missing: &[Formula]) {
    page.say("missing");
    for formula in missing {
        page.say(" ");
        push_formula(page, task, Instance::whole(formula));
    }
}
