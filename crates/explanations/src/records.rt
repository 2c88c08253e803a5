//! Explanations as records for programs: JSON objects, each on a line of its own.

use crate::account::push_more_member;
use crate::causes::{left_out, push_causes};
use crate::comments::push_cost_remark;
use crate::faults::{push_message, shown_range};
use crate::hints::push_hints;
use crate::library::Library;
use crate::page::{Page, object_name, predicate_name};
use crate::plans::{JudgedPlan, PlanAt, faulty_position, push_hint, push_why};
use crate::positions::{bytes_at, position_of, push_place};
use crate::scene::Scene;
use crate::steps::push_step_list;
use crate::unreadable::push_unreadable_members;
use plan_cost::Cost;
use strips_judge::{Verdict, Why};
use strips_task::{Atom, StepView, Task};

/// Adds the record of a run whose domain and problem are read.
pub(crate) fn push_run_record(page: &mut Page, task: &Task) {
    page.say("{\"type\":\"run\",\"domain\":");
    page.string(task.domain_name().as_bytes());
    page.say(",\"problem\":");
    page.string(task.problem_name().as_bytes());
    page.say("}\n");
}

/// Adds the record of a text that is refused.
pub(crate) fn push_refused_record(page: &mut Page, scene: &mut Scene<'_>) {
    page.say("{\"type\":\"refused\",\"file\":");
    page.string(scene.refusal.file.name);
    push_place(page, position_of(scene.bytes(), shown_range(scene)));
    page.say(",\"kind\":\"");
    page.say(scene.kind().word());
    page.say("\"");
    let mut message = page.draft();
    push_message(&mut message, scene);
    page.member("message", message);
    let mut hint = page.draft();
    push_hints(&mut hint, scene);
    page.member("hint", hint);
    page.say("}\n");
}

/// Adds the record of a plan.
pub(crate) fn push_plan_record<'a>(
    page: &mut Page,
    library: &mut Library<'a>,
    judged: JudgedPlan<'a, '_, '_>,
) {
    let plan = judged.plan;
    push_start(page, "plan", plan);
    page.say(",\"verdict\":\"");
    match &judged.assessment.verdict {
        Verdict::Valid { steps } => push_valid(page, plan, *steps as usize, judged.assessment.cost),
        Verdict::Fails { step, why } => {
            page.say("fails\",\"step\":");
            page.number(*step as usize);
            push_failure(page, library, judged, *step as usize, why);
            page.say("}\n");
        }
        Verdict::Goal { missing: _ } => {
            page.say("goal\"");
            push_missing(page, judged);
            page.say("}\n");
        }
        Verdict::Unreadable { line: _ } => {
            page.say("unreadable\"");
            push_unreadable_members(page, library, plan);
            page.say("}\n");
        }
    }
}

/// Begins the record of a plan or of a part of it.
fn push_start(page: &mut Page, kind: &str, plan: PlanAt<'_>) {
    page.say("{\"type\":\"");
    page.say(kind);
    page.say("\",\"file\":");
    page.string(plan.file.name);
    page.say(",\"plan\":");
    page.number(plan.number);
}

/// Adds the rest of the record of a valid plan.
fn push_valid(page: &mut Page, plan: PlanAt<'_>, steps: usize, cost: Cost) {
    page.say("valid\",\"steps\":");
    page.number(steps);
    push_cost_member(page, cost);
    page.say("}\n");
    push_cost_remark(page, plan, steps, cost)
}

/// Adds the member of a cost, if costs are counted.
pub(crate) fn push_cost_member(page: &mut Page, cost: Cost) {
    match cost {
        Cost::NotCounted => {}
        Cost::Undefined => page.say(",\"cost\":null"),
        Cost::Billionths(_) => {
            page.say(",\"cost\":");
            page.cost_number(cost);
        }
    }
}

/// Adds the members of a step that fails.
fn push_failure<'a>(
    page: &mut Page,
    library: &mut Library<'a>,
    judged: JudgedPlan<'a, '_, '_>,
    number: usize,
    why: &Why,
) {
    let Some(position) = judged.positions.get(number) else {
        return;
    };
    let file = judged.plan.file.bytes;
    let step = bytes_at(file, position.range);
    push_place(page, faulty_position(file, position, why));
    page.say(",\"action\":");
    push_step_list(page, step);
    push_reason(page, why);
    if let Why::Missing(_) = why {
        push_missing(page, judged);
    }
    let mut message = page.draft();
    push_why(&mut message, library, step, why);
    page.member("message", message);
    let mut hint = page.draft();
    push_hint(&mut hint, library, step, why);
    page.member("hint", hint)
}

/// Adds the member that says why a step fails, and which argument is at fault.
fn push_reason(page: &mut Page, why: &Why) {
    page.say(",\"reason\":");
    match why {
        Why::UnknownAction => page.say("\"unknown action\""),
        Why::WrongCount => page.say("\"wrong number of arguments\""),
        Why::UnknownObject { arg } => {
            page.say("\"unknown object\",\"argument\":");
            page.number(*arg as usize);
        }
        Why::WrongType { arg } => {
            page.say("\"wrong type\",\"argument\":");
            page.number(*arg as usize);
        }
        Why::Missing(_) => page.say("\"missing\""),
    }
}

/// Adds the member with the conditions that do not hold, each with why it does not. If there are many, a further member says how many are left out.
fn push_missing(page: &mut Page, judged: JudgedPlan<'_, '_, '_>) {
    page.say(",\"missing\":[");
    push_causes(page, judged);
    page.say("]");
    push_more_member(page, left_out(judged));
}

/// Adds an atom as a list of words.
pub(crate) fn push_atom_list(page: &mut Page, task: &Task, atom: &Atom) {
    page.say("[");
    page.name_string(predicate_name(task, atom.pred));
    for number in atom.args.as_slice() {
        page.say(",");
        page.name_string(object_name(task, *number));
    }
    page.say("]");
}

/// Begins the record of a step that is traced.
pub(crate) fn push_step_record(
    page: &mut Page,
    plan: PlanAt<'_>,
    number: usize,
    step: &StepView<'_>,
) {
    push_start(page, "step", plan);
    page.say(",\"step\":");
    page.number(number);
    page.say(",\"action\":[");
    page.name_string(step.action());
    for index in 0..step.arg_count() {
        page.say(",");
        page.name_string(step.arg(index));
    }
    page.say("]");
}
