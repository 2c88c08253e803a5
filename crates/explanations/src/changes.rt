//! The step that changed an atom last.

use crate::formulae::{Instance, push_formula};
use crate::page::Page;
use crate::plans::JudgedPlan;
use crate::positions::bytes_at;
use crate::steps::{push_step, push_step_list};
use crate::world::LastChange;

/// Adds the step that made a literal false, and under which condition it did. The change is the last one of the atom, where steps were followed.
pub(crate) fn push_step_of_change(
    page: &mut Page,
    judged: JudgedPlan<'_, '_, '_>,
    positive: bool,
    step: usize,
    change: Option<&LastChange<'_>>,
) {
    let change = change.filter(|change| change.step == step);
    if page.is_json() {
        push_record(page, judged, step, change);
    } else {
        push_words(page, judged, positive, step, change);
    }
}

/// Adds the step in words.
fn push_words(
    page: &mut Page,
    judged: JudgedPlan<'_, '_, '_>,
    positive: bool,
    step: usize,
    change: Option<&LastChange<'_>>,
) {
    page.say("step ");
    page.number(step);
    page.say(", ");
    let Some(position) = judged.positions.get(step) else {
        page.say("changed it");
        return;
    };
    let file = judged.plan.file;
    push_step(page, bytes_at(file.bytes, position.range));
    page.say(if positive {
        ", deleted it"
    } else {
        ", added it"
    });
    if let Some(change) = change {
        push_guards(page, judged, change, [" under ", " and "]);
    }
    page.say(" (");
    page.file_name(file.name);
    page.say(":");
    page.number(position.line.number);
    page.say(")");
}

/// Adds the step as a record.
fn push_record(
    page: &mut Page,
    judged: JudgedPlan<'_, '_, '_>,
    step: usize,
    change: Option<&LastChange<'_>>,
) {
    page.say("{\"step\":");
    page.number(step);
    if let Some(position) = judged.positions.get(step) {
        page.say(",\"action\":");
        push_step_list(page, bytes_at(judged.plan.file.bytes, position.range));
        page.say(",\"line\":");
        page.number(position.line.number);
    }
    if let Some(change) = change
        && !change.firing.guards.is_empty()
    {
        push_guards(page, judged, change, [",\"under\":[", ","]);
        page.say("]");
    }
    page.say("}");
}

/// Adds the conditions of the effect that changed an atom, each after one of two words: the first one, or a later one.
fn push_guards(
    page: &mut Page,
    judged: JudgedPlan<'_, '_, '_>,
    change: &LastChange<'_>,
    words: [&str; 2],
) {
    let firing = &change.firing;
    let mut is_first = true;
    for guard in firing.guards.as_slice() {
        page.say(if is_first { words[0] } else { words[1] });
        let instance = Instance {
            formula: guard.condition,
            objects: firing.objects.as_slice(),
            bound: firing.bound.as_slice().get(..guard.depth).unwrap_or(&[]),
        };
        push_formula(page, judged.world.task(), instance);
        is_first = false;
    }
}
