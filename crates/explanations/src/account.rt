//! How it is written why a condition does not hold.
//!
//! In a text for people, each formula is on a line of its own, with what does not hold inside it below. In records, it is an object, and so is each of its
//! parts.

use crate::formulae::{Instance, push_formula};
use crate::page::{Page, object_name};
use crate::plans::JudgedPlan;
use strips_task::{Formula, VariableGroup};

/// A page on which it is written why a condition does not hold.
pub(crate) struct Account<'p, 'a, 'f, 't> {
    pub(crate) page: &'p mut Page,
    pub(crate) judged: JudgedPlan<'a, 'f, 't>,
    /// The objects of the variables that are bound around the formula at hand.
    pub(crate) bound: Vec<u16>,
    /// How many formulas are around it.
    pub(crate) depth: usize,
    /// How many formulas may still be shown.
    pub(crate) left: usize,
}

impl Drop for Account<'_, '_, '_, '_> {
    fn drop(self) {
        let Self {
            page: _,
            judged: _,
            bound: _,
            depth: _,
            left: _,
        } = self;
    }
}

/// Begins the line or the record of a formula.
pub(crate) fn begin(account: &mut Account<'_, '_, '_, '_>, formula: &Formula) {
    let page = &mut *account.page;
    if page.is_json() {
        page.say("{\"condition\":");
    } else {
        page.repeated(b' ', account.depth.saturating_mul(2));
    }
    let instance = Instance {
        formula,
        objects: &[],
        bound: account.bound.as_slice(),
    };
    push_formula(page, account.judged.world.task(), instance);
    page.say(if page.is_json() {
        ",\"changed_by\":"
    } else {
        ": "
    });
}

/// Ends the record of a formula.
pub(crate) fn end(account: &mut Account<'_, '_, '_, '_>) {
    if account.page.is_json() {
        account.page.say("}");
    }
}

/// Ends the line or the first members of a formula that is no atom: no step changed it.
pub(crate) fn say_line(account: &mut Account<'_, '_, '_, '_>, words: &str) {
    let is_json = account.page.is_json();
    account.page.say(if is_json { "null" } else { words });
    end_line(account)
}

/// Ends the line of a conjunction with how many of its parts do not hold.
pub(crate) fn say_count(account: &mut Account<'_, '_, '_, '_>, count: usize) {
    if account.page.is_json() {
        account.page.say("null");
    } else {
        account
            .page
            .count(count, "part does not hold", "parts do not hold");
    }
    end_line(account)
}

/// Ends a line of a text for people.
pub(crate) fn end_line(account: &mut Account<'_, '_, '_, '_>) {
    if !account.page.is_json() {
        account.page.say("\n");
    }
}

/// Adds the choice of objects with which the body of a quantifier does not hold: the last ones that are bound.
pub(crate) fn put_choice(
    account: &mut Account<'_, '_, '_, '_>,
    groups: &[VariableGroup],
    outside: usize,
) {
    let is_json = account.page.is_json();
    account.page.say(if is_json {
        "null,\"choice\":["
    } else {
        "it fails"
    });
    let mut level = outside;
    for group in groups {
        level = put_objects(account, group, level, outside);
    }
    account.page.say(if is_json { "]" } else { "\n" });
}

/// Adds the objects of a group of variables, the first of which is bound at a level, and answers the level behind them.
fn put_objects(
    account: &mut Account<'_, '_, '_, '_>,
    group: &VariableGroup,
    level: usize,
    outside: usize,
) -> usize {
    let mut level = level;
    for name in group.names.as_slice() {
        let object = account.bound.as_slice().get(level).copied();
        let object = object_name(account.judged.world.task(), object.unwrap_or(u16::MAX));
        put_object(account.page, name.as_bytes(), object, level == outside);
        level = level.saturating_add(1);
    }
    level
}

/// Adds the object of a variable.
fn put_object(page: &mut Page, variable: &[u8], object: &[u8], is_first: bool) {
    if page.is_json() {
        page.say(if is_first { "[\"?" } else { ",[\"?" });
        page.lower_case(variable);
        page.say("\",");
        page.name_string(object);
        page.say("]");
        return;
    }
    page.say(if is_first { " for ?" } else { ", ?" });
    page.word(variable);
    page.say(" = ");
    page.word(object);
}

/// Begins the list of the parts of a formula that do not hold.
pub(crate) fn begin_parts(account: &mut Account<'_, '_, '_, '_>) {
    account.depth = account.depth.saturating_add(1);
    if account.page.is_json() {
        account.page.say(",\"parts\":[");
    }
}

/// Goes on to the next part if there was one before.
pub(crate) fn next_part(account: &mut Account<'_, '_, '_, '_>, shown: usize) {
    if shown > 0 && account.page.is_json() {
        account.page.say(",");
    }
}

/// Ends the list of parts, with how many are not shown.
pub(crate) fn end_parts(account: &mut Account<'_, '_, '_, '_>, left_out: usize) {
    if account.page.is_json() {
        account.page.say("]");
        push_more_member(account.page, left_out);
    } else {
        push_more_line(account.page, account.depth, left_out);
    }
    account.depth = account.depth.saturating_sub(1);
}

/// Adds a line with how many conditions are not shown, if there are any.
pub(crate) fn push_more_line(page: &mut Page, depth: usize, left_out: usize) {
    if left_out > 0 {
        page.repeated(b' ', depth.saturating_mul(2));
        page.say("and ");
        page.number(left_out);
        page.say(" more\n");
    }
}

/// Adds a member with how many conditions are not shown, if there are any.
pub(crate) fn push_more_member(page: &mut Page, left_out: usize) {
    if left_out > 0 {
        page.say(",\"more\":");
        page.number(left_out);
    }
}
