//! Plans that cannot be read: where they break, and what the text may come from.

use crate::breaks::{Break, Cause, Want, break_of, is_stamp};
use crate::hints::push_bad_byte;
use crate::library::Library;
use crate::outline::Sort;
use crate::page::Page;
use crate::plans::{PlanAt, push_name};
use crate::positions::{Position, bytes_at, line_text, push_excerpt, push_place, push_position};

/// Adds where a plan breaks and why.
pub(crate) fn push_unreadable(page: &mut Page, library: &mut Library<'_>, plan: PlanAt<'_>) {
    let Some(found) = break_of(plan.part.text()) else {
        push_name(page, plan);
        page.say("plan ");
        page.number(plan.number);
        page.say(" cannot be read\n");
        return;
    };
    let position = position_of_break(plan, found);
    push_position(page, plan.file.name, position);
    page.say("plan ");
    page.number(plan.number);
    page.say(" cannot be read: ");
    push_message(page, found, bytes_at(plan.file.bytes, position.range));
    page.say("\n");
    push_excerpt(page, plan.file.bytes, position);
    push_hint(page, library, plan, found, position)
}

/// Adds the line at which a plan breaks, and why.
pub(crate) fn push_break(page: &mut Page, plan: PlanAt<'_>) {
    let Some(found) = break_of(plan.part.text()) else {
        page.say("it cannot be read");
        return;
    };
    let position = position_of_break(plan, found);
    page.say("line ");
    page.number(position.line.number);
    page.say(": ");
    push_message(page, found, bytes_at(plan.file.bytes, position.range))
}

/// Adds the members of the record of a plan that cannot be read.
pub(crate) fn push_unreadable_members(
    page: &mut Page,
    library: &mut Library<'_>,
    plan: PlanAt<'_>,
) {
    let Some(found) = break_of(plan.part.text()) else {
        return;
    };
    let position = position_of_break(plan, found);
    push_place(page, position);
    let mut message = page.draft();
    push_message(
        &mut message,
        found,
        bytes_at(plan.file.bytes, position.range),
    );
    page.member("message", message);
    let mut hint = page.draft();
    push_hint(&mut hint, library, plan, found, position);
    page.member("hint", hint)
}

/// Where in its file a plan breaks.
fn position_of_break(plan: PlanAt<'_>, found: Break) -> Position {
    let mut lines = plan.part.lines;
    lines.position_of(plan.file.bytes, plan.part.in_file(found.range))
}

/// Adds what to do about a plan that breaks at a position.
fn push_hint(
    page: &mut Page,
    library: &mut Library<'_>,
    plan: PlanAt<'_>,
    found: Break,
    position: Position,
) {
    if found.cause == Cause::Byte {
        push_bad_byte(page, plan.file.bytes, position.range.start);
        return;
    }
    let word = bytes_at(plan.file.bytes, position.range);
    let line = line_text(plan.file.bytes, position);
    let is_action = library.find(Sort::Action, word).is_some();
    page.help_line(hint(found, word, line, is_action));
}

/// Adds what is wrong.
fn push_message(page: &mut Page, found: Break, word: &[u8]) {
    match found.cause {
        Cause::End => page.say(match found.want {
            Want::Opening => "the text ends behind a stamp",
            _ => "the text ends inside a step",
        }),
        Cause::TooMany => page.say("there are too many steps"),
        Cause::Byte => push_byte(page, word),
        Cause::Token => {
            page.quoted(word);
            page.say(match found.want {
                Want::Step | Want::Number => " is no step",
                Want::Opening => " may not follow a stamp",
                Want::Action => " is no name of an action",
                Want::Argument => " may not be in a step",
            })
        }
    }
}

/// Adds which byte is bad.
fn push_byte(page: &mut Page, bytes: &[u8]) {
    page.say("the byte ");
    match bytes.first() {
        Some(byte) => page.hex(*byte),
        None => {}
    }
    page.say(" (hex) may be in comments only");
}

/// What to do about a plan that cannot be read.
fn hint(found: Break, word: &[u8], line: &[u8], is_action: bool) -> &'static str {
    match found.cause {
        Cause::End => "a `)` is missing, or the file was cut off",
        Cause::TooMany => "a plan may have at most 1,000,000 steps",
        _ => match found.want {
            Want::Action | Want::Argument => hint_in_step(word),
            Want::Opening => "a stamp is followed by a step in parentheses: `0: (act a b)`",
            _ => hint_between(word, line, is_action),
        },
    }
}

/// What to do about a word in a step.
fn hint_in_step(word: &[u8]) -> &'static str {
    match word.first() {
        Some(b'(') => "a step is a list of names: a `)` may be missing before this `(`",
        Some(b')') => "a step has the name of an action: `(act a b)`",
        Some(b'?') => "a plan names objects, not variables",
        _ => "names begin with a letter and have letters, digits, `-` and `_`",
    }
}

/// What to do about a word between steps.
fn hint_between(word: &[u8], line: &[u8], is_action: bool) -> &'static str {
    if word == b")".as_slice() {
        return "this `)` closes no step: remove it";
    }
    if is_lpg_number(word) {
        return "this is a plan of LPG-td, with a duration and a cost after each step: remove each `[D:..; C:..]`, as `sed 's/\\[D:.*//'` does";
    }
    if is_stamp(word) {
        return "stamps have to rise: steps at the same time cannot be judged";
    }
    if is_action {
        return "a step is in parentheses: `(act a b)`";
    }
    if starts_with(word, b"ff:") || starts_with(line, b"step ") && !line.contains(&b',') {
        return "this is the log of FF: keep only the steps, each in parentheses, as `(act a b)`";
    }
    if starts_with(line, b"step ") || is_call(line) {
        return "write a step as `(act a b)`, not as `act(a,b)`";
    }
    if is_log(word) {
        return "this is a line of a planner's log: give the file with the plan, or put `;` before the line";
    }
    hint_for_sign(word)
}

/// Whether a word begins what LPG-td writes after a step, as in `[D:1.00; C:0.10]`. A comment begins at its `;`, so the word ends there.
fn is_lpg_number(word: &[u8]) -> bool {
    starts_with(word, b"[D:")
}

/// What to do about a word between steps, by its first byte.
fn hint_for_sign(word: &[u8]) -> &'static str {
    match word.first() {
        Some(b'[') => "one number in brackets may follow a step, as in `(act a b) [1]`",
        Some(b'#') | Some(b'/') => "a comment begins with `;`",
        Some(b'-') => "plans are separated by a line of three dashes",
        Some(b'0'..=b'9') =>
            "a stamp is a number of up to 9 digits, maybe a point and up to 9 more, and `:`",
        _ => "a plan is a list of steps, as `(act a b)`; other text has to be behind a `;`",
    }
}

/// Whether a line is a step in the form `act(a,b)`.
fn is_call(line: &[u8]) -> bool {
    line.contains(&b'(') && line.contains(&b',')
}

/// Whether a word begins a usual line of a log.
fn is_log(word: &[u8]) -> bool {
    starts_with(word, b"solution")
        || starts_with(word, b"plan")
        || starts_with(word, b"cost")
        || starts_with(word, b"time")
        || starts_with(word, b"makespan")
        || starts_with(word, b"info")
        || starts_with(word, b"[t=")
        || starts_with(word, b"search")
        || starts_with(word, b"found")
}

/// Whether bytes begin with a word, in upper or lower case.
fn starts_with(bytes: &[u8], word: &[u8]) -> bool {
    let front = bytes_at(
        bytes,
        crate::positions::Range {
            start: 0,
            end: word.len(),
        },
    );
    front.eq_ignore_ascii_case(word)
}
