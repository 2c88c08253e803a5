//! Remarks about a run as a whole.

use crate::SourceText;
use crate::page::Page;
use crate::positions::{Range, bytes_at, line_at, push_line};
use crate::tokens::range_of;
use pddl_tokens::{Cursor, TokenKind};
use strips_task::Task;

/// Adds a remark if the problem names a domain other than this one.
pub(crate) fn push_other_domain(page: &mut Page, task: &Task, problem: SourceText<'_>) {
    let Some(range) = domain_named(problem.bytes) else {
        return;
    };
    let name = bytes_at(problem.bytes, range);
    let domain = task.domain_name().as_bytes();
    if name.eq_ignore_ascii_case(domain) {
        return;
    }
    let mut remark = page.draft();
    remark.say("the problem is for the domain ");
    remark.quoted(name);
    remark.say(" (");
    push_line(&mut remark, problem, range.start);
    remark.say("), but the domain at hand is ");
    remark.quoted(domain);
    remark.say("; it is judged all the same");
    page.remark(remark);
}

/// How far the search for the name of the domain has come.
#[derive(Clone, Copy)]
enum Seen {
    Nothing,
    Left,
    Head,
}

/// The name after `(:domain`.
fn domain_named(text: &[u8]) -> Option<Range> {
    let Ok(mut cursor) = Cursor::new(text) else {
        return None;
    };
    let mut seen = Seen::Nothing;
    'tokens: while let Ok(Some(token)) = cursor.next() {
        seen = match (seen, token.kind) {
            (Seen::Head, TokenKind::Word) => return Some(range_of(token)),
            (Seen::Left, TokenKind::Word) if token.text.eq_ignore_ascii_case(b":domain") => {
                Seen::Head
            }
            (_, TokenKind::Left) => Seen::Left,
            _ => Seen::Nothing,
        };
    }
    None
}

/// Adds what was read, if no plan is to be judged.
pub(crate) fn push_header(page: &mut Page, task: &Task) {
    page.say("the domain ");
    page.quoted(task.domain_name().as_bytes());
    page.say(" and the problem ");
    page.quoted(task.problem_name().as_bytes());
    page.say(" are read\n");
}

/// Adds a remark if the last plan of a file of several is empty, since the file ends with a separator.
pub(crate) fn push_empty_end(page: &mut Page, file: SourceText<'_>, last: Range, number: usize) {
    if number < 2 || !is_blank(bytes_at(file.bytes, last)) {
        return;
    }
    let mut remark = page.draft();
    remark.say("the line `---` at ");
    remark.file_name(file.name);
    remark.say(":");
    remark.number(line_at(file.bytes, last.start.saturating_sub(1)).number);
    remark.say(" separates plans, so the file ends with an empty plan, ");
    remark.number(number);
    page.remark(remark);
}

/// Whether there are only blanks.
fn is_blank(bytes: &[u8]) -> bool {
    bytes.iter().all(|b| b.is_ascii_whitespace())
}

/// Adds how many plans there are and how many are valid, if there are several, to a text for people.
pub(crate) fn push_end(page: &mut Page, plans: usize, valid: usize) {
    if plans < 2 || !page.is_text() {
        return;
    }
    page.number(plans);
    page.say(" plans, ");
    page.number(valid);
    page.say(" valid\n");
}
