//! The calls that take no memory, at texts, tasks and reports.
//!
//! Each row first makes what its calls need, and then makes the calls if `makes_calls` is set. After the set-up all memory can be refused.

use crate::page::Page;
use crate::seen::{Seen, whole_if};
use crate::tasks::{blocks, discard};
use crate::texts::{BOTH, LAMP, LAMP_1, LIGHT, LIGHT_TWICE, REPLIES, STEPS};
use intake_core::Refusal;
use judge_engine::Seed;
use judge_engine::fault::JudgeFault;
use judge_engine::outlet::write_report;
use judge_engine::replay::replay_bytes;
use judge_engine::report::Report;
use pddl_reader::FaultKind;
use pddl_tokens::{Cursor, WordKind, line_of, same_folded, word_kind};
use plan_text::{Parts, part_from};
use std::alloc::Global;
use strips_judge::Task;

/// What is asked of a task.
pub(crate) fn task_row(alloc: Global, makes_calls: bool) -> Seen {
    let task = blocks(alloc)?;
    let is_right = !makes_calls || reads_blocks(&task.task);
    discard(task);
    whole_if(is_right)
}

/// Whether a task is that of its texts.
fn reads_blocks(task: &Task) -> bool {
    reads_names(task) && reads_object(task) && reads_action(task)
}

/// Whether a task has the names and the numbers of things that its texts have.
fn reads_names(task: &Task) -> bool {
    task.domain_name().as_bytes() == b"blocks".as_slice()
        && task.problem_name().as_bytes() == b"two".as_slice()
        && task.object_count() == 2
        && task.pred_count() == 5
        && task.pred_name(3).as_bytes() == b"handempty".as_slice()
        && task.initial_atoms().len() == 5
        && task.goal().len() == 1
}

/// Whether a task has a block.
fn reads_object(task: &Task) -> bool {
    match task.object_named(b"b") {
        Some(object) => {
            task.object_name(object).as_bytes() == b"b".as_slice()
                && task.is_subtype(task.object_type(object), 0)
        }
        None => false,
    }
}

/// Whether a task has an action with two parameters.
fn reads_action(task: &Task) -> bool {
    match task.action_named(b"stack") {
        Some(action) => task.action(action).params.len() == 2,
        None => false,
    }
}

/// What is asked of texts and words. Nothing has to be made for it.
pub(crate) fn text_row(makes_calls: bool) -> Seen {
    whole_if(!makes_calls || reads_tokens() && reads_words() && reads_parts())
}

/// Whether a text has its tokens.
fn reads_tokens() -> bool {
    match Cursor::new(b"(A;x\n?b)") {
        Ok(mut cursor) => {
            takes(&mut cursor, 0, 1)
                && takes(&mut cursor, 1, 2)
                && takes(&mut cursor, 5, 7)
                && takes(&mut cursor, 7, 8)
                && matches!(cursor.next(), Ok(None))
        }
        Err(_) => false,
    }
}

/// Whether the next token is that of these bytes.
fn takes(cursor: &mut Cursor<'_>, start: u32, end: u32) -> bool {
    match cursor.next() {
        Ok(Some(token)) => token.span.start == start && token.span.end == end,
        _ => false,
    }
}

/// Whether words are what they are.
fn reads_words() -> bool {
    word_kind(b"A") == WordKind::Name
        && word_kind(b"?b") == WordKind::Variable
        && same_folded(b"Lit", b"lIT")
        && line_of(b"(A;x\n?b)", 5) == 2
        && FaultKind::OutOfMemory.word() == "OutOfMemory"
        && Refusal::Full.word() == "Full"
        && JudgeFault::OutOfMemory.status() == 3
}

/// Whether a file has two plans.
fn reads_parts() -> bool {
    let mut parts = Parts::new(BOTH);
    part_from(BOTH, 0).end == LIGHT.len()
        && is_part(parts.next(), LIGHT)
        && is_part(parts.next(), LIGHT_TWICE)
        && parts.next().is_none()
}

/// Whether a part has these bytes.
fn is_part(part: Option<&[u8]>, wanted: &[u8]) -> bool {
    match part {
        Some(part) => part == wanted,
        None => false,
    }
}

/// The lines of a replay.
pub(crate) fn replayed(alloc: Global) -> Result<Report, JudgeFault> {
    replay_bytes(alloc, Seed::fixed(), LAMP, LAMP_1, STEPS)
}

/// What is asked of a report.
pub(crate) fn report_row(alloc: Global, makes_calls: bool) -> Seen {
    let report = replayed(alloc)?;
    whole_if(!makes_calls || is_written(&report))
}

/// Whether a report is written whole.
fn is_written(report: &Report) -> bool {
    let mut page = Page::new(REPLIES);
    report.bytes() == REPLIES && write_report(report, &mut page).is_ok() && page.is_whole()
}
