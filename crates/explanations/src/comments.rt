//! What a planner's comments say about the cost of its plan.

use crate::page::Page;
use crate::plans::PlanAt;
use crate::positions::{Range, bytes_at};
use memchr::{memchr, memchr_iter};
use pddl_words::billionths;
use plan_cost::Cost;

/// How many bytes of a comment are read.
const LONGEST: usize = 100;

/// The cost of a plan as a comment has it.
#[derive(Clone, Copy)]
struct Claim {
    /// The cost in billionths.
    billionths: u64,
    /// Whether each step is said to cost 1.
    is_unit: bool,
    /// The offset of the comment in the plan.
    offset: usize,
}

/// Adds that a comment of a valid plan has another cost than the plan, if one does.
pub(crate) fn push_cost_remark(page: &mut Page, plan: PlanAt<'_>, steps: usize, cost: Cost) {
    let Some(claim) = claim_in(plan.part.text()) else {
        return;
    };
    if is_right(claim, steps, cost) {
        return;
    }
    let mut remark = page.draft();
    remark.say("the comment at ");
    remark.file_name(plan.file.name);
    remark.say(":");
    let at = plan.part.range.start.saturating_add(claim.offset);
    let mut lines = plan.part.lines;
    remark.number(lines.line_of(plan.file.bytes, at).number);
    remark.say(" says");
    remark.cost(Cost::Billionths(u128::from(claim.billionths)));
    remark.say(", but the plan has");
    if cost == Cost::NotCounted {
        remark.say(" ");
        remark.count(steps, "step", "steps");
    } else {
        remark.cost(cost);
    }
    page.remark(remark);
}

/// Whether what a comment says is true, or can't be checked.
fn is_right(claim: Claim, steps: usize, cost: Cost) -> bool {
    let is_count = claim.is_unit && u128::from(claim.billionths) == unit_cost(steps);
    match cost {
        Cost::NotCounted => !claim.is_unit || is_count,
        Cost::Undefined => true,
        Cost::Billionths(counted) => is_count || u128::from(claim.billionths) == counted,
    }
}

/// The cost of steps that cost 1 each, in billionths.
fn unit_cost(steps: usize) -> u128 {
    (steps as u128).saturating_mul(1_000_000_000)
}

/// The first cost in the comments of a plan that have lines of their own.
fn claim_in(text: &[u8]) -> Option<Claim> {
    for at in memchr_iter(b';', text) {
        if is_line_start(text, at) {
            if let Some(claim) = claim_of(text, at) {
                return Some(claim);
            }
        }
    }
    None
}

/// Whether a line begins at an offset.
fn is_line_start(text: &[u8], at: usize) -> bool {
    at == 0 || text.get(at.saturating_sub(1)) == Some(&b'\n')
}

/// The cost in a comment whose `;` is at an offset.
fn claim_of(text: &[u8], offset: usize) -> Option<Claim> {
    let front = bytes_at(
        text,
        Range {
            start: offset,
            end: offset.saturating_add(LONGEST),
        },
    );
    let line = match memchr(b'\n', front) {
        Some(end) => bytes_at(front, Range { start: 0, end }),
        None => front,
    };
    let value = behind(without_blanks(line), b"cost")?;
    let value = behind(without_blanks(value), b"=")?;
    let value = without_blanks(value);
    let size = number_size(value);
    let number = bytes_at(
        value,
        Range {
            start: 0,
            end: size,
        },
    );
    let behind_number = bytes_at(
        value,
        Range {
            start: size,
            end: value.len(),
        },
    );
    Some(Claim {
        billionths: billionths(number)?,
        is_unit: behind(without_blanks(behind_number), b"(unit cost)").is_some(),
        offset,
    })
}

/// What follows a word at the start of some bytes. Upper and lower case are the same.
fn behind<'a>(bytes: &'a [u8], word: &[u8]) -> Option<&'a [u8]> {
    let front = bytes_at(
        bytes,
        Range {
            start: 0,
            end: word.len(),
        },
    );
    if !front.eq_ignore_ascii_case(word) {
        return None;
    }
    Some(bytes_at(
        bytes,
        Range {
            start: word.len(),
            end: bytes.len(),
        },
    ))
}

/// The bytes without the blanks and the `;` at their start.
fn without_blanks(bytes: &[u8]) -> &[u8] {
    let blanks = bytes
        .iter()
        .take_while(|b| matches!(**b, b' ' | b'\t' | b'\r' | b';'))
        .count();
    bytes_at(
        bytes,
        Range {
            start: blanks,
            end: bytes.len(),
        },
    )
}

/// How many bytes at the start belong to a number.
fn number_size(bytes: &[u8]) -> usize {
    bytes
        .iter()
        .take_while(|b| matches!(**b, b'0'..=b'9' | b'.'))
        .count()
}
