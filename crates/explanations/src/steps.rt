//! The steps of a plan that can be read: where each is in the file, and its words.

use crate::page::Page;
use crate::positions::{LineCount, Position, Range, bytes_at};
use pddl_tokens::{Cursor, TokenKind};
use std::alloc::{AllocError, Global};

/// How many words of a step are shown.
const MOST_WORDS: usize = 34;

/// One plan of a file.
#[derive(Clone, Copy)]
pub(crate) struct Part<'a> {
    /// The bytes of the file.
    pub(crate) file: &'a [u8],
    /// Where the plan is in it.
    pub(crate) range: Range,
    /// A count of lines that has come to the start of the plan.
    pub(crate) lines: LineCount,
}

impl<'a> Part<'a> {
    /// The bytes of the plan.
    pub(crate) fn text(&self) -> &'a [u8] {
        bytes_at(self.file, self.range)
    }

    /// A range of the plan's bytes as one of the file's.
    pub(crate) fn in_file(&self, range: Range) -> Range {
        Range {
            start: self.range.start.saturating_add(range.start),
            end: self.range.start.saturating_add(range.end),
        }
    }
}

/// The positions of a plan's steps, in their order.
pub(crate) struct StepPositions {
    positions: Vec<Position>,
}

impl Drop for StepPositions {
    fn drop(self) {
        let Self { positions: _ } = self;
    }
}

impl StepPositions {
    /// No positions.
    pub(crate) fn none(alloc: Global) -> Self {
        StepPositions {
            positions: Vec::new(alloc),
        }
    }

    /// Finds the steps of a plan that can be read, in one pass.
    pub(crate) fn new(alloc: Global, part: Part<'_>) -> Result<Self, AllocError> {
        let mut positions = Vec::new(alloc);
        let mut lines = part.lines;
        let mut start = 0;
        if let Ok(mut cursor) = Cursor::new(part.text()) {
            'tokens: while let Ok(Some(token)) = cursor.next() {
                match token.kind {
                    TokenKind::Left => start = token.span.start as usize,
                    TokenKind::Right => {
                        let range = Range {
                            start,
                            end: token.span.end as usize,
                        };
                        positions.push(lines.position_of(part.file, part.in_file(range)))?;
                    }
                    TokenKind::Word => {}
                }
            }
        }
        Ok(StepPositions { positions })
    }

    /// How many steps there are.
    pub(crate) fn len(&self) -> usize {
        self.positions.len()
    }

    /// The position of a step, counted from 1.
    pub(crate) fn get(&self, step: usize) -> Option<Position> {
        if step == 0 {
            return None;
        }
        self.positions.as_slice().get(step - 1).copied()
    }
}

/// A word of a step, counted from 0 for the action. The step's bytes are those from its `(` to its `)`.
pub(crate) fn word_range(step: &[u8], number: usize) -> Option<Range> {
    let mut count: usize = 0;
    if let Ok(mut cursor) = Cursor::new(step) {
        'tokens: while let Ok(Some(token)) = cursor.next() {
            if matches!(token.kind, TokenKind::Word) {
                if count == number {
                    return Some(Range {
                        start: token.span.start as usize,
                        end: token.span.end as usize,
                    });
                }
                count = count.saturating_add(1);
            }
        }
    }
    None
}

/// The bytes of a word of a step; nothing if it has no such word.
pub(crate) fn word_of(step: &[u8], number: usize) -> &[u8] {
    match word_range(step, number) {
        Some(range) => bytes_at(step, range),
        None => b"",
    }
}

/// How many words a step has.
pub(crate) fn word_count(step: &[u8]) -> usize {
    let mut count: usize = 0;
    if let Ok(mut cursor) = Cursor::new(step) {
        'tokens: while let Ok(Some(token)) = cursor.next() {
            if matches!(token.kind, TokenKind::Word) {
                count = count.saturating_add(1);
            }
        }
    }
    count
}

/// Adds a step as `(act a b)`, in lower case.
pub(crate) fn push_step(page: &mut Page, step: &[u8]) {
    page.say("(");
    let mut count: usize = 0;
    if let Ok(mut cursor) = Cursor::new(step) {
        'tokens: while let Ok(Some(token)) = cursor.next() {
            if matches!(token.kind, TokenKind::Word) {
                push_word(page, token.text, count);
                count = count.saturating_add(1);
            }
        }
    }
    page.say(")");
}

/// Adds the words of a step as a JSON list, in lower case.
pub(crate) fn push_step_list(page: &mut Page, step: &[u8]) {
    page.say("[");
    let mut count: usize = 0;
    if let Ok(mut cursor) = Cursor::new(step) {
        'tokens: while let Ok(Some(token)) = cursor.next() {
            if matches!(token.kind, TokenKind::Word) {
                if count > 0 {
                    page.say(",");
                }
                page.name_string(token.text);
                count = count.saturating_add(1);
            }
        }
    }
    page.say("]");
}

/// Adds a word of a step, unless there were too many.
fn push_word(page: &mut Page, word: &[u8], number: usize) {
    if number > MOST_WORDS {
        return;
    }
    if number > 0 {
        page.say(" ");
    }
    if number == MOST_WORDS {
        page.say("..");
        return;
    }
    page.folded(word);
}
