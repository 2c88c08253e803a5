//! Positions in files: lines and columns, and the line that is shown with carets below it.

use crate::SourceText;
use crate::page::{Page, Style, width};
use memchr::memchr;

/// A line with at most this many bytes is shown whole.
const WINDOW: usize = 100;

/// How many bytes of a longer line are shown before the position.
const BEFORE: usize = 40;

/// A range of bytes of a file.
#[derive(Clone, Copy)]
pub(crate) struct Range {
    pub(crate) start: usize,
    pub(crate) end: usize,
}

/// A line of a file: its number, from 1, and where it begins.
#[derive(Clone, Copy)]
pub(crate) struct Line {
    pub(crate) number: usize,
    pub(crate) start: usize,
}

/// The first line of a file.
const FIRST_LINE: Line = Line {
    number: 1,
    start: 0,
};

/// A position in a file: a range and the line in which it begins.
#[derive(Clone, Copy)]
pub(crate) struct Position {
    pub(crate) range: Range,
    pub(crate) line: Line,
}

impl Position {
    /// The position of a range that begins here or later.
    pub(crate) fn later(self, bytes: &[u8], range: Range) -> Position {
        let mut lines = LineCount {
            line: self.line,
            at: self.range.start,
        };
        lines.position_of(bytes, range)
    }
}

/// The bytes of a range. What is past the end is left out.
pub(crate) fn bytes_at(bytes: &[u8], range: Range) -> &[u8] {
    let end = range.end.min(bytes.len());
    let start = range.start.min(end);
    &bytes[start..end]
}

/// The line of an offset, counted from the start of the file.
pub(crate) fn line_at(bytes: &[u8], at: usize) -> Line {
    LineCount::new().line_of(bytes, at)
}

/// The position of a range, with its line counted from the start of the file.
pub(crate) fn position_of(bytes: &[u8], range: Range) -> Position {
    Position {
        range,
        line: line_at(bytes, range.start),
    }
}

/// A count of lines that goes on from offset to offset.
#[derive(Clone, Copy)]
pub(crate) struct LineCount {
    line: Line,
    at: usize,
}

impl LineCount {
    /// At the start of a file.
    pub(crate) fn new() -> Self {
        LineCount {
            line: FIRST_LINE,
            at: 0,
        }
    }

    /// The line of an offset, which is not before that of the last call.
    pub(crate) fn line_of(&mut self, bytes: &[u8], offset: usize) -> Line {
        let begun = self.at;
        let between = Range {
            start: begun,
            end: offset,
        };
        for (index, byte) in bytes_at(bytes, between).iter().enumerate() {
            if *byte == b'\n' {
                self.line = next_line(self.line, begun.saturating_add(index));
            }
        }
        self.at = begun.max(offset);
        self.line
    }

    /// The position of a range, which is not before that of the last call.
    pub(crate) fn position_of(&mut self, bytes: &[u8], range: Range) -> Position {
        Position {
            range,
            line: self.line_of(bytes, range.start),
        }
    }
}

/// The line after the LF at an offset.
fn next_line(line: Line, end: usize) -> Line {
    Line {
        number: line.number.saturating_add(1),
        start: end.saturating_add(1),
    }
}

/// The column of a position, from 1.
fn column(position: Position) -> usize {
    position
        .range
        .start
        .saturating_sub(position.line.start)
        .saturating_add(1)
}

/// Adds `FILE:LINE:COLUMN: `.
pub(crate) fn push_position(page: &mut Page, name: &[u8], position: Position) {
    page.style(Style::Position);
    page.file_name(name);
    page.say(":");
    page.number(position.line.number);
    page.say(":");
    page.number(column(position));
    page.say(":");
    page.style(Style::Plain);
    page.say(" ");
}

/// Adds the members of a record for a position.
pub(crate) fn push_place(page: &mut Page, position: Position) {
    page.say(",\"line\":");
    page.number(position.line.number);
    page.say(",\"column\":");
    page.number(column(position));
    page.say(",\"bytes\":[");
    page.number(position.range.start);
    page.say(",");
    page.number(position.range.end);
    page.say("]");
}

/// Adds `FILE:LINE`.
pub(crate) fn push_line(page: &mut Page, file: SourceText<'_>, at: usize) {
    page.file_name(file.name);
    page.say(":");
    page.number(line_at(file.bytes, at).number);
}

/// Adds the line of a position, and a line with carets below the bytes of its range that are in the line.
pub(crate) fn push_excerpt(page: &mut Page, bytes: &[u8], position: Position) {
    let line = line_range(bytes, position);
    let faulty = within(position.range, line);
    let shown = window(line, faulty.start);
    page.say("  ");
    let cut = shown.start > line.start;
    if cut {
        page.say("..");
    }
    page.shown(bytes_at(bytes, shown));
    if shown.end < line.end {
        page.say("..");
    }
    page.say("\n");
    let before = Range {
        start: shown.start,
        end: faulty.start,
    };
    let indent = width(bytes_at(bytes, before)).saturating_add(if cut { 4 } else { 2 });
    let carets = width(bytes_at(bytes, within(faulty, shown))).max(1);
    push_carets(page, indent, carets)
}

/// Adds a line with carets.
fn push_carets(page: &mut Page, indent: usize, carets: usize) {
    page.repeated(b' ', indent);
    page.style(Style::Carets);
    page.repeated(b'^', carets);
    page.style(Style::Plain);
    page.say("\n");
}

/// The bytes of a position's line, without blanks at its start.
pub(crate) fn line_text(bytes: &[u8], position: Position) -> &[u8] {
    bytes_at(bytes, line_range(bytes, position))
}

/// The part of a range that is in another.
fn within(range: Range, other: Range) -> Range {
    let start = range.start.max(other.start).min(other.end);
    Range {
        start,
        end: range.end.min(other.end).max(start),
    }
}

/// The range of a position's line, without blanks before the position at its start, and without the end of the line.
fn line_range(bytes: &[u8], position: Position) -> Range {
    let rest = bytes_at(
        bytes,
        Range {
            start: position.line.start,
            end: bytes.len(),
        },
    );
    let size = match memchr(b'\n', rest) {
        Some(size) => size,
        None => rest.len(),
    };
    let whole = Range {
        start: position.line.start,
        end: position.line.start.saturating_add(size),
    };
    let text = bytes_at(bytes, whole);
    let blanks = blanks_at_start(text).min(position.range.start.saturating_sub(whole.start));
    Range {
        start: whole.start.saturating_add(blanks),
        end: whole.end.saturating_sub(carriage_return(text)),
    }
}

/// How many blanks are at the start.
fn blanks_at_start(bytes: &[u8]) -> usize {
    bytes
        .iter()
        .take_while(|b| matches!(**b, b' ' | b'\t'))
        .count()
}

/// How many bytes the CR at the end takes.
fn carriage_return(bytes: &[u8]) -> usize {
    match bytes.last() {
        Some(b'\r') => 1,
        _ => 0,
    }
}

/// The part of a line that is shown for an offset in it.
fn window(line: Range, at: usize) -> Range {
    if line.end.saturating_sub(line.start) <= WINDOW {
        return line;
    }
    let start = at.saturating_sub(BEFORE).max(line.start);
    Range {
        start,
        end: start.saturating_add(WINDOW).min(line.end),
    }
}
