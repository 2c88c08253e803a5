//! The page that an explanation is written on.
//!
//! Bytes of files go to a text for people only by [`Page::shown`], [`Page::quoted`], [`Page::word`] and [`Page::folded`], and names of files by
//! [`Page::file_name`], so no file can bring an escape byte to a terminal. What one page holds goes to another by [`Page::words`], [`Page::member`] and
//! [`Page::remark`].

use crate::positions::{Range, bytes_at};
use crate::{ExplanationFormat, Phrases};
use plan_cost::Cost;
use report_text::{Text, push_cost, push_json_string};
use std::alloc::{AllocError, Global};
use strips_task::{Atom, StepView, Task};

/// A word with more bytes than this is cut in a message.
const LONGEST_WORD: usize = 60;

/// How many bytes are kept at each end of a word that is cut.
const KEPT: usize = 25;

/// The digits of a byte in hex.
const HEX_DIGITS: &[u8; 16] = b"0123456789abcdef";

/// How a part of the page looks on a terminal with colors.
#[derive(Clone, Copy)]
pub(crate) enum Style {
    /// As the rest.
    Plain,
    /// A position, in bold.
    Position,
    /// Carets, in red.
    Carets,
    /// The word before a hint, in cyan.
    Hint,
}

/// Text that is made piece by piece, with or without colors. If memory runs out, the page says so at the end, and its text is lost.
pub(crate) struct Page {
    text: Text,
    format: ExplanationFormat,
    colors: bool,
    /// Whether hints and remarks begin with a label.
    has_labels: bool,
    lacks_memory: bool,
}

impl Drop for Page {
    fn drop(self) {
        let Self {
            text: _,
            format: _,
            colors: _,
            has_labels: _,
            lacks_memory: _,
        } = self;
    }
}

impl Page {
    /// An empty page. Only a text for people has colors.
    pub(crate) fn new(alloc: Global, format: ExplanationFormat, colors: bool) -> Self {
        Page {
            text: Text::new(alloc),
            format,
            colors: colors && format == ExplanationFormat::Text,
            has_labels: true,
            lacks_memory: false,
        }
    }

    /// An empty page for words that go into a string or a remark.
    pub(crate) fn draft(&self) -> Page {
        Page::for_words(self.alloc())
    }

    /// An empty page for words that go into a string or a remark.
    pub(crate) fn for_words(alloc: Global) -> Page {
        Page {
            text: Text::new(alloc),
            format: ExplanationFormat::Text,
            colors: false,
            has_labels: false,
            lacks_memory: false,
        }
    }

    /// Whether records are written.
    pub(crate) fn is_json(&self) -> bool {
        self.format == ExplanationFormat::Json
    }

    /// Whether a text for people is written.
    pub(crate) fn is_text(&self) -> bool {
        self.format == ExplanationFormat::Text
    }

    /// How the page is written.
    pub(crate) fn format(&self) -> ExplanationFormat {
        self.format
    }

    /// Whether remarks about a run belong on the page.
    fn has_remarks(&self) -> bool {
        match self.format {
            ExplanationFormat::Text | ExplanationFormat::Json => true,
            ExplanationFormat::Phrases(phrases) => phrases == Phrases::Full,
        }
    }

    /// Where the page takes its memory.
    pub(crate) fn alloc(&self) -> Global {
        self.text.alloc()
    }

    /// The text of the page, if there was memory for all of it.
    pub(crate) fn into_text(self) -> Result<Text, AllocError> {
        let Page {
            text,
            format: _,
            colors: _,
            has_labels: _,
            lacks_memory,
        } = self;
        if lacks_memory {
            return Err(AllocError);
        }
        Ok(text)
    }

    /// The bytes of a draft, without the LF at their end.
    fn take_draft(&mut self, draft: Page) -> Vec<u8> {
        let Page {
            text,
            format: _,
            colors: _,
            has_labels: _,
            lacks_memory,
        } = draft;
        self.lacks_memory |= lacks_memory;
        let mut bytes = text.into_bytes();
        if bytes.last() == Some(&b'\n') {
            let _end = bytes.pop();
        }
        bytes
    }

    /// Adds a member of a record: the words of a draft as a string, or null if there are none.
    pub(crate) fn member(&mut self, name: &str, draft: Page) {
        let bytes = self.take_draft(draft);
        self.say(",\"");
        self.say(name);
        self.say("\":");
        if bytes.is_empty() {
            self.say("null");
        } else {
            self.string(bytes.as_slice());
        }
    }

    /// Adds a remark, unless it is empty.
    pub(crate) fn remark(&mut self, draft: Page) {
        let bytes = self.take_draft(draft);
        if bytes.is_empty() || !self.has_remarks() {
            return;
        }
        if self.is_json() {
            self.say("{\"type\":\"note\",\"message\":");
            self.string(bytes.as_slice());
            self.say("}\n");
            return;
        }
        self.label("note:");
        self.push(bytes.as_slice());
        self.say("\n");
    }

    /// Adds a JSON string.
    pub(crate) fn string(&mut self, bytes: &[u8]) {
        let pushed = push_json_string(&mut self.text, bytes);
        self.note_memory(pushed);
    }

    /// Adds a name of a file as a JSON string in lower case.
    pub(crate) fn name_string(&mut self, name: &[u8]) {
        self.say("\"");
        self.lower_case(name);
        self.say("\"");
    }

    /// Notes whether there was memory for a piece.
    pub(crate) fn note_memory(&mut self, pushed: Result<(), AllocError>) {
        self.lacks_memory |= pushed.is_err();
    }

    /// Adds bytes.
    fn push(&mut self, bytes: &[u8]) {
        let pushed = self.text.push(bytes);
        self.note_memory(pushed);
    }

    /// Adds words that were written on a page before.
    pub(crate) fn words(&mut self, words: &[u8]) {
        self.push(words);
    }

    /// Adds words of this program.
    pub(crate) fn say(&mut self, words: &str) {
        self.push(words.as_bytes());
    }

    /// Adds a number.
    pub(crate) fn number(&mut self, number: usize) {
        let pushed = self.text.push_number(number);
        self.note_memory(pushed);
    }

    /// Adds a step, as `(act a b)`, with long names cut.
    pub(crate) fn step_view(&mut self, step: &StepView<'_>) {
        self.say("(");
        self.word(step.action());
        for index in 0..step.arg_count() {
            self.say(" ");
            self.word(step.arg(index));
        }
        self.say(")");
    }

    /// Adds an atom, with long names cut.
    pub(crate) fn atom(&mut self, task: &Task, atom: &Atom) {
        self.say("(");
        self.word(predicate_name(task, atom.pred));
        for number in atom.args.as_slice() {
            self.say(" ");
            self.word(object_name(task, *number));
        }
        self.say(")");
    }

    /// Adds ` cost C`, if costs are counted.
    pub(crate) fn cost(&mut self, cost: Cost) {
        let pushed = push_cost(&mut self.text, cost);
        self.note_memory(pushed);
    }

    /// Adds a cost that is counted and defined, as a number.
    pub(crate) fn cost_number(&mut self, cost: Cost) {
        let mut draft = self.draft();
        draft.cost(cost);
        let bytes = self.take_draft(draft);
        if let Some(number) = bytes.as_slice().strip_prefix(b" cost ") {
            self.push(number);
        }
    }

    /// The name that a search found, if it found one. A search that lacks memory finds none.
    pub(crate) fn found<'a>(
        &mut self,
        found: Result<Option<&'a [u8]>, AllocError>,
    ) -> Option<&'a [u8]> {
        match found {
            Ok(name) => name,
            Err(AllocError) => {
                self.lacks_memory = true;
                None
            }
        }
    }

    /// Adds a number of things: `1 step`, `2 steps`.
    pub(crate) fn count(&mut self, number: usize, one: &str, many: &str) {
        self.number(number);
        self.say(" ");
        self.say(if number == 1 { one } else { many });
    }

    /// Begins a style.
    pub(crate) fn style(&mut self, style: Style) {
        if self.colors {
            self.say(match style {
                Style::Plain => "\x1b[0m",
                Style::Position => "\x1b[1m",
                Style::Carets => "\x1b[31m",
                Style::Hint => "\x1b[36m",
            });
        }
    }

    /// Begins a line with a hint.
    pub(crate) fn help(&mut self) {
        self.label("help:");
    }

    /// A whole line with a hint.
    pub(crate) fn help_line(&mut self, words: &str) {
        self.help();
        self.say(words);
        self.say("\n");
    }

    /// Begins a line with a label.
    fn label(&mut self, label: &str) {
        if !self.has_labels {
            return;
        }
        self.style(Style::Hint);
        self.say(label);
        self.style(Style::Plain);
        self.say(" ");
    }

    /// Adds bytes of a file. What is not printable ASCII is shown as `\xNN`, and a tab as a space.
    pub(crate) fn shown(&mut self, bytes: &[u8]) {
        for byte in bytes {
            self.shown_byte(*byte);
        }
    }

    /// Adds one byte of a file.
    fn shown_byte(&mut self, byte: u8) {
        if byte == b'\t' {
            self.push(b" ");
            return;
        }
        if is_printable(byte) {
            self.push(&[byte]);
            return;
        }
        self.push(b"\\x");
        self.hex(byte);
    }

    /// Adds a byte as two digits in hex.
    pub(crate) fn hex(&mut self, byte: u8) {
        self.push(&[
            HEX_DIGITS[usize::from(byte / 16)],
            HEX_DIGITS[usize::from(byte % 16)],
        ])
    }

    /// Adds a word of a file between backquotes; a long one is cut.
    pub(crate) fn quoted(&mut self, word: &[u8]) {
        self.say("`");
        self.word(word);
        self.say("`");
    }

    /// Adds a word of a file; a long one is cut in the middle.
    pub(crate) fn word(&mut self, word: &[u8]) {
        if word.len() <= LONGEST_WORD {
            self.shown(word);
            return;
        }
        self.shown(front_of(word));
        self.say("..");
        self.shown(back_of(word));
    }

    /// Adds a word of a file in lower case; a long one is cut in the middle.
    pub(crate) fn folded(&mut self, word: &[u8]) {
        if word.len() <= LONGEST_WORD {
            self.lower_case(word);
            return;
        }
        self.lower_case(front_of(word));
        self.say("..");
        self.lower_case(back_of(word));
    }

    /// Adds bytes of a file in lower case.
    pub(crate) fn lower_case(&mut self, bytes: &[u8]) {
        for byte in bytes {
            self.shown_byte(byte.to_ascii_lowercase());
        }
    }

    /// Adds the name of a file as it was given; only control characters are shown as `\xNN`. If one of them is not ASCII, so are all bytes that
    /// are not.
    pub(crate) fn file_name(&mut self, name: &[u8]) {
        let is_shown = !has_wide_control(name);
        for byte in name {
            if *byte >= 128 && is_shown {
                self.push(&[*byte]);
            } else {
                self.shown_byte(*byte);
            }
        }
    }

    /// Adds a byte many times.
    pub(crate) fn repeated(&mut self, byte: u8, times: usize) {
        for _ in 0..times {
            self.push(&[byte]);
        }
    }
}

/// The first bytes of a word that is cut.
fn front_of(word: &[u8]) -> &[u8] {
    bytes_at(
        word,
        Range {
            start: 0,
            end: KEPT,
        },
    )
}

/// The last bytes of a word that is cut.
fn back_of(word: &[u8]) -> &[u8] {
    bytes_at(
        word,
        Range {
            start: word.len().saturating_sub(KEPT),
            end: word.len(),
        },
    )
}

/// The name of the predicate with a number; nothing if no predicate has it.
pub(crate) fn predicate_name(task: &Task, number: u16) -> &[u8] {
    if usize::from(number) < task.pred_count() {
        task.pred_name(number).as_bytes()
    } else {
        b""
    }
}

/// The name of the type with a number; nothing if no type has it.
pub(crate) fn type_name(task: &Task, number: u16) -> &[u8] {
    if usize::from(number) < task.type_count() {
        task.type_name(number).as_bytes()
    } else {
        b""
    }
}

/// The name of the object with a number; nothing if no object has it.
pub(crate) fn object_name(task: &Task, number: u16) -> &[u8] {
    if usize::from(number) < task.object_count() {
        task.object_name(number).as_bytes()
    } else {
        b""
    }
}

/// Whether a name has one of the control characters U+0080 to U+009F. In UTF-8 each of them is the byte C2 and a byte from 80 to 9F.
fn has_wide_control(name: &[u8]) -> bool {
    let next = name.iter().skip(1);
    name.iter().zip(next).any(|(lead, byte)| *lead == 0xc2 && matches!(byte, 0x80..=0x9f))
}

/// Whether a byte is shown as it is.
fn is_printable(byte: u8) -> bool {
    matches!(byte, 32..=126)
}

/// How many columns bytes of a file take on the page.
pub(crate) fn width(bytes: &[u8]) -> usize {
    let mut columns: usize = 0;
    for byte in bytes {
        let wide = if *byte == b'\t' || is_printable(*byte) {
            1
        } else {
            4
        };
        columns = columns.saturating_add(wide);
    }
    columns
}
