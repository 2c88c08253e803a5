//! What goes in and what comes out.

use crate::answers::Refused;
use pddl_reader::Dialect;
use report_text::Text;

/// A file, with its name as it was given.
#[derive(Clone, Copy)]
pub struct SourceText<'a> {
    /// The name, which the explanation names the file by.
    pub name: &'a [u8],
    /// What is in it.
    pub bytes: &'a [u8],
}

/// How an explanation is written.
#[derive(Clone, Copy, PartialEq, Eq)]
pub enum ExplanationFormat {
    /// As a text for people.
    Text,
    /// As records for programs: JSON objects, one a line.
    Json,
    /// In the phrases of VAL's command `validate`, which scripts look for. If a text is refused, nothing else is written.
    Phrases(Phrases),
}

/// How much is said of plans in the phrases of `validate`.
#[derive(Clone, Copy, PartialEq, Eq)]
pub enum Phrases {
    /// A line for each plan: its value, or `failed`.
    Values,
    /// The phrases, and in one line why a plan fails.
    Short,
    /// The phrases, and why a plan fails as in a text for people.
    Full,
}

/// How to explain.
#[derive(Clone, Copy)]
pub struct Options {
    /// The language of domain and problem.
    pub dialect: Dialect,
    /// Whether to show what each step changes.
    pub trace: bool,
    /// Whether to warn of what is probably not meant in a domain and a problem that are read.
    pub lint: bool,
    /// How to write what is found.
    pub format: ExplanationFormat,
    /// Whether to color a text for people by ANSI codes.
    pub colors: bool,
}

/// What is explained.
#[derive(Drop)]
pub struct Explanation {
    /// The text or the records, whose lines end with LF.
    pub text: Text,
    /// Whether the domain and the problem are read, and every plan is valid.
    pub all_valid: bool,
    /// Which text is refused, and why.
    pub refused: Option<Refused>,
}
