//! Where a step is written in a plan text.
ghost use Rattle.std.specs.Prelude.{◌≡◌, IfSome, IsTrue, map};
ghost use Rattle.pddl_words.specs.SpacedWords.{words_of};
ghost use Rattle.pddl_words.specs.Words.{folded};
ghost use Rattle.strips_task.specs.Steps.{step_of};
ghost use Rattle.text_judge.specs.Places.{IsRowOf};

use pddl_words::{RowWords, are_names};
use plan_text::StepWords;

/// Where a step of a plan text is written as a row: its names, with a single space between each two.
#[derive(Clone, Copy)]
pub struct StepPlace {
    /// Which step of the plan it is, counted from 0.
    pub index: u32,
    /// The offset of the first byte of its names.
    pub start: u32,
    /// The offset behind their last byte.
    pub end: u32,
}

/// Where the bytes between two parentheses are in a text.
#[derive(Clone, Copy)]
pub(crate) struct Inside {
    /// The offset of the `(`.
    pub(crate) paren: u32,
    /// How many bytes follow before the `)`.
    pub(crate) size: usize,
}

/// The place of the step with this index and these words, if they are what is inside, written as a row.
pub(crate) fn place_of(
    text: &[u8],
    inside: Inside,
    index: u32,
    words: StepWords<'_>,
) -> Option<StepPlace>
    ensures { IfSome result (λ place. (place.index ≡ index) × IsRowOf text.now place (step_of (map folded words.entry))) }
{
    let start = inside.paren.saturating_add(1);
    let end = u32::try_from((start as usize).saturating_add(inside.size)).ok()?;
    if start > end || end as usize > text.len() {
        return None;
    }
    let row = &text[start as usize..end as usize];
    if are_names(row) && have_same(RowWords::new(row), words) {
        Some(StepPlace { index, start, end })
    } else {
        None
    }
}

/// Whether the words that are left of a row and of a step are the same.
fn have_same(mut row: RowWords<'_>, mut words: StepWords<'_>) -> bool
    ensures { IsTrue result → row.entry ≡ words.entry }
{
    'words: loop {
        match (row.next(), words.next()) {
            (None, None) => return true,
            (Some(word), Some(other)) => {
                if word != other {
                    return false;
                }
            }
            _ => return false,
        }
    }
}
