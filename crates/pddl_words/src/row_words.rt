//! The words of a row, one after the other.
ghost use Rattle.std.specs.Prelude.{◌≡◌, ◌≤◌, ◌∷◌, [], length, MatchOption};
ghost use Rattle.std.specs.List.{prefix_len};
ghost use Rattle.pddl_words.specs.SpacedWords.{is_in_word, words_of};

use crate::vectors::{front_of_8, front_of_16};
use std::marker::Model;

/// The words that are left of a row. Contracts see the list of them.
#[derive(Drop)]
pub struct RowWords<'a> {
    rest: &'a [u8],
    is_over: bool,
}

impl<'a> Model for RowWords<'a> {
    ghost use Rattle.std.specs.Prelude.{if◌then◌else◌, [], List, ℕ};
    ghost use Rattle.pddl_words.specs.SpacedWords.{words_of};

    ghost Value = { List (List ℕ) };

    ghost view = { λ w. if w.is_over then [] else words_of w.rest.now };
}

impl<'a> RowWords<'a> {
    /// The words of a row: what is before, between and after its spaces. Takes no memory.
    #[inline(always)]
    pub fn new(row: &'a [u8]) -> Self
        ensures { result ≡ words_of row.now }
    {
        RowWords {
            rest: row,
            is_over: false,
        }
    }

    /// The next word, or `None` after the last one.
    #[inline(always)]
    pub fn next(&mut self) -> Option<&'a [u8]>
        ensures { MatchOption result (self.old ≡ []) (λ word. self.old ≡ word.now ∷ self.new) }
    {
        if self.is_over {
            return None;
        }
        let row = self.rest;
        let len = first_word_len(row);
        if len == row.len() {
            self.is_over = true;
            return Some(row);
        }
        self.rest = &row[len + 1..];
        Some(&row[..len])
    }
}

/// How many bytes of a row there are before its first space. If it has none, that is all of them.
#[inline(always)]
pub fn first_word_len(row: &[u8]) -> usize
    ensures run { result ≡ prefix_len is_in_word row.now }
    ensures within { result ≤ length row.now }
{
    let front = front_len(row);
    front + word_len(&row[front..])
}

/// How many bytes there are before the first space, one byte after the other.
fn word_len(row: &[u8]) -> usize
    ensures run { result ≡ prefix_len is_in_word row.now }
    ensures within { result ≤ length row.now }
{
    row.iter().take_while(|b| **b != b' ').count()
}

/// Some bytes at the front that are no spaces: as many as one look at 16 or at 8 bytes tells.
#[inline(always)]
fn front_len(row: &[u8]) -> usize
    ensures run { result ≤ prefix_len is_in_word row.now }
    ensures within { result ≤ length row.now }
{
    if row.len() >= 16 {
        front_of_16(row)
    } else if row.len() >= 8 {
        front_of_8(row)
    } else {
        0
    }
}
