//! The lines of a text, one after the other.
ghost use Rattle.std.specs.Prelude.{◌≡◌, ◌+◌, ◌<◌, ◌^◌, [], ◌∷◌, length, take, drop, IfOk, IfSome, MatchOption};
ghost use Rattle.steps_text.specs.LinesLeft.{LinesLeft, shown_line};
ghost use Rattle.steps_text.specs.StepsTexts.{lines, kept_lines};

use crate::line::{Meaning, line_meaning};
use memchr::memchr;
use std::alloc::{AllocError, Global};
use std::marker::Model;

/// A line that is not skipped.
#[derive(Drop)]
pub(crate) struct KeptLine {
    /// Its number in the text, counted from 1.
    pub(crate) number: u32,
    /// What it says.
    pub(crate) meaning: Meaning,
}

/// The lines of a text that are still to come. Contracts see them, and how many were taken before.
#[derive(Drop)]
pub(crate) struct Lines<'a> {
    rest: Option<&'a [u8]>,
    taken: u32,
}

impl<'a> Model for Lines<'a> {
    ghost use Rattle.std.specs.Prelude.{◌+◌, ◌<◌, ◌^◌, length};
    ghost use Rattle.std.specs.Option.{option_copied};
    ghost use Rattle.steps_text.specs.LinesLeft.{LinesLeft, left_in};

    ghost Value = { LinesLeft };

    ghost view = { λ s. record { taken = s.taken; left = left_in (option_copied s.rest) } };

    // There are fewer lines than 2^32.
    ghost invariant = { λ s. s.taken + length (left_in (option_copied s.rest)) < 2 ^ 32 };
}

impl<'a> Lines<'a> {
    /// The lines of a text.
    #[tactic(auto, using(crate::proofs::LineCuts::few_lines))]
    pub(crate) fn new(text: &'a [u8]) -> Self
        requires { length text.now < 2 ^ 31 }
        ensures { result ≡ record { taken = 0; left = lines text.now } }
    {
        Lines {
            rest: Some(text),
            taken: 0,
        }
    }

    /// How many lines were taken.
    pub(crate) fn taken(&self) -> u32
        ensures { result ≡ self.now.taken }
    {
        self.taken
    }

    /// The next line, without its LF.
    #[tactic(auto, using(crate::proofs::LineCuts::some_line))]
    fn next(&mut self) -> Option<&'a [u8]>
        ensures { MatchOption result (self.old.left ≡ [] × self.new ≡ self.old)
            (λ line. self.old.left ≡ line.now ∷ self.new.left × self.new.taken ≡ self.old.taken + 1) }
    {
        let rest = self.rest?;
        self.taken += 1;
        match line_end(rest) {
            Some(end) => {
                self.rest = Some(&rest[end + 1..]);
                Some(&rest[..end])
            }
            None => {
                self.rest = None;
                Some(rest)
            }
        }
    }

    /// The next line that is not skipped.
    pub(crate) fn next_kept(&mut self, alloc: Global) -> Result<Option<KeptLine>, AllocError>
        ensures line { IfOk result (λ line. MatchOption line
            (kept_lines (self.old.taken + 1) self.old.left ≡ [] × self.new.taken ≡ self.old.taken + length self.old.left)
            (λ line. kept_lines (self.old.taken + 1) self.old.left ≡ shown_line line ∷ kept_lines (self.new.taken + 1) self.new.left)) }
        ensures fewer { IfOk result (λ line. MatchOption line (self.new.left ≡ []) (λ line. length self.new.left < length self.old.left)) }
    {
        'lines: while let Some(line) = self.next() {
            if let Some(meaning) = line_meaning(alloc, line)? {
                return Ok(Some(KeptLine {
                    number: self.taken,
                    meaning,
                }));
            }
        }
        Ok(None)
    }
}

/// Where the first line of a text ends: at its LF, if it has one.
#[tactic(auto, using(crate::proofs::LineCuts::cut_by))]
fn line_end(text: &[u8]) -> Option<usize>
    ensures line { MatchOption result (lines text.now ≡ text.now ∷ [])
        (λ end. lines text.now ≡ take end text.now ∷ lines (drop (end + 1) text.now)) }
    ensures within { IfSome result (λ end. end < length text.now) }
{
    memchr(b'\n', text)
}
