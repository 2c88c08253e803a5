//! The parts of a bundle, the file in which one planner gives its plans.

ghost use Rattle.std.specs.Prelude.{◌≡◌, ◌≤◌, length};
ghost use Rattle.std.specs.List.{list_all};
ghost use Rattle.plan_text.specs.Bundle.{parts, is_separator, may_follow_dashes};
ghost use Rattle.plan_text.specs.Separators.{CutsLine, IsFirstPart, IsFirstSeparator, IsOnePartTo};

use memchr::{memchr, memmem};
use std::marker::Model;

/// The parts of a bundle in order, as slices of it: each is the text of one plan.
///
/// A line of three dashes, followed by nothing but spaces, tabs and CRs, separates two plans. So a bundle with n such lines has n + 1
/// parts, and an empty bundle has one. All parts together cost one pass over the bundle, and no memory. Contracts see the list of the
/// parts that are left.
#[derive(Drop)]
pub struct Parts<'a> {
    rest: Option<&'a [u8]>,
}

impl<'a> Model for Parts<'a> {
    ghost use Rattle.std.specs.Prelude.{ℕ, List};
    ghost use Rattle.std.specs.Option.{option_copied};
    ghost use Rattle.plan_text.specs.Separators.{parts_left};

    ghost Value = { List (List ℕ) };

    ghost view = { λ p. parts_left (option_copied p.rest) };
}

impl<'a> Parts<'a> {
    /// The parts of a bundle.
    pub fn new(bundle: &'a [u8]) -> Self
        ensures { result ≡ parts bundle.now }
    {
        Parts { rest: Some(bundle) }
    }
}

impl<'a> Iterator for Parts<'a> {
    ghost use Rattle.std.specs.Iterator.{YieldsFirstRef, item_count};

    type Item = &'a [u8];

    ghost next_gives = { YieldsFirstRef (λ left. left) };

    ghost remaining = { item_count (λ left. left) };

    fn next(&mut self) -> Option<&'a [u8]> {
        let rest = self.rest?;
        match first_separator(rest) {
            Some(line) => {
                self.rest = Some(&rest[line.end..]);
                Some(&rest[..line.start])
            }
            None => {
                self.rest = None;
                Some(rest)
            }
        }
    }
}

/// Where a part of a bundle ends, and where the next part begins, if there is one.
#[derive(Clone, Copy)]
pub struct PartEnd {
    /// The offset after the last byte of the part.
    pub end: usize,
    /// The offset of the first byte of the next part, which may be empty.
    pub next: Option<usize>,
}

/// The part of a bundle that begins at the offset `start`. The first part begins at 0, and each part says where the next one begins, so that
/// all parts together cost one pass over the bundle, and no memory.
pub fn part_from(bundle: &[u8], start: usize) -> PartEnd
    requires { start ≤ length bundle.now }
    ensures { IsFirstPart result bundle.now start }
{
    match first_separator(&bundle[start..]) {
        Some(line) => PartEnd {
            end: start + line.start,
            next: Some(start + line.end),
        },
        None => PartEnd {
            end: bundle.len(),
            next: None,
        },
    }
}

/// Where a line is, with its LF if it has one: from `start` up to but not including `end`.
#[derive(Clone, Copy)]
struct Line {
    start: usize,
    end: usize,
}

/// The first separator of a text.
fn first_separator(text: &[u8]) -> Option<Line>
    ensures { IsFirstSeparator result text.now }
{
    let mut start = 0;
    'lines: while start < text.len() {
        let rest = &text[start..];
        let plain = plain_len(rest);
        if plain > 0 {
            start += plain;
            continue 'lines;
        }
        let size = line_len(rest);
        if is_separator(&rest[..size]) {
            return Some(Line {
                start,
                end: start + size,
            });
        }
        start += size;
    }
    None
}

/// How many bytes the lines at the start have that do not begin with a dash, each with its LF if it has one.
fn plain_len(text: &[u8]) -> usize
    ensures within { result ≤ length text.now }
    ensures one_part { IsOnePartTo text.now result }
{
    match text.first() {
        Some(b'-') => 0,
        Some(_) => match memmem::find(text, b"\n-") {
            Some(at) => at + 1,
            None => text.len(),
        },
        None => 0,
    }
}

/// How many bytes the first line has, including its LF.
fn line_len(text: &[u8]) -> usize
    ensures { CutsLine text.now result }
{
    match memchr(b'\n', text) {
        Some(at) => at + 1,
        None => text.len(),
    }
}

/// Whether a line separates two plans.
#[tactic(auto, unfolding(crate::specs::Bundle::is_separator))]
fn is_separator(line: &[u8]) -> bool
    ensures { result ≡ is_separator line.now }
{
    line.starts_with(b"---") && are_blank(&line[3..])
}

/// Whether all bytes may follow the dashes of a separator.
fn are_blank(bytes: &[u8]) -> bool
    ensures { result ≡ list_all may_follow_dashes bytes.now }
{
    bytes.iter().all(|b| may_follow_dashes(*b))
}

/// Whether a byte may follow the dashes of a separator.
fn may_follow_dashes(b: u8) -> bool
    ensures { result ≡ may_follow_dashes b }
{
    matches!(b, b' ' | b'\t' | b'\r' | b'\n')
}
