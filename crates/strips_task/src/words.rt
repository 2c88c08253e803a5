//! Many words kept in one piece.
//!
//! The words of a plan are side by side in one buffer, in lower case. Each is known by where it ends.
ghost use Rattle.std.specs.Prelude.{◌≡◌, ◌<◌, [], ◌∷◌, ◌++◌, length, slice_get, OnOk, OnErr, Some, slice_index};
ghost use Rattle.pddl_words.specs.Words.{folded};
ghost use Rattle.strips_task.specs.Parts.{parts_from, AreEnds};

use std::alloc::{AllocError, Global};
use std::marker::Model;

/// Words in lower case, in the order in which they were pushed. Contracts see the list of them.
pub struct WordList {
    /// The words side by side.
    bytes: Vec<u8>,
    /// Where each word ends among the bytes.
    ends: Vec<usize>,
}

impl Drop for WordList {
    fn drop(self) {
        let Self { bytes: _, ends: _ } = self;
    }
}

impl Model for WordList {
    ghost use Rattle.std.specs.Prelude.{List, ℕ, length};
    ghost use Rattle.strips_task.specs.Parts.{parts_from, AreEnds};

    ghost Value = { List (List ℕ) };

    ghost view = { λ s. parts_from s.bytes.items 0 s.ends.items };

    ghost invariant = { λ s. AreEnds 0 s.ends.items (length s.bytes.items) };
}

impl WordList {
    /// The empty list. Takes no memory.
    #[tactic(auto, using(crate::proofs::PartLemmas::parts_none, crate::proofs::PartLemmas::ends_none))]
    pub fn new(alloc: Global) -> Self
        ensures { result ≡ [] }
    {
        WordList {
            bytes: Vec::new(alloc),
            ends: Vec::new(alloc),
        }
    }

    /// Removes all words and keeps the room.
    #[tactic(auto, using(crate::proofs::PartLemmas::parts_none, crate::proofs::PartLemmas::ends_none))]
    pub fn clear(&mut self)
        ensures { self.new ≡ [] }
    {
        self.bytes.clear();
        self.ends.clear();
    }

    /// Adds a word at the end, in lower case (PDDL 2.1, Fox and Long 2003: case is not significant). If memory runs out, the list does
    /// not change.
    pub fn push_folded(&mut self, word: &[u8]) -> Result<(), AllocError>
        ensures ok { OnOk result (self.new ≡ self.old ++ folded word.now ∷ []) }
        ensures err { OnErr result (self.new ≡ self.old) }
    {
        self.ends.reserve(1)?;
        append_folded(&mut self.bytes, word)?;
        let end = self.bytes.as_slice().len();
        self.ends.push(end)?;
        Ok(())
    }

    /// How many words the list holds.
    #[tactic(auto, using(crate::proofs::PartLemmas::length_parts))]
    pub fn len(&self) -> usize
        ensures { result ≡ length self.now }
    {
        self.ends.len()
    }

    /// The word with an index, counted from 0.
    #[tactic(auto, using(crate::proofs::PartLemmas::length_parts))]
    pub fn get(&self, index: usize) -> &[u8]
        requires { index < length self.now }
        ensures { slice_get self.now index ≡ Some result.now }
    {
        part_at(&self.bytes, &self.ends, index)
    }
}

/// Adds a word's bytes in lower case. If memory runs out, none is added.
fn append_folded(bytes: &mut Vec<u8>, word: &[u8]) -> Result<(), AllocError>
    ensures ok { OnOk result (bytes.new.items ≡ bytes.old.items ++ folded word.now) }
    ensures err { OnErr result (bytes.new.items ≡ bytes.old.items) }
{
    let start = bytes.len();
    bytes.extend_from_slice(word)?;
    bytes[start..].make_ascii_lowercase();
    Ok(())
}

/// Where the word with an index starts: at the end of the one before it.
fn start_of(ends: &[usize], index: usize) -> usize
    requires { index < length ends.now }
    ensures { result ≡ slice_index (0 ∷ ends.now) index }
{
    if index == 0 { 0 } else { ends[index - 1] }
}

/// The bytes of the word with an index.
#[tactic(auto, using(crate::proofs::PartLemmas::end_within, crate::proofs::PartLemmas::slice_get_parts))]
fn part_at<'a>(bytes: &'a [u8], ends: &[usize], index: usize) -> &'a [u8]
    requires in_order { AreEnds 0 ends.now (length bytes.now) }
    requires within { index < length ends.now }
    ensures { slice_get (parts_from bytes.now 0 ends.now) index ≡ Some result.now }
{
    let start = start_of(ends, index);
    &bytes[start..ends[index]]
}
