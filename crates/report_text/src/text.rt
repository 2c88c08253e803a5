//! Text that is made piece by piece.
ghost use Rattle.std.specs.Prelude.{◌≡◌, ◌++◌, [], ℕ, List, OnOk, decimal};
ghost use Rattle.std.specs.Char.{is_ascii_uppercase};
ghost use Rattle.std.specs.List.{list_any};
ghost use Rattle.pddl_words.specs.Words.{folded};

use itoa::Buffer;
use std::alloc::{AllocError, Global};
use std::marker::Model;

/// Bytes to which pieces are added at the end. Contracts see the list of them.
pub struct Text {
    bytes: Vec<u8>,
}

impl Drop for Text {
    fn drop(self) {
        let Self { bytes: _ } = self;
    }
}

impl Model for Text {
    ghost Value = { List ℕ };

    ghost view = { λ t. t.bytes.items };
}

impl Text {
    /// The empty text. Takes no memory.
    pub fn new(alloc: Global) -> Self
        ensures { result ≡ [] }
    {
        Text {
            bytes: Vec::new(alloc),
        }
    }

    /// Where the text takes its memory.
    pub fn alloc(&self) -> Global {
        *self.bytes.allocator()
    }

    /// Makes room for that many bytes more, so that the text need not be moved while they are added.
    pub(crate) fn reserve(&mut self, more: usize) -> Result<(), AllocError>
        ensures { self.new ≡ self.old }
    {
        self.bytes.reserve(more)
    }

    /// Adds bytes at the end.
    pub fn push(&mut self, bytes: &[u8]) -> Result<(), AllocError>
        ensures { OnOk result (self.new ≡ self.old ++ bytes.now) }
    {
        self.bytes.extend_from_slice(bytes)?;
        Ok(())
    }

    /// Adds bytes at the end, in lower case.
    pub fn push_folded(&mut self, bytes: &[u8]) -> Result<(), AllocError>
        ensures { OnOk result (self.new ≡ self.old ++ folded bytes.now) }
    {
        if has_upper_case(bytes) {
            let lower = bytes.to_ascii_lowercase(self.alloc())?;
            return self.push(lower.as_slice());
        }
        self.push(bytes)
    }

    /// Adds a number in decimal digits.
    pub fn push_number(&mut self, number: usize) -> Result<(), AllocError>
        ensures { OnOk result (self.new ≡ self.old ++ decimal number) }
    {
        let mut buffer = Buffer::new();
        self.bytes
            .extend_from_slice(buffer.format(number).as_bytes())?;
        Ok(())
    }

    /// Adds a number of up to 128 bits in decimal digits.
    pub fn push_wide_number(&mut self, number: u128) -> Result<(), AllocError>
        ensures { OnOk result (self.new ≡ self.old ++ decimal number) }
    {
        let mut buffer = Buffer::new();
        self.bytes
            .extend_from_slice(buffer.format(number).as_bytes())?;
        Ok(())
    }

    /// The bytes. Takes no memory.
    pub fn into_bytes(self) -> Vec<u8>
        ensures { result.items ≡ self }
    {
        let Text { bytes } = self;
        bytes
    }
}

/// Whether a byte is a letter in upper case.
fn has_upper_case(bytes: &[u8]) -> bool
    ensures { result ≡ list_any is_ascii_uppercase bytes.now }
{
    bytes.iter().any(|b| b.is_ascii_uppercase())
}
