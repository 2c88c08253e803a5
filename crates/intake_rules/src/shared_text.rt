//! A range of bytes that may have several owners.
ghost use Rattle.std.specs.Arc.{arc_value};
ghost use Rattle.std.specs.Prelude.{◌≡◌, ◌≤◌, length, slice_range, IfOk};

use std::alloc::AllocError;
use std::marker::Model;
use std::sync::Arc;

/// A range of bytes that may have other owners as well. Contracts see the bytes of the range.
#[derive(Drop)]
pub struct SharedText {
    bytes: Arc<Vec<u8>>,
    start: u32,
    end: u32,
}

impl Model for SharedText {
    ghost use Rattle.std.specs.Arc.{arc_value};
    ghost use Rattle.std.specs.Prelude.{List, ℕ, ◌≤◌, length, slice_range};

    ghost Value = { List ℕ };

    ghost view = { λ text. slice_range (arc_value text.bytes).items text.start text.end };

    ghost invariant = { λ text. (text.start ≤ text.end) × (text.end ≤ length (arc_value text.bytes).items) };
}

impl SharedText {
    /// The bytes from `start` up to but not including `end`. Takes no memory.
    pub fn new(bytes: Arc<Vec<u8>>, start: u32, end: u32) -> SharedText
        requires ordered { start ≤ end }
        requires within { end ≤ length (arc_value bytes).items }
        ensures { result ≡ slice_range (arc_value bytes).items start end }
    {
        SharedText { bytes, start, end }
    }

    /// The bytes.
    pub fn as_slice(&self) -> &[u8]
        ensures { result.now ≡ self.now }
    {
        &self.bytes[self.start as usize..self.end as usize]
    }

    /// The same bytes with one more owner. Copies nothing; the only error is too many owners.
    pub fn try_clone(&self) -> Result<SharedText, AllocError>
        ensures { IfOk result (λ text. text ≡ self.now) }
    {
        Ok(SharedText {
            bytes: Arc::try_clone(&self.bytes)?,
            start: self.start,
            end: self.end,
        })
    }
}
