//! An outlet that knows what may be put to it.

use judge_engine::outlet::{Failed, Outlet};

/// An outlet for one text. It takes all bytes, and no memory.
#[derive(Drop)]
pub(crate) struct Page {
    /// What is left of the text, if it began with what was put.
    left: Option<&'static [u8]>,
}

impl Page {
    /// An outlet for this text, to which nothing was put.
    pub(crate) fn new(text: &'static [u8]) -> Page {
        Page { left: Some(text) }
    }

    /// Whether the text was put, whole.
    pub(crate) fn is_whole(&self) -> bool {
        match self.left {
            Some(left) => left.is_empty(),
            None => false,
        }
    }
}

impl Outlet for Page {
    ghost use Rattle.std.specs.Prelude.{None, false};

    ghost taken = { λ _. None };

    ghost failed = { λ _. false };

    fn put(&mut self, bytes: &[u8]) -> Result<usize, Failed> {
        self.left = match self.left {
            Some(left) => left.strip_prefix(bytes),
            None => None,
        };
        Ok(bytes.len())
    }

    fn has_failed(&self) -> bool {
        false
    }
}
