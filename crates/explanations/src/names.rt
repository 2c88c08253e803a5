//! The known name that is nearest to one that is not known.

use std::alloc::{AllocError, Global};
use strsim::osa_distance;

/// Names of more than this many bytes are not compared.
const LONGEST: usize = 64;

/// How much work may be done for all hints of an explanation, so that many unknown names among many known ones take bounded time. Each name
/// that is considered costs 1, and each one that is compared costs [`COMPARING`] more.
const MOST_WORK: usize = 20_000_000;

/// What it costs to compare two names.
const COMPARING: usize = 30;

/// What a search for a near name has found so far.
#[derive(Clone, Copy)]
pub(crate) struct Nearest<'a> {
    wanted: &'a [u8],
    /// The nearest name so far and its distance.
    found: Option<(&'a [u8], usize)>,
}

/// How much work may still be done for hints.
#[derive(Drop)]
pub(crate) struct Budget {
    left: usize,
}

impl Budget {
    pub(crate) fn new() -> Self {
        Budget { left: MOST_WORK }
    }

    /// Takes `work`, if that much is left.
    pub(crate) fn take(&mut self, work: usize) -> bool {
        if self.left < work {
            return false;
        }
        self.left -= work;
        true
    }
}

impl<'a> Nearest<'a> {
    /// A search for a name, which has found nothing yet.
    pub(crate) fn to(wanted: &'a [u8]) -> Self {
        Nearest {
            wanted,
            found: None,
        }
    }

    /// The nearest name, if it is near.
    pub(crate) fn name(&self) -> Option<&'a [u8]> {
        match self.found {
            Some((name, _)) => Some(name),
            None => None,
        }
    }

    /// Considers a known name.
    pub(crate) fn look_at(
        &mut self,
        alloc: Global,
        budget: &mut Budget,
        name: &'a [u8],
    ) -> Result<(), AllocError> {
        if !budget.take(1) || !self.may_be_near(name) || !budget.take(COMPARING) {
            return Ok(());
        }
        let distance = distance(alloc, self.wanted, name)?;
        if distance < self.limit() {
            self.found = Some((name, distance));
        }
        Ok(())
    }

    /// A name at this distance or more is not taken.
    fn limit(&self) -> usize {
        match self.found {
            Some((_, distance)) => distance,
            None => (self.wanted.len() / 3).max(1).saturating_add(1),
        }
    }

    /// Whether a name may be near, by its length.
    fn may_be_near(&self, name: &[u8]) -> bool {
        let size = self.wanted.len();
        size <= LONGEST
            && name.len() <= LONGEST
            && name.len().max(size).saturating_sub(name.len().min(size)) < self.limit()
    }
}

/// How many edits turn one name into another, in lower case: bytes inserted, removed or replaced, and neighbors swapped.
fn distance(alloc: Global, name: &[u8], other: &[u8]) -> Result<usize, AllocError> {
    let name = folded(alloc, name)?;
    let other = folded(alloc, other)?;
    osa_distance(alloc, name.as_str(), other.as_str())
}

/// A name in lower case, without bytes that are not ASCII.
fn folded(alloc: Global, name: &[u8]) -> Result<String, AllocError> {
    let mut text = String::new(alloc);
    for byte in name {
        if byte.is_ascii() {
            text.push(char::from(byte.to_ascii_lowercase()))?;
        }
    }
    Ok(text)
}
