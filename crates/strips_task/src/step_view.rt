//! A view of one step of a plan, which copies nothing.
ghost use Rattle.std.specs.Prelude.{◌≡◌, ◌<◌, ◌≤◌, length, slice_get, slice_range, Some};

use crate::WordList;

/// A view of one step of a plan, which copies nothing.
#[derive(Clone, Copy)]
pub struct StepView<'a> {
    words: &'a WordList,
    first: usize,
    end: usize,
    ghost not_empty: { first < end },
    ghost within: { end ≤ length words.now },
}

impl<'a> StepView<'a> {
    ghost use Rattle.strips_task.specs.StepView.{step_shown};
    ghost use Rattle.strips_task.specs.Steps.{step_of};

    /// A view of the words from the index `first` up to but not including `end`, at least one.
    pub(crate) fn new(words: &'a WordList, first: usize, end: usize) -> Self
        requires not_empty { first < end }
        requires within { end ≤ length words.now }
        ensures { step_shown result ≡ step_of (slice_range words.now first end) }
    {
        StepView { words, first, end }
    }

    /// The action's name, in lower case.
    pub fn action(&self) -> &'a [u8]
        ensures { result.now ≡ (step_shown self.now).action }
    {
        self.words.get(self.first)
    }

    /// How many arguments the step has.
    pub fn arg_count(&self) -> usize
        ensures { result ≡ length (step_shown self.now).args }
    {
        self.end - self.first - 1
    }

    /// The name of the argument with an index, counted from 0, in lower case.
    pub fn arg(&self, index: usize) -> &'a [u8]
        requires { index < length (step_shown self.now).args }
        ensures { slice_get (step_shown self.now).args index ≡ Some result.now }
    {
        self.words.get(self.end - (self.arg_count() - index))
    }
}
