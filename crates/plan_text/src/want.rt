//! What may come next in a plan text.

ghost use Rattle.std.specs.Prelude.{◌≡◌};
ghost use Rattle.plan_text.specs.Wants.{takes_name};

/// What may come next.
#[derive(Clone, Copy, PartialEq, Eq)]
pub(crate) enum Want {
    /// A step, or the end.
    Step,
    /// The bracketed number of the step that just ended, another step, or the end.
    Number,
    /// The `(` of a step whose stamp was read.
    Opening,
    /// The name of an action.
    Action,
    /// The name of an object, or the end of the step.
    Argument,
}

impl Want {
    /// Whether a name may come.
    pub(crate) fn takes_name(self) -> bool
        ensures { result ≡ takes_name self }
    {
        matches!(self, Want::Action | Want::Argument)
    }
}

/// What may come next, and how large the next stamp must be.
#[derive(Clone, Copy, PartialEq, Eq)]
pub(crate) struct Expected {
    pub(crate) want: Want,
    /// The least value of the next stamp, in billionths: one more than that of the last stamp, and 0 before the first.
    pub(crate) least_stamp: u64,
}

impl Expected {
    /// The same, except for what may come next.
    pub(crate) fn then(self, want: Want) -> Expected
        ensures { result ≡ record self { want = want } }
    {
        Expected { want, ..self }
    }
}
