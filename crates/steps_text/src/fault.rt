//! What is wrong with a steps file, and where.
ghost use Rattle.std.specs.Prelude.{◌≡◌};
ghost use Rattle.steps_text.specs.Faults.{fault_word};

/// What is wrong with a line of steps.
#[derive(Clone, Copy, Debug, Drop, PartialEq, Eq)]
pub enum StepsFaultKind {
    /// The line has none of the forms that may appear there, or the first line, which says how large the intake is, is missing.
    Expected,
    /// The intake would have too many planners or slots, or there is one step too many.
    TooMany,
}

/// The first fault of a steps file.
#[derive(Clone, Copy, Debug, Drop, PartialEq, Eq)]
pub struct StepsFault {
    /// What is wrong.
    pub kind: StepsFaultKind,
    /// The line of the fault, counted from 1.
    pub line: u32,
}

impl StepsFaultKind {
    /// The kind in one word, as a message prints it. Takes no memory.
    pub fn word(self) -> &'static str
        ensures { result.now ≡ fault_word self }
    {
        match self {
            StepsFaultKind::Expected => "Expected",
            StepsFaultKind::TooMany => "TooMany",
        }
    }
}
