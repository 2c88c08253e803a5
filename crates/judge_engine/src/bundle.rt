//! The file of a planner.
ghost use Rattle.std.specs.Prelude.{◌≡◌, ◌≤◌, length, slice_range, IfOk};
ghost use Rattle.plan_text.specs.PlanReading.{plan_of};

use intake_rules::{SharedText, SubmittedPlan};
use std::alloc::AllocError;
use std::marker::Model;
use std::sync::Arc;

/// A planner's name and the bytes of its file. Contracts see the two lists of bytes.
pub struct Bundle {
    /// The planner's name, as reports show it.
    pub name: String,
    /// The bytes of its file, which its plans share.
    pub bytes: Arc<Vec<u8>>,
}

impl Drop for Bundle {
    fn drop(self) {
        let Self { name: _, bytes: _ } = self;
    }
}

impl Model for Bundle {
    ghost use Rattle.std.specs.Arc.{arc_value};
    ghost use Rattle.std.specs.String.{string_bytes};
    ghost use Rattle.judge_engine.specs.Bundle.{BundleValue};

    ghost Value = { BundleValue };

    ghost view = { λ b. record { name = string_bytes b.name; bytes = (arc_value b.bytes).items } };
}

impl Bundle {
    /// The planner's name.
    pub fn name(&self) -> &[u8]
        ensures { result.now ≡ self.now.name }
    {
        self.name.as_bytes()
    }

    /// The bytes of the file.
    pub fn bytes(&self) -> &[u8]
        ensures { result.now ≡ self.now.bytes }
    {
        self.bytes.as_slice()
    }

    /// The plan of the bytes from `start` up to but not including `end`. Its text is not read yet. Copies nothing; the only error is that the bytes
    /// have too many owners.
    pub fn plan(&self, start: u32, end: u32) -> Result<SubmittedPlan, AllocError>
        requires ordered { start ≤ end }
        requires within { end ≤ length self.now.bytes }
        ensures { IfOk result (λ plan. plan ≡ plan_of (slice_range self.now.bytes start end)) }
    {
        let bytes = Arc::try_clone(&self.bytes)?;
        Ok(SubmittedPlan::from_text(SharedText::new(bytes, start, end)))
    }
}
