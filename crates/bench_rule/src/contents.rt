//! The contents of slots.
ghost use Rattle.std.specs.Prelude.{◌≡◌};

use intake_rules::{Finding, Job};

/// What lies in a slot.
#[derive(Drop)]
pub enum Item {
    /// Nothing: the slot is unused, somebody works on it, or its finding was emitted.
    Nothing,
    /// The job of the slot, which nobody judges.
    Waiting(Job),
    /// The finding of the job, which was not emitted yet.
    Done(Finding),
}

/// The job in the slot, which is known to hold one.
pub(crate) fn job_in(content: Item) -> Job
    requires { (job : _) × (content ≡ Item.Waiting job) }
    ensures { content ≡ Item.Waiting result }
{
    match content {
        Item::Waiting(job) => job,
        Item::Done(_) => unreachable!(),
        Item::Nothing => unreachable!(),
    }
}

/// The finding in the slot, which is known to hold one.
pub(crate) fn finding_in(content: Item) -> Finding
    requires { (finding : _) × (content ≡ Item.Done finding) }
    ensures { content ≡ Item.Done result }
{
    match content {
        Item::Done(finding) => finding,
        Item::Waiting(_) => unreachable!(),
        Item::Nothing => unreachable!(),
    }
}
