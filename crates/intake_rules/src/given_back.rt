//! What an intake gives back with a refusal.
use crate::{Finding, Refusal, SubmittedPlan};

/// A plan that was not accepted.
#[derive(Drop)]
pub struct SubmitRefused {
    /// Why not.
    pub refusal: Refusal,
    /// The plan that was handed in.
    pub plan: SubmittedPlan,
}

/// A finding that was not stored.
#[derive(Drop)]
pub struct FinishRefused {
    /// Why not.
    pub refusal: Refusal,
    /// The finding that was handed in.
    pub finding: Finding,
}
