//! What a plan costs.

/// What a plan costs.
#[derive(Clone, Copy, PartialEq, Eq)]
pub enum Cost {
    /// The domain declares no `total-cost`, or the plan is not valid.
    NotCounted,
    /// A step adds the value of a function to which the problem gives none.
    Undefined,
    /// The initial value of `total-cost` and all that the steps add to it, in billionths.
    Billionths(u128),
}
