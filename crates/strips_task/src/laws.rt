//! What `==` on plans says, in words that know nothing of how plans are kept.
//!
//! Each function does nothing: its contract is the law.
ghost use Rattle.std.specs.Prelude.{◌≡◌, ◌↔◌, IsTrue};
ghost use Rattle.strips_task.specs.Plans.{plan_eq};

use crate::Plan;

/// Two plans are equal exactly where they are the same: the same steps in the same order, or the same line of a fault.
pub fn equal_plans_are_the_same(first: &Plan, second: &Plan)
    ensures { IsTrue (plan_eq first.now second.now) ↔ (first.now ≡ second.now) }
{}
