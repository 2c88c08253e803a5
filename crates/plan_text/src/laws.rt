//! What the definition of the plan of a text means, stated without how it is read.
//!
//! Each function does nothing: its contract is the law.

ghost use Rattle.std.specs.Prelude.{◌≡◌};
ghost use Rattle.strips_task.specs.declared.plans.Plan.{Plan};
ghost use Rattle.plan_text.specs.PlanReading.{plan_of};
ghost use Rattle.plan_text.specs.PlanFaults.{IsPlanOf};

/// The plan of a text is the one that the text stands for: its steps if its tokens are those of steps, and otherwise the line of the first
/// fault. That is the first bad byte, the first token that no plan text can have after the tokens before it, or the end of a text
/// that ends too early.
#[tactic(auto, using(crate::proofs::PlanLaws::plan_is_of))]
pub fn plan_is_meant(text: &[u8])
    ensures { IsPlanOf text.now (plan_of text.now) }
{}

/// A text stands for no other plan.
#[tactic(auto, using(crate::proofs::OnlyPlan::only_plan))]
pub fn no_other_plan_is_meant(text: &[u8])
    ensures { (plan : Plan) → IsPlanOf text.now plan → plan ≡ plan_of text.now }
{}
