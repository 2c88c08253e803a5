//! A plan as it was handed in.
ghost use Rattle.std.specs.Arc.{arc_value};
ghost use Rattle.std.specs.Prelude.{◌≡◌, IfOk, IfSome, Some};
ghost use Rattle.plan_cost.specs.Assessments.{assessment};
ghost use Rattle.plan_cost.specs.CompactCosts.{IsCompact};
ghost use Rattle.plan_text.specs.PlanReading.{plan_of};
ghost use Rattle.plan_text.specs.StepAt.{step_at};
ghost use Rattle.strips_task.specs.Plans.{plan_eq};
ghost use Rattle.strips_task.specs.Spelled.{IsSpelled, step_spelled};

use crate::SharedText;
use plan_cost::{Assessment, assess};
use plan_text::{is_plan_of, same_plans};
use std::alloc::{AllocError, Global};
use std::marker::Model;
use std::sync::Arc;
use strips_task::Plan;
use text_judge::{Assessed, StepPlace, TextJudge};

/// A plan that was handed in. Contracts see its content, however it is kept.
pub struct SubmittedPlan {
    kept: KeptPlan,
    /// Where a step of the text is written, once a judge has said so: the one at which the plan fails.
    place: Option<StepPlace>,
}

impl Drop for SubmittedPlan {
    fn drop(self) {
        let Self { kept: _, place: _ } = self;
    }
}

/// What is kept of a plan.
#[derive(Drop)]
enum KeptPlan {
    /// The plan, which may have other owners as well.
    Read(Arc<Plan>),
    /// Its text, which was not read.
    Text(SharedText),
}

/// A plan in the form in which it is kept.
#[derive(Clone, Copy)]
pub enum PlanForm<'a> {
    /// The plan itself.
    Read(&'a Plan),
    /// The text whose plan it is.
    Text(&'a [u8]),
}

impl Model for SubmittedPlan {
    ghost use Rattle.std.specs.Prelude.{IfSome};
    ghost use Rattle.strips_task.specs.declared.plans.Plan.{Plan};
    ghost use Rattle.intake_rules.specs.Contents.{content, IsPlaceOf};

    ghost Value = { Plan };

    ghost view = { λ plan. content plan.kept };

    ghost invariant = { λ plan. IfSome plan.place (IsPlaceOf plan.kept) };
}

impl SubmittedPlan {
    ghost use Rattle.intake_rules.specs.Contents.{content_shown};

    /// A plan that was read.
    pub fn from_plan(plan: Arc<Plan>) -> SubmittedPlan
        ensures { result ≡ arc_value plan }
    {
        SubmittedPlan {
            kept: KeptPlan::Read(plan),
            place: None,
        }
    }

    /// The plan of a text, which is not read now.
    pub fn from_text(text: SharedText) -> SubmittedPlan
        ensures { result ≡ plan_of text }
    {
        SubmittedPlan {
            kept: KeptPlan::Text(text),
            place: None,
        }
    }

    /// The plan or its text, whichever is kept. Takes no memory, and reads nothing.
    pub fn form(&self) -> PlanForm<'_>
        ensures { content_shown result ≡ self.now }
    {
        match &self.kept {
            KeptPlan::Read(plan) => PlanForm::Read(plan),
            KeptPlan::Text(text) => PlanForm::Text(text.as_slice()),
        }
    }

    /// The row of names that spells the step with an index, counted from 0, if it is known where this step is written. That of the step at which a plan
    /// fails mostly is, once the plan was judged as its text; `None` says nothing. Takes no memory, and reads nothing.
    pub fn row_of_step(&self, index: usize) -> Option<&[u8]>
        ensures { IfSome result (λ row. IsSpelled row.now × (step_at self.now index ≡ Some (step_spelled row.now))) }
    {
        match (&self.kept, &self.place) {
            (KeptPlan::Text(text), Some(place)) if place.index as usize == index => {
                Some(&text.as_slice()[place.start as usize..place.end as usize])
            }
            _ => None,
        }
    }

    /// Judges the plan, and adds up what it costs. If its text is judged, and the judge says where the step is written at which it fails, this place is kept
    /// beside the text.
    pub(crate) fn assess_by(
        &mut self,
        alloc: Global,
        judge: &mut TextJudge<'_>,
    ) -> Result<Assessment, AllocError>
        ensures answer { IfOk result (λ answer. answer ≡ assessment judge.old self.old) }
        ensures compact { IfOk result (λ answer. IsCompact answer.cost) }
        ensures task { judge.new ≡ judge.old }
        ensures plan { self.new ≡ self.old }
    {
        match &self.kept {
            KeptPlan::Read(plan) => assess(alloc, judge.task(), plan),
            KeptPlan::Text(text) => {
                let Assessed { assessment, place } = judge.assess(alloc, text.as_slice())?;
                self.place = place;
                Ok(assessment)
            }
        }
    }

    /// Whether two plans are the same, however each is kept. Takes no memory. Texts are read unless their bytes are the same.
    pub fn is_same(&self, other: &SubmittedPlan) -> bool
        ensures { result ≡ plan_eq self.now other.now }
    {
        match (self.form(), other.form()) {
            (PlanForm::Read(plan), PlanForm::Read(other)) => *plan == *other,
            (PlanForm::Read(plan), PlanForm::Text(text)) => is_plan_of(plan, text),
            (PlanForm::Text(text), PlanForm::Read(plan)) => is_plan_of(plan, text),
            (PlanForm::Text(text), PlanForm::Text(other)) => same_plans(text, other),
        }
    }

    /// The same plan with one more owner, and with the place that is known. Copies nothing; the only error is too many owners.
    pub fn try_clone(&self) -> Result<SubmittedPlan, AllocError>
        ensures { IfOk result (λ plan. plan ≡ self.now) }
    {
        match &self.kept {
            KeptPlan::Read(plan) => Ok(SubmittedPlan::from_plan(Arc::try_clone(plan)?)),
            KeptPlan::Text(text) => Ok(SubmittedPlan {
                kept: KeptPlan::Text(text.try_clone()?),
                place: self.place,
            }),
        }
    }
}
