//! The owner of a bench at work, with the findings that it emitted.
ghost use Rattle.std.specs.Prelude.{◌≡◌, ◌<◌, ◌≤◌, ◌+◌, ℕ, List, [], All, IfOk, OnOk, OnErr, length, map, replicate, false, slice_index};
ghost use Rattle.bench_rule.specs.Views.{HoldsJob, with_finished, with_handed_back, with_posted};
ghost use Rattle.intake_rules.specs.Intake.{jobs_of};
ghost use Rattle.judge_bench.specs.Findings.{by_planner};
ghost use Rattle.intake_rules.specs.Findings.{right_finding};
ghost use Rattle.judge_bench.specs.Keeping.{AcceptsAll, AllKnown, KeptFindings, KeptNext, NoneWaits, OnlyAccepts, OnlyEmits, with_all_closed, with_more_finished};
ghost use Rattle.judge_bench.specs.Bookkeeping.{Numbered};
ghost use Rattle.judge_bench.specs.Seats.{SitsAt};
ghost use Rattle.judge_bench.specs.Submissions.{job_of};

use crate::{Bench, Findings, Intake, Owner, Submission, Ticket};
use intake_rules::Finding;
use plan_cost::CostedTask;
use std::alloc::{AllocError, Global};
use text_judge::{MOST_JUDGES, TextJudge};

/// The owner of a bench, and the findings that it emitted.
#[derive(Drop)]
pub(crate) struct Collector {
    pub(crate) owner: Owner,
    pub(crate) findings: Findings,
}

impl Collector {
    /// Accepts all plans that are to come. Findings that are made meanwhile stay in the slots: reading a slot that a worker may be writing costs as
    /// much as reading a short plan.
    pub(crate) fn accept_all<I: Intake>(
        &mut self,
        bench: &Bench,
        intake: &mut I,
    ) -> Result<(), AllocError>
        requires seat { SitsAt bench.now self.old.owner }
        requires open { self.old.owner.view.closed ≡ replicate bench.now.setting.planners false }
        requires known { All (λ plan. plan.planner < bench.now.setting.planners) (I.to_come intake.old) }
        requires room { length self.old.owner.view.jobs + length (I.to_come intake.old) ≤ bench.now.setting.slots }
        requires kept { KeptFindings bench.now.setting.task.value bench.now.setting.planners self.old.owner.view self.old.findings }
        ensures seat { SitsAt bench.now self.new.owner }
        ensures jobs { OnOk result (AcceptsAll (I.to_come intake.old) self.old.owner.view self.new.owner.view) }
        ensures others { OnOk result (OnlyAccepts self.old.owner.view self.new.owner.view) }
        ensures kept { OnOk result (KeptFindings bench.now.setting.task.value bench.now.setting.planners self.new.owner.view self.new.findings) }
    {
        while let Some(submission) = intake.next()? {
            self.accept(bench, submission);
        }
        Ok(())
    }

    /// Accepts a plan.
    fn accept(&mut self, bench: &Bench, submission: Submission)
        requires seat { SitsAt bench.now self.old.owner }
        requires open { self.old.owner.view.closed ≡ replicate bench.now.setting.planners false }
        requires planner { submission.planner < bench.now.setting.planners }
        requires room { length self.old.owner.view.jobs < bench.now.setting.slots }
        ensures seat { SitsAt bench.now self.new.owner }
        ensures view { self.new.owner.view ≡ with_posted self.old.owner.view (job_of (length self.old.owner.view.jobs) submission) }
        ensures findings { self.new.findings ≡ self.old.findings }
    {
        let Submission { planner, plan } = submission;
        match self.owner.submit(bench, planner, plan) {
            Ok(_) => {}
            Err(_) => unreachable!(),
        }
    }

    /// Emits the next finding of a planner, if it is there, and keeps it.
    fn keep_next(&mut self, bench: &Bench, planner: u32) -> Result<bool, AllocError>
        requires seat { SitsAt bench.now self.old.owner }
        requires planner { planner < bench.now.setting.planners }
        requires kept { KeptFindings bench.now.setting.task.value bench.now.setting.planners self.old.owner.view self.old.findings }
        ensures seat { SitsAt bench.now self.new.owner }
        ensures view { IfOk result (λ found. KeptNext planner found self.old.owner.view self.new.owner.view) }
        ensures kept { OnOk result (KeptFindings bench.now.setting.task.value bench.now.setting.planners self.new.owner.view self.new.findings) }
    {
        match self.owner.emit(bench, planner) {
            Ok(finding) => {
                self.findings.push(finding)?;
                Ok(true)
            }
            Err(_) => Ok(false),
        }
    }

    /// Closes all planners.
    pub(crate) fn close_all(&mut self, bench: &Bench, planners: u32)
        requires seat { SitsAt bench.now self.old.owner }
        requires open { self.old.owner.view.closed ≡ replicate planners false }
        ensures seat { SitsAt bench.now self.new.owner }
        ensures view { self.new.owner.view ≡ with_all_closed self.old.owner.view }
        ensures findings { self.new.findings ≡ self.old.findings }
    {
        for planner in 0..planners {
            match self.owner.close(bench, planner) {
                Ok(()) => {}
                Err(_) => unreachable!(),
            }
        }
    }

    /// Judges what the workers left, and keeps all findings that were not kept yet.
    pub(crate) fn finish(
        self,
        alloc: Global,
        bench: &Bench,
        task: &CostedTask,
        planners: u32,
    ) -> Result<Findings, AllocError>
        requires seat { SitsAt bench.now self.owner }
        requires setting { (bench.now.setting.task.value ≡ task.now) × (bench.now.setting.planners ≡ planners) }
        requires alone { (self.owner.view.seats_out ≡ 0) × (self.owner.view.held ≡ []) }
        requires jobs { Numbered self.owner.view.jobs }
        requires kept { KeptFindings task.now planners self.owner.view self.findings }
        ensures { IfOk result (λ findings. findings ≡ by_planner planners (map (right_finding task.now) self.owner.view.jobs)) }
    {
        let mut collector = self;
        judge_left(alloc, bench, &mut collector.owner, task)?;
        for planner in 0..planners {
            collector.keep_all_of(bench, planner)?;
        }
        Ok(collector.findings)
    }

    /// Keeps all findings of a planner that were not kept yet.
    fn keep_all_of(&mut self, bench: &Bench, planner: u32) -> Result<(), AllocError>
        requires seat { SitsAt bench.now self.old.owner }
        requires planner { planner < bench.now.setting.planners }
        requires known { AllKnown self.old.owner.view }
        requires kept { KeptFindings bench.now.setting.task.value bench.now.setting.planners self.old.owner.view self.old.findings }
        ensures seat { SitsAt bench.now self.new.owner }
        ensures view { OnOk result (OnlyEmits planner self.old.owner.view self.new.owner.view) }
        ensures all { OnOk result (slice_index self.new.owner.view.emitted planner ≡ length (jobs_of planner self.new.owner.view.jobs)) }
        ensures kept { OnOk result (KeptFindings bench.now.setting.task.value bench.now.setting.planners self.new.owner.view self.new.findings) }
    {
        while self.keep_next(bench, planner)? {}
        Ok(())
    }
}

/// The owner judges all jobs that wait, with a judge of its own.
fn judge_left(
    alloc: Global,
    bench: &Bench,
    owner: &mut Owner,
    task: &CostedTask,
) -> Result<(), AllocError>
    requires seat { SitsAt bench.now owner.old }
    requires task { bench.now.setting.task.value ≡ task.now }
    requires alone { owner.old.view.seats_out ≡ 0 }
    ensures seat { SitsAt bench.now owner.new }
    ensures view { OnOk result ((more : List ℕ) × (owner.new.view ≡ with_more_finished owner.old.view more)) }
    ensures none_waits { OnOk result (NoneWaits owner.new.view) }
{
    let mut judge = TextJudge::new(alloc, task, MOST_JUDGES)?;
    judge_rest(alloc, bench, owner, &mut judge)
}

/// The owner has all jobs that wait judged by this judge.
fn judge_rest(
    alloc: Global,
    bench: &Bench,
    owner: &mut Owner,
    judge: &mut TextJudge<'_>,
) -> Result<(), AllocError>
    requires seat { SitsAt bench.now owner.old }
    requires task { bench.now.setting.task.value ≡ judge.old }
    requires alone { owner.old.view.seats_out ≡ 0 }
    ensures seat { SitsAt bench.now owner.new }
    ensures view { (more : List ℕ) × (owner.new.view ≡ with_more_finished owner.old.view more) }
    ensures none_waits { OnOk result (NoneWaits owner.new.view) }
{
    while let Some(ticket) = owner.take_own(bench) {
        judge_own(alloc, bench, owner, ticket, judge)?;
    }
    Ok(())
}

/// The owner judges a job that it took and finishes it. If memory runs out, the job is handed back.
fn judge_own(
    alloc: Global,
    bench: &Bench,
    owner: &mut Owner,
    ticket: Ticket,
    judge: &mut TextJudge<'_>,
) -> Result<(), AllocError>
    requires seat { SitsAt bench.now owner.old }
    requires ticket { HoldsJob ticket.slot ticket.job owner.old.view.held }
    requires task { bench.now.setting.task.value ≡ judge.old }
    ensures seat { SitsAt bench.now owner.new }
    ensures task { judge.new ≡ judge.old }
    ensures finished { OnOk result (owner.new.view ≡ with_finished owner.old.view ticket.slot) }
    ensures count { OnOk result (length owner.new.view.finished ≤ bench.now.setting.slots) }
    ensures handed_back { OnErr result (owner.new.view ≡ with_handed_back owner.old.view ticket.slot) }
{
    match Finding::judge_by(alloc, judge, ticket.job()) {
        Ok(finding) => {
            owner.finish_own(bench, ticket, finding);
            Ok(())
        }
        Err(AllocError) => {
            owner.hand_back_own(bench, ticket);
            Err(AllocError)
        }
    }
}
