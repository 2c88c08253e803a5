//! The desk: each call asks first whether the rules refuse it, and only then changes the tables.
ghost use Rattle.std.specs.Arc.{arc_value};
ghost use Rattle.std.specs.Option.{option_copied};
ghost use Rattle.std.specs.Prelude.{◌≡◌, ◌≤◌, ◌<◌, ◌++◌, ◌∷◌, [], ℕ, length, slice_get, Option, None, Some, true, false, IfOk, IfErr, MatchOption, MatchResult, vec_len, vec_capacity, IfSome, slice_set};
ghost use Rattle.bit_rows.specs.Rows.{row_has};
ghost use Rattle.intake_rules.specs.Findings.{IsRight};
ghost use Rattle.intake_rules.specs.Intake.{next_job, with_job, with_stage, with_closed, with_emitted, empty_intake};
ghost use Rattle.intake_rules.specs.Rules.{submit, close, take_job, hand_back, finish, emit, submit_refusal, close_refusal, hand_back_refusal, finish_refusal, emit_reply};
ghost use Rattle.intake_rules.specs.Answers.{submit_reply, close_reply, take_reply, hand_back_reply, finish_reply, emit_answer};
ghost use Rattle.intake_core.specs.Histories.{GoesOn, Leaves};
ghost use Rattle.intake_core.specs.Rows.{jobs_in, stages_in, links_in, linked, rests_at, IsLeastBit, IsReady};
ghost use Rattle.intake_core.specs.State.{DeskState, with_intake, desk_after, desk_reply};

use crate::slot::{Planner, Slot};
use crate::{FinishRefused, SubmitRefused};
use bit_rows::{clear_bit, least_bit, set_bit};
use intake_rules::{Finding, Job, Refusal, Reply, Stage, SubmittedPlan};
use plan_cost::CostedTask;
use std::alloc::{AllocError, Global};
use std::marker::Model;
use std::mem;
use std::snapshot::Snapshot;
use std::sync::Arc;
use strips_judge::Plan;

/// How many words have a bit for each of the 65,536 slots that a desk can have.
const WAITING_WORDS: usize = 1024;

/// The desk of one thread. Contracts see its task, the number of its slots, and what it knows.
pub struct Desk {
    task: Snapshot<CostedTask>,
    limit: u32,
    table: Vec<Slot>,
    planners: Vec<Planner>,
    /// For each slot a bit, which is set while the job of the slot waits.
    waiting: [u64; WAITING_WORDS],
}

impl Drop for Desk {
    fn drop(self) {
        let Self {
            task: _,
            limit: _,
            table: _,
            planners: _,
            waiting: _,
        } = self;
    }
}

impl Model for Desk {
    ghost use Rattle.std.specs.Prelude.{◌≤◌, vec_capacity};
    ghost use Rattle.intake_core.specs.State.{DeskState};

    ghost Value = { DeskState };

    ghost use Rattle.formulas.specs.contracts.effect.Effect as effect;
    ghost use Rattle.formulas.specs.contracts.formula.Formula as formula;
    ghost use Rattle.std.specs.Coded.{codes};

    ghost coded = { Prim.hlevel (codes, formula.the_row.coded, effect.the_row.coded) };

    ghost use Rattle.intake_core.specs.Rows.{intake_in, IsKeptIn};

    ghost view = { λ desk. record { task = desk.task.value; slots = desk.limit; intake = intake_in desk.table.items desk.planners.items } };

    ghost invariant = { λ desk. IsKeptIn desk.task.value desk.limit desk.table.items desk.planners.items desk.waiting × (desk.limit ≤ vec_capacity desk.table) };
}

impl Desk {
    /// A new desk for `planners` planners, for at most `slots` plans. Takes all the memory that it will use: a row for each slot and for each planner.
    pub fn make(
        alloc: Global,
        task: &CostedTask,
        planners: u32,
        slots: u32,
    ) -> Result<Desk, AllocError>
        requires planners { planners ≤ 64 }
        requires slots { slots ≤ 65536 }
        ensures state { IfOk result (λ desk. desk ≡ record { task = task.now; slots = slots; intake = empty_intake planners }) }
        ensures history { IfOk result (λ desk. Leaves planners [] desk) }
    {
        let open = Planner {
            closed: false,
            emitted: 0,
            next: None,
            last: None,
        };
        Ok(Desk {
            task: Snapshot::of(task),
            limit: slots,
            table: Vec::with_capacity(alloc, slots as usize)?,
            planners: vec![in alloc; open; planners as usize]?,
            waiting: [0; WAITING_WORDS],
        })
    }

    /// The accepted job with this number, if there is one.
    pub fn job(&self, number: u32) -> Option<&Job>
        ensures { option_copied result ≡ slice_get self.now.intake.jobs number }
    {
        match self.table.get(number as usize) {
            Some(slot) => Some(&slot.job),
            None => None,
        }
    }

    /// Accepts a plan as a job. Its number is the count of jobs that were accepted before.
    pub fn submit(&mut self, planner: u32, plan: Arc<Plan>) -> Result<u32, SubmitRefused>
        ensures reply { submit_reply result ≡ desk_reply self.old (submit planner (arc_value plan)) }
        ensures state { self.new ≡ desk_after self.old (submit planner (arc_value plan)) (submit_reply result) }
        ensures history { GoesOn self.old self.new (submit planner (arc_value plan)) (submit_reply result) }
        ensures plan { IfErr result (λ refused. refused.plan ≡ arc_value plan) }
    {
        let plan = SubmittedPlan::from_plan(plan);
        match self.submit_refusal(planner) {
            Some(refusal) => Err(SubmitRefused { refusal, plan }),
            None => Ok(self.accept(planner, plan)),
        }
    }

    /// Closes a planner: no more plans of it are accepted.
    pub fn close(&mut self, planner: u32) -> Result<(), Refusal>
        ensures reply { close_reply result ≡ desk_reply self.old (close planner) }
        ensures state { self.new ≡ desk_after self.old (close planner) (close_reply result) }
        ensures history { GoesOn self.old self.new (close planner) (close_reply result) }
    {
        match self.close_refusal(planner) {
            Some(refusal) => Err(refusal),
            None => {
                self.mark_closed(planner);
                Ok(())
            }
        }
    }

    /// Gives out the least job that waits, by its number, to be judged.
    pub fn take(&mut self) -> Option<u32>
        ensures reply { take_reply result ≡ desk_reply self.old take_job }
        ensures state { self.new ≡ desk_after self.old take_job (take_reply result) }
        ensures history { GoesOn self.old self.new take_job (take_reply result) }
    {
        let number = least_waiting(&self.waiting)?;
        clear_bit(&mut self.waiting, number as usize);
        set_stage(&mut self.table, number, Stage::Out);
        Some(number)
    }

    /// Takes back a job that was given out. It waits again.
    pub fn hand_back(&mut self, job: u32) -> Result<(), Refusal>
        ensures reply { hand_back_reply result ≡ desk_reply self.old (hand_back job) }
        ensures state { self.new ≡ desk_after self.old (hand_back job) (hand_back_reply result) }
        ensures history { GoesOn self.old self.new (hand_back job) (hand_back_reply result) }
    {
        match self.out_refusal(job) {
            Some(refusal) => Err(refusal),
            None => {
                self.put_back(job);
                Ok(())
            }
        }
    }

    /// Stores the finding of a job that was given out.
    pub fn finish(&mut self, job: u32, finding: Finding) -> Result<(), FinishRefused>
        requires { IsRight self.old.task finding }
        ensures reply { finish_reply result ≡ desk_reply self.old (finish job (Some finding)) }
        ensures state { self.new ≡ desk_after self.old (finish job (Some finding)) (finish_reply result) }
        ensures history { GoesOn self.old self.new (finish job (Some finding)) (finish_reply result) }
        ensures finding { IfErr result (λ refused. refused.finding ≡ finding) }
    {
        match self.finish_refusal(job, &finding) {
            Some(refusal) => Err(FinishRefused { refusal, finding }),
            None => {
                self.store(job, finding);
                Ok(())
            }
        }
    }

    /// Emits a planner's next finding: that of its first job whose finding was not emitted yet.
    pub fn emit(&mut self, planner: u32) -> Result<Finding, Refusal>
        ensures reply { emit_answer result ≡ desk_reply self.old (emit planner) }
        ensures state { self.new ≡ desk_after self.old (emit planner) (emit_answer result) }
        ensures history { GoesOn self.old self.new (emit planner) (emit_answer result) }
        ensures right { IfOk result (λ finding. IsRight self.old.task finding) }
        ensures next { IfOk result (λ finding. next_job self.old.intake planner ≡ Some finding.job) }
    {
        match self.next_ready(planner) {
            Err(refusal) => Err(refusal),
            Ok(number) => Ok(self.give_out(planner, number)),
        }
    }

    /// Why a plan of a planner is not accepted.
    fn submit_refusal(&self, planner: u32) -> Option<Refusal>
        ensures { result ≡ submit_refusal self.now.slots self.now.intake planner }
    {
        match self.planners.get(planner as usize) {
            None => Some(Refusal::NoPlanner),
            Some(row) if row.closed => Some(Refusal::Closed),
            Some(_) if self.table.len() == self.limit as usize => Some(Refusal::Full),
            Some(_) => None,
        }
    }

    /// Why a planner is not closed.
    fn close_refusal(&self, planner: u32) -> Option<Refusal>
        ensures { result ≡ close_refusal self.now.intake planner }
    {
        match self.planners.get(planner as usize) {
            None => Some(Refusal::NoPlanner),
            Some(row) if row.closed => Some(Refusal::AlreadyClosed),
            Some(_) => None,
        }
    }

    /// Why a job is not handed back: there is no such job, or it is finished, or it is not out.
    fn out_refusal(&self, job: u32) -> Option<Refusal>
        ensures { result ≡ hand_back_refusal self.now.intake job }
    {
        match self.table.get(job as usize) {
            None => Some(Refusal::UnknownJob),
            Some(slot) => match &slot.stage {
                Stage::Waiting => Some(Refusal::NotOut),
                Stage::Out => None,
                Stage::Finished(_) | Stage::Emitted => Some(Refusal::AlreadyFinished),
            },
        }
    }

    /// Why a finding is not stored for a job.
    fn finish_refusal(&self, job: u32, finding: &Finding) -> Option<Refusal>
        ensures { result ≡ finish_refusal self.now.intake job finding.now }
    {
        match self.out_refusal(job) {
            Some(refusal) => Some(refusal),
            None if self.table[job as usize].job.is_same(&finding.job) => None,
            None => Some(Refusal::OtherPlan),
        }
    }

    /// Makes a job that is out wait again.
    fn put_back(&mut self, job: u32)
        requires { hand_back_refusal self.old.intake job ≡ None }
        ensures { self.new ≡ with_intake self.old (with_stage self.old.intake job Stage.Waiting) }
    {
        set_stage(&mut self.table, job, Stage::Waiting);
        set_bit(&mut self.waiting, job as usize);
    }

    /// Stores a right finding with its job.
    fn store(&mut self, job: u32, finding: Finding)
        requires accepted { finish_refusal self.old.intake job finding ≡ None }
        requires right { IsRight self.old.task finding }
        ensures { self.new ≡ with_intake self.old (with_stage self.old.intake job (Stage.Finished finding)) }
    {
        set_stage(&mut self.table, job, Stage::Finished(finding));
    }

    /// Accepts a plan that is not refused.
    fn accept(&mut self, planner: u32, plan: SubmittedPlan) -> u32
        requires { submit_refusal self.old.slots self.old.intake planner ≡ None }
        ensures number { result ≡ length self.old.intake.jobs }
        ensures state { self.new ≡ with_intake self.old (with_job self.old.intake planner plan) }
    {
        let number = self.table.len() as u32;
        let row = self.planners[planner as usize];
        self.planners[planner as usize] = row.joined(number);
        let slot = Slot {
            job: Job {
                number,
                planner,
                plan,
            },
            stage: Stage::Waiting,
            following: None,
        };
        link(&mut self.table, row.last, number);
        add(&mut self.table, slot);
        set_bit(&mut self.waiting, number as usize);
        number
    }

    /// Closes a planner that is open.
    fn mark_closed(&mut self, planner: u32)
        requires { close_refusal self.old.intake planner ≡ None }
        ensures { self.new ≡ with_intake self.old (with_closed self.old.intake planner) }
    {
        let row = self.planners[planner as usize];
        self.planners[planner as usize] = Planner {
            closed: true,
            ..row
        };
    }

    /// The number of the planner's next job, if it is finished.
    fn next_ready(&self, planner: u32) -> Result<u32, Refusal>
        ensures { MatchResult result (λ number. IsReady self.now.intake planner number) (λ refusal. emit_reply self.now.intake planner ≡ Reply.Refused refusal) }
    {
        match self.planners.get(planner as usize) {
            None => Err(Refusal::NoPlanner),
            Some(row) => match row.next {
                None if row.closed => Err(Refusal::Complete),
                None => Err(Refusal::NothingYet),
                Some(number) => {
                    if self.is_finished(number) {
                        Ok(number)
                    } else {
                        Err(Refusal::NotReady(number))
                    }
                }
            },
        }
    }

    /// Whether a job is finished and its finding was not emitted yet.
    fn is_finished(&self, number: u32) -> bool
        ensures { result ≡ rests_at self.now.intake number }
    {
        match self.table.get(number as usize) {
            Some(slot) => matches!(&slot.stage, Stage::Finished(_)),
            None => false,
        }
    }

    /// Gives out the finding of the planner's next job, which is finished.
    fn give_out(&mut self, planner: u32, number: u32) -> Finding
        requires { IsReady self.old.intake planner number }
        ensures reply { emit_reply self.old.intake planner ≡ Reply.Emitted result }
        ensures state { self.new ≡ with_intake self.old (with_emitted self.old.intake planner number) }
        ensures right { IsRight self.old.task result }
        ensures next { next_job self.old.intake planner ≡ Some result.job }
    {
        let row = self.planners[planner as usize];
        self.planners[planner as usize] = Planner {
            emitted: row.emitted + 1,
            next: self.table[number as usize].following,
            ..row
        };
        match replace_stage(&mut self.table, number, Stage::Emitted) {
            Stage::Finished(finding) => finding,
            Stage::Waiting | Stage::Out | Stage::Emitted => unreachable!(),
        }
    }
}

/// The least bit that is set in these words, if one is.
fn least_waiting(words: &[u64]) -> Option<u32>
    requires { length words.now ≤ 1024 }
    ensures { MatchOption result ((k : ℕ) → row_has words.now k ≡ false) (λ bit. IsLeastBit words.now bit) }
{
    for index in 0..words.len() {
        if words[index] != 0 {
            return Some(least_bit(words, index) as u32);
        }
    }
    None
}

/// Sets the stage of a job. Returns the one before.
fn replace_stage(table: &mut Vec<Slot>, job: u32, stage: Stage) -> Stage
    requires { job < vec_len table.old }
    ensures was { slice_get (stages_in table.old.items) job ≡ Some result }
    ensures jobs { jobs_in table.new.items ≡ jobs_in table.old.items }
    ensures stages { stages_in table.new.items ≡ slice_set (stages_in table.old.items) job stage }
    ensures links { links_in table.new.items ≡ links_in table.old.items }
    ensures len { vec_len table.new ≡ vec_len table.old }
    ensures capacity { vec_capacity table.new ≡ vec_capacity table.old }
{
    mem::replace(&mut table[job as usize].stage, stage)
}

/// Sets the stage of a job.
fn set_stage(table: &mut Vec<Slot>, job: u32, stage: Stage)
    requires { job < vec_len table.old }
    ensures jobs { jobs_in table.new.items ≡ jobs_in table.old.items }
    ensures stages { stages_in table.new.items ≡ slice_set (stages_in table.old.items) job stage }
    ensures links { links_in table.new.items ≡ links_in table.old.items }
    ensures len { vec_len table.new ≡ vec_len table.old }
    ensures capacity { vec_capacity table.new ≡ vec_capacity table.old }
{
    let _before = replace_stage(table, job, stage);
}

/// Links a planner's last job, if it has one, to the job that follows it.
fn link(table: &mut Vec<Slot>, last: Option<u32>, number: u32)
    requires { IfSome last (λ job. job < vec_len table.old) }
    ensures jobs { jobs_in table.new.items ≡ jobs_in table.old.items }
    ensures stages { stages_in table.new.items ≡ stages_in table.old.items }
    ensures links { links_in table.new.items ≡ linked (links_in table.old.items) last number }
    ensures len { vec_len table.new ≡ vec_len table.old }
    ensures capacity { vec_capacity table.new ≡ vec_capacity table.old }
{
    if let Some(job) = last {
        table[job as usize].following = Some(number);
    }
}

/// Adds a row for which there is room.
fn add(table: &mut Vec<Slot>, slot: Slot)
    requires { vec_len table.old < vec_capacity table.old }
    ensures rows { table.new.items ≡ table.old.items ++ slot ∷ [] }
    ensures capacity { vec_capacity table.old ≤ vec_capacity table.new }
{
    match table.push(slot) {
        Ok(()) => {}
        Err(_) => unreachable!(),
    }
}
