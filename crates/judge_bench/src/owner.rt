//! The seat of the owner.
ghost use Rattle.std.specs.Prelude.{◌≡◌, ◌<◌, ◌≤◌, ◌+◌, ◌^◌, ℕ, [], Some, None, IfOk, IfErr, MatchOption, MatchResult, length, slice_get};
ghost use Rattle.intake_rules.specs.Answers.{submit_reply, close_reply};
ghost use Rattle.intake_rules.specs.Findings.{IsRight};
ghost use Rattle.intake_rules.specs.Intake.{next_job};
ghost use Rattle.intake_rules.specs.Rules.{submit, close, emit_reply, reply_to, submit_refusal};
ghost use Rattle.intake_rules.specs.declared.reply.Reply.TheVariants.{Refused};
ghost use Rattle.bench_rule.specs.Plays.{SeemsWaiting};
ghost use Rattle.bench_rule.specs.Views.{HoldsJob, IsNext, with_close, with_emission, with_finished, with_handed_back, with_joined, with_posted, with_seat_out, with_shut, with_taken, worker_view, first_view, times, times_among};
ghost use Rattle.judge_bench.specs.Bookkeeping.{NoneWaitsAmong, NoneWaitsBefore};
ghost use Rattle.intake_rules.specs.Jobs.{AcceptedPlan};
ghost use Rattle.intake_rules.specs.declared.refusal.Refusal.TheVariants.{NotReady};
ghost use Rattle.judge_bench.specs.Seats.{SitsAt, AfterRefusal, accepted_intake};
ghost use Rattle.bench_rule.specs.declared.views.Setting.{Setting};

use crate::{Bench, Ticket, WorkerSeat};
use bench_rule::{BenchSeat, steps};
use intake_rules::{Finding, Job, Refusal, SubmitRefused, SubmittedPlan};
use std::alloc::{AllocError, Global};
use std::marker::Model;

/// The seat of the owner: it accepts plans, gives seats out, emits findings, and may judge as a worker does. Contracts see at which bench it is, and
/// what it knows.
pub struct Owner {
    seat: BenchSeat,
    /// Whose each job is.
    planners: Vec<u32>,
    /// For each planner the slot from which its next job is looked for. It only grows.
    cursors: Vec<u32>,
    closed: Vec<bool>,
    seats_out: u32,
    /// The first slot at which the owner tries to take a job.
    first: u32,
}

impl Drop for Owner {
    fn drop(self) {
        let Self {
            seat: _,
            planners: _,
            cursors: _,
            closed: _,
            seats_out: _,
            first: _,
        } = self;
    }
}

impl Model for Owner {
    ghost use Rattle.std.specs.Prelude.{◌≤◌, vec_capacity};
    ghost use Rattle.judge_bench.specs.Seats.{SeatFacts};
    ghost use Rattle.judge_bench.specs.Bookkeeping.{OwnerBooks};

    ghost Value = { SeatFacts };

    ghost use Rattle.formulas.specs.contracts.effect.Effect as effect;
    ghost use Rattle.formulas.specs.contracts.formula.Formula as formula;
    ghost use Rattle.std.specs.Coded.{codes};

    ghost coded = { Prim.hlevel (codes, formula.the_row.coded, effect.the_row.coded) };

    ghost view = { λ owner. record { table = owner.seat.table_id; view = owner.seat.me.0 } };

    ghost invariant = { λ owner. OwnerBooks owner.seat.table_id owner.seat.id owner.seat.me owner.planners.items owner.cursors.items owner.closed.items owner.seats_out owner.first × (owner.seat.table_id.slots ≤ vec_capacity owner.planners) };
}

impl Owner {
    /// The owner at the first seat of a bench. Takes the memory of its tables.
    pub(crate) fn at(
        alloc: Global,
        seat: BenchSeat,
        planners: u32,
        slots: u32,
    ) -> Result<Owner, AllocError>
        requires seat { (seat.id ≡ 0) × (seat.table_id.slots ≡ slots) }
        requires view { (setting : Setting) × (setting.planners ≡ planners) × (seat.me ≡ (first_view setting, [])) }
        ensures { IfOk result (λ owner. (owner.table ≡ seat.table_id) × (owner.view ≡ seat.me.0)) }
    {
        Ok(Owner {
            seat,
            planners: Vec::with_capacity(alloc, slots as usize)?,
            cursors: vec![in alloc; 0; planners as usize]?,
            closed: vec![in alloc; false; planners as usize]?,
            seats_out: 0,
            first: 0,
        })
    }

    /// Accepts a plan of an open planner as a job, if a slot is unused. The job's number is the count of jobs that were accepted before.
    pub fn submit(
        &mut self,
        bench: &Bench,
        planner: u32,
        plan: SubmittedPlan,
    ) -> Result<u32, SubmitRefused>
        requires { SitsAt bench.now self.old }
        ensures seat { SitsAt bench.now self.new }
        ensures reply { submit_reply result ≡ reply_to bench.now.setting.slots (accepted_intake self.old.view) (submit planner plan) }
        ensures view { MatchResult result (λ number. self.new.view ≡ with_posted self.old.view record { number = number; planner = planner; plan = plan }) (λ _. self.new.view ≡ self.old.view) }
        ensures plan { IfErr result (λ refused. refused.plan ≡ plan) }
    {
        match self.submit_refusal(bench, planner) {
            Some(refusal) => Err(SubmitRefused { refusal, plan }),
            None => Ok(self.accept(bench, planner, plan)),
        }
    }

    /// Closes a planner: no more plans of it are accepted.
    pub fn close(&mut self, bench: &Bench, planner: u32) -> Result<(), Refusal>
        requires { SitsAt bench.now self.old }
        ensures seat { SitsAt bench.now self.new }
        ensures reply { close_reply result ≡ reply_to bench.now.setting.slots (accepted_intake self.old.view) (close planner) }
        ensures view { MatchResult result (λ _. self.new.view ≡ with_close self.old.view planner) (λ _. self.new.view ≡ self.old.view) }
    {
        match self.closed.get(planner as usize) {
            None => Err(Refusal::NoPlanner),
            Some(closed) if *closed => Err(Refusal::AlreadyClosed),
            Some(_) => {
                steps::close(bench.words(), &mut self.seat, planner);
                self.closed[planner as usize] = true;
                Ok(())
            }
        }
    }

    /// Emits a planner's next finding: that of its first job whose finding was not emitted yet. While seats are out, a job that a worker has
    /// finished may still be refused as `NotReady`; each such refusal is a miss. While no seat is out, the owner knows which jobs are finished.
    pub fn emit(&mut self, bench: &Bench, planner: u32) -> Result<Finding, Refusal>
        requires { SitsAt bench.now self.old }
        ensures seat { SitsAt bench.now self.new }
        ensures refused { IfErr result (λ why. (emit_reply (accepted_intake self.old.view) planner ≡ Refused why) × AfterRefusal self.old.view why self.new.view) }
        ensures next { IfOk result (λ finding. (planner < length self.old.view.closed) × (next_job (accepted_intake self.old.view) planner ≡ Some finding.job)) }
        ensures right { IfOk result (λ finding. IsRight bench.now.setting.task.value finding) }
        ensures view { IfOk result (λ _. self.new.view ≡ with_emission self.old.view planner) }
        ensures alone { self.old.view.seats_out ≡ 0 → IfOk result (λ finding. 0 < times finding.job.number self.old.view.finished) }
    {
        if planner as usize >= self.closed.len() {
            return Err(Refusal::NoPlanner);
        }
        match self.next_slot(planner) {
            None if self.closed[planner as usize] => Err(Refusal::Complete),
            None => Err(Refusal::NothingYet),
            Some(slot) => self.emit_next(bench, planner, slot),
        }
    }

    /// Gives out a seat for a worker.
    pub fn seat(&mut self, bench: &Bench) -> WorkerSeat
        requires seat { SitsAt bench.now self.old }
        requires few { self.old.view.seats_out < 1024 }
        ensures owner { SitsAt bench.now self.new × (self.new.view ≡ with_seat_out self.old.view) }
        ensures seat { SitsAt bench.now result × (result.view ≡ worker_view (Some bench.now.setting)) }
    {
        let seat = steps::split(bench.words(), &mut self.seat);
        self.seats_out += 1;
        self.first = 0;
        WorkerSeat::at(seat)
    }

    /// How many seats were given out and not handed in yet.
    pub fn seats_out(&self) -> u32
        ensures { result ≡ self.now.view.seats_out }
    {
        self.seats_out
    }

    /// Ends a worker's seat that holds nothing. From then on the owner knows what it finished.
    pub fn hand_in(&mut self, bench: &Bench, seat: WorkerSeat)
        requires owner { SitsAt bench.now self.old }
        requires seat { SitsAt bench.now seat × (length seat.view.held ≡ 0) }
        ensures seat { SitsAt bench.now self.new }
        ensures view { self.new.view ≡ with_joined self.old.view seat.view }
    {
        steps::join(bench.words(), &mut self.seat, seat.into_seat());
        self.seats_out = self.seats_out.saturating_sub(1);
        self.first = 0;
    }

    /// Takes a job that waits, as a worker does, in the order of the slots. While no seat is out, it is the least job that waits, and `None` is
    /// returned only if none waits.
    pub fn take_own(&mut self, bench: &Bench) -> Option<Ticket>
        requires { SitsAt bench.now self.old }
        ensures seat { SitsAt bench.now self.new }
        ensures took { MatchOption result (self.new.view ≡ self.old.view) (λ ticket. self.new.view ≡ with_taken self.old.view ticket.slot ticket.job) }
        ensures alone { self.old.view.seats_out ≡ 0 → MatchOption result ((slot : ℕ) → SeemsWaiting slot self.old.view → ⊥) (λ ticket. SeemsWaiting ticket.slot self.old.view × NoneWaitsBefore ticket.slot self.old.view) }
    {
        let jobs = self.jobs();
        match self.take_from(bench, self.first, jobs) {
            Some(ticket) => {
                self.tried_before(ticket.slot + 1);
                Some(ticket)
            }
            None => {
                self.tried_before(jobs);
                None
            }
        }
    }

    /// Finishes a job that the owner took, with its right finding.
    pub fn finish_own(&mut self, bench: &Bench, ticket: Ticket, finding: Finding)
        requires seat { SitsAt bench.now self.old }
        requires ticket { HoldsJob ticket.slot ticket.job self.old.view.held }
        requires finding { (finding.job ≡ ticket.job) × IsRight bench.now.setting.task.value finding }
        ensures seat { SitsAt bench.now self.new }
        ensures finished { self.new.view ≡ with_finished self.old.view ticket.slot }
        ensures count { length self.new.view.finished ≤ bench.now.setting.slots }
    {
        steps::finish(bench.words(), &mut self.seat, ticket.slot, finding);
    }

    /// Hands back a job that the owner took. It waits again.
    pub fn hand_back_own(&mut self, bench: &Bench, ticket: Ticket)
        requires seat { SitsAt bench.now self.old }
        requires ticket { HoldsJob ticket.slot ticket.job self.old.view.held }
        ensures seat { SitsAt bench.now self.new }
        ensures handed_back { self.new.view ≡ with_handed_back self.old.view ticket.slot }
    {
        let Ticket { slot, job } = ticket;
        steps::hand_back(bench.words(), &mut self.seat, slot, job);
        self.first = self.first.min(slot);
    }

    /// Shuts the bench, which stays shut: no more plans will come, so workers that find nothing to do may end. If it is shut already, nothing
    /// changes. This closes no planner.
    pub fn shut(&mut self, bench: &Bench)
        requires { SitsAt bench.now self.old }
        ensures seat { SitsAt bench.now self.new }
        ensures view { self.new.view ≡ with_shut self.old.view }
    {
        steps::shut(bench.words(), &mut self.seat);
    }

    /// How many jobs were accepted.
    fn jobs(&self) -> u32
        ensures { result ≡ length self.now.view.jobs }
    {
        self.planners.len() as u32
    }

    /// Why a plan of a planner is not accepted.
    fn submit_refusal(&self, bench: &Bench, planner: u32) -> Option<Refusal>
        requires { SitsAt bench.now self.now }
        ensures { result ≡ submit_refusal bench.now.setting.slots (accepted_intake self.now.view) planner }
    {
        match self.closed.get(planner as usize) {
            None => Some(Refusal::NoPlanner),
            Some(closed) if *closed => Some(Refusal::Closed),
            Some(_) if self.jobs() == bench.slots() => Some(Refusal::Full),
            Some(_) => None,
        }
    }

    /// Accepts a plan that is not refused.
    fn accept(&mut self, bench: &Bench, planner: u32, plan: SubmittedPlan) -> u32
        requires seat { SitsAt bench.now self.old }
        requires open { submit_refusal bench.now.setting.slots (accepted_intake self.old.view) planner ≡ None }
        ensures seat { SitsAt bench.now self.new }
        ensures number { result ≡ length self.old.view.jobs }
        ensures view { self.new.view ≡ with_posted self.old.view record { number = result; planner = planner; plan = plan } }
    {
        let number = self.jobs();
        let job = Job {
            number,
            planner,
            plan,
        };
        steps::post(bench.words(), &mut self.seat, number, job);
        self.planners.push_reserved(planner);
        number
    }

    /// The slot of a planner's next job, if it has one. Goes over the jobs of other planners from the planner's cursor on, and moves the cursor behind them.
    fn next_slot(&mut self, planner: u32) -> Option<u32>
        requires { planner < length self.old.view.closed }
        ensures same { self.new ≡ self.old }
        ensures next { MatchOption result (next_job (accepted_intake self.old.view) planner ≡ None) (λ slot. (job : AcceptedPlan) × IsNext self.old.view slot job × (job.planner ≡ planner) × (job.number ≡ slot)) }
    {
        let slot = first_of(&self.planners, planner, self.cursors[planner as usize]);
        self.cursors[planner as usize] = slot;
        if slot == self.jobs() {
            return None;
        }
        Some(slot)
    }

    /// Emits the finding of a planner's next job, which is in this slot, if it is finished.
    fn emit_next(&mut self, bench: &Bench, planner: u32, slot: u32) -> Result<Finding, Refusal>
        requires seat { SitsAt bench.now self.old }
        requires next { (job : AcceptedPlan) × IsNext self.old.view slot job × (job.planner ≡ planner) × (job.number ≡ slot) }
        ensures seat { SitsAt bench.now self.new }
        ensures refused { IfErr result (λ why. (why ≡ NotReady slot) × AfterRefusal self.old.view why self.new.view) }
        ensures next { IfOk result (λ finding. IsNext self.old.view slot finding.job × (finding.job.planner ≡ planner)) }
        ensures right { IfOk result (λ finding. IsRight bench.now.setting.task.value finding) }
        ensures view { IfOk result (λ _. self.new.view ≡ with_emission self.old.view planner) }
        ensures alone { self.old.view.seats_out ≡ 0 → IfOk result (λ _. 0 < times slot self.old.view.finished) }
    {
        match steps::emit(bench.words(), &mut self.seat, slot) {
            Some(finding) => {
                self.cursors[planner as usize] = slot + 1;
                Ok(finding)
            }
            None => Err(Refusal::NotReady(slot)),
        }
    }

    /// Takes the first job that waits in the slots from `from` up to, but not including, `to`.
    fn take_from(&mut self, bench: &Bench, from: u32, to: u32) -> Option<Ticket>
        requires seat { SitsAt bench.now self.old }
        requires slots { to ≡ length self.old.view.jobs }
        ensures seat { SitsAt bench.now self.new }
        ensures took { MatchOption result (self.new.view ≡ self.old.view) (λ ticket. (ticket.slot < to) × (self.new.view ≡ with_taken self.old.view ticket.slot ticket.job)) }
        ensures alone { self.old.view.seats_out ≡ 0 → MatchOption result (NoneWaitsAmong from to self.old.view) (λ ticket. SeemsWaiting ticket.slot self.old.view × NoneWaitsAmong from ticket.slot self.old.view) }
    {
        for slot in from..to {
            if let Some(ticket) = self.take_at(bench, slot) {
                return Some(ticket);
            }
        }
        None
    }

    /// Takes the job of a slot, if it waits.
    fn take_at(&mut self, bench: &Bench, slot: u32) -> Option<Ticket>
        requires seat { SitsAt bench.now self.old }
        requires slot { slot < length self.old.view.jobs }
        ensures seat { SitsAt bench.now self.new }
        ensures took { MatchOption result (self.new.view ≡ self.old.view) (λ ticket. (ticket.slot ≡ slot) × (self.new.view ≡ with_taken self.old.view slot ticket.job)) }
        ensures alone { self.old.view.seats_out ≡ 0 → MatchOption result (SeemsWaiting slot self.old.view → ⊥) (λ _. SeemsWaiting slot self.old.view) }
    {
        let job = steps::take_own(bench.words(), &mut self.seat, slot)?;
        Some(Ticket { slot, job })
    }

    /// Notes that no slot before this one waits, if that is known, which it is only while no seat is out.
    fn tried_before(&mut self, slot: u32)
        requires within { slot ≤ length self.old.view.jobs }
        requires tried { self.old.view.seats_out ≡ 0 → NoneWaitsBefore slot self.old.view }
        ensures { self.new ≡ self.old }
    {
        if self.seats_out == 0 {
            self.first = slot;
        }
    }
}

/// The first job of a planner from this slot on, by its slot, or else the number of jobs.
fn first_of(planners: &[u32], planner: u32, from: u32) -> u32
    requires from { from ≤ length planners.now }
    requires few { length planners.now < 2 ^ 32 }
    ensures within { (from ≤ result) × (result ≤ length planners.now) }
    ensures between { times_among planners.now planner result ≡ times_among planners.now planner from }
    ensures found { result < length planners.now → slice_get planners.now result ≡ Some planner }
{
    let jobs = planners.len() as u32;
    for slot in from..jobs {
        if planners[slot as usize] == planner {
            return slot;
        }
    }
    jobs
}
