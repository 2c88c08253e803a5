//! The seat of a worker.
ghost use Rattle.std.specs.Prelude.{◌≡◌, ◌<◌, ◌≤◌, ◌+◌, ◌-◌, IsTrue, true, length, MatchBool, MatchOption, Option, []};
ghost use Rattle.intake_rules.specs.Findings.{IsRight};
ghost use Rattle.bench_rule.specs.Views.{HoldsJob, with_finished, with_handed_back, with_miss, with_note, with_taken, worker_view};
ghost use Rattle.bench_rule.specs.declared.views.Role.TheVariants.{Worker};
ghost use Rattle.bench_rule.specs.declared.views.Setting.{Setting};
ghost use Rattle.judge_bench.specs.Seats.{SitsAt, PassedAll, TookAmong, TookOnRound, with_misses};
ghost use Rattle.std.specs.List.{range_with_len};

use crate::{Bench, Ticket};
use bench_rule::{BenchSeat, steps};
use intake_rules::Finding;
use std::marker::Model;

/// How many neighbouring slots a seat tries before it leaves some to others. The words of eight slots share a line of the processor's cache, and
/// threads that write to the same line wait for each other.
const BLOCK: u32 = 64;

/// The seat of a worker, for one thread. Contracts see at which bench it is, and what it knows.
///
/// If it is dropped, it stays out forever, and so do the slots that it holds.
#[derive(Drop)]
pub struct WorkerSeat {
    seat: BenchSeat,
    held: u32,
    /// The slot at which the next round begins.
    next: u32,
    /// How many slots the seat leaves to other seats behind each block.
    others: u32,
}

impl Model for WorkerSeat {
    ghost use Rattle.judge_bench.specs.Seats.{SeatFacts};
    ghost use Rattle.judge_bench.specs.Bookkeeping.{WorkerBooks};

    ghost Value = { SeatFacts };

    ghost use Rattle.formulas.specs.contracts.effect.Effect as effect;
    ghost use Rattle.formulas.specs.contracts.formula.Formula as formula;
    ghost use Rattle.std.specs.Coded.{codes};

    ghost coded = { Prim.hlevel (codes, formula.the_row.coded, effect.the_row.coded) };

    ghost view = { λ worker. record { table = worker.seat.table_id; view = worker.seat.me.0 } };

    ghost invariant = { λ worker. WorkerBooks worker.seat.table_id worker.seat.me worker.held worker.next };
}

impl WorkerSeat {
    /// The seat of a worker that has done nothing yet.
    pub(crate) fn at(seat: BenchSeat) -> WorkerSeat
        requires { (setting : Option Setting) × (seat.me ≡ (worker_view setting, [])) }
        ensures { (result.table ≡ seat.table_id) × (result.view ≡ seat.me.0) }
    {
        WorkerSeat {
            seat,
            held: 0,
            next: 0,
            others: 0,
        }
    }

    /// The seat at the bench, once it holds nothing.
    pub(crate) fn into_seat(self) -> BenchSeat
        requires { length self.view.held ≡ 0 }
        ensures { (result.table_id ≡ self.table) × (result.me ≡ (self.view, [])) × (self.view.role ≡ Worker) × (self.view.held ≡ []) }
    {
        let WorkerSeat {
            seat,
            held: _,
            next: _,
            others: _,
        } = self;
        seat
    }

    /// Lets the seat begin at the block with this number, counted from 0, as one of so many seats that each begin at another block. Only speed
    /// depends on where a round begins.
    pub(crate) fn begin_apart(&mut self, bench: &Bench, number: u32, seats: u32)
        requires { SitsAt bench.now self.old }
        ensures { self.new ≡ self.old }
    {
        let first = number.saturating_mul(BLOCK);
        self.next = if first < bench.slots() { first } else { 0 };
        self.others = seats.saturating_sub(1).saturating_mul(BLOCK);
    }

    /// The slot at which the next round begins after a job was found in this one: the next slot or, behind the last of a block, the first of the
    /// next block that the other seats leave to this one.
    fn slot_behind(&self, bench: &Bench, slot: u32) -> u32
        requires seat { SitsAt bench.now self.now }
        requires slot { slot < bench.now.setting.slots }
        ensures { result ≤ bench.now.setting.slots }
    {
        let slots = bench.slots();
        let next = slot + 1;
        let next = if next % BLOCK == 0 {
            next.saturating_add(self.others)
        } else {
            next
        };
        if next < slots { next } else { 0 }
    }

    /// How many tickets of the seat are not used up.
    pub fn holds(&self) -> u32
        ensures { result ≡ length self.now.view.held }
    {
        self.held
    }

    /// Takes a job that waits. Goes round all slots once and tries each one that it sees waiting. It begins behind the job that it last found or, if
    /// that was at the end of a block, at the next block that other seats leave to it. It may find none although a job waits: a slot that it has
    /// passed may begin to wait, and another seat may be faster.
    pub fn take(&mut self, bench: &Bench) -> Option<Ticket>
        requires { SitsAt bench.now self.old }
        ensures seat { SitsAt bench.now self.new }
        ensures took { MatchOption result (PassedAll bench.now.setting.slots self.old.view self.new.view) (λ ticket. TookOnRound bench.now.setting.slots ticket self.old.view self.new.view) }
    {
        let start = self.next;
        match self.take_among(bench, start, bench.slots()) {
            Some(ticket) => Some(ticket),
            None => self.take_among(bench, 0, start),
        }
    }

    /// Takes the first job that waits in the slots from `from` up to, but not including, `to`.
    fn take_among(&mut self, bench: &Bench, from: u32, to: u32) -> Option<Ticket>
        requires seat { SitsAt bench.now self.old }
        requires slots { (from ≤ to) × (to ≤ bench.now.setting.slots) }
        ensures seat { SitsAt bench.now self.new }
        ensures took { MatchOption result (self.new.view ≡ with_misses self.old.view (range_with_len from (to - from))) (λ ticket. TookAmong from to ticket self.old.view self.new.view) }
    {
        for slot in from..to {
            if let Some(ticket) = self.take_at(bench, slot) {
                return Some(ticket);
            }
        }
        None
    }

    /// Takes the job of a slot, if it is seen to wait and no other seat is faster.
    fn take_at(&mut self, bench: &Bench, slot: u32) -> Option<Ticket>
        requires seat { SitsAt bench.now self.old }
        requires slot { slot < bench.now.setting.slots }
        ensures seat { SitsAt bench.now self.new }
        ensures took { MatchOption result (self.new.view ≡ with_miss self.old.view slot) (λ ticket. (ticket.slot ≡ slot) × (self.new.view ≡ with_taken self.old.view slot ticket.job)) }
    {
        if !steps::sees_waiting(bench.words(), &mut self.seat, slot) {
            return None;
        }
        let job = steps::take(bench.words(), &mut self.seat, slot)?;
        self.held += 1;
        self.next = self.slot_behind(bench, slot);
        Some(Ticket { slot, job })
    }

    /// Finishes a job with its right finding.
    pub fn finish(&mut self, bench: &Bench, ticket: Ticket, finding: Finding)
        requires seat { SitsAt bench.now self.old }
        requires ticket { HoldsJob ticket.slot ticket.job self.old.view.held }
        requires finding { (finding.job ≡ ticket.job) × IsRight bench.now.setting.task.value finding }
        ensures seat { SitsAt bench.now self.new }
        ensures finished { self.new.view ≡ with_finished self.old.view ticket.slot }
        ensures count { length self.new.view.finished ≤ bench.now.setting.slots }
    {
        let Ticket { slot, job: _ } = ticket;
        self.finish_at(bench, slot, finding);
    }

    /// Finishes the job of a slot that the seat holds with its right finding.
    pub(crate) fn finish_at(&mut self, bench: &Bench, slot: u32, finding: Finding)
        requires seat { SitsAt bench.now self.old }
        requires held { HoldsJob slot finding.job self.old.view.held }
        requires finding { IsRight bench.now.setting.task.value finding }
        ensures seat { SitsAt bench.now self.new }
        ensures finished { self.new.view ≡ with_finished self.old.view slot }
        ensures count { length self.new.view.finished ≤ bench.now.setting.slots }
    {
        steps::finish(bench.words(), &mut self.seat, slot, finding);
        self.held -= 1;
    }

    /// Hands a job back. It waits again.
    pub fn hand_back(&mut self, bench: &Bench, ticket: Ticket)
        requires seat { SitsAt bench.now self.old }
        requires ticket { HoldsJob ticket.slot ticket.job self.old.view.held }
        ensures seat { SitsAt bench.now self.new }
        ensures handed_back { self.new.view ≡ with_handed_back self.old.view ticket.slot }
    {
        let Ticket { slot, job } = ticket;
        steps::hand_back(bench.words(), &mut self.seat, slot, job);
        self.held -= 1;
    }

    /// Whether the bench is shut. Once the seat has seen that it is, the answer is always `true`.
    pub fn look(&mut self, bench: &Bench) -> bool
        requires { SitsAt bench.now self.old }
        ensures seat { SitsAt bench.now self.new }
        ensures noted { MatchBool result (self.new.view ≡ with_note self.old.view) (self.new.view ≡ self.old.view) }
        ensures stays { self.old.view.noted ≡ true → IsTrue result }
    {
        steps::sees_shut(bench.words(), &mut self.seat)
    }
}
