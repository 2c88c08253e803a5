//! The steps at a bench. Each changes the word of at most one slot, and the view of the seat that takes it as its contract says.
//!
//! Word s + 1 is that of slot s: 0 if the slot is unused, 1 if its job waits, 2 if it is out, 3 if it is finished, and 4 if its finding was
//! emitted. Word 0 is 1 once the bench is shut. No step waits, and none takes memory.
ghost use Rattle.bench_rule.specs.declared.contents.Item.TheVariants.{Nothing, Waiting, Done};
ghost use Rattle.std.specs.Prelude.{◌≡◌, ◌<◌, ◌≤◌, ◌+◌, true, false, IsTrue, [], ◌∷◌, ◌++◌, length, None, MatchOption};
ghost use Rattle.intake_rules.specs.Findings.{IsRight};
ghost use Rattle.intake_rules.specs.Jobs.{AcceptedPlan};
ghost use Rattle.bench_rule.specs.declared.views.Role.TheVariants.{Worker};
ghost use Rattle.bench_rule.specs.Plays.{IsSeatOf, Missed, TookOut, SeemsWaiting, IsRightFor};
ghost use Rattle.bench_rule.specs.Views.{IsNext, IsOpen, HoldsJob, CarriesHeld, KeepsCarried, times, times_held, without_slot, worker_view, with_posted, with_finished, with_handed_back, with_emission, with_close, with_seat_out, with_joined, with_shut, with_note};

use crate::contents::{Item, finding_in, job_in};
use crate::plays::{
    Bring, Close, Emit, Finish, HandBack, Lift, Look, LookAtShut, Post, Shut, Take, TakeOwn, Which,
};
use crate::rule::{BenchSeat, BenchWords};
use crate::splits::{SplitOff, TakeIn};
use intake_rules::{Finding, Job};
use std::marker::Brand;

/// The word of a slot whose job waits.
pub const WAITING: u64 = 1;

/// The word of a slot that is out: a seat holds it.
pub const OUT: u64 = 2;

/// The word of a slot whose job is finished.
pub const FINISHED: u64 = 3;

/// The word of a slot whose finding was emitted.
pub const EMITTED: u64 = 4;

/// The first word of a bench that is shut.
pub const IS_SHUT: u64 = 1;

/// The owner puts a job of an open planner into the first unused slot, where it waits from then on.
pub fn post(words: &BenchWords, seat: &mut BenchSeat, slot: u32, job: Job)
    requires owner { IsSeatOf words.now seat.old × (seat.old.id ≡ 0) × (seat.old.me.0.lifted ≡ false) }
    requires open { IsOpen seat.old.me.0 job.planner }
    requires slot { (slot ≡ length seat.old.me.0.jobs) × (slot < words.now.table_id.slots) }
    requires number { job.number ≡ slot }
    ensures seat { (seat.new.table_id ≡ seat.old.table_id) × (seat.new.id ≡ seat.old.id) }
    ensures posted { seat.new.me ≡ (with_posted seat.old.me.0 job, seat.old.me.1) }
{
    words.load::<Lift>(seat, slot as usize + 1);
    drop(words.exchange(seat, slot as usize, Item::Waiting(job)));
    words.store::<Post>(seat, slot as usize + 1, WAITING);
}

/// A worker takes the job of a slot, if it waits.
pub fn take(words: &BenchWords, seat: &mut BenchSeat, slot: u32) -> Option<Job>
    requires worker { IsSeatOf words.now seat.old × (seat.old.me.0.role ≡ Worker) }
    requires slot { slot < words.now.table_id.slots }
    ensures seat { (seat.new.table_id ≡ seat.old.table_id) × (seat.new.id ≡ seat.old.id) }
    ensures took { MatchOption result (Missed slot seat.old.me seat.new.me) (λ job. TookOut words.now.table_id.slots slot job seat.old.me seat.new.me) }
    ensures carried { KeepsCarried seat.old.me seat.new.me }
{
    if words.compare_exchange::<Take>(seat, slot as usize + 1, WAITING, OUT) != WAITING {
        return None;
    }
    Some(job_in(words.exchange(seat, slot as usize, Item::Nothing)))
}

/// The owner takes the job of a slot, if it waits. While no seat is out, the owner knows beforehand whether it does.
pub fn take_own(words: &BenchWords, seat: &mut BenchSeat, slot: u32) -> Option<Job>
    requires owner { IsSeatOf words.now seat.old × (seat.old.id ≡ 0) }
    requires slot { slot < words.now.table_id.slots }
    ensures seat { (seat.new.table_id ≡ seat.old.table_id) × (seat.new.id ≡ seat.old.id) }
    ensures took { MatchOption result (seat.new.me ≡ seat.old.me) (λ job. TookOut words.now.table_id.slots slot job seat.old.me seat.new.me) }
    ensures carried { KeepsCarried seat.old.me seat.new.me }
    ensures alone { seat.old.me.0.seats_out ≡ 0 → MatchOption result (SeemsWaiting slot seat.old.me.0 → ⊥) (λ _. SeemsWaiting slot seat.old.me.0) }
{
    if words.compare_exchange::<TakeOwn>(seat, slot as usize + 1, WAITING, OUT) != WAITING {
        return None;
    }
    Some(job_in(words.exchange(seat, slot as usize, Item::Nothing)))
}

/// Moves a slot that the seat holds to the front of those that it carries, and puts something into it.
fn lay(words: &BenchWords, seat: &mut BenchSeat, slot: u32, item: Item)
    requires seat { IsSeatOf words.now seat.old × CarriesHeld seat.old.me }
    requires held { 0 < times_held slot seat.old.me.0.held }
    requires slot { slot < words.now.table_id.slots }
    ensures seat { (seat.new.table_id ≡ seat.old.table_id) × (seat.new.id ≡ seat.old.id) }
    ensures laid { seat.new.me ≡ (seat.old.me.0, (slot, item) ∷ without_slot slot seat.old.me.1) }
{
    words.load::<Bring>(seat, slot as usize + 1);
    drop(words.exchange(seat, slot as usize, item));
}

/// Puts the right finding of a held job into its slot, which is finished from then on.
pub fn finish(words: &BenchWords, seat: &mut BenchSeat, slot: u32, finding: Finding)
    requires seat { IsSeatOf words.now seat.old × CarriesHeld seat.old.me }
    requires held { HoldsJob slot finding.job seat.old.me.0.held }
    requires right { IsRight words.now.key.task.value finding }
    requires slot { slot < words.now.table_id.slots }
    ensures seat { (seat.new.table_id ≡ seat.old.table_id) × (seat.new.id ≡ seat.old.id) }
    ensures finished { seat.new.me ≡ (with_finished seat.old.me.0 slot, without_slot slot seat.old.me.1) }
    ensures carried { KeepsCarried seat.old.me seat.new.me }
    ensures count { length seat.new.me.0.finished ≤ words.now.table_id.slots }
{
    lay(words, seat, slot, Item::Done(finding));
    words.store::<Finish>(seat, slot as usize + 1, FINISHED);
}

/// Puts a held job back into its slot, where it waits again.
pub fn hand_back(words: &BenchWords, seat: &mut BenchSeat, slot: u32, job: Job)
    requires seat { IsSeatOf words.now seat.old × CarriesHeld seat.old.me }
    requires held { HoldsJob slot job seat.old.me.0.held }
    requires slot { slot < words.now.table_id.slots }
    ensures seat { (seat.new.table_id ≡ seat.old.table_id) × (seat.new.id ≡ seat.old.id) }
    ensures handed_back { seat.new.me ≡ (with_handed_back seat.old.me.0 slot, without_slot slot seat.old.me.1) }
    ensures carried { KeepsCarried seat.old.me seat.new.me }
{
    lay(words, seat, slot, Item::Waiting(job));
    words.store::<HandBack>(seat, slot as usize + 1, WAITING);
}

/// The owner emits the finding of a slot whose job is the next one of its planner, if it is finished. `None` is returned only if the owner does
/// not know it to be finished. While no seat is out, the owner knows beforehand whether it is. The slot then follows the others that the seat
/// carries.
pub fn emit(words: &BenchWords, seat: &mut BenchSeat, slot: u32) -> Option<Finding>
    requires owner { IsSeatOf words.now seat.old × (seat.old.id ≡ 0) }
    requires slot { (slot < words.now.table_id.slots) × ((next : AcceptedPlan) × IsNext seat.old.me.0 slot next) }
    ensures seat { (seat.new.table_id ≡ seat.old.table_id) × (seat.new.id ≡ seat.old.id) }
    ensures emitted { (next : AcceptedPlan) → IsNext seat.old.me.0 slot next → MatchOption result (Missed slot seat.old.me seat.new.me × (times slot seat.old.me.0.finished ≡ 0)) (λ finding. (finding.job ≡ next) × IsRightFor seat.old.me.0.setting finding × (seat.new.me ≡ (with_emission seat.old.me.0 next.planner, seat.old.me.1 ++ (slot, Nothing) ∷ []))) }
    ensures carried { CarriesHeld seat.old.me → CarriesHeld seat.new.me }
    ensures alone { seat.old.me.0.seats_out ≡ 0 → MatchOption result (times slot seat.old.me.0.finished ≡ 0) (λ _. 0 < times slot seat.old.me.0.finished) }
{
    if words.compare_exchange::<Emit>(seat, slot as usize + 1, FINISHED, EMITTED) != FINISHED {
        return None;
    }
    let finding = finding_in(words.exchange(seat, slot as usize, Item::Nothing));
    seat.turn();
    Some(finding)
}

/// Closes the planner that the type names, which is the one handed in.
fn close_as<W: Which>(words: &BenchWords, seat: &mut BenchSeat, _planner: u32)
    requires { IsSeatOf words.now seat.old × (seat.old.id ≡ 0) }
    ensures { (seat.new.table_id ≡ seat.old.table_id) × (seat.new.id ≡ seat.old.id) × (seat.new.me ≡ (with_close seat.old.me.0 W.planner, seat.old.me.1)) }
{
    words.load::<Close<W>>(seat, 0);
}

/// The owner closes a planner.
pub fn close(words: &BenchWords, seat: &mut BenchSeat, planner: u32)
    requires { IsSeatOf words.now seat.old × (seat.old.id ≡ 0) }
    ensures { (seat.new.table_id ≡ seat.old.table_id) × (seat.new.id ≡ seat.old.id) × (seat.new.me ≡ (with_close seat.old.me.0 planner, seat.old.me.1)) }
{
    close_as::<Brand>(words, seat, planner);
}

/// Whether the job of a slot was seen to wait. If not, the seat has one more miss.
pub fn sees_waiting(words: &BenchWords, seat: &mut BenchSeat, slot: u32) -> bool
    requires { IsSeatOf words.now seat.old × (slot < words.now.table_id.slots) }
    ensures seat { (seat.new.table_id ≡ seat.old.table_id) × (seat.new.id ≡ seat.old.id) }
    ensures waits { IsTrue result → seat.new.me ≡ seat.old.me }
    ensures missed { result ≡ false → Missed slot seat.old.me seat.new.me }
{
    words.load::<Look>(seat, slot as usize + 1) == WAITING
}

/// The owner's seat gives a worker a seat of its own.
pub fn split(words: &BenchWords, seat: &mut BenchSeat) -> BenchSeat
    requires { IsSeatOf words.now seat.old × (seat.old.id ≡ 0) }
    ensures owner { (seat.new.table_id ≡ seat.old.table_id) × (seat.new.id ≡ seat.old.id) × (seat.new.me ≡ (with_seat_out seat.old.me.0, seat.old.me.1)) }
    ensures worker { (result.table_id ≡ seat.old.table_id) × (result.me ≡ (worker_view seat.old.me.0.setting, [])) }
{
    words.split_seat::<SplitOff>(seat)
}

/// Ends a worker's seat that holds no slot. From then on the owner knows what it finished.
pub fn join(words: &BenchWords, seat: &mut BenchSeat, other: BenchSeat)
    requires owner { IsSeatOf words.now seat.old × (seat.old.id ≡ 0) }
    requires worker { IsSeatOf words.now other × (other.me.0.role ≡ Worker) × (other.me.0.held ≡ []) × (other.me.1 ≡ []) }
    ensures seat { (seat.new.table_id ≡ seat.old.table_id) × (seat.new.id ≡ seat.old.id) }
    ensures joined { seat.new.me ≡ (with_joined seat.old.me.0 other.me.0, seat.old.me.1) }
{
    words.join_seat::<TakeIn>(seat, other);
}

/// The owner shuts the bench, which stays shut. If it is shut already, nothing changes.
pub fn shut(words: &BenchWords, seat: &mut BenchSeat)
    requires { IsSeatOf words.now seat.old × (seat.old.id ≡ 0) }
    ensures seat { (seat.new.table_id ≡ seat.old.table_id) × (seat.new.id ≡ seat.old.id) }
    ensures done { seat.new.me ≡ (with_shut seat.old.me.0, seat.old.me.1) }
{
    words.store::<Shut>(seat, 0, IS_SHUT);
}

/// Whether the bench is shut. If so, the seat notes it, and the answer is `true` from then on.
pub fn sees_shut(words: &BenchWords, seat: &mut BenchSeat) -> bool
    requires { IsSeatOf words.now seat.old }
    ensures seat { (seat.new.table_id ≡ seat.old.table_id) × (seat.new.id ≡ seat.old.id) }
    ensures noted { IsTrue result → seat.new.me ≡ (with_note seat.old.me.0, seat.old.me.1) }
    ensures not_shut { result ≡ false → seat.new.me ≡ seat.old.me }
    ensures stays { seat.old.me.0.noted ≡ true → IsTrue result }
{
    words.load::<LookAtShut>(seat, 0) == IS_SHUT
}
