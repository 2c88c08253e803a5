//! The desk of one thread: it accepts plans, gives them out to be judged, and emits their findings in order.
//!
//! ```text
//! let mut desk = Desk::make(alloc, &task, 1, 2)?;                       // 1 planner, slots for 2 plans
//! desk.submit(0, plan)                                                  // Ok(0): the plan is job 0
//! desk.take()                                                           // Some(0)
//! desk.emit(0)                                                          // Err(Refusal::NotReady(0))
//! let finding = Finding::judge(alloc, &task, desk.job(0).unwrap())?;
//! desk.finish(0, finding)                                               // Ok(())
//! desk.emit(0)                                                          // Ok(finding)
//! desk.emit(0)                                                          // Err(Refusal::NothingYet)
//! ```
//!
//! A [`Desk`] is made for one task, a number of planners and a number of slots. A planner [`submit`](Desk::submit)s plans. Each accepted plan
//! is a job and uses up a slot. [`take`](Desk::take) gives out the least job that waits, which is then either handed back or
//! [`finish`](Desk::finish)ed with its finding. The findings of a planner are [`emit`](Desk::emit)ted in the order in which its plans were
//! accepted, each once. A refused call changes nothing and gives back what it was handed.
//!
//! The rules are those of the crate `intake_rules`, whose types can be used from here. Contracts see a desk as its task, its number of slots and
//! the `Intake` of those rules. So each call answers what the tables of `intake_rules/specs/Rules.antt` say, and leaves the intake that they say.
//!
//! [`replay`] makes a desk and runs a whole list of steps on it. Its contract states what the rules are for: see `Headline` in
//! `specs/Replays.antt`.
//!
//! Of a desk's calls only [`Desk::make`] takes memory, and no call goes through all slots: [`Desk::take`] reads at most 1,024 words, in which each
//! slot has a bit, to find the least job that waits, and each slot links to its planner's next one.
#![tactic(auto)]

mod desk;
mod replaying;
mod slot;

pub use desk::Desk;
pub use intake_rules::{Finding, FinishRefused, Job, Refusal, Reply, Stage, SubmitRefused};
pub use replaying::{ReplayFault, ReplyList, Step, StepsToRun, replay};
