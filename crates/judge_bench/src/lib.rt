//! Judging on several threads, with the same findings for any number of them.
//!
//! ```text
//! let mut intake = Listed::new(plans);                                   // a list of two plans of planner 0
//! let findings = run(rt, alloc, &task, 1, 2, &mut intake, 4, &Open)?;    // 1 planner, 2 slots, 4 workers
//! findings.plans(0)                                                      // 2
//! findings.get(0, 1)                                                     // the finding of its second plan
//! ```
//!
//! [`run`] takes the plans of all planners from an [`Intake`] and returns [`Findings`]: for each planner, one finding for each of its plans, in
//! the order in which they came. Its contract says so by a definition that does not mention threads (`findings_of` in `specs/Findings.antt`).
//!
//! A run goes this way:
//!
//! 1. The calling thread makes a [`Bench`], with a slot for each plan that may come. It is the [`Owner`].
//! 2. It starts the other workers, each on a thread of its own with a [`WorkerSeat`]. A worker does [`work`]: it takes a job, asks the [`Gate`]
//!    whether it is held, judges it, finishes it, and goes on with the next.
//! 3. The owner asks the intake for one plan after another and accepts each as a job. The findings that are made meanwhile stay in the slots.
//! 4. At the end of the intake it closes all planners and shuts the bench. A worker ends when it finds no job after it saw that the bench is shut.
//! 5. The owner's thread is the last worker. Then it waits for the others and takes their seats back, so it knows which jobs are finished. It
//!    judges what they left because memory ran out for them, and collects all findings of each planner.
//!
//! No thread waits for a lock: the words of the bench say who may judge which job. The contracts of its seats state what it promises.
#![tactic(auto)]

mod bench;
mod collector;
mod crew;
mod findings;
mod gate;
mod intake;
mod owner;
mod running;
mod submission;
mod ticket;
mod worker;
mod working;

pub use bench::Bench;
pub use findings::Findings;
pub use gate::{Gate, Open};
pub use intake::{Intake, Listed};
pub use owner::Owner;
pub use running::{RunFault, run};
pub use submission::Submission;
pub use ticket::Ticket;
pub use worker::WorkerSeat;
pub use working::{Ended, WorkFault, work};
