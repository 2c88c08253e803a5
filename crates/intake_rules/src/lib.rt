//! The rules by which plans are accepted, given out, judged and emitted.
//!
//! ```text
//! let job = Job { number: 0, planner: 0, plan };
//! let finding = Finding::judge(alloc, &task, &job)?;
//! finding.job.is_same(&job)                             // true
//! finding.verdict                                       // Verdict::Valid { steps: 1 }, for example
//! Refusal::NotReady(0).word()                           // "NotReady"
//! ```
//!
//! A [`SubmittedPlan`] is a plan as it was handed in: already read, or still as text. A plan that is kept as text takes no memory of its own, since its text
//! is a range of a file's bytes that all plans of the file share. The code that judges it reads it, and leaves beside it where the step is written at which it
//! fails. Contracts see the content of a plan, a [`Plan`](strips_task::Plan). A [`Job`] is an accepted plan with its number. A [`Finding`] is a job with its
//! verdict and the cost of its plan, and [`Finding::judge`] makes the right one. A [`Reply`] is what an intake answers to a request, and a [`Refusal`] is the
//! reason if it refuses one.
//!
//! The rules themselves are definitions in `specs/`:
//!
//! - `Intake.antt`: what an intake knows, which is the jobs, the [`Stage`] of each, which planners are closed, and how many findings were
//!   emitted for each planner.
//! - `Rules.antt`: what it answers and what it knows afterwards, as tables.
//! - `History.antt`: what a list of events with their replies leaves behind.
//!
//! They are stated over plain lists, so that they apply both to an intake of one thread and to one that many threads share.
//!
//! The functions of [`laws`] say what follows from the rules, by the definitions in `Laws.antt`. What a history leaves behind is what the rules
//! give for one event and reply after another. In every history that keeps to the rules, each planner gets the verdicts and costs of its accepted
//! plans in order, a refused event changes nothing, and a closed planner gets all of them once its jobs are finished.
#![tactic(auto)]

mod finding;
mod given_back;
mod job;
pub mod laws;
mod plan;
mod refusal;
mod reply;
mod shared_text;
mod stage;

pub use finding::Finding;
pub use given_back::{FinishRefused, SubmitRefused};
pub use job::Job;
pub use plan::{PlanForm, SubmittedPlan};
pub use refusal::Refusal;
pub use reply::Reply;
pub use shared_text::SharedText;
pub use stage::Stage;
