//! What a seat knows. All these types but [`Setting`] are only for contracts.
use intake_rules::Job;
use plan_cost::CostedTask;
use std::collections::LinkedList;
use std::snapshot::Snapshot;

/// What a bench was made for.
#[derive(Drop)]
pub struct Setting {
    /// The task whose plans are judged, and what it says about costs.
    pub task: Snapshot<CostedTask>,
    /// How many planners there are.
    pub planners: u32,
    /// How many plans can be accepted.
    pub slots: u32,
}

/// Whose seat it is.
pub enum Role {
    /// The one seat that accepts plans and emits findings.
    Owner,
    /// A seat that was split off for a worker.
    Worker,
    /// A seat that was joined, and has nothing any more.
    Spent,
}

/// A slot that a seat holds, with the job that it took there.
pub struct Held {
    /// The slot.
    pub slot: u32,
    /// The job that was in it.
    pub job: Job,
}

/// What a seat knows. No value of it is ever made.
pub struct View {
    /// Whose seat it is.
    pub role: Role,
    /// What the bench was made for. `None` once the seat is spent.
    pub setting: Option<Setting>,
    /// The owner's: the jobs that were accepted, in order.
    pub jobs: LinkedList<Job>,
    /// The owner's: which planners are closed.
    pub closed: LinkedList<bool>,
    /// The owner's: how many findings were emitted for each planner.
    pub emitted: LinkedList<u32>,
    /// The owner's: how many seats were split off and not joined again yet.
    pub seats_out: u32,
    /// The owner's: whether it has the first unused slot in its hands, to put a job into it.
    pub lifted: bool,
    /// The owner's: whether it has shut the bench.
    pub shut: bool,
    /// The slots that the seat holds, the last one first.
    pub held: LinkedList<Held>,
    /// The slots whose jobs the seat knows to be finished: its own, and the owner's also those of the seats that were joined.
    pub finished: LinkedList<u32>,
    /// The slots that a step of the seat found in another state than it wanted.
    pub misses: LinkedList<u32>,
    /// Whether the seat has seen that the bench is shut.
    pub noted: bool,
}
