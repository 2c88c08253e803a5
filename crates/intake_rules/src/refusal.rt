//! Why an intake refuses.
ghost use Rattle.std.specs.Prelude.{◌≡◌};
ghost use Rattle.intake_rules.specs.Refusals.{refusal_word};

/// Why an intake refuses what it was asked. If there are several reasons, the first in the call's table in `specs/Rules.antt` is given.
#[derive(Clone, Copy, Debug, Drop, PartialEq, Eq)]
pub enum Refusal {
    /// There is no planner of this number.
    NoPlanner,
    /// The planner was closed, so no more plans of it are accepted.
    Closed,
    /// All slots are used.
    Full,
    /// The planner was closed before.
    AlreadyClosed,
    /// No accepted plan has this number.
    UnknownJob,
    /// The job has its finding.
    AlreadyFinished,
    /// The job was not given out, or was handed back.
    NotOut,
    /// The finding is of another job.
    OtherPlan,
    /// The planner's next finding is not there yet: its job, which has this number, is not finished.
    NotReady(u32),
    /// The findings of all accepted plans of the planner were emitted, and more plans may come.
    NothingYet,
    /// The findings of all accepted plans of the planner were emitted, and no more plans will come.
    Complete,
}

impl Refusal {
    /// The refusal in one word, as a report prints it. Takes no memory.
    pub fn word(self) -> &'static str
        ensures { result.now ≡ refusal_word self }
    {
        match self {
            Refusal::NoPlanner => "NoPlanner",
            Refusal::Closed => "Closed",
            Refusal::Full => "Full",
            Refusal::AlreadyClosed => "AlreadyClosed",
            Refusal::UnknownJob => "UnknownJob",
            Refusal::AlreadyFinished => "AlreadyFinished",
            Refusal::NotOut => "NotOut",
            Refusal::OtherPlan => "OtherPlan",
            Refusal::NotReady(_) => "NotReady",
            Refusal::NothingYet => "NothingYet",
            Refusal::Complete => "Complete",
        }
    }
}
