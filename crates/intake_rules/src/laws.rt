//! What follows from the rules: each law is the contract of a function that does nothing.
//!
//! The first few say how a history grows: it begins as [`empty_history`] and grows by [`one_more`] event with its reply, and [`least_goes_on`] is
//! about an intake that gives out the least job. The others say what holds of every lawful history, and so, by [`prefixes_are_lawful`], at every
//! moment of it.
ghost use Rattle.std.specs.Prelude.{ℕ, List};
ghost use Rattle.strips_task.specs.declared.costs.CostedTask.{CostedTask};
ghost use Rattle.intake_rules.specs.declared.reply.Reply.{Reply};
ghost use Rattle.intake_rules.specs.History.{History, IsLawful, HasRightFindings};
ghost use Rattle.intake_rules.specs.Laws.{ComparesJobs, EmptyHistory, OneMore, LeastGoesOn, OneHistory, PrefixesAreLawful, VerdictsInOrder, RefusalsChangeNothing, RefusedAfterClose, RefusedDoubled, RefusedStrange, WholeListOnceClosed, CompleteIsWhole};
ghost use Rattle.intake_rules.specs.Rules.{Event};

use crate::Job;

/// [`Job::is_same`] answers true exactly for two jobs that contracts cannot tell apart.
pub fn same_jobs_are_equal(_job: &Job, _other: &Job)
    ensures { ComparesJobs _job.now _other.now }
{}

/// If nothing was asked, the intake has no job, no planner is closed and nothing is emitted.
pub fn empty_history()
    ensures { (planners slots : ℕ) → EmptyHistory planners slots }
{}

/// A lawful history stays lawful with one more event and reply that the rules allow, and then leaves the intake that the rules give.
pub fn one_more()
    ensures { (planners slots : ℕ) (history : History) (event : Event) (answer : Reply) → OneMore planners slots history event answer }
{}

/// The rules allow the answer that gives out the least waiting job. With it, a history that always gave out the least one still does.
pub fn least_goes_on()
    ensures { (planners slots : ℕ) (history : History) (event : Event) → LeastGoesOn planners slots history event }
{}

/// For each list of events there is exactly one lawful history that always gives out the least job.
pub fn one_history_of_events()
    ensures { (planners slots : ℕ) (events : List Event) → OneHistory planners slots events }
{}

/// The first pairs of a lawful history are a lawful history. The same holds of histories that give out the least jobs, and of those with right
/// findings.
pub fn prefixes_are_lawful()
    ensures { (planners slots : ℕ) (task : CostedTask) (history : History) → PrefixesAreLawful planners slots task history }
{}

/// The verdicts emitted for a planner are those of its first accepted plans, in the order of acceptance, each once, and each with the cost of its
/// plan.
pub fn verdicts_in_order()
    ensures { (planners slots : ℕ) (task : CostedTask) (history : History)
        → IsLawful planners slots history → HasRightFindings task history → VerdictsInOrder task history }
{}

/// What is refused changes nothing.
pub fn refusals_change_nothing()
    ensures { (history : History) → RefusalsChangeNothing history }
{}

/// No plan of a closed planner is accepted.
pub fn plans_after_close_are_refused()
    ensures { (planners slots : ℕ) (history : History) → IsLawful planners slots history → RefusedAfterClose history }
{}

/// No job is finished twice.
pub fn doubled_findings_are_refused()
    ensures { (planners slots : ℕ) (history : History) → IsLawful planners slots history → RefusedDoubled history }
{}

/// No finding is stored for a job that was not given out, and no finding of another job.
pub fn strange_findings_are_refused()
    ensures { (planners slots : ℕ) (history : History) → IsLawful planners slots history → RefusedStrange history }
{}

/// Once a planner is closed and all its jobs are finished, each emit gives a finding until all are emitted, and then `Complete` is answered.
pub fn whole_list_once_closed()
    ensures { (planners slots : ℕ) (history : History) → IsLawful planners slots history → WholeListOnceClosed history }
{}

/// When `Complete` is answered, the verdicts and costs emitted are those of all accepted plans of the planner.
pub fn complete_is_whole()
    ensures { (planners slots : ℕ) (task : CostedTask) (history : History)
        → IsLawful planners slots history → HasRightFindings task history → CompleteIsWhole task history }
{}
