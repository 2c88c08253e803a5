//! What the rule means: each law is the contract of a function that does nothing.
//!
//! The first few say what the rule means for slots, seats and findings. Then there is one law for each kind of step: the step keeps the rule,
//! and the intake that the bench shows changes by the event of that kind, or not at all. [`history_goes_on`] says the same of histories.
ghost use Rattle.bench_rule.specs.declared.views.Setting.{Setting};
ghost use Rattle.bench_rule.specs.Laws.{HeldByOne, OutIfHeld, JobsRest, RightFindingsRest, HeldWithAccepted, OwnerKnowsAll, LiftLaw, PostLaw, TakeLaw, FinishLaw, HandBackLaw, EmitLaw, CloseLaw, LoadLaw, MissLaw, SplitLaw, JoinLaw, ShutLaw, NoteLaw, HistoryGoesOn, ShownByWords};
ghost use Rattle.bench_rule.specs.Sound.{Sound};
ghost use Rattle.bench_rule.specs.Views.{Bench};

/// No slot is held by two seats.
pub fn held_by_one()
    ensures { (setting : Setting) (bench : Bench) → Sound setting bench → HeldByOne bench }
{}

/// A slot is out exactly if a seat holds it.
pub fn out_if_held()
    ensures { (setting : Setting) (bench : Bench) → Sound setting bench → OutIfHeld bench }
{}

/// A waiting slot contains the job that was accepted there.
pub fn jobs_rest()
    ensures { (setting : Setting) (bench : Bench) → Sound setting bench → JobsRest setting bench }
{}

/// A finished slot contains a right finding of the job that was accepted there.
pub fn right_findings_rest()
    ensures { (setting : Setting) (bench : Bench) → Sound setting bench → RightFindingsRest setting bench }
{}

/// A seat that holds a slot holds it with the job that was accepted there.
pub fn held_with_accepted()
    ensures { (setting : Setting) (bench : Bench) → Sound setting bench → HeldWithAccepted bench }
{}

/// While no seat is out, the owner knows of each slot whether it is out, finished or emitted.
pub fn owner_knows_all()
    ensures { (setting : Setting) (bench : Bench) → Sound setting bench → OwnerKnowsAll bench }
{}

/// The load before a post keeps the rule and the shown intake.
pub fn lift_law()
    ensures { (setting : Setting) (bench : Bench) → Sound setting bench → LiftLaw setting bench }
{}

/// A post keeps the rule, and is a submit.
pub fn post_law()
    ensures { (setting : Setting) (bench : Bench) → Sound setting bench → PostLaw setting bench }
{}

/// A take keeps the rule, and is a take of the shown intake.
pub fn take_law()
    ensures { (setting : Setting) (bench : Bench) → Sound setting bench → TakeLaw setting bench }
{}

/// A finish keeps the rule, and is a finish of the shown intake.
pub fn finish_law()
    ensures { (setting : Setting) (bench : Bench) → Sound setting bench → FinishLaw setting bench }
{}

/// A hand-back keeps the rule, and is a hand-back of the shown intake.
pub fn hand_back_law()
    ensures { (setting : Setting) (bench : Bench) → Sound setting bench → HandBackLaw setting bench }
{}

/// An emit keeps the rule, and is an emit of the shown intake.
pub fn emit_law()
    ensures { (setting : Setting) (bench : Bench) → Sound setting bench → EmitLaw setting bench }
{}

/// A close keeps the rule, and is a close of the shown intake.
pub fn close_law()
    ensures { (setting : Setting) (bench : Bench) → Sound setting bench → CloseLaw setting bench }
{}

/// A load that finds what it wanted keeps the rule and the shown intake.
pub fn load_law()
    ensures { (setting : Setting) (bench : Bench) → Sound setting bench → LoadLaw setting bench }
{}

/// A miss keeps the rule and the shown intake.
pub fn miss_law()
    ensures { (setting : Setting) (bench : Bench) → Sound setting bench → MissLaw setting bench }
{}

/// A split keeps the rule and the shown intake.
pub fn split_law()
    ensures { (setting : Setting) (bench : Bench) → Sound setting bench → SplitLaw setting bench }
{}

/// A join keeps the rule and the shown intake.
pub fn join_law()
    ensures { (setting : Setting) (bench : Bench) → Sound setting bench → JoinLaw setting bench }
{}

/// The store that shuts the bench keeps the rule and the shown intake.
pub fn shut_law()
    ensures { (setting : Setting) (bench : Bench) → Sound setting bench → ShutLaw setting bench }
{}

/// A load that finds the bench shut keeps the rule and the shown intake.
pub fn note_law()
    ensures { (setting : Setting) (bench : Bench) → Sound setting bench → NoteLaw setting bench }
{}

/// After a step that is an event, a lawful history goes on lawfully with that event and leaves what the bench shows then.
pub fn history_goes_on()
    ensures { (setting : Setting) (before later : Bench) → HistoryGoesOn setting before later }
{}

/// What a bench shows depends only on its words and on what the owner knows. So a step, whose contract says what the seat knows afterwards and whose
/// body says which number it stores, changes the shown intake just as the law of its kind says, whatever is in the slots.
pub fn shown_by_words()
    ensures { (setting : Setting) (bench other : Bench) → Sound setting bench → ShownByWords setting bench other }
{}
