//! Where the plans of a run come from.
ghost use Rattle.std.specs.Prelude.{◌≡◌, [], ◌∷◌, List, IfOk, IsOk, MatchOption};

use crate::Submission;
use std::alloc::AllocError;
use std::marker::Model;
use std::vec::IntoIter;

/// Where the plans of a run come from, one after another.
pub trait Intake {
    ghost use Rattle.std.specs.Prelude.{List};
    ghost use Rattle.judge_bench.specs.Submissions.{SubmissionParts};

    // The plans that are still to come, in order.
    ghost to_come: { Self → List SubmissionParts };

    /// The next plan, and `None` exactly at the end. After an error nothing is known about what is still to come.
    fn next(&mut self) -> Result<Option<Submission>, AllocError>
        ensures { IfOk result (λ found. MatchOption found ((to_come self.old ≡ []) × (to_come self.new ≡ [])) (λ submission. to_come self.old ≡ submission ∷ to_come self.new)) };
}

/// The plans of a list, in order. Contracts see those that are still to come.
#[derive(Drop)]
pub struct Listed {
    rest: IntoIter<Submission>,
}

impl Model for Listed {
    ghost use Rattle.std.specs.Prelude.{◌≡◌, List, length};
    ghost use Rattle.std.specs.Vec.Iter.{into_iter_items, into_iter_len};
    ghost use Rattle.judge_bench.specs.Submissions.{SubmissionParts};

    ghost Value = { List SubmissionParts };

    ghost view = { λ listed. into_iter_items listed.rest };

    ghost invariant = { λ listed. into_iter_len listed.rest ≡ length (into_iter_items listed.rest) };
}

impl Listed {
    /// The plans of this list. Takes no memory.
    pub fn new(plans: Vec<Submission>) -> Listed
        ensures { result ≡ plans.items }
    {
        Listed {
            rest: plans.into_iter(),
        }
    }
}

impl Intake for Listed {
    ghost to_come = { λ listed. listed };

    fn next(&mut self) -> Result<Option<Submission>, AllocError>
        ensures next { IfOk result (λ found. MatchOption found ((self.old ≡ []) × (self.new ≡ [])) (λ submission. self.old ≡ submission ∷ self.new)) }
        ensures always { IsOk result }
    {
        Ok(self.rest.next())
    }
}
