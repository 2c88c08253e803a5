//! What may keep a job from being judged.
ghost use Rattle.std.specs.Prelude.{ℕ, IsTrue};

/// What may keep a job from being judged. Several threads may ask it at once, about each job before it is judged.
pub trait Gate {
    // Holds of a gate and the numbers of the jobs that it may hold.
    ghost may_hold: { Self → ℕ → Type 0 };

    /// Whether the job with this number is held.
    fn hold(&self, job: u32) -> bool
        ensures { IsTrue result → may_hold self.now job };
}

/// The gate that holds no job.
#[derive(Drop)]
pub struct Open;

impl Gate for Open {
    ghost may_hold = { λ _ _. ⊥ };

    fn hold(&self, _job: u32) -> bool {
        false
    }
}
