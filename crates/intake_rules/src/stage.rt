//! How far a job has come.
use crate::Finding;

/// How far an accepted plan has come, from its acceptance to the emission of its finding.
#[derive(Drop)]
pub enum Stage {
    /// Nobody judges it.
    Waiting,
    /// It was given out to be judged.
    Out,
    /// It was judged, and this is its finding.
    Finished(Finding),
    /// Its finding was emitted.
    Emitted,
}
