//! Runs with gates that hold jobs. That several threads really judge at once is shown by a gate where two jobs wait for each other.

ghost use Rattle.std.specs.Prelude.{◌≤◌};

use crate::fixtures::{LAMP, LAMP_1, is_raised_in_time};
use judge_bench::{Gate, Open};
use judge_engine::Seed;
use judge_engine::bundle::Bundle;
use judge_engine::engine::judge_bytes;
use judge_engine::fault::JudgeFault;
use judge_engine::report::Report;
use std::alloc::{AllocError, Global};
use std::sync::atomic::{AtomicBool, Ordering};
use std::sync::{Arc, Wait};
use std::test::Fail;
use std::thread::Threads;

/// The gate that may hold the jobs from one to another, and holds them all.
#[derive(Drop)]
struct Holds {
    first: u32,
    last: u32,
}

impl Gate for Holds {
    ghost use Rattle.std.specs.Prelude.{◌≤◌};

    ghost may_hold = { λ gate job. (gate.first ≤ job) × (job ≤ gate.last) };

    fn hold(&self, job: u32) -> bool {
        self.first <= job && job <= self.last
    }
}

/// The gate where jobs 0 and 1 wait for each other, and are held if that takes too long.
#[derive(Drop)]
pub(crate) struct Meeting {
    asked_of_0: AtomicBool,
    asked_of_1: AtomicBool,
}

impl Meeting {
    /// The gate that was not asked yet.
    pub(crate) fn new() -> Self {
        Meeting {
            asked_of_0: AtomicBool::new(false),
            asked_of_1: AtomicBool::new(false),
        }
    }
}

impl Gate for Meeting {
    ghost use Rattle.std.specs.Prelude.{⊤};

    ghost may_hold = { λ _ _. ⊤ };

    fn hold(&self, job: u32) -> bool {
        match job {
            0 => waits_in_vain(&self.asked_of_0, &self.asked_of_1),
            1 => waits_in_vain(&self.asked_of_1, &self.asked_of_0),
            _ => false,
        }
    }
}

/// Raises a flag and waits for the other, in vain if that takes too long.
fn waits_in_vain(mine: &AtomicBool, other: &AtomicBool) -> bool {
    mine.store(true, Ordering::SeqCst);
    !is_raised_in_time(other)
}

/// The file of a planner `p`.
pub(crate) fn bundle(alloc: Global, bytes: &[u8]) -> Result<Bundle, AllocError> {
    Ok(Bundle {
        name: String::from_str(alloc, "p")?,
        bytes: Arc::new(alloc, bytes.to_vec(alloc)?)?,
    })
}

/// The file of a planner with two plans that light the lamp, and of one with three.
const TWO: &[u8] = b"(light)\n---\n(light)\n";

const THREE: &[u8] = b"(light)\n---\n(light)\n---\n(light)\n";

/// The report of planners' files.
fn judged_all<G: Gate + Sync>(
    rt: &(impl AllocGlobal + Threads + Wait + Sync),
    bundles: &[Bundle],
    workers: u32,
    gate: &G,
) -> Result<Report, JudgeFault>
    requires { (1 ≤ workers) × (workers ≤ 32) }
{
    judge_bytes(
        rt,
        rt.alloc(),
        Seed::fixed(),
        LAMP,
        LAMP_1,
        bundles,
        workers,
        gate,
    )
}

/// The report of a planner's file.
fn judged<G: Gate + Sync>(
    rt: &(impl AllocGlobal + Threads + Wait + Sync),
    plans: &[u8],
    workers: u32,
    gate: &G,
) -> Result<Report, JudgeFault>
    requires { (1 ≤ workers) × (workers ≤ 32) }
{
    judged_all(rt, &[bundle(rt.alloc(), plans)?], workers, gate)
}

/// Why a run over three plans gives no report, if it gives none, with a gate that holds the jobs from `first` to `last`.
fn fault_of_holding(
    rt: &(impl AllocGlobal + Threads + Wait + Sync),
    workers: u32,
    first: u32,
    last: u32,
) -> Option<JudgeFault>
    requires { (1 ≤ workers) × (workers ≤ 32) }
{
    judged(rt, THREE, workers, &Holds { first, last }).err()
}

#[test]
fn a_held_job_is_told(rt: HostRuntime) {
    for workers in [1, 2, 32] {
        let one = fault_of_holding(&rt, workers, 1, 1);
        assert_eq!(rt; one, Some(JudgeFault::Held(1)), "{workers} workers");
        let two = fault_of_holding(&rt, workers, 1, 2);
        assert!(rt;
            matches!(two, Some(JudgeFault::Held(1 | 2))),
            "{workers} workers: {two:?}"
        );
        let none = fault_of_holding(&rt, workers, 3, 9);
        assert_eq!(rt; none, None, "{workers} workers");
    }
}

#[test]
fn two_workers_judge_at_once(rt: HostRuntime) -> Result<(), Fail> {
    let expected: &[u8] =
        b"domain lamp problem lamp-1\np 1 valid 1\np 2 valid 1\np plans 2 valid 2 best 1\n";
    let met = judged(&rt, TWO, 2, &Meeting::new())?;
    assert_eq!(rt; met.bytes(), expected);
    let alone = judged(&rt, TWO, 1, &Meeting::new()).err();
    assert!(rt;
        matches!(alone, Some(JudgeFault::Held(0 | 1))),
        "one worker: {alone:?}"
    );
    Ok(())
}

/// The report of a run without planners.
fn judged_none(rt: &(impl AllocGlobal + Threads + Wait + Sync)) -> Result<Report, JudgeFault> {
    judged_all(rt, &[], 4, &Open)
}

#[test]
fn a_run_without_planners_has_the_first_line_alone(rt: HostRuntime) -> Result<(), Fail> {
    let expected: &[u8] = b"domain lamp problem lamp-1\n";
    let report = judged_none(&rt)?;
    assert_eq!(rt; report.bytes(), expected);
    Ok(())
}

#[test]
fn causes_that_no_text_brings_have_status_3() {
    prove!(JudgeFault::NoThread.status() == 3);
    prove!(JudgeFault::Held(7).status() == 3);
}
