//! Two seeds: the hashes are others, and the report is the same.

use crate::fixtures::{LAMP, LAMP_1};
use crate::gates::bundle;
use judge_bench::Open;
use judge_engine::Seed;
use judge_engine::engine::judge_bytes;
use judge_engine::fault::JudgeFault;
use judge_engine::report::Report;
use pddl_reader::{ReadFault, read_domain, read_problem};
use std::hash::{BuildHasher, RandomState};
use std::io;
use std::random::RandomSource;
use std::sync::Wait;
use std::test::Fail;
use std::thread::Threads;

/// A source of bytes that are all the same.
#[derive(Drop)]
struct Always {
    byte: u8,
}

impl RandomSource for Always {
    fn fill_bytes(&self, buf: &mut [u8]) -> io::Result<()> {
        buf.fill(self.byte);
        Ok(())
    }
}

/// The seed that keys of this byte give.
fn seed_of(byte: u8) -> io::Result<Seed> {
    Ok(Seed::new(&RandomState::new(&Always { byte })?))
}

/// What the table of the initial atoms makes of the number 1 in a task that was read with a seed.
fn hash_in_task(rt: &impl AllocGlobal, seed: Seed) -> Result<u64, ReadFault> {
    let domain = read_domain(rt.alloc(), seed, LAMP)?;
    let task = read_problem(rt.alloc(), domain, LAMP_1)?;
    Ok(task.initial_atoms().seed().hash_one(&1u64))
}

/// The report of a planner with two plans, of which the second fails.
fn report(
    rt: &(impl AllocGlobal + Threads + Wait + Sync),
    seed: Seed,
) -> Result<Report, JudgeFault> {
    let bundles = [bundle(rt.alloc(), b"(light)\n---\n(light) (light)\n")?];
    judge_bytes(rt, rt.alloc(), seed, LAMP, LAMP_1, &bundles, 2, &Open)
}

const REPORT: &[u8] =
    b"domain lamp problem lamp-1\np 1 valid 1\np 2 fails at 2 (light): missing (dark)\np plans 2 valid 1 best 1\n";

#[test]
fn a_seed_changes_hashes_and_no_report(rt: HostRuntime) -> Result<(), Fail> {
    let one = seed_of(1)?;
    let other = seed_of(2)?;
    assert_ne!(rt; hash_in_task(&rt, one)?, hash_in_task(&rt, other)?);
    for seed in [one, other] {
        assert_eq!(rt; report(&rt, seed)?.bytes(), REPORT);
    }
    Ok(())
}
