//! Outlets that stop after any number of bytes.

use crate::fixtures::{JUDGE, Narrow, REPORT, run};
use std::alloc::{AllocError, Global};
use std::sync::Wait;
use std::test::Fail;
use std::thread::Threads;

/// How a run ended, and what it wrote.
#[derive(Debug, Drop, PartialEq)]
struct Written {
    status: u8,
    report: Vec<u8>,
    errors: Vec<u8>,
}

/// What a run writes to an outlet that takes one byte at a time, and `room` bytes in all.
fn write_to(rt: &(impl AllocGlobal + Threads + Wait + Sync), room: usize, fails: bool) -> Written {
    let mut out = Narrow::new(rt.alloc(), 1, room, fails);
    let mut err = Narrow::wide(rt.alloc());
    let status = run(rt, JUDGE, &mut out, &mut err);
    Written {
        status,
        report: out.taken,
        errors: err.taken,
    }
}

/// What a run has to write if its outlet takes no more than this front of the report.
fn written_of(alloc: Global, front: &[u8]) -> Result<Written, AllocError> {
    let (status, errors): (u8, &[u8]) = if front.len() < REPORT.len() {
        (4, b"cannot write the report\n")
    } else {
        (0, b"")
    };
    Ok(Written {
        status,
        report: front.to_vec(alloc)?,
        errors: errors.to_vec(alloc)?,
    })
}

#[test]
fn reports_are_written_from_the_front(rt: HostRuntime) -> Result<(), Fail> {
    let report: &[u8] = REPORT;
    for room in 0..=report.len() {
        let expected = written_of(rt.alloc(), &report[..room])?;
        let failing = write_to(&rt, room, true);
        assert_eq!(rt; failing, expected, "failing after {room} bytes");
        let full = write_to(&rt, room, false);
        assert_eq!(rt; full, expected, "taking none after {room} bytes");
    }
    Ok(())
}

/// The status of a run whose outlets take `room` bytes of the report and `told` bytes of the error messages.
fn status_with(
    rt: &(impl AllocGlobal + Threads + Wait + Sync),
    words: &str,
    room: usize,
    told: usize,
) -> u8 {
    let mut out = Narrow::new(rt.alloc(), 100, room, true);
    let mut err = Narrow::new(rt.alloc(), 5, told, false);
    run(rt, words, &mut out, &mut err)
}

#[test]
fn faults_of_the_outlet_for_errors_are_ignored(rt: HostRuntime) {
    let missing = "plan_judge judge --domain domain --problem nosuch p";
    for told in [0, 1, 7] {
        assert_eq!(rt; status_with(&rt, JUDGE, 1000, told), 0);
        assert_eq!(rt; status_with(&rt, missing, 1000, told), 1);
        assert_eq!(rt; status_with(&rt, "plan_judge", 1000, told), 2);
        assert_eq!(rt; status_with(&rt, JUDGE, 20, told), 4);
    }
}
