//! What comes of the calls of a row.

use judge_engine::fault::JudgeFault;
use pddl_reader::{FaultKind, ReadFault};
use std::alloc::AllocError;

/// Why a row ended early.
#[derive(Clone, Copy, Debug, PartialEq, Eq)]
pub(crate) enum Stop {
    /// A call said that memory or a thread was refused, and left everything as it must.
    Refused,
    /// Something was not as it must be.
    Wrong,
}

/// What came of the calls of a row: `Ok` if each had its memory and gave the right answer.
pub(crate) type Seen = Result<(), Stop>;

/// What is seen if every call had its memory.
pub(crate) fn whole_if(is_right: bool) -> Seen {
    if is_right { Ok(()) } else { Err(Stop::Wrong) }
}

/// What is seen if a call was refused memory.
pub(crate) fn refused_if(is_right: bool) -> Seen {
    Err(stop_if(is_right))
}

/// Why a row ends if a call was refused memory.
fn stop_if(is_right: bool) -> Stop {
    if is_right { Stop::Refused } else { Stop::Wrong }
}

/// The exit status that says what is seen.
pub(crate) fn status(seen: Seen) -> u8 {
    match seen {
        Ok(()) => 0,
        Err(Stop::Wrong) => 1,
        Err(Stop::Refused) => 3,
    }
}

impl From<AllocError> for Stop {
    fn from(_: AllocError) -> Stop {
        Stop::Refused
    }
}

impl From<ReadFault> for Stop {
    /// The texts of the rows have no fault, and running out of memory has the span from 0 to 0.
    fn from(fault: ReadFault) -> Stop {
        stop_if(
            fault.kind == FaultKind::OutOfMemory && fault.span.start == 0 && fault.span.end == 0,
        )
    }
}

impl From<JudgeFault> for Stop {
    fn from(fault: JudgeFault) -> Stop {
        stop_if(matches!(fault, JudgeFault::OutOfMemory | JudgeFault::NoThread))
    }
}
