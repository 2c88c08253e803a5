//! The text that says why texts give no report, as `domain line 8 bytes 231-233: UnknownName`.
ghost use Rattle.std.specs.Prelude.{◌≡◌, ◌++◌, OnOk};
ghost use Rattle.judge_engine.specs.FaultText.{fault_line, fault_text, line_at, place_text};

use crate::fault::JudgeFault;
use pddl_reader::ReadFault;
use pddl_tokens::line_of;
use report_text::Text;
use std::alloc::AllocError;

/// Adds why texts give no report, without an LF. The fault is in this line of its text ([`line_of_fault`]), and an input that is too large has this name.
pub fn push_fault(
    text: &mut Text,
    fault: JudgeFault,
    line: u32,
    name: &[u8],
) -> Result<(), AllocError>
    ensures { OnOk result (text.new ≡ text.old ++ fault_text name.now line fault) }
{
    match fault {
        JudgeFault::TooLarge(_) => {
            text.push(name)?;
            text.push(b" is too large")
        }
        JudgeFault::TooManyPlanners => text.push(b"more than 64 planners"),
        JudgeFault::Domain(fault) => {
            text.push(b"domain")?;
            push_place(text, line, fault)
        }
        JudgeFault::Problem(fault) => {
            text.push(b"problem")?;
            push_place(text, line, fault)
        }
        JudgeFault::TooManyPlans => text.push(b"more than 65536 plans"),
        JudgeFault::Steps(fault) => {
            text.push(b"steps line ")?;
            text.push_number(line as usize)?;
            text.push(b": ")?;
            text.push(fault.kind.word().as_bytes())
        }
        JudgeFault::OutOfMemory => text.push(b"out of memory"),
        JudgeFault::NoThread => text.push(b"no thread"),
        JudgeFault::Held(_) => text.push(b"a job is held"),
    }
}

/// Adds where a text is refused: the line, the offsets of the first byte and of the end, and the kind of fault.
fn push_place(text: &mut Text, line: u32, fault: ReadFault) -> Result<(), AllocError>
    ensures { OnOk result (text.new ≡ text.old ++ place_text line fault) }
{
    text.push(b" line ")?;
    text.push_number(line as usize)?;
    text.push(b" bytes ")?;
    text.push_number(fault.span.start as usize)?;
    text.push(b"-")?;
    text.push_number(fault.span.end as usize)?;
    text.push(b": ")?;
    text.push(fault.kind.word().as_bytes())
}

/// The line of a fault in the text that has it, counted from 1, and 1 for a fault of no place. Goes over the bytes before the fault.
pub fn line_of_fault(fault: JudgeFault, domain: &[u8], problem: &[u8]) -> u32
    ensures { result ≡ fault_line domain.now problem.now fault }
{
    match fault {
        JudgeFault::Domain(fault) => line_at(domain, fault.span.start),
        JudgeFault::Problem(fault) => line_at(problem, fault.span.start),
        JudgeFault::Steps(fault) => fault.line,
        _ => 1,
    }
}

/// The line of an offset in a text. An offset past the end counts as the end, and a text of 2^31 bytes or more as one line.
#[tactic(auto, unfolding(crate::specs::FaultText::line_at))]
fn line_at(text: &[u8], offset: u32) -> u32
    ensures { result ≡ line_at text.now offset }
{
    if text.len() < 1 << 31 {
        line_of(text, offset.min(text.len() as u32))
    } else {
        1
    }
}
