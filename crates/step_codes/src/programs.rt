//! Programs: how a code finds the changes of conditional effects.
//!
//! Which effects under `when` happen depends on the state before the step. So the code of a step with such effects has a program, which tests the
//! atoms of their conditions by number, and finds the numbers of the atoms that change.
ghost use Rattle.std.specs.Prelude.{◌≡◌, ◌++◌, true, false, OnOk};
ghost use Rattle.bit_rows.specs.Rows.{row_has};
ghost use Rattle.step_codes.specs.Programs.{numbers_changed};

use std::alloc::AllocError;
use strips_judge::{Changes, NumberedState};

/// One instruction of a program, with the number of an atom in a [`NumberedState`].
#[derive(Clone, Copy)]
pub enum Instruction {
    /// If the atom is not true, or not false if `truth` is false, so many of the next instructions are skipped.
    Test { truth: bool, number: u32, skip: u32 },
    /// The atom becomes true, or false if `truth` is false.
    Change { truth: bool, number: u32 },
}

/// Adds the numbers that a program finds in a state to the changes.
pub(crate) fn run(
    state: &NumberedState<'_>,
    program: &[Instruction],
    changes: &mut Changes,
) -> Result<(), AllocError>
    ensures deleted { OnOk result (changes.new.deleted.items ≡ changes.old.deleted.items ++ numbers_changed (row_has state.now.bits) false 0 program.now) }
    ensures added { OnOk result (changes.new.added.items ≡ changes.old.added.items ++ numbers_changed (row_has state.now.bits) true 0 program.now) }
{
    let mut at = 0;
    while at < program.len() {
        let instruction = &program[at];
        at += 1;
        match instruction {
            Instruction::Test {
                truth,
                number,
                skip,
            } => {
                if state.has(*number as usize) != *truth {
                    at += *skip as usize;
                }
            }
            Instruction::Change {
                truth: true,
                number,
            } => changes.added.push(*number)?,
            Instruction::Change {
                truth: false,
                number,
            } => changes.deleted.push(*number)?,
        }
    }
    Ok(())
}
