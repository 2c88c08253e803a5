//! What the judge says about a plan.
use crate::unmet::Unmet;

/// Whether a plan is valid, and if not, why.
#[derive(Drop)]
pub enum Verdict {
    /// Each step is applicable in its turn, and the goal holds after the last.
    Valid {
        /// How many steps the plan has.
        steps: u32,
    },
    /// A step is not applicable, and each step before it is.
    Fails {
        /// The step, counted from 1.
        step: u32,
        /// What is wrong with it.
        why: Why,
    },
    /// Each step is applicable in its turn, but the goal does not hold after the last.
    Goal {
        /// The goal's conditions that do not hold, in the goal's order, each once.
        missing: Unmet,
    },
    /// The plan's text could not be read.
    Unreadable {
        /// The line of the fault, counted from 1.
        line: u32,
    },
}

/// Why a step is not applicable. If there are several reasons, only the first in this order is reported.
#[derive(Drop)]
pub enum Why {
    /// No action of the task has the name.
    UnknownAction,
    /// The step has fewer or more arguments than the action has parameters.
    WrongCount,
    /// An argument is the name of no object.
    UnknownObject {
        /// The first such argument, counted from 1.
        arg: u32,
    },
    /// All arguments are objects, and one is of none of the types of its parameter.
    WrongType {
        /// The first such argument, counted from 1.
        arg: u32,
    },
    /// Conditions of the action that do not hold before the step, in the order of the precondition, each once.
    Missing(Unmet),
}
