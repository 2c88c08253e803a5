//! Tasks and plans that are read, and verdicts on them.

use crate::seen::{Seen, refused_if, whole_if};
use crate::texts::{
    BLOCKS, CARGO, CARGO_1, LAMP, LAMP_1, LIGHT, LIGHT_TWICE, PAIR, PARK_CITY, PARK_TRUCK,
    PARK_VEHICLE, PICK_UP_TWICE, TWO,
};
use pddl_reader::{ReadFault, Seed, read_domain, read_problem};
use plan_cost::CostedTask;
use plan_text::read_plan;
use std::alloc::{AllocError, Global};
use std::sync::Arc;
use strips_judge::{Formula, Node, Plan, Task, Verdict, Why, judge};

/// The task of a domain and a problem, which counts no costs.
fn task(alloc: Global, domain: &[u8], problem: &[u8]) -> Result<CostedTask, ReadFault> {
    let task = read_problem(alloc, read_domain(alloc, Seed::fixed(), domain)?, problem)?;
    Ok(CostedTask { task, costs: None })
}

/// Drops a task. The prover takes some fifteen seconds for each function that drops one, so the others leave it to this one.
pub(crate) fn discard(_task: CostedTask) {}

/// The task of a lamp that is dark.
pub(crate) fn lamp(alloc: Global) -> Result<CostedTask, ReadFault> {
    task(alloc, LAMP, LAMP_1)
}

/// The task of two blocks.
pub(crate) fn blocks(alloc: Global) -> Result<CostedTask, ReadFault> {
    task(alloc, BLOCKS, TWO)
}

/// The plan that lights the lamp.
pub(crate) fn light(alloc: Global) -> Result<Arc<Plan>, AllocError> {
    Ok(Arc::new(alloc, read_plan(alloc, LIGHT)?)?)
}

/// A verdict as far as the rows look at it. Conditions are counted, and the first is known by its predicate.
#[derive(Clone, Copy, PartialEq, Eq)]
pub(crate) enum Found {
    Valid { steps: u32 },
    Missing { step: u32, first: u16, count: usize },
    WrongType { step: u32, arg: u32 },
    Goal { first: u16, count: usize },
    Other,
}

/// What a verdict finds.
pub(crate) fn found_in(verdict: &Verdict) -> Found {
    match verdict {
        Verdict::Valid { steps } => Found::Valid { steps: *steps },
        Verdict::Fails { step, why } => failure(*step, why),
        Verdict::Goal { missing } => Found::Goal {
            first: first(missing.as_slice()),
            count: missing.as_slice().len(),
        },
        Verdict::Unreadable { .. } => Found::Other,
    }
}

/// What is found of a step that fails.
fn failure(step: u32, why: &Why) -> Found {
    match why {
        Why::Missing(missing) => Found::Missing {
            step,
            first: first(missing.as_slice()),
            count: missing.as_slice().len(),
        },
        Why::WrongType { arg } => Found::WrongType { step, arg: *arg },
        _ => Found::Other,
    }
}

/// The predicate of the first condition. The domains here ask for atoms alone.
fn first(conditions: &[Formula]) -> u16 {
    match conditions.first() {
        Some(condition) => match condition.node() {
            Node::Atom(_, pattern) => pattern.pred,
            _ => u16::MAX,
        },
        None => u16::MAX,
    }
}

/// What the second of two steps that light the lamp finds.
pub(crate) const LIT_TWICE: Found = Found::Missing {
    step: 2,
    first: 1,
    count: 1,
};

/// Plans for the lamp: one lights it, one lights it twice, and one does nothing.
pub(crate) fn lamp_row(alloc: Global) -> Seen {
    let plans: [(&[u8], Found); 3] = [
        (LIGHT, Found::Valid { steps: 1 }),
        (LIGHT_TWICE, LIT_TWICE),
        (b"", Found::Goal { first: 0, count: 1 }),
    ];
    plans_row(alloc, lamp(alloc)?, &plans)
}

/// Plans for blocks, which fail at their first step and at their second.
pub(crate) fn blocks_row(alloc: Global) -> Seen {
    let held = Found::Missing {
        step: 1,
        first: 4,
        count: 1,
    };
    let picked_up = Found::Missing {
        step: 2,
        first: 2,
        count: 3,
    };
    let plans: [(&[u8], Found); 2] = [(PAIR, held), (PICK_UP_TWICE, picked_up)];
    plans_row(alloc, blocks(alloc)?, &plans)
}

/// Plans for cargo: one parks a truck, and two park what is no truck.
pub(crate) fn cargo_row(alloc: Global) -> Seen {
    let no_truck = Found::WrongType { step: 1, arg: 1 };
    let plans: [(&[u8], Found); 3] = [
        (PARK_TRUCK, Found::Valid { steps: 1 }),
        (PARK_CITY, no_truck),
        (PARK_VEHICLE, no_truck),
    ];
    plans_row(alloc, task(alloc, CARGO, CARGO_1)?, &plans)
}

/// What is seen of the verdicts on plans for a task.
fn plans_row(alloc: Global, task: CostedTask, plans: &[(&[u8], Found)]) -> Seen {
    let seen = judge_all(alloc, &task.task, plans);
    discard(task);
    seen
}

/// What is seen of the verdicts on plans, up to the first that is refused memory or wrong.
fn judge_all(alloc: Global, task: &Task, plans: &[(&[u8], Found)]) -> Seen {
    for plan in plans {
        judged(alloc, task, &read_plan(alloc, plan.0)?, plan.1)?;
    }
    Ok(())
}

/// What is seen of a plan's verdict. If judging was refused memory, the same plan is judged again.
fn judged(alloc: Global, task: &Task, plan: &Plan, wanted: Found) -> Seen {
    match judge(alloc, task, plan) {
        Ok(verdict) => whole_if(found_in(&verdict) == wanted),
        Err(AllocError) => refused_if(is_judged(alloc, task, plan, wanted)),
    }
}

/// Whether a plan is judged so.
fn is_judged(alloc: Global, task: &Task, plan: &Plan, wanted: Found) -> bool {
    match judge(alloc, task, plan) {
        Ok(verdict) => found_in(&verdict) == wanted,
        Err(AllocError) => false,
    }
}
