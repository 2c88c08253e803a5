//! What a task says about costs.
ghost use Rattle.std.specs.Prelude.{◌≡◌, ◌≤◌, [], length, slice_get, unwrap_or};

use crate::{Amount, Atom, FunctionValues, Increases, MOST_INCREASES, Seed, Seq, ShortSeq, Task};
use std::alloc::Global;

/// What a task says about costs, if its domain declares `total-cost`.
pub struct Costs {
    /// The number of the function `total-cost`.
    pub total_cost: u16,
    /// The increases of each action, by its number in the task. An action past the end of the list has none.
    pub increases: Seq<Increases>,
    /// The values that the problem gives to functions. That of `total-cost` is the cost before the first step.
    pub values: FunctionValues,
}

impl Drop for Costs {
    fn drop(self) {
        let Self {
            total_cost: _,
            increases: _,
            values: _,
        } = self;
    }
}

impl Costs {
    ghost use Rattle.strips_task.specs.Values.{initial_cost};

    /// Costs in which no action has increases and no function has a value. Their table hashes with a seed. Takes no memory.
    pub fn new(alloc: Global, seed: Seed, total_cost: u16) -> Self
        ensures { result ≡ record { total_cost = total_cost; increases = []; values = [] } }
    {
        Costs {
            total_cost,
            increases: Seq::new(alloc),
            values: FunctionValues::new(alloc, seed),
        }
    }

    /// The value that the total cost begins with, in billionths: 0 if the problem gives none. Takes no memory.
    pub fn initial_cost(&self, alloc: Global) -> u64
        ensures { result ≡ initial_cost self.now }
    {
        let total_cost = Atom {
            pred: self.total_cost,
            args: ShortSeq::new(alloc),
        };
        self.values.value_of(&total_cost).unwrap_or(0)
    }

    /// The increases of the action with a number.
    pub fn increases_of(&self, action: u16) -> &[Amount]
        ensures amounts { result.now ≡ unwrap_or (slice_get self.now.increases action) [] }
        ensures few { length result.now ≤ MOST_INCREASES }
    {
        let action = usize::from(action);
        if action < self.increases.len() {
            self.increases.get(action).as_slice()
        } else {
            &[]
        }
    }
}

/// A task, and what it says about costs.
pub struct CostedTask {
    /// The task itself.
    pub task: Task,
    /// What it says about costs: `None` if its domain declares no `total-cost`.
    pub costs: Option<Costs>,
}

impl CostedTask {
    ghost use Rattle.std.specs.Prelude.{◌≡◌};

    /// The task itself, without what it says about costs.
    pub fn into_task(self) -> Task
        ensures { result ≡ self.task }
    {
        let Self { task, costs: _ } = self;
        task
    }
}

impl Drop for CostedTask {
    fn drop(self) {
        let Self { task: _, costs: _ } = self;
    }
}
