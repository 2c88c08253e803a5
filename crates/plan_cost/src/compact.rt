//! Costs for long lists.
ghost use Rattle.std.specs.Prelude.{◌≡◌};
ghost use Rattle.plan_cost.specs.CompactCosts.{IsCompact};

use crate::Cost;
use std::marker::Model;

/// The upper half of a cost that is not counted.
const NOT_COUNTED: u64 = u64::MAX;

/// The upper half of an undefined cost.
const UNDEFINED: u64 = u64::MAX - 1;

/// What an upper half counts.
const HALF: u128 = 1 << 64;

/// A [`Cost`] in 16 bytes, half of what a [`Cost`] takes, for keeping the costs of many plans. Contracts see the cost.
#[derive(Drop)]
pub struct CompactCost {
    high: u64,
    low: u64,
}

impl Model for CompactCost {
    ghost use Rattle.plan_cost.specs.declared.costs.Cost.{Cost};
    ghost use Rattle.plan_cost.specs.CompactCosts.{cost_of_halves};

    ghost Value = { Cost };

    ghost view = { λ cost. cost_of_halves cost.high cost.low };
}

impl CompactCost {
    /// Keeps a cost. Each cost of a plan is small enough.
    pub fn new(cost: Cost) -> CompactCost
        requires { IsCompact cost }
        ensures { result ≡ cost }
    {
        match cost {
            Cost::NotCounted => CompactCost {
                high: NOT_COUNTED,
                low: 0,
            },
            Cost::Undefined => CompactCost {
                high: UNDEFINED,
                low: 0,
            },
            Cost::Billionths(billionths) => CompactCost {
                high: (billionths / HALF) as u64,
                low: (billionths % HALF) as u64,
            },
        }
    }

    /// The cost.
    pub fn get(&self) -> Cost
        ensures { result ≡ self.now }
    {
        match self.high {
            NOT_COUNTED => Cost::NotCounted,
            UNDEFINED => Cost::Undefined,
            high => Cost::Billionths(u128::from(high) * HALF + u128::from(self.low)),
        }
    }
}
