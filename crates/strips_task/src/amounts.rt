//! The amounts by which actions increase the total cost.
ghost use Rattle.std.specs.Prelude.{◌≡◌, ◌<◌, ◌≤◌, [], ◌∷◌, ◌++◌, length, OnOk, OnErr, IfErr};

use crate::{Seq, ShortSeq, Term};
use std::alloc::{AllocFailed, Global};
use std::marker::Model;

/// How many increases an action may have.
pub const MOST_INCREASES: usize = 32;

/// By how much an effect increases the total cost.
#[derive(Drop)]
pub enum Amount {
    /// A number of billionths.
    Number(u64),
    /// The value of a function of the action's parameters and of constants.
    Function {
        /// The number of the function.
        function: u16,
        /// The terms, in the order of the function's arguments.
        terms: ShortSeq<Term>,
    },
}

/// The amounts by which an action increases the total cost, in the order of the text, at most [`MOST_INCREASES`]. Contracts see the list
/// of them.
pub struct Increases {
    amounts: Seq<Amount>,
}

impl Drop for Increases {
    fn drop(self) {
        let Self { amounts: _ } = self;
    }
}

impl Model for Increases {
    ghost use Rattle.std.specs.Prelude.{List, ◌≤◌, length};
    ghost use Rattle.strips_task.specs.declared.amounts.Amount.{Amount};
    ghost use Rattle.strips_task.specs.declared.amounts.TheConstants.{MOST_INCREASES};

    ghost Value = { List Amount };

    ghost view = { λ i. i.amounts };

    ghost invariant = { λ i. length i.amounts ≤ MOST_INCREASES };
}

impl Increases {
    /// No increase. Takes no memory.
    pub fn new(alloc: Global) -> Self
        ensures { result ≡ [] }
    {
        Increases {
            amounts: Seq::new(alloc),
        }
    }

    /// Adds an amount at the end. If memory runs out, the amount is given back.
    pub fn push(&mut self, amount: Amount) -> Result<(), AllocFailed<Amount>>
        requires { length self.old < MOST_INCREASES }
        ensures ok { OnOk result (self.new ≡ self.old ++ amount ∷ []) }
        ensures err { OnErr result (self.new ≡ self.old) }
        ensures value_returned { IfErr result (λ failed. failed.value ≡ amount) }
    {
        self.amounts.push(amount)
    }

    /// How many increases the action has.
    pub fn len(&self) -> usize
        ensures len { result ≡ length self.now }
        ensures limit { length self.now ≤ MOST_INCREASES }
    {
        self.amounts.len()
    }

    /// All amounts as a slice.
    pub fn as_slice(&self) -> &[Amount]
        ensures amounts { result.now ≡ self.now }
        ensures limit { length self.now ≤ MOST_INCREASES }
    {
        self.amounts.as_slice()
    }
}
