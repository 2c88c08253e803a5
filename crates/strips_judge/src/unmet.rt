//! Conditions that do not hold.
ghost use Rattle.std.specs.Prelude.{◌≡◌, IfOk};

use std::alloc::{AllocError, Global};
use std::marker::Model;
use strips_task::{Formula, Seq};

/// Conditions that do not hold. Contracts see the list of them.
///
/// The list lies elsewhere, so that a verdict takes 24 bytes, whatever it says. A run keeps one for each plan.
pub struct Unmet {
    formulas: Box<Seq<Formula>>,
}

impl Drop for Unmet {
    fn drop(self) {
        let Self { formulas: _ } = self;
    }
}

impl Model for Unmet {
    ghost use Rattle.std.specs.Prelude.{List};
    ghost use Rattle.formulas.specs.Tree.{Tree};
    ghost use Rattle.formulas.specs.contracts.formula.Formula as formula;
    ghost use Rattle.std.specs.Coded.{codes};

    ghost Value = { List Tree };

    ghost coded = { Prim.hlevel (codes, formula.the_row.coded) };

    ghost view = { λ unmet. unmet.formulas.value };
}

impl Unmet {
    /// These conditions. Takes memory for where the list lies, and none for the conditions.
    pub fn new(alloc: Global, formulas: Seq<Formula>) -> Result<Unmet, AllocError>
        ensures { IfOk result (λ unmet. unmet ≡ formulas) }
    {
        Ok(Unmet {
            formulas: Box::new(alloc, formulas)?,
        })
    }

    /// The conditions, in order. Takes no memory.
    pub fn as_slice(&self) -> &[Formula]
        ensures { result.now ≡ self.now }
    {
        self.formulas.as_slice()
    }
}
