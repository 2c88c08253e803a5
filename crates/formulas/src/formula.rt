//! Formulas, and what they are made of.

use crate::{Pattern, Seq, Term, VariableGroup};
use std::marker::Model;
use std::mem::size_of;

/// A formula of PDDL (PDDL 2.1, Fox and Long 2003, section 2). [`Formula::new`] makes one of its parts, and [`Formula::node`] shows them. Contracts see a
/// tree without addresses in memory, so a copy is the same as the original.
#[cycle(formula)]
#[derive(Drop)]
pub struct Formula {
    node: Node,
}

/// The operator of a formula with its parts, or a literal.
///
/// A literal has its sign in the node itself, and needs no memory of its own for an atom of at most four arguments.
#[cycle(formula)]
#[derive(Drop)]
pub enum Node {
    /// An atom that has to be true (`true`) or false.
    Atom(bool, Pattern),
    /// Two terms that have to stand for the same object (`true`) or for different ones.
    Equal(bool, Term, Term),
    /// A formula that must not hold. A `not` directly before an atom or an equality is no such node, but the sign of that literal.
    Not(Box<Formula>),
    /// Formulas that all have to hold. With none it always holds.
    And(Vec<Formula>),
    /// Formulas of which one has to hold. With none it never holds.
    Or(Vec<Formula>),
    /// A premise and a conclusion, which has to hold if the premise does.
    Imply(Box<Formula>, Box<Formula>),
    /// Variables, and a formula that has to hold for some choice of objects for them.
    Exists(Seq<VariableGroup>, Box<Formula>),
    /// Variables, and a formula that has to hold for every choice of objects for them.
    ForAll(Seq<VariableGroup>, Box<Formula>),
}

// A list of formulas takes 48 bytes for each, and a goal may have hundreds of thousands of literals.
const _: () = prove!(size_of::<Formula>() <= 48);

impl Model for Formula {
    ghost use Rattle.formulas.specs.Tree.{Tree};

    ghost Value = { Tree };

    ghost use Rattle.formulas.specs.TreeCode.{tree_code};

    ghost coded = { tree_code };

    ghost use Rattle.formulas.specs.Nodes.{tree_of};

    ghost view = { λ formula. tree_of formula.node };

    ghost use Rattle.formulas.specs.Tree.{height};

    ghost size = { height };

    ghost use Rattle.formulas.specs.Heights.{parts_lower};

    ghost size_decreases = { λ formula _. parts_lower formula.node };
}

impl Formula {
    ghost use Rattle.std.specs.Prelude.{◌≡◌};
    ghost use Rattle.formulas.specs.Nodes.{tree_of};

    /// The formula with these parts. Takes no memory.
    pub fn new(node: Node) -> Formula
        ensures { result ≡ tree_of node }
    {
        Formula { node }
    }

    /// The parts of the formula, to match on.
    #[inline(always)]
    pub fn node(&self) -> &Node
        ensures { tree_of result.now ≡ self.now }
    {
        &self.node
    }
}
