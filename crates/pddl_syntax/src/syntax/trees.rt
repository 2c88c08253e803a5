//! Formulas and effects as written.

use crate::syntax::{AtomSyntax, EqualitySyntax, IncreaseSyntax, VariableGroup};
use std::marker::Model;
use std::mem::size_of;

/// A formula as written. [`FormulaSyntax::node`] shows its parts, with their spans. Contracts see it as a tree without spans.
#[cycle(formula)]
#[derive(Drop)]
pub struct FormulaSyntax<'a> {
    node: FormulaNode<'a>,
}

/// The operator of a formula with its parts, or a literal. Only [`Dialect::Adl`](crate::Dialect::Adl) has more than literals and `and`.
#[cycle(formula)]
#[derive(Drop)]
pub enum FormulaNode<'a> {
    /// An atom that has to be true (`true`) or false.
    Atom(bool, AtomSyntax<'a>),
    /// Two terms that have to be the same (`true`) or different.
    Equality(bool, EqualitySyntax<'a>),
    /// A formula that must not hold. A `not` directly before an atom or an equality is no such node, but the sign of that literal.
    Not(Box<FormulaSyntax<'a>>),
    /// `and`, or `()`, which is an `and` without parts.
    And(Vec<FormulaSyntax<'a>>),
    /// `or`.
    Or(Vec<FormulaSyntax<'a>>),
    /// `imply`: a premise and a conclusion.
    Imply(Box<FormulaSyntax<'a>>, Box<FormulaSyntax<'a>>),
    /// `exists`: variables in their groups, and a formula.
    Exists(Vec<VariableGroup<'a>>, Box<FormulaSyntax<'a>>),
    /// `forall`: variables in their groups, and a formula.
    ForAll(Vec<VariableGroup<'a>>, Box<FormulaSyntax<'a>>),
}

// A goal may have hundreds of thousands of literals, each of them a part of an `and`.
const _: () = prove!(size_of::<FormulaSyntax<'static>>() <= 96);

impl<'a> Model for FormulaSyntax<'a> {
    ghost use Rattle.pddl_syntax.specs.Syntax.{FormulaForm};

    ghost Value = { FormulaForm };

    ghost use Rattle.pddl_syntax.specs.FormulaCode.{formula_code};

    ghost coded = { formula_code };

    ghost use Rattle.pddl_syntax.specs.Nodes.{formula_of};

    ghost view = { λ formula. formula_of formula.node };

    ghost use Rattle.pddl_syntax.specs.Heights.{height};

    ghost size = { height };

    ghost use Rattle.pddl_syntax.specs.LowerFormulas.{parts_lower};

    ghost size_decreases = { λ formula _. parts_lower formula.node };
}

impl<'a> FormulaSyntax<'a> {
    ghost use Rattle.std.specs.Prelude.{◌≡◌};
    ghost use Rattle.pddl_syntax.specs.Nodes.{formula_of};

    /// The formula with these parts. Takes no memory.
    pub(crate) fn new(node: FormulaNode<'a>) -> Self
        ensures { result ≡ formula_of node.entry }
    {
        FormulaSyntax { node }
    }

    /// The parts of the formula, which end it.
    pub(crate) fn into_node(self) -> FormulaNode<'a>
        ensures { formula_of result ≡ self.entry }
    {
        let FormulaSyntax { node } = self;
        node
    }

    /// The parts of the formula, to match on.
    pub fn node(&self) -> &FormulaNode<'a>
        ensures { formula_of result.now ≡ self.now }
    {
        &self.node
    }
}

/// An effect as written. [`EffectSyntax::node`] shows its parts, with their spans. Contracts see it as a tree without spans.
#[cycle(effect)]
#[derive(Drop)]
pub struct EffectSyntax<'a> {
    node: EffectNode<'a>,
}

/// The operator of an effect with its parts, or an effect without parts.
#[cycle(effect)]
#[derive(Drop)]
pub enum EffectNode<'a> {
    /// An atom that becomes true (`true`) or false.
    Atom(bool, AtomSyntax<'a>),
    /// An increase of `total-cost`. [`Dialect::Strips`](crate::Dialect::Strips) has none, and there is none under `when` or `forall`.
    Increase(Box<IncreaseSyntax<'a>>),
    /// `and`, or `()`, which is an `and` without parts.
    And(Vec<EffectSyntax<'a>>),
    /// `when`: a condition, and an effect. Only [`Dialect::Adl`](crate::Dialect::Adl) has it.
    When(Box<FormulaSyntax<'a>>, Box<EffectSyntax<'a>>),
    /// `forall`: variables in their groups, and an effect. Only [`Dialect::Adl`](crate::Dialect::Adl) has it.
    ForAll(Vec<VariableGroup<'a>>, Box<EffectSyntax<'a>>),
}

const _: () = prove!(size_of::<EffectSyntax<'static>>() <= 96);

impl<'a> Model for EffectSyntax<'a> {
    ghost use Rattle.pddl_syntax.specs.Syntax.{EffectForm};

    ghost Value = { EffectForm };

    ghost use Rattle.pddl_syntax.specs.EffectCode.{effect_code};

    ghost coded = { effect_code };

    ghost use Rattle.pddl_syntax.specs.Nodes.{effect_of};

    ghost view = { λ effect. effect_of effect.node };

    ghost use Rattle.pddl_syntax.specs.Heights.{effect_height};

    ghost size = { effect_height };

    ghost use Rattle.pddl_syntax.specs.LowerEffects.{parts_lower};

    ghost size_decreases = { λ effect _. parts_lower effect.node };
}

impl<'a> EffectSyntax<'a> {
    ghost use Rattle.std.specs.Prelude.{◌≡◌};
    ghost use Rattle.pddl_syntax.specs.Nodes.{effect_of};

    /// The effect with these parts. Takes no memory.
    pub(crate) fn new(node: EffectNode<'a>) -> Self
        ensures { result ≡ effect_of node.entry }
    {
        EffectSyntax { node }
    }

    /// The parts of the effect, to match on.
    pub fn node(&self) -> &EffectNode<'a>
        ensures { effect_of result.now ≡ self.now }
    {
        &self.node
    }
}
