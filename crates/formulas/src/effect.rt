//! Effects under `when` and `forall`.

use crate::{Formula, Pattern, Seq, VariableGroup};
use std::marker::Model;

/// An effect of an action (PDDL 2.1, Fox and Long 2003, section 6). [`Effect::new`] makes one of its parts, and [`Effect::node`] shows them. Contracts see a
/// tree without addresses in memory.
#[cycle(effect)]
#[derive(Drop)]
pub struct Effect {
    node: EffectNode,
}

/// The operator of an effect with its parts, or an atom that it changes.
#[cycle(effect)]
#[derive(Drop)]
pub enum EffectNode {
    /// An atom that becomes true (`true`) or false.
    Atom(bool, Pattern),
    /// Effects that all happen.
    And(Vec<Effect>),
    /// A condition, and an effect that happens if the condition holds in the state before the step.
    When(Formula, Box<Effect>),
    /// Variables, and an effect that happens for every choice of objects for them.
    ForAll(Seq<VariableGroup>, Box<Effect>),
}

impl Model for Effect {
    ghost use Rattle.formulas.specs.EffectTree.{EffectTree};

    ghost Value = { EffectTree };

    ghost use Rattle.formulas.specs.EffectCode.{effect_code};

    ghost coded = { effect_code };

    ghost use Rattle.formulas.specs.EffectNodes.{effect_of};

    ghost view = { λ effect. effect_of effect.node };

    ghost use Rattle.formulas.specs.EffectTree.{effect_height};

    ghost size = { effect_height };

    ghost use Rattle.formulas.specs.EffectHeights.{parts_lower};

    ghost size_decreases = { λ effect _. parts_lower effect.node };
}

impl Effect {
    ghost use Rattle.std.specs.Prelude.{◌≡◌};
    ghost use Rattle.formulas.specs.EffectNodes.{effect_of};

    /// The effect with these parts. Takes no memory.
    pub fn new(node: EffectNode) -> Effect
        ensures { result ≡ effect_of node }
    {
        Effect { node }
    }

    /// The parts of the effect, to match on.
    #[inline(always)]
    pub fn node(&self) -> &EffectNode
        ensures { effect_of result.now ≡ self.now }
    {
        &self.node
    }
}
