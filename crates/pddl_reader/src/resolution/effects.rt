//! What the effects of actions stand for.
//!
//! The recursion goes as deep as lists nest in the text, at most 64 deep.

ghost use Rattle.std.specs.Prelude.{◌≡◌, ◌≤◌, length, unwrap_or, OnOk, Some};
ghost use Rattle.std.specs.Map.{keys_of};
ghost use Rattle.std.specs.Option.{option_map};
ghost use Rattle.formulas.specs.EffectTree.{change, conditional, universal};
ghost use Rattle.strips_task.specs.WellFormed.{most_types};
ghost use Rattle.pddl_syntax.specs.Forms.{atom_form, variable_groups};
ghost use Rattle.pddl_syntax.specs.Optional.{through};
ghost use Rattle.pddl_syntax.specs.Reading.{Gives, Puts};
ghost use Rattle.pddl_syntax.specs.Syntax.{effects_of as effect_forms, joint_effect, no_effects, universal_effect};
ghost use Rattle.pddl_reader.specs.Declarations.{pattern_of};
ghost use Rattle.pddl_reader.specs.Effects.{all_single_effects, changed, effect_meant, effects_of, joined, single_effects, with_change, with_effect};
ghost use Rattle.pddl_reader.specs.Resolved.{known_form, vocabulary_form};
ghost use Rattle.pddl_reader.specs.Bindings.{outside};

use crate::resolution::atoms::pattern;
use crate::resolution::conditions::formula;
use crate::resolution::functions::put_increase;
use crate::resolution::quantifiers::{Binding, bind};
use crate::resolution::scope::Scope;
use crate::resolution::tables::{Context, Declared};
use crate::resolution::vocabulary::Vocabulary;
use pddl_syntax::{
    AtomSyntax, EffectNode as SyntaxNode, EffectSyntax, FaultKind, ReadFault, VariableGroup,
};
use std::alloc::{AllocError, Global};
use strips_task::{Effect, EffectNode, Formula, Increases, NameTable, Pattern, Seq};

/// What an action does.
#[derive(Drop)]
pub(crate) struct Effects {
    /// What it adds in any case.
    pub(crate) add: Seq<Pattern>,
    /// What it deletes in any case.
    pub(crate) del: Seq<Pattern>,
    /// Its effects under `when` and `forall`.
    pub(crate) inner: Seq<Effect>,
    /// By how much it increases the total cost.
    pub(crate) increases: Increases,
}

/// The effect that makes an atom true, or with `positive` false makes it false.
#[tactic(auto, using(crate::proofs::ConditionMeaning::literal_steps))]
fn change(
    context: &Context<'_>,
    scope: &Scope<'_>,
    positive: bool,
    atom: &AtomSyntax<'_>,
) -> Result<Effect, ReadFault>
    ensures { Gives (λ effect. effect) result (option_map (change positive) (pattern_of (known_form context.now.known) scope.now (atom_form atom.now))) }
{
    let pattern = pattern(context.alloc, &context.known, scope, atom)?;
    Ok(Effect::new(EffectNode::Atom(positive, pattern)))
}

/// An effect that happens if a condition holds.
fn conditional(alloc: Global, condition: Formula, body: Effect) -> Result<Effect, ReadFault>
    ensures { Gives (λ effect. effect) result (Some (conditional condition body)) }
{
    let body = Box::new(alloc, body)?;
    Ok(Effect::new(EffectNode::When(condition, body)))
}

/// Leaves a quantifier behind its body, and puts the body under it.
fn quantification(
    alloc: Global,
    scope: &mut Scope<'_>,
    binding: Binding,
    body: Effect,
) -> Result<Effect, ReadFault>
    ensures effect { Gives (λ effect. effect) result (Some (universal binding.groups body)) }
    ensures left { scope.new ≡ outside binding.depth scope.old }
{
    let Binding { groups, depth } = binding;
    scope.leave(depth);
    let body = Box::new(alloc, body)?;
    Ok(Effect::new(EffectNode::ForAll(groups, body)))
}

/// The effect that syntax under `when` or `forall` stands for in a scope. The grammar lets no increase through there.
#[cycle(effects)]
#[tactic(auto, using(crate::proofs::EffectMeaning::effect_steps))]
fn effect<'a>(
    context: &Context<'_>,
    scope: &mut Scope<'a>,
    syntax: &EffectSyntax<'a>,
) -> Result<Effect, ReadFault>
    ensures meaning { Gives (λ effect. effect) result (effect_meant (keys_of context.now.types.now) (known_form context.now.known) scope.old syntax.now) }
    ensures same { OnOk result (scope.new ≡ scope.old) }
{
    match syntax.node() {
        SyntaxNode::Atom(positive, atom) => change(context, scope, *positive, atom),
        SyntaxNode::Increase(increase) => {
            Err(ReadFault::new(FaultKind::Unsupported, increase.span))
        }
        SyntaxNode::And(parts) => joint(context, scope, parts),
        SyntaxNode::When(condition, body) => {
            let condition = formula(context, scope, condition)?;
            let body = effect(context, scope, body)?;
            conditional(context.alloc, condition, body)
        }
        SyntaxNode::ForAll(groups, body) => quantified(context, scope, groups, body),
    }
}

/// The effect that several stand for together.
#[cycle(effects)]
#[tactic(auto, using(crate::proofs::EffectMeaning::joint_steps))]
fn joint<'a>(
    context: &Context<'_>,
    scope: &mut Scope<'a>,
    parts: &[EffectSyntax<'a>],
) -> Result<Effect, ReadFault>
    ensures meaning { Gives (λ effect. effect) result (effect_meant (keys_of context.now.types.now) (known_form context.now.known) scope.old (joint_effect (effect_forms parts.now))) }
    ensures same { OnOk result (scope.new ≡ scope.old) }
{
    let mut effects = Vec::new(context.alloc);
    'parts: for part in parts {
        effects.push(effect(context, scope, part)?)?;
    }
    Ok(Effect::new(EffectNode::And(effects)))
}

/// The effect that another stands for under a quantifier.
#[cycle(effects)]
#[tactic(auto, using(crate::proofs::EffectMeaning::quantified_steps))]
fn quantified<'a>(
    context: &Context<'_>,
    scope: &mut Scope<'a>,
    groups: &[VariableGroup<'a>],
    body: &EffectSyntax<'a>,
) -> Result<Effect, ReadFault>
    ensures meaning { Gives (λ effect. effect) result
        (effect_meant (keys_of context.now.types.now) (known_form context.now.known) scope.old (universal_effect (variable_groups groups.now) body.now)) }
    ensures same { OnOk result (scope.new ≡ scope.old) }
{
    let binding = bind(context.alloc, context.types, scope, groups)?;
    let body = effect(context, scope, body)?;
    quantification(context.alloc, scope, binding, body)
}

/// Appends a pattern to those that are added (`positive`) or to those that are deleted.
fn put_pattern(effects: &mut Effects, positive: bool, pattern: Pattern) -> Result<(), AllocError>
    ensures { OnOk result (effects.new ≡ changed effects.old positive pattern) }
{
    if positive {
        effects.add.push(pattern)?;
    } else {
        effects.del.push(pattern)?;
    }
    Ok(())
}

/// Appends what an atom of an effect adds or deletes.
#[tactic(auto, using(crate::proofs::EffectMeaning::change_steps))]
fn put_change(
    alloc: Global,
    known: &Declared<'_>,
    scope: &Scope<'_>,
    effects: &mut Effects,
    positive: bool,
    atom: &AtomSyntax<'_>,
) -> Result<(), ReadFault>
    ensures { Puts result (with_change effects.old positive (pattern_of (known_form known.now) scope.now (atom_form atom.now))) effects.new }
{
    let pattern = pattern(alloc, known, scope, atom)?;
    put_pattern(effects, positive, pattern)?;
    Ok(())
}

/// Appends an effect under `when` or `forall`.
#[tactic(auto, using(crate::proofs::EffectMeaning::inner_steps))]
fn put_inner<'a>(
    alloc: Global,
    types: &NameTable<()>,
    known: &Declared<'_>,
    scope: &mut Scope<'a>,
    effects: &mut Effects,
    syntax: &EffectSyntax<'a>,
) -> Result<(), ReadFault>
    requires { length types.now ≤ most_types }
    ensures meaning { Puts result (option_map (joined effects.old) (effect_meant (keys_of types.now) (known_form known.now) scope.old syntax.now)) effects.new }
    ensures same { OnOk result (scope.new ≡ scope.old) }
{
    let context = Context {
        alloc,
        types,
        known: *known,
    };
    let inner = effect(&context, scope, syntax)?;
    effects.inner.push(inner)?;
    Ok(())
}

/// Appends what an effect that is no `and` does: an atom or an increase does it in any case.
#[tactic(auto, using(crate::proofs::EffectMeaning::single_steps))]
fn put_single<'a>(
    alloc: Global,
    types: &NameTable<()>,
    vocabulary: &Vocabulary<'_>,
    scope: &mut Scope<'a>,
    effects: &mut Effects,
    syntax: &EffectSyntax<'a>,
) -> Result<(), ReadFault>
    requires { length types.now ≤ most_types }
    ensures meaning { Puts result (with_effect (keys_of types.now) (vocabulary_form vocabulary.now) scope.old effects.old syntax.now) effects.new }
    ensures same { OnOk result (scope.new ≡ scope.old) }
{
    let known = &vocabulary.atoms;
    match syntax.node() {
        SyntaxNode::Atom(positive, atom) => put_change(
            alloc, known, scope, effects, *positive, atom,
        ),
        SyntaxNode::Increase(increase) => {
            put_increase(alloc, vocabulary, scope, &mut effects.increases, increase)
        }
        _ => put_inner(alloc, types, known, scope, effects, syntax),
    }
}

/// Appends what an effect does, with what is under `and` at the top.
#[cycle(single_effects)]
#[tactic(auto, using(crate::proofs::EffectMeaning::conjunct_steps))]
fn put_effect<'a>(
    alloc: Global,
    types: &NameTable<()>,
    vocabulary: &Vocabulary<'_>,
    scope: &mut Scope<'a>,
    effects: &mut Effects,
    syntax: &EffectSyntax<'a>,
) -> Result<(), ReadFault>
    requires { length types.now ≤ most_types }
    ensures meaning { Puts result (through (with_effect (keys_of types.now) (vocabulary_form vocabulary.now) scope.old) effects.old (single_effects syntax.now)) effects.new }
    ensures same { OnOk result (scope.new ≡ scope.old) }
{
    match syntax.node() {
        SyntaxNode::And(parts) => put_effects(alloc, types, vocabulary, scope, effects, parts),
        _ => put_single(alloc, types, vocabulary, scope, effects, syntax),
    }
}

/// The same for each effect of a list.
#[cycle(single_effects)]
#[tactic(auto, using(crate::proofs::EffectMeaning::all_single_steps))]
fn put_effects<'a>(
    alloc: Global,
    types: &NameTable<()>,
    vocabulary: &Vocabulary<'_>,
    scope: &mut Scope<'a>,
    effects: &mut Effects,
    parts: &[EffectSyntax<'a>],
) -> Result<(), ReadFault>
    requires { length types.now ≤ most_types }
    ensures meaning { Puts result
        (through (with_effect (keys_of types.now) (vocabulary_form vocabulary.now) scope.old) effects.old (all_single_effects (effect_forms parts.now))) effects.new }
    ensures same { OnOk result (scope.new ≡ scope.old) }
{
    'parts: for part in parts {
        put_effect(alloc, types, vocabulary, scope, effects, part)?;
    }
    Ok(())
}

/// What the effect of an action does, which is nothing if it is not given.
#[tactic(auto, using(crate::proofs::EffectMeaning::part_steps))]
pub(crate) fn part_effects<'a>(
    alloc: Global,
    types: &NameTable<()>,
    vocabulary: &Vocabulary<'_>,
    scope: &mut Scope<'a>,
    part: &Option<EffectSyntax<'a>>,
) -> Result<Effects, ReadFault>
    requires { length types.now ≤ most_types }
    ensures meaning { Gives (λ effects. effects) result
        (effects_of (keys_of types.now) (vocabulary_form vocabulary.now) scope.old (unwrap_or part.now (joint_effect no_effects))) }
    ensures same { OnOk result (scope.new ≡ scope.old) }
{
    let mut effects = Effects {
        add: Seq::new(alloc),
        del: Seq::new(alloc),
        inner: Seq::new(alloc),
        increases: Increases::new(alloc),
    };
    if let Some(syntax) = part {
        put_effect(alloc, types, vocabulary, scope, &mut effects, syntax)?;
    }
    Ok(effects)
}
