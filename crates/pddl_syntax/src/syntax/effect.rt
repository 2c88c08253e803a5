//! Effects.

ghost use Rattle.std.specs.Prelude.{◌≡◌};
ghost use Rattle.pddl_syntax.specs.Levels.{here};
ghost use Rattle.pddl_syntax.specs.Reading.{ReadsList};
ghost use Rattle.pddl_syntax.specs.Forms.{variable_groups};
ghost use Rattle.pddl_syntax.specs.Syntax.{bound_effect_in, conditional_in, effect_in, effects_in, headed_effect, lone_effect};

use crate::fault::{FaultKind, ReadFault};
use crate::heads::{Context, ListHead, Scope, list_head};
use crate::syntax::VariableGroup;
use crate::syntax::atoms::{atom, negated_atom};
use crate::syntax::costs::increase;
use crate::syntax::formula::formula;
use crate::syntax::lists::{enter_list, leave_list};
use crate::syntax::trees::{EffectNode, EffectSyntax, FormulaSyntax};
use crate::syntax::variables::typed_variables;
use crate::walk::{Item, NameWord, Walk, Word};
use std::alloc::Global;

/// Reads what is in the parentheses of an effect.
#[cycle(effects)]
#[tactic(auto, using(crate::proofs::EffectLemmas::effect_steps))]
pub(crate) fn effect<'a>(
    alloc: Global,
    walk: &mut Walk<'a>,
    scope: Scope,
) -> Result<EffectSyntax<'a>, ReadFault>
    ensures { ReadsList (λ e. e) result (effect_in scope) (here walk.old.cursor) (here walk.new.cursor) }
{
    match walk.next() {
        Item::Close(_) => Ok(EffectSyntax::new(EffectNode::And(Vec::new(alloc)))),
        Item::Open(span) => Err(ReadFault::new(FaultKind::Expected, span)),
        Item::Text(word) => headed(alloc, walk, scope, word),
    }
}

/// Reads an effect after its first word.
#[cycle(effects)]
#[tactic(auto, using(crate::proofs::EffectLemmas::headed_steps))]
fn headed<'a>(
    alloc: Global,
    walk: &mut Walk<'a>,
    scope: Scope,
    head: Word<'a>,
) -> Result<EffectSyntax<'a>, ReadFault>
    ensures { ReadsList (λ e. e) result (headed_effect scope head.entry.text.now) (here walk.old.cursor) (here walk.new.cursor) }
{
    match list_head(scope, head.text, walk) {
        ListHead::Atom => {
            let atom = atom(alloc, walk, scope.context, NameWord::new(head))?;
            Ok(EffectSyntax::new(EffectNode::Atom(true, atom)))
        }
        ListHead::Not => {
            let atom = negated_atom(alloc, walk, scope)?;
            Ok(EffectSyntax::new(EffectNode::Atom(false, atom)))
        }
        ListHead::Increase => {
            let increase = increase(alloc, walk, scope.context, head.span)?;
            Ok(EffectSyntax::new(EffectNode::Increase(Box::new(alloc, increase)?)))
        }
        ListHead::And => Ok(EffectSyntax::new(EffectNode::And(effects(alloc, walk, scope)?))),
        ListHead::When => {
            let (condition, body) = conditional(alloc, walk, scope)?;
            Ok(EffectSyntax::new(EffectNode::When(condition, body)))
        }
        ListHead::ForAll => {
            let (groups, body) = bound(alloc, walk, scope)?;
            Ok(EffectSyntax::new(EffectNode::ForAll(groups, body)))
        }
        ListHead::Other => Err(ReadFault::new(FaultKind::Expected, head.span)),
        _ => Err(ReadFault::new(FaultKind::Unsupported, head.span)),
    }
}

/// Reads the effects to the end of their list.
#[cycle(effects)]
#[tactic(auto, using(crate::proofs::EffectLemmas::effects_steps))]
fn effects<'a>(
    alloc: Global,
    walk: &mut Walk<'a>,
    scope: Scope,
) -> Result<Vec<EffectSyntax<'a>>, ReadFault>
    ensures { ReadsList (λ v. v.items) result (effects_in scope) (here walk.old.cursor) (here walk.new.cursor) }
{
    let mut effects = Vec::new(alloc);
    'effects: loop {
        match walk.next() {
            Item::Close(_) => return Ok(effects),
            Item::Text(word) => return Err(ReadFault::new(FaultKind::Expected, word.span)),
            Item::Open(_) => effects.push(effect(alloc, walk, scope)?)?,
        }
    }
}

/// Reads the effect that is all that is left of a list, under `when` or `forall`.
#[cycle(effects)]
#[tactic(auto, using(crate::proofs::EffectLemmas::lone_steps))]
fn lone<'a>(alloc: Global, walk: &mut Walk<'a>, scope: Scope) -> Result<EffectSyntax<'a>, ReadFault>
    ensures { ReadsList (λ e. e) result (lone_effect scope) (here walk.old.cursor) (here walk.new.cursor) }
{
    enter_list(walk)?;
    let effect = effect(alloc, walk, scope)?;
    leave_list(walk)?;
    Ok(effect)
}

/// Reads a condition and the effect that depends on it.
#[cycle(effects)]
#[tactic(auto, using(crate::proofs::EffectLemmas::conditional_steps))]
fn conditional<'a>(
    alloc: Global,
    walk: &mut Walk<'a>,
    scope: Scope,
) -> Result<(Box<FormulaSyntax<'a>>, Box<EffectSyntax<'a>>), ReadFault>
    ensures { ReadsList (λ p. (p.0.value, p.1.value)) result (conditional_in scope) (here walk.old.cursor) (here walk.new.cursor) }
{
    enter_list(walk)?;
    let outer = Scope {
        dialect: scope.dialect,
        context: Context::Condition,
    };
    let condition = formula(alloc, walk, outer)?;
    let inner = Scope {
        dialect: scope.dialect,
        context: Context::InnerEffect,
    };
    let body = lone(alloc, walk, inner)?;
    Ok((Box::new(alloc, condition)?, Box::new(alloc, body)?))
}

/// Reads variables and the effect that happens for each choice of objects for them.
#[cycle(effects)]
#[tactic(auto, using(crate::proofs::EffectLemmas::bound_steps))]
fn bound<'a>(
    alloc: Global,
    walk: &mut Walk<'a>,
    scope: Scope,
) -> Result<(Vec<VariableGroup<'a>>, Box<EffectSyntax<'a>>), ReadFault>
    ensures { ReadsList (λ b. (variable_groups b.0.items, b.1.value)) result (bound_effect_in scope) (here walk.old.cursor) (here walk.new.cursor) }
{
    enter_list(walk)?;
    let groups = typed_variables(alloc, walk)?;
    let inner = Scope {
        dialect: scope.dialect,
        context: Context::InnerEffect,
    };
    let body = lone(alloc, walk, inner)?;
    Ok((groups, Box::new(alloc, body)?))
}
