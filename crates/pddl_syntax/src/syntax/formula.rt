//! Formulas: preconditions, goals, and the conditions of effects.

ghost use Rattle.std.specs.Prelude.{◌≡◌};
ghost use Rattle.pddl_syntax.specs.Levels.{here};
ghost use Rattle.pddl_syntax.specs.Reading.{GivesAgain, ReadsList};
ghost use Rattle.pddl_syntax.specs.Forms.{variable_groups};
ghost use Rattle.pddl_syntax.specs.Syntax.{bound_in, formula_in, formulas_in, headed_formula, implied_in, lone_formula, negatable_in, negated_in, negation, opposite};

use crate::fault::{FaultKind, ReadFault};
use crate::heads::{Context, ListHead, Scope, has_connectives, list_head};
use crate::syntax::VariableGroup;
use crate::syntax::atoms::{atom, equality};
use crate::syntax::lists::{enter_list, leave_list};
use crate::syntax::trees::{FormulaNode, FormulaSyntax};
use crate::syntax::variables::typed_variables;
use crate::walk::{Item, NameWord, Walk, Word};
use std::alloc::Global;

/// Reads what is in the parentheses of a formula.
#[cycle(formulas)]
#[tactic(auto, using(crate::proofs::FormulaLemmas::formula_steps))]
pub(crate) fn formula<'a>(
    alloc: Global,
    walk: &mut Walk<'a>,
    scope: Scope,
) -> Result<FormulaSyntax<'a>, ReadFault>
    ensures { ReadsList (λ f. f) result (formula_in scope) (here walk.old.cursor) (here walk.new.cursor) }
{
    match walk.next() {
        Item::Close(_) => Ok(FormulaSyntax::new(FormulaNode::And(Vec::new(alloc)))),
        Item::Open(span) => Err(ReadFault::new(FaultKind::Expected, span)),
        Item::Text(word) => headed(alloc, walk, scope, word),
    }
}

/// Reads a formula after its first word.
#[cycle(formulas)]
#[tactic(auto, using(crate::proofs::FormulaLemmas::headed_steps))]
fn headed<'a>(
    alloc: Global,
    walk: &mut Walk<'a>,
    scope: Scope,
    head: Word<'a>,
) -> Result<FormulaSyntax<'a>, ReadFault>
    ensures { ReadsList (λ f. f) result (headed_formula scope head.entry.text.now) (here walk.old.cursor) (here walk.new.cursor) }
{
    match list_head(scope, head.text, walk) {
        ListHead::Atom => {
            let atom = atom(alloc, walk, scope.context, NameWord::new(head))?;
            Ok(FormulaSyntax::new(FormulaNode::Atom(true, atom)))
        }
        ListHead::Equality => {
            let equality = equality(walk, scope.context, head.span)?;
            Ok(FormulaSyntax::new(FormulaNode::Equality(true, equality)))
        }
        ListHead::Not => opposite(alloc, negated(alloc, walk, scope)?),
        ListHead::And => Ok(FormulaSyntax::new(FormulaNode::And(formulas(alloc, walk, scope)?))),
        ListHead::Or => Ok(FormulaSyntax::new(FormulaNode::Or(formulas(alloc, walk, scope)?))),
        ListHead::Imply => {
            let (premise, conclusion) = implied(alloc, walk, scope)?;
            Ok(FormulaSyntax::new(FormulaNode::Imply(premise, conclusion)))
        }
        ListHead::Exists => {
            let (groups, body) = bound(alloc, walk, scope)?;
            Ok(FormulaSyntax::new(FormulaNode::Exists(groups, body)))
        }
        ListHead::ForAll => {
            let (groups, body) = bound(alloc, walk, scope)?;
            Ok(FormulaSyntax::new(FormulaNode::ForAll(groups, body)))
        }
        ListHead::Other => Err(ReadFault::new(FaultKind::Expected, head.span)),
        _ => Err(ReadFault::new(FaultKind::Unsupported, head.span)),
    }
}

/// Reads the formulas to the end of their list.
#[cycle(formulas)]
#[tactic(auto, using(crate::proofs::FormulaLemmas::formulas_steps))]
fn formulas<'a>(
    alloc: Global,
    walk: &mut Walk<'a>,
    scope: Scope,
) -> Result<Vec<FormulaSyntax<'a>>, ReadFault>
    ensures { ReadsList (λ v. v.items) result (formulas_in scope) (here walk.old.cursor) (here walk.new.cursor) }
{
    let mut formulas = Vec::new(alloc);
    'formulas: loop {
        match walk.next() {
            Item::Close(_) => return Ok(formulas),
            Item::Text(word) => return Err(ReadFault::new(FaultKind::Expected, word.span)),
            Item::Open(_) => formulas.push(formula(alloc, walk, scope)?)?,
        }
    }
}

/// Reads the formula that is all that is left of a list.
#[cycle(formulas)]
#[tactic(auto, using(crate::proofs::FormulaLemmas::lone_steps))]
pub(crate) fn lone<'a>(
    alloc: Global,
    walk: &mut Walk<'a>,
    scope: Scope,
) -> Result<FormulaSyntax<'a>, ReadFault>
    ensures { ReadsList (λ f. f) result (lone_formula scope) (here walk.old.cursor) (here walk.new.cursor) }
{
    enter_list(walk)?;
    let formula = formula(alloc, walk, scope)?;
    leave_list(walk)?;
    Ok(formula)
}

/// Reads the formula that `not` negates.
#[cycle(formulas)]
#[tactic(auto, using(crate::proofs::FormulaLemmas::negated_steps))]
fn negated<'a>(
    alloc: Global,
    walk: &mut Walk<'a>,
    scope: Scope,
) -> Result<FormulaSyntax<'a>, ReadFault>
    ensures { ReadsList (λ f. f) result (negated_in scope) (here walk.old.cursor) (here walk.new.cursor) }
{
    enter_list(walk)?;
    let formula = negatable(alloc, walk, scope)?;
    leave_list(walk)?;
    Ok(formula)
}

/// Reads what is in the parentheses of a formula that `not` negates. Without connectives this is an atom or an equality.
#[cycle(formulas)]
#[tactic(auto, using(crate::proofs::FormulaLemmas::negatable_steps))]
fn negatable<'a>(
    alloc: Global,
    walk: &mut Walk<'a>,
    scope: Scope,
) -> Result<FormulaSyntax<'a>, ReadFault>
    ensures { ReadsList (λ f. f) result (negatable_in scope) (here walk.old.cursor) (here walk.new.cursor) }
{
    if has_connectives(scope.dialect) {
        return formula(alloc, walk, scope);
    }
    match walk.next() {
        Item::Text(word) => match list_head(scope, word.text, walk) {
            ListHead::Atom => {
                let atom = atom(alloc, walk, scope.context, NameWord::new(word))?;
                Ok(FormulaSyntax::new(FormulaNode::Atom(true, atom)))
            }
            ListHead::Equality => {
                let equality = equality(walk, scope.context, word.span)?;
                Ok(FormulaSyntax::new(FormulaNode::Equality(true, equality)))
            }
            ListHead::Other => Err(ReadFault::new(FaultKind::Expected, word.span)),
            _ => Err(ReadFault::new(FaultKind::Unsupported, word.span)),
        },
        Item::Open(span) => Err(ReadFault::new(FaultKind::Expected, span)),
        Item::Close(span) => Err(ReadFault::new(FaultKind::Expected, span)),
    }
}

/// The formula under `not`.
fn negation<'a>(alloc: Global, formula: FormulaSyntax<'a>) -> Result<FormulaSyntax<'a>, ReadFault>
    ensures { GivesAgain (λ f. f) result (negation formula.entry) }
{
    let body = Box::new(alloc, formula)?;
    Ok(FormulaSyntax::new(FormulaNode::Not(body)))
}

/// The formula with `not` before it, which is the sign of an atom or an equality.
fn opposite<'a>(alloc: Global, formula: FormulaSyntax<'a>) -> Result<FormulaSyntax<'a>, ReadFault>
    ensures { GivesAgain (λ f. f) result (opposite formula.entry) }
{
    let node = match formula.into_node() {
        FormulaNode::Atom(true, atom) => {
            return Ok(FormulaSyntax::new(FormulaNode::Atom(false, atom)));
        }
        FormulaNode::Equality(true, equality) => {
            return Ok(FormulaSyntax::new(FormulaNode::Equality(false, equality)));
        }
        FormulaNode::Atom(false, atom) => FormulaNode::Atom(false, atom),
        FormulaNode::Equality(false, equality) => FormulaNode::Equality(false, equality),
        FormulaNode::Not(body) => FormulaNode::Not(body),
        FormulaNode::And(parts) => FormulaNode::And(parts),
        FormulaNode::Or(parts) => FormulaNode::Or(parts),
        FormulaNode::Imply(premise, conclusion) => FormulaNode::Imply(premise, conclusion),
        FormulaNode::Exists(groups, body) => FormulaNode::Exists(groups, body),
        FormulaNode::ForAll(groups, body) => FormulaNode::ForAll(groups, body),
    };
    negation(alloc, FormulaSyntax::new(node))
}

/// Reads a premise and a conclusion.
#[cycle(formulas)]
#[tactic(auto, using(crate::proofs::FormulaLemmas::implied_steps))]
fn implied<'a>(
    alloc: Global,
    walk: &mut Walk<'a>,
    scope: Scope,
) -> Result<(Box<FormulaSyntax<'a>>, Box<FormulaSyntax<'a>>), ReadFault>
    ensures { ReadsList (λ p. (p.0.value, p.1.value)) result (implied_in scope) (here walk.old.cursor) (here walk.new.cursor) }
{
    enter_list(walk)?;
    let premise = formula(alloc, walk, scope)?;
    let conclusion = lone(alloc, walk, scope)?;
    Ok((Box::new(alloc, premise)?, Box::new(alloc, conclusion)?))
}

/// Reads the variables of a quantifier and its formula, in which terms may be variables.
#[cycle(formulas)]
#[tactic(auto, using(crate::proofs::FormulaLemmas::bound_steps))]
fn bound<'a>(
    alloc: Global,
    walk: &mut Walk<'a>,
    scope: Scope,
) -> Result<(Vec<VariableGroup<'a>>, Box<FormulaSyntax<'a>>), ReadFault>
    ensures { ReadsList (λ b. (variable_groups b.0.items, b.1.value)) result (bound_in scope) (here walk.old.cursor) (here walk.new.cursor) }
{
    enter_list(walk)?;
    let groups = typed_variables(alloc, walk)?;
    let inside = Scope {
        dialect: scope.dialect,
        context: Context::Condition,
    };
    let body = lone(alloc, walk, inside)?;
    Ok((groups, Box::new(alloc, body)?))
}
