//! Atoms, functions and equalities.

ghost use Rattle.pddl_syntax.specs.Levels.{here};
ghost use Rattle.pddl_syntax.specs.Reading.{ReadsList, TakesWord};
ghost use Rattle.pddl_syntax.specs.Heads.{is_term};
ghost use Rattle.pddl_syntax.specs.Forms.{atom_form, equality_form, word_forms};
ghost use Rattle.pddl_syntax.specs.Syntax.{atom_of, equality_of, function_in, negated_atom_in, negated_atom_of, words_of};

use crate::fault::{FaultKind, ReadFault};
use crate::heads::{Context, FormulaHead, ListHead, Scope, formula_head, is_term, list_head};
use crate::syntax::lists::{enter_list, leave_list};
use crate::syntax::refusals::function_fault;
use crate::syntax::{AtomSyntax, EqualitySyntax, Terms};
use crate::walk::{Item, NameWord, Walk, Word};
use pddl_tokens::Span;
use std::alloc::Global;

/// Reads terms to the end of their list.
#[tactic(auto, using(crate::proofs::WordLemmas::word_list_steps))]
fn terms<'a>(alloc: Global, walk: &mut Walk<'a>, context: Context) -> Result<Terms<'a>, ReadFault>
    ensures { ReadsList (λ v. word_forms v.items) result (words_of (is_term context)) (here walk.old.cursor) (here walk.new.cursor) }
{
    let mut terms = Terms::new(alloc);
    'terms: loop {
        match walk.next() {
            Item::Close(_) => return Ok(terms),
            Item::Open(span) => return Err(ReadFault::new(FaultKind::Unsupported, span)),
            Item::Text(word) => {
                if !is_term(context, word.text) {
                    return Err(ReadFault::new(FaultKind::Expected, word.span));
                }
                terms.push(word)?;
            }
        }
    }
}

/// Reads an atom after its predicate.
#[tactic(auto, using(crate::proofs::AtomLemmas::atom_steps))]
pub(crate) fn atom<'a>(
    alloc: Global,
    walk: &mut Walk<'a>,
    context: Context,
    predicate: NameWord<'a>,
) -> Result<AtomSyntax<'a>, ReadFault>
    ensures { ReadsList atom_form result (atom_of (is_term context) predicate.entry.text.now) (here walk.old.cursor) (here walk.new.cursor) }
{
    let terms = terms(alloc, walk, context)?;
    Ok(AtomSyntax { predicate, terms })
}

/// Reads a function and its terms.
#[tactic(auto, using(crate::proofs::AtomLemmas::function_steps))]
pub(crate) fn function<'a>(
    alloc: Global,
    walk: &mut Walk<'a>,
    context: Context,
) -> Result<AtomSyntax<'a>, ReadFault>
    ensures { ReadsList atom_form result (function_in (is_term context)) (here walk.old.cursor) (here walk.new.cursor) }
{
    match walk.next() {
        Item::Text(word) => match formula_head(word.text) {
            FormulaHead::Name => atom(alloc, walk, context, NameWord::new(word)),
            FormulaHead::And => Err(ReadFault::new(FaultKind::Unsupported, word.span)),
            FormulaHead::Not => Err(ReadFault::new(FaultKind::Unsupported, word.span)),
            FormulaHead::Reserved => Err(ReadFault::new(FaultKind::Unsupported, word.span)),
            FormulaHead::Other => Err(function_fault(context, word)),
        },
        Item::Open(span) => Err(ReadFault::new(FaultKind::Expected, span)),
        Item::Close(span) => Err(ReadFault::new(FaultKind::Expected, span)),
    }
}

/// Steps over a term on one side of the `=` at these bytes. Only words are compared.
#[tactic(auto, using(crate::proofs::AtomLemmas::side_steps))]
fn side<'a>(walk: &mut Walk<'a>, context: Context, equals: Span) -> Result<Word<'a>, ReadFault>
    ensures { TakesWord result (is_term context) (here walk.old.cursor) (here walk.new.cursor) }
{
    match walk.next() {
        Item::Text(word) => {
            if !is_term(context, word.text) {
                return Err(ReadFault::new(FaultKind::Expected, word.span));
            }
            Ok(word)
        }
        Item::Open(_) => Err(ReadFault::new(FaultKind::Unsupported, equals)),
        Item::Close(span) => Err(ReadFault::new(FaultKind::Expected, span)),
    }
}

/// Reads the two terms after the `=` at these bytes.
#[tactic(auto, using(crate::proofs::AtomLemmas::equality_steps))]
pub(crate) fn equality<'a>(
    walk: &mut Walk<'a>,
    context: Context,
    equals: Span,
) -> Result<EqualitySyntax<'a>, ReadFault>
    ensures { ReadsList equality_form result (equality_of (is_term context)) (here walk.old.cursor) (here walk.new.cursor) }
{
    let left = side(walk, context, equals)?;
    let right = side(walk, context, equals)?;
    leave_list(walk)?;
    Ok(EqualitySyntax { left, right })
}

/// Reads an atom that `not` negates, in its parentheses.
#[tactic(auto, using(crate::proofs::AtomLemmas::negated_in_steps))]
fn negated_atom_in<'a>(
    alloc: Global,
    walk: &mut Walk<'a>,
    scope: Scope,
) -> Result<AtomSyntax<'a>, ReadFault>
    ensures { ReadsList atom_form result (negated_atom_in scope) (here walk.old.cursor) (here walk.new.cursor) }
{
    match walk.next() {
        Item::Text(word) => match list_head(scope, word.text, walk) {
            ListHead::Atom => atom(alloc, walk, scope.context, NameWord::new(word)),
            ListHead::Other => Err(ReadFault::new(FaultKind::Expected, word.span)),
            _ => Err(ReadFault::new(FaultKind::Unsupported, word.span)),
        },
        Item::Open(span) => Err(ReadFault::new(FaultKind::Expected, span)),
        Item::Close(span) => Err(ReadFault::new(FaultKind::Expected, span)),
    }
}

/// Reads an atom that `not` negates, where it negates nothing else.
#[tactic(auto, using(crate::proofs::AtomLemmas::negated_steps))]
pub(crate) fn negated_atom<'a>(
    alloc: Global,
    walk: &mut Walk<'a>,
    scope: Scope,
) -> Result<AtomSyntax<'a>, ReadFault>
    ensures { ReadsList atom_form result (negated_atom_of scope) (here walk.old.cursor) (here walk.new.cursor) }
{
    enter_list(walk)?;
    let atom = negated_atom_in(alloc, walk, scope)?;
    leave_list(walk)?;
    Ok(atom)
}
