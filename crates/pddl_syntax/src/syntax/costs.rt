//! Numbers, and what raises `total-cost`.

ghost use Rattle.std.specs.Prelude.{◌≡◌};
ghost use Rattle.pddl_syntax.specs.Levels.{here};
ghost use Rattle.pddl_syntax.specs.Reading.{ReadsList};
ghost use Rattle.pddl_syntax.specs.Heads.{is_term};
ghost use Rattle.pddl_syntax.specs.Forms.{amount_form, value_form};
ghost use Rattle.pddl_syntax.specs.Syntax.{amount_of, increase_of, number_of, target_of, value_of};

use crate::fault::{FaultKind, ReadFault};
use crate::heads::Context;
use crate::syntax::atoms::function;
use crate::syntax::lists::{enter_list, leave_list};
use crate::syntax::refusals::name_fault;
use crate::syntax::{AmountSyntax, IncreaseSyntax, ValueSyntax};
use crate::walk::{Item, Walk, Word};
use pddl_tokens::{Span, same_folded};
use pddl_words::billionths;
use std::alloc::Global;

/// Reads the number, in billionths, that is all that is left of a list, and its span.
#[tactic(auto, using(crate::proofs::AtomLemmas::number_steps))]
fn number(walk: &mut Walk<'_>) -> Result<(u64, Span), ReadFault>
    ensures { ReadsList (λ n. n.0) result number_of (here walk.old.cursor) (here walk.new.cursor) }
{
    match walk.next() {
        Item::Text(word) => {
            let Some(number) = billionths(word.text) else {
                return Err(ReadFault::new(FaultKind::Expected, word.span));
            };
            leave_list(walk)?;
            Ok((number, word.span))
        }
        Item::Open(span) => Err(ReadFault::new(FaultKind::Expected, span)),
        Item::Close(span) => Err(ReadFault::new(FaultKind::Expected, span)),
    }
}

/// Reads the name of the function that is raised, which is `total-cost`.
#[tactic(auto, using(crate::proofs::AtomLemmas::target_steps))]
fn target<'a>(walk: &mut Walk<'a>) -> Result<Word<'a>, ReadFault>
    ensures { ReadsList (λ _. tt) result target_of (here walk.old.cursor) (here walk.new.cursor) }
{
    match walk.next() {
        Item::Text(word) => {
            if !same_folded(word.text, b"total-cost") {
                return Err(name_fault(word));
            }
            leave_list(walk)?;
            Ok(word)
        }
        Item::Open(span) => Err(ReadFault::new(FaultKind::Expected, span)),
        Item::Close(span) => Err(ReadFault::new(FaultKind::Expected, span)),
    }
}

/// Reads the amount that is all that is left of a list.
#[tactic(auto, using(crate::proofs::AtomLemmas::amount_steps))]
fn amount<'a>(
    alloc: Global,
    walk: &mut Walk<'a>,
    context: Context,
) -> Result<AmountSyntax<'a>, ReadFault>
    ensures { ReadsList amount_form result (amount_of (is_term context)) (here walk.old.cursor) (here walk.new.cursor) }
{
    match walk.next() {
        Item::Text(word) => {
            let Some(number) = billionths(word.text) else {
                return Err(ReadFault::new(FaultKind::Expected, word.span));
            };
            leave_list(walk)?;
            Ok(AmountSyntax::Number(number))
        }
        Item::Open(_) => {
            let function = function(alloc, walk, context)?;
            leave_list(walk)?;
            Ok(AmountSyntax::Function(function))
        }
        Item::Close(span) => Err(ReadFault::new(FaultKind::Expected, span)),
    }
}

/// Reads what follows the word `increase` at these bytes.
#[tactic(auto, using(crate::proofs::AtomLemmas::increase_steps))]
pub(crate) fn increase<'a>(
    alloc: Global,
    walk: &mut Walk<'a>,
    context: Context,
    span: Span,
) -> Result<IncreaseSyntax<'a>, ReadFault>
    ensures { ReadsList (λ i. amount_form i.amount) result (increase_of (is_term context)) (here walk.old.cursor) (here walk.new.cursor) }
{
    enter_list(walk)?;
    let target = target(walk)?;
    let amount = amount(alloc, walk, context)?;
    Ok(IncreaseSyntax {
        span,
        target,
        amount,
    })
}

/// Reads a function and its value, after `=`.
#[tactic(auto, using(crate::proofs::AtomLemmas::value_steps))]
pub(crate) fn value<'a>(
    alloc: Global,
    walk: &mut Walk<'a>,
    context: Context,
) -> Result<ValueSyntax<'a>, ReadFault>
    ensures { ReadsList value_form result (value_of (is_term context)) (here walk.old.cursor) (here walk.new.cursor) }
{
    enter_list(walk)?;
    let function = function(alloc, walk, context)?;
    let (value, span) = number(walk)?;
    Ok(ValueSyntax {
        function,
        value,
        span,
    })
}
