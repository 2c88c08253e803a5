//! Terms are looked up, and checked against the types of a predicate's arguments.

ghost use Rattle.std.specs.Prelude.{◌≡◌, ◌≤◌, length};
ghost use Rattle.strips_task.specs.WellFormed.{most_objects};
ghost use Rattle.pddl_reader.specs.Declarations.{fitted_all, fitting_object, object_number, fitting_term, term_named};
ghost use Rattle.pddl_syntax.specs.Forms.{word_forms};
ghost use Rattle.pddl_syntax.specs.Reading.{Gives, GivesOption};
ghost use Rattle.pddl_reader.specs.Resolved.{known_form};

use crate::resolution::names::number_of;
use crate::resolution::scope::Scope;
use crate::resolution::tables::Declared;
use pddl_syntax::{FaultKind, ReadFault, Word, is_variable};
use std::alloc::Global;
use strips_task::{Alternatives, NameTable, ShortSeq, Term, object_fits};

/// The number of the object that a word names.
#[tactic(auto, using(crate::proofs::TermLemmas::object_steps))]
fn object_number(
    alloc: Global,
    objects: &NameTable<u16>,
    word: Word<'_>,
) -> Result<Option<u16>, ReadFault>
    requires { length objects.now ≤ most_objects }
    ensures { GivesOption result (object_number objects.now word.entry.text.now) }
{
    match number_of(alloc, objects, word.text)? {
        Some(number) => Ok(Some(number as u16)),
        None => Ok(None),
    }
}

/// The object that a word names, of whatever type.
#[tactic(auto, using(crate::proofs::TermLemmas::object_steps))]
pub(crate) fn object(alloc: Global, known: &Declared<'_>, word: Word<'_>) -> Result<u16, ReadFault>
    ensures { Gives (λ number. number) result (object_number known.now.objects.now word.entry.text.now) }
{
    match object_number(alloc, known.objects, word)? {
        Some(number) => Ok(number),
        None => Err(ReadFault::new(FaultKind::UnknownName, word.span)),
    }
}

/// The object that a word names, if it fits its argument.
#[tactic(auto, using(crate::proofs::TermLemmas::fitting_object_steps))]
fn fitting_object(
    alloc: Global,
    known: &Declared<'_>,
    allowed: &[u16],
    word: Word<'_>,
) -> Result<u16, ReadFault>
    ensures { Gives (λ number. number) result (fitting_object (known_form known.now) allowed.now word.entry.text.now) }
{
    let number = object(alloc, known, word)?;
    if !object_fits(known.parents, known.objects, number, allowed) {
        return Err(ReadFault::new(FaultKind::WrongType, word.span));
    }
    Ok(number)
}

/// The objects that words name, if each fits its argument.
#[tactic(auto, using(crate::proofs::TermLemmas::fitted_steps))]
pub(crate) fn fitting_objects(
    alloc: Global,
    known: &Declared<'_>,
    argument_types: &[Alternatives],
    words: &[Word<'_>],
) -> Result<ShortSeq<u16>, ReadFault>
    requires { length argument_types.now ≡ length words.now }
    ensures { Gives (λ objects. objects) result (fitted_all (fitting_object (known_form known.now)) argument_types.now (word_forms words.now)) }
{
    let mut objects = ShortSeq::new(alloc);
    'argument_types: for index in 0..argument_types.len() {
        let number = fitting_object(alloc, known, argument_types[index].as_slice(), words[index])?;
        objects.push(number)?;
    }
    Ok(objects)
}

/// The term that a word stands for, of whatever type.
#[tactic(auto, using(crate::proofs::TermLemmas::term_steps))]
pub(crate) fn term(
    alloc: Global,
    known: &Declared<'_>,
    scope: &Scope<'_>,
    word: Word<'_>,
) -> Result<Term, ReadFault>
    ensures { Gives (λ term. term) result (term_named (known_form known.now) scope.now word.entry.text.now) }
{
    if is_variable(word.text) {
        return scope.variable(word);
    }
    Ok(Term::Object(object(alloc, known, word)?))
}

/// The term that a word stands for, if it fits its argument.
#[tactic(auto, using(crate::proofs::TermLemmas::fitting_term_steps))]
fn fitting_term(
    alloc: Global,
    known: &Declared<'_>,
    scope: &Scope<'_>,
    allowed: &[u16],
    word: Word<'_>,
) -> Result<Term, ReadFault>
    ensures { Gives (λ term. term) result (fitting_term (known_form known.now) scope.now allowed.now word.entry.text.now) }
{
    let found = term(alloc, known, scope, word)?;
    if !scope.fits(known, found, allowed) {
        return Err(ReadFault::new(FaultKind::WrongType, word.span));
    }
    Ok(found)
}

/// The terms that words stand for, if each fits its argument.
#[tactic(auto, using(crate::proofs::TermLemmas::fitted_steps))]
pub(crate) fn fitting_terms(
    alloc: Global,
    known: &Declared<'_>,
    scope: &Scope<'_>,
    argument_types: &[Alternatives],
    words: &[Word<'_>],
) -> Result<ShortSeq<Term>, ReadFault>
    requires { length argument_types.now ≡ length words.now }
    ensures { Gives (λ terms. terms) result (fitted_all (fitting_term (known_form known.now) scope.now) argument_types.now (word_forms words.now)) }
{
    let mut terms = ShortSeq::new(alloc);
    'argument_types: for index in 0..argument_types.len() {
        let allowed = argument_types[index].as_slice();
        let term = fitting_term(alloc, known, scope, allowed, words[index])?;
        terms.push(term)?;
    }
    Ok(terms)
}
