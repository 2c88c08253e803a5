//! The patterns and the ground atoms that atoms stand for.

ghost use Rattle.std.specs.Prelude.{◌≡◌, length, slice_get, true, Some};
ghost use Rattle.std.specs.Map.{values_of};
ghost use Rattle.pddl_reader.specs.Declarations.{ground_of, pattern_of, takes_terms};
ghost use Rattle.pddl_syntax.specs.Forms.{atom_form};
ghost use Rattle.pddl_syntax.specs.Reading.{Gives};
ghost use Rattle.pddl_reader.specs.Resolved.{known_form};

use crate::resolution::names::predicate_number;
use crate::resolution::scope::Scope;
use crate::resolution::tables::Declared;
use crate::resolution::terms::{fitting_objects, fitting_terms};
use pddl_syntax::{AtomSyntax, ReadFault};
use std::alloc::Global;
use strips_task::{Alternatives, Atom, NameTable, Pattern, Seq};

/// The types of a predicate's arguments.
#[tactic(auto, using(crate::proofs::AtomLemmas::argument_types_steps))]
fn argument_types_of(
    predicates: &NameTable<Seq<Alternatives>>,
    number: u16,
    count: usize,
) -> &[Alternatives]
    requires { takes_terms predicates.now number count ≡ true }
    ensures argument_types { slice_get (values_of predicates.now) number ≡ Some result.now }
    ensures as_many { length result.now ≡ count }
{
    predicates.get(usize::from(number)).1.as_slice()
}

/// The ground atom that an atom of a problem stands for.
#[tactic(auto, using(crate::proofs::AtomLemmas::ground_steps))]
pub(crate) fn ground_atom(
    alloc: Global,
    known: &Declared<'_>,
    syntax: &AtomSyntax<'_>,
) -> Result<Atom, ReadFault>
    ensures { Gives (λ atom. atom) result (ground_of (known_form known.now) (atom_form syntax.now)) }
{
    let pred = predicate_number(alloc, known.predicates, syntax)?;
    let argument_types = argument_types_of(known.predicates, pred, syntax.terms.len());
    let args = fitting_objects(alloc, known, argument_types, syntax.terms.as_slice())?;
    Ok(Atom { pred, args })
}

/// The pattern that an atom stands for in a scope.
#[tactic(auto, using(crate::proofs::AtomLemmas::pattern_steps))]
pub(crate) fn pattern(
    alloc: Global,
    known: &Declared<'_>,
    scope: &Scope<'_>,
    syntax: &AtomSyntax<'_>,
) -> Result<Pattern, ReadFault>
    ensures { Gives (λ pattern. pattern) result (pattern_of (known_form known.now) scope.now (atom_form syntax.now)) }
{
    let pred = predicate_number(alloc, known.predicates, syntax)?;
    let argument_types = argument_types_of(known.predicates, pred, syntax.terms.len());
    let terms = fitting_terms(alloc, known, scope, argument_types, syntax.terms.as_slice())?;
    Ok(Pattern { pred, terms })
}
