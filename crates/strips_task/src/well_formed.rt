//! The limits of a task, and whether a term fits an argument.
ghost use Rattle.std.specs.Prelude.{◌≡◌, [], slice_get};
ghost use Rattle.formulas.specs.declared.terms.Term.TheVariants.{Object};
ghost use Rattle.strips_task.specs.WellFormed.{term_types, is_fitting};

use crate::{Alternatives, NameTable, Term, TypeList};

/// The most types of a task, `object` among them.
pub const MOST_TYPES: usize = 1025;

/// The most objects of a task.
pub const MOST_OBJECTS: usize = 65535;

/// The most predicates of a task.
pub const MOST_PREDICATES: usize = 4096;

/// The most actions of a task.
pub const MOST_ACTIONS: usize = 4096;

/// The most arguments of a predicate, and the most parameters of an action.
pub const MOST_VARIABLES: usize = 32;

/// The most types among which an argument or a parameter may have a choice.
pub const MOST_ALTERNATIVES: usize = 32;

/// Whether a term is a parameter, a variable that is bound or an object, and fits an argument that may be of these types: each type of the term is one of
/// them or below one of them. Parameters, bound variables and objects come with their types. Takes no memory.
pub fn term_fits(
    parents: &TypeList,
    objects: &NameTable<u16>,
    params: &[Alternatives],
    bound: &[Alternatives],
    term: Term,
    types: &[u16],
) -> bool
    ensures { result ≡ is_fitting parents.now (term_types objects.now params.now bound.now term) types.now }
{
    match term {
        Term::Param(number) => variable_fits(parents, params, number, types),
        Term::Bound(level) => variable_fits(parents, bound, level, types),
        Term::Object(number) => object_fits(parents, objects, number, types),
    }
}

/// Whether there is a variable with a number, and it fits an argument that may be of these types.
fn variable_fits(parents: &TypeList, variables: &[Alternatives], number: u16, types: &[u16]) -> bool
    ensures { result ≡ is_fitting parents.now (slice_get variables.now number) types.now }
{
    match variables.get(usize::from(number)) {
        Some(own) => parents.are_below(own.as_slice(), types),
        None => false,
    }
}

/// Whether there is an object with a number, and it fits an argument that may be of these types. Takes no memory.
#[tactic(auto, using(crate::proofs::WellFormedTests::object_fitting, crate::proofs::WellFormedTests::object_unknown))]
#[inline(always)]
pub fn object_fits(parents: &TypeList, objects: &NameTable<u16>, number: u16, types: &[u16]) -> bool
    ensures { result ≡ is_fitting parents.now (term_types objects.now [] [] (Object number)) types.now }
{
    let Some(own) = objects.value(usize::from(number)) else {
        return false;
    };
    // Most objects are of the very type that is asked for.
    if let [first, ..] = types {
        if first == own {
            return true;
        }
    }
    parents.are_below(&[*own], types)
}
