//! Atoms that patterns stand for.

use std::alloc::{AllocError, Global};
use strips_task::{Atom, Pattern, ShortSeq, Term};

/// The atom that a pattern stands for, with these objects for the parameters of the action and for the variables that are bound around it.
pub(crate) fn atom_of(
    alloc: Global,
    pattern: &Pattern,
    objects: &[u16],
    bound: &[u16],
) -> Result<Atom, AllocError> {
    let mut args = ShortSeq::new(alloc);
    for term in pattern.terms.as_slice() {
        args.push(object_of(*term, objects, bound))?;
    }
    Ok(Atom {
        pred: pattern.pred,
        args,
    })
}

/// The object that a term stands for. A parameter or a variable without an object gets a number that no object has.
pub(crate) fn object_of(term: Term, objects: &[u16], bound: &[u16]) -> u16 {
    match term {
        Term::Param(number) => object_at(objects, number),
        Term::Bound(level) => object_at(bound, level),
        Term::Object(object) => object,
    }
}

/// The object with an index.
fn object_at(objects: &[u16], index: u16) -> u16 {
    objects.get(usize::from(index)).copied().unwrap_or(u16::MAX)
}
