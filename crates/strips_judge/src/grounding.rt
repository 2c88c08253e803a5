//! Grounding: what terms and patterns stand for when parameters and variables are bound to objects.
//!
//! Every atom of a step is grounded into one that is used again and again, so that grounding takes no memory.
ghost use Rattle.std.specs.Prelude.{◌≡◌, length, OnOk};
ghost use Rattle.formulas.specs.Meaning.{object_of, atom_of};
ghost use Rattle.formulas.specs.Within.{IsTermWithin, IsPatternWithin};

use std::alloc::AllocError;
use strips_task::{Atom, Pattern, Term};

/// The number of the object that a term stands for: `objects` are those of the parameters, and `bound` those of the variables.
///
/// No level is past `bound`. It is compared all the same, so that where a caller binds no variable the compiler leaves out the case of one.
#[inline(always)]
pub(crate) fn object_of(term: Term, objects: &[u16], bound: &[u16]) -> u16
    requires { IsTermWithin (length objects.now) (length bound.now) term }
    ensures { result ≡ object_of objects.now bound.now term }
{
    match term {
        Term::Param(index) => objects[usize::from(index)],
        Term::Bound(level) => match bound.get(usize::from(level)) {
            Some(object) => *object,
            None => level,
        },
        Term::Object(object) => object,
    }
}

/// Makes an atom the one that a pattern stands for.
pub(crate) fn ground(
    pattern: &Pattern,
    objects: &[u16],
    bound: &[u16],
    atom: &mut Atom,
) -> Result<(), AllocError>
    requires { IsPatternWithin (length objects.now) (length bound.now) pattern.now }
    ensures { OnOk result (atom.new ≡ atom_of objects.now bound.now pattern.now) }
{
    atom.pred = pattern.pred;
    atom.args.clear();
    for term in pattern.terms.as_slice() {
        atom.args.push(object_of(*term, objects, bound))?;
    }
    Ok(())
}
