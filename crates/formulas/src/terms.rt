//! Terms, and atoms whose arguments are terms.
ghost use Rattle.std.specs.Prelude.{◌≡◌, IfNone, IfSome, Some};
ghost use Rattle.std.specs.Option.{option_map};
ghost use Rattle.formulas.specs.declared.terms.Term.TheVariants.{Bound, Param};

use crate::ShortSeq;

/// An argument of an atom, or a side of an equality.
#[derive(Clone, Copy)]
pub enum Term {
    /// A parameter of the action, by its index, counted from 0.
    Param(u16),
    /// A variable of a quantifier, by its level: how many variables are bound outside it, by the quantifiers around its own and before it in its own list.
    /// Levels are counted from 0 in every formula, so a formula without parameters means the same wherever it is used.
    Bound(u16),
    /// An object, by its number in the task.
    Object(u16),
}

// Fills the part of a short list that has no terms yet.
impl Default for Term {
    fn default() -> Term {
        Term::Param(0)
    }
}

/// The term that a variable stands for, if there are a bound variable with this level and a parameter with this index of its name. The bound one hides the
/// parameter.
pub fn variable_term(bound: Option<u16>, parameter: Option<u16>) -> Option<Term>
    ensures bound { IfSome bound (λ level. result ≡ Some (Bound level)) }
    ensures parameter { IfNone bound (result ≡ option_map (λ index. Param index) parameter) }
{
    match (bound, parameter) {
        (Some(level), _) => Some(Term::Bound(level)),
        (None, Some(index)) => Some(Term::Param(index)),
        (None, None) => None,
    }
}

/// A predicate applied to terms.
#[derive(Drop)]
pub struct Pattern {
    /// The number of the predicate.
    pub pred: u16,
    /// The terms, in the order of the predicate's arguments.
    pub terms: ShortSeq<Term>,
}
