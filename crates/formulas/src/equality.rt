//! Equality of formulas.
ghost use Rattle.std.specs.Prelude.{◌≡◌};
ghost use Rattle.std.specs.Cmp.{partial_equiv_from_equiv};
ghost use Rattle.std.specs.Cmp.Lexicographic.{pointwise};
ghost use Rattle.formulas.specs.Equality.{term_eq, pattern_eq, group_eq, tree_eq};
ghost use Rattle.formulas.specs.EqualityLaws.{term_equivalence, pattern_equivalence, group_equivalence, tree_equivalence};

use crate::{Formula, Node, Pattern, Term, VariableGroup};

impl PartialEq for Term {
    ghost eq = { term_eq };

    ghost laws = { partial_equiv_from_equiv term_equivalence };

    fn eq(&self, other: &Term) -> bool {
        match (self, other) {
            (Term::Param(index), Term::Param(other)) => index == other,
            (Term::Bound(level), Term::Bound(other)) => level == other,
            (Term::Object(object), Term::Object(other)) => object == other,
            _ => false,
        }
    }
}

impl Eq for Term {
    ghost laws = { term_equivalence };
}

impl PartialEq for Pattern {
    ghost eq = { pattern_eq };

    ghost laws = { partial_equiv_from_equiv pattern_equivalence };

    fn eq(&self, other: &Pattern) -> bool {
        self.pred == other.pred && self.terms.as_slice() == other.terms.as_slice()
    }
}

impl Eq for Pattern {
    ghost laws = { pattern_equivalence };
}

impl PartialEq for VariableGroup {
    ghost eq = { group_eq };

    ghost laws = { partial_equiv_from_equiv group_equivalence };

    fn eq(&self, other: &VariableGroup) -> bool {
        self.names.as_slice() == other.names.as_slice()
            && self.types.as_slice() == other.types.as_slice()
    }
}

impl Eq for VariableGroup {
    ghost laws = { group_equivalence };
}

impl PartialEq for Formula {
    ghost eq = { tree_eq };

    ghost laws = { partial_equiv_from_equiv tree_equivalence };

    fn eq(&self, other: &Formula) -> bool {
        are_same(self, other)
    }
}

impl Eq for Formula {
    ghost laws = { tree_equivalence };
}

/// Whether two formulas have the same operator and the same parts.
#[cycle(same)]
#[tactic(auto, using(crate::proofs::Parts::compared_parts))]
fn are_same(formula: &Formula, other: &Formula) -> bool
    ensures { result ≡ tree_eq formula.now other.now }
{
    match (formula.node(), other.node()) {
        (Node::Atom(positive, pattern), Node::Atom(sign, other)) => {
            positive == sign && pattern == other
        }
        (Node::Equal(positive, left, right), Node::Equal(sign, other_left, other_right)) => {
            positive == sign && left == other_left && right == other_right
        }
        (Node::Not(body), Node::Not(other)) => are_same(body, other),
        (Node::And(parts), Node::And(others)) => are_all_same(parts, others),
        (Node::Or(parts), Node::Or(others)) => are_all_same(parts, others),
        (Node::Imply(premise, conclusion), Node::Imply(other_premise, other_conclusion)) => {
            are_same(premise, other_premise) && are_same(conclusion, other_conclusion)
        }
        (Node::Exists(groups, body), Node::Exists(others, other)) => {
            groups.as_slice() == others.as_slice() && are_same(body, other)
        }
        (Node::ForAll(groups, body), Node::ForAll(others, other)) => {
            groups.as_slice() == others.as_slice() && are_same(body, other)
        }
        _ => false,
    }
}

/// Whether two lists have the same formulas in the same order.
#[cycle(same)]
fn are_all_same(formulas: &[Formula], others: &[Formula]) -> bool
    ensures { result ≡ pointwise tree_eq formulas.now others.now }
{
    if formulas.len() != others.len() {
        return false;
    }
    for i in 0..formulas.len() {
        if !are_same(&formulas[i], &others[i]) {
            return false;
        }
    }
    true
}
