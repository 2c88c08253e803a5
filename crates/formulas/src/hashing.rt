//! Hashes of formulas.
ghost use Rattle.std.specs.Prelude.{◌≡◌, ◌++◌, fold};
ghost use Rattle.std.specs.Hash as fed;
ghost use Rattle.std.proofs.Common.{ap};
ghost use Rattle.formulas.specs.EqualityLaws.{term_decides, pattern_decides, group_decides, tree_decides};
ghost use Rattle.formulas.specs.Hashing.{term_number, term_fed, pattern_fed, group_fed, tree_fed, parts_fed};
ghost use Rattle.formulas.specs.Tree.{parts_of};

use crate::{Formula, Node, Pattern, Term, VariableGroup};
use std::hash::{Hash, Hasher};

impl Hash for Term {
    ghost hash_input = { term_fed };

    ghost respects_eq = { λ a b same. ap term_fed ((term_decides a b).0 same) };

    fn hash<H: Hasher>(&self, state: &mut H) {
        term_number(*self).hash(state);
    }
}

/// The number that a term is hashed by.
fn term_number(term: Term) -> u32
    ensures { result ≡ term_number term }
{
    match term {
        Term::Param(index) => 3 * index as u32,
        Term::Bound(level) => 3 * level as u32 + 1,
        Term::Object(object) => 3 * object as u32 + 2,
    }
}

impl Hash for Pattern {
    ghost hash_input = { pattern_fed };

    ghost respects_eq = { λ a b same. ap pattern_fed ((pattern_decides a b).0 same) };

    fn hash<H: Hasher>(&self, state: &mut H) {
        self.pred.hash(state);
        self.terms.as_slice().hash(state);
    }
}

impl Hash for VariableGroup {
    ghost hash_input = { group_fed };

    ghost respects_eq = { λ a b same. ap group_fed ((group_decides a b).0 same) };

    fn hash<H: Hasher>(&self, state: &mut H) {
        self.names.as_slice().hash(state);
        self.types.as_slice().hash(state);
    }
}

// Every part of a formula is hashed. Otherwise a text with many formulas that differ only in the parts left out would slow down the table that they are in.
impl Hash for Formula {
    ghost hash_input = { tree_fed };

    ghost respects_eq = { λ a b same. ap tree_fed ((tree_decides a b).0 same) };

    fn hash<H: Hasher>(&self, state: &mut H) {
        feed(self, state);
    }
}

/// Feeds a hasher what a formula is hashed by.
#[cycle(feed)]
fn feed<H: Hasher>(formula: &Formula, state: &mut H)
    ensures { state.new ≡ fold H.write state.old (tree_fed formula.now) }
{
    match formula.node() {
        Node::Atom(positive, pattern) => {
            positive.hash(state);
            pattern.hash(state);
        }
        Node::Equal(positive, left, right) => {
            state.write_u8(2);
            positive.hash(state);
            left.hash(state);
            right.hash(state);
        }
        Node::Not(body) => {
            state.write_u8(3);
            feed(body, state);
        }
        Node::And(parts) => feed_all(4, parts, state),
        Node::Or(parts) => feed_all(5, parts, state),
        Node::Imply(premise, conclusion) => {
            state.write_u8(6);
            feed(premise, state);
            feed(conclusion, state);
        }
        Node::Exists(groups, body) => feed_quantified(7, groups.as_slice(), body, state),
        Node::ForAll(groups, body) => feed_quantified(8, groups.as_slice(), body, state),
    }
}

/// Feeds a hasher the number of `and` or `or`, and then the parts.
#[cycle(feed)]
fn feed_all<H: Hasher>(operator: u8, parts: &[Formula], state: &mut H)
    ensures { state.new ≡ fold H.write state.old (fed.u8 operator ++ parts_fed (parts_of parts.now)) }
{
    state.write_u8(operator);
    for part in parts {
        feed(part, state);
    }
    state.write_u8(9);
}

/// Feeds a hasher the number of a quantifier, and then its variables and its body.
#[cycle(feed)]
fn feed_quantified<H: Hasher>(operator: u8, groups: &[VariableGroup], body: &Formula, state: &mut H)
    ensures { state.new ≡ fold H.write state.old (fed.u8 operator ++ (fed.slice group_fed groups.now ++ tree_fed body.now)) }
{
    state.write_u8(operator);
    groups.hash(state);
    feed(body, state);
}
