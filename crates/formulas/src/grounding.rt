//! Formulas with objects for parameters and variables, and copies of formulas.
ghost use Rattle.std.specs.Prelude.{◌≡◌, map, IfOk};
ghost use Rattle.formulas.specs.Grounding.{term_with, pattern_with, with_objects};
ghost use Rattle.formulas.specs.Tree.{atom, equality, negation, implication, exists, for_all};

use crate::{Formula, Name, Node, Pattern, Seq, ShortSeq, Term, VariableGroup};
use std::alloc::{AllocError, Global};

impl Formula {
    ghost use Rattle.std.specs.Prelude.{◌≡◌, IfOk};

    /// The same formula with memory of its own.
    #[tactic(auto, using(crate::proofs::Copies::with_nothing))]
    pub fn try_clone(&self, alloc: Global) -> Result<Formula, AllocError>
        ensures { IfOk result (λ copy. copy ≡ self.now) }
    {
        ground(alloc, self, &[], &[])
    }
}

/// The formula with `objects` for the parameters of the action, and `bound` for the outermost variables. These are the variables that the quantified effects
/// around a condition bind. The other variables stay, and their levels are counted without those that became objects. A parameter that has no object stays.
#[cycle(ground)]
pub fn ground(
    alloc: Global,
    formula: &Formula,
    objects: &[u16],
    bound: &[u16],
) -> Result<Formula, AllocError>
    ensures { IfOk result (λ copy. copy ≡ with_objects objects.now bound.now formula.now) }
{
    match formula.node() {
        Node::Atom(positive, pattern) => ground_atom(alloc, *positive, pattern, objects, bound),
        Node::Equal(positive, left, right) => {
            Ok(ground_equality(*positive, *left, *right, objects, bound))
        }
        Node::Not(body) => negation(alloc, ground(alloc, body, objects, bound)?),
        Node::And(parts) => Ok(Formula::new(Node::And(ground_all(alloc, parts, objects, bound)?))),
        Node::Or(parts) => Ok(Formula::new(Node::Or(ground_all(alloc, parts, objects, bound)?))),
        Node::Imply(premise, conclusion) => {
            let premise = ground(alloc, premise, objects, bound)?;
            implication(alloc, premise, ground(alloc, conclusion, objects, bound)?)
        }
        Node::Exists(groups, body) => {
            exists(
                alloc,
                groups.as_slice(),
                ground(alloc, body, objects, bound)?,
            )
        }
        Node::ForAll(groups, body) => {
            for_all(
                alloc,
                groups.as_slice(),
                ground(alloc, body, objects, bound)?,
            )
        }
    }
}

/// The same for each formula of a list.
#[cycle(ground)]
fn ground_all(
    alloc: Global,
    formulas: &[Formula],
    objects: &[u16],
    bound: &[u16],
) -> Result<Vec<Formula>, AllocError>
    ensures { IfOk result (λ copies. copies.items ≡ map (with_objects objects.now bound.now) formulas.now) }
{
    let mut copies = Vec::with_capacity(alloc, formulas.len())?;
    for formula in formulas {
        copies.push(ground(alloc, formula, objects, bound)?)?;
    }
    Ok(copies)
}

/// The same for an atom, or for its negation.
fn ground_atom(
    alloc: Global,
    positive: bool,
    pattern: &Pattern,
    objects: &[u16],
    bound: &[u16],
) -> Result<Formula, AllocError>
    ensures { IfOk result (λ copy. copy ≡ with_objects objects.now bound.now (atom positive pattern.now)) }
{
    let pattern = ground_pattern(alloc, pattern, objects, bound)?;
    Ok(Formula::new(Node::Atom(positive, pattern)))
}

/// The same for an equality, or for its negation.
fn ground_equality(
    positive: bool,
    left: Term,
    right: Term,
    objects: &[u16],
    bound: &[u16],
) -> Formula
    ensures { result ≡ with_objects objects.now bound.now (equality positive left right) }
{
    let left = ground_term(left, objects, bound);
    Formula::new(Node::Equal(positive, left, ground_term(right, objects, bound)))
}

/// A formula under `not`.
fn negation(alloc: Global, body: Formula) -> Result<Formula, AllocError>
    ensures { IfOk result (λ whole. whole ≡ negation body) }
{
    Ok(Formula::new(Node::Not(Box::new(alloc, body)?)))
}

/// Two formulas under `imply`.
fn implication(alloc: Global, premise: Formula, conclusion: Formula) -> Result<Formula, AllocError>
    ensures { IfOk result (λ whole. whole ≡ implication premise conclusion) }
{
    let premise = Box::new(alloc, premise)?;
    Ok(Formula::new(Node::Imply(premise, Box::new(alloc, conclusion)?)))
}

/// A formula under `exists`, with these variables.
fn exists(alloc: Global, groups: &[VariableGroup], body: Formula) -> Result<Formula, AllocError>
    ensures { IfOk result (λ whole. whole ≡ exists groups.now body) }
{
    let body = Box::new(alloc, body)?;
    Ok(Formula::new(Node::Exists(copy_groups(alloc, groups)?, body)))
}

/// A formula under `forall`, with these variables.
fn for_all(alloc: Global, groups: &[VariableGroup], body: Formula) -> Result<Formula, AllocError>
    ensures { IfOk result (λ whole. whole ≡ for_all groups.now body) }
{
    let body = Box::new(alloc, body)?;
    Ok(Formula::new(Node::ForAll(copy_groups(alloc, groups)?, body)))
}

/// The same for a pattern.
fn ground_pattern(
    alloc: Global,
    pattern: &Pattern,
    objects: &[u16],
    bound: &[u16],
) -> Result<Pattern, AllocError>
    ensures { IfOk result (λ copy. copy ≡ pattern_with objects.now bound.now pattern.now) }
{
    let mut terms = ShortSeq::new(alloc);
    for term in pattern.terms.as_slice() {
        terms.push(ground_term(*term, objects, bound))?;
    }
    Ok(Pattern {
        pred: pattern.pred,
        terms,
    })
}

/// The same for a term.
fn ground_term(term: Term, objects: &[u16], bound: &[u16]) -> Term
    ensures { result ≡ term_with objects.now bound.now term }
{
    match term {
        Term::Param(index) => {
            if (index as usize) < objects.len() {
                Term::Object(objects[index as usize])
            } else {
                Term::Param(index)
            }
        }
        Term::Bound(level) => {
            if (level as usize) < bound.len() {
                Term::Object(bound[level as usize])
            } else {
                Term::Bound(level - bound.len() as u16)
            }
        }
        Term::Object(object) => Term::Object(object),
    }
}

/// The same groups of variables with memory of their own.
fn copy_groups(alloc: Global, groups: &[VariableGroup]) -> Result<Seq<VariableGroup>, AllocError>
    ensures { IfOk result (λ copies. copies ≡ groups.now) }
{
    let mut copies = Vec::with_capacity(alloc, groups.len())?;
    for group in groups {
        copies.push(group.try_clone(alloc)?)?;
    }
    Ok(Seq::from_vec(copies))
}

impl VariableGroup {
    ghost use Rattle.std.specs.Prelude.{◌≡◌, IfOk};

    /// The same variables with memory of their own.
    pub fn try_clone(&self, alloc: Global) -> Result<VariableGroup, AllocError>
        ensures { IfOk result (λ copy. copy ≡ self.now) }
    {
        let names = copy_names(alloc, self.names.as_slice())?;
        let types = self.types.as_slice().iter().copied().collect(alloc)?;
        Ok(VariableGroup {
            names,
            types: Seq::from_vec(types),
        })
    }
}

/// The same names with memory of their own.
fn copy_names(alloc: Global, names: &[Name]) -> Result<Seq<Name>, AllocError>
    ensures { IfOk result (λ copies. copies ≡ names.now) }
{
    let mut copies = Vec::with_capacity(alloc, names.len())?;
    for name in names {
        copies.push(copy_name(alloc, name)?)?;
    }
    Ok(Seq::from_vec(copies))
}

/// The same name with memory of its own.
fn copy_name(alloc: Global, name: &Name) -> Result<Name, AllocError>
    ensures { IfOk result (λ copy. copy ≡ name.now) }
{
    Name::from_word(alloc, name.as_bytes())
}
