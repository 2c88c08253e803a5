//! Lists of typed variables, which may have a choice of types.

ghost use Rattle.std.specs.Prelude.{◌≡◌, [], IsSome, Some};
ghost use Rattle.pddl_syntax.specs.Levels.{here};
ghost use Rattle.pddl_syntax.specs.Reading.{GivesAgain, GivesObject, ReadsList, TakesTypes};
ghost use Rattle.pddl_syntax.specs.Forms.{name_forms, variable_groups};
ghost use Rattle.pddl_syntax.specs.Syntax.{either_in, names_of, typed_variables};

use crate::fault::{FaultKind, ReadFault};
use crate::heads::{is_dash, is_name, is_variable};
use crate::syntax::lists::expect_word;
use crate::syntax::typed::object;
use crate::syntax::{Names, VariableGroup, Variables};
use crate::walk::{Item, NameWord, Walk};
use std::alloc::Global;
use std::marker::Model;

/// Reads the names of a choice of types, at least one.
#[tactic(auto, using(crate::proofs::WordLemmas::names_steps))]
fn names<'a>(alloc: Global, walk: &mut Walk<'a>) -> Result<Names<'a>, ReadFault>
    ensures { ReadsList (λ v. name_forms v.items) result names_of (here walk.old.cursor) (here walk.new.cursor) }
{
    let mut names = Names::new(alloc);
    'names: loop {
        match walk.next() {
            Item::Close(span) => {
                if names.is_empty() {
                    return Err(ReadFault::new(FaultKind::Expected, span));
                }
                return Ok(names);
            }
            Item::Open(span) => return Err(ReadFault::new(FaultKind::Expected, span)),
            Item::Text(word) => {
                if !is_name(word.text) {
                    return Err(ReadFault::new(FaultKind::Expected, word.span));
                }
                names.push(NameWord::new(word))?;
            }
        }
    }
}

/// Reads a choice of types after its `(`.
#[tactic(auto, using(crate::proofs::WordLemmas::either_steps))]
fn either<'a>(alloc: Global, walk: &mut Walk<'a>) -> Result<Names<'a>, ReadFault>
    ensures { ReadsList (λ v. name_forms v.items) result either_in (here walk.old.cursor) (here walk.new.cursor) }
{
    expect_word(walk, b"either")?;
    names(alloc, walk)
}

/// Steps over the types of variables, which are due.
#[tactic(auto, using(crate::proofs::VariableLemmas::typing_steps))]
fn alternatives<'a>(alloc: Global, walk: &mut Walk<'a>) -> Result<Names<'a>, ReadFault>
    ensures { TakesTypes result (here walk.old.cursor) (here walk.new.cursor) }
{
    match walk.next() {
        Item::Text(word) => {
            if !is_name(word.text) {
                return Err(ReadFault::new(FaultKind::Expected, word.span));
            }
            let mut kinds = Names::new(alloc);
            kinds.push(NameWord::new(word))?;
            Ok(kinds)
        }
        Item::Open(_) => either(alloc, walk),
        Item::Close(span) => Err(ReadFault::new(FaultKind::Expected, span)),
    }
}

/// The type `object` alone.
#[tactic(auto, using(crate::proofs::TypedLemmas::no_names, crate::proofs::TypedLemmas::name_forms_pushed))]
fn object_alone<'a>(alloc: Global) -> Result<Names<'a>, ReadFault>
    ensures { GivesObject result }
{
    let mut kinds = Names::new(alloc);
    kinds.push(object())?;
    Ok(kinds)
}

/// A list of typed variables. Only where it begins is kept, so it takes no memory of its own.
#[derive(Drop)]
pub struct VariableList<'a> {
    walk: Walk<'a>,
}

impl<'a> Model for VariableList<'a> {
    ghost use Rattle.std.specs.Prelude.{List, [], IsSome, unwrap_or};
    ghost use Rattle.pddl_syntax.specs.Syntax.{VariableGroup, typed_variables};

    ghost Value = { List VariableGroup };

    ghost use Rattle.pddl_syntax.specs.Levels.{here};

    ghost view = { λ l. unwrap_or (typed_variables [] (here l.walk.cursor).top) [] };

    ghost invariant = { λ l. IsSome (typed_variables [] (here l.walk.cursor).top) };
}

impl<'a> VariableList<'a> {
    /// The list that the walk has before it.
    #[tactic(auto, using(crate::proofs::VariableLemmas::list_steps))]
    fn within(walk: Walk<'a>) -> Self
        requires { IsSome (typed_variables [] (here walk.cursor).top) }
        ensures { typed_variables [] (here walk.entry.cursor).top ≡ Some result }
    {
        VariableList { walk }
    }

    /// Its groups, which are read again. The only fault is running out of memory.
    #[tactic(auto, using(crate::proofs::VariableLemmas::list_steps))]
    pub fn groups(&self, alloc: Global) -> Result<Vec<VariableGroup<'a>>, ReadFault>
        ensures { GivesAgain (λ v. variable_groups v.items) result self.now }
    {
        let mut walk = self.walk.fork();
        typed_variables(alloc, &mut walk)
    }
}

/// Steps over a list of typed variables, and keeps where it begins.
#[tactic(auto, using(crate::proofs::VariableLemmas::list_steps))]
pub(crate) fn kept_variables<'a>(
    alloc: Global,
    walk: &mut Walk<'a>,
) -> Result<VariableList<'a>, ReadFault>
    ensures { ReadsList (λ l. l) result (typed_variables []) (here walk.old.cursor) (here walk.new.cursor) }
{
    let start = walk.fork();
    let _groups = typed_variables(alloc, walk)?;
    Ok(VariableList::within(start))
}

/// Reads the groups of a list of typed variables.
#[tactic(auto, using(crate::proofs::VariableLemmas::typed_steps))]
pub(crate) fn typed_variables<'a>(
    alloc: Global,
    walk: &mut Walk<'a>,
) -> Result<Vec<VariableGroup<'a>>, ReadFault>
    ensures { ReadsList (λ v. variable_groups v.items) result (typed_variables []) (here walk.old.cursor) (here walk.new.cursor) }
{
    let mut groups = Vec::new(alloc);
    let mut variables = Variables::new(alloc);
    'words: loop {
        match walk.next() {
            Item::Close(_) => {
                if variables.is_empty() {
                    return Ok(groups);
                }
                let kinds = object_alone(alloc)?;
                groups.push(VariableGroup { variables, kinds })?;
                return Ok(groups);
            }
            Item::Open(span) => return Err(ReadFault::new(FaultKind::Expected, span)),
            Item::Text(word) => {
                if !is_dash(word.text) {
                    if !is_variable(word.text) {
                        return Err(ReadFault::new(FaultKind::Expected, word.span));
                    }
                    variables.push(word)?;
                    continue 'words;
                }
                if variables.is_empty() {
                    return Err(ReadFault::new(FaultKind::Expected, word.span));
                }
                let kinds = alternatives(alloc, walk)?;
                groups.push(VariableGroup { variables, kinds })?;
                variables = Variables::new(alloc);
            }
        }
    }
}
