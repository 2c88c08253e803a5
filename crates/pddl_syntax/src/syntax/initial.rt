//! The initial atoms and the values of functions. They are not kept, but given to a taker while they are read. If the objects that they name come behind
//! them in the text, the place where they begin is kept, and they are read once more.

ghost use Rattle.std.specs.Prelude.{◌≡◌, false, true, IfErr, IfOk, IsSome, IsTrue, List, OnOk, Some};
ghost use Rattle.pddl_syntax.specs.Levels.{here};
ghost use Rattle.pddl_syntax.specs.Reading.{ReadsInto, ReadsList};
ghost use Rattle.pddl_syntax.specs.ReadFault.{out_of_memory};
ghost use Rattle.pddl_syntax.specs.Forms.{initial_form, name_groups};
ghost use Rattle.pddl_syntax.specs.Initial.{GivesItem, given_all, given_in};
ghost use Rattle.pddl_syntax.specs.Syntax.{InitialForm, init_item_in, initial_atom, initial_in};
ghost use Rattle.pddl_syntax.specs.Syntax as syntax;
ghost use Rattle.pddl_syntax.specs.Rows.{AreNames, atom_spelled};

use crate::dialect::Dialect;
use crate::fault::{FaultKind, ReadFault};
use crate::heads::{Context, ListHead, Scope, heads_atom, list_head};
use crate::syntax::atoms::{atom, negated_atom};
use crate::syntax::costs::value;
use crate::syntax::{InitialSyntax, NameGroup};
use crate::walk::{Item, NameWord, Walk};
use pddl_words::are_names;
use std::alloc::{AllocError, Global};
use std::marker::Model;

/// What takes the initial atoms and the values of functions of a problem, one by one, in text order.
pub trait InitialTaker {
    // What it is once it has begun with these objects.
    ghost begun: { Self → List syntax.NameGroup → Self };

    // What it is with one item more.
    ghost given: { Self → InitialForm → Self };

    /// Begins, with the objects that the problem declares.
    fn begin(&mut self, alloc: Global, objects: &[NameGroup<'_>]) -> Result<(), AllocError>
        ensures { OnOk result (self.new ≡ begun self.old (name_groups objects.now)) };

    /// Takes an atom as a row of bytes, if these are names with a single space between each two. It may also leave it, to be read as an item. Returns
    /// whether it took it.
    fn take_row(&mut self, row: &[u8]) -> Result<bool, AllocError>
        ensures names { IfOk result (λ is_taken. IsTrue is_taken → AreNames row.now) }
        ensures given { IfOk result (λ is_taken. IsTrue is_taken → self.new ≡ given self.old (initial_atom true (atom_spelled row.now))) }
        ensures left { IfOk result (λ is_taken. is_taken ≡ false → self.new ≡ self.old) };

    /// Takes an item.
    fn take(&mut self, alloc: Global, item: &InitialSyntax<'_>) -> Result<(), AllocError>
        ensures { OnOk result (self.new ≡ given self.old (initial_form item.now)) };
}

/// Takes the items of a problem whose syntax alone is wanted, and keeps nothing.
#[derive(Drop)]
pub struct Passed;

impl InitialTaker for Passed {
    ghost begun = { λ p _. p };

    ghost given = { λ p _. p };

    fn begin(&mut self, _alloc: Global, _objects: &[NameGroup<'_>]) -> Result<(), AllocError> {
        Ok(())
    }

    fn take_row(&mut self, row: &[u8]) -> Result<bool, AllocError> {
        Ok(are_names(row))
    }

    fn take(&mut self, _alloc: Global, _item: &InitialSyntax<'_>) -> Result<(), AllocError> {
        Ok(())
    }
}

/// The initial atoms and the values of functions, in text order: where they begin. It takes no memory of its own.
#[derive(Drop)]
pub struct InitialItems<'a> {
    walk: Walk<'a>,
    dialect: Dialect,
}

impl<'a> Model for InitialItems<'a> {
    ghost use Rattle.std.specs.Prelude.{List, [], IsSome, unwrap_or};
    ghost use Rattle.pddl_syntax.specs.Syntax.{InitialForm};

    ghost Value = { List InitialForm };

    ghost use Rattle.pddl_syntax.specs.Levels.{here};
    ghost use Rattle.pddl_syntax.specs.Syntax.{initial_in};

    ghost view = { λ i. unwrap_or (initial_in i.dialect (here i.walk.cursor).top) [] };

    ghost invariant = { λ i. IsSome (initial_in i.dialect (here i.walk.cursor).top) };
}

impl<'a> InitialItems<'a> {
    /// What is left of the list that the walk is in.
    #[tactic(auto, using(crate::proofs::InitialLemmas::start_steps))]
    fn within(walk: Walk<'a>, dialect: Dialect) -> Self
        requires { IsSome (initial_in dialect (here walk.cursor).top) }
        ensures { initial_in dialect (here walk.entry.cursor).top ≡ Some result }
    {
        InitialItems { walk, dialect }
    }

    /// Gives all of them to a taker. The only fault is running out of memory.
    #[tactic(auto, using(crate::proofs::InitialLemmas::kept_steps))]
    pub fn give<T: InitialTaker>(&self, alloc: Global, taker: &mut T) -> Result<(), ReadFault>
        ensures given { OnOk result (taker.new ≡ given_all T.given taker.old self.now) }
        ensures fault { IfErr result (λ e. e ≡ out_of_memory) }
    {
        let mut walk = self.walk.fork();
        give_items(alloc, self.dialect, &mut walk, taker)
    }
}

/// Reads an initial atom, which may be negated, or the value of a function.
#[tactic(auto, using(crate::proofs::InitialLemmas::item_steps))]
fn item<'a>(
    alloc: Global,
    dialect: Dialect,
    walk: &mut Walk<'a>,
) -> Result<InitialSyntax<'a>, ReadFault>
    ensures { ReadsList initial_form result (init_item_in dialect) (here walk.old.cursor) (here walk.new.cursor) }
{
    let context = Context::Initial;
    let scope = Scope { dialect, context };
    match walk.next() {
        Item::Text(word) => match list_head(scope, word.text, walk) {
            ListHead::Atom => Ok(InitialSyntax::Atom {
                positive: true,
                atom: atom(alloc, walk, context, NameWord::new(word))?,
            }),
            ListHead::Not => Ok(InitialSyntax::Atom {
                positive: false,
                atom: negated_atom(alloc, walk, scope)?,
            }),
            ListHead::Value => Ok(InitialSyntax::Value(value(alloc, walk, context)?)),
            ListHead::Other => Err(ReadFault::new(FaultKind::Expected, word.span)),
            _ => Err(ReadFault::new(FaultKind::Unsupported, word.span)),
        },
        Item::Open(span) => Err(ReadFault::new(FaultKind::Expected, span)),
        Item::Close(span) => Err(ReadFault::new(FaultKind::Expected, span)),
    }
}

/// Gives the next item to a taker as a row of bytes, if it is an atom that is written as names with a single space between each two, and the taker takes
/// it. Returns whether it did.
#[tactic(auto, using(crate::proofs::RowLemmas::row_steps))]
#[inline(always)]
fn give_row<T: InitialTaker>(walk: &mut Walk<'_>, taker: &mut T) -> Result<bool, AllocError>
    ensures given { IfOk result (λ is_taken. IsTrue is_taken → GivesItem T.given (here walk.old.cursor) (here walk.new.cursor) taker.old taker.new) }
    ensures left { IfOk result (λ is_taken. is_taken ≡ false → (here walk.new.cursor ≡ here walk.old.cursor) × (taker.new ≡ taker.old)) }
{
    let Some(range) = walk.next_range() else {
        return Ok(false);
    };
    if !heads_atom(range.key) || !taker.take_row(range.key)? {
        return Ok(false);
    }
    walk.pass(range);
    Ok(true)
}

/// Reads the initial atoms and values, and gives each to a taker.
#[tactic(auto, using(crate::proofs::InitialLemmas::items_steps))]
fn give_items<T: InitialTaker>(
    alloc: Global,
    dialect: Dialect,
    walk: &mut Walk<'_>,
    taker: &mut T,
) -> Result<(), ReadFault>
    ensures { ReadsInto result (given_in T.given dialect taker.old) (here walk.old.cursor) (here walk.new.cursor) taker.new }
{
    'items: loop {
        if give_row(walk, taker)? {
            continue 'items;
        }
        match walk.next() {
            Item::Close(_) => return Ok(()),
            Item::Text(word) => return Err(ReadFault::new(FaultKind::Expected, word.span)),
            Item::Open(_) => {
                let item = item(alloc, dialect, walk)?;
                taker.take(alloc, &item)?;
            }
        }
    }
}

/// Reads the initial atoms and values, gives each to a taker, and keeps where they begin.
#[tactic(auto, using(crate::proofs::InitialLemmas::kept_steps))]
pub(crate) fn given_items<'a, T: InitialTaker>(
    alloc: Global,
    dialect: Dialect,
    walk: &mut Walk<'a>,
    taker: &mut T,
) -> Result<InitialItems<'a>, ReadFault>
    ensures items { ReadsList (λ i. i) result (initial_in dialect) (here walk.old.cursor) (here walk.new.cursor) }
    ensures given { IfOk result (λ items. taker.new ≡ given_all T.given taker.old items) }
{
    let start = walk.fork();
    give_items(alloc, dialect, walk, taker)?;
    Ok(InitialItems::within(start, dialect))
}
