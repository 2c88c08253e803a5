//! Names are declared in tables, and found there.

ghost use Rattle.std.specs.Prelude.{◌≡◌, ◌<◌, ◌≤◌, length, IfOk, IfSome, Some};
ghost use Rattle.strips_task.specs.WellFormed.{most_predicates};
ghost use Rattle.std.specs.Str.{bytes_eq};
ghost use Rattle.pddl_words.specs.Words.{folded};
ghost use Rattle.strips_task.specs.Names.{number_named};
ghost use Rattle.pddl_reader.specs.Declarations.{may_declare, predicate_number, takes_terms};
ghost use Rattle.pddl_reader.specs.NewNames.{GivesNew};
ghost use Rattle.pddl_syntax.specs.Forms.{atom_form};
ghost use Rattle.pddl_syntax.specs.Reading.{Allows, Gives, GivesOption, ReadsName};

use pddl_syntax::{AtomSyntax, FaultKind, NameWord, ReadFault};
use std::alloc::Global;
use strips_task::{Alternatives, MOST_PREDICATES, Name, NameTable, Seq};

/// The name that a word stands for.
#[inline(always)]
pub(crate) fn name(alloc: Global, word: NameWord<'_>) -> Result<Name, ReadFault>
    ensures { ReadsName result (folded word.entry.text.now) }
{
    Ok(Name::from_word(alloc, word.text)?)
}

/// The number of the entry that a word names. A word that is written like the entry, in lower case, takes no memory.
#[tactic(auto, using(crate::proofs::TableLemmas::named_as_written))]
pub(crate) fn number_of<V>(
    alloc: Global,
    table: &NameTable<V>,
    word: &[u8],
) -> Result<Option<usize>, ReadFault>
    ensures number { GivesOption result (number_named table.now (folded word.now)) }
    ensures within { IfOk result (λ found. IfSome found (λ number. number < length table.now)) }
{
    if let Some(number) = table.number_of(word) {
        return Ok(Some(number));
    }
    let folded = word.to_ascii_lowercase(alloc)?;
    Ok(table.number_of(folded.as_slice()))
}

/// Whether two names are the same.
pub(crate) fn is_same_name(one: &Name, other: &Name) -> bool
    ensures { result ≡ bytes_eq one.now other.now }
{
    one == other
}

/// Tests that one more predicate, function or action may be declared under a name. There may be as many functions, and as many actions, as
/// predicates.
#[tactic(auto, using(crate::proofs::TableLemmas::may_steps))]
fn check_new<V>(table: &NameTable<V>, name: &Name, word: NameWord<'_>) -> Result<(), ReadFault>
    ensures { Allows result (may_declare most_predicates table.now name.now) }
{
    if table.number_of(name.as_bytes()).is_some() {
        return Err(ReadFault::new(FaultKind::Repeated, word.span));
    }
    if table.len() >= MOST_PREDICATES {
        return Err(ReadFault::new(FaultKind::TooMany, word.span));
    }
    Ok(())
}

/// The name that a word stands for, if one more predicate, function or action may be declared under it.
pub(crate) fn new_name<V>(
    alloc: Global,
    table: &NameTable<V>,
    word: NameWord<'_>,
) -> Result<Name, ReadFault>
    ensures { GivesNew result (folded word.entry.text.now) (may_declare most_predicates table.now (folded word.entry.text.now)) }
{
    let name = name(alloc, word)?;
    check_new(table, &name, word)?;
    Ok(name)
}

/// Whether the predicate with a number takes `count` terms.
#[tactic(auto, using(crate::proofs::TableLemmas::argument_types_counted))]
fn takes_terms(predicates: &NameTable<Seq<Alternatives>>, number: usize, count: usize) -> bool
    requires { number < length predicates.now }
    ensures { result ≡ takes_terms predicates.now number count }
{
    predicates.get(number).1.len() == count
}

/// The number of the predicate of an atom, which takes as many terms as the atom has.
#[tactic(auto, using(crate::proofs::TableLemmas::number_steps))]
pub(crate) fn predicate_number(
    alloc: Global,
    predicates: &NameTable<Seq<Alternatives>>,
    atom: &AtomSyntax<'_>,
) -> Result<u16, ReadFault>
    requires { length predicates.now ≤ most_predicates }
    ensures { Gives (λ number. number) result (predicate_number predicates.now (atom_form atom.now)) }
{
    let word = atom.predicate;
    let Some(number) = number_of(alloc, predicates, word.text)? else {
        return Err(ReadFault::new(FaultKind::UnknownName, word.span));
    };
    if !takes_terms(predicates, number, atom.terms.len()) {
        return Err(ReadFault::new(FaultKind::WrongCount, word.span));
    }
    Ok(number as u16)
}
