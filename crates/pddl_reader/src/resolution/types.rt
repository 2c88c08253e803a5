//! Types are numbered in text order, declared under their parents, and ordered as a tree below `object`.

ghost use Rattle.std.specs.Prelude.{◌≡◌, ◌≢◌, ◌<◌, ◌≤◌, length, IfOk, Some};
ghost use Rattle.strips_task.specs.WellFormed.{most_types};
ghost use Rattle.std.specs.List.{list_any};
ghost use Rattle.pddl_words.specs.Words.{folded};
ghost use Rattle.pddl_syntax.specs.Forms.{name_forms, name_group_form, name_groups};
ghost use Rattle.pddl_syntax.specs.Optional.{guard, through};
ghost use Rattle.pddl_syntax.specs.Reading.{FindsAny, Gives, GivesTest, Puts};
ghost use Rattle.pddl_reader.specs.TypeOrder.{counts_as_parent, declared_under, group_declared, is_tree, numbered, object_alone, parent_name, parent_number, parents_of, type_declared, types_declared, types_of};
ghost use Rattle.pddl_reader.specs.TypeCycles.{declares_cycle, is_under_itself, names_cycle};

use crate::resolution::names::{is_same_name, name, number_of};
use pddl_syntax::{Dialect, FaultKind, NameGroup, NameWord, ReadFault};
use std::alloc::{AllocError, Global};
use strips_task::{MOST_TYPES, Name, NameTable, Seed, TypeList};

/// The names of the types by their numbers, and the name of the parent of each that is declared.
#[derive(Drop)]
pub(crate) struct TypeTables {
    pub(crate) names: NameTable<()>,
    pub(crate) parents: NameTable<Name>,
}

/// Numbers a type where its name first appears.
#[tactic(auto, using(crate::proofs::TypeLemmas::number_steps))]
fn number(alloc: Global, names: &mut NameTable<()>, word: NameWord<'_>) -> Result<(), ReadFault>
    ensures { Puts result (numbered names.old (folded word.entry.text.now)) names.new }
{
    let name = name(alloc, word)?;
    if names.number_of(name.as_bytes()).is_some() {
        return Ok(());
    }
    if names.len() >= MOST_TYPES {
        return Err(ReadFault::new(FaultKind::TooMany, word.span));
    }
    names.push(name, ())?;
    Ok(())
}

/// The fault of a type that is declared under a second parent. For `object`, which is its own parent, it is a cycle.
fn parent_fault(name: &Name, word: NameWord<'_>) -> ReadFault
    ensures { result.kind ≢ FaultKind.OutOfMemory }
{
    if name.as_bytes() == b"object".as_slice() {
        ReadFault::new(FaultKind::TypeCycle, word.span)
    } else {
        ReadFault::new(FaultKind::Repeated, word.span)
    }
}

/// Whether declarations under a parent count.
#[tactic(auto, unfolding(crate::specs::TypeOrder::counts_as_parent))]
fn counts_as_parent(dialect: Dialect, parent: &Name) -> bool
    ensures { result ≡ counts_as_parent dialect parent.now }
{
    match dialect {
        Dialect::Strips => true,
        Dialect::Ipc | Dialect::Adl => parent.as_bytes() != b"object".as_slice(),
    }
}

/// Declares a type under its parent, if that counts.
#[tactic(auto, using(crate::proofs::TypeLemmas::under_steps))]
fn declare_under(
    alloc: Global,
    dialect: Dialect,
    parents: &mut NameTable<Name>,
    word: NameWord<'_>,
    kind: NameWord<'_>,
) -> Result<(), ReadFault>
    ensures { Puts result (declared_under dialect parents.old (folded word.entry.text.now) (folded kind.entry.text.now)) parents.new }
{
    let parent = name(alloc, kind)?;
    if !counts_as_parent(dialect, &parent) {
        return Ok(());
    }
    let own = name(alloc, word)?;
    if let Some(number) = parents.number_of(own.as_bytes()) {
        if is_same_name(parents.get(number).1, &parent) {
            return Ok(());
        }
        return Err(parent_fault(&own, word));
    }
    parents.push(own, parent)?;
    Ok(())
}

/// Declares a type of a group.
#[tactic(auto, using(crate::proofs::TypeLemmas::type_steps))]
fn declare_type(
    alloc: Global,
    dialect: Dialect,
    tables: &mut TypeTables,
    word: NameWord<'_>,
    kind: NameWord<'_>,
) -> Result<(), ReadFault>
    ensures { Puts result (type_declared dialect kind.entry.text.now tables.old word.entry.text.now) tables.new }
{
    declare_under(alloc, dialect, &mut tables.parents, word, kind)?;
    number(alloc, &mut tables.names, word)
}

/// Declares types under one parent.
#[tactic(auto, using(crate::proofs::Through::through_steps, crate::proofs::ObjectLemmas::named_steps))]
fn declare_types(
    alloc: Global,
    dialect: Dialect,
    tables: &mut TypeTables,
    words: &[NameWord<'_>],
    kind: NameWord<'_>,
) -> Result<(), ReadFault>
    ensures { Puts result (through (type_declared dialect kind.entry.text.now) tables.old (name_forms words.now)) tables.new }
{
    'words: for word in words {
        declare_type(alloc, dialect, tables, *word, kind)?;
    }
    Ok(())
}

/// Declares the types of a group.
#[tactic(auto, using(crate::proofs::TypeLemmas::group_steps))]
fn declare_group(
    alloc: Global,
    dialect: Dialect,
    tables: &mut TypeTables,
    group: &NameGroup<'_>,
) -> Result<(), ReadFault>
    ensures { Puts result (group_declared dialect tables.old (name_group_form group.now)) tables.new }
{
    declare_types(alloc, dialect, tables, group.names.as_slice(), group.kind)?;
    number(alloc, &mut tables.names, group.kind)
}

/// The tables of `object` alone.
#[tactic(auto, unfolding(pddl_words::specs::Words::is_name, strips_task::specs::Names::number_named))]
fn object_alone(alloc: Global, seed: Seed) -> Result<TypeTables, AllocError>
    ensures { IfOk result (λ tables. tables ≡ object_alone) }
{
    let mut names = NameTable::new(alloc, seed);
    names.push(Name::from_word(alloc, b"object")?, ())?;
    let mut parents = NameTable::new(alloc, seed);
    let own = Name::from_word(alloc, b"object")?;
    parents.push(own, Name::from_word(alloc, b"object")?)?;
    Ok(TypeTables { names, parents })
}

/// Declares the types of all groups.
#[tactic(auto, using(crate::proofs::Through::through_steps, crate::proofs::ObjectLemmas::groups_steps))]
fn declare_groups(
    alloc: Global,
    dialect: Dialect,
    tables: &mut TypeTables,
    groups: &[NameGroup<'_>],
) -> Result<(), ReadFault>
    ensures { Puts result (through (group_declared dialect) tables.old (name_groups groups.now)) tables.new }
{
    'groups: for group in groups {
        declare_group(alloc, dialect, tables, group)?;
    }
    Ok(())
}

/// The name of the parent of a type: `object` if the type is not declared.
#[tactic(auto, using(crate::proofs::TypeLemmas::parent_steps))]
fn parent_name<'t>(parents: &'t NameTable<Name>, name: &Name) -> &'t [u8]
    ensures { result.now ≡ parent_name parents.now name.now }
{
    match parents.number_of(name.as_bytes()) {
        Some(number) => parents.get(number).1.as_bytes(),
        None => b"object",
    }
}

/// The number of the parent of a type.
#[tactic(auto, using(crate::proofs::TypeLemmas::parent_number_steps))]
fn parent_number(tables: &TypeTables, name: &Name) -> u16
    requires { length tables.now.names ≤ most_types }
    ensures { result ≡ parent_number tables.now name.now }
{
    match tables.names.number_of(parent_name(&tables.parents, name)) {
        Some(number) => number as u16,
        None => 0,
    }
}

/// For each type the number of its parent.
#[tactic(auto, using(crate::proofs::TypeLemmas::parents_steps))]
fn parents(alloc: Global, tables: &TypeTables) -> Result<TypeList, AllocError>
    requires { length tables.now.names ≤ most_types }
    ensures { IfOk result (λ parents. parents ≡ parents_of tables.now) }
{
    let mut parents = TypeList::new(alloc);
    'types: for number in 0..tables.names.len() {
        parents.push(parent_number(tables, tables.names.get(number).0))?;
    }
    Ok(parents)
}

/// Whether a type other than `object` is above its own parent, so that a chain of parents returns to it.
#[tactic(auto, unfolding(crate::specs::TypeCycles::is_under_itself))]
fn is_under_itself(parents: &TypeList, number: usize) -> bool
    requires known { number < length parents.now }
    requires few { length parents.now ≤ most_types }
    ensures { result ≡ is_under_itself parents.now number }
{
    0 < number && parents.is_below(parents.get(number), number as u16)
}

/// Whether a word names a type under itself.
#[tactic(auto, using(crate::proofs::TypeLemmas::cycle_steps))]
fn names_cycle(
    alloc: Global,
    names: &NameTable<()>,
    parents: &TypeList,
    word: NameWord<'_>,
) -> Result<bool, ReadFault>
    requires as_many { length parents.now ≡ length names.now }
    requires few { length names.now ≤ most_types }
    ensures { GivesTest result (names_cycle names.now parents.now word.entry.text.now) }
{
    match number_of(alloc, names, word.text)? {
        Some(number) => Ok(is_under_itself(parents, number)),
        None => Ok(false),
    }
}

/// The first of the words that names a type under itself.
#[tactic(auto, using(crate::proofs::TypeLemmas::cycle_word_steps))]
fn first_in_group<'a>(
    alloc: Global,
    names: &NameTable<()>,
    parents: &TypeList,
    words: &[NameWord<'a>],
) -> Result<Option<NameWord<'a>>, ReadFault>
    requires as_many { length parents.now ≡ length names.now }
    requires few { length names.now ≤ most_types }
    ensures { FindsAny result (list_any (names_cycle names.now parents.now) (name_forms words.now)) }
{
    'words: for word in words {
        if names_cycle(alloc, names, parents, *word)? {
            return Ok(Some(*word));
        }
    }
    Ok(None)
}

/// The first type that a group declares under itself, if its declarations count.
#[tactic(auto, using(crate::proofs::TypeLemmas::group_cycle_steps))]
fn first_in_cycle<'a>(
    alloc: Global,
    dialect: Dialect,
    names: &NameTable<()>,
    parents: &TypeList,
    group: &NameGroup<'a>,
) -> Result<Option<NameWord<'a>>, ReadFault>
    requires as_many { length parents.now ≡ length names.now }
    requires few { length names.now ≤ most_types }
    ensures { FindsAny result (declares_cycle dialect names.now parents.now (name_group_form group.now)) }
{
    let parent = name(alloc, group.kind)?;
    if !counts_as_parent(dialect, &parent) {
        return Ok(None);
    }
    first_in_group(alloc, names, parents, group.names.as_slice())
}

/// The first declared type, in text order, that is under itself.
#[tactic(auto, using(crate::proofs::TypeLemmas::cycle_group_steps))]
fn first_under_itself<'a>(
    alloc: Global,
    dialect: Dialect,
    names: &NameTable<()>,
    parents: &TypeList,
    groups: &[NameGroup<'a>],
) -> Result<Option<NameWord<'a>>, ReadFault>
    requires as_many { length parents.now ≡ length names.now }
    requires few { length names.now ≤ most_types }
    ensures { FindsAny result (list_any (declares_cycle dialect names.now parents.now) (name_groups groups.now)) }
{
    'groups: for group in groups {
        if let Some(word) = first_in_cycle(alloc, dialect, names, parents, group)? {
            return Ok(Some(word));
        }
    }
    Ok(None)
}

/// The order of the types. If their parents form no tree, the fault is at the first declared type that is under itself.
#[tactic(auto, using(crate::proofs::CycleLemmas::order_steps))]
fn order(
    alloc: Global,
    dialect: Dialect,
    tables: &TypeTables,
    groups: &[NameGroup<'_>],
) -> Result<TypeList, ReadFault>
    requires few { length tables.now.names ≤ most_types }
    requires declared { types_declared dialect (name_groups groups.now) ≡ Some tables.now }
    ensures { Gives (λ parents. parents) result (guard (is_tree (parents_of tables.now)) (Some (parents_of tables.now))) }
{
    let mut parents = parents(alloc, tables)?;
    parents.index()?;
    match first_under_itself(alloc, dialect, &tables.names, &parents, groups)? {
        Some(word) => Err(ReadFault::new(FaultKind::TypeCycle, word.span)),
        None => Ok(parents),
    }
}

/// The types that groups declare.
#[tactic(auto, using(crate::proofs::TypeLemmas::declared_steps))]
fn tables(
    alloc: Global,
    seed: Seed,
    dialect: Dialect,
    groups: &[NameGroup<'_>],
) -> Result<TypeTables, ReadFault>
    ensures given { Gives (λ tables. tables) result (types_declared dialect (name_groups groups.now)) }
    ensures few { IfOk result (λ tables. length tables.names ≤ most_types) }
{
    let mut tables = object_alone(alloc, seed)?;
    declare_groups(alloc, dialect, &mut tables, groups)?;
    Ok(tables)
}

/// The types of a domain: their names by number, and the order of their numbers.
#[derive(Drop)]
pub(crate) struct KnownTypes {
    pub(crate) names: NameTable<()>,
    pub(crate) parents: TypeList,
}

/// The types that the groups of a domain declare.
#[tactic(auto, using(crate::proofs::TypeLemmas::types_steps))]
pub(crate) fn types(
    alloc: Global,
    seed: Seed,
    dialect: Dialect,
    groups: &[NameGroup<'_>],
) -> Result<KnownTypes, ReadFault>
    ensures given { Gives (λ types. types) result (types_of dialect (name_groups groups.now)) }
    ensures few { IfOk result (λ types. length types.names ≤ most_types) }
{
    let tables = tables(alloc, seed, dialect, groups)?;
    let parents = order(alloc, dialect, &tables, groups)?;
    let TypeTables { names, parents: _ } = tables;
    Ok(KnownTypes { names, parents })
}
