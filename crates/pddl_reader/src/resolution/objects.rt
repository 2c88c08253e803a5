//! Constants and objects are declared with their types.

ghost use Rattle.std.specs.Prelude.{◌≡◌, ◌≤◌, length, Some, None};
ghost use Rattle.pddl_words.specs.Words.{folded};
ghost use Rattle.strips_task.specs.WellFormed.{most_types};
ghost use Rattle.std.specs.Map.{keys_of};
ghost use Rattle.pddl_syntax.specs.Forms.{name_forms, name_group_form, name_groups};
ghost use Rattle.pddl_reader.specs.Objects.{object_declared, objects_from, objects_grouped, type_number};
ghost use Rattle.pddl_syntax.specs.Optional.{through};
ghost use Rattle.pddl_syntax.specs.Reading.{Gives, GivesOption, Puts};

use crate::resolution::names::{name, number_of};
use pddl_syntax::{FaultKind, NameGroup, NameWord, ReadFault};
use std::alloc::Global;
use strips_task::{MOST_OBJECTS, Name, NameTable};

/// A number that no type has. Objects of an unknown type are declared with it first, since a fault of theirs is reported before that of the
/// type's name.
const NO_TYPE: u16 = u16::MAX;

/// The number of the type that a word names, if there is one.
#[tactic(auto, using(crate::proofs::ObjectLemmas::type_steps))]
pub(crate) fn type_number(
    alloc: Global,
    types: &NameTable<()>,
    word: NameWord<'_>,
) -> Result<Option<u16>, ReadFault>
    requires { length types.now ≤ most_types }
    ensures { GivesOption result (type_number (keys_of types.now) word.entry.text.now) }
{
    match number_of(alloc, types, word.text)? {
        Some(number) => Ok(Some(number as u16)),
        None => Ok(None),
    }
}

/// Declares an object in a full table: one that is declared already with the same type.
#[inline(never)]
#[tactic(auto, using(crate::proofs::ObjectLemmas::object_steps))]
fn declare_in_full(
    objects: &NameTable<u16>,
    name: &Name,
    word: NameWord<'_>,
    kind: u16,
) -> Result<(), ReadFault>
    requires full { 65535 ≤ length objects.now }
    requires name { name.now ≡ folded word.text.now }
    ensures { Puts result (object_declared kind objects.now word.entry.text.now) objects.now }
{
    let Some(number) = objects.number_of(name.as_bytes()) else {
        return Err(ReadFault::new(FaultKind::TooMany, word.span));
    };
    if *objects.get(number).1 == kind {
        Ok(())
    } else {
        Err(ReadFault::new(FaultKind::Repeated, word.span))
    }
}

/// Declares an object with its type.
#[tactic(auto, using(crate::proofs::ObjectLemmas::object_steps))]
#[inline(always)]
fn declare_object(
    alloc: Global,
    objects: &mut NameTable<u16>,
    word: NameWord<'_>,
    kind: u16,
) -> Result<(), ReadFault>
    ensures { Puts result (object_declared kind objects.old word.entry.text.now) objects.new }
{
    let name = name(alloc, word)?;
    if objects.len() >= MOST_OBJECTS {
        return declare_in_full(objects, &name, word, kind);
    }
    match objects.insert(name, kind)? {
        None => Ok(()),
        Some(before) if before == kind => Ok(()),
        Some(_) => Err(ReadFault::new(FaultKind::Repeated, word.span)),
    }
}

/// Declares objects with one type. There is room for all of them beforehand, as far as a table may hold them.
#[tactic(auto, using(crate::proofs::Through::through_steps, crate::proofs::ObjectLemmas::named_steps))]
fn declare_objects(
    alloc: Global,
    objects: &mut NameTable<u16>,
    words: &[NameWord<'_>],
    kind: u16,
) -> Result<(), ReadFault>
    ensures { Puts result (through (object_declared kind) objects.old (name_forms words.now)) objects.new }
{
    let room = MOST_OBJECTS.saturating_sub(objects.len());
    objects.reserve(words.len().min(room))?;
    'words: for word in words {
        declare_object(alloc, objects, *word, kind)?;
    }
    Ok(())
}

/// Declares the objects of a group.
#[tactic(auto, using(crate::proofs::ObjectLemmas::group_steps))]
fn declare_group(
    alloc: Global,
    types: &NameTable<()>,
    objects: &mut NameTable<u16>,
    group: &NameGroup<'_>,
) -> Result<(), ReadFault>
    requires { length types.now ≤ most_types }
    ensures { Puts result (objects_grouped (keys_of types.now) objects.old (name_group_form group.now)) objects.new }
{
    match type_number(alloc, types, group.kind)? {
        Some(kind) => declare_objects(alloc, objects, group.names.as_slice(), kind),
        None => {
            declare_objects(alloc, objects, group.names.as_slice(), NO_TYPE)?;
            Err(ReadFault::new(FaultKind::UnknownName, group.kind.span))
        }
    }
}

/// Declares the objects of all groups, after those that are declared already.
#[tactic(auto, using(crate::proofs::Through::through_steps, crate::proofs::ObjectLemmas::groups_steps))]
fn declare_groups(
    alloc: Global,
    types: &NameTable<()>,
    objects: &mut NameTable<u16>,
    groups: &[NameGroup<'_>],
) -> Result<(), ReadFault>
    requires { length types.now ≤ most_types }
    ensures { Puts result (objects_from (keys_of types.now) objects.old (name_groups groups.now)) objects.new }
{
    'groups: for group in groups {
        declare_group(alloc, types, objects, group)?;
    }
    Ok(())
}

/// The objects, followed by those of all groups. If one is refused, all are dropped.
pub(crate) fn more_objects(
    alloc: Global,
    types: &NameTable<()>,
    objects: NameTable<u16>,
    groups: &[NameGroup<'_>],
) -> Result<NameTable<u16>, ReadFault>
    requires { length types.now ≤ most_types }
    ensures { Gives (λ objects. objects) result (objects_from (keys_of types.now) objects (name_groups groups.now)) }
{
    let mut objects = objects;
    declare_groups(alloc, types, &mut objects, groups)?;
    Ok(objects)
}
