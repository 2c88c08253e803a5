//! Choices of objects for the variables of a quantifier.

ghost use Rattle.std.specs.Prelude.{◌<◌, length};

use std::alloc::{AllocError, Global};
use strips_task::{Task, VariableGroup};

/// All choices of objects for the variables of a quantifier, in the order in which they are tried: objects in the order of their numbers, and the last
/// variable changes first. Choices are counted from 0.
pub(crate) struct Choices {
    /// For each group of variables how many they are, and the objects that fit them.
    groups: Vec<Group>,
    count: usize,
}

impl Drop for Choices {
    fn drop(self) {
        let Self {
            groups: _,
            count: _,
        } = self;
    }
}

/// Variables of the same types.
struct Group {
    variables: usize,
    objects: Vec<u16>,
}

impl Drop for Group {
    fn drop(self) {
        let Self {
            variables: _,
            objects: _,
        } = self;
    }
}

impl Choices {
    /// The choices for these variables.
    pub(crate) fn new(
        alloc: Global,
        task: &Task,
        groups: &[VariableGroup],
    ) -> Result<Self, AllocError> {
        let mut choices = Choices {
            groups: Vec::with_capacity(alloc, groups.len())?,
            count: 1,
        };
        for group in groups {
            choices.add(Group {
                variables: group.names.len(),
                objects: fitting(alloc, task, group.types.as_slice())?,
            })?;
        }
        Ok(choices)
    }

    /// Adds variables.
    fn add(&mut self, group: Group) -> Result<(), AllocError> {
        for _ in 0..group.variables {
            self.count = self.count.saturating_mul(group.objects.len());
        }
        self.groups.push(group)?;
        Ok(())
    }

    /// How many choices there are.
    pub(crate) fn count(&self) -> usize {
        self.count
    }

    /// Adds the objects of a choice to those that are bound.
    pub(crate) fn bind(&self, number: usize, bound: &mut Vec<u16>) -> Result<(), AllocError> {
        let mut place = Place {
            number,
            count: self.count,
        };
        for group in self.groups.as_slice() {
            place = group.bind(place, bound)?;
        }
        Ok(())
    }
}

/// A choice for the variables that are left: its number, and how many there are for them.
#[derive(Clone, Copy)]
struct Place {
    number: usize,
    count: usize,
}

impl Group {
    /// Adds the objects of the group's variables in a choice, and answers the choice for the variables behind them.
    fn bind(&self, place: Place, bound: &mut Vec<u16>) -> Result<Place, AllocError> {
        let mut place = place;
        for _ in 0..self.variables {
            let count = place.count.checked_div(self.objects.len()).unwrap_or(0);
            let index = place.number.checked_div(count).unwrap_or(0);
            bound.push(
                self.objects
                    .as_slice()
                    .get(index)
                    .copied()
                    .unwrap_or(u16::MAX),
            )?;
            place = Place {
                number: place.number.checked_rem(count).unwrap_or(0),
                count,
            };
        }
        Ok(place)
    }
}

/// The objects of these types, in the order of their numbers.
fn fitting(alloc: Global, task: &Task, types: &[u16]) -> Result<Vec<u16>, AllocError> {
    let mut objects = Vec::new(alloc);
    for object in 0..task.object_count() as u16 {
        if fits(task, types, object) {
            objects.push(object)?;
        }
    }
    Ok(objects)
}

/// Whether an object is of one of these types, or of one below them.
fn fits(task: &Task, types: &[u16], object: u16) -> bool
    requires { object < length task.now.objects }
{
    let own = task.object_type(object);
    for wanted in types {
        if task.is_subtype(own, *wanted) {
            return true;
        }
    }
    false
}
