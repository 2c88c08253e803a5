//! How many objects a variable may stand for.
ghost use Rattle.std.specs.Prelude.{◌≡◌, ◌+◌, ◌^◌, ◌<◌, ◌≤◌, ◌-◌, ◌++◌, ℕ, Bool, [], ◌∷◌, length, slice_index, slice_set, IfOk, OnOk};
ghost use Rattle.std.specs.List.{count_by};
ghost use Rattle.std.specs.Map.{values_of};
ghost use Rattle.strips_task.specs.Types.{fits};
ghost use Rattle.task_reader.specs.Objects.{object_count};
ghost use Rattle.task_reader.specs.Tallies.{tallied};
ghost use Rattle.task_reader.specs.Capped.{repeated};

use std::alloc::{AllocError, Global};
use strips_task::Task;

/// How many objects of a task have each type exactly, by the number of the type, up to the last type that has any. So the objects are gone over once, and
/// not again for each variable.
struct TypeTally<'t> {
    task: &'t Task,
    exact: Vec<u32>,
    ghost tallied: { (test : ℕ → Bool) → tallied test 0 exact.items ≡ count_by test (values_of task.now.objects) },
    ghost known: { length exact.items ≤ length task.now.parents },
    ghost numbered: { length exact.items ≤ 2 ^ 16 },
    ghost small: { (type : ℕ) → slice_index exact.items type < 2 ^ 16 },
}

impl Drop for TypeTally<'_> {
    fn drop(self) {
        let Self { task: _, exact: _ } = self;
    }
}

impl<'t> TypeTally<'t> {
    /// The tally of a task's objects.
    fn new(alloc: Global, task: &'t Task) -> Result<Self, AllocError>
        ensures { IfOk result (λ tally. tally.task.now ≡ task.now) }
    {
        let mut exact = Vec::new(alloc);
        'objects: for object in 0..task.object_count() as u16 {
            let type_number = usize::from(task.object_type(object));
            reach(&mut exact, type_number)?;
            add_one(&mut exact, type_number);
        }
        Ok(TypeTally { task, exact })
    }

    /// How many objects have one of these types or a type below one. Goes over all types.
    fn count(&self, types: &[u16]) -> u32
        ensures { result ≡ object_count self.now.task.now types.now }
    {
        let mut count = 0;
        'types: for (number, objects) in self.exact.iter().enumerate() {
            if *objects > 0 && is_below_some(self.task, number as u16, types) {
                count += *objects;
            }
        }
        count
    }
}

/// Makes a list of counts long enough for a type.
fn reach(exact: &mut Vec<u32>, type_number: usize) -> Result<(), AllocError>
    requires { type_number < 2 ^ 16 }
    ensures { OnOk result (exact.new.items ≡ exact.old.items ++ repeated (type_number + 1 - length exact.old.items) 0) }
{
    'types: while exact.len() <= type_number {
        exact.push(0)?;
    }
    Ok(())
}

/// Counts one more object of a type.
fn add_one(exact: &mut Vec<u32>, type_number: usize)
    requires within { type_number < length exact.old.items }
    requires small { slice_index exact.old.items type_number < 2 ^ 16 }
    ensures { exact.new.items ≡ slice_set exact.old.items type_number (slice_index exact.old.items type_number + 1) }
{
    exact[type_number] += 1;
}

/// Whether a type is below one of others.
#[tactic(auto, unfolding(strips_task::specs::Types::fits))]
fn is_below_some(task: &Task, sub: u16, types: &[u16]) -> bool
    requires { sub < length task.now.parents }
    ensures { result ≡ fits task.now.parents (sub ∷ []) types.now }
{
    'types: for sup in types {
        if task.is_subtype(sub, *sup) {
            return true;
        }
    }
    false
}

/// How many objects of a task a variable may stand for.
pub(crate) struct ObjectCounts<'t> {
    tally: TypeTally<'t>,
    /// For each type, how many objects have it or a type below it.
    by_type: Vec<u32>,
    ghost counted: { (type : ℕ) → type < length by_type.items → slice_index by_type.items type ≡ object_count tally.task.now (type ∷ []) },
}

impl Drop for ObjectCounts<'_> {
    fn drop(self) {
        let Self {
            tally: _,
            by_type: _,
        } = self;
    }
}

impl<'t> ObjectCounts<'t> {
    /// The counts for a task. Takes time for each object, and for each pair of types; then a variable of one type takes one read of a table.
    pub(crate) fn new(alloc: Global, task: &'t Task) -> Result<Self, AllocError>
        ensures { IfOk result (λ counts. counts.tally.task.now ≡ task.now) }
    {
        let tally = TypeTally::new(alloc, task)?;
        let most = task.type_count().min(usize::from(u16::MAX));
        let mut by_type = Vec::with_capacity(alloc, most)?;
        'types: for number in 0..most {
            by_type.push(tally.count(&[number as u16]))?;
        }
        Ok(ObjectCounts { tally, by_type })
    }

    /// How many objects a variable of these types may stand for, each counted once. Takes one read of a table for a single type, and otherwise at most one test
    /// for each type of the task and each of these types.
    pub(crate) fn of(&self, types: &[u16]) -> u32
        ensures { result ≡ object_count self.now.tally.task.now types.now }
    {
        if let [number] = types {
            let number = usize::from(*number);
            if number < self.by_type.len() {
                return self.by_type[number];
            }
        }
        self.tally.count(types)
    }
}
