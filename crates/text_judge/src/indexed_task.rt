//! A task that may count costs, with what a judge looks up in it again and again.
ghost use Rattle.std.specs.Prelude.{◌≡◌, IfOk};

use plan_cost::CostedTask;
use std::alloc::{AllocError, Global};
use std::marker::Model;
use strips_judge::TaskIndex;

/// A task and its index. Contracts see the task.
pub(crate) struct IndexedTask<'t> {
    task: &'t CostedTask,
    index: TaskIndex<'t>,
}

impl Drop for IndexedTask<'_> {
    fn drop(self) {
        let Self { task: _, index: _ } = self;
    }
}

impl<'t> Model for IndexedTask<'t> {
    ghost use Rattle.std.specs.Prelude.{◌≡◌};
    ghost use Rattle.strips_task.specs.declared.costs.CostedTask.{CostedTask};

    ghost Value = { CostedTask };

    ghost use Rattle.formulas.specs.contracts.effect.Effect as effect;
    ghost use Rattle.formulas.specs.contracts.formula.Formula as formula;
    ghost use Rattle.std.specs.Coded.{codes};

    ghost coded = { Prim.hlevel (codes, formula.the_row.coded, effect.the_row.coded) };

    ghost view = { λ t. t.task.now };

    ghost invariant = { λ t. t.index ≡ t.task.now.task };
}

impl<'t> IndexedTask<'t> {
    /// Takes one pass over the actions of the task.
    pub(crate) fn new(alloc: Global, task: &'t CostedTask) -> Result<IndexedTask<'t>, AllocError>
        ensures { IfOk result (λ indexed. indexed ≡ task.now) }
    {
        Ok(IndexedTask {
            task,
            index: TaskIndex::new(alloc, &task.task)?,
        })
    }

    /// The task.
    #[inline(always)]
    pub(crate) fn costed(&self) -> &'t CostedTask
        ensures { result.now ≡ self.now }
    {
        self.task
    }

    /// The index of the task without its costs.
    #[inline(always)]
    pub(crate) fn index(&self) -> &TaskIndex<'t>
        ensures { result.now ≡ self.now.task }
    {
        &self.index
    }
}
