//! The task that a caller keeps.
ghost use Rattle.std.specs.Prelude.{◌≡◌, MatchOption, Option, None, Some};
ghost use Rattle.std.specs.Coded.{coded_option};
ghost use Rattle.plan_judge_c.specs.Kept.{kept_owns};
ghost use Rattle.strips_task.specs.contracts.costs.CostedTask.{the_row};
ghost use Rattle.strips_task.specs.declared.costs.CostedTask.{CostedTask};

use std::alloc::Global;
use std::marker::Model;
use std::mem;
use std::ptr::null_mut;
use strips_task::CostedTask;

/// A task that a caller keeps between calls, or nothing.
///
/// The caller has a struct of one pointer, which is null if nothing is kept. What it leads to is of no concern to the caller, who neither reads nor changes it,
/// and hands the struct to one call at a time.
#[repr(C)]
pub struct KeptTask {
    kept: *mut u8,
    /// The task, if one is kept.
    pub ghost task: { Option CostedTask } by { coded_option the_row.coded },
}

impl Model for KeptTask {
    ghost also_owns = { λ k. kept_owns the_row k.kept k.task };
}

impl KeptTask {
    /// Takes the task out, so that nothing is kept.
    pub(crate) fn take(&mut self, alloc: Global) -> Option<Box<CostedTask>>
        ensures nothing { self.new.task ≡ None }
        ensures task { MatchOption result (self.old.task ≡ None) (λ task. self.old.task ≡ Some task.value) }
    {
        mem::replace(self, KeptTask::nothing()).into_box(alloc)
    }

    /// Keeps a task. One that was kept before is given back.
    pub(crate) fn put(&mut self, alloc: Global, task: Box<CostedTask>)
        ensures { self.new.task ≡ Some task.value }
    {
        drop(mem::replace(self, KeptTask::of(task)).into_box(alloc));
    }

    /// Nothing.
    fn nothing() -> KeptTask
        ensures { result.task ≡ None }
    {
        KeptTask { kept: null_mut() }
    }

    /// A task, as the pointer of its box.
    fn of(task: Box<CostedTask>) -> KeptTask
        ensures { result.task ≡ Some task.value }
    {
        let ptr = Box::into_raw(task);
        KeptTask {
            kept: ptr as *mut u8,
        }
    }

    /// The box of the task, if one is kept.
    fn into_box(self, alloc: Global) -> Option<Box<CostedTask>>
        ensures { MatchOption result (self.task ≡ None) (λ task. self.task ≡ Some task.value) }
    {
        let KeptTask { kept } = self;
        if kept.is_null() {
            None
        } else {
            let ptr = kept as *mut CostedTask;
            Some(unsafe { Box::from_raw(alloc, ptr) })
        }
    }
}
