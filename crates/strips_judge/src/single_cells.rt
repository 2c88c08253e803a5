//! The numbers of atoms of one object, each in a cell of its own.
//!
//! The cell of an atom follows from its predicate and its object. So its number takes one read of memory, and neither a hash nor a comparison. There is
//! a bound on how many cells there are, and atoms whose cells are past it are kept elsewhere.
ghost use Rattle.std.specs.Prelude.{◌≡◌, ◌≢◌, ◌+◌, ◌<◌, ℕ, None, Option, Some, IfSome, OnErr, OnOk, length, slice_index};
ghost use Rattle.strips_task.specs.declared.atom_keys.AtomKey.{AtomKey};
ghost use Rattle.strips_judge.specs.SingleCells.{AreCells, cell_of};

use std::alloc::{AllocError, Global};
use std::marker::Model;
use strips_task::AtomKey;

/// How many objects may have cells.
const MOST_OBJECTS: usize = 65_536;

/// The cells. Contracts see how far they go, and the cells as a list: in each is 0, or one more than the number of its atom.
pub(crate) struct SingleCells {
    objects: usize,
    /// How many cells there are at most.
    most: usize,
    cells: Vec<u32>,
}

impl Drop for SingleCells {
    fn drop(self) {
        let Self {
            objects: _,
            most: _,
            cells: _,
        } = self;
    }
}

impl Model for SingleCells {
    ghost use Rattle.std.specs.Prelude.{◌≤◌};
    ghost use Rattle.strips_judge.specs.SingleCells.{Cells};

    ghost Value = { Cells };

    ghost view = { λ c. record { extent = record { objects = c.objects; most = c.most }; cells = c.cells.items } };

    ghost invariant = { λ c. c.objects ≤ 65536 };
}

impl SingleCells {
    /// No number, for a task with so many objects, and never more than `most` cells. Takes no memory.
    pub(crate) fn new(alloc: Global, objects: usize, most: usize) -> Self
        ensures right { (number_of : AtomKey → Option ℕ) → AreCells number_of result }
    {
        SingleCells {
            objects: objects.min(MOST_OBJECTS),
            most,
            cells: Vec::new(alloc),
        }
    }

    /// The cell of an atom, if it has one.
    #[inline(always)]
    pub(crate) fn cell_of(&self, key: AtomKey) -> Option<usize>
        ensures { result ≡ cell_of self.now.extent key }
    {
        if key.head / 65_536 != 1 || key.objects >= self.objects as u64 {
            return None;
        }
        let cell = (key.head % 65_536) as usize * self.objects + key.objects as usize;
        if cell < self.most { Some(cell) } else { None }
    }

    /// The number in a cell.
    #[inline(always)]
    pub(crate) fn number_at(&self, cell: usize) -> Option<u32>
        ensures number { IfSome result (λ number. slice_index self.now.cells cell ≡ number + 1) }
        ensures none { result ≡ None → slice_index self.now.cells cell ≡ 0 }
    {
        let next = *self.cells.get(cell)?;
        if next > 0 { Some(next - 1) } else { None }
    }

    /// Keeps the number of the atom with a cell. Takes memory for all cells up to this one.
    pub(crate) fn keep(&mut self, cell: usize, number: u32) -> Result<(), AllocError>
        ensures right { (number_of : AtomKey → Option ℕ) (key : AtomKey) → cell_of self.old.extent key ≡ Some cell → number_of key ≡ Some number
            → AreCells number_of self.old → AreCells number_of self.new }
        ensures failed { OnErr result ((number_of : AtomKey → Option ℕ) → AreCells number_of self.old → AreCells number_of self.new) }
        ensures here { OnOk result (slice_index self.new.cells cell ≡ number + 1) }
        ensures still { (other : ℕ) → slice_index self.old.cells other ≢ 0 → slice_index self.new.cells other ≢ 0 }
        ensures extent { self.new.extent ≡ self.old.extent }
    {
        if number == u32::MAX || cell >= self.most {
            return Err(AllocError);
        }
        self.reserve(cell)?;
        self.cells[cell] = number + 1;
        Ok(())
    }

    /// Makes cells up to this one. No number changes.
    fn reserve(&mut self, cell: usize) -> Result<(), AllocError>
        requires { cell < self.old.extent.most }
        ensures there { OnOk result (cell < length self.new.cells) }
        ensures same { (k : ℕ) → slice_index self.new.cells k ≡ slice_index self.old.cells k }
        ensures extent { self.new.extent ≡ self.old.extent }
    {
        if cell >= self.cells.len() {
            self.cells.resize(cell + 1, 0)?;
        }
        Ok(())
    }
}
