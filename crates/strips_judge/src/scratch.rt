//! Room that is used again and again.
ghost use Rattle.std.specs.Prelude.{◌≡◌, []};

use std::alloc::Global;
use strips_task::{Atom, ShortSeq};

/// Room that all steps use, so that a step takes no memory of its own. No answer depends on what it holds.
pub struct Scratch {
    pub(crate) objects: Vec<u16>,
    /// Room to evaluate formulas.
    pub room: Room,
    /// Room for the changes of conditional effects.
    pub changes: Changes,
}

impl Drop for Scratch {
    fn drop(self) {
        let Self {
            objects: _,
            room: _,
            changes: _,
        } = self;
    }
}

impl Scratch {
    /// Takes no memory.
    pub fn new(alloc: Global) -> Scratch {
        Scratch {
            objects: Vec::new(alloc),
            room: Room::new(alloc),
            changes: Changes::new(alloc),
        }
    }
}

/// Room to evaluate formulas.
pub struct Room {
    /// The objects that are bound to the variables of quantifiers, by the levels of the variables.
    pub bound: Vec<u16>,
    /// The atom that is looked up.
    pub atom: Atom,
}

impl Drop for Room {
    fn drop(self) {
        let Self { bound: _, atom: _ } = self;
    }
}

impl Room {
    /// Takes no memory.
    fn new(alloc: Global) -> Room {
        Room {
            bound: Vec::new(alloc),
            atom: Atom {
                pred: 0,
                args: ShortSeq::new(alloc),
            },
        }
    }
}

/// Room for the changes of conditional effects, by the numbers of their atoms.
pub struct Changes {
    /// The atoms that become false.
    pub deleted: Vec<u32>,
    /// The atoms that become true.
    pub added: Vec<u32>,
}

impl Drop for Changes {
    fn drop(self) {
        let Self {
            deleted: _,
            added: _,
        } = self;
    }
}

impl Changes {
    /// Takes no memory.
    fn new(alloc: Global) -> Changes {
        Changes {
            deleted: Vec::new(alloc),
            added: Vec::new(alloc),
        }
    }

    /// Forgets the changes of the step before.
    pub fn clear(&mut self)
        ensures deleted { self.new.deleted.items ≡ [] }
        ensures added { self.new.added.items ≡ [] }
    {
        self.deleted.clear();
        self.added.clear();
    }
}
