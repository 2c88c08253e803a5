//! Ground atoms: a predicate and objects, by their numbers in the task.
ghost use Rattle.std.specs.Prelude.{◌≡◌, nat_eq};
ghost use Rattle.std.specs.Cmp.Lexicographic.{pointwise};
ghost use Rattle.std.specs.Hash as fed;
ghost use Rattle.std.specs.Cmp.Rules.{comparing, hashing};
ghost use Rattle.std.proofs.Common.{rules};
ghost use Rattle.formulas.specs.AtomHash.{front};

use crate::{Seq, ShortSeq};
use std::alloc::{AllocError, Global};
use std::hash::{Hash, Hasher};

/// A predicate applied to objects, all by number.
pub struct Atom {
    /// The number of the predicate.
    pub pred: u16,
    /// The numbers of the objects, in the order of the predicate's arguments.
    pub args: ShortSeq<u16>,
}

impl Drop for Atom {
    fn drop(self) {
        let Self { pred: _, args: _ } = self;
    }
}

impl Atom {
    ghost use Rattle.std.specs.Prelude.{IfOk};

    /// Another atom with the same predicate and arguments. Takes memory only if there are more arguments than fit in the value itself.
    pub fn try_clone(&self, alloc: Global) -> Result<Atom, AllocError>
        ensures { IfOk result (λ copy. copy ≡ self.now) }
    {
        Ok(Atom {
            pred: self.pred,
            args: ShortSeq::from_slice(alloc, self.args.as_slice())?,
        })
    }
}

/// A list of ground atoms.
pub type AtomList = Seq<Atom>;

impl PartialEq for Atom {
    ghost use Rattle.formulas.specs.Atom.{atom_eq};

    ghost eq = { atom_eq };

    ghost laws = { Prim.search (comparing, rules) };

    fn eq(&self, other: &Atom) -> bool {
        self.pred == other.pred && are_equal(self.args.as_slice(), other.args.as_slice())
    }
}

/// Whether two short lists of numbers are the same: item by item, which costs less for a few items than a comparison of slices.
fn are_equal(numbers: &[u16], others: &[u16]) -> bool
    ensures { result ≡ pointwise nat_eq numbers.now others.now }
{
    numbers.iter().eq(others.iter())
}

impl Eq for Atom {
    ghost laws = { Prim.search (comparing, rules) };
}

impl Hash for Atom {
    ghost use Rattle.std.specs.Prelude.{◌++◌, take, drop};
    ghost use Rattle.std.specs.List.{flat_map};
    ghost use Rattle.formulas.specs.AtomHash.{front};

    ghost hash_input = { λ a. fed.u64 (front a.pred (take 3 a.args)) ++ flat_map fed.u16 (drop 3 a.args) };

    ghost respects_eq = { Prim.search (hashing, rules) };

    fn hash<H: Hasher>(&self, state: &mut H) {
        let args = self.args.as_slice();
        let (first, others) = args.split_at(args.len().min(3));
        front(self.pred, first).hash(state);
        u16::hash_slice(others, state);
    }
}

/// A predicate and up to three arguments side by side in one word, so that nearly all atoms are hashed by one write. Others have other words.
fn front(pred: u16, args: &[u16]) -> u64
    ensures { result ≡ front pred args.now }
{
    args.iter().fold(pred as u64, |word, arg| {
        word.wrapping_mul(65_536).wrapping_add(*arg as u64)
    })
}
