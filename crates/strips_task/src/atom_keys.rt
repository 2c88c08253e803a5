//! Keys of ground atoms of few objects.
//!
//! Nearly all atoms of planning problems have at most four objects. Such an atom has a key of twelve bytes, with its objects side by side: it is
//! hashed and compared without a list of its objects.
ghost use Rattle.std.specs.Prelude.{◌≡◌, ◌+◌, ◌*◌, ◌<◌, ◌≤◌, ◌/◌, ◌%◌, [], ◌∷◌, length, take, IfSome, IfNone};
ghost use Rattle.strips_task.specs.AtomKeys.{IsKeyOf, atom_of, objects_of};

use crate::Atom;

/// The key of an atom of at most four objects.
#[derive(Clone, Copy)]
pub struct AtomKey {
    /// The objects as the digits of a number to the base 2^16, the first one last. There is a 0 for each of the four that the atom does not have.
    pub objects: u64,
    /// The number of the predicate, and 2^16 for each object.
    pub head: u32,
}

impl AtomKey {
    /// The key of an atom with so many of these objects. Those that it does not have are 0.
    #[inline(always)]
    pub fn new(pred: u16, count: u32, first: u16, second: u16, third: u16, fourth: u16) -> AtomKey
        requires { count ≤ 4 }
        ensures objects { result.objects ≡ first + 65536 * second + 4294967296 * third + 281474976710656 * fourth }
        ensures head { result.head ≡ pred + 65536 * count }
        ensures atom { atom_of result ≡ record { pred = pred; args = take count (first ∷ second ∷ third ∷ fourth ∷ []) } }
    {
        AtomKey {
            objects: u64::from(first)
                + u64::from(second) * 65_536
                + u64::from(third) * 4_294_967_296
                + u64::from(fourth) * 281_474_976_710_656,
            head: u32::from(pred) + count * 65_536,
        }
    }

    /// The key of the atom of a predicate and these objects, unless there are more than four.
    #[inline(always)]
    pub fn with(pred: u16, objects: &[u16]) -> Option<AtomKey>
        ensures key { IfSome result (IsKeyOf (record { pred = pred; args = objects.now })) }
        ensures many { IfNone result (4 < length objects.now) }
    {
        match objects {
            [] => Some(AtomKey::new(pred, 0, 0, 0, 0, 0)),
            [a] => Some(AtomKey::new(pred, 1, *a, 0, 0, 0)),
            [a, b] => Some(AtomKey::new(pred, 2, *a, *b, 0, 0)),
            [a, b, c] => Some(AtomKey::new(pred, 3, *a, *b, *c, 0)),
            [a, b, c, d] => Some(AtomKey::new(pred, 4, *a, *b, *c, *d)),
            _ => None,
        }
    }

    /// The key of an atom, unless it has more than four objects.
    #[inline(always)]
    pub fn of(atom: &Atom) -> Option<AtomKey>
        ensures key { IfSome result (IsKeyOf atom.now) }
        ensures many { IfNone result (4 < length atom.now.args) }
    {
        AtomKey::with(atom.pred, atom.args.as_slice())
    }

    /// The number of the predicate.
    pub fn pred(self) -> u16
        ensures { result ≡ self.head % 65536 }
    {
        (self.head % 65_536) as u16
    }

    /// How many objects the atom has.
    pub fn count(self) -> usize
        ensures { result ≡ self.head / 65536 }
    {
        (self.head / 65_536) as usize
    }

    /// The objects, and a 0 for each of the four that the atom does not have.
    pub fn objects(self) -> [u16; 4]
        ensures { result ≡ objects_of self.objects }
    {
        [
            (self.objects % 65_536) as u16,
            (self.objects / 65_536 % 65_536) as u16,
            (self.objects / 4_294_967_296 % 65_536) as u16,
            (self.objects / 281_474_976_710_656 % 65_536) as u16,
        ]
    }
}
