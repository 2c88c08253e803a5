//! Names of types, objects, predicates and actions.
//!
//! A name is stored in lower case, since case is not significant in PDDL. Names of up to 22 bytes are kept in the value itself
//! and take no memory of their own. Names are looked up in tables by a borrowed [`NameKey`], which takes none either.
ghost use Rattle.std.specs.Prelude.{◌≡◌, List, ℕ, true, IsTrue, IfOk, ◌∷◌, []};
ghost use Rattle.std.specs.Str.{bytes_eq};
ghost use Rattle.std.specs.Hash as fed;
ghost use Rattle.std.specs.Cmp.Rules.{comparing, hashing};
ghost use Rattle.std.proofs.Common.{rules, ap};
ghost use Rattle.std.specs.Cmp.Lexicographic.{bytes_decides, nat_list_eq_equiv};
ghost use Rattle.pddl_words.specs.Words.{is_name, folded};

use indexmap::Equivalent;
use smallvec::SmallVec;
use std::alloc::{AllocError, Global};
use std::hash::{Hash, Hasher};
use std::marker::Model;

/// How many bytes of a name fit in the value itself.
const INLINE: usize = 22;

/// A name in lower case, seen by contracts as the list of its bytes. They are always a name of PDDL, which is a letter and then letters, digits,
/// `-` and `_`.
pub struct Name {
    bytes: SmallVec<u8, INLINE>,
}

impl Drop for Name {
    fn drop(self) {
        let Self { bytes: _ } = self;
    }
}

impl Model for Name {
    ghost use Rattle.std.specs.Prelude.{List, ℕ};
    ghost use Rattle.formulas.specs.Names.{IsStoredName};

    ghost Value = { List ℕ };

    ghost view = { λ n. n.bytes.items };

    ghost invariant = { λ n. IsStoredName n.bytes.items };
}

impl Name {
    /// The name that a word of a text stands for: the same bytes with the letters `A` to `Z` in lower case
    /// (PDDL 2.1, Fox and Long 2003: case is not significant).
    #[inline(always)]
    pub fn from_word(alloc: Global, word: &[u8]) -> Result<Name, AllocError>
        requires { IsTrue (is_name word.now) }
        ensures { IfOk result (λ name. name ≡ folded word.now) }
    {
        let mut bytes = SmallVec::from_slice(alloc, word)?;
        bytes.as_mut_slice().make_ascii_lowercase();
        Ok(Name { bytes })
    }

    /// The bytes of the name, in lower case.
    #[inline(always)]
    pub fn as_bytes(&self) -> &[u8]
        ensures bytes { result.now ≡ self.now }
        ensures in_lower_case { folded self.now ≡ self.now }
        ensures named { is_name self.now ≡ true }
    {
        self.bytes.as_slice()
    }
}

impl PartialEq for Name {
    ghost eq = { λ a b. bytes_eq a b };

    ghost laws = { Prim.search (comparing, rules) };

    fn eq(&self, other: &Name) -> bool {
        self.bytes.as_slice() == other.bytes.as_slice()
    }
}

impl Eq for Name {
    ghost laws = { Prim.search (comparing, rules) };
}

// One write of all bytes, so that a name and the word that it is looked up by have the same hash, at the speed of whole words.
impl Hash for Name {
    ghost hash_input = { λ n. n ∷ [] };

    ghost respects_eq = { Prim.search (hashing, rules) };

    fn hash<H: Hasher>(&self, state: &mut H) {
        state.write(self.bytes.as_slice());
    }
}

/// A borrowed word in lower case, to look up a name in a table. Making one takes no memory.
#[derive(Clone, Copy)]
pub struct NameKey<'a> {
    /// The bytes of the word. They are compared as they are.
    pub bytes: &'a [u8],
}

impl PartialEq for NameKey<'_> {
    ghost eq = { λ a b. bytes_eq a.bytes.now b.bytes.now };

    ghost laws = { Prim.search (comparing, rules) };

    fn eq(&self, other: &NameKey<'_>) -> bool {
        self.bytes == other.bytes
    }
}

impl Eq for NameKey<'_> {
    ghost laws = { Prim.search (comparing, rules) };
}

impl Hash for NameKey<'_> {
    ghost hash_input = { λ w. w.bytes.now ∷ [] };

    ghost respects_eq = { Prim.search (hashing, rules) };

    fn hash<H: Hasher>(&self, state: &mut H) {
        state.write(self.bytes);
    }
}

// A word stands for the name with the same bytes, and hashes as that name does: one write of all bytes.
impl Equivalent<Name> for NameKey<'_> {
    ghost equivalent = { λ w n. bytes_eq w.bytes.now n };

    ghost respects_hash = { λ w n h. ap (λ bytes. bytes ∷ []) ((bytes_decides w.bytes.now n).0 h) };

    ghost respects_eq = { λ w x y. nat_list_eq_equiv.congr w.bytes.now x y };

    fn equivalent(&self, key: &Name) -> bool {
        self.bytes == key.as_bytes()
    }
}
