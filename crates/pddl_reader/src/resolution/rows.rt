//! Initial atoms that are written as names with a single space between each two.
//!
//! Nearly all of them are, and a problem may have hundreds of thousands. They are not read word by word: the names of such a row are looked
//! up as they are written, and a word that is found is a name. Any other is read as its syntax, and so is one with a fault.

ghost use Rattle.std.specs.Prelude.{◌≡◌, ◌++◌, [], ◌∷◌, ◌&&◌, nat_eq, length, map, true, false, All, IfOk, IfSome, IsTrue, List, OnOk, Some, ℕ};
ghost use Rattle.std.specs.List.{list_all, zip};
ghost use Rattle.pddl_words.specs.SpacedWords.{words_of};
ghost use Rattle.pddl_words.specs.Words.{is_name};
ghost use Rattle.formulas.specs.declared.terms.Term.TheVariants.{Object};
ghost use Rattle.strips_task.specs.AtomKeys.{IsKeyOf, atom_of};
ghost use Rattle.strips_task.specs.WellFormed.{is_fitting, term_types};
ghost use Rattle.pddl_syntax.specs.Rows.{AreNames, atom_spelled};
ghost use Rattle.pddl_reader.specs.Declarations.{ground_of};
ghost use Rattle.pddl_reader.specs.Resolved.{known_form};
ghost use Rattle.pddl_reader.specs.Problem.{with_atom};
ghost use Rattle.pddl_reader.specs.Rows.{row_number, row_numbers};

use crate::resolution::tables::Declared;
use pddl_words::RowWords;
use std::alloc::{AllocError, Global};
use std::marker::Model;
use strips_task::{Alternatives, Atom, AtomKey, InitialAtoms, Seed, ShortSeq, object_fits};

/// How many rows are looked up before their atoms are added.
const BATCH: usize = 32;

/// Into how many parts the atoms that are expected are divided, and each part again.
const PARTS: usize = 8;

/// The number of the predicate that a word names as it is written. Then it is a name.
#[tactic(auto, using(crate::proofs::TableLemmas::named_as_written))]
#[inline(always)]
fn predicate_as_written(known: &Declared<'_>, word: &[u8]) -> Option<u16>
    ensures { IfSome result (λ number. (is_name word.now ≡ true) × (row_number (known_form known.now) true word.now ≡ Some number)) }
{
    match known.predicates.number_of(word) {
        Some(number) => Some(number as u16),
        None => None,
    }
}

/// The number of the object that a word names as it is written. Then it is a name.
#[tactic(auto, using(crate::proofs::TableLemmas::named_as_written))]
#[inline(always)]
fn object_as_written(known: &Declared<'_>, word: &[u8]) -> Option<u16>
    ensures { IfSome result (λ number. (is_name word.now ≡ true) × (row_number (known_form known.now) false word.now ≡ Some number)) }
{
    match known.objects.number_of(word) {
        Some(number) => Some(number as u16),
        None => None,
    }
}

/// The number of the predicate or of the object that a word of a row names as it is written.
#[inline(always)]
fn number_as_written(known: &Declared<'_>, is_first: bool, word: &[u8]) -> Option<u16>
    ensures { IfSome result (λ number. (is_name word.now ≡ true) × (row_number (known_form known.now) is_first word.now ≡ Some number)) }
{
    if is_first {
        predicate_as_written(known, word)
    } else {
        object_as_written(known, word)
    }
}

/// Finds the numbers of the names of a row: the predicate's, and then those of the objects. Returns whether all words are known names as they are
/// written.
#[inline(always)]
fn find_numbers(
    known: &Declared<'_>,
    row: &[u8],
    numbers: &mut Vec<u16>,
) -> Result<bool, AllocError>
    ensures names { IfOk result (λ found. IsTrue found → AreNames row.now) }
    ensures numbers { IfOk result (λ found. IsTrue found → row_numbers (known_form known.now) (words_of row.now) ≡ map Some numbers.new.items) }
{
    numbers.clear();
    let mut words = RowWords::new(row);
    'words: while let Some(word) = words.next() {
        match number_as_written(known, numbers.as_slice().is_empty(), word) {
            Some(number) => numbers.push(number)?,
            None => return Ok(false),
        }
    }
    Ok(true)
}

/// Whether there are as many objects as arguments, and they fit them one by one.
#[inline(always)]
fn all_fit(known: &Declared<'_>, objects: &[u16], argument_types: &[Alternatives]) -> bool
    ensures { result ≡ (nat_eq (length objects.now) (length argument_types.now)
        && list_all (λ p. is_fitting known.now.parents.now (term_types known.now.objects.now [] [] (Object p.0)) p.1) (zip objects.now argument_types.now)) }
{
    objects.len() == argument_types.len() && each_fits(known, objects, argument_types)
}

/// Whether each object fits the argument beside it.
#[inline(always)]
fn each_fits(known: &Declared<'_>, objects: &[u16], argument_types: &[Alternatives]) -> bool
    requires { length objects.now ≡ length argument_types.now }
    ensures { result ≡ list_all (λ p. is_fitting known.now.parents.now (term_types known.now.objects.now [] [] (Object p.0)) p.1) (zip objects.now argument_types.now) }
{
    for index in 0..objects.len() {
        let types = argument_types[index].as_slice();
        if !object_fits(known.parents, known.objects, objects[index], types) {
            return false;
        }
    }
    true
}

/// The predicate and the objects with these numbers, if the objects fit its arguments.
#[inline(always)]
fn fitting<'n>(known: &Declared<'_>, numbers: &'n [u16]) -> Option<(u16, &'n [u16])>
    ensures { IfSome result (λ found. (row : List ℕ) → row_numbers (known_form known.now) (words_of row) ≡ map Some numbers.now
        → ground_of (known_form known.now) (atom_spelled row) ≡ Some (record { pred = found.0; args = found.1.now })) }
{
    let [pred, objects @ ..] = numbers else {
        return None;
    };
    let Some(argument_types) = known.predicates.value(usize::from(*pred)) else {
        return None;
    };
    if !all_fit(known, objects, argument_types.as_slice()) {
        return None;
    }
    Some((*pred, objects))
}

/// Adds the atoms of keys to a list. First it asks how many are surely new, one right after the other, so that the processor waits for several reads of the
/// table at once. Atoms that are pushed right afterwards find their part of the table in the cache. The text has room for about `expected` atoms in
/// all, on which no answer depends.
fn put_keys(list: &mut InitialAtoms, keys: &[AtomKey], expected: usize) -> Result<(), AllocError>
    requires { All (λ key. IsKeyOf (atom_of key) key) keys.now }
    ensures { OnOk result (list.new ≡ list.old ++ map atom_of keys.now) }
{
    let new = list.distinct().surely_new(keys);
    list.expect(room_for(list.distinct_len(), new, expected));
    for key in keys {
        list.push_packed(*key)?;
    }
    Ok(())
}

/// Adds the atoms of keys to a list, after which there are no keys.
fn add_keys(
    list: &mut InitialAtoms,
    keys: &mut Vec<AtomKey>,
    expected: usize,
) -> Result<(), AllocError>
    requires { All (λ key. IsKeyOf (atom_of key) key) keys.old.items }
    ensures list { OnOk result (list.new ≡ list.old ++ map atom_of keys.old.items) }
    ensures keys { OnOk result (keys.new.items ≡ []) }
    ensures kept { All (λ key. IsKeyOf (atom_of key) key) keys.new.items }
{
    put_keys(list, keys.as_slice(), expected)?;
    keys.clear();
    Ok(())
}

/// For how many more atoms there should be room if a list has `distinct` atoms, `new` ones are added, and the text has room for about `expected`.
///
/// A text that gives the same atoms again and again needs no large table, and a table that grows step by step costs little while it is small. So there is
/// room for an eighth of what is expected once an eighth of that has come, and for all of it once that eighth has come.
fn room_for(distinct: usize, new: usize, expected: usize) -> usize {
    let part = expected / PARTS;
    let wanted = if distinct < part / PARTS {
        0
    } else if distinct < part {
        part
    } else {
        expected
    };
    new.max(wanted.saturating_sub(distinct))
}

/// Initial atoms, in the order of the text. Those of the last rows are only kept as keys, since many are added to the list at once. Contracts see all of
/// them.
#[derive(Drop)]
pub(crate) struct AtomsOfRows {
    alloc: Global,
    list: InitialAtoms,
    keys: Vec<AtomKey>,
    /// Room for the numbers of a row.
    numbers: Vec<u16>,
    /// For how many atoms the text has room. No answer depends on it.
    expected: usize,
}

impl Model for AtomsOfRows {
    ghost use Rattle.std.specs.Prelude.{◌++◌, All, List, map};
    ghost use Rattle.formulas.specs.declared.atoms.Atom.{Atom};
    ghost use Rattle.strips_task.specs.AtomKeys.{IsKeyOf, atom_of};

    ghost Value = { List Atom };

    ghost view = { λ r. r.list ++ map atom_of r.keys.items };

    ghost invariant = { λ r. All (λ key. IsKeyOf (atom_of key) key) r.keys.items };
}

impl AtomsOfRows {
    /// No atoms, of a text that has room for about `expected`. The list hashes with the seed.
    pub(crate) fn new(alloc: Global, seed: Seed, expected: usize) -> Self
        ensures { result ≡ [] }
    {
        AtomsOfRows {
            alloc,
            list: InitialAtoms::new(alloc, seed),
            keys: Vec::new(alloc),
            numbers: Vec::new(alloc),
            expected,
        }
    }

    /// Adds the atom that a row stands for, if its words are known names as they are written, and its objects fit. Returns whether it did.
    #[tactic(auto, using(crate::proofs::InitialLemmas::atom_steps))]
    #[inline(always)]
    pub(crate) fn push_row(&mut self, known: &Declared<'_>, row: &[u8]) -> Result<bool, AllocError>
        ensures names { IfOk result (λ is_added. IsTrue is_added → AreNames row.now) }
        ensures added { IfOk result (λ is_added. IsTrue is_added → with_atom self.old true (ground_of (known_form known.now) (atom_spelled row.now)) ≡ Some self.new) }
        ensures left { IfOk result (λ is_added. is_added ≡ false → self.new ≡ self.old) }
    {
        if !find_numbers(known, row, &mut self.numbers)? {
            return Ok(false);
        }
        let Some((pred, objects)) = fitting(known, self.numbers.as_slice()) else {
            return Ok(false);
        };
        match AtomKey::with(pred, objects) {
            Some(key) => self.push_key(key)?,
            None => {
                let args = ShortSeq::from_slice(self.alloc, objects)?;
                self.push(Atom { pred, args })?;
            }
        }
        Ok(true)
    }

    /// Adds the atom of a key.
    #[inline(always)]
    fn push_key(&mut self, key: AtomKey) -> Result<(), AllocError>
        requires { IsKeyOf (atom_of key) key }
        ensures { OnOk result (self.new ≡ self.old ++ atom_of key ∷ []) }
    {
        if self.keys.len() == BATCH {
            add_keys(&mut self.list, &mut self.keys, self.expected)?;
        }
        self.keys.push(key)?;
        Ok(())
    }

    /// Adds an atom.
    pub(crate) fn push(&mut self, atom: Atom) -> Result<(), AllocError>
        ensures { OnOk result (self.new ≡ self.old ++ atom ∷ []) }
    {
        add_keys(&mut self.list, &mut self.keys, self.expected)?;
        self.list.push(atom)?;
        Ok(())
    }

    /// The list of all.
    pub(crate) fn finish(mut self) -> Result<InitialAtoms, AllocError>
        ensures { IfOk result (λ list. list ≡ self) }
    {
        add_keys(&mut self.list, &mut self.keys, self.expected)?;
        let AtomsOfRows {
            alloc: _,
            list,
            keys: _,
            numbers: _,
            expected: _,
        } = self;
        Ok(list)
    }
}
