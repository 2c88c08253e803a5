//! The state of the world while plans are judged: which ground atoms are true.
//!
//! Each atom that was ever true or asked for by number has a number and a bit. The initial atoms have the task's numbers, so a plan starts
//! with a row of ones and hashes none of them. Atoms that come up later get the next numbers, and numbers never change: a state that is
//! reset for another plan keeps them. Steps change the bits in place. An atom without a number is false.
ghost use Rattle.std.specs.Prelude.{◌≡◌, ◌∷◌, [], ◌++◌, ◌<◌, ◌≤◌, ◌+◌, ◌*◌, ◌^◌, ℕ, true, false, None, Some, IfNone, IfOk, IfSome, OnErr, OnOk, length, slice_index_or};
ghost use Rattle.bit_rows.specs.Rows.{row_has};
ghost use Rattle.formulas.specs.Meaning as meaning;
ghost use Rattle.formulas.specs.Within.{IsPatternWithin};
ghost use Rattle.formulas.specs.declared.atoms.Atom.{Atom};
ghost use Rattle.formulas.specs.Atom.{atom_eq};
ghost use Rattle.strips_task.specs.AtomKeys.{IsKeyOf, atom_of};
ghost use Rattle.strips_task.specs.AtomNumbers.{number_in};
ghost use Rattle.strips_task.specs.FirstOccurrences.{first_occurrences};
ghost use Rattle.strips_judge.specs.NumberedState.{Grows, state_of};
ghost use Rattle.strips_judge.specs.State.{is_in, without, with_all};

use crate::atom_keys::{key_of_longer, key_of_short};
use crate::grounding::ground;
use crate::single_cells::SingleCells;
use bit_rows::Row;
use std::alloc::{AllocError, Global};
use std::marker::Model;
use strips_task::{Atom, AtomKey, AtomTable, InitialAtoms, Pattern, Seed};

/// A set of ground atoms of a task, each with a number. Contracts see the initial atoms of the task, the atoms that have numbers and the bits.
pub struct NumberedState<'t> {
    initial: &'t InitialAtoms,
    /// The atoms that came up later, in the order of their numbers.
    later: AtomTable,
    /// For each predicate by number whether a later atom has it, so that atoms of others are looked up among the initial ones alone.
    marks: Vec<bool>,
    /// The numbers of atoms of one object that were looked up.
    cells: SingleCells,
    bits: Row,
}

impl Drop for NumberedState<'_> {
    fn drop(self) {
        let Self {
            initial: _,
            later: _,
            marks: _,
            cells: _,
            bits: _,
        } = self;
    }
}

impl<'t> Model for NumberedState<'t> {
    ghost use Rattle.std.specs.Prelude.{◌++◌};
    ghost use Rattle.formulas.specs.Atom.{atom_eq};
    ghost use Rattle.strips_task.specs.FirstOccurrences.{first_occurrences};
    ghost use Rattle.strips_judge.specs.NumberedState.{Numbered, IsRowFor};
    ghost use Rattle.strips_judge.specs.AtomsFound.{AreFound};

    ghost Value = { Numbered };

    ghost view = { λ s. record { initial = s.initial.now; atoms = first_occurrences atom_eq s.initial.now ++ s.later; bits = s.bits } };

    ghost invariant = { λ s. IsRowFor (first_occurrences atom_eq s.initial.now ++ s.later) s.bits
        × AreFound (first_occurrences atom_eq s.initial.now) s.later s.marks.items s.cells };
}

impl NumberedState<'_> {
    /// The state in which the initial atoms are true, and no others. Takes a bit for each of them.
    ///
    /// The task has `objects` objects. Atoms of one object that were looked up are found by one read of memory the next time, with at most `most_cells`
    /// cells of four bytes. No answer depends on these two.
    pub fn new(
        alloc: Global,
        initial: &InitialAtoms,
        objects: usize,
        most_cells: usize,
    ) -> Result<NumberedState<'_>, AllocError>
        ensures state { IfOk result (λ state. state_of state ≡ is_in initial.now) }
        ensures initial { IfOk result (λ state. state.initial ≡ initial.now) }
    {
        Ok(NumberedState {
            initial,
            later: AtomTable::new(alloc, initial.seed()),
            marks: Vec::new(alloc),
            cells: SingleCells::new(alloc, objects, most_cells),
            bits: Row::with_first(alloc, initial.distinct_len())?,
        })
    }

    /// Makes the initial atoms true and all others false, a word of the row at a time. Numbers and room stay.
    pub fn reset(&mut self)
        ensures state { state_of self.new ≡ is_in self.old.initial }
        ensures atoms { self.new.atoms ≡ self.old.atoms }
        ensures initial { self.new.initial ≡ self.old.initial }
    {
        self.bits.reset_to_first(self.initial.distinct_len());
    }

    /// How many atoms have numbers besides the initial ones.
    pub fn later_len(&self) -> usize {
        self.later.len()
    }

    /// The seed that its tables hash with.
    pub(crate) fn seed(&self) -> Seed {
        self.initial.seed()
    }

    /// The number of the atom that a pattern stands for, if it has one. Takes a read of memory or two, and memory once in a long while. The last argument
    /// is room for an atom of many objects.
    #[inline(always)]
    pub(crate) fn look_up(
        &mut self,
        pattern: &Pattern,
        objects: &[u16],
        bound: &[u16],
        atom: &mut Atom,
    ) -> Result<Option<usize>, AllocError>
        requires { IsPatternWithin (length objects.now) (length bound.now) pattern.now }
        ensures number { IfOk result (λ number. number ≡ number_in self.old.atoms (meaning.atom_of objects.now bound.now pattern.now)) }
        ensures same { self.new ≡ self.old }
    {
        if let Some(key) = key_of_short(pattern, objects, bound) {
            return self.look_up_packed(key);
        }
        let number = self.look_up_longer(pattern, objects, bound, atom)?;
        Ok(number)
    }

    /// The same for a pattern of more than two terms.
    #[inline(never)]
    fn look_up_longer(
        &mut self,
        pattern: &Pattern,
        objects: &[u16],
        bound: &[u16],
        atom: &mut Atom,
    ) -> Result<Option<usize>, AllocError>
        requires within { IsPatternWithin (length objects.now) (length bound.now) pattern.now }
        requires longer { 2 < length pattern.now.terms }
        ensures number { IfOk result (λ number. number ≡ number_in self.old.atoms (meaning.atom_of objects.now bound.now pattern.now)) }
        ensures same { self.new ≡ self.old }
    {
        if let Some(key) = key_of_longer(pattern, objects, bound) {
            return self.look_up_packed(key);
        }
        ground(pattern, objects, bound, atom)?;
        Ok(self.number_of_wide(atom))
    }

    /// The number of the atom of a key, if it has one.
    #[inline(always)]
    fn look_up_packed(&mut self, key: AtomKey) -> Result<Option<usize>, AllocError>
        requires { IsKeyOf (atom_of key) key }
        ensures number { IfOk result (λ number. number ≡ number_in self.old.atoms (atom_of key)) }
        ensures same { self.new ≡ self.old }
    {
        let Some(cell) = self.cells.cell_of(key) else {
            return Ok(self.number_of_packed(key));
        };
        match self.cells.number_at(cell) {
            Some(number) => Ok(Some(number as usize)),
            None => self.look_up_single(key),
        }
    }

    /// The number of the atom of a key whose cell has none, if the atom has one. Keeps it in the cell.
    #[inline(never)]
    fn look_up_single(&mut self, key: AtomKey) -> Result<Option<usize>, AllocError>
        requires { IsKeyOf (atom_of key) key }
        ensures number { IfOk result (λ number. number ≡ number_in self.old.atoms (atom_of key)) }
        ensures same { self.new ≡ self.old }
    {
        let Some(number) = self.number_of_packed(key) else {
            return Ok(None);
        };
        self.keep(key, number)?;
        Ok(Some(number))
    }

    /// Keeps the number of an atom in its cell, if it has one and the number has at most 32 bits.
    fn keep(&mut self, key: AtomKey, number: usize) -> Result<(), AllocError>
        requires { number_in self.old.atoms (atom_of key) ≡ Some number }
        ensures { self.new ≡ self.old }
    {
        let Some(cell) = self.cells.cell_of(key) else {
            return Ok(());
        };
        let Ok(number) = u32::try_from(number) else {
            return Ok(());
        };
        self.cells.keep(cell, number)
    }

    /// The number of the atom of a key, if it has one, by the tables.
    #[inline(always)]
    fn number_of_packed(&self, key: AtomKey) -> Option<usize>
        requires { IsKeyOf (atom_of key) key }
        ensures { result ≡ number_in self.now.atoms (atom_of key) }
    {
        if let Some(number) = self.later_number(key) {
            return Some(number);
        }
        match self.initial.distinct().find(key) {
            Some(number) => Some(number as usize),
            None => None,
        }
    }

    /// The number of the atom of a key, if it is a later one.
    #[inline(always)]
    fn later_number(&self, key: AtomKey) -> Option<usize>
        requires { IsKeyOf (atom_of key) key }
        ensures later { IfSome result (λ number. number_in self.now.atoms (atom_of key) ≡ Some number) }
        ensures initial { IfNone result (number_in self.now.atoms (atom_of key) ≡ number_in (first_occurrences atom_eq self.now.initial) (atom_of key)) }
    {
        if !self.may_be_later(key.pred()) {
            return None;
        }
        match self.later.find(key) {
            Some(number) => Some(self.initial.distinct_len() + number as usize),
            None => None,
        }
    }

    /// Whether a later atom has a predicate.
    #[inline(always)]
    fn may_be_later(&self, pred: u16) -> bool
        ensures { result ≡ false → (atom : Atom) → atom.pred ≡ pred → number_in self.now.atoms atom ≡ number_in (first_occurrences atom_eq self.now.initial) atom }
    {
        match self.marks.get(usize::from(pred)) {
            Some(mark) => *mark,
            None => false,
        }
    }

    /// The number of an atom of many objects, if it has one. Takes one or two hashes.
    #[inline(never)]
    fn number_of_wide(&self, atom: &Atom) -> Option<usize>
        requires { 4 < length atom.now.args }
        ensures { result ≡ number_in self.now.atoms atom.now }
    {
        if let Some(number) = self.initial.number_of(atom) {
            return Some(number);
        }
        match self.later.find_wide(atom) {
            Some(number) => Some(self.initial.distinct_len() + number as usize),
            None => None,
        }
    }

    /// The number of an atom, if it has one.
    fn number_of(&self, atom: &Atom) -> Option<usize>
        ensures { result ≡ number_in self.now.atoms atom.now }
    {
        match AtomKey::of(atom) {
            Some(key) => self.number_of_packed(key),
            None => self.number_of_wide(atom),
        }
    }

    /// The number of the atom that a pattern stands for. An atom without a number gets the next one. Whether it is true does not change.
    #[inline(always)]
    pub fn number(
        &mut self,
        alloc: Global,
        pattern: &Pattern,
        objects: &[u16],
        bound: &[u16],
        atom: &mut Atom,
    ) -> Result<usize, AllocError>
        requires { IsPatternWithin (length objects.now) (length bound.now) pattern.now }
        ensures number { IfOk result (λ number. number_in self.new.atoms (meaning.atom_of objects.now bound.now pattern.now) ≡ Some number) }
        ensures state { state_of self.new ≡ state_of self.old }
        ensures grows { Grows self.old self.new }
    {
        if let Some(key) = key_of_short(pattern, objects, bound) {
            return self.number_packed(key);
        }
        let number = self.number_longer(alloc, pattern, objects, bound, atom)?;
        Ok(number)
    }

    /// The same for a pattern of more than two terms.
    #[inline(never)]
    fn number_longer(
        &mut self,
        alloc: Global,
        pattern: &Pattern,
        objects: &[u16],
        bound: &[u16],
        atom: &mut Atom,
    ) -> Result<usize, AllocError>
        requires within { IsPatternWithin (length objects.now) (length bound.now) pattern.now }
        requires longer { 2 < length pattern.now.terms }
        ensures number { IfOk result (λ number. number_in self.new.atoms (meaning.atom_of objects.now bound.now pattern.now) ≡ Some number) }
        ensures state { state_of self.new ≡ state_of self.old }
        ensures grows { Grows self.old self.new }
    {
        if let Some(key) = key_of_longer(pattern, objects, bound) {
            return self.number_packed(key);
        }
        ground(pattern, objects, bound, atom)?;
        self.number_wide(alloc, atom)
    }

    /// The number of the atom of a key. If it has none, it gets the next one.
    #[inline(always)]
    fn number_packed(&mut self, key: AtomKey) -> Result<usize, AllocError>
        requires { IsKeyOf (atom_of key) key }
        ensures number { IfOk result (λ number. number_in self.new.atoms (atom_of key) ≡ Some number) }
        ensures state { state_of self.new ≡ state_of self.old }
        ensures grows { Grows self.old self.new }
    {
        match self.look_up_packed(key)? {
            Some(number) => Ok(number),
            None => self.add_packed(key),
        }
    }

    /// The number of an atom of many objects. If it has none, it gets the next one.
    fn number_wide(&mut self, alloc: Global, atom: &Atom) -> Result<usize, AllocError>
        requires { 4 < length atom.now.args }
        ensures number { IfOk result (λ number. number_in self.new.atoms atom.now ≡ Some number) }
        ensures state { state_of self.new ≡ state_of self.old }
        ensures grows { Grows self.old self.new }
    {
        match self.number_of_wide(atom) {
            Some(number) => Ok(number),
            None => self.add_wide(alloc, atom),
        }
    }

    /// Gives the atom of a key, which has no number, the next one. The atom is false.
    #[inline(never)]
    fn add_packed(&mut self, key: AtomKey) -> Result<usize, AllocError>
        requires key { IsKeyOf (atom_of key) key }
        requires new { number_in self.old.atoms (atom_of key) ≡ None }
        ensures number { IfOk result (λ number. number_in self.new.atoms (atom_of key) ≡ Some number) }
        ensures state { state_of self.new ≡ state_of self.old }
        ensures grows { Grows self.old self.new }
    {
        let number = self.next_number()?;
        self.bits.reserve(number as usize + 1)?;
        self.push_packed(key)?;
        Ok(number as usize)
    }

    /// Gives an atom of many objects, which has no number, the next one. The atom is false.
    #[inline(never)]
    fn add_wide(&mut self, alloc: Global, atom: &Atom) -> Result<usize, AllocError>
        requires many { 4 < length atom.now.args }
        requires new { number_in self.old.atoms atom.now ≡ None }
        ensures number { IfOk result (λ number. number_in self.new.atoms atom.now ≡ Some number) }
        ensures state { state_of self.new ≡ state_of self.old }
        ensures grows { Grows self.old self.new }
    {
        let number = self.next_number()?;
        self.bits.reserve(number as usize + 1)?;
        self.push_wide(atom.try_clone(alloc)?)?;
        Ok(number as usize)
    }

    /// The number that comes next, if it has 32 bits.
    fn next_number(&self) -> Result<u32, AllocError>
        ensures { IfOk result (λ number. (number ≡ length self.now.atoms) × (number + 1 < 2 ^ 32)) }
    {
        let number = self.initial.distinct_len() + self.later.len();
        if number >= u32::MAX as usize {
            return Err(AllocError);
        }
        Ok(number as u32)
    }

    /// Gives the atom of a key the next number.
    fn push_packed(&mut self, key: AtomKey) -> Result<(), AllocError>
        requires key { IsKeyOf (atom_of key) key }
        requires new { number_in self.old.atoms (atom_of key) ≡ None }
        requires room { length self.old.atoms + 1 ≤ 64 * length self.old.bits }
        requires small { length self.old.atoms + 1 < 2 ^ 32 }
        ensures atoms { OnOk result (self.new.atoms ≡ self.old.atoms ++ atom_of key ∷ []) }
        ensures failed { OnErr result (self.new.atoms ≡ self.old.atoms) }
        ensures bits { self.new.bits ≡ self.old.bits }
        ensures initial { self.new.initial ≡ self.old.initial }
    {
        mark(&mut self.marks, key.pred())?;
        self.later.push_packed(key)?;
        Ok(())
    }

    /// Gives an atom of many objects the next number.
    fn push_wide(&mut self, atom: Atom) -> Result<(), AllocError>
        requires many { 4 < length atom.args }
        requires new { number_in self.old.atoms atom ≡ None }
        requires room { length self.old.atoms + 1 ≤ 64 * length self.old.bits }
        requires small { length self.old.atoms + 1 < 2 ^ 32 }
        ensures atoms { OnOk result (self.new.atoms ≡ self.old.atoms ++ atom ∷ []) }
        ensures failed { OnErr result (self.new.atoms ≡ self.old.atoms) }
        ensures bits { self.new.bits ≡ self.old.bits }
        ensures initial { self.new.initial ≡ self.old.initial }
    {
        mark(&mut self.marks, atom.pred)?;
        self.later.push_wide(atom)?;
        Ok(())
    }

    /// Whether the atom with a number is true.
    pub fn has(&self, number: usize) -> bool
        ensures bit { result ≡ row_has self.now.bits number }
        ensures truth { (atom : Atom) → number_in self.now.atoms atom ≡ Some number → result ≡ state_of self.now atom }
    {
        self.bits.has(number)
    }

    /// Makes the atom with a number true. Takes no memory.
    pub(crate) fn set(&mut self, number: usize)
        requires { number < length self.old.atoms }
        ensures state { (atom : Atom) → number_in self.old.atoms atom ≡ Some number → state_of self.new ≡ with_all (state_of self.old) (atom ∷ []) }
        ensures atoms { self.new.atoms ≡ self.old.atoms }
        ensures initial { self.new.initial ≡ self.old.initial }
    {
        self.bits.set(number);
    }

    /// Makes the atom with a number false.
    pub(crate) fn clear(&mut self, number: usize)
        ensures state { (atom : Atom) → number_in self.old.atoms atom ≡ Some number → state_of self.new ≡ without (state_of self.old) (atom ∷ []) }
        ensures atoms { self.new.atoms ≡ self.old.atoms }
        ensures initial { self.new.initial ≡ self.old.initial }
    {
        self.bits.clear(number);
    }

    /// Whether the atom that a pattern stands for is true. The last argument is room for the atom.
    #[inline(always)]
    pub(crate) fn is_true(
        &mut self,
        pattern: &Pattern,
        objects: &[u16],
        bound: &[u16],
        atom: &mut Atom,
    ) -> Result<bool, AllocError>
        requires { IsPatternWithin (length objects.now) (length bound.now) pattern.now }
        ensures answer { IfOk result (λ answer. answer ≡ state_of self.old (meaning.atom_of objects.now bound.now pattern.now)) }
        ensures same { self.new ≡ self.old }
    {
        match self.look_up(pattern, objects, bound, atom)? {
            Some(number) => Ok(self.bits.has(number)),
            None => Ok(false),
        }
    }

    /// The number of the atom that a pattern stands for, if it is true. The last argument is room for the atom.
    #[inline(always)]
    pub(crate) fn number_if_true(
        &mut self,
        pattern: &Pattern,
        objects: &[u16],
        bound: &[u16],
        atom: &mut Atom,
    ) -> Result<Option<usize>, AllocError>
        requires { IsPatternWithin (length objects.now) (length bound.now) pattern.now }
        ensures some { IfOk result (λ found. IfSome found (λ number. (state_of self.old (meaning.atom_of objects.now bound.now pattern.now) ≡ true)
            × (number_in self.old.atoms (meaning.atom_of objects.now bound.now pattern.now) ≡ Some number))) }
        ensures none { IfOk result (λ found. IfNone found (state_of self.old (meaning.atom_of objects.now bound.now pattern.now) ≡ false)) }
        ensures same { self.new ≡ self.old }
    {
        match self.look_up(pattern, objects, bound, atom)? {
            Some(number) if self.bits.has(number) => Ok(Some(number)),
            Some(_) => Ok(None),
            None => Ok(None),
        }
    }

    /// Whether an atom is true. Takes one or two hashes.
    pub fn contains(&self, atom: &Atom) -> bool
        ensures { result ≡ state_of self.now atom.now }
    {
        match self.number_of(atom) {
            Some(number) => self.bits.has(number),
            None => false,
        }
    }

    /// Makes the atom that a pattern stands for true. Takes memory for an atom that has no number yet. The last argument is room for the atom.
    #[inline(always)]
    pub(crate) fn insert(
        &mut self,
        alloc: Global,
        pattern: &Pattern,
        objects: &[u16],
        bound: &[u16],
        atom: &mut Atom,
    ) -> Result<(), AllocError>
        requires { IsPatternWithin (length objects.now) (length bound.now) pattern.now }
        ensures state { OnOk result (state_of self.new ≡ with_all (state_of self.old) (meaning.atom_of objects.now bound.now pattern.now ∷ [])) }
        ensures grows { Grows self.old self.new }
    {
        let number = self.number(alloc, pattern, objects, bound, atom)?;
        self.set(number);
        Ok(())
    }

    /// Makes the atom that a pattern stands for false. The last argument is room for the atom.
    #[inline(always)]
    pub(crate) fn remove(
        &mut self,
        pattern: &Pattern,
        objects: &[u16],
        bound: &[u16],
        atom: &mut Atom,
    ) -> Result<(), AllocError>
        requires { IsPatternWithin (length objects.now) (length bound.now) pattern.now }
        ensures state { OnOk result (state_of self.new ≡ without (state_of self.old) (meaning.atom_of objects.now bound.now pattern.now ∷ [])) }
        ensures grows { Grows self.old self.new }
    {
        if let Some(number) = self.look_up(pattern, objects, bound, atom)? {
            self.clear(number);
        }
        Ok(())
    }
}

/// Marks a predicate.
fn mark(marks: &mut Vec<bool>, pred: u16) -> Result<(), AllocError>
    ensures marked { OnOk result (slice_index_or marks.new.items pred false ≡ true) }
    ensures still { (other : ℕ) → slice_index_or marks.old.items other false ≡ true → slice_index_or marks.new.items other false ≡ true }
{
    let index = usize::from(pred);
    if index >= marks.len() {
        marks.resize(index + 1, false)?;
    }
    marks[index] = true;
    Ok(())
}
