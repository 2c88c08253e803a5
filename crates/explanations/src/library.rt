//! The names of the domain and the problem, for explanations to look up.

use crate::SourceText;
use crate::names::{Budget, Nearest};
use crate::outline::{Declared, Outline, Sort};
use crate::page::Page;
use crate::positions::bytes_at;
use std::alloc::{AllocError, Global};

/// A file and the names that it declares.
pub(crate) struct Known<'a> {
    file: SourceText<'a>,
    outline: Outline,
}

impl Drop for Known<'_> {
    fn drop(self) {
        let Self {
            file: _,
            outline: _,
        } = self;
    }
}

impl<'a> Known<'a> {
    pub(crate) fn new(alloc: Global, file: SourceText<'a>) -> Result<Self, AllocError> {
        Ok(Known {
            file,
            outline: Outline::new(alloc, file.bytes)?,
        })
    }
}

/// The domain and the problem with their names. If the domain is refused, the problem is empty.
pub(crate) struct Library<'a> {
    domain: Known<'a>,
    problem: Known<'a>,
    budget: Budget,
}

impl Drop for Library<'_> {
    fn drop(self) {
        let Self {
            domain: _,
            problem: _,
            budget: _,
        } = self;
    }
}

/// A name that was found.
#[derive(Clone, Copy)]
pub(crate) struct Found<'a> {
    /// The file that declares it.
    pub(crate) file: SourceText<'a>,
    /// Whether that is the problem.
    in_problem: bool,
    /// Its number among the names of that file.
    number: usize,
    pub(crate) declared: Declared,
}

impl<'a> Found<'a> {
    /// The name as it is declared.
    pub(crate) fn name(&self) -> &'a [u8] {
        bytes_at(self.file.bytes, self.declared.name)
    }
}

/// The first name of a sort among the names of a file that is the same as a word.
fn find_in<'a>(known: &Known<'a>, in_problem: bool, sort: Sort, word: &[u8]) -> Option<Found<'a>> {
    let file = known.file;
    for (number, declared) in known.outline.as_slice().iter().enumerate() {
        if declared.sort == sort && bytes_at(file.bytes, declared.name).eq_ignore_ascii_case(word) {
            return Some(Found {
                file,
                in_problem,
                number,
                declared: *declared,
            });
        }
    }
    None
}

/// Searches the names of a sort in a file for one that is near. With an owner, only its variables are searched.
fn look_in<'a>(
    alloc: Global,
    known: &Known<'a>,
    sort: Sort,
    owner: Option<usize>,
    budget: &mut Budget,
    nearest: &mut Nearest<'a>,
) -> Result<(), AllocError> {
    for declared in known.outline.as_slice() {
        if declared.sort == sort && is_owner(owner, declared.owner) {
            nearest.look_at(alloc, budget, bytes_at(known.file.bytes, declared.name))?;
        }
    }
    Ok(())
}

/// Whether this is the owner that is asked for. If none is asked for, any is right.
fn is_owner(owner: Option<usize>, number: usize) -> bool {
    match owner {
        Some(owner) => owner == number,
        None => true,
    }
}

impl<'a> Library<'a> {
    pub(crate) fn new(
        alloc: Global,
        domain: SourceText<'a>,
        problem: SourceText<'a>,
    ) -> Result<Self, AllocError> {
        Ok(Library {
            domain: Known::new(alloc, domain)?,
            problem: Known::new(alloc, problem)?,
            budget: Budget::new(),
        })
    }

    /// The names of the domain.
    fn domain_names(&self) -> &[Declared] {
        self.domain.outline.as_slice()
    }

    /// The names of a file.
    fn names(&self, in_problem: bool) -> &[Declared] {
        if in_problem {
            self.problem.outline.as_slice()
        } else {
            self.domain.outline.as_slice()
        }
    }

    /// The first declaration of a name, that of the domain before that of the problem. Nothing once the budget is used up.
    pub(crate) fn find(&mut self, sort: Sort, word: &[u8]) -> Option<Found<'a>> {
        let work = self
            .domain_names()
            .len()
            .saturating_add(self.names(true).len());
        if !self.budget.take(work) {
            return None;
        }
        match find_in(&self.domain, false, sort, word) {
            Some(found) => Some(found),
            None => find_in(&self.problem, true, sort, word),
        }
    }

    /// The declared name that is nearest to a word, if one is near.
    pub(crate) fn nearest(
        &mut self,
        alloc: Global,
        sort: Sort,
        word: &'a [u8],
    ) -> Result<Option<&'a [u8]>, AllocError> {
        let mut nearest = Nearest::to(word);
        look_in(
            alloc,
            &self.domain,
            sort,
            None,
            &mut self.budget,
            &mut nearest,
        )?;
        look_in(
            alloc,
            &self.problem,
            sort,
            None,
            &mut self.budget,
            &mut nearest,
        )?;
        Ok(nearest.name())
    }

    /// The word that is nearest to a word among some, if one is near.
    pub(crate) fn nearest_of(
        &mut self,
        alloc: Global,
        words: &[&'a str],
        word: &'a [u8],
    ) -> Result<Option<&'a [u8]>, AllocError> {
        let mut nearest = Nearest::to(word);
        for known in words {
            nearest.look_at(alloc, &mut self.budget, known.as_bytes())?;
        }
        Ok(nearest.name())
    }

    /// The name of a variable that is nearest to a word, if one is near: one of some names, or that of a parameter of an action.
    pub(crate) fn nearest_variable(
        &mut self,
        alloc: Global,
        action: Option<Found<'a>>,
        names: &[&'a [u8]],
        word: &'a [u8],
    ) -> Result<Option<&'a [u8]>, AllocError> {
        let mut nearest = Nearest::to(word);
        for name in names {
            nearest.look_at(alloc, &mut self.budget, name)?;
        }
        if let Some(action) = action {
            look_in(
                alloc,
                &self.domain,
                Sort::Variable,
                Some(action.number),
                &mut self.budget,
                &mut nearest,
            )?;
        }
        Ok(nearest.name())
    }

    /// The action of the domain that is declared last before an offset.
    pub(crate) fn action_at(&self, offset: usize) -> Option<Found<'a>> {
        let mut last = None;
        for (number, declared) in self.domain_names().iter().enumerate() {
            if declared.sort == Sort::Action && declared.name.start < offset {
                last = Some(Found {
                    file: self.domain.file,
                    in_problem: false,
                    number,
                    declared: *declared,
                });
            }
        }
        last
    }

    /// How many variables a predicate, a function or an action has.
    pub(crate) fn variable_count(&self, found: &Found<'a>) -> usize {
        let mut count: usize = 0;
        for declared in self.names(found.in_problem) {
            if declared.sort == Sort::Variable && declared.owner == found.number {
                count = count.saturating_add(1);
            }
        }
        count
    }

    /// A variable of a predicate, a function or an action, counted from 0.
    pub(crate) fn variable(&self, found: &Found<'a>, index: usize) -> Option<Declared> {
        let mut count: usize = 0;
        for declared in self.names(found.in_problem) {
            if declared.sort == Sort::Variable && declared.owner == found.number {
                if count == index {
                    return Some(*declared);
                }
                count = count.saturating_add(1);
            }
        }
        None
    }

    /// The variable of an action with a name.
    pub(crate) fn variable_named(&self, found: &Found<'a>, word: &[u8]) -> Option<Declared> {
        for declared in self.names(found.in_problem) {
            if declared.sort == Sort::Variable
                && declared.owner == found.number
                && bytes_at(found.file.bytes, declared.name).eq_ignore_ascii_case(word)
            {
                return Some(*declared);
            }
        }
        None
    }

    /// Adds `(NAME ?a - TYPE ..)`.
    pub(crate) fn push_signature(&self, page: &mut Page, found: &Found<'a>) {
        page.say("`(");
        page.word(found.name());
        for declared in self.names(found.in_problem) {
            if declared.sort == Sort::Variable && declared.owner == found.number {
                page.say(" ");
                page.word(bytes_at(found.file.bytes, declared.name));
                page.say(" - ");
                push_types(page, found.file.bytes, declared);
            }
        }
        page.say(")`");
    }
}

/// Adds the type of a declared name.
pub(crate) fn push_types(page: &mut Page, bytes: &[u8], declared: &Declared) {
    let types = bytes_at(bytes, declared.types);
    if types.is_empty() {
        page.say("object");
        return;
    }
    page.word(types);
}
