//! What is around the fault of a domain or a problem.

use crate::SourceText;
use crate::constructs::is_one_of;
use crate::library::{Found, Library};
use crate::literals::Place;
use crate::outline::Sort;
use crate::positions::{Range, bytes_at};
use crate::tokens::Pieces;
use pddl_reader::{Dialect, FaultKind, ReadFault};
use pddl_tokens::TokenKind;
use std::alloc::{AllocError, Global};

/// A text that is refused, and why.
#[derive(Clone, Copy)]
pub(crate) struct Refusal<'a> {
    pub(crate) file: SourceText<'a>,
    /// Whether the text should be a problem.
    pub(crate) is_problem: bool,
    pub(crate) fault: ReadFault,
    pub(crate) dialect: Dialect,
}

/// A refusal, with the pieces of its text and the names that are known there.
pub(crate) struct Scene<'a> {
    pub(crate) refusal: Refusal<'a>,
    pub(crate) pieces: Pieces<'a>,
    /// The number of the piece at which the fault is.
    pub(crate) number: usize,
    pub(crate) library: Library<'a>,
}

impl Drop for Scene<'_> {
    fn drop(self) {
        let Self {
            refusal: _,
            pieces: _,
            number: _,
            library: _,
        } = self;
    }
}

impl<'a> Scene<'a> {
    pub(crate) fn new(
        alloc: Global,
        refusal: Refusal<'a>,
        library: Library<'a>,
    ) -> Result<Self, AllocError> {
        let pieces = Pieces::new(alloc, refusal.file.bytes)?;
        let number = pieces.number_at(refusal.fault.span.start as usize);
        Ok(Scene {
            refusal,
            pieces,
            number,
            library,
        })
    }

    /// What is wrong.
    pub(crate) fn kind(&self) -> FaultKind {
        self.refusal.fault.kind
    }

    /// The bytes of the file.
    pub(crate) fn bytes(&self) -> &'a [u8] {
        self.refusal.file.bytes
    }

    /// The range of the fault.
    pub(crate) fn range(&self) -> Range {
        Range {
            start: self.refusal.fault.span.start as usize,
            end: self.refusal.fault.span.end as usize,
        }
    }

    /// The faulty bytes.
    pub(crate) fn faulty(&self) -> &'a [u8] {
        bytes_at(self.refusal.file.bytes, self.range())
    }

    /// The word that is refused: the faulty one, or the head of the list around a faulty `(`.
    pub(crate) fn refused_word(&self) -> &'a [u8] {
        if self.faulty() == b"(".as_slice() {
            self.head()
        } else {
            self.faulty()
        }
    }

    /// Whether the faulty bytes are this word.
    pub(crate) fn is_faulty(&self, word: &[u8]) -> bool {
        self.faulty().eq_ignore_ascii_case(word)
    }

    /// Whether what the dialect of the competitions has is read.
    pub(crate) fn is_ipc(&self) -> bool {
        matches!(self.refusal.dialect, Dialect::Ipc | Dialect::Adl)
    }

    /// Whether the dialect with all conditions and effects is read.
    pub(crate) fn is_adl(&self) -> bool {
        matches!(self.refusal.dialect, Dialect::Adl)
    }

    /// Whether the piece before the fault is a `(`.
    pub(crate) fn is_head(&self) -> bool {
        match self.pieces.get(self.number.saturating_sub(1)) {
            Some(piece) => self.number > 0 && piece.is_left(),
            None => false,
        }
    }

    /// The number of the `(` of the list around the fault.
    pub(crate) fn list(&self) -> Option<usize> {
        self.pieces.list_around(self.number)
    }

    /// The first word of a list whose `(` has this number.
    pub(crate) fn head_of(&self, list: Option<usize>) -> &'a [u8] {
        match list {
            Some(open) => self.pieces.word(open.saturating_add(1)),
            None => b"",
        }
    }

    /// The first word of the list around the fault.
    pub(crate) fn head(&self) -> &'a [u8] {
        self.head_of(self.list())
    }

    /// The first word of the list around the list around the fault.
    pub(crate) fn outer_head(&self) -> &'a [u8] {
        match self.list() {
            Some(open) => self.head_of(self.pieces.list_around(open)),
            None => b"",
        }
    }

    /// The first word of the section around the fault: of the outermost list but one.
    pub(crate) fn section(&self) -> &'a [u8] {
        let mut inner = None;
        let mut list = self.list();
        for _ in 0..66usize {
            let Some(open) = list else {
                return self.head_of(inner);
            };
            let outer = self.pieces.list_around(open);
            if outer.is_none() {
                return self.head_of(inner);
            }
            inner = Some(open);
            list = outer;
        }
        b""
    }

    /// How many lists are around the fault.
    pub(crate) fn depth(&self) -> usize {
        let mut depth: usize = 0;
        let mut list = self.list();
        for _ in 0..66usize {
            let Some(open) = list else {
                return depth;
            };
            depth = depth.saturating_add(1);
            list = self.pieces.list_around(open);
        }
        depth
    }

    /// The number of the `(` around the fault that is inside this many other lists.
    fn list_inside(&self, outer: usize) -> Option<usize> {
        let depth = self.depth();
        if depth <= outer {
            return None;
        }
        let mut list = self.list();
        for _ in outer.saturating_add(1)..depth {
            list = self.pieces.list_around(list?);
        }
        list
    }

    /// The word before the value of a section's part that is around the fault, as `:effect`.
    pub(crate) fn part(&self) -> &'a [u8] {
        match self.list_inside(2) {
            Some(open) => self.pieces.word(open.saturating_sub(1)),
            None => b"",
        }
    }

    /// Among which conditions or effects the fault is.
    pub(crate) fn place(&self) -> Place {
        if self.is_in(b":goal") {
            return Place::Goal;
        }
        if !self.is_in(b":action") {
            return Place::Other;
        }
        let part = self.part();
        if part.eq_ignore_ascii_case(b":precondition") {
            Place::Precondition
        } else if !part.eq_ignore_ascii_case(b":effect") {
            Place::Other
        } else if self.is_in_guard() {
            Place::Guard
        } else {
            Place::Effect
        }
    }

    /// Whether the fault is in the condition of a `when`.
    fn is_in_guard(&self) -> bool {
        let mut list = self.list();
        for _ in 0..66usize {
            let Some(open) = list else {
                return false;
            };
            list = self.pieces.list_around(open);
            if self.head_of(list).eq_ignore_ascii_case(b"when")
                && list == Some(open.saturating_sub(2))
            {
                return true;
            }
        }
        false
    }

    /// Whether a list with one of these heads is around the fault.
    pub(crate) fn is_under(&self, heads: &[&[u8]]) -> bool {
        let mut list = self.list();
        for _ in 0..66usize {
            let Some(open) = list else {
                return false;
            };
            if is_one_of(self.head_of(list), heads) {
                return true;
            }
            list = self.pieces.list_around(open);
        }
        false
    }

    /// The action around the fault. A problem has none.
    pub(crate) fn action(&self) -> Option<Found<'a>> {
        if self.refusal.is_problem {
            return None;
        }
        self.library.action_at(self.range().start)
    }

    /// Whether the section around the fault has this head.
    pub(crate) fn is_in(&self, section: &[u8]) -> bool {
        self.section().eq_ignore_ascii_case(section)
    }

    /// Whether the fault is in a declaration of predicates or functions.
    pub(crate) fn is_declaration(&self) -> bool {
        self.is_in(b":predicates") || self.is_in(b":functions")
    }

    /// Whether the piece with a number is a `(`.
    fn is_left(&self, number: usize) -> bool {
        self.pieces.get(number).is_some_and(|piece| piece.is_left())
    }

    /// Whether the piece after the fault is a `(`.
    pub(crate) fn is_before_list(&self) -> bool {
        self.is_left(self.number.saturating_add(1))
    }

    /// Whether the fault is the time of a timed initial literal.
    pub(crate) fn is_timed_literal(&self) -> bool {
        self.is_before_list()
            && self.index_in_list() == 1
            && self.head().eq_ignore_ascii_case(b"at")
            && self
                .faulty()
                .first()
                .is_some_and(|byte| byte.is_ascii_digit())
            && self.is_in(b":init")
    }

    /// Whether the fault is the `=` of a condition on the value of a function.
    pub(crate) fn compares_numbers(&self) -> bool {
        let has_list = self.is_before_list() || self.is_left(self.number.saturating_add(2));
        has_list && !self.is_in(b":init") && self.place() != Place::Effect
    }

    /// Whether the fault is an `=` that the dialect of the competitions reads: between terms of a condition, or before a value in `:init`.
    pub(crate) fn is_ipc_equality(&self) -> bool {
        if self.is_in(b":init") {
            return self.is_before_list() && self.depth() == 3;
        }
        !self.is_declaration() && self.place() != Place::Effect
    }

    /// Which sort of name is allowed at the fault.
    pub(crate) fn wanted_sort(&self) -> Sort {
        let before = self.pieces.word(self.number.saturating_sub(1));
        if before == b"-".as_slice() || self.head().eq_ignore_ascii_case(b"either") {
            return Sort::Type;
        }
        if self.is_head() {
            return self.sort_of_head();
        }
        match self.faulty().first() {
            Some(b'?') => Sort::Variable,
            _ => Sort::Object,
        }
    }

    /// Which sort of name is declared at the fault.
    pub(crate) fn declared_sort(&self) -> Sort {
        let section = self.section();
        if section.eq_ignore_ascii_case(b":types") {
            Sort::Type
        } else if section.eq_ignore_ascii_case(b":predicates") {
            Sort::Predicate
        } else if section.eq_ignore_ascii_case(b":functions") {
            Sort::Function
        } else if section.eq_ignore_ascii_case(b":action") {
            Sort::Action
        } else {
            Sort::Object
        }
    }

    /// Which sort of name is allowed at the head of the list around the fault.
    fn sort_of_head(&self) -> Sort {
        let outer = self.outer_head();
        let is_value = outer == b"=".as_slice() || outer.eq_ignore_ascii_case(b"increase");
        if is_value && self.is_ipc() {
            Sort::Function
        } else {
            Sort::Predicate
        }
    }

    /// The index of the fault in its list, which is 0 for the head.
    pub(crate) fn index_in_list(&self) -> usize {
        match self.list() {
            Some(open) => self.number.saturating_sub(open).saturating_sub(1),
            None => 0,
        }
    }

    /// How many pieces follow the head of the list around the fault, up to the first `)`.
    pub(crate) fn terms_in_list(&self) -> usize {
        let first = match self.list() {
            Some(open) => open.saturating_add(2),
            None => self.number,
        };
        let mut count: usize = 0;
        for piece in self.pieces.as_slice().iter().skip(first) {
            if matches!(piece.kind, TokenKind::Right) {
                return count;
            }
            count = count.saturating_add(1);
        }
        count
    }

    /// Whether the text defines the other of the two, a domain or a problem.
    pub(crate) fn is_swapped(&self) -> bool {
        let other: &[u8] = if self.refusal.is_problem {
            b"domain"
        } else {
            b"problem"
        };
        self.pieces.is_word(1, b"define") && self.pieces.is_word(3, other)
    }

    /// Whether a list with this head is in the text.
    pub(crate) fn has_list(&self, head: &[u8]) -> bool {
        let mut is_head = false;
        for piece in self.pieces.as_slice() {
            if is_head && bytes_at(self.bytes(), piece.range()).eq_ignore_ascii_case(head) {
                return true;
            }
            is_head = piece.is_left();
        }
        false
    }

    /// The number of the innermost `(` that is never closed.
    pub(crate) fn open_list(&self) -> Option<usize> {
        self.pieces.list_around(self.pieces.as_slice().len())
    }
}
