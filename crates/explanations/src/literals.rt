//! The literals of a domain or a problem that are read, gathered from its words.

use crate::connectives::{Connective, connective_at};
use crate::outline::{Declared, Sort};
use crate::positions::{Range, bytes_at};
use crate::tokens::{Piece, Pieces};
use pddl_tokens::TokenKind;
use std::alloc::{AllocError, Global};

/// Where a literal is.
#[derive(Clone, Copy, PartialEq, Eq)]
pub(crate) enum Place {
    Precondition,
    Effect,
    /// The condition of an effect.
    Guard,
    Goal,
    /// Where literals are not gathered.
    Other,
}

impl Place {
    /// Whether conditions are here.
    pub(crate) fn is_condition(self) -> bool {
        matches!(self, Place::Precondition | Place::Guard | Place::Goal)
    }
}

/// A literal.
#[derive(Clone, Copy)]
pub(crate) struct Literal {
    pub(crate) place: Place,
    /// The number of its action among the names of the domain.
    pub(crate) action: u32,
    pub(crate) positive: bool,
    /// The number of the piece with the `(` of its atom, which is inside that of a `not`.
    pub(crate) open: u32,
    /// If it is inside `and` only, how many other conditions of the precondition are before it, or how many other atoms that the effect deletes.
    pub(crate) index: Option<usize>,
}

/// A list that joins formulas or effects in another way than `and`.
#[derive(Clone, Copy)]
pub(crate) struct Compound {
    pub(crate) place: Place,
    pub(crate) connective: Connective,
    /// The number of the piece with its first word.
    pub(crate) head: u32,
}

/// The literals of preconditions, effects and goals, in the order of the text, and which parameters of actions they use.
pub(crate) struct Literals {
    list: Vec<Literal>,
    compounds: Vec<Compound>,
    /// For each name of the text whether it is a parameter that is used.
    uses: Vec<bool>,
}

impl Drop for Literals {
    fn drop(self) {
        let Self {
            list: _,
            compounds: _,
            uses: _,
        } = self;
    }
}

impl Literals {
    /// Gathers the literals of a text with these pieces and names, in one pass.
    pub(crate) fn new(
        alloc: Global,
        pieces: &Pieces<'_>,
        names: &[Declared],
    ) -> Result<Self, AllocError> {
        let mut walk = Walk::new(alloc, pieces, names)?;
        for (number, piece) in pieces.as_slice().iter().enumerate() {
            walk.take(number, *piece)?;
        }
        let Walk {
            list,
            compounds,
            uses,
            ..
        } = walk;
        Ok(Literals {
            list,
            compounds,
            uses,
        })
    }

    /// All literals.
    pub(crate) fn as_slice(&self) -> &[Literal] {
        self.list.as_slice()
    }

    /// All lists around literals that are no conjunctions.
    pub(crate) fn compounds(&self) -> &[Compound] {
        self.compounds.as_slice()
    }

    /// For each name of the text whether it is a parameter that is used.
    pub(crate) fn uses(&self) -> &[bool] {
        self.uses.as_slice()
    }

    /// Where the literals take their memory.
    pub(crate) fn alloc(&self) -> Global {
        *self.list.allocator()
    }
}

/// How far a walk over the pieces has come.
#[derive(Drop)]
struct Walk<'p, 'a> {
    pieces: &'p Pieces<'a>,
    names: &'p [Declared],
    list: Vec<Literal>,
    compounds: Vec<Compound>,
    uses: Vec<bool>,
    /// The variables of the quantifiers around the piece at hand.
    bound: Vec<Bound<'a>>,
    /// How many lists are open.
    depth: usize,
    place: Place,
    /// Whether the section is an action.
    in_action: bool,
    /// The number of the action's name.
    action: usize,
    /// How many conditions of the precondition were passed, or how many atoms that the effect deletes.
    passed: usize,
    /// Whether the next list is inside a `not`.
    is_negated: bool,
    /// What the next list is, if it is no formula and no effect.
    next: Next,
    /// How many lists were open when the literal, the list of variables, the condition of an effect, or the outermost compound at hand began.
    literal: Option<usize>,
    variables: Option<usize>,
    guard: Option<usize>,
    compound: Option<usize>,
}

/// A variable of a quantifier.
#[derive(Clone, Copy)]
struct Bound<'a> {
    name: &'a [u8],
    /// How many lists are open inside the quantifier.
    depth: usize,
}

/// What the next list is.
#[derive(Clone, Copy, PartialEq, Eq)]
enum Next {
    /// The variables of a quantifier.
    Variables,
    /// The condition of an effect.
    Guard,
    Other,
}

impl<'p, 'a> Walk<'p, 'a> {
    fn new(
        alloc: Global,
        pieces: &'p Pieces<'a>,
        names: &'p [Declared],
    ) -> Result<Self, AllocError> {
        let mut uses = Vec::with_capacity(alloc, names.len())?;
        for _name in names {
            uses.push(false)?;
        }
        Ok(Walk {
            pieces,
            names,
            list: Vec::new(alloc),
            compounds: Vec::new(alloc),
            uses,
            bound: Vec::new(alloc),
            depth: 0,
            place: Place::Other,
            in_action: false,
            action: 0,
            passed: 0,
            is_negated: false,
            next: Next::Other,
            literal: None,
            variables: None,
            guard: None,
            compound: None,
        })
    }

    /// Goes over a piece.
    fn take(&mut self, number: usize, piece: Piece) -> Result<(), AllocError> {
        match piece.kind {
            TokenKind::Left => self.open(number),
            TokenKind::Right => {
                self.close();
                Ok(())
            }
            TokenKind::Word => self.word(number, piece.range()),
        }
    }

    fn open(&mut self, number: usize) -> Result<(), AllocError> {
        self.depth = self.depth.saturating_add(1);
        let head = self.pieces.word(number.saturating_add(1));
        if self.depth == 2 {
            self.begin_section(head, number.saturating_add(2));
            return Ok(());
        }
        if self.place == Place::Other || self.literal.is_some() || self.variables.is_some() {
            return Ok(());
        }
        let next = self.next;
        self.next = Next::Other;
        if next == Next::Variables {
            self.variables = Some(self.depth);
            return Ok(());
        }
        if next == Next::Guard {
            self.guard = Some(self.depth);
            self.place = Place::Guard;
        }
        self.begin_part(number, head)
    }

    /// Begins a formula or an effect with this head.
    fn begin_part(&mut self, number: usize, head: &[u8]) -> Result<(), AllocError> {
        let is_negated = self.is_negated;
        self.is_negated = false;
        if head.is_empty() || head.eq_ignore_ascii_case(b"and") {
            return Ok(());
        }
        match connective_at(self.pieces, number) {
            Some(Connective::Literal) => {
                self.is_negated = true;
                Ok(())
            }
            Some(connective) => self.begin_compound(number, connective),
            None => self.begin_literal(number, !is_negated),
        }
    }

    /// Begins a section whose head is followed by the piece with a number.
    fn begin_section(&mut self, head: &[u8], next: usize) {
        self.in_action = head.eq_ignore_ascii_case(b":action");
        self.place = if head.eq_ignore_ascii_case(b":goal") {
            Place::Goal
        } else {
            Place::Other
        };
        if self.in_action
            && let Some(piece) = self.pieces.get(next)
        {
            self.action = action_at(self.names, self.action, piece.range());
        }
    }

    /// Begins a list that joins formulas or effects.
    fn begin_compound(&mut self, number: usize, connective: Connective) -> Result<(), AllocError> {
        self.compounds.push(Compound {
            place: self.place,
            connective,
            head: u32::try_from(number.saturating_add(1)).unwrap_or(u32::MAX),
        })?;
        if self.compound.is_none() {
            self.compound = Some(self.depth);
            if self.place == Place::Precondition {
                self.passed = self.passed.saturating_add(1);
            }
        }
        self.next = match connective {
            Connective::ForAll | Connective::Exists => Next::Variables,
            Connective::When => Next::Guard,
            _ => Next::Other,
        };
        Ok(())
    }

    fn begin_literal(&mut self, number: usize, positive: bool) -> Result<(), AllocError> {
        self.literal = Some(self.depth);
        let index = self.index_of_literal(positive);
        self.list.push(Literal {
            place: self.place,
            action: u32::try_from(self.action).unwrap_or(u32::MAX),
            positive,
            open: u32::try_from(number).unwrap_or(u32::MAX),
            index,
        })?;
        Ok(())
    }

    /// The index of the literal that begins, if it is a condition of the precondition by itself, or deleted in any case.
    fn index_of_literal(&mut self, positive: bool) -> Option<usize> {
        let is_counted = match self.place {
            Place::Precondition => true,
            Place::Effect => !positive,
            _ => false,
        };
        if !is_counted || self.compound.is_some() {
            return None;
        }
        let index = self.passed;
        self.passed = index.saturating_add(1);
        Some(index)
    }

    fn close(&mut self) {
        let depth = Some(self.depth);
        if self.literal == depth {
            self.literal = None;
        }
        if self.variables == depth {
            self.variables = None;
        }
        if self.compound == depth {
            self.compound = None;
        }
        if self.guard == depth {
            self.guard = None;
            self.place = Place::Effect;
        }
        self.depth = self.depth.saturating_sub(1);
        let inside = inside_of(self.bound.as_slice(), self.depth);
        self.bound.truncate(inside);
    }

    fn word(&mut self, number: usize, range: Range) -> Result<(), AllocError> {
        let word = self.pieces.word(number);
        if self.depth == 2 && self.in_action {
            self.place = place_of_part(word);
            self.passed = 0;
            return Ok(());
        }
        if word.first() != Some(&b'?') {
            return Ok(());
        }
        if self.variables == Some(self.depth) {
            self.bound.push(Bound {
                name: word,
                depth: self.depth.saturating_sub(1),
            })?;
        } else if self.literal.is_some() && !self.is_bound(word) {
            self.note_use(bytes_at(self.pieces.text, range));
        }
        Ok(())
    }

    /// Whether a variable is bound by a quantifier around the piece at hand.
    fn is_bound(&self, word: &[u8]) -> bool {
        self.bound
            .as_slice()
            .iter()
            .any(|bound| bound.name.eq_ignore_ascii_case(word))
    }

    /// Notes that a parameter of the action is used.
    fn note_use(&mut self, word: &[u8]) {
        let first = self.action.saturating_add(1);
        for (index, name) in self.names.iter().enumerate().skip(first) {
            if name.sort != Sort::Variable || name.owner != self.action {
                return;
            }
            if bytes_at(self.pieces.text, name.name).eq_ignore_ascii_case(word)
                && let Some(used) = self.uses.get_mut(index)
            {
                *used = true;
                return;
            }
        }
    }
}

/// How many of the first bound variables are those of quantifiers that are open, if so many lists are.
fn inside_of(bound: &[Bound<'_>], depth: usize) -> usize {
    let mut count: usize = 0;
    for variable in bound {
        if variable.depth > depth {
            return count;
        }
        count = count.saturating_add(1);
    }
    count
}

/// The literals that a word before a list in an action begins.
fn place_of_part(word: &[u8]) -> Place {
    if word.eq_ignore_ascii_case(b":precondition") {
        Place::Precondition
    } else if word.eq_ignore_ascii_case(b":effect") {
        Place::Effect
    } else {
        Place::Other
    }
}

/// The number of the action whose name is at a range, from a number on.
fn action_at(names: &[Declared], from: usize, range: Range) -> usize {
    for (number, name) in names.iter().enumerate().skip(from) {
        if name.sort == Sort::Action && name.name.start == range.start {
            return number;
        }
    }
    from
}
