//! The names that a domain or a problem declares, gathered from its words, whether the text is right or not.

use crate::positions::Range;
use crate::tokens::range_of;
use pddl_tokens::{Cursor, Token, TokenKind};
use std::alloc::{AllocError, Global};

/// What a name is declared as.
#[derive(Clone, Copy, PartialEq, Eq)]
pub(crate) enum Sort {
    Type,
    Object,
    Predicate,
    Function,
    Action,
    Variable,
}

/// A declared name.
#[derive(Clone, Copy)]
pub(crate) struct Declared {
    pub(crate) sort: Sort,
    pub(crate) name: Range,
    /// For a variable, the number of the name of its predicate, function or action.
    pub(crate) owner: usize,
    /// The type after the dash, with its parentheses if it is a list; empty if there is none.
    pub(crate) types: Range,
}

/// No bytes.
const NOTHING: Range = Range { start: 0, end: 0 };

/// A section of a definition.
#[derive(Clone, Copy, PartialEq, Eq)]
enum Section {
    Types,
    Objects,
    Predicates,
    Functions,
    Action,
    Other,
}

/// The section that a word begins.
fn section_of(word: &[u8]) -> Section {
    if word.eq_ignore_ascii_case(b":types") {
        Section::Types
    } else if word.eq_ignore_ascii_case(b":constants") || word.eq_ignore_ascii_case(b":objects") {
        Section::Objects
    } else if word.eq_ignore_ascii_case(b":predicates") {
        Section::Predicates
    } else if word.eq_ignore_ascii_case(b":functions") {
        Section::Functions
    } else if word.eq_ignore_ascii_case(b":action") {
        Section::Action
    } else {
        Section::Other
    }
}

/// The declared names of a text, in its order.
pub(crate) struct Outline {
    names: Vec<Declared>,
}

impl Drop for Outline {
    fn drop(self) {
        let Self { names: _ } = self;
    }
}

impl Outline {
    /// Gathers the names of a text, in one pass.
    pub(crate) fn new(alloc: Global, text: &[u8]) -> Result<Self, AllocError> {
        let mut walk = Walk::new(alloc);
        if let Ok(mut cursor) = Cursor::new(text) {
            'tokens: while let Ok(Some(token)) = cursor.next() {
                walk.take(token)?;
            }
        }
        let Walk { names, .. } = walk;
        Ok(Outline { names })
    }

    /// All names.
    pub(crate) fn as_slice(&self) -> &[Declared] {
        self.names.as_slice()
    }
}

/// How far a walk over the tokens has come.
#[derive(Drop)]
struct Walk {
    names: Vec<Declared>,
    /// How many lists are open.
    depth: usize,
    section: Section,
    /// Whether no word of the list was read yet.
    is_first: bool,
    /// Whether the name of the action, or the list of its parameters, comes next.
    expects: bool,
    /// The number of the predicate, function or action that was declared last.
    owner: usize,
    /// The number of the first name whose type was not read yet.
    group: usize,
    /// The dash before a type, once it was read.
    types: Option<Dash>,
}

/// A dash that was read, and what was read of its type.
#[derive(Clone, Copy)]
struct Dash {
    /// Where a list of types begins, if one does.
    start: Option<usize>,
}

impl Walk {
    fn new(alloc: Global) -> Self {
        Walk {
            names: Vec::new(alloc),
            depth: 0,
            section: Section::Other,
            is_first: false,
            expects: false,
            owner: 0,
            group: 0,
            types: None,
        }
    }

    /// Goes over a token.
    fn take(&mut self, token: Token<'_>) -> Result<(), AllocError> {
        match token.kind {
            TokenKind::Left => self.open(token),
            TokenKind::Right => self.close(token),
            TokenKind::Word => self.word(token)?,
        }
        Ok(())
    }

    fn open(&mut self, token: Token<'_>) {
        self.depth = self.depth.saturating_add(1);
        if let Some(Dash { start: None }) = self.types {
            self.types = Some(Dash {
                start: Some(token.span.start as usize),
            });
            return;
        }
        self.is_first = true;
        if self.depth == 2 {
            self.section = Section::Other;
            self.expects = false;
        }
        if self.depth <= 3 {
            self.end_group();
        }
    }

    fn close(&mut self, token: Token<'_>) {
        self.depth = self.depth.saturating_sub(1);
        if let Some(Dash { start: Some(start) }) = self.types {
            self.give_types(Range {
                start,
                end: token.span.end as usize,
            });
            return;
        }
        self.is_first = false;
        self.end_group();
        if self.depth == 2 {
            self.expects = false;
        }
    }

    /// Names from here on belong to another group.
    fn end_group(&mut self) {
        self.group = self.names.len();
        self.types = None;
    }

    /// Gives the names of the group their type.
    fn give_types(&mut self, types: Range) {
        let group = self.group.min(self.names.len());
        give(&mut self.names, group, types);
        self.end_group();
    }

    fn word(&mut self, token: Token<'_>) -> Result<(), AllocError> {
        if let Some(dash) = self.types {
            return self.type_word(token, dash);
        }
        let first = self.is_first;
        self.is_first = false;
        if self.depth == 2 && first {
            self.section = section_of(token.text);
            self.expects = self.section == Section::Action;
            return Ok(());
        }
        if token.text == b"-".as_slice() {
            self.types = Some(Dash { start: None });
            return Ok(());
        }
        self.name(token, first)
    }

    /// A word after a dash.
    fn type_word(&mut self, token: Token<'_>, dash: Dash) -> Result<(), AllocError> {
        if dash.start.is_some() {
            return Ok(());
        }
        let range = range_of(token);
        self.give_types(range);
        if self.section == Section::Types {
            self.push(Sort::Type, range)?;
            self.end_group();
        }
        Ok(())
    }

    /// A word that may be a name.
    fn name(&mut self, token: Token<'_>, first: bool) -> Result<(), AllocError> {
        let range = range_of(token);
        match (self.section, self.depth) {
            (Section::Types, 2) => self.push(Sort::Type, range),
            (Section::Objects, 2) => self.push(Sort::Object, range),
            (Section::Predicates, 3) if first => self.owner(Sort::Predicate, range),
            (Section::Functions, 3) if first => self.owner(Sort::Function, range),
            (Section::Action, 2) => self.action_word(token),
            (Section::Predicates | Section::Functions, 3) => self.push(Sort::Variable, range),
            (Section::Action, 3) if self.expects => self.push(Sort::Variable, range),
            _ => Ok(()),
        }
    }

    /// The name of an action, or the head of a part.
    fn action_word(&mut self, token: Token<'_>) -> Result<(), AllocError> {
        if self.expects {
            self.expects = false;
            return self.owner(Sort::Action, range_of(token));
        }
        self.expects = token.text.eq_ignore_ascii_case(b":parameters");
        Ok(())
    }

    /// A name that may have variables.
    fn owner(&mut self, sort: Sort, name: Range) -> Result<(), AllocError> {
        self.owner = self.names.len();
        self.push(sort, name)?;
        self.end_group();
        Ok(())
    }

    fn push(&mut self, sort: Sort, name: Range) -> Result<(), AllocError> {
        self.names.push(Declared {
            sort,
            name,
            owner: self.owner,
            types: NOTHING,
        })?;
        Ok(())
    }
}

/// Gives this type to the names from the number `first` on.
fn give(names: &mut Vec<Declared>, first: usize, types: Range) {
    for declared in names.iter_mut().skip(first) {
        declared.types = types;
    }
}
