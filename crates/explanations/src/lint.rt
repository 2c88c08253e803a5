//! Warnings about a domain and a problem that are read. They change no verdict.

use crate::SourceText;
use crate::literals::{Literal, Literals, Place};
use crate::names::Budget;
use crate::outline::{Outline, Sort};
use crate::page::Page;
use crate::positions::{Range, bytes_at, position_of, push_excerpt, push_place, push_position};
use crate::requirements::push_requirements;
use crate::support::{Support, action_named, is_added};
use crate::tokens::Pieces;
use std::alloc::{AllocError, Global};
use strips_task::{Action, Node, Task};

/// How many warnings are shown.
const MOST_WARNINGS: usize = 100;

/// A text that is read, with its pieces, its names and its literals.
pub(crate) struct ReadText<'a> {
    pub(crate) file: SourceText<'a>,
    pub(crate) pieces: Pieces<'a>,
    pub(crate) outline: Outline,
    pub(crate) literals: Literals,
}

impl Drop for ReadText<'_> {
    fn drop(self) {
        let Self {
            file: _,
            pieces: _,
            outline: _,
            literals: _,
        } = self;
    }
}

impl<'a> ReadText<'a> {
    fn new(alloc: Global, file: SourceText<'a>) -> Result<Self, AllocError> {
        let pieces = Pieces::new(alloc, file.bytes)?;
        let outline = Outline::new(alloc, file.bytes)?;
        let literals = Literals::new(alloc, &pieces, outline.as_slice())?;
        Ok(ReadText {
            file,
            pieces,
            outline,
            literals,
        })
    }

    /// The range of the list whose `(` has a number, up to its first `)`.
    pub(crate) fn list_range(&self, literal: &Literal) -> Range {
        let open = literal.open as usize;
        let start = self.range(open).start;
        let mut end = start;
        for piece in self.pieces.as_slice().iter().skip(open) {
            end = piece.range().end;
            if !piece.is_left() && !piece.is_word() {
                break;
            }
        }
        Range { start, end }
    }

    /// The range of a piece.
    pub(crate) fn range(&self, number: usize) -> Range {
        match self.pieces.get(number) {
            Some(piece) => piece.range(),
            None => Range { start: 0, end: 0 },
        }
    }

    /// The head of a literal's atom.
    pub(crate) fn head(&self, literal: &Literal) -> &'a [u8] {
        self.pieces.word((literal.open as usize).saturating_add(1))
    }

    /// The bytes of a range of the text.
    pub(crate) fn bytes(&self, range: Range) -> &'a [u8] {
        bytes_at(self.file.bytes, range)
    }
}

/// A warning about a range of a file.
struct Warning<'a> {
    file: SourceText<'a>,
    range: Range,
    message: Vec<u8>,
}

impl Drop for Warning<'_> {
    fn drop(self) {
        let Self {
            file: _,
            range: _,
            message: _,
        } = self;
    }
}

impl Warning<'_> {
    /// Adds the warning to a page.
    fn write(&self, page: &mut Page) {
        let position = position_of(self.file.bytes, self.range);
        if page.is_json() {
            page.say("{\"type\":\"warning\",\"file\":");
            page.string(self.file.name);
            push_place(page, position);
            page.say(",\"message\":");
            page.string(self.message.as_slice());
            page.say("}\n");
            return;
        }
        push_position(page, self.file.name, position);
        page.say("warning: ");
        page.words(self.message.as_slice());
        page.say("\n");
        push_excerpt(page, self.file.bytes, position)
    }
}

/// Warnings, as many as are shown, and how many more there are.
pub(crate) struct Warnings<'a> {
    list: Vec<Warning<'a>>,
    left_out: usize,
}

impl Drop for Warnings<'_> {
    fn drop(self) {
        let Self {
            list: _,
            left_out: _,
        } = self;
    }
}

impl<'a> Warnings<'a> {
    fn new(alloc: Global) -> Self {
        Warnings {
            list: Vec::new(alloc),
            left_out: 0,
        }
    }

    /// An empty page for the words of a warning.
    pub(crate) fn draft(&self) -> Page {
        Page::for_words(*self.list.allocator())
    }

    /// Adds a warning about a range of a file, unless there are many.
    pub(crate) fn push(
        &mut self,
        file: SourceText<'a>,
        range: Range,
        message: Page,
    ) -> Result<(), AllocError> {
        if self.list.len() >= MOST_WARNINGS {
            self.left_out = self.left_out.saturating_add(1);
            return Ok(());
        }
        self.list.push(Warning {
            file,
            range,
            message: message.into_text()?.into_bytes(),
        })?;
        Ok(())
    }

    /// Adds the warnings to a page.
    fn write(&self, page: &mut Page) {
        for warning in self.list.as_slice() {
            warning.write(page);
        }
        if self.left_out == 0 {
            return;
        }
        let mut remark = page.draft();
        remark.count(
            self.left_out,
            "more warning is not shown",
            "more warnings are not shown",
        );
        page.remark(remark)
    }
}

/// Adds warnings about a domain and a problem.
pub(crate) fn push_warnings<'a>(
    page: &mut Page,
    task: &Task,
    domain: SourceText<'a>,
    problem: SourceText<'a>,
) -> Result<(), AllocError> {
    let alloc = page.alloc();
    let domain = ReadText::new(alloc, domain)?;
    let problem = ReadText::new(alloc, problem)?;
    let support = Support::new(alloc, task, &domain)?;
    let mut warnings = Warnings::new(alloc);
    push_requirements(&mut warnings, &domain, &problem)?;
    push_unused(&mut warnings, &domain)?;
    push_literals(&mut warnings, task, &support, &domain)?;
    push_metric(&mut warnings, &problem)?;
    warnings.write(page);
    Ok(())
}

/// Adds warnings about parameters that are never used.
fn push_unused<'a>(warnings: &mut Warnings<'a>, domain: &ReadText<'a>) -> Result<(), AllocError> {
    let names = domain.outline.as_slice();
    for (name, used) in names.iter().zip(domain.literals.uses().iter()) {
        if name.sort != Sort::Variable || *used {
            continue;
        }
        let Some(owner) = names.get(name.owner) else {
            continue;
        };
        if owner.sort == Sort::Action {
            let mut message = warnings.draft();
            message.say("the parameter ");
            message.quoted(domain.bytes(name.name));
            message.say(" of ");
            message.quoted(domain.bytes(owner.name));
            message.say(" is never used");
            warnings.push(domain.file, name.name, message)?;
        }
    }
    Ok(())
}

/// The action whose literals a walk goes over.
#[derive(Clone, Copy)]
struct Passed<'t> {
    number: u32,
    action: Option<&'t Action>,
    /// Whether the action was found never to be applicable.
    is_dead: bool,
}

impl<'t> Passed<'t> {
    /// Before the literals of the action whose name has a number.
    fn before(task: &'t Task, domain: &ReadText<'_>, number: u32) -> Result<Self, AllocError> {
        Ok(Passed {
            number,
            action: action_named(task, domain, number as usize)?,
            is_dead: false,
        })
    }
}

/// Adds warnings about the preconditions and the effects of actions.
fn push_literals<'a>(
    warnings: &mut Warnings<'a>,
    task: &Task,
    support: &Support,
    domain: &ReadText<'a>,
) -> Result<(), AllocError> {
    let mut budget = Budget::new();
    let mut passed = Passed::before(task, domain, u32::MAX)?;
    for literal in domain.literals.as_slice() {
        if literal.action != passed.number {
            passed = Passed::before(task, domain, literal.action)?;
        }
        push_literal(warnings, domain, literal, &mut passed, support, &mut budget)?;
    }
    Ok(())
}

/// Adds a warning about a literal of an action, if there is something to warn of.
fn push_literal<'a>(
    warnings: &mut Warnings<'a>,
    domain: &ReadText<'a>,
    literal: &Literal,
    passed: &mut Passed<'_>,
    support: &Support,
    budget: &mut Budget,
) -> Result<(), AllocError> {
    let (Some(action), Some(index)) = (passed.action, literal.index) else {
        return Ok(());
    };
    match literal.place {
        Place::Precondition => {
            if !passed.is_dead && is_unsupported(action, index, support) {
                passed.is_dead = true;
                push_dead(warnings, domain, literal)?;
            }
        }
        _ => {
            if is_added(action, index, budget) {
                push_both(warnings, domain, literal)?;
            }
        }
    }
    Ok(())
}

/// Whether a condition of an action can never hold, since nothing makes its predicate true.
fn is_unsupported(action: &Action, index: usize, support: &Support) -> bool {
    match action.pre.as_slice().get(index) {
        Some(formula) => match formula.node() {
            Node::Atom(positive, pattern) => *positive && !support.has(pattern.pred),
            _ => false,
        },
        None => false,
    }
}

/// Adds that an action can never be applied, since a condition can never hold.
fn push_dead<'a>(
    warnings: &mut Warnings<'a>,
    domain: &ReadText<'a>,
    literal: &Literal,
) -> Result<(), AllocError> {
    let mut message = warnings.draft();
    if let Some(action) = domain.outline.as_slice().get(literal.action as usize) {
        message.quoted(domain.bytes(action.name));
        message.say(" can never be applied: ");
    }
    message.say("no initial atom has the predicate ");
    message.quoted(domain.head(literal));
    message.say(", and no effect adds one that has it");
    warnings.push(domain.file, domain.list_range(literal), message)
}

/// Adds that an effect both deletes and adds an atom.
fn push_both<'a>(
    warnings: &mut Warnings<'a>,
    domain: &ReadText<'a>,
    literal: &Literal,
) -> Result<(), AllocError> {
    let mut message = warnings.draft();
    message.say("this effect deletes and adds the same atom, which is true afterwards");
    warnings.push(domain.file, domain.list_range(literal), message)
}

/// Adds that the metric is ignored, unless it is that the total cost is minimized.
fn push_metric<'a>(warnings: &mut Warnings<'a>, problem: &ReadText<'a>) -> Result<(), AllocError> {
    let Some(head) = section_named(&problem.pieces, b":metric") else {
        return Ok(());
    };
    if is_total_cost(&problem.pieces, head) {
        return Ok(());
    }
    let mut message = warnings.draft();
    message.say(
        "this metric is ignored: of a valid plan, the number of steps is reported, and with --dialect ipc its `total-cost`",
    );
    warnings.push(problem.file, problem.range(head), message)
}

/// Whether a metric whose head has a number is `minimize (total-cost)`.
fn is_total_cost(pieces: &Pieces<'_>, head: usize) -> bool {
    pieces.is_word(head.saturating_add(1), b"minimize")
        && pieces.is_word(head.saturating_add(3), b"total-cost")
        && pieces.word(head.saturating_add(2)).is_empty()
        && pieces.word(head.saturating_add(4)).is_empty()
}

/// The number of the head of the first section with a name.
pub(crate) fn section_named(pieces: &Pieces<'_>, name: &[u8]) -> Option<usize> {
    let mut depth: usize = 0;
    for (number, piece) in pieces.as_slice().iter().enumerate() {
        if piece.is_left() {
            depth = depth.saturating_add(1);
            let head = number.saturating_add(1);
            if depth == 2 && pieces.is_word(head, name) {
                return Some(head);
            }
        } else if !piece.is_word() {
            depth = depth.saturating_sub(1);
        }
    }
    None
}
