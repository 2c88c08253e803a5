//! Requirements that a domain or a problem uses and that neither lists.

use crate::SourceText;
use crate::connectives::Connective;
use crate::constructs::is_one_of;
use crate::lint::{ReadText, Warnings, section_named};
use crate::literals::Compound;
use crate::outline::{Declared, Sort};
use crate::positions::Range;
use std::alloc::AllocError;

/// A requirement that texts may use without listing it.
#[derive(Clone, Copy, PartialEq, Eq)]
enum Requirement {
    Typing,
    NegativePreconditions,
    DisjunctivePreconditions,
    Equality,
    ExistentialPreconditions,
    UniversalPreconditions,
    ConditionalEffects,
    ActionCosts,
}

/// The requirements that are looked for.
const REQUIREMENTS: [Requirement; 8] = [
    Requirement::Typing,
    Requirement::NegativePreconditions,
    Requirement::DisjunctivePreconditions,
    Requirement::Equality,
    Requirement::ExistentialPreconditions,
    Requirement::UniversalPreconditions,
    Requirement::ConditionalEffects,
    Requirement::ActionCosts,
];

impl Requirement {
    /// The flag that lists it.
    fn flag(self) -> &'static str {
        match self {
            Requirement::Typing => ":typing",
            Requirement::NegativePreconditions => ":negative-preconditions",
            Requirement::DisjunctivePreconditions => ":disjunctive-preconditions",
            Requirement::Equality => ":equality",
            Requirement::ExistentialPreconditions => ":existential-preconditions",
            Requirement::UniversalPreconditions => ":universal-preconditions",
            Requirement::ConditionalEffects => ":conditional-effects",
            Requirement::ActionCosts => ":action-costs",
        }
    }

    /// Whether a flag lists it, alone or with others (PDDL 3.1).
    fn is_in_flag(self, word: &[u8]) -> bool {
        if word.eq_ignore_ascii_case(self.flag().as_bytes()) {
            return true;
        }
        match self {
            Requirement::ActionCosts => is_one_of(word, &[b":fluents", b":numeric-fluents"]),
            Requirement::ExistentialPreconditions | Requirement::UniversalPreconditions => {
                is_one_of(word, &[b":quantified-preconditions", b":adl"])
            }
            _ => word.eq_ignore_ascii_case(b":adl"),
        }
    }

    /// Whether a text lists it.
    fn is_listed(self, text: &ReadText<'_>) -> bool {
        let Some(head) = section_named(&text.pieces, b":requirements") else {
            return false;
        };
        let flags = text.pieces.as_slice().iter().skip(head);
        for piece in flags {
            if !piece.is_word() {
                return false;
            }
            if self.is_in_flag(text.bytes(piece.range())) {
                return true;
            }
        }
        false
    }

    /// Where a text first uses it.
    fn first_use(self, text: &ReadText<'_>) -> Option<Range> {
        match self {
            Requirement::Typing => first_type(text.outline.as_slice()),
            Requirement::NegativePreconditions => first_negation(text),
            Requirement::Equality => first_equality(text),
            Requirement::DisjunctivePreconditions
            | Requirement::ExistentialPreconditions
            | Requirement::UniversalPreconditions
            | Requirement::ConditionalEffects => self.first_compound(text),
            Requirement::ActionCosts => {
                Some(text.range(section_named(&text.pieces, b":functions")?))
            }
        }
    }
}

impl Requirement {
    /// Where a text first has a list that needs it.
    fn first_compound(self, text: &ReadText<'_>) -> Option<Range> {
        for compound in text.literals.compounds() {
            if need_of(compound) == self {
                return Some(text.range(compound.head as usize));
            }
        }
        None
    }
}

/// The requirement that a list needs (PDDL 2.1, Fox and Long 2003, appendix A).
fn need_of(compound: &Compound) -> Requirement {
    if !compound.place.is_condition() {
        return Requirement::ConditionalEffects;
    }
    match compound.connective {
        Connective::Exists => Requirement::ExistentialPreconditions,
        Connective::ForAll => Requirement::UniversalPreconditions,
        _ => Requirement::DisjunctivePreconditions,
    }
}

/// Adds warnings about requirements that are used and not listed.
pub(crate) fn push_requirements<'a>(
    warnings: &mut Warnings<'a>,
    domain: &ReadText<'a>,
    problem: &ReadText<'a>,
) -> Result<(), AllocError> {
    for requirement in REQUIREMENTS {
        if requirement.is_listed(domain) || requirement.is_listed(problem) {
            continue;
        }
        if let Some(range) = requirement.first_use(domain) {
            push_missing(warnings, requirement, domain.file, range)?;
        } else if let Some(range) = requirement.first_use(problem) {
            push_missing(warnings, requirement, problem.file, range)?;
        }
    }
    Ok(())
}

/// Adds that a requirement is used at a range of a file.
fn push_missing<'a>(
    warnings: &mut Warnings<'a>,
    requirement: Requirement,
    file: SourceText<'a>,
    range: Range,
) -> Result<(), AllocError> {
    let mut message = warnings.draft();
    message.say("`");
    message.say(requirement.flag());
    message.say("` is used here, but is not in `:requirements`");
    warnings.push(file, range, message)
}

/// The first type among names: one that is declared, or that of a name.
fn first_type(names: &[Declared]) -> Option<Range> {
    for name in names {
        if name.sort == Sort::Type {
            return Some(name.name);
        }
        if name.types.start < name.types.end {
            return Some(name.types);
        }
    }
    None
}

/// The first negated condition.
fn first_negation(text: &ReadText<'_>) -> Option<Range> {
    for literal in text.literals.as_slice() {
        if literal.place.is_condition() && !literal.positive {
            return Some(text.list_range(literal));
        }
    }
    None
}

/// The first equality among the conditions.
fn first_equality(text: &ReadText<'_>) -> Option<Range> {
    for literal in text.literals.as_slice() {
        if literal.place.is_condition() && text.head(literal) == b"=".as_slice() {
            return Some(text.list_range(literal));
        }
    }
    None
}
