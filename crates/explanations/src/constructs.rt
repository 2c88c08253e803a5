//! The parts of PDDL that no dialect of this program reads, or not where they are, and how they are told from their words.

use crate::connectives::{Connective, connective_of};
use crate::literals::Place;
use crate::scene::Scene;

/// A part of PDDL that no dialect of this program reads, or only the dialect `adl`, and only among conditions or effects.
#[derive(Clone, Copy, PartialEq, Eq)]
pub(crate) enum Construct {
    Disjunction,
    Implication,
    UniversalQuantifier,
    ExistentialQuantifier,
    ConditionalEffect,
    TimedLiteral,
    TimedCondition,
    DurativeAction,
    /// The duration or the condition of a durative action.
    DurativePart,
    NumericCondition,
    NumericEffect,
    CalculatedNumber,
    Preference,
    Constraints,
    DerivedPredicate,
    Process,
    Event,
}

impl Construct {
    /// What it is called.
    pub(crate) fn name(self) -> &'static str {
        match self {
            Construct::Disjunction => "a disjunction",
            Construct::Implication => "an implication",
            Construct::UniversalQuantifier => "a universal quantifier",
            Construct::ExistentialQuantifier => "an existential quantifier",
            Construct::ConditionalEffect => "a conditional effect",
            Construct::TimedLiteral => "a timed initial literal",
            Construct::TimedCondition => "a condition of a durative action",
            Construct::DurativeAction => "a durative action",
            Construct::DurativePart => "a part of a durative action",
            Construct::NumericCondition => "a numeric condition",
            Construct::NumericEffect => "a numeric effect",
            Construct::CalculatedNumber => "a calculated number",
            Construct::Preference => "a preference",
            Construct::Constraints => "a section of trajectory constraints",
            Construct::DerivedPredicate => "a derived predicate",
            Construct::Process => "a process",
            Construct::Event => "an event",
        }
    }

    /// What to do about it.
    pub(crate) fn hint(self) -> &'static str {
        match self {
            Construct::Disjunction => "`or` may be in conditions only",
            Construct::Implication => "`imply` may be in conditions only",
            Construct::UniversalQuantifier =>
                "`forall` may be in conditions and around effects only",
            Construct::ExistentialQuantifier => "`exists` may be in conditions only",
            Construct::ConditionalEffect => "`when` may be in effects only",
            Construct::TimedLiteral => {
                "no dialect of this program reads timed initial literals: only plans without time can be judged"
            }
            Construct::TimedCondition | Construct::DurativeAction | Construct::DurativePart => {
                "no dialect of this program reads durative actions: only plans without time can be judged"
            }
            Construct::NumericCondition => {
                "no dialect of this program reads numeric conditions; of numbers, --dialect ipc reads action costs only"
            }
            Construct::NumericEffect => {
                "no dialect of this program reads numeric effects, except that --dialect ipc reads `(increase (total-cost) ..)`"
            }
            Construct::CalculatedNumber => {
                "no dialect of this program calculates: an amount is a number, or a function that has a value in `:init`"
            }
            Construct::Preference => "no dialect of this program reads preferences",
            Construct::Constraints => "no dialect of this program reads trajectory constraints",
            Construct::DerivedPredicate => "no dialect of this program reads derived predicates",
            Construct::Process | Construct::Event => {
                "no dialect of this program reads processes and events: only plans without time can be judged"
            }
        }
    }
}

/// A part of PDDL that is at a fault, and the word that it begins with.
#[derive(Clone, Copy)]
pub(crate) struct Seen<'a> {
    pub(crate) construct: Construct,
    pub(crate) word: &'a [u8],
}

/// The part of PDDL that is refused at the fault, if it is one of these.
pub(crate) fn construct_at<'a>(scene: &Scene<'a>) -> Option<Seen<'a>> {
    if scene.is_declaration() {
        return None;
    }
    let word = scene.faulty();
    if word == b"(".as_slice() {
        let head = scene.head();
        return begun_by(construct_of_list(scene, head)?, head);
    }
    if scene.is_timed_literal() {
        return begun_by(Construct::TimedLiteral, scene.head());
    }
    if is_target(scene) {
        return begun_by(Construct::NumericEffect, scene.outer_head());
    }
    begun_by(construct_of_word(scene, word)?, word)
}

/// A part of PDDL that begins with a word.
fn begun_by(construct: Construct, word: &[u8]) -> Option<Seen<'_>> {
    Some(Seen { construct, word })
}

/// Whether the fault is a function that may not be increased.
fn is_target(scene: &Scene<'_>) -> bool {
    scene.is_head() && scene.outer_head().eq_ignore_ascii_case(b"increase") && is_first(scene)
}

/// Whether the list around the fault is the first after the head of the list around it.
fn is_first(scene: &Scene<'_>) -> bool {
    match scene.list() {
        Some(open) => !scene.pieces.word(open.saturating_sub(1)).is_empty(),
        None => false,
    }
}

/// What a list that has a list as an argument is.
fn construct_of_list(scene: &Scene<'_>, head: &[u8]) -> Option<Construct> {
    if head.eq_ignore_ascii_case(b"preference") {
        return Some(Construct::Preference);
    }
    if is_numeric_effect(head) {
        return Some(Construct::NumericEffect);
    }
    if head.eq_ignore_ascii_case(b"increase") {
        let target = scene.pieces.word(scene.number.saturating_add(1));
        return if target.eq_ignore_ascii_case(b"total-cost") {
            None
        } else {
            Some(Construct::NumericEffect)
        };
    }
    if is_timed(head, scene.pieces.word(scene.number.saturating_sub(1))) {
        return Some(Construct::TimedCondition);
    }
    None
}

/// Whether a list with this head and then this word is a condition or an effect of a durative action.
fn is_timed(head: &[u8], next: &[u8]) -> bool {
    if head.eq_ignore_ascii_case(b"over") {
        return next.eq_ignore_ascii_case(b"all");
    }
    head.eq_ignore_ascii_case(b"at")
        && (next.eq_ignore_ascii_case(b"start") || next.eq_ignore_ascii_case(b"end"))
}

/// Whether a word changes a number in another way than to increase it.
fn is_numeric_effect(word: &[u8]) -> bool {
    is_one_of(word, &[b"decrease", b"assign", b"scale-up", b"scale-down"])
}

/// What a word begins.
fn construct_of_word(scene: &Scene<'_>, word: &[u8]) -> Option<Construct> {
    if word.first() == Some(&b':') {
        return construct_of_keyword(word);
    }
    if is_one_of(word, &[b"<", b">", b"<=", b">="]) {
        return Some(Construct::NumericCondition);
    }
    if word == b"=".as_slice() {
        return if scene.compares_numbers() {
            Some(Construct::NumericCondition)
        } else {
            None
        };
    }
    if is_one_of(word, &[b"+", b"-", b"*", b"/"]) && scene.is_head() {
        return Some(Construct::CalculatedNumber);
    }
    if is_numeric_effect(word) && scene.is_ipc() {
        return Some(Construct::NumericEffect);
    }
    construct_of_connective(word)
}

/// What a keyword begins.
fn construct_of_keyword(word: &[u8]) -> Option<Construct> {
    if word.eq_ignore_ascii_case(b":durative-action") {
        Some(Construct::DurativeAction)
    } else if is_one_of(word, &[b":duration", b":condition"]) {
        Some(Construct::DurativePart)
    } else if word.eq_ignore_ascii_case(b":derived") {
        Some(Construct::DerivedPredicate)
    } else if word.eq_ignore_ascii_case(b":constraints") {
        Some(Construct::Constraints)
    } else if word.eq_ignore_ascii_case(b":process") {
        Some(Construct::Process)
    } else if word.eq_ignore_ascii_case(b":event") {
        Some(Construct::Event)
    } else {
        None
    }
}

/// What a connective or a quantifier begins.
fn construct_of_connective(word: &[u8]) -> Option<Construct> {
    match connective_of(word)? {
        Connective::Or => Some(Construct::Disjunction),
        Connective::Imply => Some(Construct::Implication),
        Connective::ForAll => Some(Construct::UniversalQuantifier),
        Connective::Exists => Some(Construct::ExistentialQuantifier),
        Connective::When => Some(Construct::ConditionalEffect),
        Connective::Literal | Connective::Not => None,
    }
}

/// Whether the dialect `adl` reads what is refused, while the dialect at hand does not.
pub(crate) fn is_for_adl(scene: &Scene<'_>) -> bool {
    if scene.is_adl() || !scene.is_head() {
        return false;
    }
    let word = scene.faulty();
    let is_negated = scene.outer_head().eq_ignore_ascii_case(b"not");
    let connective = connective_of(word);
    match scene.place() {
        Place::Effect => {
            !is_negated && matches!(connective, Some(Connective::When | Connective::ForAll))
        }
        Place::Other => false,
        Place::Precondition | Place::Guard | Place::Goal => match connective {
            Some(connective) => connective != Connective::When,
            None => is_negated && is_one_of(word, &[b"and", b"not"]),
        },
    }
}

/// Whether a word is one of others, in upper or lower case.
pub(crate) fn is_one_of(word: &[u8], others: &[&[u8]]) -> bool {
    others.iter().any(|other| word.eq_ignore_ascii_case(other))
}
