//! The keyword that may be meant by a misspelt one.

use crate::constructs::construct_at;
use crate::scene::Scene;
use std::alloc::{AllocError, Global};

/// The sections of a domain.
const DOMAIN_SECTIONS: [&str; 6] = [
    ":requirements",
    ":types",
    ":constants",
    ":predicates",
    ":functions",
    ":action",
];

/// The sections of a problem.
const PROBLEM_SECTIONS: [&str; 7] = [
    ":domain",
    ":requirements",
    ":objects",
    ":init",
    ":goal",
    ":metric",
    ":length",
];

/// The parts of an action.
const ACTION_PARTS: [&str; 3] = [":parameters", ":precondition", ":effect"];

/// The flags of requirements (PDDL 3.1).
const REQUIREMENTS: [&str; 19] = [
    ":strips",
    ":typing",
    ":negative-preconditions",
    ":disjunctive-preconditions",
    ":equality",
    ":existential-preconditions",
    ":universal-preconditions",
    ":quantified-preconditions",
    ":conditional-effects",
    ":fluents",
    ":numeric-fluents",
    ":adl",
    ":durative-actions",
    ":duration-inequalities",
    ":derived-predicates",
    ":timed-initial-literals",
    ":preferences",
    ":constraints",
    ":action-costs",
];

/// What may be where a keyword is.
#[derive(Clone, Copy, PartialEq, Eq)]
enum Place {
    /// The first word of the text.
    Definition,
    /// The first word of the second list.
    Kind,
    /// The first word of a section.
    Section,
    /// Where a part of an action begins.
    Part,
    /// A flag of the requirements.
    Requirement,
    /// Where no keyword may be.
    Other,
}

/// What may be where the fault is.
fn place_of(scene: &Scene<'_>) -> Place {
    if scene.number == 1 && scene.is_head() {
        return Place::Definition;
    }
    if scene.depth() != 2 {
        return Place::Other;
    }
    if scene.is_head() {
        return if scene.number == 3 {
            Place::Kind
        } else {
            Place::Section
        };
    }
    let section = scene.section();
    if section.eq_ignore_ascii_case(b":action") && scene.index_in_list() > 1 {
        return Place::Part;
    }
    if section.eq_ignore_ascii_case(b":requirements") {
        return Place::Requirement;
    }
    Place::Other
}

/// The words that may be where the fault is.
fn words_at<'a>(scene: &Scene<'a>) -> &'a [&'a str] {
    match (place_of(scene), scene.refusal.is_problem) {
        (Place::Definition, _) => &["define"],
        (Place::Kind, false) => &["domain"],
        (Place::Kind, true) => &["problem"],
        (Place::Section, false) => &DOMAIN_SECTIONS,
        (Place::Section, true) => &PROBLEM_SECTIONS,
        (Place::Part, _) => &ACTION_PARTS,
        (Place::Requirement, _) => &REQUIREMENTS,
        (Place::Other, _) => &[],
    }
}

/// The keyword that is nearest to the faulty word among those that may be where it is, if one is near. A word of PDDL that has a meaning elsewhere is not
/// taken for a misspelt one.
pub(crate) fn nearest_keyword<'a>(
    alloc: Global,
    scene: &mut Scene<'a>,
) -> Result<Option<&'a [u8]>, AllocError> {
    let word = scene.faulty();
    if is_keyword(word) || construct_at(scene).is_some() {
        return Ok(None);
    }
    let words = words_at(scene);
    scene.library.nearest_of(alloc, words, word)
}

/// Whether a word is a section of a domain or a problem, or a part of an action.
fn is_keyword(word: &[u8]) -> bool {
    is_among(&DOMAIN_SECTIONS, word) || is_among(&PROBLEM_SECTIONS, word) || is_part(word)
}

/// Whether a word is one of others, in upper or lower case.
fn is_among(others: &[&str], word: &[u8]) -> bool {
    others
        .iter()
        .any(|other| other.as_bytes().eq_ignore_ascii_case(word))
}

/// What to do about a part of an action that is outside of it.
pub(crate) const PART_HINT: &str =
    "this is a part of an action: a `)` before it may be one too many";

/// Whether a word heads a part of an action.
pub(crate) fn is_part(word: &[u8]) -> bool {
    is_among(&ACTION_PARTS, word)
}

/// Where a keyword belongs that may not be where the fault is, if the faulty word is one.
pub(crate) fn home_of(scene: &Scene<'_>) -> Option<&'static str> {
    let word = scene.faulty();
    if is_part(word) {
        return Some(PART_HINT);
    }
    if is_among(&DOMAIN_SECTIONS, word) {
        return Some("this is a section of a domain");
    }
    if is_among(&PROBLEM_SECTIONS, word) {
        return Some("this is a section of a problem");
    }
    None
}
