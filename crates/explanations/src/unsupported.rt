//! What to do about a part of PDDL that is not read where it is.

use crate::connectives::connective_of;
use crate::constructs::{construct_at, is_for_adl, is_one_of};
use crate::faults::is_for_ipc;
use crate::hints::push_did_you_mean;
use crate::keywords::{home_of, nearest_keyword};
use crate::literals::Place;
use crate::page::Page;
use crate::scene::Scene;

/// What the dialect of the competitions has that the default language has not.
const FOR_IPC: &str =
    "--dialect ipc reads action costs, equality and a second parent `object` of a type";

/// What the dialect with all conditions and effects has that the others have not.
const FOR_ADL: &str =
    "--dialect adl reads `or`, `imply`, quantifiers and `not` before any condition, and conditional effects";

/// What to do about a `not` in an effect.
const NEGATED_EFFECT: &str = "in an effect, `not` may be before a single atom only: `(not (p ?x))`";

/// Adds what to do about a part of PDDL that is not read where it is.
pub(crate) fn push_unsupported(page: &mut Page, scene: &mut Scene<'_>) {
    if is_for_adl(scene) {
        page.help_line(FOR_ADL);
        return;
    }
    if let Some(seen) = construct_at(scene) {
        page.help_line(if is_negated_effect(scene) {
            NEGATED_EFFECT
        } else {
            seen.construct.hint()
        });
        return;
    }
    if is_for_ipc(scene) {
        page.help_line(FOR_IPC);
        return;
    }
    let near = nearest_keyword(page.alloc(), scene);
    match page.found(near) {
        Some(name) => push_did_you_mean(page, name),
        None => page.help_line(unsupported_hint(scene)),
    }
}

/// Whether the fault begins a quantifier, a connective or a conditional effect after the `not` of an effect.
fn is_negated_effect(scene: &Scene<'_>) -> bool {
    connective_of(scene.faulty()).is_some()
        && scene.place() == Place::Effect
        && scene.outer_head().eq_ignore_ascii_case(b"not")
}

/// What to do about a word that is not read where it is.
fn unsupported_hint(scene: &Scene<'_>) -> &'static str {
    let word = scene.faulty();
    if word == b"(".as_slice() {
        return "arguments are names and variables";
    }
    if let Some(home) = home_of(scene) {
        return home;
    }
    if word.eq_ignore_ascii_case(b"either") {
        return "`either` may be in the type of a variable only";
    }
    if scene.is_declaration() {
        return declaration_hint(scene);
    }
    if word.eq_ignore_ascii_case(b"and") && scene.is_in(b":init") {
        return "`:init` is a list of literals, without `and`";
    }
    if scene.is_adl() {
        return adl_hint(scene, word);
    }
    if is_one_of(word, &[b"not", b"and", b"increase"]) {
        return "`not` may be before a single atom only: `(not (p ?x))`";
    }
    if word == b"=".as_slice() {
        return "`=` may be between two terms of a precondition or a goal, and in `:init` before a function and its value";
    }
    "this program reads STRIPS with types and negated conditions"
}

/// What to do about a word that the dialect `adl` does not read where it is.
fn adl_hint(scene: &Scene<'_>, word: &[u8]) -> &'static str {
    if word.eq_ignore_ascii_case(b"increase") && scene.is_under(&[b"when", b"forall"]) {
        return "`increase` may not be under `when` or `forall`: what a step costs does not depend on the state";
    }
    if is_one_of(word, &[b"not", b"and", b"increase"]) {
        return NEGATED_EFFECT;
    }
    if word == b"=".as_slice() {
        return "`=` may be between two terms of a condition, and in `:init` before a function and its value";
    }
    "this program reads STRIPS and ADL with types, without numbers and time"
}

/// What to do about a word in a declaration of predicates or functions that may not be there.
fn declaration_hint(scene: &Scene<'_>) -> &'static str {
    if !scene.is_head() {
        return "no dialect of this program reads functions whose values are objects: the type of a function is `number`";
    }
    if scene.faulty() == b"=".as_slice() {
        return "`=` needs no declaration: remove it";
    }
    "this word has a meaning of its own, so it can name no predicate and no function"
}
