//! What conditions and effects of the dialect `adl` look like.

use crate::constructs::is_one_of;
use crate::literals::Place;
use crate::quantifiers::{is_quantifier, variable_list, variable_list_at};
use crate::scene::Scene;

/// What a condition or an effect in which something is missing, or may not be, has to look like.
pub(crate) fn form_hint(scene: &Scene<'_>) -> &'static str {
    if is_type(scene) {
        return "a type is a name, or several as in `(either truck plane)`";
    }
    if variable_list(scene).is_some() {
        return "variables begin with `?`: `(?x ?y - block ?z)`";
    }
    let head = scene.head();
    let is_effect = scene.place() == Place::Effect;
    if is_quantifier(head) {
        return if is_effect {
            "a quantifier has variables in parentheses and one effect: `(forall (?x - TYPE) (p ?x))`"
        } else {
            "a quantifier has variables in parentheses and one condition: `(exists (?x - TYPE) (p ?x))`"
        };
    }
    if head.eq_ignore_ascii_case(b"when") {
        return "`when` has a condition and an effect: `(when (p ?x) (q ?x))`";
    }
    if is_effect {
        return "an effect is `(p ?x)`, `(not (p ?x))`, or a list with `and`, `when` or `forall`";
    }
    condition_hint(scene, head)
}

/// Whether the fault is where the type of a quantifier's variable is.
fn is_type(scene: &Scene<'_>) -> bool {
    let before = scene.pieces.word(scene.number.saturating_sub(1));
    match scene.list() {
        Some(open) => {
            variable_list_at(scene, open).is_some() && before == b"-".as_slice()
                || scene
                    .pieces
                    .list_around(open)
                    .is_some_and(|outer| variable_list_at(scene, outer).is_some())
        }
        None => false,
    }
}

/// What a condition with this head has to look like.
fn condition_hint(scene: &Scene<'_>, head: &[u8]) -> &'static str {
    if head.eq_ignore_ascii_case(b"imply") {
        return "`imply` has two conditions: `(imply (p ?x) (q ?x))`";
    }
    if head.eq_ignore_ascii_case(b"not") {
        return "`not` has one condition: `(not (p ?x))`";
    }
    if scene.depth() == 2 {
        return "a goal is one condition; `(and ..)` joins several";
    }
    let is_formula = scene.is_head() || is_one_of(head, &[b"and", b"or"]);
    if !is_formula && scene.place() == Place::Goal && scene.faulty().first() == Some(&b'?') {
        return "a variable of a goal is inside an `exists` or a `forall` that declares it";
    }
    if head == b"=".as_slice() {
        return "`=` has two terms: `(= ?x ?y)`";
    }
    if !is_formula && !head.is_empty() {
        return "arguments are names and variables";
    }
    "a condition is `(p ?x)`, `(= ?x ?y)`, or a list with `and`, `or`, `not`, `imply`, `exists` or `forall`"
}
