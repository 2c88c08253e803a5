//! Formulas on a page: as PDDL with long names cut, and as lists of JSON.

use crate::atoms::object_of;
use crate::page::{Page, object_name, predicate_name, type_name};
use std::alloc::AllocError;
use strips_task::{Formula, Name, Node, Pattern, Task, Term, VariableGroup};

/// A formula, with objects for the parameters of the action and for the variables that are bound around it.
#[derive(Clone, Copy)]
pub(crate) struct Instance<'f> {
    pub(crate) formula: &'f Formula,
    pub(crate) objects: &'f [u16],
    pub(crate) bound: &'f [u16],
}

impl<'f> Instance<'f> {
    /// A formula without parameters, which is inside no other.
    pub(crate) fn whole(formula: &'f Formula) -> Self {
        Instance {
            formula,
            objects: &[],
            bound: &[],
        }
    }
}

/// A page on which a formula of a task is written.
#[derive(Drop)]
struct Pen<'p, 'f> {
    page: &'p mut Page,
    task: &'f Task,
    is_json: bool,
    /// What is written for the parameters of the action, and for the variables that are bound around the formula.
    objects: &'f [u16],
    bound: &'f [u16],
    /// The names of the variables that are bound inside the formula, around what is written, outermost first.
    names: Vec<&'f Name>,
}

/// Adds a formula, as PDDL, or as a list of JSON on a page of records. Objects are written for its parameters and for the variables around it.
pub(crate) fn push_formula(page: &mut Page, task: &Task, instance: Instance<'_>) {
    let names = Vec::new(page.alloc());
    let is_json = page.is_json();
    let mut pen = Pen {
        page,
        task,
        is_json,
        objects: instance.objects,
        bound: instance.bound,
        names,
    };
    let written = put_formula(&mut pen, instance.formula);
    pen.page.note_memory(written);
}

/// Adds a formula or a part of one.
#[cycle(formulas)]
fn put_formula<'f>(pen: &mut Pen<'_, 'f>, formula: &'f Formula) -> Result<(), AllocError> {
    match formula.node() {
        Node::Atom(positive, pattern) => put_atom(pen, *positive, pattern),
        Node::Equal(positive, left, right) => put_equality(pen, *positive, *left, *right),
        Node::Not(body) => {
            open(pen, "not");
            put_part(pen, body)?;
            close(pen);
        }
        Node::And(parts) => put_parts(pen, "and", parts)?,
        Node::Or(parts) => put_parts(pen, "or", parts)?,
        Node::Imply(premise, conclusion) => {
            open(pen, "imply");
            put_part(pen, premise)?;
            put_part(pen, conclusion)?;
            close(pen);
        }
        Node::Exists(groups, body) => put_quantified(pen, "exists", groups.as_slice(), body)?,
        Node::ForAll(groups, body) => put_quantified(pen, "forall", groups.as_slice(), body)?,
    }
    Ok(())
}

/// Adds a part of a list after what is before it.
#[cycle(formulas)]
fn put_part<'f>(pen: &mut Pen<'_, 'f>, part: &'f Formula) -> Result<(), AllocError> {
    next(pen);
    put_formula(pen, part)
}

/// Adds a list of formulas after a word.
#[cycle(formulas)]
fn put_parts<'f>(
    pen: &mut Pen<'_, 'f>,
    head: &str,
    parts: &'f [Formula],
) -> Result<(), AllocError> {
    open(pen, head);
    for part in parts {
        next(pen);
        put_formula(pen, part)?;
    }
    close(pen);
    Ok(())
}

/// Adds a quantifier with its variables and its body.
#[cycle(formulas)]
fn put_quantified<'f>(
    pen: &mut Pen<'_, 'f>,
    head: &str,
    groups: &'f [VariableGroup],
    body: &'f Formula,
) -> Result<(), AllocError> {
    open(pen, head);
    next(pen);
    put_groups(pen, groups);
    let outside = pen.names.len();
    bind(pen, groups)?;
    put_part(pen, body)?;
    pen.names.truncate(outside);
    close(pen);
    Ok(())
}

/// Notes the names of variables that are bound from here on.
fn bind<'f>(pen: &mut Pen<'_, 'f>, groups: &'f [VariableGroup]) -> Result<(), AllocError> {
    for group in groups {
        bind_group(pen, group)?;
    }
    Ok(())
}

/// Notes the names of the variables of a group.
fn bind_group<'f>(pen: &mut Pen<'_, 'f>, group: &'f VariableGroup) -> Result<(), AllocError> {
    for name in group.names.as_slice() {
        pen.names.push(name)?;
    }
    Ok(())
}

/// Adds an atom, or its negation.
fn put_atom(pen: &mut Pen<'_, '_>, positive: bool, pattern: &Pattern) {
    sign(pen, positive);
    bracket(pen);
    name(pen, predicate_name(pen.task, pattern.pred));
    for term in pattern.terms.as_slice() {
        next(pen);
        put_term(pen, *term);
    }
    close(pen);
    unsign(pen, positive);
}

/// Adds an equality, or its negation.
fn put_equality(pen: &mut Pen<'_, '_>, positive: bool, left: Term, right: Term) {
    sign(pen, positive);
    open(pen, "=");
    next(pen);
    put_term(pen, left);
    next(pen);
    put_term(pen, right);
    close(pen);
    unsign(pen, positive);
}

/// Begins what is negated, if it is.
fn sign(pen: &mut Pen<'_, '_>, positive: bool) {
    if !positive {
        open(pen, "not");
        next(pen);
    }
}

/// Ends what is negated, if it is.
fn unsign(pen: &mut Pen<'_, '_>, positive: bool) {
    if !positive {
        close(pen);
    }
}

/// Adds a term: the name of an object, or of a variable that is bound inside the formula.
fn put_term(pen: &mut Pen<'_, '_>, term: Term) {
    if let Some(found) = inner_name(pen, term) {
        variable(pen, found.as_bytes());
        return;
    }
    let task = pen.task;
    let object = object_of(term, pen.objects, pen.bound);
    name(pen, object_name(task, object));
}

/// The name of the variable that a term is, if it is bound inside the formula.
fn inner_name<'f>(pen: &Pen<'_, 'f>, term: Term) -> Option<&'f Name> {
    let Term::Bound(level) = term else {
        return None;
    };
    let inner = usize::from(level).checked_sub(pen.bound.len())?;
    pen.names.as_slice().get(inner).copied()
}

/// Adds the variables of a quantifier in their groups, in parentheses of their own.
fn put_groups(pen: &mut Pen<'_, '_>, groups: &[VariableGroup]) {
    bracket(pen);
    for (index, group) in groups.iter().enumerate() {
        if index > 0 {
            next(pen);
        }
        put_names(pen, group);
        if index + 1 < groups.len() || !is_any(group.types.as_slice()) {
            put_types(pen, group.types.as_slice());
        }
    }
    close(pen);
}

/// Whether the types are that of every object alone.
fn is_any(types: &[u16]) -> bool {
    match types {
        [only] => *only == 0,
        _ => false,
    }
}

/// Adds the variables of a group.
fn put_names(pen: &mut Pen<'_, '_>, group: &VariableGroup) {
    for (index, found) in group.names.as_slice().iter().enumerate() {
        if index > 0 {
            next(pen);
        }
        variable(pen, found.as_bytes());
    }
}

/// Adds a dash and the types of a group.
fn put_types(pen: &mut Pen<'_, '_>, types: &[u16]) {
    next(pen);
    word(pen, "-");
    next(pen);
    if let [only] = types {
        name(pen, type_name(pen.task, *only));
        return;
    }
    open(pen, "either");
    for number in types {
        next(pen);
        name(pen, type_name(pen.task, *number));
    }
    close(pen);
}

/// Begins a list.
fn bracket(pen: &mut Pen<'_, '_>) {
    pen.page.say(if pen.is_json { "[" } else { "(" });
}

/// Begins a list with a word of this program.
fn open(pen: &mut Pen<'_, '_>, head: &str) {
    bracket(pen);
    word(pen, head);
}

/// Goes on to the next part of a list.
fn next(pen: &mut Pen<'_, '_>) {
    pen.page.say(if pen.is_json { "," } else { " " });
}

/// Ends a list.
fn close(pen: &mut Pen<'_, '_>) {
    pen.page.say(if pen.is_json { "]" } else { ")" });
}

/// Adds a word of this program.
fn word(pen: &mut Pen<'_, '_>, word: &str) {
    pen.page.say(if pen.is_json { "\"" } else { "" });
    pen.page.say(word);
    pen.page.say(if pen.is_json { "\"" } else { "" });
}

/// Adds a name of a text. In lines for people a long one is cut.
fn name(pen: &mut Pen<'_, '_>, bytes: &[u8]) {
    if pen.is_json {
        pen.page.name_string(bytes);
    } else {
        pen.page.word(bytes);
    }
}

/// Adds the name of a variable with its question mark.
fn variable(pen: &mut Pen<'_, '_>, bytes: &[u8]) {
    if pen.is_json {
        pen.page.say("\"?");
        pen.page.lower_case(bytes);
        pen.page.say("\"");
    } else {
        pen.page.say("?");
        pen.page.word(bytes);
    }
}
