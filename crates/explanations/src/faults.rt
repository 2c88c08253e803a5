//! What is wrong with a domain or a problem, and where.

use crate::constructs::{Construct, Seen, construct_at};
use crate::hints::push_hints;
use crate::outline::Sort;
use crate::page::Page;
use crate::positions::{Range, position_of, push_excerpt, push_position};
use crate::quantifiers::{variable_list, variables_before};
use crate::scene::Scene;
use pddl_reader::FaultKind;

/// Adds why a text is refused: the position, what is wrong there, the line, and hints.
pub(crate) fn push_refusal(page: &mut Page, scene: &mut Scene<'_>) {
    let bytes = scene.bytes();
    let position = position_of(bytes, shown_range(scene));
    push_position(page, scene.refusal.file.name, position);
    push_message(page, scene);
    page.say("\n");
    push_excerpt(page, bytes, position);
    push_hints(page, scene)
}

/// The range that is shown: that of the fault, or of the `(` that is never closed.
pub(crate) fn shown_range(scene: &Scene<'_>) -> Range {
    let range = scene.range();
    if scene.kind() != FaultKind::Unbalanced || range.start < range.end {
        return range;
    }
    let Some(open) = scene.open_list() else {
        return range;
    };
    match scene.pieces.get(open) {
        Some(piece) => piece.range(),
        None => range,
    }
}

/// Adds what is wrong.
pub(crate) fn push_message(page: &mut Page, scene: &mut Scene<'_>) {
    match scene.kind() {
        FaultKind::BadText => push_bad_text(page, scene),
        FaultKind::Unbalanced => push_unbalanced(page, scene),
        FaultKind::Expected => push_expected(page, scene),
        FaultKind::Unsupported => push_unsupported(page, scene),
        FaultKind::UnknownName => push_unknown(page, scene),
        FaultKind::Repeated => push_repeated(page, scene),
        FaultKind::TypeCycle => push_type_cycle(page, scene),
        FaultKind::WrongCount => push_wrong_count(page, scene),
        FaultKind::WrongType => push_wrong_type(page, scene),
        FaultKind::TooDeep => page.say("too deep: this list is inside 64 others"),
        FaultKind::TooMany => push_too_many(page, scene),
        FaultKind::OutOfMemory => page.say("out of memory"),
    }
}

fn push_bad_text(page: &mut Page, scene: &Scene<'_>) {
    match scene.faulty().first() {
        Some(byte) => {
            page.say("bad byte: the byte ");
            page.hex(*byte);
            page.say(" (hex) may be in comments only");
        }
        None => page.say("bad text: the file is too large"),
    }
}

fn push_unbalanced(page: &mut Page, scene: &Scene<'_>) {
    if scene.faulty().is_empty() {
        page.say("unbalanced: this `(` is never closed");
    } else {
        page.say("unbalanced: this `)` closes no list");
    }
}

fn push_expected(page: &mut Page, scene: &Scene<'_>) {
    if scene.is_swapped() {
        page.say(if scene.refusal.is_problem {
            "unexpected: this is a domain, not a problem"
        } else {
            "unexpected: this is a problem, not a domain"
        });
        return;
    }
    if scene.is_timed_literal() {
        page.say("unexpected: `(at TIME ..)` is ");
        page.say(Construct::TimedLiteral.name());
        return;
    }
    let faulty = scene.faulty();
    match faulty.first() {
        None => page.say("unexpected: the file has no definition"),
        Some(b')') => push_missing(page, scene),
        Some(b'(') => page.say("unexpected: a list may not be here"),
        Some(_) => {
            page.say("unexpected: ");
            page.quoted(faulty);
            page.say(" may not be here");
        }
    }
}

/// Adds that something is missing before a `)`.
fn push_missing(page: &mut Page, scene: &Scene<'_>) {
    if scene.depth() == 1 && scene.refusal.is_problem && scene.pieces.is_word(3, b"problem") {
        if !scene.has_list(b":domain") {
            page.say("unexpected: the problem ends without `(:domain ..)`");
            return;
        }
        if !scene.has_list(b":goal") {
            page.say("unexpected: the problem ends without `(:goal ..)`");
            return;
        }
    }
    page.say("unexpected: something is missing before this `)`");
}

fn push_unsupported(page: &mut Page, scene: &Scene<'_>) {
    page.say("unsupported: ");
    if let Some(seen) = construct_at(scene) {
        push_construct(page, seen);
        return;
    }
    if is_for_ipc(scene) {
        page.quoted(scene.refused_word());
        page.say(" is not part of the default language");
        return;
    }
    if scene.faulty() == b"(".as_slice() {
        page.say("a list may not be an argument");
        return;
    }
    page.quoted(scene.faulty());
    page.say(" is not supported here");
}

/// Adds which part of PDDL is refused.
fn push_construct(page: &mut Page, seen: Seen<'_>) {
    match seen.construct {
        Construct::DurativePart => page.quoted(seen.word),
        Construct::TimedLiteral => page.say("`(at TIME ..)`"),
        _ => {
            page.say("`(");
            page.word(seen.word);
            page.say(" ..)`");
        }
    }
    page.say(" is ");
    page.say(seen.construct.name());
}

/// Whether the dialect of the competitions reads what is refused, and the dialect at hand does not.
pub(crate) fn is_for_ipc(scene: &Scene<'_>) -> bool {
    if scene.is_ipc() {
        return false;
    }
    let word = scene.refused_word();
    if word == b"=".as_slice() {
        return scene.is_ipc_equality();
    }
    if word.eq_ignore_ascii_case(b":functions") {
        return !scene.refusal.is_problem;
    }
    word.eq_ignore_ascii_case(b"increase")
}

/// What names of a sort are called.
pub(crate) fn sort_name(sort: Sort) -> &'static str {
    match sort {
        Sort::Type => "type",
        Sort::Object => "object",
        Sort::Predicate => "predicate",
        Sort::Function => "function",
        Sort::Action => "action",
        Sort::Variable => "parameter",
    }
}

fn push_unknown(page: &mut Page, scene: &Scene<'_>) {
    page.say("unknown name: no ");
    page.say(match scene.wanted_sort() {
        Sort::Variable if scene.is_adl() => "variable",
        sort => sort_name(sort),
    });
    page.say(" is called ");
    page.quoted(scene.faulty());
}

fn push_repeated(page: &mut Page, scene: &Scene<'_>) {
    page.say("repeated: ");
    page.quoted(scene.faulty());
    match scene.faulty().first() {
        Some(b':') => page.say(" is here a second time"),
        Some(b'0'..=b'9') => page.say(" is another value for the same function"),
        _ => page.say(" is declared already"),
    }
}

fn push_type_cycle(page: &mut Page, scene: &Scene<'_>) {
    page.say("type cycle: the type ");
    page.quoted(scene.faulty());
    if scene.is_faulty(b"object") {
        page.say(" may not be below another type");
    } else {
        page.say(" is below itself");
    }
}

fn push_wrong_count(page: &mut Page, scene: &mut Scene<'_>) {
    page.say("wrong count: ");
    page.quoted(scene.faulty());
    let sort = scene.wanted_sort();
    let word = scene.faulty();
    if let Some(found) = scene.library.find(sort, word) {
        page.say(" takes ");
        let wanted = scene.library.variable_count(&found);
        page.count(wanted, "argument", "arguments");
        page.say(", not ");
        page.number(scene.terms_in_list());
        return;
    }
    page.say(" has the wrong number of arguments");
}

fn push_wrong_type(page: &mut Page, scene: &Scene<'_>) {
    page.say("wrong type: ");
    page.quoted(scene.faulty());
    page.say(" may not be argument ");
    page.number(scene.index_in_list());
    page.say(" of ");
    page.quoted(scene.head());
}

/// Whether too many choices of objects for the variables of quantifiers are refused.
pub(crate) fn passes_bindings(scene: &Scene<'_>) -> bool {
    match variable_list(scene) {
        Some(open) => {
            let before = variables_before(&scene.pieces, open, scene.number);
            scene.is_adl() && scene.faulty().first() == Some(&b'?') && before < 32
        }
        None => false,
    }
}

fn push_too_many(page: &mut Page, scene: &Scene<'_>) {
    page.say("too many: ");
    if passes_bindings(scene) {
        page.say("with ");
        page.quoted(scene.faulty());
        page.say(if scene.refusal.is_problem {
            ", the quantifiers of the goal have more than 16,777,216 choices of objects"
        } else {
            ", the quantifiers of this action have more than 16,777,216 choices of objects"
        });
        return;
    }
    page.quoted(scene.faulty());
    page.say(" is one ");
    page.say(excess(scene).0);
    page.say(" too many");
}

/// What there is too much of at the fault, and how many are allowed.
pub(crate) fn excess(scene: &Scene<'_>) -> (&'static str, usize) {
    let section = scene.section();
    if scene.wanted_sort() == Sort::Variable {
        return ("variable", 32);
    }
    if scene.is_faulty(b"increase") {
        return ("increase", 32);
    }
    if section.eq_ignore_ascii_case(b":types") {
        return ("type", 1024);
    }
    if scene.wanted_sort() == Sort::Type {
        return ("type of a variable", 32);
    }
    if section.eq_ignore_ascii_case(b":predicates") {
        return ("predicate", 4096);
    }
    if section.eq_ignore_ascii_case(b":functions") {
        return ("function", 4096);
    }
    if section.eq_ignore_ascii_case(b":action") {
        return ("action", 4096);
    }
    ("object", 65535)
}
