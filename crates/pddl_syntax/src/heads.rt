//! What the first word of a list says about the list.

ghost use Rattle.std.specs.Prelude.{◌≡◌, true, false};
ghost use Rattle.pddl_words.specs.Words.{is_name};
ghost use Rattle.pddl_syntax.specs.Keywords.{is_change, is_connective, is_quantifier, is_comparison, is_other_reserved};
ghost use Rattle.pddl_syntax.specs.Levels.{here};
ghost use Rattle.pddl_syntax.specs.Rows.{atom_spelled, heads_atom};
ghost use Rattle.pddl_syntax.specs.Trees.{begins_with_list};
ghost use Rattle.pddl_syntax.specs.Heads.{is_dash, is_either, is_keyword, is_term, is_variable, and_head, change_head, connective_head, effect_connective, equals_head, formula_connective, has_changes, has_connectives, has_functions, formula_head, list_head, name_head, reserved_head, domain_section, action_part, problem_section};

use crate::dialect::Dialect;
use crate::walk::Walk;
use pddl_tokens::{WordKind, same_folded, word_kind};
use pddl_words::first_word_len;

/// What a word heads where a formula, an effect, an initial atom, a function or the declaration of a predicate or a function is due.
#[derive(Clone, Copy)]
pub(crate) enum FormulaHead {
    And,
    Not,
    /// Another word that names no predicate.
    Reserved,
    Name,
    Other,
}

/// What a word heads where a formula, an effect or an initial atom is due, by the place and the dialect.
#[derive(Clone, Copy)]
pub(crate) enum ListHead {
    /// An atom: the word names its predicate.
    Atom,
    Not,
    And,
    Or,
    Imply,
    Exists,
    ForAll,
    /// `when` before a condition and an effect.
    When,
    /// `=` before two terms.
    Equality,
    /// `=` before a function and its value.
    Value,
    /// `increase` before the function that is raised.
    Increase,
    /// A word that names no predicate, and heads nothing that may appear here.
    Reserved,
    /// A word that is no name.
    Other,
}

/// Where a list is.
#[derive(Clone, Copy)]
pub(crate) enum Context {
    /// In a precondition, in the condition of an effect, or inside a quantifier of the goal: in formulas whose terms may be variables.
    Condition,
    /// In the goal, outside every quantifier.
    Goal,
    /// In an effect, but under neither `when` nor `forall`.
    Effect,
    /// In an effect under `when` or `forall`.
    InnerEffect,
    /// Among the initial atoms.
    Initial,
}

/// Where a list is, and in a text of which dialect.
#[derive(Clone, Copy)]
pub(crate) struct Scope {
    pub(crate) dialect: Dialect,
    pub(crate) context: Context,
}

/// The sections of a domain.
#[derive(Clone, Copy)]
pub(crate) enum DomainSection {
    Requirements,
    Types,
    Constants,
    Predicates,
    Functions,
    Action,
}

/// The parts of an action.
#[derive(Clone, Copy)]
pub(crate) enum ActionPart {
    Parameters,
    Precondition,
    Effect,
}

/// The sections of a problem.
#[derive(Clone, Copy)]
pub(crate) enum ProblemSection {
    Domain,
    Requirements,
    Objects,
    Init,
    Goal,
    Metric,
    Length,
}

/// Whether the word is the dash before a type.
#[tactic(auto, unfolding(crate::specs::Heads::is_dash))]
pub(crate) fn is_dash(word: &[u8]) -> bool
    ensures { result ≡ is_dash word.now }
{
    same_folded(word, b"-")
}

/// Whether the word heads a choice of types.
#[tactic(auto, unfolding(crate::specs::Heads::is_either))]
pub(crate) fn is_either(word: &[u8]) -> bool
    ensures { result ≡ is_either word.now }
{
    same_folded(word, b"either")
}

/// Whether the word is a keyword: `:` and a name.
#[tactic(auto, unfolding(crate::specs::Heads::is_keyword))]
pub(crate) fn is_keyword(word: &[u8]) -> bool
    ensures { result ≡ is_keyword word.now }
{
    match word_kind(word) {
        WordKind::Keyword => true,
        WordKind::Name => false,
        WordKind::Variable => false,
        WordKind::Dash => false,
        WordKind::Other => false,
    }
}

/// Whether the word is a variable: `?` and a name.
#[tactic(auto, unfolding(crate::specs::Heads::is_variable))]
pub fn is_variable(word: &[u8]) -> bool
    ensures { result ≡ is_variable word.now }
{
    match word_kind(word) {
        WordKind::Variable => true,
        WordKind::Name => false,
        WordKind::Keyword => false,
        WordKind::Dash => false,
        WordKind::Other => false,
    }
}

/// Whether the word may be a term. Variables may be terms only in actions and inside quantifiers.
#[tactic(auto, unfolding(crate::specs::Heads::is_term))]
pub(crate) fn is_term(context: Context, word: &[u8]) -> bool
    ensures { result ≡ is_term context word.now }
{
    match context {
        Context::Condition => is_name(word) || is_variable(word),
        Context::Goal => is_name(word),
        Context::Effect => is_name(word) || is_variable(word),
        Context::InnerEffect => is_name(word) || is_variable(word),
        Context::Initial => is_name(word),
    }
}

/// Whether a word is as long as the reserved words that begin with its first letter. Most names are not, and so need no comparison with any.
#[inline(always)]
fn looks_reserved(word: &[u8]) -> bool
    ensures { result ≡ false → is_name word.now ≡ true → formula_head word.now ≡ FormulaHead.Name }
{
    let Some(first) = word.first() else {
        return false;
    };
    // The letter in lower case.
    let reserved_len = match *first | 0x20 {
        b'a' => 3,
        b'e' => 6,
        b'f' => 6,
        b'i' => 5,
        b'n' => 3,
        b'o' => 2,
        b'w' => 4,
        _ => 0,
    };
    word.len() == reserved_len
}

/// What the word heads.
#[tactic(auto, unfolding(crate::specs::Heads::formula_head))]
pub(crate) fn formula_head(word: &[u8]) -> FormulaHead
    ensures { result ≡ formula_head word.now }
{
    if !looks_reserved(word) && is_name(word) {
        return FormulaHead::Name;
    }
    if same_folded(word, b"and") {
        FormulaHead::And
    } else if same_folded(word, b"not") {
        FormulaHead::Not
    } else if is_other_reserved(word) {
        FormulaHead::Reserved
    } else if is_name(word) {
        FormulaHead::Name
    } else {
        FormulaHead::Other
    }
}

/// Whether texts of the dialect have functions, what raises them, and equality.
fn has_functions(dialect: Dialect) -> bool
    ensures { result ≡ has_functions dialect }
{
    match dialect {
        Dialect::Strips => false,
        Dialect::Ipc => true,
        Dialect::Adl => true,
    }
}

/// Whether texts of the dialect have more than literals and `and`.
pub(crate) fn has_connectives(dialect: Dialect) -> bool
    ensures { result ≡ has_connectives dialect }
{
    match dialect {
        Dialect::Strips => false,
        Dialect::Ipc => false,
        Dialect::Adl => true,
    }
}

/// What `and` heads.
fn and_head(context: Context) -> ListHead
    ensures { result ≡ and_head context }
{
    match context {
        Context::Condition => ListHead::And,
        Context::Goal => ListHead::And,
        Context::Effect => ListHead::And,
        Context::InnerEffect => ListHead::And,
        Context::Initial => ListHead::Reserved,
    }
}

/// What `=` heads where there are functions. The walk is right after it.
fn equals_head(context: Context, walk: &Walk<'_>) -> ListHead
    ensures { result ≡ equals_head context (begins_with_list (here walk.now.cursor).top) }
{
    match context {
        Context::Condition => ListHead::Equality,
        Context::Goal => ListHead::Equality,
        Context::Effect => ListHead::Reserved,
        Context::InnerEffect => ListHead::Reserved,
        Context::Initial => {
            if walk.begins_with_list() {
                ListHead::Value
            } else {
                ListHead::Reserved
            }
        }
    }
}

/// Whether numbers are changed here.
fn has_changes(context: Context) -> bool
    ensures { result ≡ has_changes context }
{
    match context {
        Context::Condition => false,
        Context::Goal => false,
        Context::Effect => true,
        Context::InnerEffect => true,
        Context::Initial => false,
    }
}

/// Whether the word changes a number, if it is no predicate.
#[tactic(auto, unfolding(crate::specs::Keywords::is_change))]
fn is_change(word: &[u8]) -> bool
    ensures { result ≡ is_change word.now }
{
    same_folded(word, b"increase")
        || same_folded(word, b"decrease")
        || same_folded(word, b"assign")
        || same_folded(word, b"scale-up")
        || same_folded(word, b"scale-down")
}

/// What a word that changes a number heads.
fn change_head(context: Context, word: &[u8]) -> ListHead
    ensures { result ≡ change_head context word.now }
{
    match context {
        Context::Condition => ListHead::Reserved,
        Context::Goal => ListHead::Reserved,
        Context::Effect => {
            if same_folded(word, b"increase") {
                ListHead::Increase
            } else {
                ListHead::Reserved
            }
        }
        Context::InnerEffect => ListHead::Reserved,
        Context::Initial => ListHead::Reserved,
    }
}

/// What a name heads. The walk is right after it.
fn name_head(scope: Scope, word: &[u8], walk: &Walk<'_>) -> ListHead
    ensures { result ≡ name_head scope word.now (begins_with_list (here walk.now.cursor).top) }
{
    if !has_functions(scope.dialect) || !has_changes(scope.context) {
        return ListHead::Atom;
    }
    if !is_change(word) || !walk.begins_with_list() {
        return ListHead::Atom;
    }
    change_head(scope.context, word)
}

/// What a word that joins formulas or binds variables heads in a formula.
fn formula_connective(word: &[u8]) -> ListHead
    ensures { result ≡ formula_connective word.now }
{
    if same_folded(word, b"or") {
        ListHead::Or
    } else if same_folded(word, b"imply") {
        ListHead::Imply
    } else if same_folded(word, b"exists") {
        ListHead::Exists
    } else if same_folded(word, b"forall") {
        ListHead::ForAll
    } else {
        ListHead::Reserved
    }
}

/// What such a word heads in an effect.
fn effect_connective(word: &[u8]) -> ListHead
    ensures { result ≡ effect_connective word.now }
{
    if same_folded(word, b"when") {
        ListHead::When
    } else if same_folded(word, b"forall") {
        ListHead::ForAll
    } else {
        ListHead::Reserved
    }
}

/// What such a word heads here, where there are connectives.
fn connective_head(context: Context, word: &[u8]) -> ListHead
    ensures { result ≡ connective_head context word.now }
{
    match context {
        Context::Condition => formula_connective(word),
        Context::Goal => formula_connective(word),
        Context::Effect => effect_connective(word),
        Context::InnerEffect => effect_connective(word),
        Context::Initial => ListHead::Reserved,
    }
}

/// What a reserved word besides `and` and `not` heads. The walk is right after it.
fn reserved_head(scope: Scope, word: &[u8], walk: &Walk<'_>) -> ListHead
    ensures { result ≡ reserved_head scope word.now (begins_with_list (here walk.now.cursor).top) }
{
    if same_folded(word, b"=") {
        if has_functions(scope.dialect) {
            equals_head(scope.context, walk)
        } else {
            ListHead::Reserved
        }
    } else if has_connectives(scope.dialect) {
        connective_head(scope.context, word)
    } else {
        ListHead::Reserved
    }
}

/// What the word heads where a formula, an effect or an initial atom is due. The walk is right after it, and looks ahead if that depends on what
/// follows.
#[tactic(auto, unfolding(crate::specs::Heads::list_head))]
pub(crate) fn list_head(scope: Scope, word: &[u8], walk: &Walk<'_>) -> ListHead
    ensures { result ≡ list_head scope word.now (begins_with_list (here walk.now.cursor).top) }
{
    match formula_head(word) {
        FormulaHead::And => and_head(scope.context),
        FormulaHead::Not => ListHead::Not,
        FormulaHead::Reserved => reserved_head(scope, word, walk),
        FormulaHead::Name => name_head(scope, word, walk),
        FormulaHead::Other => ListHead::Other,
    }
}

/// The section of a domain that the word heads, if any.
#[tactic(auto, unfolding(crate::specs::Heads::domain_section))]
pub(crate) fn domain_section(dialect: Dialect, word: &[u8]) -> Option<DomainSection>
    ensures { result ≡ domain_section dialect word.now }
{
    if same_folded(word, b":requirements") {
        Some(DomainSection::Requirements)
    } else if same_folded(word, b":types") {
        Some(DomainSection::Types)
    } else if same_folded(word, b":constants") {
        Some(DomainSection::Constants)
    } else if same_folded(word, b":predicates") {
        Some(DomainSection::Predicates)
    } else if same_folded(word, b":action") {
        Some(DomainSection::Action)
    } else if has_functions(dialect) && same_folded(word, b":functions") {
        Some(DomainSection::Functions)
    } else {
        None
    }
}

/// The part of an action that the word names, if any.
#[tactic(auto, unfolding(crate::specs::Heads::action_part))]
pub(crate) fn action_part(word: &[u8]) -> Option<ActionPart>
    ensures { result ≡ action_part word.now }
{
    if same_folded(word, b":parameters") {
        Some(ActionPart::Parameters)
    } else if same_folded(word, b":precondition") {
        Some(ActionPart::Precondition)
    } else if same_folded(word, b":effect") {
        Some(ActionPart::Effect)
    } else {
        None
    }
}

/// The section of a problem that the word heads, if any.
#[tactic(auto, unfolding(crate::specs::Heads::problem_section))]
pub(crate) fn problem_section(word: &[u8]) -> Option<ProblemSection>
    ensures { result ≡ problem_section word.now }
{
    if same_folded(word, b":domain") {
        Some(ProblemSection::Domain)
    } else if same_folded(word, b":requirements") {
        Some(ProblemSection::Requirements)
    } else if same_folded(word, b":objects") {
        Some(ProblemSection::Objects)
    } else if same_folded(word, b":init") {
        Some(ProblemSection::Init)
    } else if same_folded(word, b":goal") {
        Some(ProblemSection::Goal)
    } else if same_folded(word, b":metric") {
        Some(ProblemSection::Metric)
    } else if same_folded(word, b":length") {
        Some(ProblemSection::Length)
    } else {
        None
    }
}

/// Whether the word is a name, in upper or lower case.
#[tactic(auto, unfolding(pddl_words::specs::Kinds::kind_of_word))]
pub(crate) fn is_name(word: &[u8]) -> bool
    ensures { result ≡ is_name word.now }
{
    match word_kind(word) {
        WordKind::Name => true,
        _ => false,
    }
}

/// Whether the word, besides `and` and `not`, names no predicate, since PDDL gives it another meaning.
#[tactic(auto, unfolding(crate::specs::Keywords::is_other_reserved))]
fn is_other_reserved(word: &[u8]) -> bool
    ensures { result ≡ is_other_reserved word.now }
{
    is_connective(word) || is_quantifier(word) || is_comparison(word)
}

#[tactic(auto, unfolding(crate::specs::Keywords::is_connective))]
fn is_connective(word: &[u8]) -> bool
    ensures { result ≡ is_connective word.now }
{
    same_folded(word, b"or")
        || same_folded(word, b"imply")
        || same_folded(word, b"when")
        || same_folded(word, b"either")
}

#[tactic(auto, unfolding(crate::specs::Keywords::is_quantifier))]
fn is_quantifier(word: &[u8]) -> bool
    ensures { result ≡ is_quantifier word.now }
{
    same_folded(word, b"exists") || same_folded(word, b"forall")
}

#[tactic(auto, unfolding(crate::specs::Keywords::is_comparison))]
fn is_comparison(word: &[u8]) -> bool
    ensures { result ≡ is_comparison word.now }
{
    same_folded(word, b"=")
        || same_folded(word, b"<")
        || same_folded(word, b">")
        || same_folded(word, b"<=")
        || same_folded(word, b">=")
}

/// Whether the first word of a row is not reserved, if it is a name. A row of terms is then an atom. If the first word is no name, the answer says
/// nothing, so that no byte is read twice.
#[tactic(auto, unfolding(crate::specs::Rows::heads_atom), using(crate::proofs::RowLemmas::first_word))]
#[inline(always)]
pub(crate) fn heads_atom(row: &[u8]) -> bool
    ensures { is_name (atom_spelled row.now).predicate ≡ true → result ≡ heads_atom row.now }
{
    let word = &row[..first_word_len(row)];
    if !looks_reserved(word) {
        return true;
    }
    match formula_head(word) {
        FormulaHead::Name => true,
        FormulaHead::And => false,
        FormulaHead::Not => false,
        FormulaHead::Reserved => false,
        FormulaHead::Other => false,
    }
}
