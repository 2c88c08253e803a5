//! Domains: a name, and sections in any order, each at most once except actions.

ghost use Rattle.std.specs.Prelude.{◌≡◌, None, false};
ghost use Rattle.pddl_syntax.specs.Levels.{here, trees};
ghost use Rattle.pddl_syntax.specs.Trees.{text_fault};
ghost use Rattle.pddl_syntax.specs.Reading.{Gives, ReadsFront, ReadsInto, ReadsList};
ghost use Rattle.pddl_syntax.specs.Forms.{domain_sections_form, domain_syntax_form, predicate_form, predicate_forms};
ghost use Rattle.pddl_syntax.specs.Keywords.{number_word};
ghost use Rattle.pddl_syntax.specs.Syntax.{behind_word, domain_syntax, domain_in, domain_section_by, domain_section_in, domain_sections_of, functions_of, is_domain_section_given, lists_of, no_domain_sections, predicate_in, predicate_of};

use crate::dialect::Dialect;
use crate::fault::{FaultKind, ReadFault};
use crate::heads::{DomainSection, FormulaHead, domain_section, formula_head, is_dash};
use crate::syntax::action::action;
use crate::syntax::lists::{enter_list, expect_word, header, leave_list};
use crate::syntax::refusals::{keyword_fault, name_fault};
use crate::syntax::typed::{keywords, typed_names};
use crate::syntax::variables::kept_variables;
use crate::syntax::{DomainSections, DomainSyntax, PredicateSyntax};
use crate::walk::{Item, NameWord, Walk};
use pddl_tokens::same_folded;
use std::alloc::Global;

/// Reads the variables that a predicate or a function declares.
#[tactic(auto, using(crate::proofs::DomainLemmas::predicate_of_steps))]
fn predicate_variables<'a>(
    alloc: Global,
    walk: &mut Walk<'a>,
    name: NameWord<'a>,
) -> Result<PredicateSyntax<'a>, ReadFault>
    ensures { ReadsList predicate_form result (predicate_of name.entry.text.now) (here walk.old.cursor) (here walk.new.cursor) }
{
    let variables = kept_variables(alloc, walk)?;
    Ok(PredicateSyntax { name, variables })
}

/// Reads the declaration of a predicate or a function.
#[tactic(auto, using(crate::proofs::DomainLemmas::predicate_in_steps))]
fn predicate<'a>(alloc: Global, walk: &mut Walk<'a>) -> Result<PredicateSyntax<'a>, ReadFault>
    ensures { ReadsList predicate_form result predicate_in (here walk.old.cursor) (here walk.new.cursor) }
{
    match walk.next() {
        Item::Text(word) => match formula_head(word.text) {
            FormulaHead::Name => predicate_variables(alloc, walk, NameWord::new(word)),
            FormulaHead::And => Err(ReadFault::new(FaultKind::Unsupported, word.span)),
            FormulaHead::Not => Err(ReadFault::new(FaultKind::Unsupported, word.span)),
            FormulaHead::Reserved => Err(ReadFault::new(FaultKind::Unsupported, word.span)),
            FormulaHead::Other => Err(ReadFault::new(FaultKind::Expected, word.span)),
        },
        Item::Open(span) => Err(ReadFault::new(FaultKind::Expected, span)),
        Item::Close(span) => Err(ReadFault::new(FaultKind::Expected, span)),
    }
}

/// Reads the declarations of predicates.
#[tactic(auto, using(crate::proofs::DomainLemmas::predicates_steps))]
fn predicates<'a>(alloc: Global, walk: &mut Walk<'a>) -> Result<Vec<PredicateSyntax<'a>>, ReadFault>
    ensures { ReadsList (λ v. predicate_forms v.items) result (lists_of predicate_in) (here walk.old.cursor) (here walk.new.cursor) }
{
    let mut predicates = Vec::new(alloc);
    'predicates: loop {
        match walk.next() {
            Item::Close(_) => return Ok(predicates),
            Item::Text(word) => return Err(ReadFault::new(FaultKind::Expected, word.span)),
            Item::Open(_) => predicates.push(predicate(alloc, walk)?)?,
        }
    }
}

/// Steps over the word `number`, which is due as the type of functions.
#[tactic(auto, using(crate::proofs::ListLemmas::word_steps))]
fn number_type(walk: &mut Walk<'_>) -> Result<(), ReadFault>
    ensures { ReadsFront result (behind_word number_word) (here walk.old.cursor) (here walk.new.cursor) }
{
    match walk.next() {
        Item::Text(word) => {
            if same_folded(word.text, b"number") {
                return Ok(());
            }
            Err(name_fault(word))
        }
        Item::Open(span) => Err(ReadFault::new(FaultKind::Expected, span)),
        Item::Close(span) => Err(ReadFault::new(FaultKind::Expected, span)),
    }
}

/// Reads the declarations of functions, in groups that `- number` may end.
#[tactic(auto, using(crate::proofs::FunctionLemmas::functions_steps))]
fn functions<'a>(alloc: Global, walk: &mut Walk<'a>) -> Result<Vec<PredicateSyntax<'a>>, ReadFault>
    ensures { ReadsList (λ v. predicate_forms v.items) result (functions_of false) (here walk.old.cursor) (here walk.new.cursor) }
{
    let mut functions = Vec::new(alloc);
    // Whether there is a function since the last group ended.
    let mut has_some = false;
    'functions: loop {
        match walk.next() {
            Item::Close(_) => return Ok(functions),
            Item::Open(_) => {
                functions.push(predicate(alloc, walk)?)?;
                has_some = true;
            }
            Item::Text(word) => {
                if !has_some || !is_dash(word.text) {
                    return Err(ReadFault::new(FaultKind::Expected, word.span));
                }
                number_type(walk)?;
                has_some = false;
            }
        }
    }
}

/// Whether the section is given already, if it may be given only once.
#[tactic(auto, unfolding(crate::specs::Syntax::is_domain_section_given, crate::specs::Forms::domain_sections_form), using(crate::proofs::ActionLemmas::given_steps))]
fn is_given(sections: &DomainSections<'_>, section: DomainSection) -> bool
    ensures { result ≡ is_domain_section_given section (domain_sections_form sections.now) }
{
    match section {
        DomainSection::Requirements => sections.requirements,
        DomainSection::Types => sections.types.is_some(),
        DomainSection::Constants => sections.constants.is_some(),
        DomainSection::Predicates => sections.predicates.is_some(),
        DomainSection::Functions => sections.functions.is_some(),
        DomainSection::Action => false,
    }
}

/// Reads what a section holds.
#[tactic(auto, using(crate::proofs::DomainLemmas::body_steps), unfolding(crate::specs::Forms::domain_sections_form))]
fn section_body<'a>(
    alloc: Global,
    dialect: Dialect,
    walk: &mut Walk<'a>,
    section: DomainSection,
    sections: &mut DomainSections<'a>,
) -> Result<(), ReadFault>
    ensures { ReadsInto result (domain_section_by dialect section (domain_sections_form sections.old)) (here walk.old.cursor)
        (here walk.new.cursor) (domain_sections_form sections.new) }
{
    match section {
        DomainSection::Requirements => {
            keywords(walk)?;
            sections.requirements = true;
        }
        DomainSection::Types => sections.types = Some(typed_names(alloc, walk)?),
        DomainSection::Constants => sections.constants = Some(typed_names(alloc, walk)?),
        DomainSection::Predicates => sections.predicates = Some(predicates(alloc, walk)?),
        DomainSection::Functions => sections.functions = Some(functions(alloc, walk)?),
        DomainSection::Action => sections.actions.push(action(alloc, dialect, walk)?)?,
    }
    Ok(())
}

/// Reads a section after its `(`.
#[tactic(auto, using(crate::proofs::DomainLemmas::section_steps))]
fn section<'a>(
    alloc: Global,
    dialect: Dialect,
    walk: &mut Walk<'a>,
    sections: &mut DomainSections<'a>,
) -> Result<(), ReadFault>
    ensures { ReadsInto result (domain_section_in dialect (domain_sections_form sections.old)) (here walk.old.cursor)
        (here walk.new.cursor) (domain_sections_form sections.new) }
{
    match walk.next() {
        Item::Text(word) => {
            let Some(headed) = domain_section(dialect, word.text) else {
                return Err(keyword_fault(word));
            };
            if is_given(sections, headed) {
                return Err(ReadFault::new(FaultKind::Repeated, word.span));
            }
            section_body(alloc, dialect, walk, headed, sections)
        }
        Item::Open(span) => Err(ReadFault::new(FaultKind::Expected, span)),
        Item::Close(span) => Err(ReadFault::new(FaultKind::Expected, span)),
    }
}

/// Reads the sections of a domain.
#[tactic(auto, using(crate::proofs::DomainLemmas::sections_steps))]
fn sections<'a>(
    alloc: Global,
    dialect: Dialect,
    walk: &mut Walk<'a>,
) -> Result<DomainSections<'a>, ReadFault>
    ensures { ReadsList domain_sections_form result (domain_sections_of dialect no_domain_sections) (here walk.old.cursor)
        (here walk.new.cursor) }
{
    let mut sections = DomainSections {
        requirements: false,
        types: None,
        constants: None,
        predicates: None,
        functions: None,
        actions: Vec::new(alloc),
    };
    'sections: loop {
        match walk.next() {
            Item::Close(_) => return Ok(sections),
            Item::Text(word) => return Err(ReadFault::new(FaultKind::Expected, word.span)),
            Item::Open(_) => section(alloc, dialect, walk, &mut sections)?,
        }
    }
}

/// Reads a domain after the first `(` of its text.
#[tactic(auto, using(crate::proofs::DomainLemmas::domain_steps))]
pub(crate) fn domain<'a>(
    alloc: Global,
    dialect: Dialect,
    walk: &mut Walk<'a>,
) -> Result<DomainSyntax<'a>, ReadFault>
    ensures { ReadsList domain_syntax_form result (domain_in dialect) (here walk.old.cursor) (here walk.new.cursor) }
{
    expect_word(walk, b"define")?;
    enter_list(walk)?;
    let name = header(walk, b"domain")?;
    let sections = sections(alloc, dialect, walk)?;
    Ok(DomainSyntax { name, sections })
}

/// Reads the domain that a text without a text fault holds.
#[tactic(auto, using(crate::proofs::DomainLemmas::domain_text_steps, crate::proofs::TextLemmas::trees_here))]
pub fn domain_text<'a>(
    alloc: Global,
    dialect: Dialect,
    text: &'a [u8],
) -> Result<DomainSyntax<'a>, ReadFault>
    requires { text_fault text.now ≡ None }
    ensures { Gives domain_syntax_form result (domain_syntax dialect (trees text.now)) }
{
    let mut walk = Walk::new(text);
    enter_list(&mut walk)?;
    let domain = domain(alloc, dialect, &mut walk)?;
    leave_list(&mut walk)?;
    Ok(domain)
}
