//! Problems: a name, and sections in any order, each at most once; `:domain` and `:goal` must be given.

ghost use Rattle.std.specs.Prelude.{◌≡◌, false, IfOk, None, OnOk, Some};
ghost use Rattle.std.specs.Option.{option_map};
ghost use Rattle.pddl_syntax.specs.Levels.{here, trees};
ghost use Rattle.pddl_syntax.specs.Trees.{text_fault};
ghost use Rattle.pddl_syntax.specs.Reading.{Gives, ReadsInto, ReadsList};
ghost use Rattle.pddl_syntax.specs.Initial.{HasTaken, HasTakenAll, TakesSection};
ghost use Rattle.pddl_syntax.specs.Forms.{name_groups, problem_sections_form, problem_syntax_form};
ghost use Rattle.pddl_syntax.specs.Syntax.{goal_of, initial_in, is_problem_section_given, no_problem_sections, problem_in, problem_section_by, problem_section_in, problem_sections_of, problem_syntax};

use crate::dialect::Dialect;
use crate::fault::{FaultKind, ReadFault};
use crate::heads::{Context, ProblemSection, Scope, problem_section};
use crate::syntax::formula::lone;
use crate::syntax::initial::{InitialItems, InitialTaker, Passed, given_items};
use crate::syntax::lists::{enter_list, expect_word, header, leave_list, lone_name};
use crate::syntax::refusals::keyword_fault;
use crate::syntax::trees::FormulaSyntax;
use crate::syntax::typed::{keywords, skip, typed_names};
use crate::syntax::{NameGroup, ProblemSections, ProblemSyntax};
use crate::walk::{Item, Walk};
use pddl_tokens::Span;
use std::alloc::Global;

/// Reads the goal.
#[tactic(auto, using(crate::proofs::ProblemLemmas::goal_steps))]
fn goal<'a>(
    alloc: Global,
    dialect: Dialect,
    walk: &mut Walk<'a>,
) -> Result<FormulaSyntax<'a>, ReadFault>
    ensures { ReadsList (λ f. f) result (goal_of dialect) (here walk.old.cursor) (here walk.new.cursor) }
{
    let context = Context::Goal;
    lone(alloc, walk, Scope { dialect, context })
}

/// Whether the section is given already.
#[tactic(auto, unfolding(crate::specs::Syntax::is_problem_section_given, crate::specs::Forms::problem_sections_form), using(crate::proofs::ActionLemmas::given_steps))]
fn is_given(sections: &ProblemSections<'_>, section: ProblemSection) -> bool
    ensures { result ≡ is_problem_section_given section (problem_sections_form sections.now) }
{
    match section {
        ProblemSection::Domain => sections.domain.is_some(),
        ProblemSection::Requirements => sections.requirements,
        ProblemSection::Objects => sections.objects.is_some(),
        ProblemSection::Init => sections.init.is_some(),
        ProblemSection::Goal => sections.goal.is_some(),
        ProblemSection::Metric => sections.metric,
        ProblemSection::Length => sections.length,
    }
}

/// Reads the initial atoms and values. If the objects are known, each is given to the taker.
fn initial<'a, T: InitialTaker>(
    alloc: Global,
    dialect: Dialect,
    walk: &mut Walk<'a>,
    objects: &Option<Vec<NameGroup<'a>>>,
    taker: &mut T,
) -> Result<InitialItems<'a>, ReadFault>
    ensures items { ReadsList (λ i. i) result (initial_in dialect) (here walk.old.cursor) (here walk.new.cursor) }
    ensures taken { IfOk result (λ items. HasTaken T.begun T.given taker.old taker.new (option_map (λ v. name_groups v.items) objects.now) (Some items)) }
{
    match objects {
        Some(groups) => {
            taker.begin(alloc, groups.as_slice())?;
            given_items(alloc, dialect, walk, taker)
        }
        None => given_items(alloc, dialect, walk, &mut Passed),
    }
}

/// Reads what a section holds.
#[tactic(auto, using(crate::proofs::ProblemLemmas::body_steps), unfolding(crate::specs::Forms::problem_sections_form))]
fn section_body<'a, T: InitialTaker>(
    alloc: Global,
    dialect: Dialect,
    walk: &mut Walk<'a>,
    section: ProblemSection,
    sections: &mut ProblemSections<'a>,
    taker: &mut T,
) -> Result<(), ReadFault>
    requires { is_problem_section_given section (problem_sections_form sections.old) ≡ false }
    ensures read { ReadsInto result (problem_section_by dialect section (problem_sections_form sections.old)) (here walk.old.cursor)
        (here walk.new.cursor) (problem_sections_form sections.new) }
    ensures taken { OnOk result (TakesSection T.begun T.given (problem_sections_form sections.old) (problem_sections_form sections.new) taker.old taker.new) }
{
    match section {
        ProblemSection::Domain => sections.domain = Some(lone_name(walk)?),
        ProblemSection::Requirements => {
            keywords(walk)?;
            sections.requirements = true;
        }
        ProblemSection::Objects => sections.objects = Some(typed_names(alloc, walk)?),
        ProblemSection::Init => {
            let items = initial(alloc, dialect, walk, &sections.objects, taker)?;
            sections.init = Some(items);
        }
        ProblemSection::Goal => sections.goal = Some(goal(alloc, dialect, walk)?),
        ProblemSection::Metric => {
            skip(walk);
            sections.metric = true;
        }
        ProblemSection::Length => {
            skip(walk);
            sections.length = true;
        }
    }
    Ok(())
}

/// Reads a section after its `(`.
#[tactic(auto, using(crate::proofs::ProblemLemmas::section_steps))]
fn section<'a, T: InitialTaker>(
    alloc: Global,
    dialect: Dialect,
    walk: &mut Walk<'a>,
    sections: &mut ProblemSections<'a>,
    taker: &mut T,
) -> Result<(), ReadFault>
    ensures read { ReadsInto result (problem_section_in dialect (problem_sections_form sections.old)) (here walk.old.cursor)
        (here walk.new.cursor) (problem_sections_form sections.new) }
    ensures taken { OnOk result (TakesSection T.begun T.given (problem_sections_form sections.old) (problem_sections_form sections.new) taker.old taker.new) }
{
    match walk.next() {
        Item::Text(word) => {
            let Some(headed) = problem_section(word.text) else {
                return Err(keyword_fault(word));
            };
            if is_given(sections, headed) {
                return Err(ReadFault::new(FaultKind::Repeated, word.span));
            }
            section_body(alloc, dialect, walk, headed, sections, taker)
        }
        Item::Open(span) => Err(ReadFault::new(FaultKind::Expected, span)),
        Item::Close(span) => Err(ReadFault::new(FaultKind::Expected, span)),
    }
}

/// Reads the sections of a problem, and the span of the `)` after them.
#[tactic(auto, using(crate::proofs::ProblemLemmas::sections_steps))]
fn sections<'a, T: InitialTaker>(
    alloc: Global,
    dialect: Dialect,
    walk: &mut Walk<'a>,
    taker: &mut T,
) -> Result<(ProblemSections<'a>, Span), ReadFault>
    ensures read { ReadsList (λ read. problem_sections_form read.0) result (problem_sections_of dialect no_problem_sections)
        (here walk.old.cursor) (here walk.new.cursor) }
    ensures taken { IfOk result (λ read. HasTaken T.begun T.given taker.old taker.new (problem_sections_form read.0).objects (problem_sections_form read.0).init) }
{
    let mut sections = ProblemSections {
        domain: None,
        requirements: false,
        objects: None,
        init: None,
        goal: None,
        metric: false,
        length: false,
    };
    'sections: loop {
        match walk.next() {
            Item::Close(span) => return Ok((sections, span)),
            Item::Text(word) => return Err(ReadFault::new(FaultKind::Expected, word.span)),
            Item::Open(_) => section(alloc, dialect, walk, &mut sections, taker)?,
        }
    }
}

/// Reads a problem after the first `(` of its text.
#[tactic(auto, using(crate::proofs::ProblemLemmas::problem_steps))]
pub(crate) fn problem<'a, T: InitialTaker>(
    alloc: Global,
    dialect: Dialect,
    walk: &mut Walk<'a>,
    taker: &mut T,
) -> Result<ProblemSyntax<'a>, ReadFault>
    ensures read { ReadsList problem_syntax_form result (problem_in dialect) (here walk.old.cursor) (here walk.new.cursor) }
    ensures taken { IfOk result (λ problem. HasTakenAll T.begun T.given taker.old taker.new (problem_syntax_form problem)) }
{
    expect_word(walk, b"define")?;
    enter_list(walk)?;
    let name = header(walk, b"problem")?;
    let (sections, end) = sections(alloc, dialect, walk, taker)?;
    let ProblemSections {
        domain,
        requirements: _,
        objects,
        init,
        goal,
        metric: _,
        length: _,
    } = sections;
    let Some(domain) = domain else {
        return Err(ReadFault::new(FaultKind::Expected, end));
    };
    let Some(goal) = goal else {
        return Err(ReadFault::new(FaultKind::Expected, end));
    };
    Ok(ProblemSyntax {
        name,
        domain,
        objects,
        init,
        goal,
    })
}

/// Reads the problem that a text without a text fault holds.
#[tactic(auto, using(crate::proofs::ProblemLemmas::problem_text_steps, crate::proofs::TextLemmas::trees_here))]
pub fn problem_text<'a, T: InitialTaker>(
    alloc: Global,
    dialect: Dialect,
    text: &'a [u8],
    taker: &mut T,
) -> Result<ProblemSyntax<'a>, ReadFault>
    requires { text_fault text.now ≡ None }
    ensures read { Gives problem_syntax_form result (problem_syntax dialect (trees text.now)) }
    ensures taken { IfOk result (λ problem. HasTakenAll T.begun T.given taker.old taker.new (problem_syntax_form problem)) }
{
    let mut walk = Walk::new(text);
    enter_list(&mut walk)?;
    let problem = problem(alloc, dialect, &mut walk, taker)?;
    leave_list(&mut walk)?;
    Ok(problem)
}
