//! The readers of whole texts: the three layers, one after the other.

ghost use Rattle.std.specs.Prelude.{◌≡◌, None, Some, Err};
ghost use Rattle.pddl_syntax.specs.declared.fault.ReadFault as read_fault;
ghost use Rattle.pddl_syntax.specs.Reading.{Gives};
ghost use Rattle.pddl_reader.specs.Texts.{domain_in_text, domain_of_text, problem_in_text, problem_of_text};
ghost use Rattle.pddl_syntax.specs.Trees.{text_fault};

use crate::resolution::domain::{Domain, resolve_domain};
use crate::resolution::initial::Lookup;
use crate::resolution::problem::resolve_problem;
use pddl_syntax::{Dialect, ReadFault, check_text, domain_text, problem_text};
use std::alloc::Global;
use strips_task::{CostedTask, Seed, Task};

/// Reads a domain (PDDL 2.1, Fox and Long 2003, appendix A). Walks over the text twice, over lists of variables three times, and looks up
/// each name with one hash. The tables of the domain, and those of the task made from it, hash with the seed; the domain does not depend
/// on it.
#[tactic(auto, using(crate::proofs::TextLemmas::default_steps))]
pub fn read_domain(alloc: Global, seed: Seed, text: &[u8]) -> Result<Domain, ReadFault>
    ensures domain { Gives (λ domain. domain) result (domain_of_text text.now) }
    ensures fault { (e : read_fault.ReadFault) → text_fault text.now ≡ Some e → result ≡ Err e }
{
    read_domain_in(alloc, seed, Dialect::Strips, text)
}

/// Reads a problem (PDDL 2.1, Fox and Long 2003, appendix A) as `read_domain` reads a domain, and makes a task of it and its domain. The name that
/// the problem gives for its domain is read but not compared. If the problem is refused, the domain is dropped.
#[tactic(auto, using(crate::proofs::TextLemmas::default_steps))]
pub fn read_problem(alloc: Global, domain: Domain, text: &[u8]) -> Result<Task, ReadFault>
    ensures task { Gives (λ task. task) result (problem_of_text domain text.now) }
    ensures fault { (e : read_fault.ReadFault) → text_fault text.now ≡ Some e → result ≡ Err e }
{
    let costed = read_problem_in(alloc, Dialect::Strips, domain, text)?;
    Ok(costed.into_task())
}

/// Reads a domain as [`read_domain`] does, in a dialect. With [`Dialect::Ipc`] it may declare functions (PDDL 2.1, Fox and Long 2003,
/// section 3): at most 4,096, each with at most 32 variables. `total-cost` has no variables, and an action may increase it up to 32 times. With
/// [`Dialect::Adl`] a quantifier has at most 32 variables.
#[tactic(auto, using(crate::proofs::TextLemmas::domain_text_steps))]
pub fn read_domain_in(
    alloc: Global,
    seed: Seed,
    dialect: Dialect,
    text: &[u8],
) -> Result<Domain, ReadFault>
    ensures domain { Gives (λ domain. domain) result (domain_in_text dialect text.now) }
    ensures fault { (e : read_fault.ReadFault) → text_fault text.now ≡ Some e → result ≡ Err e }
{
    check_text(text)?;
    let syntax = domain_text(alloc, dialect, text)?;
    resolve_domain(alloc, seed, dialect, &syntax)
}

/// Reads a problem as [`read_problem`] does, in a dialect, and keeps what it says about costs if its domain declares `total-cost`. With
/// [`Dialect::Ipc`] it may give each function one value; values are kept in billionths.
#[tactic(auto, using(crate::proofs::TextLemmas::problem_text_steps))]
pub fn read_problem_in(
    alloc: Global,
    dialect: Dialect,
    domain: Domain,
    text: &[u8],
) -> Result<CostedTask, ReadFault>
    ensures task { Gives (λ task. task) result (problem_in_text dialect domain text.now) }
    ensures fault { (e : read_fault.ReadFault) → text_fault text.now ≡ Some e → result ≡ Err e }
{
    check_text(text)?;
    checked_problem(alloc, dialect, domain, text)
}

/// Reads a problem in a text that has no text fault.
#[tactic(auto, using(crate::proofs::TextLemmas::problem_text_steps))]
fn checked_problem(
    alloc: Global,
    dialect: Dialect,
    domain: Domain,
    text: &[u8],
) -> Result<CostedTask, ReadFault>
    requires { text_fault text.now ≡ None }
    ensures { Gives (λ task. task) result (problem_in_text dialect domain text.now) }
{
    let mut lookup = Lookup::Waiting(domain, text.len());
    let syntax = problem_text(alloc, dialect, text, &mut lookup)?;
    let (domain, initial) = lookup.whole(alloc, &syntax)?;
    resolve_problem(alloc, domain, initial, &syntax)
}
