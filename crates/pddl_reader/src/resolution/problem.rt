//! Objects are declared after the constants of a domain; then initial atoms, values and the goal are looked up in its tables.

ghost use Rattle.std.specs.Prelude.{◌≤◌, ◌≡◌, length, IfOk, Some};
ghost use Rattle.pddl_syntax.specs.Forms.{problem_syntax_form};
ghost use Rattle.pddl_reader.specs.Problem.{initial_of, problem_within, vocabulary_in};
ghost use Rattle.pddl_syntax.specs.Reading.{Gives};
ghost use Rattle.strips_task.specs.WellFormed.{IsWellFormed, most_predicates};
ghost use Rattle.pddl_reader.specs.Assembled.{costed_assembled, task_assembled};

use crate::resolution::actions::ActionTables;
use crate::resolution::conditions::conditions;
use crate::resolution::domain::{Domain, Head, Tables};
use crate::resolution::functions::costs;
use crate::resolution::initial::InitialState;
use crate::resolution::names::name;
use crate::resolution::scope::Scope;
use pddl_syntax::{ProblemSyntax, ReadFault};
use std::alloc::Global;
use strips_task::{CostedTask, Formula, FunctionValues, InitialAtoms, Name, Seq, Task, TaskParts};

/// What a problem gives besides its objects: its name, the initial atoms, the values of functions and the goal.
#[derive(Drop)]
struct Given {
    problem: Name,
    atoms: InitialAtoms,
    values: FunctionValues,
    goal: Seq<Formula>,
}

/// The task of these parts, with what it says about costs.
fn assemble(domain: Domain, given: Given) -> CostedTask
    requires well_formed { IsWellFormed (task_assembled domain given) }
    requires few_functions { length domain.functions ≤ most_predicates }
    ensures { result ≡ costed_assembled domain given }
{
    let Domain { head, tables } = domain;
    let Head {
        name,
        types,
        parents,
        objects,
    } = head;
    let Tables {
        predicates,
        functions,
        actions,
    } = tables;
    let ActionTables { actions, increases } = actions;
    let Given {
        problem,
        atoms,
        values,
        goal,
    } = given;
    let task = Task::make(TaskParts {
        domain: name,
        problem,
        types,
        parents,
        objects,
        preds: predicates,
        actions,
        init: atoms,
        goal,
    });
    CostedTask {
        task,
        costs: costs(&functions, increases, values),
    }
}

/// What the syntax of a problem stands for, given its domain and what is given initially.
#[tactic(auto, using(crate::proofs::ProblemMeaning::problem_steps))]
fn resolve_given(
    alloc: Global,
    domain: &Domain,
    syntax: &ProblemSyntax<'_>,
    initial: InitialState,
) -> Result<Given, ReadFault>
    requires { initial_of (vocabulary_in domain.now) (problem_syntax_form syntax.now).init ≡ Some initial }
    ensures meaning { Gives (costed_assembled domain.now) result (problem_within (problem_syntax_form syntax.now) (Some domain.now)) }
    ensures well_formed { IfOk result (λ given. IsWellFormed (task_assembled domain.now given)) }
    ensures few_functions { length domain.now.functions ≤ most_predicates }
{
    let vocabulary = domain.vocabulary();
    let mut scope = Scope::none(alloc);
    let types = domain.types();
    let goal = conditions(alloc, types, &vocabulary.atoms, &mut scope, &syntax.goal)?;
    let problem = name(alloc, syntax.name)?;
    let InitialState { atoms, values } = initial;
    let atoms = atoms.finish()?;
    Ok(Given {
        problem,
        atoms,
        values,
        goal,
    })
}

/// The task that the syntax of a problem stands for, given its domain with its objects, and what is given initially. If the problem is refused, the domain is
/// dropped.
pub(crate) fn resolve_problem(
    alloc: Global,
    domain: Domain,
    initial: InitialState,
    syntax: &ProblemSyntax<'_>,
) -> Result<CostedTask, ReadFault>
    requires { initial_of (vocabulary_in domain) (problem_syntax_form syntax.now).init ≡ Some initial }
    ensures { Gives (λ task. task) result (problem_within (problem_syntax_form syntax.now) (Some domain)) }
{
    let given = resolve_given(alloc, &domain, syntax, initial)?;
    Ok(assemble(domain, given))
}
