//! Types, constants, predicates, functions and actions are declared one after another.

ghost use Rattle.std.specs.Prelude.{◌≡◌, ◌≤◌, length, [], IfOk};
ghost use Rattle.strips_task.specs.WellFormed.{most_objects, most_predicates, most_types};
ghost use Rattle.std.specs.Map.{keys_of};
ghost use Rattle.pddl_reader.specs.Domain.{domain_of, domain_with, functions_from, head_of, predicates_from, with_predicate};
ghost use Rattle.pddl_reader.specs.DomainTables.{IsDomain};
ghost use Rattle.pddl_reader.specs.Problem.{domain_extended};
ghost use Rattle.pddl_syntax.specs.Forms.{domain_syntax_form, name_groups, predicate_form, predicate_forms};
ghost use Rattle.pddl_reader.specs.Parts.{part_items};
ghost use Rattle.pddl_syntax.specs.Reading.{Gives, Puts};
ghost use Rattle.pddl_reader.specs.Assembled.{domain_assembled};

use crate::resolution::actions::{ActionTables, Predicates, actions};
use crate::resolution::functions::functions;
use crate::resolution::names::{name, new_name};
use crate::resolution::objects::more_objects;
use crate::resolution::parts::part_items;
use crate::resolution::types::{KnownTypes, types};
use crate::resolution::variables::listed_types;
use crate::resolution::vocabulary::Vocabulary;
use pddl_syntax::{Dialect, DomainSyntax, NameGroup, PredicateSyntax, ReadFault};
use std::alloc::Global;
use std::marker::Model;
use strips_task::{Name, NameTable, Seed, TypeList};

/// What a domain says: its name, types, constants, predicates, functions and actions, and the increases of each action. Contracts see the
/// record of them.
#[derive(Drop)]
pub struct Domain {
    pub(crate) head: Head,
    pub(crate) tables: Tables,
}

/// What a domain declares before its predicates.
#[derive(Drop)]
pub(crate) struct Head {
    pub(crate) name: Name,
    pub(crate) types: NameTable<()>,
    pub(crate) parents: TypeList,
    pub(crate) objects: NameTable<u16>,
}

/// The tables of a domain's predicates, functions and actions.
#[derive(Drop)]
pub(crate) struct Tables {
    pub(crate) predicates: Predicates,
    pub(crate) functions: Predicates,
    pub(crate) actions: ActionTables,
}

impl Model for Domain {
    ghost use Rattle.pddl_reader.specs.Domain.{DomainValue};

    ghost Value = { DomainValue };

    ghost use Rattle.formulas.specs.contracts.effect.Effect as effect;
    ghost use Rattle.formulas.specs.contracts.formula.Formula as formula;
    ghost use Rattle.std.specs.Coded.{codes};

    ghost coded = { Prim.hlevel (codes, formula.the_row.coded, effect.the_row.coded) };

    ghost use Rattle.pddl_reader.specs.DomainTables.{IsDomain, domain_kept};

    ghost view = { domain_kept };

    ghost invariant = { λ d. IsDomain (domain_kept d) };
}

impl Domain {
    ghost use Rattle.pddl_reader.specs.Problem.{vocabulary_in};
    ghost use Rattle.pddl_reader.specs.Resolved.{vocabulary_form};

    /// The names of the types.
    pub(crate) fn types(&self) -> &NameTable<()>
        ensures names { keys_of result.now ≡ self.now.types }
        ensures few { length result.now ≤ most_types }
    {
        let Domain { head, tables: _ } = self;
        &head.types
    }

    /// The seed that its tables hash with.
    pub(crate) fn seed(&self) -> Seed {
        self.head.objects.seed()
    }

    /// What the initial atoms, the values and the goal of a problem may name.
    pub(crate) fn vocabulary(&self) -> Vocabulary<'_>
        ensures known { vocabulary_form result ≡ vocabulary_in self.now }
        ensures kept { IsDomain self.now }
    {
        let Domain { head, tables } = self;
        Vocabulary::new(
            &head.parents,
            &head.objects,
            &tables.predicates,
            &tables.functions,
        )
    }
}

/// Declares one more predicate.
#[tactic(auto, using(crate::proofs::DeclarationLemmas::predicate_steps))]
fn declare_predicate(
    alloc: Global,
    types: &NameTable<()>,
    table: &mut Predicates,
    predicate: &PredicateSyntax<'_>,
) -> Result<(), ReadFault>
    requires few { length types.now ≤ most_types }
    requires room { length table.old ≤ most_predicates }
    ensures within { length table.new ≤ most_predicates }
    ensures given { Puts result (with_predicate (keys_of types.now) table.old (predicate_form predicate.now)) table.new }
{
    let name = new_name(alloc, table, predicate.name)?;
    let argument_types = listed_types(alloc, types, &predicate.variables)?;
    table.push(name, argument_types)?;
    Ok(())
}

/// Declares the predicates.
#[tactic(auto, using(crate::proofs::Through::through_steps, crate::proofs::DeclarationLemmas::predicates_steps))]
fn predicates(
    alloc: Global,
    types: &NameTable<()>,
    declared: &[PredicateSyntax<'_>],
) -> Result<Predicates, ReadFault>
    requires { length types.now ≤ most_types }
    ensures within { IfOk result (λ table. length table ≤ most_predicates) }
    ensures given { Gives (λ table. table) result (predicates_from (keys_of types.now) [] (predicate_forms declared.now)) }
{
    let mut table = NameTable::new(alloc, types.seed());
    'predicates: for predicate in declared {
        declare_predicate(alloc, types, &mut table, predicate)?;
    }
    Ok(table)
}

/// The tables of the sections that follow a domain's types and constants.
#[tactic(auto, using(crate::proofs::DomainMeaning::domain_steps))]
fn resolve_tables(
    alloc: Global,
    head: &Head,
    syntax: &DomainSyntax<'_>,
) -> Result<Tables, ReadFault>
    requires types { length head.now.types ≤ most_types }
    requires objects { length head.now.objects ≤ most_objects }
    ensures { Gives (domain_assembled head.now) result
        (domain_with (domain_syntax_form syntax.now) head.now
        (predicates_from (keys_of head.now.types) [] (predicate_forms (part_items syntax.now.sections.predicates)))
        (functions_from (keys_of head.now.types) [] (predicate_forms (part_items syntax.now.sections.functions)))) }
{
    let declared = part_items(&syntax.sections.predicates);
    let predicates = predicates(alloc, &head.types, declared)?;
    let declared = part_items(&syntax.sections.functions);
    let functions = functions(alloc, &head.types, declared)?;
    let vocabulary = Vocabulary::new(&head.parents, &head.objects, &predicates, &functions);
    let actions = actions(
        alloc,
        &head.types,
        &vocabulary,
        syntax.sections.actions.as_slice(),
    )?;
    Ok(Tables {
        predicates,
        functions,
        actions,
    })
}

/// The domain of these parts.
fn assemble(head: Head, tables: Tables) -> Domain
    requires { IsDomain (domain_assembled head tables) }
    ensures { result ≡ domain_assembled head tables }
{
    Domain { head, tables }
}

/// The name of a domain, its types and its constants.
#[tactic(auto, using(crate::proofs::DomainMeaning::head_steps))]
fn resolve_head(
    alloc: Global,
    seed: Seed,
    dialect: Dialect,
    syntax: &DomainSyntax<'_>,
) -> Result<Head, ReadFault>
    ensures { Gives (λ head. head) result (head_of dialect (domain_syntax_form syntax.now)) }
{
    let name = name(alloc, syntax.name)?;
    let known = types(alloc, seed, dialect, part_items(&syntax.sections.types))?;
    let constants = part_items(&syntax.sections.constants);
    let none = NameTable::new(alloc, seed);
    let objects = more_objects(alloc, &known.names, none, constants)?;
    let KnownTypes { names, parents } = known;
    Ok(Head {
        name,
        types: names,
        parents,
        objects,
    })
}

/// The domain that syntax stands for in a dialect.
#[tactic(auto, using(crate::proofs::DomainMeaning::domain_head_steps))]
pub(crate) fn resolve_domain(
    alloc: Global,
    seed: Seed,
    dialect: Dialect,
    syntax: &DomainSyntax<'_>,
) -> Result<Domain, ReadFault>
    ensures { Gives (λ domain. domain) result (domain_of dialect (domain_syntax_form syntax.now)) }
{
    let head = resolve_head(alloc, seed, dialect, syntax)?;
    let tables = resolve_tables(alloc, &head, syntax)?;
    Ok(assemble(head, tables))
}

/// The parts of a domain.
fn split(domain: Domain) -> (Head, Tables)
    ensures value { domain_assembled result.0 result.1 ≡ domain }
    ensures kept { IsDomain domain }
{
    let Domain { head, tables } = domain;
    (head, tables)
}

/// The domain with the objects of a problem after its constants.
pub(crate) fn extended(
    alloc: Global,
    domain: Domain,
    groups: &[NameGroup<'_>],
) -> Result<Domain, ReadFault>
    ensures { Gives (λ domain. domain) result (domain_extended domain (name_groups groups.now)) }
{
    let (head, tables) = split(domain);
    let Head {
        name,
        types,
        parents,
        objects,
    } = head;
    let objects = more_objects(alloc, &types, objects, groups)?;
    let head = Head {
        name,
        types,
        parents,
        objects,
    };
    Ok(assemble(head, tables))
}
