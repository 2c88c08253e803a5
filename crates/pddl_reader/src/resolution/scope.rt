//! The variables that terms may name: the parameters of an action, and those that quantifiers bind.

ghost use Rattle.std.specs.Prelude.{◌≡◌, ◌≤◌, length, take, IfSome, OnOk, None};
ghost use Rattle.formulas.specs.declared.terms.Term.TheVariants.{Bound};
ghost use Rattle.pddl_syntax.specs.Forms.{word_forms};
ghost use Rattle.pddl_syntax.specs.Reading.{Gives};
ghost use Rattle.pddl_reader.specs.Resolved.{known_form, variables_form};
ghost use Rattle.pddl_reader.specs.Scopes.{bound_term, last_number, outermost, scope_within, variable_meant};
ghost use Rattle.strips_task.specs.WellFormed.{is_fitting, most_variables, term_types};

use crate::resolution::tables::Declared;
use crate::resolution::variables::{DeclaredVariables, variable_number};
use formulas::variable_term;
use pddl_syntax::{FaultKind, ReadFault, Word};
use pddl_tokens::same_folded;
use std::alloc::{AllocError, Global};
use std::marker::Model;
use strips_task::{Alternatives, Seq, Term, term_fits};

/// The variables that terms may name. A name that is bound several times names the innermost variable, and hides a parameter. Contracts see lists.
pub(crate) struct Scope<'a> {
    parameters: DeclaredVariables<'a>,
    /// The names of the variables that quantifiers bind, the outermost first.
    names: Vec<Word<'a>>,
    /// The types of each of these.
    types: Vec<Alternatives>,
}

impl Drop for Scope<'_> {
    fn drop(self) {
        let Self {
            parameters: _,
            names: _,
            types: _,
        } = self;
    }
}

impl<'a> Model for Scope<'a> {
    ghost use Rattle.std.specs.Prelude.{◌≡◌, ◌≤◌, length};
    ghost use Rattle.pddl_syntax.specs.Forms.{word_forms};
    ghost use Rattle.pddl_reader.specs.Resolved.{variables_form};
    ghost use Rattle.pddl_reader.specs.Scopes as scopes;

    ghost Value = { scopes.Scope };

    ghost view = { λ s. record { parameters = variables_form s.parameters; bound = record { names = word_forms s.names.items; types = s.types.items } } };

    ghost invariant = { λ s. (length s.parameters.names.items ≤ 32) × (length s.types.items ≡ length s.names.items) };
}

impl<'a> Scope<'a> {
    ghost use Rattle.pddl_reader.specs.Variables.{no_variables};

    /// The scope of a goal. Takes no memory.
    #[tactic(auto, unfolding(pddl_syntax::specs::Forms::word_forms))]
    pub(crate) fn none(alloc: Global) -> Self
        ensures { result ≡ outermost no_variables }
    {
        Scope::outermost(alloc, DeclaredVariables::none(alloc))
    }

    /// The scope of an action with these parameters. Takes no memory.
    #[tactic(auto, unfolding(pddl_syntax::specs::Forms::word_forms))]
    pub(crate) fn outermost(alloc: Global, parameters: DeclaredVariables<'a>) -> Self
        requires { length parameters.names.items ≤ most_variables }
        ensures { result ≡ outermost (variables_form parameters.entry) }
    {
        Scope {
            parameters,
            names: Vec::new(alloc),
            types: Vec::new(alloc),
        }
    }

    /// The types of the parameters.
    pub(crate) fn into_parameter_types(self) -> Seq<Alternatives>
        ensures { result ≡ self.entry.parameters.types }
    {
        let Scope {
            parameters,
            names: _,
            types: _,
        } = self;
        let DeclaredVariables { names: _, types } = parameters;
        types
    }

    /// The variable that a word names.
    #[tactic(auto, using(crate::proofs::ScopeMeaning::variable_steps))]
    pub(crate) fn variable(&self, word: Word<'_>) -> Result<Term, ReadFault>
        ensures { Gives (λ term. term) result (variable_meant self.now word.entry.text.now) }
    {
        let bound = match last_number(self.names.as_slice(), word.text) {
            Some(level) => Some(bound_level(level, word)?),
            None => None,
        };
        let parameter = match variable_number(self.parameters.names.as_slice(), word.text) {
            Some(number) => Some(number as u16),
            None => None,
        };
        match variable_term(bound, parameter) {
            Some(term) => Ok(term),
            None => Err(ReadFault::new(FaultKind::UnknownName, word.span)),
        }
    }

    /// Whether a term that is known in this scope fits an argument that may be of these types.
    pub(crate) fn fits(&self, known: &Declared<'_>, term: Term, allowed: &[u16]) -> bool
        ensures { result ≡ is_fitting known.now.parents.now (term_types known.now.objects.now self.now.parameters.types self.now.bound.types term) allowed.now }
    {
        term_fits(
            known.parents,
            known.objects,
            self.parameters.types.as_slice(),
            self.types.as_slice(),
            term,
            allowed,
        )
    }

    /// How many variables quantifiers bind.
    #[tactic(auto, using(crate::proofs::TableLemmas::words_counted))]
    pub(crate) fn depth(&self) -> usize
        ensures names { result ≡ length self.now.bound.names }
        ensures types { result ≡ length self.now.bound.types }
    {
        self.names.len()
    }

    /// Binds the variables of a quantifier, before its body is read. If memory runs out, the scope is as before.
    pub(crate) fn enter(&mut self, own: DeclaredVariables<'a>) -> Result<(), AllocError>
        requires { length own.types ≡ length own.names.items }
        ensures { OnOk result (self.new ≡ scope_within self.old (variables_form own.entry)) }
    {
        let DeclaredVariables { names, types } = own;
        let depth = self.names.len();
        self.names.extend_from_slice(names.as_slice())?;
        if let Err(error) = self.types.append(&mut types.into_vec()) {
            self.names.truncate(depth);
            return Err(error);
        }
        Ok(())
    }

    /// Leaves quantifiers behind their bodies, so that only the first `depth` variables are bound.
    pub(crate) fn leave(&mut self, depth: usize)
        ensures { self.new ≡ record self.old { bound = record { names = take depth self.old.bound.names; types = take depth self.old.bound.types } } }
    {
        self.names.truncate(depth);
        self.types.truncate(depth);
    }
}

/// How many levels fit a term.
const LEVELS: usize = 65_536;

/// The number of the last variable with a name, which is the innermost one.
#[tactic(auto, using(crate::proofs::ScopeMeaning::last_steps))]
fn last_number(names: &[Word<'_>], word: &[u8]) -> Option<usize>
    ensures { result ≡ last_number word.now 0 None (word_forms names.now) }
{
    let mut last = None;
    'names: for number in 0..names.len() {
        if !same_folded(word, names[number].text) {
            continue 'names;
        }
        last = Some(number);
    }
    last
}

/// The level of a bound variable, as a term holds it. There are fewer levels in every text that the grammar takes, since lists nest at most 64 deep.
#[tactic(auto, using(crate::proofs::ScopeMeaning::level_steps))]
fn bound_level(level: usize, word: Word<'_>) -> Result<u16, ReadFault>
    ensures { Gives (λ level. Bound level) result (bound_term level) }
{
    if level >= LEVELS {
        return Err(ReadFault::new(FaultKind::TooMany, word.span));
    }
    Ok(level as u16)
}
