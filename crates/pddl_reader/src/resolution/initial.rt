//! What a problem gives initially: its atoms, and the values of functions.

ghost use Rattle.std.specs.Prelude.{◌≡◌, ◌≢◌, false, true, IfErr, IfOk, IsTrue, OnOk, Some, ℕ};
ghost use Rattle.pddl_syntax.specs.Forms.{atom_form, initial_form, name_groups, problem_syntax_form, value_form};
ghost use Rattle.pddl_syntax.specs.Initial.{HasTakenAll};
ghost use Rattle.pddl_syntax.specs.ReadFault.{out_of_memory};
ghost use Rattle.pddl_syntax.specs.Reading.{Gives, Puts};
ghost use Rattle.pddl_syntax.specs.Rows.{AreNames, atom_spelled};
ghost use Rattle.pddl_syntax.specs.Syntax.{initial_atom};
ghost use Rattle.pddl_reader.specs.declared.resolution.initial.Lookup.TheVariants.{Waiting};
ghost use Rattle.pddl_reader.specs.Declarations.{ground_of};
ghost use Rattle.pddl_reader.specs.Domain.{DomainValue};
ghost use Rattle.pddl_reader.specs.Functions.{with_value_of};
ghost use Rattle.pddl_reader.specs.Lookups.{has_begun, looked_up, looking_over, lookup_begun, lookup_given, whole_lookup};
ghost use Rattle.pddl_reader.specs.Problem.{domain_extended, no_initial, with_atom, with_initial};
ghost use Rattle.pddl_reader.specs.Resolved.{known_form, vocabulary_form};

use crate::resolution::atoms::ground_atom;
use crate::resolution::domain::{Domain, extended};
use crate::resolution::parts::part_items;
use crate::resolution::rows::AtomsOfRows;
use crate::resolution::tables::Declared;
use crate::resolution::vocabulary::Vocabulary;
use pddl_syntax::{
    AtomSyntax, FaultKind, InitialSyntax, InitialTaker, NameGroup, ProblemSyntax, ReadFault,
    ValueSyntax,
};
use pddl_words::are_names;
use std::alloc::{AllocError, Global};
use std::marker::Model;
use std::mem;
use strips_task::{FunctionValues, Given, Seed};

/// One initial atom is expected for this many bytes of a problem. Many problems have one for every 20 to 40 bytes.
const BYTES_FOR_AN_ATOM: usize = 32;

/// The initial atoms, and the values of functions.
#[derive(Drop)]
pub(crate) struct InitialState {
    pub(crate) atoms: AtomsOfRows,
    pub(crate) values: FunctionValues,
}

impl InitialState {
    /// Nothing, of a problem of `size` bytes. Its tables hash with the seed.
    fn new(alloc: Global, seed: Seed, size: usize) -> InitialState
        ensures { result ≡ no_initial }
    {
        InitialState {
            atoms: AtomsOfRows::new(alloc, seed, size / BYTES_FOR_AN_ATOM),
            values: FunctionValues::new(alloc, seed),
        }
    }
}

/// Appends an initial atom. A negated one is looked up but not kept.
#[tactic(auto, using(crate::proofs::InitialLemmas::atom_steps))]
fn put_atom(
    alloc: Global,
    known: &Declared<'_>,
    atoms: &mut AtomsOfRows,
    positive: bool,
    atom: &AtomSyntax<'_>,
) -> Result<(), ReadFault>
    ensures { Puts result (with_atom atoms.old positive (ground_of (known_form known.now) (atom_form atom.now))) atoms.new }
{
    let atom = ground_atom(alloc, known, atom)?;
    if positive {
        atoms.push(atom)?;
    }
    Ok(())
}

/// Gives a function a value, unless it has another.
#[tactic(auto, using(crate::proofs::InitialLemmas::value_steps))]
fn put_value(
    alloc: Global,
    functions: &Declared<'_>,
    values: &mut FunctionValues,
    value: &ValueSyntax<'_>,
) -> Result<(), ReadFault>
    ensures { Puts result (with_value_of (known_form functions.now) values.old (value_form value.now)) values.new }
{
    let function = ground_atom(alloc, functions, &value.function)?;
    match values.give(function, value.value)? {
        Given::First => Ok(()),
        Given::Again => Ok(()),
        Given::Another => Err(ReadFault::new(FaultKind::Repeated, value.span)),
    }
}

/// Adds the atom that a row stands for, if it is looked up as it is written. Returns whether it was.
#[inline(always)]
fn put_row(
    vocabulary: &Vocabulary<'_>,
    state: &mut InitialState,
    row: &[u8],
) -> Result<bool, AllocError>
    ensures names { IfOk result (λ is_put. IsTrue is_put → AreNames row.now) }
    ensures put { IfOk result (λ is_put. IsTrue is_put
        → with_initial (vocabulary_form vocabulary.now) state.old (initial_atom true (atom_spelled row.now)) ≡ Some state.new) }
    ensures left { IfOk result (λ is_put. is_put ≡ false → state.new ≡ state.old) }
{
    state.atoms.push_row(&vocabulary.atoms, row)
}

/// Adds what an initial atom or value gives.
fn put_initial(
    alloc: Global,
    vocabulary: &Vocabulary<'_>,
    state: &mut InitialState,
    item: &InitialSyntax<'_>,
) -> Result<(), ReadFault>
    ensures { Puts result (with_initial (vocabulary_form vocabulary.now) state.old (initial_form item.now)) state.new }
{
    match item {
        InitialSyntax::Atom { positive, atom } => put_atom(
            alloc,
            &vocabulary.atoms,
            &mut state.atoms,
            *positive,
            atom,
        ),
        InitialSyntax::Value(value) => {
            put_value(alloc, &vocabulary.functions, &mut state.values, value)
        }
    }
}

/// Why a problem is refused. Contracts do not see the reason.
#[derive(Drop)]
pub(crate) struct Refusal {
    fault: ReadFault,
}

impl Model for Refusal {
    ghost use Rattle.std.specs.Prelude.{◌≢◌};
    ghost use Rattle.pddl_syntax.specs.declared.fault.FaultKind.TheVariants.{OutOfMemory};

    ghost Value = { Unit {0} };

    ghost view = { λ _. tt };

    ghost invariant = { λ r. r.fault.kind ≢ OutOfMemory };
}

impl Refusal {
    /// A refusal for some reason, which holds a place until it is known what comes there.
    fn any() -> Refusal {
        Refusal {
            fault: ReadFault::at(FaultKind::Expected, 0, 0),
        }
    }

    /// Refuses for this fault, unless memory ran out.
    fn of(fault: ReadFault) -> Result<Refusal, AllocError>
        ensures { IfOk result (λ _. fault.kind ≢ FaultKind.OutOfMemory) }
    {
        if fault.kind == FaultKind::OutOfMemory {
            return Err(AllocError);
        }
        Ok(Refusal { fault })
    }

    /// The reason.
    fn fault(self) -> ReadFault
        ensures { result.kind ≢ FaultKind.OutOfMemory }
    {
        let Refusal { fault } = self;
        fault
    }
}

/// Looks up the initial atoms and values of a problem while they are read. What is wrong in them is kept, since faults of the syntax that come later in
/// the text are reported first.
#[derive(Drop)]
pub(crate) enum Lookup {
    /// The objects of the problem, which has this many bytes, are not known yet. No answer depends on their number.
    Waiting(Domain, usize),
    /// The domain has the objects of the problem, and this is given initially so far.
    Looking(Domain, InitialState),
    /// Something is not declared correctly.
    Refused(Refusal),
}

impl Lookup {
    /// Begins, in a domain and a problem of `size` bytes with these objects.
    #[tactic(auto, using(crate::proofs::LookupLemmas::lookup_steps))]
    fn over(
        alloc: Global,
        domain: Domain,
        size: usize,
        objects: &[NameGroup<'_>],
    ) -> Result<Lookup, AllocError>
        ensures { IfOk result (λ lookup. lookup ≡ looking_over (domain_extended domain (name_groups objects.now))) }
    {
        match extended(alloc, domain, objects) {
            Ok(domain) => {
                let initial = InitialState::new(alloc, domain.seed(), size);
                Ok(Lookup::Looking(domain, initial))
            }
            Err(fault) => Ok(Lookup::Refused(Refusal::of(fault)?)),
        }
    }

    /// The look-up with these objects, if it waits for them.
    #[tactic(auto, using(crate::proofs::LookupLemmas::lookup_steps))]
    fn with_objects(self, alloc: Global, objects: &[NameGroup<'_>]) -> Result<Lookup, AllocError>
        ensures { IfOk result (λ lookup. lookup ≡ lookup_begun self (name_groups objects.now)) }
    {
        match self {
            Lookup::Waiting(domain, size) => Lookup::over(alloc, domain, size, objects),
            begun => Ok(begun),
        }
    }

    /// Takes all that a problem gives, unless it was taken while the text was read.
    #[tactic(auto, using(crate::proofs::LookupLemmas::lookup_steps))]
    fn take_all(&mut self, alloc: Global, syntax: &ProblemSyntax<'_>) -> Result<(), ReadFault>
        ensures whole { OnOk result ((domain : DomainValue) → (size : ℕ)
            → HasTakenAll lookup_begun lookup_given (Waiting domain size) self.old (problem_syntax_form syntax.now)
            → self.new ≡ whole_lookup domain size (problem_syntax_form syntax.now)) }
        ensures begun { OnOk result (has_begun self.new ≡ true) }
        ensures fault { IfErr result (λ e. e ≡ out_of_memory) }
    {
        let Lookup::Waiting(_, _) = self else {
            return Ok(());
        };
        self.begin(alloc, part_items(&syntax.objects))?;
        if let Some(items) = &syntax.init {
            items.give(alloc, self)?;
        }
        Ok(())
    }

    /// The domain with the objects, and what is given initially.
    #[tactic(auto, using(crate::proofs::LookupLemmas::lookup_steps))]
    fn finish(self) -> Result<(Domain, InitialState), ReadFault>
        requires { has_begun self ≡ true }
        ensures { Gives (λ found. found) result (looked_up self) }
    {
        match self {
            Lookup::Waiting(_, _) => unreachable!(),
            Lookup::Looking(domain, initial) => Ok((domain, initial)),
            Lookup::Refused(refusal) => Err(refusal.fault()),
        }
    }

    /// The domain with the objects of a problem, and all that the problem gives initially.
    pub(crate) fn whole(
        self,
        alloc: Global,
        syntax: &ProblemSyntax<'_>,
    ) -> Result<(Domain, InitialState), ReadFault>
        ensures { (domain : DomainValue) → (size : ℕ) → HasTakenAll lookup_begun lookup_given (Waiting domain size) self (problem_syntax_form syntax.now)
            → Gives (λ found. found) result (looked_up (whole_lookup domain size (problem_syntax_form syntax.now))) }
    {
        let mut lookup = self;
        lookup.take_all(alloc, syntax)?;
        lookup.finish()
    }
}

impl InitialTaker for Lookup {
    ghost begun = { lookup_begun };

    ghost given = { lookup_given };

    #[tactic(auto, using(crate::proofs::LookupLemmas::lookup_steps))]
    fn begin(&mut self, alloc: Global, objects: &[NameGroup<'_>]) -> Result<(), AllocError> {
        let lookup = mem::replace(self, Lookup::Refused(Refusal::any()));
        *self = lookup.with_objects(alloc, objects)?;
        Ok(())
    }

    #[tactic(auto, using(crate::proofs::LookupLemmas::lookup_steps))]
    #[inline(always)]
    fn take_row(&mut self, row: &[u8]) -> Result<bool, AllocError> {
        let Lookup::Looking(domain, initial) = self else {
            return Ok(are_names(row));
        };
        put_row(&domain.vocabulary(), initial, row)
    }

    #[tactic(auto, using(crate::proofs::LookupLemmas::lookup_steps))]
    fn take(&mut self, alloc: Global, item: &InitialSyntax<'_>) -> Result<(), AllocError> {
        let Lookup::Looking(domain, initial) = self else {
            return Ok(());
        };
        let Err(fault) = put_initial(alloc, &domain.vocabulary(), initial, item) else {
            return Ok(());
        };
        *self = Lookup::Refused(Refusal::of(fault)?);
        Ok(())
    }
}
