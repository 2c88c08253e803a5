//! Examples that the definitions decide: reports on small texts, computed by the prover from the definitions alone, without the program.
//!
//! Whoever reads a definition can see here what it answers. `specs/Examples.antt` has the texts and the reports.
#![tactic(auto)]

ghost use Rattle.definition_examples.specs.Examples.{AreExamples};

/// The examples of `specs/Examples.antt`. The function does nothing, and takes no time.
pub fn definitions_answer_as_shown()
    ensures { AreExamples }
{}
