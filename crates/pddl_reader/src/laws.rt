//! Laws about the definitions, each the contract of a function that does nothing.

ghost use Rattle.pddl_reader.specs.DialectLaws.{AreDomainTextsKept, AreDomainTextsKeptInAdl, AreProblemTextsKept, AreProblemTextsKeptInAdl};
ghost use Rattle.pddl_reader.specs.TypeOrder.{HasNoCycles, IsTreeTested};

/// Exactly the trees below `object` pass the test of a domain's types.
pub fn type_trees_are_tested()
    ensures { IsTreeTested }
{}

/// In a tree of types no type but `object` is its own ancestor.
pub fn type_trees_have_no_cycles()
    ensures { HasNoCycles }
{}

/// A text that is a domain of STRIPS stands for the same domain in the dialect `ipc`, and has no functions.
pub fn domain_texts_are_kept()
    ensures { AreDomainTextsKept }
{}

/// A text that is a problem of STRIPS stands for the same task in the dialect `ipc`, and counts no costs if the domain has no functions.
pub fn problem_texts_are_kept()
    ensures { AreProblemTextsKept }
{}

/// A text that is a domain of the dialect `ipc` stands for the same domain in the dialect `adl`.
pub fn domain_texts_are_kept_in_adl()
    ensures { AreDomainTextsKeptInAdl }
{}

/// A text that is a problem of the dialect `ipc` stands for the same task in the dialect `adl`, with the same costs.
pub fn problem_texts_are_kept_in_adl()
    ensures { AreProblemTextsKeptInAdl }
{}
