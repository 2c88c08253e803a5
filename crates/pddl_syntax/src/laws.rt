//! Laws about the definitions, each the contract of a function that does nothing.

ghost use Rattle.pddl_syntax.specs.Dialects.{AreDomainsKept, AreDomainsKeptInAdl, AreProblemsKept, AreProblemsKeptInAdl};
ghost use Rattle.pddl_syntax.specs.Trees.{AreTreesUnique};

/// The tokens of a text spell at most one list of trees, so a text has at most one reading.
pub fn trees_are_unique()
    ensures { AreTreesUnique }
{}

/// A text that is a domain of STRIPS is the same domain in the dialect `ipc`.
pub fn domains_are_kept()
    ensures { AreDomainsKept }
{}

/// A text that is a problem of STRIPS is the same problem in the dialect `ipc`.
pub fn problems_are_kept()
    ensures { AreProblemsKept }
{}

/// A text that is a domain of the dialect `ipc` is the same domain in the dialect `adl`.
pub fn domains_are_kept_in_adl()
    ensures { AreDomainsKeptInAdl }
{}

/// A text that is a problem of the dialect `ipc` is the same problem in the dialect `adl`.
pub fn problems_are_kept_in_adl()
    ensures { AreProblemsKeptInAdl }
{}
