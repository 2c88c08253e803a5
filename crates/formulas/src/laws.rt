//! What follows from the definitions of formulas: each law is the contract of a function that does nothing.
ghost use Rattle.formulas.specs.Laws.{EqualMeansSame, GroundedNamesNoParameter, InEveryState, GroundedMeansTheSame, AndMeansEach, OrMeansOne, ImplyMeansOr, NotMovesInwards, NoVariablesMeanTheBody, NoObjectsDecide};

/// Two formulas are equal if and only if they are the same tree.
pub fn equal_means_same()
    ensures { EqualMeansSame }
{}

/// A formula from [`ground`](crate::ground) names no parameter, and only those variables that did not become objects.
pub fn grounded_names_no_parameter()
    ensures { GroundedNamesNoParameter }
{}

/// A formula from [`ground`](crate::ground) holds in a state if and only if the original holds there with these objects.
pub fn grounded_means_the_same()
    ensures { InEveryState GroundedMeansTheSame }
{}

/// `and` holds if and only if each of its parts does. So a list of literals, which is all that a condition of STRIPS is, holds if and only if each literal
/// does.
pub fn and_means_each()
    ensures { InEveryState AndMeansEach }
{}

/// `or` holds if and only if one of its parts does.
pub fn or_means_one()
    ensures { InEveryState OrMeansOne }
{}

/// `(imply a b)` means the same as `(or (not a) b)`.
pub fn imply_means_or()
    ensures { InEveryState ImplyMeansOr }
{}

/// `not` before a formula means the same as `not` moved inwards, to its literals.
pub fn not_moves_inwards()
    ensures { InEveryState NotMovesInwards }
{}

/// `(exists () a)` and `(forall () a)` mean the same as `a`.
pub fn no_variables_mean_the_body()
    ensures { InEveryState NoVariablesMeanTheBody }
{}

/// If there is no object for one of the variables, `exists` does not hold and `forall` does.
pub fn no_objects_decide()
    ensures { InEveryState NoObjectsDecide }
{}
