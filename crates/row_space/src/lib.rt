//! What an echelon form, a rank, a kernel basis, a solution, a refutation and a valid certificate are, and the laws that tie them.
//!
//! Each function here does nothing: its contract is the law, proved of all matrices. None runs an elimination. As there are no bodies,
//! there is nothing to turn wrong in one, and so no edit that a check has to refuse.
#![tactic(auto)]

ghost use Rattle.row_space.specs.Example.{IsWorked};
ghost use Rattle.row_space.specs.Laws.{RrefIsUnique, RankIsUnique, KernelIsUnique, SolutionIsUnique, RefutationIsUnique, SpanFixesHeight, Alternative, RrefExists, FactorsGiveRank, FactorsGiveRref, FactorsGiveKernel, CertificateIsTrue, RankGivesKernel, RankGivesRref, LastLeadRefutes, RrefSolves, RefutingSystem, InverseIsUnique, InverseExcludesNull, InverseOrNull, RefutingIsSolvable};

/// A matrix has at most one reduced echelon form.
pub fn rref_is_unique()
    ensures { RrefIsUnique }
{}

/// A matrix has at most one rank.
pub fn rank_is_unique()
    ensures { RankIsUnique }
{}

/// A matrix has at most one kernel basis.
pub fn kernel_is_unique()
    ensures { KernelIsUnique }
{}

/// A system has at most one reduced solution.
pub fn solution_is_unique()
    ensures { SolutionIsUnique }
{}

/// A system has at most one refuting combination.
pub fn refutation_is_unique()
    ensures { RefutationIsUnique }
{}

/// Two independent lists of rows with one span have equal length.
pub fn span_fixes_height()
    ensures { SpanFixesHeight }
{}

/// `A x = b` is unsolvable exactly where some y has `y A = 0` and `y . b = 1`, for a prime modulus.
pub fn alternative()
    ensures { Alternative }
{}

/// Each matrix has a reduced echelon form, for a prime modulus.
pub fn rref_exists()
    ensures { RrefExists }
{}

/// Valid factors have as many pivots as the rank, for a prime modulus.
pub fn factors_give_rank()
    ensures { FactorsGiveRank }
{}

/// Valid factors and what shows it give the reduced echelon form, for a prime modulus.
pub fn factors_give_rref()
    ensures { FactorsGiveRref }
{}

/// Valid factors and what shows it give the kernel basis, for a prime modulus.
pub fn factors_give_kernel()
    ensures { FactorsGiveKernel }
{}

/// What a valid certificate says of a matrix holds for a prime modulus, whoever wrote it.
pub fn certificate_is_true()
    ensures { CertificateIsTrue }
{}

/// Reduced null vectors, as many as the width exceeds the rank, are the kernel basis, for a prime modulus.
pub fn rank_gives_kernel()
    ensures { RankGivesKernel }
{}

/// Reduced rows of the row space, as many as the rank, are the echelon form, for a prime modulus.
pub fn rank_gives_rref()
    ensures { RankGivesRref }
{}

/// A lead of the form of `[A | b]` in its last column says that no x has `A x = b`.
pub fn last_lead_refutes()
    ensures { LastLeadRefutes }
{}

/// The reduced solution is read off the form of `[A | b]`.
pub fn rref_solves()
    ensures { RrefSolves }
{}

/// The reduced solution of the refuting system is the refuting combination.
pub fn refuting_system_refutes()
    ensures { RefutingSystem }
{}

/// Where `A x = b` has no solution, the refuting system has one, for a prime modulus.
pub fn refuting_is_solvable()
    ensures { RefutingIsSolvable }
{}

/// A matrix has at most one inverse.
pub fn inverse_is_unique()
    ensures { InverseIsUnique }
{}

/// Where a matrix has an inverse, its only null vector is zero.
pub fn inverse_excludes_null()
    ensures { InverseExcludesNull }
{}

/// A square matrix has either an inverse or a null vector other than zero, for a prime modulus.
pub fn inverse_or_null()
    ensures { InverseOrNull }
{}

/// The definitions, worked on two examples of 3 x 3 modulo 7.
pub fn example_is_worked()
    ensures { IsWorked }
{}
