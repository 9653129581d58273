// What a command is.
use crate::generator::Generator;
use certificates::CertKind;

/// What is asked for.
#[derive(Clone, Copy, Debug, PartialEq, Eq)]
pub enum Task {
    /// The rank of a matrix.
    Rank,
    /// The reduced row echelon form of a matrix.
    Rref,
    /// A basis of the vectors that a matrix takes to zero.
    Kernel,
    /// A solution of a system, or that there is none.
    Solve,
    /// A basis of the rows that a matrix takes to zero from the left.
    LeftKernel,
    /// The inverse of a matrix, or that there is none.
    Inverse,
    /// The structural pivots of a matrix.
    Pivots,
    /// Whether a certificate is valid for a matrix.
    Check,
    /// The structural pivots of a matrix in order of publication, each with how long a list it was chosen against.
    Trace,
    /// Whether a trace is lawful for a matrix.
    Replay,
    /// The answers to a script that appends rows to a matrix and asks of them.
    Grow,
    /// A summary of the echelon form of a matrix that is generated.
    Drill(Generator),
    /// A certificate of a matrix.
    Certify(CertKind),
}

/// What is asked for, modulo what, and how it is to be worked out.
#[derive(Clone, Copy, Debug, PartialEq, Eq)]
pub struct Command {
    /// What is asked for.
    pub task: Task,
    /// The modulus, from 2 to 2^48 - 1.
    pub modulus: u64,
    /// How many workers share the elimination, from 1 to 64.
    pub workers: u32,
    /// How many structural rounds may come first, from 0 to 16, in each elimination: so the pivots of a certificate are chosen, and no
    /// other answer depends on it. With 0 a rank is counted by the dense elimination, and a form found by it where that is small.
    pub rounds: u32,
}
