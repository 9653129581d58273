// Many right-hand sides for one matrix.
ghost use Rattle.std.specs.Prelude.{◌≡◌, ◌≢◌, ◌<◌, ◌≤◌, ℕ, List, length, IfOk};
ghost use Rattle.residue_words.specs.Residues.{IsPrime, inverse};
ghost use Rattle.residue_words.specs.Matrix.{Matrix, IsMatrix, IsVector, row};
ghost use Rattle.row_space.specs.Solution.{IsReducedSolution, IsSolution};
ghost use Rattle.kernel_solve.specs.Column.{column};
ghost use Rattle.kernel_solve.specs.Prepared.{FitTogether, IsPreparedFor, IsReply, preparation};
ghost use Rattle.kernel_solve.specs.Refuted.{multiple};

use crate::bases::{kernel_of, left_kernel};
use crate::reduction::{add_multiple, reduce};
use crate::substitution::{back, forward, inverses};
use crate::vectors::{column_of, entries_of, first_nonzero, row_of};
use dense_finish::{Factors, finish};
use residue_words::plain::Pair;
use sparse_rows::{List, Rows};
use std::alloc::{AllocError, Global};
use std::marker::Model;
use std::thread::Threads;

/// What there is to say of A x = b.
#[derive(Debug, Drop)]
pub enum Reply {
    /// The reduced solution, as a column.
    Solution(Rows),
    /// There is no solution: the refuting combination, as a row.
    Refuted(Rows),
}

/// A matrix A prepared for any number of right-hand sides: eliminated before, so that an answer takes the products of the
/// relations with b and, where there is a solution, two triangular substitutions and a reduction by the kernel basis.
///
/// It keeps factors of A with their pivots, the inverses of the pivots' entries, and the kernel bases of A and of A transposed.
#[derive(Debug, Drop)]
pub struct Prepared {
    pivots: List<Pair>,
    left: Rows,
    right: Rows,
    left_inverses: Vec<u64>,
    right_inverses: Vec<u64>,
    null: Rows,
    relations: Rows,
}

impl Model for Prepared {
    ghost use Rattle.std.specs.Prelude.{length};
    ghost use Rattle.kernel_solve.specs.Prepared.{FitTogether, Preparation, preparation};
    ghost use Rattle.kernel_solve.specs.Substituted.{InvertEach, left_pivot, right_pivot};

    ghost Value = { Preparation };

    ghost view = { λ q. preparation q.pivots q.left q.right q.null q.relations };

    ghost invariant = { λ q. FitTogether q.pivots q.left q.right q.null q.relations
        × InvertEach q.left.modulus (length q.pivots) (left_pivot q.left.matrix q.pivots)
        q.left_inverses.items
        × InvertEach q.left.modulus (length q.pivots) (right_pivot q.right.matrix q.pivots)
        q.right_inverses.items };
}

impl Prepared {
    /// The plain form of `spasm_lib::prepare`: prepares A by a dense elimination of its rows and columns that have an entry, and by the echelon forms of A and of A
    /// transposed. A caller who makes factors and kernel bases by another way, as by structural rounds where A is large and
    /// sparse, calls `by_factors`.
    pub fn of<R: Threads + Sync>(
        rt: &R,
        alloc: Global,
        a: &Rows,
        workers: u32,
    ) -> Result<Prepared, AllocError>
        requires some { 1 ≤ workers }
        ensures { IfOk result (IsPreparedFor a.now.modulus a.now.matrix) }
    {
        let factors = finish(rt, alloc, a, workers)?;
        let null = kernel_of(rt, alloc, a, workers)?;
        let relations = left_kernel(rt, alloc, a, workers)?;
        Prepared::by_factors(alloc, factors, null, relations)
    }

    /// The preparation of a matrix A by factors of A, the kernel basis of A and that of A transposed. It takes time by the
    /// pivots, and a search in the rows of the factors for each.
    pub fn by_factors(
        alloc: Global,
        factors: Factors,
        null: Rows,
        relations: Rows,
    ) -> Result<Prepared, AllocError>
        requires { FitTogether factors.pivots factors.l factors.u null relations }
        ensures { IfOk result (λ q. q ≡ preparation factors.pivots factors.l factors.u null relations) }
    {
        let Factors { pivots, l, u } = factors;
        let (left_inverses, right_inverses) = inverses(alloc, &l, &u, pivots.items())?;
        Ok(Prepared {
            pivots,
            left: l,
            right: u,
            left_inverses,
            right_inverses,
            null,
            relations,
        })
    }

    /// The reduced solution of A x = b for a column b, exactly where there is one, else the refuting combination. It takes time
    /// by the entries of the relations and the height, and where there is a solution also by the entries of the factors and of
    /// the kernel basis and the width. It takes some 8 bytes for each row and each column, and what is told.
    pub fn answer(&self, alloc: Global, b: &Rows) -> Result<Reply, AllocError>
        requires modulus { b.now.modulus ≡ self.now.modulus }
        requires height { b.now.matrix.height ≡ self.now.height }
        requires column { b.now.matrix.width ≡ 1 }
        ensures { IfOk result (IsReply self.now b.now.matrix) }
    {
        // The proof wants that b is a matrix of residues, and how many relations there are.
        b.is_sound();
        self.relations.is_sound();
        let side = entries_of(alloc, b)?;
        // The relations alone tell whether there is a solution, so the factors are read only where there is one.
        let products = self.relations.times(alloc, &side)?;
        if let Some(k) = first_nonzero(&products) {
            let y = refuting(alloc, &self.relations, k as u32, products[k])?;
            return Ok(Reply::Refuted(y));
        }
        let x = self.solution(alloc, &side)?;
        Ok(Reply::Solution(x))
    }

    // The reduced solution for a right-hand side, where there is a solution.
    fn solution(&self, alloc: Global, side: &[u64]) -> Result<Rows, AllocError>
        requires { IsVector self.now.modulus self.now.height side.now }
        ensures modulus { IfOk result (λ x. x.modulus ≡ self.now.modulus) }
        ensures sound { IfOk result (λ x. IsMatrix x.modulus x.matrix) }
        ensures height { IfOk result (λ x. x.matrix.height ≡ self.now.width) }
        ensures width { IfOk result (λ x. x.matrix.width ≡ 1) }
        ensures solution { IfOk result (λ x. (p : ℕ) (A : Matrix) → IsPrime p → IsMatrix p A →
            IsPreparedFor p A self.now → (((v : List ℕ) → ¬ IsSolution p A side.now v) → ⊥) →
            IsReducedSolution p A side.now (column x.matrix)) }
    {
        // The proof wants to know how wide a matrix is.
        self.null.is_sound();
        let pivots = self.pivots.items();
        let z = forward(alloc, &self.left, pivots, &self.left_inverses, side)?;
        let mut x = back(alloc, &self.right, pivots, &self.right_inverses, &z)?;
        reduce(&self.null, x.as_mut_slice());
        column_of(alloc, &x, self.right.modulus())
    }
}

// Row k divided by a number, as a row.
fn refuting(alloc: Global, relations: &Rows, k: u32, product: u64) -> Result<Rows, AllocError>
    requires row { k < relations.now.matrix.height }
    requires nonzero { product ≢ 0 }
    requires residue { product < relations.now.modulus }
    ensures modulus { IfOk result (λ y. y.modulus ≡ relations.now.modulus) }
    ensures sound { IfOk result (λ y. IsMatrix y.modulus y.matrix) }
    ensures height { IfOk result (λ y. y.matrix.height ≡ 1) }
    ensures width { IfOk result (λ y. y.matrix.width ≡ relations.now.matrix.width) }
    ensures row { IfOk result (λ y. row y.matrix 0
        ≡ multiple relations.now.modulus (inverse relations.now.modulus product)
        (row relations.now.matrix k)) }
{
    let modulus = relations.modulus();
    let factor = modulus.inv(product);
    let mut y = vec![in alloc; 0; relations.width() as usize]?;
    add_multiple(
        &modulus,
        factor,
        relations.cols(k),
        relations.vals(k),
        y.as_mut_slice(),
    );
    row_of(alloc, &y, modulus)
}
