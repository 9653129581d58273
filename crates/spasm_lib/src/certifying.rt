// Certificates.
ghost use Rattle.std.specs.Prelude.{◌≡◌, ◌<◌, ◌≤◌, ℕ, IfOk};
ghost use Rattle.residue_words.specs.Residues.{IsPrime};
ghost use Rattle.residue_words.specs.Matrix.{IsMatrix, Matrix};
ghost use Rattle.row_space.specs.Factors.{IsValid};
ghost use Rattle.sparse_rows.specs.Rows.{LARGEST_SIZE};
ghost use Rattle.pluq_factor.specs.Basis.{IsBasis};
ghost use Rattle.pluq_factor.specs.Staged.{Staged};
ghost use Rattle.certificates.specs.Certificate.{AreModulo, certificate_of, claim_kind, claim_of};
ghost use Rattle.certificates.specs.CertificateText.{HasText};
ghost use Rattle.spasm_lib.specs.Claimed.{IsClaimed};

use crate::team::Team;
use certificates::{CertKind, Certificate, Claim};
use crew::Threaded;
use optimistic_search::Gate;
use pluq_factor::{Eliminating, Factors, factor, form_of_basis};
use sparse_rows::Rows;
use std::alloc::AllocError;
use std::thread::Threads;

/// A certificate of a matrix, of fewer than 2^31 rows and columns: of its rank, and by the kind of its echelon form or its kernel basis too;
/// modulo a prime. What shows it are factors A = L U with their pivots. `check` says whether a certificate is valid, and
/// `certificates::write` writes it.
///
/// Modulo another number it is some certificate, which need not be valid. It takes the factors, which may have many entries, and what is
/// claimed is made of U.
///
/// ```
/// let certificate = spasm_lib::certificate(team, &a, CertKind::Rank)?;
/// let valid = spasm_lib::check(rt.alloc(), &a, &certificate)?;
/// ```
pub fn certificate<R: Threads + Sync, G: Gate>(
    team: Team<'_, Threaded<'_, R>, G>,
    a: &Rows,
    kind: CertKind,
) -> Result<Certificate, AllocError>
    requires some { 1 ≤ team.workers }
    requires height { a.now.matrix.height < LARGEST_SIZE }
    requires width { a.now.matrix.width < LARGEST_SIZE }
    ensures kind { IfOk result (λ c. claim_kind (claim_of c.claim) ≡ kind) }
    ensures modulus { IfOk result (AreModulo a.now.modulus) }
    ensures text { IfOk result (λ c. HasText (certificate_of c)) }
    ensures valid { IfOk result (λ c. IsPrime a.now.modulus →
        IsValid a.now.modulus a.now.matrix (certificate_of c)) }
    ensures staged { IfOk result (λ c. IsPrime a.now.modulus →
        Staged a.now.modulus a.now.matrix team.entry.workers team.entry.rounds c.pivots) }
{
    let rt = team.crew.runtime;
    let Factors { pivots, l, u } = factor(rt, team.alloc, a, team.plan(), team.gate)?;
    let claim = claimed(&team, &u, kind)?;
    Ok(Certificate {
        p: a.modulus().p(),
        pivots,
        l,
        u,
        claim,
    })
}

// What a certificate of this kind claims of a matrix with this row basis.
fn claimed<C: Eliminating, G>(
    team: &Team<'_, C, G>,
    basis: &Rows,
    kind: CertKind,
) -> Result<Claim, AllocError>
    requires able { C.can_work }
    requires some { 1 ≤ team.now.workers }
    requires width { basis.now.matrix.width < LARGEST_SIZE }
    ensures kind { IfOk result (λ claim. claim_kind (claim_of claim) ≡ kind) }
    ensures claimed { IfOk result (λ claim. (p : ℕ) (A : Matrix) → IsMatrix p A → IsBasis p A basis.now →
        IsClaimed p A claim) }
{
    match kind {
        CertKind::Rank => Ok(Claim::Rank),
        CertKind::Rref => {
            let form = form_of_basis(&team.crew, team.alloc, basis, team.workers)?;
            Ok(Claim::Rref(form.into_rows()))
        }
        CertKind::Kernel => {
            let form = form_of_basis(&team.crew, team.alloc, basis, team.workers)?;
            let null = kernel_solve::kernel(team.alloc, &form)?;
            Ok(Claim::Kernel(null))
        }
    }
}
