// Whether a certificate is valid.
ghost use Rattle.std.specs.Prelude.{◌≡◌, ◌↔◌, IfOk, IsTrue};
ghost use Rattle.row_space.specs.Factors.{IsValid, Shows};
ghost use Rattle.certificates.specs.Certificate.{AreModulo, HasModulus, certificate_of, claim_of};

use crate::factoring::are_factors;
use crate::showing::{shows_kernel, shows_rref};
use certificates::{Certificate, Claim};
use sparse_rows::Rows;
use std::alloc::{AllocError, Global};

/// Whether the certificate is valid for A: for every modulus, and whoever wrote it.
///
/// It needs that the certificate's matrices are modulo A's modulus. Everything else is looked at: sizes, the modulus that is
/// claimed, pivots, factors and forms.
///
/// The time is that of the products A = L U, and U = U' E or A times K transposed; the memory is by the entries of the matrices
/// and the number of pivots, and not by heights and widths.
pub fn check(alloc: Global, a: &Rows, certificate: &Certificate) -> Result<bool, AllocError>
    requires { AreModulo a.now.modulus certificate.now }
    ensures { IfOk result (λ valid. IsTrue valid
        ↔ IsValid a.now.modulus a.now.matrix (certificate_of certificate.now)) }
{
    if certificate.p != a.modulus().p() {
        return Ok(false);
    }
    let pivots = certificate.pivots.items();
    let factors = are_factors(alloc, a, pivots, &certificate.l, &certificate.u)?;
    if !factors {
        return Ok(false);
    }
    let shown = shows(alloc, a, &certificate.u, &certificate.claim)?;
    Ok(shown)
}

// Whether what is claimed besides the rank is shown, by a right factor with a row for each pivot.
fn shows(alloc: Global, a: &Rows, u: &Rows, claim: &Claim) -> Result<bool, AllocError>
    requires right { u.now.modulus ≡ a.now.modulus }
    requires claim { HasModulus a.now.modulus claim.now }
    ensures { IfOk result (λ yes. IsTrue yes
        ↔ Shows a.now.modulus a.now.matrix u.now.matrix.height u.now.matrix (claim_of claim.now)) }
{
    match claim {
        Claim::Rank => Ok(true),
        Claim::Rref(form) => shows_rref(alloc, u, form),
        Claim::Kernel(basis) => shows_kernel(alloc, a, u.height(), basis),
    }
}
