// Claims with their data.
ghost use Rattle.std.specs.Prelude.{◌≡◌};
ghost use Rattle.certificates.specs.Certificate.{claim_kind, claim_of};

use crate::cert_kind::CertKind;
use sparse_rows::Rows;

/// What a certificate claims besides the rank.
#[derive(Debug, Drop)]
pub enum Claim {
    /// Nothing.
    Rank,
    /// The reduced echelon form.
    Rref(Rows),
    /// The kernel basis.
    Kernel(Rows),
}

impl Claim {
    /// Its kind.
    pub fn kind(&self) -> CertKind
        ensures { result ≡ claim_kind (claim_of self.now) }
    {
        match self {
            Claim::Rank => CertKind::Rank,
            Claim::Rref(_) => CertKind::Rref,
            Claim::Kernel(_) => CertKind::Kernel,
        }
    }
}
