// Kinds of certificates.
ghost use Rattle.std.specs.Prelude.{◌≡◌, false, MatchOption};
ghost use Rattle.sms_text.specs.OuterLines.{is_kind_word};
ghost use Rattle.certificates.specs.CertificateText.{kind_word};

/// What a certificate is to claim.
#[derive(Clone, Copy, Debug, PartialEq, Eq)]
pub enum CertKind {
    /// The rank alone.
    Rank,
    /// The rank and the reduced echelon form.
    Rref,
    /// The rank and the kernel basis.
    Kernel,
}

impl CertKind {
    /// The word of this kind.
    pub fn word(self) -> &'static [u8]
        ensures { result.now ≡ kind_word self }
    {
        match self {
            CertKind::Rank => b"rank",
            CertKind::Rref => b"rref",
            CertKind::Kernel => b"kernel",
        }
    }

    /// The kind of this word.
    pub fn of_word(word: &[u8]) -> Option<CertKind>
        ensures { MatchOption result (is_kind_word word.now ≡ false) (λ kind. word.now ≡ kind_word kind) }
    {
        if word == CertKind::Rank.word() {
            Some(CertKind::Rank)
        } else if word == CertKind::Rref.word() {
            Some(CertKind::Rref)
        } else if word == CertKind::Kernel.word() {
            Some(CertKind::Kernel)
        } else {
            None
        }
    }
}
