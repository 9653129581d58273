// A certificate's first line.
ghost use Rattle.std.specs.Prelude.{◌≡◌, false, MatchOption};
ghost use Rattle.sms_text.specs.OuterLines.{is_certificate};
ghost use Rattle.certificates.specs.CertificateParts.{IsCertificateTitle};

use crate::cert_kind::CertKind;
use residue_words::MODULUS_BOUND;
use sms_text::{LARGEST_TEXT_SIZE, Line};

// What a certificate's first line says: its kind, its modulus and its rank.
#[derive(Clone, Copy)]
pub(crate) struct CertificateTitle {
    pub kind: CertKind,
    pub p: u64,
    pub rank: u32,
}

impl CertificateTitle {
    // What the words of a line say, if they are of a first line's form.
    pub(crate) fn of(line: &Line) -> Option<CertificateTitle>
        ensures { MatchOption result (is_certificate line.now.words ≡ false)
            (IsCertificateTitle line.now.words) }
    {
        if line.count() != 4 || line.word(0) != b"certificate".as_slice() {
            return None;
        }
        let kind = CertKind::of_word(line.word(1))?;
        let p = line.number_up_to(2, MODULUS_BOUND - 1)?;
        let rank = line.number_up_to(3, u64::from(LARGEST_TEXT_SIZE))?;
        Some(CertificateTitle {
            kind,
            p,
            rank: rank as u32,
        })
    }
}
