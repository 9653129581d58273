// Certificates read from texts.
ghost use Rattle.std.specs.Prelude.{◌≡◌, ◌<◌, ◌≤◌, ℕ, [], ◌∷◌, false, true, None, All, IfOk, MatchOption, length};
ghost use Rattle.residue_words.specs.declared.modulus.TheConstants.{MODULUS_BOUND};
ghost use Rattle.sms_text.specs.declared.reader.TheConstants.{LARGEST_TEXT_SIZE};
ghost use Rattle.sms_text.specs.OuterLines.{is_pivot};
ghost use Rattle.sms_text.specs.OuterLines as form;
ghost use Rattle.sms_text.specs.Parts.{PartDid, SaysLines, wants};
ghost use Rattle.sms_text.specs.Reading.{input};
ghost use Rattle.sms_text.specs.Text.{Outer, pivot_lines};
ghost use Rattle.certificates.specs.Certificate.{AreModulo, certificate_of, claim_of};
ghost use Rattle.certificates.specs.CertificateParts.{SaysCertificateTitle, SaysClaim, claim_due};
ghost use Rattle.certificates.specs.CertificateText.{ClaimFitsText, HasText, IsTextPlace, SaysCertificate, pivot_of};

use crate::cert_kind::CertKind;
use crate::certificate::Certificate;
use crate::certificate_title::CertificateTitle;
use crate::claim::Claim;
use residue_words::Modulus;
use residue_words::plain::Pair;
use sms_text::{Kind, LARGEST_TEXT_SIZE, Line, Reader, Source, TextError, read_rows};
use sparse_rows::List;
use std::alloc::Global;

/// Reads a certificate: its first line, the lines of its pivots, and its matrices modulo p, whichever modulus its first line gives.
///
/// What stands behind it is left for the next call. After a fault of the text or of the source the reader answers this error from then on,
/// and so it does where it wanted memory itself; where the pivots or a matrix wanted memory, it stands behind the last line that it took.
///
/// Memory is wanted for the pivots as they are read, 8 bytes each and 24 for a moment where their room grows, so that a large rank alone
/// takes none; and for the matrices as `read_rows` wants it. The time is that of reading the lines and of sorting each row.
pub fn read<S: Source>(
    reader: &mut Reader,
    alloc: Global,
    source: &mut S,
    p: &Modulus,
) -> Result<Certificate, TextError>
    requires { reader.old.open_text ≡ None }
    ensures did { PartDid (wants p.now (Outer form.Certificate ∷ [])) (SaysCertificate p.now)
        (input reader.old (S.state source.old)) (input reader.new (S.state source.new)) result }
    ensures modulus { IfOk result (AreModulo p.now) }
    ensures fits { IfOk result (λ c. HasText (certificate_of c)) }
    ensures closed { IfOk result (λ c. reader.new.open_text ≡ None) }
{
    let title = read_title(reader, source)?;
    let pivots = read_pivots(reader, alloc, source, title.rank)?;
    let l = read_rows(reader, alloc, source, p)?;
    let u = read_rows(reader, alloc, source, p)?;
    let claim = read_claim(reader, alloc, source, title.kind, p)?;
    Ok(Certificate {
        p: title.p,
        pivots,
        l,
        u,
        claim,
    })
}

// Reads the first line.
fn read_title<S: Source>(reader: &mut Reader, source: &mut S) -> Result<CertificateTitle, TextError>
    requires { reader.old.open_text ≡ None }
    ensures did { (p : ℕ) → PartDid (wants p (Outer form.Certificate ∷ [])) SaysCertificateTitle
        (input reader.old (S.state source.old)) (input reader.new (S.state source.new)) result }
    ensures sizes { IfOk result (λ t. (t.p < MODULUS_BOUND) × (t.rank ≤ LARGEST_TEXT_SIZE)) }
    ensures closed { reader.new.open_text ≡ None }
{
    let line = reader.words(source)?;
    match CertificateTitle::of(&line) {
        Some(title) => Ok(title),
        None => Err(reader.refuse(line.number(), Kind::Certificate)),
    }
}

// Reads the lines of so many pivots.
fn read_pivots<S: Source>(
    reader: &mut Reader,
    alloc: Global,
    source: &mut S,
    rank: u32,
) -> Result<List<Pair>, TextError>
    requires sound { reader.old.error ≡ None }
    requires closed { reader.old.open_text ≡ None }
    ensures did { (p : ℕ) → PartDid (wants p (pivot_lines rank)) (SaysLines pivot_of)
        (input reader.old (S.state source.old)) (input reader.new (S.state source.new)) result }
    ensures count { IfOk result (λ pivots. length pivots ≡ rank) }
    ensures places { IfOk result (All IsTextPlace) }
    ensures closed { reader.new.open_text ≡ None }
{
    let mut pivots = List::new(alloc);
    for _ in 0..rank {
        let line = reader.words(source)?;
        let Some(pivot) = pivot_at(&line) else {
            return Err(reader.refuse(line.number(), Kind::Certificate));
        };
        if pivots.push(pivot).is_err() {
            return Err(TextError::Memory);
        }
    }
    Ok(pivots)
}

// The pivot that the words of a line give, if they are of its form.
fn pivot_at(line: &Line) -> Option<Pair>
    ensures { MatchOption result (is_pivot line.now.words ≡ false)
        (λ q. (is_pivot line.now.words ≡ true) × (q ≡ pivot_of line.now.words) × IsTextPlace q) }
{
    if line.count() != 2 {
        return None;
    }
    let row = line.number_up_to(0, u64::from(LARGEST_TEXT_SIZE))?;
    let col = line.number_up_to(1, u64::from(LARGEST_TEXT_SIZE))?;
    if row == 0 || col == 0 {
        return None;
    }
    Some(Pair {
        row: (row - 1) as u32,
        col: (col - 1) as u32,
    })
}

// Reads what is claimed: the matrix behind the factors, for the kinds that claim one.
fn read_claim<S: Source>(
    reader: &mut Reader,
    alloc: Global,
    source: &mut S,
    kind: CertKind,
    p: &Modulus,
) -> Result<Claim, TextError>
    requires sound { reader.old.error ≡ None }
    requires closed { reader.old.open_text ≡ None }
    ensures did { PartDid (wants p.now (claim_due kind)) (SaysClaim p.now kind)
        (input reader.old (S.state source.old)) (input reader.new (S.state source.new)) result }
    ensures fits { IfOk result (λ claim. ClaimFitsText (claim_of claim)) }
    ensures closed { IfOk result (λ claim. reader.new.open_text ≡ None) }
{
    match kind {
        CertKind::Rank => Ok(Claim::Rank),
        CertKind::Rref => {
            let form = read_rows(reader, alloc, source, p)?;
            Ok(Claim::Rref(form))
        }
        CertKind::Kernel => {
            let basis = read_rows(reader, alloc, source, p)?;
            Ok(Claim::Kernel(basis))
        }
    }
}
