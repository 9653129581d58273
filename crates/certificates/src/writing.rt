// Certificates written as texts.
ghost use Rattle.std.specs.Prelude.{length};
ghost use Rattle.sms_text.specs.Writing.{Adds, Writes, output};
ghost use Rattle.certificates.specs.Certificate.{certificate_of, claim_of};
ghost use Rattle.certificates.specs.CertificateText.{ClaimFitsText, HasText, certificate_text, claim_text, claim_word, title_line};

use crate::certificate::Certificate;
use crate::claim::Claim;
use sms_text::{BlockWriter, Sink, WriteFault, add_rows};

/// Writes the text of a certificate: its first line, a line for each pivot, and its matrices.
///
/// The sink is given blocks of more than 28672 bytes, and a last one of what is left. It takes no memory, and time proportional to the
/// pivots and the entries. `read` reads what was written as the same certificate: `written_certificate_reads_back` says so.
pub fn write<K: Sink>(out: &mut K, certificate: &Certificate) -> Result<(), WriteFault>
    requires { HasText (certificate_of certificate.now) }
    ensures { Writes result (certificate_text (certificate_of certificate.now))
        (K.state out.old) (K.state out.new) }
{
    let mut blocks = BlockWriter::new();
    add_title(out, &mut blocks, certificate)?;
    blocks.add_pairs(out, certificate.pivots.items())?;
    add_rows(out, &mut blocks, &certificate.l)?;
    add_rows(out, &mut blocks, &certificate.u)?;
    add_claim(out, &mut blocks, &certificate.claim)?;
    blocks.send(out)
}

// Adds the first line.
fn add_title<K: Sink>(
    out: &mut K,
    blocks: &mut BlockWriter,
    certificate: &Certificate,
) -> Result<(), WriteFault>
    ensures { Adds result
        (title_line (claim_word (claim_of certificate.now.claim)) certificate.now.p
        (length certificate.now.pivots))
        (output blocks.old (K.state out.old)) (output blocks.new (K.state out.new)) }
{
    let rank = certificate.pivots.items().len() as u64;
    blocks.add(out, b"certificate ")?;
    blocks.add(out, certificate.claim.kind().word())?;
    blocks.add_title(out, b" ", certificate.p, rank)
}

// Adds the text of the matrix that is claimed, if one is.
fn add_claim<K: Sink>(
    out: &mut K,
    blocks: &mut BlockWriter,
    claim: &Claim,
) -> Result<(), WriteFault>
    requires { ClaimFitsText (claim_of claim.now) }
    ensures { Adds result (claim_text (claim_of claim.now))
        (output blocks.old (K.state out.old)) (output blocks.new (K.state out.new)) }
{
    match claim {
        Claim::Rank => Ok(()),
        Claim::Rref(matrix) | Claim::Kernel(matrix) => add_rows(out, blocks, matrix),
    }
}
