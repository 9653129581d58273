// Laws of certificates as texts: each contract is a fact, and the body is empty.
ghost use Rattle.certificates.specs.Laws.{WrittenCertificateReadsBack};

/// The written text of a certificate reads as this certificate, whatever stands behind it.
pub fn written_certificate_reads_back()
    ensures { WrittenCertificateReadsBack }
{}
