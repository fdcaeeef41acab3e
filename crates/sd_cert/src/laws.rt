//! What holds of all certificates.
ghost use Rattle.std.specs.Prelude.{◌≡◌};
ghost use Rattle.sd_cert.specs.declared.certificate.Certificate.{Certificate};
ghost use Rattle.sd_cert.specs.OneTable.{ShowsOneTable};
ghost use Rattle.sd_cert.specs.OneFault.{HasOneFault, AcceptedHasNoFault};
ghost use Rattle.sd_cert.specs.Written.{WrittenIsAccepted};
ghost use Rattle.sd_cert.specs.Certificates.{certificate_text, IsCertificate};

/// No bytes spell two certificates.
pub fn one_spelling()
    ensures { (c d : Certificate) → IsCertificate c → IsCertificate d →
        certificate_text c ≡ certificate_text d → c ≡ d }
{}

/// The bytes of a certificate are accepted with one table.
pub fn one_table()
    ensures { ShowsOneTable }
{}

/// The bytes of a certificate that is refused have one fault, and those of one that is accepted have none.
pub fn one_fault()
    ensures one { HasOneFault }
    ensures none { AcceptedHasNoFault }
{}

/// What is written of the proofs of a table is accepted with this table.
pub fn written_is_accepted()
    ensures { WrittenIsAccepted }
{}
