//! Certificates from their bytes.
ghost use Rattle.std.specs.Prelude.{◌≡◌, ◌⊎◌, ◌+◌, ◌++◌, ◌<◌, ◌^◌, [], IfOk, IfErr};
ghost use Rattle.std.specs.List.{AllByRecursion};
ghost use Rattle.sd_cert.specs.Lines.{IsLine};
ghost use Rattle.sd_cert.specs.declared.certificate.Certificate.{Certificate as Spelled};
ghost use Rattle.sd_cert.specs.declared.fault.CertError.TheVariants.{NoMemory as Memory};
ghost use Rattle.sd_cert.specs.Certificates.{certificate_lines, certificate_text, IsCertificate};
ghost use Rattle.sd_cert.specs.Prefixes.{prefix_lines, phase_of};
ghost use Rattle.sd_cert.specs.Phases.{at_version, after_lines};
ghost use Rattle.sd_cert.specs.Text.{lines_text, BeginsWithoutLine};
ghost use Rattle.sd_cert.specs.Faults.{IsFault, IsLineFault, IsPlaceFault};

use crate::certificate::Certificate;
use crate::extend::next;
use crate::fault::CertError;
use crate::line::Line;
use crate::prefix::Prefix;
use crate::text::read_lines;
use std::alloc::Global;

/// The certificate that the bytes spell. `Version` has the number in a first line that is one of another version, and
/// `Line` the number of the first line, from 1, that has no form or can't stand where it stands; a line that is missing
/// counts as one.
pub fn read_certificate(alloc: Global, bytes: &[u8]) -> Result<Certificate, CertError>
    ensures found { IfOk result (λ c. IsCertificate c × (bytes.now ≡ certificate_text c)) }
    ensures only { (c : Spelled) → IsCertificate c → bytes.now ≡ certificate_text c →
        (result ≡ Ok c) ⊎ (result ≡ Err Memory) }
    ensures fault { IfErr result (IsFault bytes.now) }
{
    let (lines, rest) = read_lines(alloc, bytes)?;
    certificate_in(alloc, lines.as_slice(), rest)
}

/// The certificate that a text spells, which is these lines and a rest that begins without a line.
pub(crate) fn certificate_in(
    alloc: Global,
    lines: &[Line],
    rest: &[u8],
) -> Result<Certificate, CertError>
    requires fit { AllByRecursion IsLine lines.now }
    requires stop { BeginsWithoutLine rest.now }
    ensures found { IfOk result (λ c. (lines.now ≡ certificate_lines c) × (rest.now ≡ [])) }
    ensures fault { IfErr result (IsFault (lines_text lines.now ++ rest.now)) }
{
    let prefix = read_prefix(alloc, lines)?;
    match prefix {
        Prefix::Complete(certificate) if rest.is_empty() => Ok(certificate),
        _ => Err(CertError::Line(lines.len() as u64 + 1)),
    }
}

fn read_prefix(alloc: Global, lines: &[Line]) -> Result<Prefix, CertError>
    requires { AllByRecursion IsLine lines.now }
    ensures lines { IfOk result (λ prefix. prefix_lines prefix ≡ lines.now) }
    ensures phase { IfOk result (λ prefix. after_lines at_version lines.now ≡ Some (phase_of prefix)) }
    ensures fault { IfErr result (IsLineFault lines.now) }
{
    let mut prefix = Prefix::Empty;
    for (i, line) in lines.iter().enumerate() {
        match next(alloc, prefix, line)? {
            Some(longer) => prefix = longer,
            None => return Err(fault_at(i, line)),
        }
    }
    Ok(prefix)
}

fn fault_at(place: usize, line: &Line) -> CertError
    requires { place + 1 < 2 ^ 64 }
    ensures { IsPlaceFault place line.now result }
{
    match line {
        Line::Version(version) if place == 0 => CertError::Version(*version),
        _ => CertError::Line(place as u64 + 1),
    }
}
