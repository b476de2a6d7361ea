//! The law of certificates. It computes nothing: what it says is its contract.
ghost use Rattle.pip_certificates.specs.CertificateLaw.{CertificatesSay};

/// Where a text has the lines of the texts of parts of one image, with one base and one FROM, in any order, and these
/// could be merged to a whole, the parts say all that can happen to the image.
pub fn law_certified()
    ensures { CertificatesSay }
{}
