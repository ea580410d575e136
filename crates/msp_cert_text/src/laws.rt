// What is fixed by number, and that certificate texts are read in one way.
ghost use Rattle.msp_cert_text.specs.Answers.{LawOfCertificateTexts};
ghost use Rattle.msp_cert_text.specs.Limits.{AreLimits};

/// The limits by their numbers.
pub fn law_of_limits()
    ensures { AreLimits }
{}

/// Bytes are a certificate text, for jobs of given names and a number of machines, exactly where they have no first fault, and each
/// certificate and each first fault is the only one.
pub fn law_of_certificate_texts()
    ensures { LawOfCertificateTexts }
{}
