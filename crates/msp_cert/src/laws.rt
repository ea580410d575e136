// What is fixed by number, and that accepted certificates bound the cost of every feasible schedule.
ghost use Rattle.msp_cert.specs.Certificates.{LawOfCertificates};
ghost use Rattle.msp_cert.specs.Limits.{AreLimits};

/// The limits by their numbers.
pub fn law_of_limits()
    ensures { AreLimits }
{}

/// No feasible schedule over any unit costs less than the value of a proof whose evidence holds, nor less than the bound of a certificate
/// that is accepted.
pub fn law_of_certificates()
    ensures { LawOfCertificates }
{}
