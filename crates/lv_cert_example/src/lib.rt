//! A worked certificate and its verdict, computed from the definitions. The function does nothing; its clause is the law.
#![tactic(auto)]

ghost use Rattle.lv_cert_example.specs.Laws.{WorkedCertificateIsValid};

/// The model of a valve is accepted, the certificate of its diagnosis after a command to open and no flow seen is valid for
/// it, and without its line 19, which splits the last zone that isn't empty, it is bad at the line that is then the 19th.
pub fn worked_certificate_is_valid()
    ensures { WorkedCertificateIsValid }
{}
