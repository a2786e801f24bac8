//! What holds of certificates whatever their text. Each function does nothing: its contract is the law, which callers
//! above cite by calling it. Together with what `read_cert` promises they say that it accepts exactly the certificates,
//! each as its own lines, and tells the one fault of all other bytes.
#![tactic(auto)]

ghost use Rattle.lv_cert.specs.Laws.{LineReadsBack, CertificateIsOne, FaultIsOne, FaultIsNoCertificate, EveryTextIsRead};

/// A line in its form, written and read, is that line.
pub fn line_reads_back()
    ensures { LineReadsBack }
{}

/// Bytes are one certificate at most. So a certificate in form and order, written and read, is that certificate.
pub fn certificate_is_one()
    ensures { CertificateIsOne }
{}

/// Bytes have one first line out of form or order at most.
pub fn fault_is_one()
    ensures { FaultIsOne }
{}

/// Bytes that have a line out of form or order are no certificate.
pub fn fault_is_no_certificate()
    ensures { FaultIsNoCertificate }
{}

/// Bytes are a certificate, or have a first line out of form or order.
pub fn every_text_is_read()
    ensures { EveryTextIsRead }
{}
