//! Certificates of answers as texts. A certificate states a question and its answer, and then, line by line, what
//! shows that the answer is right, so that a small checker can judge it that need trust no search. This crate only
//! writes such texts and reads them back; whether what a certificate says is right is judged elsewhere.
//!
//! - `line`: the lines of a certificate as values.
//! - `cert`: a certificate, lines in order.
//! - `writing`: their text.
//! - `numbers`, `words`, `reading`: the line that bytes are.
//! - `order`: which line may come where.
//! - `whole`: the certificate that bytes are, or the first line out of form or order.
//! - `laws`: what holds of certificates whatever their text.
#![tactic(auto)]

pub mod cert;
pub mod laws;
pub mod line;
pub mod numbers;
pub mod order;
pub mod reading;
pub mod whole;
pub mod words;
pub mod writing;

pub use cert::Cert;
pub use line::{Evidence, Head, Line, Literal, Moment, Question};
pub use whole::{CertFault, read_cert};
pub use writing::write_cert;
