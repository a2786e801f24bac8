//! A whole certificate from its bytes. Lines are read one after the other, each as far as its line feed and at the
//! place to which the lines before it led, up to the first that can't be read there. What a certificate says is not
//! looked at.
#![tactic(auto)]

ghost use Rattle.std.specs.Prelude.{◌≡◌, IfOk, IfErr, position};
ghost use Rattle.std.specs.List.{slice_split};
ghost use Rattle.lv_cert.specs.Words.{is_space, is_line_feed};
ghost use Rattle.lv_cert.specs.Reading.{line_of};
ghost use Rattle.lv_cert.specs.Form.{IsCertificate, has_ended};
ghost use Rattle.lv_cert.specs.Taking.{Takes, Tells};

use crate::cert::Cert;
use crate::line::Line;
use crate::order::{Place, place_after};
use crate::reading::line_of;
use crate::words::words;
use lv_base::Seq;
use std::alloc::{AllocError, Global};
use thiserror::Error;

/// Why bytes are not read as a certificate.
#[derive(Clone, Copy, Debug, PartialEq, Eq, Error)]
pub enum CertFault {
    /// The first line out of form or order, counted from 1. Where the text ends too early after whole lines, it is the
    /// line that would come next.
    #[error("line {0} is out of form")]
    Form(u64),
    /// Memory ran out. No clause says when.
    #[error("out of memory")]
    Memory,
}

impl From<AllocError> for CertFault {
    ghost use Rattle.lv_cert.specs.declared.whole.CertFault.TheVariants.{Memory};

    ghost from_gives = { λ _ fault. fault ≡ Memory };

    fn from(_failed: AllocError) -> CertFault {
        CertFault::Memory
    }
}

/// The first line of a text, the place behind it, and how many bytes it has with its line feed.
#[derive(Debug, Drop)]
pub struct Taken {
    pub line: Line,
    pub place: Place,
    pub length: usize,
}

/// The certificate that bytes are.
pub fn read_cert(alloc: Global, bytes: &[u8]) -> Result<Cert, CertFault>
    ensures cert { IfOk result (λ cert. IsCertificate bytes.now cert.lines) }
    ensures fault { IfErr result (λ fault. Tells bytes.now fault) }
{
    let mut lines = Seq::new(alloc);
    let mut place = Place::Start;
    let mut rest = bytes;
    while !has_ended(place, rest) {
        match take_line(alloc, place, rest)? {
            Some(
                Taken {
                    line,
                    place: next,
                    length,
                },
            ) => {
                lines.push(line)?;
                place = next;
                rest = &rest[length..];
            }
            None => return Err(CertFault::Form(lines.len() as u64 + 1)),
        }
    }
    Ok(Cert::new(lines))
}

/// Whether the certificate has ended, and the text with it.
fn has_ended(place: Place, rest: &[u8]) -> bool
    ensures { result ≡ has_ended place rest.now }
{
    matches!(place, Place::Done) && rest.is_empty()
}

/// The first line of a text, if it has its form and may come at the place.
fn take_line(alloc: Global, place: Place, text: &[u8]) -> Result<Option<Taken>, AllocError>
    ensures { IfOk result (λ taken. Takes place text.now taken) }
{
    let Some(at) = line_feed(text) else {
        return Ok(None);
    };
    let Some(line) = read_line(alloc, &text[..at])? else {
        return Ok(None);
    };
    match place_after(place, &line) {
        Some(next) => Ok(Some(Taken {
            line,
            place: next,
            length: at + 1,
        })),
        None => Ok(None),
    }
}

/// Where the first line feed stands.
fn line_feed(text: &[u8]) -> Option<usize>
    ensures { result ≡ position is_line_feed text.now }
{
    text.iter().position(|byte| *byte == b'\n')
}

/// The line that bytes are, which are given without its end.
fn read_line(alloc: Global, line: &[u8]) -> Result<Option<Line>, AllocError>
    ensures { IfOk result (λ read. read ≡ line_of (slice_split is_space line.now)) }
{
    let words = words(alloc, line)?;
    line_of(alloc, words.as_slice())
}
