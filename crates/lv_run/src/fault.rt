//! What ends a run before it is done. A fault knows more than the status that it comes to: of a refused model also
//! why, and where.

ghost use Rattle.std.specs.Prelude.{◌≡◌, ◌++◌, IfOk, decimal};
ghost use Rattle.lv_run.specs.Faults.{status_of, line_of, model_line, two_digits, fault_of_sink, fault_of_serving, fault_of_text, fault_of_words};
ghost use Rattle.lv_run.specs.declared.fault.RunFault.TheVariants.{OutOfMemory as NoMemory};

use crate::status::Status;
use itoa::Buffer;
use lv_io::IoFault;
use lv_reader::{ModelCode, ModelFault};
use lv_run_words::WordsFault;
use lv_serve::ServeFault;
use std::alloc::{AllocError, Global};

/// The line that tells which words are taken.
const USAGE: &str =
    "usage: livingstone run MODEL SESSION, check MODEL CERT, print MODEL, generate KIND N, drive N, lanes MODEL SESSION, plant MODEL SCRIPT\n";

/// The line for want of memory, which is written without taking any.
pub const OUT_OF_MEMORY: &str = "out of memory\n";

/// Why a run ended before it was done.
#[derive(Clone, Copy, Debug, PartialEq, Eq)]
pub enum RunFault {
    WordsRefused,
    /// Why the model's text is refused, and on which line.
    ModelRefused { code: ModelCode, line: usize },
    ModelUnread,
    SessionUnread,
    CertificateUnread,
    OutputFailed,
    SessionTooLong,
    CertificateTooLong,
    OutOfMemory,
}

/// Adds a number.
pub fn push_number(out: &mut Vec<u8>, n: u64) -> Result<(), AllocError>
    ensures { IfOk result (λ _. out.new.items ≡ out.old.items ++ decimal n) }
{
    let mut buffer = Buffer::new();
    out.extend_from_slice(buffer.format(n).as_bytes())?;
    Ok(())
}

/// Adds a number with at least two digits.
fn push_two_digits(out: &mut Vec<u8>, n: u32) -> Result<(), AllocError>
    ensures { IfOk result (λ _. out.new.items ≡ out.old.items ++ two_digits n) }
{
    if n < 10 {
        out.extend_from_slice(b"0")?;
        push_number(out, n as u64)
    } else {
        push_number(out, n as u64)
    }
}

/// The line that tells a refused model.
fn model_line(alloc: Global, code: ModelCode, line: usize) -> Result<Vec<u8>, AllocError>
    ensures { IfOk result (λ text. text.items ≡ model_line code line) }
{
    let mut text = Vec::from_slice(alloc, b"model ")?;
    push_number(&mut text, line as u64)?;
    text.extend_from_slice(b" M")?;
    push_two_digits(&mut text, code.number())?;
    text.extend_from_slice(b"\n")?;
    Ok(text)
}

impl RunFault {
    /// The status that a call ends with.
    pub fn status(self) -> Status
        ensures { result ≡ status_of self }
    {
        match self {
            RunFault::WordsRefused => Status::WordsRefused,
            RunFault::ModelRefused { .. } => Status::ModelRefused,
            RunFault::ModelUnread => Status::ModelUnread,
            RunFault::SessionUnread => Status::SecondUnread,
            RunFault::CertificateUnread => Status::SecondUnread,
            RunFault::OutputFailed => Status::OutputFailed,
            RunFault::SessionTooLong => Status::SecondTooLong,
            RunFault::CertificateTooLong => Status::SecondTooLong,
            RunFault::OutOfMemory => Status::OutOfMemory,
        }
    }

    /// The line that tells it on standard error, with its line feed; empty for a failure of the output, which is not
    /// told.
    #[tactic(auto, unfolding(crate::specs::Faults::line_of))]
    pub fn line(self, alloc: Global) -> Result<Vec<u8>, AllocError>
        ensures { IfOk result (λ text. text.items ≡ line_of self) }
    {
        match self {
            RunFault::WordsRefused => Vec::from_slice(alloc, USAGE.as_bytes()),
            RunFault::ModelRefused { code, line } => model_line(alloc, code, line),
            RunFault::ModelUnread => Vec::from_slice(alloc, b"cannot read model\n"),
            RunFault::SessionUnread => Vec::from_slice(alloc, b"cannot read session\n"),
            RunFault::CertificateUnread => Vec::from_slice(alloc, b"cannot read certificate\n"),
            RunFault::OutputFailed => Ok(Vec::new(alloc)),
            RunFault::SessionTooLong => Vec::from_slice(alloc, b"session too long\n"),
            RunFault::CertificateTooLong => Vec::from_slice(alloc, b"certificate too long\n"),
            RunFault::OutOfMemory => Vec::from_slice(alloc, OUT_OF_MEMORY.as_bytes()),
        }
    }
}

/// What a fault of writing ends a run with.
impl From<IoFault> for RunFault {
    ghost from_gives = { λ fault ended. ended ≡ fault_of_sink fault };

    fn from(fault: IoFault) -> RunFault {
        match fault {
            IoFault::Failed => RunFault::OutputFailed,
            IoFault::Memory => RunFault::OutOfMemory,
        }
    }
}

/// What a fault of serving ends a run with.
impl From<ServeFault> for RunFault {
    ghost from_gives = { λ fault ended. ended ≡ fault_of_serving fault };

    fn from(fault: ServeFault) -> RunFault {
        match fault {
            ServeFault::Read => RunFault::SessionUnread,
            ServeFault::Write => RunFault::OutputFailed,
            ServeFault::TooLong => RunFault::SessionTooLong,
            ServeFault::Memory => RunFault::OutOfMemory,
        }
    }
}

/// What a fault of a model's text ends a run with.
impl From<ModelFault> for RunFault {
    ghost from_gives = { λ fault ended. ended ≡ fault_of_text fault };

    fn from(fault: ModelFault) -> RunFault {
        match fault {
            ModelFault::At { code, line } => RunFault::ModelRefused { code, line },
            ModelFault::Memory => RunFault::OutOfMemory,
        }
    }
}

/// What want of memory ends a run with.
impl From<AllocError> for RunFault {
    ghost from_gives = { λ _ ended. ended ≡ NoMemory };

    fn from(_error: AllocError) -> RunFault {
        RunFault::OutOfMemory
    }
}

/// What a fault of the words ends a run with.
impl From<WordsFault> for RunFault {
    ghost from_gives = { λ fault ended. ended ≡ fault_of_words fault };

    fn from(fault: WordsFault) -> RunFault {
        match fault {
            WordsFault::Refused => RunFault::WordsRefused,
            WordsFault::Memory => RunFault::OutOfMemory,
        }
    }
}
