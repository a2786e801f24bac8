//! The program: runs a session of mode identification over the model of a plant, checks a certificate, or prints a model.
//! All that it does is `lv_run`'s; here it gets the words of the process, its files and its streams.
#![tactic(auto)]

use lv_io::{HostShelf, HostSink};
use lv_run::{RunFault, livingstone, report};
use std::alloc::Global;
use std::io::ErrorKind;
use std::process::ExitCode;
use std::{env, io};

fn main(rt: HostRuntime) -> ExitCode {
    let alloc = rt.alloc();
    let mut shelf = HostShelf::new(alloc, &rt);
    let mut out = HostSink::new(rt.stdout());
    let mut err = HostSink::new(rt.stderr());
    let status = match process_words(&rt) {
        Ok(words) => livingstone(alloc, words, &mut shelf, &mut out, &mut err),
        Err(_) => report(alloc, RunFault::OutOfMemory, &mut err),
    };
    ExitCode::from(status.code())
}

/// The words of the process, its own name first. There are none where one of them is no UTF-8, so that
/// they are refused; the error is want of memory.
fn process_words(rt: &HostRuntime) -> io::Result<Vec<String>> {
    let words = match env::args(rt) {
        Ok(words) => words,
        Err(error) if error.kind() == ErrorKind::OutOfMemory => return Err(error),
        Err(_) => return Ok(Vec::new(rt.alloc())),
    };
    Ok(words.collect(rt.alloc())?)
}
