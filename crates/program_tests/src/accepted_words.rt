//! Which words are accepted: what no clause says is that they are with ample memory.
#![tactic(auto)]

use lv_run_words::{Command, Kind, WordsFault, read_words};
use std::alloc::{AllocError, Global};

fn read(alloc: Global, words: &[&str]) -> Result<Result<Command, WordsFault>, AllocError> {
    let mut all = Vec::new(alloc);
    all.push(String::from_str(alloc, "livingstone")?)?;
    for word in words {
        all.push(String::from_str(alloc, word)?)?;
    }
    Ok(read_words(alloc, all.as_slice()))
}

/// Whether the words ask for this text.
fn generates(alloc: Global, words: &[&str], kind: Kind, number: u32) -> Result<bool, AllocError> {
    Ok(match read(alloc, words)? {
        Ok(Command::Generate { kind: k, number: n }) => k == kind && n == number,
        _ => false,
    })
}

/// Whether the words ask for the session of this number.
fn drives(alloc: Global, words: &[&str], number: u32) -> Result<bool, AllocError> {
    Ok(match read(alloc, words)? {
        Ok(Command::Drive { number: n }) => n == number,
        _ => false,
    })
}

/// Whether a command is the check of this certificate over this model.
fn is_check(command: &Command, of: &str, over: &str) -> bool {
    match command {
        Command::Check { model, cert } => model.as_str() == over && cert.as_str() == of,
        _ => false,
    }
}

/// Whether the words ask for that check.
fn checks(alloc: Global, words: &[&str], of: &str, over: &str) -> Result<bool, AllocError> {
    match read(alloc, words)? {
        Ok(command) => Ok(is_check(&command, of, over)),
        Err(_) => Ok(false),
    }
}

/// Whether a command is the run of this session over this model.
fn is_run(command: &Command, of: &str, over: &str) -> bool {
    match command {
        Command::Run { model, session, .. } => model.as_str() == over && session.as_str() == of,
        _ => false,
    }
}

/// Whether the words ask for that run.
fn runs(alloc: Global, words: &[&str], of: &str, over: &str) -> Result<bool, AllocError> {
    match read(alloc, words)? {
        Ok(command) => Ok(is_run(&command, of, over)),
        Err(_) => Ok(false),
    }
}

fn is_refused(alloc: Global, words: &[&str]) -> Result<bool, AllocError> {
    Ok(match read(alloc, words)? {
        Err(WordsFault::Refused) => true,
        _ => false,
    })
}

#[test]
fn numbers(rt: HostRuntime) -> Result<(), AllocError> {
    let alloc = rt.alloc();
    assert!(rt; generates(alloc, &["generate", "model", "31"], Kind::Model, 31)?);
    assert!(rt;
        generates(
            alloc,
            &["generate", "session", "1000000"],
            Kind::Session,
            1_000_000
        )?
    );
    assert!(rt; generates(alloc, &["generate", "--", "model", "007"], Kind::Model, 7)?);
    assert!(rt;
        drives(
            alloc,
            &["drive", "00000000000000000000000000000000000000000000001"],
            1
        )?
    );
    assert!(rt; is_refused(alloc, &["generate", "model", "0"])?);
    assert!(rt; is_refused(alloc, &["generate", "model", "1000001"])?);
    assert!(rt; is_refused(alloc, &["generate", "plant", "1"])?);
    assert!(rt; is_refused(alloc, &["generate", "model", ""])?);
    assert!(rt; is_refused(alloc, &["generate", "model", "1x"])?);
    assert!(rt; is_refused(alloc, &["drive", "+1"])?);
    assert!(rt; is_refused(alloc, &["drive", "340282366920938463463374607431768211457"])?);
    assert!(rt; is_refused(alloc, &["drive", "1", "1"])?);
    Ok(())
}

#[test]
fn names_of_a_check(rt: HostRuntime) -> Result<(), AllocError> {
    let alloc = rt.alloc();
    assert!(rt; checks(alloc, &["check", "m.lv", "c.cert"], "c.cert", "m.lv")?);
    assert!(rt; checks(alloc, &["check", "m", "--", "-c"], "-c", "m")?);
    assert!(rt; checks(alloc, &["check", "--", "--help", "--"], "--", "--help")?);
    assert!(rt; checks(alloc, &["check", "stdin", ""], "", "stdin")?);
    assert!(rt; is_refused(alloc, &["check", "m"])?);
    assert!(rt; is_refused(alloc, &["check", "m", "c", "d"])?);
    assert!(rt; is_refused(alloc, &["check", "m", "-c"])?);
    assert!(rt; is_refused(alloc, &["Check", "m", "c"])?);
    assert!(rt; is_refused(alloc, &["check "])?);
    Ok(())
}

#[test]
fn names_of_a_run(rt: HostRuntime) -> Result<(), AllocError> {
    let alloc = rt.alloc();
    assert!(rt; runs(alloc, &["run", "m", "s", "--"], "s", "m")?);
    assert!(rt; runs(alloc, &["lanes", "m", "--", "-"], "-", "m")?);
    assert!(rt; runs(alloc, &["plant", "--", "m", "-s"], "-s", "m")?);
    assert!(rt; runs(alloc, &["run", "--", "help", "-h"], "-h", "help")?);
    assert!(rt; is_refused(alloc, &["run", "m", "-"])?);
    assert!(rt; is_refused(alloc, &["run", "--help"])?);
    assert!(rt; is_refused(alloc, &["plant", "m"])?);
    assert!(rt; is_refused(alloc, &["help"])?);
    assert!(rt; is_refused(alloc, &["run", "m", "--", "--", "s", "t"])?);
    Ok(())
}
