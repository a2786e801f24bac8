//! The words that a line can begin with.
#![tactic(auto)]

ghost use Rattle.std.specs.Prelude.{◌≡◌};
ghost use Rattle.lv_session_request.specs.Forms.{first_word};

use lv_text::TokenLine;

/// The word that a line begins with.
#[derive(Clone, Copy, Debug, PartialEq, Eq)]
pub enum Word {
    Track,
    Budget,
    Command,
    Release,
    Observe,
    Retract,
    Goal,
    Drop,
    Diagnose,
    Recover,
    More,
    Commit,
    Conflicts,
    Certificate,
    Labels,
    States,
    Reset,
    Quit,
    Probe,
    Test,
    Window,
}

/// The word that a line begins with, if it is one of a session.
pub fn first_word(line: &TokenLine<'_>) -> Option<Word>
    ensures { result ≡ first_word line.now }
{
    if line.says(0, b"track") {
        Some(Word::Track)
    } else if line.says(0, b"budget") {
        Some(Word::Budget)
    } else if line.says(0, b"command") {
        Some(Word::Command)
    } else if line.says(0, b"release") {
        Some(Word::Release)
    } else if line.says(0, b"observe") {
        Some(Word::Observe)
    } else if line.says(0, b"retract") {
        Some(Word::Retract)
    } else if line.says(0, b"goal") {
        Some(Word::Goal)
    } else if line.says(0, b"drop") {
        Some(Word::Drop)
    } else if line.says(0, b"diagnose") {
        Some(Word::Diagnose)
    } else if line.says(0, b"recover") {
        Some(Word::Recover)
    } else if line.says(0, b"more") {
        Some(Word::More)
    } else if line.says(0, b"commit") {
        Some(Word::Commit)
    } else if line.says(0, b"conflicts") {
        Some(Word::Conflicts)
    } else if line.says(0, b"certificate") {
        Some(Word::Certificate)
    } else if line.says(0, b"labels") {
        Some(Word::Labels)
    } else if line.says(0, b"states") {
        Some(Word::States)
    } else if line.says(0, b"reset") {
        Some(Word::Reset)
    } else if line.says(0, b"quit") {
        Some(Word::Quit)
    } else if line.says(0, b"probe") {
        Some(Word::Probe)
    } else if line.says(0, b"test") {
        Some(Word::Test)
    } else if line.says(0, b"window") {
        Some(Word::Window)
    } else {
        None
    }
}
