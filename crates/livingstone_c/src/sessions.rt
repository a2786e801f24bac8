//! What C calls of sessions.
#![tactic(auto)]

ghost use Rattle.std.specs.Prelude.{◌≡◌, ◌≢◌, ◌≤◌, None, true, false, length, IfSome};
ghost use Rattle.std.specs.Option.{IsSomeAnd};
ghost use Rattle.lv_session.specs.Answering.{begun};
ghost use Rattle.livingstone_c.specs.Answers.{Answers};

use crate::model_handle::ModelHandle;
use crate::session_handle::SessionHandle;
use crate::talk::Talk;
use std::alloc::Global;

/// Opens a session at its start over a model: 0, or 2.
#[unsafe(no_mangle)]
pub extern "C" fn lv_open_session(
    alloc: Global,
    model: &mut ModelHandle,
    session: &mut SessionHandle,
) -> u32
    requires open { model.old.held ≢ None }
    requires closed { session.old.held ≡ None }
    ensures model { model.new.held ≡ model.old.held }
    ensures begun { result ≡ 0 → IsSomeAnd model.old.held (λ held. IsSomeAnd session.new.held (λ talk. talk.session ≡ begun held.compiled.now)) }
    ensures goes_on { IfSome session.new.held (λ talk. talk.is_spent ≡ false) }
    ensures closed { result ≢ 0 → session.new.held ≡ None }
    ensures number { result ≤ 2 }
{
    let held = model.take(alloc);
    let begun = Talk::new(alloc, &held);
    *model = ModelHandle::of(held);
    match begun {
        Ok(talk) => {
            *session = SessionHandle::of(talk);
            0
        }
        Err(_) => 2,
    }
}

/// Does what a line asks for, which is given without its end, and keeps the text of the reply: 0 with its length, or 2.
/// Once it was 2, it is 2 for good.
#[unsafe(no_mangle)]
pub extern "C" fn lv_answer(
    alloc: Global,
    session: &mut SessionHandle,
    line: &[u8],
    reply_length: &mut usize,
) -> u32
    requires open { session.old.held ≢ None }
    ensures open { session.new.held ≢ None }
    ensures done { result ≡ 0 → IsSomeAnd session.old.held (λ before. IsSomeAnd session.new.held (λ after. Answers line.now before after reply_length.new)) }
    ensures spent { result ≢ 0 → IsSomeAnd session.new.held (λ after. after.is_spent ≡ true) }
    ensures stays { IfSome session.old.held (λ before. before.is_spent ≡ true → result ≡ 2) }
    ensures number { result ≤ 2 }
{
    let mut talk = session.take(alloc);
    let number = answer(&mut talk, line, reply_length);
    *session = SessionHandle::of(talk);
    number
}

/// The same of the session itself.
fn answer(talk: &mut Talk, line: &[u8], reply_length: &mut usize) -> u32
    ensures done { result ≡ 0 → Answers line.now talk.old talk.new reply_length.new }
    ensures spent { result ≢ 0 → talk.new.is_spent ≡ true }
    ensures stays { talk.old.is_spent ≡ true → result ≡ 2 }
    ensures number { result ≤ 2 }
{
    match talk.answer(line) {
        Ok(length) => {
            *reply_length = length;
            0
        }
        Err(_) => 2,
    }
}

/// Copies the text of the last reply to a place of its length, and leaves any other as it was.
#[unsafe(no_mangle)]
pub extern "C" fn lv_copy_reply(alloc: Global, session: &mut SessionHandle, out: &mut [u8])
    requires open { session.old.held ≢ None }
    ensures session { session.new.held ≡ session.old.held }
    ensures copied { IsSomeAnd session.old.held (λ talk. length out.old ≡ length talk.reply.items → out.new ≡ talk.reply.items) }
{
    let talk = session.take(alloc);
    talk.copy_reply(out);
    *session = SessionHandle::of(talk);
}

/// Whether a session has ended: exactly where a `quit` was accepted. Later lines get no reply and change nothing.
#[unsafe(no_mangle)]
pub extern "C" fn lv_has_ended(alloc: Global, session: &mut SessionHandle) -> bool
    requires open { session.old.held ≢ None }
    ensures session { session.new.held ≡ session.old.held }
    ensures ended { IsSomeAnd session.old.held (λ talk. result ≡ talk.session.state.is_ended) }
{
    let talk = session.take(alloc);
    let has_ended = talk.has_ended();
    *session = SessionHandle::of(talk);
    has_ended
}

/// Closes a session, and gives its memory back.
#[unsafe(no_mangle)]
pub extern "C" fn lv_close_session(alloc: Global, session: &mut SessionHandle)
    requires open { session.old.held ≢ None }
    ensures closed { session.new.held ≡ None }
{
    let _talk = session.take(alloc);
}
