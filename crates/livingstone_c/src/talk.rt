//! A session with the text of its last reply.
#![tactic(auto)]

ghost use Rattle.std.specs.Prelude.{◌≡◌, [], IfOk, OnOk, OnErr, IsErr, true, false, length};
ghost use Rattle.lv_session.specs.Answering.{begun, next_at, SaysAt};

use crate::accepted::Accepted;
use lv_session::Session;
use std::alloc::{AllocError, Global};

/// A session and the text of its last reply. Once memory was wanting, no further line is answered.
#[derive(Drop)]
pub struct Talk {
    pub session: Session<'static>,
    pub reply: Vec<u8>,
    pub is_spent: bool,
}

impl Talk {
    /// A session at its start over a model.
    pub fn new(alloc: Global, accepted: &Accepted) -> Result<Box<Talk>, AllocError>
        ensures session { IfOk result (λ talk. talk.value.session ≡ begun accepted.now.compiled.now) }
        ensures reply { IfOk result (λ talk. talk.value.reply.items ≡ []) }
        ensures goes_on { IfOk result (λ talk. talk.value.is_spent ≡ false) }
    {
        let session = Session::new(alloc, accepted.compiled)?;
        let talk = Talk {
            session,
            reply: Vec::new(alloc),
            is_spent: false,
        };
        Ok(Box::new(alloc, talk)?)
    }

    /// Does what a line asks for, which is given without its end, keeps a text of the reply and answers its length.
    pub fn answer(&mut self, line: &[u8]) -> Result<usize, AllocError>
        ensures state { OnOk result (self.new.session ≡ next_at self.old.session line.now) }
        ensures text { OnOk result (SaysAt self.old.session line.now self.new.reply.items) }
        ensures length { IfOk result (λ n. n ≡ length self.new.reply.items) }
        ensures goes_on { OnOk result (self.new.is_spent ≡ false) }
        ensures spent { OnErr result (self.new.is_spent ≡ true) }
        ensures stays { self.old.is_spent ≡ true → IsErr result }
    {
        if self.is_spent {
            return Err(AllocError);
        }
        match self.session.answer_into(line, &mut self.reply) {
            Ok(()) => Ok(self.reply.len()),
            Err(error) => {
                self.is_spent = true;
                Err(error)
            }
        }
    }

    /// Whether the session has ended: exactly where a `quit` was accepted. Takes no memory.
    pub fn has_ended(&self) -> bool
        ensures { result ≡ self.now.session.state.is_ended }
    {
        self.session.ended()
    }

    /// Copies the text of the last reply to a place of its length, and leaves any other as it was.
    pub fn copy_reply(&self, out: &mut [u8])
        ensures copied { length out.old ≡ length self.now.reply.items → out.new ≡ self.now.reply.items }
        ensures room { length out.new ≡ length out.old }
    {
        if out.len() == self.reply.len() {
            out.copy_from_slice(self.reply.as_slice());
        }
    }
}
