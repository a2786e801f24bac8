//! A responder between two pieces of a session's text.
//!
//! Replies wait behind one another until the piece is done or enough of them wait, so that a piece of many lines is one
//! write. Nothing waits while the next piece is waited for.
#![tactic(auto)]

ghost use Rattle.std.specs.Prelude.{◌≡◌, ◌≢◌, ◌⊎◌, [], ◌∷◌, ◌++◌, ℕ, List, Option, Ok, Err, OnOk, OnErr, IfOk, true, false};
ghost use Rattle.std.specs.List.{list_any};
ghost use Rattle.std.specs.Io.KnownBytes.{append_known};
ghost use Rattle.lv_io.specs.Outside.{HasCause};
ghost use Rattle.lv_io.specs.Whole.{AddsFront};
ghost use Rattle.lv_text.specs.Lines.{is_line_feed, lines_of};
ghost use Rattle.lv_serve.specs.Ends.{ended};
ghost use Rattle.lv_serve.specs.Served.{AddsReplies, AddsFrontOfReplies};
ghost use Rattle.lv_serve.specs.Serving.{StandsAt, Waits, IsReplied, IsAnswered, IsCutOff, IsHandedOn, with_line};
ghost use Rattle.lv_serve.specs.declared.serving.Serving.{Serving as ServingOf};
ghost use Rattle.lv_serve.specs.Unfinished.{kept_of};

use crate::responder::Responder;
use crate::unfinished::Unfinished;
use crate::waiting::Waiting;
use lv_io::{IoFault, Sink, write_all};
use lv_text::lines::{first_line, last_line};
use std::alloc::{AllocError, Global};

/// How many bytes of replies are written at once, though the piece goes on.
const ENOUGH: usize = 65_536;

/// What answers, where it stands; the line that hasn't ended; and the replies that wait to be written.
#[derive(Drop)]
pub struct Serving<L> {
    at: L,
    line: Unfinished,
    /// The text of the last reply, whose room the next one is written in.
    text: Vec<u8>,
    replies: Waiting,
}

impl<L: Responder> Serving<L> {
    /// A responder to which nothing has come.
    pub fn new(alloc: Global, responder: L) -> Serving<L>
        ensures at { result.at ≡ responder }
        ensures line { result.line ≡ kept_of [] }
        ensures none { result.replies ≡ [] }
    {
        Serving {
            at: responder,
            line: Unfinished::new(alloc),
            text: Vec::new(alloc),
            replies: Waiting::new(alloc),
        }
    }

    /// No further line gets a reply.
    pub fn is_ended(&self) -> bool
        ensures { result ≡ L.has_ended self.now.at }
    {
        self.at.is_ended()
    }

    /// A piece has come: answers each line that ends in it, and writes the replies.
    pub fn serve_piece<O: Sink>(&mut self, piece: &[u8], out: &mut O) -> Result<(), IoFault>
        ensures ok { (start : L) (read : List ℕ) (before : Option (List ℕ)) → StandsAt L.next L.says start read before self.old (O.text out.old)
            → OnOk result (StandsAt L.next L.says start (read ++ piece.now) before self.new (O.text out.new)) }
        ensures none { OnOk result (self.new.replies ≡ []) }
        ensures err { (start : L) (read : List ℕ) (before : Option (List ℕ)) → StandsAt L.next L.says start read before self.old (O.text out.old)
            → OnErr result (AddsFrontOfReplies L.next L.says start (ended (read ++ piece.now)) before (O.text out.new)) }
        ensures flushed { O.is_flushed out.old ≡ true → OnOk result (O.is_flushed out.new ≡ true) }
        ensures cause { HasCause (O.faults out.old) (O.faults out.new) result }
    {
        self.answer_lines(piece, out)?;
        self.hand_on(out)
    }

    /// Nothing more comes: answers what stands behind the last line feed, if anything does, and writes the replies.
    pub fn finish<O: Sink>(&mut self, out: &mut O) -> Result<(), IoFault>
        ensures ok { (start : L) (read : List ℕ) (before : Option (List ℕ)) → StandsAt L.next L.says start read before self.old (O.text out.old)
            → OnOk result (AddsReplies L.next L.says start read before (O.text out.new)) }
        ensures err { (start : L) (read : List ℕ) (before : Option (List ℕ)) → StandsAt L.next L.says start read before self.old (O.text out.old)
            → OnErr result (AddsFrontOfReplies L.next L.says start read before (O.text out.new)) }
        ensures flushed { O.is_flushed out.old ≡ true → OnOk result (O.is_flushed out.new ≡ true) }
        ensures cause { HasCause (O.faults out.old) (O.faults out.new) result }
    {
        self.answer_last(out)?;
        self.hand_on(out)
    }

    /// Answers what stands behind the last line feed, if anything does.
    fn answer_last<O: Sink>(&mut self, out: &mut O) -> Result<(), IoFault>
        ensures ok { (start : L) (read : List ℕ) (before : Option (List ℕ)) → StandsAt L.next L.says start read before self.old (O.text out.old)
            → OnOk result (Waits L.next L.says start (lines_of read) before self.new.replies (O.text out.new)) }
        ensures err { (start : L) (read : List ℕ) (before : Option (List ℕ)) → StandsAt L.next L.says start read before self.old (O.text out.old)
            → OnErr result (AddsFrontOfReplies L.next L.says start read before (O.text out.new)) }
        ensures flushed { O.is_flushed out.old ≡ true → OnOk result (O.is_flushed out.new ≡ true) }
        ensures cause { HasCause (O.faults out.old) (O.faults out.new) result }
    {
        if self.line.is_empty() {
            return Ok(());
        }
        self.answer(out)
    }

    /// Answers each line that ends in a piece, and keeps what stands behind the last line feed.
    fn answer_lines<O: Sink>(&mut self, piece: &[u8], out: &mut O) -> Result<(), IoFault>
        ensures ok { (start : L) (read : List ℕ) (before : Option (List ℕ)) → StandsAt L.next L.says start read before self.old (O.text out.old)
            → OnOk result (StandsAt L.next L.says start (read ++ piece.now) before self.new (O.text out.new)) }
        ensures err { (start : L) (read : List ℕ) (before : Option (List ℕ)) → StandsAt L.next L.says start read before self.old (O.text out.old)
            → OnErr result (AddsFrontOfReplies L.next L.says start (ended (read ++ piece.now)) before (O.text out.new)) }
        ensures flushed { O.is_flushed out.old ≡ true → OnOk result (O.is_flushed out.new ≡ true) }
        ensures cause { HasCause (O.faults out.old) (O.faults out.new) result }
    {
        let mut rest = piece;
        while let Some((_, whole)) = first_line(rest) {
            self.end_line(&rest[..whole - 1], out)?;
            rest = &rest[whole..];
        }
        self.line.push(rest)?;
        Ok(())
    }

    /// The last bytes of a line have come, and its line feed: answers it. A line that came whole is answered where it stands in
    /// its piece.
    fn end_line<O: Sink>(&mut self, last: &[u8], out: &mut O) -> Result<(), IoFault>
        requires { list_any is_line_feed last.now ≡ false }
        ensures ok { (start : L) (read : List ℕ) (before : Option (List ℕ)) → StandsAt L.next L.says start read before self.old (O.text out.old)
            → OnOk result (StandsAt L.next L.says start ((read ++ last.now) ++ 10 ∷ []) before self.new (O.text out.new)) }
        ensures err { (start : L) (read : List ℕ) (before : Option (List ℕ)) → StandsAt L.next L.says start read before self.old (O.text out.old)
            → OnErr result (AddsFrontOfReplies L.next L.says start (ended ((read ++ last.now) ++ 10 ∷ [])) before (O.text out.new)) }
        ensures flushed { O.is_flushed out.old ≡ true → OnOk result (O.is_flushed out.new ≡ true) }
        ensures cause { HasCause (O.faults out.old) (O.faults out.new) result }
    {
        if self.line.is_empty() {
            return self.answer_whole(last, out);
        }
        self.line.push(last)?;
        self.answer(out)
    }

    /// Answers the line that has come.
    fn answer<O: Sink>(&mut self, out: &mut O) -> Result<(), IoFault>
        ensures ok { OnOk result (IsAnswered L.next L.says self.old self.new (O.text out.old) (O.text out.new)) }
        ensures err { OnErr result (IsCutOff L.next L.says self.old (O.text out.old) (O.text out.new)) }
        ensures flushed { O.is_flushed out.old ≡ true → OnOk result (O.is_flushed out.new ≡ true) }
        ensures cause { HasCause (O.faults out.old) (O.faults out.new) result }
    {
        let answered = self.put_reply();
        self.hand_on_behind(answered, out)
    }

    /// Answers a line that came whole, given without its line feed, as if it had come and been kept.
    fn answer_whole<O: Sink>(&mut self, line: &[u8], out: &mut O) -> Result<(), IoFault>
        ensures ok { OnOk result (IsAnswered L.next L.says (with_line line.now self.old) self.new (O.text out.old) (O.text out.new)) }
        ensures err { OnErr result (IsCutOff L.next L.says (with_line line.now self.old) (O.text out.old) (O.text out.new)) }
        ensures flushed { O.is_flushed out.old ≡ true → OnOk result (O.is_flushed out.new ≡ true) }
        ensures cause { HasCause (O.faults out.old) (O.faults out.new) result }
    {
        let answered = self.put_reply_to(line);
        self.hand_on_behind(answered, out)
    }

    /// Carries the line out and puts a text of its reply behind those that wait.
    fn put_reply(&mut self) -> Result<(), AllocError>
        ensures ok { OnOk result (IsReplied L.next L.says self.old self.new) }
        ensures err { OnErr result (self.new.replies ≡ self.old.replies) }
    {
        self.at.answer(self.line.line(), &mut self.text)?;
        self.put_text()
    }

    /// The same of a line that came whole.
    fn put_reply_to(&mut self, line: &[u8]) -> Result<(), AllocError>
        ensures ok { OnOk result (IsReplied L.next L.says (with_line line.now self.old) self.new) }
        ensures err { OnErr result (self.new.replies ≡ self.old.replies) }
    {
        self.at.answer(&line[..last_line(line)], &mut self.text)?;
        self.put_text()
    }

    /// Puts the text of the last reply behind those that wait. The next line begins.
    fn put_text(&mut self) -> Result<(), AllocError>
        ensures ok { OnOk result (self.new ≡ record self.old { line = kept_of []; replies = self.old.replies ++ self.old.text.items }) }
        ensures err { OnErr result (self.new.replies ≡ self.old.replies) }
    {
        self.replies.push(self.text.as_slice())?;
        self.line.clear();
        Ok(())
    }

    /// Writes the replies where enough of them wait, or where memory was wanting for the last line's, so that none of those before
    /// is lost.
    fn hand_on_behind<O: Sink>(
        &mut self,
        answered: Result<(), AllocError>,
        out: &mut O,
    ) -> Result<(), IoFault>
        ensures ok { (before : ServingOf L) → OnOk answered (IsReplied L.next L.says before self.old)
            → OnOk result (IsAnswered L.next L.says before self.new (O.text out.old) (O.text out.new)) }
        ensures err { (before : ServingOf L) → OnOk answered (IsReplied L.next L.says before self.old) → OnErr answered (self.old.replies ≡ before.replies)
            → OnErr result (IsCutOff L.next L.says before (O.text out.old) (O.text out.new)) }
        ensures flushed { O.is_flushed out.old ≡ true → OnOk result (O.is_flushed out.new ≡ true) }
        ensures cause { HasCause (O.faults out.old) (O.faults out.new) result }
    {
        let waiting = self.replies.len();
        self.hand_on_if(answered.is_err() || waiting >= ENOUGH, out)?;
        answered?;
        Ok(())
    }

    /// Writes the replies that wait, where that is due.
    fn hand_on_if<O: Sink>(&mut self, is_due: bool, out: &mut O) -> Result<(), IoFault>
        ensures ok { OnOk result (IsHandedOn self.old self.new (O.text out.old) (O.text out.new)) }
        ensures front { AddsFront self.old.replies (O.text out.old) (O.text out.new) }
        ensures flushed { O.is_flushed out.old ≡ true → OnOk result (O.is_flushed out.new ≡ true) }
        ensures cause { HasCause (O.faults out.old) (O.faults out.new) result }
    {
        if is_due { self.hand_on(out) } else { Ok(()) }
    }

    /// Writes the replies that wait, and flushes them.
    fn hand_on<O: Sink>(&mut self, out: &mut O) -> Result<(), IoFault>
        ensures ok { OnOk result (O.text out.new ≡ append_known (O.text out.old) self.old.replies) }
        ensures none { OnOk result (self.new ≡ record self.old { replies = [] }) }
        ensures front { AddsFront self.old.replies (O.text out.old) (O.text out.new) }
        ensures flushed { O.is_flushed out.old ≡ true → OnOk result (O.is_flushed out.new ≡ true) }
        ensures cause { HasCause (O.faults out.old) (O.faults out.new) result }
    {
        if self.replies.len() == 0 {
            return Ok(());
        }
        write_all(out, self.replies.as_slice())?;
        self.replies.clear();
        out.flush()
    }
}
