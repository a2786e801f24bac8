//! The text of a reply: its lines, each with a line feed.
#![tactic(auto)]

ghost use Rattle.std.specs.Prelude.{◌≡◌, OnOk};
ghost use Rattle.lv_reply.specs.Texts.{refusal_text, reply_text};

use crate::conflicts::{command_conflicts_text, conflicts_text, window_conflicts_text};
use crate::diagnosis::{settled_text, unsettled_text};
use crate::labels::labels_text;
use crate::probes::probe_text;
use crate::recovery::{commands_text, undecided_text};
use crate::reply::{Refusal, Reply};
use crate::states::{committed_text, states_text};
use lv_model::Model;
use std::alloc::{AllocError, Global};

/// Writes these bytes in place of what stands there.
fn write(text: &mut Vec<u8>, bytes: &[u8]) -> Result<(), AllocError>
    ensures { OnOk result (text.new.items ≡ bytes.now) }
{
    text.clear();
    text.extend_from_slice(bytes)
}

fn write_refusal(text: &mut Vec<u8>, refusal: Refusal) -> Result<(), AllocError>
    ensures { OnOk result (text.new.items ≡ refusal_text refusal) }
{
    write(text, b"error ")?;
    text.extend_from_slice(refusal.code().as_bytes())?;
    text.extend_from_slice(b"\n")
}

/// Writes the text of a reply to a line of a session over this model, in place of what stands there; of a certificate
/// nothing, as that is written where the query is. A text of one short line is written in the room that is given, so that
/// cheap lines take no memory; a longer one brings its own.
pub fn write_reply(
    text: &mut Vec<u8>,
    alloc: Global,
    model: &Model,
    reply: &Reply,
) -> Result<(), AllocError>
    ensures { OnOk result (text.new.items ≡ reply_text model.now reply.now) }
{
    let plant = model.plant();
    let made = match reply {
        Reply::Nothing => return write(text, b""),
        Reply::Accepted => return write(text, b"ok\n"),
        Reply::Refused(refusal) => return write_refusal(text, *refusal),
        Reply::Settled(listed) => settled_text(alloc, plant, 1, listed.as_slice()),
        Reply::Unsettled(listed, trials) => {
            unsettled_text(alloc, plant, 1, listed.as_slice(), *trials)
        }
        Reply::Conflicts(kept, trials) => conflicts_text(alloc, plant, kept.as_slice(), *trials),
        Reply::Committed(time, tracked) => committed_text(alloc, *time, *tracked),
        Reply::States(time, tracked) => states_text(alloc, plant, *time, tracked.as_slice()),
        Reply::Recovered(rank) => commands_text(alloc, b"recovery", model, rank),
        Reply::NoRecovery => return write(text, b"no recovery\n"),
        Reply::Undecided(trials) => undecided_text(alloc, *trials),
        Reply::CommandConflicts(kept, trials) => {
            command_conflicts_text(alloc, model, kept.as_slice(), *trials)
        }
        Reply::Labels(labels) => labels_text(alloc, model, labels.as_slice()),
        Reply::Contradiction => return write(text, b"contradiction\n"),
        Reply::Certificate => return write(text, b""),
        Reply::Probed(listed, observables, best) => {
            probe_text(alloc, model, *listed, observables.as_slice(), *best)
        }
        Reply::Tested(rank) => commands_text(alloc, b"test", model, rank),
        Reply::NoTest => return write(text, b"no test\n"),
        Reply::SettledWindow(steps, listed) => {
            settled_text(alloc, plant, *steps, listed.as_slice())
        }
        Reply::UnsettledWindow(steps, listed, trials) => {
            unsettled_text(alloc, plant, *steps, listed.as_slice(), *trials)
        }
        Reply::WindowConflicts(first, kept, trials) => {
            window_conflicts_text(alloc, plant, *first, kept.as_slice(), *trials)
        }
    };
    *text = made?;
    Ok(())
}
