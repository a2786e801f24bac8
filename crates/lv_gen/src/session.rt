//! The session: rounds in which some valves are commanded, the last valve's outlet is observed, and what that means is
//! asked for and taken over. The draws decide the commands and what is observed.
#![tactic(auto)]

ghost use Rattle.std.specs.Prelude.{◌≡◌, ◌+◌, ◌-◌, ◌<◌, ◌^◌, ◌++◌, IfOk, OnOk};
ghost use Rattle.lv_gen.specs.Draws.{state_after};
ghost use Rattle.lv_gen.specs.Session as Session;
ghost use Rattle.lv_gen.specs.Session.{command_line, command_lines, observation_line, questions, round_text, round_start, round_texts, session_text};

use crate::draws::Generator;
use crate::series::valves;
use crate::text::push_number;
use std::alloc::{AllocError, Global};

/// Rounds of a session.
const ROUNDS: u32 = 20;

/// What may be drawn at a valve: an open command, a close command, or, at two numbers, none.
const COMMAND_DRAWS: u64 = 4;

/// What may be drawn at the end of a round: no flow, or some.
const FLOWS: u64 = 2;

/// The text of the session that the number seeds, for the model of the same number.
pub fn make_session(alloc: Global, n: u32) -> Result<Vec<u8>, AllocError>
    ensures { IfOk result (λ out. out.items ≡ session_text n) }
{
    let mut out = Vec::new(alloc);
    push_rounds(&mut out, Generator::new(u64::from(n)), valves(n))?;
    out.extend_from_slice(b"states\n")?;
    Ok(out)
}

/// Adds all rounds.
fn push_rounds(out: &mut Vec<u8>, generator: Generator, valves: u32) -> Result<(), AllocError>
    requires { valves < 2 ^ 32 - 1 }
    ensures { IfOk result (λ _. out.new.items ≡ out.old.items ++ round_texts valves generator.state 20) }
{
    let mut generator = generator;
    for before in 0..ROUNDS {
        push_round(out, &mut generator, valves, before + 1)?;
    }
    Ok(())
}

/// Adds a round.
fn push_round(
    out: &mut Vec<u8>,
    generator: &mut Generator,
    valves: u32,
    round: u32,
) -> Result<(), AllocError>
    requires { valves < 2 ^ 32 - 1 }
    ensures text { IfOk result (λ _. out.new.items ≡ out.old.items ++ round_text valves generator.old.state round) }
    ensures state { OnOk result (generator.new.state ≡ state_after generator.old.state (valves + 1)) }
{
    push_commands(out, generator, valves)?;
    push_observation(out, valves, round, generator.draw(FLOWS))?;
    push_questions(out, round)
}

/// Adds the commands of a round, by a draw for each valve.
fn push_commands(
    out: &mut Vec<u8>,
    generator: &mut Generator,
    valves: u32,
) -> Result<(), AllocError>
    requires { valves < 2 ^ 32 - 1 }
    ensures text { IfOk result (λ _. out.new.items ≡ out.old.items ++ command_lines generator.old.state valves) }
    ensures state { OnOk result (generator.new.state ≡ state_after generator.old.state valves) }
{
    for before in 0..valves {
        push_command(out, before + 1, generator.draw(COMMAND_DRAWS))?;
    }
    Ok(())
}

/// Adds the command that was drawn for a valve, if it is one.
fn push_command(out: &mut Vec<u8>, valve: u32, drawn: u64) -> Result<(), AllocError>
    ensures { IfOk result (λ _. out.new.items ≡ out.old.items ++ command_line valve drawn) }
{
    match drawn {
        0 => push_order(out, valve, b"open"),
        1 => push_order(out, valve, b"close"),
        _ => Ok(()),
    }
}

/// Adds the line that commands a valve to an order.
fn push_order(out: &mut Vec<u8>, valve: u32, order: &[u8]) -> Result<(), AllocError>
    ensures { IfOk result (λ _. out.new.items ≡ out.old.items ++ Session.order_line valve order.now) }
{
    out.extend_from_slice(b"command v")?;
    push_number(out, valve)?;
    out.extend_from_slice(b".cmd = ")?;
    out.extend_from_slice(order)?;
    out.extend_from_slice(b"\n")?;
    Ok(())
}

/// Adds what was drawn to be observed at the last valve.
fn push_observation(
    out: &mut Vec<u8>,
    valves: u32,
    round: u32,
    drawn: u64,
) -> Result<(), AllocError>
    ensures { IfOk result (λ _. out.new.items ≡ out.old.items ++ observation_line valves round drawn) }
{
    out.extend_from_slice(b"observe o")?;
    push_number(out, round)?;
    out.extend_from_slice(b" v")?;
    push_number(out, valves)?;
    out.extend_from_slice(b".out = ")?;
    out.extend_from_slice(if drawn == 0 { b"zero\n" } else { b"some\n" })?;
    Ok(())
}

/// Adds what is asked in a round, and that the observation is taken back.
fn push_questions(out: &mut Vec<u8>, round: u32) -> Result<(), AllocError>
    ensures { IfOk result (λ _. out.new.items ≡ out.old.items ++ questions round) }
{
    out.extend_from_slice(b"diagnose\nconflicts\ncommit\nretract o")?;
    push_number(out, round)?;
    out.extend_from_slice(b"\n")?;
    Ok(())
}
